//! The nets of a design whose covers are tables.

use crate::tree::small;
use design_netlist::{Cover, LatchDef, NetlistData, PortDef};
use std::alloc::{AllocError, Global};

/// No table.
pub const NOTHING: u32 = u32::MAX;

/// The tables that drive or read a net, each once; how often tables have it at a pin beyond that; and how many pins of the
/// machine are on it.
#[derive(Drop)]
pub struct TablesOfNet {
    pub tables: Vec<u32>,
    pub twice: Vec<u32>,
    pub pins: u32,
}

/// The nets of a design, one for each signal; for each table its nets; and how many tables come before those of latches.
#[derive(Drop)]
pub struct Nets {
    pub nets: Vec<TablesOfNet>,
    pub of: Vec<Vec<u32>>,
    pub split: usize,
    pub pins: usize,
}

// A net without tables.
fn no_tables(alloc: Global) -> TablesOfNet {
    TablesOfNet {
        tables: Vec::new(alloc),
        twice: Vec::new(alloc),
        pins: 0,
    }
}

// Nets without tables.
fn no_nets(alloc: Global, count: usize) -> Result<Vec<TablesOfNet>, AllocError> {
    let mut nets = Vec::with_capacity(alloc, count)?;
    'nets: for _ in 0..count {
        nets.push(no_tables(alloc))?;
    }
    Ok(nets)
}

// Puts a table on a net.
fn add_table(nets: &mut Vec<TablesOfNet>, place: usize, table: u32) -> Result<(), AllocError> {
    if place < nets.len() {
        nets[place].tables.push(table)?;
    }
    Ok(())
}

// Notes that a table has a net at one pin more.
fn add_twice(nets: &mut Vec<TablesOfNet>, place: usize, table: u32) -> Result<(), AllocError> {
    if place < nets.len() {
        nets[place].twice.push(table)?;
    }
    Ok(())
}

// Puts a table on a net, if it wasn't put there last.
fn join(
    nets: &mut Vec<TablesOfNet>,
    own: &mut Vec<u32>,
    signal: u32,
    table: u32,
) -> Result<(), AllocError> {
    let place = signal as usize;
    if place >= nets.len() || own.contains(&signal) {
        return Ok(());
    }
    add_table(nets, place, table)?;
    own.push(signal)?;
    Ok(())
}

// Puts a table on the nets that it reads, where it drives one.
fn join_ins(
    nets: &mut Vec<TablesOfNet>,
    own: &mut Vec<u32>,
    table: u32,
    out: u32,
    ins: &[u32],
) -> Result<(), AllocError> {
    'ins: for signal in ins {
        join(nets, own, *signal, table)?;
        if *signal == out {
            add_twice(nets, out as usize, table)?;
        }
    }
    Ok(())
}

// The nets of a table that drives a signal and reads others.
fn join_table(
    alloc: Global,
    nets: &mut Vec<TablesOfNet>,
    table: u32,
    out: u32,
    ins: &[u32],
) -> Result<Vec<u32>, AllocError> {
    let mut own = Vec::new(alloc);
    join(nets, &mut own, out, table)?;
    join_ins(nets, &mut own, table, out, ins)?;
    Ok(own)
}

// The tables of covers.
fn join_covers(
    alloc: Global,
    nets: &mut Vec<TablesOfNet>,
    of: &mut Vec<Vec<u32>>,
    covers: &[Cover],
) -> Result<(), AllocError> {
    'covers: for cover in covers {
        let table = small(of.len());
        let own = join_table(alloc, nets, table, cover.out, cover.ins.as_slice())?;
        of.push(own)?;
    }
    Ok(())
}

// The tables of latches.
fn join_latches(
    alloc: Global,
    nets: &mut Vec<TablesOfNet>,
    of: &mut Vec<Vec<u32>>,
    latches: &[LatchDef],
) -> Result<(), AllocError> {
    'latches: for latch in latches {
        let table = small(of.len());
        let own = join_table(alloc, nets, table, latch.out, &[latch.from])?;
        of.push(own)?;
    }
    Ok(())
}

// One more pin of a net.
fn add_pin(nets: &mut Vec<TablesOfNet>, place: usize) {
    if place < nets.len() {
        nets[place].pins = nets[place].pins.saturating_add(1);
    }
}

// Pins of inputs or outputs.
fn add_pins(nets: &mut Vec<TablesOfNet>, ports: &[PortDef]) {
    'ports: for port in ports {
        add_pin(nets, port.signal as usize);
    }
}

// The tables of covers and latches; how many come before those of latches.
fn join_all(
    alloc: Global,
    nets: &mut Vec<TablesOfNet>,
    of: &mut Vec<Vec<u32>>,
    draft: &NetlistData,
) -> Result<usize, AllocError> {
    join_covers(alloc, nets, of, draft.covers.as_slice())?;
    let split = of.len();
    join_latches(alloc, nets, of, draft.latches.as_slice())?;
    Ok(split)
}

/// The nets of a design.
pub fn nets_of(alloc: Global, draft: &NetlistData) -> Result<Nets, AllocError> {
    let inputs = draft.inputs.as_slice().len();
    let outputs = draft.outputs.as_slice().len();
    let mut nets = no_nets(alloc, draft.names.len())?;
    let mut of = Vec::new(alloc);
    let split = join_all(alloc, &mut nets, &mut of, draft)?;
    add_pins(&mut nets, draft.inputs.as_slice());
    add_pins(&mut nets, draft.outputs.as_slice());
    Ok(Nets {
        nets,
        of,
        split,
        pins: inputs.saturating_add(outputs),
    })
}

/// The nets of a table.
pub fn nets_at(nets: &Nets, table: usize) -> &[u32] {
    match nets.of.get(table) {
        Some(own) => own.as_slice(),
        None => &[],
    }
}

/// The tables of a net.
pub fn tables_at(nets: &Nets, net: usize) -> &[u32] {
    match nets.nets.get(net) {
        Some(net) => net.tables.as_slice(),
        None => &[],
    }
}

/// Whether a pin of the machine is on a net.
pub fn is_pinned(nets: &Nets, net: usize) -> bool {
    match nets.nets.get(net) {
        Some(net) => net.pins > 0,
        None => false,
    }
}
