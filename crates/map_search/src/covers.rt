//! Covers of at most six inputs for what the outputs of a design need.

use crate::cells::fill_tables;
use crate::cuts::Cut;
use crate::graph::Made;
use crate::hints::hints_of;
use crate::layout::{Layout, NOWHERE, Register, Table, Wire};
use crate::names::{FreeNames, is_plain_name, name_of};
use crate::numbers::{is_marked, mark, set, small};
use crate::passes::{Choice, Chosen, choose_cuts};
use crate::products::{Product, cheaper_of};
use crate::puts::put_tables;
use crate::reach::{Nodes, Reach, reach_of};
use crate::tables::layout_of;
use base_lists::Items;
use design_netlist::{Cover, Cube, LatchDef, Lit, Name, Names, Netlist, NetlistData, PortDef};
use std::alloc::{AllocError, Global};
use std::collections::HashMap;

/// Where a way to a table was too long, so many ANDs may lie above the leaves of a cut.
const FEW_ANDS: u32 = 15_000;

/// A design, and a label for each of its signals.
#[derive(Debug, Drop)]
pub struct Mapped {
    pub draft: NetlistData,
    pub labels: Items<u32>,
}

// Marks the wires that outputs show.
fn mark_shown(marks: &mut Vec<bool>, outputs: &[u32]) {
    'wires: for wire in outputs {
        let _ = mark(marks, *wire as usize);
    }
}

// Marks the wires that latches read.
fn mark_read(marks: &mut Vec<bool>, registers: &[Register]) {
    'latches: for register in registers {
        let _ = mark(marks, register.from as usize);
    }
}

// Marks the wires that a table reads.
fn mark_inputs(marks: &mut Vec<bool>, ins: &Cut) {
    'inputs: for k in 0..ins.count {
        let _ = mark(marks, ins.leaf(k) as usize);
    }
}

// Marks what the tables of marked wires read, the last table first.
fn mark_down(marks: &mut Vec<bool>, tables: &[Table]) {
    'tables: for k in 0..tables.len() {
        let place = tables.len().wrapping_sub(k).wrapping_sub(1);
        if place < tables.len() && is_marked(marks, tables[place].out as usize) {
            mark_inputs(marks, &tables[place].ins);
        }
    }
}

// Marks the wires that are read, by way of tables too: each reads only those in front of it.
fn read_wires(alloc: Global, layout: &Layout) -> Result<Vec<bool>, AllocError> {
    let mut marks = vec![in alloc; false; layout.wires.len()]?;
    mark_shown(&mut marks, &layout.outputs);
    mark_read(&mut marks, &layout.registers);
    mark_down(&mut marks, &layout.tables);
    Ok(marks)
}

// The tables whose wires are read.
fn read_tables(alloc: Global, layout: &Layout) -> Result<Vec<Table>, AllocError> {
    let marks = read_wires(alloc, layout)?;
    let mut tables = Vec::new(alloc);
    'tables: for table in &layout.tables {
        if is_marked(&marks, table.out as usize) {
            tables.push(*table)?;
        }
    }
    Ok(tables)
}

// Adds the wires of latches.
fn add_registers(wires: &mut Vec<u32>, registers: &[Register]) -> Result<(), AllocError> {
    'latches: for register in registers {
        wires.push(register.out)?;
    }
    Ok(())
}

// Adds the wires of tables.
fn add_tables(wires: &mut Vec<u32>, tables: &[Table]) -> Result<(), AllocError> {
    'tables: for table in tables {
        wires.push(table.out)?;
    }
    Ok(())
}

// The wires of inputs, latches and tables, in this order.
fn wires_in_order(alloc: Global, layout: &Layout) -> Result<Vec<u32>, AllocError> {
    let mut wires = Vec::from_slice(alloc, &layout.inputs)?;
    add_registers(&mut wires, &layout.registers)?;
    add_tables(&mut wires, &layout.tables)?;
    Ok(wires)
}

// Notes the name of a signal; whether it is new.
fn note_name(
    alloc: Global,
    known: &mut HashMap<Vec<u8>, bool>,
    names: &Names,
    signal: u32,
) -> Result<bool, AllocError> {
    let name = name_of(alloc, names, signal)?;
    Ok(known.insert(name.into_vec(), true)?.is_none())
}

// The names of wires that stay in any case.
fn kept_names(
    alloc: Global,
    wires: &[Wire],
    names: &Names,
) -> Result<HashMap<Vec<u8>, bool>, AllocError> {
    let mut known = HashMap::new(alloc);
    'wires: for wire in wires {
        if let Some(signal) = wire.kept {
            let _ = note_name(alloc, &mut known, names, signal)?;
        }
    }
    Ok(known)
}

// Notes the wire of a label, unless there is one.
fn note_first(found: &mut HashMap<u32, usize>, label: u32, place: usize) -> Result<(), AllocError> {
    if !found.contains_key(&label) {
        let _ = found.insert(label, place)?;
    }
    Ok(())
}

// The wire of each label that one without a name shows, the first of them.
fn unnamed(alloc: Global, wires: &[Wire]) -> Result<HashMap<u32, usize>, AllocError> {
    let mut found = HashMap::new(alloc);
    'wires: for k in 0..wires.len() {
        if wires[k].kept.is_none() {
            note_first(&mut found, wires[k].label, k)?;
        }
    }
    Ok(found)
}

// Whether a signal's name can be that of a wire, and no other one's.
fn is_free(
    alloc: Global,
    known: &mut HashMap<Vec<u8>, bool>,
    names: &Names,
    signal: u32,
) -> Result<bool, AllocError> {
    let name = name_of(alloc, names, signal)?;
    if !is_plain_name(name.as_slice()) {
        return Ok(false);
    }
    note_name(alloc, known, names, signal)
}

// Whether there is a wire at a place that has no name.
fn is_unnamed(wires: &[Wire], place: usize) -> bool {
    place < wires.len() && wires[place].kept.is_none()
}

// Gives the wire at a place the name of a signal.
fn name_at(wires: &mut Vec<Wire>, place: usize, signal: u32) {
    if place < wires.len() {
        wires[place].kept = Some(signal);
    }
}

// Gives wires the names of signals that they show, where these are free.
fn keep_names(
    alloc: Global,
    wires: &mut Vec<Wire>,
    names: &Names,
    labels: &[u32],
) -> Result<(), AllocError> {
    let mut known = kept_names(alloc, wires, names)?;
    let found = unnamed(alloc, wires)?;
    'signals: for signal in 0..labels.len() {
        let place = found.get(&labels[signal]).copied().unwrap_or(usize::MAX);
        if is_unnamed(wires, place) && is_free(alloc, &mut known, names, small(signal))? {
            name_at(wires, place, small(signal));
        }
    }
    Ok(())
}

// The names that stay are taken.
fn take_names(
    alloc: Global,
    free: &mut FreeNames,
    wires: &[Wire],
    names: &Names,
) -> Result<(), AllocError> {
    'wires: for wire in wires {
        if let Some(signal) = wire.kept {
            free.take_signal(alloc, names, signal)?;
        }
    }
    Ok(())
}

// The names that are free beside those that stay.
fn free_names(alloc: Global, wires: &[Wire], names: &Names) -> Result<FreeNames, AllocError> {
    let mut free = FreeNames::new(alloc, b'm');
    take_names(alloc, &mut free, wires, names)?;
    free.close();
    Ok(free)
}

// A design without covers and latches, the signals of wires, and the names that are free.
#[derive(Drop)]
struct Named {
    names: Names,
    labels: Vec<u32>,
    signals: Vec<u32>,
    free: FreeNames,
}

impl Named {
    // Without signals, for wires of which these names stay.
    fn new(alloc: Global, wires: &[Wire], names: &Names) -> Result<Named, AllocError> {
        let free = free_names(alloc, wires, names)?;
        let signals = vec![in alloc; NOWHERE; wires.len()]?;
        Ok(Named {
            names: Names::new(alloc),
            labels: Vec::new(alloc),
            signals,
            free,
        })
    }

    // A name that stays, or a free one.
    fn name(
        &mut self,
        alloc: Global,
        kept: Option<u32>,
        names: &Names,
    ) -> Result<Name, AllocError> {
        match kept {
            Some(signal) => name_of(alloc, names, signal),
            None => self.free.next(alloc),
        }
    }

    // Adds the signal of a wire.
    fn add(&mut self, alloc: Global, wire: Wire, names: &Names) -> Result<(), AllocError> {
        self.labels.push(wire.label)?;
        let name = self.name(alloc, wire.kept, names)?;
        self.names.push(name)
    }
}

// Names and labels of wires in order, which are the new signals.
fn name_wires(alloc: Global, layout: &Layout, names: &Names) -> Result<Named, AllocError> {
    let order = wires_in_order(alloc, layout)?;
    let mut named = Named::new(alloc, &layout.wires, names)?;
    'wires: for k in 0..order.len() {
        let wire = order[k];
        set(&mut named.signals, wire as usize, small(k));
        named.add(alloc, layout.wire(wire), names)?;
    }
    Ok(named)
}

// The signal of a wire.
fn signal_of(signals: &[u32], wire: u32) -> u32 {
    signals.get(wire as usize).copied().unwrap_or(0)
}

// The signals of wires, as words of a line.
fn ports_of(alloc: Global, signals: &[u32], wires: &[u32]) -> Result<Items<PortDef>, AllocError> {
    let mut ports = Items::empty(alloc);
    'wires: for wire in wires {
        let signal = signal_of(signals, *wire);
        ports.push(PortDef { signal, line: 0 })?;
    }
    Ok(ports)
}

// A latch.
fn latch_of(signals: &[u32], register: Register) -> LatchDef {
    LatchDef {
        from: signal_of(signals, register.from),
        out: signal_of(signals, register.out),
        init: register.init,
        line: 0,
    }
}

// The latches.
fn latches_of(
    alloc: Global,
    signals: &[u32],
    registers: &[Register],
) -> Result<Items<LatchDef>, AllocError> {
    let mut latches = Items::empty(alloc);
    'latches: for register in registers {
        latches.push(latch_of(signals, *register))?;
    }
    Ok(latches)
}

// What a product wants of an input.
fn lit_at(product: Product, k: usize) -> Lit {
    let wants = product.0.wrapping_shr(((k & 7) as u32).wrapping_shl(1));
    match wants & 3 {
        1 => Lit::One,
        2 => Lit::Zero,
        _ => Lit::Any,
    }
}

// A product of so many inputs as a row.
fn row_of(alloc: Global, product: Product, count: usize) -> Result<Cube, AllocError> {
    let mut row = Items::empty(alloc);
    'inputs: for k in 0..count {
        row.push(lit_at(product, k))?;
    }
    Ok(row)
}

// Products of so many inputs as rows.
fn rows_of(alloc: Global, products: &[Product], count: usize) -> Result<Items<Cube>, AllocError> {
    let mut rows = Items::empty(alloc);
    'products: for product in products {
        let row = row_of(alloc, *product, count)?;
        rows.push(row)?;
    }
    Ok(rows)
}

// The signals that a table reads.
fn ins_of(alloc: Global, signals: &[u32], ins: &Cut) -> Result<Items<u32>, AllocError> {
    let mut found = Items::empty(alloc);
    'inputs: for k in 0..ins.count {
        found.push(signal_of(signals, ins.leaf(k)))?;
    }
    Ok(found)
}

// A table as a cover.
fn cover_of(alloc: Global, signals: &[u32], table: &Table) -> Result<Cover, AllocError> {
    let cheaper = cheaper_of(alloc, table.cells)?;
    let rows = rows_of(alloc, &cheaper.products, table.ins.count)?;
    let ins = ins_of(alloc, signals, &table.ins)?;
    let out = signal_of(signals, table.out);
    let off = cheaper.off;
    Ok(Cover {
        out,
        ins,
        rows,
        off,
        line: 0,
    })
}

// The tables as covers.
fn covers_of(alloc: Global, signals: &[u32], tables: &[Table]) -> Result<Items<Cover>, AllocError> {
    let mut covers = Items::empty(alloc);
    'tables: for table in tables {
        let cover = cover_of(alloc, signals, table)?;
        covers.push(cover)?;
    }
    Ok(covers)
}

// Inputs and outputs.
#[derive(Drop)]
struct Ends {
    inputs: Items<PortDef>,
    outputs: Items<PortDef>,
}

// The inputs and outputs.
fn ends_of(alloc: Global, signals: &[u32], layout: &Layout) -> Result<Ends, AllocError> {
    let inputs = ports_of(alloc, signals, &layout.inputs)?;
    let outputs = ports_of(alloc, signals, &layout.outputs)?;
    Ok(Ends { inputs, outputs })
}

// Covers and latches.
#[derive(Drop)]
struct Logic {
    covers: Items<Cover>,
    latches: Items<LatchDef>,
}

// The covers and latches.
fn logic_of(alloc: Global, signals: &[u32], layout: &Layout) -> Result<Logic, AllocError> {
    let covers = covers_of(alloc, signals, &layout.tables)?;
    let latches = latches_of(alloc, signals, &layout.registers)?;
    Ok(Logic { covers, latches })
}

// A design of these parts.
fn joined(named: Named, ends: Ends, logic: Logic) -> Mapped {
    let draft = NetlistData {
        names: named.names,
        inputs: ends.inputs,
        outputs: ends.outputs,
        covers: logic.covers,
        latches: logic.latches,
    };
    Mapped {
        draft,
        labels: Items::new(named.labels),
    }
}

// The layout as a design.
fn mapped_of(alloc: Global, layout: &Layout, names: &Names) -> Result<Mapped, AllocError> {
    let named = name_wires(alloc, layout, names)?;
    let ends = ends_of(alloc, &named.signals, layout)?;
    let logic = logic_of(alloc, &named.signals, layout)?;
    Ok(joined(named, ends, logic))
}

// The cuts that are chosen.
fn chosen_cuts(
    alloc: Global,
    draft: &NetlistData,
    made: &Made,
    reach: &Reach,
    choice: Choice,
) -> Result<Chosen, AllocError> {
    let nodes = Nodes::of(&made.graph);
    let hints = hints_of(
        alloc,
        nodes,
        draft.covers.as_slice(),
        made.labels.as_slice(),
    )?;
    choose_cuts(alloc, nodes, reach, &hints, choice)
}

// Tables of chosen cuts. Where few ANDs may lie above leaves, no table is put into another one.
fn put_layout(
    alloc: Global,
    draft: &NetlistData,
    made: &Made,
    reach: &Reach,
    choice: Choice,
) -> Result<Layout, AllocError> {
    let chosen = chosen_cuts(alloc, draft, made, reach, choice)?;
    let labels = made.labels.as_slice();
    let mut layout = layout_of(alloc, draft, &made.graph, labels, reach, &chosen)?;
    if choice.ands > FEW_ANDS {
        put_tables(alloc, &mut layout)?;
    }
    Ok(layout)
}

// The cells of tables and the names of wires; whether the way to each table is short enough to be followed.
fn filled(
    alloc: Global,
    names: &Names,
    made: &Made,
    layout: &mut Layout,
) -> Result<bool, AllocError> {
    let followed = fill_tables(alloc, Nodes::of(&made.graph), layout)?;
    layout.tables = read_tables(alloc, layout)?;
    keep_names(alloc, &mut layout.wires, names, made.labels.as_slice())?;
    Ok(followed)
}

// Tables with their cells; whether the way to each of them is short enough to be followed.
fn drawn(
    alloc: Global,
    draft: &NetlistData,
    made: &Made,
    reach: &Reach,
    choice: Choice,
) -> Result<(Layout, bool), AllocError> {
    let mut layout = put_layout(alloc, draft, made, reach, choice)?;
    let followed = filled(alloc, &draft.names, made, &mut layout)?;
    Ok((layout, followed))
}

// Tables to all of which the way can be followed: with few ANDs above leaves where it is too long with any number of them.
fn best_drawn(
    alloc: Global,
    draft: &NetlistData,
    made: &Made,
    choice: Choice,
) -> Result<Layout, AllocError> {
    let reach = reach_of(alloc, draft, &made.graph, made.labels.as_slice())?;
    let (layout, followed) = drawn(alloc, draft, made, &reach, choice)?;
    if followed {
        return Ok(layout);
    }
    let ands = FEW_ANDS;
    let (layout, _) = drawn(alloc, draft, made, &reach, Choice { ands, ..choice })?;
    Ok(layout)
}

/// Covers of at most six inputs for what the outputs of a design need, chosen among so many cuts of each node of its graph; with
/// other chance others. Chance 0 is none.
///
/// # Errors
///
/// Out of memory.
pub fn cover_design(
    alloc: Global,
    netlist: &Netlist,
    made: &Made,
    cuts: u32,
    chance: u64,
) -> Result<Mapped, AllocError> {
    let draft = netlist.parts();
    let choice = Choice {
        cuts: cuts as usize,
        ands: u32::MAX,
        chance,
    };
    let layout = best_drawn(alloc, draft, made, choice)?;
    mapped_of(alloc, &layout, &draft.names)
}
