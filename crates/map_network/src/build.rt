//! The plain network of a netlist.

ghost use Rattle.std.specs.Prelude.{◌≡◌, ◌<◌, ◌++◌, ◌∷◌, [], map, length, true, IfOk, OnOk, slice_index_or};
ghost use Rattle.design_netlist.specs.Checks.{IsChecked};
ghost use Rattle.map_network.specs.Plain.{cells_where, latch_table, IsPlainNetwork};
ghost use Rattle.map_network.specs.Networks.{IsNetwork};
ghost use Rattle.map_network.specs.Rows.{HasRowsOf};
ghost use Rattle.map_network.specs.Drives.{source_in};
ghost use Rattle.map_network.specs.Bounds.{AreLatches, ArePorts};

use crate::cells::pin_mask;
use crate::covers::push_covers;
use crate::drives::origins_of;
use crate::network::{NetTable, Network};
use crate::source::{Source, Sources};
use base_lists::Items;
use design_netlist::{LatchDef, Netlist, NetlistData, PortDef};
use std::alloc::{AllocError, Global};

fn one_source(alloc: Global, source: Source) -> Sources
    ensures { result ≡ source ∷ [] }
{
    let mut ins = Sources::new(alloc);
    ins.push(source);
    ins
}

/// The cells of a table that gives what its first pin reads.
fn first_pin() -> u64
    ensures { result ≡ cells_where (λ pins. slice_index_or pins 0 true) }
{
    pin_mask(0)
}

/// The table of a latch.
fn latch_table(alloc: Global, sources: &[Source], latch: LatchDef) -> NetTable
    requires { latch.from < length sources.now }
    ensures { result ≡ latch_table (source_in sources.now) latch }
{
    NetTable {
        ins: one_source(alloc, sources[latch.from as usize]),
        cells: first_pin(),
        latched: true,
        init: latch.init,
    }
}

/// Adds a latched table for each latch.
fn push_latches(
    alloc: Global,
    tables: &mut Vec<NetTable>,
    sources: &[Source],
    latches: &[LatchDef],
) -> Result<(), AllocError>
    requires { AreLatches latches.now (length sources.now) }
    ensures { OnOk result (tables.new.items ≡ tables.old.items ++ map (latch_table (source_in sources.now)) latches.now) }
{
    'latches: for k in 0..latches.len() {
        tables.push(latch_table(alloc, sources, latches[k]))?;
    }
    Ok(())
}

/// What gives the outputs.
fn outputs_of(
    alloc: Global,
    sources: &[Source],
    outputs: &[PortDef],
) -> Result<Vec<Source>, AllocError>
    requires { ArePorts outputs.now (length sources.now) }
    ensures { IfOk result (λ given. given.items ≡ map (λ p. source_in sources.now p.signal) outputs.now) }
{
    let mut given = Vec::with_capacity(alloc, outputs.len())?;
    'outputs: for k in 0..outputs.len() {
        given.push(sources[outputs[k].signal as usize])?;
    }
    Ok(given)
}

/// The plain network of a design.
fn build(alloc: Global, draft: &NetlistData) -> Result<Network, AllocError>
    requires { IsChecked draft.now }
    ensures { IfOk result (λ network. IsPlainNetwork draft.now network) }
{
    let origins = origins_of(alloc, draft)?;
    let sources = &origins.sources;
    let mut tables = Vec::with_capacity(alloc, origins.tables)?;
    push_covers(alloc, &mut tables, sources, draft.covers.as_slice())?;
    push_latches(alloc, &mut tables, sources, draft.latches.as_slice())?;
    let outputs = outputs_of(alloc, sources, draft.outputs.as_slice())?;
    Ok(Network {
        inputs: draft.inputs.as_slice().len() as u32,
        tables: Items::new(tables),
        outputs: Items::new(outputs),
    })
}

/// The plain network of a design: one table for a cover of at most six different inputs, trees of tables for any
/// other, and a latched table for each latch. Its rows are the design's. The time is near linear in the number of
/// the rows' characters, and so is the number of tables.
///
/// # Errors
///
/// Out of memory.
pub fn plain(alloc: Global, netlist: &Netlist) -> Result<Network, AllocError>
    ensures plain { IfOk result (λ network. IsPlainNetwork netlist.now network) }
    ensures network { IfOk result (λ network. IsNetwork network) }
    ensures rows { IfOk result (λ network. HasRowsOf network netlist.now) }
{
    let network = build(alloc, netlist.parts())?;
    Ok(network)
}
