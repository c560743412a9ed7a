//! Copies of networks.

ghost use Rattle.std.specs.Prelude.{◌≡◌, ◌≤◌, length, IfOk};

use crate::network::{NetTable, Network};
use crate::source::{Source, Sources};
use base_lists::Items;
use std::alloc::{AllocError, Global};

fn copied_ins(alloc: Global, ins: &[Source]) -> Sources
    requires { length ins.now ≤ 6 }
    ensures { result ≡ ins.now }
{
    let mut sources = Sources::new(alloc);
    'ins: for k in 0..ins.len() {
        sources.push(ins[k]);
    }
    sources
}

fn copied_table(alloc: Global, table: &NetTable) -> NetTable
    ensures { result ≡ table.now }
{
    NetTable {
        ins: copied_ins(alloc, table.ins.as_slice()),
        cells: table.cells,
        latched: table.latched,
        init: table.init,
    }
}

/// The same tables.
pub fn copied_tables(alloc: Global, tables: &[NetTable]) -> Result<Vec<NetTable>, AllocError>
    ensures { IfOk result (λ copies. copies.items ≡ tables.now) }
{
    let mut copies = Vec::with_capacity(alloc, tables.len())?;
    'tables: for j in 0..tables.len() {
        copies.push(copied_table(alloc, &tables[j]))?;
    }
    Ok(copies)
}

/// The same sources.
pub fn copied_sources(alloc: Global, sources: &[Source]) -> Result<Vec<Source>, AllocError>
    ensures { IfOk result (λ copies. copies.items ≡ sources.now) }
{
    let mut copies = Vec::with_capacity(alloc, sources.len())?;
    'sources: for k in 0..sources.len() {
        copies.push(sources[k])?;
    }
    Ok(copies)
}

/// The same network once more.
///
/// # Errors
///
/// Out of memory.
pub fn copied_network(alloc: Global, network: &Network) -> Result<Network, AllocError>
    ensures { IfOk result (λ copy. copy ≡ network.now) }
{
    let tables = copied_tables(alloc, network.tables.as_slice())?;
    let outputs = copied_sources(alloc, network.outputs.as_slice())?;
    Ok(Network {
        inputs: network.inputs,
        tables: Items::new(tables),
        outputs: Items::new(outputs),
    })
}
