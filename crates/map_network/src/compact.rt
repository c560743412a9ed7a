//! A network without the tables that were put into others.

ghost use Rattle.std.specs.Prelude.{◌≡◌, ◌<◌, ◌≤◌, ℕ, true, length, map, IfOk, if◌then◌else◌};
ghost use Rattle.map_network.specs.Networks.{IsNetwork};
ghost use Rattle.map_network.specs.Levels.{AreSourcesIn, IsSourceIn};
ghost use Rattle.map_network.specs.Joining.{in_tables};
ghost use Rattle.map_network.specs.Compacting.{kept_tables, named_by, renamed, renamed_table, AreKept, AreRanks, IsClosed, IsCompacted};
ghost use Rattle.map_network.specs.Compacting.{IsKept};

use crate::network::{NetTable, Network};
use crate::source::{Source, Sources};
use base_lists::Items;
use std::alloc::{AllocError, Global};

fn is_kept(dropped: &[bool], source: Source) -> bool
    requires { IsSourceIn (length dropped.now) source }
    ensures { result ≡ true → IsKept dropped.now source }
{
    match source {
        Source::Input(_) => true,
        Source::Table(table) => !dropped[table as usize],
    }
}

fn are_kept(dropped: &[bool], sources: &[Source]) -> bool
    requires { AreSourcesIn (length dropped.now) sources.now }
    ensures { result ≡ true → AreKept dropped.now sources.now }
{
    'sources: for k in 0..sources.len() {
        if !is_kept(dropped, sources[k]) {
            return false;
        }
    }
    true
}

/// Whether nothing that stays reads a table that is dropped.
pub fn is_closed(dropped: &[bool], network: &Network) -> bool
    requires network { IsNetwork network.now }
    requires len { length dropped.now ≡ length network.now.tables }
    ensures { result ≡ true → IsClosed dropped.now network.now.tables network.now.outputs }
{
    let tables = network.tables.as_slice();
    'tables: for j in 0..tables.len() {
        if !dropped[j] {
            if !are_kept(dropped, tables[j].ins.as_slice()) {
                return false;
            }
        }
    }
    are_kept(dropped, network.outputs.as_slice())
}

/// The new number of each table that stays.
fn ranks_of(alloc: Global, dropped: &[bool]) -> Result<Vec<u32>, AllocError>
    requires { length dropped.now < 4294967296 }
    ensures { IfOk result (λ ranks. AreRanks dropped.now (length dropped.now) ranks.items) }
{
    let mut ranks = Vec::with_capacity(alloc, dropped.len())?;
    let mut count = 0;
    'tables: for j in 0..dropped.len() {
        ranks.push(count)?;
        count += one_unless(dropped[j]);
    }
    Ok(ranks)
}

fn one_unless(dropped: bool) -> u32
    ensures { result ≡ (if dropped then 0 else 1) }
{
    if dropped { 0 } else { 1 }
}

fn renamed(ranks: &[u32], source: Source) -> Source
    requires { IsSourceIn (length ranks.now) source }
    ensures { result ≡ renamed (named_by ranks.now) source }
{
    match source {
        Source::Input(input) => Source::Input(input),
        Source::Table(table) => Source::Table(ranks[table as usize]),
    }
}

fn renamed_ins(alloc: Global, ranks: &[u32], ins: &[Source]) -> Sources
    requires few { length ins.now ≤ 6 }
    requires sources { AreSourcesIn (length ranks.now) ins.now }
    ensures { result ≡ map (renamed (named_by ranks.now)) ins.now }
{
    let mut sources = Sources::new(alloc);
    'ins: for k in 0..ins.len() {
        sources.push(renamed(ranks, ins[k]));
    }
    sources
}

/// The table with new numbers of the tables that it reads, by their old ones. Takes no memory.
pub fn renamed_table(alloc: Global, ranks: &[u32], table: &NetTable) -> NetTable
    requires { AreSourcesIn (length ranks.now) table.now.ins }
    ensures { result ≡ renamed_table (named_by ranks.now) table.now }
{
    NetTable {
        ins: renamed_ins(alloc, ranks, table.ins.as_slice()),
        cells: table.cells,
        latched: table.latched,
        init: table.init,
    }
}

/// The tables that stay, with their new numbers.
fn kept_tables(
    alloc: Global,
    ranks: &[u32],
    dropped: &[bool],
    tables: &[NetTable],
) -> Result<Vec<NetTable>, AllocError>
    requires len { length dropped.now ≡ length tables.now }
    requires sources { (j : ℕ) → j < length tables.now → AreSourcesIn (length ranks.now) (in_tables tables.now j).ins }
    ensures { IfOk result (λ kept. kept.items ≡ kept_tables (named_by ranks.now) dropped.now tables.now) }
{
    let mut kept = Vec::new(alloc);
    'tables: for j in 0..tables.len() {
        if dropped[j] {
            continue;
        }
        kept.push(renamed_table(alloc, ranks, &tables[j]))?;
    }
    Ok(kept)
}

/// What the outputs show, with new numbers of the tables, by their old ones.
pub fn renamed_outputs(
    alloc: Global,
    ranks: &[u32],
    outputs: &[Source],
) -> Result<Vec<Source>, AllocError>
    requires { AreSourcesIn (length ranks.now) outputs.now }
    ensures { IfOk result (λ given. given.items ≡ map (renamed (named_by ranks.now)) outputs.now) }
{
    let mut given = Vec::with_capacity(alloc, outputs.len())?;
    'outputs: for k in 0..outputs.len() {
        given.push(renamed(ranks, outputs[k]))?;
    }
    Ok(given)
}

/// The network without the tables that are dropped. The others keep their order.
pub fn compacted(alloc: Global, network: &Network, dropped: &[bool]) -> Result<Network, AllocError>
    requires network { IsNetwork network.now }
    requires len { length dropped.now ≡ length network.now.tables }
    ensures { IfOk result (λ smaller. IsCompacted network.now dropped.now smaller) }
{
    let ranks = ranks_of(alloc, dropped)?;
    let tables = kept_tables(alloc, &ranks, dropped, network.tables.as_slice())?;
    let outputs = renamed_outputs(alloc, &ranks, network.outputs.as_slice())?;
    Ok(Network {
        inputs: network.inputs,
        tables: Items::new(tables),
        outputs: Items::new(outputs),
    })
}
