//! A table that is put into its reader.

ghost use Rattle.std.specs.Prelude.{◌≡◌, ◌+◌, ◌<◌, ◌≤◌, ◌++◌, length, map, MatchOption, slice_index_or};
ghost use Rattle.map_network.specs.declared.source.Source.TheVariants.{Input};
ghost use Rattle.map_network.specs.Plain.{distinct};
ghost use Rattle.map_network.specs.Cells.{is_among};
ghost use Rattle.map_network.specs.Merging.{number, numbers_without};
ghost use Rattle.map_network.specs.Joining.{in_tables, IsJoined, MayPut};

use crate::composing::joined_cells;
use crate::network::NetTable;
use crate::source::{Source, Sources};
use base_table::TABLE_INPUTS;
use std::alloc::Global;

/// A number for each source.
pub fn number(source: Source) -> u64
    ensures { result ≡ number source }
{
    match source {
        Source::Input(input) => 2 * (input as u64),
        Source::Table(table) => 2 * (table as u64) + 1,
    }
}

/// Whether the source is one of these.
pub fn is_in(sources: &[Source], source: Source) -> bool
    ensures { result ≡ is_among (map number sources.now) (number source) }
{
    'sources: for k in 0..sources.len() {
        if number(sources[k]) == number(source) {
            return true;
        }
    }
    false
}

/// A source of two lists, one behind the other.
fn source_of_both(first: &[Source], second: &[Source], k: usize) -> Source
    requires { k < length first.now + length second.now }
    ensures { result ≡ slice_index_or (first.now ++ second.now) k (Input 0) }
{
    if k < first.len() {
        first[k]
    } else {
        second[k - first.len()]
    }
}

/// The different sources of two tables, without the one that is put into the other, if they are at most six.
fn together(alloc: Global, table: u32, first: &[Source], second: &[Source]) -> Option<Sources>
    requires first { length first.now ≤ 6 }
    requires second { length second.now ≤ 6 }
    ensures { MatchOption result (6 < length (distinct (numbers_without table first.now second.now)))
        (λ sources. map number sources ≡ distinct (numbers_without table first.now second.now)) }
{
    let mut sources = Sources::new(alloc);
    'both: for k in 0..first.len() + second.len() {
        let source = source_of_both(first, second, k);
        if number(source) == number(Source::Table(table)) {
            continue;
        }
        if is_in(sources.as_slice(), source) {
            continue;
        }
        if sources.as_slice().len() == TABLE_INPUTS {
            return None;
        }
        sources.push(source);
    }
    Some(sources)
}

/// The reader with the table put into it, if they have at most six sources together.
fn joined(alloc: Global, table: u32, inner: &NetTable, reader: &NetTable) -> Option<NetTable>
    ensures { MatchOption result (6 < length (distinct (numbers_without table reader.now.ins inner.now.ins)))
        (λ joined. IsJoined table inner.now reader.now joined) }
{
    let ins = together(alloc, table, reader.ins.as_slice(), inner.ins.as_slice())?;
    let cells = joined_cells(ins.as_slice(), table, inner, reader);
    Some(NetTable {
        ins,
        cells,
        latched: reader.latched,
        init: reader.init,
    })
}

/// The reader with the table put into it, if this may be.
pub fn joined_at(alloc: Global, tables: &[NetTable], table: u32, reader: u32) -> Option<NetTable>
    ensures { MatchOption result (MayPut tables.now table reader → ⊥)
        (λ joined. MayPut tables.now table reader × IsJoined table (in_tables tables.now table) (in_tables tables.now reader) joined) }
{
    if table as usize >= tables.len() {
        return None;
    }
    if reader as usize >= tables.len() {
        return None;
    }
    let inner = &tables[table as usize];
    let outer = &tables[reader as usize];
    if table == reader {
        return None;
    }
    if inner.latched {
        return None;
    }
    if !is_in(outer.ins.as_slice(), Source::Table(table)) {
        return None;
    }
    joined(alloc, table, inner, outer)
}

/// Whether the table can be put into the reader, as far as its kind and the number of their sources go.
pub fn have_room(alloc: Global, tables: &[NetTable], table: u32, reader: u32) -> bool {
    if table as usize >= tables.len() || reader as usize >= tables.len() || table == reader {
        return false;
    }
    let inner = &tables[table as usize];
    let outer = &tables[reader as usize];
    if inner.latched {
        return false;
    }
    together(alloc, table, outer.ins.as_slice(), inner.ins.as_slice()).is_some()
}
