//! The search for tables that can be put into their readers.

ghost use Rattle.std.specs.Prelude.{◌≡◌, ◌<◌, false, true, length, slice_set, OnOk};
ghost use Rattle.map_network.specs.Compacting.{is_dropped};
ghost use Rattle.map_network.specs.Joining.{in_tables, IsJoined, IsPutOn, MayPut, Puts};

use crate::joining::{is_in, joined_at};
use crate::network::NetTable;
use crate::readers::Readers;
use crate::source::Source;
use std::alloc::{AllocError, Global};

/// Tables that are put into their readers, one after the other. Those that were stay in the list, marked.
#[derive(Debug, Drop)]
pub struct Work {
    pub tables: Vec<NetTable>,
    /// Who reads each table, without the marked ones.
    pub readers: Vec<Readers>,
    pub merged: Vec<bool>,
    /// Each table that may be put into its reader now.
    pub queue: Vec<u32>,
}

/// The reader takes over a source of the table that is put into it.
fn take_over(readers: &mut Vec<Readers>, reader: u32, outer: &[Source], source: Source) {
    if let Source::Table(table) = source {
        if (table as usize) < readers.len() {
            let count = readers[table as usize].count;
            let fewer = if is_in(outer, source) {
                count.saturating_sub(1)
            } else {
                count
            };
            readers[table as usize] = Readers {
                count: fewer,
                last: reader,
            };
        }
    }
}

/// The reader takes over what the table that is put into it reads.
fn take_over_all(
    readers: &mut Vec<Readers>,
    reader: u32,
    joined: &[Source],
    inner: &[Source],
    outer: &[Source],
) {
    'joined: for k in 0..joined.len() {
        if is_in(inner, joined[k]) {
            take_over(readers, reader, outer, joined[k]);
        }
    }
}

fn push_tables(queue: &mut Vec<u32>, sources: &[Source]) -> Result<(), AllocError> {
    'sources: for k in 0..sources.len() {
        if let Source::Table(table) = sources[k] {
            queue.push(table)?;
        }
    }
    Ok(())
}

/// Whether the table has a mark. One that isn't there has none.
pub fn is_marked(merged: &[bool], table: u32) -> bool
    ensures { result ≡ is_dropped merged.now table }
{
    if table as usize >= merged.len() {
        return false;
    }
    merged[table as usize]
}

fn mark(merged: &mut Vec<bool>, table: u32)
    ensures { merged.new.items ≡ slice_set merged.old.items table true }
{
    if (table as usize) < merged.len() {
        merged[table as usize] = true;
    }
}

/// Puts the joined table into the reader's place. What it reads, and itself, may be put into their readers then.
fn settle(work: &mut Work, table: u32, reader: u32, joined: NetTable) -> Result<(), AllocError>
    requires may { MayPut work.old.tables.items table reader }
    requires joined { IsJoined table (in_tables work.old.tables.items table) (in_tables work.old.tables.items reader) joined }
    requires table { is_dropped work.old.merged.items table ≡ false }
    requires reader { is_dropped work.old.merged.items reader ≡ false }
    ensures { OnOk result (IsPutOn work.old.tables.items work.old.merged.items table reader work.new.tables.items work.new.merged.items) }
{
    take_over_all(
        &mut work.readers,
        reader,
        joined.ins.as_slice(),
        work.tables[table as usize].ins.as_slice(),
        work.tables[reader as usize].ins.as_slice(),
    );
    push_tables(&mut work.queue, joined.ins.as_slice())?;
    work.queue.push(reader)?;
    mark(&mut work.merged, table);
    work.tables[reader as usize] = joined;
    Ok(())
}

/// Puts the table into the reader, if this may be and neither was put into another.
pub fn join(alloc: Global, work: &mut Work, table: u32, reader: u32) -> Result<(), AllocError>
    ensures puts { OnOk result (Puts work.old.tables.items work.old.merged.items work.new.tables.items work.new.merged.items) }
    ensures put { OnOk result (MayPut work.old.tables.items table reader →
        is_dropped work.old.merged.items table ≡ false → is_dropped work.old.merged.items reader ≡ false →
        IsPutOn work.old.tables.items work.old.merged.items table reader work.new.tables.items work.new.merged.items) }
{
    if is_marked(&work.merged, table) {
        return Ok(());
    }
    if is_marked(&work.merged, reader) {
        return Ok(());
    }
    match joined_at(alloc, &work.tables, table, reader) {
        Some(joined) => settle(work, table, reader, joined),
        None => Ok(()),
    }
}

/// Puts a table of the queue into its reader, if only one reads it.
fn try_one(alloc: Global, work: &mut Work, table: u32) -> Result<(), AllocError>
    ensures { OnOk result (Puts work.old.tables.items work.old.merged.items work.new.tables.items work.new.merged.items) }
{
    if table as usize >= work.readers.len() {
        return Ok(());
    }
    let readers = work.readers[table as usize];
    if readers.count != 1 {
        return Ok(());
    }
    join(alloc, work, table, readers.last)
}

/// Works through the queue. Each table that is put into its reader brings at most seven new entries.
pub fn run(alloc: Global, work: &mut Work) -> Result<(), AllocError>
    requires { length work.old.tables.items < 4294967296 }
    ensures { OnOk result (Puts work.old.tables.items work.old.merged.items work.new.tables.items work.new.merged.items) }
{
    let turns = 8 * work.tables.len() + 8;
    'turns: for _ in 0..turns {
        match work.queue.pop() {
            Some(table) => try_one(alloc, work, table)?,
            None => return Ok(()),
        }
    }
    Ok(())
}
