//! The search for tables that can be put into all their readers.

ghost use Rattle.std.specs.Prelude.{◌<◌, length, IfOk, OnOk};
ghost use Rattle.map_network.specs.Networks.{IsNetwork};
ghost use Rattle.map_network.specs.Spreading.{Spreads};

use crate::copying::copied_tables;
use crate::joining::{have_room, is_in, joined_at};
use crate::network::{NetTable, Network};
use crate::source::Source;
use std::alloc::{AllocError, Global};

/// How many readers a table may have, turn by turn: what costs no copy goes first.
const MOST_READERS: [usize; 5] = [1, 2, 4, 16, 64];

/// How often a table is tried on average, for each number of readers.
const TURNS: usize = 64;

/// What the search knows of the tables. Those that were put into their readers stay in the list, marked.
#[derive(Debug, Drop)]
struct Search {
    gone: Vec<bool>,
    /// What reads each table. Some of these read it no more, or are gone.
    readers: Vec<Vec<u32>>,
    /// The tables that an output shows.
    shown: Vec<bool>,
    /// The tables that may be put into their readers now.
    queue: Vec<u32>,
}

/// Tables of which some were put into all their readers, and the marks of those.
#[derive(Debug, Drop)]
pub struct Spread {
    pub tables: Vec<NetTable>,
    pub gone: Vec<bool>,
}

fn is_marked(marks: &[bool], table: u32) -> bool {
    (table as usize) < marks.len() && marks[table as usize]
}

fn mark(marks: &mut Vec<bool>, table: u32) {
    if (table as usize) < marks.len() {
        marks[table as usize] = true;
    }
}

fn mark_shown(shown: &mut Vec<bool>, outputs: &[Source]) {
    'outputs: for k in 0..outputs.len() {
        if let Source::Table(table) = outputs[k] {
            mark(shown, table);
        }
    }
}

/// Notes that the reader reads this source.
fn note_reader(readers: &mut Vec<Vec<u32>>, source: Source, reader: u32) -> Result<(), AllocError> {
    if let Source::Table(table) = source {
        if (table as usize) < readers.len() {
            readers[table as usize].push(reader)?;
        }
    }
    Ok(())
}

/// Notes that the reader reads these sources.
fn note_readers(
    readers: &mut Vec<Vec<u32>>,
    ins: &[Source],
    reader: u32,
) -> Result<(), AllocError> {
    'ins: for k in 0..ins.len() {
        note_reader(readers, ins[k], reader)?;
    }
    Ok(())
}

fn no_readers(alloc: Global, count: usize) -> Result<Vec<Vec<u32>>, AllocError> {
    let mut readers = Vec::with_capacity(alloc, count)?;
    'tables: for _ in 0..count {
        readers.push(Vec::new(alloc))?;
    }
    Ok(readers)
}

/// What reads each table.
fn all_readers(alloc: Global, tables: &[NetTable]) -> Result<Vec<Vec<u32>>, AllocError> {
    let mut readers = no_readers(alloc, tables.len())?;
    let mut reader = 0;
    'tables: for table in tables {
        note_readers(&mut readers, table.ins.as_slice(), reader)?;
        reader = reader.saturating_add(1);
    }
    Ok(readers)
}

/// Whether the table stands and reads the other.
fn still_reads(tables: &[NetTable], gone: &[bool], reader: u32, table: u32) -> bool {
    if is_marked(gone, reader) {
        return false;
    }
    match tables.get(reader as usize) {
        Some(outer) => is_in(outer.ins.as_slice(), Source::Table(table)),
        None => false,
    }
}

/// The different readers of the table, if they are at most so many. A list that is much longer isn't looked through.
fn readers_of(
    alloc: Global,
    tables: &[NetTable],
    search: &Search,
    table: u32,
    most: usize,
) -> Result<Option<Vec<u32>>, AllocError> {
    let mut found = Vec::new(alloc);
    let noted = match search.readers.get(table as usize) {
        Some(noted) => noted,
        None => return Ok(None),
    };
    if noted.len() > TURNS.saturating_mul(most) {
        return Ok(None);
    }
    'noted: for k in 0..noted.len() {
        let reader = noted[k];
        if is_one_of(&found, reader) || !still_reads(tables, &search.gone, reader, table) {
            continue;
        }
        if found.len() >= most {
            return Ok(None);
        }
        found.push(reader)?;
    }
    Ok(Some(found))
}

fn is_one_of(numbers: &[u32], number: u32) -> bool {
    'numbers: for k in 0..numbers.len() {
        if numbers[k] == number {
            return true;
        }
    }
    false
}

/// Whether the table fits into each of the readers.
fn fits(alloc: Global, tables: &[NetTable], table: u32, readers: &[u32]) -> bool {
    'readers: for k in 0..readers.len() {
        if !have_room(alloc, tables, table, readers[k]) {
            return false;
        }
    }
    true
}

/// Puts the table into the reader, if this may be.
fn put(alloc: Global, tables: &mut Vec<NetTable>, table: u32, reader: u32)
    ensures { Spreads tables.old.items tables.new.items }
{
    if let Some(joined) = joined_at(alloc, tables, table, reader) {
        tables[reader as usize] = joined;
    }
}

/// Puts the table into the readers.
fn put_all(alloc: Global, tables: &mut Vec<NetTable>, table: u32, readers: &[u32])
    ensures { Spreads tables.old.items tables.new.items }
{
    'readers: for k in 0..readers.len() {
        put(alloc, tables, table, readers[k]);
    }
}

/// Notes that the table was put into these readers, which read what it read. They may be put into their own readers now, and so
/// may what it read.
fn note_change(
    search: &mut Search,
    table: u32,
    ins: &[Source],
    readers: &[u32],
) -> Result<(), AllocError> {
    mark(&mut search.gone, table);
    'readers: for k in 0..readers.len() {
        note_readers(&mut search.readers, ins, readers[k])?;
        search.queue.push(readers[k])?;
    }
    push_tables(&mut search.queue, ins)
}

fn push_tables(queue: &mut Vec<u32>, sources: &[Source]) -> Result<(), AllocError> {
    'sources: for k in 0..sources.len() {
        if let Source::Table(table) = sources[k] {
            queue.push(table)?;
        }
    }
    Ok(())
}

/// The readers that the table is to be put into, if it may go into all of them.
fn readers_for(
    alloc: Global,
    tables: &[NetTable],
    search: &Search,
    table: u32,
    most: usize,
) -> Result<Option<Vec<u32>>, AllocError> {
    if is_marked(&search.gone, table) || is_marked(&search.shown, table) {
        return Ok(None);
    }
    match readers_of(alloc, tables, search, table, most)? {
        Some(readers) => {
            if fits(alloc, tables, table, &readers) {
                Ok(Some(readers))
            } else {
                Ok(None)
            }
        }
        None => Ok(None),
    }
}

/// Puts the table into all its readers, if it has at most so many and fits into each.
fn try_one(
    alloc: Global,
    tables: &mut Vec<NetTable>,
    search: &mut Search,
    table: u32,
    most: usize,
) -> Result<(), AllocError>
    ensures { OnOk result (Spreads tables.old.items tables.new.items) }
{
    let Some(readers) = readers_for(alloc, tables, search, table, most)? else {
        return Ok(());
    };
    if table as usize >= tables.len() {
        return Ok(());
    }
    note_change(
        search,
        table,
        tables[table as usize].ins.as_slice(),
        &readers,
    )?;
    put_all(alloc, tables, table, &readers);
    Ok(())
}

/// Queues all tables, of which the first is tried first.
fn queue_all(queue: &mut Vec<u32>, count: u32) -> Result<(), AllocError> {
    queue.clear();
    'tables: for k in 0..count {
        queue.push(count - 1 - k)?;
    }
    Ok(())
}

/// Puts tables into all their readers, where they have at most so many.
fn run(
    alloc: Global,
    tables: &mut Vec<NetTable>,
    search: &mut Search,
    most: usize,
) -> Result<(), AllocError>
    requires { length tables.old.items < 4294967296 }
    ensures { OnOk result (Spreads tables.old.items tables.new.items) }
{
    queue_all(&mut search.queue, tables.len() as u32)?;
    'turns: for _ in 0..TURNS * tables.len() {
        match search.queue.pop() {
            Some(table) => try_one(alloc, tables, search, table, most)?,
            None => return Ok(()),
        }
    }
    Ok(())
}

/// Nothing is put into a reader yet.
fn search_in(alloc: Global, network: &Network) -> Result<Search, AllocError> {
    let tables = network.tables.as_slice();
    let gone = vec![in alloc; false; tables.len()]?;
    let readers = all_readers(alloc, tables)?;
    let mut shown = vec![in alloc; false; tables.len()]?;
    mark_shown(&mut shown, network.outputs.as_slice());
    Ok(Search {
        gone,
        readers,
        shown,
        queue: Vec::new(alloc),
    })
}

/// The tables of the network, of which some were put into all their readers.
pub fn spread_tables(alloc: Global, network: &Network) -> Result<Spread, AllocError>
    requires { IsNetwork network.now }
    ensures { IfOk result (λ spread. Spreads network.now.tables spread.tables.items) }
{
    let mut search = search_in(alloc, network)?;
    let mut tables = copied_tables(alloc, network.tables.as_slice())?;
    'most: for most in MOST_READERS {
        run(alloc, &mut tables, &mut search, most)?;
    }
    Ok(Spread {
        tables,
        gone: search.gone,
    })
}
