//! Tables that are put into all their readers.

use crate::cuts::{Cut, union};
use crate::layout::{Layout, NOWHERE, Register, Table, without_leaf};
use crate::numbers::{at, is_marked, mark, set, small};
use std::alloc::{AllocError, Global};

/// With few readers first: what costs no copy goes first.
const MOST_READERS: [usize; 4] = [1, 2, 4, 16];

/// How often tables are looked at in each round, for each of them.
const MOST_LOOKS: usize = 64;

/// Tables, and which read each of them. Lists of readers may hold tables that read it no more.
#[derive(Drop)]
struct Puts {
    alloc: Global,
    tables: Vec<Table>,
    /// The table of each wire that one drives.
    table_of: Vec<u32>,
    readers: Vec<Vec<u32>>,
    /// Tables that an output shows or a latch reads.
    fixed: Vec<bool>,
    gone: Vec<bool>,
    waiting: Vec<u32>,
}

// The table of each wire.
fn tables_by_wire(alloc: Global, tables: &[Table], wires: usize) -> Result<Vec<u32>, AllocError> {
    let mut found = vec![in alloc; NOWHERE; wires]?;
    'tables: for k in 0..tables.len() {
        set(&mut found, tables[k].out as usize, small(k));
    }
    Ok(found)
}

// Lists without numbers.
fn no_lists(alloc: Global, count: usize) -> Result<Vec<Vec<u32>>, AllocError> {
    let mut lists = Vec::with_capacity(alloc, count)?;
    'lists: for _ in 0..count {
        lists.push(Vec::new(alloc))?;
    }
    Ok(lists)
}

// Marks the tables of wires that outputs show.
fn fix_shown(fixed: &mut Vec<bool>, outputs: &[u32], table_of: &[u32]) {
    'wires: for wire in outputs {
        let _ = mark(fixed, table_at(table_of, *wire));
    }
}

// Marks the tables of wires that latches read.
fn fix_read(fixed: &mut Vec<bool>, registers: &[Register], table_of: &[u32]) {
    'latches: for register in registers {
        let _ = mark(fixed, table_at(table_of, register.from));
    }
}

// Marks the tables of wires that outputs show and latches read.
fn fixed_of(alloc: Global, layout: &Layout, table_of: &[u32]) -> Result<Vec<bool>, AllocError> {
    let mut fixed = vec![in alloc; false; layout.tables.len()]?;
    fix_shown(&mut fixed, &layout.outputs, table_of);
    fix_read(&mut fixed, &layout.registers, table_of);
    Ok(fixed)
}

// The table of a wire, or no table's number.
fn table_at(table_of: &[u32], wire: u32) -> usize {
    let place = wire as usize;
    if place < table_of.len() {
        table_of[place] as usize
    } else {
        usize::MAX
    }
}

// Nothing is put anywhere.
fn puts_of(alloc: Global, layout: &mut Layout) -> Result<Puts, AllocError> {
    let count = layout.tables.len();
    let table_of = tables_by_wire(alloc, &layout.tables, layout.wires.len())?;
    let fixed = fixed_of(alloc, layout, &table_of)?;
    let gone = vec![in alloc; false; count]?;
    let readers = no_lists(alloc, count)?;
    Ok(Puts {
        alloc,
        tables: std::mem::replace(&mut layout.tables, Vec::new(alloc)),
        table_of,
        readers,
        fixed,
        gone,
        waiting: Vec::new(alloc),
    })
}

impl Puts {
    // Notes that a table reads these wires.
    fn read(&mut self, table: u32, ins: &Cut) -> Result<(), AllocError> {
        'ins: for k in 0..ins.count {
            let source = table_at(&self.table_of, ins.leaf(k));
            if source < self.readers.len() {
                self.readers[source].push(table)?;
            }
        }
        Ok(())
    }

    // Notes which tables read which.
    fn list_readers(&mut self) -> Result<(), AllocError> {
        'tables: for k in 0..self.tables.len() {
            if k < self.tables.len() {
                let ins = self.tables[k].ins;
                self.read(small(k), &ins)?;
            }
        }
        Ok(())
    }

    // Whether a table is there and reads a wire.
    fn reads(&self, table: u32, wire: u32) -> bool {
        let place = table as usize;
        if place >= self.tables.len() || is_marked(&self.gone, place) {
            return false;
        }
        self.tables[place].ins.leaves.contains(&wire)
    }

    // The tables that were noted as readers of a table, each once.
    fn listed(&mut self, table: usize) -> Vec<u32> {
        if table >= self.readers.len() {
            return Vec::new(self.alloc);
        }
        let mut listed = std::mem::replace(&mut self.readers[table], Vec::new(self.alloc));
        listed.sort_unstable();
        listed.dedup();
        listed
    }

    // Those of these tables that read a wire.
    fn still_reading(&self, listed: &[u32], wire: u32) -> Result<Vec<u32>, AllocError> {
        let mut readers = Vec::new(self.alloc);
        'readers: for reader in listed {
            if self.reads(*reader, wire) {
                readers.push(*reader)?;
            }
        }
        Ok(readers)
    }

    // Notes the readers of a table.
    fn list(&mut self, table: usize, readers: &[u32]) -> Result<(), AllocError> {
        if table < self.readers.len() {
            self.readers[table] = Vec::from_slice(self.alloc, readers)?;
        }
        Ok(())
    }

    // The tables that read a table's wire, each once.
    fn readers_of(&mut self, table: usize, wire: u32) -> Result<Vec<u32>, AllocError> {
        let listed = self.listed(table);
        let readers = self.still_reading(&listed, wire)?;
        self.list(table, &readers)?;
        Ok(readers)
    }

    // What a reader reads with a table put into it.
    fn join_into(&self, table: &Table, reader: u32) -> Option<Cut> {
        let reader = self.tables.get(reader as usize)?;
        let others = without_leaf(&reader.ins, table.out);
        union(&others, &table.ins)
    }

    // What all readers read with a table put into them, if each of them has room.
    fn all_joined(&self, table: &Table, readers: &[u32]) -> Result<Option<Vec<Cut>>, AllocError> {
        let mut cuts = Vec::new(self.alloc);
        'readers: for reader in readers {
            let Some(cut) = self.join_into(table, *reader) else {
                return Ok(None);
            };
            cuts.push(cut)?;
        }
        Ok(Some(cuts))
    }

    // Puts a table into a reader, which reads these wires then.
    fn put_into(&mut self, table: &Table, reader: u32, cut: &Cut) -> Result<(), AllocError> {
        let place = reader as usize;
        if place < self.tables.len() {
            self.tables[place].ins = *cut;
        }
        self.read(reader, &table.ins)?;
        self.waiting.push(reader)?;
        Ok(())
    }

    // Puts a table into readers.
    fn put(&mut self, table: &Table, readers: &[u32], cuts: &[Cut]) -> Result<(), AllocError> {
        'readers: for (reader, cut) in readers.iter().zip(cuts) {
            self.put_into(table, *reader, cut)?;
        }
        Ok(())
    }

    // Looks again at what a table reads.
    fn wake_sources(&mut self, table: &Table) -> Result<(), AllocError> {
        'ins: for k in 0..table.ins.count {
            let source = table_at(&self.table_of, table.ins.leaf(k));
            if source < self.tables.len() {
                self.waiting.push(small(source))?;
            }
        }
        Ok(())
    }

    // The table at a place, if it is there and nothing else shows its wire.
    fn movable(&self, place: usize) -> Option<Table> {
        if is_marked(&self.gone, place) || is_marked(&self.fixed, place) {
            return None;
        }
        self.tables.get(place).copied()
    }

    // Puts a table into these readers, if they have room.
    fn try_readers(
        &mut self,
        place: usize,
        table: &Table,
        readers: &[u32],
    ) -> Result<(), AllocError> {
        let Some(cuts) = self.all_joined(table, readers)? else {
            return Ok(());
        };
        self.put(table, readers, &cuts)?;
        let _ = mark(&mut self.gone, place);
        self.wake_sources(table)
    }

    // Puts a table into all its readers, if they are few and have room.
    fn try_table(&mut self, place: usize, table: &Table, most: usize) -> Result<(), AllocError> {
        let readers = self.readers_of(place, table.out)?;
        if readers.len() <= most {
            self.try_readers(place, table, &readers)?;
        }
        Ok(())
    }

    // Looks at the table of a place.
    fn look(&mut self, place: usize, most: usize) -> Result<(), AllocError> {
        match self.movable(place) {
            Some(table) => self.try_table(place, &table, most),
            None => Ok(()),
        }
    }

    // All tables wait, the last first.
    fn wake_all(&mut self) -> Result<(), AllocError> {
        self.waiting.clear();
        let count = self.tables.len();
        'tables: for k in 0..count {
            self.waiting
                .push(small(count.saturating_sub(k).saturating_sub(1)))?;
        }
        Ok(())
    }

    // Looks at all tables, and at those that may have become better, for so many readers.
    fn round(&mut self, most: usize) -> Result<(), AllocError> {
        self.wake_all()?;
        'looks: for _ in 0..self.tables.len().saturating_mul(MOST_LOOKS) {
            let Some(table) = self.waiting.pop() else {
                break;
            };
            self.look(table as usize, most)?;
        }
        Ok(())
    }

    // Looks at all tables, with few readers first.
    fn rounds(&mut self) -> Result<(), AllocError> {
        self.list_readers()?;
        'rounds: for most in &MOST_READERS {
            self.round(*most)?;
        }
        Ok(())
    }

    // The tables that are there.
    fn kept_tables(&self) -> Result<Vec<Table>, AllocError> {
        let mut kept = Vec::new(self.alloc);
        'tables: for k in 0..self.tables.len() {
            if !is_marked(&self.gone, k) {
                kept.push(self.tables[k])?;
            }
        }
        Ok(kept)
    }
}

/// Puts tables into all their readers, where these are other tables and have room.
pub fn put_tables(alloc: Global, layout: &mut Layout) -> Result<(), AllocError> {
    let mut puts = puts_of(alloc, layout)?;
    puts.rounds()?;
    layout.tables = puts.kept_tables()?;
    Ok(())
}
