//! How a session is kept: the rows for the cycles that were asked room for are made at once, so a cycle within it takes no memory.
ghost use Rattle.std.specs.Prelude.{◌≡◌, ◌+◌, ◌-◌, ◌<◌, ◌≤◌, min, [], ◌∷◌, ◌++◌, All, length, vec_len, IfOk, OnOk, OnErr};
ghost use Rattle.std.specs.Vec.{vec_capacity};
ghost use Rattle.machine_shape.specs.Shape.{pins_of};
ghost use Rattle.rig_board.specs.Kept.{session_of, HasAdded};
ghost use Rattle.rig_board.specs.Rows.{IsPair, AreBlank};

use crate::kept::{Kept, Row};
use machine_config::{Config, Setting};
use machine_shape::Table;
use rig::PinBits;
use std::alloc::{AllocError, Global};

fn blank_row(alloc: Global, pins: u32) -> Result<Row, AllocError>
    ensures { IfOk result (IsPair pins) }
{
    let drive = PinBits::new(alloc, pins)?;
    let reading = PinBits::new(alloc, pins)?;
    Ok(Row { drive, reading })
}

fn blank_rows(alloc: Global, pins: u32, count: usize) -> Result<Vec<Row>, AllocError>
    ensures length { IfOk result (λ v. length v.items ≡ count) }
    ensures wide { IfOk result (λ v. AreBlank pins v.items) }
{
    let mut rows = Vec::new(alloc);
    'rows: for _k in 0..count {
        let row = blank_row(alloc, pins)?;
        rows.push(row)?;
    }
    Ok(rows)
}

fn tables_of(alloc: Global, config: &Config) -> Result<Vec<Option<Setting>>, AllocError>
    ensures { IfOk result (λ v. v.items ≡ config.now.config.tables) }
{
    let shape = config.shape();
    let mut tables = Vec::new(alloc);
    'tables: for t in 0..shape.tables() {
        tables.push(config.setting(Table(t)))?;
    }
    Ok(tables)
}

impl Kept {
    /// A session with this configuration, no cycles, and room for so many.
    pub fn new(alloc: Global, config: &Config, room: u32) -> Result<Kept, AllocError>
        ensures config { IfOk result (λ k. (session_of k).config ≡ config.now.config) }
        ensures cycles { IfOk result (λ k. (session_of k).cycles ≡ []) }
        ensures room { IfOk result (λ k. room ≤ (session_of k).spare) }
        ensures wide { IfOk result (λ k. AreBlank (pins_of k.shape) k.blank.items) }
    {
        let shape = config.shape();
        let mut closed = Vec::new(alloc);
        closed.extend_from_slice(config.closed())?;
        let tables = tables_of(alloc, config)?;
        let rows = Vec::with_capacity(alloc, room as usize)?;
        let blank = blank_rows(alloc, shape.pins(), room as usize)?;
        Ok(Kept {
            shape,
            closed,
            tables,
            ticks: config.ticks(),
            rows,
            blank,
        })
    }

    /// A row for a cycle, and a place for it. Memory is wanting only where there was no room.
    pub fn next_row(&mut self, alloc: Global, pins: u32) -> Result<Row, AllocError>
        requires { AreBlank pins self.old.blank.items }

        ensures config { (session_of self.new).config ≡ (session_of self.old).config }
        ensures cycles { (session_of self.new).cycles ≡ (session_of self.old).cycles }
        ensures wide { AreBlank pins self.new.blank.items }
        ensures row { IfOk result (IsPair pins) }
        ensures place { OnOk result (vec_len self.new.rows < vec_capacity self.new.rows) }
        ensures spare { OnOk result ((session_of self.old).spare ≤ min (length self.new.blank.items + 1)
            (vec_capacity self.new.rows - vec_len self.new.rows)) }
        ensures full { OnErr result ((session_of self.old).spare ≡ 0) }
        ensures same { OnErr result ((session_of self.new).spare ≡ 0) }
    {
        self.rows.reserve(1)?;
        match self.blank.pop() {
            Some(row) => Ok(row),
            None => blank_row(alloc, pins),
        }
    }

    /// Adds a cycle.
    pub fn add(&mut self, row: Row)
        requires { vec_len self.old.rows < vec_capacity self.old.rows }

        ensures config { (session_of self.new).config ≡ (session_of self.old).config }
        ensures cycles { (session_of self.new).cycles ≡ (session_of self.old).cycles
            ++ record { drive = row.drive; reading = row.reading } ∷ [] }
        ensures blank { self.new.blank ≡ self.old.blank }
        ensures spare { min (length self.old.blank.items + 1) (vec_capacity self.old.rows - vec_len self.old.rows)
            ≤ (session_of self.new).spare + 1 }
    {
        self.rows.push_reserved(row);
    }

    /// Makes blank rows for so many cycles, and places for them. Memory is wanting only where there was room for fewer, and then
    /// all is as it was.
    pub fn make_room(&mut self, alloc: Global, pins: u32, count: usize) -> Result<(), AllocError>
        requires { AreBlank pins self.old.blank.items }

        ensures shape { self.new.shape ≡ self.old.shape }
        ensures config { (session_of self.new).config ≡ (session_of self.old).config }
        ensures cycles { (session_of self.new).cycles ≡ (session_of self.old).cycles }
        ensures wide { AreBlank pins self.new.blank.items }
        ensures blank { OnOk result (count ≤ length self.new.blank.items) }
        ensures place { OnOk result (vec_len self.new.rows + count ≤ vec_capacity self.new.rows) }
        ensures spare { OnOk result ((session_of self.old).spare ≤ (session_of self.new).spare) }
        ensures full { OnErr result ((session_of self.old).spare < count) }
        ensures same { OnErr result (session_of self.new ≡ session_of self.old) }
    {
        if self.blank.len() < count {
            let more = blank_rows(alloc, pins, count)?;
            self.rows.reserve(count)?;
            self.blank = more;
        } else {
            self.rows.reserve(count)?;
        }
        Ok(())
    }

    // Adds a cycle that was driven and read so.
    fn add_pair(&mut self, drive: &PinBits, read: &PinBits)
        requires wide { AreBlank (length drive.now) self.old.blank.items }
        requires blank { 0 < length self.old.blank.items }
        requires place { vec_len self.old.rows < vec_capacity self.old.rows }
        requires as_wide { length read.now ≡ length drive.now }

        ensures shape { self.new.shape ≡ self.old.shape }
        ensures config { (session_of self.new).config ≡ (session_of self.old).config }
        ensures cycles { (session_of self.new).cycles ≡ (session_of self.old).cycles
            ++ record { drive = drive.now; reading = read.now } ∷ [] }
        ensures wide { AreBlank (length drive.now) self.new.blank.items }
        ensures blank { length self.new.blank.items + 1 ≡ length self.old.blank.items }
        ensures rows { vec_len self.new.rows ≡ vec_len self.old.rows + 1 }
        ensures place { vec_capacity self.new.rows ≡ vec_capacity self.old.rows }
    {
        let Some(mut row) = self.blank.pop() else {
            unreachable!()
        };
        row.drive.copy_from(drive);
        row.reading.copy_from(read);
        self.rows.push_reserved(row);
    }

    /// Adds as many cycles as there are drives, within the room.
    pub fn add_all(&mut self, drives: &[PinBits], reads: &[PinBits])
        requires wide { AreBlank (pins_of self.old.shape) self.old.blank.items }
        requires drives { All (λ row. length row ≡ pins_of self.old.shape) drives.now }
        requires reads { All (λ row. length row ≡ pins_of self.old.shape) reads.now }
        requires as_many { length reads.now ≡ length drives.now }
        requires blank { length drives.now ≤ length self.old.blank.items }
        requires place { vec_len self.old.rows + length drives.now ≤ vec_capacity self.old.rows }

        ensures shape { self.new.shape ≡ self.old.shape }
        ensures config { (session_of self.new).config ≡ (session_of self.old).config }
        ensures cycles { HasAdded drives.now reads.now (session_of self.old) (session_of self.new) }
        ensures wide { AreBlank (pins_of self.new.shape) self.new.blank.items }
        ensures spare { (session_of self.old).spare ≤ (session_of self.new).spare + length drives.now }
    {
        'pairs: for k in 0..drives.len() {
            self.add_pair(&drives[k], &reads[k]);
        }
    }
}
