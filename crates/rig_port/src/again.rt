//! What a board over a port keeps of its session, to ask it again.
ghost use Rattle.std.specs.Prelude.{◌≡◌, ◌++◌, ◌∷◌, [], List, true, All, length, take, IfOk, OnOk};
ghost use Rattle.machine_meaning.specs.Circuit.{Pins};
ghost use Rattle.rig_port.specs.Sessions.{HasRows, IsOf};

use rig::PinBits;
use std::alloc::{AllocError, Global};

/// How many bits of drives are kept at most.
const MOST_BITS: u32 = 65_536;

/// What it takes to ask a session again: the number under which the machine was asked last what it is and the line that asked, the words
/// that set all anew, and the cycles of the session.
#[derive(Drop)]
pub struct Again {
    pub number: u32,
    pub question: Vec<u8>,
    pub whole: Vec<u8>,
    // Rows for the cycles of a session, of which the first were made; and for what is read when they are made again.
    pub drives: Vec<PinBits>,
    pub readings: Vec<PinBits>,
    pub spare: Vec<PinBits>,
    pub made: usize,
    // Whether these are all cycles of the session.
    pub covers: bool,
}

/// So many rows with all pins released.
pub fn blank_rows(alloc: Global, pins: u32, count: usize) -> Result<Vec<PinBits>, AllocError>
    ensures many { IfOk result (λ rows. length rows.items ≡ count) }
    ensures wide { IfOk result (λ rows. All (λ row. length row ≡ pins) rows.items) }
{
    let mut rows = Vec::new(alloc);
    'rows: for _k in 0..count {
        let row = PinBits::new(alloc, pins)?;
        rows.push(row)?;
    }
    Ok(rows)
}

// How many cycles of a machine of so many pins are kept.
fn most_rows(pins: u32) -> usize {
    (MOST_BITS / pins.max(1)) as usize
}

impl Again {
    /// Nothing, with no room.
    pub fn new(alloc: Global) -> Again
        ensures { result.number ≡ 0 }
    {
        Again {
            number: 0,
            question: Vec::new(alloc),
            whole: Vec::new(alloc),
            drives: Vec::new(alloc),
            readings: Vec::new(alloc),
            spare: Vec::new(alloc),
            made: 0,
            covers: false,
        }
    }

    /// Makes rows for the sessions of a machine of so many pins.
    ///
    /// # Errors
    ///
    /// Out of memory.
    pub fn make_rows(&mut self, alloc: Global, pins: u32) -> Result<(), AllocError>
        ensures { OnOk result (HasRows pins self.new) }
    {
        let count = most_rows(pins);
        self.made = 0;
        self.drives = blank_rows(alloc, pins, count)?;
        self.readings = blank_rows(alloc, pins, count)?;
        self.spare = blank_rows(alloc, pins, count)?;
        Ok(())
    }

    // Keeps a cycle. Where there is no room for it, not all of the session is kept.
    fn add(&mut self, drive: &PinBits, reading: &PinBits)
        requires rows { HasRows (length drive.now) self.old }
        requires as_wide { length reading.now ≡ length drive.now }

        ensures rows { HasRows (length drive.now) self.new }
        ensures number { self.new.number ≡ self.old.number }
        ensures whole { self.new.whole ≡ self.old.whole }
        ensures kept { (drives readings : List Pins) → IsOf self.old drives readings →
            IsOf self.new (drives ++ drive.now ∷ []) (readings ++ reading.now ∷ []) }
        ensures covers { self.new.covers ≡ true → self.old.covers ≡ true }
    {
        let at = self.made;
        if at < self.drives.len() {
            self.drives[at].copy_from(drive);
            self.readings[at].copy_from(reading);
            self.made += 1;
        } else {
            self.covers = false;
        }
    }

    /// Keeps cycles. Where there is no room for one, not all of the session is kept.
    pub fn keep(&mut self, pins: u32, drives: &[PinBits], readings: &[PinBits])
        requires rows { HasRows pins self.old }
        requires drives { All (λ row. length row ≡ pins) drives.now }
        requires readings { All (λ row. length row ≡ pins) readings.now }
        requires as_many { length readings.now ≡ length drives.now }

        ensures rows { HasRows pins self.new }
        ensures number { self.new.number ≡ self.old.number }
        ensures whole { self.new.whole ≡ self.old.whole }
        ensures kept { (before after : List Pins) → IsOf self.old before after →
            IsOf self.new (before ++ drives.now) (after ++ readings.now) }
        ensures covers { self.new.covers ≡ true → self.old.covers ≡ true }
    {
        'cycles: for k in 0..drives.len() {
            self.add(&drives[k], &readings[k]);
        }
    }
}

// Whether two rows have the same bits.
fn is_same(row: &PinBits, other: &PinBits) -> bool
    ensures { result ≡ true → row.now ≡ other.now }
{
    row.as_slice() == other.as_slice()
}

/// Whether rows are the same, one by one.
pub fn are_same(rows: &[PinBits], others: &[PinBits]) -> bool
    requires { length rows.now ≡ length others.now }
    ensures { result ≡ true → rows.now ≡ others.now }
{
    'rows: for k in 0..rows.len() {
        if !is_same(&rows[k], &others[k]) {
            return false;
        }
    }
    true
}
