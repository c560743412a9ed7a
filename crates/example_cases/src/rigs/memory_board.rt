//! A board in memory, which fails where a case says so.
ghost use Rattle.std.specs.Prelude.{◌≡◌, ◌^◌, ◌<◌, ◌≤◌, length};
ghost use Rattle.base_io.specs.Counts.{Rose};
ghost use Rattle.example_cases.specs.MemoryBoards.{state_of};

use machine_config::Config;
use machine_shape::{Pin, Shape};
use rig::{PinBits, RigFail};
use rig_board::Board;
use std::cell::Cell;
use std::rc::Rc;

/// What a case says to its board, and what the board tells it.
#[derive(Drop)]
pub struct Orders {
    next: Cell<Option<RigFail>>,
    failures: Cell<u64>,
}

impl Orders {
    /// No call fails, and none has.
    pub fn new() -> Orders {
        Orders {
            next: Cell::new(None),
            failures: Cell::new(0),
        }
    }

    /// The next call fails so. A cycle has no want of memory, and fails.
    pub fn fail_next(&self, fail: RigFail) {
        self.next.set(Some(fail));
    }

    /// How many calls have failed.
    pub fn failures(&self) -> u64 {
        self.failures.get()
    }

    // What the call that is made fails with.
    fn take(&self) -> Option<RigFail> {
        let fail = self.next.get();
        self.next.set(None);
        fail
    }

    // The count of failures after one more.
    fn counted(&self, failures: u64) -> u64
        ensures rose { Rose failures result }
        ensures later { failures ≤ result }
    {
        let more = failures.saturating_add(1);
        self.failures.set(more);
        more
    }
}

/// A board in memory. Its pins read what they are driven; where a crosspoint is closed, the first reads the opposite.
#[derive(Drop)]
pub struct MemoryBoard {
    orders: Rc<Orders>,
    found: Option<Shape>,
    is_set: bool,
    closes: bool,
    failures: u64,
}

impl MemoryBoard {
    /// A board that isn't found.
    pub fn new(orders: Rc<Orders>) -> MemoryBoard {
        MemoryBoard {
            orders,
            found: None,
            is_set: false,
            closes: false,
            failures: 0,
        }
    }
}

// What the pins read.
fn read_pins(drive: &PinBits, read: &mut PinBits, closes: bool)
    ensures { length read.new ≡ length read.old }
{
    if drive.len() != read.len() {
        return;
    }
    read.copy_from(drive);
    if closes && 0 < read.len() {
        let bit = read.get(Pin(0));
        read.set(Pin(0), !bit);
    }
}

impl Board for MemoryBoard {
    ghost board_state = { state_of };

    fn find(&mut self, shape: &Shape, name: &str) -> Result<(), RigFail> {
        let failures = self.failures;
        self.found = None;
        self.is_set = false;
        match self.orders.take() {
            Some(RigFail::Failed) => {
                self.failures = self.orders.counted(failures);
                Err(RigFail::Failed)
            }
            Some(RigFail::Memory) => Err(RigFail::Memory),
            None => {
                self.found = Some(*shape);
                Ok(())
            }
        }
    }

    fn set_up(&mut self, config: &Config) -> Result<(), RigFail> {
        let failures = self.failures;
        self.is_set = false;
        match self.orders.take() {
            Some(RigFail::Failed) => {
                self.failures = self.orders.counted(failures);
                Err(RigFail::Failed)
            }
            Some(RigFail::Memory) => Err(RigFail::Memory),
            None => {
                self.is_set = true;
                self.closes = !config.closed().is_empty();
                Ok(())
            }
        }
    }

    fn cycle(&mut self, drive: &PinBits, read: &mut PinBits) -> Result<(), RigFail> {
        let failures = self.failures;
        if self.orders.take().is_some() {
            self.failures = self.orders.counted(failures);
            return Err(RigFail::Failed);
        }
        read_pins(drive, read, self.closes);
        Ok(())
    }

    fn cycles(&mut self, drives: &[PinBits], reads: &mut [PinBits]) -> Result<(), RigFail> {
        let _failures = self.failures;
        'turns: for k in 0..drives.len() {
            self.cycle(&drives[k], &mut reads[k])?;
        }
        Ok(())
    }
}
