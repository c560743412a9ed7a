//! A machine whose faults come while it is in use.
ghost use Rattle.std.specs.Prelude.{◌≡◌, None, Some, false, OnOk};
ghost use Rattle.rig.specs.Rig.{config_of};
ghost use Rattle.example_cases.specs.LateBoards.{late_state};

use machine_config::Config;
use machine_shape::Shape;
use rig::{AttachFail, PinBits, Rig, RigFail};
use rig_board::Board;
use std::alloc::Global;
use std::marker::Model;

/// For how many cycles a session has room.
const ROOM: u32 = 4_096;

/// A board over a rig: the machine of the name that it is found by, and from a load on, counted from 1, that of another name. Each load
/// attaches it anew.
#[derive(Drop)]
pub struct LateBoard<R: Rig> {
    alloc: Global,
    inner: R,
    name: String,
    late: String,
    from: u64,
    loads: u64,
    found: Option<Shape>,
    is_set: bool,
    failures: u64,
}

impl<R: Rig> Model for LateBoard<R> {
    ghost use Rattle.example_cases.specs.LateBoards.{Late, IsDrivable};

    ghost Value = { Late };

    ghost view = { λ b. record { found = b.found; is_set = b.is_set; failures = b.failures } };

    ghost invariant = { λ b. IsDrivable b.found b.is_set (R.rig_state b.inner) };
}

impl<R: Rig> LateBoard<R> {
    /// A board that isn't found.
    pub fn new(alloc: Global, inner: R, from: u64, late: String) -> Self
        ensures { result ≡ record { found = None; is_set = false; failures = 0 } }
    {
        LateBoard {
            alloc,
            inner,
            name: String::new(alloc),
            late,
            from,
            loads: 0,
            found: None,
            is_set: false,
            failures: 0,
        }
    }
}

// Makes the rig the machine of this name, and loads it.
fn begin_anew<R: Rig>(rig: &mut R, config: &Config, name: &str) -> Result<(), RigFail>
    ensures { OnOk result (config_of (R.rig_state rig.new) ≡ Some config.now.config) }
{
    match rig.attach(&config.shape(), name) {
        Ok(()) => {}
        Err(AttachFail::Memory) => return Err(RigFail::Memory),
        Err(_) => return Err(RigFail::Failed),
    }
    rig.load(config, ROOM)
}

// The machine of the one name or of the other.
fn begin_as<R: Rig>(
    rig: &mut R,
    config: &Config,
    is_late: bool,
    late: &str,
    name: &str,
) -> Result<(), RigFail>
    ensures { OnOk result (config_of (R.rig_state rig.new) ≡ Some config.now.config) }
{
    if is_late {
        return begin_anew(rig, config, late);
    }
    begin_anew(rig, config, name)
}

impl<R: Rig> Board for LateBoard<R> {
    ghost board_state = { late_state };

    fn find(&mut self, shape: &Shape, name: &str) -> Result<(), RigFail> {
        let _failures = self.failures;
        self.found = None;
        self.is_set = false;
        match String::from_str(self.alloc, name) {
            Ok(copy) => {
                self.name = copy;
                self.found = Some(*shape);
                Ok(())
            }
            Err(_) => Err(RigFail::Memory),
        }
    }

    fn set_up(&mut self, config: &Config) -> Result<(), RigFail> {
        let failures = self.failures;
        self.is_set = false;
        self.loads = self.loads.saturating_add(1);
        let is_late = self.from <= self.loads;
        let late = self.late.as_str();
        let name = self.name.as_str();
        let begun = begin_as(&mut self.inner, config, is_late, late, name);
        match begun {
            Ok(()) => {
                self.is_set = true;
                Ok(())
            }
            Err(RigFail::Failed) => {
                self.failures = failures.saturating_add(1);
                Err(RigFail::Failed)
            }
            Err(RigFail::Memory) => Err(RigFail::Memory),
        }
    }

    fn cycle(&mut self, drive: &PinBits, read: &mut PinBits) -> Result<(), RigFail> {
        let failures = self.failures;
        match self.inner.cycle(drive, read) {
            Ok(()) => Ok(()),
            Err(_) => {
                self.is_set = false;
                self.failures = failures.saturating_add(1);
                Err(RigFail::Failed)
            }
        }
    }

    fn cycles(&mut self, drives: &[PinBits], reads: &mut [PinBits]) -> Result<(), RigFail> {
        let failures = self.failures;
        match self.inner.cycles(drives, reads) {
            Ok(()) => Ok(()),
            Err(_) => {
                self.is_set = false;
                self.failures = failures.saturating_add(1);
                Err(RigFail::Failed)
            }
        }
    }
}
