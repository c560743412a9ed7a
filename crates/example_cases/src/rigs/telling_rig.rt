//! A rig that tells its inner rig's loads.

ghost use Rattle.std.specs.Prelude.{◌≡◌};

use machine_config::Config;
use machine_shape::Shape;
use rig::{AttachFail, PinBits, Rig, RigFail};
use std::cell::Cell;
use std::rc::Rc;

/// Passes each call on, and after each load tells how many its inner rig has made: where it is itself within another rig, nobody could
/// ask it.
#[derive(Drop)]
pub struct TellingRig<R: Rig> {
    inner: R,
    loads: Rc<Cell<u64>>,
}

impl<R: Rig> TellingRig<R> {
    /// Tells the loads of this rig there.
    pub fn new(inner: R, loads: Rc<Cell<u64>>) -> Self
        ensures { result.inner ≡ inner }
    {
        TellingRig { inner, loads }
    }
}

impl<R: Rig> Rig for TellingRig<R> {
    ghost rig_state = { λ s. R.rig_state s.inner };

    fn attach(&mut self, shape: &Shape, name: &str) -> Result<(), AttachFail> {
        self.inner.attach(shape, name)
    }

    fn load(&mut self, config: &Config, room: u32) -> Result<(), RigFail> {
        let answer = self.inner.load(config, room);
        self.loads.set(self.inner.loads());
        answer
    }

    fn cycle(&mut self, drive: &PinBits, read: &mut PinBits) -> Result<(), RigFail> {
        self.inner.cycle(drive, read)
    }

    fn cycles(&mut self, drives: &[PinBits], reads: &mut [PinBits]) -> Result<(), RigFail> {
        self.inner.cycles(drives, reads)
    }

    fn loads(&self) -> u64 {
        self.inner.loads()
    }
}
