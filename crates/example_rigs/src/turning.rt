//! A rig that turns a bit of one of its readings.
ghost use Rattle.std.specs.Prelude.{◌≡◌, None, []};
ghost use Rattle.example_rigs.specs.Turns.{turn_state, turned_past};

use crate::turn::Turn;
use base_log::Log;
use machine_config::Config;
use machine_shape::Shape;
use rig::{AttachFail, PinBits, Rig, RigFail};
use std::marker::Model;

// A rig, and what is counted of its session.
#[derive(Drop)]
struct Counted<R: Rig> {
    inner: R,
    turn: Turn,
}

/// Passes each call on, and turns the first bit of the reading with this number, counted from 1; with 0 it turns none. It
/// tells no faults.
#[derive(Drop)]
pub struct TurnRig<R: Rig> {
    now: Counted<R>,
    // Both as they stood when each session ended, for proofs alone.
    past: Log<Counted<R>>,
}

impl<R: Rig> Model for TurnRig<R> {
    ghost use Rattle.std.specs.Prelude.{map};
    ghost use Rattle.example_rigs.specs.Turns.{Turning, IsTurning};

    ghost Value = { Turning R };

    ghost view = { λ a. record {
      inner = a.now.inner;
      place = a.now.turn.place;
      past = map (λ t. record { inner = t.inner; place = t.turn.place }) a.past.items;
    } };

    ghost invariant = { λ a. IsTurning a.now.turn (R.rig_state a.now.inner) };
}

impl<R: Rig> TurnRig<R> {
    /// A rig over this one, which has no session.
    pub fn new(inner: R, number: u64) -> Self
        requires { (R.rig_state inner).session ≡ None }
        ensures { result ≡ record { inner = inner; place = None; past = [] } }
    {
        TurnRig {
            now: Counted {
                inner,
                turn: Turn::new(number),
            },
            past: Log::new(),
        }
    }
}

impl<R: Rig> Rig for TurnRig<R> {
    ghost rig_state = { λ s. turn_state (R.rig_state s.inner) s.place (turned_past (λ r. R.rig_state r) s.past) };

    fn attach(&mut self, shape: &Shape, name: &str) -> Result<(), AttachFail> {
        self.past = Log::new();
        self.now.inner.attach(shape, name)
    }

    fn load(&mut self, config: &Config, room: u32) -> Result<(), RigFail> {
        self.past = self.past.and(&self.now);
        self.now.inner.load(config, room)?;
        self.now.turn.begin();
        Ok(())
    }

    fn cycle(&mut self, drive: &PinBits, read: &mut PinBits) -> Result<(), RigFail> {
        let ended = self.past.and(&self.now);
        match self.now.inner.cycle(drive, read) {
            Ok(()) => {
                self.now.turn.pass(read);
                Ok(())
            }
            Err(RigFail::Failed) => {
                self.past = ended;
                Err(RigFail::Failed)
            }
            Err(RigFail::Memory) => Err(RigFail::Memory),
        }
    }

    fn cycles(&mut self, drives: &[PinBits], reads: &mut [PinBits]) -> Result<(), RigFail> {
        let ended = self.past.and(&self.now);
        match self.now.inner.cycles(drives, reads) {
            Ok(()) => {
                self.now.turn.pass_all(reads);
                Ok(())
            }
            Err(RigFail::Failed) => {
                self.past = ended;
                Err(RigFail::Failed)
            }
            Err(RigFail::Memory) => Err(RigFail::Memory),
        }
    }

    fn loads(&self) -> u64 {
        self.now.inner.loads()
    }
}
