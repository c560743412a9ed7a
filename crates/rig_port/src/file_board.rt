//! A board behind files, or over a recorded talk.
ghost use Rattle.std.specs.Prelude.{◌≡◌};

use crate::named_port::NamedPort;
use crate::port_board::PortBoard;
use machine_config::Config;
use machine_shape::Shape;
use rig::{PinBits, RigFail};
use rig_board::Board;
use std::alloc::Global;
use std::rt::Files;

/// The board behind the files that its name says, or over the talk that is recorded in one (`=LOG`): a `PortBoard` over a `NamedPort`, with
/// the runtime as its one parameter. A rig over it is put into a box in few steps of its check.
#[derive(Drop)]
pub struct FileBoard<R: Files + Drop> {
    inner: PortBoard<NamedPort<R>>,
}

impl<R: Files + Drop> FileBoard<R> {
    /// A board that isn't found, over the files of this runtime.
    pub fn new(alloc: Global, rt: R) -> Self {
        FileBoard {
            inner: PortBoard::new(alloc, NamedPort::new(alloc, rt)),
        }
    }
}

impl<R: Files + Drop> Board for FileBoard<R> {
    ghost board_state = { λ s. ⟦<PortBoard<NamedPort<R>> as Board>⟧.board_state s.inner };

    ghost may_be = { λ s. ⟦<PortBoard<NamedPort<R>> as Board>⟧.may_be s.inner };

    fn find(&mut self, shape: &Shape, name: &str) -> Result<(), RigFail> {
        self.inner.find(shape, name)
    }

    fn set_up(&mut self, config: &Config) -> Result<(), RigFail> {
        self.inner.set_up(config)
    }

    fn cycle(&mut self, drive: &PinBits, read: &mut PinBits) -> Result<(), RigFail> {
        self.inner.cycle(drive, read)
    }

    fn cycles(&mut self, drives: &[PinBits], reads: &mut [PinBits]) -> Result<(), RigFail> {
        self.inner.cycles(drives, reads)
    }
}
