//! Configurations and drives of tests, each made in one from before, so that a test costs what it closes.
ghost use Rattle.std.specs.Prelude.{◌≡◌, ◌<◌, All, IfOk, length};
ghost use Rattle.machine_shape.specs.Shape.{crosses_of, tables_of, pins_of};
ghost use Rattle.machine_config.specs.Tests.{IsDrivenAlone, AreReleased};
ghost use Rattle.diag_tests.specs.Vocabulary.{IsLoopConfig, IsCellConfig, IsRoute, cross_numbers};

use crate::Facts;
use diag_tests::{Route, close_loop};
use machine_config::{Config, Setting};
use machine_shape::{Cross, Pin, Table};
use rig::PinBits;
use std::alloc::AllocError;

impl Facts {
    // A configuration of the machine.
    pub(crate) fn config(&mut self) -> Result<Config, AllocError>
        ensures shape { IfOk result (λ g. g.config.shape ≡ self.old.shape) }
        ensures same { self.new ≡ self.old }
    {
        match self.done.take() {
            Some(config) => Ok(config),
            None => Config::with_room(self.alloc, self.shape, 0),
        }
    }

    /// The configuration that closes the crosspoints of two routes and the ties, and no other. It is made of the one that
    /// was given back, where there is one.
    pub fn loop_config(
        &mut self,
        left: &Route,
        right: &Route,
        ties: &[Cross],
    ) -> Result<Config, AllocError>
        requires left { IsRoute self.old.shape left.now }
        requires right { IsRoute self.old.shape right.now }
        requires ties { All (λ c. c.0 < crosses_of self.old.shape) ties.now }
        ensures laid { IfOk result (λ g. IsLoopConfig self.old.shape left.now right.now (cross_numbers ties.now) g.config) }
        ensures same { self.new ≡ self.old }
    {
        let mut config = self.config()?;
        close_loop(&mut config, left, right, ties)?;
        Ok(config)
    }

    /// The same, with a table on that has these cells, isn't latched, and has the initial bit 1.
    pub fn cell_config(
        &mut self,
        left: &Route,
        right: &Route,
        ties: &[Cross],
        t: Table,
        cells: u64,
    ) -> Result<Config, AllocError>
        requires left { IsRoute self.old.shape left.now }
        requires right { IsRoute self.old.shape right.now }
        requires ties { All (λ c. c.0 < crosses_of self.old.shape) ties.now }
        requires table { t.0 < tables_of self.old.shape }
        ensures laid { IfOk result (λ g. IsCellConfig self.old.shape left.now right.now (cross_numbers ties.now) t.0 cells g.config) }
        ensures same { self.new ≡ self.old }
    {
        let mut config = self.loop_config(left, right, ties)?;
        let setting = Setting {
            cells,
            latched: false,
            init: true,
        };
        config.switch_on(t, setting);
        Ok(config)
    }

    /// Takes back a configuration that a test was done with.
    pub fn give_back(&mut self, config: Config)
        requires { config.config.shape ≡ self.old.shape }
        ensures { self.new ≡ self.old }
    {
        self.done = Some(config);
    }

    /// A drive that releases all pins. It is made of bits that were given back, where there are some.
    pub fn released(&mut self) -> Result<PinBits, AllocError>
        ensures released { IfOk result AreReleased }
        ensures length { IfOk result (λ drive. length drive ≡ pins_of self.old.shape) }
        ensures same { self.new ≡ self.old }
    {
        let mut drive = self.pins.take()?;
        drive.release_all();
        Ok(drive)
    }

    /// A drive that pulls this pin, and no other, to 0.
    pub fn driven(&mut self, pin: u32) -> Result<PinBits, AllocError>
        requires { pin < pins_of self.old.shape }
        ensures alone { IfOk result (λ drive. IsDrivenAlone drive pin) }
        ensures length { IfOk result (λ drive. length drive ≡ pins_of self.old.shape) }
        ensures same { self.new ≡ self.old }
    {
        let mut drive = self.released()?;
        drive.set(Pin(pin), false);
        Ok(drive)
    }

    /// Takes back a drive that a test was done with.
    pub fn give_back_drive(&mut self, drive: PinBits)
        requires { length drive ≡ pins_of self.old.shape }
        ensures { self.new ≡ self.old }
    {
        self.pins.put(drive);
    }
}
