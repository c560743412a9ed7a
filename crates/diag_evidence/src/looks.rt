//! Looks: what all pins read while nothing is driven, and while each pin is driven alone.
ghost use Rattle.std.specs.Prelude.{◌≤◌, ◌≡◌, ◌<◌, ◌+◌, ◌^◌, true, Some, None, All, length, IfOk, OnOk, IsErrOf, IsTrue};
ghost use Rattle.diag_evidence.specs.Kept.{FewCycles};
ghost use Rattle.rig.specs.Rig.{ForEach, cycles_made, shape_of};
ghost use Rattle.diag_evidence.specs.Readings.{HasCycled, LoadsUpTo};
ghost use Rattle.diag_evidence.specs.Logged.{LogsRows};
ghost use Rattle.machine_shape.specs.Shape.{pins_of};
ghost use Rattle.diag_evidence.specs.Looks.{AreSights, ReadsEach, look_drives, reads_somewhere, swings, parts, read_free, read_under};

use crate::readings::read_rows;
use machine_config::Config;
use machine_shape::{Pin, Shape};
use rig::{PinBits, Rig, RigFail};
use std::alloc::{AllocError, Global};
use std::marker::Model;

// The drives of a look: in the first cycle nothing is driven, and in the others one pin after the other.
pub(crate) fn look_drives(alloc: Global, pins: u32) -> Result<Vec<PinBits>, AllocError>
    ensures { IfOk result (λ drives. drives.items ≡ look_drives pins) }
{
    let mut drives = Vec::new(alloc);
    drives.push(PinBits::new(alloc, pins)?)?;
    'pins: for k in 0..pins {
        let mut drive = PinBits::new(alloc, pins)?;
        drive.set(Pin(k), false);
        drives.push(drive)?;
    }
    Ok(drives)
}

// A row for each cycle of a look, with any readings.
fn blank_rows(alloc: Global, pins: u32) -> Result<Vec<PinBits>, AllocError>
    requires { pins < 2 ^ 31 }
    ensures { IfOk result (λ rows. AreSights (record { pins = pins; rows = rows.items })) }
{
    let mut rows = Vec::new(alloc);
    rows.push(PinBits::new(alloc, pins)?)?;
    'pins: for k in 0..pins {
        rows.push(PinBits::new(alloc, pins)?)?;
    }
    Ok(rows)
}

// Whether a pin reads a bit in some row.
fn reads_bit(rows: &[PinBits], pin: u32, bit: bool) -> bool
    requires { All (λ row. pin < length row) rows.now }
    ensures { result ≡ reads_somewhere rows.now pin bit }
{
    'rows: for k in 0..rows.len() {
        if rows[k].get(Pin(pin)) == bit {
            return true;
        }
    }
    false
}

// Whether two pins read different values in some row.
fn parts(rows: &[PinBits], a: u32, b: u32) -> bool
    requires a { All (λ row. a < length row) rows.now }
    requires b { All (λ row. b < length row) rows.now }
    ensures { result ≡ parts rows.now a b }
{
    'rows: for k in 0..rows.len() {
        let row = &rows[k];
        if row.get(Pin(a)) != row.get(Pin(b)) {
            return true;
        }
    }
    false
}

// Whether two pins read different values in a row.
fn parts_in(rows: &[PinBits], at: usize, a: u32, b: u32) -> bool
    requires at { at < length rows.now }
    requires a { All (λ row. a < length row) rows.now }
    requires b { All (λ row. b < length row) rows.now }
    ensures { IsTrue result → parts rows.now a b ≡ true }
{
    let row = &rows[at];
    row.get(Pin(a)) != row.get(Pin(b))
}

/// What all pins of a machine read in each cycle of a look: first while nothing is driven, and then while one pin after the other
/// is driven 0 alone.
#[derive(Drop)]
pub struct Looks {
    pins: u32,
    // A row for each cycle.
    rows: Vec<PinBits>,
}

impl Model for Looks {
    ghost use Rattle.diag_evidence.specs.Looks.{Sights, AreSights, coded_sights};

    ghost Value = { Sights };

    ghost coded = { coded_sights };

    ghost view = { λ s. record { pins = s.pins; rows = s.rows.items } };

    ghost invariant = { λ s. AreSights (record { pins = s.pins; rows = s.rows.items }) };
}

impl Looks {
    /// For the pins of a machine of this shape, with any readings.
    pub fn new(alloc: Global, shape: &Shape) -> Result<Looks, AllocError>
        ensures { IfOk result (λ s. s.pins ≡ pins_of shape.now) }
    {
        let _wires = shape.wires();
        let pins = shape.pins();
        Ok(Looks {
            pins,
            rows: blank_rows(alloc, pins)?,
        })
    }

    /// How many pins there are. There is one cycle more.
    pub fn pins(&self) -> u32
        ensures pins { result ≡ self.now.pins }
        ensures sights { AreSights self.now }
    {
        self.pins
    }

    /// What a pin reads while nothing is driven.
    pub fn read_free(&self, pin: u32) -> bool
        requires { pin < self.now.pins }
        ensures { result ≡ read_free self.now.rows pin }
    {
        self.rows[0].get(Pin(pin))
    }

    /// What a pin reads while the pin `driven` is driven alone.
    pub fn read_under(&self, driven: u32, pin: u32) -> bool
        requires driven { driven < self.now.pins }
        requires pin { pin < self.now.pins }
        ensures { result ≡ read_under self.now.rows driven pin }
    {
        self.rows[driven as usize + 1].get(Pin(pin))
    }

    /// Whether a pin reads 0 in one cycle and 1 in another.
    pub fn swings(&self, pin: u32) -> bool
        requires { pin < self.now.pins }
        ensures { result ≡ swings self.now.rows pin }
    {
        reads_bit(&self.rows, pin, false) && reads_bit(&self.rows, pin, true)
    }

    /// Whether two pins read different values in some cycle.
    pub fn parts(&self, a: u32, b: u32) -> bool
        requires a { a < self.now.pins }
        requires b { b < self.now.pins }
        ensures { result ≡ parts self.now.rows a b }
    {
        if a == b {
            return false;
        }
        // Pins mostly part where one of them is driven: of many pins most rows needn't be looked at. Where many are compared with one,
        // that is the second, so that its row is looked at over and over.
        if parts_in(&self.rows, b as usize + 1, a, b) {
            return true;
        }
        parts(&self.rows, a, b)
    }

    // Takes a look at what a configuration closes, by these drives.
    pub(crate) fn take(
        &mut self,
        rig: &mut Box<dyn Rig>,
        config: &Config,
        drives: &Vec<PinBits>,
    ) -> Result<(), RigFail>
        requires attached { shape_of (rig_state rig.old) ≡ Some config.now.config.shape }
        requires pins { self.old.pins ≡ pins_of config.now.config.shape }
        requires drives { drives.now.items ≡ look_drives self.old.pins }
        ensures pins { self.new.pins ≡ self.old.pins }
        ensures loads { LoadsUpTo 1 result (rig_state rig.old) (rig_state rig.new) }
        ensures few { FewCycles (rig_state rig.old) (rig_state rig.new) }
        ensures made { cycles_made (rig_state rig.new) ≤ cycles_made (rig_state rig.old) + (self.old.pins + 1) }
        ensures wanting { IsErrOf result RigFail.Memory → (rig_state rig.new).session ≡ None }
        ensures session { OnOk result (HasCycled config.now.config (look_drives self.old.pins) (rig_state rig.new)) }
        ensures run_each { OnOk result (ForEach (rig_state rig.new) (λ told. ReadsEach told config.now.config (look_drives self.old.pins)
            self.new.rows)) }
        ensures logged { OnOk result (LogsRows config.now.config (look_drives self.old.pins) self.new.rows (rig_state rig.old)
            (rig_state rig.new)) }
    {
        read_rows(rig, config, drives, &mut self.rows, self.pins + 1)
    }
}
