//! A session that can be asked again.
ghost use Rattle.std.specs.Prelude.{◌≡◌, ◌^◌, ◌-◌, ◌+◌, ◌<◌, ◌≤◌, ◌++◌, [], ◌∷◌, List, None, Some, true, min, length, IfSome, IsSome, IfOk};
ghost use Rattle.std.specs.Prelude.{IfErr, OnOk};
ghost use Rattle.machine_meaning.specs.Circuit.{Pins};
ghost use Rattle.machine_shape.specs.Shape.{pins_of};
ghost use Rattle.machine_config.specs.Faulty.{IsRun};
ghost use Rattle.base_io.specs.Counts.{next_count};
ghost use Rattle.machine_meaning.specs.Faults.{Faults};
ghost use Rattle.rig.specs.Rig.{shape_of, LoadFails, KeepLengths, Explains, ForEach, Narrows};
ghost use Rattle.rig_doubled.specs.Repeats.{HaveWidth, IsRoomy, IsKept, IsRunUnder, KeepsFor};

use crate::copied::copy_of;
use crate::rows::{are_same, blank_rows};
use machine_config::Config;
use rig::{PinBits, Rig, RigFail};
use std::alloc::{AllocError, Global};

/// What was loaded, and the first cycles since.
#[derive(Drop)]
pub struct Kept {
    config: Config,
    // A row for each cycle that there is room for. The first `made` of them are cycles that were made.
    drives: Vec<PinBits>,
    readings: Vec<PinBits>,
    made: u32,
    // For what is read when the session is asked again.
    again: Vec<PinBits>,
}

impl Kept {
    /// What is kept of a new session, with room for so many cycles.
    ///
    /// # Errors
    ///
    /// Out of memory.
    pub fn new(alloc: Global, config: &Config, room: u32) -> Result<Kept, AllocError>
        ensures config { IfOk result (λ kept. kept.config.config ≡ config.now.config) }
        ensures kept { IfOk result (λ kept. IsKept kept [] []) }
    {
        let pins = config.shape().pins();
        let drives = blank_rows(alloc, pins, room)?;
        let readings = blank_rows(alloc, pins, room)?;
        let again = blank_rows(alloc, pins, room)?;
        let copy = copy_of(alloc, config)?;
        Ok(Kept {
            config: copy,
            drives,
            readings,
            made: 0,
            again,
        })
    }

    /// Keeps a cycle, where there is room for it.
    pub fn add(&mut self, drive: &PinBits, reading: &PinBits)
        requires roomy { IsRoomy self.old }
        requires drive_pins { length drive.now ≡ pins_of self.old.config.config.shape }
        requires read_pins { length reading.now ≡ pins_of self.old.config.config.shape }
        ensures config { self.new.config ≡ self.old.config }
        ensures roomy { IsRoomy self.new }
        ensures kept { (drives readings : List Pins) → IsKept self.old drives readings →
            IsKept self.new (drives ++ drive.now ∷ []) (readings ++ reading.now ∷ []) }
    {
        let at = self.made as usize;
        if at < self.drives.len() {
            self.drives[at].copy_from(drive);
            self.readings[at].copy_from(reading);
            self.made += 1;
        }
    }

    /// Keeps cycles, as far as there is room for them.
    pub fn add_all(&mut self, drives: &[PinBits], readings: &[PinBits])
        requires roomy { IsRoomy self.old }
        requires as_many { length drives.now ≡ length readings.now }
        requires drive_pins { HaveWidth (pins_of self.old.config.config.shape) drives.now }
        requires read_pins { HaveWidth (pins_of self.old.config.config.shape) readings.now }
        ensures config { self.new.config ≡ self.old.config }
        ensures kept { (before after : List Pins) → IsKept self.old before after →
            IsKept self.new (before ++ drives.now) (after ++ readings.now) }
    {
        'cycles: for k in 0..drives.len() {
            self.add(&drives[k], &readings[k]);
        }
    }
}

/// What is kept of a new session that is asked so many times: nothing where that is once.
///
/// # Errors
///
/// Out of memory.
pub fn kept_for(
    alloc: Global,
    times: u8,
    config: &Config,
    room: u32,
) -> Result<Option<Kept>, AllocError>
    requires { 1 ≤ times }
    ensures { IfOk result (KeepsFor times config.now.config) }
{
    if times == 1 {
        return Ok(None);
    }
    let kept = Kept::new(alloc, config, room)?;
    Ok(Some(kept))
}

// Loads a configuration, drives it, and compares what is read with what was read before. It is the same where the faults are
// told and it was their run, and where a set of faults explains all that was read.
fn ask<R: Rig>(
    inner: &mut R,
    config: &Config,
    drives: &[PinBits],
    readings: &[PinBits],
    again: &mut [PinBits],
) -> Result<bool, RigFail>
    requires attached { shape_of (R.rig_state inner.old) ≡ Some config.now.config.shape }
    requires few { length drives.now < 2 ^ 32 }
    requires drive_pins { HaveWidth (pins_of config.now.config.shape) drives.now }
    requires read_pins { HaveWidth (pins_of config.now.config.shape) again.old }
    requires as_many { length drives.now ≡ length again.old }
    requires read { length readings.now ≡ length drives.now }
    requires told { IfSome (R.rig_state inner.old).machine.faults (λ f. IsRun f config.now.config drives.now readings.now) }
    requires explained { (f : Faults) → Explains f (R.rig_state inner.old) → IsRun f config.now.config drives.now readings.now }

    ensures machine { (R.rig_state inner.new).machine ≡ (R.rig_state inner.old).machine }
    ensures later { (R.rig_state inner.old).failures ≤ (R.rig_state inner.new).failures }
    ensures count { (R.rig_state inner.new).failures < 2 ^ 64 }
    ensures lengths { KeepLengths again.old again.new }
    ensures loads { OnOk result ((R.rig_state inner.new).loads ≡ next_count (R.rig_state inner.old).loads) }
    ensures refused { IfErr result (λ e. LoadFails e (R.rig_state inner.old) (R.rig_state inner.new)) }
    ensures narrows { Narrows (R.rig_state inner.old) (R.rig_state inner.new) }
    ensures same { IsSome (R.rig_state inner.old).machine.faults → IfOk result (λ same. same ≡ true) }
    ensures explained { (f : Faults) → Explains f (R.rig_state inner.new) → IfOk result (λ same. same ≡ true) }
{
    inner.load(config, drives.len() as u32)?;
    inner.cycles(drives, again)?;
    Ok(are_same(readings, again))
}

// Does that until it was asked so many times, the first time with them.
fn ask_times<R: Rig>(
    inner: &mut R,
    config: &Config,
    drives: &[PinBits],
    readings: &[PinBits],
    again: &mut [PinBits],
    times: u8,
) -> Result<bool, RigFail>
    requires times { 1 ≤ times }
    requires attached { shape_of (R.rig_state inner.old) ≡ Some config.now.config.shape }
    requires few { length drives.now < 2 ^ 32 }
    requires drive_pins { HaveWidth (pins_of config.now.config.shape) drives.now }
    requires read_pins { HaveWidth (pins_of config.now.config.shape) again.old }
    requires as_many { length drives.now ≡ length again.old }
    requires read { length readings.now ≡ length drives.now }
    requires told { IfSome (R.rig_state inner.old).machine.faults (λ f. IsRun f config.now.config drives.now readings.now) }
    requires explained { (f : Faults) → Explains f (R.rig_state inner.old) → IsRun f config.now.config drives.now readings.now }

    ensures machine { (R.rig_state inner.new).machine ≡ (R.rig_state inner.old).machine }
    ensures later { (R.rig_state inner.old).failures ≤ (R.rig_state inner.new).failures }
    ensures loads { IfOk result (λ same. same ≡ true →
        next_count (R.rig_state inner.new).loads ≡ min ((R.rig_state inner.old).loads + times) (2 ^ 64 - 1)) }
    ensures refused { IfErr result (λ e. LoadFails e (R.rig_state inner.old) (R.rig_state inner.new)) }
    ensures narrows { Narrows (R.rig_state inner.old) (R.rig_state inner.new) }
    ensures same { IsSome (R.rig_state inner.old).machine.faults → IfOk result (λ same. same ≡ true) }
    ensures explained { (f : Faults) → Explains f (R.rig_state inner.new) → IfOk result (λ same. same ≡ true) }
{
    'times: for _k in 1..times {
        match ask(inner, config, drives, readings, again) {
            Ok(true) => {}
            Ok(false) => return Ok(false),
            Err(fail) => return Err(fail),
        }
    }
    Ok(true)
}

/// Asks a session again, so that with the first time it was asked so many times. False where a reading differs, and never
/// so where the faults are told or a set of faults explains all that was read.
///
/// # Errors
///
/// Those of the rig.
pub fn ask_again<R: Rig>(inner: &mut R, kept: Kept, times: u8) -> Result<bool, RigFail>
    requires times { 1 ≤ times }
    requires roomy { IsRoomy kept }
    requires attached { shape_of (R.rig_state inner.old) ≡ Some kept.config.config.shape }
    requires told { IsRunUnder (R.rig_state inner.old).machine.faults kept }
    requires explained { ForEach (R.rig_state inner.old) (λ told. IsRunUnder told kept) }

    ensures machine { (R.rig_state inner.new).machine ≡ (R.rig_state inner.old).machine }
    ensures later { (R.rig_state inner.old).failures ≤ (R.rig_state inner.new).failures }
    ensures loads { IfOk result (λ same. same ≡ true →
        next_count (R.rig_state inner.new).loads ≡ min ((R.rig_state inner.old).loads + times) (2 ^ 64 - 1)) }
    ensures refused { IfErr result (λ e. LoadFails e (R.rig_state inner.old) (R.rig_state inner.new)) }
    ensures narrows { Narrows (R.rig_state inner.old) (R.rig_state inner.new) }
    ensures same { IsSome (R.rig_state inner.old).machine.faults → IfOk result (λ same. same ≡ true) }
    ensures explained { (f : Faults) → Explains f (R.rig_state inner.new) → IfOk result (λ same. same ≡ true) }
{
    let Kept {
        config,
        drives,
        readings,
        made,
        mut again,
    } = kept;
    let made = made as usize;
    ask_times(
        inner,
        &config,
        &drives[..made],
        &readings[..made],
        &mut again[..made],
        times,
    )
}
