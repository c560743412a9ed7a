//! A rig that asks its machine again.
ghost use Rattle.std.specs.Prelude.{◌≡◌, ◌+◌, ◌-◌, ◌^◌, ◌<◌, ◌≤◌, None, Some, true, min, length, IfOk, IfSome, IsSome, IfErr, OnOk, OnErr};
ghost use Rattle.std.specs.Prelude.{[], IsErrOf, is_some, if◌then◌else◌};
ghost use Rattle.machine_meaning.specs.Faults.{Faults};
ghost use Rattle.base_io.specs.Counts.{Rose, next_count};
ghost use Rattle.rig.specs.Rig.{shape_of, width_of, IsDetached, Attaches, AttachFails, HasFaultsOf, Begins, LoadFails, GoesOn};
ghost use Rattle.rig.specs.Rig.{CycleFails, GoesOnBy, CyclesFail, AreRows, KeepLengths, log_of, Explains, Narrows};
ghost use Rattle.rig_doubled.specs.Repeats.{IsOfSession, StillKeeps, ended_in, loads_taken, repeat_state, times_named};

use crate::ended::end;
use crate::kept::{Kept, ask_again, kept_for};
use base_log::Log;
use machine_config::Config;
use machine_shape::Shape;
use rig::{AttachFail, PinBits, Rig, RigFail};
use std::alloc::Global;
use std::marker::Model;

/// Asks each session again before the next one is loaded, and counts a failure where a reading differs.
///
/// How often a session is asked in all is said by the name that is attached: as the digit says where it begins with one
/// from 2 to 9 and an `x`, and else once. Then every call is passed on and nothing is kept.
///
/// Cycles within the room that `load` was asked for are made again; what is beyond isn't kept. The last session is asked
/// once.
#[derive(Drop)]
pub struct RepeatRig<R: Rig> {
    alloc: Global,
    inner: R,
    times: u8,
    kept: Option<Kept>,
    // Whether the inner rig's session is this one's.
    stands: bool,
    // The inner rig as it stood when each session ended, for proofs alone.
    past: Log<R>,
    loads: u64,
    failures: u64,
}

impl<R: Rig> Model for RepeatRig<R> {
    ghost use Rattle.rig_doubled.specs.Repeats.{Repeated, IsRepeating, ended_in};

    ghost Value = { Repeated R };

    ghost view = { λ a. record {
      inner = a.inner;
      times = a.times;
      stands = a.stands;
      past = a.past.items;
      loads = a.loads;
      failures = a.failures;
    } };

    ghost invariant = { λ a. IsRepeating a.times a.kept a.stands (R.rig_state a.inner) (ended_in (λ r. R.rig_state r) a.past.items) };
}

// How often a session is asked under a name.
fn times_of(name: &str) -> u8
    ensures times { result ≡ times_named name.now }
    ensures some { 1 ≤ result }
{
    let bytes = name.as_bytes();
    if bytes.len() < 2 {
        return 1;
    }
    let digit = bytes[0];
    if b'2' <= digit && digit <= b'9' && bytes[1] == b'x' {
        digit - b'0'
    } else {
        1
    }
}

// Asks what is kept of a session again. False where a reading differs.
fn settle<R: Rig>(inner: &mut R, kept: Option<Kept>, times: u8) -> Result<bool, RigFail>
    requires times { 1 ≤ times }
    requires kept { IfSome kept (λ k. IsOfSession k (R.rig_state inner.old)) }

    ensures machine { (R.rig_state inner.new).machine ≡ (R.rig_state inner.old).machine }
    ensures later { (R.rig_state inner.old).failures ≤ (R.rig_state inner.new).failures }
    ensures loads { IfOk result (λ same. same ≡ true → next_count (R.rig_state inner.new).loads ≡
        min ((R.rig_state inner.old).loads + (if is_some kept then times else 1)) (2 ^ 64 - 1)) }
    ensures refused { IfErr result (λ e. LoadFails e (R.rig_state inner.old) (R.rig_state inner.new)) }
    ensures narrows { Narrows (R.rig_state inner.old) (R.rig_state inner.new) }
    ensures same { IsSome (R.rig_state inner.old).machine.faults → IfOk result (λ same. same ≡ true) }
    ensures explained { (f : Faults) → Explains f (R.rig_state inner.new) → IfOk result (λ same. same ≡ true) }
{
    match kept {
        None => Ok(true),
        Some(kept) => ask_again(inner, kept, times),
    }
}

// Makes a cycle, and keeps it with what is kept.
fn go_on<R: Rig>(
    inner: &mut R,
    kept: &mut Option<Kept>,
    drive: &PinBits,
    read: &mut PinBits,
) -> Result<(), RigFail>
    requires drive_pins { width_of (R.rig_state inner.old) ≡ Some (length drive.now) }
    requires read_pins { width_of (R.rig_state inner.old) ≡ Some (length read.old) }
    requires kept { IfSome kept.old (λ k. IsOfSession k (R.rig_state inner.old)) }

    ensures machine { (R.rig_state inner.new).machine ≡ (R.rig_state inner.old).machine }
    ensures loads { (R.rig_state inner.new).loads ≡ (R.rig_state inner.old).loads }
    ensures later { (R.rig_state inner.old).failures ≤ (R.rig_state inner.new).failures }
    ensures length { length read.new ≡ length read.old }
    ensures cycles { OnOk result (GoesOn drive.now read.new (R.rig_state inner.old) (R.rig_state inner.new)) }
    ensures read { OnErr result (read.new ≡ read.old) }
    ensures refused { IfErr result (λ e. CycleFails e (R.rig_state inner.old) (R.rig_state inner.new)) }
    ensures kept { StillKeeps kept.old kept.new (R.rig_state inner.new) }
{
    match inner.cycle(drive, read) {
        Ok(()) => {
            if let Some(kept) = kept {
                kept.add(drive, read);
            }
            Ok(())
        }
        Err(RigFail::Failed) => {
            *kept = None;
            Err(RigFail::Failed)
        }
        Err(RigFail::Memory) => Err(RigFail::Memory),
    }
}

// Makes several cycles, and keeps them with what is kept.
fn go_on_by<R: Rig>(
    inner: &mut R,
    kept: &mut Option<Kept>,
    drives: &[PinBits],
    reads: &mut [PinBits],
) -> Result<(), RigFail>
    requires session { IsSome (R.rig_state inner.old).session }
    requires drive_pins { AreRows (R.rig_state inner.old) drives.now }
    requires read_pins { AreRows (R.rig_state inner.old) reads.old }
    requires as_many { length drives.now ≡ length reads.old }
    requires kept { IfSome kept.old (λ k. IsOfSession k (R.rig_state inner.old)) }

    ensures machine { (R.rig_state inner.new).machine ≡ (R.rig_state inner.old).machine }
    ensures loads { (R.rig_state inner.new).loads ≡ (R.rig_state inner.old).loads }
    ensures later { (R.rig_state inner.old).failures ≤ (R.rig_state inner.new).failures }
    ensures lengths { KeepLengths reads.old reads.new }
    ensures cycles { OnOk result (GoesOnBy drives.now reads.new (R.rig_state inner.old) (R.rig_state inner.new)) }
    ensures refused { IfErr result (λ e. CyclesFail e (length drives.now) (R.rig_state inner.old) (R.rig_state inner.new)) }
    ensures kept { StillKeeps kept.old kept.new (R.rig_state inner.new) }
{
    match inner.cycles(drives, reads) {
        Ok(()) => {
            if let Some(kept) = kept {
                kept.add_all(drives, reads);
            }
            Ok(())
        }
        Err(RigFail::Failed) => {
            *kept = None;
            Err(RigFail::Failed)
        }
        Err(RigFail::Memory) => Err(RigFail::Memory),
    }
}

impl<R: Rig> RepeatRig<R> {
    /// A rig over this one, which asks each session once until a machine is attached.
    pub fn new(alloc: Global, inner: R) -> Self
        ensures { result ≡ record { inner = inner; times = 1; stands = true; past = []; loads = 0; failures = 0 } }
    {
        RepeatRig {
            alloc,
            inner,
            times: 1,
            kept: None,
            stands: true,
            past: Log::new(),
            loads: 0,
            failures: 0,
        }
    }

    /// What explains the inner rig's log explains this one's, which has each session once. It does nothing.
    pub fn explained(&self)
        ensures { (f : Faults) → Explains f (R.rig_state self.now.inner) → Explains f (⟦<RepeatRig<R> as Rig>⟧.rig_state self.now) }
    {
        let _ = &self.times;
    }
}

impl<R: Rig> Rig for RepeatRig<R> {
    ghost rig_state = { λ s. repeat_state (R.rig_state s.inner) (ended_in (λ r. R.rig_state r) s.past) s };

    /// The name is passed on whole. The inner rig's loads stay as they are, and it fails only where its count rose.
    fn attach(&mut self, shape: &Shape, name: &str) -> Result<(), AttachFail>
        ensures texts { (⟦<RepeatRig<R> as Rig>⟧.rig_state self.new).machine.texts ≡
            (⟦<RepeatRig<R> as Rig>⟧.rig_state self.old).machine.texts }
        ensures loads { (⟦<RepeatRig<R> as Rig>⟧.rig_state self.new).loads ≡ (⟦<RepeatRig<R> as Rig>⟧.rig_state self.old).loads }
        ensures later { (⟦<RepeatRig<R> as Rig>⟧.rig_state self.old).failures ≤ (⟦<RepeatRig<R> as Rig>⟧.rig_state self.new).failures }
        ensures count { (⟦<RepeatRig<R> as Rig>⟧.rig_state self.new).failures < 2 ^ 64 }
        ensures attached { OnOk result (Attaches (record { shape = shape.now; name = name.now })
            (⟦<RepeatRig<R> as Rig>⟧.rig_state self.old)
            (⟦<RepeatRig<R> as Rig>⟧.rig_state self.new)) }
        ensures detached { OnErr result (IsDetached (⟦<RepeatRig<R> as Rig>⟧.rig_state self.new)) }
        ensures refused { IfErr result (λ e. AttachFails e (record { shape = shape.now; name = name.now })
            (⟦<RepeatRig<R> as Rig>⟧.rig_state self.old)
            (⟦<RepeatRig<R> as Rig>⟧.rig_state self.new)) }

        ensures times { OnOk result (self.new.times ≡ times_named name.now) }
        ensures inner_loads { (R.rig_state self.new.inner).loads ≡ (R.rig_state self.old.inner).loads }
        ensures caused { IsErrOf result AttachFail.Failed →
            Rose (R.rig_state self.old.inner).failures (R.rig_state self.new.inner).failures }
    {
        self.kept = None;
        self.past = Log::new();
        self.times = times_of(name);
        self.inner.attach(shape, name)
    }

    /// The inner rig loads as often as a session is asked where there was one, and else once. Where it tells its faults,
    /// or a set of faults explains its log after the call, this one fails only where its count rose.
    fn load(&mut self, config: &Config, room: u32) -> Result<(), RigFail>
        requires { shape_of (⟦<RepeatRig<R> as Rig>⟧.rig_state self.old) ≡ Some config.now.config.shape }

        ensures machine { (⟦<RepeatRig<R> as Rig>⟧.rig_state self.new).machine ≡ (⟦<RepeatRig<R> as Rig>⟧.rig_state self.old).machine }
        ensures later { (⟦<RepeatRig<R> as Rig>⟧.rig_state self.old).failures ≤ (⟦<RepeatRig<R> as Rig>⟧.rig_state self.new).failures }
        ensures count { (⟦<RepeatRig<R> as Rig>⟧.rig_state self.new).failures < 2 ^ 64 }
        ensures begins { OnOk result (Begins config.now.config room (⟦<RepeatRig<R> as Rig>⟧.rig_state self.new)) }
        ensures told { OnOk result (HasFaultsOf config.now.config.shape (⟦<RepeatRig<R> as Rig>⟧.rig_state self.new)) }
        ensures logged { (⟦<RepeatRig<R> as Rig>⟧.rig_state self.new).past ≡ log_of (⟦<RepeatRig<R> as Rig>⟧.rig_state self.old) }
        ensures counted { OnOk result ((⟦<RepeatRig<R> as Rig>⟧.rig_state self.new).loads ≡ next_count
            (⟦<RepeatRig<R> as Rig>⟧.rig_state self.old).loads) }
        ensures ended { OnErr result ((⟦<RepeatRig<R> as Rig>⟧.rig_state self.new).session ≡ None) }
        ensures not_counted { OnErr result ((⟦<RepeatRig<R> as Rig>⟧.rig_state self.new).loads ≡
            (⟦<RepeatRig<R> as Rig>⟧.rig_state self.old).loads) }
        ensures refused { IfErr result (λ e. LoadFails e (⟦<RepeatRig<R> as Rig>⟧.rig_state self.old)
            (⟦<RepeatRig<R> as Rig>⟧.rig_state self.new)) }

        ensures times { self.new.times ≡ self.old.times }
        ensures repeats { OnOk result ((R.rig_state self.new.inner).loads ≡ min ((R.rig_state self.old.inner).loads + loads_taken
            (⟦<RepeatRig<R> as Rig>⟧.rig_state self.old) self.old.times) (2 ^ 64 - 1)) }
        ensures caused { IsSome (R.rig_state self.old.inner).machine.faults → IsErrOf result RigFail.Failed →
            Rose (R.rig_state self.old.inner).failures (R.rig_state self.new.inner).failures }
        ensures no_alarm { (f : Faults) → Explains f (R.rig_state self.new.inner) → IsErrOf result RigFail.Failed →
            Rose (R.rig_state self.old.inner).failures (R.rig_state self.new.inner).failures }
    {
        let kept = self.kept.take();
        end(&mut self.past, &self.inner, self.stands);
        self.stands = false;
        if !settle(&mut self.inner, kept, self.times)? {
            self.failures = self.failures.saturating_add(1);
            return Err(RigFail::Failed);
        }
        let kept = kept_for(self.alloc, self.times, config, room)?;
        self.inner.load(config, room)?;
        self.kept = kept;
        self.stands = true;
        self.loads = self.loads.saturating_add(1);
        Ok(())
    }

    /// The inner rig's loads stay as they are, and it fails only where its count rose.
    fn cycle(&mut self, drive: &PinBits, read: &mut PinBits) -> Result<(), RigFail>
        requires drive_pins { width_of (⟦<RepeatRig<R> as Rig>⟧.rig_state self.old) ≡ Some (length drive.now) }
        requires read_pins { width_of (⟦<RepeatRig<R> as Rig>⟧.rig_state self.old) ≡ Some (length read.old) }

        ensures machine { (⟦<RepeatRig<R> as Rig>⟧.rig_state self.new).machine ≡ (⟦<RepeatRig<R> as Rig>⟧.rig_state self.old).machine }
        ensures loads { (⟦<RepeatRig<R> as Rig>⟧.rig_state self.new).loads ≡ (⟦<RepeatRig<R> as Rig>⟧.rig_state self.old).loads }
        ensures later { (⟦<RepeatRig<R> as Rig>⟧.rig_state self.old).failures ≤ (⟦<RepeatRig<R> as Rig>⟧.rig_state self.new).failures }
        ensures count { (⟦<RepeatRig<R> as Rig>⟧.rig_state self.new).failures < 2 ^ 64 }
        ensures length { length read.new ≡ length read.old }
        ensures cycles { OnOk result (GoesOn drive.now read.new (⟦<RepeatRig<R> as Rig>⟧.rig_state self.old)
            (⟦<RepeatRig<R> as Rig>⟧.rig_state self.new)) }
        ensures kept { OnErr result (read.new ≡ read.old) }
        ensures refused { IfErr result (λ e. CycleFails e (⟦<RepeatRig<R> as Rig>⟧.rig_state self.old)
            (⟦<RepeatRig<R> as Rig>⟧.rig_state self.new)) }

        ensures times { self.new.times ≡ self.old.times }
        ensures inner_loads { (R.rig_state self.new.inner).loads ≡ (R.rig_state self.old.inner).loads }
        ensures caused { IsErrOf result RigFail.Failed → Rose (R.rig_state self.old.inner).failures (R.rig_state self.new.inner).failures }
    {
        let ended = self.past.and(&self.inner);
        match go_on(&mut self.inner, &mut self.kept, drive, read) {
            Ok(()) => Ok(()),
            Err(RigFail::Failed) => {
                self.past = ended;
                Err(RigFail::Failed)
            }
            Err(RigFail::Memory) => Err(RigFail::Memory),
        }
    }

    /// The inner rig's loads stay as they are, and it fails only where its count rose.
    fn cycles(&mut self, drives: &[PinBits], reads: &mut [PinBits]) -> Result<(), RigFail>
        requires session { IsSome (⟦<RepeatRig<R> as Rig>⟧.rig_state self.old).session }
        requires drive_pins { AreRows (⟦<RepeatRig<R> as Rig>⟧.rig_state self.old) drives.now }
        requires read_pins { AreRows (⟦<RepeatRig<R> as Rig>⟧.rig_state self.old) reads.old }
        requires as_many { length drives.now ≡ length reads.old }

        ensures machine { (⟦<RepeatRig<R> as Rig>⟧.rig_state self.new).machine ≡ (⟦<RepeatRig<R> as Rig>⟧.rig_state self.old).machine }
        ensures loads { (⟦<RepeatRig<R> as Rig>⟧.rig_state self.new).loads ≡ (⟦<RepeatRig<R> as Rig>⟧.rig_state self.old).loads }
        ensures later { (⟦<RepeatRig<R> as Rig>⟧.rig_state self.old).failures ≤ (⟦<RepeatRig<R> as Rig>⟧.rig_state self.new).failures }
        ensures count { (⟦<RepeatRig<R> as Rig>⟧.rig_state self.new).failures < 2 ^ 64 }
        ensures lengths { KeepLengths reads.old reads.new }
        ensures cycles { OnOk result (GoesOnBy drives.now reads.new (⟦<RepeatRig<R> as Rig>⟧.rig_state self.old)
            (⟦<RepeatRig<R> as Rig>⟧.rig_state self.new)) }
        ensures refused { IfErr result (λ e. CyclesFail e (length drives.now) (⟦<RepeatRig<R> as Rig>⟧.rig_state self.old)
            (⟦<RepeatRig<R> as Rig>⟧.rig_state self.new)) }

        ensures times { self.new.times ≡ self.old.times }
        ensures inner_loads { (R.rig_state self.new.inner).loads ≡ (R.rig_state self.old.inner).loads }
        ensures caused { IsErrOf result RigFail.Failed → Rose (R.rig_state self.old.inner).failures (R.rig_state self.new.inner).failures }
    {
        let ended = self.past.and(&self.inner);
        match go_on_by(&mut self.inner, &mut self.kept, drives, reads) {
            Ok(()) => Ok(()),
            Err(RigFail::Failed) => {
                self.past = ended;
                Err(RigFail::Failed)
            }
            Err(RigFail::Memory) => Err(RigFail::Memory),
        }
    }

    fn loads(&self) -> u64 {
        self.loads
    }
}
