//! A rig that counts its loads.
ghost use Rattle.std.specs.Prelude.{◌≡◌, ◌^◌, ◌<◌, ◌≤◌, None, Some, IsSome, IfErr, OnOk, OnErr, length};
ghost use Rattle.base_io.specs.Counts.{next_count};
ghost use Rattle.rig.specs.Rig.{shape_of, width_of, IsDetached, Attaches, AttachFails, HasFaultsOf, log_of, Begins, LoadFails, GoesOn};
ghost use Rattle.rig.specs.Rig.{CycleFails, GoesOnBy, CyclesFail, AreRows, KeepLengths};

use crate::{AttachFail, PinBits, Rig, RigFail};
use machine_config::Config;
use machine_shape::Shape;

/// Passes every call on, and counts the loads itself.
#[derive(Drop)]
pub struct LogRig<R: Rig> {
    inner: R,
    loads: u64,
}

impl<R: Rig> LogRig<R> {
    /// Over a rig whose loads before aren't counted.
    pub fn new(inner: R) -> Self
        ensures { ⟦<LogRig<R> as Rig>⟧.rig_state result ≡ record (R.rig_state inner) { loads = 0 } }
    {
        LogRig { inner, loads: 0 }
    }
}

impl<R: Rig> Rig for LogRig<R> {
    ghost rig_state = { λ s. record (R.rig_state s.inner) { loads = s.loads } };

    /// The inner rig's loads stay as they are.
    fn attach(&mut self, shape: &Shape, name: &str) -> Result<(), AttachFail>
        ensures texts { (⟦<LogRig<R> as Rig>⟧.rig_state self.new).machine.texts ≡ (⟦<LogRig<R> as Rig>⟧.rig_state self.old).machine.texts }
        ensures loads { (⟦<LogRig<R> as Rig>⟧.rig_state self.new).loads ≡ (⟦<LogRig<R> as Rig>⟧.rig_state self.old).loads }
        ensures later { (⟦<LogRig<R> as Rig>⟧.rig_state self.old).failures ≤ (⟦<LogRig<R> as Rig>⟧.rig_state self.new).failures }
        ensures count { (⟦<LogRig<R> as Rig>⟧.rig_state self.new).failures < 2 ^ 64 }
        ensures attached { OnOk result (Attaches (record { shape = shape.now; name = name.now }) (⟦<LogRig<R> as Rig>⟧.rig_state self.old)
            (⟦<LogRig<R> as Rig>⟧.rig_state self.new)) }
        ensures detached { OnErr result (IsDetached (⟦<LogRig<R> as Rig>⟧.rig_state self.new)) }
        ensures refused { IfErr result (λ e. AttachFails e (record { shape = shape.now; name = name.now })
            (⟦<LogRig<R> as Rig>⟧.rig_state self.old) (⟦<LogRig<R> as Rig>⟧.rig_state self.new)) }

        ensures inner_loads { (R.rig_state self.new.inner).loads ≡ (R.rig_state self.old.inner).loads }
    {
        self.inner.attach(shape, name)
    }

    /// The inner rig loads once where this one does, and not at all where it refuses.
    fn load(&mut self, config: &Config, room: u32) -> Result<(), RigFail>
        requires { shape_of (⟦<LogRig<R> as Rig>⟧.rig_state self.old) ≡ Some config.now.config.shape }

        ensures machine { (⟦<LogRig<R> as Rig>⟧.rig_state self.new).machine ≡ (⟦<LogRig<R> as Rig>⟧.rig_state self.old).machine }
        ensures later { (⟦<LogRig<R> as Rig>⟧.rig_state self.old).failures ≤ (⟦<LogRig<R> as Rig>⟧.rig_state self.new).failures }
        ensures count { (⟦<LogRig<R> as Rig>⟧.rig_state self.new).failures < 2 ^ 64 }
        ensures begins { OnOk result (Begins config.now.config room (⟦<LogRig<R> as Rig>⟧.rig_state self.new)) }
        ensures told { OnOk result (HasFaultsOf config.now.config.shape (⟦<LogRig<R> as Rig>⟧.rig_state self.new)) }
        ensures logged { (⟦<LogRig<R> as Rig>⟧.rig_state self.new).past ≡ log_of (⟦<LogRig<R> as Rig>⟧.rig_state self.old) }
        ensures counted { OnOk result ((⟦<LogRig<R> as Rig>⟧.rig_state self.new).loads ≡ next_count
            (⟦<LogRig<R> as Rig>⟧.rig_state self.old).loads) }
        ensures ended { OnErr result ((⟦<LogRig<R> as Rig>⟧.rig_state self.new).session ≡ None) }
        ensures not_counted { OnErr result ((⟦<LogRig<R> as Rig>⟧.rig_state self.new).loads ≡
            (⟦<LogRig<R> as Rig>⟧.rig_state self.old).loads) }
        ensures refused { IfErr result (λ e. LoadFails e (⟦<LogRig<R> as Rig>⟧.rig_state self.old)
            (⟦<LogRig<R> as Rig>⟧.rig_state self.new)) }

        ensures passed_on { OnOk result ((R.rig_state self.new.inner).loads ≡ next_count (R.rig_state self.old.inner).loads) }
        ensures not_passed_on { OnErr result ((R.rig_state self.new.inner).loads ≡ (R.rig_state self.old.inner).loads) }
    {
        self.inner.load(config, room)?;
        self.loads = self.loads.saturating_add(1);
        Ok(())
    }

    /// The inner rig's loads stay as they are.
    fn cycle(&mut self, drive: &PinBits, read: &mut PinBits) -> Result<(), RigFail>
        requires drive_pins { width_of (⟦<LogRig<R> as Rig>⟧.rig_state self.old) ≡ Some (length drive.now) }
        requires read_pins { width_of (⟦<LogRig<R> as Rig>⟧.rig_state self.old) ≡ Some (length read.old) }

        ensures machine { (⟦<LogRig<R> as Rig>⟧.rig_state self.new).machine ≡ (⟦<LogRig<R> as Rig>⟧.rig_state self.old).machine }
        ensures loads { (⟦<LogRig<R> as Rig>⟧.rig_state self.new).loads ≡ (⟦<LogRig<R> as Rig>⟧.rig_state self.old).loads }
        ensures later { (⟦<LogRig<R> as Rig>⟧.rig_state self.old).failures ≤ (⟦<LogRig<R> as Rig>⟧.rig_state self.new).failures }
        ensures count { (⟦<LogRig<R> as Rig>⟧.rig_state self.new).failures < 2 ^ 64 }
        ensures length { length read.new ≡ length read.old }
        ensures cycles { OnOk result (GoesOn drive.now read.new (⟦<LogRig<R> as Rig>⟧.rig_state self.old)
            (⟦<LogRig<R> as Rig>⟧.rig_state self.new)) }
        ensures kept { OnErr result (read.new ≡ read.old) }
        ensures refused { IfErr result (λ e. CycleFails e (⟦<LogRig<R> as Rig>⟧.rig_state self.old)
            (⟦<LogRig<R> as Rig>⟧.rig_state self.new)) }

        ensures inner_loads { (R.rig_state self.new.inner).loads ≡ (R.rig_state self.old.inner).loads }
    {
        self.inner.cycle(drive, read)
    }

    /// The inner rig's loads stay as they are.
    fn cycles(&mut self, drives: &[PinBits], reads: &mut [PinBits]) -> Result<(), RigFail>
        requires session { IsSome (⟦<LogRig<R> as Rig>⟧.rig_state self.old).session }
        requires drive_pins { AreRows (⟦<LogRig<R> as Rig>⟧.rig_state self.old) drives.now }
        requires read_pins { AreRows (⟦<LogRig<R> as Rig>⟧.rig_state self.old) reads.old }
        requires as_many { length drives.now ≡ length reads.old }

        ensures machine { (⟦<LogRig<R> as Rig>⟧.rig_state self.new).machine ≡ (⟦<LogRig<R> as Rig>⟧.rig_state self.old).machine }
        ensures loads { (⟦<LogRig<R> as Rig>⟧.rig_state self.new).loads ≡ (⟦<LogRig<R> as Rig>⟧.rig_state self.old).loads }
        ensures later { (⟦<LogRig<R> as Rig>⟧.rig_state self.old).failures ≤ (⟦<LogRig<R> as Rig>⟧.rig_state self.new).failures }
        ensures count { (⟦<LogRig<R> as Rig>⟧.rig_state self.new).failures < 2 ^ 64 }
        ensures lengths { KeepLengths reads.old reads.new }
        ensures cycles { OnOk result (GoesOnBy drives.now reads.new (⟦<LogRig<R> as Rig>⟧.rig_state self.old)
            (⟦<LogRig<R> as Rig>⟧.rig_state self.new)) }
        ensures refused { IfErr result (λ e. CyclesFail e (length drives.now) (⟦<LogRig<R> as Rig>⟧.rig_state self.old)
            (⟦<LogRig<R> as Rig>⟧.rig_state self.new)) }

        ensures inner_loads { (R.rig_state self.new.inner).loads ≡ (R.rig_state self.old.inner).loads }
    {
        self.inner.cycles(drives, reads)
    }

    fn loads(&self) -> u64 {
        self.loads
    }
}
