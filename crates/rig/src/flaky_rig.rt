//! A rig that fails at chosen calls.
ghost use Rattle.std.specs.Prelude.{◌≡◌, ◌⊎◌, ◌-◌, ◌^◌, ◌<◌, ◌≤◌, [], None, Some, IsSome, min, length, IfErr, OnOk, OnErr, IsErrOf};
ghost use Rattle.base_io.specs.Counts.{Rose, next_count};
ghost use Rattle.rig.specs.Rig.{Asked, shape_of, width_of, IsDetached, Attaches, AttachFails, HasFaultsOf, log_of, Begins, LoadFails};
ghost use Rattle.rig.specs.Rig.{GoesOn, CycleFails, GoesOnBy, CyclesFail, AreRows, KeepLengths};
ghost use Rattle.rig.specs.Flaky.{flaky_state, IsChosen, WantsMemory};

use crate::{AskedMachines, AttachFail, PinBits, Rig, RigFail};
use machine_config::Config;
use machine_shape::Shape;
use std::alloc::Global;

/// Fails at chosen calls of `attach`, `load`, `cycle` and `cycles`, which are numbered together from 1.
///
/// A chosen call answers `Failed` and doesn't reach the inner rig; every other call is passed on. It keeps the
/// machines asked itself, and an `attach` that finds no room for one more answers `Memory` and doesn't reach the
/// inner rig either, chosen or not. Its count of failures rises at each chosen call that fails, and where that of
/// the inner rig does.
#[derive(Drop)]
pub struct FlakyRig<R: Rig> {
    inner: R,
    fails: Vec<u64>,
    calls: u64,
    asked: AskedMachines,
    // Whether what is attached to the inner rig is attached, and whether its session stands.
    is_attached: bool,
    in_session: bool,
    failures: u64,
}

impl<R: Rig> FlakyRig<R> {
    /// A rig with nothing attached that was asked for no machine, and whose calls with these numbers fail.
    pub fn new(alloc: Global, inner: R, fails: Vec<u64>) -> Self
        ensures fails { result.fails.items ≡ fails.items }
        ensures calls { result.calls ≡ 0 }
        ensures inner { R.rig_state result.inner ≡ R.rig_state inner }
        ensures asked { (⟦<FlakyRig<R> as Rig>⟧.rig_state result).machine.asked ≡ [] }
        ensures faults_told { (⟦<FlakyRig<R> as Rig>⟧.rig_state result).machine.faults ≡ (R.rig_state inner).machine.faults }
        ensures texts { (⟦<FlakyRig<R> as Rig>⟧.rig_state result).machine.texts ≡ (R.rig_state inner).machine.texts }
        ensures refused { (⟦<FlakyRig<R> as Rig>⟧.rig_state result).machine.refused ≡ (R.rig_state inner).machine.refused }
        ensures detached { IsDetached (⟦<FlakyRig<R> as Rig>⟧.rig_state result) }
        ensures loads { (⟦<FlakyRig<R> as Rig>⟧.rig_state result).loads ≡ (R.rig_state inner).loads }
        ensures failures { (⟦<FlakyRig<R> as Rig>⟧.rig_state result).failures ≡ min (R.rig_state inner).failures (2 ^ 64 - 1) }
    {
        FlakyRig {
            inner,
            fails,
            calls: 0,
            asked: AskedMachines::new(alloc),
            is_attached: false,
            in_session: false,
            failures: 0,
        }
    }
}

impl<R: Rig> Rig for FlakyRig<R> {
    ghost rig_state = { λ s. flaky_state (R.rig_state s.inner) s.asked s.is_attached s.in_session s.failures };

    fn attach(&mut self, shape: &Shape, name: &str) -> Result<(), AttachFail>
        ensures texts { (⟦<FlakyRig<R> as Rig>⟧.rig_state self.new).machine.texts ≡
            (⟦<FlakyRig<R> as Rig>⟧.rig_state self.old).machine.texts }
        ensures loads { (⟦<FlakyRig<R> as Rig>⟧.rig_state self.new).loads ≡ (⟦<FlakyRig<R> as Rig>⟧.rig_state self.old).loads }
        ensures later { (⟦<FlakyRig<R> as Rig>⟧.rig_state self.old).failures ≤ (⟦<FlakyRig<R> as Rig>⟧.rig_state self.new).failures }
        ensures count { (⟦<FlakyRig<R> as Rig>⟧.rig_state self.new).failures < 2 ^ 64 }
        ensures attached { OnOk result (Attaches (record { shape = shape.now; name = name.now })
            (⟦<FlakyRig<R> as Rig>⟧.rig_state self.old) (⟦<FlakyRig<R> as Rig>⟧.rig_state self.new)) }
        ensures detached { OnErr result (IsDetached (⟦<FlakyRig<R> as Rig>⟧.rig_state self.new)) }
        ensures refused { IfErr result (λ e. AttachFails e (record { shape = shape.now; name = name.now })
            (⟦<FlakyRig<R> as Rig>⟧.rig_state self.old) (⟦<FlakyRig<R> as Rig>⟧.rig_state self.new)) }

        // A chosen call fails and doesn't reach the inner rig; another call fails only where that one's count rose.
        // It is short of memory without reaching the inner rig, or because that one is.
        ensures fails { self.new.fails.items ≡ self.old.fails.items }
        ensures calls { self.new.calls ≡ next_count self.old.calls }
        ensures chosen { IsChosen self.old.fails.items self.old.calls → IsErrOf result AttachFail.Failed
            ⊎ IsErrOf result AttachFail.Memory }
        ensures unreached { IsChosen self.old.fails.items self.old.calls → R.rig_state self.new.inner ≡ R.rig_state self.old.inner }
        ensures failed { IsErrOf result AttachFail.Failed → IsChosen self.old.fails.items self.old.calls
            ⊎ Rose (R.rig_state self.old.inner).failures (R.rig_state self.new.inner).failures }
        ensures wanting { let machine : Asked = record { shape = shape.now; name = name.now } in
            IsErrOf result AttachFail.Memory → (R.rig_state self.new.inner ≡ R.rig_state self.old.inner)
            ⊎ WantsMemory machine (R.rig_state self.old.inner) (R.rig_state self.new.inner) }
    {
        self.is_attached = false;
        self.in_session = false;
        self.calls = self.calls.saturating_add(1);
        if self.asked.add(shape, name).is_err() {
            return Err(AttachFail::Memory);
        }
        if self.fails.contains(&self.calls) {
            self.failures = self.failures.saturating_add(1);
            return Err(AttachFail::Failed);
        }
        match self.inner.attach(shape, name) {
            Ok(()) => {
                self.is_attached = true;
                Ok(())
            }
            Err(AttachFail::Memory) => {
                self.asked.remove_last();
                Err(AttachFail::Memory)
            }
            Err(fail) => Err(fail),
        }
    }

    fn load(&mut self, config: &Config, room: u32) -> Result<(), RigFail>
        requires { shape_of (⟦<FlakyRig<R> as Rig>⟧.rig_state self.old) ≡ Some config.now.config.shape }

        ensures machine { (⟦<FlakyRig<R> as Rig>⟧.rig_state self.new).machine ≡ (⟦<FlakyRig<R> as Rig>⟧.rig_state self.old).machine }
        ensures later { (⟦<FlakyRig<R> as Rig>⟧.rig_state self.old).failures ≤ (⟦<FlakyRig<R> as Rig>⟧.rig_state self.new).failures }
        ensures count { (⟦<FlakyRig<R> as Rig>⟧.rig_state self.new).failures < 2 ^ 64 }
        ensures begins { OnOk result (Begins config.now.config room (⟦<FlakyRig<R> as Rig>⟧.rig_state self.new)) }
        ensures told { OnOk result (HasFaultsOf config.now.config.shape (⟦<FlakyRig<R> as Rig>⟧.rig_state self.new)) }
        ensures logged { (⟦<FlakyRig<R> as Rig>⟧.rig_state self.new).past ≡ log_of (⟦<FlakyRig<R> as Rig>⟧.rig_state self.old) }
        ensures counted { OnOk result ((⟦<FlakyRig<R> as Rig>⟧.rig_state self.new).loads ≡ next_count
            (⟦<FlakyRig<R> as Rig>⟧.rig_state self.old).loads) }
        ensures ended { OnErr result ((⟦<FlakyRig<R> as Rig>⟧.rig_state self.new).session ≡ None) }
        ensures not_counted { OnErr result ((⟦<FlakyRig<R> as Rig>⟧.rig_state self.new).loads ≡
            (⟦<FlakyRig<R> as Rig>⟧.rig_state self.old).loads) }
        ensures refused { IfErr result (λ e. LoadFails e (⟦<FlakyRig<R> as Rig>⟧.rig_state self.old)
            (⟦<FlakyRig<R> as Rig>⟧.rig_state self.new)) }

        // A chosen call fails and doesn't reach the inner rig; another call fails only where that one's count rose.
        ensures fails { self.new.fails.items ≡ self.old.fails.items }
        ensures calls { self.new.calls ≡ next_count self.old.calls }
        ensures chosen { IsChosen self.old.fails.items self.old.calls → IsErrOf result RigFail.Failed }
        ensures unreached { IsChosen self.old.fails.items self.old.calls → R.rig_state self.new.inner ≡ R.rig_state self.old.inner }
        ensures failed { IsErrOf result RigFail.Failed → IsChosen self.old.fails.items self.old.calls
            ⊎ Rose (R.rig_state self.old.inner).failures (R.rig_state self.new.inner).failures }
    {
        self.in_session = false;
        self.calls = self.calls.saturating_add(1);
        if self.fails.contains(&self.calls) {
            self.failures = self.failures.saturating_add(1);
            return Err(RigFail::Failed);
        }
        self.inner.load(config, room)?;
        self.in_session = true;
        Ok(())
    }

    fn cycle(&mut self, drive: &PinBits, read: &mut PinBits) -> Result<(), RigFail>
        requires drive_pins { width_of (⟦<FlakyRig<R> as Rig>⟧.rig_state self.old) ≡ Some (length drive.now) }
        requires read_pins { width_of (⟦<FlakyRig<R> as Rig>⟧.rig_state self.old) ≡ Some (length read.old) }

        ensures machine { (⟦<FlakyRig<R> as Rig>⟧.rig_state self.new).machine ≡ (⟦<FlakyRig<R> as Rig>⟧.rig_state self.old).machine }
        ensures loads { (⟦<FlakyRig<R> as Rig>⟧.rig_state self.new).loads ≡ (⟦<FlakyRig<R> as Rig>⟧.rig_state self.old).loads }
        ensures later { (⟦<FlakyRig<R> as Rig>⟧.rig_state self.old).failures ≤ (⟦<FlakyRig<R> as Rig>⟧.rig_state self.new).failures }
        ensures count { (⟦<FlakyRig<R> as Rig>⟧.rig_state self.new).failures < 2 ^ 64 }
        ensures length { length read.new ≡ length read.old }
        ensures cycles { OnOk result (GoesOn drive.now read.new (⟦<FlakyRig<R> as Rig>⟧.rig_state self.old)
            (⟦<FlakyRig<R> as Rig>⟧.rig_state self.new)) }
        ensures kept { OnErr result (read.new ≡ read.old) }
        ensures refused { IfErr result (λ e. CycleFails e (⟦<FlakyRig<R> as Rig>⟧.rig_state self.old)
            (⟦<FlakyRig<R> as Rig>⟧.rig_state self.new)) }

        // A chosen call fails and doesn't reach the inner rig; another call fails only where that one's count rose.
        ensures fails { self.new.fails.items ≡ self.old.fails.items }
        ensures calls { self.new.calls ≡ next_count self.old.calls }
        ensures chosen { IsChosen self.old.fails.items self.old.calls → IsErrOf result RigFail.Failed }
        ensures unreached { IsChosen self.old.fails.items self.old.calls → R.rig_state self.new.inner ≡ R.rig_state self.old.inner }
        ensures failed { IsErrOf result RigFail.Failed → IsChosen self.old.fails.items self.old.calls
            ⊎ Rose (R.rig_state self.old.inner).failures (R.rig_state self.new.inner).failures }
    {
        self.calls = self.calls.saturating_add(1);
        if self.fails.contains(&self.calls) {
            self.in_session = false;
            self.failures = self.failures.saturating_add(1);
            return Err(RigFail::Failed);
        }
        self.inner.cycle(drive, read)
    }

    fn cycles(&mut self, drives: &[PinBits], reads: &mut [PinBits]) -> Result<(), RigFail>
        requires session { IsSome (⟦<FlakyRig<R> as Rig>⟧.rig_state self.old).session }
        requires drive_pins { AreRows (⟦<FlakyRig<R> as Rig>⟧.rig_state self.old) drives.now }
        requires read_pins { AreRows (⟦<FlakyRig<R> as Rig>⟧.rig_state self.old) reads.old }
        requires as_many { length drives.now ≡ length reads.old }

        ensures machine { (⟦<FlakyRig<R> as Rig>⟧.rig_state self.new).machine ≡ (⟦<FlakyRig<R> as Rig>⟧.rig_state self.old).machine }
        ensures loads { (⟦<FlakyRig<R> as Rig>⟧.rig_state self.new).loads ≡ (⟦<FlakyRig<R> as Rig>⟧.rig_state self.old).loads }
        ensures later { (⟦<FlakyRig<R> as Rig>⟧.rig_state self.old).failures ≤ (⟦<FlakyRig<R> as Rig>⟧.rig_state self.new).failures }
        ensures count { (⟦<FlakyRig<R> as Rig>⟧.rig_state self.new).failures < 2 ^ 64 }
        ensures lengths { KeepLengths reads.old reads.new }
        ensures cycles { OnOk result (GoesOnBy drives.now reads.new (⟦<FlakyRig<R> as Rig>⟧.rig_state self.old)
            (⟦<FlakyRig<R> as Rig>⟧.rig_state self.new)) }
        ensures refused { IfErr result (λ e. CyclesFail e (length drives.now) (⟦<FlakyRig<R> as Rig>⟧.rig_state self.old)
            (⟦<FlakyRig<R> as Rig>⟧.rig_state self.new)) }

        // A chosen call fails and doesn't reach the inner rig; another call fails only where that one's count rose.
        ensures fails { self.new.fails.items ≡ self.old.fails.items }
        ensures calls { self.new.calls ≡ next_count self.old.calls }
        ensures chosen { IsChosen self.old.fails.items self.old.calls → IsErrOf result RigFail.Failed }
        ensures unreached { IsChosen self.old.fails.items self.old.calls → R.rig_state self.new.inner ≡ R.rig_state self.old.inner }
        ensures failed { IsErrOf result RigFail.Failed → IsChosen self.old.fails.items self.old.calls
            ⊎ Rose (R.rig_state self.old.inner).failures (R.rig_state self.new.inner).failures }
    {
        self.calls = self.calls.saturating_add(1);
        if self.fails.contains(&self.calls) {
            self.in_session = false;
            self.failures = self.failures.saturating_add(1);
            return Err(RigFail::Failed);
        }
        self.inner.cycles(drives, reads)
    }

    fn loads(&self) -> u64 {
        self.inner.loads()
    }
}
