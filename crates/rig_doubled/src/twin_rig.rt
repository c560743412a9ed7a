//! Two machines side by side.
ghost use Rattle.std.specs.Prelude.{◌≡◌, ◌⊎◌, ◌^◌, ◌<◌, ◌≤◌, [], None, Some, length, string_bytes, IsSome, IfSome};
ghost use Rattle.std.specs.Prelude.{IfErr, OnOk, OnErr, IsErrOf};
ghost use Rattle.machine_meaning.specs.Faults.{Faults};
ghost use Rattle.base_io.specs.Counts.{Rose, next_count};
ghost use Rattle.rig.specs.Rig.{shape_of, width_of, IsDetached, Attaches, AttachFails, HasFaultsOf, Begins, LoadFails, GoesOn};
ghost use Rattle.rig.specs.Rig.{CycleFails, GoesOnBy, CyclesFail, AreRows, KeepLengths, log_of, Explains};
ghost use Rattle.rig_doubled.specs.Repeats.{ended_in};
ghost use Rattle.rig_doubled.specs.Twins.{BothAttach, IsOfMachine, NeitherReached, OneRefuses, ShareSession, TakesRoom, twin_state};

use crate::ended::end;
use crate::pairs::{Pair, attach_both, cycle_both, cycles_both, load_both};
use base_log::Log;
use machine_config::Config;
use machine_faults::{FaultsFault, FaultsKind};
use machine_shape::Shape;
use rig::{AskedMachine, AskedMachines, AttachFail, PinBits, Rig, RigFail};
use std::alloc::Global;
use std::marker::Model;

/// Two rigs side by side: each call goes to the first and then to the second, and a reading of the second that differs from
/// the first's is a failure.
///
/// The second is attached under a name of its own. It is the second's faults that are told. The machines asked, the loads, the
/// refused texts and the count of failures are those of both together. Beyond the room that `load` was asked for `cycle` is
/// short of memory, and neither rig is reached.
#[derive(Drop)]
pub struct TwinRig<A: Rig, B: Rig> {
    alloc: Global,
    first: A,
    second: B,
    // The name under which the second is attached.
    second_name: String,
    asked: AskedMachines,
    machine: Option<AskedMachine>,
    pair: Option<Pair>,
    // The first as it stood when each session of both ended, for proofs alone.
    past: Log<A>,
    loads: u64,
    failures: u64,
    refused: u64,
    last: Option<(u64, FaultsKind)>,
}

impl<A: Rig, B: Rig> Model for TwinRig<A, B> {
    ghost use Rattle.std.specs.Prelude.{option_map, string_bytes};
    ghost use Rattle.rig_doubled.specs.Repeats.{ended_in};
    ghost use Rattle.rig_doubled.specs.Twins.{Twins, IsTwinned};

    ghost Value = { Twins A B };

    ghost view = { λ a. record {
      first = a.first;
      second = a.second;
      second_name = string_bytes a.second_name;
      asked = a.asked;
      attached = option_map (λ m. record { shape = m.shape; name = string_bytes m.name }) a.machine;
      refused = record { times = a.refused; last = a.last };
      spare = option_map (λ p. p.spare) a.pair;
      past = a.past.items;
      loads = a.loads;
      failures = a.failures;
    } };

    ghost invariant = { λ a. IsTwinned (option_map (λ m. record { shape = m.shape; name = string_bytes m.name }) a.machine) a.pair
        (A.rig_state a.first) (B.rig_state a.second) (ended_in (λ r. A.rig_state r) a.past.items) };
}

impl<A: Rig, B: Rig> TwinRig<A, B> {
    /// These two side by side, with nothing attached. The second will be attached under this name.
    pub fn new(alloc: Global, first: A, second: B, name: String) -> Self
        ensures { result ≡ record {
          first = first;
          second = second;
          second_name = string_bytes name;
          asked = [];
          attached = None;
          refused = record { times = 0; last = None };
          spare = None;
          past = [];
          loads = 0;
          failures = 0;
        } }
    {
        TwinRig {
            alloc,
            first,
            second,
            second_name: name,
            asked: AskedMachines::new(alloc),
            machine: None,
            pair: None,
            past: Log::new(),
            loads: 0,
            failures: 0,
            refused: 0,
            last: None,
        }
    }

    /// What explains the log of either rig, and is of the machine that is attached, explains this one's. It does nothing.
    pub fn explained(&self)
        ensures first { (f : Faults) → IsOfMachine f (⟦<TwinRig<A, B> as Rig>⟧.rig_state self.now) →
            Explains f (A.rig_state self.now.first) → Explains f (⟦<TwinRig<A, B> as Rig>⟧.rig_state self.now) }
        ensures second { (f : Faults) → IsOfMachine f (⟦<TwinRig<A, B> as Rig>⟧.rig_state self.now) →
            Explains f (B.rig_state self.now.second) → Explains f (⟦<TwinRig<A, B> as Rig>⟧.rig_state self.now) }
    {
        let _ = &self.loads;
    }
}

impl<A: Rig, B: Rig> Rig for TwinRig<A, B> {
    ghost rig_state = { λ t. twin_state (A.rig_state t.first) (B.rig_state t.second) (ended_in (λ r. A.rig_state r) t.past) t };

    /// The first is attached under this name, then the second under its own. A failure or a refused text is that of one of the
    /// two rigs: the first's, and then the second isn't reached, or the second's.
    fn attach(&mut self, shape: &Shape, name: &str) -> Result<(), AttachFail>
        ensures texts { (⟦<TwinRig<A, B> as Rig>⟧.rig_state self.new).machine.texts ≡
            (⟦<TwinRig<A, B> as Rig>⟧.rig_state self.old).machine.texts }
        ensures loads { (⟦<TwinRig<A, B> as Rig>⟧.rig_state self.new).loads ≡ (⟦<TwinRig<A, B> as Rig>⟧.rig_state self.old).loads }
        ensures later { (⟦<TwinRig<A, B> as Rig>⟧.rig_state self.old).failures ≤ (⟦<TwinRig<A, B> as Rig>⟧.rig_state self.new).failures }
        ensures count { (⟦<TwinRig<A, B> as Rig>⟧.rig_state self.new).failures < 2 ^ 64 }
        ensures attached { OnOk result (Attaches (record { shape = shape.now; name = name.now })
            (⟦<TwinRig<A, B> as Rig>⟧.rig_state self.old)
            (⟦<TwinRig<A, B> as Rig>⟧.rig_state self.new)) }
        ensures detached { OnErr result (IsDetached (⟦<TwinRig<A, B> as Rig>⟧.rig_state self.new)) }
        ensures refused { IfErr result (λ e. AttachFails e (record { shape = shape.now; name = name.now })
            (⟦<TwinRig<A, B> as Rig>⟧.rig_state self.old)
            (⟦<TwinRig<A, B> as Rig>⟧.rig_state self.new)) }

        ensures second_name { self.new.second_name ≡ self.old.second_name }
        ensures both { OnOk result (BothAttach (record { shape = shape.now; name = name.now }) self.old.second_name
            (A.rig_state self.old.first) (A.rig_state self.new.first) (B.rig_state self.old.second) (B.rig_state self.new.second)) }
        ensures handed { IfErr result (λ e.
            NeitherReached e (A.rig_state self.old.first) (A.rig_state self.new.first) (B.rig_state self.old.second)
            (B.rig_state self.new.second)
            ⊎ OneRefuses e (record { shape = shape.now; name = name.now }) self.old.second_name
            (A.rig_state self.old.first) (A.rig_state self.new.first) (B.rig_state self.old.second) (B.rig_state self.new.second)) }
        ensures rises { IsErrOf result AttachFail.Failed → self.new.failures ≡ next_count self.old.failures }
        ensures caused { IsErrOf result AttachFail.Failed → Rose (A.rig_state self.old.first).failures (A.rig_state self.new.first).failures
            ⊎ Rose (B.rig_state self.old.second).failures (B.rig_state self.new.second).failures }
    {
        // A count that was read is known to be a u64.
        let _failures = self.failures;
        self.machine = None;
        self.pair = None;
        self.past = Log::new();
        let Ok(own_name) = String::from_str(self.alloc, name) else {
            return Err(AttachFail::Memory);
        };
        if self.asked.add(shape, name).is_err() {
            return Err(AttachFail::Memory);
        }
        match attach_both(
            &mut self.first,
            &mut self.second,
            shape,
            name,
            &self.second_name,
        ) {
            Ok(()) => {
                self.machine = Some(AskedMachine {
                    shape: *shape,
                    name: own_name,
                });
                Ok(())
            }
            Err(AttachFail::Failed) => {
                self.failures = self.failures.saturating_add(1);
                Err(AttachFail::Failed)
            }
            Err(AttachFail::Memory) | Err(AttachFail::Faults(FaultsFault::Memory)) => {
                self.asked.remove_last();
                Err(AttachFail::Memory)
            }
            Err(AttachFail::Faults(FaultsFault::At { line, kind })) => {
                self.refused = self.refused.saturating_add(1);
                self.last = Some((line, kind));
                Err(AttachFail::Faults(FaultsFault::At { line, kind }))
            }
        }
    }

    /// Both sessions have this configuration. A failure is one of the two rigs.
    fn load(&mut self, config: &Config, room: u32) -> Result<(), RigFail>
        requires { shape_of (⟦<TwinRig<A, B> as Rig>⟧.rig_state self.old) ≡ Some config.now.config.shape }

        ensures machine { (⟦<TwinRig<A, B> as Rig>⟧.rig_state self.new).machine ≡ (⟦<TwinRig<A, B> as Rig>⟧.rig_state self.old).machine }
        ensures later { (⟦<TwinRig<A, B> as Rig>⟧.rig_state self.old).failures ≤ (⟦<TwinRig<A, B> as Rig>⟧.rig_state self.new).failures }
        ensures count { (⟦<TwinRig<A, B> as Rig>⟧.rig_state self.new).failures < 2 ^ 64 }
        ensures begins { OnOk result (Begins config.now.config room (⟦<TwinRig<A, B> as Rig>⟧.rig_state self.new)) }
        ensures told { OnOk result (HasFaultsOf config.now.config.shape (⟦<TwinRig<A, B> as Rig>⟧.rig_state self.new)) }
        ensures logged { (⟦<TwinRig<A, B> as Rig>⟧.rig_state self.new).past ≡ log_of (⟦<TwinRig<A, B> as Rig>⟧.rig_state self.old) }
        ensures counted { OnOk result ((⟦<TwinRig<A, B> as Rig>⟧.rig_state self.new).loads ≡ next_count
            (⟦<TwinRig<A, B> as Rig>⟧.rig_state self.old).loads) }
        ensures ended { OnErr result ((⟦<TwinRig<A, B> as Rig>⟧.rig_state self.new).session ≡ None) }
        ensures not_counted { OnErr result ((⟦<TwinRig<A, B> as Rig>⟧.rig_state self.new).loads ≡
            (⟦<TwinRig<A, B> as Rig>⟧.rig_state self.old).loads) }
        ensures refused { IfErr result (λ e. LoadFails e (⟦<TwinRig<A, B> as Rig>⟧.rig_state self.old)
            (⟦<TwinRig<A, B> as Rig>⟧.rig_state self.new)) }

        ensures second_name { self.new.second_name ≡ self.old.second_name }
        ensures shared { ShareSession (⟦<TwinRig<A, B> as Rig>⟧.rig_state self.new) (A.rig_state self.new.first)
            (B.rig_state self.new.second) }
        ensures spare { OnOk result (self.new.spare ≡ Some room) }
        ensures rises { IsErrOf result RigFail.Failed → self.new.failures ≡ next_count self.old.failures }
        ensures caused { IsErrOf result RigFail.Failed → Rose (A.rig_state self.old.first).failures (A.rig_state self.new.first).failures
            ⊎ Rose (B.rig_state self.old.second).failures (B.rig_state self.new.second).failures }
    {
        let _failures = self.failures;
        end(&mut self.past, &self.first, self.pair.is_some());
        self.pair = None;
        let pair = Pair::new(self.alloc, config, room)?;
        match load_both(&mut self.first, &mut self.second, config, room) {
            Ok(()) => {
                self.pair = Some(pair);
                self.loads = self.loads.saturating_add(1);
                Ok(())
            }
            Err(RigFail::Failed) => {
                self.failures = self.failures.saturating_add(1);
                Err(RigFail::Failed)
            }
            Err(RigFail::Memory) => Err(RigFail::Memory),
        }
    }

    /// Both sessions have this pair of drive and reading, and one place of the room is taken; where none is left, neither rig is
    /// reached. Where both rigs tell the same faults, or a set of faults explains both logs after the call, a
    /// failure is one of theirs.
    fn cycle(&mut self, drive: &PinBits, read: &mut PinBits) -> Result<(), RigFail>
        requires drive_pins { width_of (⟦<TwinRig<A, B> as Rig>⟧.rig_state self.old) ≡ Some (length drive.now) }
        requires read_pins { width_of (⟦<TwinRig<A, B> as Rig>⟧.rig_state self.old) ≡ Some (length read.old) }

        ensures machine { (⟦<TwinRig<A, B> as Rig>⟧.rig_state self.new).machine ≡ (⟦<TwinRig<A, B> as Rig>⟧.rig_state self.old).machine }
        ensures loads { (⟦<TwinRig<A, B> as Rig>⟧.rig_state self.new).loads ≡ (⟦<TwinRig<A, B> as Rig>⟧.rig_state self.old).loads }
        ensures later { (⟦<TwinRig<A, B> as Rig>⟧.rig_state self.old).failures ≤ (⟦<TwinRig<A, B> as Rig>⟧.rig_state self.new).failures }
        ensures count { (⟦<TwinRig<A, B> as Rig>⟧.rig_state self.new).failures < 2 ^ 64 }
        ensures length { length read.new ≡ length read.old }
        ensures cycles { OnOk result (GoesOn drive.now read.new (⟦<TwinRig<A, B> as Rig>⟧.rig_state self.old)
            (⟦<TwinRig<A, B> as Rig>⟧.rig_state self.new)) }
        ensures kept { OnErr result (read.new ≡ read.old) }
        ensures refused { IfErr result (λ e. CycleFails e (⟦<TwinRig<A, B> as Rig>⟧.rig_state self.old)
            (⟦<TwinRig<A, B> as Rig>⟧.rig_state self.new)) }

        ensures second_name { self.new.second_name ≡ self.old.second_name }
        ensures shared { ShareSession (⟦<TwinRig<A, B> as Rig>⟧.rig_state self.new) (A.rig_state self.new.first)
            (B.rig_state self.new.second) }
        ensures room { OnOk result (TakesRoom 1 self.old.spare self.new.spare) }
        ensures beyond { self.old.spare ≡ Some 0 → IsErrOf result RigFail.Memory }
        ensures rises { IsErrOf result RigFail.Failed → self.new.failures ≡ next_count self.old.failures }
        ensures unreached { IsErrOf result RigFail.Memory → self.new ≡ self.old }
        ensures caused { (f : Faults) → (A.rig_state self.old.first).machine.faults ≡ Some f →
            (B.rig_state self.old.second).machine.faults ≡ Some f →
            IsErrOf result RigFail.Failed → Rose (A.rig_state self.old.first).failures (A.rig_state self.new.first).failures
            ⊎ Rose (B.rig_state self.old.second).failures (B.rig_state self.new.second).failures }
        ensures no_alarm { (f : Faults) → Explains f (A.rig_state self.new.first) → Explains f (B.rig_state self.new.second) →
            IsErrOf result RigFail.Failed → Rose (A.rig_state self.old.first).failures (A.rig_state self.new.first).failures
            ⊎ Rose (B.rig_state self.old.second).failures (B.rig_state self.new.second).failures }
    {
        let _failures = self.failures;
        let ended = self.past.and(&self.first);
        match cycle_both(
            &mut self.first,
            &mut self.second,
            &mut self.pair,
            drive,
            read,
        ) {
            Ok(()) => Ok(()),
            Err(RigFail::Failed) => {
                self.past = ended;
                self.failures = self.failures.saturating_add(1);
                Err(RigFail::Failed)
            }
            Err(RigFail::Memory) => Err(RigFail::Memory),
        }
    }

    /// Both sessions have these pairs of drive and reading, and as many places of the room are taken; where fewer are left, neither
    /// rig is reached. Where both rigs tell the same faults, or a set of faults explains both logs after the call, a
    /// failure is one of theirs.
    fn cycles(&mut self, drives: &[PinBits], reads: &mut [PinBits]) -> Result<(), RigFail>
        requires session { IsSome (⟦<TwinRig<A, B> as Rig>⟧.rig_state self.old).session }
        requires drive_pins { AreRows (⟦<TwinRig<A, B> as Rig>⟧.rig_state self.old) drives.now }
        requires read_pins { AreRows (⟦<TwinRig<A, B> as Rig>⟧.rig_state self.old) reads.old }
        requires as_many { length drives.now ≡ length reads.old }

        ensures machine { (⟦<TwinRig<A, B> as Rig>⟧.rig_state self.new).machine ≡ (⟦<TwinRig<A, B> as Rig>⟧.rig_state self.old).machine }
        ensures loads { (⟦<TwinRig<A, B> as Rig>⟧.rig_state self.new).loads ≡ (⟦<TwinRig<A, B> as Rig>⟧.rig_state self.old).loads }
        ensures later { (⟦<TwinRig<A, B> as Rig>⟧.rig_state self.old).failures ≤ (⟦<TwinRig<A, B> as Rig>⟧.rig_state self.new).failures }
        ensures count { (⟦<TwinRig<A, B> as Rig>⟧.rig_state self.new).failures < 2 ^ 64 }
        ensures lengths { KeepLengths reads.old reads.new }
        ensures cycles { OnOk result (GoesOnBy drives.now reads.new (⟦<TwinRig<A, B> as Rig>⟧.rig_state self.old)
            (⟦<TwinRig<A, B> as Rig>⟧.rig_state self.new)) }
        ensures refused { IfErr result (λ e. CyclesFail e (length drives.now) (⟦<TwinRig<A, B> as Rig>⟧.rig_state self.old)
            (⟦<TwinRig<A, B> as Rig>⟧.rig_state self.new)) }

        ensures second_name { self.new.second_name ≡ self.old.second_name }
        ensures shared { ShareSession (⟦<TwinRig<A, B> as Rig>⟧.rig_state self.new) (A.rig_state self.new.first)
            (B.rig_state self.new.second) }
        ensures room { OnOk result (TakesRoom (length drives.now) self.old.spare self.new.spare) }
        ensures beyond { IfSome self.old.spare (λ spare. spare < length drives.now → IsErrOf result RigFail.Memory) }
        ensures rises { IsErrOf result RigFail.Failed → self.new.failures ≡ next_count self.old.failures }
        ensures unreached { IsErrOf result RigFail.Memory → self.new ≡ self.old }
        ensures caused { (f : Faults) → (A.rig_state self.old.first).machine.faults ≡ Some f →
            (B.rig_state self.old.second).machine.faults ≡ Some f →
            IsErrOf result RigFail.Failed → Rose (A.rig_state self.old.first).failures (A.rig_state self.new.first).failures
            ⊎ Rose (B.rig_state self.old.second).failures (B.rig_state self.new.second).failures }
        ensures no_alarm { (f : Faults) → Explains f (A.rig_state self.new.first) → Explains f (B.rig_state self.new.second) →
            IsErrOf result RigFail.Failed → Rose (A.rig_state self.old.first).failures (A.rig_state self.new.first).failures
            ⊎ Rose (B.rig_state self.old.second).failures (B.rig_state self.new.second).failures }
    {
        let _failures = self.failures;
        let ended = self.past.and(&self.first);
        match cycles_both(
            &mut self.first,
            &mut self.second,
            &mut self.pair,
            drives,
            reads,
        ) {
            Ok(()) => Ok(()),
            Err(RigFail::Failed) => {
                self.past = ended;
                self.failures = self.failures.saturating_add(1);
                Err(RigFail::Failed)
            }
            Err(RigFail::Memory) => Err(RigFail::Memory),
        }
    }

    fn loads(&self) -> u64 {
        self.loads
    }
}
