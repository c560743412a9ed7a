//! The simulated rig.

ghost use Rattle.std.specs.Prelude.{◌≡◌, ◌⊎◌, ◌^◌, ◌<◌, ◌≤◌, [], None, Some, IsSome, IfOk, IfErr, IsErrOf, OnOk, OnErr, length, option_map};
ghost use Rattle.std.specs.Prelude.{flat_map, option_and_then, string_bytes};
ghost use Rattle.machine_meaning.specs.Faults.{AreFaultsOf};
ghost use Rattle.base_io.specs.Vocabulary.{next_count, Rose, absent};
ghost use Rattle.rig.specs.Rig.{shape_of, width_of, IsDetached, Attaches, AttachFails, HasFaultsOf, log_of, standing, Begins, LoadFails};
ghost use Rattle.rig.specs.Rig.{GoesOn, CycleFails, GoesOnBy, CyclesFail, AreRows, KeepLengths};
ghost use Rattle.rig.specs.declared.rig.RigFail.TheVariants as work;
ghost use Rattle.rig.specs.Names.{generated_of, SpellsFaults};
ghost use Rattle.rig_simulated.specs.Named.{texts_of, AreNamed, TellsNamed, Asks, AsksAtMost, NamesFail};

use crate::named::faults_of;
use crate::sim::Sim;
use base_io::Store;
use base_log::Log;
use machine_config::Config;
use machine_faults::{FaultsFault, FaultsKind};
use machine_shape::Shape;
use rig::{AskedMachines, AttachFail, PinBits, Rig, RigFail};
use std::alloc::Global;

// The machine that is attached, under its name.
#[derive(Drop)]
struct Attached {
    name: String,
    sim: Sim,
}

/// A rig that computes what a machine with the faults of a file reads, or with generated faults: the name `@n`
/// stands for those of the number `n`. It tells its faults, and its fault texts where its store tells its contents.
#[derive(Drop)]
pub struct SimRig<S: Store + Drop> {
    alloc: Global,
    store: S,
    asked: AskedMachines,
    attached: Option<Attached>,
    // The machine as it stood when each of its sessions ended, for proofs alone.
    past: Log<Sim>,
    loads: u64,
    failures: u64,
    refused: u64,
    last: Option<(u64, FaultsKind)>,
}

/// The machine of a name.
#[tactic(auto, using(crate::proofs::Naming::spells))]
fn sim_of<S: Store>(
    alloc: Global,
    store: &mut S,
    shape: &Shape,
    name: &str,
) -> Result<Sim, AttachFail>
    ensures shape { IfOk result (λ s. s.machine.shape ≡ shape.now) }
    ensures session { IfOk result (λ s. s.session ≡ None) }
    ensures sound { IfOk result (λ s. AreFaultsOf shape.now s.machine.faults) }
    ensures faults { IfOk result (λ s. AreNamed (generated_of name.now) shape.now
        ((S.store_state store.old).contents name.now) s.machine.faults) }
    ensures spelled { IfOk result (λ s. SpellsFaults (texts_of (S.store_state store.old).contents name.now) name.now shape.now
        (Some s.machine.faults)) }
    ensures contents { (S.store_state store.new).contents ≡ (S.store_state store.old).contents }
    ensures asks { OnOk result (Asks (generated_of name.now) name.now (S.store_state store.old) (S.store_state store.new)) }
    ensures asks_at_most { AsksAtMost (generated_of name.now) name.now (S.store_state store.old) (S.store_state store.new) }
    ensures refused { IfErr result (λ e. NamesFail e shape.now (texts_of (S.store_state store.old).contents name.now)
        (S.store_state store.old) (S.store_state store.new)) }
    ensures missing { generated_of name.now ≡ None → (S.store_state store.old).contents name.now ≡ absent →
        IsErrOf result AttachFail.Failed ⊎ IsErrOf result AttachFail.Memory }
{
    match faults_of(alloc, store, shape, name) {
        Ok(faults) => match Sim::new(alloc, faults) {
            Ok(sim) => Ok(sim),
            Err(_) => Err(AttachFail::Memory),
        },
        Err(e) => Err(e),
    }
}

impl<S: Store + Drop> SimRig<S> {
    /// A rig with nothing attached, whose fault texts are the files of the store.
    pub fn new(alloc: Global, store: S) -> Self
        ensures store { result.store ≡ store }
        ensures asked { (⟦<SimRig<S> as Rig>⟧.rig_state result).machine.asked ≡ [] }
        ensures texts { (⟦<SimRig<S> as Rig>⟧.rig_state result).machine.texts ≡ texts_of (S.store_state store).contents }
        ensures refused { (⟦<SimRig<S> as Rig>⟧.rig_state result).machine.refused ≡ record { times = 0; last = None } }
        ensures detached { IsDetached (⟦<SimRig<S> as Rig>⟧.rig_state result) }
        ensures loads { (⟦<SimRig<S> as Rig>⟧.rig_state result).loads ≡ 0 }
        ensures failures { (⟦<SimRig<S> as Rig>⟧.rig_state result).failures ≡ 0 }
    {
        SimRig {
            alloc,
            store,
            asked: AskedMachines::new(alloc),
            attached: None,
            past: Log::new(),
            loads: 0,
            failures: 0,
            refused: 0,
            last: None,
        }
    }
}

impl<S: Store + Drop> Rig for SimRig<S> {
    ghost rig_state = { λ s. record {
      machine = record {
        asked = s.asked;
        attached = option_map (λ a. record { shape = a.sim.machine.shape; name = string_bytes a.name }) s.attached;
        faults = option_map (λ a. a.sim.machine.faults) s.attached;
        texts = texts_of (S.store_state s.store).contents;
        refused = record { times = s.refused; last = s.last };
      };
      session = option_and_then (λ a. a.sim.session) s.attached;
      past = flat_map (λ m. standing m.session) s.past.items;
      loads = s.loads;
      failures = s.failures;
    } };

    /// The store is asked for the file of this name and no other, and for nothing where the name is `@n`. The rig
    /// fails only where the store does; so it does, but for lack of memory, at a name whose file is told to be absent.
    fn attach(&mut self, shape: &Shape, name: &str) -> Result<(), AttachFail>
        ensures texts { (⟦<SimRig<S> as Rig>⟧.rig_state self.new).machine.texts ≡ (⟦<SimRig<S> as Rig>⟧.rig_state self.old).machine.texts }
        ensures loads { (⟦<SimRig<S> as Rig>⟧.rig_state self.new).loads ≡ (⟦<SimRig<S> as Rig>⟧.rig_state self.old).loads }
        ensures later { (⟦<SimRig<S> as Rig>⟧.rig_state self.old).failures ≤ (⟦<SimRig<S> as Rig>⟧.rig_state self.new).failures }
        ensures count { (⟦<SimRig<S> as Rig>⟧.rig_state self.new).failures < 2 ^ 64 }
        ensures attached { OnOk result (Attaches (record { shape = shape.now; name = name.now }) (⟦<SimRig<S> as Rig>⟧.rig_state self.old)
            (⟦<SimRig<S> as Rig>⟧.rig_state self.new)) }
        ensures detached { OnErr result (IsDetached (⟦<SimRig<S> as Rig>⟧.rig_state self.new)) }
        ensures refused { IfErr result (λ e. AttachFails e (record { shape = shape.now; name = name.now })
            (⟦<SimRig<S> as Rig>⟧.rig_state self.old) (⟦<SimRig<S> as Rig>⟧.rig_state self.new)) }
        ensures told { OnOk result (TellsNamed (generated_of name.now) shape.now ((S.store_state self.old.store).contents name.now)
            (⟦<SimRig<S> as Rig>⟧.rig_state self.new).machine.faults) }
        ensures asks { OnOk result (Asks (generated_of name.now) name.now (S.store_state self.old.store) (S.store_state self.new.store)) }
        ensures asks_at_most { AsksAtMost (generated_of name.now) name.now (S.store_state self.old.store) (S.store_state self.new.store) }
        ensures caused { IfErr result (λ e. NamesFail e shape.now ((⟦<SimRig<S> as Rig>⟧.rig_state self.old).machine.texts name.now)
            (S.store_state self.old.store) (S.store_state self.new.store)) }
        ensures missing { generated_of name.now ≡ None → (S.store_state self.old.store).contents name.now ≡ absent →
            IsErrOf result AttachFail.Failed ⊎ IsErrOf result AttachFail.Memory }
        ensures rises { ((⟦<SimRig<S> as Rig>⟧.rig_state self.new).failures ≡ (⟦<SimRig<S> as Rig>⟧.rig_state self.old).failures)
            ⊎ Rose (S.store_state self.old.store).failures (S.store_state self.new.store).failures }
    {
        // A count that was read is known to be a u64.
        let _failures = self.failures;
        self.attached = None;
        self.past = Log::new();
        let Ok(own_name) = String::from_str(self.alloc, name) else {
            return Err(AttachFail::Memory);
        };
        if self.asked.add(shape, name).is_err() {
            return Err(AttachFail::Memory);
        }
        match sim_of(self.alloc, &mut self.store, shape, name) {
            Ok(sim) => {
                self.attached = Some(Attached {
                    name: own_name,
                    sim,
                });
                Ok(())
            }
            Err(AttachFail::Failed) => {
                self.failures = self.failures.saturating_add(1);
                Err(AttachFail::Failed)
            }
            Err(AttachFail::Memory) | Err(AttachFail::Faults(FaultsFault::Memory)) => {
                self.asked.remove_last();
                Err(AttachFail::Memory)
            }
            Err(AttachFail::Faults(FaultsFault::At { line, kind })) => {
                self.refused = self.refused.saturating_add(1);
                self.last = Some((line, kind));
                Err(AttachFail::Faults(FaultsFault::At { line, kind }))
            }
        }
    }

    /// The store stays as it is, and the rig doesn't fail.
    fn load(&mut self, config: &Config, room: u32) -> Result<(), RigFail>
        requires { shape_of (⟦<SimRig<S> as Rig>⟧.rig_state self.old) ≡ Some config.now.config.shape }
        ensures machine { (⟦<SimRig<S> as Rig>⟧.rig_state self.new).machine ≡ (⟦<SimRig<S> as Rig>⟧.rig_state self.old).machine }
        ensures later { (⟦<SimRig<S> as Rig>⟧.rig_state self.old).failures ≤ (⟦<SimRig<S> as Rig>⟧.rig_state self.new).failures }
        ensures count { (⟦<SimRig<S> as Rig>⟧.rig_state self.new).failures < 2 ^ 64 }
        ensures begins { OnOk result (Begins config.now.config room (⟦<SimRig<S> as Rig>⟧.rig_state self.new)) }
        ensures told { OnOk result (HasFaultsOf config.now.config.shape (⟦<SimRig<S> as Rig>⟧.rig_state self.new)) }
        ensures logged { (⟦<SimRig<S> as Rig>⟧.rig_state self.new).past ≡ log_of (⟦<SimRig<S> as Rig>⟧.rig_state self.old) }
        ensures counted { OnOk result ((⟦<SimRig<S> as Rig>⟧.rig_state self.new).loads ≡ next_count
            (⟦<SimRig<S> as Rig>⟧.rig_state self.old).loads) }
        ensures ended { OnErr result ((⟦<SimRig<S> as Rig>⟧.rig_state self.new).session ≡ None) }
        ensures not_counted { OnErr result ((⟦<SimRig<S> as Rig>⟧.rig_state self.new).loads ≡
            (⟦<SimRig<S> as Rig>⟧.rig_state self.old).loads) }
        ensures refused { IfErr result (λ e. LoadFails e (⟦<SimRig<S> as Rig>⟧.rig_state self.old)
            (⟦<SimRig<S> as Rig>⟧.rig_state self.new)) }
        ensures store { self.new.store ≡ self.old.store }
        ensures never_fails { IfErr result (λ e. e ≡ work.Memory) }
        ensures no_failure { (⟦<SimRig<S> as Rig>⟧.rig_state self.new).failures ≡ (⟦<SimRig<S> as Rig>⟧.rig_state self.old).failures }
    {
        // A count that was read is known to be a u64.
        let _failures = self.failures;
        let Some(mut attached) = self.attached.take() else {
            unreachable!()
        };
        self.past = self.past.and(&attached.sim);
        let done = attached.sim.load(config, room);
        self.attached = Some(attached);
        match done {
            Ok(()) => {
                self.loads = self.loads.saturating_add(1);
                Ok(())
            }
            Err(_) => Err(RigFail::Memory),
        }
    }

    /// The store stays as it is, and the rig doesn't fail.
    fn cycle(&mut self, drive: &PinBits, read: &mut PinBits) -> Result<(), RigFail>
        requires drive_pins { width_of (⟦<SimRig<S> as Rig>⟧.rig_state self.old) ≡ Some (length drive.now) }
        requires read_pins { width_of (⟦<SimRig<S> as Rig>⟧.rig_state self.old) ≡ Some (length read.old) }
        ensures machine { (⟦<SimRig<S> as Rig>⟧.rig_state self.new).machine ≡ (⟦<SimRig<S> as Rig>⟧.rig_state self.old).machine }
        ensures loads { (⟦<SimRig<S> as Rig>⟧.rig_state self.new).loads ≡ (⟦<SimRig<S> as Rig>⟧.rig_state self.old).loads }
        ensures later { (⟦<SimRig<S> as Rig>⟧.rig_state self.old).failures ≤ (⟦<SimRig<S> as Rig>⟧.rig_state self.new).failures }
        ensures count { (⟦<SimRig<S> as Rig>⟧.rig_state self.new).failures < 2 ^ 64 }
        ensures length { length read.new ≡ length read.old }
        ensures cycles { OnOk result (GoesOn drive.now read.new (⟦<SimRig<S> as Rig>⟧.rig_state self.old)
            (⟦<SimRig<S> as Rig>⟧.rig_state self.new)) }
        ensures kept { OnErr result (read.new ≡ read.old) }
        ensures refused { IfErr result (λ e. CycleFails e (⟦<SimRig<S> as Rig>⟧.rig_state self.old)
            (⟦<SimRig<S> as Rig>⟧.rig_state self.new)) }
        ensures store { self.new.store ≡ self.old.store }
        ensures never_fails { IfErr result (λ e. e ≡ work.Memory) }
        ensures no_failure { (⟦<SimRig<S> as Rig>⟧.rig_state self.new).failures ≡ (⟦<SimRig<S> as Rig>⟧.rig_state self.old).failures }
    {
        // A count that was read is known to be a u64.
        let _failures = self.failures;
        let Some(mut attached) = self.attached.take() else {
            unreachable!()
        };
        let done = attached.sim.cycle(drive, read);
        self.attached = Some(attached);
        match done {
            Ok(()) => Ok(()),
            Err(_) => Err(RigFail::Memory),
        }
    }

    /// The store stays as it is, and the rig doesn't fail.
    fn cycles(&mut self, drives: &[PinBits], reads: &mut [PinBits]) -> Result<(), RigFail>
        requires session { IsSome (⟦<SimRig<S> as Rig>⟧.rig_state self.old).session }
        requires drive_pins { AreRows (⟦<SimRig<S> as Rig>⟧.rig_state self.old) drives.now }
        requires read_pins { AreRows (⟦<SimRig<S> as Rig>⟧.rig_state self.old) reads.old }
        requires as_many { length drives.now ≡ length reads.old }
        ensures machine { (⟦<SimRig<S> as Rig>⟧.rig_state self.new).machine ≡ (⟦<SimRig<S> as Rig>⟧.rig_state self.old).machine }
        ensures loads { (⟦<SimRig<S> as Rig>⟧.rig_state self.new).loads ≡ (⟦<SimRig<S> as Rig>⟧.rig_state self.old).loads }
        ensures later { (⟦<SimRig<S> as Rig>⟧.rig_state self.old).failures ≤ (⟦<SimRig<S> as Rig>⟧.rig_state self.new).failures }
        ensures count { (⟦<SimRig<S> as Rig>⟧.rig_state self.new).failures < 2 ^ 64 }
        ensures lengths { KeepLengths reads.old reads.new }
        ensures cycles { OnOk result (GoesOnBy drives.now reads.new (⟦<SimRig<S> as Rig>⟧.rig_state self.old)
            (⟦<SimRig<S> as Rig>⟧.rig_state self.new)) }
        ensures refused { IfErr result (λ e. CyclesFail e (length drives.now) (⟦<SimRig<S> as Rig>⟧.rig_state self.old)
            (⟦<SimRig<S> as Rig>⟧.rig_state self.new)) }
        ensures store { self.new.store ≡ self.old.store }
        ensures never_fails { IfErr result (λ e. e ≡ work.Memory) }
        ensures no_failure { (⟦<SimRig<S> as Rig>⟧.rig_state self.new).failures ≡ (⟦<SimRig<S> as Rig>⟧.rig_state self.old).failures }
    {
        // A count that was read is known to be a u64.
        let _failures = self.failures;
        let Some(mut attached) = self.attached.take() else {
            unreachable!()
        };
        let done = attached.sim.cycles(drives, reads);
        self.attached = Some(attached);
        match done {
            Ok(()) => Ok(()),
            Err(_) => Err(RigFail::Memory),
        }
    }

    fn loads(&self) -> u64 {
        self.loads
    }
}
