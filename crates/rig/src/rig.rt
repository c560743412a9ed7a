//! A rig as a trait.
ghost use Rattle.std.specs.Prelude.{◌≡◌, ◌^◌, ◌<◌, ◌≤◌, None, Some, IsSome, IfErr, OnOk, OnErr, length};
ghost use Rattle.base_io.specs.Counts.{next_count};
ghost use Rattle.rig.specs.Rig.{RigState, shape_of, width_of, IsDetached, Attaches, AttachFails, HasFaultsOf, log_of, Begins, LoadFails};
ghost use Rattle.rig.specs.Rig.{GoesOn, CycleFails, GoesOnBy, CyclesFail, AreRows, KeepLengths};

use crate::PinBits;
use machine_config::Config;
use machine_faults::FaultsFault;
use machine_shape::Shape;
use std::alloc::AllocError;

/// Why a rig attaches nothing.
#[derive(Clone, Copy, Debug, PartialEq, Eq)]
pub enum AttachFail {
    /// The rig failed, and counted it.
    Failed,
    /// The fault text of the name is refused, at this line for this kind. It is never a lack of memory.
    Faults(FaultsFault),
    /// Memory is wanting.
    Memory,
}

/// Why a rig doesn't load or cycle.
#[derive(Clone, Copy, Debug, PartialEq, Eq)]
pub enum RigFail {
    /// The rig failed, and counted it.
    Failed,
    /// Memory is wanting.
    Memory,
}

impl From<AllocError> for RigFail {
    ghost use Rattle.std.specs.Prelude.{◌≡◌};
    ghost use Rattle.rig.specs.declared.rig.RigFail.TheVariants.{Memory};

    ghost from_gives = { λ _ e. e ≡ Memory };

    fn from(_e: AllocError) -> RigFail {
        RigFail::Memory
    }
}

/// A machine that is attached by name, loaded and driven.
///
/// Contracts see the machines that were asked for, the one that is attached, its faults and the fault text of
/// each name where the rig tells them, how often a fault text was refused, the session, the sessions before it, the number
/// of loads, and a count of failures, which is a `u64` and never falls. A session is what was loaded, the cycles since, and
/// for how many further cycles there is room. No call changes the fault texts.
///
/// The sessions of the attached machine, those that have ended and the one that stands, are its log: what the callers loaded,
/// drove and read. `attach` begins an empty one, whatever it answers.
pub trait Rig: Drop {
    ghost rig_state: { Self → RigState };

    /// Makes the rig a machine of this shape under this name, with no session and an empty log. A refusal leaves nothing
    /// attached, and the log empty. Where the rig tells both, the faults of the machine are those that the fault text of the
    /// name spells; a name of an at sign and a numeral stands for generated faults, and is left out.
    ///
    /// The shape and the name are added to the machines asked, but after `Memory`. After `Failed` the count rose.
    /// After `Faults`, and then alone, one more text was refused; where the text of the name is told, it is no fault
    /// text of this shape or has more than 16,777,216 bytes, and has its first fault at that line.
    fn attach(&mut self, shape: &Shape, name: &str) -> Result<(), AttachFail>
        ensures texts { (rig_state self.new).machine.texts ≡ (rig_state self.old).machine.texts }
        ensures loads { (rig_state self.new).loads ≡ (rig_state self.old).loads }
        ensures later { (rig_state self.old).failures ≤ (rig_state self.new).failures }
        ensures count { (rig_state self.new).failures < 2 ^ 64 }
        ensures attached { OnOk result (Attaches (record { shape = shape.now; name = name.now }) (rig_state self.old)
            (rig_state self.new)) }
        ensures detached { OnErr result (IsDetached (rig_state self.new)) }
        ensures refused { IfErr result (λ e. AttachFails e (record { shape = shape.now; name = name.now }) (rig_state self.old)
            (rig_state self.new)) };

    /// Begins a session with this configuration, no cycles, and room for at least `room` of them. Where the faults
    /// are told, they are faults of its shape. A refusal leaves no session. After `Failed` the count rose. Whatever it answers, the
    /// session before has ended, and is the last one in the log.
    fn load(&mut self, config: &Config, room: u32) -> Result<(), RigFail>
        requires { shape_of (rig_state self.old) ≡ Some config.now.config.shape }

        ensures machine { (rig_state self.new).machine ≡ (rig_state self.old).machine }
        ensures later { (rig_state self.old).failures ≤ (rig_state self.new).failures }
        ensures count { (rig_state self.new).failures < 2 ^ 64 }
        ensures begins { OnOk result (Begins config.now.config room (rig_state self.new)) }
        ensures told { OnOk result (HasFaultsOf config.now.config.shape (rig_state self.new)) }
        ensures logged { (rig_state self.new).past ≡ log_of (rig_state self.old) }
        ensures counted { OnOk result ((rig_state self.new).loads ≡ next_count (rig_state self.old).loads) }
        ensures ended { OnErr result ((rig_state self.new).session ≡ None) }
        ensures not_counted { OnErr result ((rig_state self.new).loads ≡ (rig_state self.old).loads) }
        ensures refused { IfErr result (λ e. LoadFails e (rig_state self.old) (rig_state self.new)) };

    /// Drives the pins for one cycle, and reads them; a bit that is 1 releases its pin. It takes at most one place
    /// of the session's room, and where the faults are told, all readings of the session are the machine's.
    ///
    /// After `Failed` the count rose and there is no session; the one before has ended with the cycles that it had. `Memory`
    /// comes only where there is no room, and then nothing was driven and the session is as before. After a refusal `read` is
    /// as it was.
    fn cycle(&mut self, drive: &PinBits, read: &mut PinBits) -> Result<(), RigFail>
        requires drive_pins { width_of (rig_state self.old) ≡ Some (length drive.now) }
        requires read_pins { width_of (rig_state self.old) ≡ Some (length read.old) }

        ensures machine { (rig_state self.new).machine ≡ (rig_state self.old).machine }
        ensures loads { (rig_state self.new).loads ≡ (rig_state self.old).loads }
        ensures later { (rig_state self.old).failures ≤ (rig_state self.new).failures }
        ensures count { (rig_state self.new).failures < 2 ^ 64 }
        ensures length { length read.new ≡ length read.old }
        ensures cycles { OnOk result (GoesOn drive.now read.new (rig_state self.old) (rig_state self.new)) }
        ensures kept { OnErr result (read.new ≡ read.old) }
        ensures refused { IfErr result (λ e. CycleFails e (rig_state self.old) (rig_state self.new)) };

    /// Makes as many cycles as there are drives, one after the other, and reads the pins in each: what as many calls of
    /// [`Rig::cycle`] that answer `Ok` do. A rig to which a turn costs more than a reading may make them in one.
    ///
    /// After `Failed` the count rose and there is no session; the one before has ended with the cycles that it had. `Memory`
    /// comes only where there is room for fewer cycles, and then nothing was driven and the session is as before. After a
    /// refusal `reads` has its lengths, and any bits.
    fn cycles(&mut self, drives: &[PinBits], reads: &mut [PinBits]) -> Result<(), RigFail>
        requires session { IsSome (rig_state self.old).session }
        requires drive_pins { AreRows (rig_state self.old) drives.now }
        requires read_pins { AreRows (rig_state self.old) reads.old }
        requires as_many { length drives.now ≡ length reads.old }

        ensures machine { (rig_state self.new).machine ≡ (rig_state self.old).machine }
        ensures loads { (rig_state self.new).loads ≡ (rig_state self.old).loads }
        ensures later { (rig_state self.old).failures ≤ (rig_state self.new).failures }
        ensures count { (rig_state self.new).failures < 2 ^ 64 }
        ensures lengths { KeepLengths reads.old reads.new }
        ensures cycles { OnOk result (GoesOnBy drives.now reads.new (rig_state self.old) (rig_state self.new)) }
        ensures refused { IfErr result (λ e. CyclesFail e (length drives.now) (rig_state self.old) (rig_state self.new)) };

    /// How many loads there were since the rig was made, up to the last `u64`.
    fn loads(&self) -> u64
        ensures { result ≡ (rig_state self.now).loads };
}
