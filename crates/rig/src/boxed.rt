//! Calls of a rig in a box.
ghost use Rattle.std.specs.Prelude.{◌≡◌, ◌^◌, ◌+◌, ◌<◌, ◌≤◌, None, Some, IsSome, IfErr, OnOk, OnErr, length};
ghost use Rattle.base_io.specs.Counts.{next_count};
ghost use Rattle.rig.specs.Rig.{shape_of, width_of, HasFaultsOf, log_of, Begins, LoadFails, GoesOn, CycleFails, GoesOnBy};
ghost use Rattle.rig.specs.Rig.{CyclesFail, AreRows, KeepLengths, Narrows, Tells, cycles_made};

use crate::{PinBits, Rig, RigFail};
use machine_config::Config;

// As the trait says it.
fn load_raw(rig: &mut Box<dyn Rig>, config: &Config, room: u32) -> Result<(), RigFail>
    requires { shape_of (rig_state rig.old) ≡ Some config.now.config.shape }

    ensures machine { (rig_state rig.new).machine ≡ (rig_state rig.old).machine }
    ensures later { (rig_state rig.old).failures ≤ (rig_state rig.new).failures }
    ensures count { (rig_state rig.new).failures < 2 ^ 64 }
    ensures begins { OnOk result (Begins config.now.config room (rig_state rig.new)) }
    ensures told { OnOk result (HasFaultsOf config.now.config.shape (rig_state rig.new)) }
    ensures logged { (rig_state rig.new).past ≡ log_of (rig_state rig.old) }
    ensures counted { OnOk result ((rig_state rig.new).loads ≡ next_count (rig_state rig.old).loads) }
    ensures ended { OnErr result ((rig_state rig.new).session ≡ None) }
    ensures not_counted { OnErr result ((rig_state rig.new).loads ≡ (rig_state rig.old).loads) }
    ensures refused { IfErr result (λ e. LoadFails e (rig_state rig.old) (rig_state rig.new)) }
{
    rig.load(config, room)
}

/// Loads a configuration, as [`Rig::load`] does. What it says has names here, which proofs cite. What explains the log
/// afterwards explained it before, and faults that are told explain it if they did before. A load makes no cycle.
pub fn load(rig: &mut Box<dyn Rig>, config: &Config, room: u32) -> Result<(), RigFail>
    requires { shape_of (rig_state rig.old) ≡ Some config.now.config.shape }

    ensures machine { (rig_state rig.new).machine ≡ (rig_state rig.old).machine }
    ensures later { (rig_state rig.old).failures ≤ (rig_state rig.new).failures }
    ensures count { (rig_state rig.new).failures < 2 ^ 64 }
    ensures begins { OnOk result (Begins config.now.config room (rig_state rig.new)) }
    ensures told { OnOk result (HasFaultsOf config.now.config.shape (rig_state rig.new)) }
    ensures logged { (rig_state rig.new).past ≡ log_of (rig_state rig.old) }
    ensures counted { OnOk result ((rig_state rig.new).loads ≡ next_count (rig_state rig.old).loads) }
    ensures ended { OnErr result ((rig_state rig.new).session ≡ None) }
    ensures not_counted { OnErr result ((rig_state rig.new).loads ≡ (rig_state rig.old).loads) }
    ensures refused { IfErr result (λ e. LoadFails e (rig_state rig.old) (rig_state rig.new)) }
    ensures narrows { Narrows (rig_state rig.old) (rig_state rig.new) }
    ensures tells { Tells (rig_state rig.old) (rig_state rig.new) }
    ensures made { cycles_made (rig_state rig.new) ≡ cycles_made (rig_state rig.old) }
{
    load_raw(rig, config, room)
}

// As the trait says it.
fn cycle_raw(rig: &mut Box<dyn Rig>, drive: &PinBits, read: &mut PinBits) -> Result<(), RigFail>
    requires drive_pins { width_of (rig_state rig.old) ≡ Some (length drive.now) }
    requires read_pins { width_of (rig_state rig.old) ≡ Some (length read.old) }

    ensures machine { (rig_state rig.new).machine ≡ (rig_state rig.old).machine }
    ensures loads { (rig_state rig.new).loads ≡ (rig_state rig.old).loads }
    ensures later { (rig_state rig.old).failures ≤ (rig_state rig.new).failures }
    ensures count { (rig_state rig.new).failures < 2 ^ 64 }
    ensures length { length read.new ≡ length read.old }
    ensures cycles { OnOk result (GoesOn drive.now read.new (rig_state rig.old) (rig_state rig.new)) }
    ensures kept { OnErr result (read.new ≡ read.old) }
    ensures refused { IfErr result (λ e. CycleFails e (rig_state rig.old) (rig_state rig.new)) }
{
    rig.cycle(drive, read)
}

/// Makes a cycle, as [`Rig::cycle`] does. What it says has names here, which proofs cite. What explains the log afterwards
/// explained it before, and faults that are told explain it if they did before.
pub fn cycle(rig: &mut Box<dyn Rig>, drive: &PinBits, read: &mut PinBits) -> Result<(), RigFail>
    requires drive_pins { width_of (rig_state rig.old) ≡ Some (length drive.now) }
    requires read_pins { width_of (rig_state rig.old) ≡ Some (length read.old) }

    ensures machine { (rig_state rig.new).machine ≡ (rig_state rig.old).machine }
    ensures loads { (rig_state rig.new).loads ≡ (rig_state rig.old).loads }
    ensures later { (rig_state rig.old).failures ≤ (rig_state rig.new).failures }
    ensures count { (rig_state rig.new).failures < 2 ^ 64 }
    ensures length { length read.new ≡ length read.old }
    ensures cycles { OnOk result (GoesOn drive.now read.new (rig_state rig.old) (rig_state rig.new)) }
    ensures kept { OnErr result (read.new ≡ read.old) }
    ensures refused { IfErr result (λ e. CycleFails e (rig_state rig.old) (rig_state rig.new)) }
    ensures narrows { Narrows (rig_state rig.old) (rig_state rig.new) }
    ensures tells { Tells (rig_state rig.old) (rig_state rig.new) }
    ensures made { cycles_made (rig_state rig.new) ≤ cycles_made (rig_state rig.old) + 1 }
{
    cycle_raw(rig, drive, read)
}

// As the trait says it.
fn cycles_raw(
    rig: &mut Box<dyn Rig>,
    drives: &[PinBits],
    reads: &mut [PinBits],
) -> Result<(), RigFail>
    requires session { IsSome (rig_state rig.old).session }
    requires drive_pins { AreRows (rig_state rig.old) drives.now }
    requires read_pins { AreRows (rig_state rig.old) reads.old }
    requires as_many { length drives.now ≡ length reads.old }

    ensures machine { (rig_state rig.new).machine ≡ (rig_state rig.old).machine }
    ensures loads { (rig_state rig.new).loads ≡ (rig_state rig.old).loads }
    ensures later { (rig_state rig.old).failures ≤ (rig_state rig.new).failures }
    ensures count { (rig_state rig.new).failures < 2 ^ 64 }
    ensures lengths { KeepLengths reads.old reads.new }
    ensures cycles { OnOk result (GoesOnBy drives.now reads.new (rig_state rig.old) (rig_state rig.new)) }
    ensures refused { IfErr result (λ e. CyclesFail e (length drives.now) (rig_state rig.old) (rig_state rig.new)) }
{
    rig.cycles(drives, reads)
}

/// Makes several cycles, as [`Rig::cycles`] does. What it says has names here, which proofs cite. What explains the log
/// afterwards explained it before, and faults that are told explain it if they did before.
pub fn cycles(
    rig: &mut Box<dyn Rig>,
    drives: &[PinBits],
    reads: &mut [PinBits],
) -> Result<(), RigFail>
    requires session { IsSome (rig_state rig.old).session }
    requires drive_pins { AreRows (rig_state rig.old) drives.now }
    requires read_pins { AreRows (rig_state rig.old) reads.old }
    requires as_many { length drives.now ≡ length reads.old }

    ensures machine { (rig_state rig.new).machine ≡ (rig_state rig.old).machine }
    ensures loads { (rig_state rig.new).loads ≡ (rig_state rig.old).loads }
    ensures later { (rig_state rig.old).failures ≤ (rig_state rig.new).failures }
    ensures count { (rig_state rig.new).failures < 2 ^ 64 }
    ensures lengths { KeepLengths reads.old reads.new }
    ensures cycles { OnOk result (GoesOnBy drives.now reads.new (rig_state rig.old) (rig_state rig.new)) }
    ensures refused { IfErr result (λ e. CyclesFail e (length drives.now) (rig_state rig.old) (rig_state rig.new)) }
    ensures narrows { Narrows (rig_state rig.old) (rig_state rig.new) }
    ensures tells { Tells (rig_state rig.old) (rig_state rig.new) }
    ensures made { cycles_made (rig_state rig.new) ≤ cycles_made (rig_state rig.old) + length drives.now }
{
    cycles_raw(rig, drives, reads)
}
