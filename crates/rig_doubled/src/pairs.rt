//! The calls of two rigs side by side.
ghost use Rattle.std.specs.Prelude.{◌≡◌, ◌⊎◌, ◌-◌, ◌<◌, ◌≤◌, None, Some, false, true, length, take, IfOk, IfErr, IfSome, IsSome, IsErrOf};
ghost use Rattle.std.specs.Prelude.{OnOk, OnErr};
ghost use Rattle.machine_meaning.specs.Faults.{Faults, AreFaultsOf};
ghost use Rattle.machine_shape.specs.Shape.{pins_of};
ghost use Rattle.base_io.specs.Counts.{Rose};
ghost use Rattle.rig.specs.Rig.{shape_of, width_of, spare_of, AreRows, Begins, CyclesFail, GoesOn, GoesOnBy, HasFaultsOf, KeepLengths};
ghost use Rattle.rig.specs.Rig.{Explains, Narrows};
ghost use Rattle.rig_doubled.specs.Repeats.{HaveWidth};
ghost use Rattle.rig_doubled.specs.Twins.{ArePaired, BothAttach, BothGoOn, BothGoOnBy, OneRefuses, TakesRoom, paired, room_of};

use crate::rows::{are_same, blank_rows, is_same};
use machine_config::Config;
use machine_shape::Shape;
use rig::{AttachFail, PinBits, Rig, RigFail};
use std::alloc::{AllocError, Global};

/// A session of both rigs: for how many further cycles there is room, and rows for what they read.
#[derive(Drop)]
pub struct Pair {
    spare: u32,
    read: PinBits,
    other: PinBits,
    others: Vec<PinBits>,
}

impl Pair {
    /// Rows for a session with this configuration and room.
    ///
    /// # Errors
    ///
    /// Out of memory.
    pub fn new(alloc: Global, config: &Config, room: u32) -> Result<Pair, AllocError>
        ensures spare { IfOk result (λ p. p.spare ≡ room) }
        ensures read { IfOk result (λ p. length p.read ≡ pins_of config.now.config.shape) }
        ensures other { IfOk result (λ p. length p.other ≡ pins_of config.now.config.shape) }
        ensures rows { IfOk result (λ p. HaveWidth (pins_of config.now.config.shape) p.others.items) }
        ensures room { IfOk result (λ p. length p.others.items ≡ room) }
    {
        let pins = config.shape().pins();
        let read = PinBits::new(alloc, pins)?;
        let other = PinBits::new(alloc, pins)?;
        let others = blank_rows(alloc, pins, room)?;
        Ok(Pair {
            spare: room,
            read,
            other,
            others,
        })
    }
}

/// Attaches the first, then the second under its own name.
///
/// # Errors
///
/// The first refusal of the two.
pub fn attach_both<A: Rig, B: Rig>(
    first: &mut A,
    second: &mut B,
    shape: &Shape,
    name: &str,
    other: &str,
) -> Result<(), AttachFail>
    ensures first { OnOk result (shape_of (A.rig_state first.new) ≡ Some shape.now) }
    ensures second { OnOk result (shape_of (B.rig_state second.new) ≡ Some shape.now) }
    ensures faults { OnOk result (HasFaultsOf shape.now (B.rig_state second.new)) }
    ensures both { OnOk result (BothAttach (record { shape = shape.now; name = name.now }) other.now
        (A.rig_state first.old) (A.rig_state first.new) (B.rig_state second.old) (B.rig_state second.new)) }
    ensures refused { IfErr result (λ e. OneRefuses e (record { shape = shape.now; name = name.now }) other.now
        (A.rig_state first.old) (A.rig_state first.new) (B.rig_state second.old) (B.rig_state second.new)) }
    ensures caused { IsErrOf result AttachFail.Failed → Rose (A.rig_state first.old).failures (A.rig_state first.new).failures
        ⊎ Rose (B.rig_state second.old).failures (B.rig_state second.new).failures }
{
    match first.attach(shape, name) {
        Ok(()) => second.attach(shape, other),
        Err(fail) => Err(fail),
    }
}

/// Loads the first, then the second.
///
/// # Errors
///
/// The first refusal of the two.
pub fn load_both<A: Rig, B: Rig>(
    first: &mut A,
    second: &mut B,
    config: &Config,
    room: u32,
) -> Result<(), RigFail>
    requires first { shape_of (A.rig_state first.old) ≡ Some config.now.config.shape }
    requires second { shape_of (B.rig_state second.old) ≡ Some config.now.config.shape }
    ensures first { (A.rig_state first.new).machine ≡ (A.rig_state first.old).machine }
    ensures second { (B.rig_state second.new).machine ≡ (B.rig_state second.old).machine }
    ensures first_narrows { Narrows (A.rig_state first.old) (A.rig_state first.new) }
    ensures second_narrows { Narrows (B.rig_state second.old) (B.rig_state second.new) }
    ensures first_begins { OnOk result (Begins config.now.config room (A.rig_state first.new)) }
    ensures second_begins { OnOk result (Begins config.now.config room (B.rig_state second.new)) }
    ensures faults { OnOk result (HasFaultsOf config.now.config.shape (B.rig_state second.new)) }
    ensures caused { IsErrOf result RigFail.Failed → Rose (A.rig_state first.old).failures (A.rig_state first.new).failures
        ⊎ Rose (B.rig_state second.old).failures (B.rig_state second.new).failures }
{
    match first.load(config, room) {
        Ok(()) => second.load(config, room),
        Err(fail) => Err(fail),
    }
}

// Makes a cycle with both. False where one refuses or the second reads otherwise. Where both tell the same faults, or a
// set of faults explains the logs of both, it is false only where a count of theirs rose.
fn drive_both<A: Rig, B: Rig>(
    first: &mut A,
    second: &mut B,
    pair: &mut Pair,
    drive: &PinBits,
) -> bool
    requires paired { ArePaired pair.old (A.rig_state first.old) (B.rig_state second.old) }
    requires some { 0 < pair.old.spare }
    requires drive_pins { length drive.now ≡ length pair.old.read }
    ensures first { (A.rig_state first.new).machine ≡ (A.rig_state first.old).machine }
    ensures second { (B.rig_state second.new).machine ≡ (B.rig_state second.old).machine }
    ensures first_narrows { Narrows (A.rig_state first.old) (A.rig_state first.new) }
    ensures second_narrows { Narrows (B.rig_state second.old) (B.rig_state second.new) }
    ensures length { length pair.new.read ≡ length pair.old.read }
    ensures goes_on { result ≡ true → BothGoOn drive.now pair.old pair.new (A.rig_state first.old) (A.rig_state first.new)
        (B.rig_state second.old) (B.rig_state second.new) }
    ensures caused { (f : Faults) → (A.rig_state first.old).machine.faults ≡ Some f → (B.rig_state second.old).machine.faults ≡ Some f →
        result ≡ false → Rose (A.rig_state first.old).failures (A.rig_state first.new).failures
        ⊎ Rose (B.rig_state second.old).failures (B.rig_state second.new).failures }
    ensures no_alarm { (f : Faults) → Explains f (A.rig_state first.new) → Explains f (B.rig_state second.new) →
        result ≡ false → Rose (A.rig_state first.old).failures (A.rig_state first.new).failures
        ⊎ Rose (B.rig_state second.old).failures (B.rig_state second.new).failures }
{
    if first.cycle(drive, &mut pair.read).is_err() {
        return false;
    }
    if second.cycle(drive, &mut pair.other).is_err() {
        return false;
    }
    pair.spare -= 1;
    is_same(&pair.read, &pair.other)
}

/// Makes a cycle with both, in a session of both.
///
/// # Errors
///
/// `Memory` where no room is left, and then neither is reached. `Failed` where one refuses or the second reads otherwise, and
/// then the session has ended.
pub fn cycle_both<A: Rig, B: Rig>(
    first: &mut A,
    second: &mut B,
    pair: &mut Option<Pair>,
    drive: &PinBits,
    read: &mut PinBits,
) -> Result<(), RigFail>
    requires some { IsSome pair.old }
    requires paired { IfSome pair.old (λ p. ArePaired p (A.rig_state first.old) (B.rig_state second.old)) }
    requires drive_pins { width_of (A.rig_state first.old) ≡ Some (length drive.now) }
    requires read_pins { width_of (A.rig_state first.old) ≡ Some (length read.old) }
    ensures first { (A.rig_state first.new).machine ≡ (A.rig_state first.old).machine }
    ensures second { (B.rig_state second.new).machine ≡ (B.rig_state second.old).machine }
    ensures first_narrows { Narrows (A.rig_state first.old) (A.rig_state first.new) }
    ensures second_narrows { Narrows (B.rig_state second.old) (B.rig_state second.new) }
    ensures length { length read.new ≡ length read.old }
    ensures paired { IfSome pair.new (λ p. ArePaired p (A.rig_state first.new) (B.rig_state second.new)) }
    ensures cycles { OnOk result (GoesOn drive.now read.new (paired pair.old (A.rig_state first.old) (B.rig_state second.old))
        (paired pair.new (A.rig_state first.new) (B.rig_state second.new))) }
    ensures room { OnOk result (TakesRoom 1 (room_of pair.old) (room_of pair.new)) }
    ensures beyond { room_of pair.old ≡ Some 0 → IsErrOf result RigFail.Memory }
    ensures kept { OnErr result (read.new ≡ read.old) }
    ensures failed { IsErrOf result RigFail.Failed → pair.new ≡ None }
    ensures full { IsErrOf result RigFail.Memory → (spare_of (paired pair.old (A.rig_state first.old) (B.rig_state second.old)) ≡ 0)
        × (pair.new ≡ pair.old) × (first.new ≡ first.old) × (second.new ≡ second.old) }
    ensures caused { (f : Faults) → (A.rig_state first.old).machine.faults ≡ Some f → (B.rig_state second.old).machine.faults ≡ Some f →
        IsErrOf result RigFail.Failed → Rose (A.rig_state first.old).failures (A.rig_state first.new).failures
        ⊎ Rose (B.rig_state second.old).failures (B.rig_state second.new).failures }
    ensures no_alarm { (f : Faults) → Explains f (A.rig_state first.new) → Explains f (B.rig_state second.new) →
        IsErrOf result RigFail.Failed → Rose (A.rig_state first.old).failures (A.rig_state first.new).failures
        ⊎ Rose (B.rig_state second.old).failures (B.rig_state second.new).failures }
{
    let Some(mut both) = pair.take() else {
        unreachable!()
    };
    if both.spare == 0 {
        *pair = Some(both);
        return Err(RigFail::Memory);
    }
    if !drive_both(first, second, &mut both, drive) {
        return Err(RigFail::Failed);
    }
    read.copy_from(&both.read);
    *pair = Some(both);
    Ok(())
}

// Makes several cycles with the second, and reads into the first of these rows.
fn read_others<B: Rig>(
    second: &mut B,
    drives: &[PinBits],
    others: &mut [PinBits],
) -> Result<(), RigFail>
    requires session { IsSome (B.rig_state second.old).session }
    requires drive_pins { AreRows (B.rig_state second.old) drives.now }
    requires read_pins { AreRows (B.rig_state second.old) others.old }
    requires room { length drives.now ≤ length others.old }
    ensures machine { (B.rig_state second.new).machine ≡ (B.rig_state second.old).machine }
    ensures narrows { Narrows (B.rig_state second.old) (B.rig_state second.new) }
    ensures lengths { KeepLengths others.old others.new }
    ensures cycles { OnOk result (GoesOnBy drives.now (take (length drives.now) others.new) (B.rig_state second.old)
        (B.rig_state second.new)) }
    ensures refused { IfErr result (λ e. CyclesFail e (length drives.now) (B.rig_state second.old) (B.rig_state second.new)) }
{
    second.cycles(drives, &mut others[..drives.len()])
}

// Makes several cycles with both. False where one refuses or the second reads otherwise. Where both tell the same faults, or a
// set of faults explains the logs of both, it is false only where a count of theirs rose.
fn drive_both_by<A: Rig, B: Rig>(
    first: &mut A,
    second: &mut B,
    pair: &mut Pair,
    drives: &[PinBits],
    reads: &mut [PinBits],
) -> bool
    requires paired { ArePaired pair.old (A.rig_state first.old) (B.rig_state second.old) }
    requires some { length drives.now ≤ pair.old.spare }
    requires drive_pins { HaveWidth (length pair.old.read) drives.now }
    requires read_pins { HaveWidth (length pair.old.read) reads.old }
    requires as_many { length drives.now ≡ length reads.old }
    ensures first { (A.rig_state first.new).machine ≡ (A.rig_state first.old).machine }
    ensures second { (B.rig_state second.new).machine ≡ (B.rig_state second.old).machine }
    ensures first_narrows { Narrows (A.rig_state first.old) (A.rig_state first.new) }
    ensures second_narrows { Narrows (B.rig_state second.old) (B.rig_state second.new) }
    ensures lengths { KeepLengths reads.old reads.new }
    ensures goes_on { result ≡ true → BothGoOnBy drives.now reads.new pair.old pair.new (A.rig_state first.old) (A.rig_state first.new)
        (B.rig_state second.old) (B.rig_state second.new) }
    ensures caused { (f : Faults) → (A.rig_state first.old).machine.faults ≡ Some f → (B.rig_state second.old).machine.faults ≡ Some f →
        result ≡ false → Rose (A.rig_state first.old).failures (A.rig_state first.new).failures
        ⊎ Rose (B.rig_state second.old).failures (B.rig_state second.new).failures }
    ensures no_alarm { (f : Faults) → Explains f (A.rig_state first.new) → Explains f (B.rig_state second.new) →
        result ≡ false → Rose (A.rig_state first.old).failures (A.rig_state first.new).failures
        ⊎ Rose (B.rig_state second.old).failures (B.rig_state second.new).failures }
{
    let spare = pair.spare;
    if first.cycles(drives, reads).is_err() {
        return false;
    }
    if read_others(second, drives, &mut pair.others).is_err() {
        return false;
    }
    pair.spare = spare - drives.len() as u32;
    are_same(reads, &pair.others[..drives.len()])
}

/// Makes several cycles with both, in a session of both.
///
/// # Errors
///
/// `Memory` where there is room for fewer, and then neither is reached. `Failed` where one refuses or the second reads
/// otherwise, and then the session has ended.
pub fn cycles_both<A: Rig, B: Rig>(
    first: &mut A,
    second: &mut B,
    pair: &mut Option<Pair>,
    drives: &[PinBits],
    reads: &mut [PinBits],
) -> Result<(), RigFail>
    requires some { IsSome pair.old }
    requires paired { IfSome pair.old (λ p. ArePaired p (A.rig_state first.old) (B.rig_state second.old)) }
    requires drive_pins { AreRows (A.rig_state first.old) drives.now }
    requires read_pins { AreRows (A.rig_state first.old) reads.old }
    requires as_many { length drives.now ≡ length reads.old }
    ensures first { (A.rig_state first.new).machine ≡ (A.rig_state first.old).machine }
    ensures second { (B.rig_state second.new).machine ≡ (B.rig_state second.old).machine }
    ensures first_narrows { Narrows (A.rig_state first.old) (A.rig_state first.new) }
    ensures second_narrows { Narrows (B.rig_state second.old) (B.rig_state second.new) }
    ensures lengths { KeepLengths reads.old reads.new }
    ensures paired { IfSome pair.new (λ p. ArePaired p (A.rig_state first.new) (B.rig_state second.new)) }
    ensures cycles { OnOk result (GoesOnBy drives.now reads.new (paired pair.old (A.rig_state first.old) (B.rig_state second.old))
        (paired pair.new (A.rig_state first.new) (B.rig_state second.new))) }
    ensures room { OnOk result (TakesRoom (length drives.now) (room_of pair.old) (room_of pair.new)) }
    ensures beyond { IfSome (room_of pair.old) (λ spare. spare < length drives.now → IsErrOf result RigFail.Memory) }
    ensures failed { IsErrOf result RigFail.Failed → pair.new ≡ None }
    ensures full { IsErrOf result RigFail.Memory →
        (spare_of (paired pair.old (A.rig_state first.old) (B.rig_state second.old)) < length drives.now)
        × (pair.new ≡ pair.old) × (first.new ≡ first.old) × (second.new ≡ second.old) }
    ensures caused { (f : Faults) → (A.rig_state first.old).machine.faults ≡ Some f → (B.rig_state second.old).machine.faults ≡ Some f →
        IsErrOf result RigFail.Failed → Rose (A.rig_state first.old).failures (A.rig_state first.new).failures
        ⊎ Rose (B.rig_state second.old).failures (B.rig_state second.new).failures }
    ensures no_alarm { (f : Faults) → Explains f (A.rig_state first.new) → Explains f (B.rig_state second.new) →
        IsErrOf result RigFail.Failed → Rose (A.rig_state first.old).failures (A.rig_state first.new).failures
        ⊎ Rose (B.rig_state second.old).failures (B.rig_state second.new).failures }
{
    let Some(mut both) = pair.take() else {
        unreachable!()
    };
    if (both.spare as usize) < drives.len() {
        *pair = Some(both);
        return Err(RigFail::Memory);
    }
    if !drive_both_by(first, second, &mut both, drives, reads) {
        return Err(RigFail::Failed);
    }
    *pair = Some(both);
    Ok(())
}
