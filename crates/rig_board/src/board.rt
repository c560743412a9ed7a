//! A board as a trait.
ghost use Rattle.std.specs.Prelude.{◌≡◌, ◌^◌, ◌<◌, ◌≤◌, true, None, Some, [], ◌∷◌, OnOk, OnErr, IfErr, IfSome, IsErrOf, length};
ghost use Rattle.base_io.specs.Counts.{Rose};
ghost use Rattle.rig_board.specs.Device.{Device, IsInSession, faults_told};
ghost use Rattle.rig.specs.Rig.{KeepLengths};
ghost use Rattle.rig_board.specs.Boards.{BoardState, width_found, Finds, SetsUp, HasCycled, HasCycledAll, AreRowsOf, HasFailed};
ghost use Rattle.rig_board.specs.Machines.{Narrows, EachWas, GoesOnBy};

use machine_config::Config;
use machine_shape::Shape;
use rig::{PinBits, RigFail};

/// A machine that is found by name, set up and driven.
///
/// Contracts see the shape that was found, whether a configuration was set up, the device that the board is where it tells
/// one, and a count of failures, which is a `u64` and never falls. No code sees the device. Whether or not one is told, contracts see
/// which machines the board may be, by what it was answered: no call but `find`, which begins anew, makes these more, and each of them
/// has the session that was set up, and made the cycles that were driven. Behind an `Ok` a machine that is told is one of them.
pub trait Board: Drop {
    ghost board_state: { Self → BoardState };

    // The machines that it may be, by what it was answered since it was found; a board that tells none may leave this out.
    ghost may_be: { Self → Device → Type 0 } = { λ _ _. ⊥ };

    /// Finds the board of this name, and that it has this shape. A refusal leaves none found. After `Failed` the count rose.
    fn find(&mut self, shape: &Shape, name: &str) -> Result<(), RigFail>
        ensures later { (board_state self.old).failures ≤ (board_state self.new).failures }
        ensures count { (board_state self.new).failures < 2 ^ 64 }
        ensures found { OnOk result (Finds shape.now (board_state self.new)) }
        ensures told { OnOk result (IfSome (board_state self.new).device (may_be self.new)) }
        ensures lost { OnErr result ((board_state self.new).found ≡ None) }
        ensures refused { IsErrOf result RigFail.Failed → Rose (board_state self.old).failures (board_state self.new).failures };

    /// Sets each crosspoint and each table, and the ticks. After `Failed` the count rose. After a refusal nothing is said of
    /// whether the board may be driven.
    fn set_up(&mut self, config: &Config) -> Result<(), RigFail>
        requires { (board_state self.old).found ≡ Some config.now.config.shape }

        ensures found { (board_state self.new).found ≡ (board_state self.old).found }
        ensures faults { faults_told (board_state self.new).device ≡ faults_told (board_state self.old).device }
        ensures later { (board_state self.old).failures ≤ (board_state self.new).failures }
        ensures count { (board_state self.new).failures < 2 ^ 64 }
        ensures begins { OnOk result (SetsUp config.now.config (board_state self.new)) }
        ensures refused { IsErrOf result RigFail.Failed → Rose (board_state self.old).failures (board_state self.new).failures }
        ensures set_for_each { OnOk result (EachWas (λ o d. IsInSession config.now.config [] d) (may_be self.old) (may_be self.new)) }
        ensures narrows { Narrows (may_be self.old) (may_be self.new) }
        ensures told { OnOk result (IfSome (board_state self.new).device (may_be self.new)) };

    /// Drives the pins, ticks, reads the pins, and clocks the registers; a bit that is 1 releases its pin. It takes no memory
    /// and never answers `Memory`. After `Failed` the count rose, and `read` has any bits.
    fn cycle(&mut self, drive: &PinBits, read: &mut PinBits) -> Result<(), RigFail>
        requires session { (board_state self.old).in_session ≡ true }
        requires drive_pins { width_found (board_state self.old) ≡ Some (length drive.now) }
        requires read_pins { width_found (board_state self.old) ≡ Some (length read.old) }

        ensures found { (board_state self.new).found ≡ (board_state self.old).found }
        ensures faults { faults_told (board_state self.new).device ≡ faults_told (board_state self.old).device }
        ensures later { (board_state self.old).failures ≤ (board_state self.new).failures }
        ensures count { (board_state self.new).failures < 2 ^ 64 }
        ensures length { length read.new ≡ length read.old }
        ensures cycles { OnOk result (HasCycled (record { drive = drive.now; reading = read.new } ∷ []) (board_state self.old)
            (board_state self.new)) }
        ensures refused { IfErr result (λ e. HasFailed e (board_state self.old) (board_state self.new)) }
        ensures cycles_for_each { OnOk result (EachWas (GoesOnBy (drive.now ∷ []) (read.new ∷ [])) (may_be self.old) (may_be self.new)) }
        ensures narrows { Narrows (may_be self.old) (may_be self.new) }
        ensures told { OnOk result (IfSome (board_state self.new).device (may_be self.new)) };

    /// Makes as many cycles as there are drives, one after the other, as [`Board::cycle`] does. It takes no memory and never
    /// answers `Memory`. After `Failed` the count rose, and `reads` has its lengths, and any bits.
    fn cycles(&mut self, drives: &[PinBits], reads: &mut [PinBits]) -> Result<(), RigFail>
        requires session { (board_state self.old).in_session ≡ true }
        requires drive_pins { AreRowsOf (board_state self.old) drives.now }
        requires read_pins { AreRowsOf (board_state self.old) reads.old }
        requires as_many { length drives.now ≡ length reads.old }

        ensures found { (board_state self.new).found ≡ (board_state self.old).found }
        ensures faults { faults_told (board_state self.new).device ≡ faults_told (board_state self.old).device }
        ensures later { (board_state self.old).failures ≤ (board_state self.new).failures }
        ensures count { (board_state self.new).failures < 2 ^ 64 }
        ensures lengths { KeepLengths reads.old reads.new }
        ensures cycles { OnOk result (HasCycledAll drives.now reads.new (board_state self.old) (board_state self.new)) }
        ensures refused { IfErr result (λ e. HasFailed e (board_state self.old) (board_state self.new)) }
        ensures cycles_for_each { OnOk result (EachWas (GoesOnBy drives.now reads.new) (may_be self.old) (may_be self.new)) }
        ensures narrows { Narrows (may_be self.old) (may_be self.new) }
        ensures told { OnOk result (IfSome (board_state self.new).device (may_be self.new)) };
}
