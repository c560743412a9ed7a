//! What was read of a board explains the log of its rig.
ghost use Rattle.std.specs.Prelude.{◌≡◌, Some};
ghost use Rattle.machine_shape.specs.declared.Shape.{Shape};
ghost use Rattle.machine_meaning.specs.Faults.{AreFaultsOf};
ghost use Rattle.rig.specs.Rig.{Explains, shape_of};
ghost use Rattle.rig_board.specs.Device.{Device};

use crate::{Board, BoardRig};
use rig::Rig;

/// Whatever calls of a rig over a board were made: the attached shape is the one that the board found, and the faults of each machine of this
/// shape that the board may be, by what it was answered, explain the log of the rig.
pub fn log_explained<B: Board>(rig: &BoardRig<B>)
    ensures found { (m : Shape) → shape_of (⟦<BoardRig<B> as Rig>⟧.rig_state rig.now) ≡ Some m → (B.board_state rig.now.board).found ≡ Some m }
    ensures each { (d : Device) → B.may_be rig.now.board d → (m : Shape) → shape_of (⟦<BoardRig<B> as Rig>⟧.rig_state rig.now) ≡ Some m →
        AreFaultsOf m d.faults → ∥ Explains d.faults (⟦<BoardRig<B> as Rig>⟧.rig_state rig.now) ∥₁ }
{
    let _ = rig;
}
