//! What explains the lines that a board took for answers explains the log of a rig over it.
ghost use Rattle.std.specs.Prelude.{◌≡◌, Some};
ghost use Rattle.machine_shape.specs.declared.Shape.{Shape};
ghost use Rattle.machine_meaning.specs.Faults.{Faults};
ghost use Rattle.rig.specs.Rig.{Explains, shape_of};
ghost use Rattle.rig_port.specs.Transcripts.{ExplainsTalk};

use crate::port::Port;
use crate::port_board::PortBoard;
use rig::Rig;
use rig_board::{BoardRig, log_explained};

/// Whatever calls of a rig over a board behind a port were made: faults of the attached machine that explain the transcript of the board
/// explain the log of the rig.
pub fn port_exact<P: Port>(rig: &BoardRig<PortBoard<P>>)
    ensures { (m : Shape) (f : Faults) → shape_of (⟦<BoardRig<PortBoard<P>> as Rig>⟧.rig_state rig.now) ≡ Some m →
        ExplainsTalk m f rig.now.board.talk → ∥ Explains f (⟦<BoardRig<PortBoard<P>> as Rig>⟧.rig_state rig.now) ∥₁ }
{
    log_explained(rig);
}
