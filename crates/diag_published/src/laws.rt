//! What this crate rests on, and what crates above rest on.
ghost use Rattle.std.specs.Prelude.{ℕ};
ghost use Rattle.machine_meaning.specs.Faults.{Faults};
ghost use Rattle.machine_shape.specs.declared.Shape.{Shape};
ghost use Rattle.diag_tests.specs.Routes.{Walk};
ghost use Rattle.diag_evidence.specs.Kept.{Kept};
ghost use Rattle.diag_known.specs.Known.{KnownWires};
ghost use Rattle.diag_published.specs.Held.{Findings, IsHeld, IsHeldTrunk, IsFull, IsLater};
ghost use Rattle.diag_published.specs.Laws.{AreLaws};

use machine_meaning::served_nodes_have_sound_parts;
use machine_shape::{
    crosspoints_stand_in_rows, each_wire_has_a_home, ports_and_lines_ascend,
    the_crosspoints_are_sound, the_numbering_is_sound,
};

/// The laws of the numbering, and of sound parts.
pub(crate) fn the_laws_hold()
    ensures { (m : Shape) → AreLaws m }
{
    the_numbering_is_sound();
    the_crosspoints_are_sound();
    crosspoints_stand_in_rows();
    ports_and_lines_ascend();
    each_wire_has_a_home();
    served_nodes_have_sound_parts();
}

/// A held trunk and a held crossbar stay so as more is kept and known, and a full one stays full.
pub fn what_is_held_stays()
    ensures trunk { (k l : Kept) (old new : KnownWires) (n : ℕ) (left right : Walk) → IsLater k l old new →
        IsHeldTrunk k old n left right → IsHeldTrunk l new n left right }
    ensures tested { (k l : Kept) (old new : KnownWires) (t : Findings) → IsLater k l old new → IsHeld k old t → IsHeld l new t }
    ensures full { (k l : Kept) (old new : KnownWires) (f : Faults) (t : Findings) → IsLater k l old new → IsFull k f t → IsFull l f t }
{}
