//! What stands, and what a tight list leaves free.
ghost use Rattle.std.specs.FinSet as set;
ghost use Rattle.std.specs.Prelude.{◌≡◌, ℕ, ◌<◌, false};
ghost use Rattle.machine_meaning.specs.Defects.{AreDefectsOf, Covers, Defects, IsClear, IsFair, IsFreeCross, IsFreeTable, IsFreeWire};
ghost use Rattle.machine_meaning.specs.Faults.{AreFaultsOf, Faults};
ghost use Rattle.machine_shape.specs.Shape.{crosses_of, ends_of, tables_of, wires_of};
ghost use Rattle.machine_meaning.specs.Sound.{IsSoundCross, IsSoundTable};
ghost use Rattle.machine_meaning.specs.Standing.{HasStandingParts, IsSeated, IsSoundCrossOf, IsStanding};
ghost use Rattle.machine_meaning.specs.Tight.{CouldStand, HasOneFree, IsLeast, IsTight};
ghost use Rattle.machine_shape.specs.declared.Shape.{Shape};

use crate::served::served_nodes_have_sound_parts;
use machine_shape::{each_wire_has_a_home, the_crosspoints_are_sound, the_numbering_is_sound};

/// The sound parts of served nodes stand: ports, pins and all other taps, whole lines, and lines with two sound crosspoints. Their
/// sound tables are seated among standing wires.
pub fn parts_of_served_nodes_stand()
    ensures { (m : Shape) (f : Faults) → HasStandingParts m f }
{
    the_numbering_is_sound();
    the_crosspoints_are_sound();
    each_wire_has_a_home();
    served_nodes_have_sound_parts();
}

/// A tight list leaves every standing wire free, with the sound crosspoints between two of them and the sound tables that are
/// seated among them. It lists no sound crosspoint at all, and it is fair.
pub fn tight_lists_are_fair()
    ensures wires { (m : Shape) (d : Defects) (f : Faults) → IsTight m d f → (w : ℕ) → IsStanding m f w → IsFreeWire d w }
    ensures between { (m : Shape) (d : Defects) (f : Faults) → IsTight m d f → (x : ℕ) → x < crosses_of m → IsSoundCross m f x →
        IsStanding m f (ends_of m x).0 → IsStanding m f (ends_of m x).1 → IsFreeCross m d x }
    ensures crosses { (m : Shape) (d : Defects) (f : Faults) → IsTight m d f → (x : ℕ) → x < crosses_of m → IsSoundCross m f x →
        set.contains d.crosses x ≡ false }
    ensures tables { (m : Shape) (d : Defects) (f : Faults) → IsTight m d f → (t : ℕ) → t < tables_of m → IsSoundTable m f t →
        IsSeated m (IsStanding m f) (IsSoundCrossOf m f) t → IsFreeTable m d t }
    ensures fair { (m : Shape) (d : Defects) (f : Faults) → IsTight m d f → IsFair m d f }
{
    the_numbering_is_sound();
    each_wire_has_a_home();
    parts_of_served_nodes_stand();
}

/// Nothing that could stand can be taken off a tight list so that it still covers the faults. Where it covers them itself, exactly
/// one wire is free of those that are shorted to a clear wire that could stand.
pub fn tight_lists_are_least()
    ensures least { (m : Shape) (d : Defects) (f : Faults) → AreDefectsOf m d → IsTight m d f → IsLeast m d f }
    ensures one { (m : Shape) (d : Defects) (f : Faults) → AreFaultsOf m f → Covers m d f → IsTight m d f →
        (w : ℕ) → w < wires_of m → IsClear m f w → CouldStand m d f w → HasOneFree m d f w }
{
    the_numbering_is_sound();
}
