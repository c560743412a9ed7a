//! What later crates rest on, of the numbering.
ghost use Rattle.std.specs.Prelude.{◌≡◌};
ghost use Rattle.machine_shape.specs.Laws.{IsNumbered, IsTree, HasMeanings, HasTaps, HasCrosses, HasMeetings, HasParents, HasNames, HasHomes};
ghost use Rattle.machine_shape.specs.Laws.{IsNumberedAsTiny, tiny};
ghost use Rattle.machine_shape.specs.Bounds.{HasHighLimits};
ghost use Rattle.machine_shape.specs.PartNames.{HasPartNames};
ghost use Rattle.machine_shape.specs.Rows.{HasRows};
ghost use Rattle.machine_shape.specs.Sums.{HasSums};
ghost use Rattle.machine_shape.specs.declared.Shape.{Shape};

use crate::order::ports_and_lines_ascend;

/// Each wire has one meaning, and the nodes are a tree.
pub fn the_numbering_is_sound()
    ensures numbered { (m : Shape) → IsNumbered m }
    ensures tree { (m : Shape) → IsTree m }
    ensures meanings { (m : Shape) → HasMeanings m }
    ensures parents { (m : Shape) → HasParents m }
{}

/// The numbers of a small machine, as its page shows them.
pub fn a_small_machine_is_numbered_so()
    ensures { (m : Shape) → m.counts ≡ tiny → IsNumberedAsTiny m }
{}

/// Taps and lines of one crossbar, by their positions, are one to one with crosspoints.
pub fn the_crosspoints_are_sound()
    ensures taps { (m : Shape) → HasTaps m }
    ensures crosses { (m : Shape) → HasCrosses m }
    ensures meetings { (m : Shape) → HasMeetings m }
{}

/// The crosspoints of a node follow each other: a row for each tap, and in it one for each line.
pub fn crosspoints_stand_in_rows()
    ensures { (m : Shape) → HasRows m }
{}

/// What wires are called, and that no two wires, tables or nodes have one name.
pub fn names_are_one_to_one()
    ensures { (m : Shape) → HasNames m }
{}

/// What nodes and tables are called, by the names of the nodes above them.
pub fn names_follow_the_tree()
    ensures { (m : Shape) → HasPartNames m }
{}

/// All crossbars together have each crosspoint once, and at most two taps or lines for each wire.
pub fn crossbars_add_up()
    ensures { (m : Shape) → HasSums m }
{}

/// The limits that go by the shape are at least those of small shapes, and at most those of the others.
pub fn limits_are_high()
    ensures { (m : Shape) → HasHighLimits m }
{}

/// Each wire is a tap or a line of its node, and none is both.
pub fn each_wire_has_a_home()
    ensures { (m : Shape) → HasHomes m }
{
    the_numbering_is_sound();
    the_crosspoints_are_sound();
    ports_and_lines_ascend();
}
