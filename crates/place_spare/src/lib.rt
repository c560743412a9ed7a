//! How many faults a machine bears for certain.
//!
//! A fault of a machine, whatever it is, spoils at most two wires: a stuck wire one, a stuck crosspoint its tap and its line, a
//! bridge its two ends. So at most two pins, two lines of a crossbar, two ports of a node and two tables are lost by it, and a
//! machine that has twice as many to spare as it has faults serves every node and has sound parts enough.
#![tactic(auto)]

ghost use Rattle.std.specs.Prelude.{ℕ, ◌≤◌};
ghost use Rattle.machine_shape.specs.declared.Shape.{Shape};
ghost use Rattle.machine_meaning.specs.Vocabulary.{Faults, Defects, IsTight};
ghost use Rattle.machine_faults.specs.Adding.{count_of};
ghost use Rattle.map_network.specs.declared.network.Network.{Network};
ghost use Rattle.map_network.specs.Networks.{IsNetwork};
ghost use Rattle.place_plan.specs.declared.short.Short.{Short};
ghost use Rattle.place_plan.specs.Plans.{IsShortInOrder};
ghost use Rattle.place_plan.specs.Enough.{HasSoundParts, HasStandingRoom};
ghost use Rattle.place_spare.specs.Spare.{HasToSpare};

/// Where a machine has, beyond what a network wants, 2 k of each resource to spare, every set of at most k faults leaves each node
/// served, and as many sound parts as the network has tables, inputs and outputs, and nets. So nothing is short for its in-order
/// plan on any list that is tight to the set.
pub fn spare_parts_bear_faults()
    ensures sound { (m : Shape) (f : Faults) (n : Network) (k : ℕ) → count_of f ≤ k → HasToSpare m n k → HasSoundParts m f n }
    ensures standing { (m : Shape) (f : Faults) (n : Network) (k : ℕ) → count_of f ≤ k → HasToSpare m n k → HasStandingRoom m f n }
    ensures room { (m : Shape) (d : Defects) (f : Faults) (n : Network) (k : ℕ) (s : Short) → IsNetwork n → IsTight m d f →
        count_of f ≤ k → HasToSpare m n k → ¬ IsShortInOrder m d n s }
{
    machine_shape::the_numbering_is_sound();
    machine_shape::ports_and_lines_ascend();
    place_plan::standing_parts_are_room();
}
