//! When there is room for certain.
//!
//! Where as many tables and pins are free as a network has, and at each node as many lines are open and ports free as it has
//! nets, nothing is short for its in-order plan; a fair list leaves sound parts of served nodes so, and a tight list standing
//! parts, whether nodes are served or not.
ghost use Rattle.machine_meaning.specs.Vocabulary.{Defects, IsFair, Faults, IsTight};
ghost use Rattle.machine_shape.specs.declared.Shape.{Shape};
ghost use Rattle.map_network.specs.Networks.{IsNetwork};
ghost use Rattle.map_network.specs.declared.network.Network.{Network};
ghost use Rattle.place_plan.specs.Plans.{IsShortInOrder};
ghost use Rattle.place_plan.specs.declared.short.Short.{Short};
ghost use Rattle.place_plan.specs.Enough.{HasEnough, HasSoundParts, HasStandingRoom};

/// Where as many tables and pins are free as a network has, and at each node as many lines are open and ports free as it has
/// nets, nothing is short for its in-order plan: a net visits a node and crosses it once at most, and an open line serves each.
/// A root with lines and ports for so many nets leaves no machine as many tables as may not all be on.
pub fn enough_free_parts_are_room()
    ensures { (m : Shape) (d : Defects) (n : Network) (s : Short) → IsNetwork n → HasEnough m d n → ¬ IsShortInOrder m d n s }
{
    machine_shape::the_numbering_is_sound();
    machine_shape::the_crosspoints_are_sound();
    machine_shape::ports_and_lines_ascend();
}

/// Where each node is served, a fair list leaves sound parts free. So where they are as many as a network has, there is room for
/// its in-order plan.
pub fn sound_parts_are_room()
    ensures enough { (m : Shape) (d : Defects) (f : Faults) (n : Network) → IsFair m d f → HasSoundParts m f n → HasEnough m d n }
    ensures room { (m : Shape) (d : Defects) (f : Faults) (n : Network) (s : Short) → IsNetwork n → IsFair m d f →
        HasSoundParts m f n → ¬ IsShortInOrder m d n s }
{
    machine_shape::the_numbering_is_sound();
    machine_meaning::fair_lists_leave_sound_parts();
    enough_free_parts_are_room();
}

/// A tight list leaves standing parts free. So where they are as many as a network has, there is room for its in-order plan; and
/// where each node is served, sound parts stand.
pub fn standing_parts_are_room()
    ensures enough { (m : Shape) (d : Defects) (f : Faults) (n : Network) → IsTight m d f → HasStandingRoom m f n → HasEnough m d n }
    ensures room { (m : Shape) (d : Defects) (f : Faults) (n : Network) (s : Short) → IsNetwork n → IsTight m d f →
        HasStandingRoom m f n → ¬ IsShortInOrder m d n s }
    ensures served { (m : Shape) (f : Faults) (n : Network) → HasSoundParts m f n → HasStandingRoom m f n }
{
    machine_shape::the_numbering_is_sound();
    machine_meaning::tight_lists_are_fair();
    machine_meaning::parts_of_served_nodes_stand();
    enough_free_parts_are_room();
}
