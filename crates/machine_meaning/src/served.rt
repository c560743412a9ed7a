//! What is so in served nodes, and what a fair list leaves free of them.
ghost use Rattle.std.specs.Prelude.{◌≡◌, ℕ, ◌<◌};
ghost use Rattle.machine_meaning.specs.Defects.{Defects, IsFair, IsFreeWire, IsFreeTable, IsOfUse, IsOpenLine};
ghost use Rattle.machine_meaning.specs.Faults.{Faults, IsFaultless};
ghost use Rattle.machine_meaning.specs.Served.{HasServed, IsEmptyOf};
ghost use Rattle.machine_shape.specs.Counts.{IsAmple};
ghost use Rattle.machine_shape.specs.Shape.{IsLine, IsPort, crosses_of, ends_of, hextant_of, nodes_of, pin_wire, pins_of, tables_of};
ghost use Rattle.machine_meaning.specs.Sound.{HasTwo, IsServed, IsSoundCross, IsSoundTable, IsSoundWire, IsWholeLine};
ghost use Rattle.machine_shape.specs.declared.Shape.{Shape};

use machine_shape::{
    each_wire_has_a_home, ports_and_lines_ascend, the_crosspoints_are_sound, the_numbering_is_sound,
};

/// The node above a served node is served, and a whole line of a served node has two sound crosspoints. Without faults, an
/// ample machine serves each node, and where each node is served, a fair list is empty.
pub fn served_nodes_have_sound_parts()
    ensures { (m : Shape) → HasServed m }
{
    the_numbering_is_sound();
    the_crosspoints_are_sound();
    ports_and_lines_ascend();
}

/// In a served node a whole line has two sound crosspoints at least.
pub fn whole_lines_have_two_sound_crosspoints()
    ensures { (m : Shape) (f : Faults) (n l : ℕ) → IsServed m f n → IsLine m n l → IsWholeLine m f l →
        HasTwo (λ x. (x < crosses_of m) × ((ends_of m x).1 ≡ l) × IsSoundCross m f x) }
{
    the_numbering_is_sound();
    served_nodes_have_sound_parts();
}

/// Of a served node a fair list leaves whole lines open, and sound ports, sound pins of the machine and sound tables free. A sound
/// line is free where two of its crosspoints are sound.
pub fn fair_lists_leave_sound_parts()
    ensures whole { (m : Shape) (d : Defects) (f : Faults) → IsFair m d f → (n l : ℕ) → IsServed m f n →
        IsLine m n l → IsWholeLine m f l → IsOpenLine m d l }
    ensures lines { (m : Shape) (d : Defects) (f : Faults) → IsFair m d f → (n l : ℕ) → IsServed m f n →
        IsLine m n l → IsSoundWire m f l → IsOfUse m f l → IsFreeWire d l }
    ensures ports { (m : Shape) (d : Defects) (f : Faults) → IsFair m d f → (n w : ℕ) → IsServed m f n →
        IsPort m n w → IsSoundWire m f w → IsFreeWire d w }
    ensures pins { (m : Shape) (d : Defects) (f : Faults) → IsFair m d f → (k : ℕ) → k < pins_of m → IsServed m f 0 →
        IsSoundWire m f (pin_wire m k) → IsFreeWire d (pin_wire m k) }
    ensures tables { (m : Shape) (d : Defects) (f : Faults) → IsFair m d f → (t : ℕ) → t < tables_of m →
        IsServed m f (hextant_of m t) → IsSoundTable m f t → IsFreeTable m d t }
{
    the_numbering_is_sound();
    the_crosspoints_are_sound();
    each_wire_has_a_home();
    served_nodes_have_sound_parts();
}

/// A machine without faults that has two pins, and two ports and two lines at each level, serves every node, and a fair list of
/// it is empty. An empty list is fair to any faults.
pub fn fair_lists_of_faultless_machines_are_empty()
    ensures served { (m : Shape) (f : Faults) → IsFaultless f → IsAmple m.counts → (n : ℕ) → n < nodes_of m → IsServed m f n }
    ensures empty { (m : Shape) (d : Defects) (f : Faults) → IsFaultless f → IsAmple m.counts → IsFair m d f → IsEmptyOf m d }
    ensures fair { (m : Shape) (d : Defects) (f : Faults) → IsEmptyOf m d → IsFair m d f }
{
    the_numbering_is_sound();
    the_crosspoints_are_sound();
    each_wire_has_a_home();
    served_nodes_have_sound_parts();
}
