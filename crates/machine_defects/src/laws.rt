//! What later crates rest on, of lists of defects.
ghost use Rattle.std.specs.Prelude.{◌≡◌, ◌↔◌, ℕ, true};
ghost use Rattle.machine_shape.specs.declared.Shape.{Shape};
ghost use Rattle.machine_meaning.specs.Defects.{Defects, IsFreeWire, IsFreeCross, IsFreeTable, IsOpenLine};
ghost use Rattle.machine_defects.specs.Lists.{is_free_wire, is_free_cross, is_free_table, is_open_line};

/// The tests by which the numbers of free things are counted tell what is free, and which lines are open.
pub fn the_tests_are_right()
    ensures wires { (d : Defects) (w : ℕ) → (is_free_wire d w ≡ true) ↔ IsFreeWire d w }
    ensures crosses { (m : Shape) (d : Defects) (x : ℕ) → (is_free_cross m d x ≡ true) ↔ IsFreeCross m d x }
    ensures tables { (m : Shape) (d : Defects) (t : ℕ) → (is_free_table m d t ≡ true) ↔ IsFreeTable m d t }
    ensures lines { (m : Shape) (d : Defects) (line : ℕ) → (is_open_line m d line ≡ true) ↔ IsOpenLine m d line }
{}
