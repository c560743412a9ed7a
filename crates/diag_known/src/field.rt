//! What growth may look at.
ghost use Rattle.std.specs.Prelude.{◌≡◌, ◌<◌, ℕ, true, All, IfOk, length};
ghost use Rattle.base_bits.specs.Numbers.{has_number};
ghost use Rattle.machine_shape.specs.Shape.{wires_of, crosses_of};
ghost use Rattle.diag_known.specs.Field.{IsFieldOf};
ghost use Rattle.diag_known.specs.Gains.{Gets, IsWireBefore};

use base_bits::BitSet;
use machine_shape::{Shape, Wire};
use std::alloc::{AllocError, Global};

/// The wires that may become known, and the crosspoints that are looked at.
#[derive(Debug, Drop)]
pub struct Field {
    pub wires: BitSet,
    pub crosses: BitSet,
}

// The set of all numbers below a length.
fn all_below(alloc: Global, len: u32) -> Result<BitSet, AllocError>
    ensures len { IfOk result (λ set. length set ≡ len) }
    ensures all { IfOk result (λ set. (i : ℕ) → i < len → has_number set i ≡ true) }
{
    let mut set = BitSet::new(alloc, len)?;
    'numbers: for i in 0..len {
        set.insert(i);
    }
    Ok(set)
}

impl Field {
    /// All of a machine.
    pub fn whole(alloc: Global, shape: &Shape) -> Result<Field, AllocError>
        ensures field { IfOk result (IsFieldOf shape.now) }
        ensures wires { IfOk result (λ a. (w : ℕ) → w < wires_of shape.now → has_number a.wires w ≡ true) }
        ensures crosses { IfOk result (λ a. (x : ℕ) → x < crosses_of shape.now → has_number a.crosses x ≡ true) }
    {
        Ok(Field {
            wires: all_below(alloc, shape.wires())?,
            crosses: all_below(alloc, shape.crosses())?,
        })
    }
}

/// Marks these wires, as some of a field.
pub fn add_wires(marks: &mut BitSet, wires: &Vec<Wire>)
    requires { All (λ w. w.0 < length marks.old) wires.now.items }
    ensures { Gets (IsWireBefore wires.now.items (length wires.now.items)) (length wires.now.items) marks.old marks.new }
{
    'wires: for j in 0..wires.len() {
        marks.insert(wires[j].0);
    }
}
