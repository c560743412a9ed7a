//! Wires that hang on pins that swing.
ghost use Rattle.std.specs.Prelude.{◌≡◌, ◌||◌, ℕ, All, length};
ghost use Rattle.base_bits.specs.Numbers.{has_number};
ghost use Rattle.machine_shape.specs.Shape.{pins_of, wires_of};
ghost use Rattle.diag_evidence.specs.Looks.{hangs_swinging};
ghost use Rattle.diag_evidence.specs.Hangs.{IsFoot, is_swinging_on};

use crate::feet::pin_at;
use crate::{Forest, Looks};
use base_bits::BitSet;
use machine_shape::{Cross, Wire};

// Marks the wires that hang on pins that swing.
pub(crate) fn mark_swinging(wires: &mut BitSet, forest: &Forest, reads: &Looks)
    requires wires { length wires.old ≡ wires_of forest.now.shape }
    requires reads { reads.now.pins ≡ pins_of forest.now.shape }
    ensures marked { (w : ℕ) → has_number wires.new w ≡ (hangs_swinging forest.now reads.now.rows w || has_number wires.old w) }
    ensures len { length wires.new ≡ length wires.old }
{
    'wires: for w in 0..forest.shape().wires() {
        let Some(pin) = forest.pin_of(Wire(w)) else {
            continue;
        };
        if reads.swings(pin) {
            wires.insert(w);
        }
    }
}

// Marks the wires of feet on pins that swing.
pub(crate) fn mark_swinging_feet(
    wires: &mut BitSet,
    forest: &Forest,
    feet: &[(Wire, Cross)],
    reads: &Looks,
)
    requires wires { length wires.old ≡ wires_of forest.now.shape }
    requires feet { All (IsFoot forest.now) feet.now }
    requires reads { reads.now.pins ≡ pins_of forest.now.shape }
    ensures marked { (w : ℕ) → has_number wires.new w ≡ (is_swinging_on forest.now feet.now reads.now.rows w || has_number wires.old w) }
    ensures len { length wires.new ≡ length wires.old }
{
    'feet: for k in 0..feet.len() {
        let foot = feet[k];
        if reads.swings(pin_at(forest, foot)) {
            wires.insert(foot.0.0);
        }
    }
}
