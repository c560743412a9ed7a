//! Fields in which nothing is left to be found.
ghost use Rattle.std.specs.Prelude.{◌≡◌, ℕ, true, length, IsTrue};
ghost use Rattle.base_bits.specs.Numbers.{has_number};
ghost use Rattle.machine_shape.specs.Shape.{wires_of, crosses_of};
ghost use Rattle.diag_evidence.specs.Kept.{keeps_cross};
ghost use Rattle.diag_known.specs.Vocabulary.{IsFieldOf, IsKnown};
ghost use Rattle.diag_known.specs.Known.{HasWire};

use diag_evidence::Facts;
use diag_known::{Field, Known};
use machine_shape::{Cross, Wire};

// Whether each wire of a field is known.
fn knows_each(known: &Known, field: &Field) -> bool
    requires wires { length field.now.wires ≡ wires_of known.now.shape }
    ensures { IsTrue result → (w : ℕ) → has_number field.now.wires w ≡ true → HasWire known.now.steps w }
{
    'wires: for w in 0..field.wires.len() {
        if !field.wires.has(w) {
            continue;
        }
        if !known.has(Wire(w)) {
            return false;
        }
    }
    true
}

// Whether each crosspoint of a field is kept.
fn keeps_each(facts: &Facts, field: &Field) -> bool
    requires crosses { length field.now.crosses ≡ crosses_of facts.now.shape }
    ensures { IsTrue result → (x : ℕ) → has_number field.now.crosses x ≡ true → keeps_cross facts.now x ≡ true }
{
    'crosses: for x in 0..field.crosses.len() {
        if !field.crosses.has(x) {
            continue;
        }
        if !facts.keeps_cross(Cross(x)) {
            return false;
        }
    }
    true
}

// Whether each wire of a field is known and each crosspoint of it kept, so that nothing in it can be found.
pub fn is_complete(facts: &Facts, known: &Known, field: &Field) -> bool
    requires known { IsKnown facts.now known.now }
    requires field { IsFieldOf facts.now.shape field.now }
    ensures wires { IsTrue result → (w : ℕ) → has_number field.now.wires w ≡ true → HasWire known.now.steps w }
    ensures crosses { IsTrue result → (x : ℕ) → has_number field.now.crosses x ≡ true → keeps_cross facts.now x ≡ true }
{
    knows_each(known, field) && keeps_each(facts, field)
}
