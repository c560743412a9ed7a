//! What is left of a field once the crosspoints are taken out that growth needs no more.
ghost use Rattle.std.specs.Prelude.{◌≡◌, ◌⊎◌, ◌<◌, ℕ, true, IfOk, IsTrue, length};
ghost use Rattle.base_bits.specs.Numbers.{has_number};
ghost use Rattle.machine_shape.specs.Shape.{crosses_of};
ghost use Rattle.diag_known.specs.Vocabulary.{IsFieldOf, IsKnown};
ghost use Rattle.diag_growth.specs.Rest.{IsDone, IsRest};

use base_bits::BitSet;
use diag_evidence::Facts;
use diag_known::{Field, Known};
use machine_shape::{Cross, Shape};
use std::alloc::AllocError;

// Whether a crosspoint is kept, and both its ends are known.
fn is_done(facts: &Facts, known: &Known, shape: &Shape, c: Cross) -> bool
    requires known { IsKnown facts.now known.now }
    requires shape { shape.now ≡ facts.now.shape }
    requires cross { c.0 < crosses_of facts.now.shape }
    ensures { IsTrue result → IsDone facts.now known.now.steps c.0 }
{
    if !facts.keeps_cross(c) {
        return false;
    }
    let (tap, line) = shape.ends(c);
    if !known.has(tap) {
        return false;
    }
    known.has(line)
}

// The crosspoints of a field that growth may need.
fn left_crosses(facts: &Facts, known: &Known, field: &Field) -> Result<BitSet, AllocError>
    requires known { IsKnown facts.now known.now }
    requires crosses { length field.now.crosses ≡ crosses_of facts.now.shape }
    ensures len { IfOk result (λ set. length set ≡ length field.now.crosses) }
    ensures only { IfOk result (λ set. (x : ℕ) → has_number set x ≡ true → has_number field.now.crosses x ≡ true) }
    ensures whole { IfOk result (λ set. (x : ℕ) → has_number field.now.crosses x ≡ true → (has_number set x ≡ true)
        ⊎ IsDone facts.now known.now.steps x) }
{
    let shape = facts.shape();
    let mut set = BitSet::new(known.alloc(), field.crosses.len())?;
    'crosses: for x in 0..field.crosses.len() {
        if !field.crosses.has(x) {
            continue;
        }
        if is_done(facts, known, &shape, Cross(x)) {
            continue;
        }
        set.insert(x);
    }
    Ok(set)
}

// The wires of a field.
fn same_wires(known: &Known, field: &Field) -> Result<BitSet, AllocError>
    ensures { IfOk result (λ set. set ≡ field.now.wires) }
{
    let mut set = BitSet::new(known.alloc(), field.wires.len())?;
    'wires: for w in 0..field.wires.len() {
        if !field.wires.has(w) {
            continue;
        }
        set.insert(w);
    }
    Ok(set)
}

// A field without the crosspoints that are kept and have known ends.
pub fn rest_of(facts: &Facts, known: &Known, field: &Field) -> Result<Field, AllocError>
    requires known { IsKnown facts.now known.now }
    requires field { IsFieldOf facts.now.shape field.now }
    ensures { IfOk result (IsRest facts.now known.now.steps field.now) }
{
    let wires = same_wires(known, field)?;
    let crosses = left_crosses(facts, known, field)?;
    Ok(Field { wires, crosses })
}
