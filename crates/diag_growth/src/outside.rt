//! The known wires outside a hextant.
ghost use Rattle.std.specs.Prelude.{◌≡◌, ◌<◌, ℕ, false, IfOk, IsTrue, length};
ghost use Rattle.machine_shape.specs.Shape.{wires_of};
ghost use Rattle.machine_meaning.specs.Standing.{IsOutside};
ghost use Rattle.diag_known.specs.Known.{HasWire, InSet};
ghost use Rattle.diag_growth.specs.Seating.{PutsOutside};

use base_bits::BitSet;
use diag_known::Known;
use machine_shape::{Meaning, Node, Shape, Wire, the_numbering_is_sound};
use std::alloc::AllocError;

// Whether a wire is neither a line of a hextant nor a pin of one of its tables.
fn is_outside(shape: &Shape, hextant: Node, w: Wire) -> bool
    requires { w.0 < wires_of shape.now }
    ensures outside { IsTrue result → IsOutside shape.now hextant.0 w.0 }
    ensures inside { result ≡ false → ¬ IsOutside shape.now hextant.0 w.0 }
{
    the_numbering_is_sound();
    match shape.meaning(w) {
        Meaning::Pin { .. } => true,
        Meaning::Line { node, .. } => node.0 != hextant.0,
        Meaning::Port { .. } => true,
        Meaning::TablePin { table, .. } => shape.hextant_of(table).0 != hextant.0,
    }
}

// Puts the known wire at a place, if it is outside the hextant.
fn put_outside(set: &mut BitSet, known: &Known, hextant: Node, place: usize)
    requires len { length set.old ≡ wires_of known.now.shape }
    requires place { place < length known.now.steps }
    ensures puts { PutsOutside known.now hextant.0 place set.old set.new }
{
    let w = known.wire_at(place);
    if !is_outside(&known.shape(), hextant, w) {
        return;
    }
    set.insert(w.0);
}

/// The known wires that are neither lines of a hextant nor pins of its tables.
pub(crate) fn outside_of(known: &Known, hextant: Node) -> Result<BitSet, AllocError>
    ensures len { IfOk result (λ set. length set ≡ wires_of known.now.shape) }
    ensures known { IfOk result (λ set. (w : ℕ) → InSet set w → HasWire known.now.steps w) }
    ensures outside { IfOk result (λ set. (w : ℕ) → InSet set w → IsOutside known.now.shape hextant.0 w) }
    ensures whole { IfOk result (λ set. (w : ℕ) → HasWire known.now.steps w → IsOutside known.now.shape hextant.0 w → InSet set w) }
{
    let mut set = BitSet::new(known.alloc(), known.shape().wires())?;
    'places: for place in 0..known.len() {
        put_outside(&mut set, known, hextant, place);
    }
    Ok(set)
}
