//! Wires that are lost: unfit ones, and pins of tables that growth has lost.
//!
//! Of wires that are shorted to one another, growth knows the one that came first, mostly a line; a pin that is shorted to it is lost, and
//! with it a table, though it is kept and stands on known lines.
ghost use Rattle.std.specs.Prelude.{◌≡◌, ◌<◌, ℕ, true, false, IfOk, IfSome, IsTrue, length};
ghost use Rattle.base_bits.specs.Numbers.{has_number};
ghost use Rattle.machine_shape.specs.Shape.{nodes_of, wires_of};
ghost use Rattle.machine_meaning.specs.Sound.{HasTwo};
ghost use Rattle.diag_known.specs.Known.{HasWire};
ghost use Rattle.diag_machine.specs.Choice.{AreLeftOut, IsKnownFoot, IsLeftOut};

use base_bits::BitSet;
use diag_evidence::Facts;
use diag_growth::Known;
use diag_sweep::DefectMarks;
use machine_shape::{Meaning, Node, Shape, Wire};
use std::alloc::{AllocError, Global};

// The hextant of a pin of a table.
fn hextant_of_pin(shape: &Shape, wire: Wire) -> Option<Node>
    requires { wire.0 < wires_of shape.now }
    ensures { IfSome result (λ n. n.0 < nodes_of shape.now) }
{
    match shape.meaning(wire) {
        Meaning::TablePin { table, .. } => Some(shape.hextant_of(table)),
        _ => None,
    }
}

// Whether a pin is joined by a kept crosspoint to a line that is known.
fn is_foot(facts: &Facts, known: &Known, pin: Wire, line: Wire) -> bool
    requires shape { known.now.shape ≡ facts.now.shape }
    requires pin { pin.0 < wires_of facts.now.shape }
    requires line { line.0 < wires_of facts.now.shape }
    ensures { IsTrue result → IsKnownFoot facts.now known.now.steps pin.0 line.0 }
{
    if !known.has(line) {
        return false;
    }
    let Some(cross) = facts.shape().cross(pin, line) else {
        return false;
    };
    facts.keeps_cross(cross)
}

// Whether a pin is joined by kept crosspoints to two lines of its hextant that are known.
fn has_feet(facts: &Facts, known: &Known, pin: Wire, hextant: Node) -> bool
    requires shape { known.now.shape ≡ facts.now.shape }
    requires pin { pin.0 < wires_of facts.now.shape }
    requires hextant { hextant.0 < nodes_of facts.now.shape }
    ensures { IsTrue result → HasTwo (IsKnownFoot facts.now known.now.steps pin.0) }
{
    let shape = facts.shape();
    let mut first: Option<Wire> = None;
    'lines: for k in 0..shape.lines(hextant) {
        let line = shape.line(hextant, k);
        if !is_foot(facts, known, pin, line) {
            continue;
        }
        let Some(other) = first else {
            first = Some(line);
            continue;
        };
        if other.0 != line.0 {
            return true;
        }
    }
    false
}

// Whether a wire is a pin of a table that isn't known, though it is kept and stands on two known lines.
fn is_left_out(facts: &Facts, known: &Known, wire: Wire) -> bool
    requires shape { known.now.shape ≡ facts.now.shape }
    requires wire { wire.0 < wires_of facts.now.shape }
    ensures { IsTrue result → IsLeftOut facts.now known.now.steps wire.0 }
{
    if known.has(wire) {
        return false;
    }
    if !facts.keeps_wire(wire) {
        return false;
    }
    let Some(hextant) = hextant_of_pin(&facts.shape(), wire) else {
        return false;
    };
    has_feet(facts, known, wire, hextant)
}

/// The wires that are unfit and aren't known.
pub(crate) fn unfit_wires(
    alloc: Global,
    known: &Known,
    bad: &DefectMarks,
) -> Result<BitSet, AllocError>
    requires { length bad.now.unfit ≡ wires_of known.now.shape }
    ensures { IfOk result (λ set. (w : ℕ) → has_number set w ≡ true → (has_number bad.now.unfit w ≡ true) × (¬ HasWire known.now.steps w)) }
{
    let wires = known.shape().wires();
    let mut set = BitSet::new(alloc, wires)?;
    'wires: for w in 0..wires {
        if !bad.unfit.has(w) {
            continue;
        }
        if known.has(Wire(w)) {
            continue;
        }
        set.insert(w);
    }
    Ok(set)
}

/// The pins of tables that are left out. None where there are none.
pub(crate) fn lost_pins(
    alloc: Global,
    facts: &Facts,
    known: &Known,
) -> Result<Option<BitSet>, AllocError>
    requires shape { known.now.shape ≡ facts.now.shape }
    ensures { IfOk result (λ found. IfSome found (λ _. AreLeftOut facts.now known.now.steps)) }
{
    let wires = facts.shape().wires();
    let mut pins = BitSet::new(alloc, wires)?;
    let mut some = false;
    'wires: for w in 0..wires {
        if !is_left_out(facts, known, Wire(w)) {
            continue;
        }
        pins.insert(w);
        some = true;
    }
    if !some {
        return Ok(None);
    }
    Ok(Some(pins))
}
