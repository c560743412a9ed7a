//! Which of some wires stand by kept crosspoints alone, without a list of the machine's links: what a wire crosses follows from its node.
ghost use Rattle.std.specs.Prelude.{◌≡◌, ◌≢◌, ◌<◌, ◌+◌, ℕ, false, Some, IfNone, IfOk, IfSome, IsTrue, OnOk, length};
ghost use Rattle.machine_shape.specs.Shape.{crosses_of, ends_of, node_of_cross, nodes_of, parent_of, wires_of};
ghost use Rattle.machine_meaning.specs.Standing.{StandsBy};
ghost use Rattle.diag_known.specs.Known.{IsKeptCrossOf, IsKnown, HasWire, AreApart, InSet};
ghost use Rattle.diag_known.specs.Grounds.{Founds, IsGround};
ghost use Rattle.diag_known.specs.Around.{AreLooked, AreLookedAcross, IsLookedAt, across_at, across_of, ends_by};

use crate::known::Known;
use crate::stands::{no_feet, take_link, take_pins};
use crate::verified_wire::Support;
use base_bits::BitSet;
use diag_evidence::Facts;
use machine_shape::{
    Cross, Node, Shape, Wire, each_wire_has_a_home, the_crosspoints_are_sound,
    the_numbering_is_sound,
};
use std::alloc::{AllocError, Global};

/// What a wire crosses at a node: the lines where it is a tap, the taps where it is a line.
#[derive(Clone, Copy)]
pub(crate) enum Across {
    Lines,
    Taps,
}

/// A wire that stands, and what is looked at of those that it crosses.
#[derive(Clone, Copy)]
pub(crate) struct Look {
    pub from: Wire,
    pub across: Across,
}

// How many lines or taps a node has.
pub(crate) fn width(shape: &Shape, across: Across, node: Node) -> u32
    requires { node.0 < nodes_of shape.now }
    ensures { result ≡ across_of shape.now across node.0 }
{
    match across {
        Across::Lines => shape.lines(node),
        Across::Taps => shape.taps(node),
    }
}

// A line or tap of a node.
pub(crate) fn wire_across(shape: &Shape, across: Across, node: Node, place: u32) -> Wire
    requires node { node.0 < nodes_of shape.now }
    requires place { place < across_of shape.now across node.0 }
    ensures wire { result.0 ≡ across_at shape.now across node.0 place }
    ensures within { result.0 < wires_of shape.now }
{
    match across {
        Across::Lines => shape.line(node, place),
        Across::Taps => shape.tap(node, place),
    }
}

// The crosspoint of a wire and one that it crosses.
fn cross_to(shape: &Shape, look: Look, to: Wire) -> Option<Cross>
    requires from { look.from.0 < wires_of shape.now }
    requires to { to.0 < wires_of shape.now }
    ensures found { IfSome result (λ c. (c.0 < crosses_of shape.now) × (ends_of shape.now c.0 ≡ ends_by look.across look.from.0 to.0)) }
    ensures none { IfNone result ((x : ℕ) → x < crosses_of shape.now → ends_of shape.now x ≢ ends_by look.across look.from.0 to.0) }
{
    match look.across {
        Across::Lines => shape.cross(look.from, to),
        Across::Taps => shape.cross(to, look.from),
    }
}

// A wire that is left stands, if a kept crosspoint leads from it to the one that stands and it has a foot to a further one.
fn take_to(
    known: &mut Known,
    left: &mut BitSet,
    feet: &mut Vec<Option<Support>>,
    facts: &Facts,
    look: Look,
    to: Wire,
) -> Result<(), AllocError>
    requires ground { IsGround facts.now known.old left.old feet.old.items }
    requires stands { HasWire known.old.steps look.from.0 }
    requires from { look.from.0 < wires_of facts.now.shape }
    requires to { to.0 < wires_of facts.now.shape }
    ensures ground { OnOk result (IsGround facts.now known.new left.new feet.new.items) }
    ensures founds { OnOk result (Founds known.old known.new left.old left.new feet.old.items feet.new.items) }
    ensures looked { OnOk result (IsLookedAt facts.now left.new feet.new.items look.from.0 to.0 (ends_by look.across look.from.0 to.0)) }
{
    the_crosspoints_are_sound();
    if !left.has(to.0) {
        return Ok(());
    }
    let Some(cross) = cross_to(&facts.shape(), look, to) else {
        return Ok(());
    };
    take_link(
        known,
        left,
        feet,
        facts,
        look.from,
        Support { cross, wire: to },
    )
}

// Looks at all lines or taps of a node.
fn take_across(
    known: &mut Known,
    left: &mut BitSet,
    feet: &mut Vec<Option<Support>>,
    facts: &Facts,
    look: Look,
    node: Node,
) -> Result<(), AllocError>
    requires ground { IsGround facts.now known.old left.old feet.old.items }
    requires stands { HasWire known.old.steps look.from.0 }
    requires from { look.from.0 < wires_of facts.now.shape }
    requires node { node.0 < nodes_of facts.now.shape }
    ensures ground { OnOk result (IsGround facts.now known.new left.new feet.new.items) }
    ensures founds { OnOk result (Founds known.old known.new left.old left.new feet.old.items feet.new.items) }
    ensures looked { OnOk result (AreLookedAcross facts.now left.new feet.new.items look.across look.from.0 node.0
        (across_of facts.now.shape look.across node.0)) }
{
    let shape = facts.shape();
    'places: for place in 0..width(&shape, look.across, node) {
        let to = wire_across(&shape, look.across, node, place);
        take_to(known, left, feet, facts, look, to)?;
    }
    Ok(())
}

// Looks at the lines of a tap's node and of the node above it.
fn take_rows(
    known: &mut Known,
    left: &mut BitSet,
    feet: &mut Vec<Option<Support>>,
    facts: &Facts,
    look: Look,
    node: Node,
) -> Result<(), AllocError>
    requires ground { IsGround facts.now known.old left.old feet.old.items }
    requires stands { HasWire known.old.steps look.from.0 }
    requires from { look.from.0 < wires_of facts.now.shape }
    requires node { node.0 < nodes_of facts.now.shape }
    ensures ground { OnOk result (IsGround facts.now known.new left.new feet.new.items) }
    ensures founds { OnOk result (Founds known.old known.new left.old left.new feet.old.items feet.new.items) }
    ensures above { OnOk result ((n : ℕ) → parent_of facts.now.shape node.0 ≡ Some n → AreLookedAcross facts.now left.new
        feet.new.items look.across look.from.0 n (across_of facts.now.shape look.across n)) }
    ensures here { OnOk result (AreLookedAcross facts.now left.new feet.new.items look.across look.from.0 node.0
        (across_of facts.now.shape look.across node.0)) }
{
    let Some(above) = facts.shape().parent(node) else {
        return take_across(known, left, feet, facts, look, node);
    };
    take_across(known, left, feet, facts, look, above)?;
    take_across(known, left, feet, facts, look, node)
}

// Whether a wire is a line of its node.
pub(crate) fn is_line(shape: &Shape, w: Wire, node: Node) -> bool
    requires node { node.0 < nodes_of shape.now }
    requires wire { w.0 < wires_of shape.now }
    ensures yes { IsTrue result → (x : ℕ) → x < crosses_of shape.now → (ends_of shape.now x).0 ≢ w.0 }
    ensures no { result ≡ false → (x : ℕ) → x < crosses_of shape.now → node_of_cross shape.now x ≡ node.0 →
        (ends_of shape.now x).1 ≢ w.0 }
{
    each_wire_has_a_home();
    the_crosspoints_are_sound();
    if shape.taps(node) == 0 {
        return false;
    }
    match shape.cross(shape.tap(node, 0), w) {
        Some(_) => true,
        None => false,
    }
}

// Looks at all that the wire crosses that stands at a place.
fn look_around(
    known: &mut Known,
    left: &mut BitSet,
    feet: &mut Vec<Option<Support>>,
    facts: &Facts,
    place: usize,
) -> Result<(), AllocError>
    requires ground { IsGround facts.now known.old left.old feet.old.items }
    requires place { place < length known.old.steps }
    requires looked { AreLooked facts.now known.old left.old feet.old.items place }
    ensures ground { OnOk result (IsGround facts.now known.new left.new feet.new.items) }
    ensures founds { OnOk result (Founds known.old known.new left.old left.new feet.old.items feet.new.items) }
    ensures looked { OnOk result (AreLooked facts.now known.new left.new feet.new.items (place + 1)) }
{
    the_numbering_is_sound();
    the_crosspoints_are_sound();
    let from = known.wire_at(place);
    let shape = facts.shape();
    let node = shape.node_of(from);
    if is_line(&shape, from, node) {
        let across = Across::Taps;
        return take_across(known, left, feet, facts, Look { from, across }, node);
    }
    let across = Across::Lines;
    take_rows(known, left, feet, facts, Look { from, across }, node)
}

// Looks at all that each wire crosses that stands.
fn look_around_all(
    known: &mut Known,
    left: &mut BitSet,
    feet: &mut Vec<Option<Support>>,
    facts: &Facts,
) -> Result<(), AllocError>
    requires ground { IsGround facts.now known.old left.old feet.old.items }
    ensures ground { OnOk result (IsGround facts.now known.new left.new feet.new.items) }
    ensures founds { OnOk result (Founds known.old known.new left.old left.new feet.old.items feet.new.items) }
    ensures looked { OnOk result (AreLooked facts.now known.new left.new feet.new.items (length known.new.steps)) }
{
    let mut place = 0;
    'places: while place < known.len() {
        look_around(known, left, feet, facts, place)?;
        place += 1;
    }
    Ok(())
}

/// Those of some wires that stand by kept crosspoints alone: the pins of the machine, and each with two such crosspoints to
/// different ones that stand. The wires are kept, and each two of them kept apart. Wants memory, some bytes for each wire, and makes no
/// load.
pub fn standing(alloc: Global, facts: &Facts, wires: BitSet) -> Result<Known, AllocError>
    requires apart { AreApart facts.now wires }
    ensures known { IfOk result (IsKnown facts.now) }
    ensures within { IfOk result (λ known. (w : ℕ) → HasWire known.steps w → InSet wires w) }
    ensures whole { IfOk result (λ known. (w : ℕ) → StandsBy facts.now.shape (InSet wires) (IsKeptCrossOf facts.now) w
        → HasWire known.steps w) }
{
    let shape = facts.shape();
    let mut left = wires;
    let mut known = Known::new(alloc, &shape)?;
    let mut feet = no_feet(alloc, shape.wires())?;
    take_pins(&mut known, &mut left, &feet, facts)?;
    look_around_all(&mut known, &mut left, &mut feet, facts)?;
    Ok(known)
}
