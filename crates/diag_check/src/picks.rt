//! Some ports and lines of each involved node, those that the image uses before others.
ghost use Rattle.std.specs.Prelude.{◌≡◌, ◌<◌, ℕ, if◌then◌else◌, IfOk, IfSome, IfNone, IsTrue, false, length};
ghost use Rattle.base_bits.specs.Numbers.{has_number};
ghost use Rattle.machine_shape.specs.Shape.{wires_of, nodes_of};
ghost use Rattle.diag_check.specs.Picked.{ArePicked, ArePickedUpTo, IsAmong, IsOfSide, IsPickedAt, side_wire, width_of};

use crate::marks::Parts;
use base_bits::BitSet;
use machine_shape::{Node, Pin, Shape, Wire, ports_and_lines_ascend, the_numbering_is_sound};
use std::alloc::{AllocError, Global};

/// A side of a node's crossbar: its own ports, for which the root has the pins of the machine, or its lines.
#[derive(Clone, Copy, Debug)]
pub(crate) enum Side {
    Own,
    Lines,
}

/// Picked wires of a node.
#[derive(Drop)]
pub(crate) struct Picks {
    pub own: Vec<Wire>,
    pub lines: Vec<Wire>,
}

/// The picks of each node, at its number, and how many there are at most of a side.
#[derive(Drop)]
pub(crate) struct Frame {
    pub picks: Vec<Picks>,
    pub most: usize,
}

/// How many wires a side has.
pub(crate) fn width(shape: &Shape, side: Side, node: Node) -> u32
    requires { node.0 < nodes_of shape.now }
    ensures { result ≡ width_of shape.now side node.0 }
{
    match side {
        Side::Lines => shape.lines(node),
        Side::Own => {
            if node.0 == 0 {
                shape.pins()
            } else {
                shape.ports(node)
            }
        }
    }
}

/// The wire of a side at a position.
pub(crate) fn wire_at(shape: &Shape, side: Side, node: Node, k: u32) -> Wire
    requires node { node.0 < nodes_of shape.now }
    requires position { k < width_of shape.now side node.0 }
    ensures wire { result.0 ≡ side_wire shape.now side node.0 k }
    ensures within { result.0 < wires_of shape.now }
{
    match side {
        Side::Lines => shape.line(node, k),
        Side::Own => {
            if node.0 == 0 {
                shape.pin(Pin(k))
            } else {
                shape.port(node, k)
            }
        }
    }
}

// Whether a wire is among these.
fn is_among(wires: &Vec<Wire>, wire: Wire) -> bool
    ensures yes { IsTrue result → IsAmong wires.now.items wire.0 }
    ensures no { result ≡ false → ¬ IsAmong wires.now.items wire.0 }
{
    'wires: for j in 0..wires.len() {
        if wires[j].0 == wire.0 {
            return true;
        }
    }
    false
}

// A wire of the side that isn't picked yet: the first used one, or else the first.
fn next_pick(
    shape: &Shape,
    side: Side,
    node: Node,
    used: &BitSet,
    picked: &Vec<Wire>,
) -> Option<Wire>
    requires node { node.0 < nodes_of shape.now }
    requires used { length used.now ≡ wires_of shape.now }
    ensures some { IfSome result (λ w. IsOfSide shape.now side node.0 w.0 × (¬ IsAmong picked.now.items w.0)) }
    ensures none { IfNone result ((k : ℕ) → k < width_of shape.now side node.0 →
        IsAmong picked.now.items (side_wire shape.now side node.0 k)) }
{
    let mut other = None;
    'positions: for k in 0..width(shape, side, node) {
        let wire = wire_at(shape, side, node, k);
        if is_among(picked, wire) {
            continue;
        }
        if used.has(wire.0) {
            return Some(wire);
        }
        if other.is_some() {
            continue;
        }
        other = Some(wire);
    }
    other
}

// Different wires of a side, at most so many.
fn pick(
    alloc: Global,
    shape: &Shape,
    side: Side,
    node: Node,
    used: &BitSet,
    most: usize,
) -> Result<Vec<Wire>, AllocError>
    requires node { node.0 < nodes_of shape.now }
    requires used { length used.now ≡ wires_of shape.now }
    ensures { IfOk result (λ ws. ArePicked shape.now side node.0 most ws.items) }
{
    the_numbering_is_sound();
    ports_and_lines_ascend();
    let mut picked = Vec::new(alloc);
    'picks: for i in 0..most {
        let _ = i;
        match next_pick(shape, side, node, used, &picked) {
            Some(wire) => picked.push(wire)?,
            None => return Ok(picked),
        }
    }
    Ok(picked)
}

// The picks of a node.
fn picks_of(
    alloc: Global,
    shape: &Shape,
    node: Node,
    used: &BitSet,
    most: usize,
) -> Result<Picks, AllocError>
    requires node { node.0 < nodes_of shape.now }
    requires used { length used.now ≡ wires_of shape.now }
    ensures { IfOk result (IsPickedAt shape.now node.0 most) }
{
    let own = pick(alloc, shape, Side::Own, node, used, most)?;
    let lines = pick(alloc, shape, Side::Lines, node, used, most)?;
    Ok(Picks { own, lines })
}

// How many wires of a node are picked at most: none where it isn't involved.
fn room_for(nodes: &BitSet, node: u32, most: usize) -> usize
    requires { node < length nodes.now }
    ensures { result ≡ (if has_number nodes.now node then most else 0) }
{
    if nodes.has(node) { most } else { 0 }
}

/// The picks of each node, at its number: none where it isn't involved.
pub(crate) fn frame_of(
    alloc: Global,
    shape: &Shape,
    parts: &Parts,
    most: usize,
) -> Result<Frame, AllocError>
    requires used { length parts.now.used ≡ wires_of shape.now }
    requires nodes { length parts.now.nodes ≡ nodes_of shape.now }
    ensures picks { IfOk result (λ frame. ArePickedUpTo shape.now parts.now.nodes most (nodes_of shape.now) frame.picks.items) }
    ensures most { IfOk result (λ frame. frame.most ≡ most) }
{
    let mut picks = Vec::new(alloc);
    'nodes: for n in 0..shape.nodes() {
        let room = room_for(&parts.nodes, n, most);
        picks.push(picks_of(alloc, shape, Node(n), &parts.used, room)?)?;
    }
    Ok(Frame { picks, most })
}
