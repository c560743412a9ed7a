//! The surroundings of an image.
ghost use Rattle.std.specs.Prelude.{◌≡◌, ◌<◌, ◌&&◌, IfOk, length};
ghost use Rattle.base_bits.specs.Numbers.{has_number};
ghost use Rattle.machine_shape.specs.Shape.{wires_of, crosses_of, nodes_of, ends_of, node_of_cross};
ghost use Rattle.diag_known.specs.Vocabulary.{IsFieldOf};
ghost use Rattle.diag_check.specs.Fields.{OfMarked};
ghost use Rattle.diag_check.specs.Marks.{Adds, IsNearBefore};
ghost use Rattle.diag_check.specs.Near.{AreSurroundings, IsOfNode, IsOnSide};
ghost use Rattle.diag_check.specs.Used.{AreInvolved};

use crate::picks::{Side, width, wire_at};
use crate::used::used_wires;
use base_bits::BitSet;
use diag_growth::Field;
use machine_image::Image;
use machine_shape::{
    Cross, Node, Shape, ports_and_lines_ascend, the_crosspoints_are_sound, the_numbering_is_sound,
};
use std::alloc::{AllocError, Global};

// Marks the wires of a side of a node.
fn mark_side(wires: &mut BitSet, shape: &Shape, side: Side, node: Node)
    requires wires { length wires.old ≡ wires_of shape.now }
    requires node { node.0 < nodes_of shape.now }
    ensures { Adds (IsOnSide shape.now side node.0) wires.old wires.new }
{
    'positions: for k in 0..width(shape, side, node) {
        wires.insert(wire_at(shape, side, node, k).0);
    }
}

// Marks the own ports and the lines of a node.
fn mark_node(wires: &mut BitSet, shape: &Shape, node: Node)
    requires wires { length wires.old ≡ wires_of shape.now }
    requires node { node.0 < nodes_of shape.now }
    ensures { Adds (IsOfNode shape.now node.0) wires.old wires.new }
{
    mark_side(wires, shape, Side::Own, node);
    mark_side(wires, shape, Side::Lines, node);
}

// Marks those of marked nodes.
fn mark_sides(wires: &mut BitSet, shape: &Shape, nodes: &BitSet)
    requires wires { length wires.old ≡ wires_of shape.now }
    requires nodes { length nodes.now ≡ nodes_of shape.now }
    ensures { Adds (OfMarked nodes.now (IsOfNode shape.now) (nodes_of shape.now)) wires.old wires.new }
{
    'nodes: for n in 0..shape.nodes() {
        if !nodes.has(n) {
            continue;
        }
        mark_node(wires, shape, Node(n));
    }
}

// Whether a crosspoint is one of a marked node between two marked wires.
fn is_near(shape: &Shape, nodes: &BitSet, wires: &BitSet, cross: Cross) -> bool
    requires nodes { length nodes.now ≡ nodes_of shape.now }
    requires wires { length wires.now ≡ wires_of shape.now }
    requires cross { cross.0 < crosses_of shape.now }
    ensures { result ≡ (has_number nodes.now (node_of_cross shape.now cross.0)
        && (has_number wires.now (ends_of shape.now cross.0).0 && has_number wires.now (ends_of shape.now cross.0).1)) }
{
    let node = shape.node_of_cross(cross);
    let (tap, line) = shape.ends(cross);
    let is_node = nodes.has(node.0);
    let is_tap = wires.has(tap.0);
    let is_line = wires.has(line.0);
    is_node && (is_tap && is_line)
}

// Marks those crosspoints.
fn mark_between(crosses: &mut BitSet, shape: &Shape, nodes: &BitSet, wires: &BitSet)
    requires crosses { length crosses.old ≡ crosses_of shape.now }
    requires nodes { length nodes.now ≡ nodes_of shape.now }
    requires wires { length wires.now ≡ wires_of shape.now }
    ensures { Adds (IsNearBefore shape.now nodes.now wires.now (crosses_of shape.now)) crosses.old crosses.new }
{
    'places: for x in 0..shape.crosses() {
        if !is_near(shape, nodes, wires, Cross(x)) {
            continue;
        }
        crosses.insert(x);
    }
}

/// The field of all that surrounds an image: its used wires and the lines and own ports of each involved node, of the root the pins of
/// the machine, and the crosspoints of these nodes between two of these wires.
pub(crate) fn surroundings_of(
    alloc: Global,
    image: &Image,
    nodes: &BitSet,
) -> Result<Field, AllocError>
    requires { AreInvolved image.now nodes.now }
    ensures field { IfOk result (IsFieldOf image.now.config.shape) }
    ensures whole { IfOk result (AreSurroundings image.now) }
{
    the_numbering_is_sound();
    the_crosspoints_are_sound();
    ports_and_lines_ascend();
    let shape = image.config().shape();
    let mut wires = used_wires(alloc, image)?;
    let mut crosses = BitSet::new(alloc, shape.crosses())?;
    mark_sides(&mut wires, &shape, nodes);
    mark_between(&mut crosses, &shape, nodes, &wires);
    Ok(Field { wires, crosses })
}
