//! The field of an image: where its parts can be tested.
ghost use Rattle.std.specs.Prelude.{◌≡◌, ◌<◌, ◌≤◌, ◌+◌, ◌*◌, All, IfOk, length};
ghost use Rattle.base_bits.specs.Numbers.{size_of};
ghost use Rattle.machine_shape.specs.Shape.{wires_of, crosses_of, nodes_of};
ghost use Rattle.machine_image.specs.Parts.{IsWideEnough};
ghost use Rattle.diag_known.specs.Vocabulary.{IsFieldOf, Gets};
ghost use Rattle.diag_check.specs.Fields.{ArePicksOf, IsBetween, IsCrossBefore, IsCrossOf, IsFewFor, IsHungAt, IsHungOn, IsJointOf};
ghost use Rattle.diag_check.specs.Fields.{IsOfEither, IsOnLines, IsOnTaps, IsPickOf, OfMarked};
ghost use Rattle.diag_check.specs.Skeleton.{HasSkeleton};
ghost use Rattle.diag_check.specs.Used.{AreInvolved, AreUsed};

use crate::marks::Parts;
use crate::picks::{Frame, Picks, frame_of};
use base_bits::BitSet;
use diag_growth::{Field, add_wires};
use machine_image::Image;
use machine_shape::{
    Cross, Node, Shape, Wire, ports_and_lines_ascend, the_crosspoints_are_sound,
    the_numbering_is_sound,
};
use std::alloc::{AllocError, Global};

// Marks the crosspoint of a tap and a line, if they have one.
fn meet(crosses: &mut BitSet, shape: &Shape, tap: Wire, line: Wire)
    requires tap { tap.0 < wires_of shape.now }
    requires line { line.0 < wires_of shape.now }
    requires crosses { length crosses.old ≡ crosses_of shape.now }
    ensures { Gets (IsCrossOf shape.now tap.0 line.0) 1 crosses.old crosses.new }
{
    the_crosspoints_are_sound();
    let Some(cross) = shape.cross(tap, line) else {
        return;
    };
    crosses.insert(cross.0);
}

// Marks the crosspoints of a tap with these lines.
fn meet_lines(crosses: &mut BitSet, shape: &Shape, tap: Wire, lines: &Vec<Wire>)
    requires tap { tap.0 < wires_of shape.now }
    requires lines { All (λ w. w.0 < wires_of shape.now) lines.now.items }
    requires crosses { length crosses.old ≡ crosses_of shape.now }
    ensures { Gets (IsOnLines shape.now tap.0 lines.now.items (length lines.now.items)) (length lines.now.items) crosses.old crosses.new }
{
    'lines: for j in 0..lines.len() {
        meet(crosses, shape, tap, lines[j]);
    }
}

// Marks the crosspoints of these taps with a line.
fn meet_taps(crosses: &mut BitSet, shape: &Shape, taps: &Vec<Wire>, line: Wire)
    requires taps { All (λ w. w.0 < wires_of shape.now) taps.now.items }
    requires line { line.0 < wires_of shape.now }
    requires crosses { length crosses.old ≡ crosses_of shape.now }
    ensures { Gets (IsOnTaps shape.now taps.now.items line.0 (length taps.now.items)) (length taps.now.items) crosses.old crosses.new }
{
    'taps: for j in 0..taps.len() {
        meet(crosses, shape, taps[j], line);
    }
}

// Marks the crosspoints of these taps with these lines.
fn meet_all(crosses: &mut BitSet, shape: &Shape, taps: &Vec<Wire>, lines: &Vec<Wire>)
    requires taps { All (λ w. w.0 < wires_of shape.now) taps.now.items }
    requires lines { All (λ w. w.0 < wires_of shape.now) lines.now.items }
    requires crosses { length crosses.old ≡ crosses_of shape.now }
    ensures { Gets (IsBetween shape.now taps.now.items lines.now.items (length taps.now.items))
        (length taps.now.items * length lines.now.items) crosses.old crosses.new }
{
    'taps: for j in 0..taps.len() {
        meet_lines(crosses, shape, taps[j], lines);
    }
}

// Marks what was picked of a node, and joins its ports to its lines.
fn join_own(field: &mut Field, shape: &Shape, here: &Picks)
    requires field { IsFieldOf shape.now field.old }
    requires own { All (λ w. w.0 < wires_of shape.now) here.now.own.items }
    requires lines { All (λ w. w.0 < wires_of shape.now) here.now.lines.items }
    ensures wires { Gets (IsOfEither here.now) (length here.now.own.items + length here.now.lines.items) field.old.wires field.new.wires }
    ensures crosses { Gets (IsBetween shape.now here.now.own.items here.now.lines.items (length here.now.own.items))
        (length here.now.own.items * length here.now.lines.items) field.old.crosses field.new.crosses }
{
    add_wires(&mut field.wires, &here.own);
    add_wires(&mut field.wires, &here.lines);
    meet_all(&mut field.crosses, shape, &here.own, &here.lines);
}

// Joins a node's ports to its lines, and to those of the node above it.
fn join_node(field: &mut Field, shape: &Shape, frame: &Frame, node: Node)
    requires field { IsFieldOf shape.now field.old }
    requires frame { ArePicksOf shape.now frame.now }
    requires node { node.0 < nodes_of shape.now }
    ensures wires { Gets (IsPickOf frame.now.picks.items node.0) (2 * frame.now.most) field.old.wires field.new.wires }
    ensures crosses { Gets (IsJointOf shape.now frame.now.picks.items node.0)
        (2 * frame.now.most * frame.now.most) field.old.crosses field.new.crosses }
{
    let here = &frame.picks[node.0 as usize];
    join_own(field, shape, here);
    let Some(parent) = shape.parent(node) else {
        return;
    };
    let above = &frame.picks[parent.0 as usize];
    meet_all(&mut field.crosses, shape, &here.own, &above.lines);
}

// Joins the involved nodes.
fn join_nodes(field: &mut Field, shape: &Shape, frame: &Frame, nodes: &BitSet)
    requires field { IsFieldOf shape.now field.old }
    requires frame { ArePicksOf shape.now frame.now }
    requires nodes { length nodes.now ≡ nodes_of shape.now }
    ensures wires { Gets (OfMarked nodes.now (IsPickOf frame.now.picks.items) (nodes_of shape.now))
        (2 * frame.now.most * size_of nodes.now) field.old.wires field.new.wires }
    ensures crosses { Gets (OfMarked nodes.now (IsJointOf shape.now frame.now.picks.items) (nodes_of shape.now))
        (2 * frame.now.most * frame.now.most * size_of nodes.now) field.old.crosses field.new.crosses }
{
    'nodes: for n in 0..shape.nodes() {
        if !nodes.has(n) {
            continue;
        }
        join_node(field, shape, frame, Node(n));
    }
}

// Hangs a wire on picked ports or lines of its node.
fn hang(field: &mut Field, shape: &Shape, here: &Picks, wire: Wire)
    requires field { IsFieldOf shape.now field.old }
    requires own { All (λ w. w.0 < wires_of shape.now) here.now.own.items }
    requires lines { All (λ w. w.0 < wires_of shape.now) here.now.lines.items }
    requires wire { wire.0 < wires_of shape.now }
    ensures wires { Gets (λ w. w ≡ wire.0) 1 field.old.wires field.new.wires }
    ensures crosses { Gets (IsHungAt shape.now here.now wire.0)
        (length here.now.lines.items + length here.now.own.items) field.old.crosses field.new.crosses }
{
    field.wires.insert(wire.0);
    meet_lines(&mut field.crosses, shape, wire, &here.lines);
    meet_taps(&mut field.crosses, shape, &here.own, wire);
}

// Hangs a wire on what was picked of its node.
fn hang_wire(field: &mut Field, shape: &Shape, frame: &Frame, wire: Wire)
    requires field { IsFieldOf shape.now field.old }
    requires frame { ArePicksOf shape.now frame.now }
    requires wire { wire.0 < wires_of shape.now }
    ensures wires { Gets (λ w. w ≡ wire.0) 1 field.old.wires field.new.wires }
    ensures crosses { Gets (IsHungOn shape.now frame.now.picks.items wire.0) (2 * frame.now.most) field.old.crosses field.new.crosses }
{
    let node = shape.node_of(wire);
    hang(field, shape, &frame.picks[node.0 as usize], wire);
}

// Hangs the used wires.
fn hang_used(field: &mut Field, shape: &Shape, frame: &Frame, used: &BitSet)
    requires field { IsFieldOf shape.now field.old }
    requires frame { ArePicksOf shape.now frame.now }
    requires used { length used.now ≡ wires_of shape.now }
    ensures wires { Gets (OfMarked used.now (λ k w. w ≡ k) (wires_of shape.now)) (size_of used.now) field.old.wires field.new.wires }
    ensures crosses { Gets (OfMarked used.now (IsHungOn shape.now frame.now.picks.items) (wires_of shape.now))
        (2 * frame.now.most * size_of used.now) field.old.crosses field.new.crosses }
{
    'wires: for w in 0..shape.wires() {
        if !used.has(w) {
            continue;
        }
        hang_wire(field, shape, frame, Wire(w));
    }
}

// Marks these crosspoints.
fn add_crosses(marks: &mut BitSet, crosses: &[Cross])
    requires { All (λ x. x.0 < length marks.old) crosses.now }
    ensures { Gets (IsCrossBefore crosses.now (length crosses.now)) (length crosses.now) marks.old marks.new }
{
    'crosses: for j in 0..crosses.len() {
        marks.insert(crosses[j].0);
    }
}

// Nothing of a machine.
fn no_field(alloc: Global, shape: &Shape) -> Result<Field, AllocError>
    ensures field { IfOk result (IsFieldOf shape.now) }
    ensures wires { IfOk result (λ a. size_of a.wires ≡ 0) }
    ensures crosses { IfOk result (λ a. size_of a.crosses ≡ 0) }
{
    Ok(Field {
        wires: BitSet::new(alloc, shape.wires())?,
        crosses: BitSet::new(alloc, shape.crosses())?,
    })
}

/// The field of an image: at most so many ports and lines of each involved node, the image's wires, and its crosspoints.
pub(crate) fn field_of(
    alloc: Global,
    image: &Image,
    parts: &Parts,
    most: usize,
) -> Result<Field, AllocError>
    requires used { AreUsed image.now parts.now.used }
    requires nodes { AreInvolved image.now parts.now.nodes }
    requires most { 2 ≤ most }
    ensures field { IfOk result (IsFieldOf image.now.config.shape) }
    ensures whole { IsWideEnough image.now.config.shape image.now → IfOk result (HasSkeleton image.now) }
    ensures few { IfOk result (IsFewFor image.now parts.now.nodes parts.now.used most) }
{
    the_numbering_is_sound();
    the_crosspoints_are_sound();
    ports_and_lines_ascend();
    let config = image.config();
    let shape = config.shape();
    let frame = frame_of(alloc, &shape, parts, most)?;
    let mut field = no_field(alloc, &shape)?;
    join_nodes(&mut field, &shape, &frame, &parts.nodes);
    hang_used(&mut field, &shape, &frame, &parts.used);
    add_crosses(&mut field.crosses, config.closed());
    Ok(field)
}
