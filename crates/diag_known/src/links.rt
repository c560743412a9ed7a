//! The links of a wire in a field: the crosspoints that lead to it, with their other ends.
//!
//! No list is kept of them, as it takes 16 bytes or more for each crosspoint: what a wire crosses follows from its node, and its crosspoints
//! with the lines of a node, or with the taps, stand one every so many.
ghost use Rattle.std.specs.Prelude.{◌≡◌, ◌≢◌, ◌+◌, ◌<◌, ℕ, Some, [], IfNone, IfOk, IfSome, OnOk};
ghost use Rattle.machine_shape.specs.Shape.{crosses_of, ends_of, node_of, node_of_cross, nodes_of, parent_of, wires_of};
ghost use Rattle.diag_known.specs.Around.{across_of};
ghost use Rattle.diag_known.specs.Field.{IsFieldOf};
ghost use Rattle.diag_known.specs.Linked.{AreInField, AreInOrder, AreLinksOf, AreListed, AreOfEarlier, HasMore, IsRow, MissesRow};
ghost use Rattle.diag_known.specs.declared.looks.Across.TheVariants as across;

use crate::field::Field;
use crate::looks::{Across, Look, is_line, width, wire_across};
use crate::verified_wire::Support;
use machine_shape::{
    Cross, Node, Shape, Wire, crosspoints_stand_in_rows, ports_and_lines_ascend,
    the_crosspoints_are_sound, the_numbering_is_sound,
};
use std::alloc::{AllocError, Global};

/// The crosspoints of a wire with the lines or the taps of a node, in the order of these: the number of the first, and how far it is from
/// each to the next.
#[derive(Clone, Copy, Debug)]
pub(crate) struct Row {
    pub first: u32,
    pub step: u32,
}

// The crosspoints of a tap of a node with its lines. None where it is no tap of it.
fn tap_row(shape: &Shape, tap: Wire, node: Node) -> Option<Row>
    requires node { node.0 < nodes_of shape.now }
    requires tap { tap.0 < wires_of shape.now }
    ensures row { IfSome result (IsRow shape.now across.Lines tap.0 node.0) }
    ensures none { IfNone result (MissesRow shape.now across.Lines tap.0 node.0) }
{
    the_numbering_is_sound();
    the_crosspoints_are_sound();
    crosspoints_stand_in_rows();
    ports_and_lines_ascend();
    let _lines = shape.lines(node);
    match shape.cross(tap, shape.line(node, 0)) {
        Some(first) => Some(Row {
            first: first.0,
            step: 1,
        }),
        None => None,
    }
}

// The crosspoints of a line of its node with the taps. None where it is no line.
fn line_row(shape: &Shape, line: Wire, node: Node) -> Option<Row>
    requires node { node.0 < nodes_of shape.now }
    requires line { line.0 < wires_of shape.now }
    requires home { node.0 ≡ node_of shape.now line.0 }
    ensures row { IfSome result (IsRow shape.now across.Taps line.0 node.0) }
    ensures none { IfNone result (MissesRow shape.now across.Taps line.0 node.0) }
{
    the_numbering_is_sound();
    the_crosspoints_are_sound();
    crosspoints_stand_in_rows();
    if shape.taps(node) == 0 {
        return None;
    }
    match shape.cross(shape.tap(node, 0), line) {
        Some(first) => Some(Row {
            first: first.0,
            step: shape.lines(node),
        }),
        None => None,
    }
}

// The crosspoints of a wire with the lines or the taps of a node, with the taps of its own alone.
fn row_of(shape: &Shape, look: Look, node: Node) -> Option<Row>
    requires node { node.0 < nodes_of shape.now }
    requires from { look.from.0 < wires_of shape.now }
    requires home { look.across ≡ across.Taps → node.0 ≡ node_of shape.now look.from.0 }
    ensures row { IfSome result (IsRow shape.now look.across look.from.0 node.0) }
    ensures none { IfNone result (MissesRow shape.now look.across look.from.0 node.0) }
{
    match look.across {
        Across::Lines => tap_row(shape, look.from, node),
        Across::Taps => line_row(shape, look.from, node),
    }
}

// Puts the links over those crosspoints of a wire with the lines or the taps of a node that are of the field.
fn put_row(
    links: &mut Vec<Support>,
    shape: &Shape,
    field: &Field,
    look: Look,
    node: Node,
) -> Result<(), AllocError>
    requires field { IsFieldOf shape.now field.now }
    requires node { node.0 < nodes_of shape.now }
    requires from { look.from.0 < wires_of shape.now }
    requires home { look.across ≡ across.Taps → node.0 ≡ node_of shape.now look.from.0 }
    requires right { AreInField shape.now field.now look.from.0 links.old.items }
    requires ordered { AreInOrder shape.now links.old.items }
    requires earlier { AreOfEarlier shape.now links.old.items node.0 }
    ensures right { OnOk result (AreInField shape.now field.now look.from.0 links.new.items) }
    ensures ordered { OnOk result (AreInOrder shape.now links.new.items) }
    ensures earlier { OnOk result (AreOfEarlier shape.now links.new.items (node.0 + 1)) }
    ensures stays { OnOk result (HasMore links.old.items links.new.items) }
    ensures listed { OnOk result (AreListed shape.now field.now links.new.items look.across look.from.0 node.0
        (across_of shape.now look.across node.0)) }
{
    the_crosspoints_are_sound();
    let _crosses = shape.crosses();
    let Some(row) = row_of(shape, look, node) else {
        return Ok(());
    };
    'places: for place in 0..width(shape, look.across, node) {
        let cross = Cross(row.first + place * row.step);
        if !field.crosses.has(cross.0) {
            continue;
        }
        let wire = wire_across(shape, look.across, node, place);
        links.push(Support { cross, wire })?;
    }
    Ok(())
}

// Puts the links of a tap into an empty list: to the lines of the node above, and to those of its own.
fn put_rows(
    links: &mut Vec<Support>,
    shape: &Shape,
    field: &Field,
    tap: Wire,
    node: Node,
) -> Result<(), AllocError>
    requires field { IsFieldOf shape.now field.now }
    requires node { node.0 < nodes_of shape.now }
    requires tap { tap.0 < wires_of shape.now }
    requires none { links.old.items ≡ [] }
    ensures right { OnOk result (AreInField shape.now field.now tap.0 links.new.items) }
    ensures ordered { OnOk result (AreInOrder shape.now links.new.items) }
    ensures above { OnOk result ((n : ℕ) → parent_of shape.now node.0 ≡ Some n → AreListed shape.now field.now links.new.items across.Lines
        tap.0 n (across_of shape.now across.Lines n)) }
    ensures here { OnOk result (AreListed shape.now field.now links.new.items across.Lines tap.0 node.0
        (across_of shape.now across.Lines node.0)) }
{
    the_numbering_is_sound();
    let look = Look {
        from: tap,
        across: Across::Lines,
    };
    let Some(above) = shape.parent(node) else {
        return put_row(links, shape, field, look, node);
    };
    put_row(links, shape, field, look, above)?;
    put_row(links, shape, field, look, node)
}

/// The links of a wire: the crosspoints of the field that lead to it, with their other ends, each once: those of the node above before
/// those of its own, and of one node in the order of their numbers. Wants memory, 8 bytes for each.
pub fn links_of(
    alloc: Global,
    shape: &Shape,
    field: &Field,
    wire: Wire,
) -> Result<Vec<Support>, AllocError>
    requires field { IsFieldOf shape.now field.now }
    requires wire { wire.0 < wires_of shape.now }
    ensures { IfOk result (λ links. AreLinksOf shape.now field.now wire.0 links.items) }
{
    the_numbering_is_sound();
    the_crosspoints_are_sound();
    let mut links = Vec::new(alloc);
    let node = shape.node_of(wire);
    if is_line(shape, wire, node) {
        let across = Across::Taps;
        put_row(&mut links, shape, field, Look { from: wire, across }, node)?;
        return Ok(links);
    }
    put_rows(&mut links, shape, field, wire, node)?;
    Ok(links)
}
