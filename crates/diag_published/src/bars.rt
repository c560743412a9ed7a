//! The crossbar of a node, and its field.
ghost use Rattle.std.specs.Prelude.{◌≡◌, ◌<◌, ◌≤◌, ◌+◌, ◌-◌, ◌*◌, All, IfOk, length};
ghost use Rattle.machine_shape.specs.Vocabulary.{first_cross_of, wires_of, crosses_of, nodes_of, taps_of, lines_of};
ghost use Rattle.diag_known.specs.Vocabulary.{IsFieldOf, Gets};
ghost use Rattle.base_bits.specs.Numbers.{size_of};
ghost use Rattle.diag_published.specs.Bars.{AreBarOf, IsBarField, IsCrossOfNode, IsFrom};
ghost use Rattle.diag_published.specs.Held.{wire_numbers};

use crate::laws::the_laws_hold;
use crate::lists::{lines_in, taps_in};
use base_bits::BitSet;
use diag_growth::{Field, add_wires};
use machine_shape::{Node, Shape, Wire, crosspoints_stand_in_rows};
use std::alloc::{AllocError, Global};

/// The taps and the lines of a crossbar.
#[derive(Drop)]
pub(crate) struct Crossbar {
    pub taps: Vec<Wire>,
    pub lines: Vec<Wire>,
}

/// The crossbar of a node.
pub(crate) fn bar_of(alloc: Global, shape: &Shape, node: Node) -> Result<Crossbar, AllocError>
    requires { node.0 < nodes_of shape.now }
    ensures bar { IfOk result (λ b. AreBarOf shape.now node.0 (wire_numbers b.taps.items) (wire_numbers b.lines.items)) }
    ensures taps { IfOk result (λ b. All (λ w. w.0 < wires_of shape.now) b.taps.items) }
    ensures lines { IfOk result (λ b. All (λ w. w.0 < wires_of shape.now) b.lines.items) }
    ensures tap_count { IfOk result (λ b. length b.taps.items ≡ taps_of shape.now node.0) }
    ensures line_count { IfOk result (λ b. length b.lines.items ≡ lines_of shape.now node.0) }
{
    the_laws_hold();
    Ok(Crossbar {
        taps: taps_in(alloc, shape, node)?,
        lines: lines_in(alloc, shape, node)?,
    })
}

/// Nothing of a machine.
pub(crate) fn no_field(alloc: Global, shape: &Shape) -> Result<Field, AllocError>
    ensures field { IfOk result (IsFieldOf shape.now) }
    ensures wires { IfOk result (λ a. size_of a.wires ≡ 0) }
    ensures crosses { IfOk result (λ a. size_of a.crosses ≡ 0) }
{
    Ok(Field {
        wires: BitSet::new(alloc, shape.wires())?,
        crosses: BitSet::new(alloc, shape.crosses())?,
    })
}

// Marks the numbers from one on up to another.
fn add_range(marks: &mut BitSet, first: u32, end: u32)
    requires ordered { first ≤ end }
    requires within { end ≤ length marks.old }
    ensures { Gets (IsFrom first end) (end - first) marks.old marks.new }
{
    'numbers: for x in first..end {
        marks.insert(x);
    }
}

// The number behind that of the last crosspoint of a node.
fn end_of_bar(shape: &Shape, node: Node) -> u32
    requires node { node.0 < nodes_of shape.now }
    requires taps { 0 < taps_of shape.now node.0 }
    ensures end { result ≡ first_cross_of shape.now node.0 + taps_of shape.now node.0 * lines_of shape.now node.0 }
    ensures within { result ≤ crosses_of shape.now }
{
    crosspoints_stand_in_rows();
    let _few = shape.crosses();
    let first = shape.first_cross(node);
    let taps = shape.taps(node);
    let lines = shape.lines(node);
    let count = taps * lines;
    first + count
}

// Marks the crosspoints of a node.
fn add_crosses(crosses: &mut BitSet, shape: &Shape, node: Node)
    requires node { node.0 < nodes_of shape.now }
    requires taps { 0 < taps_of shape.now node.0 }
    requires crosses { length crosses.old ≡ crosses_of shape.now }
    ensures { Gets (IsCrossOfNode shape.now node.0) (taps_of shape.now node.0 * lines_of shape.now node.0) crosses.old crosses.new }
{
    the_laws_hold();
    let first = shape.first_cross(node);
    let end = end_of_bar(shape, node);
    add_range(crosses, first, end);
}

/// The field that is the crossbar of a node.
pub(crate) fn bar_field(
    alloc: Global,
    shape: &Shape,
    node: Node,
    bar: &Crossbar,
) -> Result<Field, AllocError>
    requires node { node.0 < nodes_of shape.now }
    requires some { 0 < taps_of shape.now node.0 }
    requires bar { AreBarOf shape.now node.0 (wire_numbers bar.now.taps.items) (wire_numbers bar.now.lines.items) }
    requires taps { All (λ w. w.0 < wires_of shape.now) bar.now.taps.items }
    requires lines { All (λ w. w.0 < wires_of shape.now) bar.now.lines.items }
    requires tap_count { length bar.now.taps.items ≡ taps_of shape.now node.0 }
    requires line_count { length bar.now.lines.items ≡ lines_of shape.now node.0 }
    ensures { IfOk result (IsBarField shape.now node.0) }
{
    let mut field = no_field(alloc, shape)?;
    add_wires(&mut field.wires, &bar.taps);
    add_wires(&mut field.wires, &bar.lines);
    add_crosses(&mut field.crosses, shape, node);
    Ok(field)
}
