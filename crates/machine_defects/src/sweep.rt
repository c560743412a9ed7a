//! Bars the crosspoints of a wire that is to be listed.

ghost use Rattle.std.specs.Prelude.{◌≡◌, ◌<◌, ◌-◌, true, false, Some, length, slice_set, if◌then◌else◌};
ghost use Rattle.base_bits.specs.Numbers.{has_number};
ghost use Rattle.machine_shape.specs.Shape.{wires_of, crosses_of, nodes_of, node_of, parent_of, ends_of, node_of_cross};
ghost use Rattle.machine_defects.specs.Kept.{count_at, IsSwept, AreShutBy};
ghost use Rattle.machine_defects.specs.Lists.{touches_cross};

use base_bits::BitSet;
use machine_shape::{Cross, Node, Shape, Wire};

/// Bars a crosspoint: it isn't listed any more, and isn't free.
fn bar(crosses: &mut BitSet, barred: &mut BitSet, shut: &mut [u32], x: Cross, line: Wire)
    requires listed { x.0 < length crosses.old }
    requires barred { x.0 < length barred.old }
    requires line { line.0 < length shut.old }
    requires some { has_number crosses.old x.0 ≡ true → 0 < count_at shut.old line.0 }
    ensures listed { crosses.new ≡ slice_set crosses.old x.0 false }
    ensures barred { barred.new ≡ slice_set barred.old x.0 true }
    ensures shut { shut.new ≡ (if has_number crosses.old x.0 then slice_set shut.old line.0 (count_at shut.old line.0 - 1) else shut.old) }
{
    if crosses.has(x.0) {
        shut[line.0 as usize] -= 1;
    }
    crosses.remove(x.0);
    barred.insert(x.0);
}

/// Bars the crosspoints of a tap of a node.
fn bar_tap(
    shape: &Shape,
    crosses: &mut BitSet,
    barred: &mut BitSet,
    shut: &mut [u32],
    n: Node,
    w: Wire,
)
    requires node { n.0 < nodes_of shape.now }
    requires wire { w.0 < wires_of shape.now }
    requires crosses { length crosses.old ≡ crosses_of shape.now }
    requires barred { length barred.old ≡ crosses_of shape.now }
    requires shut { length shut.old ≡ wires_of shape.now }
    requires counted { AreShutBy shape.now crosses.old shut.old }
    ensures { IsSwept shape.now w.0 (λ x. (node_of_cross shape.now x ≡ n.0)
        × ((ends_of shape.now x).0 ≡ w.0)) crosses.old barred.old crosses.new barred.new shut.new }
{
    machine_shape::the_crosspoints_are_sound();
    machine_shape::crosspoints_stand_in_rows();
    let width = shape.lines(n);
    let first_line = shape.line(n, 0);
    let Some(first) = shape.cross(w, first_line) else {
        return;
    };
    // A tap's crosspoints follow each other as the node's lines do.
    'lines: for i in 0..width {
        let x = Cross(first.0 + i);
        let line = Wire(first_line.0 + i);
        bar(crosses, barred, shut, x, line);
    }
}

/// Bars the crosspoints of a line of a node.
fn bar_line(
    shape: &Shape,
    crosses: &mut BitSet,
    barred: &mut BitSet,
    shut: &mut [u32],
    n: Node,
    w: Wire,
)
    requires node { n.0 < nodes_of shape.now }
    requires wire { w.0 < wires_of shape.now }
    requires crosses { length crosses.old ≡ crosses_of shape.now }
    requires barred { length barred.old ≡ crosses_of shape.now }
    requires shut { length shut.old ≡ wires_of shape.now }
    requires counted { AreShutBy shape.now crosses.old shut.old }
    ensures { IsSwept shape.now w.0 (λ x. (node_of_cross shape.now x ≡ n.0)
        × ((ends_of shape.now x).1 ≡ w.0)) crosses.old barred.old crosses.new barred.new shut.new }
{
    machine_shape::the_crosspoints_are_sound();
    machine_shape::crosspoints_stand_in_rows();
    let width = shape.lines(n);
    let first_line = shape.line(n, 0);
    if w.0 < first_line.0 {
        return;
    }
    let position = w.0 - first_line.0;
    if position >= width {
        return;
    }
    let first = shape.first_cross(n);
    // The row of each tap has a crosspoint of the line, at the line's position.
    'taps: for i in 0..shape.taps(n) {
        let x = Cross(first + i * width + position);
        bar(crosses, barred, shut, x, w);
    }
}

/// Bars the crosspoints of a port at the node above its own.
fn bar_above(
    shape: &Shape,
    crosses: &mut BitSet,
    barred: &mut BitSet,
    shut: &mut [u32],
    n: Node,
    w: Wire,
)
    requires node { n.0 < nodes_of shape.now }
    requires wire { w.0 < wires_of shape.now }
    requires crosses { length crosses.old ≡ crosses_of shape.now }
    requires barred { length barred.old ≡ crosses_of shape.now }
    requires shut { length shut.old ≡ wires_of shape.now }
    requires counted { AreShutBy shape.now crosses.old shut.old }
    ensures { IsSwept shape.now w.0 (λ x. (parent_of shape.now n.0 ≡ Some (node_of_cross shape.now x))
        × ((ends_of shape.now x).0 ≡ w.0)) crosses.old barred.old crosses.new barred.new shut.new }
{
    if let Some(above) = shape.parent(n) {
        bar_tap(shape, crosses, barred, shut, above, w);
    }
}

/// Bars all crosspoints of a wire.
pub fn bar_all(shape: &Shape, crosses: &mut BitSet, barred: &mut BitSet, shut: &mut [u32], w: Wire)
    requires wire { w.0 < wires_of shape.now }
    requires crosses { length crosses.old ≡ crosses_of shape.now }
    requires barred { length barred.old ≡ crosses_of shape.now }
    requires shut { length shut.old ≡ wires_of shape.now }
    requires counted { AreShutBy shape.now crosses.old shut.old }
    ensures { IsSwept shape.now w.0 (λ x. touches_cross shape.now w.0 x ≡ true) crosses.old barred.old crosses.new barred.new shut.new }
{
    machine_shape::the_numbering_is_sound();
    machine_shape::the_crosspoints_are_sound();
    let node = shape.node_of(w);
    bar_tap(shape, crosses, barred, shut, node, w);
    bar_line(shape, crosses, barred, shut, node, w);
    bar_above(shape, crosses, barred, shut, node, w);
}
