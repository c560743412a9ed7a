//! What is counted: open lines and free ports by node, and free pins of the machine.

ghost use Rattle.std.specs.Prelude.{◌≡◌, ◌<◌, ◌==◌, Some, length, slice_set, slice_index_or};
ghost use Rattle.base_bits.specs.Numbers.{has_number};
ghost use Rattle.machine_shape.specs.Shape.{wires_of, nodes_of, parent_of};
ghost use Rattle.machine_defects.specs.Kept.{clear_lines_at, free_ports_at, free_pins_in, AreRecounted, IsRecounted, IsItOrAbove};

use base_bits::BitSet;
use machine_shape::{Node, Pin, Shape, Wire};

/// How many lines of a node aren't listed and have no listed crosspoint.
fn clear_lines(shape: &Shape, wires: &BitSet, shut: &[u32], n: Node) -> u32
    requires node { n.0 < nodes_of shape.now }
    requires wires { length wires.now ≡ wires_of shape.now }
    requires shut { length shut.now ≡ wires_of shape.now }
    ensures { result ≡ clear_lines_at shape.now wires.now shut.now n.0 }
{
    machine_shape::the_numbering_is_sound();
    machine_shape::crosspoints_stand_in_rows();
    let lines = shape.lines(n);
    let first = shape.line(n, 0);
    let mut count = 0u32;
    'lines: for i in 0..lines {
        let line = Wire(first.0 + i);
        if !wires.has(line.0) && shut[line.0 as usize] == 0 {
            count += 1;
        }
    }
    count
}

/// How many ports of a node aren't listed.
fn free_ports(shape: &Shape, wires: &BitSet, n: Node) -> u32
    requires node { n.0 < nodes_of shape.now }
    requires wires { length wires.now ≡ wires_of shape.now }
    ensures { result ≡ free_ports_at shape.now wires.now n.0 }
{
    machine_shape::the_numbering_is_sound();
    machine_shape::crosspoints_stand_in_rows();
    let ports = shape.ports(n);
    if ports == 0 {
        return 0;
    }
    let first = shape.port(n, 0);
    let mut count = 0u32;
    'ports: for i in 0..ports {
        let port = Wire(first.0 + i);
        if !wires.has(port.0) {
            count += 1;
        }
    }
    count
}

/// How many pins of the machine aren't listed.
pub fn free_pins(shape: &Shape, wires: &BitSet) -> u32
    requires { length wires.now ≡ wires_of shape.now }
    ensures { result ≡ free_pins_in shape.now wires.now }
{
    let mut count = 0u32;
    'pins: for i in 0..shape.pins() {
        if !wires.has(shape.pin(Pin(i)).0) {
            count += 1;
        }
    }
    count
}

/// Counts a node's open lines and free ports anew.
fn recount(
    shape: &Shape,
    wires: &BitSet,
    shut: &[u32],
    open_lines: &mut [u32],
    free_ports_by: &mut [u32],
    n: Node,
)
    requires node { n.0 < nodes_of shape.now }
    requires wires { length wires.now ≡ wires_of shape.now }
    requires shut { length shut.now ≡ wires_of shape.now }
    requires open { length open_lines.old ≡ nodes_of shape.now }
    requires ports { length free_ports_by.old ≡ nodes_of shape.now }
    ensures open { open_lines.new ≡ slice_set open_lines.old n.0 (clear_lines_at shape.now wires.now shut.now n.0) }
    ensures ports { free_ports_by.new ≡ slice_set free_ports_by.old n.0 (free_ports_at shape.now wires.now n.0) }
{
    open_lines[n.0 as usize] = clear_lines(shape, wires, shut, n);
    free_ports_by[n.0 as usize] = free_ports(shape, wires, n);
}

/// Counts those of the node above a node anew, if there is one.
fn recount_above(
    shape: &Shape,
    wires: &BitSet,
    shut: &[u32],
    open_lines: &mut [u32],
    free_ports_by: &mut [u32],
    n: Node,
)
    requires node { n.0 < nodes_of shape.now }
    requires wires { length wires.now ≡ wires_of shape.now }
    requires shut { length shut.now ≡ wires_of shape.now }
    requires open { length open_lines.old ≡ nodes_of shape.now }
    requires ports { length free_ports_by.old ≡ nodes_of shape.now }
    ensures { IsRecounted shape.now wires.now shut.now
        (λ i. parent_of shape.now n.0 ≡ Some i) open_lines.old free_ports_by.old open_lines.new free_ports_by.new }
{
    if let Some(above) = shape.parent(n) {
        recount(shape, wires, shut, open_lines, free_ports_by, above);
    }
}

/// Counts those of a node and of the node above it anew.
pub fn recount_both(
    shape: &Shape,
    wires: &BitSet,
    shut: &[u32],
    open_lines: &mut [u32],
    free_ports_by: &mut [u32],
    n: Node,
)
    requires node { n.0 < nodes_of shape.now }
    requires wires { length wires.now ≡ wires_of shape.now }
    requires shut { length shut.now ≡ wires_of shape.now }
    requires open { length open_lines.old ≡ nodes_of shape.now }
    requires ports { length free_ports_by.old ≡ nodes_of shape.now }
    ensures { IsRecounted shape.now wires.now shut.now
        (IsItOrAbove shape.now n.0) open_lines.old free_ports_by.old open_lines.new free_ports_by.new }
{
    recount(shape, wires, shut, open_lines, free_ports_by, n);
    recount_above(shape, wires, shut, open_lines, free_ports_by, n);
}

/// Counts those of all nodes.
pub fn count_nodes(
    shape: &Shape,
    wires: &BitSet,
    shut: &[u32],
    open_lines: &mut [u32],
    free_ports_by: &mut [u32],
)
    requires wires { length wires.now ≡ wires_of shape.now }
    requires shut { length shut.now ≡ wires_of shape.now }
    requires open { length open_lines.old ≡ nodes_of shape.now }
    requires ports { length free_ports_by.old ≡ nodes_of shape.now }
    ensures { AreRecounted shape.now wires.now shut.now (nodes_of shape.now) open_lines.new free_ports_by.new }
{
    'nodes: for n in 0..shape.nodes() {
        recount(shape, wires, shut, open_lines, free_ports_by, Node(n));
    }
}
