//! How many of each a machine has, and which wires its nodes and tables have.
ghost use Rattle.std.specs.Prelude.{◌≡◌, ◌<◌, ◌≤◌, IfSome, IfNone};
ghost use Rattle.machine_shape.specs.Bars.{IsNodeBar};
ghost use Rattle.machine_shape.specs.Rows.{first_cross_of};
ghost use Rattle.machine_shape.specs.Shape.{wires_of, crosses_of, tables_of, nodes_of, pins_of, taps_of, lines_of, own_ports_of, tap_at};
ghost use Rattle.machine_shape.specs.Shape.{line_at, port_at, pin_wire, table_wire, node_of, node_of_cross, hextant_of, parent_of};

use crate::bars::{bar_of, tap_at};
use crate::places::{
    above_of, cross_place, first_cross, first_wire, node_number, node_way, steps_of, table_way,
    total, trunk_of, wire_place,
};
use crate::way::{Crossbar, Kind};
use crate::{Cross, Node, Pin, Shape, Table, Wire};

/// The crossbar of a node.
fn node_bar(shape: Shape, node: u32) -> Crossbar
    requires { node < nodes_of shape }
    ensures { IsNodeBar shape node result }
{
    let way = node_way(shape, node);
    bar_of(shape, steps_of(&way))
}

impl Shape {
    /// How many wires there are: at most 1,310,720.
    pub fn wires(&self) -> u32
        ensures wires { result ≡ wires_of self.now }
        ensures few { result ≤ 1310720 }
    {
        total(*self, Kind::Wires)
    }

    /// How many crosspoints there are: at most 268,435,456.
    pub fn crosses(&self) -> u32
        ensures crosses { result ≡ crosses_of self.now }
        ensures few { result ≤ 268435456 }
    {
        total(*self, Kind::Crosses)
    }

    /// How many tables there are: at most 65,536.
    pub fn tables(&self) -> u32
        ensures tables { result ≡ tables_of self.now }
        ensures few { result ≤ 65536 }
    {
        total(*self, Kind::Tables)
    }

    /// How many nodes there are: at most 1,310,720, since each has a line of its own.
    pub fn nodes(&self) -> u32
        ensures nodes { result ≡ nodes_of self.now }
        ensures few { result ≤ 1310720 }
        ensures root { 0 < result }
    {
        total(*self, Kind::Nodes)
    }

    /// How many pins the machine has: at most 16,384, since there are at most 8,192 where it isn't small.
    pub fn pins(&self) -> u32
        ensures pins { result ≡ pins_of self.now }
        ensures some { 0 < result }
        ensures few { result ≤ wires_of self.now }
        ensures most { result ≤ 16384 }
    {
        self.counts.pins as u32
    }

    /// How many taps the crossbar of a node has.
    pub fn taps(&self, n: Node) -> u32
        requires { n.0 < nodes_of self.now }
        ensures { result ≡ taps_of self.now n.0 }
    {
        let bar = node_bar(*self, n.0);
        bar.ports + bar.children * bar.each
    }

    /// How many lines the crossbar of a node has.
    pub fn lines(&self, n: Node) -> u32
        requires { n.0 < nodes_of self.now }
        ensures lines { result ≡ lines_of self.now n.0 }
        ensures some { 0 < result }
    {
        node_bar(*self, n.0).lines
    }

    /// How many ports a node has. The root has none.
    pub fn ports(&self, n: Node) -> u32
        requires { n.0 < nodes_of self.now }
        ensures { result ≡ own_ports_of self.now n.0 }
    {
        if n.0 == 0 {
            0
        } else {
            node_bar(*self, n.0).ports
        }
    }

    /// The number of a node's first crosspoint. From there on its crosspoints stand in rows: one row for each
    /// tap, and in it one crosspoint for each line.
    pub fn first_cross(&self, n: Node) -> u32
        requires { n.0 < nodes_of self.now }
        ensures { result ≡ first_cross_of self.now n.0 }
    {
        let to_node = node_way(*self, n.0);
        first_cross(*self, steps_of(&to_node))
    }

    /// The tap of a node's crossbar at a position.
    pub fn tap(&self, n: Node, k: u32) -> Wire
        requires node { n.0 < nodes_of self.now }
        requires position { k < taps_of self.now n.0 }
        ensures wire { result.0 ≡ tap_at self.now n.0 k }
        ensures within { result.0 < wires_of self.now }
    {
        Wire(tap_at(node_bar(*self, n.0), k))
    }

    /// The line of a node at a position.
    pub fn line(&self, n: Node, k: u32) -> Wire
        requires node { n.0 < nodes_of self.now }
        requires position { k < lines_of self.now n.0 }
        ensures wire { result.0 ≡ line_at self.now n.0 k }
        ensures within { result.0 < wires_of self.now }
    {
        let bar = node_bar(*self, n.0);
        Wire(bar.first + bar.ports + k)
    }

    /// The port of a node below the root at a position.
    pub fn port(&self, n: Node, k: u32) -> Wire
        requires node { n.0 < nodes_of self.now }
        requires position { k < own_ports_of self.now n.0 }
        ensures wire { result.0 ≡ port_at self.now n.0 k }
        ensures within { result.0 < wires_of self.now }
    {
        Wire(node_bar(*self, n.0).first + k)
    }

    /// A pin of the machine.
    pub fn pin(&self, pin: Pin) -> Wire
        requires { pin.0 < pins_of self.now }
        ensures wire { result.0 ≡ pin_wire self.now pin.0 }
        ensures within { result.0 < wires_of self.now }
    {
        Wire(pin.0)
    }

    /// The wire of a table's pin: inputs are 0 to 5, and the output is 6.
    pub fn pin_of(&self, t: Table, k: u32) -> Wire
        requires table { t.0 < tables_of self.now }
        requires pin { k < 7 }
        ensures wire { result.0 ≡ table_wire self.now t.0 k }
        ensures within { result.0 < wires_of self.now }
    {
        let way = table_way(*self, t.0);
        Wire(first_wire(*self, steps_of(&way)) + k)
    }

    /// The node to which a wire belongs: the root for a pin of the machine, and the hextant for a table's pin.
    pub fn node_of(&self, w: Wire) -> Node
        requires { w.0 < wires_of self.now }
        ensures node { result.0 ≡ node_of self.now w.0 }
        ensures within { result.0 < nodes_of self.now }
    {
        let place = wire_place(*self, w.0);
        Node(node_number(*self, trunk_of(&place.way)))
    }

    /// The hextant of a table.
    pub fn hextant_of(&self, t: Table) -> Node
        requires { t.0 < tables_of self.now }
        ensures node { result.0 ≡ hextant_of self.now t.0 }
        ensures within { result.0 < nodes_of self.now }
    {
        let way = table_way(*self, t.0);
        Node(node_number(*self, trunk_of(&way)))
    }

    /// The node of whose crossbar a crosspoint is.
    pub fn node_of_cross(&self, c: Cross) -> Node
        requires { c.0 < crosses_of self.now }
        ensures node { result.0 ≡ node_of_cross self.now c.0 }
        ensures within { result.0 < nodes_of self.now }
    {
        let place = cross_place(*self, c.0);
        Node(node_number(*self, steps_of(&place.way)))
    }

    /// The node above a node. The root alone has none.
    pub fn parent(&self, n: Node) -> Option<Node>
        requires { n.0 < nodes_of self.now }
        ensures some { IfSome result (λ p. (parent_of self.now n.0 ≡ Some p.0) × (p.0 < nodes_of self.now)) }
        ensures none { IfNone result ((parent_of self.now n.0 ≡ None) × (n.0 ≡ 0)) }
    {
        if n.0 == 0 {
            None
        } else {
            let way = node_way(*self, n.0);
            Some(Node(node_number(*self, above_of(&way))))
        }
    }
}
