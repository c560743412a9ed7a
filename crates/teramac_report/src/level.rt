//! The parts of the nodes of one level.
ghost use Rattle.std.specs.Prelude.{◌<◌};
ghost use Rattle.machine_shape.specs.Shape.{nodes_of};

use machine_defects::Defects;
use machine_shape::{Node, Shape};

/// How many of a level's parts there are, and what a list leaves of them.
#[derive(Clone, Copy, Debug)]
pub struct Level {
    pub nodes: u64,
    /// Lines and, at the root, pins; at a hextant ports and the pins of its tables; else ports.
    pub wires: u64,
    pub crosspoints: u64,
    /// Nodes that, with all above them, have two open lines and two free ports (the root: two free pins).
    pub served: u64,
    /// Free lines whose crosspoints to all free taps are free.
    pub open_lines: u64,
    pub free_ports: u64,
}

impl Level {
    /// The counts with their names.
    pub fn counts(&self) -> [(&'static str, u64); 6] {
        [
            ("nodes", self.nodes),
            ("wires", self.wires),
            ("crosspoints", self.crosspoints),
            ("served", self.served),
            ("lines", self.open_lines),
            ("ports", self.free_ports),
        ]
    }
}

/// The deepest level, that of hextants.
const DEEPEST: usize = 3;

// The node above one, and none for a number that no node has.
fn node_above(shape: &Shape, node: Node) -> Option<Node> {
    if node.0 < shape.nodes() {
        shape.parent(node)
    } else {
        None
    }
}

// How far below the root a node stands.
fn depth_of(shape: &Shape, node: Node) -> usize {
    let mut at = node;
    for depth in 0..DEEPEST {
        match node_above(shape, at) {
            Some(next) => at = next,
            None => return depth,
        }
    }
    DEEPEST
}

// Whether a list leaves two open lines at a node, and two free ports or, at the root, pins.
fn has_two(list: &Defects, node: Node) -> bool {
    if node.0 >= list.shape().nodes() {
        return false;
    }
    let ways = match list.shape().parent(node) {
        Some(_) => list.free_ports(node),
        None => list.free_pins(),
    };
    list.open_lines(node) >= 2 && ways >= 2
}

// Whether this holds of a node and of all above it.
fn is_served(list: &Defects, node: Node) -> bool {
    let shape = list.shape();
    let mut at = node;
    for _ in 0..DEEPEST {
        if !has_two(list, at) {
            return false;
        }
        match node_above(&shape, at) {
            Some(next) => at = next,
            None => return true,
        }
    }
    has_two(list, at)
}

// How many wires belong to a node, whose depth this is.
fn wires_of_node(shape: &Shape, node: Node, depth: usize) -> u64
    requires { node.0 < nodes_of shape.now }
{
    let own = match depth {
        0 => shape.pins(),
        DEEPEST => shape.taps(node),
        _ => shape.ports(node),
    };
    own as u64 + shape.lines(node) as u64
}

// What one node has.
fn of_node(list: &Defects, node: Node, depth: usize) -> Level
    requires { node.0 < nodes_of list.now.shape }
{
    let shape = list.shape();
    Level {
        nodes: 1,
        wires: wires_of_node(&shape, node, depth),
        crosspoints: (shape.taps(node) as u64).saturating_mul(shape.lines(node) as u64),
        served: is_served(list, node) as u64,
        open_lines: list.open_lines(node) as u64,
        free_ports: list.free_ports(node) as u64,
    }
}

// Two levels' counts together.
fn sum(a: Level, b: Level) -> Level {
    Level {
        nodes: a.nodes.saturating_add(b.nodes),
        wires: a.wires.saturating_add(b.wires),
        crosspoints: a.crosspoints.saturating_add(b.crosspoints),
        served: a.served.saturating_add(b.served),
        open_lines: a.open_lines.saturating_add(b.open_lines),
        free_ports: a.free_ports.saturating_add(b.free_ports),
    }
}

/// The level so many steps below the root.
pub fn level_at(list: &Defects, depth: usize) -> Level {
    let shape = list.shape();
    let mut level = Level {
        nodes: 0,
        wires: 0,
        crosspoints: 0,
        served: 0,
        open_lines: 0,
        free_ports: 0,
    };
    for number in 0..shape.nodes() {
        let node = Node(number);
        if depth_of(&shape, node) == depth {
            level = sum(level, of_node(list, node, depth));
        }
    }
    level
}
