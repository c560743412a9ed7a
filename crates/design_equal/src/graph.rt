//! Graphs of ANDs.
//!
//! The nodes of a graph are numbered: node 0 is the constant 0, then come the inputs, the latches and the ANDs, each in order. A
//! literal is twice the number of a node, or one more, which negates it.

use base_lists::Items;

/// A latch of a graph.
#[derive(Clone, Copy, Debug, PartialEq, Eq)]
pub struct GraphLatch {
    /// The literal that it reads.
    pub next: u32,
    /// What it gives at the first cycle.
    pub init: bool,
}

/// A node that is 1 where both its literals are.
#[derive(Clone, Copy, Debug, PartialEq, Eq)]
pub struct And {
    /// A literal of a lower node.
    pub left: u32,
    /// A literal of a lower node.
    pub right: u32,
}

/// A graph of ANDs, of any numbers: whether its literals are of nodes, and those of ANDs of lower ones, is asked where it is used.
#[derive(Debug, Drop)]
pub struct Graph {
    /// How many inputs it has.
    pub inputs: u32,
    /// Its latches, in order.
    pub latches: Items<GraphLatch>,
    /// Its ANDs, in order.
    pub ands: Items<And>,
}
