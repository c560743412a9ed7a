//! Nodes that outputs need.

use crate::numbers::{is_marked, mark, node_of, small};
use design_equal::{And, Graph};
use design_netlist::{NetlistData, PortDef};
use std::alloc::{AllocError, Global};

/// The nodes of a graph: the first of its ANDs, and the ANDs.
#[derive(Clone, Copy)]
pub struct Nodes<'a> {
    pub first: usize,
    pub ands: &'a [And],
}

impl<'a> Nodes<'a> {
    /// Those of a graph.
    pub fn of(graph: &'a Graph) -> Nodes<'a> {
        let inputs = graph.inputs as usize;
        let latches = graph.latches.as_slice().len();
        Nodes {
            first: inputs.saturating_add(latches).saturating_add(1),
            ands: graph.ands.as_slice(),
        }
    }

    /// How many there are.
    pub fn count(&self) -> usize {
        self.first.saturating_add(self.ands.len())
    }

    /// The AND that a node is, if it is one.
    pub fn and(&self, node: usize) -> Option<And> {
        if node < self.first {
            return None;
        }
        self.ands.get(node.wrapping_sub(self.first)).copied()
    }

    /// Whether a node is an AND.
    pub fn is_and(&self, node: usize) -> bool {
        node >= self.first
    }
}

/// The nodes that outputs need, latches and what they read among them, and the nodes that are to have tables: those that outputs
/// show and that these latches read, each as often as that.
#[derive(Drop)]
pub struct Reach {
    pub live: Vec<bool>,
    pub roots: Vec<u32>,
}

// The node that the latch at a node reads, if there is one.
fn read_by(graph: &Graph, node: usize) -> Option<u32> {
    let inputs = graph.inputs as usize;
    if node <= inputs {
        return None;
    }
    let place = node.wrapping_sub(inputs).wrapping_sub(1);
    Some(small(node_of(graph.latches.as_slice().get(place)?.next)))
}

// Two nodes wait.
fn push_both(waiting: &mut Vec<u32>, left: u32, right: u32) -> Result<(), AllocError> {
    waiting.push(left)?;
    waiting.push(right)?;
    Ok(())
}

// Notes what a node that is needed needs itself.
fn follow(
    graph: &Graph,
    node: usize,
    waiting: &mut Vec<u32>,
    roots: &mut Vec<u32>,
) -> Result<(), AllocError> {
    if let Some(and) = Nodes::of(graph).and(node) {
        push_both(waiting, and.left >> 1, and.right >> 1)?;
    } else if let Some(next) = read_by(graph, node) {
        roots.push(next)?;
        waiting.push(next)?;
    }
    Ok(())
}

// Notes what all nodes need that wait, and those that come to wait.
fn follow_all(graph: &Graph, reach: &mut Reach, waiting: &mut Vec<u32>) -> Result<(), AllocError> {
    'nodes: for _ in 0..u64::MAX {
        let Some(node) = waiting.pop() else {
            break;
        };
        if mark(&mut reach.live, node as usize) {
            follow(graph, node as usize, waiting, &mut reach.roots)?;
        }
    }
    Ok(())
}

// The nodes of the outputs.
fn shown_nodes(alloc: Global, outputs: &[PortDef], labels: &[u32]) -> Result<Vec<u32>, AllocError> {
    let mut shown = Vec::new(alloc);
    'outputs: for port in outputs {
        let label = labels.get(port.signal as usize).copied().unwrap_or(0);
        shown.push(label >> 1)?;
    }
    Ok(shown)
}

/// What the outputs of a design with these labels need.
pub fn reach_of(
    alloc: Global,
    draft: &NetlistData,
    graph: &Graph,
    labels: &[u32],
) -> Result<Reach, AllocError> {
    let mut reach = Reach {
        live: vec![in alloc; false; Nodes::of(graph).count()]?,
        roots: shown_nodes(alloc, draft.outputs.as_slice(), labels)?,
    };
    let mut waiting = Vec::from_slice(alloc, &reach.roots)?;
    follow_all(graph, &mut reach, &mut waiting)?;
    Ok(reach)
}

/// Whether outputs need the latch of this number of the graph.
pub fn needs_latch(graph: &Graph, reach: &Reach, place: usize) -> bool {
    let node = (graph.inputs as usize)
        .saturating_add(place)
        .saturating_add(1);
    is_marked(&reach.live, node)
}
