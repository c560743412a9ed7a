//! Whether lists are a graph.

ghost use Rattle.std.specs.Prelude.{◌≡◌, ◌<◌, ◌≤◌, ◌+◌, ℕ, length, IsTrue};
ghost use Rattle.std.specs.Option.{ForSome};
ghost use Rattle.design_equal.specs.Graphs.{IsGraph, and_at, graph_latch_at, first_and, first_latch, node_count, node_of};
ghost use Rattle.design_equal.specs.Products.{IsAndAt};

use crate::graph::{And, Graph};

/// The node of the first latch.
pub fn first_latch(graph: &Graph) -> usize
    ensures is { result ≡ first_latch graph.now }
    ensures small { result ≤ 4294967296 }
{
    1 + graph.inputs as usize
}

/// The node of the first AND.
pub fn first_and(graph: &Graph) -> usize
    ensures is { result ≡ first_and graph.now }
    ensures small { result ≤ 4611686018427387904 }
{
    first_latch(graph) + graph.latches.as_slice().len()
}

/// How many nodes there are.
pub fn node_count(graph: &Graph) -> usize
    ensures { result ≡ node_count graph.now }
{
    first_and(graph) + graph.ands.as_slice().len()
}

/// Whether what the latches read are literals of nodes.
fn have_nexts(graph: &Graph) -> bool
    ensures { IsTrue result → (k : ℕ) → k < length graph.now.latches → node_of (graph_latch_at graph.now k).next < node_count graph.now }
{
    let count = node_count(graph);
    let latches = graph.latches.as_slice();
    'latches: for k in 0..latches.len() {
        if (latches[k].next / 2) as usize >= count {
            return false;
        }
    }
    true
}

/// Whether both literals of an AND are of nodes below this one.
fn reads_below(left: u32, right: u32, node: usize) -> bool
    ensures left { IsTrue result → node_of left < node }
    ensures right { IsTrue result → node_of right < node }
{
    if (left / 2) as usize >= node {
        return false;
    }
    ((right / 2) as usize) < node
}

/// Whether each AND reads lower nodes.
fn are_ordered(graph: &Graph) -> bool
    ensures lefts { IsTrue result → (k : ℕ) → k < length graph.now.ands → node_of (and_at graph.now k).left < first_and graph.now + k }
    ensures rights { IsTrue result → (k : ℕ) → k < length graph.now.ands → node_of (and_at graph.now k).right < first_and graph.now + k }
{
    let first = first_and(graph);
    let ands = graph.ands.as_slice();
    'ands: for k in 0..ands.len() {
        let gate = ands[k];
        if !reads_below(gate.left, gate.right, first + k) {
            return false;
        }
    }
    true
}

/// Whether the lists are a graph.
pub fn is_graph(graph: &Graph) -> bool
    ensures { IsTrue result → IsGraph graph.now }
{
    if !have_nexts(graph) {
        return false;
    }
    are_ordered(graph)
}

/// The AND at a node.
pub fn gate_at(graph: &Graph, node: u32) -> Option<And>
    ensures { ForSome result (λ gate. (k : ℕ) × IsAndAt graph.now node gate k) }
{
    let first = first_and(graph);
    let ands = graph.ands.as_slice();
    let node = node as usize;
    if node < first {
        return None;
    }
    let k = node - first;
    if k >= ands.len() {
        return None;
    }
    Some(ands[k])
}
