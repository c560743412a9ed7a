//! Inputs, latches, outputs and signals without a driver, and their labels.

ghost use Rattle.std.specs.Prelude.{◌≡◌, ◌<◌, ◌+◌, ◌*◌, ℕ, Bool, length, map, true, IfOk, IsTrue, slice_index_or};
ghost use Rattle.design_netlist.specs.Vocabulary.{drive_words, signal_at, IsDriven, bit_at, latch_at, AreWithin};
ghost use Rattle.design_equal.specs.Graphs.{node_of};
ghost use Rattle.design_equal.specs.Labels.{label_at, IsLatchAt, IsLatchOf};

use crate::graph::Graph;
use crate::nodes::first_latch;
use crate::steps::label_at;
use design_netlist::{LatchDef, NetlistData, PortDef, drives_of};
use std::alloc::{AllocError, Global};

/// Whether all labels are literals of nodes, of which there are so many.
pub fn are_within(labels: &[u32], count: usize) -> bool
    ensures { IsTrue result → (s : ℕ) → s < length labels.now → node_of (label_at labels.now s) < count }
{
    'labels: for k in 0..labels.len() {
        if (labels[k] / 2) as usize >= count {
            return false;
        }
    }
    true
}

/// Whether the label is the literal, not negated, of the node.
fn is_node(label: u32, node: usize) -> bool
    ensures { IsTrue result → label ≡ 2 * node }
{
    if label % 2 != 0 {
        return false;
    }
    (label / 2) as usize == node
}

/// Whether the inputs have the labels of the graph's, in order.
pub fn have_inputs(inputs: &[PortDef], labels: &[u32]) -> bool
    ensures { IsTrue result → (k : ℕ) → k < length inputs.now → label_at labels.now (signal_at inputs.now k) ≡ 2 * (1 + k) }
{
    'inputs: for k in 0..inputs.len() {
        let port = inputs[k];
        let label = label_at(labels, port.signal);
        if !is_node(label, 1 + k) {
            return false;
        }
    }
    true
}

/// Whether the output is labelled by a latch of the graph that reads the label of the input, and begins as it.
fn has_node(graph: &Graph, labels: &[u32], latch: LatchDef) -> bool
    ensures { IsTrue result → (k : ℕ) × IsLatchAt graph.now labels.now latch k }
{
    let out = label_at(labels, latch.out);
    let from = label_at(labels, latch.from);
    let first = first_latch(graph);
    let latches = graph.latches.as_slice();
    let node = (out / 2) as usize;
    if node < first {
        return false;
    }
    let k = node - first;
    if k >= latches.len() {
        return false;
    }
    if !is_node(out, node) {
        return false;
    }
    let own = latches[k];
    if own.next != from {
        return false;
    }
    own.init == latch.init
}

/// Whether the label of the latch's output is a latch's node, or a constant with which the latch begins and goes on.
fn is_latch(graph: &Graph, labels: &[u32], latch: LatchDef) -> bool
    ensures { IsTrue result → IsLatchOf graph.now labels.now latch }
{
    let out = label_at(labels, latch.out);
    if out >= 2 {
        return has_node(graph, labels, latch);
    }
    let from = label_at(labels, latch.from);
    if from != out {
        return false;
    }
    latch.init == (out == 1)
}

/// Whether all latches are labelled so.
pub fn have_latches(graph: &Graph, labels: &[u32], latches: &[LatchDef]) -> bool
    ensures { IsTrue result → (k : ℕ) → k < length latches.now → IsLatchOf graph.now labels.now (latch_at latches.now k) }
{
    'latches: for k in 0..latches.len() {
        if !is_latch(graph, labels, latches[k]) {
            return false;
        }
    }
    true
}

/// Marks for the signals that the words name.
fn marks_of(alloc: Global, words: &[PortDef], count: usize) -> Result<Vec<bool>, AllocError>
    requires { AreWithin count words.now }
    ensures size { IfOk result (λ marks. length marks.items ≡ count) }
    ensures named { IfOk result (λ marks. (s : ℕ) → bit_at marks.items s ≡ true
        → (k : ℕ) × (k < length words.now) × (signal_at words.now k ≡ s)) }
{
    let mut marks = vec![in alloc; false; count]?;
    'words: for k in 0..words.len() {
        let word = words[k];
        marks[word.signal as usize] = true;
    }
    Ok(marks)
}

/// Whether the label of each signal without a mark is the constant 0.
fn are_zero(marks: &[bool], labels: &[u32]) -> bool
    ensures { IsTrue result → (s : ℕ) → s < length marks.now → (bit_at marks.now s ≡ true → ⊥) → label_at labels.now s ≡ 0 }
{
    'signals: for s in 0..marks.len() {
        if !marks[s] && s < labels.len() && labels[s] != 0 {
            return false;
        }
    }
    true
}

/// Whether each signal that nothing drives has the label of the constant 0.
pub fn have_zeros(alloc: Global, draft: &NetlistData, labels: &[u32]) -> Result<bool, AllocError>
    requires { (k : ℕ) → k < length (drive_words draft.now) → signal_at (drive_words draft.now) k < length draft.now.names }
    ensures { IfOk result (λ zeros. IsTrue zeros
        → (s : ℕ) → s < length draft.now.names → (IsDriven draft.now s → ⊥) → label_at labels.now s ≡ 0) }
{
    let words = drives_of(alloc, draft)?;
    let marks = marks_of(alloc, words.as_slice(), draft.names.len())?;
    Ok(are_zero(marks.as_slice(), labels))
}

/// Whether two lists of outputs have the same labels, in order.
pub fn have_same(
    first: &[PortDef],
    first_labels: &[u32],
    second: &[PortDef],
    second_labels: &[u32],
) -> bool
    ensures { IsTrue result → map (λ p. label_at first_labels.now p.signal) first.now
        ≡ map (λ p. label_at second_labels.now p.signal) second.now }
{
    if first.len() != second.len() {
        return false;
    }
    'outputs: for k in 0..first.len() {
        let one = label_at(first_labels, first[k].signal);
        let other = label_at(second_labels, second[k].signal);
        if one != other {
            return false;
        }
    }
    true
}
