//! The check of labels, and of two designs by their labels.

ghost use Rattle.std.specs.Prelude.{◌≡◌, ◌<◌, ℕ, length, IfOk, IsTrue};
ghost use Rattle.design_netlist.specs.Vocabulary.{IsChecked, cover_at, IsCoverOver};
ghost use Rattle.design_equal.specs.Graphs.{IsGraph};
ghost use Rattle.design_equal.specs.Labels.{IsLabelled, DoAgree};
ghost use Rattle.design_equal.specs.Plans.{IsMet};

use crate::cover::is_met;
use crate::graph::Graph;
use crate::nodes::{is_graph, node_count};
use crate::plan::Scratch;
use crate::ports::{are_within, have_inputs, have_latches, have_same, have_zeros};
use crate::wide::is_multiplied;
use design_netlist::{Cover, Netlist, NetlistData};
use std::alloc::{AllocError, Global};

/// Whether the label of the cover's output has its truth, by words or by products.
fn is_shown(
    alloc: Global,
    graph: &Graph,
    labels: &[u32],
    cover: &Cover,
    scratch: &mut Scratch,
    signals: &mut Vec<u64>,
) -> Result<bool, AllocError>
    requires { IsCoverOver cover.now (length signals.old.items) }
    ensures signals { length signals.new.items ≡ length signals.old.items }
    ensures met { IfOk result (λ met. IsTrue met → IsMet graph.now labels.now cover.now) }
{
    if is_met(alloc, graph, labels, cover, scratch, signals)? {
        return Ok(true);
    }
    if cover.ins.as_slice().len() <= 6 {
        return Ok(false);
    }
    is_multiplied(alloc, graph, labels, cover, scratch)
}

/// Whether all covers have their truths, whatever the graph's inputs and latches.
fn are_met(
    alloc: Global,
    graph: &Graph,
    labels: &[u32],
    covers: &[Cover],
    count: usize,
) -> Result<bool, AllocError>
    requires { (i : ℕ) → i < length covers.now → IsCoverOver (cover_at covers.now i) count }
    ensures { IfOk result (λ met. IsTrue met → (i : ℕ) → i < length covers.now → IsMet graph.now labels.now (cover_at covers.now i)) }
{
    let mut scratch = Scratch::new(alloc, node_count(graph))?;
    let mut signals = vec![in alloc; 0; count]?;
    'covers: for k in 0..covers.len() {
        if !is_shown(alloc, graph, labels, &covers[k], &mut scratch, &mut signals)? {
            return Ok(false);
        }
    }
    Ok(true)
}

/// The place of the first cover of which the comparison shows nothing, None where it shows all of them. It is for a search, which
/// can do without what can't be followed; nothing is promised of it.
///
/// # Errors
///
/// Where memory is lacking.
pub fn first_unshown(
    alloc: Global,
    graph: &Graph,
    netlist: &Netlist,
    labels: &[u32],
) -> Result<Option<u32>, AllocError> {
    let draft = netlist.parts();
    let covers = draft.covers.as_slice();
    let mut scratch = Scratch::new(alloc, node_count(graph))?;
    let mut signals = vec![in alloc; 0; draft.names.len()]?;
    'covers: for k in 0..covers.len() {
        if !is_shown(alloc, graph, labels, &covers[k], &mut scratch, &mut signals)? {
            return Ok(u32::try_from(k).ok());
        }
    }
    Ok(None)
}

/// Whether the design is labelled by lists that are a graph.
fn is_labelled_by(
    alloc: Global,
    graph: &Graph,
    draft: &NetlistData,
    labels: &[u32],
) -> Result<bool, AllocError>
    requires checked { IsChecked draft.now }
    requires graph { IsGraph graph.now }
    ensures { IfOk result (λ labelled. IsTrue labelled → IsLabelled graph.now draft.now labels.now) }
{
    let inputs = draft.inputs.as_slice();
    if labels.len() != draft.names.len() {
        return Ok(false);
    }
    if inputs.len() != graph.inputs as usize {
        return Ok(false);
    }
    if !are_within(labels, node_count(graph)) {
        return Ok(false);
    }
    if !have_inputs(inputs, labels) {
        return Ok(false);
    }
    if !have_latches(graph, labels, draft.latches.as_slice()) {
        return Ok(false);
    }
    if !have_zeros(alloc, draft, labels)? {
        return Ok(false);
    }
    are_met(
        alloc,
        graph,
        labels,
        draft.covers.as_slice(),
        draft.names.len(),
    )
}

/// Whether the design is labelled by the graph, with the k-th label at signal k: true says that it is, and false nothing.
///
/// # Errors
///
/// Where memory is lacking.
pub fn is_labelled(
    alloc: Global,
    graph: &Graph,
    netlist: &Netlist,
    labels: &[u32],
) -> Result<bool, AllocError>
    ensures { IfOk result (λ labelled. IsTrue labelled → IsLabelled graph.now netlist.now labels.now) }
{
    if !is_graph(graph) {
        return Ok(false);
    }
    is_labelled_by(alloc, graph, netlist.parts(), labels)
}

/// Whether both designs are labelled by the graph, with the k-th of their labels at signal k, and the labels of their outputs, in
/// order, are the same list: true says that they are, so both have the same rows (`laws::labelled_alike`), and false nothing.
///
/// # Errors
///
/// Where memory is lacking.
pub fn agree(
    alloc: Global,
    graph: &Graph,
    first: &Netlist,
    first_labels: &[u32],
    second: &Netlist,
    second_labels: &[u32],
) -> Result<bool, AllocError>
    ensures { IfOk result (λ alike. IsTrue alike → DoAgree graph.now first.now first_labels.now second.now second_labels.now) }
{
    let first_outputs = first.parts().outputs.as_slice();
    let second_outputs = second.parts().outputs.as_slice();
    if !have_same(first_outputs, first_labels, second_outputs, second_labels) {
        return Ok(false);
    }
    if !is_labelled(alloc, graph, first, first_labels)? {
        return Ok(false);
    }
    is_labelled(alloc, graph, second, second_labels)
}
