//! Cuts that the design's own narrow covers are.

use crate::cuts::{Cut, cut_of_leaves};
use crate::numbers::at;
use crate::reach::Nodes;
use design_netlist::Cover;
use std::alloc::{AllocError, Global};

/// A cut of a node.
#[derive(Clone, Copy, Debug)]
pub struct Hint {
    pub node: u32,
    pub cut: Cut,
}

// The different nodes of a cover's inputs in order, constants left out, if they are at most six.
fn leaves_of(alloc: Global, ins: &[u32], labels: &[u32]) -> Result<Vec<u32>, AllocError> {
    let mut leaves = Vec::new(alloc);
    'inputs: for signal in ins {
        let label = at(labels, *signal as usize);
        if label > 1 {
            leaves.push(label >> 1)?;
        }
    }
    leaves.sort_unstable();
    leaves.dedup();
    Ok(leaves)
}

// The hint of a node by the leaves of its cover, if they are a cut of it.
fn hint_of(nodes: Nodes<'_>, node: u32, leaves: &[u32]) -> Option<Hint> {
    if !nodes.is_and(node as usize) || leaves.last().copied().unwrap_or(0) >= node {
        return None;
    }
    let cut = cut_of_leaves(leaves)?;
    Some(Hint { node, cut })
}

// Adds the hint of a cover, if it is one.
fn add_hint(
    alloc: Global,
    nodes: Nodes<'_>,
    cover: &Cover,
    labels: &[u32],
    hints: &mut Vec<Hint>,
) -> Result<(), AllocError> {
    let node = at(labels, cover.out as usize) >> 1;
    let leaves = leaves_of(alloc, cover.ins.as_slice(), labels)?;
    if let Some(hint) = hint_of(nodes, node, &leaves) {
        hints.push(hint)?;
    }
    Ok(())
}

/// The hints of a design's covers, by their nodes.
pub fn hints_of(
    alloc: Global,
    nodes: Nodes<'_>,
    covers: &[Cover],
    labels: &[u32],
) -> Result<Vec<Hint>, AllocError> {
    let mut hints = Vec::new(alloc);
    'covers: for cover in covers {
        add_hint(alloc, nodes, cover, labels, &mut hints)?;
    }
    hints.sort_by_key(|hint| hint.node)?;
    Ok(hints)
}
