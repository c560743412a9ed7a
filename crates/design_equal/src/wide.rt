//! Wide covers whose output's label has the rows, multiplied out.

ghost use Rattle.std.specs.Prelude.{◌≡◌, ◌<◌, ℕ, Bool, [], length, IfOk, IsTrue, slice_index_or};
ghost use Rattle.design_equal.specs.Plans.{IsMet};
ghost use Rattle.design_equal.specs.Products.{some_holds};

use crate::expand::expand_literal;
use crate::graph::Graph;
use crate::plan::Scratch;
use crate::products::{Product, are_among, rows_sum, turned_if};
use crate::steps::label_at;
use design_netlist::Cover;
use std::alloc::{AllocError, Global};
use std::collections::HashMap;

/// How many steps are taken for each literal of the rows, and besides.
const STEPS: u64 = 40;

const FIRST_STEPS: u64 = 1_000;

/// The last place of each product of a sum.
fn last_places<'a>(
    alloc: Global,
    sum: &'a [Product],
) -> Result<HashMap<&'a [u32], usize>, AllocError> {
    let mut places = HashMap::new(alloc);
    'products: for k in 0..sum.len() {
        let _ = places.insert(sum[k].as_slice(), k)?;
    }
    Ok(places)
}

/// Where the products of a sum stand in another. Nothing is promised of it: `are_among` looks.
fn places_in(
    alloc: Global,
    first: &[Product],
    second: &[Product],
) -> Result<Vec<usize>, AllocError> {
    let known = last_places(alloc, second)?;
    let mut places = Vec::new(alloc);
    'products: for k in 0..first.len() {
        let place = known.get(first[k].as_slice()).copied();
        places.push(place.unwrap_or(usize::MAX))?;
    }
    Ok(places)
}

/// Whether two sums have the same products.
fn are_same(alloc: Global, first: &[Product], second: &[Product]) -> Result<bool, AllocError>
    ensures { IfOk result (λ same. IsTrue same → (bits : ℕ → Bool) → some_holds bits first.now ≡ some_holds bits second.now) }
{
    let there = places_in(alloc, first, second)?;
    let back = places_in(alloc, second, first)?;
    if !are_among(first, second, there.as_slice()) {
        return Ok(false);
    }
    Ok(are_among(second, first, back.as_slice()))
}

/// How many steps the rows allow.
fn steps_for(cover: &Cover) -> u64 {
    let rows = cover.rows.as_slice();
    let mut steps = FIRST_STEPS;
    'rows: for k in 0..rows.len() {
        let literals = (rows[k].as_slice().len() as u64).saturating_add(1);
        steps = steps.saturating_add(literals.saturating_mul(STEPS));
    }
    steps
}

/// Marks the labels of the inputs.
fn mark_leaves(leaves: &mut Scratch, ins: &[u32], labels: &[u32]) {
    leaves.begin();
    leaves.put(0, 0);
    'ins: for k in 0..ins.len() {
        leaves.put(label_at(labels, ins[k]) / 2, 0);
    }
}

/// Whether the label of the cover's output has its truth for the bits of its inputs' labels, whatever the graph's inputs and
/// latches: the label multiplied out has the products of the rows, and no others.
pub fn is_multiplied(
    alloc: Global,
    graph: &Graph,
    labels: &[u32],
    cover: &Cover,
    leaves: &mut Scratch,
) -> Result<bool, AllocError>
    requires { (k : ℕ) → k < length cover.now.rows → length (slice_index_or cover.now.rows k []) ≡ length cover.now.ins }
    ensures { IfOk result (λ met. IsTrue met → IsMet graph.now labels.now cover.now) }
{
    let ins = cover.ins.as_slice();
    mark_leaves(leaves, ins, labels);
    let rows = rows_sum(alloc, cover.rows.as_slice(), ins, labels)?;
    let root = turned_if(label_at(labels, cover.out), cover.off);
    let Some(sum) = expand_literal(alloc, graph, leaves, root, steps_for(cover))? else {
        return Ok(false);
    };
    are_same(alloc, sum.as_slice(), rows.as_slice())
}
