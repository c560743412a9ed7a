//! The forest that stays from load to load.
ghost use Rattle.std.specs.Prelude.{◌≡◌, ◌<◌, ℕ, true, Some, IfOk, IsTrue, OnOk, length, slice_get};
ghost use Rattle.machine_config.specs.Vocabulary.{among};
ghost use Rattle.diag_tests.specs.Routes.{cross_numbers};
ghost use Rattle.diag_evidence.specs.Kept.{keeps_cross};
ghost use Rattle.diag_evidence.specs.Forests.{KeepsForest};

use crate::asking::keeps;
use crate::trees::lay_links;
use diag_evidence::{Facts, Forest};
use diag_search::PlannedForest;
use machine_shape::{Cross, Shape};
use std::alloc::{AllocError, Global};

/// What the search has linked, as far as it was laid.
#[derive(Drop)]
pub(crate) struct HeldForest {
    pub forest: Forest,
    // How many links were laid, and how often the search had drawn its forest anew by then.
    laid: usize,
    round: u64,
}

/// Nothing is laid.
pub(crate) fn bare_forest(alloc: Global, shape: &Shape) -> Result<HeldForest, AllocError> {
    let forest = Forest::new(alloc, shape)?;
    Ok(HeldForest {
        forest,
        laid: 0,
        round: 0,
    })
}

/// All is laid anew for the next load, as another search has linked it: one that has drawn its forest at least once.
pub(crate) fn forget(held: &mut HeldForest)
    ensures { held.new.forest ≡ held.old.forest }
{
    held.round = 0;
}

/// The same, where something was planted besides.
pub(crate) fn forget_where(held: &mut HeldForest, planted: bool)
    ensures { held.new.forest ≡ held.old.forest }
{
    if planted {
        forget(held);
    }
}

// A crosspoint at a place.
fn cross_at(crosses: &[Cross], place: usize) -> Cross
    requires { place < length crosses.now }
    ensures { slice_get crosses.now place ≡ Some result }
{
    crosses[place]
}

// Whether crosspoints are kept.
fn are_kept(facts: &Facts, crosses: &[Cross]) -> bool
    ensures { IsTrue result → (x : ℕ) → among (cross_numbers crosses.now) x ≡ true → keeps_cross facts.now x ≡ true }
{
    'crosses: for k in 0..crosses.len() {
        let cross = cross_at(crosses, k);
        if !keeps(facts, cross) {
            return false;
        }
    }
    true
}

// Whether two shapes are one: their counts are.
fn is_same(one: &Shape, other: &Shape) -> bool
    ensures { IsTrue result → one.now ≡ other.now }
{
    one.counts == other.counts
}

// Whether a forest is one of this shape.
fn is_of(forest: &Forest, shape: &Shape) -> bool
    ensures { IsTrue result → forest.now.shape ≡ shape.now }
{
    let own = forest.shape();
    is_same(&own, shape)
}

// Whether a forest is of the machine, and its crosspoints are kept.
fn is_kept(facts: &Facts, forest: &Forest) -> bool
    ensures { IsTrue result → KeepsForest facts.now forest.now }
{
    if !is_of(forest, &facts.shape()) {
        return false;
    }
    are_kept(facts, forest.crosses())
}

// Nothing is laid any more: the next load lays all of the search's forest, as it is drawn now.
fn start_anew(
    held: &mut HeldForest,
    alloc: Global,
    facts: &Facts,
    round: u64,
) -> Result<(), AllocError>
    ensures { OnOk result (KeepsForest facts.now held.new.forest) }
{
    held.forest = Forest::new(alloc, &facts.shape())?;
    held.laid = 0;
    held.round = round;
    Ok(())
}

/// Looks once for many loads whether what is held is kept, as facts only grow from one to the next. Nothing is laid any more where it
/// isn't, or the search has drawn its forest anew.
pub(crate) fn begin_held(
    held: &mut HeldForest,
    alloc: Global,
    facts: &Facts,
    planned: &PlannedForest,
) -> Result<(), AllocError>
    ensures { OnOk result (KeepsForest facts.now held.new.forest) }
{
    if held.round == planned.round && is_kept(facts, &held.forest) {
        return Ok(());
    }
    start_anew(held, alloc, facts, planned.round)
}

// Nothing is laid any more, where the search has drawn its forest anew.
fn begin_round(
    held: &mut HeldForest,
    alloc: Global,
    facts: &Facts,
    round: u64,
) -> Result<(), AllocError>
    requires { KeepsForest facts.now held.old.forest }
    ensures { OnOk result (KeepsForest facts.now held.new.forest) }
{
    if held.round == round {
        return Ok(());
    }
    start_anew(held, alloc, facts, round)
}

/// Lays what the search has linked since the last load, and all of it where it has drawn its forest anew.
pub(crate) fn hold(
    held: &mut HeldForest,
    alloc: Global,
    facts: &Facts,
    planned: &PlannedForest,
) -> Result<(), AllocError>
    requires { KeepsForest facts.now held.old.forest }
    ensures { OnOk result (KeepsForest facts.now held.new.forest) }
{
    begin_round(held, alloc, facts, planned.round)?;
    lay_links(&mut held.forest, facts, &planned.links, held.laid)?;
    held.laid = planned.links.len();
    Ok(())
}
