//! What a sweep has at hand: the purse, the search and the choice, with where they stand; and for tables those that may be tested.
ghost use Rattle.std.specs.Prelude.{◌≡◌, IfOk};

use crate::budget::LoadBudget;
use crate::held::{HeldForest, bare_forest};
use crate::informing::new_search;
use crate::knowledge::Knowledge;
use diag_known::Field;
use diag_search::{Aim, Chooser, Search};
use machine_shape::{Shape, Table};
use std::alloc::{AllocError, Global};

/// What a sweep has at hand.
#[derive(Drop)]
pub(crate) struct SweepState {
    pub budget: LoadBudget,
    pub search: Search,
    pub held: HeldForest,
    pub chooser: Chooser,
    // What looks are taken for.
    pub aim: Aim,
    // Whether wires are hung on any known ones, or on lower ones alone; and the depth of the crossbars through which walks lead.
    pub on_any: bool,
    pub depth: u32,
    // Whether nothing has come of the last pass, so that loads are made whatever they bring.
    pub spends: bool,
}

/// The same before a search has begun.
pub(crate) fn bare_state(
    alloc: Global,
    shape: &Shape,
    budget: LoadBudget,
    aim: Aim,
) -> Result<SweepState, AllocError>
    ensures { IfOk result (λ state. state.budget ≡ budget) }
{
    let chooser = Chooser::new(alloc, shape)?;
    let held = bare_forest(alloc, shape)?;
    Ok(SweepState {
        budget,
        search: Search::bare(alloc, shape),
        held,
        chooser,
        aim,
        on_any: false,
        depth: 0,
        spends: false,
    })
}

/// What a sweep has at hand before its first load.
pub(crate) fn first_state(
    knowledge: &Knowledge,
    field: &Field,
    budget: LoadBudget,
    aim: Aim,
) -> Result<SweepState, AllocError>
    ensures { IfOk result (λ state. state.budget ≡ budget) }
{
    let alloc = knowledge.verified.alloc();
    let mut state = bare_state(alloc, &knowledge.facts.shape(), budget, aim)?;
    state.search = new_search(alloc, knowledge, field)?;
    Ok(state)
}

/// The same, and the tables that may be tested.
#[derive(Drop)]
pub(crate) struct TableSweep {
    pub state: SweepState,
    pub tables: Vec<Table>,
}
