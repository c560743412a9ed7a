//! Loads of walks: looked at, paid for, and made.
ghost use Rattle.std.specs.Prelude.{◌≡◌, [], true, Some, IsErrOf, OnOk, length};
ghost use Rattle.base_io.specs.Counts.{Rose};
ghost use Rattle.machine_shape.specs.Shape.{crosses_of};
ghost use Rattle.rig.specs.Rig.{shape_of};
ghost use Rattle.diag_evidence.specs.Kept.{Advances};
ghost use Rattle.diag_evidence.specs.Forests.{KeepsForest};
ghost use Rattle.diag_sweep.specs.Marks.{AreMarksFor};
ghost use Rattle.diag_sweep.specs.Stages.{Goes, IsHand, Settles, hand_of, in_hand};

use crate::branching::{course_of, plant_ends};
use crate::budget::LoadBudget;
use crate::defect_marks::DefectMarks;
use crate::held::{begin_held, forget_where, hold};
use crate::informing::note_walks;
use crate::knowledge::Knowledge;
use crate::sweep_state::SweepState;
use diag_evidence::Facts;
use diag_known::{Field, Known};
use diag_search::{Trial, Walk};
use rig::{Rig, RigFail};

/// More loads of walks than a field takes.
const MOST_LOADS: u32 = 10_000_000;

/// How often the crossbars of a depth are gone through.
const MOST_ROUNDS: u32 = 4;

/// How many depths there are: of the root, of modules, of chips and of hextants.
const DEPTHS: u32 = 4;

// Leads the walks that the search has chosen, if they may be led together and it can be paid.
fn lead_load(
    rig: &mut Box<dyn Rig>,
    facts: &mut Facts,
    known: &Known,
    bad: &mut DefectMarks,
    field: &Field,
    state: &SweepState,
) -> Result<(), RigFail>
    requires attached { shape_of (rig_state rig.old) ≡ Some facts.old.shape }
    requires hand { IsHand field.now (in_hand facts.old known.now bad.old state.now.budget (rig_state rig.old).loads) }
    requires forest { KeepsForest facts.old state.now.held.forest }
    ensures goes { Goes (rig_state rig.new) field.now [] (in_hand facts.old known.now bad.old state.now.budget (rig_state rig.old).loads)
        (in_hand facts.new known.now bad.new state.now.budget (rig_state rig.new).loads) }
    ensures advances { Advances (rig_state rig.old) (rig_state rig.new) facts.old facts.new }
    ensures cause { IsErrOf result RigFail.Failed → Rose (rig_state rig.old).failures (rig_state rig.new).failures }
{
    let forest = &state.held.forest;
    let trials = &state.search.walking.trials;
    let Ok(found) = course_of(facts, known, field, forest, trials) else {
        return Err(RigFail::Memory);
    };
    let Some(leads) = found else {
        return Ok(());
    };
    if !state.budget.can_pay(rig, 1) {
        return Ok(());
    }
    facts.test_paths(rig, forest, &leads, &mut bad.stuck)
}

// Takes loads in for the crosspoints of a walk that were undecided and aren't any more.
fn settle_walk(budget: &mut LoadBudget, facts: &Facts, bad: &DefectMarks, walk: &Walk)
    requires budget { length budget.old.unsettled ≡ crosses_of facts.now.shape }
    requires marks { AreMarksFor facts.now.shape bad.now }
    ensures { Settles facts.now bad.now budget.old budget.new }
{
    'crosses: for k in 0..walk.crosses.len() {
        budget.settle(facts, bad, walk.crosses[k]);
    }
}

// Takes loads in for the crosspoints of walks that were undecided and aren't any more.
fn settle_walks(budget: &mut LoadBudget, facts: &Facts, bad: &DefectMarks, trials: &Vec<Trial>)
    requires budget { length budget.old.unsettled ≡ crosses_of facts.now.shape }
    requires marks { AreMarksFor facts.now.shape bad.now }
    ensures { Settles facts.now bad.now budget.old budget.new }
{
    'trials: for at in 0..trials.len() {
        settle_walk(budget, facts, bad, &trials[at].walk);
    }
}

// Leads some walks in one load, if some are found and it can be paid. False where not.
fn lead_turn(
    rig: &mut Box<dyn Rig>,
    facts: &mut Facts,
    known: &Known,
    bad: &mut DefectMarks,
    field: &Field,
    state: &mut SweepState,
) -> Result<bool, RigFail>
    requires attached { shape_of (rig_state rig.old) ≡ Some facts.old.shape }
    requires hand { IsHand field.now (in_hand facts.old known.now bad.old state.old.budget (rig_state rig.old).loads) }
    requires forest { KeepsForest facts.old state.old.held.forest }
    ensures goes { Goes (rig_state rig.new) field.now [] (in_hand facts.old known.now bad.old state.old.budget (rig_state rig.old).loads)
        (in_hand facts.new known.now bad.new state.new.budget (rig_state rig.new).loads) }
    ensures forest { OnOk result (KeepsForest facts.new state.new.held.forest) }
    ensures advances { Advances (rig_state rig.old) (rig_state rig.new) facts.old facts.new }
    ensures cause { IsErrOf result RigFail.Failed → Rose (rig_state rig.old).failures (rig_state rig.new).failures }
{
    let Ok(more) = state.search.choose_walks() else {
        return Err(RigFail::Memory);
    };
    if !more {
        return Ok(false);
    }
    let Ok(()) = hold(&mut state.held, known.alloc(), facts, &state.search.forest) else {
        return Err(RigFail::Memory);
    };
    let planted = plant_ends(&mut state.held.forest, facts, &state.search.walking.trials);
    let before = rig.loads();
    lead_load(rig, facts, known, bad, field, state)?;
    // Pins are planted for the walks of one load: the next ones may lead over them.
    forget_where(&mut state.held, planted);
    settle_walks(&mut state.budget, facts, bad, &state.search.walking.trials);
    if rig.loads() == before {
        return Ok(false);
    }
    let Ok(()) = note_walks(&mut state.search, facts, &bad.stuck) else {
        return Err(RigFail::Memory);
    };
    Ok(true)
}

// Leads walks through the crossbars of a depth, until no more are found or can be paid.
#[tactic(auto, using(crate::proofs::Holding::held_none))]
fn lead_depth(
    rig: &mut Box<dyn Rig>,
    facts: &mut Facts,
    known: &Known,
    bad: &mut DefectMarks,
    field: &Field,
    state: &mut SweepState,
) -> Result<(), RigFail>
    requires attached { shape_of (rig_state rig.old) ≡ Some facts.old.shape }
    requires hand { IsHand field.now (in_hand facts.old known.now bad.old state.old.budget (rig_state rig.old).loads) }
    ensures goes { Goes (rig_state rig.new) field.now [] (in_hand facts.old known.now bad.old state.old.budget (rig_state rig.old).loads)
        (in_hand facts.new known.now bad.new state.new.budget (rig_state rig.new).loads) }
    ensures advances { Advances (rig_state rig.old) (rig_state rig.new) facts.old facts.new }
    ensures cause { IsErrOf result RigFail.Failed → Rose (rig_state rig.old).failures (rig_state rig.new).failures }
{
    let Ok(()) = state.search.begin_walks(state.depth) else {
        return Err(RigFail::Memory);
    };
    let Ok(()) = begin_held(&mut state.held, known.alloc(), facts, &state.search.forest) else {
        return Err(RigFail::Memory);
    };
    'loads: for _load in 0..MOST_LOADS {
        if !lead_turn(rig, facts, known, bad, field, state)? {
            return Ok(());
        }
    }
    Ok(())
}

// The same once more, as long as some were given up, a few times.
#[tactic(auto, using(crate::proofs::Going::gone_none))]
fn lead_rounds(
    rig: &mut Box<dyn Rig>,
    facts: &mut Facts,
    known: &Known,
    bad: &mut DefectMarks,
    field: &Field,
    state: &mut SweepState,
) -> Result<(), RigFail>
    requires attached { shape_of (rig_state rig.old) ≡ Some facts.old.shape }
    requires hand { IsHand field.now (in_hand facts.old known.now bad.old state.old.budget (rig_state rig.old).loads) }
    ensures goes { Goes (rig_state rig.new) field.now [] (in_hand facts.old known.now bad.old state.old.budget (rig_state rig.old).loads)
        (in_hand facts.new known.now bad.new state.new.budget (rig_state rig.new).loads) }
    ensures advances { Advances (rig_state rig.old) (rig_state rig.new) facts.old facts.new }
    ensures cause { IsErrOf result RigFail.Failed → Rose (rig_state rig.old).failures (rig_state rig.new).failures }
{
    'rounds: for _round in 0..MOST_ROUNDS {
        lead_depth(rig, facts, known, bad, field, state)?;
        if !state.search.has_given_up() {
            return Ok(());
        }
    }
    Ok(())
}

/// Leads walks through all crossbars, those of the root first. Behind each depth the forest is drawn anew, so that trees are even.
#[tactic(auto, using(crate::proofs::Going::gone_none))]
pub(crate) fn lead_all(
    rig: &mut Box<dyn Rig>,
    knowledge: &mut Knowledge,
    field: &Field,
    state: &mut SweepState,
) -> Result<(), RigFail>
    requires attached { shape_of (rig_state rig.old) ≡ Some knowledge.old.facts.shape }
    requires hand { IsHand field.now (hand_of knowledge.old state.old.budget (rig_state rig.old).loads) }
    ensures goes { Goes (rig_state rig.new) field.now [] (hand_of knowledge.old state.old.budget (rig_state rig.old).loads)
        (hand_of knowledge.new state.new.budget (rig_state rig.new).loads) }
    ensures advances { Advances (rig_state rig.old) (rig_state rig.new) knowledge.old.facts knowledge.new.facts }
    ensures cause { IsErrOf result RigFail.Failed → Rose (rig_state rig.old).failures (rig_state rig.new).failures }
{
    'depths: for depth in 0..DEPTHS {
        state.depth = depth;
        lead_rounds(
            rig,
            &mut knowledge.facts,
            &knowledge.verified,
            &mut knowledge.marks,
            field,
            state,
        )?;
        let Ok(()) = state.search.plant() else {
            return Err(RigFail::Memory);
        };
    }
    Ok(())
}
