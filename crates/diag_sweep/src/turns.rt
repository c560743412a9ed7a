//! One load after the other.
ghost use Rattle.std.specs.Prelude.{◌≡◌, [], Some, IsErrOf, OnOk, length};
ghost use Rattle.base_io.specs.Counts.{Rose};
ghost use Rattle.machine_shape.specs.Shape.{crosses_of};
ghost use Rattle.rig.specs.Rig.{shape_of};
ghost use Rattle.diag_evidence.specs.Kept.{Advances};
ghost use Rattle.diag_evidence.specs.Forests.{KeepsForest};
ghost use Rattle.diag_sweep.specs.Marks.{AreMarksFor};
ghost use Rattle.diag_sweep.specs.Stages.{Goes, GoesYet, IsHand, Settles, hand_of};

use crate::asking::knows;
use crate::budget::LoadBudget;
use crate::hanging::{hang_load, pin_load};
use crate::held::begin_held;
use crate::informing::{note_hangs, note_known};
use crate::knowledge::Knowledge;
use crate::leading::lead_all;
use crate::learn::{learn_hangs, learn_pins};
use crate::sweep_state::SweepState;
use crate::telling::tell_all;
use diag_evidence::Facts;
use diag_known::{Field, Known};
use diag_search::{Aim, ChosenTest};
use machine_shape::Pin;
use rig::{Rig, RigFail};

/// More loads than the wires of one height take.
const MOST_LOADS: u32 = 1_000_000;

/// With how many loads left at least crosspoints are tested behind each height: with few pins walks bring more than hangs.
const LEAST_LOADS: u64 = 56;

/// How many loads of hangs may be made for a wire where few are left; and in the first pass else.
const POOR_LOADS: u64 = 2;

const FIRST_LOADS: u64 = 8;

/// The greatest height of a wire: the pins of tables of the deepest level.
const MOST_HEIGHT: u32 = 8;

/// More passes than a field takes.
const MOST_PASSES: u32 = 1_000_000;

/// How often what is left behind all passes is looked for.
const LEFT_ROUNDS: u32 = 5;

// Looks at the pins of the machine. Those that can be known are.
fn pin_test(
    rig: &mut Box<dyn Rig>,
    knowledge: &mut Knowledge,
    field: &Field,
    state: &mut SweepState,
) -> Result<(), RigFail>
    requires attached { shape_of (rig_state rig.old) ≡ Some knowledge.old.facts.shape }
    requires hand { IsHand field.now (hand_of knowledge.old state.old.budget (rig_state rig.old).loads) }
    ensures goes { GoesYet (rig_state rig.new) field.now [] (hand_of knowledge.old state.old.budget (rig_state rig.old).loads)
        (hand_of knowledge.new state.new.budget (rig_state rig.new).loads) }
    ensures advances { Advances (rig_state rig.old) (rig_state rig.new) knowledge.old.facts knowledge.new.facts }
    ensures cause { IsErrOf result RigFail.Failed → Rose (rig_state rig.old).failures (rig_state rig.new).failures }
{
    let before = knowledge.verified.len();
    pin_load(
        rig,
        &mut knowledge.facts,
        &knowledge.verified,
        &knowledge.marks,
        field,
        state,
    )?;
    let Ok(()) = learn_pins(&mut knowledge.verified, &knowledge.facts, field) else {
        return Err(RigFail::Memory);
    };
    let Ok(()) = note_known(&mut state.search, &knowledge.verified, before) else {
        return Err(RigFail::Memory);
    };
    Ok(())
}

// The same, and what joined the set and isn't known leaves it.
fn pin_turn(
    rig: &mut Box<dyn Rig>,
    knowledge: &mut Knowledge,
    field: &Field,
    state: &mut SweepState,
) -> Result<(), RigFail>
    requires attached { shape_of (rig_state rig.old) ≡ Some knowledge.old.facts.shape }
    requires hand { IsHand field.now (hand_of knowledge.old state.old.budget (rig_state rig.old).loads) }
    ensures goes { Goes (rig_state rig.new) field.now [] (hand_of knowledge.old state.old.budget (rig_state rig.old).loads)
        (hand_of knowledge.new state.new.budget (rig_state rig.new).loads) }
    ensures advances { Advances (rig_state rig.old) (rig_state rig.new) knowledge.old.facts knowledge.new.facts }
    ensures cause { IsErrOf result RigFail.Failed → Rose (rig_state rig.old).failures (rig_state rig.new).failures }
{
    let tested = pin_test(rig, knowledge, field, state);
    knowledge.facts.retake(knowledge.verified.wires());
    tested
}

// Takes loads in for those crosspoints of hangs that were undecided and aren't any more.
fn settle_hangs(budget: &mut LoadBudget, knowledge: &Knowledge, hangs: &Vec<ChosenTest>)
    requires budget { length budget.old.unsettled ≡ crosses_of knowledge.now.facts.shape }
    requires marks { AreMarksFor knowledge.now.facts.shape knowledge.now.marks }
    ensures { Settles knowledge.now.facts knowledge.now.marks budget.old budget.new }
{
    'hangs: for k in 0..hangs.len() {
        budget.settle(&knowledge.facts, &knowledge.marks, hangs[k].first.cross);
        budget.settle(&knowledge.facts, &knowledge.marks, hangs[k].second.cross);
    }
}

// How many loads of hangs are made at most for a wire that comes to be known, as it seems: few where few are left, and in the first pass,
// as later more wires hang together.
fn loads_for_wire(rig: &Box<dyn Rig>, facts: &Facts, state: &SweepState) -> u64 {
    if state.spends {
        return u64::MAX;
    }
    if state.budget.is_low(rig, facts, 0) {
        return POOR_LOADS;
    }
    if state.on_any {
        return u64::MAX;
    }
    FIRST_LOADS
}

// Tests some of the wires that are to be hung in one load, if some are found and it can be paid. False where not.
fn hang_test(
    rig: &mut Box<dyn Rig>,
    knowledge: &mut Knowledge,
    field: &Field,
    state: &mut SweepState,
) -> Result<bool, RigFail>
    requires attached { shape_of (rig_state rig.old) ≡ Some knowledge.old.facts.shape }
    requires hand { IsHand field.now (hand_of knowledge.old state.old.budget (rig_state rig.old).loads) }
    requires forest { KeepsForest knowledge.old.facts state.old.held.forest }
    ensures goes { GoesYet (rig_state rig.new) field.now [] (hand_of knowledge.old state.old.budget (rig_state rig.old).loads)
        (hand_of knowledge.new state.new.budget (rig_state rig.new).loads) }
    ensures forest { OnOk result (KeepsForest knowledge.new.facts state.new.held.forest) }
    ensures advances { Advances (rig_state rig.old) (rig_state rig.new) knowledge.old.facts knowledge.new.facts }
    ensures cause { IsErrOf result RigFail.Failed → Rose (rig_state rig.old).failures (rig_state rig.new).failures }
{
    let before = knowledge.verified.len();
    let Ok(()) = state.search.choose_hangs(&knowledge.marks.unfit) else {
        return Err(RigFail::Memory);
    };
    let loads = loads_for_wire(rig, &knowledge.facts, state);
    state.search.save_load(loads);
    if state.search.hanging.chosen.is_empty() || !state.budget.can_pay(rig, 3) {
        return Ok(false);
    }
    hang_load(
        rig,
        &mut knowledge.facts,
        &knowledge.verified,
        &mut knowledge.marks,
        field,
        state,
    )?;
    settle_hangs(&mut state.budget, knowledge, &state.search.hanging.chosen);
    let Ok(()) = learn_hangs(
        &mut knowledge.verified,
        &knowledge.facts,
        field,
        &state.search.hanging.chosen,
    ) else {
        return Err(RigFail::Memory);
    };
    let Ok(()) = note_hangs(&mut state.search, knowledge, before) else {
        return Err(RigFail::Memory);
    };
    Ok(true)
}

// The same, and what joined the set and isn't known leaves it.
fn hang_turn(
    rig: &mut Box<dyn Rig>,
    knowledge: &mut Knowledge,
    field: &Field,
    state: &mut SweepState,
) -> Result<bool, RigFail>
    requires attached { shape_of (rig_state rig.old) ≡ Some knowledge.old.facts.shape }
    requires hand { IsHand field.now (hand_of knowledge.old state.old.budget (rig_state rig.old).loads) }
    requires forest { KeepsForest knowledge.old.facts state.old.held.forest }
    ensures goes { Goes (rig_state rig.new) field.now [] (hand_of knowledge.old state.old.budget (rig_state rig.old).loads)
        (hand_of knowledge.new state.new.budget (rig_state rig.new).loads) }
    ensures forest { OnOk result (KeepsForest knowledge.new.facts state.new.held.forest) }
    ensures advances { Advances (rig_state rig.old) (rig_state rig.new) knowledge.old.facts knowledge.new.facts }
    ensures cause { IsErrOf result RigFail.Failed → Rose (rig_state rig.old).failures (rig_state rig.new).failures }
{
    let tested = hang_test(rig, knowledge, field, state);
    knowledge.facts.retake(knowledge.verified.wires());
    tested
}

// Tests the wires that are to be hung until none is found, or it can't be paid.
#[tactic(auto, using(crate::proofs::Holding::held_none))]
fn hang_wanted(
    rig: &mut Box<dyn Rig>,
    knowledge: &mut Knowledge,
    field: &Field,
    state: &mut SweepState,
) -> Result<(), RigFail>
    requires attached { shape_of (rig_state rig.old) ≡ Some knowledge.old.facts.shape }
    requires hand { IsHand field.now (hand_of knowledge.old state.old.budget (rig_state rig.old).loads) }
    ensures goes { Goes (rig_state rig.new) field.now [] (hand_of knowledge.old state.old.budget (rig_state rig.old).loads)
        (hand_of knowledge.new state.new.budget (rig_state rig.new).loads) }
    ensures advances { Advances (rig_state rig.old) (rig_state rig.new) knowledge.old.facts knowledge.new.facts }
    ensures cause { IsErrOf result RigFail.Failed → Rose (rig_state rig.old).failures (rig_state rig.new).failures }
{
    let Ok(()) = begin_held(
        &mut state.held,
        knowledge.verified.alloc(),
        &knowledge.facts,
        &state.search.forest,
    ) else {
        return Err(RigFail::Memory);
    };
    'loads: for _load in 0..MOST_LOADS {
        if !hang_turn(rig, knowledge, field, state)? {
            return Ok(());
        }
    }
    Ok(())
}

// Tests crosspoints between known wires, where few loads are left: each takes two in, and hangs take more than they bring where most of
// the crosspoints are stuck. So where wires of one height hang on few trees, as feet are drawn anew behind it.
fn refill(
    rig: &mut Box<dyn Rig>,
    knowledge: &mut Knowledge,
    field: &Field,
    state: &mut SweepState,
) -> Result<(), RigFail>
    requires attached { shape_of (rig_state rig.old) ≡ Some knowledge.old.facts.shape }
    requires hand { IsHand field.now (hand_of knowledge.old state.old.budget (rig_state rig.old).loads) }
    ensures goes { Goes (rig_state rig.new) field.now [] (hand_of knowledge.old state.old.budget (rig_state rig.old).loads)
        (hand_of knowledge.new state.new.budget (rig_state rig.new).loads) }
    ensures advances { Advances (rig_state rig.old) (rig_state rig.new) knowledge.old.facts knowledge.new.facts }
    ensures cause { IsErrOf result RigFail.Failed → Rose (rig_state rig.old).failures (rig_state rig.new).failures }
{
    if !state.search.is_crowded() && !state.budget.is_low(rig, &knowledge.facts, LEAST_LOADS) {
        return Ok(());
    }
    lead_all(rig, knowledge, field, state)
}

// Tests the wires that are to be hung, and then crosspoints, where few loads are left.
fn sweep_height(
    rig: &mut Box<dyn Rig>,
    knowledge: &mut Knowledge,
    field: &Field,
    state: &mut SweepState,
) -> Result<(), RigFail>
    requires attached { shape_of (rig_state rig.old) ≡ Some knowledge.old.facts.shape }
    requires hand { IsHand field.now (hand_of knowledge.old state.old.budget (rig_state rig.old).loads) }
    ensures goes { Goes (rig_state rig.new) field.now [] (hand_of knowledge.old state.old.budget (rig_state rig.old).loads)
        (hand_of knowledge.new state.new.budget (rig_state rig.new).loads) }
    ensures advances { Advances (rig_state rig.old) (rig_state rig.new) knowledge.old.facts knowledge.new.facts }
    ensures cause { IsErrOf result RigFail.Failed → Rose (rig_state rig.old).failures (rig_state rig.new).failures }
{
    hang_wanted(rig, knowledge, field, state)?;
    refill(rig, knowledge, field, state)
}

// Tests the wires of each height once more.
#[tactic(auto, using(crate::proofs::Going::gone_none))]
fn sweep_heights(
    rig: &mut Box<dyn Rig>,
    knowledge: &mut Knowledge,
    field: &Field,
    state: &mut SweepState,
) -> Result<(), RigFail>
    requires attached { shape_of (rig_state rig.old) ≡ Some knowledge.old.facts.shape }
    requires hand { IsHand field.now (hand_of knowledge.old state.old.budget (rig_state rig.old).loads) }
    ensures goes { Goes (rig_state rig.new) field.now [] (hand_of knowledge.old state.old.budget (rig_state rig.old).loads)
        (hand_of knowledge.new state.new.budget (rig_state rig.new).loads) }
    ensures advances { Advances (rig_state rig.old) (rig_state rig.new) knowledge.old.facts knowledge.new.facts }
    ensures cause { IsErrOf result RigFail.Failed → Rose (rig_state rig.old).failures (rig_state rig.new).failures }
{
    'heights: for height in 1..=MOST_HEIGHT {
        let Ok(()) = state
            .search
            .want_height(&knowledge.marks.unfit, height, state.on_any)
        else {
            return Err(RigFail::Memory);
        };
        sweep_height(rig, knowledge, field, state)?;
    }
    Ok(())
}

// Looks for wires that are unfit, and then tests those of each height.
fn sweep_pass(
    rig: &mut Box<dyn Rig>,
    knowledge: &mut Knowledge,
    field: &Field,
    state: &mut SweepState,
) -> Result<(), RigFail>
    requires attached { shape_of (rig_state rig.old) ≡ Some knowledge.old.facts.shape }
    requires hand { IsHand field.now (hand_of knowledge.old state.old.budget (rig_state rig.old).loads) }
    ensures goes { Goes (rig_state rig.new) field.now [] (hand_of knowledge.old state.old.budget (rig_state rig.old).loads)
        (hand_of knowledge.new state.new.budget (rig_state rig.new).loads) }
    ensures advances { Advances (rig_state rig.old) (rig_state rig.new) knowledge.old.facts knowledge.new.facts }
    ensures cause { IsErrOf result RigFail.Failed → Rose (rig_state rig.old).failures (rig_state rig.new).failures }
{
    tell_all(
        rig,
        &mut knowledge.facts,
        &knowledge.verified,
        &mut knowledge.marks,
        field,
        state,
    )?;
    state.search.forget_tries();
    sweep_heights(rig, knowledge, field, state)
}

// Makes a pass, and then tests the crosspoints between known wires.
fn sweep_round(
    rig: &mut Box<dyn Rig>,
    knowledge: &mut Knowledge,
    field: &Field,
    state: &mut SweepState,
) -> Result<(), RigFail>
    requires attached { shape_of (rig_state rig.old) ≡ Some knowledge.old.facts.shape }
    requires hand { IsHand field.now (hand_of knowledge.old state.old.budget (rig_state rig.old).loads) }
    ensures goes { Goes (rig_state rig.new) field.now [] (hand_of knowledge.old state.old.budget (rig_state rig.old).loads)
        (hand_of knowledge.new state.new.budget (rig_state rig.new).loads) }
    ensures advances { Advances (rig_state rig.old) (rig_state rig.new) knowledge.old.facts knowledge.new.facts }
    ensures cause { IsErrOf result RigFail.Failed → Rose (rig_state rig.old).failures (rig_state rig.new).failures }
{
    sweep_pass(rig, knowledge, field, state)?;
    lead_all(rig, knowledge, field, state)
}

// The same. False where no wire came to be known and no crosspoint was decided, though loads were made whatever they bring or weren't
// few. Later passes hang wires on any known ones.
fn pass_turn(
    rig: &mut Box<dyn Rig>,
    knowledge: &mut Knowledge,
    field: &Field,
    state: &mut SweepState,
) -> Result<bool, RigFail>
    requires attached { shape_of (rig_state rig.old) ≡ Some knowledge.old.facts.shape }
    requires hand { IsHand field.now (hand_of knowledge.old state.old.budget (rig_state rig.old).loads) }
    ensures goes { Goes (rig_state rig.new) field.now [] (hand_of knowledge.old state.old.budget (rig_state rig.old).loads)
        (hand_of knowledge.new state.new.budget (rig_state rig.new).loads) }
    ensures advances { Advances (rig_state rig.old) (rig_state rig.new) knowledge.old.facts knowledge.new.facts }
    ensures cause { IsErrOf result RigFail.Failed → Rose (rig_state rig.old).failures (rig_state rig.new).failures }
{
    let before = knowledge.verified.len();
    let decided = state.search.decided();
    sweep_round(rig, knowledge, field, state)?;
    state.aim = Aim::Rest;
    state.on_any = true;
    let has_learnt = knowledge.verified.len() > before || state.search.decided() > decided;
    let goes_on = has_learnt || (!state.spends && state.budget.is_low(rig, &knowledge.facts, 0));
    state.spends = !has_learnt;
    Ok(goes_on)
}

// Makes pass after pass, as long as wires come to be known or crosspoints to be decided.
#[tactic(auto, using(crate::proofs::Going::gone_none))]
fn sweep_passes(
    rig: &mut Box<dyn Rig>,
    knowledge: &mut Knowledge,
    field: &Field,
    state: &mut SweepState,
) -> Result<(), RigFail>
    requires attached { shape_of (rig_state rig.old) ≡ Some knowledge.old.facts.shape }
    requires hand { IsHand field.now (hand_of knowledge.old state.old.budget (rig_state rig.old).loads) }
    ensures goes { Goes (rig_state rig.new) field.now [] (hand_of knowledge.old state.old.budget (rig_state rig.old).loads)
        (hand_of knowledge.new state.new.budget (rig_state rig.new).loads) }
    ensures advances { Advances (rig_state rig.old) (rig_state rig.new) knowledge.old.facts knowledge.new.facts }
    ensures cause { IsErrOf result RigFail.Failed → Rose (rig_state rig.old).failures (rig_state rig.new).failures }
{
    state.aim = Aim::Again;
    state.on_any = false;
    state.spends = false;
    'passes: for _pass in 0..MOST_PASSES {
        if !pass_turn(rig, knowledge, field, state)? {
            return Ok(());
        }
    }
    Ok(())
}

// Looks at what is left, and hangs it, few wires at a time. False where nothing was left.
fn left_turn(
    rig: &mut Box<dyn Rig>,
    knowledge: &mut Knowledge,
    field: &Field,
    state: &mut SweepState,
) -> Result<bool, RigFail>
    requires attached { shape_of (rig_state rig.old) ≡ Some knowledge.old.facts.shape }
    requires hand { IsHand field.now (hand_of knowledge.old state.old.budget (rig_state rig.old).loads) }
    ensures goes { Goes (rig_state rig.new) field.now [] (hand_of knowledge.old state.old.budget (rig_state rig.old).loads)
        (hand_of knowledge.new state.new.budget (rig_state rig.new).loads) }
    ensures advances { Advances (rig_state rig.old) (rig_state rig.new) knowledge.old.facts knowledge.new.facts }
    ensures cause { IsErrOf result RigFail.Failed → Rose (rig_state rig.old).failures (rig_state rig.new).failures }
{
    state.aim = Aim::Left;
    tell_all(
        rig,
        &mut knowledge.facts,
        &knowledge.verified,
        &mut knowledge.marks,
        field,
        state,
    )?;
    state.search.forget_tries();
    let Ok(()) = state
        .chooser
        .hint_left(&mut state.search, &knowledge.marks.unfit)
    else {
        return Err(RigFail::Memory);
    };
    hang_wanted(rig, knowledge, field, state)?;
    Ok(!state.chooser.wanted.is_empty())
}

// The same a few times, as long as something is left.
#[tactic(auto, using(crate::proofs::Going::gone_none))]
fn sweep_left(
    rig: &mut Box<dyn Rig>,
    knowledge: &mut Knowledge,
    field: &Field,
    state: &mut SweepState,
) -> Result<(), RigFail>
    requires attached { shape_of (rig_state rig.old) ≡ Some knowledge.old.facts.shape }
    requires hand { IsHand field.now (hand_of knowledge.old state.old.budget (rig_state rig.old).loads) }
    ensures goes { Goes (rig_state rig.new) field.now [] (hand_of knowledge.old state.old.budget (rig_state rig.old).loads)
        (hand_of knowledge.new state.new.budget (rig_state rig.new).loads) }
    ensures advances { Advances (rig_state rig.old) (rig_state rig.new) knowledge.old.facts knowledge.new.facts }
    ensures cause { IsErrOf result RigFail.Failed → Rose (rig_state rig.old).failures (rig_state rig.new).failures }
{
    'rounds: for _round in 0..LEFT_ROUNDS {
        if !left_turn(rig, knowledge, field, state)? {
            return Ok(());
        }
    }
    Ok(())
}

// The same, and then tests the crosspoints between known wires, where some wires came to be known.
fn sweep_remains(
    rig: &mut Box<dyn Rig>,
    knowledge: &mut Knowledge,
    field: &Field,
    state: &mut SweepState,
) -> Result<(), RigFail>
    requires attached { shape_of (rig_state rig.old) ≡ Some knowledge.old.facts.shape }
    requires hand { IsHand field.now (hand_of knowledge.old state.old.budget (rig_state rig.old).loads) }
    ensures goes { Goes (rig_state rig.new) field.now [] (hand_of knowledge.old state.old.budget (rig_state rig.old).loads)
        (hand_of knowledge.new state.new.budget (rig_state rig.new).loads) }
    ensures advances { Advances (rig_state rig.old) (rig_state rig.new) knowledge.old.facts knowledge.new.facts }
    ensures cause { IsErrOf result RigFail.Failed → Rose (rig_state rig.old).failures (rig_state rig.new).failures }
{
    let before = knowledge.verified.len();
    sweep_left(rig, knowledge, field, state)?;
    if knowledge.verified.len() <= before {
        return Ok(());
    }
    lead_all(rig, knowledge, field, state)
}

// Makes all passes, and looks for what is left then.
fn sweep_rest(
    rig: &mut Box<dyn Rig>,
    knowledge: &mut Knowledge,
    field: &Field,
    state: &mut SweepState,
) -> Result<(), RigFail>
    requires attached { shape_of (rig_state rig.old) ≡ Some knowledge.old.facts.shape }
    requires hand { IsHand field.now (hand_of knowledge.old state.old.budget (rig_state rig.old).loads) }
    ensures goes { Goes (rig_state rig.new) field.now [] (hand_of knowledge.old state.old.budget (rig_state rig.old).loads)
        (hand_of knowledge.new state.new.budget (rig_state rig.new).loads) }
    ensures advances { Advances (rig_state rig.old) (rig_state rig.new) knowledge.old.facts knowledge.new.facts }
    ensures cause { IsErrOf result RigFail.Failed → Rose (rig_state rig.old).failures (rig_state rig.new).failures }
{
    sweep_passes(rig, knowledge, field, state)?;
    sweep_remains(rig, knowledge, field, state)
}

/// Looks at the pins of the machine, and tests what is further and further from them.
pub(crate) fn sweep_all(
    rig: &mut Box<dyn Rig>,
    knowledge: &mut Knowledge,
    field: &Field,
    state: &mut SweepState,
) -> Result<(), RigFail>
    requires attached { shape_of (rig_state rig.old) ≡ Some knowledge.old.facts.shape }
    requires hand { IsHand field.now (hand_of knowledge.old state.old.budget (rig_state rig.old).loads) }
    ensures goes { Goes (rig_state rig.new) field.now [] (hand_of knowledge.old state.old.budget (rig_state rig.old).loads)
        (hand_of knowledge.new state.new.budget (rig_state rig.new).loads) }
    ensures advances { Advances (rig_state rig.old) (rig_state rig.new) knowledge.old.facts knowledge.new.facts }
    ensures cause { IsErrOf result RigFail.Failed → Rose (rig_state rig.old).failures (rig_state rig.new).failures }
{
    pin_turn(rig, knowledge, field, state)?;
    sweep_rest(rig, knowledge, field, state)
}

// Whether all pins of the machine are known.
fn knows_pins(known: &Known) -> bool {
    let shape = known.shape();
    'pins: for pin in 0..shape.pins() {
        if !knows(known, shape.pin(Pin(pin))) {
            return false;
        }
    }
    true
}

// Looks at the pins of the machine, unless all are known.
fn pins_left(
    rig: &mut Box<dyn Rig>,
    knowledge: &mut Knowledge,
    field: &Field,
    state: &mut SweepState,
) -> Result<(), RigFail>
    requires attached { shape_of (rig_state rig.old) ≡ Some knowledge.old.facts.shape }
    requires hand { IsHand field.now (hand_of knowledge.old state.old.budget (rig_state rig.old).loads) }
    ensures goes { Goes (rig_state rig.new) field.now [] (hand_of knowledge.old state.old.budget (rig_state rig.old).loads)
        (hand_of knowledge.new state.new.budget (rig_state rig.new).loads) }
    ensures advances { Advances (rig_state rig.old) (rig_state rig.new) knowledge.old.facts knowledge.new.facts }
    ensures cause { IsErrOf result RigFail.Failed → Rose (rig_state rig.old).failures (rig_state rig.new).failures }
{
    if knows_pins(&knowledge.verified) {
        return Ok(());
    }
    pin_turn(rig, knowledge, field, state)
}

// Tests the wires for which others gave way.
fn hang_first(
    rig: &mut Box<dyn Rig>,
    knowledge: &mut Knowledge,
    field: &Field,
    state: &mut SweepState,
) -> Result<(), RigFail>
    requires attached { shape_of (rig_state rig.old) ≡ Some knowledge.old.facts.shape }
    requires hand { IsHand field.now (hand_of knowledge.old state.old.budget (rig_state rig.old).loads) }
    ensures goes { Goes (rig_state rig.new) field.now [] (hand_of knowledge.old state.old.budget (rig_state rig.old).loads)
        (hand_of knowledge.new state.new.budget (rig_state rig.new).loads) }
    ensures advances { Advances (rig_state rig.old) (rig_state rig.new) knowledge.old.facts knowledge.new.facts }
    ensures cause { IsErrOf result RigFail.Failed → Rose (rig_state rig.old).failures (rig_state rig.new).failures }
{
    state.spends = true;
    state.search.forget_tries();
    let Ok(()) = state
        .chooser
        .hint(&mut state.search, &knowledge.marks.unfit)
    else {
        return Err(RigFail::Memory);
    };
    hang_wanted(rig, knowledge, field, state)
}

// Looks at the pins that are left, and then tests the wires for which others gave way, as often again as others: else what gave way may
// be known before them.
fn first_turns(
    rig: &mut Box<dyn Rig>,
    knowledge: &mut Knowledge,
    field: &Field,
    state: &mut SweepState,
) -> Result<(), RigFail>
    requires attached { shape_of (rig_state rig.old) ≡ Some knowledge.old.facts.shape }
    requires hand { IsHand field.now (hand_of knowledge.old state.old.budget (rig_state rig.old).loads) }
    ensures goes { Goes (rig_state rig.new) field.now [] (hand_of knowledge.old state.old.budget (rig_state rig.old).loads)
        (hand_of knowledge.new state.new.budget (rig_state rig.new).loads) }
    ensures advances { Advances (rig_state rig.old) (rig_state rig.new) knowledge.old.facts knowledge.new.facts }
    ensures cause { IsErrOf result RigFail.Failed → Rose (rig_state rig.old).failures (rig_state rig.new).failures }
{
    pins_left(rig, knowledge, field, state)?;
    hang_first(rig, knowledge, field, state)?;
    hang_first(rig, knowledge, field, state)
}

/// The same behind a choice: first the wires for which others gave way.
pub(crate) fn sweep_chosen(
    rig: &mut Box<dyn Rig>,
    knowledge: &mut Knowledge,
    field: &Field,
    state: &mut SweepState,
) -> Result<(), RigFail>
    requires attached { shape_of (rig_state rig.old) ≡ Some knowledge.old.facts.shape }
    requires hand { IsHand field.now (hand_of knowledge.old state.old.budget (rig_state rig.old).loads) }
    ensures goes { Goes (rig_state rig.new) field.now [] (hand_of knowledge.old state.old.budget (rig_state rig.old).loads)
        (hand_of knowledge.new state.new.budget (rig_state rig.new).loads) }
    ensures advances { Advances (rig_state rig.old) (rig_state rig.new) knowledge.old.facts knowledge.new.facts }
    ensures cause { IsErrOf result RigFail.Failed → Rose (rig_state rig.old).failures (rig_state rig.new).failures }
{
    first_turns(rig, knowledge, field, state)?;
    sweep_rest(rig, knowledge, field, state)
}
