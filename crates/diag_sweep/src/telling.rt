//! Looks in which wires that aren't known hang over one crosspoint each: looked at, paid for, and made.
ghost use Rattle.std.specs.Prelude.{◌≡◌, [], true, Some, All, IfOk, IsErrOf, IsTrue, OnOk, map};
ghost use Rattle.base_io.specs.Counts.{Rose};
ghost use Rattle.base_bits.specs.Numbers.{has_number};
ghost use Rattle.rig.specs.Rig.{shape_of};
ghost use Rattle.machine_shape.specs.Shape.{pins_of};
ghost use Rattle.diag_evidence.specs.Vocabulary.{AreFeet, Advances, KeepsForest};
ghost use Rattle.diag_known.specs.Known.{IsKnown};
ghost use Rattle.diag_sweep.specs.Stages.{Goes, IsHand, in_hand};
ghost use Rattle.diag_sweep.specs.Views.{CanTell};

use crate::defect_marks::DefectMarks;
use crate::footing::{foot_at, pins_over};
use crate::hearing::hear;
use crate::held::{HeldForest, begin_held, hold};
use crate::losing::begin;
use crate::seen::see_all;
use crate::sweep_state::SweepState;
use crate::trees::is_known;
use base_bits::BitSet;
use diag_evidence::{Facts, Forest, Looks};
use diag_known::{Field, Known};
use diag_search::{Aim, Chooser, Search, Told};
use machine_shape::{Cross, Shape, Wire};
use rig::{Rig, RigFail};
use std::alloc::{AllocError, Global};

/// More looks than are taken for one thing.
const MOST_LOOKS: u32 = 65_536;

/// A look that may be made: what hangs, and room for what is read.
#[derive(Drop)]
pub(crate) struct View {
    pub told: Told,
    pub reads: Looks,
}

// The numbers of the wires of feet.
fn wires_of_feet(alloc: Global, feet: &Vec<(Wire, Cross)>) -> Result<Vec<u32>, AllocError>
    ensures { IfOk result (λ wires. wires.items ≡ map (λ foot. foot.0.0) feet.now.items) }
{
    let mut wires = Vec::new(alloc);
    'feet: for k in 0..feet.len() {
        wires.push(foot_at(feet, k).0.0)?;
    }
    Ok(wires)
}

// Whether wires may be hung on a forest together, over one crosspoint each.
fn are_feet(alloc: Global, forest: &Forest, feet: &Vec<(Wire, Cross)>) -> Result<bool, AllocError>
    ensures { IfOk result (λ yes. IsTrue yes → AreFeet forest.now feet.now.items) }
{
    let shape = forest.shape();
    let mut seen = BitSet::new(alloc, shape.wires())?;
    let wires = wires_of_feet(alloc, feet)?;
    if !see_all(&mut seen, &wires) {
        return Ok(false);
    }
    let Some(pins) = pins_over(alloc, forest, feet)? else {
        return Ok(false);
    };
    let mut marks = BitSet::new(alloc, shape.pins())?;
    Ok(see_all(&mut marks, &pins))
}

// Whether the wires of feet are of a field.
fn are_of_field(field: &Field, feet: &Vec<(Wire, Cross)>) -> bool
    ensures { IsTrue result → All (λ foot. has_number field.now.wires foot.0.0 ≡ true) feet.now.items }
{
    'feet: for k in 0..feet.len() {
        let foot = foot_at(feet, k);
        if foot.0.0 >= field.wires.len() {
            return false;
        }
        if !field.wires.has(foot.0.0) {
            return false;
        }
    }
    true
}

// The next look, if one is wanted, and the forest on which it is made.
fn next_view(
    chooser: &mut Chooser,
    search: &mut Search,
    held: &mut HeldForest,
    facts: &Facts,
    known: &Known,
    bad: &DefectMarks,
) -> Result<Option<View>, AllocError>
    requires { KeepsForest facts.now held.old.forest }
    ensures { OnOk result (KeepsForest facts.now held.new.forest) }
{
    let alloc = known.alloc();
    let told = chooser.lay_look(search, &bad.unfit)?;
    hold(held, alloc, facts, &search.forest)?;
    let Some(told) = told else {
        return Ok(None);
    };
    let reads = Looks::new(alloc, &facts.shape())?;
    Ok(Some(View { told, reads }))
}

// Whether there is room for what each pin of a machine reads.
fn has_room(reads: &Looks, shape: &Shape) -> bool
    ensures { IsTrue result → reads.now.pins ≡ pins_of shape.now }
{
    reads.pins() == shape.pins()
}

// Whether a look may be made.
fn may_tell(
    view: &View,
    forest: &Forest,
    facts: &Facts,
    known: &Known,
    field: &Field,
) -> Result<bool, AllocError>
    requires known { IsKnown facts.now known.now }
    requires forest { KeepsForest facts.now forest.now }
    ensures { IfOk result (λ yes. IsTrue yes → CanTell facts.now known.now.steps field.now forest.now view.now) }
{
    let alloc = known.alloc();
    if !is_known(facts, known, forest) {
        return Ok(false);
    }
    if !are_of_field(field, &view.told.feet) {
        return Ok(false);
    }
    if !has_room(&view.reads, &facts.shape()) {
        return Ok(false);
    }
    if !are_feet(alloc, forest, &view.told.feet)? {
        return Ok(false);
    }
    Ok(true)
}

// True where there was memory for what a look tells.
fn was_heard(heard: Result<(), AllocError>) -> Result<bool, RigFail>
    ensures memory { IsErrOf result RigFail.Failed → ⊥ }
{
    match heard {
        Ok(()) => Ok(true),
        Err(_) => Err(RigFail::Memory),
    }
}

// Takes a look, if one is wanted, may be made, and can be paid. False where not.
fn tell_turn(
    rig: &mut Box<dyn Rig>,
    facts: &mut Facts,
    known: &Known,
    bad: &mut DefectMarks,
    field: &Field,
    state: &mut SweepState,
) -> Result<bool, RigFail>
    requires attached { shape_of (rig_state rig.old) ≡ Some facts.old.shape }
    requires hand { IsHand field.now (in_hand facts.old known.now bad.old state.old.budget (rig_state rig.old).loads) }
    requires forest { KeepsForest facts.old state.old.held.forest }
    ensures goes { Goes (rig_state rig.new) field.now [] (in_hand facts.old known.now bad.old state.old.budget (rig_state rig.old).loads)
        (in_hand facts.new known.now bad.new state.new.budget (rig_state rig.new).loads) }
    ensures forest { OnOk result (KeepsForest facts.new state.new.held.forest) }
    ensures advances { Advances (rig_state rig.old) (rig_state rig.new) facts.old facts.new }
    ensures cause { IsErrOf result RigFail.Failed → Rose (rig_state rig.old).failures (rig_state rig.new).failures }
{
    if !state.budget.can_pay(rig, 1) {
        return Ok(false);
    }
    if state.aim == Aim::Rest && state.budget.is_low(rig, facts, 0) {
        return Ok(false);
    }
    let Ok(found) = next_view(
        &mut state.chooser,
        &mut state.search,
        &mut state.held,
        facts,
        known,
        bad,
    ) else {
        return Err(RigFail::Memory);
    };
    let Some(mut view) = found else {
        return Ok(false);
    };
    let Ok(fit) = may_tell(&view, &state.held.forest, facts, known, field) else {
        return Err(RigFail::Memory);
    };
    if !fit {
        return Ok(false);
    }
    let feet = view.told.feet.as_slice();
    facts.screen_wires(
        rig,
        &state.held.forest,
        feet,
        &mut bad.unfit,
        &mut bad.unclear,
        &mut view.reads,
    )?;
    let chooser = &mut state.chooser;
    let forest = &state.held.forest;
    was_heard(hear(chooser, &view.told, forest, &view.reads, facts, bad))
}

/// Takes looks for what the choice is asked for, until none is wanted, or it can't be paid.
#[tactic(auto, using(crate::proofs::Holding::held_none))]
pub(crate) fn tell_all(
    rig: &mut Box<dyn Rig>,
    facts: &mut Facts,
    known: &Known,
    bad: &mut DefectMarks,
    field: &Field,
    state: &mut SweepState,
) -> Result<(), RigFail>
    requires attached { shape_of (rig_state rig.old) ≡ Some facts.old.shape }
    requires hand { IsHand field.now (in_hand facts.old known.now bad.old state.old.budget (rig_state rig.old).loads) }
    ensures goes { Goes (rig_state rig.new) field.now [] (in_hand facts.old known.now bad.old state.old.budget (rig_state rig.old).loads)
        (in_hand facts.new known.now bad.new state.new.budget (rig_state rig.new).loads) }
    ensures advances { Advances (rig_state rig.old) (rig_state rig.new) facts.old facts.new }
    ensures cause { IsErrOf result RigFail.Failed → Rose (rig_state rig.old).failures (rig_state rig.new).failures }
{
    let aim = state.aim;
    let Ok(()) = begin(&mut state.chooser, aim, facts, known, bad) else {
        return Err(RigFail::Memory);
    };
    let Ok(()) = begin_held(&mut state.held, known.alloc(), facts, &state.search.forest) else {
        return Err(RigFail::Memory);
    };
    'looks: for _look in 0..MOST_LOOKS {
        if !tell_turn(rig, facts, known, bad, field, state)? {
            return Ok(());
        }
    }
    Ok(())
}
