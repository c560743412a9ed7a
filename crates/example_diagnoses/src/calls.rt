//! The calls of a diagnosis one by one: what each leaves is held against the faults of the machine.
ghost use Rattle.std.specs.Prelude.{◌≡◌, ◌<◌, All, Some};
ghost use Rattle.rig.specs.Rig.{shape_of};
ghost use Rattle.machine_shape.specs.Shape.{tables_of};
ghost use Rattle.diag_known.specs.Field.{IsFieldOf};
ghost use Rattle.example_diagnoses.specs.Stages.{IsStageOf};

use crate::fields::{Task, draw_part, whole};
use crate::judge::{Call, Judge, Loads, judge_of};
use crate::marked::sweep_is_right;
use crate::picture::Picture;
use crate::steps::{
    choices_of, choose_stage, first_stage, grow_stage, sweep_chosen, sweep_stage, test_stage,
};
use base_random::Draws;
use diag_sweep::{Choices, Knowledge};
use machine_faults::FaultSet;
use machine_shape::Shape;
use rig::Rig;
use std::alloc::Global;

/// What is tried with a machine.
#[derive(Clone, Copy)]
pub enum Way {
    /// A sweep of all of the machine of `marked`.
    Sweep,
    /// The whole, and all calls over a part of the machine and then over all of it.
    All,
}

// Makes a call.
fn make(
    alloc: Global,
    rig: &mut Box<dyn Rig>,
    stage: &mut Knowledge,
    task: &Task,
    choices: &mut Choices,
    call: Call,
) -> Result<(), &'static str>
    requires attached { shape_of (rig_state rig.old) ≡ Some stage.old.facts.shape }
    requires stage { IsStageOf stage.old.facts.shape stage.old }
    requires field { IsFieldOf stage.old.facts.shape task.now.field }
    ensures attached { shape_of (rig_state rig.new) ≡ Some stage.old.facts.shape }
    ensures stage { IsStageOf stage.old.facts.shape stage.new }
{
    match call {
        Call::Sweep => sweep_stage(rig, stage, task),
        Call::Choose => choose_stage(rig, stage, task, choices),
        Call::SweepChosen => sweep_chosen(rig, stage, task, choices),
        Call::Grow => grow_stage(alloc, rig, stage, task),
        Call::Test => Err("tables are tested last"),
    }
}

// Makes a call, and counts its loads.
fn make_counted(
    alloc: Global,
    rig: &mut Box<dyn Rig>,
    stage: &mut Knowledge,
    task: &Task,
    choices: &mut Choices,
    call: Call,
) -> Result<Loads, &'static str>
    requires attached { shape_of (rig_state rig.old) ≡ Some stage.old.facts.shape }
    requires stage { IsStageOf stage.old.facts.shape stage.old }
    requires field { IsFieldOf stage.old.facts.shape task.now.field }
    ensures attached { shape_of (rig_state rig.new) ≡ Some stage.old.facts.shape }
    ensures stage { IsStageOf stage.old.facts.shape stage.new }
{
    let before = rig.loads().saturating_add(choices.left);
    make(alloc, rig, stage, task, choices, call)?;
    let after = rig.loads().saturating_add(choices.left);
    Ok(Loads { before, after })
}

// Makes a call, and looks at what it leaves.
fn once(
    rig: &mut Box<dyn Rig>,
    stage: &mut Knowledge,
    judge: &Judge,
    task: &Task,
    choices: &mut Choices,
    call: Call,
) -> Result<(), &'static str>
    requires attached { shape_of (rig_state rig.old) ≡ Some stage.old.facts.shape }
    requires stage { IsStageOf stage.old.facts.shape stage.old }
    requires field { IsFieldOf stage.old.facts.shape task.now.field }
    ensures attached { shape_of (rig_state rig.new) ≡ Some stage.old.facts.shape }
    ensures stage { IsStageOf stage.old.facts.shape stage.new }
{
    match judge.picture(stage) {
        Ok(before) => {
            let made = make_counted(judge.alloc, rig, stage, task, choices, call);
            judge.hold_stage(call, &task.area, &before, stage, made)
        }
        Err(wrong) => Err(wrong),
    }
}

// A sweep.
fn sweep_once(
    rig: &mut Box<dyn Rig>,
    stage: &mut Knowledge,
    judge: &Judge,
    task: &Task,
) -> Result<(), &'static str>
    requires attached { shape_of (rig_state rig.old) ≡ Some stage.old.facts.shape }
    requires stage { IsStageOf stage.old.facts.shape stage.old }
    requires field { IsFieldOf stage.old.facts.shape task.now.field }
    ensures attached { shape_of (rig_state rig.new) ≡ Some stage.old.facts.shape }
    ensures stage { IsStageOf stage.old.facts.shape stage.new }
{
    match choices_of(stage, task) {
        Ok(mut choices) => once(rig, stage, judge, task, &mut choices, Call::Sweep),
        Err(wrong) => Err(wrong),
    }
}

// A choice, the sweep behind it, and a growth in what isn't marked.
fn choose_and_grow(
    rig: &mut Box<dyn Rig>,
    stage: &mut Knowledge,
    judge: &Judge,
    task: &Task,
    choices: &mut Choices,
) -> Result<(), &'static str>
    requires attached { shape_of (rig_state rig.old) ≡ Some stage.old.facts.shape }
    requires stage { IsStageOf stage.old.facts.shape stage.old }
    requires field { IsFieldOf stage.old.facts.shape task.now.field }
    ensures attached { shape_of (rig_state rig.new) ≡ Some stage.old.facts.shape }
    ensures stage { IsStageOf stage.old.facts.shape stage.new }
{
    once(rig, stage, judge, task, choices, Call::Choose)?;
    once(rig, stage, judge, task, choices, Call::SweepChosen)?;
    once(rig, stage, judge, task, choices, Call::Grow)
}

// All calls but the tests of tables.
fn know_task(
    rig: &mut Box<dyn Rig>,
    stage: &mut Knowledge,
    judge: &Judge,
    task: &Task,
) -> Result<(), &'static str>
    requires attached { shape_of (rig_state rig.old) ≡ Some stage.old.facts.shape }
    requires stage { IsStageOf stage.old.facts.shape stage.old }
    requires field { IsFieldOf stage.old.facts.shape task.now.field }
    ensures attached { shape_of (rig_state rig.new) ≡ Some stage.old.facts.shape }
    ensures stage { IsStageOf stage.old.facts.shape stage.new }
{
    sweep_once(rig, stage, judge, task)?;
    match choices_of(stage, task) {
        Ok(mut choices) => choose_and_grow(rig, stage, judge, task, &mut choices),
        Err(wrong) => Err(wrong),
    }
}

// The tests of tables, and how many loads they took.
fn test_counted(
    rig: &mut Box<dyn Rig>,
    stage: &mut Knowledge,
    task: &Task,
) -> Result<Loads, &'static str>
    requires attached { shape_of (rig_state rig.old) ≡ Some stage.old.facts.shape }
    requires stage { IsStageOf stage.old.facts.shape stage.old }
    requires tables { All (λ t. t.0 < tables_of stage.old.facts.shape) task.now.tables.items }
{
    let before = rig.loads();
    test_stage(rig, stage, &task.tables)?;
    let after = rig.loads();
    Ok(Loads { before, after })
}

// The tests of tables, and a look at what they leave.
fn test_once(
    rig: &mut Box<dyn Rig>,
    stage: &mut Knowledge,
    judge: &Judge,
    task: &Task,
) -> Result<(), &'static str>
    requires attached { shape_of (rig_state rig.old) ≡ Some stage.old.facts.shape }
    requires stage { IsStageOf stage.old.facts.shape stage.old }
    requires tables { All (λ t. t.0 < tables_of stage.old.facts.shape) task.now.tables.items }
{
    match judge.picture(stage) {
        Ok(before) => {
            let made = test_counted(rig, stage, task);
            judge.hold_stage(Call::Test, &task.area, &before, stage, made)
        }
        Err(wrong) => Err(wrong),
    }
}

// All calls over a part of the machine.
fn know_part(
    rig: &mut Box<dyn Rig>,
    stage: &mut Knowledge,
    judge: &Judge,
    draws: &mut Draws,
) -> Result<(), &'static str>
    requires attached { shape_of (rig_state rig.old) ≡ Some stage.old.facts.shape }
    requires stage { IsStageOf stage.old.facts.shape stage.old }
    ensures attached { shape_of (rig_state rig.new) ≡ Some stage.old.facts.shape }
    ensures stage { IsStageOf stage.old.facts.shape stage.new }
{
    match draw_part(judge.alloc, draws, &stage.facts.shape()) {
        Ok(part) => know_task(rig, stage, judge, &part),
        Err(_) => Err("no memory"),
    }
}

// A sweep of all of the machine, or first all calls over a part of it, and then all of them over all of it.
fn know_whole(
    rig: &mut Box<dyn Rig>,
    stage: &mut Knowledge,
    judge: &Judge,
    draws: &mut Draws,
    all: &Task,
    way: Way,
) -> Result<(), &'static str>
    requires attached { shape_of (rig_state rig.old) ≡ Some stage.old.facts.shape }
    requires stage { IsStageOf stage.old.facts.shape stage.old }
    requires field { IsFieldOf stage.old.facts.shape all.now.field }
    requires tables { All (λ t. t.0 < tables_of stage.old.facts.shape) all.now.tables.items }
{
    match way {
        Way::Sweep => sweep_once(rig, stage, judge, all),
        Way::All => {
            know_part(rig, stage, judge, draws)?;
            know_task(rig, stage, judge, all)?;
            test_once(rig, stage, judge, all)
        }
    }
}

// The same, and what is known behind it.
fn know_stage(
    rig: &mut Box<dyn Rig>,
    stage: &mut Knowledge,
    judge: &Judge,
    draws: &mut Draws,
    way: Way,
) -> Result<Picture, &'static str>
    requires attached { shape_of (rig_state rig.old) ≡ Some stage.old.facts.shape }
    requires stage { IsStageOf stage.old.facts.shape stage.old }
{
    match whole(judge.alloc, draws, &stage.facts.shape()) {
        Ok(all) => know_whole(rig, stage, judge, draws, &all, way)?,
        Err(_) => return Err("no memory"),
    }
    judge.picture(stage)
}

// The same of a machine of which nothing is known.
fn know_anew(
    rig: &mut Box<dyn Rig>,
    judge: &Judge,
    draws: &mut Draws,
    shape: &Shape,
    way: Way,
) -> Result<Picture, &'static str>
    requires { shape_of (rig_state rig.old) ≡ Some shape.now }
{
    match first_stage(judge.alloc, shape) {
        Ok(mut stage) => know_stage(rig, &mut stage, judge, draws, way),
        Err(wrong) => Err(wrong),
    }
}

// The same, and a look at what is known at last.
fn try_judged(
    rig: &mut Box<dyn Rig>,
    judge: &Judge,
    draws: &mut Draws,
    faults: &FaultSet,
    way: Way,
) -> Result<(), &'static str>
    requires attached { shape_of (rig_state rig.old) ≡ Some faults.now.shape }
{
    match know_anew(rig, judge, draws, &faults.shape(), way) {
        Ok(last) => match way {
            Way::Sweep => sweep_is_right(&last.marks),
            Way::All => judge.tables_are_closed(faults, &last),
        },
        Err(wrong) => Err(wrong),
    }
}

/// Sweeps, chooses and grows over a part of a machine and then over all of it, tests its tables, and looks at what each call leaves:
/// facts and marks are true, loads are within their bounds, and what is known and kept is closed, tables that can be tested among it.
/// Or it sweeps all of it, and looks at what that marks.
///
/// # Errors
///
/// What is wrong with them.
pub fn try_calls(
    alloc: Global,
    rig: &mut Box<dyn Rig>,
    draws: &mut Draws,
    faults: &FaultSet,
    way: Way,
) -> Result<(), &'static str>
    requires attached { shape_of (rig_state rig.old) ≡ Some faults.now.shape }
{
    match judge_of(alloc, faults) {
        Ok(judge) => try_judged(rig, &judge, draws, faults, way),
        Err(wrong) => Err(wrong),
    }
}
