//! The calls of a diagnosis, each as a step from one stage to the next. Of a step no more is said than the next one needs.
ghost use Rattle.std.specs.Prelude.{◌≡◌, ◌<◌, All, Some, IfOk};
ghost use Rattle.rig.specs.Rig.{shape_of};
ghost use Rattle.machine_shape.specs.Shape.{tables_of};
ghost use Rattle.diag_known.specs.Vocabulary.{IsFieldOf};
ghost use Rattle.example_diagnoses.specs.Stages.{IsStageOf};

use crate::fields::Task;
use diag_growth::{grow, test_tables};
use diag_known::Field;
use diag_sweep::{Choices, Knowledge, choose, sweep, sweep_with, without_bad};
use machine_shape::{Shape, Table};
use rig::Rig;
use std::alloc::Global;

/// Nothing is kept, known or marked.
pub fn first_stage(alloc: Global, shape: &Shape) -> Result<Knowledge, &'static str>
    ensures { IfOk result (IsStageOf shape.now) }
{
    match Knowledge::none(alloc, shape) {
        Ok(stage) => Ok(stage),
        Err(_) => Err("no memory"),
    }
}

/// A sweep of a field and some tables.
pub fn sweep_stage(
    rig: &mut Box<dyn Rig>,
    stage: &mut Knowledge,
    task: &Task,
) -> Result<(), &'static str>
    requires attached { shape_of (rig_state rig.old) ≡ Some stage.old.facts.shape }
    requires stage { IsStageOf stage.old.facts.shape stage.old }
    requires field { IsFieldOf stage.old.facts.shape task.now.field }
    ensures attached { shape_of (rig_state rig.new) ≡ Some stage.old.facts.shape }
    ensures stage { IsStageOf stage.old.facts.shape stage.new }
{
    let swept = sweep(rig, stage, &task.field, &task.tables);
    swept.ok().ok_or("no sweep")
}

/// Choices of which none was made, with the loads that unfit wires are worth.
pub fn choices_of(stage: &Knowledge, task: &Task) -> Result<Choices, &'static str> {
    let choices = Choices::new(stage.verified.alloc(), &stage.facts, &task.tables);
    match choices {
        Ok(mut choices) => {
            choices.pay_for(&stage.marks.unfit);
            Ok(choices)
        }
        Err(_) => Err("no memory"),
    }
}

/// A choice between shorted wires.
pub fn choose_stage(
    rig: &mut Box<dyn Rig>,
    stage: &mut Knowledge,
    task: &Task,
    choices: &mut Choices,
) -> Result<(), &'static str>
    requires attached { shape_of (rig_state rig.old) ≡ Some stage.old.facts.shape }
    requires stage { IsStageOf stage.old.facts.shape stage.old }
    requires field { IsFieldOf stage.old.facts.shape task.now.field }
    ensures attached { shape_of (rig_state rig.new) ≡ Some stage.old.facts.shape }
    ensures stage { IsStageOf stage.old.facts.shape stage.new }
{
    let chosen = choose(rig, stage, &task.field, choices);
    match chosen {
        Ok(_) => Ok(()),
        Err(_) => Err("no choice"),
    }
}

/// The sweep behind a choice.
pub fn sweep_chosen(
    rig: &mut Box<dyn Rig>,
    stage: &mut Knowledge,
    task: &Task,
    choices: &mut Choices,
) -> Result<(), &'static str>
    requires attached { shape_of (rig_state rig.old) ≡ Some stage.old.facts.shape }
    requires stage { IsStageOf stage.old.facts.shape stage.old }
    requires field { IsFieldOf stage.old.facts.shape task.now.field }
    ensures attached { shape_of (rig_state rig.new) ≡ Some stage.old.facts.shape }
    ensures stage { IsStageOf stage.old.facts.shape stage.new }
{
    let swept = sweep_with(rig, stage, &task.field, choices);
    swept.ok().ok_or("no sweep behind a choice")
}

// A growth in a field.
fn grow_in(rig: &mut Box<dyn Rig>, stage: &mut Knowledge, field: &Field) -> Result<(), &'static str>
    requires attached { shape_of (rig_state rig.old) ≡ Some stage.old.facts.shape }
    requires stage { IsStageOf stage.old.facts.shape stage.old }
    requires field { IsFieldOf stage.old.facts.shape field.now }
    ensures attached { shape_of (rig_state rig.new) ≡ Some stage.old.facts.shape }
    ensures stage { IsStageOf stage.old.facts.shape stage.new }
{
    let grown = grow(rig, &mut stage.facts, &mut stage.verified, field);
    grown.ok().ok_or("no growth")
}

/// A growth in what isn't marked of a field.
pub fn grow_stage(
    alloc: Global,
    rig: &mut Box<dyn Rig>,
    stage: &mut Knowledge,
    task: &Task,
) -> Result<(), &'static str>
    requires attached { shape_of (rig_state rig.old) ≡ Some stage.old.facts.shape }
    requires stage { IsStageOf stage.old.facts.shape stage.old }
    requires field { IsFieldOf stage.old.facts.shape task.now.field }
    ensures attached { shape_of (rig_state rig.new) ≡ Some stage.old.facts.shape }
    ensures stage { IsStageOf stage.old.facts.shape stage.new }
{
    match without_bad(alloc, &stage.marks, &task.field) {
        Ok(rest) => grow_in(rig, stage, &rest),
        Err(_) => Err("no memory"),
    }
}

/// The tests of these tables.
pub fn test_stage(
    rig: &mut Box<dyn Rig>,
    stage: &mut Knowledge,
    tables: &[Table],
) -> Result<(), &'static str>
    requires attached { shape_of (rig_state rig.old) ≡ Some stage.old.facts.shape }
    requires stage { IsStageOf stage.old.facts.shape stage.old }
    requires tables { All (λ t. t.0 < tables_of stage.old.facts.shape) tables.now }
{
    let tested = test_tables(rig, &mut stage.facts, &stage.verified, tables);
    tested.ok().ok_or("no tests of tables")
}
