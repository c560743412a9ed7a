//! The whole machine: from tests to a list of defects.
ghost use Rattle.std.specs.Prelude.{◌≡◌, ◌⊎◌, ◌≤◌, ◌<◌, ◌+◌, ◌*◌, ℕ, true, false, All, Option, Some, IfOk, OnOk, IsErrOf, length};
ghost use Rattle.base_bits.specs.Numbers.{has_number, size_of};
ghost use Rattle.base_io.specs.Counts.{Rose};
ghost use Rattle.machine_shape.specs.Shape.{tables_of, wires_of};
ghost use Rattle.machine_meaning.specs.Faults.{Faults};
ghost use Rattle.rig.specs.Rig.{ForEach, Narrows, Tells, shape_of};
ghost use Rattle.diag_evidence.specs.Kept.{Advances, AdvancesButPairs, FewCycles, KeepsNothing, TakesFewCycles};
ghost use Rattle.diag_known.specs.Vocabulary.{IsFieldOf, pins_in, IsKnown};
ghost use Rattle.diag_growth.specs.Seats.{AddsOnlyTableFacts};
ghost use Rattle.diag_sweep.specs.Marks.{AreMarksFor, HasTable, TrueIf, undecided, worth};
ghost use Rattle.diag_sweep.specs.Shown.{IsCoherent, ProgressButPairs, TrueOf};
ghost use Rattle.diag_machine.specs.Diagnosis.{IsDiagnosis, TakesAtMost, TakesFewLoads};
ghost use Rattle.diag_machine.specs.Stages.{IfFaultless, IsWhole, ReachedIf, TablesIf, loads_for};

use crate::list::list_of;
use crate::lost::{lost_pins, unfit_wires};
use base_bits::BitSet;
use diag_evidence::Facts;
use diag_evidence::laws::{kept_facts_are_sound, tests_add_up};
use diag_growth::{Field, Known, grow, test_tables};
use diag_sweep::{
    Choices, DefectMarks, Knowledge, choose, closed_without_bad, growth_without_bad_is_paid, sweep,
    sweep_with, without_bad,
};
use machine_defects::Defects;
use machine_meaning::tight_lists_are_fair;
use machine_shape::{Shape, Table, the_numbering_is_sound};
use rig::{Rig, RigFail};
use std::alloc::{AllocError, Global};

/// How often it is chosen before growth which of shorted wires stays.
const MOST_CHOICES: u32 = 3;

/// The loads of a diagnosis by part: those of its sweeps and of the choices between shorted wires, of growth, and of the tests of tables
/// behind them.
#[derive(Clone, Copy, Debug)]
pub struct Parts {
    pub sweep: u64,
    pub growth: u64,
    pub tables: u64,
}

impl Parts {
    /// No loads.
    pub fn none() -> Parts {
        Parts {
            sweep: 0,
            growth: 0,
            tables: 0,
        }
    }
}

// How many loads the rig made since it had made so many.
fn loads_since(rig: &Box<dyn Rig>, before: u64) -> u64 {
    rig.loads().saturating_sub(before)
}

// All tables of a machine.
fn all_tables(alloc: Global, shape: &Shape) -> Result<Vec<Table>, AllocError> {
    let mut tables = Vec::new(alloc);
    'tables: for t in 0..shape.tables() {
        tables.push(Table(t))?;
    }
    Ok(tables)
}

// What a diagnosis has at hand: the whole machine, what choices have, and how many loads sweeps and choices have taken.
#[derive(Drop)]
struct DiagnosisState {
    field: Field,
    choices: Choices,
    swept: u64,
}

// What a diagnosis has at hand at first.
fn first_state(alloc: Global, facts: &Facts) -> Result<DiagnosisState, AllocError>
    ensures field { IfOk result (λ state. IsFieldOf facts.now.shape state.field) }
    ensures whole { IfOk result (λ state. IsWhole facts.now.shape state.field) }
    ensures left { IfOk result (λ state. state.choices.left ≡ 0) }
    ensures paid { IfOk result (λ state. length state.choices.paid ≡ wires_of facts.now.shape) }
    ensures none { IfOk result (λ state. size_of state.choices.paid ≡ 0) }
{
    let field = Field::whole(alloc, &facts.shape())?;
    let tables = all_tables(alloc, &facts.shape())?;
    Ok(DiagnosisState {
        choices: Choices::new(alloc, facts, &tables)?,
        field,
        swept: 0,
    })
}

// Chooses which of shorted wires stays known, and sweeps anew if some give way. Says whether they did.
fn choose_once(
    rig: &mut Box<dyn Rig>,
    knowledge: &mut Knowledge,
    state: &mut DiagnosisState,
) -> Result<bool, RigFail>
    requires attached { shape_of (rig_state rig.old) ≡ Some knowledge.old.facts.shape }
    requires coherent { IsCoherent knowledge.old }
    requires field { IsFieldOf knowledge.old.facts.shape state.old.field }
    ensures field { state.new.field ≡ state.old.field }
    ensures same { IfOk result (λ chosen. chosen ≡ false → knowledge.new.verified ≡ knowledge.old.verified) }
    ensures pays { worth state.new.field knowledge.new.facts knowledge.new.marks (rig_state rig.new).loads state.new.choices.left
        ≤ worth state.old.field knowledge.old.facts knowledge.old.marks (rig_state rig.old).loads state.old.choices.left }
    ensures paid { state.new.choices.paid ≡ state.old.choices.paid }
    ensures progress { ProgressButPairs (rig_state rig.old) (rig_state rig.new) knowledge.old knowledge.new }
    ensures cause { IsErrOf result RigFail.Failed → Rose (rig_state rig.old).failures (rig_state rig.new).failures }
{
    if !choose(rig, knowledge, &state.field, &mut state.choices)? {
        return Ok(false);
    }
    sweep_with(rig, knowledge, &state.field, &mut state.choices)?;
    Ok(true)
}

// The same as long as some give way, a few times.
fn choose_all(
    rig: &mut Box<dyn Rig>,
    knowledge: &mut Knowledge,
    state: &mut DiagnosisState,
) -> Result<(), RigFail>
    requires attached { shape_of (rig_state rig.old) ≡ Some knowledge.old.facts.shape }
    requires coherent { IsCoherent knowledge.old }
    requires field { IsFieldOf knowledge.old.facts.shape state.old.field }
    ensures field { state.new.field ≡ state.old.field }
    ensures pays { worth state.new.field knowledge.new.facts knowledge.new.marks (rig_state rig.new).loads state.new.choices.left
        ≤ worth state.old.field knowledge.old.facts knowledge.old.marks (rig_state rig.old).loads state.old.choices.left }
    ensures paid { state.new.choices.paid ≡ state.old.choices.paid }
    ensures progress { ProgressButPairs (rig_state rig.old) (rig_state rig.new) knowledge.old knowledge.new }
    ensures cause { IsErrOf result RigFail.Failed → Rose (rig_state rig.old).failures (rig_state rig.new).failures }
{
    'choices: for _choice in 0..MOST_CHOICES {
        if !choose_once(rig, knowledge, state)? {
            return Ok(());
        }
    }
    Ok(())
}

// The whole machine is swept, once and behind choices.
fn sweep_whole(
    rig: &mut Box<dyn Rig>,
    knowledge: &mut Knowledge,
    state: &mut DiagnosisState,
) -> Result<(), RigFail>
    requires attached { shape_of (rig_state rig.old) ≡ Some knowledge.old.facts.shape }
    requires coherent { IsCoherent knowledge.old }
    requires field { IsFieldOf knowledge.old.facts.shape state.old.field }
    requires right_each { ForEach (rig_state rig.old) (λ told. TrueOf told knowledge.old) }
    requires paid { length state.old.choices.paid ≡ wires_of knowledge.old.facts.shape }
    ensures field { state.new.field ≡ state.old.field }
    ensures pays { worth state.new.field knowledge.new.facts knowledge.new.marks (rig_state rig.new).loads state.new.choices.left
        + 14 * size_of state.old.choices.paid
        ≤ worth state.old.field knowledge.old.facts knowledge.old.marks (rig_state rig.old).loads state.old.choices.left
        + (pins_in knowledge.old.facts.shape state.old.field + 14 * size_of state.new.choices.paid) }
    ensures few_each { ForEach (rig_state rig.new) (λ told. IfFaultless told knowledge.old.facts (state.new.choices.paid ≡ state.old.choices.paid)) }
    ensures paid { length state.new.choices.paid ≡ length state.old.choices.paid }
    ensures progress { ProgressButPairs (rig_state rig.old) (rig_state rig.new) knowledge.old knowledge.new }
    ensures cause { IsErrOf result RigFail.Failed → Rose (rig_state rig.old).failures (rig_state rig.new).failures }
{
    let alloc = knowledge.verified.alloc();
    let Ok(tables) = all_tables(alloc, &knowledge.facts.shape()) else {
        return Err(RigFail::Memory);
    };
    sweep(rig, knowledge, &state.field, &tables)?;
    let Ok(unfit) = unfit_wires(alloc, &knowledge.verified, &knowledge.marks) else {
        return Err(RigFail::Memory);
    };
    state.choices.pay_for(&unfit);
    choose_all(rig, knowledge, state)
}

// What is known grows in what isn't marked bad.
fn grow_whole(
    rig: &mut Box<dyn Rig>,
    knowledge: &mut Knowledge,
    field: &Field,
) -> Result<(), RigFail>
    requires attached { shape_of (rig_state rig.old) ≡ Some knowledge.old.facts.shape }
    requires coherent { IsCoherent knowledge.old }
    requires field { IsFieldOf knowledge.old.facts.shape field.now }
    requires whole { IsWhole knowledge.old.facts.shape field.now }
    requires right_each { ForEach (rig_state rig.old) (λ told. TrueOf told knowledge.old) }
    ensures reached_each { OnOk result (ForEach (rig_state rig.new) (λ told. ReachedIf told knowledge.new.facts knowledge.new.verified.steps)) }
    ensures loads { (rig_state rig.new).loads + pins_in knowledge.old.facts.shape field.now
        ≤ (rig_state rig.old).loads + (8 * undecided knowledge.old.facts knowledge.old.marks field.now + 3 * size_of field.now.wires) }
    ensures few_each { ForEach (rig_state rig.new) (λ told. IfFaultless told knowledge.old.facts ((rig_state rig.new).loads + pins_in
        knowledge.old.facts.shape field.now ≤ (rig_state rig.old).loads + (2 * undecided knowledge.old.facts knowledge.old.marks
        field.now + 3 * size_of field.now.wires))) }
    ensures progress { ProgressButPairs (rig_state rig.old) (rig_state rig.new) knowledge.old knowledge.new }
    ensures cause { IsErrOf result RigFail.Failed → Rose (rig_state rig.old).failures (rig_state rig.new).failures }
{
    the_numbering_is_sound();
    closed_without_bad();
    growth_without_bad_is_paid();
    let Ok(rest) = without_bad(knowledge.verified.alloc(), &knowledge.marks, field) else {
        return Err(RigFail::Memory);
    };
    grow(rig, &mut knowledge.facts, &mut knowledge.verified, &rest)
}

// Where growth has lost pins of tables, and some wires give way for them, the machine is swept and what is known grows once more.
fn know_lost(
    rig: &mut Box<dyn Rig>,
    knowledge: &mut Knowledge,
    state: &mut DiagnosisState,
) -> Result<(), RigFail>
    requires attached { shape_of (rig_state rig.old) ≡ Some knowledge.old.facts.shape }
    requires coherent { IsCoherent knowledge.old }
    requires field { IsFieldOf knowledge.old.facts.shape state.old.field }
    requires right_each { ForEach (rig_state rig.old) (λ told. TrueOf told knowledge.old) }
    requires whole { IsWhole knowledge.old.facts.shape state.old.field }
    requires paid { length state.old.choices.paid ≡ wires_of knowledge.old.facts.shape }
    requires reached_each { ForEach (rig_state rig.old) (λ told. ReachedIf told knowledge.old.facts knowledge.old.verified.steps) }
    ensures reached_each { OnOk result (ForEach (rig_state rig.new) (λ told. ReachedIf told knowledge.new.facts knowledge.new.verified.steps)) }
    ensures loads { (rig_state rig.new).loads + 14 * size_of state.old.choices.paid
        ≤ (rig_state rig.old).loads + (state.old.choices.left + (loads_for knowledge.old.facts 8 3 + 14 * wires_of knowledge.old.facts.shape)) }
    ensures few_each { ForEach (rig_state rig.new) (λ told. IfFaultless told knowledge.old.facts ((rig_state rig.new).loads ≤ (rig_state
        rig.old).loads)) }
    ensures progress { ProgressButPairs (rig_state rig.old) (rig_state rig.new) knowledge.old knowledge.new }
    ensures cause { IsErrOf result RigFail.Failed → Rose (rig_state rig.old).failures (rig_state rig.new).failures }
{
    growth_without_bad_is_paid();
    let alloc = knowledge.verified.alloc();
    let Ok(found) = lost_pins(alloc, &knowledge.facts, &knowledge.verified) else {
        return Err(RigFail::Memory);
    };
    let Some(lost) = found else {
        return Ok(());
    };
    state.choices.pay_for(&lost);
    let before = loads_since(rig, 0);
    if !choose_once(rig, knowledge, state)? {
        state.swept = state.swept.saturating_add(loads_since(rig, before));
        return Ok(());
    }
    state.swept = state.swept.saturating_add(loads_since(rig, before));
    grow_whole(rig, knowledge, &state.field)
}

// The machine is swept, what is known grows, and wires that growth has lost are tried again.
fn know_all(
    rig: &mut Box<dyn Rig>,
    knowledge: &mut Knowledge,
    state: &mut DiagnosisState,
) -> Result<(), RigFail>
    requires attached { shape_of (rig_state rig.old) ≡ Some knowledge.old.facts.shape }
    requires coherent { IsCoherent knowledge.old }
    requires right_each { ForEach (rig_state rig.old) (λ told. TrueOf told knowledge.old) }
    requires field { IsFieldOf knowledge.old.facts.shape state.old.field }
    requires whole { IsWhole knowledge.old.facts.shape state.old.field }
    requires left { state.old.choices.left ≡ 0 }
    requires paid { length state.old.choices.paid ≡ wires_of knowledge.old.facts.shape }
    requires none { size_of state.old.choices.paid ≡ 0 }
    ensures reached_each { OnOk result (ForEach (rig_state rig.new) (λ told. ReachedIf told knowledge.new.facts knowledge.new.verified.steps)) }
    ensures progress { ProgressButPairs (rig_state rig.old) (rig_state rig.new) knowledge.old knowledge.new }
    ensures loads { (rig_state rig.new).loads ≤ (rig_state rig.old).loads + loads_for knowledge.old.facts 16 20 }
    ensures few_each { ForEach (rig_state rig.new) (λ told. IfFaultless told knowledge.old.facts ((rig_state rig.new).loads ≤ (rig_state
        rig.old).loads + loads_for knowledge.old.facts 2 3)) }
    ensures cause { IsErrOf result RigFail.Failed → Rose (rig_state rig.old).failures (rig_state rig.new).failures }
{
    tests_add_up();
    growth_without_bad_is_paid();
    let before = loads_since(rig, 0);
    sweep_whole(rig, knowledge, state)?;
    state.swept = loads_since(rig, before);
    grow_whole(rig, knowledge, &state.field)?;
    know_lost(rig, knowledge, state)?;
    Ok(())
}

// The same from the first on: the known wires of the machine. Where wires are shorted, those stay that pins of tables need, as far as that
// is found. Says how many loads sweeps took.
fn know_from_first(
    alloc: Global,
    rig: &mut Box<dyn Rig>,
    knowledge: &mut Knowledge,
    parts: &mut Parts,
) -> Result<(), RigFail>
    requires attached { shape_of (rig_state rig.old) ≡ Some knowledge.old.facts.shape }
    requires coherent { IsCoherent knowledge.old }
    requires right_each { ForEach (rig_state rig.old) (λ told. TrueOf told knowledge.old) }
    ensures reached_each { OnOk result (ForEach (rig_state rig.new) (λ told. ReachedIf told knowledge.new.facts knowledge.new.verified.steps)) }
    ensures progress { ProgressButPairs (rig_state rig.old) (rig_state rig.new) knowledge.old knowledge.new }
    ensures loads { (rig_state rig.new).loads ≤ (rig_state rig.old).loads + loads_for knowledge.old.facts 16 20 }
    ensures few_each { ForEach (rig_state rig.new) (λ told. IfFaultless told knowledge.old.facts ((rig_state rig.new).loads ≤ (rig_state
        rig.old).loads + loads_for knowledge.old.facts 2 3)) }
    ensures cause { IsErrOf result RigFail.Failed → Rose (rig_state rig.old).failures (rig_state rig.new).failures }
{
    let Ok(mut state) = first_state(alloc, &knowledge.facts) else {
        return Err(RigFail::Memory);
    };
    let done = know_all(rig, knowledge, &mut state);
    parts.sweep = state.swept;
    done
}

// The tables that aren't marked wrong.
fn tables_left(alloc: Global, shape: &Shape, wrong: &BitSet) -> Result<Vec<Table>, AllocError>
    requires { length wrong.now ≡ tables_of shape.now }
    ensures count { IfOk result (λ tables. length tables.items ≤ tables_of shape.now) }
    ensures within { IfOk result (λ tables. All (λ t. t.0 < tables_of shape.now) tables.items) }
    ensures each { IfOk result (λ tables. (t : ℕ) → t < tables_of shape.now → (has_number wrong.now t ≡ true) ⊎ HasTable tables.items t) }
{
    let mut tables = Vec::new(alloc);
    'tables: for t in 0..shape.tables() {
        if wrong.has(t) {
            continue;
        }
        tables.push(Table(t))?;
    }
    Ok(tables)
}

// Tests over known wires all tables that aren't marked wrong.
fn test_all(
    alloc: Global,
    rig: &mut Box<dyn Rig>,
    facts: &mut Facts,
    known: &Known,
    bad: &DefectMarks,
) -> Result<(), RigFail>
    requires attached { shape_of (rig_state rig.old) ≡ Some facts.old.shape }
    requires known { IsKnown facts.old known.now }
    requires marks { AreMarksFor facts.old.shape bad.now }
    requires right_each { ForEach (rig_state rig.old) (λ told. TrueIf told facts.old known.now.steps bad.now) }
    ensures tables_each { OnOk result (ForEach (rig_state rig.new) (λ told. TablesIf told facts.old facts.new known.now.steps)) }
    ensures advances { Advances (rig_state rig.old) (rig_state rig.new) facts.old facts.new }
    ensures only { AddsOnlyTableFacts facts.old facts.new }
    ensures loads { (rig_state rig.new).loads ≤ (rig_state rig.old).loads + 130 * tables_of facts.old.shape }
    ensures cause { IsErrOf result RigFail.Failed → Rose (rig_state rig.old).failures (rig_state rig.new).failures }
{
    tests_add_up();
    let Ok(tables) = tables_left(alloc, &facts.shape(), &bad.wrong) else {
        return Err(RigFail::Memory);
    };
    test_tables(rig, facts, known, &tables)
}

// The diagnosis, where nothing is known yet.
fn diagnose_with(
    alloc: Global,
    rig: &mut Box<dyn Rig>,
    knowledge: &mut Knowledge,
    parts: &mut Parts,
) -> Result<Defects, RigFail>
    requires attached { shape_of (rig_state rig.old) ≡ Some knowledge.old.facts.shape }
    requires coherent { IsCoherent knowledge.old }
    requires nothing { KeepsNothing knowledge.old.facts }
    requires right { (told : Option Faults) → TrueOf told knowledge.old }

    ensures shape { IfOk result (λ d. d.shape ≡ knowledge.old.facts.shape) }
    ensures right_each { IfOk result (λ d. ForEach (rig_state rig.new) (λ told. IsDiagnosis told knowledge.old.facts.shape d.list)) }
    ensures advances { AdvancesButPairs (rig_state rig.old) (rig_state rig.new) knowledge.old.facts knowledge.new.facts }
    ensures loads { TakesAtMost knowledge.old.facts.shape (rig_state rig.old).loads (rig_state rig.new).loads }
    ensures loads_each { ForEach (rig_state rig.new) (λ told. TakesFewLoads told knowledge.old.facts.shape (rig_state rig.old).loads
        (rig_state rig.new).loads) }
    ensures cause { IsErrOf result RigFail.Failed → Rose (rig_state rig.old).failures (rig_state rig.new).failures }
{
    the_numbering_is_sound();
    tight_lists_are_fair();
    kept_facts_are_sound();
    let before = loads_since(rig, 0);
    know_from_first(alloc, rig, knowledge, parts)?;
    parts.growth = loads_since(rig, before).saturating_sub(parts.sweep);
    let before = loads_since(rig, 0);
    test_all(
        alloc,
        rig,
        &mut knowledge.facts,
        &knowledge.verified,
        &knowledge.marks,
    )?;
    parts.tables = loads_since(rig, before);
    match list_of(alloc, &knowledge.facts, &knowledge.verified) {
        Ok(list) => Ok(list),
        Err(_) => Err(RigFail::Memory),
    }
}

/// The diagnosis of `diagnose`, which says besides how many loads its parts took, where it ends with a list.
///
/// # Errors
///
/// `Failed` where a call of the rig failed, `Memory` where memory was lacking.
pub fn diagnose_in_parts(
    alloc: Global,
    rig: &mut Box<dyn Rig>,
    shape: &Shape,
    parts: &mut Parts,
) -> Result<Defects, RigFail>
    requires attached { shape_of (rig_state rig.old) ≡ Some shape.now }

    ensures shape { IfOk result (λ d. d.shape ≡ shape.now) }
    ensures right_each { IfOk result (λ d. ForEach (rig_state rig.new) (λ told. IsDiagnosis told shape.now d.list)) }
    ensures machine { (rig_state rig.new).machine ≡ (rig_state rig.old).machine }
    ensures later { (rig_state rig.old).failures ≤ (rig_state rig.new).failures }
    ensures counted { (rig_state rig.old).loads ≤ (rig_state rig.new).loads }
    ensures narrows { Narrows (rig_state rig.old) (rig_state rig.new) }
    ensures tells { Tells (rig_state rig.old) (rig_state rig.new) }
    ensures few { FewCycles (rig_state rig.old) (rig_state rig.new) }
    ensures loads { TakesAtMost shape.now (rig_state rig.old).loads (rig_state rig.new).loads }
    ensures loads_each { ForEach (rig_state rig.new) (λ told. TakesFewLoads told shape.now (rig_state rig.old).loads (rig_state
        rig.new).loads) }
    ensures cause { IsErrOf result RigFail.Failed → Rose (rig_state rig.old).failures (rig_state rig.new).failures }
{
    let Ok(mut knowledge) = Knowledge::none(alloc, shape) else {
        return Err(RigFail::Memory);
    };
    diagnose_with(alloc, rig, &mut knowledge, parts)
}

/// Finds what is wrong with the machine that is attached, and lists it. The list covers each set of faults that explains all that
/// was read of the machine, and is tight to it: nothing on it both works and can be reached over what is free. So it is fair: of served
/// nodes it holds no sound part, but lines with fewer than two sound crosspoints. At every end it took at most 16 loads for each
/// crosspoint, 20 for each wire and 130 for each table; and 2, 3 and 130 where all that was read is explained without faults. The count
/// of loads didn't fall. For each load it made at most 65 cycles, or one more than the machine has pins where that is more. Faults that
/// the rig tells explain what was read, if they did before.
///
/// # Errors
///
/// `Failed` where a call of the rig failed, `Memory` where memory was lacking.
pub fn diagnose(alloc: Global, rig: &mut Box<dyn Rig>, shape: &Shape) -> Result<Defects, RigFail>
    requires attached { shape_of (rig_state rig.old) ≡ Some shape.now }

    ensures shape { IfOk result (λ d. d.shape ≡ shape.now) }
    ensures right_each { IfOk result (λ d. ForEach (rig_state rig.new) (λ told. IsDiagnosis told shape.now d.list)) }
    ensures machine { (rig_state rig.new).machine ≡ (rig_state rig.old).machine }
    ensures later { (rig_state rig.old).failures ≤ (rig_state rig.new).failures }
    ensures counted { (rig_state rig.old).loads ≤ (rig_state rig.new).loads }
    ensures narrows { Narrows (rig_state rig.old) (rig_state rig.new) }
    ensures tells { Tells (rig_state rig.old) (rig_state rig.new) }
    ensures few { FewCycles (rig_state rig.old) (rig_state rig.new) }
    ensures cycles { TakesFewCycles (rig_state rig.old) (rig_state rig.new) }
    ensures loads { TakesAtMost shape.now (rig_state rig.old).loads (rig_state rig.new).loads }
    ensures loads_each { ForEach (rig_state rig.new) (λ told. TakesFewLoads told shape.now (rig_state rig.old).loads (rig_state
        rig.new).loads) }
    ensures cause { IsErrOf result RigFail.Failed → Rose (rig_state rig.old).failures (rig_state rig.new).failures }
{
    let mut parts = Parts::none();
    diagnose_in_parts(alloc, rig, shape, &mut parts)
}
