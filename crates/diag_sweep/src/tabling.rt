//! A load of tables: looked at, paid for, and made.
ghost use Rattle.std.specs.Prelude.{◌≡◌, Some, IsErrOf, OnOk};
ghost use Rattle.base_io.specs.Counts.{Rose};
ghost use Rattle.rig.specs.Rig.{shape_of};
ghost use Rattle.diag_evidence.specs.Kept.{Advances};
ghost use Rattle.diag_evidence.specs.Forests.{KeepsForest};
ghost use Rattle.diag_sweep.specs.Stages.{Goes, IsHand, hand_of, in_hand};

use crate::defect_marks::DefectMarks;
use crate::fits::{are_fit, are_given, table_forest};
use crate::held::{begin_held, hold};
use crate::informing::choose_tables;
use crate::knowledge::Knowledge;
use crate::sweep_state::TableSweep;
use crate::trees::is_known;
use crate::turns::{sweep_all, sweep_chosen};
use base_bits::BitSet;
use diag_evidence::Facts;
use diag_known::{Field, Known};
use rig::{Rig, RigFail};

/// More loads of tables than a chip has tables.
const MOST_LOADS: u32 = 65_536;

// Tests the tables that the search has chosen, if they may be tested together and it can be paid.
fn table_load(
    rig: &mut Box<dyn Rig>,
    facts: &mut Facts,
    known: &Known,
    bad: &mut DefectMarks,
    field: &Field,
    table_sweep: &TableSweep,
) -> Result<(), RigFail>
    requires attached { shape_of (rig_state rig.old) ≡ Some facts.old.shape }
    requires hand { IsHand field.now (in_hand facts.old known.now bad.old table_sweep.now.state.budget (rig_state rig.old).loads) }
    requires forest { KeepsForest facts.old table_sweep.now.state.held.forest }
    ensures goes { Goes (rig_state rig.new) field.now table_sweep.now.tables.items (in_hand facts.old known.now bad.old
        table_sweep.now.state.budget (rig_state rig.old).loads) (in_hand facts.new known.now bad.new table_sweep.now.state.budget
        (rig_state rig.new).loads) }
    ensures advances { Advances (rig_state rig.old) (rig_state rig.new) facts.old facts.new }
    ensures cause { IsErrOf result RigFail.Failed → Rose (rig_state rig.old).failures (rig_state rig.new).failures }
{
    let alloc = known.alloc();
    let held = &table_sweep.state.held.forest;
    let links = &table_sweep.state.search.testing.links;
    let Ok(forest) = table_forest(alloc, facts, held, links) else {
        return Err(RigFail::Memory);
    };
    let Ok(mut pins) = BitSet::new(alloc, forest.shape().pins()) else {
        return Err(RigFail::Memory);
    };
    let tables = table_sweep.state.search.testing.chosen.as_slice();
    if !is_known(facts, known, &forest) {
        return Ok(());
    }
    if !are_given(&table_sweep.tables, tables) {
        return Ok(());
    }
    if !table_sweep.state.budget.can_pay(rig, 2) {
        return Ok(());
    }
    let Ok(fit) = are_fit(alloc, &forest, &mut pins, tables) else {
        return Err(RigFail::Memory);
    };
    if !fit {
        return Ok(());
    }
    facts.tables_each(rig, &forest, tables, &mut bad.wrong)
}

// Tests tables of the chip that the search is at in one load, if some are found. False where none is left to test, or none could
// be laid too often.
fn table_turn(
    rig: &mut Box<dyn Rig>,
    facts: &mut Facts,
    known: &Known,
    bad: &mut DefectMarks,
    field: &Field,
    table_sweep: &mut TableSweep,
) -> Result<bool, RigFail>
    requires attached { shape_of (rig_state rig.old) ≡ Some facts.old.shape }
    requires hand { IsHand field.now (in_hand facts.old known.now bad.old table_sweep.old.state.budget (rig_state rig.old).loads) }
    requires forest { KeepsForest facts.old table_sweep.old.state.held.forest }
    ensures goes { Goes (rig_state rig.new) field.now table_sweep.old.tables.items (in_hand facts.old known.now bad.old
        table_sweep.old.state.budget (rig_state rig.old).loads) (in_hand facts.new known.now bad.new table_sweep.new.state.budget
        (rig_state rig.new).loads) }
    ensures forest { OnOk result (KeepsForest facts.new table_sweep.new.state.held.forest) }
    ensures tables { table_sweep.new.tables ≡ table_sweep.old.tables }
    ensures advances { Advances (rig_state rig.old) (rig_state rig.new) facts.old facts.new }
    ensures cause { IsErrOf result RigFail.Failed → Rose (rig_state rig.old).failures (rig_state rig.new).failures }
{
    let search = &mut table_sweep.state.search;
    let Ok(found) = choose_tables(
        search,
        known.alloc(),
        facts,
        &bad.wrong,
        &table_sweep.tables,
    ) else {
        return Err(RigFail::Memory);
    };
    if !found || !table_sweep.state.budget.can_pay(rig, 2) {
        return Ok(false);
    }
    if table_sweep.state.search.testing.chosen.is_empty() {
        return Ok(true);
    }
    let state = &mut table_sweep.state;
    let Ok(()) = hold(&mut state.held, known.alloc(), facts, &state.search.forest) else {
        return Err(RigFail::Memory);
    };
    table_load(rig, facts, known, bad, field, table_sweep)?;
    Ok(true)
}

// Tests tables of the chip that the search is at until none is left to test, or it can't be paid.
#[tactic(auto, using(crate::proofs::Tabled::tested_none))]
fn test_chip(
    rig: &mut Box<dyn Rig>,
    facts: &mut Facts,
    known: &Known,
    bad: &mut DefectMarks,
    field: &Field,
    table_sweep: &mut TableSweep,
) -> Result<(), RigFail>
    requires attached { shape_of (rig_state rig.old) ≡ Some facts.old.shape }
    requires hand { IsHand field.now (in_hand facts.old known.now bad.old table_sweep.old.state.budget (rig_state rig.old).loads) }
    requires forest { KeepsForest facts.old table_sweep.old.state.held.forest }
    ensures goes { Goes (rig_state rig.new) field.now table_sweep.old.tables.items (in_hand facts.old known.now bad.old
        table_sweep.old.state.budget (rig_state rig.old).loads) (in_hand facts.new known.now bad.new table_sweep.new.state.budget
        (rig_state rig.new).loads) }
    ensures forest { OnOk result (KeepsForest facts.new table_sweep.new.state.held.forest) }
    ensures tables { table_sweep.new.tables ≡ table_sweep.old.tables }
    ensures advances { Advances (rig_state rig.old) (rig_state rig.new) facts.old facts.new }
    ensures cause { IsErrOf result RigFail.Failed → Rose (rig_state rig.old).failures (rig_state rig.new).failures }
{
    'loads: for _load in 0..MOST_LOADS {
        if !table_turn(rig, facts, known, bad, field, table_sweep)? {
            return Ok(());
        }
    }
    Ok(())
}

// Tests the tables of each chip.
#[tactic(auto, using(crate::proofs::Tabled::tested_none))]
fn test_tables(
    rig: &mut Box<dyn Rig>,
    knowledge: &mut Knowledge,
    field: &Field,
    table_sweep: &mut TableSweep,
) -> Result<(), RigFail>
    requires attached { shape_of (rig_state rig.old) ≡ Some knowledge.old.facts.shape }
    requires hand { IsHand field.now (hand_of knowledge.old table_sweep.old.state.budget (rig_state rig.old).loads) }
    ensures goes { Goes (rig_state rig.new) field.now table_sweep.old.tables.items (hand_of knowledge.old
        table_sweep.old.state.budget (rig_state rig.old).loads) (hand_of knowledge.new table_sweep.new.state.budget
        (rig_state rig.new).loads) }
    ensures tables { table_sweep.new.tables ≡ table_sweep.old.tables }
    ensures advances { Advances (rig_state rig.old) (rig_state rig.new) knowledge.old.facts knowledge.new.facts }
    ensures cause { IsErrOf result RigFail.Failed → Rose (rig_state rig.old).failures (rig_state rig.new).failures }
{
    let Ok(()) = table_sweep.state.search.begin_tables() else {
        return Err(RigFail::Memory);
    };
    let state = &mut table_sweep.state;
    let Ok(()) = begin_held(
        &mut state.held,
        knowledge.verified.alloc(),
        &knowledge.facts,
        &state.search.forest,
    ) else {
        return Err(RigFail::Memory);
    };
    'nodes: for node in 0..knowledge.facts.shape().nodes() {
        if !table_sweep.state.search.go_to_chip(node) {
            continue;
        }
        test_chip(
            rig,
            &mut knowledge.facts,
            &knowledge.verified,
            &mut knowledge.marks,
            field,
            table_sweep,
        )?;
    }
    Ok(())
}

/// Tests what is further and further from the pins of the machine, and then the tables.
pub(crate) fn sweep_sheet(
    rig: &mut Box<dyn Rig>,
    knowledge: &mut Knowledge,
    field: &Field,
    table_sweep: &mut TableSweep,
) -> Result<(), RigFail>
    requires attached { shape_of (rig_state rig.old) ≡ Some knowledge.old.facts.shape }
    requires hand { IsHand field.now (hand_of knowledge.old table_sweep.old.state.budget (rig_state rig.old).loads) }
    ensures goes { Goes (rig_state rig.new) field.now table_sweep.old.tables.items (hand_of knowledge.old
        table_sweep.old.state.budget (rig_state rig.old).loads) (hand_of knowledge.new table_sweep.new.state.budget
        (rig_state rig.new).loads) }
    ensures advances { Advances (rig_state rig.old) (rig_state rig.new) knowledge.old.facts knowledge.new.facts }
    ensures cause { IsErrOf result RigFail.Failed → Rose (rig_state rig.old).failures (rig_state rig.new).failures }
{
    sweep_all(rig, knowledge, field, &mut table_sweep.state)?;
    test_tables(rig, knowledge, field, table_sweep)
}

/// The same behind a choice.
pub(crate) fn sweep_again(
    rig: &mut Box<dyn Rig>,
    knowledge: &mut Knowledge,
    field: &Field,
    table_sweep: &mut TableSweep,
) -> Result<(), RigFail>
    requires attached { shape_of (rig_state rig.old) ≡ Some knowledge.old.facts.shape }
    requires hand { IsHand field.now (hand_of knowledge.old table_sweep.old.state.budget (rig_state rig.old).loads) }
    ensures goes { Goes (rig_state rig.new) field.now table_sweep.old.tables.items (hand_of knowledge.old
        table_sweep.old.state.budget (rig_state rig.old).loads) (hand_of knowledge.new table_sweep.new.state.budget
        (rig_state rig.new).loads) }
    ensures tables { table_sweep.new.tables ≡ table_sweep.old.tables }
    ensures advances { Advances (rig_state rig.old) (rig_state rig.new) knowledge.old.facts knowledge.new.facts }
    ensures cause { IsErrOf result RigFail.Failed → Rose (rig_state rig.old).failures (rig_state rig.new).failures }
{
    sweep_chosen(rig, knowledge, field, &mut table_sweep.state)?;
    test_tables(rig, knowledge, field, table_sweep)
}
