//! Loads of hangs: looked at, paid for, and made.
ghost use Rattle.std.specs.Prelude.{◌≡◌, [], Some, IsErrOf, OnOk};
ghost use Rattle.base_io.specs.Counts.{Rose};
ghost use Rattle.rig.specs.Rig.{shape_of};
ghost use Rattle.diag_evidence.specs.Kept.{Advances};
ghost use Rattle.diag_evidence.specs.Forests.{KeepsForest};
ghost use Rattle.diag_sweep.specs.Stages.{GoesYet, IsHand, in_hand};

use crate::defect_marks::DefectMarks;
use crate::footing::{are_fit, are_of_field, hangs_of};
use crate::held::hold;
use crate::sweep_state::SweepState;
use crate::trees::{is_known, pin_forest};
use diag_evidence::Facts;
use diag_known::{Field, Known};
use rig::{Rig, RigFail};

/// Looks at the pins of the machine while all known wires hang, if it can be paid. Pins may join the set.
pub(crate) fn pin_load(
    rig: &mut Box<dyn Rig>,
    facts: &mut Facts,
    known: &Known,
    bad: &DefectMarks,
    field: &Field,
    state: &SweepState,
) -> Result<(), RigFail>
    requires attached { shape_of (rig_state rig.old) ≡ Some facts.old.shape }
    requires hand { IsHand field.now (in_hand facts.old known.now bad.now state.now.budget (rig_state rig.old).loads) }
    ensures goes { GoesYet (rig_state rig.new) field.now [] (in_hand facts.old known.now bad.now state.now.budget (rig_state rig.old).loads)
        (in_hand facts.new known.now bad.now state.now.budget (rig_state rig.new).loads) }
    ensures advances { Advances (rig_state rig.old) (rig_state rig.new) facts.old facts.new }
    ensures cause { IsErrOf result RigFail.Failed → Rose (rig_state rig.old).failures (rig_state rig.new).failures }
{
    let Ok(forest) = pin_forest(known.alloc(), facts, known, field) else {
        return Err(RigFail::Memory);
    };
    if !facts.all_hang(&forest) {
        return Ok(());
    }
    if !state.budget.can_pay(rig, 1) {
        return Ok(());
    }
    facts.look_each(rig, &forest)
}

/// Tests the wires that the search has chosen over two crosspoints each, if they may be tested together and it can be paid. Wires may
/// join the set.
pub(crate) fn hang_load(
    rig: &mut Box<dyn Rig>,
    facts: &mut Facts,
    known: &Known,
    bad: &mut DefectMarks,
    field: &Field,
    state: &mut SweepState,
) -> Result<(), RigFail>
    requires attached { shape_of (rig_state rig.old) ≡ Some facts.old.shape }
    requires hand { IsHand field.now (in_hand facts.old known.now bad.old state.old.budget (rig_state rig.old).loads) }
    requires forest { KeepsForest facts.old state.old.held.forest }
    ensures goes { GoesYet (rig_state rig.new) field.now [] (in_hand facts.old known.now bad.old state.old.budget (rig_state rig.old).loads)
        (in_hand facts.new known.now bad.new state.new.budget (rig_state rig.new).loads) }
    ensures forest { OnOk result (KeepsForest facts.new state.new.held.forest) }
    ensures advances { Advances (rig_state rig.old) (rig_state rig.new) facts.old facts.new }
    ensures cause { IsErrOf result RigFail.Failed → Rose (rig_state rig.old).failures (rig_state rig.new).failures }
{
    let alloc = known.alloc();
    let Ok(()) = hold(&mut state.held, alloc, facts, &state.search.forest) else {
        return Err(RigFail::Memory);
    };
    let forest = &state.held.forest;
    let Ok(chosen) = hangs_of(alloc, &state.search.hanging.chosen) else {
        return Err(RigFail::Memory);
    };
    let hangs = chosen.as_slice();
    if !is_known(facts, known, forest) {
        return Ok(());
    }
    if !are_of_field(field, hangs) {
        return Ok(());
    }
    let Ok(fit) = are_fit(alloc, forest, hangs) else {
        return Err(RigFail::Memory);
    };
    if !fit {
        return Ok(());
    }
    if !state.budget.can_pay(rig, 3) {
        return Ok(());
    }
    facts.test_wires(rig, forest, hangs, &mut bad.unfit, &mut bad.unclear)
}
