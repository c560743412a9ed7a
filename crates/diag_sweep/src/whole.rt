//! The whole sweep.
ghost use Rattle.std.specs.Prelude.{◌≡◌, Some, IsErrOf};
ghost use Rattle.base_io.specs.Counts.{Rose};
ghost use Rattle.rig.specs.Rig.{shape_of};
ghost use Rattle.diag_known.specs.Vocabulary.{IsFieldOf, GrowsIn};
ghost use Rattle.diag_sweep.specs.Marks.{MarksIn, Pays};
ghost use Rattle.diag_sweep.specs.Shown.{IsCoherent, Progress};

use crate::budget::LoadBudget;
use crate::knowledge::Knowledge;
use crate::sweep_state::{TableSweep, first_state};
use crate::tabling::sweep_sheet;
use diag_known::Field;
use diag_search::Aim;
use machine_shape::Table;
use rig::{Rig, RigFail};

/// Tests many crosspoints, wires and tables at once, as far as a purse pays for it: a load for each pin of the machine in the field, and
/// two for each crosspoint of the field that comes to be kept or marked stuck by it. What is known stays so, and further wires of the
/// field may be; what is found bad is marked. Nothing is promised of what it finds.
///
/// # Errors
///
/// `Failed` where a call of the rig failed, `Memory` where memory was lacking. What is known, kept and marked is as right as after an `Ok`.
pub fn sweep(
    rig: &mut Box<dyn Rig>,
    knowledge: &mut Knowledge,
    field: &Field,
    tables: &[Table],
) -> Result<(), RigFail>
    requires attached { shape_of (rig_state rig.old) ≡ Some knowledge.old.facts.shape }
    requires coherent { IsCoherent knowledge.old }
    requires field { IsFieldOf knowledge.old.facts.shape field.now }

    ensures grows { GrowsIn field.now knowledge.old.verified.steps knowledge.new.verified.steps }
    ensures marks { MarksIn field.now tables.now knowledge.old.marks knowledge.new.marks }
    ensures pays { Pays field.now knowledge.old.facts knowledge.old.marks (rig_state rig.old).loads knowledge.new.facts
        knowledge.new.marks (rig_state rig.new).loads }
    ensures progress { Progress (rig_state rig.old) (rig_state rig.new) knowledge.old knowledge.new }
    ensures cause { IsErrOf result RigFail.Failed → Rose (rig_state rig.old).failures (rig_state rig.new).failures }
{
    let alloc = knowledge.verified.alloc();
    let Ok(budget) = LoadBudget::new(alloc, rig, &knowledge.facts, &knowledge.marks, field) else {
        return Err(RigFail::Memory);
    };
    let Ok(state) = first_state(knowledge, field, budget, Aim::Rest) else {
        return Err(RigFail::Memory);
    };
    let Ok(tables) = Vec::from_slice(alloc, tables) else {
        return Err(RigFail::Memory);
    };
    sweep_sheet(rig, knowledge, field, &mut TableSweep { state, tables })
}
