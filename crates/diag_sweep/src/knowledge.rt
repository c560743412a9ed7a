//! What tests have shown of a machine.
ghost use Rattle.std.specs.Prelude.{◌≡◌, [], Option, IfOk};
ghost use Rattle.machine_meaning.specs.Faults.{Faults};
ghost use Rattle.diag_evidence.specs.Kept.{KeepsNothing};
ghost use Rattle.diag_sweep.specs.Shown.{IsCoherent, TrueOf};

use crate::defect_marks::DefectMarks;
use diag_evidence::Facts;
use diag_evidence::laws::kept_facts_are_sound;
use diag_known::Known;
use machine_shape::Shape;
use std::alloc::{AllocError, Global};

/// What tests have shown of a machine: the facts that are kept, the wires that are known by them, and marks of what was found bad.
#[derive(Drop)]
pub struct Knowledge {
    pub facts: Facts,
    pub verified: Known,
    pub marks: DefectMarks,
}

impl Knowledge {
    /// Nothing is kept, known or marked, which is true of each set of faults. Wants memory.
    pub fn none(alloc: Global, shape: &Shape) -> Result<Knowledge, AllocError>
        ensures shape { IfOk result (λ knowledge. knowledge.facts.shape ≡ shape.now) }
        ensures nothing { IfOk result (λ knowledge. KeepsNothing knowledge.facts) }
        ensures none { IfOk result (λ knowledge. knowledge.verified.steps ≡ []) }
        ensures coherent { IfOk result IsCoherent }
        ensures right { IfOk result (λ knowledge. (told : Option Faults) → TrueOf told knowledge) }
    {
        kept_facts_are_sound();
        let facts = Facts::new(alloc, *shape)?;
        let verified = Known::new(alloc, shape)?;
        let marks = DefectMarks::none(alloc, shape)?;
        Ok(Knowledge {
            facts,
            verified,
            marks,
        })
    }
}
