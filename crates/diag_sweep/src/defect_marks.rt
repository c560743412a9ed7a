//! Marks of what tests have found bad.
ghost use Rattle.std.specs.Prelude.{◌≡◌, ℕ, false, IfOk};
ghost use Rattle.base_bits.specs.Numbers.{has_number};
ghost use Rattle.diag_sweep.specs.Marks.{AreMarksFor};

use base_bits::BitSet;
use machine_shape::Shape;
use std::alloc::{AllocError, Global};

/// Crosspoints, wires and tables that tests have found bad: crosspoints that are stuck, wires that aren't clear or are shorted to a
/// known one, those of them that aren't clear whatever is known, and tables with a wrong cell or a stuck register.
#[derive(Debug, Drop)]
pub struct DefectMarks {
    pub stuck: BitSet,
    pub unfit: BitSet,
    pub unclear: BitSet,
    pub wrong: BitSet,
}

impl DefectMarks {
    /// Nothing is marked. Wants memory.
    pub fn none(alloc: Global, shape: &Shape) -> Result<DefectMarks, AllocError>
        ensures marks { IfOk result (AreMarksFor shape.now) }
        ensures stuck { IfOk result (λ bad. (x : ℕ) → has_number bad.stuck x ≡ false) }
        ensures unfit { IfOk result (λ bad. (w : ℕ) → has_number bad.unfit w ≡ false) }
        ensures unclear { IfOk result (λ bad. (w : ℕ) → has_number bad.unclear w ≡ false) }
        ensures wrong { IfOk result (λ bad. (t : ℕ) → has_number bad.wrong t ≡ false) }
    {
        Ok(DefectMarks {
            stuck: BitSet::new(alloc, shape.crosses())?,
            unfit: BitSet::new(alloc, shape.wires())?,
            unclear: BitSet::new(alloc, shape.wires())?,
            wrong: BitSet::new(alloc, shape.tables())?,
        })
    }
}
