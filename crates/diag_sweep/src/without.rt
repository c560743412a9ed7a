//! A field without what is marked bad.
ghost use Rattle.std.specs.Prelude.{◌≡◌, IfOk, length};
ghost use Rattle.diag_sweep.specs.Without.{AreWithout, IsWithout};

use crate::defect_marks::DefectMarks;
use base_bits::BitSet;
use diag_known::Field;
use std::alloc::{AllocError, Global};

// A set of numbers without those of another.
fn subtract(alloc: Global, these: &BitSet, out: &BitSet) -> Result<BitSet, AllocError>
    requires { length out.now ≡ length these.now }
    ensures { IfOk result (AreWithout out.now these.now) }
{
    let mut rest = BitSet::new(alloc, these.len())?;
    'numbers: for i in 0..these.len() {
        if these.has(i) && !out.has(i) {
            rest.insert(i);
        }
    }
    Ok(rest)
}

/// The field without the crosspoints that are marked stuck, and without the wires that are marked unfit or unclear, pins of tables
/// among them. Marks and field are of one machine. Wants memory.
pub fn without_bad(alloc: Global, bad: &DefectMarks, field: &Field) -> Result<Field, AllocError>
    requires stuck { length bad.now.stuck ≡ length field.now.crosses }
    requires unfit { length bad.now.unfit ≡ length field.now.wires }
    requires unclear { length bad.now.unclear ≡ length field.now.wires }
    ensures { IfOk result (IsWithout bad.now field.now) }
{
    let crosses = subtract(alloc, &field.crosses, &bad.stuck)?;
    let fit = subtract(alloc, &field.wires, &bad.unfit)?;
    let wires = subtract(alloc, &fit, &bad.unclear)?;
    Ok(Field { wires, crosses })
}
