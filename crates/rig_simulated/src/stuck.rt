//! The crosspoints that are stuck, so that no load asks the faults for one.

ghost use Rattle.std.specs.Prelude.{IfOk};
ghost use Rattle.rig_simulated.specs.Stuck.{AreStuck};

use base_bits::BitSet;
use machine_faults::FaultSet;
use machine_shape::Cross;
use std::alloc::{AllocError, Global};

/// The set of the crosspoints that are stuck.
pub fn stuck_marks(alloc: Global, faults: &FaultSet) -> Result<BitSet, AllocError>
    ensures { IfOk result (AreStuck faults.now.shape faults.now.faults) }
{
    let crosses = faults.shape().crosses();
    let mut marks = BitSet::new(alloc, crosses)?;
    'crosses: for x in 0..crosses {
        if faults.cross_stuck(Cross(x)).is_some() {
            marks.insert(x);
        }
    }
    Ok(marks)
}
