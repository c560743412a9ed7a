//! The machine of a case.

use crate::crossbars::book::Case;
use base_io::{File, MemoryStore};
use example_kit::Turn;
use rig::{FlakyRig, LogRig};
use rig_simulated::SimRig;
use std::alloc::{AllocError, Global};

// The file `faults` with the faults of the case.
fn files_of(alloc: Global, case: &Case) -> Result<Vec<File>, AllocError> {
    let name = String::from_str(alloc, "faults")?;
    let bytes = Vec::from_slice(alloc, &case.faults)?;
    Ok(vec![in alloc; File { name, bytes }]?)
}

/// A rig of which the calls of the case fail, over a machine with the faults of the case in the file `faults`.
pub fn rig_of(
    alloc: Global,
    case: &Case,
) -> Result<LogRig<FlakyRig<SimRig<MemoryStore>>>, AllocError> {
    let failing = case.fails.of(alloc, Turn::Faults)?;
    let refusing = case.fails.of(alloc, Turn::Rig)?;
    let files = files_of(alloc, case)?;
    let store = MemoryStore::new(alloc, files, failing);
    let sim = SimRig::new(alloc, store);
    Ok(LogRig::new(FlakyRig::new(alloc, sim, refusing)))
}
