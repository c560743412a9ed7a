//! The faults that simulated rigs of the cases find, by name.
ghost use Rattle.std.specs.Prelude.{◌≡◌, None, IfOk};

use crate::over::Sim;
use base_io::{File, MemoryStore};
use rig::Rig;
use rig_simulated::SimRig;
use std::alloc::{AllocError, Global};
use std::{fs, io};

// A fault text of this name begins.
fn begin(alloc: Global, files: &mut Vec<File>, name: &str) -> Result<(), AllocError> {
    let name = String::from_str(alloc, name)?;
    let bytes = Vec::new(alloc);
    files.push(File { name, bytes })?;
    Ok(())
}

// Adds a line to the last fault text, if there is one.
fn add(files: &mut Vec<File>, line: &str) -> Result<(), AllocError> {
    if let Some(file) = files.last_mut() {
        file.bytes.extend_from_slice(line.as_bytes())?;
        file.bytes.push(b'\n')?;
    }
    Ok(())
}

/// The fault texts of the file `faults`: behind a line `= NAME` stand the lines of the text of this name.
pub fn fault_files(rt: &HostRuntime) -> io::Result<Vec<File>> {
    let alloc: Global = rt.alloc();
    let text = fs::read_to_string(rt, "faults")?;
    let mut files: Vec<File> = Vec::new(alloc);
    'lines: for line in text.lines() {
        match line.strip_prefix("= ") {
            Some(name) => begin(alloc, &mut files, name)?,
            None => add(&mut files, line)?,
        }
    }
    Ok(files)
}

/// A simulated rig over these fault texts, in no session.
pub fn sim_over(alloc: Global, files: Vec<File>) -> Sim
    ensures { (⟦<SimRig<MemoryStore> as Rig>⟧.rig_state result).session ≡ None }
{
    SimRig::new(alloc, MemoryStore::new(alloc, files, Vec::new(alloc)))
}

/// A simulated rig over the fault texts of the file, in no session.
pub fn sim_of(rt: &HostRuntime) -> io::Result<Sim>
    ensures { IfOk result (λ rig. (⟦<SimRig<MemoryStore> as Rig>⟧.rig_state rig).session ≡ None) }
{
    let files = fault_files(rt)?;
    Ok(sim_over(rt.alloc(), files))
}
