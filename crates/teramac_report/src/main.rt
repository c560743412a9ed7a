//! A report on a machine: its parts by level, what a diagnosis of it leaves, and how a design sits on that.
#![tactic(auto)]

mod level;
mod line;
mod listed;
mod plans;
mod report;

use base_io::FileStore;
use program_main::{Surroundings, exit_code, surroundings_of};
use report::report;
use rig::{LogRig, Rig};
use rig_simulated::SimRig;
use std::alloc::{AllocError, Global};
use std::process::ExitCode;

// Reports over this rig, and answers the status.
fn over(
    alloc: Global,
    around: &mut Surroundings<HostRuntime>,
    sim: SimRig<FileStore<HostRuntime>>,
) -> Result<u8, AllocError> {
    let mut rig: Box<dyn Rig> = Box::new(alloc, LogRig::new(sim))?;
    let words = around.words.as_slice();
    Ok(report(alloc, words, &mut around.store, &mut rig, &mut around.sink))
}

// Reports over real files, standard output and a simulated rig with files of its own, and answers the status.
fn run(rt: &HostRuntime) -> Result<u8, AllocError> {
    let alloc: Global = rt.alloc();
    let files = rt.clone()?;
    let mut around = surroundings_of(rt)?;
    let sim = SimRig::new(alloc, FileStore::new(alloc, files));
    over(alloc, &mut around, sim)
}

fn main(rt: HostRuntime) -> ExitCode {
    exit_code(run(&rt))
}
