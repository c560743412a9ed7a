//! The program: real files, standard output, and a simulated rig.
#![tactic(auto)]

use base_io::FileStore;
use cmd_top::teramac;
use program_main::{Surroundings, exit_code, surroundings_of};
use rig::{LogRig, Rig};
use rig_simulated::SimRig;
use std::alloc::{AllocError, Global};
use std::process::ExitCode;

// Runs the program over this rig, and answers its status.
fn over(
    alloc: Global,
    around: &mut Surroundings<HostRuntime>,
    sim: SimRig<FileStore<HostRuntime>>,
) -> Result<u8, AllocError> {
    let mut rig: Box<dyn Rig> = Box::new(alloc, LogRig::new(sim))?;
    let words = around.words.as_slice();
    Ok(teramac(alloc, words, &mut around.store, &mut rig, &mut around.sink))
}

// Runs the program over real files, standard output and a simulated rig with files of its own, and answers its status.
fn run(rt: &HostRuntime) -> Result<u8, AllocError> {
    let alloc: Global = rt.alloc();
    let files = rt.clone()?;
    let mut around = surroundings_of(rt)?;
    let sim = SimRig::new(alloc, FileStore::new(alloc, files));
    over(alloc, &mut around, sim)
}

fn main(rt: HostRuntime) -> ExitCode {
    exit_code(run(&rt))
}
