//! The mapper: real files and standard output.
#![tactic(auto)]

use cmd_map::teramac_map;
use program_main::{exit_code, surroundings_of};
use std::alloc::{AllocError, Global};
use std::process::ExitCode;

// Runs the mapper over real files and standard output, and answers its status.
fn run(rt: &HostRuntime) -> Result<u8, AllocError> {
    let alloc: Global = rt.alloc();
    let mut around = surroundings_of(rt)?;
    let words = around.words.as_slice();
    Ok(teramac_map(alloc, words, &mut around.store, &mut around.sink))
}

fn main(rt: HostRuntime) -> ExitCode {
    exit_code(run(&rt))
}
