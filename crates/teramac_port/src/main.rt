//! The program over a machine behind a port: real files, standard output, and a rig that speaks with a machine over a file or two.
//!
//! The word RIG names the machine: `FILE`, one file both ways, `TO,FROM`, or `=LOG`, a recorded talk; before it may stand a digit from 2 to
//! 9 and `x`, and then each session is asked again so often that it was asked so many times in all.
#![tactic(auto)]

use cmd_top::teramac;
use program_main::{Surroundings, exit_code, surroundings_of};
use rig::Rig;
use rig_board::BoardRig;
use rig_doubled::RepeatRig;
use rig_port::FileBoard;
use std::alloc::{AllocError, Global};
use std::process::ExitCode;

// Runs the program over this board, and answers its status.
fn over(
    alloc: Global,
    around: &mut Surroundings<HostRuntime>,
    board: FileBoard<HostRuntime>,
) -> Result<u8, AllocError> {
    // Loads are those that the tool asks for: `RepeatRig` counts none that it makes to ask again.
    let board = BoardRig::new(alloc, board);
    let mut rig: Box<dyn Rig> = Box::new(alloc, RepeatRig::new(alloc, board))?;
    let words = around.words.as_slice();
    Ok(teramac(alloc, words, &mut around.store, &mut rig, &mut around.sink))
}

// Runs the program over real files, standard output and the machine behind the port, and answers its status.
fn run(rt: &HostRuntime) -> Result<u8, AllocError> {
    let alloc: Global = rt.alloc();
    let files = rt.clone()?;
    let mut around = surroundings_of(rt)?;
    over(alloc, &mut around, FileBoard::new(alloc, files))
}

fn main(rt: HostRuntime) -> ExitCode {
    exit_code(run(&rt))
}
