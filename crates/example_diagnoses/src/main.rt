//! Small machines with faults, both as numbers make them: each is diagnosed as a whole and call by call.
//!
//! What a list, a fact and a mark have to be is looked at in plain numbers, by what is said of them and not by how they come about.
//! Each group of machines has faults of its own kinds; a line tells how many of it are right, and lines before it what is wrong with
//! the others. The word of the command line says how many machines a group has. The faults of one machine before them are said and not
//! drawn. The status is 0 where all of them are right.
#![tactic(auto)]

mod budget;
mod calls;
mod closed;
mod counts;
mod faults;
mod feet;
mod fields;
mod flags;
mod groups;
mod judge;
mod kept_facts;
mod looks;
mod marked;
mod marks;
mod picture;
mod seating;
mod shorts;
mod sight;
mod steps;
mod trial;
mod wrongs;

use example_kit::verdict;
use program_main::texts;
use std::io;
use std::process::ExitCode;

// Tries the one machine, and as many of each group as the last word says, and tells whether all are right and there are any.
fn run(rt: &HostRuntime) -> io::Result<bool> {
    let mut many = 0u32;
    'words: for word in texts(rt)?.iter() {
        many = word.parse::<u32>().unwrap_or(0);
    }
    let said = marked::try_said(rt)?;
    Ok(groups::try_all(rt, many)? && many > 0 && said)
}

fn main(rt: HostRuntime) -> ExitCode {
    verdict(run(&rt))
}
