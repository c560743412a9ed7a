//! Examples over the program's calls, by parts. A word names a part, and up to the next part's name stand the texts of its cases:
//!
//! - `commands NAME ..`: what is said, what is given, and what has to come of it;
//! - `documents NAME ..`: the same, of the commands that the documents show;
//! - `rigs NAME ..`: commands over rigs that compare readings, and over machines behind ports.
//!
//! The status is 0 where all is right.
#![tactic(auto)]

mod commands;
mod over;
mod rigs;

use example_kit::{verdict, words_of_part};
use program_main::texts;
use std::io;
use std::process::ExitCode;

/// The names of the parts.
const PARTS: [&str; 3] = ["commands", "documents", "rigs"];

// Does the part of a name with these texts, and tells whether all of it is right.
fn part(rt: &HostRuntime, name: &str, texts: &[String]) -> io::Result<bool> {
    match name {
        "commands" | "documents" => commands::try_texts(rt, texts),
        "rigs" => rigs::try_texts(rt, texts),
        other => {
            println!(rt; "what is {other}?")?;
            Ok(false)
        }
    }
}

// Does all parts, and tells whether all of them are right and there is one.
fn run(rt: &HostRuntime) -> io::Result<bool> {
    let words = texts(rt)?;
    let mut place = 0usize;
    let mut right = !words.is_empty();
    'parts: for _ in 0..words.len() {
        let Some(name) = words.get(place) else {
            break;
        };
        let behind = words_of_part(&words, place, &PARTS);
        right = part(rt, name.as_str(), behind)? && right;
        place = place.saturating_add(1).saturating_add(behind.len());
    }
    Ok(right)
}

fn main(rt: HostRuntime) -> ExitCode {
    verdict(run(&rt))
}
