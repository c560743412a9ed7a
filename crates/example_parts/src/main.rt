//! Examples over the libraries, by parts. A word names a part, and up to the next part's name stand the words that it takes:
//!
//! - `values`: values from outside, and public calls that no command shows;
//! - `plans NAME ..`: the cases of texts about plans;
//! - `crossbars NAME ..`: the cases of texts about tests of crossbars;
//! - `show MACHINE DEFECTS DESIGN`: what is to be seen of the plans of a design.
//!
//! The status is 0 where all is right.
#![tactic(auto)]

mod crossbars;
mod plans;
mod values;

use example_kit::{verdict, words_of_part};
use program_main::texts;
use std::io;
use std::process::ExitCode;

/// The names of the parts.
const PARTS: [&str; 4] = ["values", "plans", "crossbars", "show"];

// Does the part of a name with these words, and tells whether all of it is right.
fn part(rt: &HostRuntime, name: &str, words: &[String]) -> io::Result<bool> {
    match (name, words) {
        ("values", []) => values::try_all(rt),
        ("plans", names) => plans::try_texts(rt, names),
        ("crossbars", names) => crossbars::try_texts(rt, names),
        ("show", [machine, defects, design]) => plans::show(
            rt,
            machine.as_str(),
            defects.as_str(),
            design.as_str(),
        ),
        _ => {
            println!(rt; "what is {name}?")?;
            Ok(false)
        }
    }
}

// Does all parts, and tells whether all of them are right and there is one.
fn run(rt: &HostRuntime) -> io::Result<bool> {
    let words = texts(rt)?;
    let mut place = 0usize;
    let mut right = !words.is_empty();
    'parts: for _ in 0..words.len() {
        let Some(name) = words.get(place) else {
            break;
        };
        let behind = words_of_part(&words, place, &PARTS);
        right = part(rt, name.as_str(), behind)? && right;
        place = place.saturating_add(1).saturating_add(behind.len());
    }
    Ok(right)
}

fn main(rt: HostRuntime) -> ExitCode {
    verdict(run(&rt))
}
