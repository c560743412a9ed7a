//! What the programs of examples share: the words and numbers of a line, a machine, the calls that fail, and the verdict.
#![tactic(auto)]

mod fails;

pub use fails::{Fails, Turn, turn_of};
use machine_shape::Counts;
use std::alloc::{AllocError, Global};
use std::io;
use std::process::ExitCode;
use std::str::FromStr;

/// The counts of the machine `tiny` of examples.
pub const TINY: Counts = Counts {
    modules: 1,
    chips: 1,
    hextants: 1,
    tables: 2,
    ports: [4, 4, 4],
    lines: [4, 4, 4, 4],
    pins: 4,
};

/// The exit code of a program of examples: 0 where all was right.
pub fn verdict(right: io::Result<bool>) -> ExitCode {
    match right {
        Ok(true) => ExitCode::from(0),
        _ => ExitCode::from(1),
    }
}

/// The words of a line.
pub fn words_of(alloc: Global, line: &str) -> Result<Vec<String>, AllocError> {
    let mut words = Vec::new(alloc);
    for word in line.split_whitespace() {
        words.push(String::from_str(alloc, word)?)?;
    }
    Ok(words)
}

/// The words behind one of them, up to the next that is the name of a part, or to the last.
pub fn words_of_part<'a>(words: &'a [String], place: usize, parts: &[&str]) -> &'a [String] {
    let Some((_, behind)) = words.split_at_checked(place.saturating_add(1)) else {
        return &[];
    };
    let count = behind
        .iter()
        .take_while(|word| !parts.iter().any(|part| *part == word.as_str()))
        .count();
    match behind.get(..count) {
        Some(own) => own,
        None => behind,
    }
}

/// The numbers that words spell, where each spells one.
pub fn numbers_of<N>(alloc: Global, words: &[String]) -> Result<Option<Vec<N>>, AllocError>
where
    N: FromStr + Drop,
    N::Err: Drop,
{
    let mut numbers = Vec::new(alloc);
    for word in words {
        match word.as_str().parse::<N>() {
            Ok(number) => numbers.push(number)?,
            Err(_) => return Ok(None),
        }
    }
    Ok(Some(numbers))
}
