//! Worked examples of the commands, as texts: what is said, what is given, and what has to come of it.
//!
//! The head of `fixtures.txt` says how the texts are written.

mod block;
mod book;
mod design;
mod judge;
mod step;
mod trial;

use book::{Book, Trouble};
use std::{fs, io};

// Tries all cases of a text, and tells whether it is written as it should be.
fn try_text(rt: &HostRuntime, book: &mut Book, name: &str) -> io::Result<bool> {
    let text = fs::read_to_string(rt, name)?;
    match book.try_all(rt, text.as_str()) {
        Ok(()) => Ok(true),
        Err(Trouble::Line(line)) => {
            println!(rt; "{name}: what is line {line}?")?;
            Ok(false)
        }
        Err(Trouble::Memory) => {
            println!(rt; "{name}: no memory")?;
            Ok(false)
        }
    }
}

/// Tries all texts in their order, prints how many cases of each were right, and tells whether all are.
pub fn try_texts(rt: &HostRuntime, names: &[String]) -> io::Result<bool> {
    let mut book = Book::new(rt.alloc());
    let mut written = true;
    for name in names.iter() {
        let (right_before, all_before) = book.counts();
        if !try_text(rt, &mut book, name.as_str())? {
            written = false;
        }
        let (right, all) = book.counts();
        let right = right.saturating_sub(right_before);
        let all = all.saturating_sub(all_before);
        println!(rt; "{name}: {right} of {all}")?;
    }
    let (right, all) = book.counts();
    println!(rt; "{right} of {all} right")?;
    Ok(written && right == all)
}
