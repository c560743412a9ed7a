//! Worked examples of the tests of crossbars, as texts: what is wrong with a machine, what is asked, and what has to come.
//!
//! The head of `facts.txt` says how the texts are written.

mod answers;
mod bench;
mod book;
mod lines;
mod machine;
mod routes;
mod setup;
mod walk;
mod words;

use book::Book;
use std::{fs, io};

// Tries all cases of a text, and tells whether each of its lines says something.
fn try_text(rt: &HostRuntime, book: &mut Book, name: &str) -> io::Result<bool> {
    let text = fs::read_to_string(rt, name)?;
    match book.try_all(rt, text.as_str())? {
        Some(line) => {
            println!(rt; "{name}: what is line {line}?")?;
            Ok(false)
        }
        None => Ok(true),
    }
}

/// Tries all texts in their order, and tells whether all cases are right.
pub fn try_texts(rt: &HostRuntime, names: &[String]) -> io::Result<bool> {
    let mut book = Book::new(rt.alloc());
    let mut written = true;
    'texts: for name in names.iter() {
        written = try_text(rt, &mut book, name.as_str())? && written;
    }
    let (right, all) = book.counts();
    println!(rt; "{right} of {all} right")?;
    Ok(written && right == all)
}
