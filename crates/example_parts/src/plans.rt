//! Examples of plans, as texts: a machine, what of it is listed, a design, and what has to be seen of its plans.

mod book;
pub mod figures;
mod shares;
mod texts;

use book::Book;
use figures::figures_of;
use std::{fs, io};
use texts::{Designs, Texts};

// Tries all cases of a text, prints how many are right, and tells whether all are.
fn try_text(rt: &HostRuntime, name: &str) -> io::Result<bool> {
    let text = fs::read_to_string(rt, name)?;
    let mut book = Book::new(rt.alloc());
    let silent = book.try_all(rt, text.as_str())?;
    if let Some(line) = silent {
        println!(rt; "{name}: what is line {line}?")?;
    }
    let (right, all) = book.counts();
    println!(rt; "{name}: {right} of {all} right")?;
    Ok(silent.is_none() && right == all)
}

/// Tries all texts in their order, and tells whether all cases are right.
pub fn try_texts(rt: &HostRuntime, names: &[String]) -> io::Result<bool> {
    let mut right = true;
    'texts: for name in names.iter() {
        right = try_text(rt, name.as_str())? && right;
    }
    Ok(right)
}

// Prints what is to be seen of plans, and tells whether there are any.
fn show_texts(rt: &HostRuntime, texts: &Texts) -> io::Result<bool> {
    let Some(figures) = figures_of(rt.alloc(), texts) else {
        println!(rt; "no plan")?;
        return Ok(false);
    };
    let line = figures.text(rt.alloc())?;
    println!(rt; "{line}")?;
    Ok(true)
}

/// Prints what is to be seen of the plans of a design, and tells whether it has any.
pub fn show(rt: &HostRuntime, machine: &str, defects: &str, design: &str) -> io::Result<bool> {
    let machine = fs::read(rt, machine)?;
    let defects = fs::read(rt, defects)?;
    let first = fs::read(rt, design)?;
    let second = Vec::new(rt.alloc());
    let designs = Designs { first, second };
    let texts = Texts {
        machine,
        defects,
        designs,
    };
    show_texts(rt, &texts)
}
