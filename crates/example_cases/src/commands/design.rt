//! Designs that the mapper writes: their ports, and how many tables they have.

use std::alloc::{AllocError, Global};

/// The most words of a line `.names`: that one, six inputs and an output.
const MOST_NAMES: usize = 8;

/// What has to be so of a design that is written.
#[derive(Drop)]
pub struct Ports {
    pub inputs: String,
    pub outputs: String,
    pub most_tables: usize,
}

// The first word of a line.
fn head_of(line: &str) -> &str {
    line.split_whitespace().next().unwrap_or("")
}

// The words behind this first one, on all lines of the first model.
fn words_of(alloc: Global, text: &str, head: &str) -> Result<String, AllocError> {
    let mut words = String::new(alloc);
    let mut models = 0u64;
    for line in text.lines() {
        if head_of(line) == ".model" {
            models = models.saturating_add(1);
        }
        if models == 1 && head_of(line) == head {
            for word in line.split_whitespace().skip(1) {
                words.push_str(word)?;
                words.push(' ')?;
            }
        }
    }
    Ok(words)
}

// How many lines are covers or latches.
fn count_tables(text: &str) -> usize {
    text.lines()
        .filter(|line| head_of(line) == ".names" || head_of(line) == ".latch")
        .count()
}

// Whether a line is no instance, and no cover with more inputs than a table has.
fn is_plain(line: &str) -> bool {
    match head_of(line) {
        ".subckt" => false,
        ".names" => line.split_whitespace().count() <= MOST_NAMES,
        _ => true,
    }
}

/// The ports of a design, and so many tables at most, or as many as it has lines that are covers or latches.
pub fn ports_of(alloc: Global, text: &str, most: Option<usize>) -> Result<Ports, AllocError> {
    Ok(Ports {
        inputs: words_of(alloc, text, ".inputs")?,
        outputs: words_of(alloc, text, ".outputs")?,
        most_tables: most.unwrap_or(count_tables(text)),
    })
}

/// Whether a text is a design with these ports, with covers of at most six inputs, and no more tables.
pub fn has_ports(alloc: Global, ports: &Ports, text: &str) -> Result<bool, AllocError> {
    let inputs = words_of(alloc, text, ".inputs")?;
    let outputs = words_of(alloc, text, ".outputs")?;
    Ok(
        inputs.as_str() == ports.inputs.as_str()
            && outputs.as_str() == ports.outputs.as_str()
            && count_tables(text) <= ports.most_tables
            && text.lines().all(is_plain),
    )
}
