//! A text of examples, case by case.

use crate::plans::figures::figures_of;
use crate::plans::shares::shares_of;
use crate::plans::texts::{Part, Texts};
use std::alloc::{AllocError, Global};

/// A text of examples: what was said up to here, and how many cases were right.
#[derive(Drop)]
pub struct Book {
    alloc: Global,
    name: String,
    texts: Texts,
    // The text to which lines are added.
    part: Part,
    right: u64,
    all: u64,
}

// What comes of the plans of a design, in words.
fn came_of(alloc: Global, texts: &Texts) -> Result<String, AllocError> {
    match figures_of(alloc, texts) {
        Some(figures) => figures.text(alloc),
        None => String::from_str(alloc, "no plan"),
    }
}

// What comes of two designs on one machine.
fn shared_by(alloc: Global, texts: &Texts) -> Result<String, AllocError> {
    match shares_of(alloc, texts) {
        Some(shares) => shares.text(alloc),
        None => String::from_str(alloc, "no plan"),
    }
}

impl Book {
    /// Nothing said yet.
    pub fn new(alloc: Global) -> Book {
        Book {
            alloc,
            name: String::new(alloc),
            texts: Texts::new(alloc),
            part: Part::Machine,
            right: 0,
            all: 0,
        }
    }

    /// How many cases were right, and how many there were.
    pub fn counts(&self) -> (u64, u64) {
        (self.right, self.all)
    }

    // Compares what came of a case with what had to come.
    fn compare(&mut self, rt: &impl Print, came: &str, want: &str) {
        self.all = self.all.saturating_add(1);
        if came == want {
            self.right = self.right.saturating_add(1);
            return;
        }
        let name = self.name.as_str();
        let _ = println!(rt; "{name}: {came}");
    }

    // Begins a text anew.
    fn begin(&mut self, part: Part) -> bool {
        self.texts.clear(self.alloc, part);
        self.part = part;
        true
    }

    // Does what a head says; false where it says nothing.
    fn read_head(&mut self, rt: &impl Print, line: &str) -> Result<bool, AllocError> {
        if let Some(name) = line.strip_prefix("case ") {
            self.name = String::from_str(self.alloc, name)?;
            return Ok(true);
        }
        if let Some(want) = line.strip_prefix("gives ") {
            let came = came_of(self.alloc, &self.texts)?;
            self.compare(rt, came.as_str(), want);
            return Ok(true);
        }
        if let Some(want) = line.strip_prefix("shares ") {
            let came = shared_by(self.alloc, &self.texts)?;
            self.compare(rt, came.as_str(), want);
            return Ok(true);
        }
        match line {
            "machine" => Ok(self.begin(Part::Machine)),
            "defects" => Ok(self.begin(Part::Defects)),
            "design" => Ok(self.begin(Part::Design)),
            "second" => Ok(self.begin(Part::Second)),
            _ => Ok(false),
        }
    }

    // Does what a line says; false where it says nothing.
    fn read(&mut self, rt: &impl Print, line: &str) -> Result<bool, AllocError> {
        if line.is_empty() || line.starts_with("#") {
            return Ok(true);
        }
        if let Some(text) = line.strip_prefix("| ") {
            self.texts.add(self.part, text)?;
            return Ok(true);
        }
        self.read_head(rt, line)
    }

    /// Tries all cases of a text, and prints what came of each that isn't right. Gives the first line that says nothing, behind
    /// which none is read.
    pub fn try_all(&mut self, rt: &impl Print, text: &str) -> Result<Option<u64>, AllocError> {
        let mut number = 0u64;
        'lines: for line in text.lines() {
            number = number.saturating_add(1);
            if !self.read(rt, line)? {
                return Ok(Some(number));
            }
        }
        Ok(None)
    }
}
