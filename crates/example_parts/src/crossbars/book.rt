//! A text of examples, case by case.

use crate::crossbars::lines::try_case;
use example_kit::{Fails, numbers_of, turn_of, words_of};
use machine_shape::{Counts, Shape};
use std::alloc::{AllocError, Global};

/// A line of a case: what it says, and what has to come of it.
#[derive(Drop)]
pub struct Line {
    pub number: u64,
    pub words: Vec<String>,
    pub want: String,
}

/// A case.
#[derive(Drop)]
pub struct Case {
    pub name: String,
    pub shape: Shape,
    /// The name under which the machine is attached.
    pub machine: String,
    /// The text of its faults.
    pub faults: Vec<u8>,
    /// The calls that fail, of the rig and of the store where it finds its faults.
    pub fails: Fails,
    pub lines: Vec<Line>,
}

/// A text of examples: what was said up to here, and how many cases were right.
#[derive(Drop)]
pub struct Book {
    alloc: Global,
    shape: Option<Shape>,
    case: Option<Case>,
    right: u64,
    all: u64,
}

// The shape of twelve counts.
fn shape_of(numbers: &[u16]) -> Option<Shape> {
    match numbers {
        [modules, chips, hextants, tables, o, p, q, k, l, m, n, pins] => Shape::new(Counts {
            modules: *modules,
            chips: *chips,
            hextants: *hextants,
            tables: *tables,
            ports: [*o, *p, *q],
            lines: [*k, *l, *m, *n],
            pins: *pins,
        })
        .ok(),
        _ => None,
    }
}

// The shape whose counts words say.
fn shape_of_words(alloc: Global, words: &[String]) -> Result<Option<Shape>, AllocError> {
    match numbers_of::<u16>(alloc, words)? {
        Some(counts) => Ok(shape_of(&counts)),
        None => Ok(None),
    }
}

// A line of a case. What has to come stands behind a colon between blanks.
fn line_of(alloc: Global, number: u64, text: &str) -> Result<Line, AllocError> {
    let (call, want) = match text.split_once(" : ") {
        Some((call, want)) => (call, want),
        None => (text, ""),
    };
    let words = words_of(alloc, call)?;
    let want = String::from_str(alloc, want)?;
    Ok(Line {
        number,
        words,
        want,
    })
}

impl Case {
    // A case with nothing said yet.
    fn new(alloc: Global, name: &str, shape: Shape) -> Result<Case, AllocError> {
        let name = String::from_str(alloc, name)?;
        let machine = String::from_str(alloc, "faults")?;
        Ok(Case {
            name,
            shape,
            machine,
            faults: Vec::new(alloc),
            fails: Fails::new(alloc),
            lines: Vec::new(alloc),
        })
    }

    // Adds a fault.
    fn add_fault(&mut self, entry: &str) -> Result<(), AllocError> {
        self.faults.extend_from_slice(entry.as_bytes())?;
        self.faults.push(b'\n')?;
        Ok(())
    }

    // Says which calls fail; false where the words don't say it.
    fn set_fails(&mut self, alloc: Global, words: &[String]) -> Result<bool, AllocError> {
        let [what, calls @ ..] = words else {
            return Ok(false);
        };
        let Some(calls) = numbers_of::<u64>(alloc, calls)? else {
            return Ok(false);
        };
        match turn_of(what.as_str()) {
            Some(turn) => self.fails.add(turn, &calls)?,
            None => return Ok(false),
        }
        Ok(true)
    }

    // Adds a line; false where it says nothing.
    fn add(&mut self, alloc: Global, number: u64, text: &str) -> Result<bool, AllocError> {
        if let Some(entry) = text.strip_prefix("fault ") {
            self.add_fault(entry)?;
            return Ok(true);
        }
        if let Some(name) = text.strip_prefix("attach ") {
            self.machine = String::from_str(alloc, name)?;
            return Ok(true);
        }
        if let Some(calls) = text.strip_prefix("fails ") {
            let words = words_of(alloc, calls)?;
            return self.set_fails(alloc, &words);
        }
        self.lines.push(line_of(alloc, number, text)?)?;
        Ok(true)
    }
}

impl Book {
    /// Nothing said yet.
    pub fn new(alloc: Global) -> Book {
        Book {
            alloc,
            shape: None,
            case: None,
            right: 0,
            all: 0,
        }
    }

    /// How many cases were right, and how many there were.
    pub fn counts(&self) -> (u64, u64) {
        (self.right, self.all)
    }

    // Tries the case that stands open.
    fn close(&mut self, rt: &impl Print) -> Result<(), AllocError> {
        let Some(case) = self.case.take() else {
            return Ok(());
        };
        self.all = self.all.saturating_add(1);
        if try_case(rt, self.alloc, &case)? {
            self.right = self.right.saturating_add(1);
        }
        Ok(())
    }

    // Begins a case; false where no machine is said.
    fn begin(&mut self, rt: &impl Print, name: &str) -> Result<bool, AllocError> {
        self.close(rt)?;
        let Some(shape) = self.shape else {
            return Ok(false);
        };
        self.case = Some(Case::new(self.alloc, name, shape)?);
        Ok(true)
    }

    // Sets the machine of the cases from here on; false where the words say none.
    fn set_machine(&mut self, rt: &impl Print, counts: &str) -> Result<bool, AllocError> {
        self.close(rt)?;
        let words = words_of(self.alloc, counts)?;
        self.shape = shape_of_words(self.alloc, &words)?;
        Ok(self.shape.is_some())
    }

    // Adds a line to the case that stands open; false where it says nothing.
    fn add(&mut self, number: u64, text: &str) -> Result<bool, AllocError> {
        match &mut self.case {
            Some(case) => case.add(self.alloc, number, text),
            None => Ok(false),
        }
    }

    // Does what a line says; false where it says nothing.
    fn read(&mut self, rt: &impl Print, number: u64, text: &str) -> Result<bool, AllocError> {
        if text.is_empty() || text.starts_with("#") {
            return Ok(true);
        }
        if let Some(counts) = text.strip_prefix("machine ") {
            return self.set_machine(rt, counts);
        }
        if let Some(name) = text.strip_prefix("case ") {
            return self.begin(rt, name);
        }
        self.add(number, text)
    }

    /// Tries all cases of a text, and prints what came of each line that isn't right. Gives the first line that says nothing,
    /// behind which none is read.
    pub fn try_all(&mut self, rt: &impl Print, text: &str) -> Result<Option<u64>, AllocError> {
        let mut number = 0u64;
        'lines: for line in text.lines() {
            number = number.saturating_add(1);
            if !self.read(rt, number, line)? {
                return Ok(Some(number));
            }
        }
        self.close(rt)?;
        Ok(None)
    }
}
