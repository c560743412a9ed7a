//! A text of examples, case by case.

use crate::commands::block::{Block, blocks};
use crate::commands::design::ports_of;
use crate::commands::judge::{Trial, Want, judge};
use crate::commands::step::{Call, Each, Just, Marks, Step, call_of};
use crate::commands::trial::Given;
use base_io::File;
use example_kit::{numbers_of, turn_of};
use std::alloc::{AllocError, Global};

/// Why a text of examples isn't tried to its end.
#[derive(Drop)]
pub enum Trouble {
    /// This line isn't as it should be.
    Line(u64),
    /// There was no memory.
    Memory,
}

impl From<AllocError> for Trouble {
    fn from(_: AllocError) -> Self {
        Trouble::Memory
    }
}

/// A text of examples: what was said up to here, and how many cases were right.
#[derive(Drop)]
pub struct Book {
    alloc: Global,
    texts: Vec<File>,
    faults: Vec<File>,
    files: Vec<File>,
    name: String,
    step: Step,
    // Whether the case that stands open was tried, and whether it was right at each of its ends.
    tried: bool,
    wrong: bool,
    right: u64,
    all: u64,
}

// The words of a line behind its first.
fn rest_of(alloc: Global, line: &str) -> Result<Vec<String>, AllocError> {
    let mut words = Vec::new(alloc);
    for word in line.split_whitespace().skip(1) {
        words.push(String::from_str(alloc, word)?)?;
    }
    Ok(words)
}

// The first file of a name.
fn find<'a>(files: &'a [File], name: &str) -> Option<&'a File> {
    files.iter().find(|file| file.name.as_str() == name)
}

// Its first bytes, so many.
fn cut(alloc: Global, bytes: &[u8], count: usize) -> Result<Option<Vec<u8>>, AllocError> {
    match bytes.get(..count) {
        Some(first) => Ok(Some(Vec::from_slice(alloc, first)?)),
        None => Ok(None),
    }
}

// The bytes with the lowest bit of one of them changed.
fn flipped(alloc: Global, bytes: &[u8], at: usize) -> Result<Option<Vec<u8>>, AllocError> {
    let mut copy = Vec::from_slice(alloc, bytes)?;
    match copy.get_mut(at) {
        Some(byte) => *byte ^= 1,
        None => return Ok(None),
    }
    Ok(Some(copy))
}

// The first word.
fn first_of(words: &[String]) -> &str {
    match words {
        [first, ..] => first.as_str(),
        [] => "",
    }
}

// A line of words.
fn line_of(alloc: Global, words: &[String]) -> Result<Vec<u8>, AllocError> {
    let mut line = Vec::new(alloc);
    for word in words {
        if !line.is_empty() {
            line.push(b' ')?;
        }
        line.extend_from_slice(word.as_bytes())?;
    }
    if !line.is_empty() {
        line.push(b'\n')?;
    }
    Ok(line)
}

// What the words behind `each` say.
fn each_of(alloc: Global, words: &[String]) -> Result<Option<Each>, AllocError> {
    let [turn, status, last @ ..] = words else {
        return Ok(None);
    };
    let (Some(turn), Ok(status)) = (turn_of(turn.as_str()), status.as_str().parse::<u8>()) else {
        return Ok(None);
    };
    let last = line_of(alloc, last)?;
    Ok(Some(Each { turn, status, last }))
}

// Says which calls of a step fail; false where the words don't say it.
fn set_fails(alloc: Global, step: &mut Step, words: &[String]) -> Result<bool, AllocError> {
    let [turn, calls @ ..] = words else {
        return Ok(false);
    };
    let (Some(turn), Some(calls)) = (turn_of(turn.as_str()), numbers_of::<u64>(alloc, calls)?)
    else {
        return Ok(false);
    };
    step.fails.add(turn, &calls)?;
    Ok(true)
}

// Says one more thing of a step; false where the words don't say any.
fn set(alloc: Global, step: &mut Step, key: &str, words: Vec<String>) -> Result<bool, AllocError> {
    let first = first_of(&words);
    match key {
        "fails" => return set_fails(alloc, step, &words),
        "before" => step.before = first.parse::<u8>().ok(),
        "cuts" => step.cuts = true,
        "keep" => step.keep = Some(String::from_str(alloc, first)?),
        "stay" => step.stay = Some(String::from_str(alloc, first)?),
        "loads" => step.most_loads = first.parse::<u64>().ok(),
        "onward" => step.onward = true,
        "until" => step.until = first.parse::<usize>().ok(),
        "drips" => step.drips = first.parse::<usize>().ok(),
        "takes" => step.takes = first.parse::<usize>().ok(),
        "together" => match first.parse::<usize>() {
            Ok(lines) => step.together = lines,
            Err(_) => return Ok(false),
        },
        "each" => step.each = each_of(alloc, &words)?,
        "pieces" => match numbers_of::<usize>(alloc, &words)? {
            Some(sizes) => step.pieces = sizes,
            None => return Ok(false),
        },
        _ => return Ok(false),
    }
    Ok(true)
}

// Says which lines are written; false where the words don't say it.
fn mark(
    alloc: Global,
    marks: &mut Marks,
    key: &str,
    words: Vec<String>,
    body: Vec<u8>,
) -> Result<bool, AllocError> {
    match key {
        "some" => marks.some = Some(String::from_utf8_lossy(alloc, &body)?),
        "just" => match first_of(&words).parse::<usize>() {
            Ok(count) => {
                let lines = String::from_utf8_lossy(alloc, &body)?;
                marks.just = Some(Just { lines, count });
            }
            Err(_) => return Ok(false),
        },
        "only" => {
            marks.only = String::from_utf8_lossy(alloc, &body)?;
            marks.words = words;
        }
        "last" => marks.last = body,
        _ => return Ok(false),
    }
    Ok(true)
}

impl Book {
    /// Nothing said yet.
    pub fn new(alloc: Global) -> Book {
        Book {
            alloc,
            texts: Vec::new(alloc),
            faults: Vec::new(alloc),
            files: Vec::new(alloc),
            name: String::new(alloc),
            step: Step::new(alloc, Vec::new(alloc), Call::Commands),
            tried: false,
            wrong: false,
            right: 0,
            all: 0,
        }
    }

    /// How many cases were right, and how many there were.
    pub fn counts(&self) -> (u64, u64) {
        (self.right, self.all)
    }

    // Ends the case that stands open.
    fn close(&mut self) {
        if self.tried && !self.wrong {
            self.right = self.right.saturating_add(1);
        }
        self.tried = false;
        self.wrong = false;
    }

    // Begins a case.
    fn begin(&mut self, name: &str) -> Result<(), AllocError> {
        self.close();
        self.all = self.all.saturating_add(1);
        self.name = String::from_str(self.alloc, name)?;
        self.files = Vec::new(self.alloc);
        Ok(())
    }

    // Tries the step, where this has to come of it.
    fn try_step(&mut self, rt: &impl Print, want: Want<'_>) -> Result<(), AllocError> {
        let trial = Trial {
            name: self.name.as_str(),
            given: Given {
                files: &self.files,
                texts: &self.texts,
                faults: &self.faults,
            },
            step: &self.step,
            want,
        };
        let (right, bytes) = judge(rt, self.alloc, &trial)?;
        self.tried = true;
        self.wrong = self.wrong || !right;
        if let Some(name) = self.step.keep.take() {
            self.files.push(File { name, bytes })?;
        } else if let Some(name) = self.step.stay.take() {
            self.texts.push(File { name, bytes })?;
        }
        Ok(())
    }

    // Adds a file; false where the words say none.
    fn give(&mut self, key: &str, name: &str, bytes: Vec<u8>) -> Result<bool, AllocError> {
        let name = String::from_str(self.alloc, name)?;
        let file = File { name, bytes };
        match key {
            "text" => self.texts.push(file)?,
            "faults" => self.faults.push(file)?,
            "file" => self.files.push(file)?,
            _ => return Ok(false),
        }
        Ok(true)
    }

    // A file of a name, this case's before those of all.
    fn named(&self, name: &str) -> Option<&File> {
        match find(&self.files, name) {
            Some(file) => Some(file),
            None => find(&self.texts, name),
        }
    }

    // Adds a file that is made of another; false where the words say none.
    fn change(&mut self, key: &str, words: &[String]) -> Result<bool, AllocError> {
        let [name, number, new] = words else {
            return Ok(false);
        };
        let (Some(file), Ok(number)) = (self.named(name.as_str()), number.as_str().parse::<usize>())
        else {
            return Ok(false);
        };
        let bytes = match key {
            "cut" => cut(self.alloc, &file.bytes, number)?,
            _ => flipped(self.alloc, &file.bytes, number)?,
        };
        match bytes {
            Some(bytes) => self.give("file", new.as_str(), bytes),
            None => Ok(false),
        }
    }

    // Tries the step where the words say what has to come; false where they don't.
    fn end(
        &mut self,
        rt: &impl Print,
        status: &str,
        bytes: &[u8],
        whole: bool,
    ) -> Result<bool, AllocError> {
        let Ok(status) = status.parse::<u8>() else {
            return Ok(false);
        };
        let want = Want {
            status,
            bytes,
            whole,
        };
        self.try_step(rt, want)?;
        Ok(true)
    }

    // Tries the step where it has to write what a file has; false where the words name none.
    fn repeat(&mut self, rt: &impl Print, words: &[String]) -> Result<bool, AllocError> {
        let [status, name] = words else {
            return Ok(false);
        };
        let Some(file) = self.named(name.as_str()) else {
            return Ok(false);
        };
        let bytes = Vec::from_slice(self.alloc, &file.bytes)?;
        self.end(rt, status.as_str(), &bytes, true)
    }

    // Says of the step that it writes a design with the ports of a file; false where the words name none.
    fn ask_design(&mut self, words: &[String]) -> Result<bool, AllocError> {
        let [name, most @ ..] = words else {
            return Ok(false);
        };
        let Some(file) = self.named(name.as_str()) else {
            return Ok(false);
        };
        let text = String::from_utf8_lossy(self.alloc, &file.bytes)?;
        let most = first_of(most).parse::<usize>().ok();
        self.step.marks.design = Some(ports_of(self.alloc, text.as_str(), most)?);
        Ok(true)
    }

    // Does what a head says, with the bytes below it; false where it says nothing.
    fn read(&mut self, rt: &impl Print, head: &str, body: Vec<u8>) -> Result<bool, AllocError> {
        let words = rest_of(self.alloc, head)?;
        let key = head.split_whitespace().next().unwrap_or("");
        let first = first_of(&words);
        match key {
            "case" => {
                self.begin(first)?;
                Ok(true)
            }
            "words" | "maps" | "ports" => {
                self.step = Step::new(self.alloc, words, call_of(key));
                Ok(true)
            }
            "design" => self.ask_design(&words),
            "text" | "faults" | "file" => self.give(key, first, body),
            "cut" | "flip" => self.change(key, &words),
            "some" | "just" | "only" | "last" => {
                mark(self.alloc, &mut self.step.marks, key, words, body)
            }
            "ends" => self.end(rt, first, &body, true),
            "begins" => self.end(rt, first, &body, false),
            "repeats" => self.repeat(rt, &words),
            _ => set(self.alloc, &mut self.step, key, words),
        }
    }

    /// Tries all cases of a text, and prints what came of each that isn't right.
    pub fn try_all(&mut self, rt: &impl Print, text: &str) -> Result<(), Trouble> {
        for block in blocks(self.alloc, text)? {
            let Block { line, head, body } = block;
            if !self.read(rt, head.as_str(), body)? {
                return Err(Trouble::Line(line));
            }
        }
        self.close();
        Ok(())
    }
}
