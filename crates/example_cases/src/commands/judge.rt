//! Whether what came of a command is what had to come.

use crate::commands::design::has_ports;
use crate::commands::step::{Each, Marks, Step};
use crate::commands::trial::{Given, Manner, Outcome, outcome_of};
use example_kit::Fails;
use std::alloc::{AllocError, Global};

/// So many calls fail in turn at most.
const MOST_CALLS: u64 = 1_000_000;

/// The status that has to come where a sink is full.
const CUT: u8 = 5;

/// What has to come of a command.
#[derive(Drop)]
pub struct Want<'a> {
    pub status: u8,
    pub bytes: &'a [u8],
    /// Whether the bytes are all that is written, and not just how it begins.
    pub whole: bool,
}

// Whether an outcome is the one that has to come.
fn is_wanted(want: &Want<'_>, outcome: &Outcome) -> bool {
    if outcome.status != want.status {
        return false;
    }
    if want.whole {
        return outcome.bytes.as_slice() == want.bytes;
    }
    outcome.bytes.as_slice().starts_with(want.bytes)
}

// How many lines end in these bytes.
fn count_lines(bytes: &[u8]) -> usize {
    bytes.iter().filter(|byte| **byte == b'\n').count()
}

// Whether these bytes are no lines of a text, or its first ones, at least so many.
fn are_first_lines(bytes: &[u8], text: &[u8], together: usize) -> bool {
    if bytes.is_empty() {
        return true;
    }
    text.starts_with(bytes) && bytes.ends_with(b"\n") && together <= count_lines(bytes)
}

// How many lines a command wrote where a call failed, before the line that says so. None where it ended as it must not.
fn lines_before(want: &Want<'_>, each: &Each, together: usize, outcome: &Outcome) -> Option<usize> {
    if outcome.status != each.status {
        return None;
    }
    let front = outcome.bytes.as_slice().strip_suffix(each.last.as_slice())?;
    if are_first_lines(front, want.bytes, together) {
        return Some(count_lines(front));
    }
    None
}

// Whether so many lines go on from so many by one line, where the first ones are written at once.
fn goes_on(before: usize, lines: usize, together: usize) -> bool {
    if before == 0 {
        return lines == 0 || lines == together;
    }
    before < lines && lines - before == 1
}

// Whether a text has this line.
fn has_line(text: &str, line: &str) -> bool {
    text.lines().any(|other| other == line)
}

// How many of these lines a text has.
fn count_had(text: &str, lines: &str) -> usize {
    lines.lines().filter(|line| has_line(text, line)).count()
}

// Whether a text has as many of some lines as is said, if anything is.
fn has_just(marks: &Marks, text: &str) -> bool {
    match &marks.just {
        Some(just) => count_had(text, just.lines.as_str()) == just.count,
        None => true,
    }
}

// Whether a line begins with one of these words.
fn begins_with_one(line: &str, words: &[String]) -> bool {
    let first = line.split_whitespace().next().unwrap_or("");
    words.iter().any(|word| word.as_str() == first)
}

// Whether a text is a design as is said, if anything is.
fn is_design(alloc: Global, marks: &Marks, text: &str) -> Result<bool, AllocError> {
    match &marks.design {
        Some(ports) => has_ports(alloc, ports, text),
        None => Ok(true),
    }
}

// Whether all holds that is said of the lines of a text.
fn is_marked(marks: &Marks, text: &str) -> bool {
    if let Some(some) = &marks.some {
        if !some.as_str().lines().any(|line| has_line(text, line)) {
            return false;
        }
    }
    let words = marks.words.as_slice();
    let only = marks.only.as_str();
    text.lines().all(|line| !begins_with_one(line, words) || has_line(only, line))
}

// Prints what came.
fn tell(rt: &impl Print, alloc: Global, name: &str, outcome: &Outcome) -> Result<(), AllocError> {
    let text = String::from_utf8_lossy(alloc, &outcome.bytes)?;
    let status = outcome.status;
    let loads = outcome.loads;
    let _ = println!(rt; "{name} ended with {status} after {loads} loads and wrote:\n{text}");
    Ok(())
}

/// What is tried.
#[derive(Drop)]
pub struct Trial<'a> {
    pub name: &'a str,
    pub given: Given<'a>,
    pub step: &'a Step,
    pub want: Want<'a>,
}

// What comes of a trial where these calls fail and the store gives pieces of this size.
fn outcome(
    alloc: Global,
    trial: &Trial<'_>,
    fails: &Fails,
    piece: Option<usize>,
    takes: Option<usize>,
) -> Result<Outcome, AllocError> {
    let manner = Manner {
        words: trial.step.words.as_slice(),
        call: trial.step.call,
        fails,
        before: trial.step.before,
        piece,
        takes,
    };
    outcome_of(alloc, &manner, &trial.given)
}

// Whether the loads are within their bound.
fn is_within(most: Option<u64>, loads: u64) -> bool {
    match most {
        Some(most) => loads <= most,
        None => true,
    }
}

// Whether it comes out as it has to over a store that gives pieces of this size; what is written.
fn try_piece(
    rt: &impl Print,
    alloc: Global,
    trial: &Trial<'_>,
    piece: Option<usize>,
) -> Result<(bool, Vec<u8>), AllocError> {
    let outcome = outcome(alloc, trial, &trial.step.fails, piece, trial.step.takes)?;
    let marks = &trial.step.marks;
    let text = String::from_utf8_lossy(alloc, &outcome.bytes)?;
    let right = is_wanted(&trial.want, &outcome)
        && is_within(trial.step.most_loads, outcome.loads)
        && is_marked(marks, text.as_str())
        && has_just(marks, text.as_str())
        && is_design(alloc, marks, text.as_str())?
        && outcome.bytes.as_slice().ends_with(&marks.last);
    if !right {
        tell(rt, alloc, trial.name, &outcome)?;
    }
    Ok((right, outcome.bytes))
}

// Whether it ends as it has to over each sink that takes too few bytes, and over the first that doesn't.
fn try_cuts(rt: &impl Print, alloc: Global, trial: &Trial<'_>) -> Result<bool, AllocError> {
    let bytes = trial.want.bytes;
    for most in 0..bytes.len() {
        let outcome = outcome(
            alloc,
            trial,
            &trial.step.fails,
            trial.step.drips,
            Some(most),
        )?;
        if outcome.status != CUT || outcome.bytes.as_slice() != &bytes[..most] {
            tell(rt, alloc, trial.name, &outcome)?;
            return Ok(false);
        }
    }
    let all = Some(bytes.len());
    let outcome = outcome(alloc, trial, &trial.step.fails, trial.step.drips, all)?;
    let right = is_wanted(&trial.want, &outcome);
    if !right {
        tell(rt, alloc, trial.name, &outcome)?;
    }
    Ok(right)
}

// Whether an end with so many lines may come behind one with so many, where calls fail in turn.
fn is_next(trial: &Trial<'_>, before: usize, lines: usize) -> bool {
    !trial.step.onward || goes_on(before, lines, trial.step.together)
}

// Whether an end with so many lines may be the last before the whole.
fn is_last(trial: &Trial<'_>, lines: usize) -> bool {
    match trial.step.until {
        Some(until) => lines == until,
        None => {
            let all = count_lines(trial.want.bytes);
            !trial.step.onward || goes_on(lines, all, trial.step.together)
        }
    }
}

// Whether it ends as it has to where each call fails in turn, and at last as if none did.
fn try_each(
    rt: &impl Print,
    alloc: Global,
    trial: &Trial<'_>,
    each: &Each,
) -> Result<bool, AllocError> {
    let mut before = 0;
    for call in 1..MOST_CALLS {
        let fails = Fails::one(alloc, each.turn, call)?;
        let outcome = outcome(alloc, trial, &fails, trial.step.drips, None)?;
        if is_wanted(&trial.want, &outcome) {
            let right = 1 < call && is_last(trial, before);
            if !right {
                tell(rt, alloc, trial.name, &outcome)?;
            }
            return Ok(right);
        }
        match lines_before(&trial.want, each, trial.step.together, &outcome) {
            Some(lines) if is_next(trial, before, lines) => before = lines,
            _ => {
                tell(rt, alloc, trial.name, &outcome)?;
                return Ok(false);
            }
        }
    }
    Ok(false)
}

// Whether all holds that is said besides of a trial.
fn try_rest(rt: &impl Print, alloc: Global, trial: &Trial<'_>) -> Result<bool, AllocError> {
    for piece in trial.step.pieces.iter() {
        let (right, _) = try_piece(rt, alloc, trial, Some(*piece))?;
        if !right {
            return Ok(false);
        }
    }
    if trial.step.cuts && !try_cuts(rt, alloc, trial)? {
        return Ok(false);
    }
    match &trial.step.each {
        Some(each) => try_each(rt, alloc, trial, each),
        None => Ok(true),
    }
}

/// Whether it comes out as it has to, in every way that is said; what is written.
pub fn judge(
    rt: &impl Print,
    alloc: Global,
    trial: &Trial<'_>,
) -> Result<(bool, Vec<u8>), AllocError> {
    let (right, bytes) = try_piece(rt, alloc, trial, trial.step.drips)?;
    if !right {
        return Ok((false, bytes));
    }
    let rest = try_rest(rt, alloc, trial)?;
    Ok((rest, bytes))
}
