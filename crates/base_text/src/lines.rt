//! The logical lines of a text.

ghost use Rattle.std.specs.Prelude.{if◌then◌else◌, ◌≡◌, ◌∷◌, ◌+◌, ◌<◌, ◌≤◌, ◌^◌, ℕ, false, List, length, map, IfOk, OnErr, Ok, Err, None};
ghost use Rattle.std.specs.Prelude.{Some, slice_get, option_copied, IfErr, All};
ghost use Rattle.std.specs.Fmt.{decimal};
ghost use Rattle.base_text.specs.Bytes.{physical_lines, joining_part, has_bad_byte};
ghost use Rattle.base_text.specs.Written.{AreRows, IsWord, written, numbered};
ghost use Rattle.base_text.specs.Lines.{LogicalLine, line_of, texts_of, logical_lines, lines_from};
ghost use Rattle.base_text.specs.Faults.{IsFaultAt, TakesNext};
ghost use Rattle.base_text.specs.declared.lines.LineFault.TheVariants.{Memory};

use crate::bytes;
use std::alloc::{AllocError, Global};
use std::marker::Model;

/// A logical line that has words.
#[derive(Drop)]
pub struct Line<'a> {
    number: u64,
    words: Vec<&'a [u8]>,
}

impl<'a> Model for Line<'a> {
    ghost use Rattle.std.specs.Prelude.{map};
    ghost use Rattle.base_text.specs.Lines.{LogicalLine};

    ghost Value = { LogicalLine };

    ghost view = { λ l. record { number = l.number; words = map (λ w. w.now) l.words.items } };
}

impl<'a> Line<'a> {
    /// The number of its first physical line.
    pub fn number(&self) -> u64
        ensures { result ≡ self.now.number }
    {
        self.number
    }

    /// How many words it has.
    pub fn len(&self) -> usize
        ensures { result ≡ length self.now.words }
    {
        self.words.len()
    }

    /// Its words, in order; each is a part of the text.
    pub fn words(&self) -> &[&'a [u8]]
        ensures { map (λ w. w.now) result.now ≡ self.now.words }
    {
        &self.words
    }

    /// The word at this place, counted from 0.
    pub fn word(&self, k: usize) -> &'a [u8]
        requires { k < length self.now.words }
        ensures { slice_get self.now.words k ≡ Some result.now }
    {
        self.words[k]
    }
}

/// Why a line could not be read.
#[derive(Clone, Copy, Debug, PartialEq, Eq)]
pub enum LineFault {
    /// The logical line of this number has a bad byte outside comments.
    BadByte { line: u64 },
    /// Memory is wanting.
    Memory,
}

/// What is left after a logical line, and its words.
#[derive(Drop)]
struct Taken<'a> {
    words: Vec<&'a [u8]>,
    rest: &'a [u8],
    number: u64,
}

fn part_to_join(text: &[u8], joined: bool) -> Option<&[u8]>
    ensures { option_copied result ≡ (if joined then joining_part text.now else None) }
{
    if joined {
        bytes::joining_part(text)
    } else {
        None
    }
}

/// Takes the first logical line off the bytes, of which the first physical line has this number.
fn first_logical<'a>(
    alloc: Global,
    bytes: &'a [u8],
    number: u64,
    joined: bool,
) -> Result<Taken<'a>, AllocError>
    requires some { 0 < length bytes.now }
    requires room { number + length bytes.now < 2 ^ 64 }
    ensures line { IfOk result (λ t. map line_of (texts_of joined number (physical_lines bytes.now))
        ≡ record { number = number; words = map (λ w. w.now) t.words.items } ∷ map line_of
        (texts_of joined t.number (physical_lines t.rest.now))) }
    ensures room { IfOk result (λ t. t.number + length t.rest.now ≤ number + length bytes.now) }
    ensures shorter { IfOk result (λ t. length t.rest.now < length bytes.now) }
{
    let mut words = Vec::new(alloc);
    let mut rest = bytes;
    let mut next = number;
    while !rest.is_empty() {
        let (physical, after) = bytes::first_physical(rest);
        let text = bytes::uncommented(physical);
        rest = after;
        next += 1;
        match part_to_join(text, joined) {
            None => {
                bytes::push_words(&mut words, text)?;
                return Ok(Taken {
                    words,
                    rest,
                    number: next,
                });
            }
            Some(part) => bytes::push_words(&mut words, part)?,
        }
    }
    Ok(Taken {
        words,
        rest,
        number: next,
    })
}

/// The next line that has words, if there is one, and what is left after it.
#[derive(Drop)]
struct Found<'a> {
    line: Option<Line<'a>>,
    rest: &'a [u8],
    number: u64,
}

fn next_of<'a>(
    alloc: Global,
    bytes: &'a [u8],
    number: u64,
    joined: bool,
) -> Result<Found<'a>, LineFault>
    requires { number + length bytes.now < 2 ^ 64 }
    ensures found { IfOk result (λ f. TakesNext (lines_from joined number bytes.now) f.line (lines_from joined f.number f.rest.now)) }
    ensures room { IfOk result (λ f. f.number + length f.rest.now < 2 ^ 64) }
    ensures fault { IfErr result (IsFaultAt (lines_from joined number bytes.now)) }
{
    let mut rest = bytes;
    let mut next = number;
    'lines: while !rest.is_empty() {
        let Taken {
            words,
            rest: after,
            number: later,
        } = first_logical(alloc, rest, next, joined)?;
        if bytes::has_bad_byte(&words) {
            return Err(LineFault::BadByte { line: next });
        }
        if !words.is_empty() {
            let line = Some(Line {
                number: next,
                words,
            });
            return Ok(Found {
                line,
                rest: after,
                number: later,
            });
        }
        rest = after;
        next = later;
    }
    Ok(Found {
        line: None,
        rest,
        number: next,
    })
}

/// The logical lines of a text, which are taken off one by one. Contracts see those that are left.
#[derive(Drop)]
pub struct Lines<'a> {
    alloc: Global,
    rest: &'a [u8],
    number: u64,
    joined: bool,
}

impl<'a> Model for Lines<'a> {
    ghost use Rattle.std.specs.Prelude.{List, ◌<◌, ◌+◌, ◌^◌, length};
    ghost use Rattle.base_text.specs.Lines.{LogicalLine, lines_from};

    ghost Value = { List LogicalLine };

    ghost view = { λ l. lines_from l.joined l.number l.rest.now };

    ghost invariant = { λ l. l.number + length l.rest.now < 2 ^ 64 };
}

impl<'a> Lines<'a> {
    /// The lines of a text that have words, where a backslash joins a line to the next if `joined`. Takes no memory.
    pub fn new(alloc: Global, bytes: &'a [u8], joined: bool) -> Self
        ensures { result ≡ logical_lines joined bytes.now }
    {
        Lines {
            alloc,
            rest: bytes,
            number: 1,
            joined,
        }
    }

    /// Takes off the next line that has words; None where no such line is left.
    ///
    /// `BadByte` where that line has a bad byte. After an error the reader is as it was.
    pub fn next_line(&mut self) -> Result<Option<Line<'a>>, LineFault>
        ensures line { IfOk result (λ found. TakesNext self.old found self.new) }
        ensures fault { IfErr result (IsFaultAt self.old) }
        ensures err { OnErr result (self.new ≡ self.old) }
    {
        let Found { line, rest, number } = next_of(
            self.alloc,
            self.rest,
            self.number,
            self.joined,
        )?;
        self.rest = rest;
        self.number = number;
        Ok(line)
    }
}

impl From<AllocError> for LineFault {
    ghost from_gives = { λ _ e. e ≡ Memory };

    fn from(_e: AllocError) -> LineFault {
        LineFault::Memory
    }
}

/// Lines that are written with single spaces and a line feed behind each are read back, with their numbers.
pub fn written_lines_are_read()
    ensures lines { (rows : List (List (List ℕ))) → AreRows rows → logical_lines false (written rows) ≡ numbered 1 rows }
    ensures sound { (words : List (List ℕ)) → All IsWord words → has_bad_byte words ≡ false }
    ensures numerals { (n : ℕ) → n < 2 ^ 64 → IsWord (decimal n) }
{}
