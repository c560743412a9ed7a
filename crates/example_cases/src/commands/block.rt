//! The lines of a text of examples: heads, and what stands below each.
ghost use Rattle.std.specs.Prelude.{◌<◌, IfSome};

use crate::commands::book::Trouble;
use std::alloc::{AllocError, Global};

/// A line that says something, and the bytes that the lines below it spell.
#[derive(Drop)]
pub struct Block {
    /// The number of the line, from 1.
    pub line: u64,
    /// The line.
    pub head: String,
    /// The bytes.
    pub body: Vec<u8>,
}

// The number that a digit of a hexadecimal byte stands for.
fn digit_of(byte: u8) -> Option<u8>
    ensures { IfSome result (λ n. n < 16) }
{
    match byte {
        b'0'..=b'9' => Some(byte - b'0'),
        b'a'..=b'f' => Some(byte - b'a' + 10),
        _ => None,
    }
}

// The byte of two digits.
fn byte_of(pair: &[u8]) -> Option<u8> {
    match pair {
        [high, low] => {
            let high = digit_of(*high)?;
            let low = digit_of(*low)?;
            Some(high * 16 + low)
        }
        _ => None,
    }
}

// Adds the bytes that a word spells in hexadecimal; false where it spells none.
fn add_hexadecimal(body: &mut Vec<u8>, word: &str) -> Result<bool, AllocError> {
    for pair in word.as_bytes().chunks(2) {
        match byte_of(pair) {
            Some(byte) => body.push(byte)?,
            None => return Ok(false),
        }
    }
    Ok(true)
}

// Adds the bytes of words in hexadecimal.
fn add_bytes(body: &mut Vec<u8>, text: &str) -> Result<bool, AllocError> {
    for word in text.split_whitespace() {
        if !add_hexadecimal(body, word)? {
            return Ok(false);
        }
    }
    Ok(true)
}

// A number, and the text behind it.
fn counted(text: &str) -> Option<(u64, &str)> {
    let (count, rest) = text.split_once(" ")?;
    let count = count.parse::<u64>().ok()?;
    Some((count, rest))
}

// Adds a text as often as the number before it says, each time with this end.
fn add_many(body: &mut Vec<u8>, text: &str, end: &str) -> Result<bool, AllocError> {
    let Some((count, text)) = counted(text) else {
        return Ok(false);
    };
    for _ in 0..count {
        body.extend_from_slice(text.as_bytes())?;
        body.extend_from_slice(end.as_bytes())?;
    }
    Ok(true)
}

// Adds a line as it stands.
fn add_line(body: &mut Vec<u8>, text: &str) -> Result<bool, AllocError> {
    body.extend_from_slice(text.as_bytes())?;
    body.push(b'\n')?;
    Ok(true)
}

// What a line is.
#[derive(Drop)]
enum Line<'a> {
    // One that says something.
    Head,
    // A line of text.
    Text(&'a str),
    // Bytes in hexadecimal.
    Bytes(&'a str),
    // A number and a text that stands so often.
    Many(&'a str),
    // A number and a text that stands so often as a line.
    Lines(&'a str),
    // Nothing.
    Passed,
}

fn line_of(line: &str) -> Line<'_> {
    if let Some(text) = line.strip_prefix("| ") {
        return Line::Text(text);
    }
    if let Some(text) = line.strip_prefix("= ") {
        return Line::Bytes(text);
    }
    if let Some(text) = line.strip_prefix("* ") {
        return Line::Many(text);
    }
    if let Some(text) = line.strip_prefix("+ ") {
        return Line::Lines(text);
    }
    if line == "|" {
        return Line::Text("");
    }
    if line.is_empty() || line.starts_with("#") {
        return Line::Passed;
    }
    Line::Head
}

// Adds what a line below a head spells; false where it spells nothing.
fn add(body: &mut Vec<u8>, line: &Line<'_>) -> Result<bool, AllocError> {
    match line {
        Line::Text(text) => add_line(body, text),
        Line::Bytes(text) => add_bytes(body, text),
        Line::Many(text) => add_many(body, text, ""),
        Line::Lines(text) => add_many(body, text, "\n"),
        Line::Head | Line::Passed => Ok(true),
    }
}

// Adds a line to the blocks; false where it doesn't belong there.
fn add_to(
    alloc: Global,
    blocks: &mut Vec<Block>,
    number: u64,
    line: &str,
) -> Result<bool, AllocError> {
    let spelled = line_of(line);
    if let Line::Head = spelled {
        let head = String::from_str(alloc, line)?;
        let body = Vec::new(alloc);
        blocks.push(Block {
            line: number,
            head,
            body,
        })?;
        return Ok(true);
    }
    match blocks.last_mut() {
        Some(block) => add(&mut block.body, &spelled),
        None => Ok(matches!(spelled, Line::Passed)),
    }
}

/// The blocks of a text.
pub fn blocks(alloc: Global, text: &str) -> Result<Vec<Block>, Trouble> {
    let mut blocks = Vec::new(alloc);
    let mut number = 0u64;
    for line in text.lines() {
        number = number.saturating_add(1);
        if !add_to(alloc, &mut blocks, number, line)? {
            return Err(Trouble::Line(number));
        }
    }
    Ok(blocks)
}
