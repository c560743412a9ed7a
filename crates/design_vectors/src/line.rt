//! A physical line of a vector file, read byte by byte.

ghost use Rattle.std.specs.Prelude.{◌≡◌, ◌+◌, ◌-◌, ◌^◌, ◌<◌, ◌≤◌, [], ◌∷◌, length, false, map, IfOk, take, ◌==◌};
ghost use Rattle.design_vectors.specs.Lines.{HasRead};
ghost use Rattle.design_vectors.specs.Vectors.{bits_of, is_vector_byte, vector_size, is_row_blank, is_comment_mark, is_line_feed};

use crate::vectors::VectorKind;
use std::alloc::{AllocError, Global};
use std::marker::Model;

/// What reading a byte, or the end of the file, comes to.
#[derive(Clone, Copy)]
pub enum Step {
    /// The text goes on, or at the end of the file nothing is left.
    Onward,
    /// A vector's line has ended.
    Vector,
    /// The file has a fault on this line.
    Fault(VectorKind),
}

/// A line of which some bytes were read.
#[derive(Drop)]
pub struct Line {
    width: u32,
    limit: u64,
    number: u64,
    at: u64,
    in_comment: bool,
    /// The bytes of the vector so far are the first `count`.
    bytes: Vec<u8>,
    count: usize,
}

impl Model for Line {
    ghost use Rattle.design_vectors.specs.Lines.{PartLine};

    ghost Value = { PartLine };

    ghost use Rattle.design_vectors.specs.Inside.{part_line, IsPartLine};

    ghost view = { part_line };

    ghost invariant = { IsPartLine };
}

/// Whether the byte may stand in a vector of this width.
fn is_vector_byte(width: u32, byte: u8) -> bool
    ensures { result ≡ is_vector_byte width byte }
{
    if width == 0 {
        byte == b'.'
    } else {
        byte == b'0' || byte == b'1'
    }
}

/// Whether the byte is a space, a tab or a CR.
fn is_blank(byte: u8) -> bool
    ensures { result ≡ is_row_blank byte }
{
    byte == b' ' || byte == b'\t' || byte == b'\r'
}

impl Line {
    ghost use Rattle.design_vectors.specs.Lines.{PartLine, IsSound, HasRead, EndsAs, EndSays, begun};

    /// The first line, with room for the bytes of a vector.
    pub fn first(alloc: Global, width: u32, limit: u64) -> Result<Self, AllocError>
        requires { limit < 2 ^ 64 - 1 }
        ensures { IfOk result (λ l. l ≡ record { width = width; limit = limit; number = 1; at = 0; in_comment = false; shown = [] }) }
    {
        let size = if width == 0 { 1 } else { width as usize };
        let bytes = vec![in alloc; 0u8; size]?;
        Ok(Line {
            width,
            limit,
            number: 1,
            at: 0,
            in_comment: false,
            bytes,
            count: 0,
        })
    }

    /// Its number, from 1. What was read of the line is right so far.
    pub fn number(&self) -> u64
        ensures value { result ≡ self.now.number }
        ensures sound { IsSound self.now }
    {
        self.number
    }

    /// Forgets what was read of it.
    pub fn begin(&mut self)
        ensures { self.new ≡ begun self.old }
    {
        self.in_comment = false;
        self.count = 0;
    }

    /// How many bytes of the file were read, and the number of the line.
    pub fn place(&self) -> (u64, u64)
        ensures at { result.0 ≡ self.now.at }
        ensures number { result.1 ≡ self.now.number }
        ensures within { self.now.at ≤ self.now.limit }
        ensures few { self.now.number ≤ self.now.at + 1 }
    {
        (self.at, self.number)
    }

    /// Goes back to the line of this number, before its first byte, where so many bytes of the file were read.
    pub fn go_back(&mut self, at: u64, number: u64)
        requires within { at ≤ self.old.limit }
        requires few { number ≤ at + 1 }
        ensures { self.new ≡ begun (record self.old { at = at; number = number }) }
    {
        self.at = at;
        self.number = number;
        self.in_comment = false;
        self.count = 0;
    }

    /// Reads a byte.
    pub fn take(&mut self, byte: u8) -> Step
        ensures { HasRead result (byte ∷ []) 1 self.old self.new }
    {
        if self.at >= self.limit {
            return Step::Fault(VectorKind::Limit);
        }
        if byte == b'\n' {
            return self.feed_line();
        }
        if self.in_comment || is_blank(byte) {
            self.at += 1;
            return Step::Onward;
        }
        if byte == b'#' {
            self.at += 1;
            self.in_comment = true;
            return Step::Onward;
        }
        self.show(byte)
    }

    // Ends the line at an LF.
    fn feed_line(&mut self) -> Step
        requires { self.old.at < self.old.limit }
        ensures { HasRead result (10 ∷ []) 1 self.old self.new }
    {
        let step = self.end();
        match step {
            Step::Onward => {
                self.at += 1;
                self.number += 1;
                self.in_comment = false;
            }
            Step::Vector => {
                self.at += 1;
                self.number += 1;
            }
            Step::Fault(_) => {}
        }
        step
    }

    // Takes a byte that is neither a blank nor in a comment.
    fn show(&mut self, byte: u8) -> Step
        requires limit { self.old.at < self.old.limit }
        requires comment { self.old.in_comment ≡ false }
        requires blank { is_row_blank byte ≡ false }
        requires mark { is_comment_mark byte ≡ false }
        requires feed { is_line_feed byte ≡ false }
        ensures { HasRead result (byte ∷ []) 1 self.old self.new }
    {
        if !is_vector_byte(self.width, byte) {
            return Step::Fault(VectorKind::Char);
        }
        if self.count == self.bytes.len() {
            return Step::Fault(VectorKind::Width);
        }
        self.bytes[self.count] = byte;
        self.count += 1;
        self.at += 1;
        Step::Onward
    }

    /// What the end of the line comes to.
    pub fn end(&self) -> Step
        ensures ends { EndsAs result self.now }
        ensures says { EndSays result self.now }
    {
        if self.count == 0 {
            return Step::Onward;
        }
        if self.count < self.bytes.len() {
            return Step::Fault(VectorKind::Width);
        }
        Step::Vector
    }

    /// Reads bytes up to the end of a vector's line or a fault, and says how many.
    pub fn read(&mut self, bytes: &[u8]) -> (usize, Step)
        ensures read { HasRead result.1 bytes.now result.0 self.old self.new }
        ensures all { result.1 ≡ Step.Onward → result.0 ≡ length bytes.now }
    {
        read_bytes(self, bytes)
    }

    /// Gives the vector of a line that has ended.
    pub fn put(&self, row: &mut [bool])
        requires { length row.old ≡ self.now.width }
        ensures { length self.now.shown ≡ vector_size self.now.width → row.new ≡ bits_of self.now.width self.now.shown }
    {
        spell(&self.bytes, row);
    }
}

// The bits that the first bytes spell.
fn spell(bytes: &[u8], row: &mut [bool])
    requires { length row.old ≤ length bytes.now }
    ensures { row.new ≡ map (λ b. b == 49) (take (length row.old) bytes.now) }
{
    for (k, bit) in row.iter_mut().enumerate() {
        *bit = bytes[k] == b'1';
    }
}

// Reads bytes up to the end of a vector's line or a fault, and says how many.
fn read_bytes(line: &mut Line, bytes: &[u8]) -> (usize, Step)
    ensures read { HasRead result.1 bytes.now result.0 line.old line.new }
    ensures all { result.1 ≡ Step.Onward → result.0 ≡ length bytes.now }
{
    'bytes: for (k, byte) in bytes.iter().enumerate() {
        match line.take(*byte) {
            Step::Onward => {}
            step => return (k + 1, step),
        }
    }
    (bytes.len(), Step::Onward)
}
