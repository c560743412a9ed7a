//! The lines of rows.

ghost use Rattle.std.specs.Prelude.{◌≡◌, ◌+◌, ◌≤◌, ◌++◌, max, length, take, IfOk};
ghost use Rattle.design_vectors.specs.Rows.{row_line};

use std::alloc::{AllocError, Global};
use std::marker::Model;

/// Writes rows of one width as lines. Contracts see it as that width.
#[derive(Drop)]
pub struct RowText {
    width: u32,
    line: Vec<u8>,
}

impl Model for RowText {
    ghost use Rattle.std.specs.Prelude.{◌≡◌, ◌+◌, ℕ, length, max};

    ghost Value = { ℕ };

    ghost view = { λ t. t.width };

    ghost invariant = { λ t. length t.line.items ≡ max 1 t.width + 1 };
}

impl RowText {
    ghost use Rattle.std.specs.Borrow.{sem};
    ghost use Rattle.design_vectors.specs.Kept.{KeepsWidth};

    /// Writes rows of so many bits.
    pub fn new(alloc: Global, width: u32) -> Result<Self, AllocError>
        ensures { IfOk result (λ t. t ≡ width) }
    {
        let size = if width == 0 { 1 } else { width as usize };
        let line = vec![in alloc; b'.'; size + 1]?;
        Ok(RowText { width, line })
    }

    /// The line of a row: `0` or `1` for each bit, or `.` where there is none, and LF. Takes no memory.
    pub fn line(&mut self, bits: &[bool]) -> &[u8]
        requires { length bits.now ≡ self.old }
        ensures* kept { sem 𝓛 (KeepsWidth self.entry) }
        ensures line { result.now ≡ row_line bits.now }
    {
        put_row(&mut self.line, 0, bits);
        &self.line
    }
}

/// Puts the line of a row into a buffer, behind the first `from` bytes, and says where it ends there.
pub fn put_row(text: &mut Vec<u8>, from: usize, bits: &[bool]) -> usize
    requires { from + (max 1 (length bits.now) + 1) ≤ length text.old.items }
    ensures ends { result ≡ from + (max 1 (length bits.now) + 1) }
    ensures length { length text.new.items ≡ length text.old.items }
    ensures text { take result text.new.items ≡ take from text.old.items ++ row_line bits.now }
{
    text[from] = b'.';
    for (k, bit) in bits.iter().enumerate() {
        text[from + k] = if *bit { b'1' } else { b'0' };
    }
    let size = if bits.is_empty() { 1 } else { bits.len() };
    text[from + size] = b'\n';
    from + size + 1
}
