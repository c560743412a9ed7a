//! A fixed text: the name of a part of the machine.
ghost use Rattle.std.specs.Prelude.{◌≡◌, ◌<◌, ◌≤◌, ◌+◌, ◌++◌, ◌∷◌, [], length};
ghost use Rattle.std.specs.Fmt.{decimal};

use base_text::{MOST_DIGITS, write_digits};
use std::marker::Model;

/// The name of a node, a table or a wire: at most 48 bytes.
#[derive(Drop)]
pub struct PartName {
    bytes: [u8; 48],
    len: usize,
}

impl Model for PartName {
    ghost use Rattle.std.specs.Prelude.{ℕ, List, take, ◌≤◌};

    ghost Value = { List ℕ };

    ghost view = { λ a. take a.len a.bytes };

    ghost invariant = { λ a. a.len ≤ 48 };
}

impl PartName {
    /// The bytes of the name.
    pub fn as_bytes(&self) -> &[u8]
        ensures bytes { result.now ≡ self.now }
        ensures short { length self.now ≤ 48 }
    {
        &self.bytes[..self.len]
    }

    /// A text of no bytes.
    pub(crate) fn empty() -> PartName
        ensures { result ≡ [] }
    {
        PartName {
            bytes: [0; 48],
            len: 0,
        }
    }

    /// Appends a byte.
    pub(crate) fn push(&mut self, byte: u8)
        requires { length self.old < 48 }
        ensures { self.new ≡ self.old ++ byte ∷ [] }
    {
        self.bytes[self.len] = byte;
        self.len += 1;
    }

    /// Appends bytes.
    fn push_all(&mut self, bytes: &[u8])
        requires { length self.old + length bytes.now ≤ 48 }
        ensures { self.new ≡ self.old ++ bytes.now }
    {
        'bytes: for byte in bytes {
            self.push(*byte);
        }
    }

    /// Appends a numeral.
    fn push_number(&mut self, n: u32)
        requires { length self.old + length (decimal n) ≤ 48 }
        ensures { self.new ≡ self.old ++ decimal n }
    {
        let mut digits = [0u8; MOST_DIGITS];
        let place = write_digits(&mut digits, u64::from(n));
        self.push_all(&digits[place..]);
    }

    /// Appends a letter and a number of at most seven digits.
    pub(crate) fn push_numbered(&mut self, letter: u8, n: u32)
        requires room { length self.old ≤ 40 }
        requires short { n < 10000000 }
        ensures text { self.new ≡ self.old ++ letter ∷ decimal n }
        ensures room { length self.new ≤ length self.old + 8 }
    {
        self.push(letter);
        self.push_number(n);
    }
}
