//! Names that are free.

use base_lists::Items;
use base_text::{put_number, read_number};
use design_netlist::{Name, Names};
use std::alloc::{AllocError, Global};

/// How long the name of an inner signal that stays may be.
const MOST_BYTES: usize = 64;

/// The names of a letter and a number that are free, in order.
#[derive(Debug, Drop)]
pub struct FreeNames {
    letter: u8,
    next: u64,
    taken: Vec<u64>,
}

/// The number of a name that is the letter and a number.
pub fn number_in(name: &[u8], letter: u8) -> Option<u64> {
    match name {
        [first, digits @ ..] if *first == letter => read_number(digits, u64::MAX),
        _ => None,
    }
}

/// Whether a name can be written anywhere: of printable characters, without those that mean something else, and not too long.
pub fn is_plain_name(name: &[u8]) -> bool {
    'bytes: for byte in name {
        if *byte <= b' ' || *byte > b'~' || b"#\\\"=".contains(byte) {
            return false;
        }
    }
    name.len() > 0 && name.len() <= MOST_BYTES
}

/// The name of a signal, none where there is no such signal.
pub fn name_of(alloc: Global, names: &Names, signal: u32) -> Result<Name, AllocError> {
    if (signal as usize) < names.len() {
        names.get(alloc, signal as usize)
    } else {
        Ok(Items::empty(alloc))
    }
}

impl FreeNames {
    /// Those of this letter, as long as no name is taken.
    pub fn new(alloc: Global, letter: u8) -> FreeNames {
        FreeNames {
            letter,
            next: 0,
            taken: Vec::new(alloc),
        }
    }

    /// Takes a name. All names that are taken come before the first free one is asked for.
    ///
    /// # Errors
    ///
    /// Out of memory.
    pub fn take(&mut self, name: &[u8]) -> Result<(), AllocError> {
        if let Some(number) = number_in(name, self.letter) {
            self.taken.push(number)?;
        }
        Ok(())
    }

    // Takes the name of a signal.
    pub(crate) fn take_signal(
        &mut self,
        alloc: Global,
        names: &Names,
        signal: u32,
    ) -> Result<(), AllocError> {
        let name = name_of(alloc, names, signal)?;
        self.take(name.as_slice())
    }

    /// Puts the names that were taken in order.
    pub fn close(&mut self) {
        self.taken.sort_unstable();
    }

    // Goes on behind numbers that are taken.
    fn skip(&mut self) {
        'numbers: for _ in 0..self.taken.len() {
            if self.taken.binary_search(&self.next).is_err() {
                break;
            }
            self.next = self.next.saturating_add(1);
        }
    }

    /// The next free name.
    ///
    /// # Errors
    ///
    /// Out of memory.
    pub fn next(&mut self, alloc: Global) -> Result<Name, AllocError> {
        self.skip();
        let mut text = Vec::new(alloc);
        text.push(self.letter)?;
        put_number(&mut text, self.next)?;
        self.next = self.next.saturating_add(1);
        Ok(Items::new(text))
    }
}
