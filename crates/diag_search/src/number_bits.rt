//! A bit for each number, 64 to a word.

use std::alloc::{AllocError, Global};

/// How many bits a word has.
const WORD_BITS: u32 = 64;

/// Some of the numbers below a count.
#[derive(Drop)]
pub(crate) struct NumberBits {
    words: Vec<u64>,
}

// The word that a number stands in, and its bit there.
fn place_of(n: u32) -> (usize, u64) {
    ((n / WORD_BITS) as usize, 1u64.wrapping_shl(n))
}

// The place of the lowest bit of a word, of those from a number on, if there is one.
fn lowest(word: u64, from: u32) -> Option<u32> {
    let rest = word.wrapping_shr(from).wrapping_shl(from);
    if rest == 0 {
        return None;
    }
    Some(rest.trailing_zeros())
}

impl NumberBits {
    /// With room for none.
    pub(crate) fn bare(alloc: Global) -> NumberBits {
        NumberBits {
            words: Vec::new(alloc),
        }
    }

    /// Takes room for so many numbers.
    pub(crate) fn widen(&mut self, count: u32) -> Result<(), AllocError> {
        self.words.resize(count.div_ceil(WORD_BITS) as usize, 0)
    }

    /// None of so many numbers.
    pub(crate) fn new(alloc: Global, count: u32) -> Result<NumberBits, AllocError> {
        let mut bits = NumberBits::bare(alloc);
        bits.widen(count)?;
        Ok(bits)
    }

    /// Whether it is one of them.
    pub(crate) fn has(&self, n: u32) -> bool {
        let (at, bit) = place_of(n);
        match self.words.get(at) {
            Some(word) => *word & bit != 0,
            None => false,
        }
    }

    /// Puts one in.
    pub(crate) fn insert(&mut self, n: u32) {
        let (at, bit) = place_of(n);
        if at < self.words.len() {
            self.words[at] |= bit;
        }
    }

    /// Takes one out.
    pub(crate) fn remove(&mut self, n: u32) {
        let (at, bit) = place_of(n);
        if at < self.words.len() {
            self.words[at] &= !bit;
        }
    }

    /// Puts one in, or takes it out.
    pub(crate) fn set(&mut self, n: u32, on: bool) {
        if on {
            self.insert(n);
        } else {
            self.remove(n);
        }
    }

    /// Takes all out.
    pub(crate) fn clear(&mut self) {
        'words: for at in 0..self.words.len() {
            if at < self.words.len() {
                self.words[at] = 0;
            }
        }
    }

    /// The first of them from a number on and before another, if there is one.
    pub(crate) fn first(&self, from: u32, end: u32) -> Option<u32> {
        if from >= end {
            return None;
        }
        let mut next = from;
        'words: for at in from / WORD_BITS..end.div_ceil(WORD_BITS) {
            let word = self.words.get(at as usize).copied()?;
            if let Some(place) = lowest(word, next) {
                let found = at.saturating_mul(WORD_BITS).saturating_add(place);
                return if found < end { Some(found) } else { None };
            }
            next = 0;
        }
        None
    }
}
