//! Marks by number.

use base_bits::BitSet;
use std::alloc::{AllocError, Global};
use std::slice::Iter;

/// Of numbers from 0 on, whether each is marked.
#[derive(Drop)]
pub struct Flags(Vec<bool>);

impl Flags {
    /// The marks of a list.
    pub fn new(list: Vec<bool>) -> Flags {
        Flags(list)
    }

    /// Of no numbers. Takes no memory.
    pub fn empty(alloc: Global) -> Flags {
        Flags(Vec::new(alloc))
    }

    /// No marks, of so many numbers.
    pub fn none(alloc: Global, len: u32) -> Result<Flags, AllocError> {
        Ok(Flags(vec![in alloc; false; len as usize]?))
    }

    /// Adds a number behind the last, marked or not.
    pub fn push(&mut self, marked: bool) -> Result<(), AllocError> {
        self.0.push(marked)?;
        Ok(())
    }

    /// Adds the numbers of a set.
    pub fn add_set(&mut self, set: &BitSet) -> Result<(), AllocError> {
        'numbers: for i in 0..set.len() {
            self.0.push(set.has(i))?;
        }
        Ok(())
    }

    /// Each in turn.
    pub fn iter(&self) -> Iter<'_, bool> {
        self.0.iter()
    }

    /// How many numbers there are.
    pub fn len(&self) -> usize {
        self.0.len()
    }

    /// Whether the number at a place is marked.
    pub fn at(&self, place: usize) -> bool {
        self.0.get(place) == Some(&true)
    }

    /// Whether a number is marked.
    pub fn has(&self, number: u32) -> bool {
        self.at(number as usize)
    }

    /// Whether so many numbers are marked, from one on.
    pub fn has_all(&self, first: usize, many: usize) -> bool {
        'numbers: for place in first..first.saturating_add(many) {
            if !self.at(place) {
                return false;
            }
        }
        true
    }

    /// Marks a number, where it is one of these.
    pub fn mark(&mut self, number: u32) {
        let place = number as usize;
        if place < self.0.len() {
            self.0[place] = true;
        }
    }

    /// How many are marked, and in neither of two others.
    pub fn count_outside(&self, one: &Flags, other: &Flags) -> u64 {
        let mut count = 0u64;
        'numbers: for place in 0..self.len() {
            if self.at(place) && !one.at(place) && !other.at(place) {
                count = count.saturating_add(1);
            }
        }
        count
    }

    /// Whether this number is marked and no other.
    pub fn is_only(&self, number: u32) -> bool {
        'numbers: for place in 0..self.len() {
            if self.at(place) && place != number as usize {
                return false;
            }
        }
        self.has(number)
    }

    /// What is marked isn't marked there.
    pub fn is_apart(&self, there: &Flags) -> bool {
        'numbers: for place in 0..self.len() {
            if self.at(place) && there.at(place) {
                return false;
            }
        }
        true
    }

    /// Whether none is marked.
    pub fn is_blank(&self) -> bool {
        self.is_apart(self)
    }

    /// What is marked is marked in one of two others.
    pub fn is_within(&self, one: &Flags, other: &Flags) -> bool {
        'numbers: for place in 0..self.len() {
            if self.at(place) && !one.at(place) && !other.at(place) {
                return false;
            }
        }
        true
    }

    /// What was marked still is.
    pub fn stays(&self, after: &Flags) -> bool {
        self.len() == after.len() && self.is_within(after, after)
    }

    /// What is marked afterwards was so before, or is one of these.
    pub fn grows_in(&self, after: &Flags, these: &Flags) -> bool {
        after.is_within(self, these)
    }
}

/// The wires, the crosspoints and the tables of a machine that are marked.
#[derive(Drop)]
pub struct Parts {
    pub wires: Flags,
    pub crosses: Flags,
    pub tables: Flags,
}

impl Parts {
    /// Of none of them. Takes no memory.
    pub fn empty(alloc: Global) -> Parts {
        Parts {
            wires: Flags::empty(alloc),
            crosses: Flags::empty(alloc),
            tables: Flags::empty(alloc),
        }
    }
}
