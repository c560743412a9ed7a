//! Tables in lists by rank.

use crate::queue::numbers_below;
use std::alloc::{AllocError, Global};

/// How many ranks there are.
pub const RANKS: usize = 32;

/// Tables in lists, one for each rank, in which the table that came last is the first. Each list is a circle of places, that of
/// its rank and then those of its tables: which place follows on each, and which is before it.
#[derive(Drop)]
pub struct Ranks {
    nexts: Vec<usize>,
    befores: Vec<usize>,
}

/// So many tables, none of which is in a list.
pub fn ranks_of(alloc: Global, tables: usize) -> Result<Ranks, AllocError> {
    let places = RANKS.saturating_add(tables);
    Ok(Ranks {
        nexts: numbers_below(alloc, places)?,
        befores: numbers_below(alloc, places)?,
    })
}

// Lets a place follow on another.
fn follow(ranks: &mut Ranks, place: usize, next: usize) {
    if place < ranks.nexts.len() && next < ranks.befores.len() {
        ranks.nexts[place] = next;
        ranks.befores[next] = place;
    }
}

// Takes a place out of its circle.
fn take_out(ranks: &mut Ranks, place: usize) {
    if place < ranks.nexts.len() && place < ranks.befores.len() {
        let before = ranks.befores[place];
        let next = ranks.nexts[place];
        follow(ranks, before, next);
        follow(ranks, place, place);
    }
}

impl Ranks {
    /// Takes a table out of its list.
    pub fn leave(&mut self, table: usize) {
        take_out(self, RANKS.saturating_add(table));
    }

    /// Puts a table into the list of a rank, if there is the rank, out of the one where it was.
    pub fn enter(&mut self, table: usize, rank: usize) {
        if rank < RANKS {
            let place = RANKS.saturating_add(table);
            take_out(self, place);
            if let Some(first) = self.nexts.get(rank).copied() {
                follow(self, place, first);
                follow(self, rank, place);
            }
        }
    }

    // The first table of a rank's list.
    fn first(&self, rank: usize) -> Option<usize> {
        let place = self.nexts.get(rank).copied()?;
        place.checked_sub(RANKS)
    }

    /// The table that came last to the highest rank that has any.
    pub fn best(&self) -> Option<usize> {
        for k in 0..RANKS {
            let first = self.first((RANKS - 1).saturating_sub(k));
            if first.is_some() {
                return first;
            }
        }
        None
    }
}
