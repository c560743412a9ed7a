//! The tables of a network on their way to seats.

use std::alloc::{AllocError, Global};

/// All tables in a line: in front those that have a seat, then those that were reached and wait, then the others. Beside it
/// the place of each table in the line.
#[derive(Drop)]
pub struct Queue {
    line: Vec<usize>,
    places: Vec<usize>,
    seated: usize,
    reached: usize,
}

/// The numbers below this one.
pub fn numbers_below(alloc: Global, count: usize) -> Result<Vec<usize>, AllocError> {
    let mut numbers = Vec::new(alloc);
    for number in 0..count {
        numbers.push(number)?;
    }
    Ok(numbers)
}

/// So many tables, none of which was reached.
pub fn queue_of(alloc: Global, count: usize) -> Result<Queue, AllocError> {
    Ok(Queue {
        line: numbers_below(alloc, count)?,
        places: numbers_below(alloc, count)?,
        seated: 0,
        reached: 0,
    })
}

// Puts a table at a place of the line, and the one that stood there into its old place.
fn put(queue: &mut Queue, table: usize, place: usize) {
    if table < queue.places.len() && place < queue.line.len() {
        let old = queue.places[table];
        let other = queue.line[place];
        if old < queue.line.len() && other < queue.places.len() {
            queue.line[old] = other;
            queue.places[other] = old;
            queue.line[place] = table;
            queue.places[table] = place;
        }
    }
}

impl Queue {
    /// Lets the next of the others wait, if no table does.
    pub fn go_on(&mut self) {
        if self.reached <= self.seated {
            self.reached = self.seated.saturating_add(1);
        }
    }

    /// The tables that wait.
    pub fn waiting_tables(&self) -> &[usize] {
        if self.seated <= self.reached && self.reached <= self.line.len() {
            &self.line[self.seated..self.reached]
        } else {
            &self.line[..0]
        }
    }

    /// Lets a table wait, if it wasn't reached before.
    pub fn reach(&mut self, table: usize) {
        if table < self.places.len() && self.places[table] >= self.reached {
            let place = self.reached;
            put(self, table, place);
            self.reached = place.saturating_add(1);
        }
    }

    /// Gives a seat to a table that waits.
    pub fn seat(&mut self, table: usize) {
        let place = self.seated;
        put(self, table, place);
        self.seated = place.saturating_add(1);
    }
}
