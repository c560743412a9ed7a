//! Seats that grow together: each gets the table that has most to do with those that sit near it.

use crate::nets::{Nets, is_pinned, nets_at, tables_at};
use crate::tree::{Tree, divide_by, small};
use std::alloc::{AllocError, Global};

/// What a net adds to the score of a table by where it has a table already: in the seat's hextant, chip, module, elsewhere.
const NEAR: [i64; 4] = [8, 6, 4, 2];

/// What a net without a pin adds besides, if it is in the seat's hextant and lacks no other table.
const ENDS: i64 = 4;

/// What a net adds that has no table anywhere.
const NEW: i64 = -2;

/// Nets with more tables say little about which table is to come next.
const MOST_REACHED: usize = 16;

/// No place.
const NOWHERE: u32 = u32::MAX;

/// A net while seats are filled: where the last of its tables sits, and how many have no seat.
#[derive(Clone, Copy)]
struct Spread {
    last: u32,
    left: u32,
}

/// What is known while seats are filled.
#[derive(Drop)]
struct Growth<'a> {
    nets: &'a Nets,
    /// The free tables, and the tables of the nodes of each level.
    free: &'a [u32],
    spans: [usize; 3],
    spreads: Vec<Spread>,
    waiting: Vec<u32>,
    /// Tables that wait or have seats.
    reached: Vec<bool>,
    seats: Vec<u32>,
}

// No table has a seat.
fn spreads_of(alloc: Global, nets: &Nets) -> Result<Vec<Spread>, AllocError> {
    let mut spreads = Vec::with_capacity(alloc, nets.nets.len())?;
    'nets: for net in 0..nets.nets.len() {
        let left = small(tables_at(nets, net).len());
        spreads.push(Spread {
            last: NOWHERE,
            left,
        })?;
    }
    Ok(spreads)
}

// The tables of the nodes of each level.
fn spans_of(tree: &Tree) -> [usize; 3] {
    let [hextants, chips, modules] = &tree.tiers;
    [hextants.span, chips.span, modules.span]
}

// Whether two places are of one node that has so many tables.
fn are_of_one(span: usize, place: usize, other: usize) -> bool {
    divide_by(place, span) == divide_by(other, span)
}

// What a net adds whose last table is at one place of the machine, for another place.
fn nearness(spans: [usize; 3], last: usize, place: usize) -> i64 {
    if are_of_one(spans[0], last, place) {
        NEAR[0]
    } else if are_of_one(spans[1], last, place) {
        NEAR[1]
    } else if are_of_one(spans[2], last, place) {
        NEAR[2]
    } else {
        NEAR[3]
    }
}

// Marks a place; whether it is new.
fn mark(marks: &mut Vec<bool>, place: usize) -> bool {
    if place < marks.len() && !marks[place] {
        marks[place] = true;
        return true;
    }
    false
}

/// Tables of one class: those from a number on, up to another one.
#[derive(Clone, Copy)]
pub struct Class {
    pub from: usize,
    pub to: usize,
    pub seat: usize,
}

impl Class {
    // Whether a table is of the class.
    fn has(self, table: usize) -> bool {
        table >= self.from && table < self.to
    }
}

impl<'a> Growth<'a> {
    // What a net adds for a place, the last of whose tables sits at another one.
    fn score_last(&self, net: usize, last: usize, left: u32, place: usize) -> i64 {
        let here = are_of_one(self.spans[0], last, place);
        let near = nearness(self.spans, last, place);
        if here && left == 1 && !is_pinned(self.nets, net) {
            near.wrapping_add(ENDS)
        } else {
            near
        }
    }

    // What a net adds for a place.
    fn score_net(&self, net: usize, place: usize) -> i64 {
        match self.spreads.get(net).copied() {
            None => 0,
            Some(spread) if spread.last == NOWHERE => NEW,
            Some(spread) => self.score_last(net, spread.last as usize, spread.left, place),
        }
    }

    // The score of a table for a place.
    fn score(&self, table: usize, place: usize) -> i64 {
        let mut score = 0i64;
        'nets: for net in nets_at(self.nets, table) {
            score = score.wrapping_add(self.score_net(*net as usize, place));
        }
        score
    }

    // Where the best of those that wait stands; of equals the lowest table.
    fn best(&self, place: usize) -> usize {
        let mut best = 0;
        let mut most = i64::MIN;
        'waiting: for k in 0..self.waiting.len() {
            let score = self.score(self.waiting[k] as usize, place);
            let lower = best < self.waiting.len() && self.waiting[k] < self.waiting[best];
            if score > most || score == most && lower {
                most = score;
                best = k;
            }
        }
        best
    }

    // Lets a table wait, if it is of the class and wasn't reached.
    fn wait(&mut self, table: u32, class: Class) -> Result<(), AllocError> {
        if class.has(table as usize) && mark(&mut self.reached, table as usize) {
            self.waiting.push(table)?;
        }
        Ok(())
    }

    // Lets the tables of a net wait.
    fn reach(&mut self, net: usize, class: Class) -> Result<(), AllocError> {
        let tables = tables_at(self.nets, net);
        if tables.len() > MOST_REACHED {
            return Ok(());
        }
        'tables: for table in tables {
            self.wait(*table, class)?;
        }
        Ok(())
    }

    // Lets the tables of all nets wait that have tables on seats.
    fn reach_all(&mut self, class: Class) -> Result<(), AllocError> {
        'nets: for net in 0..self.spreads.len() {
            if self.has_seat(net) {
                self.reach(net, class)?;
            }
        }
        Ok(())
    }

    // Whether a table of a net has a seat.
    fn has_seat(&self, net: usize) -> bool {
        net < self.spreads.len() && self.spreads[net].last != NOWHERE
    }

    // The first table of the class that wasn't reached.
    fn first_left(&self, class: Class) -> Option<u32> {
        'tables: for table in class.from..class.to {
            if table < self.reached.len() && !self.reached[table] {
                return Some(small(table));
            }
        }
        None
    }

    // Lets the first table of the class wait that wasn't reached.
    fn go_on(&mut self, class: Class) -> Result<(), AllocError> {
        match self.first_left(class) {
            Some(table) => self.wait(table, class),
            None => Ok(()),
        }
    }

    // Notes where the last table of a net sits.
    fn sit(&mut self, net: usize, place: usize) {
        if net < self.spreads.len() {
            let left = self.spreads[net].left.saturating_sub(1);
            self.spreads[net] = Spread {
                last: small(place),
                left,
            };
        }
    }

    // Notes that a table sits at a place.
    fn join(&mut self, table: usize, place: usize, class: Class) -> Result<(), AllocError> {
        'nets: for net in nets_at(self.nets, table) {
            self.sit(*net as usize, place);
            self.reach(*net as usize, class)?;
        }
        Ok(())
    }

    // Gives a seat at a place to the best of those that wait, if there is one.
    fn take(&mut self, seat: usize, place: usize) -> Option<usize> {
        let best = self.best(place);
        if best >= self.waiting.len() {
            return None;
        }
        let table = self.waiting.remove(best) as usize;
        if table < self.seats.len() {
            self.seats[table] = small(seat);
        }
        Some(table)
    }

    // Gives a seat to the best of those that wait.
    fn fill(&mut self, seat: usize, class: Class) -> Result<(), AllocError> {
        let Some(place) = self.free.get(seat).copied() else {
            return Ok(());
        };
        match self.take(seat, place as usize) {
            Some(table) => self.join(table, place as usize, class),
            None => Ok(()),
        }
    }

    // Fills a seat, where one table waits at least if any is left.
    fn fill_next(&mut self, seat: usize, class: Class) -> Result<(), AllocError> {
        if self.waiting.len() == 0 {
            self.go_on(class)?;
        }
        self.fill(seat, class)
    }

    // Fills the seats of a class.
    fn fill_class(&mut self, class: Class) -> Result<(), AllocError> {
        self.waiting.clear();
        self.reach_all(class)?;
        'seats: for k in class.from..class.to {
            let seat = class.seat.saturating_add(k.saturating_sub(class.from));
            self.fill_next(seat, class)?;
        }
        Ok(())
    }

    // Fills the seats of covers and those of latches, which begin at a seat.
    fn fill_all(&mut self, room: usize) -> Result<(), AllocError> {
        let split = self.nets.split;
        let count = self.nets.of.len();
        self.fill_class(class_of(0, split, 0))?;
        self.fill_class(class_of(split, count, room))
    }
}

// A class of tables from a number on, whose seats begin at this one.
fn class_of(from: usize, to: usize, seat: usize) -> Class {
    Class { from, to, seat }
}

// No table has a seat.
fn growth_of<'a>(alloc: Global, nets: &'a Nets, tree: &'a Tree) -> Result<Growth<'a>, AllocError> {
    let count = nets.of.len();
    let spreads = spreads_of(alloc, nets)?;
    let reached = vec![in alloc; false; count]?;
    let seats = vec![in alloc; 0; count]?;
    Ok(Growth {
        nets,
        free: &tree.seats,
        spans: spans_of(tree),
        spreads,
        waiting: Vec::new(alloc),
        reached,
        seats,
    })
}

/// Seats for covers from the first seat on, and for latches from a seat on.
pub fn grow_seats(
    alloc: Global,
    nets: &Nets,
    tree: &Tree,
    room: usize,
) -> Result<Vec<u32>, AllocError> {
    let mut growth = growth_of(alloc, nets, tree)?;
    growth.fill_all(room)?;
    Ok(growth.seats)
}
