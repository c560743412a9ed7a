//! Seats, and exchanges of them.
ghost use Rattle.std.specs.Prelude.{◌<◌, length};
ghost use Rattle.std.specs.List.Sorted.{IsPermutation};

use crate::links::Links;
use crate::seats::Seat;
use machine_shape::Shape;
use std::alloc::{AllocError, Global};

/// What is tried: the seats, of which the first are those of the network's tables, the seat at each table of the machine, the
/// network's nets, and how many tables a hextant, a chip, a module and the machine have.
#[derive(Drop)]
pub struct Trial {
    pub seats: Vec<Seat>,
    pub holders: Vec<usize>,
    pub links: Links,
    pub spans: [usize; 4],
}

// No seat is at any table.
fn no_holders(alloc: Global, count: u32) -> Result<Vec<usize>, AllocError> {
    let mut holders = Vec::new(alloc);
    for t in 0..count {
        let _ = t;
        holders.push(usize::MAX)?;
    }
    Ok(holders)
}

// Notes at which table a seat is.
fn note(holders: &mut Vec<usize>, seats: &[Seat], place: usize) {
    if place < seats.len() {
        let table = seats[place].table.0 as usize;
        if table < holders.len() {
            holders[table] = place;
        }
    }
}

/// The seat at each table.
pub fn holders_of(alloc: Global, shape: &Shape, seats: &[Seat]) -> Result<Vec<usize>, AllocError> {
    let mut holders = no_holders(alloc, shape.tables())?;
    for place in 0..seats.len() {
        note(&mut holders, seats, place);
    }
    Ok(holders)
}

// Exchanges two seats.
fn swap(seats: &mut Vec<Seat>, a: usize, b: usize)
    requires a { a < length seats.old.items }
    requires b { b < length seats.old.items }
    ensures { IsPermutation seats.old.items seats.new.items }
{
    seats.swap(a, b);
}

/// Exchanges two seats, if there are both, and notes it.
pub fn take(trial: &mut Trial, a: usize, b: usize)
    ensures { IsPermutation trial.old.seats.items trial.new.seats.items }
{
    if a < trial.seats.len() && b < trial.seats.len() {
        swap(&mut trial.seats, a, b);
        note(&mut trial.holders, &trial.seats, a);
        note(&mut trial.holders, &trial.seats, b);
    }
}
