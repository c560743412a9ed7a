//! Seats that grow together: hextant after hextant is filled, each seat with the table that has most to do with those that
//! sit near it.
ghost use Rattle.std.specs.List.Sorted.{IsPermutation};

use crate::links::{Links, TablesOfNet};
use crate::queue::{Queue, queue_of};
use crate::seats::Seat;
use crate::trial::{Trial, take};
use std::alloc::{AllocError, Global};

/// What a net adds to the score of a table by where it has a table already: in the seat's hextant, chip, module, elsewhere.
const NEAR: [u32; 4] = [8, 6, 4, 2];

/// What a net without a pin adds besides if it is in the seat's hextant already and lacks no other table.
const ENDS: u32 = 4;

/// What a net takes away that has no table anywhere yet.
const NEW: u32 = 2;

/// The score without any net: more than the nets of a table can take away.
const BEGIN: u32 = 1000;

/// Nets with more tables lead to most of the network, so they say little about which table is to come next.
const MOST_REACHED: usize = 16;

// A net while tables are seated: where the last of its tables has its seat, and how many have none.
#[derive(Clone, Copy)]
struct Spread {
    last: Option<Seat>,
    left: usize,
}

// What is known while tables are seated.
#[derive(Drop)]
struct Growth {
    spreads: Vec<Spread>,
    queue: Queue,
}

// No table has a seat.
fn spreads_of(alloc: Global, nets: &[TablesOfNet]) -> Result<Vec<Spread>, AllocError> {
    let mut spreads = Vec::new(alloc);
    for net in nets {
        let left = net.tables.as_slice().len();
        spreads.push(Spread { last: None, left })?;
    }
    Ok(spreads)
}

// The beginning, where no table has a seat.
fn growth_of(alloc: Global, links: &Links) -> Result<Growth, AllocError> {
    Ok(Growth {
        spreads: spreads_of(alloc, &links.nets)?,
        queue: queue_of(alloc, links.nets_of.len())?,
    })
}

// What a net adds whose last table is here.
fn nearness(last: Seat, seat: Seat) -> u32 {
    if last.hextant == seat.hextant {
        NEAR[0]
    } else if last.chip == seat.chip {
        NEAR[1]
    } else if last.module == seat.module {
        NEAR[2]
    } else {
        NEAR[3]
    }
}

// The score with a net of the table.
fn with_net(score: u32, net: &TablesOfNet, spread: Spread, seat: Seat) -> u32 {
    match spread.last {
        None => score.saturating_sub(NEW),
        Some(last) => {
            let ends = last.hextant == seat.hextant && spread.left == 1 && !net.pinned;
            let more = if ends { ENDS } else { 0 };
            score
                .saturating_add(nearness(last, seat))
                .saturating_add(more)
        }
    }
}

// The score of a table for a seat.
fn score_of(links: &Links, spreads: &[Spread], table: usize, seat: Seat) -> u32 {
    let mut score = BEGIN;
    if table < links.nets_of.len() {
        for net in links.nets_of[table].as_slice() {
            if *net < links.nets.len() && *net < spreads.len() {
                score = with_net(score, &links.nets[*net], spreads[*net], seat);
            }
        }
    }
    score
}

// The table of the highest score, the first of several; no table's number if none is given.
fn best_of(tables: &[usize], links: &Links, spreads: &[Spread], seat: Seat) -> usize {
    let mut best = usize::MAX;
    let mut highest = 0;
    for table in tables {
        let score = score_of(links, spreads, *table, seat);
        if score > highest || score == highest && *table < best {
            best = *table;
            highest = score;
        }
    }
    best
}

// Lets tables wait for a seat.
fn reach(queue: &mut Queue, tables: &[usize]) {
    if tables.len() <= MOST_REACHED {
        for table in tables {
            queue.reach(*table);
        }
    }
}

// Notes that a table of a net has a seat.
fn join(growth: &mut Growth, links: &Links, net: usize, seat: Seat) {
    if net < links.nets.len() && net < growth.spreads.len() {
        let old = growth.spreads[net];
        growth.spreads[net] = Spread {
            last: Some(seat),
            left: old.left.saturating_sub(1),
        };
        if old.last.is_none() {
            reach(&mut growth.queue, links.nets[net].tables.as_slice());
        }
    }
}

// Notes that a table has a seat.
fn settle(growth: &mut Growth, links: &Links, table: usize, seat: Seat) {
    if table < links.nets_of.len() {
        growth.queue.seat(table);
        for net in links.nets_of[table].as_slice() {
            join(growth, links, *net, seat);
        }
    }
}

// The seat at a table of the machine, and the table of the network that is to have it.
fn next(trial: &Trial, growth: &mut Growth, target: usize) -> Option<(usize, usize)> {
    let place = trial.holders.get(target).copied()?;
    let seat = trial.seats.get(place).copied()?;
    growth.queue.go_on();
    let table = best_of(
        growth.queue.waiting_tables(),
        &trial.links,
        &growth.spreads,
        seat,
    );
    settle(growth, &trial.links, table, seat);
    Some((table, place))
}

// Fills the seat at a table of the machine.
fn fill(trial: &mut Trial, growth: &mut Growth, target: usize)
    ensures { IsPermutation trial.old.seats.items trial.new.seats.items }
{
    match next(trial, growth, target) {
        Some((table, place)) => take(trial, table, place),
        None => {}
    }
}

// Fills the seats in the order of the machine's tables.
fn fill_all(trial: &mut Trial, growth: &mut Growth)
    ensures { IsPermutation trial.old.seats.items trial.new.seats.items }
{
    for target in 0..trial.holders.len() {
        fill(trial, growth, target);
    }
}

/// Fills the seats anew.
///
/// # Errors
///
/// Out of memory; the seats stay as they are.
pub fn grow(alloc: Global, trial: &mut Trial) -> Result<(), AllocError>
    ensures { IsPermutation trial.old.seats.items trial.new.seats.items }
{
    let mut growth = growth_of(alloc, &trial.links)?;
    fill_all(trial, &mut growth);
    Ok(())
}
