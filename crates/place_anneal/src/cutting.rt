//! Seats by a chain of tables: it is cut into a part for each module, that into one for each chip, and that into one for each
//! hextant.
ghost use Rattle.std.specs.List.Sorted.{IsPermutation};

use crate::chain::chain_of;
use crate::parts::cut_each;
use crate::trial::{Trial, take};
use machine_shape::Shape;
use std::alloc::{AllocError, Global};

// A chain, how many tables each hextant is to have of it, and how many were seated.
#[derive(Drop)]
struct Row {
    chain: Vec<usize>,
    counts: Vec<usize>,
    seated: usize,
}

// Counts a seat of a node.
fn add_one(rooms: &mut Vec<usize>, node: usize) {
    if node < rooms.len() {
        rooms[node] = rooms[node].saturating_add(1);
    }
}

// The number of the node with so many tables that has this one.
fn node_of(table: usize, span: usize) -> usize {
    if span == 0 { 0 } else { table / span }
}

// How many seats each node of so many tables has.
fn rooms_of(alloc: Global, trial: &Trial, span: usize) -> Result<Vec<usize>, AllocError> {
    let mut rooms = vec![in alloc; 0usize; node_of(trial.holders.len(), span)]?;
    for table in 0..trial.holders.len() {
        if trial.holders[table] < trial.seats.len() {
            add_one(&mut rooms, node_of(table, span));
        }
    }
    Ok(rooms)
}

// The parts of the nodes of so many tables, cut from those above them.
fn cut_for(
    alloc: Global,
    trial: &Trial,
    chain: &[usize],
    counts: &[usize],
    span: usize,
    borne: usize,
) -> Result<Vec<usize>, AllocError> {
    let rooms = rooms_of(alloc, trial, span)?;
    cut_each(alloc, &trial.links, chain, counts, &rooms, borne)
}

// How many nets of a hextant may cross so that it takes one more table: some ports are left for what comes of exchanges.
fn borne_by(shape: &Shape) -> usize {
    let [_, _, ports] = shape.counts.ports;
    (ports as usize).saturating_mul(7) / 8
}

// A chain, and how many of its tables each hextant is to have.
fn row_of(alloc: Global, shape: &Shape, trial: &Trial) -> Result<Row, AllocError> {
    let chain = chain_of(alloc, &trial.links)?;
    let [hextant, chip, module, _] = trial.spans;
    let whole = [chain.len()];
    let modules = cut_for(alloc, trial, &chain, &whole, module, 0)?;
    let chips = cut_for(alloc, trial, &chain, &modules, chip, 0)?;
    let counts = cut_for(alloc, trial, &chain, &chips, hextant, borne_by(shape))?;
    Ok(Row {
        chain,
        counts,
        seated: 0,
    })
}

// Takes one off the count of a node, if there is any.
fn take_one(counts: &mut Vec<usize>, node: usize) -> bool {
    if node < counts.len() && counts[node] > 0 {
        counts[node] = counts[node].saturating_sub(1);
        return true;
    }
    false
}

// The seat at a table of the machine, and the table of the network that is to have it.
fn next(trial: &Trial, row: &mut Row, target: usize) -> Option<(usize, usize)> {
    let place = trial.holders.get(target).copied()?;
    let table = row.chain.get(row.seated).copied()?;
    let [hextant, _, _, _] = trial.spans;
    if place < trial.seats.len() && take_one(&mut row.counts, node_of(target, hextant)) {
        row.seated = row.seated.saturating_add(1);
        return Some((table, place));
    }
    None
}

// Fills the seat at a table of the machine, if its hextant is to have one more.
fn fill(trial: &mut Trial, row: &mut Row, target: usize)
    ensures { IsPermutation trial.old.seats.items trial.new.seats.items }
{
    match next(trial, row, target) {
        Some((table, place)) => take(trial, table, place),
        None => {}
    }
}

// Fills the seats in the order of the machine's tables.
fn fill_all(trial: &mut Trial, row: &mut Row)
    ensures { IsPermutation trial.old.seats.items trial.new.seats.items }
{
    for target in 0..trial.holders.len() {
        fill(trial, row, target);
    }
}

/// Seats the tables by a chain.
///
/// # Errors
///
/// Out of memory; the seats stay as they are.
pub fn seat_chain(alloc: Global, shape: &Shape, trial: &mut Trial) -> Result<(), AllocError>
    ensures { IsPermutation trial.old.seats.items trial.new.seats.items }
{
    let mut row = row_of(alloc, shape, trial)?;
    fill_all(trial, &mut row);
    Ok(())
}
