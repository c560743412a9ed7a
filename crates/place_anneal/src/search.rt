//! The search for seats with fewer crossings.
ghost use Rattle.std.specs.Prelude.{IfOk};
ghost use Rattle.std.specs.List.Sorted.{IsPermutation};

use crate::cutting::seat_chain;
use crate::gain::exchange;
use crate::growth::grow;
use crate::links::{Links, links_of};
use crate::luck::borne;
use crate::seats::Seat;
use crate::trial::{Trial, holders_of, take};
use base_random::Draws;
use machine_shape::Shape;
use map_network::Network;
use std::alloc::{AllocError, Global};

/// Where a search begins: with the seats as they are, with seats filled anew, or with tables seated by a chain.
#[derive(Clone, Copy, Debug)]
pub enum Begin {
    Given,
    Filled,
    Chained,
}

/// How many more sixteenths of a crossing half of the tries may add in each round; a quarter may add twice as many, and so
/// on. With so few what is good in the seats stays.
const HEATS: [u32; 12] = [4, 3, 3, 2, 2, 2, 1, 1, 1, 1, 0, 0];

/// How many steps a round has for each table.
const STEPS: usize = 40;

// How many tables the nodes of each depth have, from the hextants up.
fn spans_of(shape: &Shape) -> [usize; 4] {
    let hextant = shape.counts.tables as usize;
    let chip = hextant.saturating_mul(shape.counts.hextants as usize);
    let module = chip.saturating_mul(shape.counts.chips as usize);
    [hextant, chip, module, shape.tables() as usize]
}

// One of these numbers.
fn one_of(draws: &mut Draws, numbers: &[usize]) -> Option<usize> {
    let place = draws.below(numbers.len());
    numbers.get(place).copied()
}

// The first number of a span that a number is in.
fn first_in(span: usize, number: usize) -> usize {
    if span == 0 {
        return number;
    }
    number.saturating_sub(number % span)
}

// A table of the network that shares a net with this one.
fn neighbour(links: &Links, draws: &mut Draws, table: usize) -> Option<usize> {
    let nets = links.nets_of.get(table)?;
    let net = one_of(draws, nets.as_slice())?;
    one_of(draws, links.nets.get(net)?.tables.as_slice())
}

// A seat in a node that has a neighbour of the table.
fn aim(trial: &Trial, draws: &mut Draws, table: usize) -> Option<usize> {
    let near = neighbour(&trial.links, draws, table)?;
    let at = trial.seats.get(near)?.table.0 as usize;
    let span = one_of(draws, &trial.spans)?;
    let target = first_in(span, at).saturating_add(draws.below(span));
    trial.holders.get(target).copied()
}

// An exchange that is borne.
fn choose_exchange(trial: &Trial, draws: &mut Draws, heat: u32) -> Option<(usize, usize)> {
    let table = draws.below(trial.links.nets_of.len());
    let place = aim(trial, draws, table)?;
    let change = exchange(&trial.links, &trial.seats, table, place);
    if change.added <= change.spared.saturating_add(borne(draws, heat)) {
        return Some((table, place));
    }
    None
}

// Tries one exchange.
fn step(trial: &mut Trial, draws: &mut Draws, heat: u32)
    ensures { IsPermutation trial.old.seats.items trial.new.seats.items }
{
    match choose_exchange(trial, draws, heat) {
        Some((a, b)) => take(trial, a, b),
        None => {}
    }
}

// Tries so many.
fn round(trial: &mut Trial, draws: &mut Draws, steps: usize, heat: u32)
    ensures { IsPermutation trial.old.seats.items trial.new.seats.items }
{
    for k in 0..steps {
        let _ = k;
        step(trial, draws, heat);
    }
}

// All rounds.
fn rounds(trial: &mut Trial, draws: &mut Draws)
    ensures { IsPermutation trial.old.seats.items trial.new.seats.items }
{
    let steps = trial.links.nets_of.len().saturating_mul(STEPS);
    for heat in &HEATS {
        round(trial, draws, steps, *heat);
    }
}

// Seats the tables as the search begins.
fn seat_first(
    alloc: Global,
    shape: &Shape,
    trial: &mut Trial,
    begin: Begin,
) -> Result<(), AllocError>
    ensures { IsPermutation trial.old.seats.items trial.new.seats.items }
{
    match begin {
        Begin::Given => Ok(()),
        Begin::Filled => grow(alloc, trial),
        Begin::Chained => seat_chain(alloc, shape, trial),
    }
}

/// The same seats in another order, in which the network's tables have fewer crossings if the search has luck.
pub fn search(
    alloc: Global,
    shape: &Shape,
    network: &Network,
    seats: Vec<Seat>,
    begin: Begin,
) -> Result<Vec<Seat>, AllocError>
    ensures { IfOk result (λ other. IsPermutation seats.items other.items) }
{
    let links = links_of(alloc, network)?;
    let holders = holders_of(alloc, shape, &seats)?;
    let mut trial = Trial {
        seats,
        holders,
        links,
        spans: spans_of(shape),
    };
    seat_first(alloc, shape, &mut trial, begin)?;
    rounds(&mut trial, &mut Draws::new(1));
    Ok(trial.seats)
}
