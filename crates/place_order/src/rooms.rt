//! The best order of several searches.

use crate::grow::grow_seats;
use crate::need::{Need, Worth, is_better, need_of, worth_of};
use crate::nets::Nets;
use crate::prices::{prices_of, steep_prices};
use crate::search::{HOT, PRESSED, Trial, WARM, root_visits, trial_of};
use crate::tree::{Tree, divide_by, small};
use base_random::Draws;
use std::alloc::{AllocError, Global};

/// How often prices are set anew.
const TURNS: usize = 6;

/// How many exchanges are tried from an even spread: in a brief search, in each long one, and to see which room is best.
const BRIEF_TRIES: usize = 150_000;

const LONG_TRIES: usize = 1_050_000;

const PROBE_TRIES: usize = 43_750;

/// Where the best order of long searches is so far beyond what there is, no further one is begun; and how many there are.
const NEAR: u64 = 2;

const LONG_SEARCHES: usize = 2;

/// In how many rounds of one heat, how hot the first one is, and by how much the heat falls.
const SPREAD_ROUNDS: usize = 70;

const SPREAD_HEAT: f64 = 0.3;

const SPREAD_FALL: f64 = 0.966_5;

/// A long search ends after so many rounds or later, where so many ports and lines are wanting for each round to come and each of
/// `LATE_ROUNDS` more. Searches that found an order had about half as many at most.
const EARLY_ROUNDS: usize = 20;

const LATE_ROUNDS: usize = 30;

const PATIENCE: usize = 8;

/// How many exchanges are tried in all other searches, at most so many for each table in a search, and at least so many.
const MOST_TRIES: usize = 250_000;

const MOST_EFFORT: usize = 480;

const LEAST_EFFORT: usize = 8;

/// Where the best order found from an even spread is so far beyond what there is, no other search is tried.
const HOPELESS: u64 = 12;

/// How long an order is sought.
#[derive(Clone, Copy, Debug, PartialEq, Eq)]
pub enum Effort {
    /// From an even spread alone, not long.
    Brief,
    /// Long, and from other beginnings too.
    Full,
}

/// Seats of tables, and how many seats covers and empty covers have.
#[derive(Drop)]
pub struct Order {
    pub seats: Vec<u32>,
    pub room: usize,
}

// The best order so far, and how good it is.
#[derive(Drop)]
struct Best {
    order: Order,
    worth: Worth,
}

// The tables of the machine at seats.
fn places_of(alloc: Global, tree: &Tree, seats: &[u32]) -> Result<Vec<u32>, AllocError> {
    let mut places = Vec::with_capacity(alloc, seats.len())?;
    'seats: for seat in seats {
        let place = tree.seats.get(*seat as usize).copied().unwrap_or(0);
        places.push(place)?;
    }
    Ok(places)
}

// What seats need.
fn needs(alloc: Global, nets: &Nets, tree: &Tree, seats: &[u32]) -> Result<Need, AllocError> {
    let places = places_of(alloc, tree, seats)?;
    need_of(alloc, nets, tree, &places)
}

// Keeps the seats of a trial if they are better; what they need.
fn keep(alloc: Global, best: &mut Best, trial: &Trial<'_>) -> Result<Need, AllocError> {
    let need = needs(alloc, trial.nets, trial.tree, &trial.seats)?;
    let worth = worth_of(&need, trial.tree, trial.nets.pins);
    if is_better(worth, best.worth) {
        let seats = Vec::from_slice(alloc, &trial.seats)?;
        let room = trial.room;
        best.worth = worth;
        best.order = Order { seats, room };
    }
    Ok(need)
}

// Sets the prices by what the seats need, and searches on.
fn press(
    alloc: Global,
    trial: &mut Trial<'_>,
    luck: &mut Draws,
    need: &Need,
    steps: usize,
) -> Result<(), AllocError> {
    let prices = prices_of(need, trial.tree, trial.nets.pins);
    trial.build(alloc, &prices)?;
    trial.anneal(luck, PRESSED, steps);
    Ok(())
}

// Sets the prices in turns by what the seats need, so that the greatest counts fall.
fn tighten(
    alloc: Global,
    best: &mut Best,
    trial: &mut Trial<'_>,
    luck: &mut Draws,
    steps: usize,
) -> Result<(), AllocError> {
    let mut need = keep(alloc, best, trial)?;
    'turns: for _ in 0..TURNS {
        press(alloc, trial, luck, &need, steps)?;
        need = keep(alloc, best, trial)?;
        if best.worth.beyond == 0 {
            break;
        }
    }
    Ok(())
}

// The seat of a table as it is; of a latch, behind those for covers.
fn plain_seat(split: usize, table: usize, room: usize) -> usize {
    if table < split {
        table
    } else {
        table.saturating_sub(split).saturating_add(room)
    }
}

// The seat of a table where covers are spread evenly.
fn even_seat(split: usize, table: usize, room: usize) -> usize {
    if table < split {
        divide_by(table.saturating_mul(room), split)
    } else {
        plain_seat(split, table, room)
    }
}

// The seats as they are, latches from a seat on.
fn plain_seats(alloc: Global, nets: &Nets, room: usize) -> Result<Vec<u32>, AllocError> {
    let mut seats = Vec::with_capacity(alloc, nets.of.len())?;
    'tables: for table in 0..nets.of.len() {
        seats.push(small(plain_seat(nets.split, table, room)))?;
    }
    Ok(seats)
}

// The seats of covers spread evenly over so many, latches from there on.
fn even_seats(alloc: Global, nets: &Nets, room: usize) -> Result<Vec<u32>, AllocError> {
    let mut seats = Vec::with_capacity(alloc, nets.of.len())?;
    'tables: for table in 0..nets.of.len() {
        seats.push(small(even_seat(nets.split, table, room)))?;
    }
    Ok(seats)
}

// A search from an even spread: over how many seats, how many exchanges, which chances, and whether it ends where there is no hope.
#[derive(Clone, Copy)]
struct Run {
    room: usize,
    tries: usize,
    chances: u64,
    ends: bool,
}

// Whether too many ports and lines are wanting after so many rounds.
fn is_hopeless(over: u32, round: usize) -> bool {
    let left = SPREAD_ROUNDS
        .saturating_add(LATE_ROUNDS)
        .saturating_sub(round);
    round >= EARLY_ROUNDS && over as usize > PATIENCE.saturating_mul(left)
}

// Searches on in rounds until an order fits, or there is no hope.
fn run_spread(
    alloc: Global,
    best: &mut Best,
    trial: &mut Trial<'_>,
    run: Run,
) -> Result<(), AllocError> {
    let steps = divide_by(run.tries, SPREAD_ROUNDS);
    let mut luck = Draws::new(run.chances);
    let mut heat = SPREAD_HEAT;
    'rounds: for round in 0..SPREAD_ROUNDS {
        trial.round(&mut luck, steps, heat);
        let _ = keep(alloc, best, trial)?;
        if best.worth.beyond == 0 || run.ends && is_hopeless(trial.over(), round) {
            break;
        }
        heat = heat * SPREAD_FALL;
    }
    Ok(())
}

// Searches from an even spread until an order fits; what the last seats cost.
fn search_spread(
    alloc: Global,
    best: &mut Best,
    nets: &Nets,
    tree: &Tree,
    run: Run,
) -> Result<i64, AllocError> {
    let seats = even_seats(alloc, nets, run.room)?;
    let mut trial = trial_of(alloc, nets, tree, seats, run.room, &steep_prices(tree))?;
    run_spread(alloc, best, &mut trial, run)?;
    Ok(trial.cost)
}

// The room in which a short search comes to the least cost, where there are several.
fn best_room(
    alloc: Global,
    best: &mut Best,
    nets: &Nets,
    tree: &Tree,
    rooms: &[usize],
) -> Result<usize, AllocError> {
    let mut found = rooms.last().copied().unwrap_or(nets.split);
    if rooms.len() < 3 {
        return Ok(found);
    }
    let mut least = i64::MAX;
    'rooms: for room in rooms {
        let run = Run {
            room: *room,
            tries: PROBE_TRIES,
            chances: 1,
            ends: false,
        };
        let cost = search_spread(alloc, best, nets, tree, run)?;
        if best.worth.beyond == 0 {
            break;
        }
        if cost < least {
            least = cost;
            found = *room;
        }
    }
    Ok(found)
}

// Whence a search begins: with so many seats for covers, from seats that are filled anew or from the order as it is.
#[derive(Clone, Copy)]
struct Begin {
    room: usize,
    steps: usize,
    anew: bool,
}

// The seats with which a search begins.
fn seats_at(alloc: Global, nets: &Nets, tree: &Tree, begin: Begin) -> Result<Vec<u32>, AllocError> {
    if begin.anew {
        grow_seats(alloc, nets, tree, begin.room)
    } else {
        plain_seats(alloc, nets, begin.room)
    }
}

// A trial with the seats with which a search begins.
fn trial_at<'a>(
    alloc: Global,
    nets: &'a Nets,
    tree: &'a Tree,
    begin: Begin,
) -> Result<Trial<'a>, AllocError> {
    let seats = seats_at(alloc, nets, tree, begin)?;
    let need = needs(alloc, nets, tree, &seats)?;
    let prices = prices_of(&need, tree, nets.pins);
    trial_of(alloc, nets, tree, seats, begin.room, &prices)
}

// Searches from a beginning.
fn search_from(
    alloc: Global,
    best: &mut Best,
    nets: &Nets,
    tree: &Tree,
    begin: Begin,
) -> Result<(), AllocError> {
    let mut trial = trial_at(alloc, nets, tree, begin)?;
    let mut luck = Draws::new(1);
    trial.anneal(&mut luck, if begin.anew { WARM } else { HOT }, begin.steps);
    tighten(alloc, best, &mut trial, &mut luck, begin.steps / 3)
}

// Searches with so many seats for covers, from both beginnings.
fn search_room(
    alloc: Global,
    best: &mut Best,
    nets: &Nets,
    tree: &Tree,
    room: usize,
    effort: usize,
) -> Result<(), AllocError> {
    let steps = effort.saturating_mul(nets.of.len());
    'beginnings: for anew in [false, true] {
        search_from(alloc, best, nets, tree, Begin { room, steps, anew })?;
        if best.worth.beyond == 0 {
            break;
        }
    }
    Ok(())
}

// The least multiple of a span that isn't below a number.
fn round_up(number: usize, span: usize) -> usize {
    divide_by(number.saturating_add(span.saturating_sub(1)), span).saturating_mul(span)
}

// Adds a number of seats with which the first latch, the middle one, or the end behind the last, begins a node of so many tables.
fn add_three(rooms: &mut Vec<usize>, nets: &Nets, span: usize) -> Result<(), AllocError> {
    let latches = nets.of.len().saturating_sub(nets.split);
    let middle = round_up(nets.split.saturating_add(latches / 2), span);
    let end = round_up(nets.of.len(), span);
    rooms.push(round_up(nets.split, span))?;
    rooms.push(middle.saturating_sub(latches / 2))?;
    rooms.push(end.saturating_sub(latches))?;
    Ok(())
}

// Adds those of all levels, if there are latches.
fn add_rooms(rooms: &mut Vec<usize>, nets: &Nets, tree: &Tree) -> Result<(), AllocError> {
    'tiers: for tier in &tree.tiers {
        if nets.of.len() > nets.split {
            add_three(rooms, nets, tier.span)?;
        }
    }
    Ok(())
}

// How many seats covers may have: as many as there are, the most, and for latches those with which the first of these, the middle
// one, or the end behind the last, begins a node.
fn rooms_of(
    alloc: Global,
    nets: &Nets,
    tree: &Tree,
    most: usize,
) -> Result<Vec<usize>, AllocError> {
    let mut rooms = Vec::new(alloc);
    rooms.push(nets.split)?;
    rooms.push(most)?;
    add_rooms(&mut rooms, nets, tree)?;
    rooms.retain(|room| *room >= nets.split && *room <= most);
    rooms.sort_unstable();
    rooms.dedup();
    Ok(rooms)
}

// The beginning: the order as it is.
fn first_best(alloc: Global, nets: &Nets, tree: &Tree) -> Result<Best, AllocError> {
    let seats = plain_seats(alloc, nets, nets.split)?;
    let need = needs(alloc, nets, tree, &seats)?;
    Ok(Best {
        worth: worth_of(&need, tree, nets.pins),
        order: Order {
            seats,
            room: nets.split,
        },
    })
}

// Searches long and again while the best order is near.
fn search_long(
    alloc: Global,
    best: &mut Best,
    nets: &Nets,
    tree: &Tree,
    room: usize,
) -> Result<(), AllocError> {
    'searches: for k in 0..LONG_SEARCHES {
        if best.worth.beyond == 0 || k > 0 && best.worth.beyond > NEAR {
            break;
        }
        let run = Run {
            room,
            tries: LONG_TRIES,
            chances: k.saturating_add(1) as u64,
            ends: true,
        };
        let _ = search_spread(alloc, best, nets, tree, run)?;
    }
    Ok(())
}

// Searches from an even spread: briefly with all seats, or longer with the room for which that promises most.
fn search_first(
    alloc: Global,
    best: &mut Best,
    nets: &Nets,
    tree: &Tree,
    rooms: &[usize],
    effort: Effort,
) -> Result<(), AllocError> {
    if effort == Effort::Full {
        let room = best_room(alloc, best, nets, tree, rooms)?;
        return search_long(alloc, best, nets, tree, room);
    }
    let run = Run {
        room: rooms.last().copied().unwrap_or(nets.split),
        tries: BRIEF_TRIES,
        chances: 1,
        ends: false,
    };
    let _ = search_spread(alloc, best, nets, tree, run)?;
    Ok(())
}

// Searches in all rooms until an order fits.
fn search_rooms(
    alloc: Global,
    best: &mut Best,
    nets: &Nets,
    tree: &Tree,
    rooms: &[usize],
) -> Result<(), AllocError> {
    let count = nets.of.len();
    let searches = rooms.len().saturating_mul(6).saturating_mul(count);
    let effort = divide_by(MOST_TRIES, searches)
        .max(LEAST_EFFORT)
        .min(MOST_EFFORT);
    'rooms: for room in rooms {
        search_room(alloc, best, nets, tree, *room, effort)?;
        if best.worth.beyond == 0 {
            break;
        }
    }
    Ok(())
}

// Searches with at most so many seats for covers.
fn search(
    alloc: Global,
    best: &mut Best,
    nets: &Nets,
    tree: &Tree,
    room: usize,
    effort: Effort,
) -> Result<(), AllocError> {
    let rooms = rooms_of(alloc, nets, tree, room)?;
    search_first(alloc, best, nets, tree, &rooms, effort)?;
    let beyond = best.worth.beyond;
    if effort == Effort::Full && beyond > 0 && beyond <= HOPELESS {
        search_rooms(alloc, best, nets, tree, &rooms)?;
    }
    Ok(())
}

/// The best order that was found with at most so many seats left free.
pub fn best_order(
    alloc: Global,
    nets: &Nets,
    tree: &Tree,
    spare: usize,
    effort: Effort,
) -> Result<Order, AllocError> {
    let count = nets.of.len();
    let most = count.saturating_add(spare).min(tree.seats.len());
    let latches = count.saturating_sub(nets.split);
    let mut best = first_best(alloc, nets, tree)?;
    if root_visits(nets, tree) as usize <= tree.lines {
        let room = most.saturating_sub(latches);
        search(alloc, &mut best, nets, tree, room, effort)?;
    }
    Ok(best.order)
}
