//! Covers on a cycle.

ghost use Rattle.std.specs.Prelude.{◌≡◌, ◌<◌, ◌≤◌, length, IfOk, IsTrue, ◌↔◌, Some, None, if◌then◌else◌, ◌&&◌};
ghost use Rattle.std.specs.Option.{ForSome};
ghost use Rattle.design_netlist.specs.Drivers.{AreDrivers};
ghost use Rattle.design_netlist.specs.Covers.{IsOnCycle, cover_line};
ghost use Rattle.design_netlist.specs.Orders.{IsFirst, is_sooner};
ghost use Rattle.design_netlist.specs.Sorts.{AreSorted};
ghost use Rattle.design_netlist.specs.Searches.{AreNumbered};

use crate::netlist_data::Cover;
use crate::search::{State, number_covers, number_of};
use std::alloc::{AllocError, Global};

/// Whether the cover reads one of its own number.
fn is_on_cycle(covers: &[Cover], drivers: &[Option<u32>], states: &Vec<State>, cover: usize) -> bool
    requires drivers { AreDrivers covers.now drivers.now }
    requires numbered { AreNumbered covers.now states.now.items }
    requires within { cover < length covers.now }
    ensures { IsTrue result ↔ IsOnCycle covers.now cover }
{
    let number = number_of(states, cover);
    let ins = covers[cover].ins.as_slice();
    'ins: for k in 0..ins.len() {
        if let Some(driver) = drivers[ins[k] as usize] {
            if number_of(states, driver as usize) == number {
                return true;
            }
        }
    }
    false
}

/// Whether a cover is on an earlier line than the one that was found.
fn is_before(covers: &[Cover], place: usize, found: Option<usize>) -> bool
    requires room { place < length covers.now }
    requires known { ForSome found (λ j. j < length covers.now) }
    ensures { result ≡ is_sooner (cover_line covers.now) place found }
{
    match found {
        None => true,
        Some(j) => covers[place].line < covers[j].line,
    }
}

fn chosen(cyclic: bool, before: bool, place: usize, found: Option<usize>) -> Option<usize>
    ensures { result ≡ (if cyclic && before then Some place else found) }
{
    if cyclic && before { Some(place) } else { found }
}

/// The first cover on a cycle, by line and then by place.
fn first_on_cycle(covers: &[Cover], drivers: &[Option<u32>], states: &Vec<State>) -> Option<usize>
    requires drivers { AreDrivers covers.now drivers.now }
    requires numbered { AreNumbered covers.now states.now.items }
    ensures { IsFirst (cover_line covers.now) (length covers.now) (IsOnCycle covers.now) result }
{
    let mut found: Option<usize> = None;
    'covers: for place in 0..covers.len() {
        let cyclic = is_on_cycle(covers, drivers, states, place);
        let before = is_before(covers, place, found);
        found = chosen(cyclic, before, place, found);
    }
    found
}

/// What the search for cycles finds.
#[derive(Debug, Drop)]
pub enum Sorted {
    /// All covers, each after those that it reads.
    Order(Vec<u32>),
    /// The first cover on a cycle.
    Cyclic(usize),
}

/// Sorts the covers, or finds the first that is on a cycle, by line and then by place.
pub fn sort_covers(
    alloc: Global,
    covers: &[Cover],
    drivers: &[Option<u32>],
) -> Result<Sorted, AllocError>
    requires drivers { AreDrivers covers.now drivers.now }
    requires few { length covers.now ≤ 4294967295 }
    ensures { IfOk result (λ sorted. AreSorted covers.now sorted) }
{
    let search = number_covers(alloc, covers, drivers)?;
    match first_on_cycle(covers, drivers, &search.states) {
        None => Ok(Sorted::Order(search.order)),
        Some(cover) => Ok(Sorted::Cyclic(cover)),
    }
}
