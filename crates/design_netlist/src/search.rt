//! The groups of covers that reach one another.

ghost use Rattle.std.specs.Prelude.{◌≡◌, ◌<◌, ◌≤◌, ◌+◌, ◌-◌, ◌++◌, ℕ, [], length, IfOk, IsTrue, ◌↔◌, OnOk, slice_index_or, slice_set, take};
ghost use Rattle.std.specs.Prelude.{None, MatchOption};
ghost use Rattle.std.specs.Option.{IsSomeAnd};
ghost use Rattle.design_netlist.specs.Drivers.{AreDrivers};
ghost use Rattle.design_netlist.specs.Searches.{targets, state_at, search_number, LeadsTo, IsClosed, IsKept, IsTaken, IsListed, IsJoinedOn, StaysSeen};
ghost use Rattle.design_netlist.specs.Searches.{AreNumbered};
ghost use Rattle.design_netlist.specs.States.{IsSearching, left_of, IsLast, IsLastOf, IsReadFromLast};
ghost use Rattle.design_netlist.specs.declared.search.State.TheVariants.{New};

use crate::netlist_data::Cover;
use std::alloc::{AllocError, Global};

/// How far the search has come with a cover.
#[derive(Clone, Copy, Debug, PartialEq, Eq)]
pub enum State {
    New,
    /// It stands at this place of the path.
    Open(usize),
    /// It is in the group of this number.
    Done(usize),
}

/// Where a group begins on the path, and in the list of covers that wait for a visit.
#[derive(Clone, Copy, Debug, PartialEq, Eq)]
pub struct Group {
    start: usize,
    waits: usize,
}

/// A search through the covers.
#[derive(Debug, Drop)]
pub struct Search {
    pub states: Vec<State>,
    path: Vec<u32>,
    groups: Vec<Group>,
    waiting: Vec<u32>,
    pub order: Vec<u32>,
}

/// Adds the covers that drive the inputs.
fn push_targets(
    drivers: &[Option<u32>],
    ins: &[u32],
    waiting: &mut Vec<u32>,
) -> Result<(), AllocError>
    requires { (k : ℕ) → k < length ins.now → slice_index_or ins.now k 0 < length drivers.now }
    ensures { OnOk result (waiting.new.items ≡ waiting.old.items ++ targets drivers.now ins.now) }
{
    'ins: for k in 0..ins.len() {
        if let Some(cover) = drivers[ins[k] as usize] {
            waiting.push(cover)?;
        }
    }
    Ok(())
}

fn set_state(states: &mut Vec<State>, cover: u32, state: State)
    requires { cover < length states.old.items }
    ensures { states.new.items ≡ slice_set states.old.items cover state }
{
    states[cover as usize] = state;
}

fn state_of(states: &Vec<State>, cover: u32) -> State
    requires { cover < length states.now.items }
    ensures { result ≡ state_at states.now.items cover }
{
    states[cover as usize]
}

/// Takes the last one that waits.
fn take_last(waiting: &mut Vec<u32>) -> Option<u32>
    requires { 0 < length waiting.old.items }
    ensures { IsSomeAnd result (λ x. IsTaken waiting.old.items waiting.new.items x) }
{
    waiting.pop()
}

fn last_of(groups: &Vec<Group>) -> Option<Group>
    ensures { MatchOption result (groups.now.items ≡ []) (λ g. IsLastOf groups.now.items g) }
{
    if groups.is_empty() {
        return None;
    }
    Some(groups[groups.len() - 1])
}

/// Puts a cover that is new on the path, as a group of its own.
fn open(
    search: &mut Search,
    covers: &[Cover],
    drivers: &[Option<u32>],
    cover: u32,
) -> Result<(), AllocError>
    requires drivers { AreDrivers covers.now drivers.now }
    requires searching { IsSearching covers.now search.old cover }
    requires within { cover < length covers.now }
    requires fresh { state_at search.old.states.items cover ≡ New }
    requires led { LeadsTo covers.now search.old.path.items cover }
    ensures searching { OnOk result (IsSearching covers.now search.new (length covers.now)) }
    ensures less { OnOk result (left_of covers.now search.new < left_of covers.now search.old) }
    ensures seen { OnOk result (StaysSeen search.old.states.items search.new.states.items) }
    ensures itself { OnOk result (state_at search.new.states.items cover ≡ New → ⊥) }
{
    let group = Group {
        start: search.path.len(),
        waits: search.waiting.len(),
    };
    search.groups.push(group)?;
    set_state(&mut search.states, cover, State::Open(group.start));
    search.path.push(cover)?;
    push_targets(
        drivers,
        covers[cover as usize].ins.as_slice(),
        &mut search.waiting,
    )?;
    Ok(())
}

/// How many groups begin at the place or before it.
fn kept(groups: &[Group], place: usize) -> usize
    ensures { IsKept groups.now place result }
{
    let mut n = groups.len();
    'back: while n > 0 {
        if groups[n - 1].start <= place {
            break;
        }
        n -= 1;
    }
    n
}

/// Gives the covers of the path from the place on the next number, and lists them.
fn number_all(
    states: &mut Vec<State>,
    order: &mut Vec<u32>,
    path: &[u32],
    start: usize,
) -> Result<(), AllocError>
    requires known { (k : ℕ) → k < length path.now → slice_index_or path.now k 0 < length states.old.items }
    requires within { start ≤ length path.now }
    ensures closed { OnOk result (IsClosed start (length path.now) (length order.old.items) states.old.items states.new.items path.now) }
    ensures listed { OnOk result (IsJoinedOn path.now order.old.items order.new.items start (length path.now)) }
{
    let number = order.len();
    'places: for k in start..path.len() {
        set_state(states, path[k], State::Done(number));
        order.push(path[k])?;
    }
    Ok(())
}

/// Forgets the last group.
fn drop_last(groups: &mut Vec<Group>)
    requires { 0 < length groups.old.items }
    ensures { groups.new.items ≡ take (length groups.old.items - 1) groups.old.items }
{
    let _ = groups.pop();
}

/// Takes the last group off the path. Its covers get the next number.
fn close(search: &mut Search, covers: &[Cover], group: Group) -> Result<(), AllocError>
    requires searching { IsSearching covers.now search.old (length covers.now) }
    requires last { IsLast search.old group }
    requires visited { length search.old.waiting.items ≤ group.waits }
    ensures searching { OnOk result (IsSearching covers.now search.new (length covers.now)) }
    ensures less { OnOk result (left_of covers.now search.new < left_of covers.now search.old) }
    ensures seen { OnOk result (StaysSeen search.old.states.items search.new.states.items) }
{
    number_all(
        &mut search.states,
        &mut search.order,
        &search.path,
        group.start,
    )?;
    search.path.truncate(group.start);
    drop_last(&mut search.groups);
    Ok(())
}

/// Looks at a cover that is read from the last group.
fn visit(
    search: &mut Search,
    covers: &[Cover],
    drivers: &[Option<u32>],
    cover: u32,
) -> Result<(), AllocError>
    requires drivers { AreDrivers covers.now drivers.now }
    requires searching { IsSearching covers.now search.old cover }
    requires within { cover < length covers.now }
    requires read { IsReadFromLast covers.now search.old cover }
    ensures searching { OnOk result (IsSearching covers.now search.new (length covers.now)) }
    ensures less { OnOk result (left_of covers.now search.new ≤ left_of covers.now search.old) }
    ensures seen { OnOk result (StaysSeen search.old.states.items search.new.states.items) }
{
    match state_of(&search.states, cover) {
        State::New => open(search, covers, drivers, cover)?,
        State::Open(place) => {
            let kept = kept(&search.groups, place);
            search.groups.truncate(kept);
        }
        State::Done(_) => {}
    }
    Ok(())
}

/// One step of the search, from its last group.
fn step(
    search: &mut Search,
    covers: &[Cover],
    drivers: &[Option<u32>],
    group: Group,
) -> Result<(), AllocError>
    requires drivers { AreDrivers covers.now drivers.now }
    requires searching { IsSearching covers.now search.old (length covers.now) }
    requires last { IsLast search.old group }
    ensures searching { OnOk result (IsSearching covers.now search.new (length covers.now)) }
    ensures less { OnOk result (left_of covers.now search.new < left_of covers.now search.old) }
    ensures seen { OnOk result (StaysSeen search.old.states.items search.new.states.items) }
{
    if search.waiting.len() <= group.waits {
        return close(search, covers, group);
    }
    match take_last(&mut search.waiting) {
        Some(cover) => visit(search, covers, drivers, cover),
        None => Ok(()),
    }
}

/// Visits all that a cover reaches.
fn run(search: &mut Search, covers: &[Cover], drivers: &[Option<u32>]) -> Result<(), AllocError>
    requires drivers { AreDrivers covers.now drivers.now }
    requires searching { IsSearching covers.now search.old (length covers.now) }
    ensures searching { OnOk result (IsSearching covers.now search.new (length covers.now)) }
    ensures ended { OnOk result (search.new.groups.items ≡ []) }
    ensures seen { OnOk result (StaysSeen search.old.states.items search.new.states.items) }
{
    'steps: while let Some(group) = last_of(&search.groups) {
        step(search, covers, drivers, group)?;
    }
    Ok(())
}

fn is_new(states: &Vec<State>, cover: usize) -> bool
    requires { cover < length states.now.items }
    ensures { IsTrue result ↔ (state_at states.now.items cover ≡ New) }
{
    match states[cover] {
        State::New => true,
        State::Open(_) | State::Done(_) => false,
    }
}

/// The number of a cover.
pub fn number_of(states: &Vec<State>, cover: usize) -> usize
    requires { cover < length states.now.items }
    ensures { result ≡ search_number (state_at states.now.items cover) }
{
    match states[cover] {
        State::Done(number) => number,
        State::New | State::Open(_) => 0,
    }
}

/// Numbers all that a cover reaches, if it has no number yet.
fn number_from(
    search: &mut Search,
    covers: &[Cover],
    drivers: &[Option<u32>],
    cover: u32,
) -> Result<(), AllocError>
    requires drivers { AreDrivers covers.now drivers.now }
    requires searching { IsSearching covers.now search.old (length covers.now) }
    requires ended { search.old.groups.items ≡ [] }
    requires within { cover < length covers.now }
    ensures searching { OnOk result (IsSearching covers.now search.new (length covers.now)) }
    ensures ended { OnOk result (search.new.groups.items ≡ []) }
    ensures seen { OnOk result (StaysSeen search.old.states.items search.new.states.items) }
    ensures itself { OnOk result (state_at search.new.states.items cover ≡ New → ⊥) }
{
    if is_new(&search.states, cover as usize) {
        open(search, covers, drivers, cover)?;
        run(search, covers, drivers)?;
    }
    Ok(())
}

/// Numbers the covers: none reads one with a greater number, and those of one number reach each other.
pub fn number_covers(
    alloc: Global,
    covers: &[Cover],
    drivers: &[Option<u32>],
) -> Result<Search, AllocError>
    requires drivers { AreDrivers covers.now drivers.now }
    requires few { length covers.now ≤ 4294967295 }
    ensures numbered { IfOk result (λ s. AreNumbered covers.now s.states.items) }
    ensures listed { IfOk result (λ s. IsListed covers.now s.states.items s.order.items) }
{
    let mut search = Search {
        states: vec![in alloc; State::New; covers.len()]?,
        path: Vec::new(alloc),
        groups: Vec::new(alloc),
        waiting: Vec::new(alloc),
        order: Vec::new(alloc),
    };
    'roots: for root in 0..covers.len() {
        number_from(&mut search, covers, drivers, root as u32)?;
    }
    Ok(search)
}
