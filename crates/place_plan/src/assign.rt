//! A line for each net of a node, no two the same, or a set of nets that fewer lines serve than it has nets.
ghost use Rattle.std.specs.Prelude.{◌≡◌, ◌≢◌, ℕ, ◌<◌, List, [], ◌∷◌, ◌++◌, IfOk, All, AllPairs, Contains, Option, length, count_by, ◌==◌};
ghost use Rattle.std.specs.List.{list_any, filter, range_with_len};
ghost use Rattle.machine_shape.specs.Shape.{wires_of};
ghost use Rattle.place_plan.specs.Choices.{AreWires, IsAnswer, IsSite, serves_any, serves_by};
ghost use Rattle.place_plan.specs.Search.{ArePicks, IsDeadEnd, IsPartial};

use crate::keeping::owners_keeping;
use crate::search::{Ask, Assigned, Hold, Site, Step, give, serves_ask};
use machine_defects::Defects;
use std::alloc::{AllocError, Global};

fn is_reached(steps: &[Step], ask: usize) -> bool
    ensures { result ≡ list_any (λ s. s.ask == ask) steps.now }
{
    steps.iter().any(|step| step.ask == ask)
}

// Those who are reached.
fn reached_asks(alloc: Global, count: usize, steps: &[Step]) -> Result<Vec<usize>, AllocError>
    ensures { IfOk result (λ set. set.items ≡ filter (λ n. list_any (λ s. s.ask == n) steps.now) (range_with_len 0 count)) }
{
    let mut set = Vec::new(alloc);
    for k in 0..count {
        if is_reached(steps, k) {
            set.push(k)?;
        }
    }
    Ok(set)
}

// Whether a line serves at least one of a set.
fn serves_some(defects: &Defects, asks: &[Ask], set: &[usize], line: u32) -> bool
    requires taps { All (λ a. AreWires defects.now.shape a.taps) asks.now }
    requires line { line < wires_of defects.now.shape }
    requires set { All (λ n. n < length asks.now) set.now }
    ensures { result ≡ serves_any (serves_by defects.now asks.now) set.now line }
{
    for k in set {
        if serves_ask(defects, asks, *k, line) {
            return true;
        }
    }
    false
}

// How many lines serve at least one of a set.
fn count_served(defects: &Defects, asks: &[Ask], lines: &[u32], set: &[usize]) -> usize
    requires site { IsSite defects.now.shape asks.now lines.now }
    requires set { All (λ n. n < length asks.now) set.now }
    ensures { result ≡ count_by (serves_any (serves_by defects.now asks.now) set.now) lines.now }
{
    let mut count = 0;
    for line in lines {
        if serves_some(defects, asks, set, *line) {
            count += 1;
        }
    }
    count
}

// The lines that are given.
fn holds(alloc: Global, lines: &[u32], owners: &[Option<usize>]) -> Result<Vec<Hold>, AllocError>
    requires { length owners.now ≡ length lines.now }
    ensures { IfOk result (λ v. ArePicks lines.now owners.now v.items (length lines.now)) }
{
    let mut holds = Vec::new(alloc);
    for j in 0..lines.len() {
        if let Some(ask) = owners[j] {
            holds.push(Hold {
                ask,
                line: lines[j],
            })?;
        }
    }
    Ok(holds)
}

// The set of those whom a search without success reached.
fn lacking(
    alloc: Global,
    defects: &Defects,
    asks: &[Ask],
    lines: &[u32],
    steps: &[Step],
) -> Result<Assigned, AllocError>
    requires site { IsSite defects.now.shape asks.now lines.now }
    ensures { IfOk result (λ a. (done : List ℕ) (owners : List (Option ℕ)) (ask : ℕ) →
        IsPartial (serves_by defects.now asks.now) lines.now done owners →
        IsDeadEnd (serves_by defects.now asks.now) lines.now owners ask steps.now →
        ¬ Contains done ask → All (Contains (range_with_len 0 (length asks.now))) (done ++ ask ∷ []) → AllPairs (λ w v. w ≢ v) lines.now →
        IsAnswer (serves_by defects.now asks.now) (range_with_len 0 (length asks.now)) lines.now a) }
{
    let set = reached_asks(alloc, asks.len(), steps)?;
    let need = set.len() as u64;
    let have = count_served(defects, asks, lines, &set) as u64;
    Ok(Assigned::Lacking { set, need, have })
}

// A line for each who asks, no two the same, or a set of them that fewer lines serve than it has members.
fn assign_anew(
    alloc: Global,
    defects: &Defects,
    asks: &[Ask],
    lines: &[u32],
) -> Result<Assigned, AllocError>
    requires site { IsSite defects.now.shape asks.now lines.now }
    requires apart { AllPairs (λ w v. w ≢ v) lines.now }
    ensures { IfOk result (IsAnswer (serves_by defects.now asks.now) (range_with_len 0 (length asks.now)) lines.now) }
{
    let mut owners = vec![in alloc; None; lines.len()]?;
    for k in 0..asks.len() {
        if let Some(steps) = give(alloc, defects, asks, lines, &mut owners, k)? {
            return lacking(alloc, defects, asks, lines, &steps);
        }
    }
    Ok(Assigned::Given(holds(alloc, lines, &owners)?))
}

/// A line for each who asks, no two the same, or a set of them that fewer lines serve than it has members. Where it is told
/// which net had each wire, old lines are tried first.
pub fn assign(
    alloc: Global,
    defects: &Defects,
    asks: &[Ask],
    lines: &[u32],
    had: &[u32],
) -> Result<Assigned, AllocError>
    requires site { IsSite defects.now.shape asks.now lines.now }
    requires apart { AllPairs (λ w v. w ≢ v) lines.now }
    ensures { IfOk result (IsAnswer (serves_by defects.now asks.now) (range_with_len 0 (length asks.now)) lines.now) }
{
    let site = Site {
        defects,
        asks,
        lines,
    };
    if let Some(owners) = owners_keeping(alloc, &site, had)? {
        return Ok(Assigned::Given(holds(alloc, lines, &owners)?));
    }
    assign_anew(alloc, defects, asks, lines)
}
