//! The rounds of the search, and the text with fewest tables.
ghost use Rattle.std.specs.Prelude.{◌≤◌, IfOk, IfSome, length};
ghost use Rattle.base_text.specs.Size.{most_bytes};
ghost use Rattle.design_blif.specs.Designs.{IsDesign};
ghost use Rattle.map_text.specs.Remapped.{HasNarrowCovers, IsAnotherText, IsNarrowOr, IsRemapped, MayStandFor};

use crate::check::{check_drawn, read_drawn};
use crate::text::{Remapped, given_text, head_of, lesser};
use design_netlist::Netlist;
use map_search::{Head, Made, Way, cover_design, graph_of, wide_ands};
use std::alloc::{AllocError, Global};

/// How many ANDs the graphs of all rounds may have in sum before no further round begins.
const ENOUGH_ANDS: u64 = 60_000;

/// Of how many ANDs on a graph is so large that few cuts are kept of a node: the time goes with their square.
const MANY_ANDS: u64 = 100_000;

/// How many cuts are kept of a node then.
const FEW_CUTS: u32 = 4;

/// How many rounds with chance there are at most.
const MORE_ROUNDS: u64 = 8;

/// The rounds from the given design: each decomposes it in another way, from wide ANDs or not.
const FIRST_WAYS: [(Way, bool); 9] = [
    (Way::Pairs, false),
    (Way::Sixes, true),
    (Way::Lowest, true),
    (Way::Lowest, false),
    (Way::Chain, false),
    (Way::Multiplexers, false),
    (Way::RowsInPairs, false),
    (Way::RowsLowest, false),
    (Way::RowsInChains, false),
];

/// How a round goes about it.
#[derive(Clone, Copy)]
struct Round {
    way: Way,
    /// Whether chains become wide ANDs first.
    wide: bool,
    /// How many cuts a node of the graph keeps.
    cuts: u32,
    /// From where chance is drawn: 0 is without chance.
    chance: u64,
}

/// What a round came to.
#[derive(Drop)]
struct Found {
    text: Option<Remapped>,
    /// How many ANDs its graph had.
    ands: u64,
}

/// The best text so far.
#[derive(Drop)]
struct Search {
    best: Remapped,
    /// How many ANDs the graphs of all rounds had in sum.
    ands: u64,
}

// The round with chance of a number from 1 on.
fn round_by_chance(number: u64) -> Round {
    let way = match number % 8 {
        0 | 4 => Way::Pairs,
        1 | 7 => Way::Sixes,
        2 | 6 => Way::Chain,
        5 => Way::Lowest,
        _ => Way::Multiplexers,
    };
    let cuts = if number % 3 == 2 { 16 } else { 8 };
    Round {
        way,
        wide: number % 4 == 1 || number % 8 == 7,
        cuts,
        chance: number,
    }
}

// How many cuts a node keeps in a round over so many ANDs.
fn cuts_for(round: Round, ands: u64) -> u32 {
    if ands >= MANY_ANDS {
        return FEW_CUTS;
    }
    round.cuts
}

// A design as wide ANDs, if that is found.
fn widened(alloc: Global, design: &Netlist, head: &Head) -> Result<Option<Remapped>, AllocError>
    ensures { IfOk result (λ o. IfSome o (λ r. IsAnotherText design.now r.text r.netlist)) }
{
    match graph_of(alloc, design, Way::Pairs)? {
        Some(made) => widened_by(alloc, design, &made, head),
        None => Ok(None),
    }
}

// The same by its graph.
fn widened_by(
    alloc: Global,
    design: &Netlist,
    made: &Made,
    head: &Head,
) -> Result<Option<Remapped>, AllocError>
    ensures { IfOk result (λ o. IfSome o (λ r. IsAnotherText design.now r.text r.netlist)) }
{
    let drawn = wide_ands(alloc, design, made)?;
    read_drawn(alloc, design, made, &drawn, head)
}

// A round from a design. Its text is the one that it comes to, if this may stand for the design.
fn found_by(alloc: Global, design: &Netlist, round: Round, head: &Head) -> Result<Found, AllocError>
    ensures another { IfOk result (λ f. IfSome f.text (λ r. IsAnotherText design.now r.text r.netlist)) }
    ensures narrow { IfOk result (λ f. IfSome f.text (λ r. HasNarrowCovers r.netlist)) }
{
    if !round.wide {
        return found_from(alloc, design, round, head);
    }
    match widened(alloc, design, head)? {
        Some(wide) => found_from(alloc, &wide.netlist, round, head),
        None => Ok(Found {
            text: None,
            ands: 0,
        }),
    }
}

// The same from a design as it stands.
fn found_from(
    alloc: Global,
    design: &Netlist,
    round: Round,
    head: &Head,
) -> Result<Found, AllocError>
    ensures another { IfOk result (λ f. IfSome f.text (λ r. IsAnotherText design.now r.text r.netlist)) }
    ensures narrow { IfOk result (λ f. IfSome f.text (λ r. HasNarrowCovers r.netlist)) }
{
    match graph_of(alloc, design, round.way)? {
        Some(made) => found_in(alloc, design, &made, round, head),
        None => Ok(Found {
            text: None,
            ands: ENOUGH_ANDS,
        }),
    }
}

// The same by its graph.
fn found_in(
    alloc: Global,
    design: &Netlist,
    made: &Made,
    round: Round,
    head: &Head,
) -> Result<Found, AllocError>
    ensures another { IfOk result (λ f. IfSome f.text (λ r. IsAnotherText design.now r.text r.netlist)) }
    ensures narrow { IfOk result (λ f. IfSome f.text (λ r. HasNarrowCovers r.netlist)) }
{
    let ands = made.graph.ands.as_slice().len() as u64;
    let cuts = cuts_for(round, ands);
    let drawn = cover_design(alloc, design, made, cuts, round.chance)?;
    let text = check_drawn(alloc, design, made, &drawn, head)?;
    Ok(Found { text, ands })
}

// The rounds from the given design.
fn by_ways(alloc: Global, text: &[u8], netlist: &Netlist, head: &Head) -> Result<Search, AllocError>
    requires design { IsDesign text.now netlist.now }
    requires short { length text.now ≤ most_bytes }
    ensures { IfOk result (λ s. MayStandFor netlist.now text.now s.best) }
{
    let mut best = given_text(alloc, text, netlist)?;
    let mut ands = 0u64;
    'ways: for k in 0..FIRST_WAYS.len() {
        if ands >= ENOUGH_ANDS {
            break 'ways;
        }
        let (way, wide) = FIRST_WAYS[k];
        let round = Round {
            way,
            wide,
            cuts: 8,
            chance: 0,
        };
        let found = found_by(alloc, netlist, round, head)?;
        ands = ands.saturating_add(found.ands);
        best = lesser(alloc, best, found.text)?;
    }
    Ok(Search { best, ands })
}

/// Another text of a design, with the same rows and no more tables: the one with fewest tables that the rounds come to, or the given
/// one.
///
/// # Errors
///
/// Out of memory.
pub fn remapped(alloc: Global, text: &[u8], netlist: &Netlist) -> Result<Remapped, AllocError>
    requires design { IsDesign text.now netlist.now }
    requires short { length text.now ≤ most_bytes }
    ensures remapped { IfOk result (λ r. IsRemapped netlist.now r.text r.netlist) }
    ensures narrow { IfOk result (IsNarrowOr text.now) }
{
    let head = head_of(alloc, text, netlist)?;
    let Search { mut best, mut ands } = by_ways(alloc, text, netlist, &head)?;
    'rounds: for number in 1..MORE_ROUNDS + 1 {
        if ands >= ENOUGH_ANDS {
            break 'rounds;
        }
        let found = found_by(alloc, &best.netlist, round_by_chance(number), &head)?;
        ands = ands.saturating_add(found.ands);
        best = lesser(alloc, best, found.text)?;
    }
    Ok(best)
}
