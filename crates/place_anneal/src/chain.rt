//! The tables of a network in a chain, in which nets end soon after they began: next comes the table that ends most nets and
//! begins fewest.

use crate::links::Links;
use crate::ranks::{Ranks, ranks_of};
use std::alloc::{AllocError, Global};

/// Nets with more tables lead to most of the network, so they say nothing.
const MOST_JOINED: usize = 1000;

/// The rank of a table that is on no net of the chain and begins none: more than a table has nets. The lowest rank is that of
/// the tables which no net has reached.
const REACHED: usize = 8;

/// By how much a table rises that is on a net when the net begins, since it doesn't begin that any more and goes on with it.
const BEGUN: usize = 2;

/// By how much it rises when the net lacks it alone.
const ENDING: usize = 1;

// What is known while the chain grows: how many tables each net lacks, the rank of each table once a net has reached it, and 0
// of those in the chain, and the others in lists.
#[derive(Drop)]
struct Growth {
    lacks: Vec<usize>,
    worths: Vec<usize>,
    ranks: Ranks,
}

// How many tables a net joins, or none where it says nothing.
fn joined(links: &Links, net: usize) -> usize {
    if net >= links.nets.len() {
        return 0;
    }
    let count = links.nets[net].tables.as_slice().len();
    if count > MOST_JOINED { 0 } else { count }
}

// How many tables each net lacks at first.
fn lacks_of(alloc: Global, links: &Links) -> Result<Vec<usize>, AllocError> {
    let mut lacks = Vec::new(alloc);
    for net in 0..links.nets.len() {
        lacks.push(joined(links, net))?;
    }
    Ok(lacks)
}

// The rank of a table on these nets, all of which it would begin.
fn worth_of(links: &Links, nets: &[usize]) -> usize {
    let mut worth = REACHED;
    for net in nets {
        if joined(links, *net) > 1 {
            worth = worth.saturating_sub(1);
        }
    }
    worth
}

// The rank of each.
fn worths_of(alloc: Global, links: &Links) -> Result<Vec<usize>, AllocError> {
    let mut worths = Vec::new(alloc);
    for nets in &links.nets_of {
        worths.push(worth_of(links, nets.as_slice()))?;
    }
    Ok(worths)
}

// All tables in the list of the lowest rank, in their order.
fn unreached(alloc: Global, tables: usize) -> Result<Ranks, AllocError> {
    let mut ranks = ranks_of(alloc, tables)?;
    for k in 0..tables {
        ranks.enter(tables.saturating_sub(k).saturating_sub(1), 0);
    }
    Ok(ranks)
}

// Lets a table rise that isn't in the chain.
fn raise(growth: &mut Growth, table: usize, by: usize) {
    if table < growth.worths.len() && growth.worths[table] > 0 {
        let worth = growth.worths[table].saturating_add(by);
        growth.worths[table] = worth;
        growth.ranks.enter(table, worth);
    }
}

// Lets these rise.
fn raise_all(growth: &mut Growth, tables: &[usize], by: usize) {
    for table in tables {
        raise(growth, *table, by);
    }
}

// Notes that a net has one more table in the chain.
fn meet(growth: &mut Growth, links: &Links, net: usize) {
    let all = joined(links, net);
    if all > 1 && net < links.nets.len() && net < growth.lacks.len() {
        let before = growth.lacks[net];
        let lacks = before.saturating_sub(1);
        growth.lacks[net] = lacks;
        let begun = if before == all { BEGUN } else { 0 };
        let ending = if lacks == 1 { ENDING } else { 0 };
        let by = begun.saturating_add(ending);
        if by > 0 {
            raise_all(growth, links.nets[net].tables.as_slice(), by);
        }
    }
}

// Puts a table into the chain.
fn settle(growth: &mut Growth, links: &Links, table: usize) {
    if table < growth.worths.len() && table < links.nets_of.len() {
        growth.worths[table] = 0;
        growth.ranks.leave(table);
        for net in links.nets_of[table].as_slice() {
            meet(growth, links, *net);
        }
    }
}

// The next table, which is put into the chain.
fn next(growth: &mut Growth, links: &Links) -> Option<usize> {
    let table = growth.ranks.best()?;
    settle(growth, links, table);
    Some(table)
}

/// The tables in a chain.
pub fn chain_of(alloc: Global, links: &Links) -> Result<Vec<usize>, AllocError> {
    let tables = links.nets_of.len();
    let mut growth = Growth {
        lacks: lacks_of(alloc, links)?,
        worths: worths_of(alloc, links)?,
        ranks: unreached(alloc, tables)?,
    };
    let mut chain = Vec::new(alloc);
    for k in 0..tables {
        let _ = k;
        if let Some(table) = next(&mut growth, links) {
            chain.push(table)?;
        }
    }
    Ok(chain)
}
