//! ANDs of many literals.

use crate::builder::Builder;
use crate::way::Join;
use std::alloc::AllocError;

/// How many ANDs one above the other a table holds, about.
const ANDS_OF_TABLE: u32 = 3;

/// With more literals pairs are made in place of the lowest.
const MOST_SORTED: usize = 1000;

// The AND of at most two literals.
fn pair_and(builder: &mut Builder, pair: &[u32]) -> Result<u32, AllocError> {
    match pair {
        [a, b] => builder.and(*a, *b),
        [a] => Ok(*a),
        _ => Ok(1),
    }
}

// The ANDs of the first two literals, of the next two, and so on.
fn pairs(builder: &mut Builder, literals: &[u32]) -> Result<Vec<u32>, AllocError> {
    let mut ands = Vec::new(builder.alloc);
    'pairs: for pair in literals.chunks(2) {
        let and = pair_and(builder, pair)?;
        ands.push(and)?;
    }
    Ok(ands)
}

// In pairs of pairs.
fn balance_literals(builder: &mut Builder, literals: Vec<u32>) -> Result<u32, AllocError> {
    let mut left = literals;
    'levels: for _ in 0..64 {
        if left.len() < 2 {
            break;
        }
        left = pairs(builder, &left)?;
    }
    Ok(left.first().copied().unwrap_or(1))
}

// One after the other.
fn chain_literals(builder: &mut Builder, literals: &[u32]) -> Result<u32, AllocError> {
    let mut and = 1;
    'literals: for literal in literals {
        and = builder.and(and, *literal)?;
    }
    Ok(and)
}

// How many of the literals, the highest first, are higher than this level.
fn higher_than(builder: &Builder, literals: &[u32], level: u32) -> usize {
    let mut count = 0usize;
    'literals: for literal in literals {
        if builder.level(*literal) > level {
            count = count.saturating_add(1);
        }
    }
    count
}

// Puts a literal behind those that are higher.
fn put_by_level(
    builder: &Builder,
    literals: &mut Vec<u32>,
    literal: u32,
) -> Result<(), AllocError> {
    let place = higher_than(builder, literals, builder.level(literal));
    if place <= literals.len() {
        literals.insert(place, literal)?;
    }
    Ok(())
}

// Joins the two lowest of literals that stand by their level, the highest first.
fn join_lowest(builder: &mut Builder, literals: &mut Vec<u32>) -> Result<bool, AllocError> {
    if literals.len() < 2 {
        return Ok(false);
    }
    let a = literals.pop().unwrap_or(1);
    let b = literals.pop().unwrap_or(1);
    let and = builder.and(a, b)?;
    put_by_level(builder, literals, and)?;
    Ok(true)
}

// The literals with their levels, the highest first.
fn by_level(builder: &Builder, literals: &[u32]) -> Result<Vec<u32>, AllocError> {
    let mut sorted = Vec::from_slice(builder.alloc, literals)?;
    sorted.sort_by_key(|literal| u32::MAX - builder.level(*literal))?;
    Ok(sorted)
}

// The two lowest first, again and again.
fn lowest_first(builder: &mut Builder, literals: &[u32]) -> Result<u32, AllocError> {
    let mut left = by_level(builder, literals)?;
    'pairs: for _ in 0..literals.len() {
        if !join_lowest(builder, &mut left)? {
            break;
        }
    }
    Ok(left.first().copied().unwrap_or(1))
}

// A literal, and how many tables lie below it, by and by.
#[derive(Clone, Copy)]
struct Deep {
    literal: u32,
    tables: u32,
}

// The literals with their depths.
fn depths_of(builder: &Builder, literals: &[u32]) -> Result<Vec<Deep>, AllocError> {
    let mut deep = Vec::with_capacity(builder.alloc, literals.len())?;
    'literals: for literal in literals {
        let literal = *literal;
        let tables = builder.level(literal) / ANDS_OF_TABLE;
        deep.push(Deep { literal, tables })?;
    }
    Ok(deep)
}

// The literals with their depths, the deepest first.
fn by_depth(builder: &Builder, literals: &[u32]) -> Result<Vec<Deep>, AllocError> {
    let mut deep = depths_of(builder, literals)?;
    deep.sort_by_key(|one| u32::MAX - one.tables)?;
    Ok(deep)
}

// Takes the last so many literals; the depth of the deepest of them.
fn take_last(deep: &mut Vec<Deep>, count: usize, taken: &mut Vec<u32>) -> Result<u32, AllocError> {
    let mut tables = 0u32;
    'literals: for _ in 0..count {
        if let Some(one) = deep.pop() {
            taken.push(one.literal)?;
            tables = tables.max(one.tables);
        }
    }
    Ok(tables)
}

// The AND of the last so many literals, which are taken, and its depth.
fn join_last(
    builder: &mut Builder,
    deep: &mut Vec<Deep>,
    count: usize,
) -> Result<Deep, AllocError> {
    let mut taken = Vec::with_capacity(builder.alloc, 6)?;
    let tables = take_last(deep, count, &mut taken)?;
    let literal = balance_literals(builder, taken)?;
    Ok(Deep {
        literal,
        tables: tables.saturating_add(1),
    })
}

// The place behind those that are deeper than this.
fn behind_deeper(deep: &[Deep], tables: u32) -> usize {
    let mut place = 0usize;
    'literals: for k in 0..deep.len() {
        if deep[k].tables > tables {
            place = k.saturating_add(1);
        }
    }
    place
}

// Puts a literal behind those that are deeper.
fn put_deep(deep: &mut Vec<Deep>, one: Deep) -> Result<(), AllocError> {
    let place = behind_deeper(deep, one.tables);
    if place <= deep.len() {
        deep.insert(place, one)?;
    }
    Ok(())
}

// Joins the last so many literals, and puts the one that comes of it in its place.
fn join_sixes(builder: &mut Builder, deep: &mut Vec<Deep>, count: usize) -> Result<(), AllocError> {
    let one = join_last(builder, deep, count)?;
    put_deep(deep, one)
}

// The first literal, or 1 where there is none.
fn first_of(deep: &[Deep]) -> u32 {
    match deep.first() {
        Some(one) => one.literal,
        None => 1,
    }
}

// The six lowest first, again and again; at first so many that all that follow are six.
fn sixes_first(builder: &mut Builder, literals: &[u32]) -> Result<u32, AllocError> {
    let mut deep = by_depth(builder, literals)?;
    let mut count = literals.len().wrapping_add(3) % 5 + 2;
    'sixes: for _ in 0..literals.len() {
        if deep.len() < 2 {
            break;
        }
        join_sixes(builder, &mut deep, count)?;
        count = 6;
    }
    Ok(first_of(&deep))
}

// How so many literals are joined.
fn join_for(join: Join, count: usize) -> Join {
    match join {
        Join::Chain => Join::Chain,
        other => {
            if count > MOST_SORTED {
                Join::Pairs
            } else {
                other
            }
        }
    }
}

/// The AND of literals.
pub fn and_all(builder: &mut Builder, literals: Vec<u32>, join: Join) -> Result<u32, AllocError> {
    match join_for(join, literals.len()) {
        Join::Pairs => balance_literals(builder, literals),
        Join::Chain => chain_literals(builder, &literals),
        Join::Sixes => sixes_first(builder, &literals),
        Join::Lowest => lowest_first(builder, &literals),
    }
}
