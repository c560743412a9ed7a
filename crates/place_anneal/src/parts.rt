//! A chain of tables cut into parts where few nets cross.

use crate::links::Links;
use std::alloc::{AllocError, Global};

// A part of a chain while it is sought: how many tables of each net it has, and how many nets are in it and lead out of it.
#[derive(Drop)]
struct Part {
    inside: Vec<usize>,
    crossing: usize,
}

// Counts one more table of a net.
fn count_net(part: &mut Part, links: &Links, net: usize) {
    if net < links.nets.len() && net < part.inside.len() {
        let all = links.nets[net].tables.as_slice().len();
        let pinned = links.nets[net].pinned;
        let inside = part.inside[net].saturating_add(1);
        part.inside[net] = inside;
        if inside == 1 && (pinned || all > 1) {
            part.crossing = part.crossing.saturating_add(1);
        }
        if inside == all && all > 1 && !pinned {
            part.crossing = part.crossing.saturating_sub(1);
        }
    }
}

// Counts a table.
fn count_table(part: &mut Part, links: &Links, table: usize) {
    if table < links.nets_of.len() {
        for net in links.nets_of[table].as_slice() {
            count_net(part, links, *net);
        }
    }
}

// Forgets the nets of a table.
fn forget_table(part: &mut Part, links: &Links, table: usize) {
    if table < links.nets_of.len() {
        for net in links.nets_of[table].as_slice() {
            if *net < part.inside.len() {
                part.inside[*net] = 0;
            }
        }
    }
}

// Forgets these tables, which are all that were counted.
fn forget(part: &mut Part, links: &Links, tables: &[usize]) {
    part.crossing = 0;
    for table in tables {
        forget_table(part, links, *table);
    }
}

/// How many tables a part has at least, and how many nets may cross so that one more table is taken even if that adds some.
#[derive(Clone, Copy)]
pub struct Bounds {
    pub least: usize,
    pub borne: usize,
}

// How many of these tables are to make a part.
fn count_of(part: &mut Part, links: &Links, tables: &[usize], bounds: Bounds) -> usize {
    let mut best = bounds.least;
    let mut fewest = usize::MAX;
    let mut count = 0usize;
    for table in tables {
        count_table(part, links, *table);
        count = count.saturating_add(1);
        if count >= bounds.least && (part.crossing <= fewest || part.crossing <= bounds.borne) {
            fewest = fewest.min(part.crossing);
            best = count;
        }
    }
    best
}

/// So many numbers from a place on, as far as there are any.
pub fn piece(numbers: &[usize], from: usize, count: usize) -> &[usize] {
    let end = from.saturating_add(count).min(numbers.len());
    if from <= end && end <= numbers.len() {
        &numbers[from..end]
    } else {
        &numbers[..0]
    }
}

/// Cuts of a chain into parts.
#[derive(Drop)]
pub struct Cuts {
    part: Part,
    counts: Vec<usize>,
}

// The sum of these numbers.
fn sum_of(numbers: &[usize]) -> usize {
    let mut sum = 0usize;
    for number in numbers {
        sum = sum.saturating_add(*number);
    }
    sum
}

// An even share of so many for so many, rounded up.
fn share(count: usize, parts: usize) -> usize {
    if parts == 0 {
        return count;
    }
    count.saturating_add(parts - 1) / parts
}

// Cuts one part off these tables, for the first of nodes that have room for so many each.
fn cut_one(
    cuts: &mut Cuts,
    links: &Links,
    tables: &[usize],
    rooms: &[usize],
    borne: usize,
) -> usize {
    let room = rooms.get(0).copied().unwrap_or(0).min(tables.len());
    let later = sum_of(rooms).saturating_sub(room);
    let least = share(tables.len(), rooms.len())
        .max(tables.len().saturating_sub(later))
        .min(room);
    let tables = piece(tables, 0, room);
    let count = count_of(&mut cuts.part, links, tables, Bounds { least, borne });
    forget(&mut cuts.part, links, tables);
    count
}

// Cuts these tables into parts for nodes that have room for so many each.
fn cut(
    cuts: &mut Cuts,
    links: &Links,
    tables: &[usize],
    rooms: &[usize],
    borne: usize,
) -> Result<(), AllocError> {
    let mut at = 0usize;
    for k in 0..rooms.len() {
        let rest = piece(tables, at, tables.len());
        let left = piece(rooms, k, rooms.len());
        let count = cut_one(cuts, links, rest, left, borne);
        cuts.counts.push(count)?;
        at = at.saturating_add(count);
    }
    Ok(())
}

/// The parts of a chain, each cut into as many as nodes are below one, which have room for so many tables each. Each is cut
/// where the fewest nets cross between an even share and the node's room, or where at most `borne` do.
pub fn cut_each(
    alloc: Global,
    links: &Links,
    chain: &[usize],
    counts: &[usize],
    rooms: &[usize],
    borne: usize,
) -> Result<Vec<usize>, AllocError> {
    let part = Part {
        inside: vec![in alloc; 0usize; links.nets.len()]?,
        crossing: 0,
    };
    let mut cuts = Cuts {
        part,
        counts: Vec::new(alloc),
    };
    let below = share(rooms.len(), counts.len());
    let mut at = 0usize;
    for k in 0..counts.len() {
        let tables = piece(chain, at, counts[k]);
        let rooms = piece(rooms, k.saturating_mul(below), below);
        cut(&mut cuts, links, tables, rooms, borne)?;
        at = at.saturating_add(counts[k]);
    }
    Ok(cuts.counts)
}
