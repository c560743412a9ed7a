//! The order of covers and latches.

use crate::copying::{copy_cover, copy_names, copy_ports, empty_cover};
use crate::nets::{NOTHING, Nets, nets_of};
use crate::rooms::{Effort, Order, best_order};
use crate::tree::{Tree, small, tree_of};
use base_lists::Items;
use design_netlist::{Cover, LatchDef, Names, NetlistData, PortDef};
use machine_defects::Defects;
use map_search::FreeNames;
use std::alloc::{AllocError, Global};

/// The most counts of tables of nets at hextants that a search keeps.
const MOST_COUNTS: usize = 100_000_000;

// Notes the tables at their seats.
fn hold_all(holders: &mut Vec<u32>, seats: &[u32]) {
    'tables: for table in 0..seats.len() {
        let seat = seats[table] as usize;
        if seat < holders.len() {
            holders[seat] = small(table);
        }
    }
}

// The table at each seat.
fn holders_of(alloc: Global, order: &Order, count: usize) -> Result<Vec<u32>, AllocError> {
    let mut holders = vec![in alloc; NOTHING; count]?;
    hold_all(&mut holders, &order.seats);
    Ok(holders)
}

// Where the covers end: behind the last one, or where latches begin.
fn covers_end(holders: &[u32], room: usize, latches: usize) -> usize {
    if latches > 0 {
        return room;
    }
    let mut end = 0usize;
    'seats: for k in 0..holders.len() {
        if holders[k] != NOTHING {
            end = k.saturating_add(1);
        }
    }
    end
}

// All names are taken.
fn take_names(alloc: Global, free: &mut FreeNames, names: &Names) -> Result<(), AllocError> {
    'names: for k in 0..names.len() {
        let name = names.get(alloc, k)?;
        free.take(name.as_slice())?;
    }
    Ok(())
}

// The free names for empty covers.
fn free_names(alloc: Global, names: &Names) -> Result<FreeNames, AllocError> {
    let mut free = FreeNames::new(alloc, b'e');
    take_names(alloc, &mut free, names)?;
    free.close();
    Ok(free)
}

// A new signal for an empty cover.
fn add_signal(alloc: Global, names: &mut Names, free: &mut FreeNames) -> Result<u32, AllocError> {
    let signal = small(names.len());
    let name = free.next(alloc)?;
    names.push(name)?;
    Ok(signal)
}

// A copy of a cover, or an empty one.
fn cover_for(
    alloc: Global,
    names: &mut Names,
    free: &mut FreeNames,
    cover: Option<&Cover>,
) -> Result<Cover, AllocError> {
    match cover {
        Some(cover) => copy_cover(alloc, cover),
        None => {
            let signal = add_signal(alloc, names, free)?;
            Ok(empty_cover(alloc, signal))
        }
    }
}

// Adds the covers at seats, empty ones at those that are free.
fn add_covers(
    alloc: Global,
    names: &mut Names,
    covers: &[Cover],
    holders: &[u32],
    found: &mut Items<Cover>,
) -> Result<(), AllocError> {
    let mut free = free_names(alloc, names)?;
    'seats: for holder in holders {
        let cover = cover_for(alloc, names, &mut free, covers.get(*holder as usize))?;
        found.push(cover)?;
    }
    Ok(())
}

// The covers at seats, empty ones at those that are free.
fn covers_at(
    alloc: Global,
    names: &mut Names,
    covers: &[Cover],
    holders: &[u32],
) -> Result<Items<Cover>, AllocError> {
    let mut found = Items::empty(alloc);
    add_covers(alloc, names, covers, holders, &mut found)?;
    Ok(found)
}

// The latches at seats.
fn latches_at(
    alloc: Global,
    latches: &[LatchDef],
    holders: &[u32],
    split: usize,
) -> Result<Items<LatchDef>, AllocError> {
    let mut found = Items::empty(alloc);
    'seats: for holder in holders {
        let place = (*holder as usize).wrapping_sub(split);
        if *holder != NOTHING && place < latches.len() {
            found.push(latches[place])?;
        }
    }
    Ok(found)
}

// The part of a list before a place, or the whole list.
fn part_before(list: &[u32], place: usize) -> &[u32] {
    if place <= list.len() {
        &list[..place]
    } else {
        list
    }
}

// Inputs and outputs.
#[derive(Drop)]
struct Ends {
    inputs: Items<PortDef>,
    outputs: Items<PortDef>,
}

// Copies of inputs and outputs.
fn ends_of(alloc: Global, draft: &NetlistData) -> Result<Ends, AllocError> {
    let inputs = copy_ports(alloc, draft.inputs.as_slice())?;
    let outputs = copy_ports(alloc, draft.outputs.as_slice())?;
    Ok(Ends { inputs, outputs })
}

// Names and covers.
#[derive(Drop)]
struct Named {
    names: Names,
    covers: Items<Cover>,
}

// The covers at seats, with the names of old signals and of new ones.
fn named_at(alloc: Global, draft: &NetlistData, holders: &[u32]) -> Result<Named, AllocError> {
    let mut names = copy_names(alloc, &draft.names)?;
    let covers = covers_at(alloc, &mut names, draft.covers.as_slice(), holders)?;
    Ok(Named { names, covers })
}

// A design of these parts.
fn joined(named: Named, ends: Ends, latches: Items<LatchDef>) -> NetlistData {
    NetlistData {
        names: named.names,
        inputs: ends.inputs,
        outputs: ends.outputs,
        covers: named.covers,
        latches,
    }
}

// The design with these tables at seats, of which covers have so many.
fn draft_at(
    alloc: Global,
    draft: &NetlistData,
    holders: &[u32],
    room: usize,
    split: usize,
) -> Result<NetlistData, AllocError> {
    let latches = draft.latches.as_slice();
    let end = covers_end(holders, room, latches.len());
    let named = named_at(alloc, draft, part_before(holders, end))?;
    let ends = ends_of(alloc, draft)?;
    let latches = latches_at(alloc, latches, holders, split)?;
    Ok(joined(named, ends, latches))
}

// The design in an order.
fn draft_in(
    alloc: Global,
    draft: &NetlistData,
    nets: &Nets,
    order: &Order,
    seats: usize,
) -> Result<NetlistData, AllocError> {
    let holders = holders_of(alloc, order, seats)?;
    draft_at(alloc, draft, &holders, order.room, nets.split)
}

// The order in which they stand.
fn plain_order(alloc: Global, count: usize, room: usize) -> Result<Order, AllocError> {
    let mut seats = Vec::with_capacity(alloc, count)?;
    'tables: for table in 0..count {
        seats.push(small(table))?;
    }
    Ok(Order { seats, room })
}

// Whether an order is sought: not where there are no tables, too many for the machine, or too many counts to be kept.
fn is_sought(nets: &Nets, tree: &Tree) -> bool {
    let count = nets.of.len();
    let kept = nets.nets.len().saturating_mul(tree.hextants());
    count > 0 && count <= tree.seats.len() && kept <= MOST_COUNTS
}

// The design in the best order, or as it stands.
fn ordered(
    alloc: Global,
    draft: &NetlistData,
    nets: &Nets,
    tree: &Tree,
    spare: usize,
    effort: Effort,
) -> Result<NetlistData, AllocError> {
    if is_sought(nets, tree) {
        let order = best_order(alloc, nets, tree, spare, effort)?;
        draft_in(alloc, draft, nets, &order, tree.seats.len())
    } else {
        let count = nets.of.len();
        let order = plain_order(alloc, count, nets.split)?;
        draft_in(alloc, draft, nets, &order, count)
    }
}

/// The same covers and latches in another order, with at most `spare` empty covers between them: in it the plan in order needs less
/// of a machine with these defects, if the search has luck. Each cover has at most six different inputs, or the order may be no better.
///
/// # Errors
///
/// Out of memory.
pub fn order_covers(
    alloc: Global,
    draft: &NetlistData,
    defects: &Defects,
    spare: u32,
    effort: Effort,
) -> Result<NetlistData, AllocError> {
    let nets = nets_of(alloc, draft)?;
    let tree = tree_of(alloc, defects)?;
    ordered(alloc, draft, &nets, &tree, spare as usize, effort)
}
