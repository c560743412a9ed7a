//! By how much an exchange of two seats changes the crossings.

use crate::links::{Links, TablesOfNet};
use crate::seats::Seat;

/// Nets with more tables are in most nodes whatever is exchanged, and dear to look at.
const MOST_OF_A_NET: usize = 128;

/// How many crossings a change adds, and how many it spares.
#[derive(Clone, Copy)]
pub struct Change {
    pub added: u32,
    pub spared: u32,
}

// The other tables of a net, as the nodes of one level have them: whether there are any, the node of the first, whether
// another is elsewhere, and whether one is where the table that moves comes from, and where it goes.
#[derive(Clone, Copy)]
struct Crowd {
    some: bool,
    first: u32,
    apart: bool,
    here: bool,
    there: bool,
}

const NOBODY: Crowd = Crowd {
    some: false,
    first: 0,
    apart: false,
    here: false,
    there: false,
};

// The crowd with one more table.
fn with(crowd: Crowd, node: u32, from: u32, to: u32) -> Crowd {
    Crowd {
        some: true,
        first: if crowd.some { crowd.first } else { node },
        apart: crowd.apart || crowd.some && node != crowd.first,
        here: crowd.here || node == from,
        there: crowd.there || node == to,
    }
}

// How many more nodes of the level a net crosses for a table in a node, where another is or isn't met: its own, and that of
// the others where it was not left before.
fn more(crowd: Crowd, pinned: bool, met: bool) -> u32 {
    if met {
        0
    } else if pinned || crowd.apart {
        1
    } else if crowd.some {
        2
    } else {
        0
    }
}

// The change with a net's change at a level.
fn with_level(change: Change, crowd: Crowd, pinned: bool) -> Change {
    Change {
        added: change
            .added
            .saturating_add(more(crowd, pinned, crowd.there)),
        spared: change
            .spared
            .saturating_add(more(crowd, pinned, crowd.here)),
    }
}

// A table that moves from a seat to another, and the table that comes from there.
#[derive(Clone, Copy)]
struct Move {
    mover: usize,
    other: usize,
    from: Seat,
    to: Seat,
}

// The change for a net where one of its tables moves and another table comes from there. A net that has both stays as it
// is.
fn with_net(change: Change, net: &TablesOfNet, seats: &[Seat], moved: Move) -> Change {
    if net.tables.as_slice().len() > MOST_OF_A_NET {
        return change;
    }
    let mut hextants = NOBODY;
    let mut chips = NOBODY;
    let mut modules = NOBODY;
    for table in net.tables.as_slice() {
        if *table == moved.other {
            return change;
        }
        if *table != moved.mover && *table < seats.len() {
            let seat = seats[*table];
            hextants = with(hextants, seat.hextant, moved.from.hextant, moved.to.hextant);
            chips = with(chips, seat.chip, moved.from.chip, moved.to.chip);
            modules = with(modules, seat.module, moved.from.module, moved.to.module);
        }
    }
    let change = with_level(change, hextants, net.pinned);
    let change = with_level(change, chips, net.pinned);
    with_level(change, modules, net.pinned)
}

// The change for all nets of a table that moves, where another comes from there.
fn with_move(change: Change, links: &Links, seats: &[Seat], moved: Move) -> Change {
    let mut change = change;
    if moved.mover < links.nets_of.len() {
        for net in links.nets_of[moved.mover].as_slice() {
            if *net < links.nets.len() {
                change = with_net(change, &links.nets[*net], seats, moved);
            }
        }
    }
    change
}

/// The change where two tables exchange their seats, or where one goes to a free seat.
pub fn exchange(links: &Links, seats: &[Seat], a: usize, b: usize) -> Change {
    let change = Change {
        added: 0,
        spared: 0,
    };
    if a >= seats.len() || b >= seats.len() {
        return change;
    }
    let there = Move {
        mover: a,
        other: b,
        from: seats[a],
        to: seats[b],
    };
    let back = Move {
        mover: b,
        other: a,
        from: seats[b],
        to: seats[a],
    };
    let change = with_move(change, links, seats, there);
    with_move(change, links, seats, back)
}
