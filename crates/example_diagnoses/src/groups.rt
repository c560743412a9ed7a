//! The groups of machines.

use crate::counts::Size;
use crate::faults::Kind;
use crate::trial::{Group, try_number};
use std::io;

const fn group(name: &'static str, size: Size, kinds: [Kind; 8], most: u32) -> Group {
    Group {
        name,
        size,
        kinds,
        most,
    }
}

// Half of the faults are open crosspoints, and half are of two kinds.
const fn half_open(a: Kind, b: Kind) -> [Kind; 8] {
    [Kind::Open, a, Kind::Open, b, Kind::Open, a, Kind::Open, b]
}

const ALL: [Kind; 8] = [
    Kind::Open,
    Kind::Open,
    Kind::Open,
    Kind::Closed,
    Kind::Stuck,
    Kind::Cell,
    Kind::Register,
    Kind::Bridge,
];

fn groups() -> [Group; 11] {
    let closed = half_open(Kind::Closed, Kind::Closed);
    let stuck = half_open(Kind::Stuck, Kind::Stuck);
    let bridged = half_open(Kind::Bridge, Kind::Bridge);
    let wrong = half_open(Kind::Cell, Kind::Register);
    [
        group("sound", Size::Small, ALL, 0),
        group("open", Size::Small, [Kind::Open; 8], 200),
        group("closed", Size::Small, closed, 15),
        group("stuck", Size::Small, stuck, 20),
        group("bridged", Size::Small, bridged, 15),
        group("wrong", Size::Small, wrong, 20),
        group("some", Size::Small, ALL, 10),
        group("many", Size::Small, ALL, 40),
        group("wide sound", Size::Wide, ALL, 0),
        group("wide wrong", Size::Wide, wrong, 2),
        group("wide some", Size::Wide, ALL, 3),
    ]
}

// Tries so many machines of a group, from a number on, and tells how many are right.
fn try_group(rt: &HostRuntime, group: &Group, first: u32, many: u32) -> io::Result<u32> {
    let mut right = 0u32;
    'machines: for i in 0..many {
        let number = first.saturating_add(i);
        match try_number(rt.alloc(), group, number) {
            Ok(()) => right = right.saturating_add(1),
            Err(wrong) => println!(rt; "{} {number}: {wrong}", group.name)?,
        }
    }
    println!(rt; "{}: {right} of {many}", group.name)?;
    Ok(right)
}

/// How far apart the numbers of two groups begin.
const APART: u32 = 1000;

/// Tries so many machines of each group, and tells whether all are right.
pub fn try_all(rt: &HostRuntime, many: u32) -> io::Result<bool> {
    let mut right = 0u32;
    let mut all = 0u32;
    let mut first = 0u32;
    'groups: for group in groups().iter() {
        right = right.saturating_add(try_group(rt, group, first, many)?);
        all = all.saturating_add(many);
        first = first.saturating_add(APART);
    }
    println!(rt; "machines: {right} of {all} right")?;
    Ok(right == all)
}
