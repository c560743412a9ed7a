//! How many loads calls may make.

use crate::flags::Parts;
use crate::picture::{KeptFacts, Marks, Picture};
use crate::sight::Sight;

// How many pins of the machine are looked at and not marked unfit or unclear here.
fn pins_in(sight: &Sight, area: &Parts, marks: Option<&Marks>) -> u64 {
    let mut pins = 0u64;
    'wires: for w in sight.wires.iter() {
        let is_marked = match marks {
            Some(marks) => marks.unfit.has(w.number) || marks.unclear.has(w.number),
            None => false,
        };
        if w.is_pin() && area.wires.has(w.number) && !is_marked {
            pins = pins.saturating_add(1);
        }
    }
    pins
}

// How many crosspoints that are looked at are neither kept nor marked stuck.
fn undecided(area: &Parts, picture: &Picture) -> u64 {
    area.crosses
        .count_outside(&picture.kept.crosses, &picture.marks.stuck)
}

/// The most loads of a sweep: one for each pin of the machine that it looks at, and two for each crosspoint of these that was undecided
/// before it and isn't any more.
pub fn most_of_sweep(sight: &Sight, area: &Parts, before: &Picture, after: &Picture) -> u64 {
    let left = undecided(area, after);
    let decided = undecided(area, before).saturating_sub(left);
    pins_in(sight, area, None).saturating_add(decided.saturating_mul(2))
}

/// The loads so far with those that are left, and two for each crosspoint that is looked at and undecided: a choice doesn't make this
/// more.
pub fn worth(area: &Parts, picture: &Picture, loads: u64) -> u64 {
    loads.saturating_add(undecided(area, picture).saturating_mul(2))
}

/// The most loads of a growth: eight, or two on a machine without faults, for each crosspoint that it looks at and that was neither
/// kept nor marked before, and three for each unmarked wire, less one for each unmarked pin of the machine.
pub fn most_of_growth(sight: &Sight, area: &Parts, before: &Picture, faults: u32) -> u64 {
    let cross = if faults == 0 { 2 } else { 8 };
    let wires = area
        .wires
        .count_outside(&before.marks.unfit, &before.marks.unclear);
    let most = undecided(area, before).saturating_mul(cross);
    most.saturating_add(wires.saturating_mul(3))
        .saturating_sub(pins_in(sight, area, Some(&before.marks)))
}

/// Whether all cells of a table and its register are kept.
pub fn keeps_table(kept: &KeptFacts, table: usize) -> bool {
    kept.cells.has_all(table.saturating_mul(64), 64) && kept.registers.at(table)
}

/// The most loads of the tests of tables: 130 for each of which a cell or the register wasn't kept before.
pub fn most_of_tables(before: &Picture) -> u64 {
    let mut most = 0u64;
    'tables: for t in 0..before.kept.registers.len() {
        if !keeps_table(&before.kept, t) {
            most = most.saturating_add(130);
        }
    }
    most
}
