//! Whether a list covers the faults, and whether it is tight to them.

use crate::feet::on_two;
use crate::flags::Flags;
use crate::seating::is_seated;
use crate::sight::Sight;
use std::alloc::{AllocError, Global};

// No free wire is shorted to a stuck one or to another free one.
fn covers_wires(sight: &Sight) -> bool {
    'wires: for w in sight.wires.iter() {
        if w.free && (!w.clear || sight.free_with(w) != 1) {
            return false;
        }
    }
    true
}

// No free crosspoint is stuck.
fn covers_crosses(sight: &Sight) -> bool {
    'crosses: for c in sight.crosses.iter() {
        if c.free && c.stuck {
            return false;
        }
    }
    true
}

// No free table is wrong.
fn covers_tables(sight: &Sight) -> bool {
    'tables: for t in sight.tables.iter() {
        if t.free && !t.right {
            return false;
        }
    }
    true
}

/// No free crosspoint is stuck, no free table is wrong, and no free wire is shorted to a stuck one or to another free one.
pub fn covers(sight: &Sight) -> bool {
    covers_wires(sight) && covers_crosses(sight) && covers_tables(sight)
}

// Each pin of the machine, and each of these wires, is shorted to a stuck wire or to a free one, itself among them.
fn are_tight(sight: &Sight, these: &Flags) -> bool {
    'wires: for w in sight.wires.iter() {
        let could = w.is_pin() || these.has(w.number);
        if could && w.clear && sight.free_with(w) == 0 {
            return false;
        }
    }
    true
}

// The crosspoints that aren't stuck.
fn sound_crosses(alloc: Global, sight: &Sight) -> Result<Vec<(u32, u32)>, AllocError> {
    let mut crosses = Vec::new(alloc);
    'crosses: for c in sight.crosses.iter() {
        if !c.stuck {
            crosses.push(c.ends)?;
        }
    }
    Ok(crosses)
}

// The free wires.
fn free_wires(alloc: Global, sight: &Sight) -> Result<Flags, AllocError> {
    let mut free = Vec::new(alloc);
    'wires: for w in sight.wires.iter() {
        free.push(w.free)?;
    }
    Ok(Flags::new(free))
}

// So it is with the pins and with the wires that have crosspoints that aren't stuck to two different free wires.
fn wires_are_tight(alloc: Global, sight: &Sight) -> Result<bool, AllocError> {
    let crosses = sound_crosses(alloc, sight)?;
    let free = free_wires(alloc, sight)?;
    let two = on_two(alloc, &crosses, &free)?;
    Ok(are_tight(sight, &two))
}

// Each crosspoint that is listed, and so has free wires, is stuck.
fn crosses_are_tight(sight: &Sight) -> bool {
    'crosses: for c in sight.crosses.iter() {
        if !c.free && !c.stuck && sight.has_free(c.ends.0) && sight.has_free(c.ends.1) {
            return false;
        }
    }
    true
}

// Each table that is listed, and so has free pins, is wrong or isn't seated.
fn tables_are_tight(alloc: Global, sight: &Sight) -> Result<bool, AllocError> {
    'tables: for table in sight.tables.iter() {
        if !table.free && table.right && is_seated(alloc, sight, table)? {
            return Ok(false);
        }
    }
    Ok(true)
}

/// Nothing on the list both works and can be reached over what is free.
pub fn is_tight(alloc: Global, sight: &Sight) -> Result<bool, AllocError> {
    let wires = wires_are_tight(alloc, sight)?;
    if !wires || !crosses_are_tight(sight) {
        return Ok(false);
    }
    tables_are_tight(alloc, sight)
}
