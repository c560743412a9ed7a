//! Whether a growth found all that it had to.

use crate::budget::keeps_table;
use crate::feet::on_two;
use crate::flags::{Flags, Parts};
use crate::picture::Picture;
use crate::sight::Sight;
use std::alloc::{AllocError, Global};

// Each wire of the area that is clear, is shorted to no known one, and is a pin of the machine or is one of these, is known.
fn are_closed(sight: &Sight, area: &Parts, known: &Flags, these: &Flags) -> bool {
    'wires: for w in sight.wires.iter() {
        let could = w.clear && (w.is_pin() || these.has(w.number));
        if could && area.wires.has(w.number) && !sight.is_shorted_to(w, known) {
            return false;
        }
    }
    true
}

// The crosspoints of the area that aren't stuck.
fn sound_crosses(
    alloc: Global,
    sight: &Sight,
    area: &Parts,
) -> Result<Vec<(u32, u32)>, AllocError> {
    let mut crosses = Vec::new(alloc);
    'crosses: for (c, looked_at) in sight.crosses.iter().zip(area.crosses.iter()) {
        if *looked_at && !c.stuck {
            crosses.push(c.ends)?;
        }
    }
    Ok(crosses)
}

// So with the wires that have two of these crosspoints to two different known wires.
fn wires_are_closed(
    alloc: Global,
    sight: &Sight,
    area: &Parts,
    known: &Flags,
) -> Result<bool, AllocError> {
    let crosses = sound_crosses(alloc, sight, area)?;
    let two = on_two(alloc, &crosses, known)?;
    Ok(are_closed(sight, area, known, &two))
}

// Each crosspoint of the area between two known wires is kept, unless it is stuck.
fn crosses_are_closed(sight: &Sight, area: &Parts, picture: &Picture) -> bool {
    let known = &picture.known.wires;
    'crosses: for c in 0..sight.crosses.len() {
        let seen = sight.crosses[c];
        let could = area.crosses.at(c) && !seen.stuck && !picture.kept.crosses.at(c);
        if could && known.has(seen.ends.0) && known.has(seen.ends.1) {
            return false;
        }
    }
    true
}

/// What is known is closed in an area.
pub fn is_closed(
    alloc: Global,
    sight: &Sight,
    area: &Parts,
    picture: &Picture,
) -> Result<bool, AllocError> {
    let wires = wires_are_closed(alloc, sight, area, &picture.known.wires)?;
    Ok(wires && crosses_are_closed(sight, area, picture))
}

// The known wires.
fn add_known(free: &mut Flags, picture: &Picture) -> Result<(), AllocError> {
    'wires: for known in picture.known.wires.iter() {
        free.push(*known)?;
    }
    Ok(())
}

// The kept crosspoints between known wires.
fn add_usable(free: &mut Flags, sight: &Sight, picture: &Picture) -> Result<(), AllocError> {
    let known = &picture.known.wires;
    'crosses: for (c, kept) in sight.crosses.iter().zip(picture.kept.crosses.iter()) {
        free.push(*kept && known.has(c.ends.0) && known.has(c.ends.1))?;
    }
    Ok(())
}

// The tables of which all is kept.
fn add_tested(free: &mut Flags, sight: &Sight, picture: &Picture) -> Result<(), AllocError> {
    'tables: for t in 0..sight.tables.len() {
        free.push(keeps_table(&picture.kept, t))?;
    }
    Ok(())
}

fn add_free(free: &mut Parts, sight: &Sight, picture: &Picture) -> Result<(), AllocError> {
    add_known(&mut free.wires, picture)?;
    add_usable(&mut free.crosses, sight, picture)?;
    add_tested(&mut free.tables, sight, picture)
}

/// What may be used of a machine: known wires, kept crosspoints between them, and tables of which all is kept.
pub fn free_by_facts(alloc: Global, sight: &Sight, picture: &Picture) -> Result<Parts, AllocError> {
    let mut free = Parts::empty(alloc);
    match add_free(&mut free, sight, picture) {
        Ok(()) => Ok(free),
        Err(e) => Err(e),
    }
}
