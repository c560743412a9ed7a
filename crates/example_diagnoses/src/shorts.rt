//! Which wires are shorted: bridges and crosspoints that are stuck closed lead from one to the other.

use machine_faults::FaultSet;
use machine_shape::Cross;
use std::alloc::{AllocError, Global};

// Makes one group of those of two wires.
fn unite(groups: &mut [u32], a: u32, b: u32) {
    let (Some(from), Some(to)) = (
        groups.get(a as usize).copied(),
        groups.get(b as usize).copied(),
    ) else {
        return;
    };
    'wires: for group in groups.iter_mut() {
        if *group == from {
            *group = to;
        }
    }
}

fn unite_bridged(groups: &mut [u32], faults: &FaultSet) {
    'bridges: for (a, b) in faults.bridges() {
        unite(groups, a.0, b.0);
    }
}

fn unite_closed(groups: &mut [u32], faults: &FaultSet) {
    let shape = faults.shape();
    'crosses: for c in 0..shape.crosses() {
        if faults.cross_stuck(Cross(c)) == Some(true) {
            let (tap, line) = shape.ends(Cross(c));
            unite(groups, tap.0, line.0);
        }
    }
}

/// The group of each wire: the same for two wires exactly where they are shorted.
pub fn groups_of(alloc: Global, faults: &FaultSet) -> Result<Vec<u32>, AllocError> {
    let mut groups: Vec<u32> = (0..faults.shape().wires()).collect(alloc)?;
    unite_bridged(&mut groups, faults);
    unite_closed(&mut groups, faults);
    Ok(groups)
}
