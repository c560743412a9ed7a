//! The depth of a design whose covers are tables.

use crate::numbers::{at, set};
use design_netlist::{Cover, NetlistData};
use std::alloc::{AllocError, Global};

// How many tables lie one behind the other up to what these signals show.
fn level_of(levels: &[u32], signals: &[u32]) -> u32 {
    let mut level = 0;
    'signals: for signal in signals {
        level = level.max(at(levels, *signal as usize));
    }
    level
}

// Raises the level of a signal above those that it is made of; whether it rose.
fn raise_one(levels: &mut Vec<u32>, ins: &[u32], out: usize) -> bool {
    let level = level_of(levels, ins).saturating_add(1);
    if at(levels, out) >= level {
        return false;
    }
    set(levels, out, level);
    true
}

// Raises the levels of what covers drive above those of what they read; whether some rose.
fn raise(levels: &mut Vec<u32>, covers: &[Cover]) -> bool {
    let mut rose = false;
    'covers: for cover in covers {
        if raise_one(levels, cover.ins.as_slice(), cover.out as usize) {
            rose = true;
        }
    }
    rose
}

// The greatest level.
fn greatest(levels: &[u32]) -> u32 {
    let mut most = 0;
    'levels: for level in levels {
        most = most.max(*level);
    }
    most
}

/// How many covers lie one behind the other, at most, latches not counted. Covers may stand in any order, without cycles.
pub fn depth_of(alloc: Global, draft: &NetlistData) -> Result<u32, AllocError> {
    let covers = draft.covers.as_slice();
    let mut levels = vec![in alloc; 0; draft.names.len()]?;
    'passes: for _ in 0..covers.len() {
        if !raise(&mut levels, covers) {
            break;
        }
    }
    Ok(greatest(&levels))
}
