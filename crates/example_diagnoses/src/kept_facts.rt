//! Whether what is kept and known is so.

use crate::picture::{KeptFacts, Picture};
use crate::sight::{Sight, all_hold};
use crate::wrongs::Wrongs;
use diag_known::{Support, SupportedBy, VerifiedWire};

/// Each kept fact is true: no crosspoint is stuck, no wire shorted to a stuck one, no pair shorted, no cell wrong, no register stuck.
///
/// # Errors
///
/// Which isn't.
pub fn are_true(wrongs: &Wrongs, kept: &KeptFacts) -> Result<(), &'static str> {
    all_hold(&[
        (
            kept.crosses.is_apart(&wrongs.crosses),
            "a kept crosspoint is stuck",
        ),
        (
            kept.wires.is_apart(&wrongs.wires),
            "a kept wire isn't clear",
        ),
        (kept.pairs.is_apart(&wrongs.pairs), "a kept pair is shorted"),
        (kept.cells.is_apart(&wrongs.cells), "a kept cell is wrong"),
        (
            kept.registers.is_apart(&wrongs.registers),
            "a kept register is stuck",
        ),
    ])
}

/// What was kept still is. Pairs are left out: those of known wires are asked for with what is known, and others may be given up.
pub fn still_are(was: &KeptFacts, is: &KeptFacts) -> bool {
    was.crosses.stays(&is.crosses)
        && was.wires.stays(&is.wires)
        && was.cells.stays(&is.cells)
        && was.registers.stays(&is.registers)
}

// Whether two wires are a kept pair.
fn are_pair(kept: &KeptFacts, a: u32, b: u32) -> bool {
    let (low, high) = if a < b { (a, b) } else { (b, a) };
    let high = high as usize;
    let before = high.saturating_mul(high.saturating_sub(1)) / 2;
    a != b && kept.pairs.at(before.saturating_add(low as usize))
}

// Whether one of these is the wire.
fn has_wire(steps: &[VerifiedWire], wire: u32) -> bool {
    'steps: for step in steps {
        if step.wire.0 == wire {
            return true;
        }
    }
    false
}

// A kept crosspoint leads from the wire to one of these.
fn is_foot(
    sight: &Sight,
    kept: &KeptFacts,
    earlier: &[VerifiedWire],
    wire: u32,
    foot: &Support,
) -> bool {
    let Some(cross) = sight.crosses.get(foot.cross.0 as usize) else {
        return false;
    };
    let other = foot.wire.0;
    let leads = cross.ends == (wire, other) || cross.ends == (other, wire);
    leads && kept.crosses.has(foot.cross.0) && has_wire(earlier, other)
}

// Whether each of these is a kept pair with the wire.
fn are_pairs(kept: &KeptFacts, earlier: &[VerifiedWire], wire: u32) -> bool {
    'steps: for step in earlier {
        if !are_pair(kept, step.wire.0, wire) {
            return false;
        }
    }
    true
}

// Whether a wire is a pin of the machine.
fn is_pin(sight: &Sight, wire: u32) -> bool {
    match sight.wires.get(wire as usize) {
        Some(wire) => wire.is_pin(),
        None => false,
    }
}

// A known wire is a pin of the machine, or stands on two kept crosspoints to two different wires that came before it; it is kept, and
// a kept pair with each of these.
fn stands(sight: &Sight, kept: &KeptFacts, earlier: &[VerifiedWire], step: &VerifiedWire) -> bool {
    let wire = step.wire.0;
    let on = match &step.stand {
        SupportedBy::Pin(_) => is_pin(sight, wire),
        SupportedBy::Feet(a, b) => {
            a.wire.0 != b.wire.0
                && is_foot(sight, kept, earlier, wire, a)
                && is_foot(sight, kept, earlier, wire, b)
        }
    };
    on && kept.wires.has(wire) && are_pairs(kept, earlier, wire)
}

/// What is known is known by what is kept.
pub fn are_known(sight: &Sight, picture: &Picture) -> bool {
    let steps = picture.known.steps.as_slice();
    'steps: for place in 0..steps.len() {
        if !stands(sight, &picture.kept, &steps[..place], &steps[place]) {
            return false;
        }
    }
    true
}
