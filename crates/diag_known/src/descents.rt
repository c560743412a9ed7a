//! Steps down from two known wires to two pins.
ghost use Rattle.std.specs.Prelude.{◌≡◌, ◌≢◌, ◌⊎◌, ◌<◌, ◌+◌, IfOk, IfSome, IfNone, length};
ghost use Rattle.diag_known.specs.Known.{IsKnown, AreTwo};
ghost use Rattle.diag_known.specs.Descents.{StepsDown, StepsAlong, Goes, Stays, DescendsTo, IsPinAt, IsPinHere};

use crate::known::Known;
use crate::verified_wire::{Support, SupportedBy};
use diag_evidence::Facts;
use machine_shape::Wire;
use std::alloc::AllocError;

/// A step of the left one or the right one of two wires to a foot of it, with the wire that stepped down.
#[derive(Clone, Copy, Debug)]
pub struct Down {
    pub left: bool,
    pub foot: Support,
    pub over: Wire,
}

/// Steps down to two pins.
#[derive(Debug, Drop)]
pub(crate) struct Descent {
    pub downs: Vec<Down>,
    pub left: u32,
    pub right: u32,
}

// The first of two feet, unless this wire stands there.
fn other_foot(first: Support, second: Support, w: Wire) -> Support
    requires { first.wire.0 ≢ second.wire.0 }
    ensures which { (result ≡ first) ⊎ (result ≡ second) }
    ensures apart { result.wire.0 ≢ w.0 }
{
    if first.wire == w { second } else { first }
}

// The foot to which the wire at the one place steps down beside that at the other: none where it is a pin, or came before
// the other one, and that is no pin.
fn foot_down(known: &Known, facts: &Facts, i: usize, j: usize) -> Option<Support>
    requires known { IsKnown facts.now known.now }
    requires two { AreTwo known.now.steps i j }
    ensures down { IfSome result (StepsDown facts.now known.now.steps i j) }
    ensures stays { IfNone result (Stays known.now.steps i j) }
{
    let step = known.step_at(i);
    let other = known.step_at(j);
    let SupportedBy::Feet(first, second) = step.stand else {
        return None;
    };
    if i < j && !other.is_pin() {
        return None;
    }
    Some(other_foot(first, second, other.wire))
}

// The next step from the wires at two places: none where both are pins.
fn next_down(known: &Known, facts: &Facts, i: usize, j: usize) -> Option<Down>
    requires known { IsKnown facts.now known.now }
    requires two { AreTwo known.now.steps i j }
    ensures down { IfSome result (StepsAlong facts.now known.now.steps i j) }
    ensures left_pin { IfNone result (IsPinHere known.now.steps i) }
    ensures right_pin { IfNone result (IsPinHere known.now.steps j) }
{
    if let Some(foot) = foot_down(known, facts, i, j) {
        let over = known.wire_at(i);
        return Some(Down {
            left: true,
            foot,
            over,
        });
    }
    let over = known.wire_at(j);
    match foot_down(known, facts, j, i) {
        Some(foot) => Some(Down {
            left: false,
            foot,
            over,
        }),
        None => None,
    }
}

// The places after a step.
fn places_after(known: &Known, facts: &Facts, i: usize, j: usize, down: Down) -> (usize, usize)
    requires known { IsKnown facts.now known.now }
    requires two { AreTwo known.now.steps i j }
    requires down { StepsAlong facts.now known.now.steps i j down }
    ensures goes { Goes facts.now known.now.steps down i j result.0 result.1 }
    ensures two { AreTwo known.now.steps result.0 result.1 }
    ensures less { result.0 + result.1 < i + j }
{
    let below = known.place(down.foot.wire);
    if down.left { (below, j) } else { (i, below) }
}

// The pin at a place.
fn pin_at(known: &Known, facts: &Facts, i: usize) -> u32
    requires known { IsKnown facts.now known.now }
    requires within { i < length known.now.steps }
    requires pin { IsPinHere known.now.steps i }
    ensures { IsPinAt facts.now known.now.steps i result }
{
    match known.step_at(i).stand {
        SupportedBy::Pin(pin) => pin,
        SupportedBy::Feet(..) => 0,
    }
}

/// Steps down from the wires at two places to two pins.
pub(crate) fn descend(
    known: &Known,
    facts: &Facts,
    from: usize,
    other: usize,
) -> Result<Descent, AllocError>
    requires known { IsKnown facts.now known.now }
    requires two { AreTwo known.now.steps from other }
    ensures { IfOk result (λ d. DescendsTo facts.now known.now.steps from other d.downs.items d.left d.right) }
{
    let mut downs = Vec::new(known.alloc());
    let (mut i, mut j) = (from, other);
    'down: while let Some(down) = next_down(known, facts, i, j) {
        downs.push(down)?;
        (i, j) = places_after(known, facts, i, j, down);
    }
    Ok(Descent {
        downs,
        left: pin_at(known, facts, i),
        right: pin_at(known, facts, j),
    })
}
