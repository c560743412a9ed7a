//! The first two of the arms to an input and of the ports that a line meets: the second serves where the first is barred.
ghost use Rattle.std.specs.Prelude.{◌≡◌, ◌≢◌, ◌<◌, ℕ, IfOk, IfSome, IfNone, Some};
ghost use Rattle.machine_shape.specs.Shape.{hextant_of, nodes_of, tables_of, wires_of, IsLine, IsPort};
ghost use Rattle.diag_known.specs.Known.{IsKnown};
ghost use Rattle.diag_growth.specs.Choices.{AreArmsOf, AreFarsOf, AreInputArms};
ghost use Rattle.diag_growth.specs.Seating.{AreArmsTo, IsFarPort, IsFreeArm, MissesArm};

use crate::Arm;
use crate::search::{find_arm, find_far};
use diag_evidence::Facts;
use diag_known::Known;
use machine_shape::{Cross, Node, Table, Wire, the_numbering_is_sound};
use std::alloc::AllocError;

/// The first two arms from a port to an input, or the one that there is.
#[derive(Clone, Copy, Debug)]
pub(crate) struct Arms {
    pub first: Arm,
    pub second: Option<Arm>,
}

/// The first two ports that a line meets, with the crosspoints to it, or the one that there is.
#[derive(Clone, Copy, Debug)]
pub(crate) struct Fars {
    pub first: (Wire, Cross),
    pub second: Option<(Wire, Cross)>,
}

// The first two arms from a port to an input.
fn arms_at(known: &Known, facts: &Facts, hextant: Node, near: Wire, input: Wire) -> Option<Arms>
    requires known { IsKnown facts.now known.now }
    requires hextant { hextant.0 < nodes_of facts.now.shape }
    requires port { IsPort facts.now.shape hextant.0 near.0 }
    requires near { near.0 < wires_of facts.now.shape }
    requires input { input.0 < wires_of facts.now.shape }
    ensures arms { IfSome result (AreArmsOf facts.now known.now.steps hextant.0 near.0 input.0) }
    ensures none { IfNone result ((beside line : ℕ) → ¬ IsFreeArm facts.now known.now.steps hextant.0 near.0 input.0 beside line) }
{
    the_numbering_is_sound();
    // The port is no line, so no arm is left out for it.
    let Some(first) = find_arm(known, facts, hextant, near, input, near) else {
        return None;
    };
    let second = find_arm(known, facts, hextant, near, input, first.line);
    Some(Arms { first, second })
}

// The first arm over another line than this one.
fn arm_beside(arms: Arms, line: Wire) -> Option<Arm>
    ensures first { arms.first.line.0 ≢ line.0 → result ≡ Some arms.first }
    ensures second { arms.first.line.0 ≡ line.0 → result ≡ arms.second }
{
    if arms.first.line == line {
        return arms.second;
    }
    Some(arms.first)
}

/// The first two arms from a port to each input of a table: none where an input has no arm.
pub(crate) fn input_arms(
    known: &Known,
    facts: &Facts,
    t: Table,
    near: Wire,
) -> Result<Option<Vec<Arms>>, AllocError>
    requires known { IsKnown facts.now known.now }
    requires table { t.0 < tables_of facts.now.shape }
    requires port { IsPort facts.now.shape (hextant_of facts.now.shape t.0) near.0 }
    requires near { near.0 < wires_of facts.now.shape }
    ensures arms { IfOk result (λ found. IfSome found (λ arms. AreInputArms facts.now known.now.steps t.0 near.0 6 arms.items)) }
    ensures none { IfOk result (λ found. IfNone found ((beside : ℕ) → MissesArm facts.now known.now.steps t.0 near.0 beside)) }
{
    let shape = facts.shape();
    let hextant = shape.hextant_of(t);
    let mut arms = Vec::new(known.alloc());
    'inputs: for input in 0..6 {
        let Some(two) = arms_at(known, facts, hextant, near, shape.pin_of(t, input)) else {
            return Ok(None);
        };
        arms.push(two)?;
    }
    Ok(Some(arms))
}

/// Arms from a port to all inputs of a table over other lines than this one.
pub(crate) fn arms_beside(
    known: &Known,
    facts: &Facts,
    t: Table,
    near: Wire,
    arms: &Vec<Arms>,
    line: Wire,
) -> Result<Option<Vec<Arm>>, AllocError>
    requires arms { AreInputArms facts.now known.now.steps t.0 near.0 6 arms.now.items }
    ensures arms { IfOk result (λ found. IfSome found (λ arms. AreArmsTo facts.now known.now.steps t.0 near.0 line.0 6 arms.items)) }
    ensures none { IfOk result (λ found. IfNone found (MissesArm facts.now known.now.steps t.0 near.0 line.0)) }
{
    let mut chosen = Vec::new(known.alloc());
    'inputs: for input in 0..6 {
        let Some(arm) = arm_beside(arms[input], line) else {
            return Ok(None);
        };
        chosen.push(arm)?;
    }
    Ok(Some(chosen))
}

/// The first two ports of a hextant that stand without it and meet a line of it.
pub(crate) fn fars_over(without: &Known, facts: &Facts, hextant: Node, line: Wire) -> Option<Fars>
    requires without { IsKnown facts.now without.now }
    requires hextant { hextant.0 < nodes_of facts.now.shape }
    requires is_line { IsLine facts.now.shape hextant.0 line.0 }
    requires line { line.0 < wires_of facts.now.shape }
    ensures fars { IfSome result (AreFarsOf facts.now without.now.steps hextant.0 line.0) }
    ensures none { IfNone result ((near far : ℕ) → ¬ IsFarPort facts.now without.now.steps hextant.0 near line.0 far) }
{
    the_numbering_is_sound();
    // The line is no port, so no port is left out for it.
    let Some(first) = find_far(without, facts, hextant, line, line) else {
        return None;
    };
    let second = find_far(without, facts, hextant, first.0, line);
    Some(Fars { first, second })
}

/// The first of the ports that is another one than this.
pub(crate) fn far_beside(fars: Fars, near: Wire) -> Option<(Wire, Cross)>
    ensures first { fars.first.0.0 ≢ near.0 → result ≡ Some fars.first }
    ensures second { fars.first.0.0 ≡ near.0 → result ≡ fars.second }
{
    if fars.first.0 == near {
        return fars.second;
    }
    Some(fars.first)
}
