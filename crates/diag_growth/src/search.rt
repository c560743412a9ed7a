//! The search of kept crosspoints to two taps, and of ports that a line meets.
ghost use Rattle.std.specs.Prelude.{◌≡◌, ◌<◌, ℕ, IfSome, IfNone};
ghost use Rattle.machine_shape.specs.Shape.{nodes_of, wires_of};
ghost use Rattle.machine_meaning.specs.Standing.{Meets};
ghost use Rattle.diag_known.specs.Known.{IsKeptCrossOf, IsKnown};
ghost use Rattle.diag_growth.specs.Seating.{IsArmTo, IsFarPort, IsFreeArm, IsMeeting, JoinsTaps};

use crate::Arm;
use diag_evidence::Facts;
use diag_known::Known;
use machine_shape::{Cross, Node, Wire, ports_and_lines_ascend, the_crosspoints_are_sound};

/// The kept crosspoint of a tap and a line.
pub(crate) fn meeting(facts: &Facts, tap: Wire, line: Wire) -> Option<Cross>
    requires tap { tap.0 < wires_of facts.now.shape }
    requires line { line.0 < wires_of facts.now.shape }
    ensures meets { IfSome result (λ c. IsMeeting facts.now tap.0 line.0 c.0) }
    ensures none { IfNone result (¬ Meets facts.now.shape (IsKeptCrossOf facts.now) tap.0 line.0) }
{
    the_crosspoints_are_sound();
    let Some(c) = facts.shape().cross(tap, line) else {
        return None;
    };
    if !facts.keeps_cross(c) {
        return None;
    }
    Some(c)
}

// An arm over a line, if the line is known and meets both taps.
fn arm_over(known: &Known, facts: &Facts, near: Wire, input: Wire, line: Wire) -> Option<Arm>
    requires known { IsKnown facts.now known.now }
    requires near { near.0 < wires_of facts.now.shape }
    requires input { input.0 < wires_of facts.now.shape }
    requires line { line.0 < wires_of facts.now.shape }
    ensures joins { IfSome result (λ a. JoinsTaps facts.now known.now.steps near.0 input.0 a.line.0) }
    ensures line { IfSome result (λ a. a.line.0 ≡ line.0) }
    ensures to_line { IfSome result (λ a. IsMeeting facts.now near.0 a.line.0 a.to_line.0) }
    ensures to_input { IfSome result (λ a. IsMeeting facts.now input.0 a.line.0 a.to_input.0) }
    ensures none { IfNone result (¬ JoinsTaps facts.now known.now.steps near.0 input.0 line.0) }
{
    if !known.has(line) {
        return None;
    }
    let Some(to_line) = meeting(facts, near, line) else {
        return None;
    };
    let Some(to_input) = meeting(facts, input, line) else {
        return None;
    };
    Some(Arm {
        to_line,
        line,
        to_input,
    })
}

/// An arm from the near port to an input over another line of the hextant than this one.
pub(crate) fn find_arm(
    known: &Known,
    facts: &Facts,
    hextant: Node,
    near: Wire,
    input: Wire,
    beside: Wire,
) -> Option<Arm>
    requires known { IsKnown facts.now known.now }
    requires hextant { hextant.0 < nodes_of facts.now.shape }
    requires near { near.0 < wires_of facts.now.shape }
    requires input { input.0 < wires_of facts.now.shape }
    ensures arm { IfSome result (IsArmTo facts.now known.now.steps hextant.0 near.0 input.0 beside.0) }
    ensures none { IfNone result ((line : ℕ) → ¬ IsFreeArm facts.now known.now.steps hextant.0 near.0 input.0 beside.0 line) }
{
    ports_and_lines_ascend();
    let shape = facts.shape();
    'lines: for k in 0..shape.lines(hextant) {
        let line = shape.line(hextant, k);
        if line == beside {
            continue;
        }
        if let Some(arm) = arm_over(known, facts, near, input, line) {
            return Some(arm);
        }
    }
    None
}

/// Another port of the hextant than the near one, that stands without it and meets the line.
pub(crate) fn find_far(
    without: &Known,
    facts: &Facts,
    hextant: Node,
    near: Wire,
    line: Wire,
) -> Option<(Wire, Cross)>
    requires without { IsKnown facts.now without.now }
    requires hextant { hextant.0 < nodes_of facts.now.shape }
    requires line { line.0 < wires_of facts.now.shape }
    ensures far { IfSome result (λ f. IsFarPort facts.now without.now.steps hextant.0 near.0 line.0 f.0.0
        × IsMeeting facts.now f.0.0 line.0 f.1.0) }
    ensures none { IfNone result ((far : ℕ) → ¬ IsFarPort facts.now without.now.steps hextant.0 near.0 line.0 far) }
{
    ports_and_lines_ascend();
    let shape = facts.shape();
    'ports: for k in 0..shape.ports(hextant) {
        let far = shape.port(hextant, k);
        if far == near {
            continue;
        }
        if !without.has(far) {
            continue;
        }
        if let Some(cross) = meeting(facts, far, line) {
            return Some((far, cross));
        }
    }
    None
}
