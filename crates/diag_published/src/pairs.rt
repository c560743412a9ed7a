//! Lines that are good at all taps.
ghost use Rattle.std.specs.Prelude.{◌≡◌, ◌↔◌, ◌<◌, ℕ, All, true, IfOk, IsTrue};
ghost use Rattle.machine_shape.specs.Shape.{wires_of, crosses_of, ends_of};
ghost use Rattle.diag_evidence.specs.Kept.{keeps_cross};
ghost use Rattle.diag_published.specs.Bars.{KeepsAll, IsListOf, IsOpenOf};
ghost use Rattle.diag_published.specs.Held.{wire_numbers};

use crate::laws::the_laws_hold;
use diag_evidence::Facts;
use machine_shape::Wire;
use std::alloc::{AllocError, Global};

// Whether the crosspoint of a tap and a line is kept, if they have one.
fn keeps_meeting(facts: &Facts, tap: Wire, line: Wire) -> bool
    requires tap { tap.0 < wires_of facts.now.shape }
    requires line { line.0 < wires_of facts.now.shape }
    ensures { IsTrue result ↔ ((x : ℕ) → x < crosses_of facts.now.shape → ends_of facts.now.shape x ≡ (tap.0, line.0) →
        keeps_cross facts.now x ≡ true) }
{
    the_laws_hold();
    match facts.shape().cross(tap, line) {
        Some(cross) => facts.keeps_cross(cross),
        None => true,
    }
}

// Whether the crosspoints of a line to all these taps are kept.
fn keeps_all(facts: &Facts, taps: &[Wire], line: Wire) -> bool
    requires taps { All (λ w. w.0 < wires_of facts.now.shape) taps.now }
    requires line { line.0 < wires_of facts.now.shape }
    ensures { IsTrue result ↔ KeepsAll facts.now (wire_numbers taps.now) line.0 }
{
    'taps: for tap in taps {
        if !keeps_meeting(facts, *tap, line) {
            return false;
        }
    }
    true
}

/// Those of some lines whose crosspoints to all these taps are kept.
pub(crate) fn open_lines(
    alloc: Global,
    facts: &Facts,
    taps: &[Wire],
    lines: &[Wire],
) -> Result<Vec<Wire>, AllocError>
    requires taps { All (λ w. w.0 < wires_of facts.now.shape) taps.now }
    requires lines { All (λ w. w.0 < wires_of facts.now.shape) lines.now }
    ensures { IfOk result (λ ws. IsListOf (IsOpenOf facts.now (wire_numbers taps.now) (wire_numbers lines.now)) (wire_numbers ws.items)) }
{
    let mut those = Vec::new(alloc);
    'lines: for line in lines {
        if !keeps_all(facts, taps, *line) {
            continue;
        }
        those.push(*line)?;
    }
    Ok(those)
}
