//! What the search asks of what is kept and known: whatever the number, there is an answer.
ghost use Rattle.std.specs.Prelude.{◌≡◌, true, IsTrue};
ghost use Rattle.diag_evidence.specs.Kept.{keeps_cross};

use diag_evidence::Facts;
use diag_known::Known;
use machine_shape::{Cross, Wire};

/// Whether a crosspoint is kept.
pub(crate) fn keeps(facts: &Facts, c: Cross) -> bool
    ensures { IsTrue result → keeps_cross facts.now c.0 ≡ true }
{
    facts.has_kept(c)
}

/// Whether a wire is kept.
pub(crate) fn keeps_wire(facts: &Facts, w: Wire) -> bool {
    if w.0 < facts.shape().wires() {
        return facts.keeps_wire(w);
    }
    false
}

/// Whether a wire is known.
pub(crate) fn knows(known: &Known, w: Wire) -> bool {
    if w.0 < known.shape().wires() {
        return known.has(w);
    }
    false
}
