//! Wires of tested crossbars are kept apart.
ghost use Rattle.std.specs.Prelude.{◌≡◌, ◌≢◌, ℕ, All, true};
ghost use Rattle.diag_evidence.specs.Kept.{keeps_pair};
ghost use Rattle.diag_known.specs.Known.{IsKnown};
ghost use Rattle.diag_published.specs.Held.{IsHeld, IsWireOfSome};

use crate::tested::Tested;
use diag_evidence::Facts;
use diag_growth::Known;

/// Each two different wires of held crossbars are a kept pair. This is a law, and takes no load and no memory: all calls of this
/// crate share one `Known`, and a wire comes to be known only once it is kept apart from each wire that was known before it.
pub fn separate_all(facts: &Facts, known: &Known, tested: &[Tested])
    requires known { IsKnown facts.now known.now }
    requires held { All (IsHeld facts.now known.now) tested.now }
    ensures pairs { (w u : ℕ) → IsWireOfSome tested.now w → IsWireOfSome tested.now u → w ≢ u → keeps_pair facts.now w u ≡ true }
{}
