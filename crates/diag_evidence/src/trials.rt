//! The set of wires each two of which are a kept pair, and the wire on trial, with its row.
ghost use Rattle.std.specs.Prelude.{◌≡◌, ◌≢◌, ◌<◌, ℕ, true, false, IsTrue, length};
ghost use Rattle.base_bits.specs.Numbers.{has_number};
ghost use Rattle.machine_meaning.specs.Faults.{Faults};
ghost use Rattle.machine_shape.specs.Shape.{wires_of};
ghost use Rattle.diag_evidence.specs.Kept.{CanSettle, HasRetaken, HasSettled, HoldsFor, IsMore, with_trial};

use crate::Facts;
use base_bits::BitSet;
use machine_shape::Wire;

// Whether a row has all wires of a set, but for one.
fn has_all(row: &BitSet, set: &BitSet, wire: u32) -> bool
    requires { length row.now ≡ length set.now }
    ensures yes { IsTrue result → (w : ℕ) → has_number set.now w ≡ true → w ≢ wire → has_number row.now w ≡ true }
    ensures no { result ≡ false → (w : ℕ) × (has_number set.now w ≡ true) × (w ≢ wire) × (has_number row.now w ≡ false) }
{
    'wires: for w in 0..set.len() {
        if w == wire {
            continue;
        }
        if !set.has(w) {
            continue;
        }
        if !row.has(w) {
            return false;
        }
    }
    true
}

impl Facts {
    /// Puts a wire on trial, with an empty row, in place of the wire that was. No other fact changes.
    pub fn begin(&mut self, w: Wire)
        requires { w.0 < wires_of self.old.shape }
        ensures begun { self.new ≡ with_trial self.old w.0 }
        ensures more { IsMore self.old self.new }
        ensures explained { (f : Faults) → HoldsFor self.old f → HoldsFor self.new f }
    {
        self.trial = Some(w.0);
        self.row.clear();
    }

    /// Puts the wire on trial into the set. True exactly where there is one, and its row has all other wires of the set. Else nothing
    /// changes.
    pub fn settle(&mut self) -> bool
        ensures settled { IsTrue result → HasSettled self.old self.new }
        ensures refused { result ≡ false → CanSettle self.old → ⊥ }
        ensures same { result ≡ false → self.new ≡ self.old }
        ensures more { IsMore self.old self.new }
        ensures explained { (f : Faults) → HoldsFor self.old f → HoldsFor self.new f }
    {
        let Some(wire) = self.trial else {
            return false;
        };
        if !has_all(&self.row, &self.apart, wire) {
            return false;
        }
        self.apart.insert(wire);
        true
    }

    /// Takes out of the set what isn't among these wires, and no wire is on trial. `wires` has a mark for each wire.
    pub fn retake(&mut self, wires: &BitSet)
        requires { length wires.now ≡ wires_of self.old.shape }
        ensures retaken { HasRetaken wires.now self.old self.new }
        ensures explained { (f : Faults) → HoldsFor self.old f → HoldsFor self.new f }
    {
        self.apart.keep(wires);
        self.trial = None;
    }
}
