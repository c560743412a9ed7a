//! Covers that are marked, and evaluated only then.

ghost use Rattle.std.specs.Prelude.{◌≡◌, ◌+◌, ◌<◌, ◌≤◌, ℕ, false, true, length};
ghost use Rattle.design_netlist.specs.Vocabulary.{cover_at, IsCoverOver, bit_at, number_at, IsSettled};
ghost use Rattle.design_eval.specs.Bits.{bits_put, AreBelow};
ghost use Rattle.design_eval.specs.Turns.{AreTurns, places};
ghost use Rattle.design_eval.specs.Smalls.{AreQuick};
ghost use Rattle.design_eval.specs.Readers.{AreReaders};
ghost use Rattle.design_eval.specs.Marks.{AreKept, AreOthersSame, HaveMarked, HasGiven, StillKept, StillTaken};

use crate::readers::{MOST, Readers};
use crate::smalls::{Quick, quick_value};
use crate::turns::{Turn, settle};
use design_netlist::Cover;

/// How many turns one word of hints stands for.
pub const WORD: u32 = 64;

// Hints that a turn is marked.
fn hint(hints: &mut [u64], turn: u32)
    requires size { length hints.old ≡ 1024 }
    requires turn { turn < 65536 }
{
    hints[(turn / WORD) as usize] |= 1 << (turn % WORD);
}

// Marks the covers that read a signal.
fn mark(readers: &Readers, signal: u32, marks: &mut [bool], hints: &mut [u64])
    requires size { length marks.old ≡ 65536 }
    requires hints { length hints.old ≡ 1024 }
    requires signal { signal + 1 < length readers.now.starts.items }
    requires ends { number_at readers.now.starts.items (signal + 1) ≤ length readers.now.keys.items }
    ensures { HaveMarked readers.now signal marks.old marks.new }
{
    let from = readers.starts[signal as usize];
    let to = readers.starts[signal as usize + 1];
    'keys: for i in from..to {
        let turn = readers.keys[i] % MOST;
        marks[turn as usize] = true;
        hint(hints, turn);
    }
}

/// Gives a signal a bit, and marks the covers that read it where it had the other one.
pub fn give(
    readers: &Readers,
    signal: u32,
    bit: bool,
    marks: &mut [bool],
    hints: &mut [u64],
    values: &mut [bool],
)
    requires size { length marks.old ≡ 65536 }
    requires hints { length hints.old ≡ 1024 }
    requires within { signal < length values.old }
    requires signal { signal + 1 < length readers.now.starts.items }
    requires ends { number_at readers.now.starts.items (signal + 1) ≤ length readers.now.keys.items }
    ensures { HasGiven readers.now signal bit marks.old values.old marks.new values.new }
{
    if values[signal as usize] == bit {
        return;
    }
    values[signal as usize] = bit;
    mark(readers, signal, marks, hints);
}

/// Gives the signals these bits, and marks the covers that read one whose bit changes.
pub fn put_marked(
    readers: &Readers,
    signals: &[u32],
    bits: &[bool],
    marks: &mut [bool],
    hints: &mut [u64],
    values: &mut [bool],
)
    requires size { length marks.old ≡ 65536 }
    requires hints { length hints.old ≡ 1024 }
    requires bits { length bits.now ≡ length signals.now }
    requires within { AreBelow (length values.old) signals.now }
    requires starts { length readers.now.starts.items ≡ length values.old + 1 }
    requires ends { (s : ℕ) → s ≤ length values.old → number_at readers.now.starts.items s ≤ length readers.now.keys.items }
    ensures values { values.new ≡ bits_put values.old signals.now bits.now }
    ensures size { length marks.new ≡ 65536 }
    ensures kept { StillKept readers.now signals.now marks.old values.old marks.new values.new }
    ensures taken { StillTaken 0 readers.now marks.old values.old marks.new values.new }
{
    'signals: for k in 0..signals.len() {
        give(readers, signals[k], bits[k], marks, hints, values);
    }
}

/// The covers in the order in which they are evaluated, and who reads what they give.
#[derive(Clone, Copy)]
pub struct TurnPlan<'a> {
    /// By their numbers.
    pub covers: &'a [Cover],
    /// In order.
    pub turns: &'a [Turn],
    /// By turns: what gives a small cover's truth quickly.
    pub quicks: &'a [Quick],
    pub readers: &'a Readers,
}

// Takes the mark of a turn away and gives its cover its truth.
fn settle_turn(
    plan: &TurnPlan<'_>,
    k: usize,
    marks: &mut [bool],
    hints: &mut [u64],
    values: &mut [bool],
)
    requires within { k < length plan.now.turns.now }
    requires turns { AreTurns plan.now.covers.now plan.now.turns.now }
    requires quicks { AreQuick plan.now.covers.now plan.now.turns.now plan.now.quicks.now }
    requires made { (i : ℕ) → i < length plan.now.covers.now → IsCoverOver (cover_at plan.now.covers.now i) (length values.old) }
    requires readers { AreReaders plan.now.covers.now (places plan.now.turns.now) (length values.old) plan.now.readers.now }
    requires size { length marks.old ≡ 65536 }
    requires hints { length hints.old ≡ 1024 }
    requires few { length plan.now.turns.now ≤ 65535 }
    requires kept { AreKept plan.now.covers.now (places plan.now.turns.now) 0 marks.old values.old }
    ensures size { length marks.new ≡ 65536 }
    ensures kept { AreKept plan.now.covers.now (places plan.now.turns.now) 0 marks.new values.new }
    ensures others { AreOthersSame plan.now.covers.now values.old values.new }
    ensures taken { StillTaken (length plan.now.turns.now) plan.now.readers.now marks.old values.old marks.new values.new }
{
    marks[k] = false;
    let quick = &plan.quicks[k];
    let bit = quick_value(quick, &plan.turns[k], plan.covers, values);
    give(plan.readers, quick.out, bit, marks, hints, values);
}

// Settles the turns that a word of hints names, until it names none, and says how many they were. Turns come in
// order, so a turn is named again only where two covers read each other.
fn settle_word(
    plan: &TurnPlan<'_>,
    place: usize,
    marks: &mut [bool],
    hints: &mut [u64],
    values: &mut [bool],
) -> usize
    requires place { place < 1024 }
    requires turns { AreTurns plan.now.covers.now plan.now.turns.now }
    requires quicks { AreQuick plan.now.covers.now plan.now.turns.now plan.now.quicks.now }
    requires made { (i : ℕ) → i < length plan.now.covers.now → IsCoverOver (cover_at plan.now.covers.now i) (length values.old) }
    requires readers { AreReaders plan.now.covers.now (places plan.now.turns.now) (length values.old) plan.now.readers.now }
    requires size { length marks.old ≡ 65536 }
    requires hints { length hints.old ≡ 1024 }
    requires few { length plan.now.turns.now ≤ 65535 }
    requires kept { AreKept plan.now.covers.now (places plan.now.turns.now) 0 marks.old values.old }
    ensures few { result ≤ 64 }
    ensures size { length marks.new ≡ 65536 }
    ensures kept { AreKept plan.now.covers.now (places plan.now.turns.now) 0 marks.new values.new }
    ensures others { AreOthersSame plan.now.covers.now values.old values.new }
    ensures taken { StillTaken (length plan.now.turns.now) plan.now.readers.now marks.old values.old marks.new values.new }
{
    'bits: for count in 0..WORD as usize {
        let word = hints[place];
        let k = place * WORD as usize + word.trailing_zeros() as usize;
        if word == 0 || k >= plan.turns.len() {
            return count;
        }
        hints[place] = word & (word - 1);
        settle_turn(plan, k, marks, hints, values);
    }
    WORD as usize
}

// Marks all turns.
fn mark_all(marks: &mut [bool])
    requires { length marks.old ≡ 65536 }
    ensures size { length marks.new ≡ 65536 }
    ensures all { (k : ℕ) → k < 65536 → bit_at marks.new k ≡ true }
{
    'marks: for k in 0..marks.len() {
        marks[k] = true;
    }
}

/// Whether a turn between two is marked. A loop without a way out is quicker here.
pub fn is_one_marked(marks: &[bool], from: usize, to: usize) -> bool
    requires { to ≤ length marks.now }
    ensures { result ≡ false → (k : ℕ) → from ≤ k → k < to → bit_at marks.now k ≡ false }
{
    let mut found = false;
    'marks: for k in from..to {
        found |= marks[k];
    }
    found
}

/// Gives each cover that is marked its truth, and says how many were. Takes no memory.
///
/// The marks are looked for where hints are. These may be wrong: if a mark is left, all covers are evaluated.
pub fn settle_marked(
    plan: &TurnPlan<'_>,
    marks: &mut [bool],
    hints: &mut [u64],
    values: &mut [bool],
) -> usize
    requires turns { AreTurns plan.now.covers.now plan.now.turns.now }
    requires quicks { AreQuick plan.now.covers.now plan.now.turns.now plan.now.quicks.now }
    requires made { (i : ℕ) → i < length plan.now.covers.now → IsCoverOver (cover_at plan.now.covers.now i) (length values.old) }
    requires readers { AreReaders plan.now.covers.now (places plan.now.turns.now) (length values.old) plan.now.readers.now }
    requires size { length marks.old ≡ 65536 }
    requires hints { length hints.old ≡ 1024 }
    requires few { length plan.now.turns.now ≤ 65535 }
    requires kept { AreKept plan.now.covers.now (places plan.now.turns.now) 0 marks.old values.old }
    ensures settled { IsSettled plan.now.covers.now (bit_at values.old) (bit_at values.new) }
    ensures size { length marks.new ≡ 65536 }
    ensures taken { StillTaken (length plan.now.turns.now) plan.now.readers.now marks.old values.old marks.new values.new }
{
    let mut count = 0;
    'words: for place in 0..plan.turns.len() / WORD as usize + 1 {
        count += settle_word(plan, place, marks, hints, values);
    }
    if is_one_marked(marks, 0, plan.turns.len()) {
        settle(plan.turns, plan.covers, values);
        mark_all(marks);
    }
    count
}
