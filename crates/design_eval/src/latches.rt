//! What latches give, and what they take.

ghost use Rattle.std.specs.Prelude.{◌≡◌, ◌+◌, ◌<◌, ◌≤◌, ℕ, false, length, map};
ghost use Rattle.design_netlist.specs.Valuations.{bit_at, number_at};
ghost use Rattle.design_eval.specs.Bits.{bits_put, AreApart, AreBelow};
ghost use Rattle.design_eval.specs.Latches.{HaveBits, HavePut};
ghost use Rattle.design_eval.specs.Marks.{AreTaken, StillKept, StillTaken};

use crate::bits::read_bits;
use crate::marks::{WORD, give, is_one_marked};
use crate::readers::Readers;

/// How many latches are compared at once.
const CHUNK: usize = 64;

// Whether bits differ between two places. A loop without a way out is quicker here.
fn differ(left: &[bool], right: &[bool], from: usize, to: usize) -> bool
    requires left { to ≤ length left.now }
    requires right { to ≤ length right.now }
    ensures { result ≡ false → (k : ℕ) → from ≤ k → k < to → bit_at left.now k ≡ bit_at right.now k }
{
    let mut found = false;
    'bits: for k in from..to {
        found |= left[k] != right[k];
    }
    found
}

/// What latches drive and what they give it, and who reads that.
#[derive(Clone, Copy)]
pub struct Giving<'a> {
    /// By latches.
    pub drives: &'a [u32],
    /// By latches.
    pub state: &'a [bool],
    pub readers: &'a Readers,
}

/// What latches read, and the bits of all signals.
#[derive(Clone, Copy)]
pub struct Taking<'a> {
    /// By latches.
    pub reads: &'a [u32],
    /// The turn of the first latch.
    pub first: usize,
    /// By signals.
    pub values: &'a [bool],
}

// The latches from one place to another.
#[derive(Clone, Copy)]
struct Chunk {
    from: usize,
    to: usize,
}

// Gives what a latch drives its bit.
fn put_latch(
    giving: &Giving<'_>,
    k: usize,
    last: &mut [bool],
    marks: &mut [bool],
    hints: &mut [u64],
    values: &mut [bool],
)
    requires within { k < length giving.now.drives.now }
    requires size { length marks.old ≡ 65536 }
    requires hints { length hints.old ≡ 1024 }
    requires bits { length giving.now.state.now ≡ length giving.now.drives.now }
    requires last { length last.old ≡ length giving.now.drives.now }
    requires below { AreBelow (length values.old) giving.now.drives.now }
    requires apart { AreApart giving.now.drives.now }
    requires starts { length giving.now.readers.now.starts.items ≡ length values.old + 1 }
    requires ends { (s : ℕ) → s ≤ length values.old →
        number_at giving.now.readers.now.starts.items s ≤ length giving.now.readers.now.keys.items }
    ensures put { HavePut giving.now.readers.now giving.now.drives.now giving.now.state.now last.old marks.old values.old
        last.new marks.new values.new }
    ensures done { bit_at last.new k ≡ bit_at giving.now.state.now k }
{
    give(
        giving.readers,
        giving.drives[k],
        giving.state[k],
        marks,
        hints,
        values,
    );
    last[k] = giving.state[k];
}

// Gives what latches drive their bits, from one place to another, where these aren't what they gave last.
fn put_chunk(
    giving: &Giving<'_>,
    chunk: Chunk,
    last: &mut [bool],
    marks: &mut [bool],
    hints: &mut [u64],
    values: &mut [bool],
)
    requires within { chunk.to ≤ length giving.now.drives.now }
    requires size { length marks.old ≡ 65536 }
    requires hints { length hints.old ≡ 1024 }
    requires bits { length giving.now.state.now ≡ length giving.now.drives.now }
    requires last { length last.old ≡ length giving.now.drives.now }
    requires below { AreBelow (length values.old) giving.now.drives.now }
    requires apart { AreApart giving.now.drives.now }
    requires starts { length giving.now.readers.now.starts.items ≡ length values.old + 1 }
    requires ends { (s : ℕ) → s ≤ length values.old →
        number_at giving.now.readers.now.starts.items s ≤ length giving.now.readers.now.keys.items }
    ensures put { HavePut giving.now.readers.now giving.now.drives.now giving.now.state.now last.old marks.old values.old
        last.new marks.new values.new }
    ensures done { (k : ℕ) → chunk.from ≤ k → k < chunk.to → bit_at last.new k ≡ bit_at giving.now.state.now k }
{
    if !differ(last, giving.state, chunk.from, chunk.to) {
        return;
    }
    'latches: for k in chunk.from..chunk.to {
        put_latch(giving, k, last, marks, hints, values);
    }
}

/// Gives what the latches drive their bits, and marks the covers that read one whose bit changes. What they gave last
/// is known, so only what has changed is looked at.
pub fn put_changed(
    giving: &Giving<'_>,
    last: &mut [bool],
    marks: &mut [bool],
    hints: &mut [u64],
    values: &mut [bool],
)
    requires size { length marks.old ≡ 65536 }
    requires hints { length hints.old ≡ 1024 }
    requires bits { length giving.now.state.now ≡ length giving.now.drives.now }
    requires last { length last.old ≡ length giving.now.drives.now }
    requires below { AreBelow (length values.old) giving.now.drives.now }
    requires apart { AreApart giving.now.drives.now }
    requires starts { length giving.now.readers.now.starts.items ≡ length values.old + 1 }
    requires ends { (s : ℕ) → s ≤ length values.old →
        number_at giving.now.readers.now.starts.items s ≤ length giving.now.readers.now.keys.items }
    requires given { HaveBits giving.now.drives.now last.old values.old }
    ensures values { values.new ≡ bits_put values.old giving.now.drives.now giving.now.state.now }
    ensures given { HaveBits giving.now.drives.now last.new values.new }
    ensures size { length marks.new ≡ 65536 }
    ensures kept { StillKept giving.now.readers.now giving.now.drives.now marks.old values.old marks.new values.new }
    ensures taken { StillTaken 0 giving.now.readers.now marks.old values.old marks.new values.new }
{
    let count = giving.drives.len();
    'chunks: for i in 0..count / CHUNK + 1 {
        let from = i * CHUNK;
        let to = (from + CHUNK).min(count);
        put_chunk(giving, Chunk { from, to }, last, marks, hints, values);
    }
}

// A latch takes the bit of what it reads.
fn take_latch(taking: &Taking<'_>, k: usize, marks: &mut [bool], state: &mut [bool])
    requires within { k < length taking.now.reads.now }
    requires room { taking.now.first + length taking.now.reads.now ≤ length marks.old }
    requires bits { length state.old ≡ length taking.now.reads.now }
    requires below { AreBelow (length taking.now.values.now) taking.now.reads.now }
    requires taken { AreTaken taking.now.first taking.now.reads.now state.old marks.old taking.now.values.now }
    ensures taken { AreTaken taking.now.first taking.now.reads.now state.new marks.new taking.now.values.now }
{
    marks[taking.first + k] = false;
    state[k] = taking.values[taking.reads[k] as usize];
}

// The latches that a word of hints names take their bits. The turn of the first one is given.
fn take_word(
    taking: &Taking<'_>,
    place: usize,
    marks: &mut [bool],
    hints: &mut [u64],
    state: &mut [bool],
)
    requires place { place < 1024 }
    requires size { length marks.old ≡ 65536 }
    requires hints { length hints.old ≡ 1024 }
    requires room { taking.now.first + length taking.now.reads.now ≤ 65535 }
    requires bits { length state.old ≡ length taking.now.reads.now }
    requires below { AreBelow (length taking.now.values.now) taking.now.reads.now }
    requires taken { AreTaken taking.now.first taking.now.reads.now state.old marks.old taking.now.values.now }
    ensures taken { AreTaken taking.now.first taking.now.reads.now state.new marks.new taking.now.values.now }
{
    'bits: for _ in 0..WORD {
        let word = hints[place];
        if word == 0 {
            return;
        }
        let turn = place * WORD as usize + word.trailing_zeros() as usize;
        hints[place] = word & (word - 1);
        if turn >= taking.first && turn - taking.first < taking.reads.len() {
            take_latch(taking, turn - taking.first, marks, state);
        }
    }
}

/// Each latch takes the bit of what it reads. The turn of the first one is given.
///
/// Those that are marked are looked for where hints are. These may be wrong: if a mark is left, all take their bits.
pub fn take_changed(taking: &Taking<'_>, marks: &mut [bool], hints: &mut [u64], state: &mut [bool])
    requires size { length marks.old ≡ 65536 }
    requires hints { length hints.old ≡ 1024 }
    requires room { taking.now.first + length taking.now.reads.now ≤ 65535 }
    requires bits { length state.old ≡ length taking.now.reads.now }
    requires below { AreBelow (length taking.now.values.now) taking.now.reads.now }
    requires taken { AreTaken taking.now.first taking.now.reads.now state.old marks.old taking.now.values.now }
    ensures { state.new ≡ map (bit_at taking.now.values.now) taking.now.reads.now }
{
    let past = taking.first + taking.reads.len();
    'words: for place in taking.first / WORD as usize..past / WORD as usize + 1 {
        take_word(taking, place, marks, hints, state);
    }
    if is_one_marked(marks, taking.first, past) {
        read_bits(taking.values, taking.reads, state);
    }
}
