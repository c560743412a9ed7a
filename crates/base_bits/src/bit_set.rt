//! A set of numbers.

ghost use Rattle.std.specs.Prelude.{◌≡◌, ◌<◌, ◌≤◌, ◌^◌, ◌+◌, ◌*◌, ◌&&◌, ℕ, Bool, List, true, false, length, replicate, IfOk, IsTrue, slice_set};
ghost use Rattle.base_bits.specs.Changes.{after, last_said};
ghost use Rattle.base_bits.specs.Numbers.{has_number, size_of};

use crate::bits::Bits;
use std::alloc::{AllocError, Global};
use std::marker::Model;

/// A set of numbers below a length. Contracts see for each number whether it is in the set.
#[derive(Debug, Drop)]
pub struct BitSet {
    bits: Bits,
    count: u32,
}

impl Model for BitSet {
    ghost use Rattle.std.specs.Prelude.{◌≡◌, ◌<◌, ◌^◌, List, Bool, length};
    ghost use Rattle.base_bits.specs.Numbers.{size_of};

    ghost Value = { List Bool };

    ghost view = { λ s. s.bits };

    ghost invariant = { λ s. (length s.bits < 2 ^ 32) × (s.count ≡ size_of s.bits) };
}

// Where a word ends that begins at a number, in a set of some length.
fn word_end(from: u32, len: u32) -> u32
    requires { from ≤ len }
    ensures within { result ≤ len }
    ensures most { result ≤ from + 64 }
    ensures whole { (i : ℕ) → i < from + 64 → i < len → i < result }
{
    if len - from < 64 { len } else { from + 64 }
}

impl BitSet {
    /// The empty set of numbers below `len`.
    pub fn new(alloc: Global, len: u32) -> Result<BitSet, AllocError>
        ensures { IfOk result (λ set. set ≡ replicate len false) }
    {
        let bits = Bits::new(alloc, u64::from(len))?;
        Ok(BitSet { bits, count: 0 })
    }

    /// The length: each number of the set is below it.
    pub fn len(&self) -> u32
        ensures { result ≡ length self.now }
    {
        self.bits.len() as u32
    }

    /// Puts a number in. Every other is as it was.
    pub fn insert(&mut self, i: u32)
        requires { i < length self.old }
        ensures { self.new ≡ slice_set self.old i true }
    {
        if !self.bits.get(u64::from(i)) {
            self.count += 1;
            self.bits.put(u64::from(i), true);
        }
    }

    /// Takes a number out. Every other is as it was.
    pub fn remove(&mut self, i: u32)
        requires { i < length self.old }
        ensures { self.new ≡ slice_set self.old i false }
    {
        if self.bits.get(u64::from(i)) {
            self.count -= 1;
            self.bits.put(u64::from(i), false);
        }
    }

    /// Whether a number is in the set.
    pub fn has(&self, i: u32) -> bool
        requires { i < length self.now }
        ensures { result ≡ has_number self.now i }
    {
        self.bits.get(u64::from(i))
    }

    /// Takes all numbers out.
    pub fn clear(&mut self)
        ensures { self.new ≡ replicate (length self.old) false }
    {
        self.bits.clear();
        self.count = 0;
    }

    /// How many numbers are in the set.
    pub fn count(&self) -> u32
        ensures { result ≡ size_of self.now }
    {
        self.count
    }

    // Over how many words the set goes.
    fn words(&self) -> u32
        ensures within { (k : ℕ) → k < result → 64 * k < length self.now }
        ensures whole { length self.now ≤ 64 * result }
    {
        self.len().div_ceil(64)
    }

    // Whether each of 64 numbers of the set is in the other.
    fn are_within(&self, other: &BitSet, from: u32) -> bool
        requires len { length other.now ≡ length self.now }
        requires from { from < length self.now }
        ensures yes { IsTrue result → (i : ℕ) → from ≤ i → i < from + 64 → has_number self.now i ≡ true → has_number other.now i ≡ true }
        ensures no { result ≡ false → (i : ℕ) × (has_number self.now i ≡ true) × (has_number other.now i ≡ false) }
    {
        'numbers: for i in from..word_end(from, self.len()) {
            if !self.has(i) {
                continue;
            }
            if !other.has(i) {
                return false;
            }
        }
        true
    }

    // Takes out what isn't in the other, of 64 numbers.
    fn keep_these(&mut self, other: &BitSet, from: u32)
        requires len { length other.now ≡ length self.old }
        requires from { from < length self.old }
        ensures both { (i : ℕ) → from ≤ i → i < from + 64 → has_number self.new i ≡ (has_number other.now i && has_number self.old i) }
        ensures below { (i : ℕ) → i < from → has_number self.new i ≡ has_number self.old i }
        ensures beyond { (i : ℕ) → from + 64 ≤ i → has_number self.new i ≡ has_number self.old i }
        ensures len { length self.new ≡ length self.old }
    {
        'numbers: for i in from..word_end(from, other.len()) {
            if other.has(i) {
                continue;
            }
            self.remove(i);
        }
    }

    /// Whether each number of the set is in the other, which has the same length.
    pub fn is_within(&self, other: &BitSet) -> bool
        requires { length other.now ≡ length self.now }
        ensures yes { IsTrue result → (i : ℕ) → has_number self.now i ≡ true → has_number other.now i ≡ true }
        ensures no { result ≡ false → (i : ℕ) × (has_number self.now i ≡ true) × (has_number other.now i ≡ false) }
    {
        'words: for k in 0..self.words() {
            if self.bits.is_word_within(&other.bits, k as usize) {
                continue;
            }
            if !self.are_within(other, k * 64) {
                return false;
            }
        }
        true
    }

    /// Takes out what isn't in the other, which has the same length.
    pub fn keep(&mut self, other: &BitSet)
        requires { length other.now ≡ length self.old }
        ensures both { (i : ℕ) → has_number self.new i ≡ (has_number other.now i && has_number self.old i) }
        ensures len { length self.new ≡ length self.old }
    {
        'words: for k in 0..other.words() {
            if self.bits.is_word_within(&other.bits, k as usize) {
                continue;
            }
            self.keep_these(other, k * 64);
        }
    }

    /// The same set once more. Wants memory.
    pub fn copied(&self, alloc: Global) -> Result<BitSet, AllocError>
        ensures { IfOk result (λ set. set ≡ self.now) }
    {
        let bits = self.bits.copied(alloc)?;
        Ok(BitSet {
            bits,
            count: self.count,
        })
    }
}

/// After any calls a set holds what was put in and not taken out since.
pub fn sets_hold_what_was_put_in()
    ensures { (len i : ℕ) (changes : List (ℕ × Bool)) → i < len
        → has_number (after changes (replicate len false)) i ≡ last_said i changes false }
{}
