//! A list of bits, 64 to a word.

ghost use Rattle.std.specs.Prelude.{◌≡◌, ◌≢◌, ℕ, ◌*◌, ◌/◌, ◌%◌, ◌-◌, ◌+◌, ◌<◌, ◌≤◌, ◌==◌, true, false, Bool, List, length, replicate};
ghost use Rattle.std.specs.Prelude.{IfOk, IsTrue, slice_set, slice_index, slice_index_or};
ghost use Rattle.base_bits.specs.Words.{is_bit, is_bit_in, bits_of};

use std::alloc::{AllocError, Global};
use std::marker::Model;

/// How many bits a word has.
pub const WORD_BITS: u64 = 64;

/// A list of bits. Contracts see it as such.
#[derive(Debug, Drop)]
pub struct Bits {
    len: u64,
    words: Vec<u64>,
}

impl Model for Bits {
    ghost use Rattle.std.specs.Prelude.{List, Bool, ◌≤◌, ◌*◌, ◌<◌, length};
    ghost use Rattle.base_bits.specs.Words.{bits_of};

    ghost Value = { List Bool };

    ghost view = { λ b. bits_of b.len b.words.items };

    ghost invariant = { λ b. b.len ≤ 64 * length b.words.items };
}

/// A word with one bit set or cleared, and the others as they were.
pub fn word_with(word: u64, place: u64, bit: bool) -> u64
    requires { place < 64 }
    ensures this { is_bit result place ≡ bit }
    ensures others { (k : ℕ) → k < 64 → k ≢ place → is_bit result k ≡ is_bit word k }
{
    if bit {
        word | (1 << place)
    } else {
        word & !(1 << place)
    }
}

/// Sets or clears one bit of some words.
fn put_bit(words: &mut [u64], i: u64, bit: bool)
    requires { i < 64 * length words.old }
    ensures bits { (len : ℕ) → len ≤ 64 * length words.old → bits_of len words.new ≡ slice_set (bits_of len words.old) i bit }
    ensures len { length words.new ≡ length words.old }
{
    let at = (i / WORD_BITS) as usize;
    words[at] = word_with(words[at], i % WORD_BITS, bit);
}

/// Whether a bit of some words is set.
fn bit_at(words: &[u64], i: u64) -> bool
    requires { i < 64 * length words.now }
    ensures { result ≡ is_bit_in words.now i }
{
    let word = words[(i / WORD_BITS) as usize];
    (word >> (i % WORD_BITS)) & 1 == 1
}

/// Whether a word has no bit that the other hasn't.
fn is_part(word: u64, other: u64) -> bool
    ensures { IsTrue result → (k : ℕ) → k < 64 → is_bit word k ≡ true → is_bit other k ≡ true }
{
    word & !other == 0
}

// Whether a word of some words has no bit that the same word of others hasn't.
fn is_part_at(words: &[u64], others: &[u64], k: usize) -> bool
    ensures { IsTrue result → (i : ℕ) → i / 64 ≡ k → is_bit_in words.now i ≡ true → is_bit_in others.now i ≡ true }
{
    if k >= words.len() {
        return false;
    }
    if k >= others.len() {
        return false;
    }
    is_part(words[k], others[k])
}

// Clears some words.
fn clear_words(words: &mut [u64])
    ensures none { (k : ℕ) → slice_index words.new k ≡ 0 }
    ensures len { length words.new ≡ length words.old }
{
    'words: for k in 0..words.len() {
        words[k] = 0;
    }
}

impl Bits {
    /// So many bits, none of them set.
    pub fn new(alloc: Global, len: u64) -> Result<Bits, AllocError>
        ensures { IfOk result (λ bits. bits ≡ replicate len false) }
    {
        let count = len.div_ceil(WORD_BITS) as usize;
        let words = vec![in alloc; 0u64; count]?;
        Ok(Bits { len, words })
    }

    /// How many bits there are.
    pub fn len(&self) -> u64
        ensures { result ≡ length self.now }
    {
        self.len
    }

    /// Whether a bit is set.
    pub fn get(&self, i: u64) -> bool
        requires { i < length self.now }
        ensures { result ≡ slice_index_or self.now i false }
    {
        bit_at(&self.words, i)
    }

    /// Sets or clears a bit.
    pub fn put(&mut self, i: u64, bit: bool)
        requires { i < length self.old }
        ensures { self.new ≡ slice_set self.old i bit }
    {
        put_bit(&mut self.words, i, bit);
    }

    /// Clears all bits.
    pub fn clear(&mut self)
        ensures { self.new ≡ replicate (length self.old) false }
    {
        clear_words(&mut self.words);
    }

    /// True only where each bit of a word that is set here is set in the other list, which has the same length.
    pub fn is_word_within(&self, other: &Bits, k: usize) -> bool
        requires { length other.now ≡ length self.now }
        ensures { IsTrue result → (i : ℕ) → i / 64 ≡ k → slice_index_or self.now i false ≡ true → slice_index_or other.now i false ≡ true }
    {
        is_part_at(&self.words, &other.words, k)
    }

    /// The same bits once more. Wants memory.
    pub fn copied(&self, alloc: Global) -> Result<Bits, AllocError>
        ensures { IfOk result (λ bits. bits ≡ self.now) }
    {
        let words = Vec::from_slice(alloc, self.words.as_slice())?;
        Ok(Bits {
            len: self.len,
            words,
        })
    }
}
