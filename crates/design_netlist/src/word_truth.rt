//! The truths of a cover in all lanes at once.

ghost use Rattle.std.specs.Prelude.{◌≡◌, ◌<◌, ℕ, [], length, map, not, slice_index_or, if◌then◌else◌};
ghost use Rattle.design_netlist.specs.Covers.{fits, matches, some_matches, truth, IsCoverOver};
ghost use Rattle.design_netlist.specs.Lanes.{is_bit, lane_bits};
ghost use Rattle.design_netlist.specs.Valuations.{bit_at};
ghost use Rattle.design_netlist.specs.Words.{AreBelow};

use crate::netlist_data::{Cover, Cube, Lit};

/// At each of six places the word that has the bits of its lanes' numbers there.
const PLACES: [u64; 6] = [
    0xAAAA_AAAA_AAAA_AAAA,
    0xCCCC_CCCC_CCCC_CCCC,
    0xF0F0_F0F0_F0F0_F0F0,
    0xFF00_FF00_FF00_FF00,
    0xFFFF_0000_FFFF_0000,
    0xFFFF_FFFF_0000_0000,
];

/// The word that has in each lane the bit of the lane's number at the place.
pub fn lane_word(place: usize) -> u64
    requires { place < 6 }
    ensures { (lane : ℕ) → lane < 64 → is_bit result lane ≡ is_bit lane place }
{
    PLACES[place]
}

/// The lanes in which the input fits the literal.
fn fits_word(lit: Lit, word: u64) -> u64
    ensures { (j : ℕ) → j < 64 → is_bit result j ≡ fits lit (is_bit word j) }
{
    match lit {
        Lit::Zero => !word,
        Lit::One => word,
        Lit::Any => u64::MAX,
    }
}

/// The lanes in which each literal of the row fits its input.
fn row_word(row: &[Lit], ins: &[u32], words: &[u64]) -> u64
    requires len { length row.now ≡ length ins.now }
    requires within { AreBelow (length words.now) ins.now }
    ensures { (j : ℕ) → j < 64 → is_bit result j ≡ matches row.now (map (bit_at (lane_bits words.now j)) ins.now) }
{
    let mut word = u64::MAX;
    'places: for k in 0..row.len() {
        word &= fits_word(row[k], words[ins[k] as usize]);
    }
    word
}

/// The lanes in which some row matches.
fn rows_word(rows: &[Cube], ins: &[u32], words: &[u64]) -> u64
    requires within { AreBelow (length words.now) ins.now }
    requires rows { (k : ℕ) → k < length rows.now → length (slice_index_or rows.now k []) ≡ length ins.now }
    ensures { (j : ℕ) → j < 64 → is_bit result j ≡ some_matches rows.now (map (bit_at (lane_bits words.now j)) ins.now) }
{
    let mut word = 0;
    'rows: for k in 0..rows.len() {
        word |= row_word(rows[k].as_slice(), ins, words);
    }
    word
}

/// The word, or its opposite where a cover lists its zeros.
fn word_of(word: u64, off: bool) -> u64
    ensures { (j : ℕ) → j < 64 → is_bit result j ≡ (if off then not (is_bit word j) else is_bit word j) }
{
    if off { !word } else { word }
}

/// The lanes in which the cover is true. The words are those of the signals: each has a bit in each of 64 lanes, and all bits at
/// one place belong to one valuation. Takes no memory.
pub fn cover_word(cover: &Cover, words: &[u64]) -> u64
    requires { IsCoverOver cover.now (length words.now) }
    ensures { (j : ℕ) → j < 64 → is_bit result j ≡ truth (bit_at (lane_bits words.now j)) cover.now }
{
    let word = rows_word(cover.rows.as_slice(), cover.ins.as_slice(), words);
    word_of(word, cover.off)
}
