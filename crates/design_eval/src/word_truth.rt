//! The truths of a cover in all lanes at once.

ghost use Rattle.std.specs.Prelude.{◌≡◌, ◌<◌, ℕ, length};
ghost use Rattle.design_netlist.specs.Vocabulary.{truth, cover_at, IsCoverOver, number_at, bit_at, IsSettled, is_bit, lane_bits};
ghost use Rattle.design_eval.specs.Tables.{IsTable};
ghost use Rattle.design_eval.specs.Turns.{IsTurn, AreTurns};

use crate::table_word::{are_out, inputs_of, table_word};
use crate::tables::Table;
use crate::turns::Turn;
use design_netlist::{Cover, cover_word};

// The lanes in which a cover that has a table is true.
fn short_word(table: &Table, cover: &Cover, out: u32, words: &[u64], parts: &mut [u64; 64]) -> u64
    requires table { IsTable table.now cover.now }
    requires out { out ≡ cover.now.out }
    requires made { IsCoverOver cover.now (length words.now) }
    requires apart { (k : ℕ) → k < length cover.now.ins → number_at cover.now.ins k ≡ cover.now.out → ⊥ }
    ensures { (j : ℕ) → j < 64 → is_bit result j ≡ truth (bit_at (lane_bits words.now j)) cover.now }
{
    let count = inputs_of(&table.wires, out);
    if !are_out(&table.wires, count, out) {
        return cover_word(cover, words);
    }
    table_word(table, count, words, parts)
}

// The lanes in which the cover of a turn is true.
fn turn_word(turn: &Turn, covers: &[Cover], words: &[u64], parts: &mut [u64; 64]) -> u64
    requires within { turn.now.place < length covers.now }
    requires turn { IsTurn covers.now turn.now }
    requires made { IsCoverOver (cover_at covers.now turn.now.place) (length words.now) }
    requires apart { let cover = cover_at covers.now turn.now.place in
        (k : ℕ) → k < length cover.ins → number_at cover.ins k ≡ cover.out → ⊥ }
    ensures { (j : ℕ) → j < 64 → is_bit result j ≡ truth (bit_at (lane_bits words.now j)) (cover_at covers.now turn.now.place) }
{
    let cover = &covers[turn.place as usize];
    match &turn.table {
        Some(table) => short_word(table, cover, turn.out, words, parts),
        None => cover_word(cover, words),
    }
}

/// Gives each cover's output its truth in all lanes. Takes no memory.
pub fn settle_words(turns: &[Turn], covers: &[Cover], words: &mut Vec<u64>)
    requires turns { AreTurns covers.now turns.now }
    requires made { (i : ℕ) → i < length covers.now → IsCoverOver (cover_at covers.now i) (length words.old.items) }
    ensures settled { (j : ℕ) → j < 64
        → IsSettled covers.now (bit_at (lane_bits words.old.items j)) (bit_at (lane_bits words.new.items j)) }
    ensures size { length words.new.items ≡ length words.old.items }
{
    let mut parts = [0u64; 64];
    'turns: for k in 0..turns.len() {
        let turn = &turns[k];
        words[turn.out as usize] = turn_word(turn, covers, words, &mut parts);
    }
}
