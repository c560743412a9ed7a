//! Latched tables that take the cells of their addresses.

ghost use Rattle.std.specs.Prelude.{◌≡◌, ◌<◌, ◌≤◌, ◌+◌, ◌*◌, ℕ, false, true, length};
ghost use Rattle.map_network.specs.Rows.{cell_at};
ghost use Rattle.map_eval.specs.Latching.{AreDue, AreTurnedBy, HaveTaken};
ghost use Rattle.map_eval.specs.States.{IsPlan, IsKept};

use crate::plan::Plan;
use crate::state::{State, turn_table};
use crate::words::{WORD, lowest, without};

// The latched tables that differ from what they give, 64 to a word.
fn find_due(plan: &Plan, state: &State, due: &mut [u64])
    requires plan { IsPlan plan.now }
    requires kept { IsKept plan.now state.now }
    requires len { length due.old ≡ length plan.now.gates.items }
    ensures len { length due.new ≡ length due.old }
    ensures due { AreDue plan.now state.now (length due.old) due.new }
{
    'words: for word in 0..due.len() {
        due[word] = state.marks[word] & !plan.gates[word];
    }
}

// Turns what the tables of a word give.
fn turn_word(plan: &Plan, state: &mut State, word: usize, due: u64)
    requires plan { IsPlan plan.now }
    requires kept { IsKept plan.now state.old }
    requires within { (bit : ℕ) → bit < 64 → cell_at due bit ≡ true → 64 * word + bit < length plan.now.network.tables }
    ensures kept { IsKept plan.now state.new }
    ensures turned { AreTurnedBy word due state.old state.new }
{
    let mut left = due;
    'bits: while let Some(bit) = lowest(left) {
        left = without(left, bit);
        turn_table(plan, state, WORD * word + bit);
    }
}

/// Lets the latched tables take the cells of their addresses. `due` is room to work in.
pub fn take(plan: &Plan, state: &mut State, due: &mut [u64])
    requires plan { IsPlan plan.now }
    requires kept { IsKept plan.now state.old }
    requires len { length due.old ≡ length plan.now.gates.items }
    ensures kept { IsKept plan.now state.new }
    ensures len { length due.new ≡ length due.old }
    ensures taken { HaveTaken plan.now.network state.old state.new }
{
    find_due(plan, state, due);
    'words: for word in 0..due.len() {
        turn_word(plan, state, word, due[word]);
    }
}
