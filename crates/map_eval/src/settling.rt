//! Combinational tables that take the cells of their addresses.

ghost use Rattle.std.specs.Prelude.{◌≡◌, ◌<◌, ℕ, false, length};
ghost use Rattle.map_network.specs.Networks.{IsCombinational};
ghost use Rattle.map_eval.specs.Changes.{differs_in};
ghost use Rattle.map_eval.specs.Settling.{AreGivenBefore, AreSettled, AreClear};
ghost use Rattle.map_eval.specs.States.{IsPlan, IsKept};

use crate::plan::Plan;
use crate::state::{State, evaluate};
use crate::words::{WORD, lowest};

// Evaluates the marked tables of a word, the lowest first, until none is marked. What a table reads is lower, so each comes
// once. Says how many changed.
fn settle_word(plan: &Plan, state: &mut State, word: usize) -> usize
    requires plan { IsPlan plan.now }
    requires kept { IsKept plan.now state.old }
    requires word { word < length plan.now.gates.items }
    ensures kept { IsKept plan.now state.new }
    ensures before { AreGivenBefore plan.now.network state.old state.new }
{
    let mut changes = 0usize;
    'bits: for _ in 0..WORD {
        match lowest(state.marks[word] & plan.gates[word]) {
            Some(bit) => changes = changes.saturating_add(evaluate(plan, state, WORD * word + bit)),
            None => return changes,
        }
    }
    changes
}

// Whether a combinational table is marked. A loop without a way out is quicker here.
fn is_any_marked(plan: &Plan, marks: &[u64]) -> bool
    requires { length marks.now ≡ length plan.now.gates.items }
    ensures { result ≡ false → AreClear plan.now.gates.items marks.now }
{
    let mut found = 0;
    'words: for word in 0..marks.len() {
        found |= marks[word] & plan.gates[word];
    }
    found != 0
}

// Evaluates a table, if it is combinational.
fn settle_table(plan: &Plan, state: &mut State, table: usize)
    requires plan { IsPlan plan.now }
    requires within { table < length plan.now.network.tables }
    requires kept { IsKept plan.now state.old }
    ensures kept { IsKept plan.now state.new }
    ensures before { AreGivenBefore plan.now.network state.old state.new }
    ensures this { IsCombinational plan.now.network table → differs_in state.new table ≡ false }
    ensures lower { (t : ℕ) → t < table → IsCombinational plan.now.network t →
        differs_in state.old t ≡ false → differs_in state.new t ≡ false }
{
    if plan.network.tables.as_slice()[table].latched {
        return;
    }
    evaluate(plan, state, table);
}

// Evaluates all combinational tables, in order.
fn settle_all(plan: &Plan, state: &mut State)
    requires plan { IsPlan plan.now }
    requires kept { IsKept plan.now state.old }
    ensures kept { IsKept plan.now state.new }
    ensures before { AreGivenBefore plan.now.network state.old state.new }
    ensures settled { AreSettled plan.now.network state.new }
{
    'tables: for table in 0..plan.network.tables.as_slice().len() {
        settle_table(plan, state, table);
    }
}

// Evaluates the marked tables, word by word, and says how many changed.
fn sweep(plan: &Plan, state: &mut State) -> usize
    requires plan { IsPlan plan.now }
    requires kept { IsKept plan.now state.old }
    ensures kept { IsKept plan.now state.new }
    ensures before { AreGivenBefore plan.now.network state.old state.new }
{
    let mut changes = 0usize;
    'words: for word in 0..plan.gates.len() {
        changes = changes.saturating_add(settle_word(plan, state, word));
    }
    changes
}

/// Gives each combinational table the cell of its address, and says how many changed. If a mark is left after a sweep, all are
/// evaluated.
pub fn settle(plan: &Plan, state: &mut State) -> usize
    requires plan { IsPlan plan.now }
    requires kept { IsKept plan.now state.old }
    ensures kept { IsKept plan.now state.new }
    ensures before { AreGivenBefore plan.now.network state.old state.new }
    ensures settled { AreSettled plan.now.network state.new }
{
    let changes = sweep(plan, state);
    if is_any_marked(plan, &state.marks) {
        settle_all(plan, state);
    }
    changes
}
