//! What is kept of a network between changes, and how a change goes on.

ghost use Rattle.std.specs.Prelude.{◌≡◌, ◌≢◌, ◌<◌, ◌≤◌, ◌*◌, ◌^◌, ℕ, not, true, false, length, slice_set};
ghost use Rattle.map_network.specs.Rows.{cell_at};
ghost use Rattle.map_eval.specs.Pins.{AreApart};
ghost use Rattle.map_eval.specs.Marks.{differs, AreMarked};
ghost use Rattle.map_eval.specs.Turns.{AreLow, ArePinsIn, AreTurned};
ghost use Rattle.map_eval.specs.States.{value_in, IsPlan, IsKept};
ghost use Rattle.map_eval.specs.Changes.{IsTurnedAt, IsEvaluated};

use crate::pins::Pin;
use crate::plan::Plan;
use crate::words::{cell, change, turn_mark};

/// What signals give, and for each table its address and its cells, turned where it gives 1: the cell at the address says
/// whether the table differs from what it gives.
#[derive(Drop)]
pub struct State {
    pub inputs: Vec<bool>,
    /// What each table gives.
    pub values: Vec<bool>,
    pub masks: Vec<u64>,
    pub addresses: Vec<u8>,
    /// A bit for each table that differs from what it gives, 64 to a word.
    pub marks: Vec<u64>,
}

/// An address with one bit turned.
pub fn turned(address: u8, bit: u8) -> u8
    requires { address < 64 }
    ensures low { (p : ℕ) → p < 6 → bit ≡ 2 ^ p → result < 64 }
    ensures this { (p : ℕ) → p < 6 → bit ≡ 2 ^ p → cell_at result p ≡ not (cell_at address p) }
    ensures others { (p q : ℕ) → bit ≡ 2 ^ p → q ≢ p → cell_at result q ≡ cell_at address q }
{
    address ^ bit
}

// Turns the pins in their tables' addresses, and the marks of tables that differ then and didn't before, or the other way round.
fn turn_pins(pins: &[Pin], addresses: &mut [u8], masks: &[u64], marks: &mut [u64])
    requires pins { ArePinsIn (length addresses.old) pins.now }
    requires apart { AreApart pins.now }
    requires low { AreLow addresses.old }
    requires masks { length masks.now ≡ length addresses.old }
    requires marks { length addresses.old ≤ 64 * length marks.old }
    ensures turned { AreTurned pins.now (length pins.now) addresses.old addresses.new }
    ensures len { length marks.new ≡ length marks.old }
    ensures marked { AreMarked masks.now addresses.old marks.old → AreMarked masks.now addresses.new marks.new }
{
    'pins: for k in 0..pins.len() {
        let pin = pins[k];
        let table = pin.table as usize;
        let before = addresses[table];
        let after = turned(before, pin.bit);
        addresses[table] = after;
        turn_mark(marks, table, change(masks[table], before, after));
    }
}

/// Turns an input.
pub fn turn_input(plan: &Plan, state: &mut State, input: usize)
    requires plan { IsPlan plan.now }
    requires kept { IsKept plan.now state.old }
    requires within { input < plan.now.network.inputs }
    ensures kept { IsKept plan.now state.new }
    ensures values { state.new.values.items ≡ state.old.values.items }
    ensures inputs { state.new.inputs.items ≡ slice_set state.old.inputs.items input (not (value_in state.old.inputs.items input)) }
{
    state.inputs[input] = !state.inputs[input];
    turn_pins(
        plan.pins[plan.network.tables.as_slice().len() + input].as_slice(),
        &mut state.addresses,
        &state.masks,
        &mut state.marks,
    );
}

/// Turns what a table gives.
pub fn turn_table(plan: &Plan, state: &mut State, table: usize)
    requires plan { IsPlan plan.now }
    requires within { table < length plan.now.network.tables }
    requires kept { IsKept plan.now state.old }
    ensures kept { IsKept plan.now state.new }
    ensures turned { IsTurnedAt plan.now.network table state.old state.new }
{
    state.values[table] = !state.values[table];
    state.masks[table] = !state.masks[table];
    turn_mark(&mut state.marks, table, 1);
    turn_pins(
        plan.pins[table].as_slice(),
        &mut state.addresses,
        &state.masks,
        &mut state.marks,
    );
}

/// Gives a table the cell of its address, and says how many tables changed: it or none.
pub fn evaluate(plan: &Plan, state: &mut State, table: usize) -> usize
    requires plan { IsPlan plan.now }
    requires within { table < length plan.now.network.tables }
    requires kept { IsKept plan.now state.old }
    ensures kept { IsKept plan.now state.new }
    ensures evaluated { IsEvaluated plan.now.network table state.old state.new }
{
    if cell(state.masks[table], state.addresses[table]) == 1 {
        turn_table(plan, state, table);
        return 1;
    }
    0
}
