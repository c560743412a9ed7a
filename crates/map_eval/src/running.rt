//! A network that is run by changes, or table by table where much changes.

ghost use Rattle.std.specs.Prelude.{◌≡◌, ◌<◌, ◌≤◌, ◌∷◌, List, Bool, false, length, slice_set, IfOk};
ghost use Rattle.map_network.specs.Rows.{RowsFrom};
ghost use Rattle.map_eval.specs.Pins.{AreInRange};
ghost use Rattle.map_eval.specs.Runnings.{IsFirstRunning, IsRunning};
ghost use Rattle.map_eval.specs.States.{value_in, IsOrdered, IsPlan, IsKept};
ghost use Rattle.map_eval.specs.Wires.{IsShaped};

use crate::busy::{Busy, busy_for, run_all};
use crate::latching::take;
use crate::plan::{Plan, plan_of};
use crate::refreshing::refresh;
use crate::settling::settle;
use crate::showing::show;
use crate::starting::first_state;
use crate::state::{State, turn_input};
use map_network::Network;
use std::alloc::{AllocError, Global};

/// The most cycles in a row that are run without marks, after a cycle that changed more than an eighth of the tables: a
/// change costs several evaluations.
const CYCLES_WITHOUT_MARKS: u32 = 255;

/// A network in order that is run.
#[derive(Drop)]
pub struct Running {
    pub plan: Plan,
    pub state: State,
    /// Room for the latched tables that take another bit.
    due: Vec<u64>,
    busy: Busy,
    /// Whether addresses, masks and marks are those of an earlier cycle.
    stale: bool,
    /// How many cycles are run without marks next.
    unmarked: u32,
    /// How many are run without marks after the next cycle that changes many tables.
    streak: u32,
}

/// The network at its first cycle.
pub fn running_for(alloc: Global, network: Network) -> Result<Running, AllocError>
    requires few { length network.tables ≤ 65536 }
    requires range { AreInRange network }
    requires ordered { IsOrdered network }
    ensures { IfOk result (IsFirstRunning network) }
{
    let plan = plan_of(alloc, network)?;
    let state = first_state(alloc, &plan)?;
    let due = vec![in alloc; 0; plan.gates.len()]?;
    let busy = busy_for(alloc, &plan)?;
    Ok(Running {
        plan,
        state,
        due,
        busy,
        stale: false,
        unmarked: 0,
        streak: 0,
    })
}

// Gives an input this bit.
fn put_input(plan: &Plan, state: &mut State, input: usize, bit: bool)
    requires plan { IsPlan plan.now }
    requires kept { IsKept plan.now state.old }
    requires within { input < plan.now.network.inputs }
    ensures kept { IsKept plan.now state.new }
    ensures values { state.new.values.items ≡ state.old.values.items }
    ensures inputs { state.new.inputs.items ≡ slice_set state.old.inputs.items input bit }
{
    if state.inputs[input] == bit {
        return;
    }
    turn_input(plan, state, input);
}

// Gives the inputs these bits.
fn put_inputs(plan: &Plan, state: &mut State, vector: &[bool])
    requires plan { IsPlan plan.now }
    requires kept { IsKept plan.now state.old }
    requires inputs { length vector.now ≡ plan.now.network.inputs }
    ensures kept { IsKept plan.now state.new }
    ensures values { state.new.values.items ≡ state.old.values.items }
    ensures inputs { state.new.inputs.items ≡ vector.now }
{
    'inputs: for input in 0..vector.len() {
        put_input(plan, state, input, vector[input]);
    }
}

// Gives the row of a vector, lets latched tables take what they read, and says how many tables changed.
fn run_marked(
    plan: &Plan,
    state: &mut State,
    due: &mut [u64],
    vector: &[bool],
    row: &mut [bool],
) -> usize
    requires plan { IsPlan plan.now }
    requires kept { IsKept plan.now state.old }
    requires due { length due.old ≡ length plan.now.gates.items }
    requires inputs { length vector.now ≡ plan.now.network.inputs }
    requires outputs { length row.old ≡ length plan.now.network.outputs }
    ensures kept { IsKept plan.now state.new }
    ensures due { length due.new ≡ length due.old }
    ensures rows { (vectors rows : List (List Bool)) → RowsFrom plan.now.network (value_in state.new.values.items) vectors rows →
        RowsFrom plan.now.network (value_in state.old.values.items) (vector.now ∷ vectors) (row.new ∷ rows) }
{
    put_inputs(plan, state, vector);
    let changes = settle(plan, state);
    show(plan, state, row);
    take(plan, state, due);
    changes
}

// Makes addresses, masks and marks anew, if they are those of an earlier cycle.
fn freshen(plan: &Plan, state: &mut State, stale: bool)
    requires plan { IsPlan plan.now }
    requires shaped { IsShaped plan.now state.old }
    requires kept { stale ≡ false → IsKept plan.now state.old }
    ensures kept { IsKept plan.now state.new }
    ensures values { state.new.values.items ≡ state.old.values.items }
{
    if !stale {
        return;
    }
    refresh(plan, state);
}

// After a busy cycle some are run without marks, and more of them each time.
fn plan_streak(unmarked: &mut u32, streak: &mut u32, busy: bool) {
    if !busy {
        *streak = 0;
        return;
    }
    *unmarked = *streak;
    *streak = CYCLES_WITHOUT_MARKS.min(streak.saturating_mul(2).saturating_add(1));
}

// A cycle in which all tables are evaluated.
fn run_unmarked(run: &mut Running, vector: &[bool], row: &mut [bool])
    requires run { IsRunning run.old }
    requires inputs { length vector.now ≡ run.old.plan.network.inputs }
    requires outputs { length row.old ≡ length run.old.plan.network.outputs }
    ensures run { IsRunning run.new }
    ensures network { run.new.plan.network ≡ run.old.plan.network }
    ensures rows { (vectors rows : List (List Bool)) → RowsFrom run.old.plan.network (value_in run.new.state.values.items) vectors rows →
        RowsFrom run.old.plan.network (value_in run.old.state.values.items) (vector.now ∷ vectors) (row.new ∷ rows) }
{
    run.unmarked = run.unmarked.saturating_sub(1);
    run.stale = true;
    run_all(&run.plan, &mut run.busy, &mut run.state, vector, row);
}

// A cycle in which marked tables are evaluated.
fn run_changes(run: &mut Running, vector: &[bool], row: &mut [bool])
    requires run { IsRunning run.old }
    requires inputs { length vector.now ≡ run.old.plan.network.inputs }
    requires outputs { length row.old ≡ length run.old.plan.network.outputs }
    ensures run { IsRunning run.new }
    ensures network { run.new.plan.network ≡ run.old.plan.network }
    ensures rows { (vectors rows : List (List Bool)) → RowsFrom run.old.plan.network (value_in run.new.state.values.items) vectors rows →
        RowsFrom run.old.plan.network (value_in run.old.state.values.items) (vector.now ∷ vectors) (row.new ∷ rows) }
{
    freshen(&run.plan, &mut run.state, run.stale);
    run.stale = false;
    let changes = run_marked(&run.plan, &mut run.state, &mut run.due, vector, row);
    let busy = changes > run.plan.network.tables.as_slice().len() / 8;
    plan_streak(&mut run.unmarked, &mut run.streak, busy);
}

/// Gives the row of a vector, and lets latched tables take what they read.
pub fn run_cycle(run: &mut Running, vector: &[bool], row: &mut [bool])
    requires run { IsRunning run.old }
    requires inputs { length vector.now ≡ run.old.plan.network.inputs }
    requires outputs { length row.old ≡ length run.old.plan.network.outputs }
    ensures run { IsRunning run.new }
    ensures network { run.new.plan.network ≡ run.old.plan.network }
    ensures rows { (vectors rows : List (List Bool)) → RowsFrom run.old.plan.network (value_in run.new.state.values.items) vectors rows →
        RowsFrom run.old.plan.network (value_in run.old.state.values.items) (vector.now ∷ vectors) (row.new ∷ rows) }
{
    if run.unmarked > 0 {
        run_unmarked(run, vector, row);
        return;
    }
    run_changes(run, vector, row);
}
