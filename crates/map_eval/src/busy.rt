//! Cycles in which all tables are evaluated, in order.

ghost use Rattle.std.specs.Prelude.{◌≡◌, ◌+◌, ◌<◌, ◌≤◌, ◌∷◌, ℕ, List, Bool, true, length, IfOk};
ghost use Rattle.map_network.specs.Rows.{RowsFrom};
ghost use Rattle.map_eval.specs.States.{value_in, IsPlan};
ghost use Rattle.map_eval.specs.Wires.{one_of, AreLatchedSame, AreTablesIn, AreTrueTo, AreWires, HaveInputs, HaveTakenTo, IsBusy, IsShaped};

use crate::plan::Plan;
use crate::showing::show;
use crate::state::State;
use crate::wires::{gives, wires_of};
use std::alloc::{AllocError, Global};

/// What cycles need in which all tables are evaluated.
#[derive(Drop)]
pub struct Busy {
    /// The signals of the tables' pins, six for each.
    wires: Vec<usize>,
    /// The bits of tables, then of inputs, and a 1.
    bits: Vec<bool>,
}

/// All memory for such cycles.
pub fn busy_for(alloc: Global, plan: &Plan) -> Result<Busy, AllocError>
    requires { IsPlan plan.now }
    ensures { IfOk result (λ busy. IsBusy plan.now busy) }
{
    let wires = wires_of(alloc, &plan.network)?;
    let signals = plan.network.tables.as_slice().len() + plan.network.inputs as usize;
    let bits = vec![in alloc; true; signals + 1]?;
    Ok(Busy { wires, bits })
}

// Gives the signals of tables these bits.
fn load_values(bits: &mut [bool], values: &[bool])
    requires { length values.now ≤ length bits.old }
    ensures len { length bits.new ≡ length bits.old }
    ensures tables { AreTablesIn (length values.now) values.now bits.new }
    ensures rest { (s : ℕ) → length values.now ≤ s → value_in bits.new s ≡ value_in bits.old s }
{
    'tables: for table in 0..values.len() {
        bits[table] = values[table];
    }
}

// Gives the signals of inputs these bits.
fn load_inputs(bits: &mut [bool], tables: usize, vector: &[bool])
    requires { tables + length vector.now ≤ length bits.old }
    ensures len { length bits.new ≡ length bits.old }
    ensures inputs { (k : ℕ) → k < length vector.now → value_in bits.new (tables + k) ≡ value_in vector.now k }
    ensures before { (s : ℕ) → s < tables → value_in bits.new s ≡ value_in bits.old s }
    ensures behind { (s : ℕ) → tables + length vector.now ≤ s → value_in bits.new s ≡ value_in bits.old s }
{
    'inputs: for input in 0..vector.len() {
        bits[tables + input] = vector[input];
    }
}

// Gives a table the cell of its address, if it is combinational.
fn settle_bit(plan: &Plan, wires: &[usize], bits: &mut [bool], table: usize)
    requires plan { IsPlan plan.now }
    requires wires { AreWires plan.now.network (length plan.now.network.tables) wires.now }
    requires len { length bits.old ≡ one_of plan.now.network + 1 }
    requires table { table < length plan.now.network.tables }
    ensures len { length bits.new ≡ length bits.old }
    ensures inputs { (inputs : List Bool) → HaveInputs plan.now.network inputs bits.old → HaveInputs plan.now.network inputs bits.new }
    ensures latched { AreLatchedSame plan.now.network bits.old bits.new }
    ensures settled { (inputs : List Bool) → HaveInputs plan.now.network inputs bits.old →
        AreTrueTo plan.now.network table inputs bits.old → AreTrueTo plan.now.network (table + 1) inputs bits.new }
{
    let one = &plan.network.tables.as_slice()[table];
    if one.latched {
        return;
    }
    bits[table] = gives(wires, table, one.cells, bits);
}

// Gives all combinational tables the cells of their addresses, in order.
fn settle_bits(plan: &Plan, wires: &[usize], bits: &mut [bool])
    requires plan { IsPlan plan.now }
    requires wires { AreWires plan.now.network (length plan.now.network.tables) wires.now }
    requires len { length bits.old ≡ one_of plan.now.network + 1 }
    ensures len { length bits.new ≡ length bits.old }
    ensures inputs { (inputs : List Bool) → HaveInputs plan.now.network inputs bits.old → HaveInputs plan.now.network inputs bits.new }
    ensures latched { AreLatchedSame plan.now.network bits.old bits.new }
    ensures settled { (inputs : List Bool) → HaveInputs plan.now.network inputs bits.old →
        AreTrueTo plan.now.network (length plan.now.network.tables) inputs bits.new }
{
    'tables: for table in 0..plan.network.tables.as_slice().len() {
        settle_bit(plan, wires, bits, table);
    }
}

// Gives inputs the vector's bits, and then all combinational tables the cells of their addresses.
fn settle_vector(plan: &Plan, wires: &[usize], bits: &mut [bool], values: &[bool], vector: &[bool])
    requires plan { IsPlan plan.now }
    requires wires { AreWires plan.now.network (length plan.now.network.tables) wires.now }
    requires len { length bits.old ≡ one_of plan.now.network + 1 }
    requires one { value_in bits.old (one_of plan.now.network) ≡ true }
    requires values { length values.now ≡ length plan.now.network.tables }
    requires inputs { length vector.now ≡ plan.now.network.inputs }
    ensures len { length bits.new ≡ length bits.old }
    ensures inputs { HaveInputs plan.now.network vector.now bits.new }
    ensures latched { AreLatchedSame plan.now.network values.now bits.new }
    ensures settled { AreTrueTo plan.now.network (length plan.now.network.tables) vector.now bits.new }
{
    load_values(bits, values);
    load_inputs(bits, values.len(), vector);
    settle_bits(plan, wires, bits);
}

// Gives inputs the vector's bits, and then all combinational tables the cells of their addresses.
fn settle_busy(plan: &Plan, busy: &mut Busy, values: &[bool], vector: &[bool])
    requires plan { IsPlan plan.now }
    requires busy { IsBusy plan.now busy.old }
    requires values { length values.now ≡ length plan.now.network.tables }
    requires inputs { length vector.now ≡ plan.now.network.inputs }
    ensures busy { IsBusy plan.now busy.new }
    ensures inputs { HaveInputs plan.now.network vector.now busy.new.bits.items }
    ensures latched { AreLatchedSame plan.now.network values.now busy.new.bits.items }
    ensures settled { AreTrueTo plan.now.network (length plan.now.network.tables) vector.now busy.new.bits.items }
{
    settle_vector(plan, &busy.wires, &mut busy.bits, values, vector);
}

// Gives tables the bits of their signals.
fn store_values(values: &mut [bool], bits: &[bool])
    requires { length values.old ≤ length bits.now }
    ensures len { length values.new ≡ length values.old }
    ensures stored { AreTablesIn (length values.old) values.new bits.now }
{
    'tables: for table in 0..values.len() {
        values[table] = bits[table];
    }
}

// Gives the state the bits of signals.
fn store(plan: &Plan, busy: &Busy, state: &mut State, vector: &[bool])
    requires busy { IsBusy plan.now busy.now }
    requires shaped { IsShaped plan.now state.old }
    requires inputs { length vector.now ≡ plan.now.network.inputs }
    ensures shaped { IsShaped plan.now state.new }
    ensures inputs { state.new.inputs.items ≡ vector.now }
    ensures stored { AreTablesIn (length plan.now.network.tables) state.new.values.items busy.now.bits.items }
{
    state.inputs.copy_from_slice(vector);
    store_values(&mut state.values, &busy.bits);
}

// Lets a table take the cell of its address, if it is latched.
fn take_bit(plan: &Plan, wires: &[usize], bits: &[bool], values: &mut [bool], table: usize)
    requires plan { IsPlan plan.now }
    requires wires { AreWires plan.now.network (length plan.now.network.tables) wires.now }
    requires len { length bits.now ≡ one_of plan.now.network + 1 }
    requires values { length values.old ≡ length plan.now.network.tables }
    requires table { table < length plan.now.network.tables }
    ensures len { length values.new ≡ length values.old }
    ensures taken { (inputs : List Bool) → HaveInputs plan.now.network inputs bits.now →
        HaveTakenTo plan.now.network table inputs bits.now values.old →
        HaveTakenTo plan.now.network (table + 1) inputs bits.now values.new }
{
    let one = &plan.network.tables.as_slice()[table];
    if !one.latched {
        return;
    }
    values[table] = gives(wires, table, one.cells, bits);
}

// Lets latched tables take the cells of their addresses.
fn take_bits(plan: &Plan, wires: &[usize], bits: &[bool], values: &mut [bool])
    requires plan { IsPlan plan.now }
    requires wires { AreWires plan.now.network (length plan.now.network.tables) wires.now }
    requires len { length bits.now ≡ one_of plan.now.network + 1 }
    requires values { length values.old ≡ length plan.now.network.tables }
    ensures len { length values.new ≡ length values.old }
    ensures taken { (inputs : List Bool) → HaveInputs plan.now.network inputs bits.now →
        HaveTakenTo plan.now.network (length plan.now.network.tables) inputs bits.now values.new }
{
    'tables: for table in 0..plan.network.tables.as_slice().len() {
        take_bit(plan, wires, bits, values, table);
    }
}

// Lets latched tables take the cells of their addresses.
fn take_busy(plan: &Plan, busy: &Busy, state: &mut State)
    requires plan { IsPlan plan.now }
    requires busy { IsBusy plan.now busy.now }
    requires shaped { IsShaped plan.now state.old }
    ensures shaped { IsShaped plan.now state.new }
    ensures taken { (inputs : List Bool) → HaveInputs plan.now.network inputs busy.now.bits.items →
        HaveTakenTo plan.now.network (length plan.now.network.tables) inputs busy.now.bits.items state.new.values.items }
{
    take_bits(plan, &busy.wires, &busy.bits, &mut state.values);
}

/// Gives the row of a vector, and lets latched tables take what they read, by an evaluation of all tables.
pub fn run_all(plan: &Plan, busy: &mut Busy, state: &mut State, vector: &[bool], row: &mut [bool])
    requires plan { IsPlan plan.now }
    requires busy { IsBusy plan.now busy.old }
    requires shaped { IsShaped plan.now state.old }
    requires inputs { length vector.now ≡ plan.now.network.inputs }
    requires outputs { length row.old ≡ length plan.now.network.outputs }
    ensures busy { IsBusy plan.now busy.new }
    ensures shaped { IsShaped plan.now state.new }
    ensures rows { (vectors rows : List (List Bool)) → RowsFrom plan.now.network (value_in state.new.values.items) vectors rows →
        RowsFrom plan.now.network (value_in state.old.values.items) (vector.now ∷ vectors) (row.new ∷ rows) }
{
    settle_busy(plan, busy, &state.values, vector);
    store(plan, busy, state, vector);
    show(plan, state, row);
    take_busy(plan, busy, state);
}
