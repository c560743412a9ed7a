//! The tables that are on, and what they give.

ghost use Rattle.std.specs.Prelude.{◌≡◌, ℕ, ◌+◌, ◌<◌, ◌||◌, true, false, length, map, slice_index, All};
ghost use Rattle.machine_shape.specs.Shape.{tables_of};
ghost use Rattle.rig_simulated.specs.Gates.{level_at, address_by, cell_by, ticked, clocked, Fits};

use crate::classes::ClassNode;
use base_table::TABLE_INPUTS;
use machine_config::Setting;
use machine_faults::FaultSet;
use machine_shape::Table;

/// A table that is on.
#[derive(Clone, Copy, Debug)]
pub struct Gate {
    pub table: Table,
    pub setting: Setting,
    /// What its register always holds, if it has one and that is stuck.
    pub held: Option<bool>,
    /// The roots of its inputs.
    pub ins: [u32; TABLE_INPUTS],
    /// The root of its output.
    pub out: u32,
    /// What it gives now.
    pub output: bool,
}

/// What all wires of a class are.
pub fn level_at(knots: &[ClassNode], pins: &[bool], tables: &[bool], root: u32) -> bool
    requires knots { root < length knots.now }
    requires pins { root < length pins.now }
    requires tables { root < length tables.now }
    ensures { result ≡ level_at knots.now pins.now tables.now root }
{
    match knots[root as usize].held {
        Some(value) => value,
        None => !(pins[root as usize] || tables[root as usize]),
    }
}

/// The address at six classes.
fn address_at(knots: &[ClassNode], pins: &[bool], tables: &[bool], ins: [u32; 6]) -> u8
    requires ins { (j : ℕ) → j < 6 → slice_index ins j < length knots.now }
    requires pins { length pins.now ≡ length knots.now }
    requires tables { length tables.now ≡ length knots.now }
    ensures address { result ≡ address_by (level_at knots.now pins.now tables.now) ins }
    ensures below { result < 64 }
{
    let a = u8::from(level_at(knots, pins, tables, ins[0]));
    let b = u8::from(level_at(knots, pins, tables, ins[1]));
    let c = u8::from(level_at(knots, pins, tables, ins[2]));
    let d = u8::from(level_at(knots, pins, tables, ins[3]));
    let e = u8::from(level_at(knots, pins, tables, ins[4]));
    let f = u8::from(level_at(knots, pins, tables, ins[5]));
    a + 2 * (b + 2 * (c + 2 * (d + 2 * (e + 2 * f))))
}

/// What a table gives at an address.
fn cell_at(faults: &FaultSet, gate: Gate, address: u8) -> bool
    requires table { gate.table.0 < tables_of faults.now.shape }
    requires address { address < 64 }
    ensures { result ≡ cell_by faults.now.faults gate address }
{
    match faults.cell(gate.table, address) {
        Some(value) => value,
        None => (gate.setting.cells >> address) & 1 == 1,
    }
}

/// A table after a tick.
pub fn ticked(
    faults: &FaultSet,
    knots: &[ClassNode],
    pins: &[bool],
    tables: &[bool],
    gate: Gate,
) -> Gate
    requires table { gate.table.0 < tables_of faults.now.shape }
    requires ins { (j : ℕ) → j < 6 → slice_index gate.ins j < length knots.now }
    requires pins { length pins.now ≡ length knots.now }
    requires tables { length tables.now ≡ length knots.now }
    ensures { result ≡ ticked faults.now.faults (level_at knots.now pins.now tables.now) gate }
{
    if gate.setting.latched {
        return gate;
    }
    let output = cell_at(faults, gate, address_at(knots, pins, tables, gate.ins));
    Gate { output, ..gate }
}

/// A table after a clock edge.
fn clocked(
    faults: &FaultSet,
    knots: &[ClassNode],
    pins: &[bool],
    tables: &[bool],
    gate: Gate,
) -> Gate
    requires table { gate.table.0 < tables_of faults.now.shape }
    requires ins { (j : ℕ) → j < 6 → slice_index gate.ins j < length knots.now }
    requires pins { length pins.now ≡ length knots.now }
    requires tables { length tables.now ≡ length knots.now }
    ensures { result ≡ clocked faults.now.faults (level_at knots.now pins.now tables.now) gate }
{
    if !gate.setting.latched {
        return gate;
    }
    let output = match gate.held {
        Some(value) => value,
        None => cell_at(faults, gate, address_at(knots, pins, tables, gate.ins)),
    };
    Gate { output, ..gate }
}

/// Makes a tick: every table takes what its inputs address, but the latched ones. Whether one gives something else now.
pub fn tick_all(
    faults: &FaultSet,
    knots: &[ClassNode],
    pins: &[bool],
    tables: &[bool],
    gates: &mut [Gate],
) -> bool
    requires fits { All (Fits (tables_of faults.now.shape) (length knots.now)) gates.old }
    requires pins { length pins.now ≡ length knots.now }
    requires tables { length tables.now ≡ length knots.now }
    ensures next { gates.new ≡ map (ticked faults.now.faults (level_at knots.now pins.now tables.now)) gates.old }
    ensures same { result ≡ false → gates.new ≡ gates.old }
{
    let mut changed = false;
    'gates: for i in 0..gates.len() {
        let gate = ticked(faults, knots, pins, tables, gates[i]);
        if gate.output != gates[i].output {
            gates[i] = gate;
            changed = true;
        }
    }
    changed
}

/// Makes the clock edge: every latched table takes what its inputs address.
pub fn clock_all(
    faults: &FaultSet,
    knots: &[ClassNode],
    pins: &[bool],
    tables: &[bool],
    gates: &mut [Gate],
)
    requires fits { All (Fits (tables_of faults.now.shape) (length knots.now)) gates.old }
    requires pins { length pins.now ≡ length knots.now }
    requires tables { length tables.now ≡ length knots.now }
    ensures { gates.new ≡ map (clocked faults.now.faults (level_at knots.now pins.now tables.now)) gates.old }
{
    'gates: for i in 0..gates.len() {
        gates[i] = clocked(faults, knots, pins, tables, gates[i]);
    }
}
