//! Tables by the numbers of the signals that their pins read.

ghost use Rattle.std.specs.Prelude.{◌≡◌, ◌+◌, ◌*◌, ◌<◌, ◌≤◌, ℕ, length, IfOk, OnOk, if◌then◌else◌};
ghost use Rattle.map_network.specs.Rows.{cell_at, number_of};
ghost use Rattle.map_eval.specs.Marks.{number_at};
ghost use Rattle.map_eval.specs.Pins.{AreInRange};
ghost use Rattle.map_eval.specs.Wires.{bits_at, one_of, wire_at, ArePushed, AreWires};

use crate::pins::signal_of;
use crate::words::cell;
use base_table::TABLE_INPUTS;
use map_network::{Network, Source};
use std::alloc::{AllocError, Global};

// The signal of a pin. One without an input reads the signal that is always 1.
fn wire_of(tables: usize, one: usize, ins: &[Source], pin: usize) -> usize
    requires { tables ≤ 65536 }
    ensures { result ≡ wire_at tables one ins.now pin }
{
    if pin < ins.len() {
        signal_of(tables, ins[pin])
    } else {
        one
    }
}

// Adds the signals of a table's pins.
fn push_wires(
    wires: &mut Vec<usize>,
    tables: usize,
    one: usize,
    ins: &[Source],
) -> Result<(), AllocError>
    requires { tables ≤ 65536 }
    ensures { OnOk result (ArePushed tables one ins.now 6 wires.old.items wires.new.items) }
{
    'pins: for pin in 0..TABLE_INPUTS {
        wires.push(wire_of(tables, one, ins, pin))?;
    }
    Ok(())
}

/// The signals of all tables' pins, six for each. Tables come first, then inputs, and the last signal is always 1.
pub fn wires_of(alloc: Global, network: &Network) -> Result<Vec<usize>, AllocError>
    requires { length network.now.tables ≤ 65536 }
    ensures { IfOk result (λ wires. AreWires network.now (length network.now.tables) wires.items) }
{
    let tables = network.tables.as_slice();
    let one = tables.len() + network.inputs as usize;
    let mut wires = Vec::with_capacity(alloc, TABLE_INPUTS * tables.len())?;
    'tables: for j in 0..tables.len() {
        push_wires(&mut wires, tables.len(), one, tables[j].ins.as_slice())?;
    }
    Ok(wires)
}

fn one_if(bit: bool) -> u8
    ensures few { result < 2 }
    ensures one { result ≡ (if bit then 1 else 0) }
{
    if bit { 1 } else { 0 }
}

// The address that the pins of a table make, by the bits of all signals.
fn address_by(wires: &[usize], table: usize, bits: &[bool]) -> u8
    requires table { 6 * table + 6 ≤ length wires.now }
    requires wires { (p : ℕ) → p < 6 → number_at wires.now (6 * table + p) < length bits.now }
    ensures low { result < 64 }
    ensures address { result ≡ number_of (bits_at wires.now table bits.now) }
{
    let from = TABLE_INPUTS * table;
    let high = one_if(bits[wires[from + 4]]) + 2 * one_if(bits[wires[from + 5]]);
    let middle = one_if(bits[wires[from + 2]]) + 2 * (one_if(bits[wires[from + 3]]) + 2 * high);
    one_if(bits[wires[from]]) + 2 * (one_if(bits[wires[from + 1]]) + 2 * middle)
}

/// What a table with these cells gives, by the bits of all signals.
pub fn gives(wires: &[usize], table: usize, cells: u64, bits: &[bool]) -> bool
    requires table { 6 * table + 6 ≤ length wires.now }
    requires wires { (p : ℕ) → p < 6 → number_at wires.now (6 * table + p) < length bits.now }
    ensures { result ≡ cell_at cells (number_of (bits_at wires.now table bits.now)) }
{
    cell(cells, address_by(wires, table, bits)) == 1
}
