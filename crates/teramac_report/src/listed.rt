//! The entries of a list of defects.
ghost use Rattle.std.specs.Prelude.{◌<◌};
ghost use Rattle.machine_shape.specs.Shape.{crosses_of, tables_of};

use machine_defects::Defects;
use machine_shape::{Cross, Table, Wire};

// Whether a crosspoint stands on a list: it isn't free, and its wires are.
fn lists_cross(list: &Defects, cross: Cross) -> bool
    requires { cross.0 < crosses_of list.now.shape }
{
    let shape = list.shape();
    let (tap, line) = shape.ends(cross);
    !list.free_cross(cross) && list.free_wire(tap) && list.free_wire(line)
}

// Whether all pins of a table are free.
fn has_free_pins(list: &Defects, table: Table) -> bool
    requires { table.0 < tables_of list.now.shape }
{
    let shape = list.shape();
    for pin in 0..7 {
        if !list.free_wire(shape.pin_of(table, pin)) {
            return false;
        }
    }
    true
}

/// How many wires a list has.
pub fn listed_wires(list: &Defects) -> u64 {
    let mut count = 0u64;
    for number in 0..list.shape().wires() {
        count = count.saturating_add(!list.free_wire(Wire(number)) as u64);
    }
    count
}

/// How many crosspoints a list has.
pub fn listed_crosses(list: &Defects) -> u64 {
    let mut count = 0u64;
    for number in 0..list.shape().crosses() {
        count = count.saturating_add(lists_cross(list, Cross(number)) as u64);
    }
    count
}

/// How many tables a list has.
pub fn listed_tables(list: &Defects) -> u64 {
    let mut count = 0u64;
    for number in 0..list.shape().tables() {
        let table = Table(number);
        let listed = !list.free_table(table) && has_free_pins(list, table);
        count = count.saturating_add(listed as u64);
    }
    count
}
