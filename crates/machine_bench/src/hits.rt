//! Which faults are allowed.
ghost use Rattle.std.specs.Prelude.{◌≡◌, ◌↔◌, ◌<◌, IsTrue};
ghost use Rattle.machine_shape.specs.Shape.{wires_of};
ghost use Rattle.machine_faults.specs.Adding.{CanHave};
ghost use Rattle.machine_faults.specs.declared.fault.Fault.TheVariants as fault;
ghost use Rattle.machine_bench.specs.Faults.{table_position, MayBeHit, IsAllowed};

use machine_faults::Fault;
use machine_shape::{Cross, Meaning, Shape, Table, Wire};

/// How many pins, and how many lines and ports of each node, are never hit.
const WHOLE: u32 = 20;

/// How many tables of each hextant are never hit.
const WHOLE_TABLES: u32 = 4;

// The position of a table in its hextant.
fn table_position(shape: &Shape, table: Table) -> u32
    ensures { result ≡ table_position shape.now table.0 }
{
    let each = shape.counts.tables as u32;
    if each == 0 { table.0 } else { table.0 % each }
}

// Whether a wire may be hit.
fn may_be_hit(shape: &Shape, wire: Wire) -> bool
    requires { wire.0 < wires_of shape.now }
    ensures { IsTrue result ↔ MayBeHit shape.now wire.0 }
{
    machine_shape::the_numbering_is_sound();
    match shape.meaning(wire) {
        Meaning::Pin { position } => WHOLE <= position,
        Meaning::Line { position, .. } => WHOLE <= position,
        Meaning::Port { position, .. } => WHOLE <= position,
        Meaning::TablePin { table, .. } => WHOLE_TABLES <= table_position(shape, table),
    }
}

// Whether both wires may be hit.
fn may_both_be_hit(shape: &Shape, a: Wire, b: Wire) -> bool
    requires a { a.0 < wires_of shape.now }
    requires b { b.0 < wires_of shape.now }
    ensures { IsTrue result ↔ MayBeHit shape.now a.0 × MayBeHit shape.now b.0 }
{
    may_be_hit(shape, a) && may_be_hit(shape, b)
}

// Whether a stuck crosspoint is allowed.
fn is_cross_allowed(shape: &Shape, cross: Cross, closed: bool) -> bool
    requires { CanHave shape.now (fault.CrossStuck cross closed) }
    ensures { IsTrue result ↔ IsAllowed shape.now (fault.CrossStuck cross closed) }
{
    let (tap, line) = shape.ends(cross);
    if closed {
        may_both_be_hit(shape, tap, line)
    } else {
        may_be_hit(shape, line)
    }
}

/// Whether a fault is allowed.
pub fn is_allowed(shape: &Shape, fault: Fault) -> bool
    requires { CanHave shape.now fault }
    ensures { IsTrue result ↔ IsAllowed shape.now fault }
{
    match fault {
        Fault::Stuck { wire, .. } => may_be_hit(shape, wire),
        Fault::CrossStuck { cross, closed } => is_cross_allowed(shape, cross, closed),
        Fault::Cell { table, .. } => WHOLE_TABLES <= table_position(shape, table),
        Fault::Register { .. } => false,
        Fault::Bridge { a, b } => may_both_be_hit(shape, a, b),
    }
}
