//! Numbers and names of a small machine.

use example_kit::TINY;
use machine_shape::{Counts, Cross, Field, LimitedCount, Node, Shape, ShapeFault, Table, Wire};

// Whether the wire has the name, and the name is the wire's.
fn is_named(shape: &Shape, name: &[u8], number: u32) -> bool {
    shape.wire_of(name) == Some(Wire(number))
        && number < shape.wires()
        && shape.wire_name(Wire(number)).as_bytes() == name
}

// Names and numbers of wires and tables.
fn numbers_wires(shape: &Shape) -> bool {
    let names: [(&[u8], u32); 8] = [
        (b"r.p0", 0),
        (b"r.l0", 4),
        (b"m0.o0", 8),
        (b"m0.c0.l0", 20),
        (b"m0.c0.h0.o0", 24),
        (b"m0.c0.h0.t0.i0", 32),
        (b"m0.c0.h0.t0.q", 38),
        (b"m0.c0.h0.t1.q", 45),
    ];
    let mut right = shape.wires() == 46 && shape.crosses() == 168;
    'names: for (name, number) in names {
        right = right && is_named(shape, name, number);
    }
    let none = shape.wire_of(b"m0.c0.h0.t0.i6").is_none();
    right && none && shape.table_of(b"m0.c0.h0.t1") == Some(Table(1))
}

// Whether each wire is the one of its name.
fn names_wires(shape: &Shape) -> bool {
    let mut right = true;
    'wires: for w in 0..shape.wires() {
        let name = shape.wire_name(Wire(w));
        right = right && shape.wire_of(name.as_bytes()) == Some(Wire(w));
    }
    right
}

// Whether each table is the one of its name.
fn names_tables(shape: &Shape) -> bool {
    let mut right = true;
    'tables: for t in 0..shape.tables() {
        let name = shape.table_name(Table(t));
        right = right && shape.table_of(name.as_bytes()) == Some(Table(t));
    }
    right
}

// Whether these are the names of the nodes.
fn names_nodes(shape: &Shape, names: &[&str]) -> bool {
    let mut right = shape.nodes() as usize == names.len();
    'nodes: for n in 0..shape.nodes() {
        let name = shape.node_name(Node(n));
        right = right && names.get(n as usize).map(|due| due.as_bytes()) == Some(name.as_bytes());
    }
    right
}

pub fn names_both_ways() -> Option<bool> {
    let shape = Shape::new(TINY).ok()?;
    let nodes = names_nodes(&shape, &["r", "m0", "m0.c0", "m0.c0.h0"]);
    Some(nodes && names_wires(&shape) && names_tables(&shape))
}

// Ends of crosspoints, and crosspoints of two wires.
fn numbers_crosspoints(shape: &Shape) -> Option<bool> {
    if shape.crosses() <= 26 || shape.wires() <= 38 {
        return None;
    }
    // m0.o2 and r.l2
    let ends = shape.ends(Cross(26)) == (Wire(10), Wire(6));
    let node = shape.node_of_cross(Cross(26)) == Node(0);
    // m0.c0.h0.t0.q and m0.c0.h0.l2
    let cross = shape.cross(Wire(38), Wire(30)) == Some(Cross(138));
    Some(ends && node && cross && shape.cross(Wire(30), Wire(38)).is_none())
}

// Counts of which no machine is made.
fn refuses_counts() -> bool {
    let chips = Counts { chips: 0, ..TINY };
    let zero = ShapeFault::Zero {
        field: Field::Chips,
    };
    let tables = Counts {
        tables: 4097,
        ..TINY
    };
    let limit = ShapeFault::Limit {
        which: LimitedCount::Tables,
        value: 4097,
    };
    Shape::new(chips).err() == Some(zero) && Shape::new(tables).err() == Some(limit)
}

pub fn tiny_numbering() -> Option<bool> {
    let shape = Shape::new(TINY).ok()?;
    let wires = numbers_wires(&shape);
    let crosses = numbers_crosspoints(&shape)?;
    Some(wires && crosses && refuses_counts())
}
