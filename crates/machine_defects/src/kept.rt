//! The marks and counts that are kept of a list of defects.

ghost use Rattle.std.specs.Prelude.{◌≡◌, ◌<◌, ◌+◌, ◌-◌, ◌==◌, if◌then◌else◌, false, None, Option, IfOk, IfSome, length, replicate, slice_index_or};
ghost use Rattle.std.specs.Prelude.{slice_set};
ghost use Rattle.base_bits.specs.Numbers.{has_number};
ghost use Rattle.machine_shape.specs.Shape.{wires_of, crosses_of, tables_of, nodes_of};
ghost use Rattle.machine_defects.specs.Kept.{IsKept, AreOwners, AreOwnersBefore, AreRecounted, Loses, count_at, list_in};
ghost use Rattle.machine_defects.specs.Lists.{IsWithWire, no_defects, with_cross, with_table};

use crate::counts::{count_nodes, free_pins, recount_both};
use crate::sweep::bar_all;
use base_bits::BitSet;
use base_table::TABLE_PINS;
use machine_shape::{Cross, Node, Shape, Table, Wire};
use std::alloc::{AllocError, Global};

/// What is kept of a list.
#[derive(Debug, Drop)]
pub struct Kept {
    pub shape: Shape,
    /// What is listed.
    pub wires: BitSet,
    pub crosses: BitSet,
    pub tables: BitSet,
    /// The crosspoints that aren't free, and the tables.
    pub barred: BitSet,
    pub lost: BitSet,
    /// For each wire the table whose pin it is.
    pub owners: Vec<Option<Table>>,
    /// For each wire, if it is a line, how many listed crosspoints it has.
    pub shut: Vec<u32>,
    /// For each node how many of its lines are open, and how many of its ports are free.
    pub open_lines: Vec<u32>,
    pub free_ports: Vec<u32>,
    pub free_tables: u32,
    pub free_pins: u32,
}

/// Sets the owner of a table's pins.
fn own_pins(shape: &Shape, owners: &mut [Option<Table>], t: Table)
    requires table { t.0 < tables_of shape.now }
    requires wide { length owners.old ≡ wires_of shape.now }
    requires before { AreOwnersBefore shape.now t.0 0 owners.old }
    ensures wide { length owners.new ≡ length owners.old }
    ensures owned { AreOwnersBefore shape.now t.0 7 owners.new }
{
    machine_shape::the_numbering_is_sound();
    'pins: for k in 0..TABLE_PINS {
        owners[shape.pin_of(t, k).0 as usize] = Some(t);
    }
}

/// Sets the owner of each table's pins.
fn own_tables(shape: &Shape, owners: &mut [Option<Table>])
    requires wide { length owners.old ≡ wires_of shape.now }
    requires none { AreOwnersBefore shape.now 0 0 owners.old }
    ensures wide { length owners.new ≡ length owners.old }
    ensures owned { AreOwners shape.now owners.new }
{
    'tables: for t in 0..shape.tables() {
        own_pins(shape, owners, Table(t));
    }
}

// The owner of each wire: the table whose pin it is.
fn owners_of(alloc: Global, shape: &Shape) -> Result<Vec<Option<Table>>, AllocError>
    ensures wide { IfOk result (λ owners. length owners.items ≡ wires_of shape.now) }
    ensures owned { IfOk result (λ owners. AreOwners shape.now owners.items) }
{
    let wires = shape.wires();
    let mut owners = vec![in alloc; None; wires as usize]?;
    own_tables(shape, &mut owners);
    Ok(owners)
}

// Marks of what is listed.
#[derive(Drop)]
struct Listed {
    wires: BitSet,
    crosses: BitSet,
    tables: BitSet,
}

// No part of a machine is listed.
fn none_listed(alloc: Global, shape: &Shape) -> Result<Listed, AllocError>
    ensures wires { IfOk result (λ l. l.wires ≡ replicate (wires_of shape.now) false) }
    ensures crosses { IfOk result (λ l. l.crosses ≡ replicate (crosses_of shape.now) false) }
    ensures tables { IfOk result (λ l. l.tables ≡ replicate (tables_of shape.now) false) }
{
    let wires = BitSet::new(alloc, shape.wires())?;
    let crosses = BitSet::new(alloc, shape.crosses())?;
    let tables = BitSet::new(alloc, shape.tables())?;
    Ok(Listed {
        wires,
        crosses,
        tables,
    })
}

// Marks of the crosspoints that aren't free, and of the tables.
#[derive(Drop)]
struct Held {
    barred: BitSet,
    lost: BitSet,
}

// All of a machine's crosspoints and tables are free.
fn none_held(alloc: Global, shape: &Shape) -> Result<Held, AllocError>
    ensures barred { IfOk result (λ h. h.barred ≡ replicate (crosses_of shape.now) false) }
    ensures lost { IfOk result (λ h. h.lost ≡ replicate (tables_of shape.now) false) }
{
    let barred = BitSet::new(alloc, shape.crosses())?;
    let lost = BitSet::new(alloc, shape.tables())?;
    Ok(Held { barred, lost })
}

// For each line how many listed crosspoints it has; for each node how many of its lines are open, and of its ports free.
#[derive(Drop)]
struct NodeCounts {
    shut: Vec<u32>,
    open_lines: Vec<u32>,
    free_ports: Vec<u32>,
}

// The counts where no crosspoint is listed, and these wires.
fn counts_of(alloc: Global, shape: &Shape, wires: &BitSet) -> Result<NodeCounts, AllocError>
    requires { length wires.now ≡ wires_of shape.now }
    ensures shut { IfOk result (λ k. k.shut.items ≡ replicate (wires_of shape.now) 0) }
    ensures counted { IfOk result (λ k. AreRecounted shape.now wires.now k.shut.items (nodes_of shape.now) k.open_lines.items
        k.free_ports.items) }
{
    let lines = shape.wires() as usize;
    let nodes = shape.nodes() as usize;
    let shut = vec![in alloc; 0u32; lines]?;
    let mut open_lines = vec![in alloc; 0u32; nodes]?;
    let mut free_ports = vec![in alloc; 0u32; nodes]?;
    count_nodes(shape, wires, &shut, &mut open_lines, &mut free_ports);
    Ok(NodeCounts {
        shut,
        open_lines,
        free_ports,
    })
}

/// Nothing is listed.
pub fn nothing(alloc: Global, shape: Shape) -> Result<Kept, AllocError>
    ensures kept { IfOk result IsKept }
    ensures none { IfOk result (λ k. list_in k ≡ record { shape = shape; list = no_defects }) }
{
    let listed = none_listed(alloc, &shape)?;
    let held = none_held(alloc, &shape)?;
    let owners = owners_of(alloc, &shape)?;
    let counts = counts_of(alloc, &shape, &listed.wires)?;
    Ok(Kept {
        shape,
        wires: listed.wires,
        crosses: listed.crosses,
        tables: listed.tables,
        barred: held.barred,
        lost: held.lost,
        owners,
        shut: counts.shut,
        open_lines: counts.open_lines,
        free_ports: counts.free_ports,
        free_tables: shape.tables(),
        free_pins: shape.pins(),
    })
}

/// A table is free no more, and no more listed, since one of its pins is.
fn lose_table(tables: &mut BitSet, lost: &mut BitSet, free_tables: &mut u32, owner: Option<Table>)
    requires within { IfSome owner (λ t. (t.0 < length tables.old) × (t.0 < length lost.old)) }
    requires counted { IfSome owner (λ t. has_number lost.old t.0 ≡ false → 0 < free_tables.old) }
    ensures { Loses owner tables.old lost.old free_tables.old tables.new lost.new free_tables.new }
{
    if let Some(t) = owner {
        tables.remove(t.0);
        if !lost.has(t.0) {
            lost.insert(t.0);
            *free_tables -= 1;
        }
    }
}

/// Lists a wire.
pub fn put_wire(kept: &mut Kept, w: Wire)
    requires kept { IsKept kept.old }
    requires within { w.0 < wires_of kept.old.shape }
    ensures kept { IsKept kept.new }
    ensures listed { IsWithWire (list_in kept.old) w.0 (list_in kept.new) }
{
    if kept.wires.has(w.0) {
        return;
    }
    machine_shape::the_numbering_is_sound();
    machine_shape::the_crosspoints_are_sound();
    let shape = kept.shape;
    let node = shape.node_of(w);
    bar_all(
        &shape,
        &mut kept.crosses,
        &mut kept.barred,
        &mut kept.shut,
        w,
    );
    lose_table(
        &mut kept.tables,
        &mut kept.lost,
        &mut kept.free_tables,
        kept.owners[w.0 as usize],
    );
    kept.wires.insert(w.0);
    kept.free_pins = free_pins(&shape, &kept.wires);
    recount_both(
        &shape,
        &kept.wires,
        &kept.shut,
        &mut kept.open_lines,
        &mut kept.free_ports,
        node,
    );
}

/// A line has one more listed crosspoint. If it had none, its node has one open line less.
fn shut_line(shut: &mut [u32], open_lines: &mut [u32], line: Wire, n: Node)
    requires line { line.0 < length shut.old }
    requires node { n.0 < length open_lines.old }
    requires few { count_at shut.old line.0 < 4294967295 }
    requires clear { count_at shut.old line.0 ≡ 0 → 0 < count_at open_lines.old n.0 }
    ensures shut { shut.new ≡ slice_set shut.old line.0 (count_at shut.old line.0 + 1) }
    ensures open { open_lines.new ≡ (if count_at shut.old line.0 == 0 then slice_set open_lines.old n.0
        (count_at open_lines.old n.0 - 1) else open_lines.old) }
{
    if shut[line.0 as usize] == 0 {
        open_lines[n.0 as usize] -= 1;
    }
    shut[line.0 as usize] += 1;
}

/// Lists a crosspoint, unless one of its two wires is listed.
pub fn put_cross(kept: &mut Kept, x: Cross)
    requires kept { IsKept kept.old }
    requires within { x.0 < crosses_of kept.old.shape }
    ensures kept { IsKept kept.new }
    ensures listed { list_in kept.new ≡ record { shape = kept.old.shape; list = with_cross kept.old.shape (list_in kept.old).list x.0 } }
{
    if kept.barred.has(x.0) {
        return;
    }
    machine_shape::the_numbering_is_sound();
    machine_shape::the_crosspoints_are_sound();
    let node = kept.shape.node_of_cross(x);
    let (_, line) = kept.shape.ends(x);
    shut_line(&mut kept.shut, &mut kept.open_lines, line, node);
    kept.crosses.insert(x.0);
    kept.barred.insert(x.0);
}

/// Lists a table, unless one of its pins is listed.
pub fn put_table(kept: &mut Kept, t: Table)
    requires kept { IsKept kept.old }
    requires within { t.0 < tables_of kept.old.shape }
    ensures kept { IsKept kept.new }
    ensures listed { list_in kept.new ≡ record { shape = kept.old.shape; list = with_table kept.old.shape (list_in kept.old).list t.0 } }
{
    if kept.lost.has(t.0) {
        return;
    }
    kept.tables.insert(t.0);
    kept.lost.insert(t.0);
    kept.free_tables -= 1;
}
