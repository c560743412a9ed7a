//! The free tables of a machine as seats for the tables of a network.
ghost use Rattle.std.specs.Prelude.{◌≡◌, ◌<◌, ◌≤◌, ℕ, IfOk, OnOk, All, length, map, slice_index_or, true};
ghost use Rattle.machine_shape.specs.Shape.{nodes_of, tables_of};
ghost use Rattle.place_plan.specs.Plans.{number_of};
ghost use Rattle.place_anneal.specs.Seats.{AreFreeTables, AreMarked, HasMark, number_at};

use base_lists::Items;
use machine_defects::Defects;
use machine_shape::{Node, Shape, Table};
use std::alloc::{AllocError, Global};

/// A free table, and the nodes above it.
#[derive(Clone, Copy, Debug)]
pub struct Seat {
    pub table: Table,
    pub hextant: u32,
    pub chip: u32,
    pub module: u32,
}

// The node above a node; the root itself.
fn node_above(shape: &Shape, node: Node) -> Node
    requires { node.0 < nodes_of shape.now }
    ensures { result.0 < nodes_of shape.now }
{
    match shape.parent(node) {
        Some(above) => above,
        None => node,
    }
}

// The seat at a table.
fn seat_at(shape: &Shape, table: Table) -> Seat
    requires { table.0 < tables_of shape.now }
    ensures { number_at result ≡ table.0 }
{
    let hextant = shape.hextant_of(table);
    let chip = node_above(shape, hextant);
    let module = node_above(shape, chip);
    Seat {
        table,
        hextant: hextant.0,
        chip: chip.0,
        module: module.0,
    }
}

// The seats at these tables.
fn taken_seats(alloc: Global, shape: &Shape, tables: &[Table]) -> Result<Vec<Seat>, AllocError>
    requires { All (λ t. t.0 < tables_of shape.now) tables.now }
    ensures { IfOk result (λ seats. map number_at seats.items ≡ map number_of tables.now) }
{
    let mut seats = Vec::new(alloc);
    for table in tables {
        seats.push(seat_at(shape, *table))?;
    }
    Ok(seats)
}

// Marks a table.
fn mark(marks: &mut Vec<bool>, table: Table)
    ensures this { HasMark marks.new.items table.0 }
    ensures kept { (t : ℕ) → HasMark marks.old.items t → HasMark marks.new.items t }
{
    let place = table.0 as usize;
    if place < marks.len() {
        marks[place] = true;
    }
}

// Whether a table has a mark.
fn is_marked(marks: &[bool], table: Table) -> bool
    ensures { result ≡ slice_index_or marks.now table.0 true }
{
    let place = table.0 as usize;
    if place < marks.len() {
        return marks[place];
    }
    true
}

// Marks for so many tables, on those of the seats.
fn marks_of(alloc: Global, tables: u32, seats: &[Seat]) -> Result<Vec<bool>, AllocError>
    ensures { IfOk result (λ marks. AreMarked seats.now marks.items) }
{
    let mut marks = vec![in alloc; false; tables as usize]?;
    for seat in seats {
        mark(&mut marks, seat.table);
    }
    Ok(marks)
}

// Adds the seat at a table, if that is free and isn't among them.
fn add_other(
    seats: &mut Vec<Seat>,
    marks: &mut Vec<bool>,
    defects: &Defects,
    table: Table,
) -> Result<(), AllocError>
    requires within { table.0 < tables_of defects.now.shape }
    requires free { AreFreeTables defects.now.shape defects.now.list (map number_at seats.old.items) }
    requires marked { AreMarked seats.old.items marks.old.items }
    ensures free { OnOk result (AreFreeTables defects.now.shape defects.now.list (map number_at seats.new.items)) }
    ensures more { OnOk result (length seats.old.items ≤ length seats.new.items) }
    ensures marked { OnOk result (AreMarked seats.new.items marks.new.items) }
{
    if !defects.free_table(table) {
        return Ok(());
    }
    if is_marked(marks, table) {
        return Ok(());
    }
    seats.push(seat_at(&defects.shape(), table))?;
    mark(marks, table);
    Ok(())
}

// Adds the seats at the free tables that aren't among them.
fn add_others(
    seats: &mut Vec<Seat>,
    marks: &mut Vec<bool>,
    defects: &Defects,
) -> Result<(), AllocError>
    requires free { AreFreeTables defects.now.shape defects.now.list (map number_at seats.old.items) }
    requires marked { AreMarked seats.old.items marks.old.items }
    ensures free { OnOk result (AreFreeTables defects.now.shape defects.now.list (map number_at seats.new.items)) }
    ensures more { OnOk result (length seats.old.items ≤ length seats.new.items) }
{
    for t in 0..defects.shape().tables() {
        add_other(seats, marks, defects, Table(t))?;
    }
    Ok(())
}

/// The seats at these tables, in order, and then those at all other free tables.
pub fn seats_of(alloc: Global, tables: &[Table], defects: &Defects) -> Result<Vec<Seat>, AllocError>
    requires { AreFreeTables defects.now.shape defects.now.list (map number_of tables.now) }
    ensures free { IfOk result (λ seats. AreFreeTables defects.now.shape defects.now.list (map number_at seats.items)) }
    ensures enough { IfOk result (λ seats. length tables.now ≤ length seats.items) }
{
    let shape = defects.shape();
    let mut seats = taken_seats(alloc, &shape, tables)?;
    let mut marks = marks_of(alloc, shape.tables(), &seats)?;
    add_others(&mut seats, &mut marks, defects)?;
    Ok(seats)
}

/// The tables at these seats.
pub fn tables_at(alloc: Global, seats: &[Seat]) -> Result<Items<Table>, AllocError>
    ensures { IfOk result (λ tables. map number_of tables ≡ map number_at seats.now) }
{
    let mut tables = Items::empty(alloc);
    for seat in seats {
        tables.push(seat.table)?;
    }
    Ok(tables)
}
