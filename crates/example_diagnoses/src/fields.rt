//! Fields and tables that are looked at: all of a machine, or a part that numbers make.
ghost use Rattle.std.specs.Prelude.{◌≡◌, ◌<◌, All, IfOk, length};
ghost use Rattle.machine_shape.specs.Shape.{tables_of};
ghost use Rattle.diag_known.specs.Field.{IsFieldOf};

use crate::flags::Parts;
use base_bits::BitSet;
use base_random::Draws;
use diag_known::Field;
use machine_shape::{Shape, Table};
use std::alloc::{AllocError, Global};

/// What a call looks at, and the same by number.
#[derive(Drop)]
pub struct Task {
    pub field: Field,
    pub tables: Vec<Table>,
    pub area: Parts,
}

// All numbers below a length but one of so many, or all where that is 0.
fn draw_set(alloc: Global, draws: &mut Draws, len: u32, one_of: u32) -> Result<BitSet, AllocError>
    ensures { IfOk result (λ set. length set ≡ len) }
{
    let mut set = BitSet::new(alloc, len)?;
    'numbers: for i in 0..len {
        if one_of == 0 || draws.draw(one_of) != 0 {
            set.insert(i);
        }
    }
    Ok(set)
}

// The wires and crosspoints of a machine but for one of so many of each.
fn draw_field(
    alloc: Global,
    draws: &mut Draws,
    shape: &Shape,
    one_of: (u32, u32),
) -> Result<Field, AllocError>
    ensures { IfOk result (IsFieldOf shape.now) }
{
    let wires = draw_set(alloc, draws, shape.wires(), one_of.0)?;
    match draw_set(alloc, draws, shape.crosses(), one_of.1) {
        Ok(crosses) => Ok(Field { wires, crosses }),
        Err(e) => Err(e),
    }
}

// The tables below a number but for one of so many, or all where that is 0.
fn draw_tables(
    alloc: Global,
    draws: &mut Draws,
    len: u32,
    one_of: u32,
) -> Result<Vec<Table>, AllocError>
    ensures { IfOk result (λ tables. All (λ t. t.0 < len) tables.items) }
{
    let mut tables = Vec::new(alloc);
    'tables: for t in 0..len {
        if one_of != 0 && draws.draw(one_of) == 0 {
            continue;
        }
        tables.push(Table(t))?;
    }
    Ok(tables)
}

// Adds what is looked at, by number.
fn fill_area(
    area: &mut Parts,
    shape: &Shape,
    field: &Field,
    tables: &[Table],
) -> Result<(), AllocError> {
    area.wires.add_set(&field.wires)?;
    area.crosses.add_set(&field.crosses)?;
    'tables: for t in 0..shape.tables() {
        area.tables.push(tables.contains(&Table(t)))?;
    }
    Ok(())
}

// What is looked at, also by number.
fn task_of(
    alloc: Global,
    shape: &Shape,
    field: Field,
    tables: Vec<Table>,
) -> Result<Task, AllocError>
    requires field { IsFieldOf shape.now field }
    requires tables { All (λ t. t.0 < tables_of shape.now) tables.items }
    ensures field { IfOk result (λ task. IsFieldOf shape.now task.field) }
    ensures tables { IfOk result (λ task. All (λ t. t.0 < tables_of shape.now) task.tables.items) }
{
    let mut area = Parts::empty(alloc);
    match fill_area(&mut area, shape, &field, &tables) {
        Ok(()) => Ok(Task {
            field,
            tables,
            area,
        }),
        Err(e) => Err(e),
    }
}

// The wires, crosspoints and tables of a machine but for one of so many of each.
fn draw_task(
    alloc: Global,
    draws: &mut Draws,
    shape: &Shape,
    one_of: (u32, u32, u32),
) -> Result<Task, AllocError>
    ensures field { IfOk result (λ task. IsFieldOf shape.now task.field) }
    ensures tables { IfOk result (λ task. All (λ t. t.0 < tables_of shape.now) task.tables.items) }
{
    let field = draw_field(alloc, draws, shape, (one_of.0, one_of.1))?;
    match draw_tables(alloc, draws, shape.tables(), one_of.2) {
        Ok(tables) => task_of(alloc, shape, field, tables),
        Err(e) => Err(e),
    }
}

/// All of a machine.
pub fn whole(alloc: Global, draws: &mut Draws, shape: &Shape) -> Result<Task, AllocError>
    ensures field { IfOk result (λ task. IsFieldOf shape.now task.field) }
    ensures tables { IfOk result (λ task. All (λ t. t.0 < tables_of shape.now) task.tables.items) }
{
    draw_task(alloc, draws, shape, (0, 0, 0))
}

/// A part of a machine: some four of five wires, seven of eight crosspoints and half of the tables.
pub fn draw_part(alloc: Global, draws: &mut Draws, shape: &Shape) -> Result<Task, AllocError>
    ensures { IfOk result (λ task. IsFieldOf shape.now task.field) }
{
    draw_task(alloc, draws, shape, (5, 8, 2))
}
