//! The faults that a number makes.
ghost use Rattle.std.specs.Prelude.{◌≡◌, ◌<◌, OnOk, IfOk};
ghost use Rattle.machine_shape.specs.Shape.{wires_of, crosses_of, tables_of};
ghost use Rattle.machine_faults.specs.Adding.{CanHave};
ghost use Rattle.base_random.specs.Draws.{next_state, answer};
ghost use Rattle.machine_bench.specs.Faults.{fault_of_turn, state_of_turn, IsOneMore, Takes, AreBenchFaults};

use crate::hits::is_allowed;
use base_random::Draws;
use base_table::TABLE_CELLS;
use machine_faults::{AddFault, Fault, FaultSet};
use machine_shape::{Cross, Shape, Table, Wire};
use std::alloc::{AllocError, Global};

/// How many turns there are.
const TURNS: u32 = 400;

// Draws a wire of all.
fn draw_wire(draws: &mut Draws, shape: &Shape) -> Wire
    ensures state { draws.new ≡ next_state draws.old }
    ensures wire { result.0 ≡ answer (wires_of shape.now) draws.new }
    ensures within { result.0 < wires_of shape.now }
{
    Wire(draws.draw(shape.wires()))
}

// Draws a crosspoint of all.
fn draw_cross(draws: &mut Draws, shape: &Shape) -> Cross
    ensures state { draws.new ≡ next_state draws.old }
    ensures cross { result.0 ≡ answer (crosses_of shape.now) draws.new }
    ensures within { result.0 < crosses_of shape.now }
{
    Cross(draws.draw(shape.crosses()))
}

// Draws a table of all.
fn draw_table(draws: &mut Draws, shape: &Shape) -> Table
    ensures state { draws.new ≡ next_state draws.old }
    ensures table { result.0 ≡ answer (tables_of shape.now) draws.new }
    ensures within { result.0 < tables_of shape.now }
{
    Table(draws.draw(shape.tables()))
}

// Draws the fault of a turn.
fn draw_fault(draws: &mut Draws, shape: &Shape) -> Fault
    ensures state { draws.new ≡ state_of_turn draws.old }
    ensures fault { result ≡ fault_of_turn shape.now draws.old }
    ensures within { CanHave shape.now result }
{
    match draws.draw(6) {
        0 => Fault::Stuck {
            wire: draw_wire(draws, shape),
            value: false,
        },
        1 => Fault::Stuck {
            wire: draw_wire(draws, shape),
            value: true,
        },
        2 => Fault::CrossStuck {
            cross: draw_cross(draws, shape),
            closed: false,
        },
        3 => Fault::CrossStuck {
            cross: draw_cross(draws, shape),
            closed: true,
        },
        4 => Fault::Cell {
            table: draw_table(draws, shape),
            address: draws.draw(TABLE_CELLS) as u8,
            value: draws.draw(2) == 1,
        },
        _ => Fault::Bridge {
            a: draw_wire(draws, shape),
            b: draw_wire(draws, shape),
        },
    }
}

// Adds a fault where the set takes it; what the set refuses is dropped.
fn add_or_drop(set: &mut FaultSet, fault: Fault) -> Result<(), AllocError>
    requires { CanHave set.old.shape fault }
    ensures shape { set.new.shape ≡ set.old.shape }
    ensures dropped { OnOk result (IsOneMore set.old.shape set.old.faults fault set.new.faults) }
{
    match set.add(fault) {
        Ok(()) => Ok(()),
        Err(AddFault::Memory) => Err(AllocError),
        Err(AddFault::Same) => Ok(()),
        Err(AddFault::Doubled) => Ok(()),
        Err(AddFault::Against) => Ok(()),
        Err(AddFault::Limit) => Ok(()),
    }
}

// Makes one turn: the fault that it draws is added where it is allowed and the set takes it.
fn take_turn(draws: &mut Draws, shape: &Shape, set: &mut FaultSet) -> Result<(), AllocError>
    requires { set.old.shape ≡ shape.now }
    ensures state { draws.new ≡ state_of_turn draws.old }
    ensures shape { set.new.shape ≡ set.old.shape }
    ensures taken { OnOk result (Takes shape.now set.old.faults (fault_of_turn shape.now draws.old) set.new.faults) }
{
    let fault = draw_fault(draws, shape);
    if !is_allowed(shape, fault) {
        return Ok(());
    }
    add_or_drop(set, fault)
}

/// The faults that the number makes for a machine of this shape, in 400 turns.
pub fn bench_faults(alloc: Global, n: u32, shape: &Shape) -> Result<FaultSet, AllocError>
    ensures shape { IfOk result (λ s. s.shape ≡ shape.now) }
    ensures faults { IfOk result (λ s. AreBenchFaults shape.now n s.faults) }
{
    let mut set = FaultSet::none(alloc, *shape)?;
    let mut draws = Draws::new(n as u64);
    'turns: for turn in 0..TURNS {
        take_turn(&mut draws, shape, &mut set)?;
    }
    Ok(set)
}
