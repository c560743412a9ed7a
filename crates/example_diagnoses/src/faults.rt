//! Faults of a machine, as numbers make them.
ghost use Rattle.std.specs.Prelude.{◌≡◌, IsTrue, IfOk};
ghost use Rattle.machine_faults.specs.Adding.{CanHave};

use base_random::Draws;
use machine_faults::{AddFault, Fault, FaultSet};
use machine_shape::{Cross, Shape, Table, Wire};
use std::alloc::{AllocError, Global};

/// The kinds of faults.
#[derive(Clone, Copy)]
pub enum Kind {
    Open,
    Closed,
    Stuck,
    Cell,
    Register,
    Bridge,
}

// Draws a number below another, or 0 where that is 0.
fn below(draws: &mut Draws, most: u32) -> u32 {
    if most == 0 { 0 } else { draws.draw(most) }
}

// Draws a fault of this kind.
fn draw_fault(draws: &mut Draws, shape: &Shape, kind: Kind) -> Fault {
    let cross = Cross(below(draws, shape.crosses()));
    let wire = Wire(below(draws, shape.wires()));
    let table = Table(below(draws, shape.tables()));
    let value = draws.draw(2) == 1;
    match kind {
        Kind::Open => Fault::CrossStuck {
            cross,
            closed: false,
        },
        Kind::Closed => Fault::CrossStuck {
            cross,
            closed: true,
        },
        Kind::Stuck => Fault::Stuck { wire, value },
        Kind::Cell => Fault::Cell {
            table,
            address: draws.draw(64) as u8,
            value,
        },
        Kind::Register => Fault::Register { table, value },
        Kind::Bridge => Fault::Bridge {
            a: wire,
            b: Wire(below(draws, shape.wires())),
        },
    }
}

// Whether a machine of this shape can have the fault.
fn can_have(shape: &Shape, fault: Fault) -> bool
    ensures { IsTrue result → CanHave shape.now fault }
{
    match fault {
        Fault::Stuck { wire, .. } => wire.0 < shape.wires(),
        Fault::CrossStuck { cross, .. } => cross.0 < shape.crosses(),
        Fault::Cell { table, address, .. } => table.0 < shape.tables() && address < 64,
        Fault::Register { table, .. } => table.0 < shape.tables(),
        Fault::Bridge { a, b } => a.0 < shape.wires() && b.0 < shape.wires(),
    }
}

// Adds a fault, where the machine can have it and the set takes it.
fn add(set: &mut FaultSet, fault: Fault) -> Result<(), AllocError>
    ensures { set.new.shape ≡ set.old.shape }
{
    if !can_have(&set.shape(), fault) {
        return Ok(());
    }
    match set.add(fault) {
        Err(AddFault::Memory) => Err(AllocError),
        _ => Ok(()),
    }
}

/// Draws the faults of a machine, each of one of these kinds: fewer than so many for a hundred crosspoints.
pub fn draw_faults(
    alloc: Global,
    draws: &mut Draws,
    shape: &Shape,
    kinds: &[Kind; 8],
    most: u32,
) -> Result<FaultSet, AllocError>
    ensures { IfOk result (λ faults. faults.shape ≡ shape.now) }
{
    let mut set = FaultSet::none(alloc, *shape)?;
    let rate = below(draws, most);
    'faults: for _fault in 0..shape.crosses().saturating_mul(rate) / 100 {
        let kind = kinds[draws.draw(8) as usize];
        let fault = draw_fault(draws, shape, kind);
        add(&mut set, fault)?;
    }
    Ok(set)
}
