//! What is wrong with a machine, number by number, in the order in which kept facts and marks stand.
ghost use Rattle.std.specs.Prelude.{◌<◌};
ghost use Rattle.machine_shape.specs.Shape.{tables_of};

use crate::flags::Flags;
use crate::sight::{Sight, WireSeen};
use machine_faults::FaultSet;
use machine_shape::Table;
use std::alloc::{AllocError, Global};

/// The crosspoints that are stuck, the wires that aren't clear, the pairs that are shorted, the cells that are wrong, the registers
/// that are stuck, and the tables that aren't right.
#[derive(Drop)]
pub struct Wrongs {
    pub crosses: Flags,
    pub wires: Flags,
    pub pairs: Flags,
    pub cells: Flags,
    pub registers: Flags,
    pub tables: Flags,
}

impl Wrongs {
    // Of nothing. Takes no memory.
    fn empty(alloc: Global) -> Wrongs {
        Wrongs {
            crosses: Flags::empty(alloc),
            wires: Flags::empty(alloc),
            pairs: Flags::empty(alloc),
            cells: Flags::empty(alloc),
            registers: Flags::empty(alloc),
            tables: Flags::empty(alloc),
        }
    }
}

fn add_crosses(wrong: &mut Flags, sight: &Sight) -> Result<(), AllocError> {
    'crosses: for c in sight.crosses.iter() {
        wrong.push(c.stuck)?;
    }
    Ok(())
}

fn add_wires(wrong: &mut Flags, sight: &Sight) -> Result<(), AllocError> {
    'wires: for w in sight.wires.iter() {
        wrong.push(!w.clear)?;
    }
    Ok(())
}

// To which wires of a lower number a wire is shorted.
fn add_pairs_with(wrong: &mut Flags, sight: &Sight, wire: &WireSeen) -> Result<(), AllocError> {
    'wires: for w in sight.wires.iter() {
        if w.number < wire.number {
            wrong.push(w.group == wire.group)?;
        }
    }
    Ok(())
}

fn add_pairs(wrong: &mut Flags, sight: &Sight) -> Result<(), AllocError> {
    'wires: for w in sight.wires.iter() {
        add_pairs_with(wrong, sight, w)?;
    }
    Ok(())
}

// Which cells of a table are wrong.
fn add_cells_of(wrong: &mut Flags, faults: &FaultSet, table: Table) -> Result<(), AllocError>
    requires { table.0 < tables_of faults.now.shape }
{
    'cells: for address in 0..64u8 {
        wrong.push(faults.cell(table, address).is_some())?;
    }
    Ok(())
}

fn add_cells(wrong: &mut Flags, faults: &FaultSet) -> Result<(), AllocError> {
    'tables: for t in 0..faults.shape().tables() {
        add_cells_of(wrong, faults, Table(t))?;
    }
    Ok(())
}

fn add_registers(wrong: &mut Flags, faults: &FaultSet) -> Result<(), AllocError> {
    'tables: for t in 0..faults.shape().tables() {
        wrong.push(faults.register(Table(t)).is_some())?;
    }
    Ok(())
}

fn add_tables(wrong: &mut Flags, sight: &Sight) -> Result<(), AllocError> {
    'tables: for t in sight.tables.iter() {
        wrong.push(!t.right)?;
    }
    Ok(())
}

fn fill(wrongs: &mut Wrongs, faults: &FaultSet, sight: &Sight) -> Result<(), AllocError> {
    add_crosses(&mut wrongs.crosses, sight)?;
    add_wires(&mut wrongs.wires, sight)?;
    add_pairs(&mut wrongs.pairs, sight)?;
    add_cells(&mut wrongs.cells, faults)?;
    add_registers(&mut wrongs.registers, faults)?;
    add_tables(&mut wrongs.tables, sight)
}

/// What is wrong with the machine that has these faults and is seen so.
pub fn wrongs_of(alloc: Global, faults: &FaultSet, sight: &Sight) -> Result<Wrongs, AllocError> {
    let mut wrongs = Wrongs::empty(alloc);
    match fill(&mut wrongs, faults, sight) {
        Ok(()) => Ok(wrongs),
        Err(e) => Err(e),
    }
}
