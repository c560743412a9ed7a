//! What is kept, known and marked at one time, in plain lists by number.
ghost use Rattle.std.specs.Prelude.{◌<◌};
ghost use Rattle.machine_shape.specs.Shape.{tables_of, wires_of};

use crate::flags::Flags;
use diag_evidence::Facts;
use diag_known::{Known, VerifiedWire};
use diag_sweep::{DefectMarks, Knowledge};
use machine_shape::{Cross, Table, Wire};
use std::alloc::{AllocError, Global};

/// The facts that are kept. Pairs stand in the order of their higher wires, and then of their lower ones; cells in that of their
/// tables, 64 of each.
#[derive(Drop)]
pub struct KeptFacts {
    pub crosses: Flags,
    pub wires: Flags,
    pub pairs: Flags,
    pub cells: Flags,
    pub registers: Flags,
}

/// The wires that are known, in their order and by number.
#[derive(Drop)]
pub struct Knowing {
    pub steps: Vec<VerifiedWire>,
    pub wires: Flags,
}

/// The marks.
#[derive(Drop)]
pub struct Marks {
    pub stuck: Flags,
    pub unfit: Flags,
    pub unclear: Flags,
    pub wrong: Flags,
}

/// All of it.
#[derive(Drop)]
pub struct Picture {
    pub kept: KeptFacts,
    pub known: Knowing,
    pub marks: Marks,
}

impl KeptFacts {
    // Of nothing. Takes no memory.
    fn empty(alloc: Global) -> KeptFacts {
        KeptFacts {
            crosses: Flags::empty(alloc),
            wires: Flags::empty(alloc),
            pairs: Flags::empty(alloc),
            cells: Flags::empty(alloc),
            registers: Flags::empty(alloc),
        }
    }
}

impl Marks {
    // Of nothing. Takes no memory.
    fn empty(alloc: Global) -> Marks {
        Marks {
            stuck: Flags::empty(alloc),
            unfit: Flags::empty(alloc),
            unclear: Flags::empty(alloc),
            wrong: Flags::empty(alloc),
        }
    }
}

impl Picture {
    // Of nothing. Takes no memory.
    fn empty(alloc: Global) -> Picture {
        Picture {
            kept: KeptFacts::empty(alloc),
            known: Knowing {
                steps: Vec::new(alloc),
                wires: Flags::empty(alloc),
            },
            marks: Marks::empty(alloc),
        }
    }
}

fn add_crosses(kept: &mut Flags, facts: &Facts) -> Result<(), AllocError> {
    'crosses: for c in 0..facts.shape().crosses() {
        kept.push(facts.keeps_cross(Cross(c)))?;
    }
    Ok(())
}

fn add_wires(kept: &mut Flags, facts: &Facts) -> Result<(), AllocError> {
    'wires: for w in 0..facts.shape().wires() {
        kept.push(facts.keeps_wire(Wire(w)))?;
    }
    Ok(())
}

// With which wires of a lower number a wire is a kept pair.
fn add_pairs_with(kept: &mut Flags, facts: &Facts, wire: u32) -> Result<(), AllocError>
    requires { wire < wires_of facts.now.shape }
{
    'wires: for w in 0..wire {
        kept.push(facts.keeps_pair(Wire(wire), Wire(w)))?;
    }
    Ok(())
}

fn add_pairs(kept: &mut Flags, facts: &Facts) -> Result<(), AllocError> {
    'wires: for w in 0..facts.shape().wires() {
        add_pairs_with(kept, facts, w)?;
    }
    Ok(())
}

// Which cells of a table are kept.
fn add_cells_of(kept: &mut Flags, facts: &Facts, table: Table) -> Result<(), AllocError>
    requires { table.0 < tables_of facts.now.shape }
{
    'cells: for address in 0..64u8 {
        kept.push(facts.keeps_cell(table, address))?;
    }
    Ok(())
}

fn add_cells(kept: &mut Flags, facts: &Facts) -> Result<(), AllocError> {
    'tables: for t in 0..facts.shape().tables() {
        add_cells_of(kept, facts, Table(t))?;
    }
    Ok(())
}

fn add_registers(kept: &mut Flags, facts: &Facts) -> Result<(), AllocError> {
    'tables: for t in 0..facts.shape().tables() {
        kept.push(facts.keeps_register(Table(t)))?;
    }
    Ok(())
}

fn add_kept(kept: &mut KeptFacts, facts: &Facts) -> Result<(), AllocError> {
    add_crosses(&mut kept.crosses, facts)?;
    add_wires(&mut kept.wires, facts)?;
    add_pairs(&mut kept.pairs, facts)?;
    add_cells(&mut kept.cells, facts)?;
    add_registers(&mut kept.registers, facts)
}

fn add_steps(steps: &mut Vec<VerifiedWire>, known: &Known) -> Result<(), AllocError> {
    'steps: for place in 0..known.len() {
        steps.push(known.step_at(place))?;
    }
    Ok(())
}

fn add_known(wires: &mut Flags, known: &Known) -> Result<(), AllocError> {
    'wires: for w in 0..known.shape().wires() {
        wires.push(known.has(Wire(w)))?;
    }
    Ok(())
}

fn add_marks(marks: &mut Marks, bad: &DefectMarks) -> Result<(), AllocError> {
    marks.stuck.add_set(&bad.stuck)?;
    marks.unfit.add_set(&bad.unfit)?;
    marks.unclear.add_set(&bad.unclear)?;
    marks.wrong.add_set(&bad.wrong)
}

fn fill(picture: &mut Picture, stage: &Knowledge) -> Result<(), AllocError> {
    add_kept(&mut picture.kept, &stage.facts)?;
    add_steps(&mut picture.known.steps, &stage.verified)?;
    add_known(&mut picture.known.wires, &stage.verified)?;
    add_marks(&mut picture.marks, &stage.marks)
}

/// What is kept, known and marked now.
pub fn picture_of(alloc: Global, stage: &Knowledge) -> Result<Picture, AllocError> {
    let mut picture = Picture::empty(alloc);
    match fill(&mut picture, stage) {
        Ok(()) => Ok(picture),
        Err(e) => Err(e),
    }
}
