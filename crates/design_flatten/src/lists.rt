//! The lists of a netlist, from the lines of the substituted design.

ghost use Rattle.std.specs.Prelude.{◌≡◌, IfOk, OnOk, map};
ghost use Rattle.design_flatten.specs.Placed.{placed_line};
ghost use Rattle.design_flatten.specs.Lists.{Adds, AreLists};
ghost use Rattle.design_flatten.specs.Signals.{signal_number};

use crate::model::Signal;
use crate::placed::{Placed, PlacedPart};
use crate::signals::Signals;
use base_lists::Items;
use design_netlist::{Cover, Cube, LatchDef, PortDef};
use std::alloc::{AllocError, Global};

/// The ports, covers and latches so far, with signals by their numbers.
#[derive(Drop)]
pub struct Lists {
    pub inputs: Vec<PortDef>,
    pub outputs: Vec<PortDef>,
    pub covers: Vec<Cover>,
    pub latches: Vec<LatchDef>,
}

fn numbers(alloc: Global, signals: &Signals, words: &[Signal]) -> Result<Vec<u32>, AllocError>
    ensures { IfOk result (λ v. v.items ≡ map (signal_number signals.now) words.now) }
{
    let mut found = Vec::new(alloc);
    'words: for word in words {
        found.push(signals.number(*word))?;
    }
    Ok(found)
}

fn copied_rows(alloc: Global, rows: &[Cube]) -> Result<Vec<Cube>, AllocError>
    ensures { IfOk result (λ v. v.items ≡ rows.now) }
{
    let mut copied = Vec::new(alloc);
    'rows: for row in rows {
        copied.push(Items::new(Vec::from_slice(alloc, row.as_slice())?))?;
    }
    Ok(copied)
}

/// Adds what a line says.
fn add(
    alloc: Global,
    lists: &mut Lists,
    signals: &Signals,
    placed: &Placed<'_>,
) -> Result<(), AllocError>
    ensures { OnOk result (Adds signals.now (placed_line placed.now) lists.old lists.new) }
{
    match &placed.part {
        PlacedPart::Input(signal) => {
            lists.inputs.push(PortDef {
                signal: signals.number(*signal),
                line: placed.number,
            })?;
        }
        PlacedPart::Output(signal) => {
            lists.outputs.push(PortDef {
                signal: signals.number(*signal),
                line: placed.number,
            })?;
        }
        PlacedPart::Cover { out, ins, cover } => {
            let ins = numbers(alloc, signals, ins.as_slice())?;
            let rows = copied_rows(alloc, cover.rows.as_slice())?;
            lists.covers.push(Cover {
                out: signals.number(*out),
                ins: Items::new(ins),
                rows: Items::new(rows),
                off: cover.off,
                line: placed.number,
            })?;
        }
        PlacedPart::Latch {
            from,
            out,
            init,
            control: _,
        } => {
            lists.latches.push(LatchDef {
                from: signals.number(*from),
                out: signals.number(*out),
                init: *init,
                line: placed.number,
            })?;
        }
    }
    Ok(())
}

/// The lists of these lines.
pub fn lists_of(
    alloc: Global,
    signals: &Signals,
    placed: &[Placed<'_>],
) -> Result<Lists, AllocError>
    ensures { IfOk result (AreLists signals.now (map placed_line placed.now)) }
{
    let mut lists = Lists {
        inputs: Vec::new(alloc),
        outputs: Vec::new(alloc),
        covers: Vec::new(alloc),
        latches: Vec::new(alloc),
    };
    'placed: for line in placed {
        add(alloc, &mut lists, signals, line)?;
    }
    Ok(lists)
}
