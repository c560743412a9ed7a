//! Two networks as one.
ghost use Rattle.std.specs.Prelude.{◌≡◌, ◌<◌, ◌≤◌, ◌+◌, ◌++◌, All, IfOk, OnOk, length, map};
ghost use Rattle.map_network.specs.Networks.{IsNetwork};
ghost use Rattle.place_pair.specs.JointNetworks.{joint_network, moved, moved_table};
ghost use Rattle.place_pair.specs.Sites.{IsMovable};

use base_lists::Items;
use map_network::{NetTable, Network, Source, Sources};
use std::alloc::{AllocError, Global};

// A source behind so many inputs and tables.
fn moved(source: Source, inputs: u32, tables: u32) -> Source
    requires { IsMovable inputs tables source }
    ensures { result ≡ moved inputs tables source }
{
    match source {
        Source::Input(input) => Source::Input(inputs + input),
        Source::Table(table) => Source::Table(tables + table),
    }
}

fn moved_ins(alloc: Global, ins: &[Source], inputs: u32, tables: u32) -> Sources
    requires few { length ins.now ≤ 6 }
    requires movable { All (IsMovable inputs tables) ins.now }
    ensures { result ≡ map (moved inputs tables) ins.now }
{
    let mut sources = Sources::new(alloc);
    'ins: for k in 0..ins.len() {
        sources.push(moved(ins[k], inputs, tables));
    }
    sources
}

fn moved_table(alloc: Global, table: &NetTable, inputs: u32, tables: u32) -> NetTable
    requires { All (IsMovable inputs tables) table.now.ins }
    ensures { result ≡ moved_table inputs tables table.now }
{
    NetTable {
        ins: moved_ins(alloc, table.ins.as_slice(), inputs, tables),
        cells: table.cells,
        latched: table.latched,
        init: table.init,
    }
}

// Adds tables that stand behind so many inputs and tables.
fn push_tables(
    alloc: Global,
    tables: &mut Vec<NetTable>,
    from: &[NetTable],
    inputs: u32,
    before: u32,
) -> Result<(), AllocError>
    requires { All (λ t. All (IsMovable inputs before) t.ins) from.now }
    ensures { OnOk result (tables.new.items ≡ tables.old.items ++ map (moved_table inputs before) from.now) }
{
    'tables: for j in 0..from.len() {
        tables.push(moved_table(alloc, &from[j], inputs, before))?;
    }
    Ok(())
}

// Adds outputs of a network that stands behind so many inputs and tables.
fn push_outputs(
    outputs: &mut Vec<Source>,
    from: &[Source],
    inputs: u32,
    before: u32,
) -> Result<(), AllocError>
    requires { All (IsMovable inputs before) from.now }
    ensures { OnOk result (outputs.new.items ≡ outputs.old.items ++ map (moved inputs before) from.now) }
{
    'outputs: for k in 0..from.len() {
        outputs.push(moved(from[k], inputs, before))?;
    }
    Ok(())
}

/// Two networks as one: the first's inputs and then the second's, and so their tables and their outputs.
///
/// # Errors
///
/// Out of memory.
pub fn joint(alloc: Global, first: &Network, second: &Network) -> Result<Network, AllocError>
    requires first { IsNetwork first.now }
    requires second { IsNetwork second.now }
    requires inputs { first.now.inputs + second.now.inputs < 4294967296 }
    requires tables { length first.now.tables + length second.now.tables < 4294967296 }
    ensures joint { IfOk result (λ n. n ≡ joint_network first.now second.now) }
    ensures network { IfOk result IsNetwork }
{
    let before = first.tables.as_slice().len() as u32;
    let mut tables = Vec::new(alloc);
    push_tables(alloc, &mut tables, first.tables.as_slice(), 0, 0)?;
    push_tables(
        alloc,
        &mut tables,
        second.tables.as_slice(),
        first.inputs,
        before,
    )?;
    let mut outputs = Vec::new(alloc);
    push_outputs(&mut outputs, first.outputs.as_slice(), 0, 0)?;
    push_outputs(
        &mut outputs,
        second.outputs.as_slice(),
        first.inputs,
        before,
    )?;
    Ok(Network {
        inputs: first.inputs + second.inputs,
        tables: Items::new(tables),
        outputs: Items::new(outputs),
    })
}
