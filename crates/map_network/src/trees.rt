//! Trees of tables.

ghost use Rattle.std.specs.Prelude.{◌≡◌, ◌<◌, ◌≤◌, ◌+◌, ◌++◌, ◌∷◌, [], false, length, map, OnOk};
ghost use Rattle.map_network.specs.Plain.{gate_table, sixes, want_table, wants_from, tree};
ghost use Rattle.map_network.specs.Sizes.{tree_size};

use crate::cells::gate_cells;
use crate::network::NetTable;
use crate::source::{Source, Sources};
use crate::want::{Gate, Want};
use design_netlist::Lit;
use std::alloc::{AllocError, Global};

fn sources_of(alloc: Global, wants: &[Want]) -> Sources
    requires { length wants.now ≤ 6 }
    ensures { result ≡ map (λ w. w.source) wants.now }
{
    let mut ins = Sources::new(alloc);
    'wants: for k in 0..wants.len() {
        ins.push(wants[k].source);
    }
    ins
}

/// Adds a table over at most six wants.
fn push_gate(
    alloc: Global,
    tables: &mut Vec<NetTable>,
    gate: Gate,
    off: bool,
    wants: &[Want],
) -> Result<(), AllocError>
    requires { length wants.now ≤ 6 }
    ensures { OnOk result (tables.new.items ≡ tables.old.items ++ gate_table gate off wants.now ∷ []) }
{
    tables.push(NetTable {
        ins: sources_of(alloc, wants),
        cells: gate_cells(gate, off, wants),
        latched: false,
        init: false,
    })?;
    Ok(())
}

/// Adds a table for each group of six wants.
fn push_groups(
    alloc: Global,
    tables: &mut Vec<NetTable>,
    gate: Gate,
    wants: &[Want],
) -> Result<(), AllocError>
    ensures { OnOk result (tables.new.items ≡ tables.old.items ++ map (gate_table gate false) (sixes wants.now)) }
{
    let count = (wants.len() + 5) / 6;
    'groups: for k in 0..count {
        let from = 6 * k;
        let to = wants.len().min(from + 6);
        push_gate(alloc, tables, gate, false, &wants[from..to])?;
    }
    Ok(())
}

/// The table is wanted at 1.
pub fn want_table(table: usize) -> Want
    requires { table < 4294967296 }
    ensures { result ≡ want_table table }
{
    Want {
        source: Source::Table(table as u32),
        lit: Lit::One,
    }
}

/// Makes the wants those of so many tables from the first on.
fn want_tables(wants: &mut Vec<Want>, first: usize, count: usize) -> Result<(), AllocError>
    requires { first + count < 4294967296 }
    ensures { OnOk result (wants.new.items ≡ wants_from first count) }
{
    wants.clear();
    'tables: for k in 0..count {
        wants.push(want_table(first + k))?;
    }
    Ok(())
}

/// Adds a tree over the wants, which are lost.
pub fn push_tree(
    alloc: Global,
    tables: &mut Vec<NetTable>,
    wants: &mut Vec<Want>,
    gate: Gate,
    off: bool,
) -> Result<(), AllocError>
    requires { length tables.old.items + tree_size (length wants.old.items) < 4294967296 }
    ensures { OnOk result (tables.new.items ≡ tables.old.items ++ tree gate off (length tables.old.items) wants.old.items) }
{
    'levels: while wants.len() > 6 {
        let first = tables.len();
        push_groups(alloc, tables, gate, wants)?;
        let count = tables.len() - first;
        want_tables(wants, first, count)?;
    }
    push_gate(alloc, tables, gate, off, wants)?;
    Ok(())
}
