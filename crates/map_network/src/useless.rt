//! A network without the tables that lead to no output.

ghost use Rattle.std.specs.Prelude.{◌≡◌, ◌<◌, ℕ, true, false, length, replicate, slice_set, IfOk, OnOk};
ghost use Rattle.map_network.specs.declared.source.Source.TheVariants.{Table};
ghost use Rattle.map_network.specs.Networks.{IsNetwork};
ghost use Rattle.map_network.specs.Joining.{in_tables};
ghost use Rattle.map_network.specs.Compacting.{is_dropped};
ghost use Rattle.map_network.specs.Leading.{AreUseless};
ghost use Rattle.map_network.specs.Pruning.{AreUsed, IsFollowing, IsPruned, IsUsed};

use crate::compact::compacted;
use crate::network::{NetTable, Network};
use crate::source::Source;
use crate::work::is_marked;
use std::alloc::{AllocError, Global};

fn take_mark(marks: &mut Vec<bool>, table: u32)
    ensures { marks.new.items ≡ slice_set marks.old.items table false }
{
    if (table as usize) < marks.len() {
        marks[table as usize] = false;
    }
}

/// Takes the mark of a table that is used. What it reads is used too, so the table waits.
fn use_table(marks: &mut Vec<bool>, queue: &mut Vec<u32>, table: u32) -> Result<(), AllocError>
    ensures { OnOk result (IsUsed (Table table) marks.old.items queue.old.items marks.new.items queue.new.items) }
{
    if !is_marked(marks, table) {
        return Ok(());
    }
    queue.push(table)?;
    take_mark(marks, table);
    Ok(())
}

fn use_source(marks: &mut Vec<bool>, queue: &mut Vec<u32>, source: Source) -> Result<(), AllocError>
    ensures { OnOk result (IsUsed source marks.old.items queue.old.items marks.new.items queue.new.items) }
{
    match source {
        Source::Input(_) => Ok(()),
        Source::Table(table) => use_table(marks, queue, table),
    }
}

fn use_all(
    marks: &mut Vec<bool>,
    queue: &mut Vec<u32>,
    sources: &[Source],
) -> Result<(), AllocError>
    ensures { OnOk result (AreUsed sources.now (length sources.now) marks.old.items queue.old.items marks.new.items queue.new.items) }
{
    'sources: for k in 0..sources.len() {
        use_source(marks, queue, sources[k])?;
    }
    Ok(())
}

/// What the table reads is used.
fn use_ins(
    marks: &mut Vec<bool>,
    queue: &mut Vec<u32>,
    tables: &[NetTable],
    table: u32,
) -> Result<(), AllocError>
    ensures { OnOk result (AreUsed (in_tables tables.now table).ins (length (in_tables tables.now table).ins)
        marks.old.items queue.old.items marks.new.items queue.new.items) }
{
    match tables.get(table as usize) {
        Some(used) => use_all(marks, queue, used.ins.as_slice()),
        None => Ok(()),
    }
}

/// What the tables read that wait is used, and waits, until none does.
fn follow(marks: &mut Vec<bool>, queue: &mut Vec<u32>, network: &Network) -> Result<(), AllocError>
    requires { IsFollowing network.now marks.old.items queue.old.items }
    ensures { OnOk result (AreUseless network.now marks.new.items) }
{
    'tables: while let Some(table) = queue.pop() {
        use_ins(marks, queue, network.tables.as_slice(), table)?;
    }
    Ok(())
}

/// A mark for each table.
fn all_marked(alloc: Global, network: &Network) -> Result<Vec<bool>, AllocError>
    ensures { IfOk result (λ marks. marks.items ≡ replicate (length network.now.tables) true) }
{
    let marks = vec![in alloc; true; network.tables.as_slice().len()]?;
    Ok(marks)
}

/// Marks the tables, latched ones too, that no way leads to from an output. Each table waits once at most.
fn useless_tables(alloc: Global, network: &Network) -> Result<Vec<bool>, AllocError>
    ensures { IfOk result (λ marks. AreUseless network.now marks.items) }
{
    let mut marks = all_marked(alloc, network)?;
    let mut queue = Vec::with_capacity(alloc, marks.len())?;
    use_all(&mut marks, &mut queue, network.outputs.as_slice())?;
    follow(&mut marks, &mut queue, network)?;
    Ok(marks)
}

/// Whether there is a mark.
pub fn is_some_marked(marks: &[bool]) -> bool
    ensures some { result ≡ true → (j : ℕ) × (j < length marks.now) × (is_dropped marks.now j ≡ true) }
    ensures none { result ≡ false → (j : ℕ) → j < length marks.now → is_dropped marks.now j ≡ false }
{
    'marks: for j in 0..marks.len() {
        if marks[j] {
            return true;
        }
    }
    false
}

/// The network without the tables that lead to no output.
pub fn without_useless(alloc: Global, network: Network) -> Result<Network, AllocError>
    requires { IsNetwork network }
    ensures { IfOk result (IsPruned network) }
{
    let marks = useless_tables(alloc, &network)?;
    if !is_some_marked(&marks) {
        return Ok(network);
    }
    let smaller = compacted(alloc, &network, &marks)?;
    Ok(smaller)
}
