//! An order of tables in which each comes after what it reads, by levels.

use map_network::{NetTable, Network, Source};
use std::alloc::{AllocError, Global};

/// For each table which combinational ones read it, and how many of the combinational tables that it reads don't stand in the order yet.
#[derive(Drop)]
struct Waiting {
    readers: Vec<Vec<u32>>,
    waits: Vec<u32>,
}

fn is_combinational(tables: &[NetTable], table: u32) -> bool {
    match tables.get(table as usize) {
        Some(found) => !found.latched,
        None => false,
    }
}

fn none_waits(alloc: Global, count: usize) -> Result<Waiting, AllocError> {
    let mut readers = Vec::with_capacity(alloc, count)?;
    'tables: for _ in 0..count {
        readers.push(Vec::new(alloc))?;
    }
    let waits = vec![in alloc; 0; count]?;
    Ok(Waiting { readers, waits })
}

// The reader, a combinational table, waits for what this pin reads, if that is one too.
fn wait_for(
    waiting: &mut Waiting,
    tables: &[NetTable],
    reader: u32,
    source: Source,
) -> Result<(), AllocError> {
    if let Source::Table(table) = source {
        if is_combinational(tables, table)
            && (table as usize) < waiting.readers.len()
            && (reader as usize) < waiting.waits.len()
        {
            waiting.readers[table as usize].push(reader)?;
            waiting.waits[reader as usize] = waiting.waits[reader as usize].saturating_add(1);
        }
    }
    Ok(())
}

fn wait_for_all(
    waiting: &mut Waiting,
    tables: &[NetTable],
    reader: u32,
    ins: &[Source],
) -> Result<(), AllocError> {
    'ins: for k in 0..ins.len() {
        wait_for(waiting, tables, reader, ins[k])?;
    }
    Ok(())
}

// What each table waits for.
fn waiting_in(alloc: Global, tables: &[NetTable]) -> Result<Waiting, AllocError> {
    let mut waiting = none_waits(alloc, tables.len())?;
    let mut reader = 0;
    'tables: for table in tables {
        if !table.latched {
            wait_for_all(&mut waiting, tables, reader, table.ins.as_slice())?;
        }
        reader = reader.saturating_add(1);
    }
    Ok(waiting)
}

// The combinational tables that wait for nothing.
fn first_tables(alloc: Global, waits: &[u32], tables: &[NetTable]) -> Result<Vec<u32>, AllocError> {
    let mut order = Vec::with_capacity(alloc, tables.len())?;
    let mut table = 0;
    'tables: for wait in waits {
        if *wait == 0 && is_combinational(tables, table) {
            order.push(table)?;
        }
        table = table.saturating_add(1);
    }
    Ok(order)
}

// A reader waits for one table less. If it waits for none, it comes next.
fn wait_less(waits: &mut Vec<u32>, order: &mut Vec<u32>, reader: u32) -> Result<(), AllocError> {
    if reader as usize >= waits.len() {
        return Ok(());
    }
    let wait = waits[reader as usize].saturating_sub(1);
    waits[reader as usize] = wait;
    if wait == 0 {
        order.push(reader)?;
    }
    Ok(())
}

// The readers of a table that stands in the order wait for it no more.
fn let_go(waits: &mut Vec<u32>, order: &mut Vec<u32>, readers: &[u32]) -> Result<(), AllocError> {
    'readers: for k in 0..readers.len() {
        wait_less(waits, order, readers[k])?;
    }
    Ok(())
}

fn push_latched(order: &mut Vec<u32>, tables: &[NetTable]) -> Result<(), AllocError> {
    let mut number = 0;
    'tables: for table in tables {
        if table.latched {
            order.push(number)?;
        }
        number = number.saturating_add(1);
    }
    Ok(())
}

/// The tables by levels, and then the latched ones. On a cycle some are left out.
pub fn by_levels(alloc: Global, network: &Network) -> Result<Vec<u32>, AllocError> {
    let tables = network.tables.as_slice();
    let waiting = waiting_in(alloc, tables)?;
    let mut order = first_tables(alloc, &waiting.waits, tables)?;
    let Waiting { readers, mut waits } = waiting;
    'tables: for k in 0..tables.len() {
        if k >= order.len() {
            break;
        }
        let table = order[k] as usize;
        if table < readers.len() {
            let_go(&mut waits, &mut order, &readers[table])?;
        }
    }
    push_latched(&mut order, tables)?;
    Ok(order)
}
