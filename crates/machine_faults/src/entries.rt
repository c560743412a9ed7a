//! The entries of a fault set, by their numbers.

ghost use Rattle.std.specs.Prelude.{◌≡◌, false, OnOk, OnErr, None};
ghost use Rattle.std.specs.FinMap as maps;
ghost use Rattle.std.specs.FinSet as set;
ghost use Rattle.std.specs.Ordering.{nat_cmp};
ghost use Rattle.machine_meaning.specs.Faults.{pair_cmp};
ghost use Rattle.machine_faults.specs.Adding.{no_faults, with_fault, value_at, lower_first, count_of, refusal_of, is_loop, value_of};
ghost use Rattle.machine_faults.specs.Stored.{faults_in, Lists};

use crate::fault::{AddFault, Fault};
use machine_shape::{Shape, Wire};
use std::alloc::{AllocError, Global};
use std::collections::{BTreeMap, BTreeSet};

/// The entries of a fault set.
#[derive(Debug, Drop)]
pub struct Entries {
    /// The value at which a wire is stuck.
    pub wires: BTreeMap<u32, bool>,
    /// Whether a stuck crosspoint is closed.
    pub crosses: BTreeMap<u32, bool>,
    /// What a wrong cell gives, by table and address.
    pub cells: BTreeMap<(u32, u8), bool>,
    /// What a stuck register holds, by table.
    pub registers: BTreeMap<u32, bool>,
    /// The bridges, the lower wire first.
    pub pairs: BTreeSet<(u32, u32)>,
    /// The bridges, in the order in which they came.
    pub bridges: Vec<(Wire, Wire)>,
}

/// No entries.
pub fn no_entries(alloc: Global) -> Entries
    ensures faults { faults_in result ≡ no_faults }
    ensures listed { Lists result.bridges.items (faults_in result).bridges }
{
    Entries {
        wires: BTreeMap::new(alloc),
        crosses: BTreeMap::new(alloc),
        cells: BTreeMap::new(alloc),
        registers: BTreeMap::new(alloc),
        pairs: BTreeSet::new(alloc),
        bridges: Vec::new(alloc),
    }
}

/// Sets the value of a number.
fn put_value(values: &mut BTreeMap<u32, bool>, key: u32, value: bool) -> Result<(), AllocError>
    ensures ok { OnOk result (maps.from_entries {R = nat_cmp} values.new.entries ≡ maps.insert
        (maps.from_entries values.old.entries) key value) }
    ensures err { OnErr result (values.new.entries ≡ values.old.entries) }
{
    values.insert(key, value)?;
    Ok(())
}

/// Sets the value of a cell.
fn put_cell(
    cells: &mut BTreeMap<(u32, u8), bool>,
    table: u32,
    address: u8,
    value: bool,
) -> Result<(), AllocError>
    ensures ok { OnOk result (maps.from_entries {R = pair_cmp} cells.new.entries ≡ maps.insert (maps.from_entries cells.old.entries)
        (table, address) value) }
    ensures err { OnErr result (cells.new.entries ≡ cells.old.entries) }
{
    cells.insert((table, address), value)?;
    Ok(())
}

/// Adds a pair to a set.
fn put_pair(pairs: &mut BTreeSet<(u32, u32)>, low: u32, high: u32) -> Result<(), AllocError>
    ensures ok { OnOk result (set.from_list {R = pair_cmp} pairs.new.keys ≡ set.insert (set.from_list pairs.old.keys) (low, high)) }
    ensures err { OnErr result (pairs.new.keys ≡ pairs.old.keys) }
{
    pairs.insert((low, high))?;
    Ok(())
}

/// Adds a bridge that isn't there, to the set and to the list. Where memory is lacking, both are as they were.
fn put_bridge(
    pairs: &mut BTreeSet<(u32, u32)>,
    bridges: &mut Vec<(Wire, Wire)>,
    low: u32,
    high: u32,
) -> Result<(), AllocError>
    requires listed { Lists bridges.old.items (set.from_list pairs.old.keys) }
    requires new { set.contains (set.from_list {R = pair_cmp} pairs.old.keys) (low, high) ≡ false }
    ensures ok { OnOk result (set.from_list {R = pair_cmp} pairs.new.keys ≡ set.insert (set.from_list pairs.old.keys) (low, high)) }
    ensures listed { Lists bridges.new.items (set.from_list pairs.new.keys) }
    ensures err { OnErr result (pairs.new.keys ≡ pairs.old.keys) }
{
    bridges.push((Wire(low), Wire(high)))?;
    match put_pair(pairs, low, high) {
        Ok(()) => Ok(()),
        Err(e) => {
            bridges.pop();
            Err(e)
        }
    }
}

/// The value of a number.
pub fn value_in(values: &BTreeMap<u32, bool>, key: u32) -> Option<bool>
    ensures { result ≡ maps.get (maps.from_entries {R = nat_cmp} values.now.entries) key }
{
    values.get(&key).copied()
}

/// The value of a cell.
pub fn cell_in(cells: &BTreeMap<(u32, u8), bool>, table: u32, address: u8) -> Option<bool>
    ensures { result ≡ maps.get (maps.from_entries {R = pair_cmp} cells.now.entries) (table, address) }
{
    cells.get(&(table, address)).copied()
}

/// Whether a pair is in a set.
fn is_in(pairs: &BTreeSet<(u32, u32)>, low: u32, high: u32) -> bool
    ensures { result ≡ set.contains (set.from_list {R = pair_cmp} pairs.now.keys) (low, high) }
{
    pairs.contains(&(low, high))
}

/// Two wires, the lower one first.
fn lower_first(a: u32, b: u32) -> (u32, u32)
    ensures { result ≡ lower_first a b }
{
    if b < a { (b, a) } else { (a, b) }
}

/// The value at the place of a fault.
fn value_at(entries: &Entries, f: Fault) -> Option<bool>
    ensures { result ≡ value_at (faults_in entries.now) f }
{
    match f {
        Fault::Stuck { wire, .. } => value_in(&entries.wires, wire.0),
        Fault::CrossStuck { cross, .. } => value_in(&entries.crosses, cross.0),
        Fault::Cell { table, address, .. } => cell_in(&entries.cells, table.0, address),
        Fault::Register { table, .. } => value_in(&entries.registers, table.0),
        Fault::Bridge { a, b } => {
            let (low, high) = lower_first(a.0, b.0);
            if is_in(&entries.pairs, low, high) {
                Some(true)
            } else {
                None
            }
        }
    }
}

/// The value that a fault has at its place; of a bridge, that it is there.
fn value_of(f: Fault) -> bool
    ensures { result ≡ value_of f }
{
    match f {
        Fault::Stuck { value, .. } => value,
        Fault::CrossStuck { closed, .. } => closed,
        Fault::Cell { value, .. } => value,
        Fault::Register { value, .. } => value,
        Fault::Bridge { .. } => true,
    }
}

/// Whether it is a bridge of a wire with itself.
fn is_loop(f: Fault) -> bool
    ensures { result ≡ is_loop f }
{
    match f {
        Fault::Bridge { a, b } => a.0 == b.0,
        _ => false,
    }
}

/// What comes first against adding a fault of a machine to so many.
pub fn refusal_of(shape: &Shape, entries: &Entries, count: u32, f: Fault) -> Option<AddFault>
    requires { count ≡ count_of (faults_in entries.now) }
    ensures { result ≡ refusal_of shape.now (faults_in entries.now) f }
{
    if is_loop(f) {
        return Some(AddFault::Same);
    }
    match value_at(entries, f) {
        Some(there) => {
            if there == value_of(f) {
                Some(AddFault::Doubled)
            } else {
                Some(AddFault::Against)
            }
        }
        None => {
            if count < shape.most_faults() {
                None
            } else {
                Some(AddFault::Limit)
            }
        }
    }
}

/// Adds a fault whose place is free. Where memory is lacking, the entries are as they were.
pub fn put(entries: &mut Entries, f: Fault) -> Result<(), AllocError>
    requires listed { Lists entries.old.bridges.items (faults_in entries.old).bridges }
    requires free { value_at (faults_in entries.old) f ≡ None }
    ensures ok { OnOk result (faults_in entries.new ≡ with_fault (faults_in entries.old) f) }
    ensures listed { Lists entries.new.bridges.items (faults_in entries.new).bridges }
    ensures err { OnErr result (faults_in entries.new ≡ faults_in entries.old) }
{
    match f {
        Fault::Stuck { wire, value } => put_value(&mut entries.wires, wire.0, value),
        Fault::CrossStuck { cross, closed } => put_value(&mut entries.crosses, cross.0, closed),
        Fault::Cell {
            table,
            address,
            value,
        } => put_cell(&mut entries.cells, table.0, address, value),
        Fault::Register { table, value } => put_value(&mut entries.registers, table.0, value),
        Fault::Bridge { a, b } => {
            let (low, high) = lower_first(a.0, b.0);
            put_bridge(&mut entries.pairs, &mut entries.bridges, low, high)
        }
    }
}
