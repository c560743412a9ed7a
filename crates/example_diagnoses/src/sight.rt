//! What is wrong and what is free of each wire, crosspoint and table, by number.
ghost use Rattle.std.specs.Prelude.{◌<◌};
ghost use Rattle.machine_shape.specs.Shape.{tables_of};

use crate::flags::{Flags, Parts};
use crate::shorts::groups_of;
use machine_defects::Defects;
use machine_faults::FaultSet;
use machine_shape::{Cross, Meaning, Node, Shape, Table, Wire};
use std::alloc::{AllocError, Global};

/// A wire. Those that are shorted have one group; it is clear where none of them is stuck.
#[derive(Clone, Copy)]
pub struct WireSeen {
    pub number: u32,
    pub meaning: Meaning,
    pub node: Node,
    pub group: u32,
    pub free: bool,
    pub clear: bool,
}

/// A crosspoint, by its tap and its line.
#[derive(Clone, Copy)]
pub struct CrossSeen {
    pub ends: (u32, u32),
    pub free: bool,
    pub stuck: bool,
}

/// A table, by its seven pins, the output last. It is right where none of its cells is wrong and its register isn't stuck.
#[derive(Clone, Copy)]
pub struct TableSeen {
    pub pins: [u32; 7],
    pub right: bool,
    pub free: bool,
}

/// All of a machine.
#[derive(Drop)]
pub struct Sight {
    pub wires: Vec<WireSeen>,
    pub crosses: Vec<CrossSeen>,
    pub tables: Vec<TableSeen>,
}

// Marks the groups of shorted wires of which one is stuck.
fn mark_stuck(stuck: &mut Flags, faults: &FaultSet, groups: &[u32]) {
    'wires: for w in 0..faults.shape().wires() {
        if faults.stuck(Wire(w)).is_some() {
            stuck.mark(groups.get(w as usize).copied().unwrap_or(w));
        }
    }
}

// The wires of these groups.
fn add_wires(
    wires: &mut Vec<WireSeen>,
    shape: &Shape,
    groups: &[u32],
    stuck: &Flags,
    free: &Flags,
) -> Result<(), AllocError> {
    'wires: for w in 0..shape.wires() {
        let group = groups.get(w as usize).copied().unwrap_or(w);
        wires.push(WireSeen {
            number: w,
            meaning: shape.meaning(Wire(w)),
            node: shape.node_of(Wire(w)),
            group,
            free: free.has(w),
            clear: !stuck.has(group),
        })?;
    }
    Ok(())
}

fn add_grouped(
    alloc: Global,
    wires: &mut Vec<WireSeen>,
    faults: &FaultSet,
    free: &Flags,
) -> Result<(), AllocError> {
    let shape = faults.shape();
    let groups = groups_of(alloc, faults)?;
    let mut stuck = Flags::none(alloc, shape.wires())?;
    mark_stuck(&mut stuck, faults, &groups);
    add_wires(wires, &shape, &groups, &stuck, free)
}

fn add_crosses(
    crosses: &mut Vec<CrossSeen>,
    faults: &FaultSet,
    free: &Flags,
) -> Result<(), AllocError> {
    let shape = faults.shape();
    'crosses: for c in 0..shape.crosses() {
        let (tap, line) = shape.ends(Cross(c));
        crosses.push(CrossSeen {
            ends: (tap.0, line.0),
            free: free.has(c),
            stuck: faults.cross_stuck(Cross(c)).is_some(),
        })?;
    }
    Ok(())
}

// Whether no cell of a table is wrong, and its register isn't stuck.
fn is_right(faults: &FaultSet, t: Table) -> bool
    requires { t.0 < tables_of faults.now.shape }
{
    'cells: for address in 0..64u8 {
        if faults.cell(t, address).is_some() {
            return false;
        }
    }
    faults.register(t).is_none()
}

// The seven pins of a table.
fn pins_of(shape: &Shape, t: Table) -> [u32; 7]
    requires { t.0 < tables_of shape.now }
{
    [
        shape.pin_of(t, 0).0,
        shape.pin_of(t, 1).0,
        shape.pin_of(t, 2).0,
        shape.pin_of(t, 3).0,
        shape.pin_of(t, 4).0,
        shape.pin_of(t, 5).0,
        shape.pin_of(t, 6).0,
    ]
}

fn add_tables(
    tables: &mut Vec<TableSeen>,
    faults: &FaultSet,
    free: &Flags,
) -> Result<(), AllocError> {
    let shape = faults.shape();
    'tables: for t in 0..shape.tables() {
        tables.push(TableSeen {
            pins: pins_of(&shape, Table(t)),
            right: is_right(faults, Table(t)),
            free: free.has(t),
        })?;
    }
    Ok(())
}

fn fill(
    alloc: Global,
    sight: &mut Sight,
    faults: &FaultSet,
    free: &Parts,
) -> Result<(), AllocError> {
    add_grouped(alloc, &mut sight.wires, faults, &free.wires)?;
    add_crosses(&mut sight.crosses, faults, &free.crosses)?;
    add_tables(&mut sight.tables, faults, &free.tables)
}

/// What these faults say of a machine of which so much is free.
pub fn sight_of(alloc: Global, faults: &FaultSet, free: &Parts) -> Result<Sight, AllocError> {
    let mut sight = Sight {
        wires: Vec::new(alloc),
        crosses: Vec::new(alloc),
        tables: Vec::new(alloc),
    };
    match fill(alloc, &mut sight, faults, free) {
        Ok(()) => Ok(sight),
        Err(e) => Err(e),
    }
}

fn add_free_wires(free: &mut Flags, list: &Defects) -> Result<(), AllocError> {
    'wires: for w in 0..list.shape().wires() {
        free.push(list.free_wire(Wire(w)))?;
    }
    Ok(())
}

fn add_free_crosses(free: &mut Flags, list: &Defects) -> Result<(), AllocError> {
    'crosses: for c in 0..list.shape().crosses() {
        free.push(list.free_cross(Cross(c)))?;
    }
    Ok(())
}

fn add_free_tables(free: &mut Flags, list: &Defects) -> Result<(), AllocError> {
    'tables: for t in 0..list.shape().tables() {
        free.push(list.free_table(Table(t)))?;
    }
    Ok(())
}

fn add_free(free: &mut Parts, list: &Defects) -> Result<(), AllocError> {
    add_free_wires(&mut free.wires, list)?;
    add_free_crosses(&mut free.crosses, list)?;
    add_free_tables(&mut free.tables, list)
}

/// What a list leaves free.
pub fn free_by_list(alloc: Global, list: &Defects) -> Result<Parts, AllocError> {
    let mut free = Parts::empty(alloc);
    match add_free(&mut free, list) {
        Ok(()) => Ok(free),
        Err(e) => Err(e),
    }
}

impl WireSeen {
    /// Whether it is a pin of the machine.
    pub fn is_pin(&self) -> bool {
        matches!(self.meaning, Meaning::Pin { .. })
    }
}

impl Sight {
    /// Whether a wire is free.
    pub fn has_free(&self, w: u32) -> bool {
        match self.wires.get(w as usize) {
            Some(wire) => wire.free,
            None => false,
        }
    }

    /// Whether a wire is shorted to one of these, itself among them.
    pub fn is_shorted_to(&self, wire: &WireSeen, wires: &Flags) -> bool {
        'wires: for u in self.wires.iter() {
            if u.group == wire.group && wires.has(u.number) {
                return true;
            }
        }
        false
    }

    /// To how many free wires a wire is shorted, itself among them.
    pub fn free_with(&self, wire: &WireSeen) -> u32 {
        let mut count = 0u32;
        'wires: for u in self.wires.iter() {
            if u.group == wire.group && u.free {
                count = count.saturating_add(1);
            }
        }
        count
    }
}

/// All of these hold.
///
/// # Errors
///
/// What is wrong where the first of them doesn't.
pub fn all_hold(these: &[(bool, &'static str)]) -> Result<(), &'static str> {
    for (holds, wrong) in these {
        if !*holds {
            return Err(*wrong);
        }
    }
    Ok(())
}
