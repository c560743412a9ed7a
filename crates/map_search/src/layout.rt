//! Wires and tables of a design that is being made.

use crate::cuts::{Cut, NO_CUT};
use crate::numbers::small;
use std::alloc::{AllocError, Global};

/// No wire.
pub const NOWHERE: u32 = u32::MAX;

/// A signal of the new design: its label, and the signal of the old one whose name it keeps, if it keeps one.
#[derive(Clone, Copy, Debug)]
pub struct Wire {
    pub label: u32,
    pub kept: Option<u32>,
}

/// A table: the wire that it drives, those that it reads, as the leaves of a cut, and its cells.
#[derive(Clone, Copy, Debug)]
pub struct Table {
    pub out: u32,
    pub ins: Cut,
    pub cells: u64,
}

/// A latch: the wires that it reads and drives.
#[derive(Clone, Copy, Debug)]
pub struct Register {
    pub from: u32,
    pub out: u32,
    pub init: bool,
}

/// The new design.
#[derive(Drop)]
pub struct Layout {
    pub wires: Vec<Wire>,
    pub inputs: Vec<u32>,
    pub outputs: Vec<u32>,
    pub tables: Vec<Table>,
    pub registers: Vec<Register>,
}

impl Layout {
    /// No wires.
    pub fn new(alloc: Global) -> Layout {
        Layout {
            wires: Vec::new(alloc),
            inputs: Vec::new(alloc),
            outputs: Vec::new(alloc),
            tables: Vec::new(alloc),
            registers: Vec::new(alloc),
        }
    }

    /// Adds a wire.
    pub fn add_wire(&mut self, label: u32, kept: Option<u32>) -> Result<u32, AllocError> {
        let number = small(self.wires.len());
        self.wires.push(Wire { label, kept })?;
        Ok(number)
    }

    /// Adds a table that reads these wires.
    pub fn add_table(&mut self, out: u32, ins: Cut) -> Result<(), AllocError> {
        self.tables.push(Table { out, ins, cells: 0 })?;
        Ok(())
    }

    /// The wire of a number, one without a name where there is none.
    pub fn wire(&self, wire: u32) -> Wire {
        let none = Wire {
            label: 0,
            kept: None,
        };
        self.wires.get(wire as usize).copied().unwrap_or(none)
    }

    /// The label of a wire.
    pub fn label(&self, wire: u32) -> u32 {
        match self.wires.get(wire as usize) {
            Some(wire) => wire.label,
            None => 0,
        }
    }
}

// The place of the first leaf of a cut that isn't less.
fn place_in(cut: &Cut, leaf: u32) -> usize {
    let mut place = 0usize;
    'leaves: for other in &cut.leaves {
        if *other < leaf {
            place = place.saturating_add(1);
        }
    }
    place
}

/// A cut with one more leaf, in order, unless it has that or has no room.
pub fn with_leaf(cut: &Cut, leaf: u32) -> Cut {
    let place = place_in(cut, leaf);
    let mut other = NO_CUT;
    'leaves: for k in 0..6 {
        if k == place && cut.leaf(k) != leaf {
            let _ = other.add(leaf);
        }
        if k < cut.count {
            let _ = other.add(cut.leaf(k));
        }
    }
    other
}

/// A cut without a leaf.
pub fn without_leaf(cut: &Cut, leaf: u32) -> Cut {
    let mut other = NO_CUT;
    'leaves: for k in 0..cut.count {
        if cut.leaf(k) != leaf {
            let _ = other.add(cut.leaf(k));
        }
    }
    other
}
