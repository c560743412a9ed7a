//! The cells of tables, from the graph.

use crate::cone::{Cone, cone_of};
use crate::cuts::{Cut, NO_CUT};
use crate::layout::{Layout, Table};
use crate::numbers::node_of;
use crate::reach::Nodes;
use crate::words::{flip_pin, pin};
use std::alloc::{AllocError, Global};

/// How many steps are taken to see whether an input follows from others, and how many to find the cells.
const FEW_STEPS: usize = 64;

const MOST_STEPS: usize = 60_000;

// The input of the lowest node that isn't below one, of those whose node has no word.
fn next_input(layout: &Layout, cone: &Cone<'_>, ins: &Cut) -> Option<u32> {
    let mut least = u32::MAX;
    let mut found = None;
    'inputs: for k in 0..ins.count {
        let wire = ins.leaf(k);
        let label = layout.label(wire);
        if label < least && !cone.has(node_of(label)) {
            least = label;
            found = Some(wire);
        }
    }
    found
}

// The node of an input gets its word: from the lower ones, or that of a pin if it doesn't follow from these. Whether it has a pin.
fn settle_input(
    cone: &mut Cone<'_>,
    label: u32,
    floor: u32,
    pins: usize,
) -> Result<bool, AllocError> {
    if pins > 0 && cone.derive(label >> 1, floor, FEW_STEPS)? {
        return Ok(false);
    }
    cone.put(node_of(label), pin(pins));
    Ok(true)
}

// The inputs that don't follow from lower ones, in the order of their nodes, each with the word of a pin.
fn settle_inputs(layout: &Layout, cone: &mut Cone<'_>, ins: &Cut) -> Result<Cut, AllocError> {
    let mut found = NO_CUT;
    let mut floor = 0;
    'inputs: for _ in 0..6 {
        let Some(wire) = next_input(layout, cone, ins) else {
            break;
        };
        let label = layout.label(wire);
        if found.count == 0 {
            floor = label >> 1;
        }
        if settle_input(cone, label, floor, found.count)? {
            let _ = found.add(wire);
        }
    }
    Ok(found)
}

// Cells of pins that show nodes, as cells of inputs that show literals.
fn turn_cells(layout: &Layout, ins: &Cut, cells: u64) -> u64 {
    let mut turned = cells;
    'inputs: for k in 0..ins.count {
        if layout.label(ins.leaf(k)) & 1 == 1 {
            turned = flip_pin(turned, k);
        }
    }
    turned
}

// A table with its cells, without those where they aren't found; whether they are.
fn fill_table(
    layout: &Layout,
    cone: &mut Cone<'_>,
    table: &Table,
) -> Result<(Table, bool), AllocError> {
    let root = layout.label(table.out);
    cone.begin();
    let ins = settle_inputs(layout, cone, &table.ins)?;
    let found = cone.derive(root >> 1, 0, MOST_STEPS)?;
    let cells = turn_cells(layout, &ins, cone.word(root));
    let out = table.out;
    Ok((Table { out, ins, cells }, found))
}

// Tables that have their cells; whether all of these were found.
#[derive(Drop)]
struct Filled {
    tables: Vec<Table>,
    all: bool,
}

impl Filled {
    // Adds a table with its cells.
    fn add(
        &mut self,
        layout: &Layout,
        cone: &mut Cone<'_>,
        table: &Table,
    ) -> Result<(), AllocError> {
        let (table, found) = fill_table(layout, cone, table)?;
        self.tables.push(table)?;
        self.all = self.all && found;
        Ok(())
    }
}

/// Gives the tables of a layout their cells, without inputs that follow from others; whether the way to each is short enough. Inputs
/// on which cells don't depend stay: without them no way leads from the others to the table's node, by which tables are compared.
pub fn fill_tables(
    alloc: Global,
    nodes: Nodes<'_>,
    layout: &mut Layout,
) -> Result<bool, AllocError> {
    let mut cone = cone_of(alloc, nodes)?;
    let mut filled = Filled {
        tables: Vec::with_capacity(alloc, layout.tables.len())?,
        all: true,
    };
    'tables: for table in &layout.tables {
        filled.add(layout, &mut cone, table)?;
    }
    layout.tables = filled.tables;
    Ok(filled.all)
}
