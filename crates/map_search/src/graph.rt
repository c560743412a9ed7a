//! A design as a graph.

use crate::builder::{Builder, Node};
use crate::factor::{factor_sum, plain};
use crate::joins::lessened;
use crate::latches::{Stand, first_classes, own_classes, own_stands, part, stands_of};
use crate::narrow::literal_of_cells;
use crate::numbers::{at, is_marked, mark, set, small};
use crate::simulate::cycles_of;
use crate::sums::{Sum, sum_of};
use crate::way::{Join, Way};
use crate::words::{Narrow, narrow_of};
use base_lists::Items;
use design_equal::{And, Graph, GraphLatch, first_unshown};
use design_netlist::{Cover, LatchDef, Netlist, NetlistData};
use std::alloc::{AllocError, Global};

/// How many nodes the graphs may have in sum that are made until latches part no more, and how many graphs are made at least.
const MOST_NODES: usize = 8_000_000;

const FEW_TURNS: usize = 8;

/// How often the first cover that isn't shown is set aside alone, and how often in all.
const FEW_TRIES: u32 = 6;

const MOST_TRIES: u32 = 8;

/// A cover of more inputs is compared by its products, which have to be its rows.
const MOST_COMPARED: usize = 14;

/// A graph, and a label for each signal of the design that it was made of.
#[derive(Debug, Drop)]
pub struct Made {
    pub graph: Graph,
    pub labels: Items<u32>,
}

// A graph while it is made, and the labels so far.
#[derive(Drop)]
struct Making {
    builder: Builder,
    labels: Vec<u32>,
}

// The labels of these signals.
fn labels_of(alloc: Global, signals: &[u32], labels: &[u32]) -> Result<Vec<u32>, AllocError> {
    let mut found = Vec::with_capacity(alloc, signals.len())?;
    'signals: for signal in signals {
        found.push(at(labels, *signal as usize))?;
    }
    Ok(found)
}

// The literal of a narrow cover by its cells.
fn by_cells(making: &mut Making, narrow: &Narrow, way: Way) -> Result<u32, AllocError> {
    let literals = labels_of(making.builder.alloc, &narrow.ins, &making.labels)?;
    literal_of_cells(&mut making.builder, narrow.cells, &literals, way)
}

// The sum of a cover's rows, which may be joined.
fn sum_for(making: &mut Making, cover: &Cover, joins: bool) -> Result<Sum, AllocError> {
    let sum = sum_of(making.builder.alloc, cover, &making.labels)?;
    if joins {
        lessened(&mut making.builder, sum)
    } else {
        Ok(sum)
    }
}

// The literal of a cover by its rows.
fn by_rows(making: &mut Making, cover: &Cover, way: Way) -> Result<u32, AllocError> {
    let sum = sum_for(making, cover, way.joins_rows())?;
    let literal = factor_sum(&mut making.builder, sum, way.join())?;
    Ok(literal ^ cover.off as u32)
}

// The literal of a cover by its rows as they stand: a tree of each, and one of all.
fn by_trees(making: &mut Making, cover: &Cover) -> Result<u32, AllocError> {
    let sum = sum_of(making.builder.alloc, cover, &making.labels)?;
    let literal = plain(&mut making.builder, &sum, Join::Pairs)?;
    Ok(literal ^ cover.off as u32)
}

// The literal of a cover.
fn cover_literal(
    making: &mut Making,
    cover: &Cover,
    way: Way,
    trees: bool,
) -> Result<u32, AllocError> {
    if trees {
        return by_trees(making, cover);
    }
    if way.by_rows() {
        return by_rows(making, cover, way);
    }
    match narrow_of(making.builder.alloc, cover)? {
        Some(narrow) => by_cells(making, &narrow, way),
        None => by_rows(making, cover, way),
    }
}

// Labels the inputs.
fn add_inputs(making: &mut Making, draft: &NetlistData) -> Result<(), AllocError> {
    'inputs: for port in draft.inputs.as_slice() {
        let literal = making.builder.add_leaf()?;
        set(&mut making.labels, port.signal as usize, literal);
    }
    Ok(())
}

// The literal of a latch.
fn latch_literal(
    making: &mut Making,
    latches: &[LatchDef],
    stand: Stand,
) -> Result<u32, AllocError> {
    match stand {
        Stand::Own => making.builder.add_leaf(),
        Stand::Constant(bit) => Ok(bit as u32),
        Stand::Earlier(place) => match latches.get(place as usize) {
            Some(latch) => Ok(at(&making.labels, latch.out as usize)),
            None => Ok(0),
        },
    }
}

// Labels the latches.
fn add_latches(
    making: &mut Making,
    latches: &[LatchDef],
    stands: &[Stand],
) -> Result<(), AllocError> {
    'latches: for (latch, stand) in latches.iter().zip(stands) {
        let literal = latch_literal(making, latches, *stand)?;
        set(&mut making.labels, latch.out as usize, literal);
    }
    Ok(())
}

// Labels a cover.
fn add_cover(making: &mut Making, cover: &Cover, way: Way, trees: bool) -> Result<(), AllocError> {
    let literal = cover_literal(making, cover, way, trees)?;
    set(&mut making.labels, cover.out as usize, literal);
    Ok(())
}

// Labels the covers.
fn add_covers(
    making: &mut Making,
    covers: &[Cover],
    order: &[u32],
    how: How<'_>,
) -> Result<(), AllocError> {
    'covers: for place in order {
        if making.builder.is_full() {
            break;
        }
        if let Some(cover) = covers.get(*place as usize) {
            let trees = is_marked(how.trees, *place as usize);
            add_cover(making, cover, how.way, trees)?;
        }
    }
    Ok(())
}

// How a graph is made: the way, what stands for latches, and which covers are trees of their rows.
#[derive(Clone, Copy)]
struct How<'a> {
    way: Way,
    stands: &'a [Stand],
    trees: &'a [bool],
}

// The graph of a design.
fn making_of(alloc: Global, netlist: &Netlist, how: How<'_>) -> Result<Making, AllocError> {
    let draft = netlist.parts();
    let mut making = Making {
        builder: Builder::new(alloc)?,
        labels: vec![in alloc; 0; draft.names.len()]?,
    };
    add_inputs(&mut making, draft)?;
    add_latches(&mut making, draft.latches.as_slice(), how.stands)?;
    add_covers(&mut making, draft.covers.as_slice(), netlist.order(), how)?;
    Ok(making)
}

// The latches that stand for themselves, as those of a graph.
fn graph_latches(
    alloc: Global,
    latches: &[LatchDef],
    stands: &[Stand],
    labels: &[u32],
) -> Result<Vec<GraphLatch>, AllocError> {
    let mut found = Vec::new(alloc);
    'latches: for (latch, stand) in latches.iter().zip(stands) {
        if let Stand::Own = *stand {
            let next = at(labels, latch.from as usize);
            let init = latch.init;
            found.push(GraphLatch { next, init })?;
        }
    }
    Ok(found)
}

// The ANDs among the nodes, from a place on.
fn ands_of(alloc: Global, nodes: &[Node], first: usize) -> Result<Vec<And>, AllocError> {
    let mut ands = Vec::new(alloc);
    'nodes: for k in first..nodes.len() {
        let node = nodes[k];
        ands.push(And {
            left: node.left,
            right: node.right,
        })?;
    }
    Ok(ands)
}

// What was made.
fn made_of(
    alloc: Global,
    draft: &NetlistData,
    stands: &[Stand],
    making: Making,
) -> Result<Made, AllocError> {
    let latches = graph_latches(alloc, draft.latches.as_slice(), stands, &making.labels)?;
    let inputs = draft.inputs.as_slice().len();
    let first = inputs.saturating_add(latches.len()).saturating_add(1);
    let ands = ands_of(alloc, &making.builder.nodes, first)?;
    let graph = Graph {
        inputs: small(inputs),
        latches: Items::new(latches),
        ands: Items::new(ands),
    };
    Ok(Made {
        graph,
        labels: Items::new(making.labels),
    })
}

// The graph of a design in which these stand for latches.
fn making_with(
    alloc: Global,
    netlist: &Netlist,
    way: Way,
    trees: &[bool],
    classes: &[u32],
) -> Result<(Making, Vec<Stand>), AllocError> {
    let stands = stands_of(alloc, classes)?;
    let how = How {
        way,
        stands: &stands,
        trees,
    };
    let making = making_of(alloc, netlist, how)?;
    Ok((making, stands))
}

// The classes of latches at first.
fn classes_in(
    alloc: Global,
    netlist: &Netlist,
    way: Way,
    trees: &[bool],
) -> Result<Vec<u32>, AllocError> {
    let draft = netlist.parts();
    let count = draft.latches.as_slice().len();
    if count == 0 {
        return Ok(Vec::new(alloc));
    }
    let stands = own_stands(alloc, count)?;
    let how = How {
        way,
        stands: &stands,
        trees,
    };
    let making = making_of(alloc, netlist, how)?;
    let mut cycles = cycles_of(alloc, &making.builder.nodes)?;
    first_classes(alloc, draft, &making.labels, &mut cycles)
}

// How often latches may part, where a graph has so many nodes.
fn turns_for(making: &Making) -> usize {
    let nodes = making.builder.nodes.len();
    (MOST_NODES / nodes.max(1)).max(FEW_TURNS)
}

// The graph of a design in which these covers are trees of their rows, and latches that are alike are one; None where it is too
// large, or latches part too often.
fn graph_with(
    alloc: Global,
    netlist: &Netlist,
    way: Way,
    trees: &[bool],
) -> Result<Option<Made>, AllocError> {
    let draft = netlist.parts();
    let latches = draft.latches.as_slice();
    let mut classes = classes_in(alloc, netlist, way, trees)?;
    let (mut making, mut stands) = making_with(alloc, netlist, way, trees, &classes)?;
    let turns = turns_for(&making);
    'turns: for turn in 0..turns {
        if making.builder.is_full() {
            return Ok(None);
        }
        if !part(alloc, latches, &making.labels, &mut classes)? {
            return Ok(Some(made_of(alloc, draft, &stands, making)?));
        }
        if turn.saturating_add(2) >= turns {
            classes = own_classes(alloc, latches.len())?;
        }
        let other = making_with(alloc, netlist, way, trees, &classes)?;
        making = other.0;
        stands = other.1;
    }
    Ok(None)
}

// Marks the covers of many inputs.
fn mark_wide(trees: &mut Vec<bool>, covers: &[Cover]) {
    'covers: for k in 0..covers.len() {
        if covers[k].ins.as_slice().len() > MOST_COMPARED {
            let _ = mark(trees, k);
        }
    }
}

// Marks the first cover of which the comparison shows nothing, and at last all that have many inputs; whether one is new.
fn mark_unshown(
    alloc: Global,
    netlist: &Netlist,
    made: &Made,
    trees: &mut Vec<bool>,
    last: bool,
) -> Result<bool, AllocError> {
    let labels = made.labels.as_slice();
    let Some(place) = first_unshown(alloc, &made.graph, netlist, labels)? else {
        return Ok(false);
    };
    if last {
        mark_wide(trees, netlist.parts().covers.as_slice());
    }
    Ok(mark(trees, place as usize) || last)
}

/// The design as a graph in which latches that are alike are one, or `None` where it would have more than 500,000 ANDs. A cover of
/// which the comparison shows nothing is a tree of its rows as they stand.
///
/// # Errors
///
/// Out of memory.
pub fn graph_of(alloc: Global, netlist: &Netlist, way: Way) -> Result<Option<Made>, AllocError> {
    let mut trees = vec![in alloc; false; netlist.parts().covers.as_slice().len()]?;
    let mut found = graph_with(alloc, netlist, way, &trees)?;
    'tries: for k in 0..MOST_TRIES {
        let more = match &found {
            Some(made) => mark_unshown(alloc, netlist, made, &mut trees, k >= FEW_TRIES)?,
            None => false,
        };
        if !more {
            break;
        }
        found = graph_with(alloc, netlist, way, &trees)?;
    }
    Ok(found)
}
