//! Crossings and visits of a net, level by level.

use crate::need::Counts;
use crate::nets::TablesOfNet;
use crate::tree::{divide_by, small};
use std::alloc::{AllocError, Global};

/// The nodes of a level that have terminals of a net, in order, and how many strands each has of it from below.
#[derive(Drop)]
pub struct Strands {
    nodes: Vec<(u32, u32)>,
    other: Vec<(u32, u32)>,
    places: Vec<u32>,
}

impl Strands {
    /// Those of no net.
    pub fn new(alloc: Global) -> Strands {
        Strands {
            nodes: Vec::new(alloc),
            other: Vec::new(alloc),
            places: Vec::new(alloc),
        }
    }

    // Adds a strand below a node, the last one or a new one.
    fn add(&mut self, node: u32) -> Result<(), AllocError> {
        if !self.add_to_last(node) {
            self.nodes.push((node, 1))?;
        }
        Ok(())
    }

    // Adds a strand below a node, if that is the last one; whether it is.
    fn add_to_last(&mut self, node: u32) -> bool {
        let last = self.nodes.len().wrapping_sub(1);
        if last < self.nodes.len() && self.nodes[last].0 == node {
            let count = self.nodes[last].1;
            self.nodes[last] = (node, count.saturating_add(1));
            return true;
        }
        false
    }

    // Lists the hextants of a net's terminals in order.
    fn list(&mut self, tables: &[u32], span: usize, seats: &[u32]) -> Result<(), AllocError> {
        'tables: for table in tables {
            if let Some(seat) = seats.get(*table as usize).copied() {
                let place = divide_by(seat as usize, span);
                self.places.push(small(place))?;
            }
        }
        Ok(())
    }

    // Lists the hextants of all terminals of a net in order.
    fn list_all(
        &mut self,
        net: &TablesOfNet,
        span: usize,
        seats: &[u32],
    ) -> Result<(), AllocError> {
        self.places.clear();
        self.list(&net.tables, span, seats)?;
        self.list(&net.twice, span, seats)?;
        self.places.sort_unstable();
        Ok(())
    }

    /// The hextants, of so many tables each, of a net, where tables have these seats.
    pub fn begin(
        &mut self,
        net: &TablesOfNet,
        span: usize,
        seats: &[u32],
    ) -> Result<(), AllocError> {
        self.list_all(net, span, seats)?;
        self.nodes.clear();
        'places: for k in 0..self.places.len() {
            let place = self.places.get(k).copied().unwrap_or(0);
            self.add(place)?;
        }
        Ok(())
    }

    // The node at a place of those below.
    fn below(&self, k: usize) -> u32 {
        match self.other.get(k) {
            Some(node) => node.0,
            None => 0,
        }
    }

    // The nodes above, of which each has so many children.
    fn rise(&mut self, children: usize) -> Result<(), AllocError> {
        std::mem::swap(&mut self.nodes, &mut self.other);
        self.nodes.clear();
        'nodes: for k in 0..self.other.len() {
            let node = divide_by(self.below(k) as usize, children);
            self.add(small(node))?;
        }
        Ok(())
    }
}

/// How many strands the root has of the net from below.
pub fn root_strands(strands: &Strands) -> usize {
    match strands.nodes.first() {
        Some(node) => node.1 as usize,
        None => 0,
    }
}

// One more of a node.
fn raise(counts: &mut Vec<u32>, node: u32) {
    let place = node as usize;
    if place < counts.len() {
        counts[place] = counts[place].saturating_add(1);
    }
}

// Counts the crossing and visit of a net at a node in which it has so many strands from below.
fn count_node(counts: &mut Counts, node: u32, below: u32, crosses: bool) {
    if crosses {
        raise(&mut counts.crossings, node);
    }
    if below.saturating_add(crosses as u32) >= 2 {
        raise(&mut counts.visits, node);
    }
}

/// Counts the crossings and visits of a net at the nodes of a level, and goes to the nodes above, which have so many children each.
pub fn count_level(
    counts: &mut Counts,
    strands: &mut Strands,
    children: usize,
    pinned: bool,
) -> Result<(), AllocError> {
    let crosses = pinned || strands.nodes.len() > 1;
    'nodes: for node in &strands.nodes {
        count_node(counts, node.0, node.1, crosses);
    }
    strands.rise(children)
}
