//! A graph of ANDs while it is made.

use crate::numbers::{literal_of, node_of};
use std::alloc::{AllocError, Global};
use std::collections::HashMap;

/// The most ANDs of a graph.
pub const MOST_ANDS: usize = 500_000;

/// How many literals of rows are looked at until sums are no more factored.
const MOST_EFFORT: u64 = 100_000_000;

/// A node: two literals, which an input or a latch hasn't, and how many ANDs lie below it on the longest way.
#[derive(Clone, Copy, Debug)]
pub struct Node {
    pub left: u32,
    pub right: u32,
    pub level: u32,
}

/// A graph of ANDs: node 0 is the constant 0, then come inputs, latches, and ANDs, of which no two are equal.
#[derive(Drop)]
pub struct Builder {
    pub alloc: Global,
    pub nodes: Vec<Node>,
    known: HashMap<u64, u32>,
    /// How often each literal stands in a sum, while that is counted; 0 for all else.
    pub counts: Vec<u32>,
    /// How many literals may still be looked at to factor sums.
    pub effort: u64,
    ands: usize,
    full: bool,
}

impl Builder {
    /// A graph without inputs.
    pub fn new(alloc: Global) -> Result<Builder, AllocError> {
        let mut builder = Builder {
            alloc,
            nodes: Vec::new(alloc),
            known: HashMap::new(alloc),
            counts: Vec::new(alloc),
            effort: MOST_EFFORT,
            ands: 0,
            full: false,
        };
        let _ = builder.add_leaf()?;
        Ok(builder)
    }

    /// Whether one more AND was asked for than a graph may have.
    pub fn is_full(&self) -> bool {
        self.full
    }

    /// Adds an input or a latch, and gives its literal.
    pub fn add_leaf(&mut self) -> Result<u32, AllocError> {
        self.add_node(0, 0, 0)
    }

    // Adds a node, and gives its literal.
    fn add_node(&mut self, left: u32, right: u32, level: u32) -> Result<u32, AllocError> {
        let literal = literal_of(self.nodes.len());
        self.nodes.push(Node { left, right, level })?;
        Ok(literal)
    }

    /// The level of a literal's node.
    pub fn level(&self, literal: u32) -> u32 {
        match self.nodes.get(node_of(literal)) {
            Some(node) => node.level,
            None => 0,
        }
    }

    // The AND of two literals, the lesser first.
    fn share_and(&mut self, left: u32, right: u32) -> Result<u32, AllocError> {
        let key = (left as u64).wrapping_shl(32) | right as u64;
        if let Some(literal) = self.known.get(&key) {
            return Ok(*literal);
        }
        if self.ands >= MOST_ANDS {
            self.full = true;
            return Ok(0);
        }
        let level = self.level(left).max(self.level(right)).saturating_add(1);
        let literal = self.add_node(left, right, level)?;
        let _ = self.known.insert(key, literal)?;
        self.ands = self.ands.saturating_add(1);
        Ok(literal)
    }

    /// The AND of two literals.
    pub fn and(&mut self, a: u32, b: u32) -> Result<u32, AllocError> {
        let left = a.min(b);
        let right = a.max(b);
        if left == 0 || left == right ^ 1 {
            return Ok(0);
        }
        if left == 1 || left == right {
            return Ok(right);
        }
        self.share_and(left, right)
    }

    /// The OR of two literals.
    pub fn or(&mut self, a: u32, b: u32) -> Result<u32, AllocError> {
        let neither = self.and(a ^ 1, b ^ 1)?;
        Ok(neither ^ 1)
    }

    /// The second literal where the first is 1, and else the third.
    pub fn choice(&mut self, which: u32, yes: u32, other: u32) -> Result<u32, AllocError> {
        let high = self.and(which, yes)?;
        let low = self.and(which ^ 1, other)?;
        self.or(high, low)
    }

    /// Makes room for counts of literals of all nodes.
    pub fn make_counts(&mut self) -> Result<(), AllocError> {
        let wanted = self.nodes.len().saturating_mul(2);
        'counts: for _ in self.counts.len()..wanted {
            self.counts.push(0)?;
        }
        Ok(())
    }

    /// One more, or none, of a literal in a sum; how many there are then.
    pub fn count(&mut self, literal: u32, more: bool) -> u32 {
        let place = literal as usize;
        if place >= self.counts.len() {
            return 0;
        }
        let count = if more {
            self.counts[place].saturating_add(1)
        } else {
            0
        };
        self.counts[place] = count;
        count
    }
}
