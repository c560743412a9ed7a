//! Cycles of a graph, 64 runs at once.

use crate::builder::Node;
use crate::numbers::{at, node_of};
use base_random::Draws;
use design_netlist::{LatchDef, PortDef};
use std::alloc::{AllocError, Global};

// A word by chance, from the high bits of two numbers.
fn word_of(draws: &mut Draws) -> u64 {
    let high = draws.step() >> 32;
    high.wrapping_shl(32) | draws.step() >> 32
}

/// The words of all nodes in a cycle.
#[derive(Drop)]
pub struct Cycles<'a> {
    alloc: Global,
    nodes: &'a [Node],
    words: Vec<u64>,
}

/// All nodes are 0.
pub fn cycles_of<'a>(alloc: Global, nodes: &'a [Node]) -> Result<Cycles<'a>, AllocError> {
    Ok(Cycles {
        alloc,
        nodes,
        words: vec![in alloc; 0; nodes.len()]?,
    })
}

impl<'a> Cycles<'a> {
    /// The word of a literal.
    pub fn word(&self, literal: u32) -> u64 {
        let node = node_of(literal);
        let word = if node < self.words.len() {
            self.words[node]
        } else {
            0
        };
        if literal & 1 == 1 { !word } else { word }
    }

    // Puts the word of a node.
    fn put_at(&mut self, node: usize, word: u64) {
        if node < self.words.len() {
            self.words[node] = word;
        }
    }

    // Puts the word of a literal that isn't negated.
    fn put(&mut self, literal: u32, word: u64) {
        self.put_at(node_of(literal), word);
    }

    /// The latches have the bits with which they begin.
    pub fn begin(&mut self, latches: &[LatchDef], labels: &[u32]) {
        'latches: for latch in latches {
            let word = if latch.init { u64::MAX } else { 0 };
            self.put(at(labels, latch.out as usize), word);
        }
    }

    /// Gives inputs bits by chance, and ANDs what follows.
    pub fn draw_inputs(&mut self, draws: &mut Draws, inputs: &[PortDef], labels: &[u32]) {
        'inputs: for port in inputs {
            self.put(at(labels, port.signal as usize), word_of(draws));
        }
        self.settle();
    }

    // ANDs get their words: those that read two literals, of which the first is never 0.
    fn settle(&mut self) {
        let nodes = self.nodes;
        'nodes: for k in 0..nodes.len() {
            let node = nodes[k];
            if node.level > 0 {
                let word = self.both(node.left, node.right);
                self.put_at(k, word);
            }
        }
    }

    // The word of an AND of two literals.
    fn both(&self, left: u32, right: u32) -> u64 {
        self.word(left) & self.word(right)
    }

    /// The latches have the bits that they read.
    pub fn step(&mut self, latches: &[LatchDef], labels: &[u32]) -> Result<(), AllocError> {
        let mut nexts = Vec::with_capacity(self.alloc, latches.len())?;
        'read: for latch in latches {
            nexts.push(self.word(at(labels, latch.from as usize)))?;
        }
        self.take(latches, labels, &nexts);
        Ok(())
    }

    // Gives latches their bits.
    fn take(&mut self, latches: &[LatchDef], labels: &[u32], nexts: &[u64]) {
        'latches: for (latch, next) in latches.iter().zip(nexts) {
            self.put(at(labels, latch.out as usize), *next);
        }
    }
}
