//! The words of the nodes between a table and what it reads.

use crate::numbers::node_of;
use crate::reach::Nodes;
use design_equal::And;
use std::alloc::{AllocError, Global};

/// Words of nodes, those that were put since the last beginning.
#[derive(Drop)]
pub struct Cone<'a> {
    nodes: Nodes<'a>,
    words: Vec<u64>,
    stamps: Vec<u32>,
    now: u32,
    waiting: Vec<u32>,
}

/// No words.
pub fn cone_of<'a>(alloc: Global, nodes: Nodes<'a>) -> Result<Cone<'a>, AllocError> {
    Ok(Cone {
        nodes,
        words: vec![in alloc; 0; nodes.count()]?,
        stamps: vec![in alloc; 0; nodes.count()]?,
        now: 0,
        waiting: Vec::new(alloc),
    })
}

impl<'a> Cone<'a> {
    /// Begins anew: node 0 alone has a word.
    pub fn begin(&mut self) {
        self.now = self.now.wrapping_add(1);
        self.put(0, 0);
    }

    /// Whether a node has a word.
    pub fn has(&self, node: usize) -> bool {
        node < self.stamps.len() && self.stamps[node] == self.now
    }

    /// Puts the word of a node.
    pub fn put(&mut self, node: usize, word: u64) {
        if node < self.stamps.len() && node < self.words.len() {
            self.stamps[node] = self.now;
            self.words[node] = word;
        }
    }

    /// The word of a literal.
    pub fn word(&self, literal: u32) -> u64 {
        let node = node_of(literal);
        let word = if node < self.words.len() {
            self.words[node]
        } else {
            0
        };
        if literal & 1 == 1 { !word } else { word }
    }

    // Puts the word of an AND, or lets wait what it reads.
    fn step(&mut self, node: u32, and: And) -> Result<(), AllocError> {
        if self.has(node_of(and.left)) && self.has(node_of(and.right)) {
            let word = self.word(and.left) & self.word(and.right);
            self.put(node as usize, word);
            return Ok(());
        }
        self.waiting.push(node)?;
        self.want(and.left >> 1)?;
        self.want(and.right >> 1)
    }

    // Lets a node wait that has no word.
    fn want(&mut self, node: u32) -> Result<(), AllocError> {
        if !self.has(node as usize) {
            self.waiting.push(node)?;
        }
        Ok(())
    }

    /// Whether a node has a word from those that are there, over at most so many ANDs, none below a node.
    pub fn derive(&mut self, root: u32, floor: u32, most: usize) -> Result<bool, AllocError> {
        self.waiting.clear();
        self.waiting.push(root)?;
        'steps: for _ in 0..most {
            let Some(node) = self.waiting.pop() else {
                return Ok(true);
            };
            if self.has(node as usize) {
                continue;
            }
            let Some(and) = self.nodes.and(node as usize) else {
                return Ok(false);
            };
            if node < floor {
                return Ok(false);
            }
            self.step(node, and)?;
        }
        Ok(self.has(root as usize))
    }
}
