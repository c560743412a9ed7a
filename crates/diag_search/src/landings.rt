//! Where walks end: at lines of the node above that hang, each with the next one in an order that is drawn for a phase.

use crate::joins::Joins;
use crate::search::Search;
use machine_shape::{Shape, Wire};
use std::alloc::{AllocError, Global};

/// How many walks may fail at one pair of lines.
const MOST_FAILS: u32 = 6;

/// The lines of a node that hang, and the pair of them where the next walk ends.
#[derive(Drop)]
struct Landing {
    lines: Vec<Wire>,
    at: usize,
    fails: u32,
}

/// The same of all nodes, and which trees the walks of a load have joined.
#[derive(Drop)]
pub(crate) struct Landings {
    nodes: Vec<Landing>,
    pub(crate) joins: Joins,
}

/// The two wires that hang where a walk ends. At the root there are none: there it ends at pins of the machine, which begin trees.
#[derive(Clone, Copy)]
pub(crate) struct Ends {
    pub near: Option<Wire>,
    pub far: Option<Wire>,
}

impl Landings {
    /// With room for nothing.
    pub(crate) fn bare(alloc: Global) -> Landings {
        Landings {
            nodes: Vec::new(alloc),
            joins: Joins::bare(alloc),
        }
    }

    /// No line hangs.
    pub(crate) fn new(alloc: Global, shape: &Shape) -> Result<Landings, AllocError> {
        let mut landings = Landings::bare(alloc);
        landings.joins = Joins::new(alloc, shape.pins())?;
        'nodes: for _node in 0..shape.nodes() {
            landings.nodes.push(Landing {
                lines: Vec::new(alloc),
                at: 0,
                fails: 0,
            })?;
        }
        Ok(landings)
    }

    // The pair of lines of a node where the next walk ends, if there is one.
    fn pair(&self, node: u32) -> Option<(Wire, Wire)> {
        let landing = self.nodes.get(node as usize)?;
        let near = landing.lines.get(landing.at).copied()?;
        let far = landing.lines.get(landing.at.saturating_add(1)).copied()?;
        Some((near, far))
    }

    // How many lines of a node hang.
    fn len(&self, node: u32) -> usize {
        match self.nodes.get(node as usize) {
            Some(landing) => landing.lines.len(),
            None => 0,
        }
    }

    // Goes on to the next pair of lines of a node.
    fn go_on(&mut self, node: u32) {
        let at = node as usize;
        if at < self.nodes.len() {
            self.nodes[at].at = self.nodes[at].at.saturating_add(1);
            self.nodes[at].fails = 0;
        }
    }

    // Begins with the first pair of a node's lines.
    fn restart(&mut self, at: usize) {
        if at < self.nodes.len() {
            self.nodes[at].at = 0;
            self.nodes[at].fails = 0;
        }
    }

    /// A new load: no trees are joined.
    pub(crate) fn begin(&mut self) {
        self.joins.clear();
        'nodes: for at in 0..self.nodes.len() {
            self.restart(at);
        }
    }

    // Counts a walk that couldn't be laid at the pair of a node.
    fn count_fail(&mut self, node: u32) {
        let at = node as usize;
        if at >= self.nodes.len() {
            return;
        }
        self.nodes[at].fails = self.nodes[at].fails.saturating_add(1);
        if self.nodes[at].fails > MOST_FAILS {
            self.go_on(node);
        }
    }
}

impl Search {
    // Puts the lines of a node that hang into an order that is drawn.
    fn gather_lines(&mut self, node: u32) -> Result<(), AllocError> {
        let mut lines = Vec::new(self.alloc);
        'lines: for place in 0..self.heights.bar_lines(node) {
            let Some(line) = self.heights.line_at(node, place) else {
                continue;
            };
            if self.forest.holds(line) {
                lines.push(line)?;
            }
        }
        self.draws.shuffle(&mut lines);
        let at = node as usize;
        if at < self.landings.nodes.len() {
            self.landings.nodes[at].lines = lines;
        }
        Ok(())
    }

    /// Gathers where walks through the crossbars of a depth end.
    pub(crate) fn gather_landings(&mut self, depth: u32) -> Result<(), AllocError> {
        'nodes: for node in 0..self.heights.nodes() {
            if self.heights.depth(node).saturating_add(1) == depth {
                self.gather_lines(node)?;
            }
        }
        Ok(())
    }

    /// Where the next walk through the crossbar of a node ends: at two wires that hang on trees that aren't joined yet. None is left where
    /// all pairs were gone through.
    pub(crate) fn next_ends(&mut self, node: u32) -> Option<Ends> {
        let Some(above) = self.heights.above(node) else {
            return Some(Ends {
                near: None,
                far: None,
            });
        };
        'pairs: for _pair in 0..self.landings.len(above) {
            let (near, far) = self.landings.pair(above)?;
            let first = self.forest.tree(near);
            let second = self.forest.tree(far);
            if !self.landings.joins.are_joined(first, second) {
                return Some(Ends {
                    near: Some(near),
                    far: Some(far),
                });
            }
            self.landings.go_on(above);
        }
        None
    }

    /// A walk through the crossbar of a node couldn't be laid to where it was to end.
    pub(crate) fn count_landing_fail(&mut self, node: u32) {
        if let Some(above) = self.heights.above(node) {
            self.landings.count_fail(above);
        }
    }
}
