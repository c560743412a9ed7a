//! What cuts cost in tables.

use crate::cuts::{Cut, NO_CUT};
use crate::passes::Chosen;
use crate::reach::{Nodes, Reach};
use std::alloc::{AllocError, Global};
use std::num::nearest_u64_to_f32;

/// What a table more below a cut costs where that is too deep.
const LATE: f32 = 100.0;

/// What a table more below a cut costs, against one more.
const DEEP: f32 = 0.03;

/// What is known of a node.
#[derive(Clone, Copy)]
struct Place {
    /// The cut that it has.
    best: Cut,
    /// How many tables and roots read it.
    refs: u32,
    /// How many are expected to.
    expected: f32,
    /// The share of its area that each of these bears.
    share: f32,
    /// How many tables lie one behind the other up to it, and how many may.
    level: u32,
    most: u32,
}

/// What is known of all nodes.
#[derive(Drop)]
pub struct Areas<'a> {
    pub live: &'a [bool],
    roots: &'a [u32],
    nodes: Nodes<'a>,
    places: Vec<Place>,
    waiting: Vec<u32>,
}

// One more reader of a node.
fn refer(places: &mut Vec<Place>, node: usize) {
    if node < places.len() {
        places[node].refs = places[node].refs.saturating_add(1);
    }
}

// Counts what roots read: themselves.
fn count_roots(places: &mut Vec<Place>, reach: &Reach) {
    'roots: for root in &reach.roots {
        refer(places, *root as usize);
    }
}

// Counts what live ANDs read.
fn count_ands(places: &mut Vec<Place>, nodes: Nodes<'_>, reach: &Reach) {
    'nodes: for node in 0..reach.live.len() {
        if let Some(and) = nodes.and(node) {
            if reach.live[node] {
                refer(places, (and.left >> 1) as usize);
                refer(places, (and.right >> 1) as usize);
            }
        }
    }
}

// Expects as many readers as there are, and at least one.
fn expect_reads(places: &mut Vec<Place>) {
    'places: for place in places.iter_mut() {
        place.expected = nearest_u64_to_f32(place.refs.max(1) as u64);
    }
}

/// The beginning, without cuts.
pub fn areas_of<'a>(
    alloc: Global,
    nodes: Nodes<'a>,
    reach: &'a Reach,
) -> Result<Areas<'a>, AllocError> {
    let place = Place {
        best: NO_CUT,
        refs: 0,
        expected: 1.0,
        share: 0.0,
        level: 0,
        most: u32::MAX,
    };
    let mut places = vec![in alloc; place; reach.live.len()]?;
    count_roots(&mut places, reach);
    count_ands(&mut places, nodes, reach);
    expect_reads(&mut places);
    Ok(Areas {
        live: &reach.live,
        roots: &reach.roots,
        nodes,
        places,
        waiting: Vec::new(alloc),
    })
}

impl<'a> Areas<'a> {
    // One more reader of a node: where it is the first one of an AND, that waits to be counted.
    fn read(&mut self, node: usize) -> Result<(), AllocError> {
        if node < self.places.len() {
            let refs = self.places[node].refs;
            self.places[node].refs = refs.saturating_add(1);
            if refs == 0 && self.nodes.is_and(node) {
                self.waiting.push((node & 0x7fff_ffff) as u32)?;
            }
        }
        Ok(())
    }

    // One reader less.
    fn forget(&mut self, node: usize) -> Result<(), AllocError> {
        if node < self.places.len() {
            let refs = self.places[node].refs.saturating_sub(1);
            self.places[node].refs = refs;
            if refs == 0 && self.nodes.is_and(node) {
                self.waiting.push((node & 0x7fff_ffff) as u32)?;
            }
        }
        Ok(())
    }

    // The leaves of a cut are read once more, or once less.
    fn touch(&mut self, cut: &Cut, more: bool) -> Result<(), AllocError> {
        'leaves: for k in 0..cut.count {
            let leaf = cut.leaf(k) as usize;
            if more {
                self.read(leaf)?;
            } else {
                self.forget(leaf)?;
            }
        }
        Ok(())
    }

    // How many tables come, or go, with a table of this cut.
    fn tables(&mut self, cut: &Cut, more: bool) -> Result<usize, AllocError> {
        let mut count = 1usize;
        self.touch(cut, more)?;
        'tables: for _ in 0..u64::MAX {
            let Some(node) = self.waiting.pop() else {
                break;
            };
            count = count.saturating_add(1);
            let best = self.best(node as usize);
            self.touch(&best, more)?;
        }
        Ok(count)
    }

    /// The cut that a node has.
    fn best(&self, node: usize) -> Cut {
        if node < self.places.len() {
            self.places[node].best
        } else {
            NO_CUT
        }
    }

    // Whether a node has a table.
    fn has_table(&self, node: usize) -> bool {
        node < self.places.len() && self.places[node].refs > 0
    }

    /// The table of a node goes, if it has one.
    pub fn leave(&mut self, node: usize) -> Result<(), AllocError> {
        if self.has_table(node) {
            let best = self.best(node);
            let _ = self.tables(&best, false)?;
        }
        Ok(())
    }

    /// The table of a node comes, if it has one.
    pub fn enter(&mut self, node: usize) -> Result<(), AllocError> {
        if self.has_table(node) {
            let best = self.best(node);
            let _ = self.tables(&best, true)?;
        }
        Ok(())
    }

    /// How many tables a cut adds, and a little for each of its leaves.
    pub fn exact(&mut self, cut: &Cut) -> Result<f32, AllocError> {
        let count = self.tables(cut, true)?;
        let _ = self.tables(cut, false)?;
        let leaves = 0.001 * nearest_u64_to_f32(cut.count as u64);
        Ok(nearest_u64_to_f32(count as u64) + leaves + self.low(cut))
    }

    /// The area that flows through a cut.
    pub fn flow(&self, cut: &Cut) -> f32 {
        self.area(cut) + self.low(cut)
    }

    // The same without a little for its depth.
    fn area(&self, cut: &Cut) -> f32 {
        let mut flow = 1.0f32;
        'leaves: for k in 0..cut.count {
            let leaf = cut.leaf(k) as usize;
            if leaf < self.places.len() {
                flow += self.places[leaf].share;
            }
        }
        flow
    }

    // How many tables lie one behind the other up to a cut's own one.
    fn level(&self, cut: &Cut) -> u32 {
        let mut level = 0u32;
        'leaves: for k in 0..cut.count {
            let leaf = cut.leaf(k) as usize;
            if leaf < self.places.len() {
                level = level.max(self.places[leaf].level);
            }
        }
        level.saturating_add(1)
    }

    // A little for how deep a cut lies.
    fn low(&self, cut: &Cut) -> f32 {
        DEEP * nearest_u64_to_f32(self.level(cut) as u64)
    }

    /// Much for how deep a cut lies.
    pub fn height(&self, cut: &Cut) -> f32 {
        LATE * nearest_u64_to_f32(self.level(cut) as u64)
    }

    /// Much for how much deeper a node's cut lies than it may.
    pub fn late(&self, node: usize, cut: &Cut) -> f32 {
        let most = if node < self.places.len() {
            self.places[node].most
        } else {
            u32::MAX
        };
        let late = self.level(cut).saturating_sub(most);
        LATE * nearest_u64_to_f32(late as u64)
    }

    /// How many tables lie one behind the other.
    pub fn depth(&self) -> u32 {
        let mut most = 0u32;
        'roots: for root in self.roots {
            let root = *root as usize;
            if root < self.places.len() {
                most = most.max(self.places[root].level);
            }
        }
        most
    }

    // Nodes may lie anywhere.
    fn allow_all(&mut self) {
        'places: for place in self.places.iter_mut() {
            place.most = u32::MAX;
        }
    }

    // Roots may lie so deep, other nodes anywhere.
    fn allow_roots(&mut self, most: u32) {
        self.allow_all();
        'roots: for root in self.roots {
            let root = *root as usize;
            if root < self.places.len() {
                self.places[root].most = most;
            }
        }
    }

    // The leaves of a cut lie below what may lie so deep.
    fn allow_leaves(&mut self, cut: &Cut, most: u32) {
        'leaves: for k in 0..cut.count {
            let leaf = cut.leaf(k) as usize;
            if leaf < self.places.len() {
                let old = self.places[leaf].most;
                self.places[leaf].most = old.min(most);
            }
        }
    }

    /// Roots may lie so deep, and what tables read as deep as these allow.
    pub fn allow(&mut self, most: u32) {
        self.allow_roots(most);
        let count = self.places.len();
        'nodes: for k in 0..count {
            let node = count.wrapping_sub(k).wrapping_sub(1);
            if node < self.places.len() && self.places[node].refs > 0 && self.nodes.is_and(node) {
                let Place { best, most, .. } = self.places[node];
                self.allow_leaves(&best, most.saturating_sub(1));
            }
        }
    }

    /// Adds the cut that a node has, if it has one.
    pub fn add_old(&self, node: usize, cuts: &mut Vec<Cut>) -> Result<(), AllocError> {
        let best = self.best(node);
        if best.count > 0 {
            cuts.push(best)?;
        }
        Ok(())
    }

    /// Gives a node a cut.
    pub fn take(&mut self, node: usize, cut: &Cut) {
        let flow = self.area(cut);
        let level = self.level(cut);
        if node < self.places.len() {
            self.places[node].best = *cut;
            self.places[node].level = level;
            self.places[node].share = flow / self.places[node].expected;
        }
    }

    // Nothing is read.
    fn read_nothing(&mut self) {
        'places: for place in self.places.iter_mut() {
            place.refs = 0;
        }
    }

    // Counts the tables of a root, if they weren't counted.
    fn cover_root(&mut self, root: usize) -> Result<usize, AllocError> {
        self.read(root)?;
        match self.waiting.pop() {
            Some(_) => {
                let best = self.best(root);
                self.tables(&best, true)
            }
            None => Ok(0),
        }
    }

    /// Reads what the roots need; how many tables that is.
    pub fn cover(&mut self) -> Result<usize, AllocError> {
        self.read_nothing();
        let mut count = 0usize;
        'roots: for root in self.roots {
            count = count.saturating_add(self.cover_root(*root as usize)?);
        }
        Ok(count)
    }

    /// Expects readers by those that were expected and those that there are.
    pub fn expect(&mut self) {
        'places: for place in self.places.iter_mut() {
            let refs = nearest_u64_to_f32(place.refs as u64);
            let expected = (place.expected + 2.0 * refs) / 3.0;
            place.expected = if expected > 1.0 { expected } else { 1.0 };
        }
    }

    // The cuts that nodes have.
    fn bests(&self, alloc: Global) -> Result<Vec<Cut>, AllocError> {
        let mut cuts = Vec::with_capacity(alloc, self.places.len())?;
        'nodes: for place in &self.places {
            cuts.push(place.best)?;
        }
        Ok(cuts)
    }

    // Which nodes have tables.
    fn marks(&self, alloc: Global) -> Result<Vec<bool>, AllocError> {
        let mut tables = Vec::with_capacity(alloc, self.places.len())?;
        'nodes: for node in 0..self.places.len() {
            tables.push(self.has_table(node) && self.nodes.is_and(node))?;
        }
        Ok(tables)
    }

    /// The cuts that nodes have, and which nodes have tables.
    pub fn choice_of(&self, alloc: Global) -> Result<Chosen, AllocError> {
        let cuts = self.bests(alloc)?;
        let tables = self.marks(alloc)?;
        Ok(Chosen { cuts, tables })
    }
}
