//! Which trees the walks of a load have joined, and the order in which the walks are listed.

use std::alloc::{AllocError, Global};

/// Trees that walks join: of each the one above it in its group, and the size of a group at its top.
#[derive(Drop)]
pub(crate) struct Joins {
    above: Vec<u32>,
    sizes: Vec<u32>,
}

impl Joins {
    /// No tree.
    pub(crate) fn bare(alloc: Global) -> Joins {
        Joins {
            above: Vec::new(alloc),
            sizes: Vec::new(alloc),
        }
    }

    /// So many trees, none joined.
    pub(crate) fn new(alloc: Global, trees: u32) -> Result<Joins, AllocError> {
        let mut joins = Joins::bare(alloc);
        'trees: for tree in 0..trees {
            joins.above.push(tree)?;
            joins.sizes.push(1)?;
        }
        Ok(joins)
    }

    /// None are joined.
    pub(crate) fn clear(&mut self) {
        'trees: for at in 0..self.above.len() {
            if at < self.above.len() {
                self.above[at] = u32::try_from(at).unwrap_or(0);
            }
            if at < self.sizes.len() {
                self.sizes[at] = 1;
            }
        }
    }

    // The top of a tree's group.
    fn top(&self, tree: u32) -> u32 {
        let mut at = tree;
        'steps: for _step in 0..self.above.len() {
            let above = self.above.get(at as usize).copied().unwrap_or(at);
            if above == at {
                break;
            }
            at = above;
        }
        at
    }

    /// Whether two trees are in one group.
    pub(crate) fn are_joined(&self, a: u32, b: u32) -> bool {
        self.top(a) == self.top(b)
    }

    // How many trees the group of a top has.
    fn size(&self, top: u32) -> u32 {
        self.sizes.get(top as usize).copied().unwrap_or(0)
    }

    // A group is put under the top of another.
    fn put_under(&mut self, low: u32, top: u32) {
        let size = self.size(low).saturating_add(self.size(top));
        if (low as usize) < self.above.len() {
            self.above[low as usize] = top;
        }
        if (top as usize) < self.sizes.len() {
            self.sizes[top as usize] = size;
        }
    }

    /// Joins the groups of two trees.
    pub(crate) fn join(&mut self, a: u32, b: u32) {
        let first = self.top(a);
        let second = self.top(b);
        if first == second {
            return;
        }
        if self.size(first) > self.size(second) {
            self.put_under(second, first);
        } else {
            self.put_under(first, second);
        }
    }
}

/// A walk of a load by its place, and whether it is turned around.
#[derive(Clone, Copy)]
pub(crate) struct Turned {
    pub place: usize,
    pub turned: bool,
}

/// The end of a walk at a tree: the walk, whether this is its last end, and the place of the next end at that tree.
#[derive(Clone, Copy)]
struct WalkEnd {
    walk: usize,
    is_last: bool,
    next: Option<usize>,
}

/// The walks of a load as they are listed: from one tree of each group outwards, so that the last tree of each is on no earlier walk.
#[derive(Drop)]
struct Order {
    // The ends of all walks, and of each tree the first end there.
    ends: Vec<WalkEnd>,
    first: Vec<Option<usize>>,
    // The trees of each walk, whether it is listed, and whether a tree was come to.
    trees: Vec<(u32, u32)>,
    done: Vec<bool>,
    met: Vec<bool>,
    // The trees that were come to in turn, and the walks as they are listed.
    queue: Vec<u32>,
    listed: Vec<Turned>,
}

impl Order {
    // Of walks between these trees none is listed.
    fn new(alloc: Global, count: u32, trees: Vec<(u32, u32)>) -> Result<Order, AllocError> {
        let mut order = Order {
            ends: Vec::new(alloc),
            first: Vec::new(alloc),
            trees,
            done: Vec::new(alloc),
            met: Vec::new(alloc),
            queue: Vec::new(alloc),
            listed: Vec::new(alloc),
        };
        order.first.resize(count as usize, None)?;
        order.met.resize(count as usize, false)?;
        order.done.resize(order.trees.len(), false)?;
        Ok(order)
    }

    // Adds an end of a walk at a tree.
    fn add_end(&mut self, walk: usize, tree: u32, is_last: bool) -> Result<(), AllocError> {
        let at = tree as usize;
        if at >= self.first.len() {
            return Ok(());
        }
        let next = self.first[at];
        self.first[at] = Some(self.ends.len());
        self.ends.push(WalkEnd {
            walk,
            is_last,
            next,
        })?;
        Ok(())
    }

    // Adds the ends of all walks.
    fn add_ends(&mut self) -> Result<(), AllocError> {
        'walks: for walk in 0..self.trees.len() {
            if let Some((a, b)) = self.trees.get(walk).copied() {
                self.add_end(walk, a, false)?;
                self.add_end(walk, b, true)?;
            }
        }
        Ok(())
    }

    // A tree is come to. False where it was before.
    fn meet(&mut self, tree: u32) -> Result<bool, AllocError> {
        let at = tree as usize;
        if at >= self.met.len() || self.met[at] {
            return Ok(false);
        }
        self.met[at] = true;
        self.queue.push(tree)?;
        Ok(true)
    }

    // Lists a walk from the end that is come to, if its other end is new.
    fn list_walk(&mut self, end: WalkEnd) -> Result<(), AllocError> {
        let Some((a, b)) = self.trees.get(end.walk).copied() else {
            return Ok(());
        };
        if self.done.get(end.walk).copied().unwrap_or(true) {
            return Ok(());
        }
        let other = if end.is_last { a } else { b };
        if self.meet(other)? {
            self.listed.push(Turned {
                place: end.walk,
                turned: end.is_last,
            })?;
            if end.walk < self.done.len() {
                self.done[end.walk] = true;
            }
        }
        Ok(())
    }

    // Lists the walks that end at a tree.
    fn list_at(&mut self, tree: u32) -> Result<(), AllocError> {
        let mut next = self.first.get(tree as usize).copied().unwrap_or(None);
        'ends: for _end in 0..self.ends.len() {
            let Some(at) = next else {
                break;
            };
            let Some(end) = self.ends.get(at).copied() else {
                break;
            };
            next = end.next;
            self.list_walk(end)?;
        }
        Ok(())
    }

    // Lists all walks that are come to from a tree.
    fn list_from(&mut self, tree: u32, from: usize) -> Result<(), AllocError> {
        if !self.meet(tree)? {
            return Ok(());
        }
        'queue: for at in from..self.met.len() {
            let Some(tree) = self.queue.get(at).copied() else {
                break;
            };
            self.list_at(tree)?;
        }
        Ok(())
    }

    // Lists all walks.
    fn list_all(&mut self) -> Result<(), AllocError> {
        'walks: for walk in 0..self.trees.len() {
            if let Some((a, _b)) = self.trees.get(walk).copied() {
                let from = self.queue.len();
                self.list_from(a, from)?;
            }
        }
        Ok(())
    }
}

/// Walks between these of so many trees, listed so that the last tree of each is on no earlier one, and turned around where need be. A
/// walk that would close a circle isn't listed.
pub(crate) fn order_of(
    alloc: Global,
    count: u32,
    trees: Vec<(u32, u32)>,
) -> Result<Vec<Turned>, AllocError> {
    let mut order = Order::new(alloc, count, trees)?;
    order.add_ends()?;
    order.list_all()?;
    Ok(order.listed)
}
