//! What is left to be tried in crossbars: their undecided crosspoints between known wires that no group has.

use crate::board::Board;
use crate::draws::Draws;
use crate::heights::Heights;
use crate::number_bits::NumberBits;
use machine_shape::{Cross, Shape, Wire};
use std::alloc::{AllocError, Global};

/// Of how many crosspoints of its ports to lines a crossbar is young as long as one is left: only ports follow lines then.
const YOUNG_SHARE: u32 = 4;

/// What is left of a crossbar.
#[derive(Drop)]
struct Pool {
    // Its taps and lines of which something was left, and may be still.
    taps: Vec<Wire>,
    lines: Vec<Wire>,
    // How many crosspoints are left, how many of these are of ports of its node, and how many those ports have.
    left: u32,
    low: u32,
    low_all: u32,
}

/// What is left of all crossbars.
#[derive(Drop)]
pub(crate) struct Pools {
    pools: Vec<Pool>,
    // The crosspoints that are left, tap by tap and line by line.
    rows: NumberBits,
    columns: NumberBits,
    // How many are left of each wire.
    left: Vec<u32>,
}

/// A crosspoint of a crossbar: its tap and its line, and its place line by line.
#[derive(Clone, Copy)]
struct Spot {
    tap: Wire,
    line: Wire,
    column: u32,
    low: bool,
}

// One more, or one less.
fn change(count: u32, more: bool) -> u32 {
    if more {
        count.saturating_add(1)
    } else {
        count.saturating_sub(1)
    }
}

// The tap and the line of a crosspoint of a crossbar.
fn spot_of(heights: &Heights, node: u32, c: Cross) -> Option<Spot> {
    let lines = heights.bar_lines(node);
    let within = c.0.saturating_sub(heights.bar_cross(node));
    let row = within / lines.max(1);
    let place = within % lines.max(1);
    Some(Spot {
        tap: heights.tap_at(node, row)?,
        line: heights.line_at(node, place)?,
        column: first_of_line(heights, node, place).saturating_add(row),
        low: row < heights.bar_ports(node),
    })
}

/// The place of the first crosspoint of a line, line by line.
pub(crate) fn first_of_line(heights: &Heights, node: u32, place: u32) -> u32 {
    let before = place.saturating_mul(heights.bar_taps(node));
    heights.bar_cross(node).saturating_add(before)
}

impl Pools {
    /// With room for nothing.
    pub(crate) fn bare(alloc: Global) -> Pools {
        Pools {
            pools: Vec::new(alloc),
            rows: NumberBits::bare(alloc),
            columns: NumberBits::bare(alloc),
            left: Vec::new(alloc),
        }
    }

    /// Nothing is left of any crossbar.
    pub(crate) fn new(alloc: Global, shape: &Shape) -> Result<Pools, AllocError> {
        let mut pools = Pools::bare(alloc);
        pools.rows.widen(shape.crosses())?;
        pools.columns.widen(shape.crosses())?;
        pools.left.resize(shape.wires() as usize, 0)?;
        pools.widen(alloc, shape.nodes())?;
        Ok(pools)
    }

    // Takes room for each crossbar.
    fn widen(&mut self, alloc: Global, nodes: u32) -> Result<(), AllocError> {
        'nodes: for _node in 0..nodes {
            self.pools.push(Pool {
                taps: Vec::new(alloc),
                lines: Vec::new(alloc),
                left: 0,
                low: 0,
                low_all: 0,
            })?;
        }
        Ok(())
    }

    /// How many crosspoints of a crossbar are left.
    pub(crate) fn left_of(&self, node: u32) -> u32 {
        match self.pools.get(node as usize) {
            Some(pool) => pool.left,
            None => 0,
        }
    }

    /// Whether a crosspoint is left.
    pub(crate) fn has(&self, c: Cross) -> bool {
        self.rows.has(c.0)
    }

    /// How many crosspoints of a wire are left.
    pub(crate) fn left(&self, w: Wire) -> u32 {
        self.left.get(w.0 as usize).copied().unwrap_or(0)
    }

    /// Whether few crosspoints of the ports of a node to its lines are decided. Climbs need them.
    pub(crate) fn is_young(&self, node: u32) -> bool {
        match self.pools.get(node as usize) {
            Some(pool) => node > 0 && pool.low.saturating_mul(YOUNG_SHARE) > pool.low_all,
            None => false,
        }
    }

    // Nothing is left of the crossbar of a node.
    fn clear_pool(&mut self, heights: &Heights, node: u32) {
        let ports = heights.bar_ports(node);
        let at = node as usize;
        if at < self.pools.len() {
            self.pools[at].taps.clear();
            self.pools[at].lines.clear();
            self.pools[at].left = 0;
            self.pools[at].low = 0;
            self.pools[at].low_all = ports.saturating_mul(heights.bar_lines(node));
        }
    }

    // Nothing is left of any wire.
    fn clear_wires(&mut self) {
        'wires: for at in 0..self.left.len() {
            if at < self.left.len() {
                self.left[at] = 0;
            }
        }
    }

    /// Nothing is left.
    pub(crate) fn clear(&mut self, heights: &Heights) {
        self.rows.clear();
        self.columns.clear();
        self.clear_wires();
        'nodes: for node in 0..heights.nodes() {
            self.clear_pool(heights, node);
        }
    }

    // Counts one more or one less of a crossbar.
    fn count(&mut self, node: u32, low: bool, more: bool) {
        let at = node as usize;
        if at < self.pools.len() {
            self.pools[at].left = change(self.pools[at].left, more);
            if low {
                self.pools[at].low = change(self.pools[at].low, more);
            }
        }
    }

    // Counts one more or one less of a wire.
    fn count_wire(&mut self, w: Wire, more: bool) {
        let at = w.0 as usize;
        if at < self.left.len() {
            self.left[at] = change(self.left[at], more);
        }
    }

    // Remembers the wires of which something is left again.
    fn list_ends(&mut self, node: u32, spot: Spot) -> Result<(), AllocError> {
        let new_tap = self.left(spot.tap) == 0;
        let new_line = self.left(spot.line) == 0;
        let at = node as usize;
        if at >= self.pools.len() {
            return Ok(());
        }
        if new_tap {
            self.pools[at].taps.push(spot.tap)?;
        }
        if new_line {
            self.pools[at].lines.push(spot.line)?;
        }
        Ok(())
    }

    /// A crosspoint of a crossbar is left to be tried.
    pub(crate) fn put(&mut self, heights: &Heights, node: u32, c: Cross) -> Result<(), AllocError> {
        let Some(spot) = spot_of(heights, node, c) else {
            return Ok(());
        };
        if self.has(c) {
            return Ok(());
        }
        self.list_ends(node, spot)?;
        self.rows.insert(c.0);
        self.columns.insert(spot.column);
        self.count_wire(spot.tap, true);
        self.count_wire(spot.line, true);
        self.count(node, spot.low, true);
        Ok(())
    }

    /// A crosspoint of a crossbar is tried: it isn't left any more.
    pub(crate) fn take(&mut self, heights: &Heights, node: u32, c: Cross) {
        let Some(spot) = spot_of(heights, node, c) else {
            return;
        };
        if !self.has(c) {
            return;
        }
        self.rows.remove(c.0);
        self.columns.remove(spot.column);
        self.count_wire(spot.tap, false);
        self.count_wire(spot.line, false);
        self.count(node, spot.low, false);
    }

    // What is undecided of a tap, if it is known, to known lines is left.
    fn fill_row(
        &mut self,
        board: &Board,
        heights: &Heights,
        node: u32,
        tap: Wire,
    ) -> Result<(), AllocError> {
        'lines: for place in 0..heights.bar_lines(node) {
            let Some(line) = heights.line_at(node, place) else {
                continue;
            };
            let Some(c) = heights.cross_of(node, tap, line) else {
                continue;
            };
            if board.is_undecided(c) && board.has(line) {
                self.put(heights, node, c)?;
            }
        }
        Ok(())
    }

    /// All undecided crosspoints between known wires of a crossbar are left.
    pub(crate) fn fill(
        &mut self,
        board: &Board,
        heights: &Heights,
        node: u32,
    ) -> Result<(), AllocError> {
        'taps: for place in 0..heights.bar_taps(node) {
            let Some(tap) = heights.tap_at(node, place) else {
                continue;
            };
            if board.has(tap) {
                self.fill_row(board, heights, node, tap)?;
            }
        }
        Ok(())
    }

    // Takes a wire of which nothing is left out of a list.
    fn drop_wire(&mut self, node: u32, of_taps: bool, place: usize) {
        let at = node as usize;
        if at >= self.pools.len() {
            return;
        }
        if of_taps {
            if place < self.pools[at].taps.len() {
                self.pools[at].taps.swap_remove(place);
            }
        } else if place < self.pools[at].lines.len() {
            self.pools[at].lines.swap_remove(place);
        }
    }

    // How many taps or lines of a crossbar are listed.
    fn listed(&self, node: u32, of_taps: bool) -> usize {
        match self.pools.get(node as usize) {
            Some(pool) => {
                if of_taps {
                    pool.taps.len()
                } else {
                    pool.lines.len()
                }
            }
            None => 0,
        }
    }

    // The tap or line of a crossbar at a place of its list.
    fn listed_wire(&self, node: u32, of_taps: bool, place: usize) -> Option<Wire> {
        let pool = self.pools.get(node as usize)?;
        if of_taps {
            pool.taps.get(place).copied()
        } else {
            pool.lines.get(place).copied()
        }
    }

    /// A tap or a line of a crossbar, which is drawn of those of which something is left.
    pub(crate) fn any_wire(&mut self, draws: &mut Draws, node: u32, of_taps: bool) -> Option<Wire> {
        'wires: for _wire in 0..self.listed(node, of_taps) {
            let place = draws.draw_below(self.listed(node, of_taps));
            let w = self.listed_wire(node, of_taps, place)?;
            if self.left(w) > 0 {
                return Some(w);
            }
            self.drop_wire(node, of_taps, place);
        }
        None
    }

    /// The first crosspoint that is left of a tap with this first crosspoint, of those from one of its lines on and before another: the
    /// place of the line.
    pub(crate) fn next_line(&self, first: u32, from: u32, end: u32) -> Option<u32> {
        let found = self
            .rows
            .first(first.saturating_add(from), first.saturating_add(end))?;
        Some(found.saturating_sub(first))
    }

    /// The same of a line, by its first place line by line: the place of the tap.
    pub(crate) fn next_tap(&self, first: u32, from: u32, end: u32) -> Option<u32> {
        let found = self
            .columns
            .first(first.saturating_add(from), first.saturating_add(end))?;
        Some(found.saturating_sub(first))
    }
}
