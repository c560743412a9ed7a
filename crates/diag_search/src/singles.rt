//! Walks over one crosspoint each, between two wires that hang on trees which the load hasn't joined.
//!
//! All known wires hang then. Such a walk decides its crosspoint, whatever it is, so a load decides nearly as many as there are pins.
//! Longer walks decide more, but where few lines stand for many pins, as the walks of a load lead over two crosspoints of a line at most,
//! or where most of the crosspoints are stuck.

use crate::flags::set_flag;
use crate::pools::first_of_line;
use crate::search::Search;
use crate::walk::Walk;
use crate::walks::Trial;
use machine_shape::Wire;
use std::alloc::AllocError;

/// Up to how many crosspoints of a longer walk walks over one decide as many.
const MOST_SHORT: u64 = 2;

/// How many crosspoints of a line all walks of a load lead over.
const CROSSES_A_LINE: u32 = 2;

// How many flags are set.
fn count_flags(flags: &Vec<bool>) -> usize {
    let mut count: usize = 0;
    'flags: for flag in flags {
        if *flag {
            count = count.saturating_add(1);
        }
    }
    count
}

impl Search {
    // How many lines have something left in the crossbar of a node. The trees of its wires of which something is left are marked.
    fn count_lines_in(&self, node: u32, trees: &mut Vec<bool>) -> u32 {
        let mut count: u32 = 0;
        'lines: for place in 0..self.heights.bar_lines(node) {
            let Some(line) = self.heights.line_at(node, place) else {
                continue;
            };
            if self.pools.left(line) > 0 {
                set_flag(trees, self.forest.tree(line), true);
                count = count.saturating_add(1);
            }
        }
        count
    }

    // The trees of the taps of the crossbar of a node of which something is left are marked.
    fn mark_taps_in(&self, node: u32, trees: &mut Vec<bool>) {
        'taps: for place in 0..self.heights.bar_taps(node) {
            let Some(tap) = self.heights.tap_at(node, place) else {
                continue;
            };
            if self.pools.left(tap) > 0 {
                set_flag(trees, self.forest.tree(tap), true);
            }
        }
    }

    // How many lines have something left, and how many trees the wires have of which something is left.
    fn count_left(&self) -> Result<(u32, usize), AllocError> {
        let mut trees = Vec::new(self.alloc);
        trees.resize(self.board.pins() as usize, false)?;
        let mut lines: u32 = 0;
        'nodes: for node in 0..self.heights.nodes() {
            if self.pools.left_of(node) > 0 {
                lines = lines.saturating_add(self.count_lines_in(node, &mut trees));
                self.mark_taps_in(node, &mut trees);
            }
        }
        Ok((lines, count_flags(&trees)))
    }

    /// Whether walks over one crosspoint each decide more in a load than longer ones.
    pub(crate) fn are_singles_best(&self) -> Result<bool, AllocError> {
        let (lines, trees) = self.count_left()?;
        let crosses = lines.saturating_mul(CROSSES_A_LINE) as usize;
        Ok(self.limit() <= MOST_SHORT || crosses < trees)
    }

    // A walk over the crosspoint of a tap and a line, if both hang on trees that aren't joined.
    fn lay_single(&mut self, node: u32, tap: Wire, line: Wire) -> Result<(), AllocError> {
        if !self.forest.holds(tap) || !self.forest.holds(line) {
            return Ok(());
        }
        let trees = (self.forest.tree(tap), self.forest.tree(line));
        if self.landings.joins.are_joined(trees.0, trees.1) {
            return Ok(());
        }
        let Some(cross) = self.heights.cross_of(node, tap, line) else {
            return Ok(());
        };
        let mut walk = Walk::new(self.alloc);
        walk.wires.push(tap)?;
        walk.push(cross, line)?;
        self.pools.take(&self.heights, node, cross);
        let trial = Trial::single(self.alloc, walk, node)?;
        self.push_single(trees, trial)
    }

    // Walks over crosspoints of a line to its taps from a place on and before another, up to so many walks.
    fn lay_singles_within(
        &mut self,
        node: u32,
        line: Wire,
        begin: u32,
        end: u32,
        most: usize,
    ) -> Result<(), AllocError> {
        let first = first_of_line(&self.heights, node, self.heights.line_place(line, node));
        let mut from = begin;
        'taps: for _tap in begin..end {
            if self.walking.trials.len() >= most {
                break;
            }
            let Some(place) = self.pools.next_tap(first, from, end) else {
                break;
            };
            from = place.saturating_add(1);
            if let Some(tap) = self.heights.tap_at(node, place) {
                self.lay_single(node, tap, line)?;
            }
        }
        Ok(())
    }

    // Walks over crosspoints of a line, up to so many walks.
    fn lay_singles_of(&mut self, node: u32, line: Wire, most: usize) -> Result<(), AllocError> {
        if self.pools.left(line) == 0 {
            return Ok(());
        }
        let count = self.heights.bar_taps(node);
        let begin = self.draws.draw_under(count);
        self.lay_singles_within(node, line, begin, count, most)?;
        self.lay_singles_within(node, line, 0, begin, most)
    }

    // Walks over crosspoints of a crossbar, up to so many walks.
    fn lay_singles_in(&mut self, node: u32, most: usize) -> Result<(), AllocError> {
        let count = self.heights.bar_lines(node);
        let begin = self.draws.draw_under(count);
        'lines: for k in 0..count {
            let place = begin.saturating_add(k) % count.max(1);
            if let Some(line) = self.heights.line_at(node, place) {
                self.lay_singles_of(node, line, most)?;
            }
        }
        Ok(())
    }

    /// Lays walks over one crosspoint each, up to so many.
    pub(crate) fn lay_singles(&mut self, most: usize) -> Result<(), AllocError> {
        'nodes: for _node in 0..self.walking.count_nodes() {
            if self.walking.trials.len() >= most {
                break;
            }
            let Some(node) = self.walking.next_node() else {
                break;
            };
            if self.pools.left_of(node) > 0 {
                self.lay_singles_in(node, most)?;
            }
        }
        Ok(())
    }
}
