//! Climbs: from a wire of a crossbar over kept crosspoints to where a walk ends, in three steps at most.

use crate::feet::Support;
use crate::search::Search;
use crate::walk::Walk;
use machine_shape::{Cross, Wire};
use std::alloc::AllocError;

/// How many steps a climb may try.
const MOST_STEPS: u32 = 48;

/// How many ports of a node are drawn for a step from one of its lines, and how many lines for one from another tap.
const PORT_DRAWS: u32 = 24;

const LINE_DRAWS: u32 = 16;

/// How many steps a climb has at most.
const LONGEST: usize = 3;

/// The steps of a climb, the last one first, and the pin of the tree that it comes to.
#[derive(Clone, Copy)]
pub(crate) struct Climb {
    steps: [Support; LONGEST],
    len: usize,
    pub tree: u32,
}

impl Climb {
    // No step: a wire that is where it should be.
    fn new(tree: u32) -> Climb {
        let none = Support {
            cross: Cross(0),
            wire: Wire(0),
        };
        Climb {
            steps: [none; LONGEST],
            len: 0,
            tree,
        }
    }

    // The same behind a step.
    fn behind(self, cross: Cross, wire: Wire) -> Climb {
        let mut climb = self;
        if climb.len < LONGEST {
            climb.steps[climb.len] = Support { cross, wire };
            climb.len += 1;
        }
        climb
    }

    /// The climb as a walk from a wire.
    pub(crate) fn walk(&self, from: Wire, search: &Search) -> Result<Walk, AllocError> {
        let mut walk = Walk::new(search.alloc);
        walk.wires.push(from)?;
        'steps: for k in 0..self.len.min(LONGEST) {
            let at = self.len.saturating_sub(k).saturating_sub(1);
            if at < LONGEST {
                walk.push(self.steps[at].cross, self.steps[at].wire)?;
            }
        }
        Ok(walk)
    }

    /// None of its wires is used any more.
    pub(crate) fn release(&self, search: &mut Search) {
        'steps: for at in 0..self.len.min(LONGEST) {
            search.board.release(self.steps[at].wire);
        }
    }
}

impl Search {
    // One step more is tried. False where there were too many.
    fn count_step(&mut self) -> bool {
        if self.steps_left == 0 {
            return false;
        }
        self.steps_left -= 1;
        true
    }

    // From a port of a node to a wire that hangs; at the root a pin of the machine is there.
    fn climb_port(&self, port: Wire, end: Option<Wire>) -> Option<Climb> {
        let Some(line) = end else {
            return Some(Climb::new(port.0));
        };
        let node = self.heights.home(line);
        let cross = self.heights.cross_of(node, port, line)?;
        if !self.board.is_kept(cross) {
            return None;
        }
        Some(Climb::new(self.forest.tree(line)).behind(cross, line))
    }

    // From a line of a node over one of its ports, which are drawn. The port is used then.
    fn climb_line(&mut self, node: u32, line: Wire, end: Option<Wire>) -> Option<Climb> {
        'draws: for _draw in 0..PORT_DRAWS {
            if !self.count_step() {
                return None;
            }
            let place = self.draws.draw_under(self.heights.bar_ports(node));
            let port = self.heights.tap_at(node, place)?;
            let cross = self.heights.cross_of(node, port, line)?;
            if !self.board.is_kept(cross) || !self.board.is_idle(port) {
                continue;
            }
            if let Some(climb) = self.climb_port(port, end) {
                self.board.take(port);
                return Some(climb.behind(cross, port));
            }
        }
        None
    }

    // From another tap of a crossbar over one of its lines, which are drawn. The line is used then.
    fn climb_tap(&mut self, node: u32, tap: Wire, end: Option<Wire>) -> Option<Climb> {
        'draws: for _draw in 0..LINE_DRAWS {
            if !self.count_step() {
                return None;
            }
            let place = self.draws.draw_under(self.heights.bar_lines(node));
            let line = self.heights.line_at(node, place)?;
            let cross = self.heights.cross_of(node, tap, line)?;
            if !self.board.is_kept(cross) || !self.board.is_idle(line) {
                continue;
            }
            self.board.take(line);
            if let Some(climb) = self.climb_line(node, line, end) {
                return Some(climb.behind(cross, line));
            }
            self.board.release(line);
        }
        None
    }

    /// A climb from a wire of a crossbar over wires that aren't used. Its wires are used then.
    pub(crate) fn climb(&mut self, node: u32, from: Wire, end: Option<Wire>) -> Option<Climb> {
        self.steps_left = MOST_STEPS;
        if self.heights.is_port(from, node) {
            return self.climb_port(from, end);
        }
        if self.heights.is_line(from) {
            return self.climb_line(node, from, end);
        }
        self.climb_tap(node, from, end)
    }
}
