//! Stretches of walks through a crossbar, over crosspoints that are tried.

use crate::climbs::Climb;
use crate::feet::Support;
use crate::landings::Ends;
use crate::pools::first_of_line;
use crate::search::Search;
use crate::walk::Walk;
use machine_shape::{Cross, Wire};
use std::alloc::AllocError;

/// The most crosspoints that are tried on one walk.
pub(crate) const MOST_TRIED: u64 = 400;

/// More wires than a machine can have.
const MOST_WIRES: u32 = 2_000_000;

/// How often a wire is drawn that follows over a kept crosspoint.
const KEPT_DRAWS: u32 = 12;

/// How often a beginning is drawn in a crossbar. The first draws are ports of its node, and so are the last, from which two crosspoints at
/// least are tried: a wire without a kept crosspoint to a port is gone through by two that aren't decided, or not at all.
const BEGIN_DRAWS: u32 = 8;

const PORT_BEGINS: u32 = 2;

const LONG_BEGINS: u32 = 4;

const LEAST_LONG: u64 = 2;

/// How often a stretch is taken back for a wire from which a climb succeeds.
const MOST_ENDS: u32 = 6;

/// What a walk is made of: the climb from where it begins, what is tried, and the climb to where it ends.
#[derive(Drop)]
pub(crate) struct Course {
    pub near: Climb,
    pub stretch: Walk,
    pub far: Climb,
}

impl Search {
    // Of the places of a tap's lines from one on and before another the first over which something is left to a line that isn't used. The
    // tap has this first crosspoint.
    fn line_within(&self, node: u32, first: u32, begin: u32, end: u32) -> Option<Support> {
        let mut from = begin;
        'places: for _place in begin..end {
            let place = self.pools.next_line(first, from, end)?;
            let wire = self.heights.line_at(node, place)?;
            if !self.board.is_used(wire) {
                let cross = Cross(first.saturating_add(place));
                return Some(Support { cross, wire });
            }
            from = place.saturating_add(1);
        }
        None
    }

    // The same of a line, by its place, and its taps.
    fn tap_within(&self, node: u32, line: u32, begin: u32, end: u32) -> Option<Support> {
        let first = first_of_line(&self.heights, node, line);
        let mut from = begin;
        'places: for _place in begin..end {
            let place = self.pools.next_tap(first, from, end)?;
            let wire = self.heights.tap_at(node, place)?;
            if !self.board.is_used(wire) {
                let within = place.saturating_mul(self.heights.bar_lines(node));
                let row = self.heights.bar_cross(node).saturating_add(within);
                let cross = Cross(row.saturating_add(line));
                return Some(Support { cross, wire });
            }
            from = place.saturating_add(1);
        }
        None
    }

    // A crosspoint of a tap that is left to be tried, to a line that isn't used.
    fn untried_line(&mut self, node: u32, tap: Wire) -> Option<Support> {
        let count = self.heights.bar_lines(node);
        let begin = self.draws.draw_under(count);
        let first = self.heights.row(tap, node)?;
        match self.line_within(node, first, begin, count) {
            Some(step) => Some(step),
            None => self.line_within(node, first, 0, begin),
        }
    }

    // A crosspoint of a line that is left to be tried, to a tap that isn't used: a port of the node alone, where the crossbar is young.
    fn untried_tap(&mut self, node: u32, line: Wire) -> Option<Support> {
        let count = if self.pools.is_young(node) {
            self.heights.bar_ports(node)
        } else {
            self.heights.bar_taps(node)
        };
        let begin = self.draws.draw_under(count);
        let place = self.heights.line_place(line, node);
        match self.tap_within(node, place, begin, count) {
            Some(step) => Some(step),
            None => self.tap_within(node, place, 0, begin),
        }
    }

    // A crosspoint of a wire that is left to be tried, to a wire that isn't used.
    fn untried_step(&mut self, node: u32, at: Wire) -> Option<Support> {
        if self.pools.left(at) == 0 {
            return None;
        }
        if self.heights.is_line(at) {
            return self.untried_tap(node, at);
        }
        self.untried_line(node, at)
    }

    // The crosspoint of two wires of a crossbar, one of which is a line.
    fn cross_between(&self, node: u32, a: Wire, b: Wire) -> Option<Cross> {
        if self.heights.is_line(a) {
            return self.heights.cross_of(node, b, a);
        }
        self.heights.cross_of(node, a, b)
    }

    // A kept crosspoint of a wire to one that isn't used and of which something is left.
    fn kept_step(&mut self, node: u32, at: Wire) -> Option<Support> {
        let to_taps = self.heights.is_line(at);
        'draws: for _draw in 0..KEPT_DRAWS {
            let wire = self.pools.any_wire(&mut self.draws, node, to_taps)?;
            let cross = self.cross_between(node, at, wire)?;
            if self.board.is_kept(cross) && !self.board.is_used(wire) {
                return Some(Support { cross, wire });
            }
        }
        None
    }

    // Whether the last crosspoint of a stretch is tried.
    fn ends_tried(&self, stretch: &Walk) -> bool {
        match stretch.crosses.last() {
            Some(cross) => self.pools.has(*cross),
            None => false,
        }
    }

    // The next step of a stretch: over a crosspoint that is tried, or, behind one, over a kept one.
    fn next_step(&mut self, node: u32, stretch: &Walk) -> Option<Support> {
        let at = stretch.end();
        if let Some(step) = self.untried_step(node, at) {
            return Some(step);
        }
        if self.pools.is_young(node) {
            return None;
        }
        if !stretch.crosses.is_empty() && !self.ends_tried(stretch) {
            return None;
        }
        self.kept_step(node, at)
    }

    /// How many crosspoints are tried on one walk, so that half of the walks lead: fewer, where walks found more stuck.
    pub(crate) fn limit(&self) -> u64 {
        let decided = self.walking.decided.saturating_add(64);
        let found = self.walking.found.saturating_add(1);
        (decided.saturating_mul(7) / found.saturating_mul(10).max(1)).clamp(1, MOST_TRIED)
    }

    // Lays a stretch through a crossbar from a wire on, over so many crosspoints that are tried. Its wires are used then.
    fn lay_stretch(&mut self, node: u32, from: Wire, limit: u64) -> Result<Walk, AllocError> {
        let mut tried: u64 = 0;
        let mut stretch = Walk::new(self.alloc);
        stretch.wires.push(from)?;
        'steps: for _step in 0..MOST_WIRES {
            if tried >= limit {
                break;
            }
            let Some(step) = self.next_step(node, &stretch) else {
                break;
            };
            self.board.take(step.wire);
            tried = tried.saturating_add(u64::from(self.pools.has(step.cross)));
            stretch.push(step.cross, step.wire)?;
        }
        Ok(stretch)
    }

    // Takes a stretch back by one wire.
    fn take_back(&mut self, stretch: &mut Walk) {
        self.board.release(stretch.end());
        stretch.wires.pop();
        stretch.crosses.pop();
    }

    // Takes a stretch back to a wire from which a climb succeeds, behind a crosspoint that is tried.
    fn end_stretch(&mut self, node: u32, stretch: &mut Walk, end: Option<Wire>) -> Option<Climb> {
        let mut misses: u32 = 0;
        'wires: for _wire in 0..MOST_WIRES {
            if stretch.crosses.is_empty() || misses >= MOST_ENDS {
                break;
            }
            if self.ends_tried(stretch) {
                if let Some(far) = self.climb(node, stretch.end(), end) {
                    return Some(far);
                }
                misses = misses.saturating_add(1);
            }
            self.take_back(stretch);
        }
        None
    }

    // A port of the node that is drawn, if something is left of it.
    fn port_beginning(&mut self, node: u32) -> Option<Wire> {
        let place = self.draws.draw_under(self.heights.bar_ports(node));
        let port = self.heights.tap_at(node, place)?;
        if self.pools.left(port) == 0 {
            None
        } else {
            Some(port)
        }
    }

    // A wire of a crossbar where a stretch may begin: at first a port of the node, and in a young crossbar always.
    fn beginning(&mut self, node: u32, draw: u32) -> Option<Wire> {
        let young = self.pools.is_young(node);
        if young || draw < PORT_BEGINS || draw >= LONG_BEGINS {
            if let Some(port) = self.port_beginning(node) {
                return Some(port);
            }
        }
        if young {
            return None;
        }
        self.pools.any_wire(&mut self.draws, node, draw % 2 == 1)
    }

    // Lays a walk through a crossbar from a wire on.
    fn lay_from(
        &mut self,
        node: u32,
        from: Wire,
        ends: Ends,
        limit: u64,
    ) -> Result<Option<Course>, AllocError> {
        self.board.take(from);
        let Some(near) = self.climb(node, from, ends.near) else {
            self.board.release(from);
            return Ok(None);
        };
        let mut stretch = self.lay_stretch(node, from, limit)?;
        match self.end_stretch(node, &mut stretch, ends.far) {
            Some(far) => Ok(Some(Course { near, stretch, far })),
            None => {
                stretch.release(&mut self.board);
                near.release(self);
                self.count_landing_fail(node);
                Ok(None)
            }
        }
    }

    // Lays a walk through a crossbar between these ends, if it can.
    fn lay_between(&mut self, node: u32, ends: Ends) -> Result<Option<Course>, AllocError> {
        let limit = self.limit();
        'draws: for draw in 0..BEGIN_DRAWS {
            let long = if draw < LONG_BEGINS { 0 } else { LEAST_LONG };
            let Some(from) = self.beginning(node, draw) else {
                continue;
            };
            if self.board.is_used(from) {
                continue;
            }
            if let Some(course) = self.lay_from(node, from, ends, limit.max(long))? {
                return Ok(Some(course));
            }
        }
        Ok(None)
    }

    /// Lays a walk through a crossbar, over crosspoints that are left to be tried. None where none can be laid.
    pub(crate) fn lay_course(&mut self, node: u32) -> Result<Option<Course>, AllocError> {
        match self.next_ends(node) {
            Some(ends) => self.lay_between(node, ends),
            None => Ok(None),
        }
    }

    /// A walk over a stretch that was tried before, between the next ends. None where none can be laid.
    pub(crate) fn lay_over(
        &mut self,
        node: u32,
        stretch: Walk,
    ) -> Result<Option<Course>, AllocError> {
        let Some(ends) = self.next_ends(node) else {
            return Ok(None);
        };
        stretch.take(&mut self.board);
        let Some(near) = self.climb(node, stretch.wire(0), ends.near) else {
            stretch.release(&mut self.board);
            self.count_landing_fail(node);
            return Ok(None);
        };
        match self.climb(node, stretch.end(), ends.far) {
            Some(far) => Ok(Some(Course { near, stretch, far })),
            None => {
                stretch.release(&mut self.board);
                near.release(self);
                self.count_landing_fail(node);
                Ok(None)
            }
        }
    }
}
