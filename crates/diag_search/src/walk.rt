//! Walks over crosspoints.

use crate::board::Board;
use crate::feet::Support;
use machine_shape::{Cross, Wire};
use std::alloc::{AllocError, Global};

/// Wires, and the crosspoint between each and the next one.
#[derive(Drop)]
pub struct Walk {
    pub wires: Vec<Wire>,
    pub crosses: Vec<Cross>,
}

impl Walk {
    /// No wire.
    pub(crate) fn new(alloc: Global) -> Walk {
        Walk {
            wires: Vec::new(alloc),
            crosses: Vec::new(alloc),
        }
    }

    /// No wire, and room for so many crosspoints.
    pub(crate) fn with_room(alloc: Global, crosses: usize) -> Result<Walk, AllocError> {
        Ok(Walk {
            wires: Vec::with_capacity(alloc, crosses.saturating_add(1))?,
            crosses: Vec::with_capacity(alloc, crosses)?,
        })
    }

    /// Goes on to a wire.
    pub(crate) fn push(&mut self, over: Cross, to: Wire) -> Result<(), AllocError> {
        self.wires.push(to)?;
        self.crosses.push(over)?;
        Ok(())
    }

    /// The wire at a place, or the first wire of the machine behind the end.
    pub fn wire(&self, place: usize) -> Wire {
        self.wires.get(place).copied().unwrap_or(Wire(0))
    }

    /// The crosspoint at a place, and the wire behind it.
    pub fn foot(&self, place: usize) -> Support {
        Support {
            cross: self.crosses.get(place).copied().unwrap_or(Cross(0)),
            wire: self.wire(place.saturating_add(1)),
        }
    }

    /// The last wire.
    pub(crate) fn end(&self) -> Wire {
        self.wire(self.wires.len().saturating_sub(1))
    }

    /// Uses all wires.
    pub(crate) fn take(&self, board: &mut Board) {
        'wires: for w in &self.wires {
            board.take(*w);
        }
    }

    /// Uses none of its wires any more.
    pub(crate) fn release(&self, board: &mut Board) {
        'wires: for w in &self.wires {
            board.release(*w);
        }
    }

    /// Whether this load uses none of its wires.
    pub(crate) fn is_idle(&self, board: &Board) -> bool {
        'wires: for w in &self.wires {
            if !board.is_idle(*w) {
                return false;
            }
        }
        true
    }

    /// Goes on over a walk that begins where this one ends.
    pub(crate) fn add_all(&mut self, more: &Walk) -> Result<(), AllocError> {
        'crosses: for at in 0..more.crosses.len() {
            let foot = more.foot(at);
            self.push(foot.cross, foot.wire)?;
        }
        Ok(())
    }

    /// The same walk from its last wire to its first.
    pub(crate) fn turned(&self, alloc: Global) -> Result<Walk, AllocError> {
        let mut walk = Walk::with_room(alloc, self.crosses.len())?;
        walk.wires.push(self.end())?;
        'crosses: for k in 0..self.crosses.len() {
            let at = self.crosses.len().saturating_sub(k).saturating_sub(1);
            walk.push(self.foot(at).cross, self.wire(at))?;
        }
        Ok(walk)
    }

    /// A stretch of it, from one of its crosspoints to another, which is left out.
    pub(crate) fn cut(&self, alloc: Global, begin: usize, end: usize) -> Result<Walk, AllocError> {
        let room = end.min(self.crosses.len()).saturating_sub(begin);
        let mut stretch = Walk::with_room(alloc, room)?;
        stretch.wires.push(self.wire(begin))?;
        'crosses: for at in begin..end.min(self.crosses.len()) {
            let foot = self.foot(at);
            stretch.push(foot.cross, foot.wire)?;
        }
        Ok(stretch)
    }

    /// How many of its crosspoints aren't decided.
    pub(crate) fn count_undecided(&self, board: &Board) -> u32 {
        let mut count: u32 = 0;
        'crosses: for c in &self.crosses {
            if board.is_undecided(*c) {
                count = count.saturating_add(1);
            }
        }
        count
    }

    /// The place behind the last of its first undecided crosspoints, of so many.
    pub(crate) fn end_of(&self, board: &Board, most: u32) -> usize {
        let mut count: u32 = 0;
        let mut end = 0;
        'crosses: for at in 0..self.crosses.len() {
            if count >= most {
                break;
            }
            if board.is_undecided(self.foot(at).cross) {
                count = count.saturating_add(1);
                end = at.saturating_add(1);
            }
        }
        end
    }

    /// The place of its first crosspoint that isn't decided.
    pub(crate) fn first_undecided(&self, board: &Board) -> usize {
        'crosses: for at in 0..self.crosses.len() {
            if board.is_undecided(self.foot(at).cross) {
                return at;
            }
        }
        self.crosses.len()
    }

    /// Its stretch from the first undecided crosspoint to the last one.
    pub(crate) fn trim(&self, alloc: Global, board: &Board) -> Result<Walk, AllocError> {
        let begin = self.first_undecided(board);
        self.cut(alloc, begin, self.end_of(board, u32::MAX))
    }
}
