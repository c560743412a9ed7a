//! What the search remembers of crosspoints and wires, and which of them a load uses.

use crate::number_bits::NumberBits;
use machine_shape::{Cross, Shape, Wire};
use std::alloc::{AllocError, Global};

/// What the search was told of a crosspoint.
#[derive(Clone, Copy, PartialEq, Eq)]
pub enum Mark {
    /// It is kept.
    Kept,
    /// It is neither kept nor marked.
    Undecided,
    /// It is found stuck, or not of the field.
    Barred,
}

/// What the search remembers of crosspoints and wires.
#[derive(Drop)]
pub(crate) struct Board {
    // The crosspoints that are kept, and those that aren't decided; all others are barred.
    kept: NumberBits,
    undecided: NumberBits,
    known: NumberBits,
    // The wires of the field.
    field: Vec<bool>,
    // How many pins of the machine there are, and how many are known. They are the first wires.
    pins: u32,
    known_pins: u32,
    // Which load is laid; and of each wire and of each tree the last load that used it.
    turn: u32,
    used: Vec<u32>,
    busy: Vec<u32>,
}

impl Board {
    /// With room for nothing.
    pub(crate) fn bare(alloc: Global) -> Board {
        Board {
            kept: NumberBits::bare(alloc),
            undecided: NumberBits::bare(alloc),
            known: NumberBits::bare(alloc),
            field: Vec::new(alloc),
            pins: 0,
            known_pins: 0,
            turn: 0,
            used: Vec::new(alloc),
            busy: Vec::new(alloc),
        }
    }

    // Takes room for what is known of each crosspoint, wire and tree.
    fn widen(&mut self, shape: &Shape) -> Result<(), AllocError> {
        let wires = shape.wires() as usize;
        self.kept.widen(shape.crosses())?;
        self.undecided.widen(shape.crosses())?;
        self.known.widen(shape.wires())?;
        self.field.resize(wires, false)?;
        self.used.resize(wires, 0)?;
        self.busy.resize(shape.pins() as usize, 0)?;
        self.pins = shape.pins();
        Ok(())
    }

    /// The board before the first load. No wire is known or of the field, and no crosspoint may be tried.
    pub(crate) fn new(alloc: Global, shape: &Shape) -> Result<Board, AllocError> {
        let mut board = Board::bare(alloc);
        board.widen(shape)?;
        Ok(board)
    }

    /// Remembers what is known of a crosspoint.
    pub(crate) fn set_mark(&mut self, c: Cross, mark: Mark) {
        self.kept.set(c.0, mark == Mark::Kept);
        self.undecided.set(c.0, mark == Mark::Undecided);
    }

    /// Whether a crosspoint is kept.
    pub(crate) fn is_kept(&self, c: Cross) -> bool {
        self.kept.has(c.0)
    }

    /// Whether a crosspoint isn't decided.
    pub(crate) fn is_undecided(&self, c: Cross) -> bool {
        self.undecided.has(c.0)
    }

    /// Whether a crosspoint may not be tried, and isn't kept.
    pub(crate) fn is_barred(&self, c: Cross) -> bool {
        !self.is_kept(c) && !self.is_undecided(c)
    }

    /// How many pins of the machine are known.
    pub(crate) fn known_pins(&self) -> u32 {
        self.known_pins
    }

    /// How many pins of the machine there are.
    pub(crate) fn pins(&self) -> u32 {
        self.pins
    }

    /// Whether a wire is known.
    pub(crate) fn has(&self, w: Wire) -> bool {
        self.known.has(w.0)
    }

    /// Whether a wire is of the field.
    pub(crate) fn may_know(&self, w: Wire) -> bool {
        self.field.get(w.0 as usize).copied().unwrap_or(false)
    }

    /// A wire is of the field.
    pub(crate) fn allow(&mut self, w: Wire) {
        let at = w.0 as usize;
        if at < self.field.len() {
            self.field[at] = true;
        }
    }

    /// A wire is known.
    pub(crate) fn learn(&mut self, w: Wire) {
        if self.has(w) {
            return;
        }
        self.known.insert(w.0);
        if w.0 < self.pins {
            self.known_pins = self.known_pins.saturating_add(1);
        }
    }

    /// A new load, for which no wire and no tree is used.
    pub(crate) fn begin(&mut self) {
        self.turn = self.turn.saturating_add(1);
    }

    /// Whether this load uses a wire.
    pub(crate) fn is_used(&self, w: Wire) -> bool {
        self.used.get(w.0 as usize).copied().unwrap_or(self.turn) == self.turn
    }

    /// A wire is used.
    pub(crate) fn take(&mut self, w: Wire) {
        let at = w.0 as usize;
        if at < self.used.len() {
            self.used[at] = self.turn;
        }
    }

    /// A wire isn't used any more.
    pub(crate) fn release(&mut self, w: Wire) {
        let at = w.0 as usize;
        if at < self.used.len() {
            self.used[at] = 0;
        }
    }

    /// Whether a wire is known and this load doesn't use it.
    pub(crate) fn is_idle(&self, w: Wire) -> bool {
        self.has(w) && !self.is_used(w)
    }

    /// Whether this load uses a tree.
    pub(crate) fn is_busy(&self, tree: u32) -> bool {
        self.busy.get(tree as usize).copied().unwrap_or(self.turn) == self.turn
    }

    /// A tree is used.
    pub(crate) fn occupy(&mut self, tree: u32) {
        let at = tree as usize;
        if at < self.busy.len() {
            self.busy[at] = self.turn;
        }
    }

    /// A tree isn't used any more.
    pub(crate) fn vacate(&mut self, tree: u32) {
        let at = tree as usize;
        if at < self.busy.len() {
            self.busy[at] = 0;
        }
    }
}
