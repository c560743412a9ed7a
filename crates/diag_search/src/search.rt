//! What the search has: what it was told, the forest that stays, and a book for each kind of load.

use crate::board::{Board, Mark};
use crate::draws::Draws;
use crate::feet::VerifiedWire;
use crate::forest::{PlannedForest, QUARTERS};
use crate::hangs::HangBook;
use crate::heights::{HEIGHTS, Heights};
use crate::landings::Landings;
use crate::pools::Pools;
use crate::tables::TableBook;
use crate::walks::WalkBook;
use machine_shape::{Cross, Shape, Wire};
use std::alloc::{AllocError, Global};

/// How often feet are drawn anew until each height hangs on all trees: at least and at most, and for all trees together.
const LEAST_PLANTS: u32 = 4;

const MOST_PLANTS: u32 = 32;

const PLANTS_OF_TREES: u32 = 128;

/// Most trees, in quarters, and how many pins are few.
const MOST_TREES: usize = 3;

const FEW_PINS: u32 = 8;

/// What the search remembers.
#[derive(Drop)]
pub struct Search {
    pub(crate) alloc: Global,
    pub(crate) shape: Shape,
    pub(crate) board: Board,
    pub(crate) heights: Heights,
    pub(crate) draws: Draws,
    // How many crosspoints were decided.
    decided: u64,
    /// What hangs in the next load.
    pub forest: PlannedForest,
    /// The wires that are tested in the next load.
    pub hanging: HangBook,
    /// The walks of the next load.
    pub walking: WalkBook,
    /// The tables of the next load.
    pub testing: TableBook,
    // What is left to walks, where they end, and how many steps a climb may still try.
    pub(crate) pools: Pools,
    pub(crate) landings: Landings,
    pub(crate) steps_left: u32,
}

impl Search {
    /// No search as yet, with room for nothing: it finds nothing.
    pub fn bare(alloc: Global, shape: &Shape) -> Search {
        Search {
            alloc,
            shape: *shape,
            board: Board::bare(alloc),
            heights: Heights::bare(alloc),
            draws: Draws::new(),
            decided: 0,
            forest: PlannedForest::bare(alloc),
            hanging: HangBook::bare(alloc),
            walking: WalkBook::bare(alloc),
            testing: TableBook::bare(alloc),
            pools: Pools::bare(alloc),
            landings: Landings::bare(alloc),
            steps_left: 0,
        }
    }

    /// The search in a machine of which nothing is told yet: no wire is known or of the field, and no crosspoint may be tried. Wants
    /// memory: some 5 bits for each crosspoint, and some 150 bytes for each wire.
    pub fn new(alloc: Global, shape: &Shape) -> Result<Search, AllocError> {
        let mut search = Search::bare(alloc, shape);
        search.board = Board::new(alloc, shape)?;
        search.heights = Heights::new(alloc, shape)?;
        search.forest = PlannedForest::new(alloc, shape)?;
        search.hanging = HangBook::new(alloc, shape)?;
        search.walking = WalkBook::new(alloc, shape)?;
        search.testing = TableBook::new(alloc, shape)?;
        search.pools = Pools::new(alloc, shape)?;
        search.landings = Landings::new(alloc, shape)?;
        Ok(search)
    }

    /// What is known of a crosspoint before the first load.
    pub fn mark(&mut self, c: Cross, mark: Mark) {
        self.board.set_mark(c, mark);
    }

    /// A wire is of the field.
    pub fn allow(&mut self, w: Wire) {
        self.board.allow(w);
    }

    /// Whether it was told that a wire is known.
    pub fn knows(&self, w: Wire) -> bool {
        self.board.has(w)
    }

    /// A wire is known, and stands so: on wires that came before it. It hangs from now on.
    pub fn learn(&mut self, step: VerifiedWire) -> Result<(), AllocError> {
        if self.board.has(step.wire) {
            return Ok(());
        }
        self.board.learn(step.wire);
        self.forest.learn(&self.heights, step)
    }

    // How often feet are drawn at most: the oftener the fewer trees there are.
    fn most_plants(&self) -> u32 {
        let share = PLANTS_OF_TREES / self.board.pins().max(1);
        share.clamp(LEAST_PLANTS, MOST_PLANTS)
    }

    /// Draws the feet of all known wires anew, a few times where they aren't spread over few trees.
    pub fn plant(&mut self) -> Result<(), AllocError> {
        let wanted = (self.most_plants(), self.wanted_quarters());
        self.forest
            .plant(&self.board, &self.heights, &mut self.draws, wanted)
    }

    /// Whether wires of one height hang on some of few trees, where more could be had: then fewer wires can be hung in a load.
    pub fn is_crowded(&self) -> bool {
        !self.forest.is_spread(&self.heights, self.wanted_quarters())
    }

    // On how many quarters of the trees a height should hang: on most of them, and on all once a wire was hung in vain. With few pins that
    // is asked then alone.
    fn wanted_quarters(&self) -> usize {
        if self.hanging.has_missed() {
            return QUARTERS;
        }
        if self.board.pins() > FEW_PINS {
            MOST_TREES
        } else {
            0
        }
    }

    /// From now on all known wires hang.
    pub fn hold_all(&mut self) -> Result<(), AllocError> {
        if self.forest.is_whole() {
            return Ok(());
        }
        self.forest.hold(&self.heights, HEIGHTS)
    }

    /// How many crosspoints were decided since the search began.
    pub fn decided(&self) -> u64 {
        self.decided
    }

    // Remembers a crosspoint that wasn't decided before.
    fn decide(&mut self, c: Cross, mark: Mark) {
        if self.board.is_undecided(c) {
            self.board.set_mark(c, mark);
            self.decided = self.decided.saturating_add(1);
        }
    }

    /// A crosspoint is kept.
    pub fn note_kept(&mut self, c: Cross) {
        self.decide(c, Mark::Kept);
    }

    /// A crosspoint was found stuck.
    pub fn note_stuck(&mut self, c: Cross) {
        self.decide(c, Mark::Barred);
    }
}
