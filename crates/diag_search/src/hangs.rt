//! Which wires hang in the next load: each over two crosspoints, to known wires on two trees that no other uses.

use crate::feet::Support;
use crate::flags::in_set;
use crate::search::Search;
use base_bits::BitSet;
use machine_shape::{Shape, Wire};
use std::alloc::{AllocError, Global};

/// How often a wire is hung at least and at most; and for how many that come to be known, by what came of those that were hung before.
const LEAST_TRIES: u32 = 6;

const MOST_TRIES: u32 = 40;

const LEARNT_TRIES: u64 = 3;

/// From how many tries on one of two wires that are shorted to each other is left out now and then.
const EASY_TRIES: u32 = 2;

/// Of how many links a wire takes each in its turn, so that no two are tried over and over.
const FEW_LINKS: u32 = 8;

/// How many wires in a row may fail to hang.
const MOST_MISSES: u32 = 48;

/// How often it is tried to find wires that can hang.
const MOST_DRY: u32 = 3;

/// For how many pins of the machine a wire has to hang at least. A look goes over all pins for each of them: where they are many and few
/// wires hang, growth takes less.
pub(crate) const PINS_A_HANG: usize = 1_000;

/// Of how many wires it is taken at first that they hang and come to be known.
const FIRST_HANGS: u64 = 8;

/// A wire that isn't known, and two crosspoints to wires that hang on two trees.
#[derive(Clone, Copy)]
pub struct ChosenTest {
    pub wire: Wire,
    pub first: Support,
    pub second: Support,
}

/// Which wires are to be hung, and which are in the next load.
#[derive(Drop)]
pub struct HangBook {
    // How often each wire was hung; how many were hung in all loads, and how many came to be known by it.
    tries: Vec<u32>,
    hung: u64,
    learnt: u64,
    // The wires that are to be hung, and at which of them the next load begins.
    wanted: Vec<Wire>,
    at: usize,
    // Whether a wire may hang on any known one, or on lower ones alone; and how many hang in a load at most.
    on_any: bool,
    most: usize,
    /// What hangs in the next load.
    pub chosen: Vec<ChosenTest>,
}

impl HangBook {
    /// With room for nothing.
    pub(crate) fn bare(alloc: Global) -> HangBook {
        HangBook {
            tries: Vec::new(alloc),
            hung: 0,
            learnt: 0,
            wanted: Vec::new(alloc),
            at: 0,
            on_any: false,
            most: 0,
            chosen: Vec::new(alloc),
        }
    }

    /// No wire is to be hung.
    pub(crate) fn new(alloc: Global, shape: &Shape) -> Result<HangBook, AllocError> {
        let mut book = HangBook::bare(alloc);
        book.tries.resize(shape.wires() as usize, 0)?;
        Ok(book)
    }

    /// How often a wire was hung in this pass.
    pub fn tries_of(&self, w: Wire) -> u32 {
        self.tries.get(w.0 as usize).copied().unwrap_or(MOST_TRIES)
    }

    /// Whether a wire that was hung hasn't come to be known by it.
    pub(crate) fn has_missed(&self) -> bool {
        self.hung > self.learnt
    }

    // How often a wire is hung: more often where few of those that were hung have come to be known.
    fn most_tries(&self) -> u32 {
        let hung = self.hung.saturating_add(FIRST_HANGS);
        let learnt = self.learnt.saturating_add(FIRST_HANGS);
        let tries = hung.saturating_mul(LEARNT_TRIES) / learnt.max(1);
        u32::try_from(tries)
            .unwrap_or(MOST_TRIES)
            .clamp(LEAST_TRIES, MOST_TRIES)
    }

    // Takes the wire out at which the book is. The last one comes in its place.
    fn drop_one(&mut self) {
        if self.at < self.wanted.len() {
            self.wanted.swap_remove(self.at);
        }
    }

    // The wire at which the book is, counted around.
    fn here(&mut self) -> Option<Wire> {
        if self.at >= self.wanted.len() {
            self.at = 0;
        }
        self.wanted.get(self.at).copied()
    }
}

impl Search {
    // Whether a wire is to be hung: it is of the field, neither known nor found unfit, and wasn't hung too often.
    fn is_wanted(&self, unfit: &BitSet, w: Wire) -> bool {
        !self.board.has(w)
            && !in_set(unfit, w.0)
            && self.board.may_know(w)
            && self.hanging.tries_of(w) < self.hanging.most_tries()
    }

    // Wants a wire, if it is to be hung.
    fn want(&mut self, unfit: &BitSet, w: Wire) -> Result<(), AllocError> {
        if self.is_wanted(unfit, w) {
            self.hanging.wanted.push(w)?;
        }
        Ok(())
    }

    // Puts what is wanted into an order that is drawn, with all known wires in the forest.
    fn open_hangs(&mut self, on_any: bool, most: usize) -> Result<(), AllocError> {
        self.draws.shuffle(&mut self.hanging.wanted);
        self.hanging.at = 0;
        self.hanging.on_any = on_any;
        self.hanging.most = most;
        self.hold_all()
    }

    /// From now on the wires of a height are to be hung, on any known wires or on lower ones alone.
    pub fn want_height(
        &mut self,
        unfit: &BitSet,
        height: u32,
        on_any: bool,
    ) -> Result<(), AllocError> {
        self.hanging.wanted.clear();
        'wires: for at in 0..self.heights.level_len(height) {
            if let Some(w) = self.heights.level_wire(height, at) {
                self.want(unfit, w)?;
            }
        }
        self.open_hangs(on_any, usize::MAX)
    }

    /// From now on these wires are to be hung, on any known ones, and so many in a load at most.
    pub fn want_wires(
        &mut self,
        unfit: &BitSet,
        wires: &Vec<Wire>,
        most: usize,
    ) -> Result<(), AllocError> {
        self.hanging.wanted.clear();
        'wires: for w in wires {
            self.want(unfit, *w)?;
        }
        self.open_hangs(true, most)
    }

    // The next link of a wire, of so many counted around from a drawn one on, to a known wire on a tree that no other uses; and how many
    // links come before the one behind it.
    fn free_link(&self, w: Wire, count: u32, begin: u32, tried: u32) -> Option<(u32, Support)> {
        'links: for k in tried..count {
            let place = begin.saturating_add(k);
            let j = if place >= count { place - count } else { place };
            let Some(link) = self.heights.link(w, j) else {
                continue;
            };
            if self.board.has(link.wire)
                && !self.board.is_busy(self.forest.tree(link.wire))
                && !self.board.is_barred(link.cross)
            {
                return Some((k.saturating_add(1), link));
            }
        }
        None
    }

    // Over how many of its links a wire may hang.
    fn link_count(&self, w: Wire) -> u32 {
        if self.hanging.on_any {
            self.heights.links(w)
        } else {
            self.heights.ups(w)
        }
    }

    // Whether a wire was hung twice as often as there are pairs of its links to known wires: it can hardly hang, however often it is tried.
    fn has_tried_all(&self, w: Wire) -> bool {
        let tries = self.hanging.tries_of(w);
        let mut feet: u32 = 0;
        'links: for j in 0..self.link_count(w) {
            if feet.saturating_mul(feet.saturating_sub(1)) > tries {
                return false;
            }
            let Some(link) = self.heights.link(w, j) else {
                continue;
            };
            if self.board.has(link.wire) && !self.board.is_barred(link.cross) {
                feet = feet.saturating_add(1);
            }
        }
        feet.saturating_mul(feet.saturating_sub(1)) <= tries
    }

    // The link of a wire, of so many, from which on two are sought: it is drawn, but where there are few and the wire was hung before,
    // each in its turn.
    fn first_place(&mut self, w: Wire, count: u32) -> u32 {
        let tries = self.hanging.tries_of(w);
        if tries == 0 || count > FEW_LINKS {
            return self.draws.draw_under(count);
        }
        w.0.saturating_add(tries) % count.max(1)
    }

    // Two crosspoints of a wire to known wires on two trees that no other uses. These are used then.
    fn two_feet(&mut self, w: Wire) -> Option<(Support, Support)> {
        let count = self.link_count(w);
        let begin = self.first_place(w, count);
        let (tried, first) = self.free_link(w, count, begin, 0)?;
        let tree = self.forest.tree(first.wire);
        self.board.occupy(tree);
        match self.free_link(w, count, begin, tried) {
            Some((_tried, second)) => {
                self.board.occupy(self.forest.tree(second.wire));
                Some((first, second))
            }
            None => {
                self.board.vacate(tree);
                None
            }
        }
    }

    // Whether a wire is left out of this load: it hangs in it already, or it was hung often, and it is drawn so or nothing is left to try.
    fn is_left_out(&mut self, w: Wire) -> bool {
        if self.board.is_used(w) {
            return true;
        }
        if self.hanging.tries_of(w) >= EASY_TRIES && self.has_tried_all(w) {
            return true;
        }
        self.hanging.tries_of(w) >= EASY_TRIES
            && !self.hanging.chosen.is_empty()
            && self.draws.coin()
    }

    // Hangs a wire in the next load. The number of wires that failed to hang since one did.
    fn try_hang(&mut self, w: Wire, misses: u32) -> Result<u32, AllocError> {
        if self.is_left_out(w) {
            return Ok(misses);
        }
        let Some((first, second)) = self.two_feet(w) else {
            return Ok(misses.saturating_add(1));
        };
        self.board.take(w);
        self.hanging.chosen.push(ChosenTest {
            wire: w,
            first,
            second,
        })?;
        Ok(0)
    }

    // Whether no further wire can hang in the next load.
    fn is_full(&self) -> bool {
        let hung = self.hanging.chosen.len();
        let trees = (self.board.known_pins() / 2) as usize;
        hung >= trees || hung >= self.hanging.most
    }

    // Goes once through the wires that are to be hung.
    fn fill_hangs(&mut self, unfit: &BitSet) -> Result<(), AllocError> {
        let mut misses = 0;
        self.hanging.chosen.clear();
        self.board.begin();
        'wires: for _k in 0..self.hanging.wanted.len() {
            if misses >= MOST_MISSES || self.is_full() {
                break;
            }
            let Some(w) = self.hanging.here() else {
                break;
            };
            if self.is_wanted(unfit, w) {
                self.hanging.at = self.hanging.at.saturating_add(1);
                misses = self.try_hang(w, misses)?;
            } else {
                self.hanging.drop_one();
            }
        }
        Ok(())
    }

    /// Chooses what hangs in the next load, of the wires that are to be hung and that weren't found unfit. There is none where none can.
    pub fn choose_hangs(&mut self, unfit: &BitSet) -> Result<(), AllocError> {
        'tries: for _try in 0..MOST_DRY {
            self.fill_hangs(unfit)?;
            if !self.hanging.chosen.is_empty() {
                break;
            }
        }
        if self.hanging.chosen.len().saturating_mul(PINS_A_HANG) < self.board.pins() as usize {
            self.hanging.chosen.clear();
        }
        Ok(())
    }

    /// Hangs nothing in the next load, where so many of these would hardly make a wire known, by how many came to be of those that were
    /// hung. Where most of the crosspoints are stuck and few wires can hang, loads take more than they bring.
    pub fn save_load(&mut self, loads: u64) {
        let hung = self.hanging.hung.saturating_add(FIRST_HANGS);
        let learnt = self.hanging.learnt.saturating_add(FIRST_HANGS);
        let all = (self.hanging.chosen.len() as u64).saturating_mul(loads);
        if learnt.saturating_mul(all) < hung {
            self.hanging.chosen.clear();
        }
    }

    /// So many of the wires that were hung have come to be known.
    pub fn count_learnt(&mut self, wires: usize) {
        self.hanging.learnt = self.hanging.learnt.saturating_add(wires as u64);
    }

    /// A wire was hung once more.
    pub fn count_try(&mut self, w: Wire) {
        let at = w.0 as usize;
        self.hanging.hung = self.hanging.hung.saturating_add(1);
        if at < self.hanging.tries.len() {
            self.hanging.tries[at] = self.hanging.tries[at].saturating_add(1);
        }
    }

    /// Each wire may be hung so often again.
    pub fn forget_tries(&mut self) {
        'wires: for at in 0..self.hanging.tries.len() {
            if at < self.hanging.tries.len() {
                self.hanging.tries[at] = 0;
            }
        }
    }
}
