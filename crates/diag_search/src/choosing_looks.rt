//! What hangs in the next look: wires that aren't known, each over one crosspoint, on trees of the forest that stays.

use crate::choosing::{Aim, Chooser, Still};
use crate::feet::Support;
use crate::flags::in_set;
use crate::hangs::PINS_A_HANG;
use crate::search::Search;
use base_bits::BitSet;
use machine_shape::{Cross, Wire};
use std::alloc::{AllocError, Global};

/// How many links of a wire are drawn, for one that can be had; and from how many draws on one will do whose crosspoint isn't kept.
const MOST_DRAWS: u32 = 40;

const KEPT_DRAWS: u32 = 12;

/// How many wires may not hang in one look.
const MOST_FAILS: u32 = 20;

/// How many suspects are few. Each hangs on a tree of its own then, as far as it can, that nothing else of the look is joined to.
const FEW_SUSPECTS: usize = 6;

/// In how many rounds for a choice no suspect may drop out: one that is on the tree of its wire, or a stuck crosspoint, shows nothing.
const MOST_DRY: u32 = 3;

/// More rounds of looks than are taken for one thing.
const MOST_ROUNDS: u32 = 64;

/// A look that is to be taken: the feet of wires that aren't known, on what hangs.
#[derive(Drop)]
pub struct Told {
    pub feet: Vec<(Wire, Cross)>,
}

/// At which values pins stay on which wires of a look hang, as far as was seen before. Two that stay at one value would hide each other.
#[derive(Clone, Copy)]
struct Stays {
    low: bool,
    high: bool,
}

impl Stays {
    // Whether a wire that stays so may hang in the look besides.
    fn has_room(&self, still: Still) -> bool {
        match still {
            Still::No => true,
            Still::Low => !self.low,
            Still::High => !self.high,
        }
    }

    // A wire that stays so hangs in the look.
    fn add(&mut self, still: Still) {
        self.low = self.low || still == Still::Low;
        self.high = self.high || still == Still::High;
    }
}

/// A look as it is laid: what hangs, at which values pins stay then, how many of its wires may be shorted to many others, and how many
/// couldn't hang.
#[derive(Drop)]
struct Look {
    feet: Vec<(Wire, Cross)>,
    stays: Stays,
    vague: usize,
    fails: u32,
}

impl Look {
    // Nothing hangs.
    fn new(alloc: Global) -> Look {
        Look {
            feet: Vec::new(alloc),
            stays: Stays {
                low: false,
                high: false,
            },
            vague: 0,
            fails: 0,
        }
    }
}

impl Search {
    // Whether a wire that isn't known may hang over a link in a look.
    fn may_tie(&self, link: Support) -> bool {
        self.board.has(link.wire)
            && !self.board.is_barred(link.cross)
            && !self.board.is_busy(self.forest.tree(link.wire))
    }

    // A crosspoint on which a wire hangs in a look, a kept one if one is drawn.
    fn tie(&mut self, w: Wire) -> Option<Support> {
        let count = self.heights.links(w);
        let mut found: Option<Support> = None;
        'draws: for draw in 0..MOST_DRAWS {
            if draw >= KEPT_DRAWS && found.is_some() {
                break;
            }
            let link = self.heights.link(w, self.draws.draw_under(count))?;
            if !self.may_tie(link) {
                continue;
            }
            if self.board.is_kept(link.cross) {
                return Some(link);
            }
            found = Some(link);
        }
        found
    }
}

impl Chooser {
    // Whether a wire is to be looked at.
    fn is_due(&self, search: &Search, unfit: &BitSet, w: Wire) -> bool {
        if self.knows(w) || !search.board.may_know(w) {
            return false;
        }
        match self.aim {
            Aim::Partners => self.suspect_count(w) != 1 && self.still_of(w) == Still::No,
            _ => !in_set(unfit, w.0),
        }
    }

    // Gathers the wires that are to be looked at in a round.
    fn gather_due(&mut self, search: &Search, unfit: &BitSet) -> Result<(), AllocError> {
        self.due.clear();
        self.later.clear();
        self.at = 0;
        'wires: for at in 0..self.wanted.len() {
            let Some(w) = self.wanted.get(at).copied() else {
                continue;
            };
            if self.is_due(search, unfit, w) {
                self.due.push(w)?;
            }
        }
        Ok(())
    }

    // Whether few suspects are left of a wire.
    fn has_few(&self, w: Wire) -> bool {
        let count = self.suspect_count(w);
        let names = self.aim == Aim::Partners || self.aim == Aim::Again;
        names && count > 0 && count <= FEW_SUSPECTS
    }

    // Puts the wires last that have few suspects: what others join would hide to which of these they are shorted.
    fn sort_due(&mut self, search: &mut Search) -> Result<(), AllocError> {
        search.draws.shuffle(&mut self.due);
        let mut many = Vec::new(self.alloc);
        let mut few = Vec::new(self.alloc);
        'wires: for w in &self.due {
            if self.has_few(*w) {
                few.push(*w)?;
            } else {
                many.push(*w)?;
            }
        }
        many.extend_from_slice(&few)?;
        self.due = many;
        Ok(())
    }

    // The few suspects of a wire. None where they are many.
    fn few_suspects(&self, w: Wire) -> Option<&Vec<Wire>> {
        if self.has_few(w) {
            return self.suspects_of(w);
        }
        None
    }

    // Whether something of the look is joined to a tree on which one of few suspects hangs.
    fn is_crowded(&self, search: &Search, w: Wire) -> bool {
        let Some(suspects) = self.few_suspects(w) else {
            return false;
        };
        'suspects: for u in suspects {
            if search.board.is_busy(search.forest.tree(*u)) {
                return true;
            }
        }
        false
    }

    // Nothing else may hang on the trees on which few suspects do, as long as their wire hangs in the look.
    fn hold_suspects(&self, search: &mut Search, w: Wire, hangs: bool) {
        let Some(suspects) = self.few_suspects(w) else {
            return;
        };
        'suspects: for u in suspects {
            let tree = search.forest.tree(*u);
            if hangs {
                search.board.occupy(tree);
            } else {
                search.board.vacate(tree);
            }
        }
    }

    // A crosspoint on which a wire hangs in a look, on another tree than its few suspects. The first of a look may hang with them.
    fn tie_apart(&self, search: &mut Search, look: &Look, w: Wire) -> Option<Support> {
        self.hold_suspects(search, w, true);
        if let Some(link) = search.tie(w) {
            return Some(link);
        }
        self.hold_suspects(search, w, false);
        if !look.feet.is_empty() || !self.has_few(w) {
            return None;
        }
        search.tie(w)
    }

    // Whether the last rounds for a choice have told nothing.
    fn is_dry(&mut self) -> bool {
        self.dry = if self.has_narrowed {
            0
        } else {
            self.dry.saturating_add(1)
        };
        self.aim == Aim::Partners && self.dry >= MOST_DRY
    }

    // A round begins.
    fn count_round(&mut self) {
        self.rounds = self.rounds.saturating_add(1);
        self.has_narrowed = false;
        self.has_trees = false;
    }

    // Begins a round, in which each wire is looked at once. For a choice the forest is another one then. False where no wire is to be
    // looked at any more, or the last rounds have told nothing.
    fn begin_round(&mut self, search: &mut Search, unfit: &BitSet) -> Result<bool, AllocError> {
        if self.rounds >= self.most_looks() {
            return Ok(false);
        }
        if self.is_dry() {
            return Ok(false);
        }
        self.gather_due(search, unfit)?;
        if self.due.is_empty() {
            return Ok(false);
        }
        self.sort_due(search)?;
        self.count_round();
        if self.aim == Aim::Partners {
            search.plant()?;
        } else {
            search.hold_all()?;
        }
        Ok(true)
    }

    // The next wire of the round, if there is one. Those that had to wait come last.
    fn next_due(&mut self) -> Option<Wire> {
        let w = self.due.get(self.at).copied()?;
        self.at = self.at.saturating_add(1);
        Some(w)
    }

    // Those that had to wait are the next.
    fn take_later(&mut self, alloc: Global) {
        if self.at >= self.due.len() {
            self.due = std::mem::replace(&mut self.later, Vec::new(alloc));
            self.at = 0;
        }
    }

    // Hangs a wire in the next look, if it is to be looked at and can be.
    fn try_due(
        &mut self,
        search: &mut Search,
        unfit: &BitSet,
        look: &mut Look,
        w: Wire,
    ) -> Result<(), AllocError> {
        if !self.is_due(search, unfit, w) {
            return Ok(());
        }
        let still = self.still_of(w);
        if !look.stays.has_room(still) || self.is_crowded(search, w) {
            self.later.push(w)?;
            return Ok(());
        }
        let Some(link) = self.tie_apart(search, look, w) else {
            look.fails = look.fails.saturating_add(1);
            return Ok(());
        };
        search.board.occupy(search.forest.tree(link.wire));
        look.stays.add(still);
        if !self.has_few(w) {
            look.vague = look.vague.saturating_add(1);
        }
        look.feet.push((w, link.cross))?;
        Ok(())
    }

    // Whether the next wire of the round isn't to hang in a look. One with few suspects hangs with others alone that have few.
    fn is_full(&self, search: &Search, look: &Look) -> bool {
        let vague = match self.due.get(self.at) {
            Some(w) => !self.has_few(*w),
            None => true,
        };
        if vague {
            return look.vague >= self.most_wires(search.board.pins());
        }
        look.vague > 0
    }

    // Hangs wires of the round for the next look.
    fn fill_look(&mut self, search: &mut Search, unfit: &BitSet) -> Result<Look, AllocError> {
        let mut look = Look::new(self.alloc);
        search.board.begin();
        self.take_later(self.alloc);
        'wires: for _wire in 0..self.due.len() {
            if look.fails >= MOST_FAILS || self.is_full(search, &look) {
                break;
            }
            let Some(w) = self.next_due() else {
                break;
            };
            self.try_due(search, unfit, &mut look, w)?;
        }
        Ok(look)
    }

    // Wires that hang in the next look. There are none where none is to be looked at, or none can.
    fn next_feet(
        &mut self,
        search: &mut Search,
        unfit: &BitSet,
    ) -> Result<Vec<(Wire, Cross)>, AllocError> {
        'rounds: for _round in 0..MOST_ROUNDS {
            let look = self.fill_look(search, unfit)?;
            if !look.feet.is_empty() {
                return Ok(look.feet);
            }
            let ended = self.at >= self.due.len() && self.later.is_empty();
            if ended && !self.begin_round(search, unfit)? {
                break;
            }
        }
        Ok(Vec::new(self.alloc))
    }

    /// The next look, with the wires that were found unfit. None where no wire is to be looked at, none can, or so few hang that it isn't
    /// worth its cycles.
    pub fn lay_look(
        &mut self,
        search: &mut Search,
        unfit: &BitSet,
    ) -> Result<Option<Told>, AllocError> {
        let feet = self.next_feet(search, unfit)?;
        let few = feet.len().saturating_mul(PINS_A_HANG) < search.board.pins() as usize;
        if feet.is_empty() || few {
            return Ok(None);
        }
        Ok(Some(Told { feet }))
    }
}
