//! The forest that stays from load to load: each known wire hangs on one foot, on the tree of one pin of the machine.
//!
//! Of the two feet of a wire the one on the smaller tree stays. So a load is the load before but for what it adds, and no two wires that
//! are hung need climbs of their own: it is enough that their trees differ.

use crate::board::Board;
use crate::draws::Draws;
use crate::feet::{Link, Support, SupportedBy, VerifiedWire};
use crate::heights::{HEIGHTS, Heights};
use crate::number_bits::NumberBits;
use machine_shape::{Cross, Shape, Wire};
use std::alloc::{AllocError, Global};

/// From which height on a wire has mostly kept crosspoints to lower ones on many trees.
const FAR_HEIGHT: usize = 6;

/// How often a foot is drawn for a wire below that height when the forest is planted anew, and how many that can be had are enough.
const NEAR_DRAWS: (u32, u32) = (200, 64);

/// The same for the other wires.
const FAR_DRAWS: (u32, u32) = (12, 3);

/// How many trees are few: then it is looked whether each height hangs on all of them.
const FEW_TREES: usize = 32;

/// What a share of trees is said in.
pub(crate) const QUARTERS: usize = 4;

/// The tree of a wire that hangs nowhere.
const NO_TREE: u32 = u32::MAX;

/// The forest that loads hold: which known wires hang, and over which crosspoints.
#[derive(Drop)]
pub struct PlannedForest {
    // The known wires in their order, and the place of each.
    pub(crate) steps: Vec<VerifiedWire>,
    ranks: Vec<u32>,
    // The foot of each known wire, the pin of its tree, and how many wires each tree has.
    feet: Vec<Option<Support>>,
    trees: Vec<u32>,
    sizes: Vec<u32>,
    // The wires that hang in the next load: all known ones below a height whose feet do.
    held: NumberBits,
    below: usize,
    /// Their links, in an order in which they can be laid.
    pub links: Vec<Link>,
    /// How often it was laid anew: then the links are others, and else they only become more.
    pub round: u64,
}

// How many of few flags are set.
fn count_set(flags: &[bool]) -> usize {
    let mut count: usize = 0;
    'flags: for flag in flags {
        if *flag {
            count = count.saturating_add(1);
        }
    }
    count
}

impl PlannedForest {
    // Takes room for each wire and each tree.
    fn widen(&mut self, shape: &Shape) -> Result<(), AllocError> {
        let wires = shape.wires() as usize;
        self.ranks.resize(wires, u32::MAX)?;
        self.feet.resize(wires, None)?;
        self.trees.resize(wires, NO_TREE)?;
        self.sizes.resize(shape.pins() as usize, 0)?;
        self.held.widen(shape.wires())
    }

    /// With room for nothing.
    pub(crate) fn bare(alloc: Global) -> PlannedForest {
        PlannedForest {
            steps: Vec::new(alloc),
            ranks: Vec::new(alloc),
            feet: Vec::new(alloc),
            trees: Vec::new(alloc),
            sizes: Vec::new(alloc),
            held: NumberBits::bare(alloc),
            below: HEIGHTS,
            links: Vec::new(alloc),
            round: 0,
        }
    }

    /// Nothing hangs, as nothing is known.
    pub(crate) fn new(alloc: Global, shape: &Shape) -> Result<PlannedForest, AllocError> {
        let mut forest = PlannedForest::bare(alloc);
        forest.widen(shape)?;
        Ok(forest)
    }

    /// The pin of the tree on which a known wire hangs.
    pub(crate) fn tree(&self, w: Wire) -> u32 {
        self.trees.get(w.0 as usize).copied().unwrap_or(NO_TREE)
    }

    /// Whether a wire hangs in the next load.
    pub(crate) fn holds(&self, w: Wire) -> bool {
        self.held.has(w.0)
    }

    /// Whether all known wires hang that can.
    pub(crate) fn is_whole(&self) -> bool {
        self.below >= HEIGHTS
    }

    // How many wires the tree of a wire has.
    fn size_at(&self, w: Wire) -> u32 {
        let tree = self.tree(w) as usize;
        self.sizes.get(tree).copied().unwrap_or(u32::MAX)
    }

    // A wire hangs on a foot, or is a pin of the machine.
    fn set_foot(&mut self, w: Wire, foot: Option<Support>, tree: u32) {
        let at = w.0 as usize;
        if at < self.feet.len() && at < self.trees.len() {
            self.feet[at] = foot;
            self.trees[at] = tree;
        }
        let size = tree as usize;
        if size < self.sizes.len() {
            self.sizes[size] = self.sizes[size].saturating_add(1);
        }
    }

    // The one of two feet on the smaller tree.
    fn lighter(&self, first: Support, second: Support) -> Support {
        if self.size_at(first.wire) <= self.size_at(second.wire) {
            first
        } else {
            second
        }
    }

    // Hangs a known wire, over this foot if there is one, or else over one of the two on which it stands.
    fn hang(&mut self, step: VerifiedWire, drawn: Option<Support>) {
        match step.stand {
            SupportedBy::Pin(pin) => self.set_foot(step.wire, None, pin),
            SupportedBy::Feet(first, second) => {
                let foot = match drawn {
                    Some(foot) => foot,
                    None => self.lighter(first, second),
                };
                let tree = self.tree(foot.wire);
                self.set_foot(step.wire, Some(foot), tree);
            }
        }
    }

    // The link by which a known wire hangs in the next load, if what it hangs on does.
    fn link_of(&self, w: Wire) -> Option<Link> {
        let foot = self.feet.get(w.0 as usize).copied()?;
        match foot {
            Some(foot) => {
                if !self.holds(foot.wire) {
                    return None;
                }
                Some(Link {
                    cross: foot.cross,
                    from: foot.wire,
                    to: w,
                })
            }
            None => Some(Link {
                cross: Cross(0),
                from: w,
                to: w,
            }),
        }
    }

    // A known wire hangs in the next load, if it is low enough and what it hangs on does.
    fn hold_one(&mut self, heights: &Heights, w: Wire) -> Result<(), AllocError> {
        if heights.height(w) >= self.below {
            return Ok(());
        }
        if let Some(link) = self.link_of(w) {
            self.links.push(link)?;
            self.held.insert(w.0);
        }
        Ok(())
    }

    /// A further wire is known. It hangs on the one of its feet on the smaller tree.
    pub(crate) fn learn(
        &mut self,
        heights: &Heights,
        step: VerifiedWire,
    ) -> Result<(), AllocError> {
        let at = step.wire.0 as usize;
        if at < self.ranks.len() {
            self.ranks[at] = u32::try_from(self.steps.len()).unwrap_or(u32::MAX);
        }
        self.steps.push(step)?;
        self.hang(step, None);
        self.hold_one(heights, step.wire)
    }

    /// In the next load all known wires below a height hang, and no other.
    pub(crate) fn hold(&mut self, heights: &Heights, below: usize) -> Result<(), AllocError> {
        self.below = below;
        self.held.clear();
        self.links.clear();
        self.round = self.round.saturating_add(1);
        'steps: for at in 0..self.steps.len() {
            if let Some(step) = self.steps.get(at).copied() {
                self.hold_one(heights, step.wire)?;
            }
        }
        Ok(())
    }

    // The place of a known wire in their order.
    fn rank(&self, w: Wire) -> u32 {
        self.ranks.get(w.0 as usize).copied().unwrap_or(u32::MAX)
    }

    // Whether a wire may hang over a link: its crosspoint is kept, and its wire was known before.
    fn may_hang(&self, board: &Board, w: Wire, link: Support) -> bool {
        board.is_kept(link.cross) && board.has(link.wire) && self.rank(link.wire) < self.rank(w)
    }

    // Of some links of a wire to lower ones that are drawn, the one on the smallest tree.
    fn drawn_foot(
        &self,
        board: &Board,
        heights: &Heights,
        draws: &mut Draws,
        w: Wire,
    ) -> Option<Support> {
        let near = heights.height(w) < FAR_HEIGHT;
        let (most, enough) = if near { NEAR_DRAWS } else { FAR_DRAWS };
        let mut best: Option<Support> = None;
        let mut good: u32 = 0;
        'draws: for _draw in 0..most {
            if good >= enough {
                break;
            }
            let link = heights.link(w, draws.draw_under(heights.ups(w)))?;
            if self.may_hang(board, w, link) {
                good = good.saturating_add(1);
                best = match best {
                    Some(found) => Some(self.lighter(found, link)),
                    None => Some(link),
                };
            }
        }
        best
    }

    // No tree has a wire.
    fn clear_sizes(&mut self) {
        'trees: for at in 0..self.sizes.len() {
            if at < self.sizes.len() {
                self.sizes[at] = 0;
            }
        }
    }

    // Draws all feet anew.
    fn draw_feet(&mut self, board: &Board, heights: &Heights, draws: &mut Draws) {
        self.clear_sizes();
        'steps: for at in 0..self.steps.len() {
            if let Some(step) = self.steps.get(at).copied() {
                let drawn = self.drawn_foot(board, heights, draws, step.wire);
                self.hang(step, drawn);
            }
        }
    }

    /// Whether the known wires of each height hang on so many quarters of all trees, or of as many trees as there are of them. Where there
    /// are many trees, that isn't asked.
    pub(crate) fn is_spread(&self, heights: &Heights, quarters: usize) -> bool {
        if self.sizes.len() > FEW_TREES {
            return true;
        }
        'heights: for height in 0..HEIGHTS {
            let (wires, trees) = self.spread_at(heights, height);
            let most = wires.min(self.sizes.len());
            if trees.saturating_mul(QUARTERS) < most.saturating_mul(quarters) {
                return false;
            }
        }
        true
    }

    // How many known wires there are of a height, and on how many trees they hang, of few ones.
    fn spread_at(&self, heights: &Heights, height: usize) -> (usize, usize) {
        let mut wires: usize = 0;
        let mut trees: [bool; FEW_TREES] = [false; FEW_TREES];
        'steps: for step in &self.steps {
            let tree = self.tree(step.wire) as usize;
            if heights.height(step.wire) == height && tree < FEW_TREES {
                wires = wires.saturating_add(1);
                trees[tree] = true;
            }
        }
        (wires, count_set(&trees))
    }

    /// Draws all feet anew, at most as often as is wanted, until they are spread over the wanted quarters of few trees. Then all known
    /// wires hang.
    pub(crate) fn plant(
        &mut self,
        board: &Board,
        heights: &Heights,
        draws: &mut Draws,
        wanted: (u32, usize),
    ) -> Result<(), AllocError> {
        'draws: for _draw in 0..wanted.0 {
            self.draw_feet(board, heights, draws);
            if self.is_spread(heights, wanted.1) {
                break;
            }
        }
        self.hold(heights, HEIGHTS)
    }
}
