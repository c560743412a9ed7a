//! Which of shorted wires stays: what the choice remembers.
//!
//! Where two wires are shorted, the sweep knows the one that came first, mostly a line, and a table loses the pin that is shorted to it.
//! Looks tell for such a pin to which known wires it can be shorted, its suspects. Where one is left for each pin of a table, these give
//! way. Nothing rests on it: a wire that gives way in vain is known again later, or another one that is shorted to it.

use crate::feet::VerifiedWire;
use crate::flags::{flag_at, in_set, set_flag};
use crate::search::Search;
use base_bits::BitSet;
use machine_shape::{Shape, Table, Wire};
use std::alloc::{AllocError, Global};

/// How often a wire is looked at for a choice.
const PARTNER_LOOKS: u32 = 16;

/// How often one is looked at that was unfit before a choice.
const AGAIN_LOOKS: u32 = 5;

/// How often one is looked at that is neither known nor unfit; and how often with few others, behind all passes.
const REST_LOOKS: u32 = 4;

const LEFT_LOOKS: u32 = 1;

/// Of how many pins of the machine one has a wire that isn't known; and of how many behind all passes, so that each is seen by itself.
const PINS_A_WIRE: u32 = 4;

const PINS_A_LEFT_WIRE: u32 = 16;

const PINS_A_LOST_WIRE: u32 = 7;

/// The place of the suspects of a wire of which nothing was seen.
const NO_SUSPECTS: u32 = u32::MAX;

/// What looks are for.
#[derive(Clone, Copy, PartialEq, Eq)]
pub enum Aim {
    /// To find the known wires to which pins of tables are shorted.
    Partners,
    /// To mark wires unfit that were before a choice.
    Again,
    /// To mark wires unfit that are neither known nor marked.
    Rest,
    /// The same behind all passes, few at a time.
    Left,
}

/// At which value a pin stayed on which a wire hung.
#[derive(Clone, Copy, PartialEq, Eq)]
pub enum Still {
    No,
    Low,
    High,
}

/// Known wires, to one of which a wire seems to be shorted.
#[derive(Drop)]
enum Suspects {
    /// These. None where nothing was seen of it.
    Own(Vec<Wire>),
    /// All on the tree of a pin, of the trees that were listed for a round.
    Tree { forest: usize, pin: u32 },
}

/// The wires on each tree of a forest, by its pin. First looks tell of most wires that they are shorted to one on some tree, so trees are
/// listed once for all of a round. Empty where no wire has a tree of it for suspects any more.
#[derive(Drop)]
struct TreeLists {
    trees: Vec<Vec<Wire>>,
}

/// A table, and those of its pins that aren't known.
#[derive(Drop)]
pub(crate) struct Lack {
    pub table: Table,
    pub pins: Vec<Wire>,
}

/// What the choice remembers. Where nothing else is said, there is an entry for each wire of the machine.
#[derive(Drop)]
pub struct Chooser {
    pub alloc: Global,
    pub(crate) shape: Shape,
    pub aim: Aim,
    // The known wires in their order, and of each wire whether it is known, and whether it is kept.
    pub(crate) steps: Vec<VerifiedWire>,
    pub(crate) known: Vec<bool>,
    pub kept: Vec<bool>,
    // The wires that the next looks are about.
    pub wanted: Vec<Wire>,
    // Those to be looked at in this round, at which of them the next look begins, and those that have to wait for a look of their own; how
    // many rounds were begun, whether suspects of a wire became fewer in the last one, and in how many one after the other none did.
    pub(crate) due: Vec<Wire>,
    pub(crate) at: usize,
    pub(crate) later: Vec<Wire>,
    pub(crate) rounds: u32,
    pub(crate) has_narrowed: bool,
    pub(crate) dry: u32,
    pub still: Vec<Still>,
    // The suspects of those wires that had some, and at which place of these those of a wire stand.
    suspects: Vec<Suspects>,
    suspects_at: Vec<u32>,
    // The trees of forests that wires have for suspects, and whether those of this round are the last of them.
    forests: Vec<TreeLists>,
    pub(crate) has_trees: bool,
    // The known wire to which one was found to be shorted; and of a wire that gave way, for which one.
    pub(crate) partner: Vec<Option<Wire>>,
    pub(crate) heir: Vec<Option<Wire>>,
    // Whether a wire is unfit, or was lost in growth; whether it gives way; and of each table whether it can't be used, and whether wires
    // gave way for it before.
    pub lost: Vec<bool>,
    pub(crate) given: Vec<bool>,
    pub(crate) dead: Vec<bool>,
    pub(crate) favoured: Vec<bool>,
    // The tables that would be free if all of their pins were known.
    pub(crate) lacks: Vec<Lack>,
    // The tables that the choice may free, and whether one was made before.
    pub(crate) gains: Vec<Table>,
    pub(crate) has_chosen: bool,
    // The wires that are hung before all others in the next sweep, and those to be marked again then.
    pub(crate) first: Vec<Wire>,
    pub(crate) again: Vec<Wire>,
}

/// The wire that stands at a wire's place.
pub(crate) fn wire_of(wires: &Vec<Option<Wire>>, w: Wire) -> Option<Wire> {
    wires.get(w.0 as usize).copied().unwrap_or(None)
}

/// Changes the wire that stands at a wire's place.
pub(crate) fn set_wire(wires: &mut Vec<Option<Wire>>, w: Wire, other: Option<Wire>) {
    if (w.0 as usize) < wires.len() {
        wires[w.0 as usize] = other;
    }
}

// A forest has a tree that a wire has for suspects.
fn mark_used(used: &mut Vec<bool>, forest: usize) {
    if forest < used.len() {
        used[forest] = true;
    }
}

impl Chooser {
    // Before the first choice, with room for nothing.
    fn bare(alloc: Global, shape: &Shape) -> Chooser {
        Chooser {
            alloc,
            shape: *shape,
            aim: Aim::Rest,
            steps: Vec::new(alloc),
            known: Vec::new(alloc),
            kept: Vec::new(alloc),
            wanted: Vec::new(alloc),
            due: Vec::new(alloc),
            at: 0,
            later: Vec::new(alloc),
            rounds: 0,
            has_narrowed: false,
            dry: 0,
            still: Vec::new(alloc),
            suspects: Vec::new(alloc),
            suspects_at: Vec::new(alloc),
            forests: Vec::new(alloc),
            has_trees: false,
            partner: Vec::new(alloc),
            heir: Vec::new(alloc),
            lost: Vec::new(alloc),
            given: Vec::new(alloc),
            dead: Vec::new(alloc),
            favoured: Vec::new(alloc),
            lacks: Vec::new(alloc),
            gains: Vec::new(alloc),
            has_chosen: false,
            first: Vec::new(alloc),
            again: Vec::new(alloc),
        }
    }

    // Takes room for each wire.
    fn widen_wires(&mut self) -> Result<(), AllocError> {
        let wires = self.shape.wires() as usize;
        self.known.resize(wires, false)?;
        self.kept.resize(wires, false)?;
        self.still.resize(wires, Still::No)?;
        self.suspects_at.resize(wires, NO_SUSPECTS)?;
        self.partner.resize(wires, None)?;
        self.heir.resize(wires, None)?;
        self.lost.resize(wires, false)?;
        self.given.resize(wires, false)?;
        Ok(())
    }

    // Takes room for each table.
    fn widen_tables(&mut self) -> Result<(), AllocError> {
        let tables = self.shape.tables() as usize;
        self.dead.resize(tables, false)?;
        self.favoured.resize(tables, false)?;
        Ok(())
    }

    // Takes room for each wire and each table.
    fn widen(&mut self) -> Result<(), AllocError> {
        self.widen_wires()?;
        self.widen_tables()
    }

    /// Before the first choice.
    pub fn new(alloc: Global, shape: &Shape) -> Result<Chooser, AllocError> {
        let mut chooser = Chooser::bare(alloc, shape);
        chooser.widen()?;
        Ok(chooser)
    }

    /// Whether a pin was seen to stay at one value with a wire.
    pub(crate) fn still_of(&self, w: Wire) -> Still {
        self.still.get(w.0 as usize).copied().unwrap_or(Still::No)
    }

    /// How often a wire is looked at for what is aimed at.
    pub(crate) fn most_looks(&self) -> u32 {
        match self.aim {
            Aim::Partners => PARTNER_LOOKS,
            Aim::Again => AGAIN_LOOKS,
            Aim::Rest => REST_LOOKS,
            Aim::Left => LEFT_LOOKS,
        }
    }

    /// How many of so many pins have a wire that isn't known in a look.
    pub(crate) fn most_wires(&self, pins: u32) -> usize {
        let share = match self.aim {
            Aim::Partners => PINS_A_LOST_WIRE,
            Aim::Left => PINS_A_LEFT_WIRE,
            _ => PINS_A_WIRE,
        };
        (pins / share.max(1)).max(1) as usize
    }

    // The place of a wire's suspects.
    fn place_of_suspects(&self, w: Wire) -> usize {
        self.suspects_at
            .get(w.0 as usize)
            .copied()
            .unwrap_or(NO_SUSPECTS) as usize
    }

    /// The known wires to one of which one seems to be shorted, if something was seen of it.
    pub fn suspects_of(&self, w: Wire) -> Option<&Vec<Wire>> {
        match self.suspects.get(self.place_of_suspects(w))? {
            Suspects::Own(wires) => Some(wires),
            Suspects::Tree { forest, pin } => self.forests.get(*forest)?.trees.get(*pin as usize),
        }
    }

    /// How many known wires one seems to be shorted to.
    pub fn suspect_count(&self, w: Wire) -> usize {
        match self.suspects_of(w) {
            Some(wires) => wires.len(),
            None => 0,
        }
    }

    // A wire has these suspects.
    fn put_suspects(&mut self, w: Wire, suspects: Suspects) -> Result<(), AllocError> {
        let place = self.place_of_suspects(w);
        if place < self.suspects.len() {
            self.suspects[place] = suspects;
            return Ok(());
        }
        let at = w.0 as usize;
        if at < self.suspects_at.len() {
            self.suspects_at[at] = u32::try_from(self.suspects.len()).unwrap_or(NO_SUSPECTS);
            self.suspects.push(suspects)?;
        }
        Ok(())
    }

    /// One seems to be shorted to these.
    pub fn set_suspects(&mut self, w: Wire, wires: Vec<Wire>) -> Result<(), AllocError> {
        let before = self.suspect_count(w);
        self.has_narrowed = self.has_narrowed || before == 0 || wires.len() < before;
        self.put_suspects(w, Suspects::Own(wires))
    }

    /// One of which nothing was seen seems to be shorted to one on this tree, of those that were listed last.
    pub fn suspect_tree(&mut self, w: Wire, pin: u32) -> Result<(), AllocError> {
        self.has_narrowed = true;
        let forest = self.forests.len().saturating_sub(1);
        self.put_suspects(w, Suspects::Tree { forest, pin })
    }

    /// Nothing was seen of a wire.
    pub fn clear_suspects(&mut self, w: Wire) {
        let place = self.place_of_suspects(w);
        if place < self.suspects.len() {
            self.suspects[place] = Suspects::Own(Vec::new(self.alloc));
        }
    }

    /// Nothing was seen of any wire.
    pub(crate) fn forget_suspects(&mut self) {
        self.suspects.clear();
        self.forests.clear();
        self.has_trees = false;
        'wires: for at in 0..self.suspects_at.len() {
            if at < self.suspects_at.len() {
                self.suspects_at[at] = NO_SUSPECTS;
            }
        }
    }

    /// Whether the trees of this round were listed.
    pub fn has_trees(&self) -> bool {
        self.has_trees
    }

    /// The wires on each tree, as they were listed last.
    pub fn last_trees(&self) -> Option<&Vec<Vec<Wire>>> {
        let last = self.forests.len().saturating_sub(1);
        match self.forests.get(last) {
            Some(lists) => Some(&lists.trees),
            None => None,
        }
    }

    // Which forests have a tree that a wire has for suspects.
    fn used_forests(&self) -> Result<Vec<bool>, AllocError> {
        let mut used = vec![in self.alloc; false; self.forests.len()]?;
        'suspects: for suspects in &self.suspects {
            if let Suspects::Tree { forest, .. } = suspects {
                mark_used(&mut used, *forest);
            }
        }
        Ok(used)
    }

    // Lets go of the trees of forests that no wire has for suspects any more.
    fn drop_trees(&mut self) -> Result<(), AllocError> {
        let used = self.used_forests()?;
        'forests: for at in 0..self.forests.len() {
            if at < self.forests.len() && !used.get(at).copied().unwrap_or(false) {
                self.forests[at].trees = Vec::new(self.alloc);
            }
        }
        Ok(())
    }

    /// Takes the wires on each tree of this round, by its pin.
    pub fn take_trees(&mut self, trees: Vec<Vec<Wire>>) -> Result<(), AllocError> {
        self.drop_trees()?;
        self.forests.push(TreeLists { trees })?;
        self.has_trees = true;
        Ok(())
    }

    // No round of looks was begun.
    fn forget_rounds(&mut self) {
        self.due.clear();
        self.later.clear();
        self.at = 0;
        self.rounds = 0;
        self.has_narrowed = true;
        self.dry = 0;
    }

    // All wires that were unfit before a choice.
    fn want_again(&mut self) -> Result<(), AllocError> {
        'wires: for at in 0..self.again.len() {
            if let Some(w) = self.again.get(at).copied() {
                self.wanted.push(w)?;
                self.recall(w)?;
            }
        }
        Ok(())
    }

    // Whether nothing is looked for: before all passes have been made, as long as no wire was found bad, so that hardly another one is.
    fn rests(&self, unfit: &BitSet, unclear: &BitSet) -> bool {
        self.aim == Aim::Rest && unfit.count() == 0 && unclear.count() == 0
    }

    // All wires that are neither known nor unfit.
    fn want_rest(&mut self, unfit: &BitSet, unclear: &BitSet) -> Result<(), AllocError> {
        if self.rests(unfit, unclear) {
            return Ok(());
        }
        'wires: for w in 0..self.shape.wires() {
            if !self.knows(Wire(w)) && !in_set(unfit, w) && !in_set(unclear, w) {
                self.wanted.push(Wire(w))?;
            }
        }
        Ok(())
    }

    /// No wire is known as yet.
    pub fn forget_known(&mut self) {
        self.steps.clear();
        'wires: for at in 0..self.known.len() {
            if at < self.known.len() {
                self.known[at] = false;
            }
        }
    }

    /// A further wire is known.
    pub fn push_known(&mut self, step: VerifiedWire) -> Result<(), AllocError> {
        set_flag(&mut self.known, step.wire.0, true);
        self.steps.push(step)?;
        Ok(())
    }

    /// Whether a wire is known.
    pub(crate) fn knows(&self, w: Wire) -> bool {
        flag_at(&self.known, w.0)
    }

    /// What the next looks are for, with the wires that were found unfit and unclear and the tables that are wrong. Which wires are known
    /// and which are lost was told.
    pub fn begin(
        &mut self,
        aim: Aim,
        unfit: &BitSet,
        unclear: &BitSet,
        wrong: &BitSet,
    ) -> Result<(), AllocError> {
        self.aim = aim;
        self.wanted.clear();
        self.forget_rounds();
        match aim {
            Aim::Partners => self.want_pins(unclear, wrong),
            Aim::Again => self.want_again(),
            _ => self.want_rest(unfit, unclear),
        }
    }

    /// From now on the wires are to be hung for which others gave way.
    pub fn hint(&self, search: &mut Search, unfit: &BitSet) -> Result<(), AllocError> {
        search.want_wires(unfit, &self.first, usize::MAX)
    }

    /// From now on the wires that the looks were about are to be hung, few at a time.
    pub fn hint_left(&self, search: &mut Search, unfit: &BitSet) -> Result<(), AllocError> {
        let most = self.most_wires(search.board.pins());
        search.want_wires(unfit, &self.wanted, most)
    }
}
