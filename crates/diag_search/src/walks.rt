//! Which walks are tried in the next load: each from a tree to another, over crosspoints of one crossbar.
//!
//! What hangs in a load of walks ends above the crossbars of one depth. Own ports of a node, its lines and its other taps are free for
//! walks, and a walk ends at two wires that hang. Trees are points and walks are edges, and they make no circle: so the pins of the two
//! ends read alike exactly where the walk between them leads.

use crate::groups::Group;
use crate::joins::{Turned, order_of};
use crate::search::Search;
use crate::stretches::Course;
use crate::walk::Walk;
use machine_shape::{Cross, Shape};
use std::alloc::{AllocError, Global};

/// For how many pins of the machine a walk has to be laid at least. A look goes over all pins for each of them: where they are many and few
/// walks are led, growth takes less.
const PINS_A_WALK: usize = 1_000;

/// How many crossbars in a row may have no walk for a load though ends are left.
const MOST_MISSES: u32 = 24;

/// How many groups are waited for, for each walk of a load, before further ones may come.
const GROUPS_A_WALK: usize = 3;

/// How often no walk may be found while no group is left.
const MOST_DRY: u32 = 3;

/// The most crosspoints of the climbs at both ends of a walk.
const CLIMBS: usize = 6;

/// More loads in a row than groups are missed before they are given up.
const MOST_EMPTY: u32 = 64;

/// A walk of a load, from a wire that hangs to another, or at the root from a pin of the machine to another.
#[derive(Drop)]
pub struct Trial {
    pub walk: Walk,
    // The crossbar, what is tried there, how much of it wasn't decided, and the group of which it is the beginning.
    node: u32,
    tried: Walk,
    left: u32,
    group: Option<usize>,
}

/// What came of a crossbar in which a walk was to be laid.
#[derive(Clone, Copy, PartialEq, Eq)]
enum Laying {
    /// One was.
    Laid,
    /// None can be in this load.
    Full,
    /// None was, though there are ends for one.
    Missed,
}

impl Trial {
    // No walk.
    fn none(alloc: Global) -> Trial {
        Trial {
            walk: Walk::new(alloc),
            node: 0,
            tried: Walk::new(alloc),
            left: 0,
            group: None,
        }
    }

    /// A walk over one crosspoint that isn't decided.
    pub(crate) fn single(alloc: Global, walk: Walk, node: u32) -> Result<Trial, AllocError> {
        let tried = walk.cut(alloc, 0, walk.crosses.len())?;
        Ok(Trial {
            walk,
            node,
            tried,
            left: 1,
            group: None,
        })
    }
}

/// The walks of the next load, and what remains of those before.
#[derive(Drop)]
pub struct WalkBook {
    /// The walks of the next load, listed so that the tree at the end of each is at no end of an earlier one.
    pub trials: Vec<Trial>,
    pub(crate) groups: Vec<Group>,
    pub(crate) at_group: usize,
    // Whether walks lead over one crosspoint each, and the depth of their crossbars.
    single: bool,
    depth: u32,
    // The trees at the ends of the walks.
    trees: Vec<(u32, u32)>,
    // The crossbars in which something is left, at which of them the next load begins, of each whether it is among them, and the last
    // load in which no walk could be laid there.
    nodes: Vec<u32>,
    at_node: usize,
    listed: Vec<bool>,
    full: Vec<u64>,
    load: u64,
    // How often no walk was found, and how many crosspoints of groups were given up in this phase.
    dry: u32,
    pub(crate) given_up: u64,
    // How many crosspoints walks have decided, and how many of these are stuck.
    pub(crate) decided: u64,
    pub(crate) found: u64,
}

impl WalkBook {
    /// With room for nothing.
    pub(crate) fn bare(alloc: Global) -> WalkBook {
        WalkBook {
            trials: Vec::new(alloc),
            groups: Vec::new(alloc),
            at_group: 0,
            single: false,
            depth: 0,
            trees: Vec::new(alloc),
            nodes: Vec::new(alloc),
            at_node: 0,
            listed: Vec::new(alloc),
            full: Vec::new(alloc),
            load: 0,
            dry: 0,
            given_up: 0,
            decided: 0,
            found: 0,
        }
    }

    /// No walk.
    pub(crate) fn new(alloc: Global, shape: &Shape) -> Result<WalkBook, AllocError> {
        let mut book = WalkBook::bare(alloc);
        book.listed.resize(shape.nodes() as usize, false)?;
        book.full.resize(shape.nodes() as usize, 0)?;
        Ok(book)
    }

    // Whether no walk can be laid in a crossbar in this load, as far as is known.
    fn is_full(&self, node: u32) -> bool {
        self.full.get(node as usize).copied().unwrap_or(self.load) == self.load
    }

    // No further walk is laid in a crossbar in this load.
    fn set_full(&mut self, node: u32) {
        let at = node as usize;
        if at < self.full.len() {
            self.full[at] = self.load;
        }
    }

    // A crossbar is gone through in each load.
    fn list(&mut self, node: u32) -> Result<(), AllocError> {
        let at = node as usize;
        if at < self.listed.len() && !self.listed[at] {
            self.listed[at] = true;
            self.nodes.push(node)?;
        }
        Ok(())
    }

    // The crossbar at which the book is, counted around.
    fn here(&mut self) -> Option<u32> {
        if self.at_node >= self.nodes.len() {
            self.at_node = 0;
        }
        self.nodes.get(self.at_node).copied()
    }

    /// How many crossbars are gone through.
    pub(crate) fn count_nodes(&self) -> usize {
        self.nodes.len()
    }

    /// The crossbar at which the book is, counted around, and goes on to the next one.
    pub(crate) fn next_node(&mut self) -> Option<u32> {
        let node = self.here();
        self.at_node = self.at_node.saturating_add(1);
        node
    }

    // Takes the crossbar out at which the book is. The last one comes in its place.
    fn drop_here(&mut self) {
        if self.at_node >= self.nodes.len() {
            return;
        }
        let node = self.nodes.swap_remove(self.at_node);
        if (node as usize) < self.listed.len() {
            self.listed[node as usize] = false;
        }
    }

    // No crossbar is gone through, and there are no groups.
    fn clear(&mut self) {
        self.trials.clear();
        self.groups.clear();
        self.nodes.clear();
        self.at_group = 0;
        self.at_node = 0;
        self.dry = 0;
        self.given_up = 0;
        'nodes: for at in 0..self.listed.len() {
            if at < self.listed.len() {
                self.listed[at] = false;
            }
        }
    }
}

impl Search {
    // A crossbar of the depth of a phase is gone through, if something is left there.
    fn open_bar(&mut self, node: u32) -> Result<(), AllocError> {
        self.pools.fill(&self.board, &self.heights, node)?;
        if self.pools.left_of(node) > 0 {
            self.walking.list(node)?;
        }
        Ok(())
    }

    // Begins with walks through crossbars of the depth of this phase: only what is above these hangs.
    fn begin_long(&mut self) -> Result<(), AllocError> {
        let depth = self.walking.depth;
        self.walking.single = false;
        self.forest
            .hold(&self.heights, depth.saturating_mul(2) as usize)?;
        self.gather_landings(depth)
    }

    // The same with walks over one crosspoint each, if these are best: all that is known hangs.
    fn begin_lengths(&mut self) -> Result<(), AllocError> {
        if self.are_singles_best()? {
            self.walking.single = true;
            return self.hold_all();
        }
        self.begin_long()
    }

    /// Begins with walks through the crossbars of a depth.
    pub fn begin_walks(&mut self, depth: u32) -> Result<(), AllocError> {
        self.walking.clear();
        self.walking.depth = depth;
        self.pools.clear(&self.heights);
        'nodes: for node in 0..self.heights.nodes() {
            if self.heights.depth(node) == depth {
                self.open_bar(node)?;
            }
        }
        self.begin_lengths()
    }

    /// The crossbar of a group is gone through again.
    pub(crate) fn list_node(&mut self, group: usize) -> Result<(), AllocError> {
        match self.walking.groups.get(group) {
            Some(group) => {
                let node = group.node;
                self.walking.list(node)
            }
            None => Ok(()),
        }
    }

    // The walk of a course: from where the near climb ends to where the far one does.
    fn walk_of(&self, course: &Course) -> Result<Walk, AllocError> {
        let from = course.stretch.wire(0);
        let near = course.near.walk(from, self)?.turned(self.alloc)?;
        let far = course.far.walk(course.stretch.end(), self)?;
        let crosses = course.stretch.crosses.len().saturating_add(CLIMBS);
        let mut walk = Walk::with_room(self.alloc, crosses)?;
        walk.wires.push(near.wire(0))?;
        walk.add_all(&near)?;
        walk.add_all(&course.stretch)?;
        walk.add_all(&far)?;
        Ok(walk)
    }

    /// A course is tried, as the beginning of a group or anew. Its trees are joined.
    pub(crate) fn push_trial(
        &mut self,
        node: u32,
        group: Option<usize>,
        course: Course,
    ) -> Result<(), AllocError> {
        let walk = self.walk_of(&course)?;
        let trees = (course.near.tree, course.far.tree);
        let left = course.stretch.count_undecided(&self.board);
        self.landings.joins.join(trees.0, trees.1);
        self.walking.trees.push(trees)?;
        self.walking.trials.push(Trial {
            walk,
            node,
            tried: course.stretch,
            left,
            group,
        })?;
        Ok(())
    }

    /// A walk over one crosspoint is tried. Its trees are joined.
    pub(crate) fn push_single(
        &mut self,
        trees: (u32, u32),
        trial: Trial,
    ) -> Result<(), AllocError> {
        self.landings.joins.join(trees.0, trees.1);
        self.walking.trees.push(trees)?;
        self.walking.trials.push(trial)?;
        Ok(())
    }

    // The crosspoints of a stretch aren't left any more.
    fn take_stretch(&mut self, node: u32, stretch: &Walk) {
        'crosses: for c in &stretch.crosses {
            self.pools.take(&self.heights, node, *c);
        }
    }

    // Lays a walk through a crossbar. False where none can be laid.
    fn lay_bar(&mut self, node: u32) -> Result<bool, AllocError> {
        match self.lay_course(node)? {
            Some(course) => {
                self.take_stretch(node, &course.stretch);
                self.push_trial(node, None, course)?;
                Ok(true)
            }
            None => Ok(false),
        }
    }

    // A walk couldn't be laid in a crossbar. Where ends are left for one, it may be tried once more in this load.
    fn note_bar_fail(&mut self, node: u32) -> Laying {
        if self.next_ends(node).is_none() {
            self.walking.set_full(node);
            return Laying::Full;
        }
        if self.draws.coin() {
            self.walking.set_full(node);
        }
        Laying::Missed
    }

    // Tries a walk in the crossbar at which the book is, and goes on to the next one.
    fn lay_here(&mut self, node: u32) -> Result<Laying, AllocError> {
        self.walking.at_node = self.walking.at_node.saturating_add(1);
        if self.walking.is_full(node) {
            return Ok(Laying::Full);
        }
        if self.lay_bar(node)? {
            return Ok(Laying::Laid);
        }
        Ok(self.note_bar_fail(node))
    }

    // Lays walks through crossbars, up to so many, until none can be laid.
    fn lay_bars(&mut self, most: usize) -> Result<(), AllocError> {
        let mut none: usize = 0;
        let mut misses: u32 = 0;
        let steps = most.saturating_add(MOST_MISSES as usize);
        let steps = steps.saturating_mul(self.walking.nodes.len().saturating_add(1));
        'bars: for _step in 0..steps {
            if self.walking.trials.len() >= most
                || none >= self.walking.nodes.len()
                || misses >= MOST_MISSES
            {
                break;
            }
            let Some(node) = self.walking.here() else {
                break;
            };
            if self.pools.left_of(node) == 0 {
                self.walking.drop_here();
                continue;
            }
            match self.lay_here(node)? {
                Laying::Laid => {
                    none = 0;
                    misses = 0;
                }
                Laying::Full => {
                    none = none.saturating_add(1);
                }
                Laying::Missed => {
                    none = none.saturating_add(1);
                    misses = misses.saturating_add(1);
                }
            }
        }
        Ok(())
    }

    // Takes a walk out, turned around if need be.
    fn take_trial(&mut self, turned: Turned) -> Result<Option<Trial>, AllocError> {
        if turned.place >= self.walking.trials.len() {
            return Ok(None);
        }
        let none = Trial::none(self.alloc);
        let mut trial = std::mem::replace(&mut self.walking.trials[turned.place], none);
        if turned.turned {
            trial.walk = trial.walk.turned(self.alloc)?;
        }
        Ok(Some(trial))
    }

    // The walks of a load as they are listed.
    fn list_trials(&mut self, order: &Vec<Turned>) -> Result<Vec<Trial>, AllocError> {
        let mut listed = Vec::new(self.alloc);
        'trials: for turned in order {
            if let Some(trial) = self.take_trial(*turned)? {
                listed.push(trial)?;
            }
        }
        Ok(listed)
    }

    // Lists the walks so that the tree at the end of each is at no end of an earlier one.
    fn order_trials(&mut self) -> Result<(), AllocError> {
        let trees = std::mem::replace(&mut self.walking.trees, Vec::new(self.alloc));
        let order = order_of(self.alloc, self.board.pins(), trees)?;
        let listed = self.list_trials(&order)?;
        self.walking.trials = listed;
        Ok(())
    }

    // Lays walks over stretches of crossbars, those that were tried before first.
    fn lay_long(&mut self, most: usize) -> Result<(), AllocError> {
        self.lay_groups(most)?;
        if self.walking.groups.len() < most.saturating_mul(GROUPS_A_WALK) {
            self.lay_bars(most)?;
        }
        Ok(())
    }

    // Lays the walks of a load.
    fn fill_walks(&mut self) -> Result<(), AllocError> {
        let most = self.board.known_pins().saturating_sub(1) as usize;
        self.walking.trials.clear();
        self.walking.trees.clear();
        self.walking.load = self.walking.load.saturating_add(1);
        self.board.begin();
        self.landings.begin();
        if self.walking.single {
            self.lay_singles(most)?;
        } else {
            self.lay_long(most)?;
        }
        self.drop_few();
        self.order_trials()
    }

    // Makes no load of few walks where there are many pins.
    fn drop_few(&mut self) {
        let walks = self.walking.trials.len();
        if walks.saturating_mul(PINS_A_WALK) < self.board.pins() as usize {
            self.walking.trials.clear();
            self.walking.trees.clear();
        }
    }

    // No walk was found once more. False where none is to be looked for any more.
    fn may_go_on(&mut self) -> Result<bool, AllocError> {
        if self.walking.single {
            self.begin_long()?;
            return Ok(true);
        }
        if self.age_groups() {
            return Ok(true);
        }
        self.walking.dry = self.walking.dry.saturating_add(1);
        Ok(self.walking.dry <= MOST_DRY)
    }

    /// Chooses the walks of the next load. False where none are found any more.
    pub fn choose_walks(&mut self) -> Result<bool, AllocError> {
        'loads: for _load in 0..MOST_EMPTY {
            self.fill_walks()?;
            if !self.walking.trials.is_empty() {
                self.walking.dry = 0;
                return Ok(true);
            }
            if !self.may_go_on()? {
                break;
            }
        }
        Ok(false)
    }

    /// Whether crosspoints were given up in this phase, as no walk over them could be laid for long. Then the phase is worth a repetition.
    pub fn has_given_up(&self) -> bool {
        self.walking.given_up > 0
    }

    // Whether all crosspoints of a walk are kept.
    fn leads(&self, walk: &Walk) -> bool {
        'crosses: for c in &walk.crosses {
            if !self.board.is_kept(*c) {
                return false;
            }
        }
        true
    }

    // Counts what a walk has decided.
    fn count_trial(&mut self, leads: bool, left: u32) {
        if leads {
            self.walking.decided = self.walking.decided.saturating_add(u64::from(left));
        } else if left == 1 {
            self.walking.decided = self.walking.decided.saturating_add(1);
            self.walking.found = self.walking.found.saturating_add(1);
        }
    }

    // Looks what came of a walk.
    fn note_trial(&mut self, trial: &Trial) -> Result<(), AllocError> {
        let leads = self.leads(&trial.walk);
        self.count_trial(leads, trial.left);
        match trial.group {
            Some(group) => self.note_half(group, trial.tried.crosses.len(), leads),
            None => {
                if leads {
                    return Ok(());
                }
                self.push_group(trial.node, &trial.tried)
            }
        }
    }

    /// Looks what came of the walks of a load. What was found of their crosspoints was noted.
    pub fn note_walks(&mut self) -> Result<(), AllocError> {
        let trials = std::mem::replace(&mut self.walking.trials, Vec::new(self.alloc));
        'trials: for trial in &trials {
            self.note_trial(trial)?;
        }
        self.drop_groups();
        Ok(())
    }

    /// How many crosspoints a walk of the load has.
    pub fn walk_len(&self, at: usize) -> usize {
        match self.walking.trials.get(at) {
            Some(trial) => trial.walk.crosses.len(),
            None => 0,
        }
    }

    /// A crosspoint of a walk of the load.
    pub fn walk_cross(&self, at: usize, k: usize) -> Option<Cross> {
        let trial = self.walking.trials.get(at)?;
        trial.walk.crosses.get(k).copied()
    }
}
