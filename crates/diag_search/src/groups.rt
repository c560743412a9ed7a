//! Groups of crosspoints with a stuck one among them, and their halves.

use crate::search::Search;
use crate::walk::Walk;
use std::alloc::AllocError;

/// How often a group may fail to be laid.
const MOST_MISSES: u32 = 40;

/// How many groups in a row may fail to be laid in one load.
const MOST_FAILS: u32 = 60;

/// Crosspoints of a crossbar, one of which at least is stuck: a stretch of a walk that didn't lead. Its first and its last crosspoint
/// aren't decided.
#[derive(Drop)]
pub(crate) struct Group {
    pub walk: Walk,
    pub node: u32,
    // How often it couldn't be laid.
    pub misses: u32,
}

impl Search {
    // The first half of a group, by its undecided crosspoints: all of it, if one is left. None where it failed to be laid too often.
    fn first_half(&self, at: usize) -> Result<Option<(u32, Walk)>, AllocError> {
        let Some(group) = self.walking.groups.get(at) else {
            return Ok(None);
        };
        if group.misses > MOST_MISSES {
            return Ok(None);
        }
        let count = group.walk.count_undecided(&self.board);
        let end = group.walk.end_of(&self.board, count.saturating_add(1) / 2);
        Ok(Some((group.node, group.walk.cut(self.alloc, 0, end)?)))
    }

    // A group couldn't be laid once more.
    fn count_miss(&mut self, at: usize) {
        if at < self.walking.groups.len() {
            self.walking.groups[at].misses = self.walking.groups[at].misses.saturating_add(1);
        }
    }

    // Lays the first half of a group. False where it was tried in vain.
    fn lay_group(&mut self, at: usize) -> Result<bool, AllocError> {
        let Some((node, stretch)) = self.first_half(at)? else {
            return Ok(true);
        };
        if !stretch.is_idle(&self.board) || self.next_ends(node).is_none() {
            return Ok(true);
        }
        match self.lay_over(node, stretch)? {
            Some(course) => {
                self.push_trial(node, Some(at), course)?;
                Ok(true)
            }
            None => {
                self.count_miss(at);
                Ok(false)
            }
        }
    }

    // The group at which the next load begins, counted around.
    fn next_group(&mut self) -> usize {
        if self.walking.at_group >= self.walking.groups.len() {
            self.walking.at_group = 0;
        }
        let at = self.walking.at_group;
        self.walking.at_group = at.saturating_add(1);
        at
    }

    /// Lays the first half of each group, up to so many walks.
    pub(crate) fn lay_groups(&mut self, most: usize) -> Result<(), AllocError> {
        let mut fails: u32 = 0;
        'groups: for _group in 0..self.walking.groups.len() {
            if self.walking.trials.len() >= most || fails >= MOST_FAILS {
                break;
            }
            let at = self.next_group();
            if !self.lay_group(at)? {
                fails = fails.saturating_add(1);
            }
        }
        Ok(())
    }

    /// No group could be laid: each has failed once more. False where none is left that may still be laid.
    pub(crate) fn age_groups(&mut self) -> bool {
        let mut some = false;
        'groups: for at in 0..self.walking.groups.len() {
            self.count_miss(at);
            if at < self.walking.groups.len() && self.walking.groups[at].misses <= MOST_MISSES {
                some = true;
            }
        }
        some
    }

    // The undecided crosspoints of a group from a place on are left to be tried again.
    fn put_back_from(&mut self, at: usize, from: usize) -> Result<(), AllocError> {
        let Some(group) = self.walking.groups.get(at) else {
            return Ok(());
        };
        'crosses: for k in from..group.walk.crosses.len() {
            let c = group.walk.foot(k).cross;
            if self.board.is_undecided(c) {
                self.pools.put(&self.heights, group.node, c)?;
            }
        }
        Ok(())
    }

    // A group becomes what isn't decided of a stretch of itself.
    fn shorten(&mut self, at: usize, end: usize) -> Result<(), AllocError> {
        let Some(group) = self.walking.groups.get(at) else {
            return Ok(());
        };
        let stretch = group.walk.cut(self.alloc, 0, end)?;
        let walk = stretch.trim(self.alloc, &self.board)?;
        if at < self.walking.groups.len() {
            self.walking.groups[at].walk = walk;
        }
        Ok(())
    }

    /// So many first crosspoints of a group led: a stuck one is behind them. Or they didn't: a stuck one is among them, and the others are
    /// left to be tried again.
    pub(crate) fn note_half(
        &mut self,
        at: usize,
        end: usize,
        leads: bool,
    ) -> Result<(), AllocError> {
        if leads {
            return self.shorten(at, usize::MAX);
        }
        self.put_back_from(at, end)?;
        self.list_node(at)?;
        self.shorten(at, end)
    }

    /// What was tried on a walk that doesn't lead becomes a group, as far as it isn't decided.
    pub(crate) fn push_group(&mut self, node: u32, tried: &Walk) -> Result<(), AllocError> {
        let walk = tried.trim(self.alloc, &self.board)?;
        if walk.crosses.is_empty() {
            return Ok(());
        }
        self.walking.groups.push(Group {
            walk,
            node,
            misses: 0,
        })?;
        Ok(())
    }

    // Counts what isn't decided of the groups that failed to be laid too often.
    fn count_given_up(&self) -> u64 {
        let mut count: u64 = 0;
        'groups: for group in &self.walking.groups {
            if group.misses > MOST_MISSES {
                let left = u64::from(group.walk.count_undecided(&self.board));
                count = count.saturating_add(left);
            }
        }
        count
    }

    /// Drops the groups of which all is decided, and those that failed to be laid too often.
    pub(crate) fn drop_groups(&mut self) {
        let given_up = self.count_given_up();
        self.walking.given_up = self.walking.given_up.saturating_add(given_up);
        self.walking.groups.retain(|group| !group.walk.crosses.is_empty()
            && group.misses <= MOST_MISSES);
    }
}
