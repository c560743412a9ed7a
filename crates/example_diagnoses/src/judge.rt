//! What a diagnosis has of a machine, held against the machine.

use crate::budget::{most_of_growth, most_of_sweep, most_of_tables, worth};
use crate::closed::{free_by_facts, is_closed};
use crate::flags::Parts;
use crate::looks::is_tight;
use crate::picture::{Picture, picture_of};
use crate::sight::{Sight, all_hold, sight_of};
use crate::wrongs::{Wrongs, wrongs_of};
use crate::{kept_facts, marks};
use diag_sweep::Knowledge;
use machine_faults::FaultSet;
use std::alloc::Global;

/// The calls of a diagnosis.
#[derive(Clone, Copy)]
pub enum Call {
    Sweep,
    /// A choice between shorted wires.
    Choose,
    /// The sweep behind it.
    SweepChosen,
    Grow,
    /// The tests of tables.
    Test,
}

/// The loads before a call and behind it, with those that are left to choices.
#[derive(Clone, Copy)]
pub struct Loads {
    pub before: u64,
    pub after: u64,
}

/// What is held against what: the machine as it is, and how many faults it has.
#[derive(Drop)]
pub struct Judge {
    pub alloc: Global,
    sight: Sight,
    wrongs: Wrongs,
    faults: u32,
}

// What is wrong where a call has too many loads.
fn too_many(call: Call) -> &'static str {
    match call {
        Call::Sweep => "a sweep has too many loads",
        Call::Choose => "a choice has too many loads",
        Call::SweepChosen => "a sweep behind a choice has too many loads",
        Call::Grow => "a growth has too many loads",
        Call::Test => "tables have too many loads",
    }
}

// What was kept, known and marked still is, and what is new is of the area.
fn grows_in(area: &Parts, before: &Picture, after: &Picture) -> Result<(), &'static str> {
    let known = &before.known.wires;
    let kept_facts = kept_facts::still_are(&before.kept, &after.kept);
    all_hold(&[
        (
            kept_facts && known.stays(&after.known.wires),
            "something was forgotten",
        ),
        (
            marks::still_are(&before.marks, &after.marks),
            "a mark was forgotten",
        ),
        (
            known.grows_in(&after.known.wires, &area.wires),
            "a wire is known that wasn't looked at",
        ),
        (
            marks::are_within(&before.marks, &after.marks, area),
            "something is marked that wasn't looked at",
        ),
    ])
}

// What was kept and marked still is, but for unfit wires; what is known was.
fn shrinks(before: &Picture, after: &Picture) -> Result<(), &'static str> {
    all_hold(&[
        (
            kept_facts::still_are(&before.kept, &after.kept),
            "a choice forgot a fact",
        ),
        (
            marks::still_are_but_unfit(&before.marks, &after.marks),
            "a choice forgot a mark",
        ),
        (
            after.known.wires.stays(&before.known.wires),
            "a choice made a wire known",
        ),
    ])
}

impl Judge {
    /// The picture of now.
    pub fn picture(&self, stage: &Knowledge) -> Result<Picture, &'static str> {
        match picture_of(self.alloc, stage) {
            Ok(picture) => Ok(picture),
            Err(_) => Err("no memory"),
        }
    }

    // Facts and marks are true, and what is known is known by them.
    fn is_true(&self, picture: &Picture) -> Result<(), &'static str> {
        kept_facts::are_true(&self.wrongs, &picture.kept)?;
        marks::are_true(&self.sight, &self.wrongs, &picture.marks, &picture.known)?;
        all_hold(&[(
            kept_facts::are_known(&self.sight, picture),
            "a known wire isn't known by what is kept",
        )])
    }

    // Whether the loads of a call of the area are within their bound.
    fn is_paid(
        &self,
        call: Call,
        area: &Parts,
        before: &Picture,
        after: &Picture,
        loads: Loads,
    ) -> bool {
        let taken = loads.after.saturating_sub(loads.before);
        match call {
            Call::Sweep => taken <= most_of_sweep(&self.sight, area, before, after),
            Call::Grow => taken <= most_of_growth(&self.sight, area, before, self.faults),
            Call::Test => taken <= most_of_tables(before),
            Call::Choose | Call::SweepChosen => {
                worth(area, after, loads.after) <= worth(area, before, loads.before)
            }
        }
    }

    // What is known is closed in the area.
    fn closed(&self, area: &Parts, picture: &Picture) -> Result<(), &'static str> {
        match is_closed(self.alloc, &self.sight, area, picture) {
            Ok(true) => Ok(()),
            Ok(false) => Err("a growth left something out"),
            Err(_) => Err("no memory"),
        }
    }

    // What a call of the area leaves is true and worth its loads, and closed behind a growth. A choice forgets nothing but unfit wires
    // and what is known; other calls forget nothing, and what is new is of the area.
    fn hold(
        &self,
        call: Call,
        area: &Parts,
        before: &Picture,
        after: &Picture,
        loads: Loads,
    ) -> Result<(), &'static str> {
        self.is_true(after)?;
        match call {
            Call::Choose => shrinks(before, after)?,
            _ => grows_in(area, before, after)?,
        }
        if !self.is_paid(call, area, before, after, loads) {
            return Err(too_many(call));
        }
        match call {
            Call::Grow => self.closed(area, after),
            _ => Ok(()),
        }
    }

    /// Holds what a call of the area leaves against the machine, where the call was made.
    ///
    /// # Errors
    ///
    /// What is wrong with it, or why the call wasn't made.
    pub fn hold_stage(
        &self,
        call: Call,
        area: &Parts,
        before: &Picture,
        stage: &Knowledge,
        made: Result<Loads, &'static str>,
    ) -> Result<(), &'static str> {
        let loads = made?;
        let after = self.picture(stage)?;
        self.hold(call, area, before, &after, loads)
    }

    // No table that is right and not free is seated among what is free.
    fn none_is_left(&self, faults: &FaultSet, free: &Parts) -> Result<(), &'static str> {
        let Ok(sight) = sight_of(self.alloc, faults, free) else {
            return Err("no memory");
        };
        match is_tight(self.alloc, &sight) {
            Ok(true) => Ok(()),
            Ok(false) => Err("a table was left out"),
            Err(_) => Err("no memory"),
        }
    }

    /// Each table that is right and can be tested over what is known has all its cells and its register kept.
    pub fn tables_are_closed(
        &self,
        faults: &FaultSet,
        picture: &Picture,
    ) -> Result<(), &'static str> {
        match free_by_facts(self.alloc, &self.sight, picture) {
            Ok(free) => self.none_is_left(faults, &free),
            Err(_) => Err("no memory"),
        }
    }
}

/// What this machine is held against.
pub fn judge_of(alloc: Global, faults: &FaultSet) -> Result<Judge, &'static str> {
    let Ok(sight) = sight_of(alloc, faults, &Parts::empty(alloc)) else {
        return Err("no memory");
    };
    match wrongs_of(alloc, faults, &sight) {
        Ok(wrongs) => Ok(Judge {
            alloc,
            sight,
            wrongs,
            faults: faults.count(),
        }),
        Err(_) => Err("no memory"),
    }
}
