//! What the search is told before the first load, and after each.

use crate::asking::keeps;
use crate::feet::step_of;
use crate::knowledge::Knowledge;
use base_bits::BitSet;
use diag_evidence::Facts;
use diag_known::{Field, Known};
use diag_search::{ChosenTest, Mark, Search, in_set};
use machine_shape::{Cross, Table, Wire};
use std::alloc::{AllocError, Global};

// What is known of a crosspoint at the beginning.
fn first_mark(facts: &Facts, field: &Field, stuck: &BitSet, c: Cross) -> Mark {
    if keeps(facts, c) {
        return Mark::Kept;
    }
    if in_set(stuck, c.0) || !in_set(&field.crosses, c.0) {
        return Mark::Barred;
    }
    Mark::Undecided
}

// Which crosspoints are kept, and which may be tried.
fn mark_crosses(search: &mut Search, facts: &Facts, field: &Field, stuck: &BitSet) {
    'crosses: for c in 0..facts.shape().crosses() {
        search.mark(Cross(c), first_mark(facts, field, stuck, Cross(c)));
    }
}

// Which wires may come to be known: those of the field that weren't found unclear.
fn allow_wires(search: &mut Search, facts: &Facts, field: &Field, unclear: &BitSet) {
    'wires: for w in 0..facts.shape().wires() {
        if in_set(&field.wires, w) && !in_set(unclear, w) {
            search.allow(Wire(w));
        }
    }
}

/// Wires have come to be known, from a place of their order on.
pub(crate) fn note_known(
    search: &mut Search,
    known: &Known,
    from: usize,
) -> Result<(), AllocError> {
    'places: for place in from..known.len() {
        if place < known.len() {
            search.learn(step_of(&known.step_at(place)))?;
        }
    }
    Ok(())
}

/// The search before the first load.
pub(crate) fn new_search(
    alloc: Global,
    knowledge: &Knowledge,
    field: &Field,
) -> Result<Search, AllocError> {
    let facts = &knowledge.facts;
    let mut search = Search::new(alloc, &facts.shape())?;
    mark_crosses(&mut search, facts, field, &knowledge.marks.stuck);
    allow_wires(&mut search, facts, field, &knowledge.marks.unclear);
    note_known(&mut search, &knowledge.verified, 0)?;
    search.plant()?;
    Ok(search)
}

// Looks whether a crosspoint was decided.
fn note_cross(search: &mut Search, facts: &Facts, stuck: &BitSet, c: Cross) {
    if keeps(facts, c) {
        search.note_kept(c);
    } else if in_set(stuck, c.0) {
        search.note_stuck(c);
    }
}

// Looks what came of a wire that was hung.
fn note_hang(search: &mut Search, facts: &Facts, stuck: &BitSet, hung: ChosenTest) {
    search.count_try(hung.wire);
    note_cross(search, facts, stuck, hung.first.cross);
    note_cross(search, facts, stuck, hung.second.cross);
}

/// Looks what came of the wires that were hung. Those that came to be known stand from a place of their order on.
pub(crate) fn note_hangs(
    search: &mut Search,
    knowledge: &Knowledge,
    from: usize,
) -> Result<(), AllocError> {
    'hangs: for at in 0..search.hanging.chosen.len() {
        if let Some(hung) = search.hanging.chosen.get(at).copied() {
            note_hang(search, &knowledge.facts, &knowledge.marks.stuck, hung);
        }
    }
    search.count_learnt(knowledge.verified.len().saturating_sub(from));
    note_known(search, &knowledge.verified, from)
}

// Looks what came of the crosspoints of a walk.
fn note_walk(search: &mut Search, facts: &Facts, stuck: &BitSet, at: usize) {
    'crosses: for k in 0..search.walk_len(at) {
        if let Some(cross) = search.walk_cross(at, k) {
            note_cross(search, facts, stuck, cross);
        }
    }
}

/// Looks what came of the walks.
pub(crate) fn note_walks(
    search: &mut Search,
    facts: &Facts,
    stuck: &BitSet,
) -> Result<(), AllocError> {
    'trials: for at in 0..search.walking.trials.len() {
        note_walk(search, facts, stuck, at);
    }
    search.note_walks()
}

// Whether a table stands in a chip and is still to be tested.
fn is_left(facts: &Facts, wrong: &BitSet, node: u32, t: Table) -> bool {
    let shape = facts.shape();
    if t.0 >= shape.tables() || t.0 >= wrong.len() || wrong.has(t.0) || facts.keeps_register(t) {
        return false;
    }
    let hextant = shape.hextant_of(t);
    if hextant.0 >= shape.nodes() {
        return false;
    }
    match shape.parent(hextant) {
        Some(chip) => chip.0 == node,
        None => false,
    }
}

// The tables of a chip that are still to be tested.
fn tables_left(
    alloc: Global,
    facts: &Facts,
    wrong: &BitSet,
    tables: &[Table],
    node: u32,
) -> Result<Vec<Table>, AllocError> {
    let mut left = Vec::new(alloc);
    'tables: for t in tables {
        if is_left(facts, wrong, node, *t) {
            left.push(*t)?;
        }
    }
    Ok(left)
}

/// Has the tables of the next load chosen, of the chip that the search is at. False where none is left to test.
pub(crate) fn choose_tables(
    search: &mut Search,
    alloc: Global,
    facts: &Facts,
    wrong: &BitSet,
    tables: &[Table],
) -> Result<bool, AllocError> {
    let left = tables_left(alloc, facts, wrong, tables, search.testing.chip)?;
    search.choose_tables(&left)
}
