//! What the choice is told: which wires are known, kept and lost.

use crate::asking::{keeps, keeps_wire, knows};
use crate::defect_marks::DefectMarks;
use crate::feet::step_of;
use base_bits::BitSet;
use diag_evidence::Facts;
use diag_known::Known;
use diag_search::{Aim, Chooser, in_set, set_flag};
use machine_shape::{Meaning, Node, Shape, Table, Wire};
use std::alloc::AllocError;

// The table of which a wire is a pin.
fn table_of(shape: &Shape, w: Wire) -> Option<Table> {
    if w.0 >= shape.wires() {
        return None;
    }
    match shape.meaning(w) {
        Meaning::TablePin { table, .. } => Some(table),
        _ => None,
    }
}

// Whether a kept crosspoint leads from a pin of a table to a line of its hextant that is known.
fn is_foot(facts: &Facts, known: &Known, pin: Wire, node: Node, k: u32) -> bool {
    let shape = facts.shape();
    if pin.0 >= shape.wires() || node.0 >= shape.nodes() || k >= shape.lines(node) {
        return false;
    }
    let line = shape.line(node, k);
    if !knows(known, line) {
        return false;
    }
    match shape.cross(pin, line) {
        Some(cross) => keeps(facts, cross),
        None => false,
    }
}

// Whether kept crosspoints lead from a pin of a table to two lines that are known.
fn has_feet(facts: &Facts, known: &Known, pin: Wire, node: Node) -> bool {
    if node.0 >= facts.shape().nodes() {
        return false;
    }
    let mut found = false;
    'lines: for k in 0..facts.shape().lines(node) {
        if is_foot(facts, known, pin, node, k) {
            if found {
                return true;
            }
            found = true;
        }
    }
    false
}

// Whether a pin of a table isn't known, though it is kept and two kept crosspoints lead from it to lines that are.
fn is_left_out(facts: &Facts, known: &Known, w: Wire) -> bool {
    let shape = facts.shape();
    match table_of(&shape, w) {
        Some(table) => {
            table.0 < shape.tables()
                && keeps_wire(facts, w)
                && has_feet(facts, known, w, shape.hextant_of(table))
        }
        None => false,
    }
}

// Whether a wire is unfit, or was lost in growth.
fn is_lost(facts: &Facts, known: &Known, bad: &DefectMarks, w: Wire) -> bool {
    if knows(known, w) {
        return false;
    }
    in_set(&bad.unfit, w.0) || in_set(&bad.unclear, w.0) || is_left_out(facts, known, w)
}

// Tells which wires are known.
fn tell_known(chooser: &mut Chooser, known: &Known) -> Result<(), AllocError> {
    chooser.forget_known();
    'places: for place in 0..known.len() {
        let step = known.step_at(place);
        chooser.push_known(step_of(&step))?;
    }
    Ok(())
}

// Tells which wires are unfit, or were lost in growth.
fn tell_lost(chooser: &mut Chooser, facts: &Facts, known: &Known, bad: &DefectMarks) {
    'wires: for w in 0..facts.shape().wires() {
        let lost = is_lost(facts, known, bad, Wire(w));
        set_flag(&mut chooser.lost, w, lost);
    }
}

// Tells which wires are kept.
fn tell_kept(chooser: &mut Chooser, facts: &Facts) {
    'wires: for w in 0..facts.shape().wires() {
        set_flag(&mut chooser.kept, w, keeps_wire(facts, Wire(w)));
    }
}

/// What the next looks are for.
pub(crate) fn begin(
    chooser: &mut Chooser,
    aim: Aim,
    facts: &Facts,
    known: &Known,
    bad: &DefectMarks,
) -> Result<(), AllocError> {
    tell_known(chooser, known)?;
    if aim == Aim::Partners {
        tell_lost(chooser, facts, known, bad);
    }
    chooser.begin(aim, &bad.unfit, &bad.unclear, &bad.wrong)
}

/// The known wires that stay, once others give way for pins of tables. None where none does.
pub(crate) fn give_up(
    chooser: &mut Chooser,
    facts: &Facts,
    bad: &DefectMarks,
) -> Result<Option<BitSet>, AllocError> {
    tell_kept(chooser, facts);
    chooser.give_up(&bad.unclear)
}
