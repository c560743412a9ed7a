//! What a look shows of the wires that hung in it.

use crate::asking::keeps;
use crate::defect_marks::DefectMarks;
use diag_evidence::{Facts, Forest, Looks};
use diag_search::{Aim, Chooser, Still, Told, flag_at, in_set, set_flag};
use machine_shape::{Cross, Pin, Shape, Wire};
use std::alloc::{AllocError, Global};

// The other end of a crosspoint of a wire.
fn far_end(shape: &Shape, w: Wire, cross: Cross) -> Option<Wire> {
    if cross.0 >= shape.crosses() {
        return None;
    }
    let (tap, line) = shape.ends(cross);
    if tap.0 == w.0 {
        return Some(line);
    }
    Some(tap)
}

// The pin on which a wire hangs.
fn pin_of(forest: &Forest, w: Wire) -> Option<u32> {
    if w.0 < forest.shape().wires() {
        return forest.pin_of(w);
    }
    None
}

// Whether two pins, one of which hangs, read the same in each cycle.
fn is_alike(forest: &Forest, reads: &Looks, pin: u32, other: u32) -> bool {
    let shape = forest.shape();
    if other >= shape.pins() || pin >= reads.pins() || other >= reads.pins() || other == pin {
        return false;
    }
    pin_of(forest, shape.pin(Pin(other))).is_some() && !reads.parts(other, pin)
}

// The pins that read in each cycle as the one on which a wire hung. This is one of them where none else is, and where another wire of the
// look hung on one that is: a wire on its own tree may be to blame then. Nothing is seen in both cases unless the crosspoint is kept.
fn pins_alike(
    alloc: Global,
    forest: &Forest,
    reads: &Looks,
    own: &Vec<bool>,
    pin: u32,
    kept: bool,
) -> Result<Option<Vec<bool>>, AllocError> {
    let mut alone = true;
    let mut crowded = false;
    let mut alike = Vec::new(alloc);
    'pins: for other in 0..reads.pins() {
        let same = is_alike(forest, reads, pin, other);
        alone = alone && !same;
        crowded = crowded || (same && flag_at(own, other));
        alike.push(same)?;
    }
    if !alone && !crowded {
        return Ok(Some(alike));
    }
    if !kept {
        return Ok(None);
    }
    if (pin as usize) < alike.len() {
        alike[pin as usize] = true;
    }
    Ok(Some(alike))
}

// Those of some wires that are known and hang on one of these pins.
fn wires_on(
    chooser: &Chooser,
    forest: &Forest,
    alike: &Vec<bool>,
    w: Wire,
) -> Result<Vec<Wire>, AllocError> {
    let mut rest = Vec::new(chooser.alloc);
    let Some(suspects) = chooser.suspects_of(w) else {
        return Ok(rest);
    };
    'suspects: for u in suspects {
        if let Some(pin) = pin_of(forest, *u) {
            if flag_at(alike, pin) {
                rest.push(*u)?;
            }
        }
    }
    Ok(rest)
}

// An empty list for each pin.
fn empty_lists(alloc: Global, pins: u32) -> Result<Vec<Vec<Wire>>, AllocError> {
    let mut lists = Vec::new(alloc);
    'pins: for pin in 0..pins {
        let _ = pin;
        lists.push(Vec::new(alloc))?;
    }
    Ok(lists)
}

// For each pin the wires that hang on it.
fn wires_by_pin(alloc: Global, forest: &Forest) -> Result<Vec<Vec<Wire>>, AllocError> {
    let shape = forest.shape();
    let mut lists = empty_lists(alloc, shape.pins())?;
    'wires: for w in 0..shape.wires() {
        let Some(pin) = forest.pin_of(Wire(w)) else {
            continue;
        };
        if (pin as usize) < lists.len() {
            lists[pin as usize].push(Wire(w))?;
        }
    }
    Ok(lists)
}

// The wires that hang on one of these pins, in the order of their numbers.
fn all_on(
    lists: &Vec<Vec<Wire>>,
    alloc: Global,
    alike: &Vec<bool>,
) -> Result<Vec<Wire>, AllocError> {
    let mut wires = Vec::new(alloc);
    'pins: for pin in 0..lists.len() {
        if alike.get(pin).copied() == Some(true) {
            wires.extend_from_slice(&lists[pin])?;
        }
    }
    wires.sort_by_key(|wire| wire.0)?;
    Ok(wires)
}

// The one pin of these, if it is one.
fn only_pin(alike: &Vec<bool>) -> Option<u32> {
    let mut found = None;
    'pins: for pin in 0..alike.len() {
        if alike.get(pin).copied() != Some(true) {
            continue;
        }
        if found.is_some() {
            return None;
        }
        found = u32::try_from(pin).ok();
    }
    found
}

// Lists the wires on each pin, once a round: the forest stays for all of its looks.
fn list_trees(chooser: &mut Chooser, forest: &Forest) -> Result<(), AllocError> {
    if chooser.has_trees() {
        return Ok(());
    }
    let lists = wires_by_pin(chooser.alloc, forest)?;
    chooser.take_trees(lists)
}

// The wires that hang on one of these pins, of those that were listed.
fn listed_on(chooser: &Chooser, alike: &Vec<bool>) -> Result<Vec<Wire>, AllocError> {
    match chooser.last_trees() {
        Some(lists) => all_on(lists, chooser.alloc, alike),
        None => Ok(Vec::new(chooser.alloc)),
    }
}

// A wire is shorted to one that hangs on one of these pins, as it seems.
fn suspect(
    chooser: &mut Chooser,
    forest: &Forest,
    alike: &Vec<bool>,
    w: Wire,
) -> Result<(), AllocError> {
    if chooser.suspect_count(w) > 0 {
        let wires = wires_on(chooser, forest, alike, w)?;
        return chooser.set_suspects(w, wires);
    }
    list_trees(chooser, forest)?;
    if let Some(pin) = only_pin(alike) {
        return chooser.suspect_tree(w, pin);
    }
    let wires = listed_on(chooser, alike)?;
    chooser.set_suspects(w, wires)
}

// A pin stayed at one value with a wire. No known wire is to blame.
fn note_still(chooser: &mut Chooser, w: Wire, high: bool) {
    let at = w.0 as usize;
    if at < chooser.still.len() {
        chooser.still[at] = if high { Still::High } else { Still::Low };
    }
    chooser.clear_suspects(w);
}

// Takes in what was read at the pin of a wire.
fn hear_one(
    chooser: &mut Chooser,
    forest: &Forest,
    reads: &Looks,
    bad: &DefectMarks,
    own: &Vec<bool>,
    hang: (Wire, bool, u32),
) -> Result<(), AllocError> {
    let (w, kept, pin) = hang;
    if pin >= reads.pins() {
        return Ok(());
    }
    if !reads.swings(pin) {
        note_still(chooser, w, reads.read_free(pin));
        return Ok(());
    }
    if chooser.aim != Aim::Partners && !in_set(&bad.unfit, w.0) {
        return Ok(());
    }
    match pins_alike(chooser.alloc, forest, reads, own, pin, kept)? {
        Some(alike) => suspect(chooser, forest, &alike, w),
        None => Ok(()),
    }
}

// On which pins wires of a look hung.
fn own_pins(
    alloc: Global,
    told: &Told,
    forest: &Forest,
    shape: &Shape,
) -> Result<Vec<bool>, AllocError> {
    let mut own = vec![in alloc; false; shape.pins() as usize]?;
    'feet: for foot in &told.feet {
        if let Some(end) = far_end(shape, foot.0, foot.1) {
            if let Some(pin) = pin_of(forest, end) {
                set_flag(&mut own, pin, true);
            }
        }
    }
    Ok(own)
}

/// Takes in what a look has read.
pub(crate) fn hear(
    chooser: &mut Chooser,
    told: &Told,
    forest: &Forest,
    reads: &Looks,
    facts: &Facts,
    bad: &DefectMarks,
) -> Result<(), AllocError> {
    let shape = facts.shape();
    let own = own_pins(chooser.alloc, told, forest, &shape)?;
    'feet: for at in 0..told.feet.len() {
        let Some((w, cross)) = told.feet.get(at).copied() else {
            continue;
        };
        let Some(end) = far_end(&shape, w, cross) else {
            continue;
        };
        if let Some(pin) = pin_of(forest, end) {
            let hang = (w, keeps(facts, cross), pin);
            hear_one(chooser, forest, reads, bad, &own, hang)?;
        }
    }
    Ok(())
}
