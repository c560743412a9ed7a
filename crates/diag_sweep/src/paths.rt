//! Walks of the search as the test takes them, and whether each leads from tree to tree.
ghost use Rattle.std.specs.Prelude.{◌≡◌, ◌<◌, ◌+◌, ℕ, true, All, IsTrue, length, slice_index_or};
ghost use Rattle.machine_shape.specs.Shape.{Ends, ends_of, crosses_of};
ghost use Rattle.machine_config.specs.Vocabulary.{LeadsTo, among};
ghost use Rattle.diag_evidence.specs.Vocabulary.{HangsOn, IsLead, crosses_along, crosses_of_leads, is_hung, wires_along, wires_of_leads};
ghost use Rattle.diag_known.specs.Vocabulary.{HasWire, IsFieldOf};
ghost use Rattle.diag_sweep.specs.Courses.{AreLoose, MayTry};

use diag_evidence::{Facts, Forest, Lead};
use diag_known::{Field, Known};
use diag_search::Trial;
use machine_shape::{Cross, Shape, Wire};
use std::alloc::{AllocError, Global};

// Whether a crosspoint, of so many, leads from one wire to another.
fn leads_to(shape: &Shape, most: u32, from: Wire, cross: Cross, to: Wire) -> bool
    requires { most ≡ crosses_of shape.now }
    ensures cross { IsTrue result → cross.0 < crosses_of shape.now }
    ensures ends { IsTrue result → Ends (ends_of shape.now cross.0) from.0 to.0 }
{
    if cross.0 >= most {
        return false;
    }
    let (tap, line) = shape.ends(cross);
    if tap.0 == from.0 {
        return line.0 == to.0;
    }
    if line.0 != from.0 {
        return false;
    }
    tap.0 == to.0
}

// Whether the crosspoints of a walk lead over its wires.
fn is_walk(shape: &Shape, lead: &Lead) -> bool
    ensures wires { IsTrue result → length (wires_along lead.now) ≡ length (crosses_along lead.now) + 1 }
    ensures leads { IsTrue result → LeadsTo shape.now (slice_index_or (wires_along lead.now) 0 0) (crosses_along lead.now)
        (wires_along lead.now) (slice_index_or (wires_along lead.now) (length (crosses_along lead.now)) 0) }
{
    let wires = lead.count_wires();
    let crosses = lead.len();
    if wires != crosses + 1 {
        return false;
    }
    let most = shape.crosses();
    'steps: for k in 0..crosses {
        let from = lead.wire_at(k);
        let to = lead.wire_at(k + 1);
        if !leads_to(shape, most, from, lead.cross_at(k), to) {
            return false;
        }
    }
    true
}

/// Whether a wire hangs in a forest.
pub(crate) fn hangs(forest: &Forest, w: Wire) -> bool
    ensures { result ≡ is_hung forest.now w.0 }
{
    let shape = forest.shape();
    if w.0 >= shape.wires() {
        return false;
    }
    forest.pin_of(w).is_some()
}

// Whether a wire hangs on a pin.
fn hangs_on(forest: &Forest, w: Wire, pin: u32) -> bool
    ensures { IsTrue result → HangsOn forest.now w.0 pin }
{
    let shape = forest.shape();
    if w.0 >= shape.wires() {
        return false;
    }
    if forest.pin_of(w) != Some(pin) {
        return false;
    }
    true
}

// Whether the wires between the first and the last of a walk hang nowhere.
fn are_loose(forest: &Forest, lead: &Lead) -> bool
    requires { length (wires_along lead.now) ≡ length (crosses_along lead.now) + 1 }
    ensures { IsTrue result → AreLoose forest.now lead.now }
{
    'places: for k in 1..lead.len() {
        let w = lead.wire_at(k);
        if hangs(forest, w) {
            return false;
        }
    }
    true
}

// Whether a walk leads over a crosspoint at least, from a wire that hangs on its first pin to one that hangs on its last.
fn is_lead(forest: &Forest, lead: &Lead) -> bool
    ensures { IsTrue result → IsLead forest.now lead.now }
{
    let shape = forest.shape();
    let count = lead.len();
    if count == 0 {
        return false;
    }
    if !is_walk(&shape, lead) {
        return false;
    }
    let first = lead.wire_at(0);
    if !hangs_on(forest, first, lead.from) {
        return false;
    }
    let last = lead.wire_at(count);
    if !hangs_on(forest, last, lead.to) {
        return false;
    }
    are_loose(forest, lead)
}

/// Whether all walks lead from wires that hang to wires that hang.
pub(crate) fn are_leads(forest: &Forest, leads: &[Lead]) -> bool
    ensures { IsTrue result → All (IsLead forest.now) leads.now }
{
    'leads: for k in 0..leads.len() {
        let lead = &leads[k];
        if !is_lead(forest, lead) {
            return false;
        }
    }
    true
}

// Whether the wires of a walk are known.
fn is_known_along(known: &Known, shape: &Shape, lead: &Lead) -> bool
    requires { shape.now ≡ known.now.shape }
    ensures { IsTrue result → (w : ℕ) → among (wires_along lead.now) w ≡ true → HasWire known.now.steps w }
{
    'places: for k in 0..lead.count_wires() {
        let w = lead.wire_at(k);
        if w.0 >= shape.wires() {
            return false;
        }
        if !known.has(w) {
            return false;
        }
    }
    true
}

/// Whether the wires of all walks are known.
pub(crate) fn are_known_along(known: &Known, shape: &Shape, leads: &[Lead]) -> bool
    requires { shape.now ≡ known.now.shape }
    ensures { IsTrue result → (w : ℕ) → among (wires_of_leads leads.now) w ≡ true → HasWire known.now.steps w }
{
    'leads: for k in 0..leads.len() {
        let lead = &leads[k];
        if !is_known_along(known, shape, lead) {
            return false;
        }
    }
    true
}

// Whether a crosspoint may be tried: it is kept, or of the field.
fn may_try(facts: &Facts, field: &Field, c: Cross) -> bool
    requires { IsFieldOf facts.now.shape field.now }
    ensures { IsTrue result → MayTry facts.now field.now c.0 }
{
    if facts.has_kept(c) {
        return true;
    }
    if c.0 >= field.crosses.len() {
        return false;
    }
    field.crosses.has(c.0)
}

// Whether the crosspoints of a walk may be tried.
fn may_try_along(facts: &Facts, field: &Field, lead: &Lead) -> bool
    requires { IsFieldOf facts.now.shape field.now }
    ensures { IsTrue result → (x : ℕ) → among (crosses_along lead.now) x ≡ true → MayTry facts.now field.now x }
{
    'places: for k in 0..lead.len() {
        let cross = lead.cross_at(k);
        if !may_try(facts, field, cross) {
            return false;
        }
    }
    true
}

/// Whether the crosspoints of all walks may be tried: they are kept, or of the field.
pub(crate) fn may_try_all(facts: &Facts, field: &Field, leads: &[Lead]) -> bool
    requires { IsFieldOf facts.now.shape field.now }
    ensures { IsTrue result → (x : ℕ) → among (crosses_of_leads leads.now) x ≡ true → MayTry facts.now field.now x }
{
    'leads: for k in 0..leads.len() {
        let lead = &leads[k];
        if !may_try_along(facts, field, lead) {
            return false;
        }
    }
    true
}

// The pin on which a wire hangs, or the first pin.
fn pin_under(forest: &Forest, w: Wire) -> u32 {
    let shape = forest.shape();
    if w.0 >= shape.wires() {
        return 0;
    }
    forest.pin_of(w).unwrap_or(0)
}

/// A walk of the search as the test takes it.
pub(crate) fn lead_of(alloc: Global, forest: &Forest, trial: &Trial) -> Result<Lead, AllocError> {
    let count = trial.walk.crosses.len();
    let mut wires = Vec::with_capacity(alloc, count.saturating_add(1))?;
    let mut crosses = Vec::with_capacity(alloc, count)?;
    wires.push(trial.walk.wire(0))?;
    'places: for place in 0..count {
        let foot = trial.walk.foot(place);
        crosses.push(foot.cross)?;
        wires.push(foot.wire)?;
    }
    Ok(Lead {
        wires,
        crosses,
        from: pin_under(forest, trial.walk.wire(0)),
        to: pin_under(forest, trial.walk.wire(count)),
    })
}
