//! Walks of one load, and whether the load may be made.
ghost use Rattle.std.specs.Prelude.{◌≡◌, ◌≢◌, ◌==◌, ◌++◌, ◌<◌, ℕ, true, false, All, IfOk, IfSome, IsTrue, OnOk, flat_map, length};
ghost use Rattle.std.specs.Prelude.{slice_index_or};
ghost use Rattle.std.specs.List.{IsDistinct};
ghost use Rattle.base_bits.specs.Numbers.{has_number};
ghost use Rattle.diag_evidence.specs.declared.leads.Lead.{Lead};
ghost use Rattle.diag_evidence.specs.Vocabulary.{KeepsForest, ends_on, loose_along};
ghost use Rattle.diag_known.specs.Vocabulary.{IsFieldOf, IsKnown};
ghost use Rattle.diag_sweep.specs.Courses.{CanLead};

use crate::paths::{are_known_along, are_leads, hangs, lead_of, may_try_all};
use crate::seen::see_all;
use crate::trees::{is_known, plant};
use base_bits::BitSet;
use diag_evidence::{Facts, Forest, Lead};
use diag_known::{Field, Known};
use diag_search::Trial;
use machine_shape::Wire;
use std::alloc::{AllocError, Global};

// A wire at an end of a walk is planted, if it is a pin of the machine that hangs nowhere. False where it hangs already.
fn plant_end(forest: &mut Forest, facts: &Facts, w: Wire) -> bool
    requires { KeepsForest facts.now forest.old }
    ensures { KeepsForest facts.now forest.new }
{
    if hangs(forest, w) {
        return false;
    }
    plant(forest, facts, w);
    true
}

/// The ends of walks that are pins of the machine are planted. False where all ends hang already.
pub(crate) fn plant_ends(forest: &mut Forest, facts: &Facts, trials: &Vec<Trial>) -> bool
    requires { KeepsForest facts.now forest.old }
    ensures { KeepsForest facts.now forest.new }
{
    let mut planted = false;
    'trials: for at in 0..trials.len() {
        let walk = &trials[at].walk;
        if plant_end(forest, facts, walk.wire(0)) {
            planted = true;
        }
        if plant_end(forest, facts, walk.wire(walk.crosses.len())) {
            planted = true;
        }
    }
    planted
}

// The walks as the test takes them.
fn leads_of(alloc: Global, forest: &Forest, trials: &Vec<Trial>) -> Result<Vec<Lead>, AllocError> {
    let mut leads = Vec::new(alloc);
    'trials: for at in 0..trials.len() {
        leads.push(lead_of(alloc, forest, &trials[at])?)?;
    }
    Ok(leads)
}

// Adds the wires of a walk that hang nowhere.
fn add_loose(wires: &mut Vec<u32>, forest: &Forest, lead: &Lead) -> Result<(), AllocError>
    ensures { OnOk result (wires.new.items ≡ wires.old.items ++ loose_along forest.now lead.now) }
{
    'places: for k in 0..lead.count_wires() {
        let w = lead.wire_at(k);
        if hangs(forest, w) {
            continue;
        }
        wires.push(w.0)?;
    }
    Ok(())
}

// The wires of walks that hang nowhere.
fn loose_wires(alloc: Global, forest: &Forest, leads: &[Lead]) -> Result<Vec<u32>, AllocError>
    ensures { IfOk result (λ wires. wires.items ≡ flat_map (loose_along forest.now) leads.now) }
{
    let mut wires = Vec::new(alloc);
    'leads: for k in 0..leads.len() {
        let lead = &leads[k];
        add_loose(&mut wires, forest, lead)?;
    }
    Ok(wires)
}

// Whether no wire that hangs nowhere stands in two walks or in one twice.
fn are_once(alloc: Global, forest: &Forest, leads: &[Lead]) -> Result<bool, AllocError>
    ensures { IfOk result (λ yes. IsTrue yes → IsDistinct (λ a b. a == b) (flat_map (loose_along forest.now) leads.now)) }
{
    let mut seen = BitSet::new(alloc, forest.shape().wires())?;
    let wires = loose_wires(alloc, forest, leads)?;
    Ok(see_all(&mut seen, &wires))
}

// Whether a walk ends on a pin that no walk has met, and not on its own first one. Both its pins are met then.
fn ends_anew(met: &mut BitSet, lead: &Lead) -> bool
    ensures len { length met.new ≡ length met.old }
    ensures own { IsTrue result → lead.now.to ≢ lead.now.from }
    ensures anew { IsTrue result → has_number met.old lead.now.to ≡ false }
    ensures stays { IsTrue result → (p : ℕ) → has_number met.old p ≡ true → has_number met.new p ≡ true }
    ensures both { IsTrue result → (has_number met.new lead.now.from ≡ true) × (has_number met.new lead.now.to ≡ true) }
{
    if lead.from >= met.len() {
        return false;
    }
    if lead.to >= met.len() {
        return false;
    }
    if lead.to == lead.from {
        return false;
    }
    if met.has(lead.to) {
        return false;
    }
    met.insert(lead.from);
    met.insert(lead.to);
    true
}

// Whether each walk ends on a pin on which no end of an earlier walk hangs, and which isn't that of its first wire.
fn are_in_order(met: &mut BitSet, leads: &[Lead]) -> bool
    ensures own { IsTrue result → All (λ l. l.to ≢ l.from) leads.now }
    ensures later { IsTrue result → (i j : ℕ) (d : Lead) → i < j → j < length leads.now →
        ends_on (slice_index_or leads.now i d) (slice_index_or leads.now j d) ≡ false }
{
    met.clear();
    'leads: for k in 0..leads.len() {
        let lead = &leads[k];
        if !ends_anew(met, lead) {
            return false;
        }
    }
    true
}

// Whether walks may be led together.
fn may_lead(
    facts: &Facts,
    known: &Known,
    field: &Field,
    forest: &Forest,
    leads: &[Lead],
) -> Result<bool, AllocError>
    requires known { IsKnown facts.now known.now }
    requires field { IsFieldOf facts.now.shape field.now }
    requires forest { KeepsForest facts.now forest.now }
    ensures { IfOk result (λ yes. IsTrue yes → CanLead facts.now field.now forest.now leads.now) }
{
    let shape = facts.shape();
    if !is_known(facts, known, forest) {
        return Ok(false);
    }
    if !are_leads(forest, leads) {
        return Ok(false);
    }
    if !are_known_along(known, &shape, leads) {
        return Ok(false);
    }
    if !may_try_all(facts, field, leads) {
        return Ok(false);
    }
    if !are_once(known.alloc(), forest, leads)? {
        return Ok(false);
    }
    let mut met = BitSet::new(known.alloc(), shape.pins())?;
    Ok(are_in_order(&mut met, leads))
}

/// The walks that the search has chosen, if they may be led together from a forest.
pub(crate) fn course_of(
    facts: &Facts,
    known: &Known,
    field: &Field,
    forest: &Forest,
    trials: &Vec<Trial>,
) -> Result<Option<Vec<Lead>>, AllocError>
    requires known { IsKnown facts.now known.now }
    requires field { IsFieldOf facts.now.shape field.now }
    requires forest { KeepsForest facts.now forest.now }
    ensures { IfOk result (λ found. IfSome found (λ leads. CanLead facts.now field.now forest.now leads.items)) }
{
    let leads = leads_of(known.alloc(), forest, trials)?;
    if may_lead(facts, known, field, forest, &leads)? {
        return Ok(Some(leads));
    }
    Ok(None)
}
