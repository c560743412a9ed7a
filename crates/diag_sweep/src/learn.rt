//! Wires that come to be known.
ghost use Rattle.std.specs.Prelude.{◌≡◌, ◌<◌, true, IsTrue, length};
ghost use Rattle.base_bits.specs.Numbers.{has_number};
ghost use Rattle.machine_shape.specs.Shape.{wires_of, pins_of};
ghost use Rattle.diag_known.specs.Vocabulary.{IsFieldOf, GrowsIn, IsKnown, IsFoot, IsGood, HasWire};

use crate::feet::foot_of;
use diag_evidence::Facts;
use diag_known::{Field, Known, Support, SupportedBy, VerifiedWire};
use machine_shape::{Pin, Wire};
use std::alloc::AllocError;

// A wire that isn't known, and two crosspoints to wires.
#[derive(Clone, Copy)]
struct ChosenTest {
    wire: Wire,
    first: Support,
    second: Support,
}

// A wire that hung, as it is learnt.
fn hung_of(hung: diag_search::ChosenTest) -> ChosenTest {
    ChosenTest {
        wire: hung.wire,
        first: foot_of(hung.first),
        second: foot_of(hung.second),
    }
}

// Whether a wire is kept and of the set, and so kept apart from each known one.
fn is_good(facts: &Facts, known: &Known, w: Wire) -> bool
    requires known { IsKnown facts.now known.now }
    requires wire { w.0 < wires_of facts.now.shape }
    requires new { ¬ HasWire known.now.steps w.0 }
    ensures { IsTrue result → IsGood facts.now known.now.steps w.0 }
{
    if !facts.keeps_wire(w) {
        return false;
    }
    facts.is_apart(w)
}

// Whether a kept crosspoint leads from a wire to a known one.
fn is_foot(facts: &Facts, known: &Known, w: Wire, foot: Support) -> bool
    requires known { IsKnown facts.now known.now }
    ensures { IsTrue result → IsFoot facts.now known.now.steps (length known.now.steps) w.0 foot }
{
    let shape = facts.shape();
    if foot.cross.0 >= shape.crosses() {
        return false;
    }
    if foot.wire.0 >= shape.wires() {
        return false;
    }
    if !facts.keeps_cross(foot.cross) {
        return false;
    }
    if !known.has(foot.wire) {
        return false;
    }
    let (tap, line) = shape.ends(foot.cross);
    if tap.0 == foot.wire.0 {
        return line.0 == w.0;
    }
    if line.0 != foot.wire.0 {
        return false;
    }
    tap.0 == w.0
}

// Whether a wire may come to be known: one of the field that isn't yet, is kept, and is of the set.
fn is_wanted(facts: &Facts, known: &Known, field: &Field, w: Wire) -> bool
    requires known { IsKnown facts.now known.now }
    requires field { IsFieldOf facts.now.shape field.now }
    ensures within { IsTrue result → w.0 < wires_of facts.now.shape }
    ensures new { IsTrue result → ¬ HasWire known.now.steps w.0 }
    ensures field { IsTrue result → has_number field.now.wires w.0 ≡ true }
    ensures good { IsTrue result → IsGood facts.now known.now.steps w.0 }
{
    if w.0 >= facts.shape().wires() {
        return false;
    }
    if !field.wires.has(w.0) {
        return false;
    }
    if known.has(w) {
        return false;
    }
    is_good(facts, known, w)
}

// A wire comes to be known, if it hangs on two kept crosspoints to different known ones, is kept, and is of the set.
fn learn_hung(
    known: &mut Known,
    facts: &Facts,
    field: &Field,
    hung: ChosenTest,
) -> Result<(), AllocError>
    requires known { IsKnown facts.now known.old }
    requires field { IsFieldOf facts.now.shape field.now }
    ensures known { IsKnown facts.now known.new }
    ensures grows { GrowsIn field.now known.old.steps known.new.steps }
{
    if hung.first.wire.0 == hung.second.wire.0 {
        return Ok(());
    }
    if !is_foot(facts, known, hung.wire, hung.first) {
        return Ok(());
    }
    if !is_foot(facts, known, hung.wire, hung.second) {
        return Ok(());
    }
    if !is_wanted(facts, known, field, hung.wire) {
        return Ok(());
    }
    known.learn(VerifiedWire {
        wire: hung.wire,
        stand: SupportedBy::Feet(hung.first, hung.second),
    })
}

/// Of some wires those come to be known that hang on two kept crosspoints to different known ones, are kept, and are of the set.
pub(crate) fn learn_hangs(
    known: &mut Known,
    facts: &Facts,
    field: &Field,
    hangs: &Vec<diag_search::ChosenTest>,
) -> Result<(), AllocError>
    requires known { IsKnown facts.now known.old }
    requires field { IsFieldOf facts.now.shape field.now }
    ensures known { IsKnown facts.now known.new }
    ensures grows { GrowsIn field.now known.old.steps known.new.steps }
{
    'hangs: for k in 0..hangs.len() {
        learn_hung(known, facts, field, hung_of(hangs[k]))?;
    }
    Ok(())
}

// A pin of the machine comes to be known, if it is kept and of the set.
fn learn_pin(known: &mut Known, facts: &Facts, field: &Field, pin: u32) -> Result<(), AllocError>
    requires known { IsKnown facts.now known.old }
    requires field { IsFieldOf facts.now.shape field.now }
    requires pin { pin < pins_of facts.now.shape }
    ensures known { IsKnown facts.now known.new }
    ensures grows { GrowsIn field.now known.old.steps known.new.steps }
{
    let wire = facts.shape().pin(Pin(pin));
    if !is_wanted(facts, known, field, wire) {
        return Ok(());
    }
    known.learn(VerifiedWire {
        wire,
        stand: SupportedBy::Pin(pin),
    })
}

/// The pins of the machine come to be known that are kept and of the set.
pub(crate) fn learn_pins(known: &mut Known, facts: &Facts, field: &Field) -> Result<(), AllocError>
    requires known { IsKnown facts.now known.old }
    requires field { IsFieldOf facts.now.shape field.now }
    ensures known { IsKnown facts.now known.new }
    ensures grows { GrowsIn field.now known.old.steps known.new.steps }
{
    'pins: for pin in 0..facts.shape().pins() {
        learn_pin(known, facts, field, pin)?;
    }
    Ok(())
}
