//! Growth of known wires in a field.
ghost use Rattle.std.specs.Prelude.{◌≡◌, ◌⊎◌, ◌≤◌, ◌<◌, ◌+◌, ◌*◌, true, Some, OnOk, IsErrOf, length};
ghost use Rattle.base_bits.specs.Numbers.{has_number, size_of};
ghost use Rattle.base_io.specs.Counts.{Rose};
ghost use Rattle.machine_shape.specs.Shape.{pins_of, pin_wire};
ghost use Rattle.rig.specs.Rig.{ForEach, shape_of};
ghost use Rattle.diag_evidence.specs.Kept.{Advances};
ghost use Rattle.diag_known.specs.Vocabulary.{IsFieldOf, ClosedIf, GrowsIn, TakesFew, fresh, pins_in, IsKnown, KnowsAll};
ghost use Rattle.diag_known.specs.Vocabulary.{AreMarksOver, HasWire, Spends, SpendsFew};
ghost use Rattle.diag_growth.specs.Grown.{IsGrown};
ghost use Rattle.diag_growth.specs.Looks.{AreAllMarks, AreTried, Grows, IsOfField};

use crate::complete::is_complete;
use crate::learn::try_pin;
use crate::look::look_at;
use crate::rest::rest_of;
use diag_evidence::Facts;
use diag_known::{Field, Known, Marks};
use machine_shape::{Pin, the_crosspoints_are_sound, the_numbering_is_sound};
use rig::{Rig, RigFail};

// Looks at all known wires from a place on, also at those that come to be known by it.
fn look_on(
    known: &mut Known,
    rig: &mut Box<dyn Rig>,
    facts: &mut Facts,
    marks: &mut Marks,
    field: &Field,
    from: usize,
) -> Result<(), RigFail>
    requires attached { shape_of (rig_state rig.old) ≡ Some facts.old.shape }
    requires known { IsKnown facts.old known.old }
    requires all { KnowsAll facts.old known.old.steps }
    requires field { IsFieldOf facts.old.shape field.now }
    requires marks { AreMarksOver facts.old.shape marks.old }
    requires from { from ≤ length known.old.steps }
    ensures grows { Grows facts.new known.old known.new marks.old.barred marks.new.barred }
    ensures tried_each { OnOk result (ForEach (rig_state rig.new) (λ told. AreAllMarks told facts.old field.now known.old.steps
        marks.old → AreTried told facts.new known.new.steps marks.old.barred marks.new.barred)) }
    ensures grown_each { OnOk result (ForEach (rig_state rig.new) (λ told. AreAllMarks told facts.old field.now known.old.steps
        marks.old → IsGrown told facts.old field.now known.old.steps marks.old.barred from → IsGrown told facts.new field.now
        known.new.steps marks.new.barred (length known.new.steps))) }
    ensures marks { AreMarksOver facts.new.shape marks.new }
    ensures marks_each { OnOk result (ForEach (rig_state rig.new) (λ told. AreAllMarks told facts.old field.now known.old.steps
        marks.old → AreAllMarks told facts.new field.now known.new.steps marks.new)) }
    ensures spends { Spends facts.old (IsOfField field.now) marks.old marks.new (rig_state rig.old).loads
        (rig_state rig.new).loads }
    ensures spends_each { ForEach (rig_state rig.new) (λ told. AreAllMarks told facts.old field.now known.old.steps marks.old →
        SpendsFew told facts.old marks.old marks.new (rig_state rig.old).loads (rig_state rig.new).loads) }
    ensures advances { Advances (rig_state rig.old) (rig_state rig.new) facts.old facts.new }
    ensures cause { IsErrOf result RigFail.Failed → Rose (rig_state rig.old).failures (rig_state rig.new).failures }
{
    let mut place = from;
    'places: while place < known.len() {
        look_at(known, rig, facts, marks, field, place)?;
        place += 1;
    }
    Ok(())
}

// Tries a pin of the machine, if it is neither known nor barred, and looks on from it.
fn grow_pin(
    known: &mut Known,
    rig: &mut Box<dyn Rig>,
    facts: &mut Facts,
    marks: &mut Marks,
    field: &Field,
    pin: u32,
) -> Result<(), RigFail>
    requires attached { shape_of (rig_state rig.old) ≡ Some facts.old.shape }
    requires known { IsKnown facts.old known.old }
    requires all { KnowsAll facts.old known.old.steps }
    requires field { IsFieldOf facts.old.shape field.now }
    requires marks { AreMarksOver facts.old.shape marks.old }
    requires pin { pin < pins_of facts.old.shape }
    ensures grows { Grows facts.new known.old known.new marks.old.barred marks.new.barred }
    ensures tried_each { OnOk result (ForEach (rig_state rig.new) (λ told. AreAllMarks told facts.old field.now known.old.steps
        marks.old → AreTried told facts.new known.new.steps marks.old.barred marks.new.barred)) }
    ensures grown_each { OnOk result (ForEach (rig_state rig.new) (λ told. AreAllMarks told facts.old field.now known.old.steps
        marks.old → IsGrown told facts.old field.now known.old.steps marks.old.barred (length known.old.steps) → IsGrown told
        facts.new field.now known.new.steps marks.new.barred (length known.new.steps))) }
    ensures pin { OnOk result (HasWire known.new.steps (pin_wire facts.old.shape pin)
        ⊎ (has_number marks.new.barred (pin_wire facts.old.shape pin) ≡ true)) }
    ensures marks { AreMarksOver facts.new.shape marks.new }
    ensures marks_each { OnOk result (ForEach (rig_state rig.new) (λ told. AreAllMarks told facts.old field.now known.old.steps
        marks.old → AreAllMarks told facts.new field.now known.new.steps marks.new)) }
    ensures spends { Spends facts.old (IsOfField field.now) marks.old marks.new (rig_state rig.old).loads
        (rig_state rig.new).loads }
    ensures spends_each { ForEach (rig_state rig.new) (λ told. AreAllMarks told facts.old field.now known.old.steps marks.old →
        SpendsFew told facts.old marks.old marks.new (rig_state rig.old).loads (rig_state rig.new).loads) }
    ensures advances { Advances (rig_state rig.old) (rig_state rig.new) facts.old facts.new }
    ensures cause { IsErrOf result RigFail.Failed → Rose (rig_state rig.old).failures (rig_state rig.new).failures }
{
    the_numbering_is_sound();
    let wire = facts.shape().pin(Pin(pin));
    if marks.barred.has(wire.0) {
        return Ok(());
    }
    if known.has(wire) {
        return Ok(());
    }
    let from = known.len();
    try_pin(known, rig, facts, marks, pin)?;
    look_on(known, rig, facts, marks, field, from)
}

// Known wires grow so, looking over each link of each of them.
fn grow_tried(
    rig: &mut Box<dyn Rig>,
    facts: &mut Facts,
    known: &mut Known,
    field: &Field,
) -> Result<(), RigFail>
    requires attached { shape_of (rig_state rig.old) ≡ Some facts.old.shape }
    requires known { IsKnown facts.old known.old }
    requires all { KnowsAll facts.old known.old.steps }
    requires field { IsFieldOf facts.old.shape field.now }
    ensures known { IsKnown facts.new known.new }
    ensures all { KnowsAll facts.new known.new.steps }
    ensures grows { GrowsIn field.now known.old.steps known.new.steps }
    ensures closed_each { OnOk result (ForEach (rig_state rig.new) (λ told. ClosedIf told facts.new field.now known.new.steps)) }
    ensures loads { (rig_state rig.new).loads + pins_in facts.old.shape field.now
        ≤ (rig_state rig.old).loads + (8 * fresh facts.old field.now + 3 * size_of field.now.wires) }
    ensures few_each { ForEach (rig_state rig.new) (λ told. TakesFew told facts.old field.now (rig_state rig.old).loads (rig_state
        rig.new).loads) }
    ensures advances { Advances (rig_state rig.old) (rig_state rig.new) facts.old facts.new }
    ensures cause { IsErrOf result RigFail.Failed → Rose (rig_state rig.old).failures (rig_state rig.new).failures }
{
    the_numbering_is_sound();
    the_crosspoints_are_sound();
    let shape = facts.shape();
    let Ok(mut marks) = Marks::new(known.alloc(), field) else {
        return Err(RigFail::Memory);
    };
    look_on(known, rig, facts, &mut marks, field, 0)?;
    'pins: for pin in 0..shape.pins() {
        grow_pin(known, rig, facts, &mut marks, field, pin)?;
    }
    Ok(())
}

/// Known wires, which are all of the set, grow in a field: until each wire of it that is clear, is shorted to no known wire, and is a pin
/// of the machine or has two crosspoints of the field that aren't stuck to two different known wires, is known, and each crosspoint of
/// the field between two known wires is kept unless it is stuck. What was known stays known, and what is new is of the field. What is kept
/// costs nothing again: it takes at most 8 loads for each crosspoint of the field that the proof doesn't keep and 3 for each of its
/// wires, less one for each pin of the machine in it, and without faults 2 and 3, less one for each such pin, whatever it answers. Wants
/// memory, some bits for each crosspoint and some bytes for each wire.
///
/// # Errors
///
/// `Failed` where a call of the rig failed, `Memory` where memory was lacking.
pub fn grow(
    rig: &mut Box<dyn Rig>,
    facts: &mut Facts,
    known: &mut Known,
    field: &Field,
) -> Result<(), RigFail>
    requires attached { shape_of (rig_state rig.old) ≡ Some facts.old.shape }
    requires known { IsKnown facts.old known.old }
    requires all { KnowsAll facts.old known.old.steps }
    requires field { IsFieldOf facts.old.shape field.now }
    ensures known { IsKnown facts.new known.new }
    ensures all { KnowsAll facts.new known.new.steps }
    ensures grows { GrowsIn field.now known.old.steps known.new.steps }
    ensures closed_each { OnOk result (ForEach (rig_state rig.new) (λ told. ClosedIf told facts.new field.now known.new.steps)) }
    ensures loads { (rig_state rig.new).loads + pins_in facts.old.shape field.now
        ≤ (rig_state rig.old).loads + (8 * fresh facts.old field.now + 3 * size_of field.now.wires) }
    ensures few_each { ForEach (rig_state rig.new) (λ told. TakesFew told facts.old field.now (rig_state rig.old).loads (rig_state
        rig.new).loads) }
    ensures advances { Advances (rig_state rig.old) (rig_state rig.new) facts.old facts.new }
    ensures cause { IsErrOf result RigFail.Failed → Rose (rig_state rig.old).failures (rig_state rig.new).failures }
{
    if is_complete(facts, known, field) {
        return Ok(());
    }
    let Ok(rest) = rest_of(facts, known, field) else {
        return Err(RigFail::Memory);
    };
    grow_tried(rig, facts, known, &rest)
}
