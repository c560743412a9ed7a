//! A look at a known wire: over each link from it in the field, to one that came before it, or that isn't known.
ghost use Rattle.std.specs.Prelude.{◌≡◌, ◌<◌, ◌+◌, false, Some, IfOk, OnOk, IsErrOf, length};
ghost use Rattle.base_bits.specs.Numbers.{has_number};
ghost use Rattle.base_io.specs.Counts.{Rose};
ghost use Rattle.machine_shape.specs.Shape.{wires_of};
ghost use Rattle.rig.specs.Rig.{ForEach, shape_of};
ghost use Rattle.diag_evidence.specs.Kept.{Advances, KeepsTrial};
ghost use Rattle.diag_known.specs.Vocabulary.{IsFieldOf, IsKnown, KnowsAll, IsBefore, HasWire, AreMarks, AreMarksOver, JoinsAtMost};
ghost use Rattle.diag_known.specs.Vocabulary.{IsKeptUnlessStuck, IsOffer, Spends, SpendsFew};
ghost use Rattle.diag_growth.specs.Grown.{IsGrown};
ghost use Rattle.diag_growth.specs.Looks.{IsLook, IsLookAt, IsOfField, IsOfferOf, IsLookedOver, AreEarlier, AreAllMarks, AreTried};
ghost use Rattle.diag_growth.specs.Looks.{TakesEarlier, Grows};

use crate::learn::try_offer;
use diag_evidence::Facts;
use diag_known::{Field, Known, Marks, Offer, Support, links_of, toggle_known};
use machine_shape::{Wire, the_numbering_is_sound};
use rig::{Rig, RigFail};
use std::alloc::AllocError;

/// A known wire, its place, and a link from it: a crosspoint to another wire.
#[derive(Clone, Copy, Debug)]
pub(crate) struct Look {
    pub place: usize,
    pub wire: Wire,
    pub link: Support,
}

// Takes a link, if its known end came before the place.
fn put_earlier(
    others: &mut Vec<Support>,
    known: &Known,
    facts: &Facts,
    place: usize,
    link: Support,
) -> Result<(), AllocError>
    requires known { IsKnown facts.now known.now }
    requires wire { link.wire.0 < wires_of known.now.shape }
    ensures { OnOk result (TakesEarlier known.now.steps place link others.old.items others.new.items) }
{
    let Some(at) = known.place_of(link.wire) else {
        return Ok(());
    };
    if at >= place {
        return Ok(());
    }
    others.push(link)?;
    Ok(())
}

// The links of the wire to which a look leads, whose known ends came before.
fn earlier_links(
    known: &Known,
    facts: &Facts,
    field: &Field,
    look: Look,
) -> Result<Vec<Support>, AllocError>
    requires known { IsKnown facts.now known.now }
    requires field { IsFieldOf facts.now.shape field.now }
    requires other { look.link.wire.0 < wires_of facts.now.shape }
    ensures { IfOk result (λ others. AreEarlier facts.now.shape field.now known.now.steps look.place look.link.wire.0 others.items) }
{
    the_numbering_is_sound();
    let links = links_of(known.alloc(), &facts.shape(), field, look.link.wire)?;
    let mut others = Vec::new(known.alloc());
    'links: for j in 0..links.len() {
        put_earlier(&mut others, known, facts, look.place, links[j])?;
    }
    Ok(others)
}

// The offer of a look to a wire that isn't known.
fn offer_of(known: &Known, facts: &Facts, field: &Field, look: Look) -> Result<Offer, AllocError>
    requires known { IsKnown facts.now known.now }
    requires field { IsFieldOf facts.now.shape field.now }
    requires look { IsLook facts.now.shape field.now known.now.steps look }
    requires new { ¬ HasWire known.now.steps look.link.wire.0 }
    ensures offer { IfOk result (IsOffer facts.now.shape known.now.steps) }
    ensures of_look { IfOk result (IsOfferOf facts.now.shape field.now known.now.steps look) }
{
    the_numbering_is_sound();
    let others = earlier_links(known, facts, field, look)?;
    Ok(Offer {
        wire: look.link.wire,
        foot: Support {
            cross: look.link.cross,
            wire: look.wire,
        },
        others,
    })
}

// Looks from a known wire to one that came before it.
fn look_known(
    known: &Known,
    rig: &mut Box<dyn Rig>,
    facts: &mut Facts,
    marks: &mut Marks,
    look: Look,
) -> Result<(), RigFail>
    requires attached { shape_of (rig_state rig.old) ≡ Some facts.old.shape }
    requires known { IsKnown facts.old known.now }
    requires look { IsLookAt facts.old.shape known.now.steps look }
    requires other { IsBefore known.now.steps look.place look.link.wire.0 }
    requires marks { AreMarksOver facts.old.shape marks.old }
    ensures kept_each { OnOk result (ForEach (rig_state rig.new) (λ told. AreMarks told facts.old known.now.steps marks.old →
        IsKeptUnlessStuck told facts.new look.link.cross.0)) }
    ensures marks { AreMarksOver facts.new.shape marks.new }
    ensures marks_each { OnOk result (ForEach (rig_state rig.new) (λ told. AreMarks told facts.old known.now.steps marks.old → AreMarks
        told facts.new known.now.steps marks.new)) }
    ensures joins { JoinsAtMost facts.old look.link.cross.0 marks.old marks.new (rig_state rig.old).loads (rig_state rig.new).loads }
    ensures trial { KeepsTrial facts.old facts.new }
    ensures advances { Advances (rig_state rig.old) (rig_state rig.new) facts.old facts.new }
    ensures cause { IsErrOf result RigFail.Failed → Rose (rig_state rig.old).failures (rig_state rig.new).failures }
{
    if facts.keeps_cross(look.link.cross) {
        return Ok(());
    }
    if marks.between.has(look.link.cross.0) {
        return Ok(());
    }
    marks.put_between(look.link.cross);
    toggle_known(
        known,
        rig,
        facts,
        look.link.cross,
        look.link.wire,
        look.wire,
    )
}

// Looks from a known wire to one that isn't known, nor barred.
fn look_new(
    known: &mut Known,
    rig: &mut Box<dyn Rig>,
    facts: &mut Facts,
    marks: &mut Marks,
    field: &Field,
    look: Look,
) -> Result<(), RigFail>
    requires attached { shape_of (rig_state rig.old) ≡ Some facts.old.shape }
    requires known { IsKnown facts.old known.old }
    requires all { KnowsAll facts.old known.old.steps }
    requires field { IsFieldOf facts.old.shape field.now }
    requires look { IsLook facts.old.shape field.now known.old.steps look }
    requires marks { AreMarksOver facts.old.shape marks.old }
    requires new { ¬ HasWire known.old.steps look.link.wire.0 }
    requires free { has_number marks.old.barred look.link.wire.0 ≡ false }
    ensures grows { Grows facts.new known.old known.new marks.old.barred marks.new.barred }
    ensures tried_each { OnOk result (ForEach (rig_state rig.new) (λ told. AreAllMarks told facts.old field.now known.old.steps
        marks.old → AreTried told facts.new known.new.steps marks.old.barred marks.new.barred)) }
    ensures looked_each { OnOk result (ForEach (rig_state rig.new) (λ told. AreAllMarks told facts.old field.now known.old.steps
        marks.old → IsLookedOver told facts.new field.now known.new.steps marks.new.barred look)) }
    ensures marks { AreMarksOver facts.new.shape marks.new }
    ensures marks_each { OnOk result (ForEach (rig_state rig.new) (λ told. AreAllMarks told facts.old field.now known.old.steps
        marks.old → AreAllMarks told facts.new field.now known.new.steps marks.new)) }
    ensures spends { Spends facts.old (IsOfField field.now) marks.old marks.new (rig_state rig.old).loads
        (rig_state rig.new).loads }
    ensures spends_each { ForEach (rig_state rig.new) (λ told. AreAllMarks told facts.old field.now known.old.steps marks.old →
        SpendsFew told facts.old marks.old marks.new (rig_state rig.old).loads (rig_state rig.new).loads) }
    ensures advances { Advances (rig_state rig.old) (rig_state rig.new) facts.old facts.new }
    ensures cause { IsErrOf result RigFail.Failed → Rose (rig_state rig.old).failures (rig_state rig.new).failures }
{
    the_numbering_is_sound();
    if marks.offered.has(look.link.cross.0) {
        return Ok(());
    }
    let Ok(offer) = offer_of(known, facts, field, look) else {
        return Err(RigFail::Memory);
    };
    try_offer(known, rig, facts, marks, &offer)
}

// Looks from a known wire over a link.
fn look_over(
    known: &mut Known,
    rig: &mut Box<dyn Rig>,
    facts: &mut Facts,
    marks: &mut Marks,
    field: &Field,
    look: Look,
) -> Result<(), RigFail>
    requires attached { shape_of (rig_state rig.old) ≡ Some facts.old.shape }
    requires known { IsKnown facts.old known.old }
    requires all { KnowsAll facts.old known.old.steps }
    requires field { IsFieldOf facts.old.shape field.now }
    requires look { IsLook facts.old.shape field.now known.old.steps look }
    requires marks { AreMarksOver facts.old.shape marks.old }
    ensures grows { Grows facts.new known.old known.new marks.old.barred marks.new.barred }
    ensures tried_each { OnOk result (ForEach (rig_state rig.new) (λ told. AreAllMarks told facts.old field.now known.old.steps
        marks.old → AreTried told facts.new known.new.steps marks.old.barred marks.new.barred)) }
    ensures looked_each { OnOk result (ForEach (rig_state rig.new) (λ told. AreAllMarks told facts.old field.now known.old.steps
        marks.old → IsLookedOver told facts.new field.now known.new.steps marks.new.barred look)) }
    ensures marks { AreMarksOver facts.new.shape marks.new }
    ensures marks_each { OnOk result (ForEach (rig_state rig.new) (λ told. AreAllMarks told facts.old field.now known.old.steps
        marks.old → AreAllMarks told facts.new field.now known.new.steps marks.new)) }
    ensures spends { Spends facts.old (IsOfField field.now) marks.old marks.new (rig_state rig.old).loads
        (rig_state rig.new).loads }
    ensures spends_each { ForEach (rig_state rig.new) (λ told. AreAllMarks told facts.old field.now known.old.steps marks.old →
        SpendsFew told facts.old marks.old marks.new (rig_state rig.old).loads (rig_state rig.new).loads) }
    ensures advances { Advances (rig_state rig.old) (rig_state rig.new) facts.old facts.new }
    ensures cause { IsErrOf result RigFail.Failed → Rose (rig_state rig.old).failures (rig_state rig.new).failures }
{
    the_numbering_is_sound();
    let Some(other) = known.place_of(look.link.wire) else {
        if marks.barred.has(look.link.wire.0) {
            return Ok(());
        }
        return look_new(known, rig, facts, marks, field, look);
    };
    if other >= look.place {
        return Ok(());
    }
    look_known(known, rig, facts, marks, look)
}

/// Looks from a known wire over all its links.
pub(crate) fn look_at(
    known: &mut Known,
    rig: &mut Box<dyn Rig>,
    facts: &mut Facts,
    marks: &mut Marks,
    field: &Field,
    place: usize,
) -> Result<(), RigFail>
    requires attached { shape_of (rig_state rig.old) ≡ Some facts.old.shape }
    requires known { IsKnown facts.old known.old }
    requires all { KnowsAll facts.old known.old.steps }
    requires field { IsFieldOf facts.old.shape field.now }
    requires place { place < length known.old.steps }
    requires marks { AreMarksOver facts.old.shape marks.old }
    ensures grows { Grows facts.new known.old known.new marks.old.barred marks.new.barred }
    ensures tried_each { OnOk result (ForEach (rig_state rig.new) (λ told. AreAllMarks told facts.old field.now known.old.steps
        marks.old → AreTried told facts.new known.new.steps marks.old.barred marks.new.barred)) }
    ensures grown_each { OnOk result (ForEach (rig_state rig.new) (λ told. AreAllMarks told facts.old field.now known.old.steps
        marks.old → IsGrown told facts.old field.now known.old.steps marks.old.barred place → IsGrown told facts.new field.now
        known.new.steps marks.new.barred (place + 1))) }
    ensures marks { AreMarksOver facts.new.shape marks.new }
    ensures marks_each { OnOk result (ForEach (rig_state rig.new) (λ told. AreAllMarks told facts.old field.now known.old.steps
        marks.old → AreAllMarks told facts.new field.now known.new.steps marks.new)) }
    ensures spends { Spends facts.old (IsOfField field.now) marks.old marks.new (rig_state rig.old).loads
        (rig_state rig.new).loads }
    ensures spends_each { ForEach (rig_state rig.new) (λ told. AreAllMarks told facts.old field.now known.old.steps marks.old →
        SpendsFew told facts.old marks.old marks.new (rig_state rig.old).loads (rig_state rig.new).loads) }
    ensures advances { Advances (rig_state rig.old) (rig_state rig.new) facts.old facts.new }
    ensures cause { IsErrOf result RigFail.Failed → Rose (rig_state rig.old).failures (rig_state rig.new).failures }
{
    let wire = known.wire_at(place);
    let Ok(links) = links_of(known.alloc(), &facts.shape(), field, wire) else {
        return Err(RigFail::Memory);
    };
    'links: for j in 0..links.len() {
        let look = Look {
            place,
            wire,
            link: links[j],
        };
        look_over(known, rig, facts, marks, field, look)?;
    }
    Ok(())
}
