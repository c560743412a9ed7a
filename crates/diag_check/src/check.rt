//! The test of an image.
ghost use Rattle.std.specs.Prelude.{◌≡◌, ◌≤◌, ◌+◌, ◌*◌, ℕ, Bool, List, Some, IfOk, IsErrOf, IsTrue};
ghost use Rattle.base_bits.specs.Numbers.{size_of};
ghost use Rattle.base_io.specs.Counts.{Rose};
ghost use Rattle.diag_evidence.specs.Kept.{Advances, KeepsSet};
ghost use Rattle.diag_known.specs.Vocabulary.{IsFieldOf, IsKnown};
ghost use Rattle.diag_sweep.specs.Shown.{IsCoherent};
ghost use Rattle.rig.specs.Rig.{ForEach, Narrows, Tells, shape_of};
ghost use Rattle.machine_image.specs.Parts.{IsWideEnough};
ghost use Rattle.diag_check.specs.Fields.{IsFewFor};
ghost use Rattle.diag_check.specs.Near.{AreSurroundings};
ghost use Rattle.diag_check.specs.Skeleton.{HasSkeleton};
ghost use Rattle.diag_check.specs.Looks.{FewerIf, FieldIf, RoutesIf, TablesIf, TakesAround, TakesForTables, TakesInField, WholeIf};
ghost use Rattle.diag_check.specs.Soundly.{FewIf, KeepsParts, KeepsRoutesInSet, KeepsTables, SoundIf, TakesForWays, YesIf};
ghost use Rattle.diag_check.specs.Used.{AreInvolved, AreUsed};

use crate::fields::field_of;
use crate::laws::kept_images_run_soundly;
use crate::look::{keeps_routes, keeps_tables};
use crate::marks::{Parts, parts_of};
use crate::near::surroundings_of;
use base_bits::BitSet;
use diag_evidence::Facts;
use diag_evidence::laws::{kept_facts_are_sound, tests_add_up};
use diag_growth::{Field, Known, grow, test_tables};
use diag_sweep::{Knowledge, growth_after_a_sweep_is_paid, sweep};
use machine_image::Image;
use machine_meaning::{parts_of_served_nodes_stand, without_faults_all_is_sound};
use machine_shape::{
    Shape, each_wire_has_a_home, the_crosspoints_are_sound, the_numbering_is_sound,
};
use rig::{Rig, RigFail};
use std::alloc::{AllocError, Global};

// Grows in a field, and looks whether the image's wires are known and its crosspoints kept then.
fn grow_over(
    rig: &mut Box<dyn Rig>,
    knowledge: &mut Knowledge,
    field: &Field,
    image: &Image,
    used: &BitSet,
) -> Result<bool, RigFail>
    requires attached { shape_of (rig_state rig.old) ≡ Some knowledge.old.facts.shape }
    requires coherent { IsCoherent knowledge.old }
    requires field { IsFieldOf knowledge.old.facts.shape field.now }
    requires image { image.now.config.shape ≡ knowledge.old.facts.shape }
    requires used { AreUsed image.now used.now }
    ensures coherent { IsCoherent knowledge.new }
    ensures keeps { IfOk result (λ yes. IsTrue yes → KeepsRoutesInSet knowledge.new.facts image.now) }
    ensures whole_each { IfOk result (λ yes. ForEach (rig_state rig.new) (λ told. RoutesIf told knowledge.old.facts knowledge.new.facts knowledge.new.verified.steps
        image.now field.now yes)) }
    ensures advances { Advances (rig_state rig.old) (rig_state rig.new) knowledge.old.facts knowledge.new.facts }
    ensures loads { (rig_state rig.new).loads ≤ (rig_state rig.old).loads + (8 * size_of field.now.crosses + 3 * size_of field.now.wires) }
    ensures cause { IsErrOf result RigFail.Failed → Rose (rig_state rig.old).failures (rig_state rig.new).failures }
{
    the_numbering_is_sound();
    the_crosspoints_are_sound();
    each_wire_has_a_home();
    without_faults_all_is_sound();
    parts_of_served_nodes_stand();
    match grow(rig, &mut knowledge.facts, &mut knowledge.verified, field) {
        Ok(()) => Ok(keeps_routes(&knowledge.facts, &knowledge.verified, image, used)),
        Err(fail) => Err(fail),
    }
}

// Tests the image's tables, and looks whether what it needs of them is kept then.
fn look_at_tables(
    rig: &mut Box<dyn Rig>,
    facts: &mut Facts,
    known: &Known,
    image: &Image,
) -> Result<bool, RigFail>
    requires attached { shape_of (rig_state rig.old) ≡ Some facts.old.shape }
    requires known { IsKnown facts.old known.now }
    requires image { image.now.config.shape ≡ facts.old.shape }
    ensures keeps { IfOk result (λ yes. IsTrue yes → KeepsTables facts.new image.now) }
    ensures whole_each { IfOk result (λ yes. ForEach (rig_state rig.new) (λ told. TablesIf told facts.old known.now.steps image.now yes)) }
    ensures advances { Advances (rig_state rig.old) (rig_state rig.new) facts.old facts.new }
    ensures set { KeepsSet facts.old facts.new }
    ensures loads { (used : List Bool) → AreUsed image.now used →
        TakesForTables image.now used (rig_state rig.old).loads (rig_state rig.new).loads }
    ensures cause { IsErrOf result RigFail.Failed → Rose (rig_state rig.old).failures (rig_state rig.new).failures }
{
    the_numbering_is_sound();
    without_faults_all_is_sound();
    let config = image.config();
    match test_tables(rig, facts, known, config.tables_on()) {
        Ok(()) => Ok(keeps_tables(facts, image)),
        Err(fail) => Err(fail),
    }
}

// Tests the image in a field: whether that reaches all its wires and crosspoints, and its tables are right.
fn check_in(
    rig: &mut Box<dyn Rig>,
    knowledge: &mut Knowledge,
    field: &Field,
    image: &Image,
    used: &BitSet,
) -> Result<bool, RigFail>
    requires attached { shape_of (rig_state rig.old) ≡ Some knowledge.old.facts.shape }
    requires coherent { IsCoherent knowledge.old }
    requires field { IsFieldOf knowledge.old.facts.shape field.now }
    requires image { image.now.config.shape ≡ knowledge.old.facts.shape }
    requires used { AreUsed image.now used.now }
    ensures coherent { IsCoherent knowledge.new }
    ensures keeps { IfOk result (λ yes. IsTrue yes → KeepsParts knowledge.new.facts image.now) }
    ensures whole_each { IfOk result (λ yes. ForEach (rig_state rig.new) (λ told. FieldIf told knowledge.old.facts image.now field.now yes)) }
    ensures advances { Advances (rig_state rig.old) (rig_state rig.new) knowledge.old.facts knowledge.new.facts }
    ensures loads { TakesInField image.now used.now field.now (rig_state rig.old).loads (rig_state rig.new).loads }
    ensures cause { IsErrOf result RigFail.Failed → Rose (rig_state rig.old).failures (rig_state rig.new).failures }
{
    tests_add_up();
    match grow_over(rig, knowledge, field, image, used) {
        Ok(true) => {}
        Ok(false) => return Ok(false),
        Err(fail) => return Err(fail),
    }
    look_at_tables(rig, &mut knowledge.facts, &knowledge.verified, image)
}

// How many ports and lines of each involved node a sweep goes over.
const BROAD: usize = 10;

// Whether the wires that the image uses pay for a sweep of the field.
fn is_paid(field: &Field, used: &BitSet) -> bool
    ensures { IsTrue result → 2 * size_of field.now.crosses + size_of field.now.wires ≤ 170 * size_of used.now }
{
    let most = 2 * u64::from(field.crosses.count()) + u64::from(field.wires.count());
    most <= 170 * u64::from(used.count())
}

// Sweeps a broad field around the image, where that is paid for. What it finds bad is left to growth.
fn sweep_around(
    rig: &mut Box<dyn Rig>,
    knowledge: &mut Knowledge,
    image: &Image,
    parts: &Parts,
) -> Result<(), RigFail>
    requires attached { shape_of (rig_state rig.old) ≡ Some knowledge.old.facts.shape }
    requires coherent { IsCoherent knowledge.old }
    requires image { image.now.config.shape ≡ knowledge.old.facts.shape }
    requires used { AreUsed image.now parts.now.used }
    requires nodes { AreInvolved image.now parts.now.nodes }
    ensures coherent { IsCoherent knowledge.new }
    ensures advances { Advances (rig_state rig.old) (rig_state rig.new) knowledge.old.facts knowledge.new.facts }
    ensures loads { (rig_state rig.new).loads ≤ (rig_state rig.old).loads + 170 * size_of parts.now.used }
    ensures cause { IsErrOf result RigFail.Failed → Rose (rig_state rig.old).failures (rig_state rig.new).failures }
{
    tests_add_up();
    growth_after_a_sweep_is_paid();
    let Ok(field) = field_of(knowledge.verified.alloc(), image, parts, BROAD) else {
        return Err(RigFail::Memory);
    };
    if !is_paid(&field, &parts.used) {
        return Ok(());
    }
    let config = image.config();
    sweep(rig, knowledge, &field, config.tables_on())
}

// The fields in which an image is tested: the narrow one has two ports and lines of each involved node, the wide one all that surrounds
// the image.
#[derive(Drop)]
struct TestFields {
    narrow: Field,
    wide: Field,
}

fn fields_of(alloc: Global, image: &Image, parts: &Parts) -> Result<TestFields, AllocError>
    requires used { AreUsed image.now parts.now.used }
    requires nodes { AreInvolved image.now parts.now.nodes }
    ensures narrow { IfOk result (λ f. IsFieldOf image.now.config.shape f.narrow) }
    ensures narrow_whole { IsWideEnough image.now.config.shape image.now → IfOk result (λ f. HasSkeleton image.now f.narrow) }
    ensures narrow_few { IfOk result (λ f. IsFewFor image.now parts.now.nodes parts.now.used 2 f.narrow) }
    ensures wide { IfOk result (λ f. IsFieldOf image.now.config.shape f.wide) }
    ensures wide_whole { IfOk result (λ f. AreSurroundings image.now f.wide) }
{
    let narrow = field_of(alloc, image, parts, 2)?;
    let wide = surroundings_of(alloc, image, &parts.nodes)?;
    Ok(TestFields { narrow, wide })
}

// Sweeps around the image, and then tests it in the narrow field, and where that isn't enough in the wide one.
fn check_over(
    rig: &mut Box<dyn Rig>,
    knowledge: &mut Knowledge,
    image: &Image,
    parts: &Parts,
    fields: &TestFields,
) -> Result<bool, RigFail>
    requires attached { shape_of (rig_state rig.old) ≡ Some knowledge.old.facts.shape }
    requires image { image.now.config.shape ≡ knowledge.old.facts.shape }
    requires used { AreUsed image.now parts.now.used }
    requires nodes { AreInvolved image.now parts.now.nodes }
    requires coherent { IsCoherent knowledge.old }
    requires narrow { IsFieldOf image.now.config.shape fields.now.narrow }
    requires narrow_whole { IsWideEnough image.now.config.shape image.now → HasSkeleton image.now fields.now.narrow }
    requires narrow_few { IsFewFor image.now parts.now.nodes parts.now.used 2 fields.now.narrow }
    requires wide { IsFieldOf image.now.config.shape fields.now.wide }
    requires wide_whole { AreSurroundings image.now fields.now.wide }
    ensures keeps { IfOk result (λ yes. IsTrue yes → KeepsParts knowledge.new.facts image.now) }
    ensures whole_each { IfOk result (λ yes. ForEach (rig_state rig.new) (λ told. WholeIf told knowledge.old.facts image.now yes)) }
    ensures advances { Advances (rig_state rig.old) (rig_state rig.new) knowledge.old.facts knowledge.new.facts }
    ensures loads { TakesAround image.now parts.now.nodes parts.now.used (rig_state rig.old).loads (rig_state rig.new).loads }
    ensures few_each { ForEach (rig_state rig.new) (λ told. FewerIf told knowledge.old.facts image.now parts.now.nodes parts.now.used
        (rig_state rig.old).loads (rig_state rig.new).loads) }
    ensures cause { IsErrOf result RigFail.Failed → Rose (rig_state rig.old).failures (rig_state rig.new).failures }
{
    tests_add_up();
    match sweep_around(rig, knowledge, image, parts) {
        Ok(()) => {}
        Err(fail) => return Err(fail),
    }
    match check_in(rig, knowledge, &fields.narrow, image, &parts.used) {
        Ok(true) => return Ok(true),
        Ok(false) => {}
        Err(fail) => return Err(fail),
    }
    check_in(rig, knowledge, &fields.wide, image, &parts.used)
}

// Makes the fields of an image, and tests it in them.
fn check_with(
    alloc: Global,
    rig: &mut Box<dyn Rig>,
    knowledge: &mut Knowledge,
    image: &Image,
    parts: &Parts,
) -> Result<bool, RigFail>
    requires attached { shape_of (rig_state rig.old) ≡ Some knowledge.old.facts.shape }
    requires image { image.now.config.shape ≡ knowledge.old.facts.shape }
    requires coherent { IsCoherent knowledge.old }
    requires used { AreUsed image.now parts.now.used }
    requires nodes { AreInvolved image.now parts.now.nodes }
    ensures keeps { IfOk result (λ yes. IsTrue yes → KeepsParts knowledge.new.facts image.now) }
    ensures whole_each { IfOk result (λ yes. ForEach (rig_state rig.new) (λ told. WholeIf told knowledge.old.facts image.now yes)) }
    ensures advances { Advances (rig_state rig.old) (rig_state rig.new) knowledge.old.facts knowledge.new.facts }
    ensures loads { TakesAround image.now parts.now.nodes parts.now.used (rig_state rig.old).loads (rig_state rig.new).loads }
    ensures few_each { ForEach (rig_state rig.new) (λ told. FewerIf told knowledge.old.facts image.now parts.now.nodes parts.now.used
        (rig_state rig.old).loads (rig_state rig.new).loads) }
    ensures cause { IsErrOf result RigFail.Failed → Rose (rig_state rig.old).failures (rig_state rig.new).failures }
{
    tests_add_up();
    let Ok(fields) = fields_of(alloc, image, parts) else {
        return Err(RigFail::Memory);
    };
    check_over(rig, knowledge, image, parts, &fields)
}

/// Whether an image still runs on the attached machine as on one without faults. Each part of it is tested over routes of the
/// test's own. `true` means that each set of faults that explains all that was read of the machine leaves the image alone, so that it
/// runs as without faults. `false` may be wrong, but not where under one of these sets the image stands by its surroundings: a fault
/// that is far from the image doesn't matter, nor does a bad pin, line or port beside it as long as two good ways are left. Nor is it
/// `false` where the machine is wide enough for the image and its parts and surroundings are sound, as all are without faults: then it
/// takes at most 256 loads for each part and each involved node. Otherwise 8 for each crosspoint and 3 for each wire of the
/// surroundings come besides, whatever the answer. Faults that the rig tells explain what was read, if they did before.
///
/// # Errors
///
/// `Failed` where a call of the rig failed, `Memory` where memory was lacking.
pub fn quick_check(
    alloc: Global,
    rig: &mut Box<dyn Rig>,
    shape: &Shape,
    image: &Image,
) -> Result<bool, RigFail>
    requires attached { shape_of (rig_state rig.old) ≡ Some shape.now }
    requires image { image.now.config.shape ≡ shape.now }
    ensures sound_each { IfOk result (λ yes. ForEach (rig_state rig.new) (λ told. SoundIf told image.now yes)) }
    ensures whole_each { IfOk result (λ yes. ForEach (rig_state rig.new) (λ told. YesIf told image.now yes)) }
    ensures machine { (rig_state rig.new).machine ≡ (rig_state rig.old).machine }
    ensures narrows { Narrows (rig_state rig.old) (rig_state rig.new) }
    ensures tells { Tells (rig_state rig.old) (rig_state rig.new) }
    ensures later { (rig_state rig.old).failures ≤ (rig_state rig.new).failures }
    ensures counted { (rig_state rig.old).loads ≤ (rig_state rig.new).loads }
    ensures loads { TakesForWays image.now (rig_state rig.old).loads (rig_state rig.new).loads }
    ensures few_each { ForEach (rig_state rig.new) (λ told. FewIf told image.now (rig_state rig.old).loads (rig_state rig.new).loads) }
    ensures cause { IsErrOf result RigFail.Failed → Rose (rig_state rig.old).failures (rig_state rig.new).failures }
{
    kept_facts_are_sound();
    kept_images_run_soundly();
    let Ok(parts) = parts_of(alloc, image) else {
        return Err(RigFail::Memory);
    };
    let Ok(mut knowledge) = Knowledge::none(alloc, shape) else {
        return Err(RigFail::Memory);
    };
    check_with(alloc, rig, &mut knowledge, image, &parts)
}
