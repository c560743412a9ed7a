//! Wires that hang on two trees each over a crosspoint that isn't known, tested many at a time.
ghost use Rattle.std.specs.Prelude.{◌*◌, ◌≡◌, ◌≤◌, ◌<◌, ◌+◌, ◌++◌, ℕ, Bool, false, Some, All, map, length, slice_get, IfOk, OnOk, OnErr, IsErrOf};
ghost use Rattle.base_io.specs.Counts.{Rose};
ghost use Rattle.machine_shape.specs.Shape.{wires_of, pins_of};
ghost use Rattle.rig.specs.Rig.{ForEach, cycles_made, shape_of};
ghost use Rattle.diag_evidence.specs.Kept.{FewCycles, Advances};
ghost use Rattle.diag_evidence.specs.Forests.{KnowsForest};
ghost use Rattle.diag_evidence.specs.Hangs.{AreHangs, AreAllOf, HasTried, MarksUnfit, MarksUnclear, UnfitIf, UnclearIf, StayMarked};
ghost use Rattle.diag_evidence.specs.Hangs.{IsFoot, ShowsTried, over_of, pin_at, turned, overs, others, is_shown, others_part_from, shown, some_answers};
ghost use Rattle.diag_evidence.specs.Looks.{HasLooked, WantsRoom};
ghost use Rattle.diag_evidence.specs.Readings.{LoadsUpTo};
ghost use Rattle.diag_evidence.specs.Plans.{ArePins, IsPlan, AreViews, HasViewed, HasLearnt, LogsViews};

use crate::feet::{mark_unfit, pin_at, pins_at};
use crate::looks::look_drives;
use crate::{Facts, Forest, Looks};
use base_bits::BitSet;
use machine_shape::{Cross, Shape, Wire};
use rig::{PinBits, Rig, RigFail};
use std::alloc::{AllocError, Global};

/// A wire under test, with two crosspoints from it to wires that hang on different pins.
#[derive(Clone, Copy, Debug, PartialEq, Eq)]
pub struct WireTest {
    pub wire: Wire,
    pub over: Cross,
    pub other: Cross,
}

// What is closed in the three looks, and how they are driven.
#[derive(Drop)]
struct Plan {
    // The hangs whose crosspoints have changed places.
    turned: Vec<WireTest>,
    overs: Vec<(Wire, Cross)>,
    others: Vec<(Wire, Cross)>,
    all: Vec<(Wire, Cross)>,
    drives: Vec<PinBits>,
}

// The three looks: with all crosspoints, and without those over and the other ones.
#[derive(Drop)]
pub(crate) struct Views {
    pub(crate) all: Looks,
    pub(crate) without_over: Looks,
    pub(crate) without_other: Looks,
}

// The pins of the trees to which hangs lead: over their first crosspoints, and over the others.
#[derive(Drop)]
pub(crate) struct HangPins {
    pub(crate) over: Vec<u32>,
    pub(crate) other: Vec<u32>,
}

// A hang whose crosspoints have changed places.
pub(crate) fn turn(hang: WireTest) -> WireTest
    ensures { result ≡ turned hang }
{
    WireTest {
        wire: hang.wire,
        over: hang.other,
        other: hang.over,
    }
}

// The hangs whose crosspoints have changed places.
fn turn_hangs(alloc: Global, hangs: &[WireTest]) -> Result<Vec<WireTest>, AllocError>
    ensures { IfOk result (λ v. v.items ≡ map turned hangs.now) }
{
    let mut turned = Vec::new(alloc);
    'hangs: for k in 0..hangs.len() {
        turned.push(turn(hangs[k]))?;
    }
    Ok(turned)
}

// Adds the feet over the first crosspoints of hangs.
fn add_overs(feet: &mut Vec<(Wire, Cross)>, hangs: &[WireTest]) -> Result<(), AllocError>
    ensures { OnOk result (feet.new.items ≡ feet.old.items ++ overs hangs.now) }
{
    'hangs: for k in 0..hangs.len() {
        feet.push((hangs[k].wire, hangs[k].over))?;
    }
    Ok(())
}

// The feet over the first crosspoints of hangs.
fn overs(alloc: Global, hangs: &[WireTest]) -> Result<Vec<(Wire, Cross)>, AllocError>
    ensures { IfOk result (λ feet. feet.items ≡ overs hangs.now) }
{
    let mut feet = Vec::new(alloc);
    add_overs(&mut feet, hangs)?;
    Ok(feet)
}

// What the looks of some hangs close, and how they are driven.
fn make_plan(alloc: Global, hangs: &[WireTest], pins: u32) -> Result<Plan, AllocError>
    ensures { IfOk result (IsPlan hangs.now pins) }
{
    let turned = turn_hangs(alloc, hangs)?;
    let mut all = overs(alloc, hangs)?;
    add_overs(&mut all, &turned)?;
    Ok(Plan {
        overs: overs(alloc, hangs)?,
        others: overs(alloc, &turned)?,
        turned,
        all,
        drives: look_drives(alloc, pins)?,
    })
}

// Room for the three looks.
fn make_views(alloc: Global, shape: &Shape) -> Result<Views, AllocError>
    ensures { IfOk result (AreViews (pins_of shape.now)) }
{
    Ok(Views {
        all: Looks::new(alloc, shape)?,
        without_over: Looks::new(alloc, shape)?,
        without_other: Looks::new(alloc, shape)?,
    })
}

// Whether some q reads 1 with nothing driven, and 0 with its p driven.
fn some_answers(forest: &Forest, hangs: &[WireTest], reads: &Looks) -> bool
    requires over { All (λ h. IsFoot forest.now (over_of h)) hangs.now }
    requires other { All (λ h. IsFoot forest.now (over_of (turned h))) hangs.now }
    requires reads { reads.now.pins ≡ pins_of forest.now.shape }
    ensures { result ≡ some_answers forest.now hangs.now reads.now.rows }
{
    'hangs: for k in 0..hangs.len() {
        let hang = hangs[k];
        let p = pin_at(forest, (hang.wire, hang.over));
        let q = pin_at(forest, (hang.wire, hang.other));
        if !reads.read_free(q) {
            continue;
        }
        if !reads.read_under(p, q) {
            return true;
        }
    }
    false
}

// The pins of the trees to which hangs lead.
fn pins_of_hangs(
    alloc: Global,
    forest: &Forest,
    hangs: &[WireTest],
    plan: &Plan,
) -> Result<HangPins, AllocError>
    requires over { All (λ h. IsFoot forest.now (over_of h)) hangs.now }
    requires other { All (λ h. IsFoot forest.now (over_of (turned h))) hangs.now }
    requires overs { plan.now.overs.items ≡ overs hangs.now }
    requires others { plan.now.others.items ≡ others hangs.now }
    ensures { IfOk result (ArePins forest.now hangs.now) }
{
    let over = pins_at(alloc, forest, &plan.overs)?;
    let other = pins_at(alloc, forest, &plan.others)?;
    Ok(HangPins { over, other })
}

// The p of the hang at a place, where those of all hangs are listed.
fn listed_p(pins: &[u32], forest: &Forest, hangs: &[WireTest], k: usize, hang: WireTest) -> u32
    requires over { All (λ h. IsFoot forest.now (over_of h)) hangs.now }
    requires pins { pins.now ≡ map (pin_at forest.now) (overs hangs.now) }
    requires place { slice_get hangs.now k ≡ Some hang }
    ensures pin { result ≡ pin_at forest.now (over_of hang) }
    ensures within { result < pins_of forest.now.shape }
{
    // What hangs in a forest hangs on pins of its machine.
    let _crosses = forest.crosses();
    pins[k]
}

// Whether from this q the p of each other hang parts.
fn others_part_from(
    forest: &Forest,
    hangs: &[WireTest],
    pins: &[u32],
    reads: &Looks,
    wire: Wire,
    q: u32,
) -> bool
    requires over { All (λ h. IsFoot forest.now (over_of h)) hangs.now }
    requires pins { pins.now ≡ map (pin_at forest.now) (overs hangs.now) }
    requires reads { reads.now.pins ≡ pins_of forest.now.shape }
    requires q { q < reads.now.pins }
    ensures { result ≡ others_part_from forest.now hangs.now reads.now.rows wire.0 q }
{
    'hangs: for k in 0..hangs.len() {
        let other = hangs[k];
        if other.wire.0 == wire.0 {
            continue;
        }
        if !reads.parts(listed_p(pins, forest, hangs, k, other), q) {
            return false;
        }
    }
    true
}

// Whether the first crosspoint of a hang is shown.
pub(crate) fn is_shown(
    forest: &Forest,
    hangs: &[WireTest],
    pins: &[u32],
    reads: &Looks,
    without: &Looks,
    hang: WireTest,
) -> bool
    requires over { All (λ h. IsFoot forest.now (over_of h)) hangs.now }
    requires pins { pins.now ≡ map (pin_at forest.now) (overs hangs.now) }
    requires foot { IsFoot forest.now (over_of hang) }
    requires other { IsFoot forest.now (over_of (turned hang)) }
    requires reads { reads.now.pins ≡ pins_of forest.now.shape }
    requires without { without.now.pins ≡ pins_of forest.now.shape }
    ensures { result ≡ is_shown forest.now hangs.now reads.now.rows without.now.rows hang }
{
    let p = pin_at(forest, (hang.wire, hang.over));
    let q = pin_at(forest, (hang.wire, hang.other));
    if reads.read_under(p, q) == without.read_under(p, q) {
        return false;
    }
    others_part_from(forest, hangs, pins, reads, hang.wire, q)
}

// The feet over first crosspoints that are shown.
fn shown(
    alloc: Global,
    forest: &Forest,
    hangs: &[WireTest],
    pins: &[u32],
    reads: &Looks,
    without: &Looks,
) -> Result<Vec<(Wire, Cross)>, AllocError>
    requires over { All (λ h. IsFoot forest.now (over_of h)) hangs.now }
    requires pins { pins.now ≡ map (pin_at forest.now) (overs hangs.now) }
    requires other { All (λ h. IsFoot forest.now (over_of (turned h))) hangs.now }
    requires reads { reads.now.pins ≡ pins_of forest.now.shape }
    requires without { without.now.pins ≡ pins_of forest.now.shape }
    ensures { IfOk result (λ feet. feet.items ≡ shown forest.now hangs.now reads.now.rows without.now.rows) }
{
    let mut feet = Vec::new(alloc);
    'hangs: for k in 0..hangs.len() {
        let hang = hangs[k];
        if !is_shown(forest, hangs, pins, reads, without, hang) {
            continue;
        }
        feet.push((hang.wire, hang.over))?;
    }
    Ok(feet)
}

impl Facts {
    // Takes the three looks, or the first alone: false where in that no q answers its p.
    fn view(
        &mut self,
        rig: &mut Box<dyn Rig>,
        forest: &Forest,
        hangs: &[WireTest],
        plan: &Plan,
        views: &mut Views,
    ) -> Result<bool, RigFail>
        requires attached { shape_of (rig_state rig.old) ≡ Some self.old.shape }
        requires forest { forest.now.shape ≡ self.old.shape }
        requires over { All (λ h. IsFoot forest.now (over_of h)) hangs.now }
        requires other { All (λ h. IsFoot forest.now (over_of (turned h))) hangs.now }
        requires plan { IsPlan hangs.now (pins_of self.old.shape) plan.now }
        requires views { AreViews (pins_of self.old.shape) views.old }
        ensures same { self.new ≡ self.old }
        ensures views { AreViews (pins_of self.old.shape) views.new }
        ensures logged { IfOk result (LogsViews forest.now hangs.now (rig_state rig.old) (rig_state rig.new) views.new) }
        ensures viewed_each { IfOk result (λ yes. ForEach (rig_state rig.new) (λ told. HasViewed told forest.now hangs.now views.new yes)) }
        ensures loads { LoadsUpTo 3 result (rig_state rig.old) (rig_state rig.new) }
        ensures few { FewCycles (rig_state rig.old) (rig_state rig.new) }
        ensures made { cycles_made (rig_state rig.new) ≤ cycles_made (rig_state rig.old) + 3 * (pins_of self.old.shape + 1) }
        ensures once { IfOk result (λ yes. yes ≡ false → (rig_state rig.new).loads ≤ (rig_state rig.old).loads + 1) }
        ensures session { OnOk result (HasLooked self.old.shape (rig_state rig.new)) }
        ensures wanting { IsErrOf result RigFail.Memory → WantsRoom self.old.shape (rig_state rig.old) (rig_state rig.new) }
    {
        self.look(rig, forest, &plan.all, &plan.drives, &mut views.all)?;
        if !some_answers(forest, hangs, &views.all) {
            return Ok(false);
        }
        self.look(
            rig,
            forest,
            &plan.others,
            &plan.drives,
            &mut views.without_over,
        )?;
        self.look(
            rig,
            forest,
            &plan.overs,
            &plan.drives,
            &mut views.without_other,
        )?;
        Ok(true)
    }

    // Marks and keeps what the three looks show.
    fn learn_hung(
        &mut self,
        forest: &Forest,
        hangs: &[WireTest],
        plan: &Plan,
        views: &Views,
        unfit: &mut BitSet,
        unclear: &mut BitSet,
    ) -> Result<(), AllocError>
        requires forest { forest.now.shape ≡ self.old.shape }
        requires over { All (λ h. IsFoot forest.now (over_of h)) hangs.now }
        requires other { All (λ h. IsFoot forest.now (over_of (turned h))) hangs.now }
        requires plan { IsPlan hangs.now (pins_of self.old.shape) plan.now }
        requires views { AreViews (pins_of self.old.shape) views.now }
        requires unfit { length unfit.old ≡ wires_of self.old.shape }
        requires unclear { length unclear.old ≡ wires_of self.old.shape }
        ensures learnt { OnOk result (HasLearnt forest.now hangs.now views.now self.old self.new
            unfit.old unfit.new unclear.old unclear.new) }
        ensures refused { OnErr result (self.new ≡ self.old) }
        ensures unmarked { OnErr result (unfit.new ≡ unfit.old) }
        ensures unmarked_too { OnErr result (unclear.new ≡ unclear.old) }
        ensures marks { length unfit.new ≡ length unfit.old }
        ensures marks_too { length unclear.new ≡ length unclear.old }
    {
        let pins = pins_of_hangs(self.alloc, forest, hangs, plan)?;
        let others = shown(
            self.alloc,
            forest,
            &plan.turned,
            &pins.other,
            &views.all,
            &views.without_other,
        )?;
        let overs = shown(
            self.alloc,
            forest,
            hangs,
            &pins.over,
            &views.all,
            &views.without_over,
        )?;
        mark_unfit(
            forest,
            &plan.others,
            &pins.other,
            &views.without_over,
            unfit,
            unclear,
        );
        mark_unfit(
            forest,
            &plan.overs,
            &pins.over,
            &views.without_other,
            unfit,
            unclear,
        );
        self.keep_feet(forest, &others, &views.without_over);
        self.keep_feet(forest, &overs, &views.without_other);
        self.keep_joined(forest, hangs, &plan.turned, &pins, views);
        Ok(())
    }

    /// Takes three looks while wires hang on a forest over two crosspoints each, in the first by both, in the others by one of
    /// them. Of a hang let p be the pin at which its crosspoint `over` ends, and q that of `other`.
    ///
    /// Where in the first look no q reads 1 with nothing driven and 0 with its p driven, the others aren't made, and nothing is kept
    /// or marked. Otherwise `over` is kept exactly where q reads otherwise without it while p alone is driven, and in the first look
    /// the p of each other hang parts from this q; and `other` the other way round. Where `other` is kept, the wire is kept exactly
    /// where q swings in the look without the crosspoints `over`; and so with `over`. Where all wires of the set hang, the wire joins the
    /// set exactly where both are kept, q swings in the look without the crosspoints `over` and parts there from each other pin on which
    /// a wire hangs, and p parts from each such one in the look without `other`. Where one of the set hangs nowhere, none joins.
    /// A wire is marked unfit exactly where in one of these two looks the pins of the other hangs part from its own, which reads
    /// otherwise than 0 where it is driven, or otherwise than 1 where nothing is or another pin that hangs; and unclear besides where
    /// that pin reads the same driven as with nothing driven. `unfit` and `unclear` have a mark for each wire.
    ///
    /// # Errors
    ///
    /// `Failed` where a call of the rig failed, `Memory` where memory was lacking.
    pub fn test_wires(
        &mut self,
        rig: &mut Box<dyn Rig>,
        forest: &Forest,
        hangs: &[WireTest],
        unfit: &mut BitSet,
        unclear: &mut BitSet,
    ) -> Result<(), RigFail>
        requires attached { shape_of (rig_state rig.old) ≡ Some self.old.shape }
        requires forest { KnowsForest self.old forest.now }
        requires hangs { AreHangs forest.now hangs.now }
        requires unfit { length unfit.old ≡ wires_of self.old.shape }
        requires unclear { length unclear.old ≡ wires_of self.old.shape }

        ensures tried_each { OnOk result (ForEach (rig_state rig.new) (λ told. HasTried told forest.now hangs.now (rig_state
            rig.old).loads (rig_state rig.new).loads self.old self.new unfit.old unfit.new unclear.old unclear.new)) }
        ensures logged { OnOk result (ShowsTried forest.now hangs.now (rig_state rig.old) (rig_state rig.new) self.old self.new
            unfit.old unfit.new unclear.old unclear.new) }
        ensures newly_each { OnOk result (ForEach (rig_state rig.new) (λ told. MarksUnfit told self.old forest.now unfit.old unfit.new)) }
        ensures newly_too_each { OnOk result (ForEach (rig_state rig.new) (λ told. MarksUnclear told self.old unclear.old unclear.new)) }
        ensures unfit_each { ForEach (rig_state rig.new) (λ told. (known : ℕ → Bool) → AreAllOf forest.now known → UnfitIf told self.old
            known unfit.old → UnfitIf told self.new known unfit.new) }
        ensures unclear_each { ForEach (rig_state rig.new) (λ told. UnclearIf told self.old unclear.old → UnclearIf told self.new
            unclear.new) }
        ensures stay { StayMarked unfit.old unfit.new }
        ensures stay_too { StayMarked unclear.old unclear.new }
        ensures marks { length unfit.new ≡ length unfit.old }
        ensures marks_too { length unclear.new ≡ length unclear.old }
        ensures refused { OnErr result (self.new ≡ self.old) }
        ensures unmarked { OnErr result (unfit.new ≡ unfit.old) }
        ensures unmarked_too { OnErr result (unclear.new ≡ unclear.old) }
        ensures advances { Advances (rig_state rig.old) (rig_state rig.new) self.old self.new }
        ensures loads { (rig_state rig.new).loads ≤ (rig_state rig.old).loads + 3 }
        ensures cycles { cycles_made (rig_state rig.new) ≤ cycles_made (rig_state rig.old) + 3 * (pins_of self.old.shape + 1) }
        ensures session { OnOk result (HasLooked self.old.shape (rig_state rig.new)) }
        ensures cause { IsErrOf result RigFail.Failed → Rose (rig_state rig.old).failures (rig_state rig.new).failures }
        ensures wanting { IsErrOf result RigFail.Memory → WantsRoom self.old.shape (rig_state rig.old) (rig_state rig.new) }
    {
        let shape = forest.shape();
        let plan = make_plan(self.alloc, hangs, shape.pins())?;
        let mut views = make_views(self.alloc, &shape)?;
        if !self.view(rig, forest, hangs, &plan, &mut views)? {
            return Ok(());
        }
        Ok(self.learn_hung(forest, hangs, &plan, &views, unfit, unclear)?)
    }
}
