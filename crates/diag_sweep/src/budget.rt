//! What a sweep may spend: a load for each pin of the machine in its field, and two for each crosspoint of the field that it decides.
ghost use Rattle.std.specs.Prelude.{◌≡◌, ◌≢◌, ◌<◌, ◌≤◌, ◌+◌, ◌*◌, ◌&&◌, ℕ, false, IfOk, IsTrue, length};
ghost use Rattle.base_bits.specs.Numbers.{has_number, size_of};
ghost use Rattle.machine_shape.specs.Shape.{crosses_of};
ghost use Rattle.diag_known.specs.Vocabulary.{KnownWires, IsFieldOf, pins_in};
ghost use Rattle.diag_sweep.specs.Marks.{AreMarksFor, is_undecided, undecided, worth};
ghost use Rattle.diag_sweep.specs.Stages.{IsFunded, Settles, in_hand};

use crate::defect_marks::DefectMarks;
use base_bits::BitSet;
use diag_evidence::Facts;
use diag_known::Field;
use machine_shape::{Cross, Pin, Shape, the_numbering_is_sound};
use rig::Rig;
use std::alloc::{AllocError, Global};

/// How many loads for each pin of the machine are few.
const FEW_LOADS: u64 = 2;

/// Up to which number of loads the rig may come, and the crosspoints of the field that count as undecided still.
#[derive(Drop)]
pub(crate) struct LoadBudget {
    pub most: u64,
    pub unsettled: BitSet,
}

// Whether a crosspoint is of a field and undecided.
fn is_open(facts: &Facts, bad: &DefectMarks, field: &Field, c: Cross) -> bool
    requires field { IsFieldOf facts.now.shape field.now }
    requires marks { AreMarksFor facts.now.shape bad.now }
    requires cross { c.0 < crosses_of facts.now.shape }
    ensures { result ≡ (has_number field.now.crosses c.0 && is_undecided facts.now bad.now c.0) }
{
    field.crosses.has(c.0) && !facts.keeps_cross(c) && !bad.stuck.has(c.0)
}

// Adds a crosspoint to a set, if it is of a field and undecided.
fn add_open(set: &mut BitSet, facts: &Facts, bad: &DefectMarks, field: &Field, c: Cross)
    requires field { IsFieldOf facts.now.shape field.now }
    requires marks { AreMarksFor facts.now.shape bad.now }
    requires cross { c.0 < crosses_of facts.now.shape }
    requires set { length set.old ≡ crosses_of facts.now.shape }
    requires new { has_number set.old c.0 ≡ false }
    ensures len { length set.new ≡ length set.old }
    ensures this { has_number set.new c.0 ≡ (has_number field.now.crosses c.0 && is_undecided facts.now bad.now c.0) }
    ensures others { (y : ℕ) → y ≢ c.0 → has_number set.new y ≡ has_number set.old y }
{
    if !is_open(facts, bad, field, c) {
        return;
    }
    set.insert(c.0);
}

// Which crosspoints of a field are undecided.
fn undecided_in(
    alloc: Global,
    facts: &Facts,
    bad: &DefectMarks,
    field: &Field,
) -> Result<BitSet, AllocError>
    requires field { IsFieldOf facts.now.shape field.now }
    requires marks { AreMarksFor facts.now.shape bad.now }
    ensures len { IfOk result (λ set. length set ≡ crosses_of facts.now.shape) }
    ensures has { IfOk result (λ set. (x : ℕ) →
        has_number set x ≡ (has_number field.now.crosses x && is_undecided facts.now bad.now x)) }
{
    let crosses = facts.shape().crosses();
    let mut set = BitSet::new(alloc, crosses)?;
    'crosses: for x in 0..crosses {
        add_open(&mut set, facts, bad, field, Cross(x));
    }
    Ok(set)
}

// How many pins of the machine are in a field.
fn pins_of_field(shape: &Shape, field: &Field) -> u32
    requires { IsFieldOf shape.now field.now }
    ensures { result ≡ pins_in shape.now field.now }
{
    the_numbering_is_sound();
    let mut count = 0;
    'pins: for i in 0..shape.pins() {
        if field.wires.has(shape.pin(Pin(i)).0) {
            count += 1;
        }
    }
    count
}

/// How many loads there were.
pub(crate) fn loads_of(rig: &Box<dyn Rig>) -> u64
    ensures { result ≡ (rig_state rig.now).loads }
{
    rig.loads()
}

// So many loads more, as far as they can be counted.
fn sum_of(loads: u64, more: u32) -> u64
    ensures low { loads ≤ result }
    ensures high { result ≤ loads + more }
{
    loads.saturating_add(u64::from(more))
}

// So many loads more, as far as they can be counted.
fn sum_of_both(loads: u64, more: u64) -> u64
    ensures low { loads ≤ result }
    ensures high { result ≤ loads + more }
{
    loads.saturating_add(more)
}

impl LoadBudget {
    /// Holds nothing.
    pub(crate) fn empty(alloc: Global) -> Result<LoadBudget, AllocError> {
        Ok(LoadBudget {
            most: 0,
            unsettled: BitSet::new(alloc, 0)?,
        })
    }

    /// Holds so many loads.
    pub(crate) fn of(
        alloc: Global,
        rig: &Box<dyn Rig>,
        facts: &Facts,
        bad: &DefectMarks,
        field: &Field,
        left: u64,
    ) -> Result<LoadBudget, AllocError>
        requires field { IsFieldOf facts.now.shape field.now }
        requires marks { AreMarksFor facts.now.shape bad.now }
        ensures len { IfOk result (λ budget. length budget.unsettled ≡ crosses_of facts.now.shape) }
        ensures funded { IfOk result (λ budget. (known : KnownWires) → IsFunded
            (worth field.now facts.now bad.now (rig_state rig.now).loads left) field.now
            (in_hand facts.now known bad.now budget (rig_state rig.now).loads)) }
    {
        Ok(LoadBudget {
            most: sum_of_both(loads_of(rig), left),
            unsettled: undecided_in(alloc, facts, bad, field)?,
        })
    }

    /// Holds a load for each pin of the machine in the field.
    pub(crate) fn new(
        alloc: Global,
        rig: &Box<dyn Rig>,
        facts: &Facts,
        bad: &DefectMarks,
        field: &Field,
    ) -> Result<LoadBudget, AllocError>
        requires field { IsFieldOf facts.now.shape field.now }
        requires marks { AreMarksFor facts.now.shape bad.now }
        ensures len { IfOk result (λ budget. length budget.unsettled ≡ crosses_of facts.now.shape) }
        ensures funded { IfOk result (λ budget. (known : KnownWires) → IsFunded
            ((rig_state rig.now).loads + (pins_in facts.now.shape field.now + 2 * undecided facts.now bad.now field.now)) field.now
            (in_hand facts.now known bad.now budget (rig_state rig.now).loads)) }
    {
        let pins = pins_of_field(&facts.shape(), field);
        Ok(LoadBudget {
            most: sum_of(loads_of(rig), pins),
            unsettled: undecided_in(alloc, facts, bad, field)?,
        })
    }

    /// Whether so many loads can be paid.
    pub(crate) fn can_pay(&self, rig: &Box<dyn Rig>, loads: u64) -> bool
        ensures { IsTrue result → (rig_state rig.now).loads + loads ≤ self.now.most }
    {
        if loads > self.most {
            return false;
        }
        rig.loads() <= self.most - loads
    }

    /// Whether few loads are left, which should bring more than they take: fewer than these, or than some for each pin of the machine.
    pub(crate) fn is_low(&self, rig: &Box<dyn Rig>, facts: &Facts, least: u64) -> bool {
        let few = u64::from(facts.shape().pins()).saturating_mul(FEW_LOADS);
        !self.can_pay(rig, few.max(least))
    }

    /// Takes two loads in for a crosspoint that was undecided and isn't any more.
    pub(crate) fn settle(&mut self, facts: &Facts, bad: &DefectMarks, c: Cross)
        requires budget { length self.old.unsettled ≡ crosses_of facts.now.shape }
        requires marks { AreMarksFor facts.now.shape bad.now }
        ensures { Settles facts.now bad.now self.old self.new }
    {
        if c.0 >= self.unsettled.len() {
            return;
        }
        if !self.unsettled.has(c.0) {
            return;
        }
        if !facts.keeps_cross(c) && !bad.stuck.has(c.0) {
            return;
        }
        self.unsettled.remove(c.0);
        self.most = self.most.saturating_add(2);
    }
}
