//! Which of shorted wires stays known: choices, and the sweeps behind them.
ghost use Rattle.std.specs.Prelude.{◌≡◌, ◌≤◌, ◌+◌, ◌*◌, ℕ, true, false, Option, Some, IfOk, OnOk, IsErrOf, length};
ghost use Rattle.base_io.specs.Counts.{Rose};
ghost use Rattle.base_bits.specs.Numbers.{has_number, size_of};
ghost use Rattle.machine_meaning.specs.Faults.{Faults};
ghost use Rattle.machine_shape.specs.Shape.{crosses_of, wires_of};
ghost use Rattle.rig.specs.Rig.{shape_of};
ghost use Rattle.diag_evidence.specs.Kept.{HoldsFor, IsButPairs};
ghost use Rattle.diag_known.specs.Vocabulary.{GrowsIn, IsFieldOf, HasWire, InSet};
ghost use Rattle.diag_sweep.specs.Marks.{AreMarksFor, MarksButUnfit, MarksIn, worth};
ghost use Rattle.diag_sweep.specs.Shown.{IsCoherent, Progress, ProgressButPairs, TrueOf};
ghost use Rattle.diag_sweep.specs.Stages.{IsFunded, hand_of};

use crate::budget::{LoadBudget, loads_of};
use crate::held::forget;
use crate::informing::new_search;
use crate::knowledge::Knowledge;
use crate::losing::give_up;
use crate::sweep_state::{TableSweep, bare_state};
use crate::tabling::sweep_again;
use crate::telling::tell_all;
use base_bits::BitSet;
use diag_evidence::Facts;
use diag_known::{Field, Known, standing};
use diag_search::{Aim, Chooser, Search};
use machine_shape::Table;
use rig::{Rig, RigFail};
use std::alloc::{AllocError, Global};

/// How many loads are put in for a wire.
const LOADS_FOR_WIRE: u64 = 14;

/// What choices between shorted wires and the sweeps behind them have at hand, from one to the next.
#[derive(Drop)]
pub struct Choices {
    /// How many loads are left to them.
    pub left: u64,
    /// The wires for which loads were put in.
    pub paid: BitSet,
    table_sweep: TableSweep,
}

impl Choices {
    /// Before the first choice, with no loads. The tables are those that may be tested. Wants memory, some 60 bytes for each wire: what
    /// else a choice needs it takes as it begins.
    pub fn new(alloc: Global, facts: &Facts, tables: &[Table]) -> Result<Choices, AllocError>
        ensures left { IfOk result (λ choices. choices.left ≡ 0) }
        ensures len { IfOk result (λ choices. length choices.paid ≡ wires_of facts.now.shape) }
        ensures none { IfOk result (λ choices. size_of choices.paid ≡ 0) }
        ensures tables { IfOk result (λ choices. choices.table_sweep.tables.items ≡ tables.now) }
    {
        let shape = facts.shape();
        let paid = BitSet::new(alloc, shape.wires())?;
        let tables = Vec::from_slice(alloc, tables)?;
        let budget = LoadBudget::empty(alloc)?;
        let state = bare_state(alloc, &shape, budget, Aim::Partners)?;
        Ok(Choices {
            left: 0,
            paid,
            table_sweep: TableSweep { state, tables },
        })
    }

    // Puts loads in for a wire, if none were put in yet.
    fn pay(&mut self, w: u32)
        ensures len { length self.new.paid ≡ length self.old.paid }
        ensures pays { self.new.left + 14 * size_of self.old.paid ≤ self.old.left + 14 * size_of self.new.paid }
    {
        if w >= self.paid.len() {
            return;
        }
        if self.paid.has(w) {
            return;
        }
        self.paid.insert(w);
        self.left = self.left.saturating_add(LOADS_FOR_WIRE);
    }

    /// Puts in 14 loads for each of some wires for which none were put in yet.
    pub fn pay_for(&mut self, wires: &BitSet)
        ensures len { length self.new.paid ≡ length self.old.paid }
        ensures pays { self.new.left + 14 * size_of self.old.paid ≤ self.old.left + 14 * size_of self.new.paid }
        ensures none { ((w : ℕ) → has_number wires.now w ≡ false) → self.new ≡ self.old }
    {
        'wires: for w in 0..wires.len() {
            if !wires.has(w) {
                continue;
            }
            self.pay(w);
        }
    }

    // Takes what is left into the purse, and begins the search anew.
    fn open_purse(
        &mut self,
        rig: &Box<dyn Rig>,
        knowledge: &Knowledge,
        field: &Field,
    ) -> Result<(), AllocError>
        requires field { IsFieldOf knowledge.now.facts.shape field.now }
        requires marks { AreMarksFor knowledge.now.facts.shape knowledge.now.marks }
        ensures left { self.new.left ≡ 0 }
        ensures paid { self.new.paid ≡ self.old.paid }
        ensures tables { self.new.table_sweep.tables ≡ self.old.table_sweep.tables }
        ensures len { OnOk result (length self.new.table_sweep.state.budget.unsettled ≡ crosses_of knowledge.now.facts.shape) }
        ensures funded { OnOk result (IsFunded
            (worth field.now knowledge.now.facts knowledge.now.marks (rig_state rig.now).loads self.old.left) field.now
            (hand_of knowledge.now self.new.table_sweep.state.budget (rig_state rig.now).loads)) }
    {
        let alloc = knowledge.verified.alloc();
        let left = self.left;
        self.left = 0;
        self.table_sweep.state.budget = LoadBudget::of(
            alloc,
            rig,
            &knowledge.facts,
            &knowledge.marks,
            field,
            left,
        )?;
        self.table_sweep.state.search = new_search(alloc, knowledge, field)?;
        forget(&mut self.table_sweep.state.held);
        Ok(())
    }

    // Keeps what is left in the purse, and lets go of the search, which takes more memory than all that is known.
    fn close_purse(&mut self, rig: &Box<dyn Rig>, known: &Known)
        ensures left { (rig_state rig.now).loads ≤ self.old.table_sweep.state.budget.most →
            (rig_state rig.now).loads + self.new.left ≤ self.old.table_sweep.state.budget.most }
        ensures paid { self.new.paid ≡ self.old.paid }
        ensures tables { self.new.table_sweep.tables ≡ self.old.table_sweep.tables }
    {
        self.left = self
            .table_sweep
            .state
            .budget
            .most
            .saturating_sub(loads_of(rig));
        self.table_sweep.state.search = Search::bare(known.alloc(), &known.shape());
    }
}

// The known wires of a set.
fn known_among(known: &Known, wires: &BitSet) -> Result<BitSet, AllocError>
    ensures len { IfOk result (λ set. length set ≡ wires_of known.now.shape) }
    ensures known { IfOk result (λ set. (w : ℕ) → InSet set w → HasWire known.now.steps w) }
{
    let mut set = BitSet::new(known.alloc(), known.shape().wires())?;
    'places: for place in 0..known.len() {
        let wire = known.wire_at(place);
        if wire.0 >= wires.len() {
            continue;
        }
        if !wires.has(wire.0) {
            continue;
        }
        set.insert(wire.0);
    }
    Ok(set)
}

// Of the known wires some give way, and leave the set, if that was chosen. Which wires are unfit isn't known then.
fn give_way(knowledge: &mut Knowledge, chooser: &mut Chooser) -> Result<bool, AllocError>
    requires coherent { IsCoherent knowledge.old }
    ensures coherent { IsCoherent knowledge.new }
    ensures fewer { (w : ℕ) → HasWire knowledge.new.verified.steps w → HasWire knowledge.old.verified.steps w }
    ensures same { IfOk result (λ chosen. chosen ≡ false → knowledge.new.verified ≡ knowledge.old.verified) }
    ensures stuck { knowledge.new.marks.stuck ≡ knowledge.old.marks.stuck }
    ensures unclear { knowledge.new.marks.unclear ≡ knowledge.old.marks.unclear }
    ensures wrong { knowledge.new.marks.wrong ≡ knowledge.old.marks.wrong }
    ensures unfit { (w : ℕ) → has_number knowledge.new.marks.unfit w ≡ true → has_number knowledge.old.marks.unfit w ≡ true }
    ensures dropped { IfOk result (λ chosen. chosen ≡ true → (w : ℕ) → has_number knowledge.new.marks.unfit w ≡ false) }
    ensures but { IsButPairs knowledge.old.facts knowledge.new.facts }
    ensures explained { (f : Faults) → HoldsFor knowledge.old.facts f → HoldsFor knowledge.new.facts f }
    ensures right { (told : Option Faults) → TrueOf told knowledge.old → TrueOf told knowledge.new }
{
    let Some(chosen) = give_up(chooser, &knowledge.facts, &knowledge.marks)? else {
        return Ok(false);
    };
    let stay = known_among(&knowledge.verified, &chosen)?;
    let alloc = knowledge.verified.alloc();
    knowledge.verified = standing(alloc, &knowledge.facts, stay)?;
    knowledge.facts.retake(knowledge.verified.wires());
    // An unfit wire may have been shorted to one that gives way.
    knowledge.marks.unfit.clear();
    Ok(true)
}

/// Looks to which known wires unfit ones are shorted, as far as what is left pays for it, and gives those up that stand in the way of more.
/// Says whether some were. What is known is then known of fewer wires, all marks of unfit ones are dropped, and so are the pairs of those
/// that were given up. Nothing is promised of what it chooses.
///
/// # Errors
///
/// `Failed` where a call of the rig failed, `Memory` where memory was lacking. What is known, kept and marked is as right as after an `Ok`.
pub fn choose(
    rig: &mut Box<dyn Rig>,
    knowledge: &mut Knowledge,
    field: &Field,
    choices: &mut Choices,
) -> Result<bool, RigFail>
    requires attached { shape_of (rig_state rig.old) ≡ Some knowledge.old.facts.shape }
    requires coherent { IsCoherent knowledge.old }
    requires field { IsFieldOf knowledge.old.facts.shape field.now }

    ensures fewer { (w : ℕ) → HasWire knowledge.new.verified.steps w → HasWire knowledge.old.verified.steps w }
    ensures same { IfOk result (λ chosen. chosen ≡ false → knowledge.new.verified ≡ knowledge.old.verified) }
    ensures marked { MarksButUnfit field.now knowledge.old.marks knowledge.new.marks }
    ensures dropped { IfOk result (λ chosen. chosen ≡ true → (w : ℕ) → has_number knowledge.new.marks.unfit w ≡ false) }
    ensures pays { worth field.now knowledge.new.facts knowledge.new.marks (rig_state rig.new).loads choices.new.left
        ≤ worth field.now knowledge.old.facts knowledge.old.marks (rig_state rig.old).loads choices.old.left }
    ensures paid { choices.new.paid ≡ choices.old.paid }
    ensures tables { choices.new.table_sweep.tables ≡ choices.old.table_sweep.tables }
    ensures progress { ProgressButPairs (rig_state rig.old) (rig_state rig.new) knowledge.old knowledge.new }
    ensures cause { IsErrOf result RigFail.Failed → Rose (rig_state rig.old).failures (rig_state rig.new).failures }
{
    if choices.left == 0 {
        return Ok(false);
    }
    let Ok(()) = choices.open_purse(rig, knowledge, field) else {
        return Err(RigFail::Memory);
    };
    choices.table_sweep.state.aim = Aim::Partners;
    tell_all(
        rig,
        &mut knowledge.facts,
        &knowledge.verified,
        &mut knowledge.marks,
        field,
        &mut choices.table_sweep.state,
    )?;
    choices.close_purse(rig, &knowledge.verified);
    match give_way(knowledge, &mut choices.table_sweep.state.chooser) {
        Ok(chosen) => Ok(chosen),
        Err(_) => Err(RigFail::Memory),
    }
}

/// Sweeps anew behind a choice, as `sweep` does, as far as what is left to choices pays for it, with two loads more for each crosspoint of
/// the field that comes to be kept or marked stuck by it. Those wires are tested first for which others gave way.
///
/// # Errors
///
/// `Failed` where a call of the rig failed, `Memory` where memory was lacking. What is known, kept and marked is as right as after an `Ok`.
pub fn sweep_with(
    rig: &mut Box<dyn Rig>,
    knowledge: &mut Knowledge,
    field: &Field,
    choices: &mut Choices,
) -> Result<(), RigFail>
    requires attached { shape_of (rig_state rig.old) ≡ Some knowledge.old.facts.shape }
    requires coherent { IsCoherent knowledge.old }
    requires field { IsFieldOf knowledge.old.facts.shape field.now }

    ensures grows { GrowsIn field.now knowledge.old.verified.steps knowledge.new.verified.steps }
    ensures marks { MarksIn field.now choices.old.table_sweep.tables.items knowledge.old.marks knowledge.new.marks }
    ensures pays { worth field.now knowledge.new.facts knowledge.new.marks (rig_state rig.new).loads choices.new.left
        ≤ worth field.now knowledge.old.facts knowledge.old.marks (rig_state rig.old).loads choices.old.left }
    ensures paid { choices.new.paid ≡ choices.old.paid }
    ensures tables { choices.new.table_sweep.tables ≡ choices.old.table_sweep.tables }
    ensures progress { Progress (rig_state rig.old) (rig_state rig.new) knowledge.old knowledge.new }
    ensures cause { IsErrOf result RigFail.Failed → Rose (rig_state rig.old).failures (rig_state rig.new).failures }
{
    let Ok(()) = choices.open_purse(rig, knowledge, field) else {
        return Err(RigFail::Memory);
    };
    sweep_again(rig, knowledge, field, &mut choices.table_sweep)?;
    choices.close_purse(rig, &knowledge.verified);
    Ok(())
}
