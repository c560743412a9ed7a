//! Walks from tree to tree of a forest, tested many at a time.
ghost use Rattle.std.specs.Prelude.{◌≡◌, ◌≤◌, ◌<◌, ◌+◌, ◌||◌, ℕ, true, false, Some, None, All, length, slice_get, IfSome, OnOk};
ghost use Rattle.std.specs.Prelude.{OnErr, IsErrOf};
ghost use Rattle.base_bits.specs.Numbers.{has_number};
ghost use Rattle.base_io.specs.Counts.{Rose};
ghost use Rattle.machine_shape.specs.Shape.{pins_of, crosses_of};
ghost use Rattle.machine_config.specs.Groups.{among};
ghost use Rattle.rig.specs.Rig.{ForEach, cycles_made, shape_of};
ghost use Rattle.diag_tests.specs.Configs.{Closes};
ghost use Rattle.diag_evidence.specs.Kept.{Gains, Advances, FewCycles};
ghost use Rattle.diag_evidence.specs.Leads.{BranchFrom, ClosesAlong, IsLeadOf, KnowsLeads, HasLed, MarksStuck, ShowsLed, StuckIf};
ghost use Rattle.diag_evidence.specs.Leads.{closes_along, crosses_along, crosses_of_leads, held_up_at, is_only_unkept, led_over};
ghost use Rattle.diag_evidence.specs.Leads.{these_crosses, wires_along};
ghost use Rattle.diag_evidence.specs.Looks.{HasLooked, IsLook, LogsLook, look_drives};
ghost use Rattle.diag_evidence.specs.Readings.{LoadsUpTo, WantsBefore};

use crate::forest_config::close_forest;
use crate::looks::look_drives;
use crate::{Facts, Forest, Looks};
use base_bits::BitSet;
use diag_tests::close_all;
use machine_config::Config;
use machine_shape::{Cross, Wire};
use rig::{PinBits, Rig, RigFail};
use std::alloc::AllocError;

/// A walk from a wire that hangs on a pin to a wire that hangs on another, in a forest: its wires in order, the crosspoint between each
/// two neighbours, and these two pins.
#[derive(Drop)]
pub struct Lead {
    pub wires: Vec<Wire>,
    pub crosses: Vec<Cross>,
    pub from: u32,
    pub to: u32,
}

impl Lead {
    /// How many crosspoints it has.
    pub fn len(&self) -> usize
        ensures { result ≡ length (crosses_along self.now) }
    {
        self.crosses.len()
    }

    /// A crosspoint, in order.
    pub fn cross_at(&self, place: usize) -> Cross
        requires { place < length (crosses_along self.now) }
        ensures { slice_get (crosses_along self.now) place ≡ Some result.0 }
    {
        self.crosses[place]
    }

    /// How many wires it has.
    pub fn count_wires(&self) -> usize
        ensures { result ≡ length (wires_along self.now) }
    {
        self.wires.len()
    }

    /// A wire, in order.
    pub fn wire_at(&self, place: usize) -> Wire
        requires { place < length (wires_along self.now) }
        ensures { slice_get (wires_along self.now) place ≡ Some result.0 }
    {
        self.wires[place]
    }
}

// Closes the crosspoints of walks besides.
fn close_walks(config: &mut Config, leads: &[Lead]) -> Result<(), AllocError>
    requires { All (IsLeadOf config.old.config.shape) leads.now }
    ensures { OnOk result (Closes (crosses_of_leads leads.now) config.old.config config.new.config) }
{
    'leads: for k in 0..leads.len() {
        let lead = &leads[k];
        close_all(config, &lead.crosses)?;
    }
    Ok(())
}

// Closes the crosspoints of a forest and of walks, and no other, and switches all off.
fn close_along(config: &mut Config, forest: &Forest, leads: &[Lead]) -> Result<(), AllocError>
    requires shape { config.old.config.shape ≡ forest.now.shape }
    requires leads { All (IsLeadOf forest.now.shape) leads.now }
    ensures { OnOk result (ClosesAlong forest.now leads.now config.new.config) }
{
    close_forest(config, forest)?;
    close_walks(config, leads)
}

impl Facts {
    // The one crosspoint of a walk that isn't kept, if all others are.
    fn only_unkept(&self, lead: &Lead) -> Option<Cross>
        requires { IsLeadOf self.now.shape lead.now }
        ensures one { IfSome result (λ c. is_only_unkept self.now (crosses_along lead.now) c.0 ≡ true) }
        ensures none { result ≡ None → (x : ℕ) → is_only_unkept self.now (crosses_along lead.now) x ≡ false }
    {
        let mut found: Option<Cross> = None;
        'crosses: for k in 0..lead.len() {
            let cross = lead.cross_at(k);
            if self.keeps_cross(cross) {
                continue;
            }
            if let Some(other) = found {
                if other.0 != cross.0 {
                    return None;
                }
            }
            found = Some(cross);
        }
        found
    }

    // Marks, of each walk whose ends part, the one crosspoint that isn't kept, if all others are.
    fn mark_stuck(&self, reads: &Looks, leads: &[Lead], stuck: &mut BitSet)
        requires leads { All (IsLeadOf self.now.shape) leads.now }
        requires reads { reads.now.pins ≡ pins_of self.now.shape }
        requires stuck { length stuck.old ≡ crosses_of self.now.shape }
        ensures marks { (x : ℕ) → has_number stuck.new x ≡ (held_up_at self.now reads.now.rows leads.now x || has_number stuck.old x) }
        ensures len { length stuck.new ≡ length stuck.old }
    {
        'leads: for k in 0..leads.len() {
            let lead = &leads[k];
            if !reads.parts(lead.from, lead.to) {
                continue;
            }
            if let Some(cross) = self.only_unkept(lead) {
                stuck.insert(cross.0);
            }
        }
    }

    // Keeps the crosspoints of a walk.
    fn keep_crosses(&mut self, lead: &Lead)
        requires { IsLeadOf self.old.shape lead.now }
        ensures { Gains (these_crosses (among (crosses_along lead.now))) self.old self.new }
    {
        'crosses: for k in 0..lead.len() {
            self.keep_cross(lead.cross_at(k));
        }
    }

    // Keeps the crosspoints of each walk whose ends don't part.
    fn keep_led(&mut self, reads: &Looks, leads: &[Lead])
        requires leads { All (IsLeadOf self.old.shape) leads.now }
        requires reads { reads.now.pins ≡ pins_of self.old.shape }
        ensures { Gains (these_crosses (led_over reads.now.rows leads.now)) self.old self.new }
    {
        'leads: for k in 0..leads.len() {
            let lead = &leads[k];
            if !reads.parts(lead.from, lead.to) {
                self.keep_crosses(lead);
            }
        }
    }

    // Takes a look while just the crosspoints of a forest and of walks are closed.
    fn look_along(
        &mut self,
        rig: &mut Box<dyn Rig>,
        forest: &Forest,
        leads: &[Lead],
        drives: &Vec<PinBits>,
        reads: &mut Looks,
    ) -> Result<(), RigFail>
        requires attached { shape_of (rig_state rig.old) ≡ Some self.old.shape }
        requires forest { forest.now.shape ≡ self.old.shape }
        requires leads { All (IsLeadOf forest.now.shape) leads.now }
        requires drives { drives.now.items ≡ look_drives (pins_of self.old.shape) }
        requires reads { reads.old.pins ≡ pins_of self.old.shape }
        ensures same { self.new ≡ self.old }
        ensures pins { reads.new.pins ≡ reads.old.pins }
        ensures loads { LoadsUpTo 1 result (rig_state rig.old) (rig_state rig.new) }
        ensures few { FewCycles (rig_state rig.old) (rig_state rig.new) }
        ensures made { cycles_made (rig_state rig.new) ≤ cycles_made (rig_state rig.old) + (pins_of self.old.shape + 1) }
        ensures wanting { IsErrOf result RigFail.Memory → WantsBefore (rig_state rig.old) (rig_state rig.new) }
        ensures looked_each { OnOk result (ForEach (rig_state rig.new) (λ told. IsLook told forest.now.shape
            (closes_along forest.now leads.now) reads.new.rows)) }
        ensures logged { OnOk result (LogsLook forest.now.shape (closes_along forest.now leads.now) reads.new.rows (rig_state rig.old)
            (rig_state rig.new)) }
        ensures session { OnOk result (HasLooked self.old.shape (rig_state rig.new)) }
    {
        let mut config = self.config()?;
        close_along(&mut config, forest, leads)?;
        let looked = reads.take(rig, &config, drives);
        self.give_back(config);
        looked
    }

    /// Takes a look while just the crosspoints of a forest are closed and those of walks that branch from it: each leads from a wire that
    /// hangs to one that hangs, over wires that hang nowhere and stand in no other walk, and ends on a pin on which no end of an earlier
    /// walk hangs. All these wires are kept, each two apart. All crosspoints of a walk are kept exactly where the pins of its two ends read
    /// alike in each cycle. Where they don't and all crosspoints of the walk but one are kept, this one is marked: it is stuck. `stuck` has
    /// a mark for each crosspoint.
    ///
    /// # Errors
    ///
    /// `Failed` where a call of the rig failed, `Memory` where memory was lacking.
    pub fn test_paths(
        &mut self,
        rig: &mut Box<dyn Rig>,
        forest: &Forest,
        leads: &[Lead],
        stuck: &mut BitSet,
    ) -> Result<(), RigFail>
        requires attached { shape_of (rig_state rig.old) ≡ Some self.old.shape }
        requires knows { KnowsLeads self.old forest.now leads.now }
        requires branch { BranchFrom forest.now leads.now }
        requires stuck { length stuck.old ≡ crosses_of self.old.shape }

        ensures led_each { OnOk result (ForEach (rig_state rig.new) (λ told. HasLed told forest.now leads.now self.old self.new
            stuck.old stuck.new)) }
        ensures logged { OnOk result (ShowsLed forest.now leads.now (rig_state rig.old) (rig_state rig.new) self.old self.new
            stuck.old stuck.new) }
        ensures newly_each { OnOk result (ForEach (rig_state rig.new) (λ told. MarksStuck told self.old stuck.old stuck.new)) }
        ensures stuck_each { ForEach (rig_state rig.new) (λ told. StuckIf told self.old stuck.old → StuckIf told self.new stuck.new) }
        ensures marks { length stuck.new ≡ length stuck.old }
        ensures refused { OnErr result (self.new ≡ self.old) }
        ensures unmarked { OnErr result (stuck.new ≡ stuck.old) }
        ensures advances { Advances (rig_state rig.old) (rig_state rig.new) self.old self.new }
        ensures loads { (rig_state rig.new).loads ≤ (rig_state rig.old).loads + 1 }
        ensures cycles { cycles_made (rig_state rig.new) ≤ cycles_made (rig_state rig.old) + (pins_of self.old.shape + 1) }
        ensures session { OnOk result (HasLooked self.old.shape (rig_state rig.new)) }
        ensures cause { IsErrOf result RigFail.Failed → Rose (rig_state rig.old).failures (rig_state rig.new).failures }
        ensures wanting { IsErrOf result RigFail.Memory → WantsBefore (rig_state rig.old) (rig_state rig.new) }
    {
        let shape = forest.shape();
        let drives = look_drives(self.alloc, shape.pins())?;
        let mut reads = Looks::new(self.alloc, &shape)?;
        self.look_along(rig, forest, leads, &drives, &mut reads)?;
        self.mark_stuck(&reads, leads, stuck);
        self.keep_led(&reads, leads);
        Ok(())
    }
}
