//! Wires that hang on one tree each over a crosspoint that isn't known, looked at many at a time.
ghost use Rattle.std.specs.Prelude.{◌≡◌, ◌≤◌, ◌<◌, ◌+◌, ℕ, Bool, true, Some, length, OnOk, OnErr, IsErrOf};
ghost use Rattle.base_io.specs.Counts.{Rose};
ghost use Rattle.machine_shape.specs.Shape.{wires_of, pins_of};
ghost use Rattle.rig.specs.Rig.{ForEach, cycles_made, shape_of};
ghost use Rattle.diag_evidence.specs.Kept.{Advances};
ghost use Rattle.diag_evidence.specs.Forests.{KnowsForest};
ghost use Rattle.diag_evidence.specs.Hangs.{AreFeet, AreAllOf, HasMarked, HasTold, MarksUnfit, MarksUnclear, UnfitIf, UnclearIf, StayMarked, closes};
ghost use Rattle.diag_evidence.specs.Looks.{HasLooked, LogsLook};
ghost use Rattle.diag_evidence.specs.Readings.{WantsBefore};

use crate::feet::{mark_unfit, pins_at};
use crate::looks::look_drives;
use crate::{Facts, Forest, Looks};
use base_bits::BitSet;
use machine_shape::{Cross, Wire};
use rig::{Rig, RigFail};

impl Facts {
    /// Takes a look while wires hang on a forest over one crosspoint each. A wire is marked unfit exactly where from the pin at which
    /// its crosspoint ends those of the others part, and this pin reads otherwise than 0 where it is driven, or otherwise than 1 where
    /// nothing is or another pin that hangs; and unclear besides where it reads the same driven as with nothing driven. Nothing is
    /// kept. `reads` has what all pins read. `unfit` and `unclear` have a mark for each wire.
    ///
    /// # Errors
    ///
    /// `Failed` where a call of the rig failed, `Memory` where memory was lacking.
    pub fn screen_wires(
        &mut self,
        rig: &mut Box<dyn Rig>,
        forest: &Forest,
        hangs: &[(Wire, Cross)],
        unfit: &mut BitSet,
        unclear: &mut BitSet,
        reads: &mut Looks,
    ) -> Result<(), RigFail>
        requires attached { shape_of (rig_state rig.old) ≡ Some self.old.shape }
        requires forest { KnowsForest self.old forest.now }
        requires hangs { AreFeet forest.now hangs.now }
        requires unfit { length unfit.old ≡ wires_of self.old.shape }
        requires unclear { length unclear.old ≡ wires_of self.old.shape }
        requires reads { reads.old.pins ≡ pins_of self.old.shape }

        ensures told_each { OnOk result (ForEach (rig_state rig.new) (λ told. HasTold told forest.now hangs.now reads.new.rows unfit.old
            unfit.new unclear.old unclear.new)) }
        ensures marked { OnOk result (HasMarked forest.now hangs.now reads.new.rows unfit.old unfit.new unclear.old unclear.new) }
        ensures logged { OnOk result (LogsLook forest.now.shape (closes forest.now hangs.now) reads.new.rows (rig_state rig.old)
            (rig_state rig.new)) }
        ensures newly_each { OnOk result (ForEach (rig_state rig.new) (λ told. MarksUnfit told self.old forest.now unfit.old unfit.new)) }
        ensures newly_too_each { OnOk result (ForEach (rig_state rig.new) (λ told. MarksUnclear told self.old unclear.old unclear.new)) }
        ensures unfit_each { ForEach (rig_state rig.new) (λ told. (known : ℕ → Bool) → AreAllOf forest.now known → UnfitIf told self.old
            known unfit.old → UnfitIf told self.new known unfit.new) }
        ensures unclear_each { ForEach (rig_state rig.new) (λ told. UnclearIf told self.old unclear.old → UnclearIf told self.new
            unclear.new) }
        ensures same { self.new ≡ self.old }
        ensures stay { StayMarked unfit.old unfit.new }
        ensures stay_too { StayMarked unclear.old unclear.new }
        ensures marks { length unfit.new ≡ length unfit.old }
        ensures marks_too { length unclear.new ≡ length unclear.old }
        ensures unmarked { OnErr result (unfit.new ≡ unfit.old) }
        ensures unmarked_too { OnErr result (unclear.new ≡ unclear.old) }
        ensures reads { reads.new.pins ≡ reads.old.pins }
        ensures unread { OnErr result (reads.new ≡ reads.old) }
        ensures advances { Advances (rig_state rig.old) (rig_state rig.new) self.old self.new }
        ensures loads { (rig_state rig.new).loads ≤ (rig_state rig.old).loads + 1 }
        ensures cycles { cycles_made (rig_state rig.new) ≤ cycles_made (rig_state rig.old) + (pins_of self.old.shape + 1) }
        ensures session { OnOk result (HasLooked self.old.shape (rig_state rig.new)) }
        ensures cause { IsErrOf result RigFail.Failed → Rose (rig_state rig.old).failures (rig_state rig.new).failures }
        ensures wanting { IsErrOf result RigFail.Memory → WantsBefore (rig_state rig.old) (rig_state rig.new) }
    {
        let shape = forest.shape();
        let drives = look_drives(self.alloc, shape.pins())?;
        // A look that is refused part of the way has changed some rows.
        let mut seen = Looks::new(self.alloc, &shape)?;
        let pins = pins_at(self.alloc, forest, hangs)?;
        self.look(rig, forest, hangs, &drives, &mut seen)?;
        mark_unfit(forest, hangs, &pins, &seen, unfit, unclear);
        *reads = seen;
        Ok(())
    }
}
