//! Looks at forests.
ghost use Rattle.std.specs.Prelude.{◌≡◌, ◌≤◌, ◌<◌, ◌+◌, true, Some, All, OnOk, OnErr, IsErrOf};
ghost use Rattle.base_io.specs.Counts.{Rose};
ghost use Rattle.machine_shape.specs.Shape.{pins_of, crosses_of};
ghost use Rattle.rig.specs.Rig.{ForEach, cycles_made, shape_of};
ghost use Rattle.diag_tests.specs.Configs.{Closes};
ghost use Rattle.diag_evidence.specs.Kept.{FewCycles, Advances};
ghost use Rattle.diag_evidence.specs.Forests.{KeepsForest};
ghost use Rattle.diag_evidence.specs.Hangs.{ClosesJust, all_hang, feet_crosses, closes};
ghost use Rattle.diag_evidence.specs.Looks.{HasLooked, HasSeen, IsLook, LogsLook, ShowsSeen, look_drives};
ghost use Rattle.diag_evidence.specs.Readings.{LoadsUpTo, WantsBefore};

use crate::forest_config::close_forest;
use crate::looks::look_drives;
use crate::{Facts, Forest, Looks};
use machine_config::Config;
use machine_shape::{Cross, Wire};
use rig::{PinBits, Rig, RigFail};
use std::alloc::AllocError;

// Closes the crosspoints of some feet besides.
fn close_feet(config: &mut Config, feet: &[(Wire, Cross)]) -> Result<(), AllocError>
    requires { All (λ foot. foot.1.0 < crosses_of config.old.config.shape) feet.now }
    ensures { OnOk result (Closes (feet_crosses feet.now) config.old.config config.new.config) }
{
    'feet: for k in 0..feet.len() {
        config.close_cross(feet[k].1)?;
    }
    Ok(())
}

// Closes the crosspoints of a forest and of some feet, and no other, and switches all off.
fn close_just(
    config: &mut Config,
    forest: &Forest,
    feet: &[(Wire, Cross)],
) -> Result<(), AllocError>
    requires shape { config.old.config.shape ≡ forest.now.shape }
    requires feet { All (λ foot. foot.1.0 < crosses_of forest.now.shape) feet.now }
    ensures { OnOk result (ClosesJust forest.now feet.now config.new.config) }
{
    close_forest(config, forest)?;
    close_feet(config, feet)
}

impl Facts {
    // Takes a look while just the crosspoints of a forest and of some feet are closed.
    pub(crate) fn look(
        &mut self,
        rig: &mut Box<dyn Rig>,
        forest: &Forest,
        feet: &[(Wire, Cross)],
        drives: &Vec<PinBits>,
        reads: &mut Looks,
    ) -> Result<(), RigFail>
        requires attached { shape_of (rig_state rig.old) ≡ Some self.old.shape }
        requires forest { forest.now.shape ≡ self.old.shape }
        requires feet { All (λ foot. foot.1.0 < crosses_of forest.now.shape) feet.now }
        requires drives { drives.now.items ≡ look_drives (pins_of self.old.shape) }
        requires reads { reads.old.pins ≡ pins_of self.old.shape }
        ensures same { self.new ≡ self.old }
        ensures pins { reads.new.pins ≡ reads.old.pins }
        ensures loads { LoadsUpTo 1 result (rig_state rig.old) (rig_state rig.new) }
        ensures few { FewCycles (rig_state rig.old) (rig_state rig.new) }
        ensures made { cycles_made (rig_state rig.new) ≤ cycles_made (rig_state rig.old) + (pins_of self.old.shape + 1) }
        ensures wanting { IsErrOf result RigFail.Memory → WantsBefore (rig_state rig.old) (rig_state rig.new) }
        ensures looked_each { OnOk result (ForEach (rig_state rig.new) (λ told. IsLook told forest.now.shape (closes forest.now feet.now)
            reads.new.rows)) }
        ensures logged { OnOk result (LogsLook forest.now.shape (closes forest.now feet.now) reads.new.rows (rig_state rig.old)
            (rig_state rig.new)) }
        ensures session { OnOk result (HasLooked self.old.shape (rig_state rig.new)) }
    {
        let mut config = self.config()?;
        close_just(&mut config, forest, feet)?;
        let looked = reads.take(rig, &config, drives);
        self.give_back(config);
        looked
    }

    /// Takes a look while just the crosspoints of a forest are closed, on which all wires of the set hang. A wire that hangs is kept
    /// exactly where its pin reads 0 in one cycle and 1 in another. A pin of the machine that hangs, and is alone on its pin, joins the
    /// set exactly where it does so, and reads otherwise than each other pin on which a wire hangs in some cycle.
    ///
    /// # Errors
    ///
    /// `Failed` where a call of the rig failed, `Memory` where memory was lacking.
    pub fn look_each(&mut self, rig: &mut Box<dyn Rig>, forest: &Forest) -> Result<(), RigFail>
        requires attached { shape_of (rig_state rig.old) ≡ Some self.old.shape }
        requires forest { KeepsForest self.old forest.now }
        requires hang { all_hang self.old.apart forest.now ≡ true }

        ensures seen_each { OnOk result (ForEach (rig_state rig.new) (λ told. HasSeen told forest.now self.old self.new)) }
        ensures logged { OnOk result (ShowsSeen forest.now (rig_state rig.old) (rig_state rig.new) self.old self.new) }
        ensures refused { OnErr result (self.new ≡ self.old) }
        ensures advances { Advances (rig_state rig.old) (rig_state rig.new) self.old self.new }
        ensures loads { (rig_state rig.new).loads ≤ (rig_state rig.old).loads + 1 }
        ensures cycles { cycles_made (rig_state rig.new) ≤ cycles_made (rig_state rig.old) + (pins_of self.old.shape + 1) }
        ensures session { OnOk result (HasLooked self.old.shape (rig_state rig.new)) }
        ensures cause { IsErrOf result RigFail.Failed → Rose (rig_state rig.old).failures (rig_state rig.new).failures }
        ensures wanting { IsErrOf result RigFail.Memory → WantsBefore (rig_state rig.old) (rig_state rig.new) }
    {
        let shape = forest.shape();
        let drives = look_drives(self.alloc, shape.pins())?;
        let mut reads = Looks::new(self.alloc, &shape)?;
        self.look(rig, forest, &[], &drives, &mut reads)?;
        self.keep_seen(forest, &reads);
        Ok(())
    }
}
