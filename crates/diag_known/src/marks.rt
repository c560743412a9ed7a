//! What growth has tried in one call, so that nothing is tried twice.
ghost use Rattle.std.specs.Prelude.{◌≡◌, ◌<◌, IfOk, length, replicate, slice_set, true, false};
ghost use Rattle.diag_known.specs.Marked.{AreOutside};

use crate::Field;
use base_bits::BitSet;
use machine_shape::{Cross, Wire};
use std::alloc::{AllocError, Global};

/// Wires that aren't to be tried, or not again, and crosspoints that were toggled.
#[derive(Drop)]
pub struct Marks {
    /// Wires that aren't of the field, or were tried.
    pub barred: BitSet,
    /// Crosspoints that were toggled for the wire to which they were offered.
    pub offered: BitSet,
    /// Crosspoints that were toggled over one that was offered.
    pub second: BitSet,
    /// Crosspoints that were toggled between known wires.
    pub between: BitSet,
}

// The wires that aren't of a field.
fn wires_outside(alloc: Global, wires: &BitSet) -> Result<BitSet, AllocError>
    ensures len { IfOk result (λ set. length set ≡ length wires.now) }
    ensures outside { IfOk result (AreOutside wires.now) }
{
    let mut set = BitSet::new(alloc, wires.len())?;
    'wires: for w in 0..wires.len() {
        if wires.has(w) {
            continue;
        }
        set.insert(w);
    }
    Ok(set)
}

impl Marks {
    /// Nothing was tried, and what isn't of the field is barred.
    pub fn new(alloc: Global, field: &Field) -> Result<Marks, AllocError>
        ensures len { IfOk result (λ marks. length marks.barred ≡ length field.now.wires) }
        ensures barred { IfOk result (λ marks. AreOutside field.now.wires marks.barred) }
        ensures offered { IfOk result (λ marks. marks.offered ≡ replicate (length field.now.crosses) false) }
        ensures second { IfOk result (λ marks. marks.second ≡ replicate (length field.now.crosses) false) }
        ensures between { IfOk result (λ marks. marks.between ≡ replicate (length field.now.crosses) false) }
    {
        let crosses = field.crosses.len();
        Ok(Marks {
            barred: wires_outside(alloc, &field.wires)?,
            offered: BitSet::new(alloc, crosses)?,
            second: BitSet::new(alloc, crosses)?,
            between: BitSet::new(alloc, crosses)?,
        })
    }

    /// Marks a crosspoint as offered.
    pub fn offer(&mut self, c: Cross)
        requires { c.0 < length self.old.offered }
        ensures { self.new ≡ record self.old { offered = slice_set self.old.offered c.0 true } }
    {
        self.offered.insert(c.0);
    }

    /// Marks a crosspoint as toggled over one that was offered.
    pub fn put_second(&mut self, c: Cross)
        requires { c.0 < length self.old.second }
        ensures { self.new ≡ record self.old { second = slice_set self.old.second c.0 true } }
    {
        self.second.insert(c.0);
    }

    /// Marks a crosspoint as toggled between known wires.
    pub fn put_between(&mut self, c: Cross)
        requires { c.0 < length self.old.between }
        ensures { self.new ≡ record self.old { between = slice_set self.old.between c.0 true } }
    {
        self.between.insert(c.0);
    }

    /// Bars a wire.
    pub fn bar(&mut self, w: Wire)
        requires { w.0 < length self.old.barred }
        ensures { self.new ≡ record self.old { barred = slice_set self.old.barred w.0 true } }
    {
        self.barred.insert(w.0);
    }
}
