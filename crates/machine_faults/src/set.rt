//! Fault sets.

ghost use Rattle.std.specs.Prelude.{◌≡◌, ◌<◌, length, map, OnOk, OnErr, IfOk, IfErr, None};
ghost use Rattle.std.specs.FinSet as set;
ghost use Rattle.machine_meaning.specs.Faults.{stuck_wire, stuck_cross, wrong_cell, stuck_register};
ghost use Rattle.machine_shape.specs.Shape.{wires_of, crosses_of, tables_of};
ghost use Rattle.machine_faults.specs.Adding.{no_faults, with_fault, refusal_of, count_of, CanHave, IsRefusal, IsFaultSet};
ghost use Rattle.machine_faults.specs.Stored.{pair_of};
ghost use Rattle.machine_faults.specs.Written.{AreInOrder};
ghost use Rattle.machine_faults.specs.declared.fault.AddFault.TheVariants as add;

use crate::entries::{self, Entries};
use crate::fault::{AddFault, Fault};
use crate::write;
use machine_shape::{Cross, Shape, Table, Wire};
use std::alloc::{AllocError, Global};
use std::marker::Model;

/// The faults of a machine. Contracts see its shape and its faults: finite maps from wires, crosspoints, cells and
/// registers to the value that each is stuck at, and the set of bridges, each with its lower wire first.
#[derive(Debug, Drop)]
pub struct FaultSet {
    shape: Shape,
    entries: Entries,
    count: u32,
}

impl Model for FaultSet {
    ghost use Rattle.std.specs.Prelude.{◌≡◌};
    ghost use Rattle.machine_faults.specs.Adding.{Faulty, coded_faulty};

    ghost Value = { Faulty };

    ghost coded = { coded_faulty };

    ghost use Rattle.machine_faults.specs.Adding.{count_of, IsFaultSet};
    ghost use Rattle.machine_faults.specs.Stored.{faults_in, Lists};

    ghost view = { λ s. record { shape = s.shape; faults = faults_in s.entries } };

    ghost invariant = { λ s. IsFaultSet (record { shape = s.shape; faults = faults_in s.entries })
        × Lists s.entries.bridges.items (faults_in s.entries).bridges × (s.count ≡ count_of (faults_in s.entries)) };
}

impl FaultSet {
    /// The set of no faults of a machine of this shape.
    pub fn none(alloc: Global, shape: Shape) -> Result<FaultSet, AllocError>
        ensures { IfOk result (λ s. s ≡ record { shape = shape; faults = no_faults }) }
    {
        let entries = entries::no_entries(alloc);
        Ok(FaultSet {
            shape,
            entries,
            count: 0,
        })
    }

    /// The shape of the machine, of which each fault is one.
    pub fn shape(&self) -> Shape
        ensures shape { result ≡ self.now.shape }
        ensures kept { IsFaultSet self.now }
    {
        self.shape
    }

    /// Adds a fault. A set has at most 65,536 of them, and on a machine that isn't small 16,777,216. Where it is refused,
    /// the set is as it was.
    pub fn add(&mut self, f: Fault) -> Result<(), AddFault>
        requires { CanHave self.old.shape f }
        ensures ok { OnOk result (self.new ≡ record { shape = self.old.shape; faults = with_fault self.old.faults f }) }
        ensures free { OnOk result (refusal_of self.old.shape self.old.faults f ≡ None) }
        ensures refused { IfErr result (IsRefusal (refusal_of self.old.shape self.old.faults f)) }
        ensures err { OnErr result (self.new ≡ self.old) }
    {
        if let Some(why) = entries::refusal_of(&self.shape, &self.entries, self.count, f) {
            return Err(why);
        }
        entries::put(&mut self.entries, f)?;
        self.count += 1;
        Ok(())
    }

    /// The value at which a wire is stuck, if it is.
    pub fn stuck(&self, w: Wire) -> Option<bool>
        requires { w.0 < wires_of self.now.shape }
        ensures { result ≡ stuck_wire self.now.faults w.0 }
    {
        entries::value_in(&self.entries.wires, w.0)
    }

    /// Whether a crosspoint is stuck, and closed.
    pub fn cross_stuck(&self, c: Cross) -> Option<bool>
        requires { c.0 < crosses_of self.now.shape }
        ensures { result ≡ stuck_cross self.now.faults c.0 }
    {
        entries::value_in(&self.entries.crosses, c.0)
    }

    /// The value that a cell always gives, if it is wrong.
    pub fn cell(&self, t: Table, address: u8) -> Option<bool>
        requires table { t.0 < tables_of self.now.shape }
        requires address { address < 64 }
        ensures { result ≡ wrong_cell self.now.faults t.0 address }
    {
        entries::cell_in(&self.entries.cells, t.0, address)
    }

    /// The value that a register always holds, if it is stuck.
    pub fn register(&self, t: Table) -> Option<bool>
        requires { t.0 < tables_of self.now.shape }
        ensures { result ≡ stuck_register self.now.faults t.0 }
    {
        entries::value_in(&self.entries.registers, t.0)
    }

    /// The bridges, each once, with its lower wire first.
    pub fn bridges(&self) -> &[(Wire, Wire)]
        ensures all { set.from_list (map pair_of result.now) ≡ self.now.faults.bridges }
        ensures once { length result.now ≡ set.len self.now.faults.bridges }
    {
        &self.entries.bridges
    }

    /// The faults in the order of their text.
    pub(crate) fn in_order(&self, alloc: Global) -> Result<Vec<Fault>, AllocError>
        ensures { IfOk result (λ v. AreInOrder self.now.faults v.items) }
    {
        write::in_order(alloc, &self.entries)
    }

    /// How many faults there are.
    pub fn count(&self) -> u32
        ensures { result ≡ count_of self.now.faults }
    {
        self.count
    }
}

impl From<AllocError> for AddFault {
    ghost from_gives = { λ _ e. e ≡ add.Memory };

    fn from(_e: AllocError) -> AddFault {
        AddFault::Memory
    }
}
