//! Lists of defects.

ghost use Rattle.std.specs.Prelude.{◌≡◌, ◌<◌, ◌↔◌, IfOk, IsTrue};
ghost use Rattle.std.specs.FinSet as set;
ghost use Rattle.machine_shape.specs.Shape.{wires_of, crosses_of, tables_of, nodes_of};
ghost use Rattle.machine_meaning.specs.Defects.{IsFreeWire, IsFreeCross, IsFreeTable, IsOpenLine};
ghost use Rattle.machine_defects.specs.Lists.{IsDefectList, IsWithWire, no_defects, with_cross, with_table, open_lines_of, free_ports_of};
ghost use Rattle.machine_defects.specs.Lists.{free_tables_of, free_pins_of};

use crate::kept::{self, Kept};
use machine_shape::{Cross, Node, Shape, Table, Wire};
use std::alloc::{AllocError, Global};
use std::marker::Model;

/// The listed defects of a machine. Contracts see its shape and three sets: wires, crosspoints and tables. No
/// crosspoint of a listed wire is listed, and no table with a listed pin.
///
/// The queries take constant time. To list a wire takes the time of its crossbars' taps and lines.
#[derive(Debug, Drop)]
pub struct Defects {
    kept: Kept,
}

impl Model for Defects {
    ghost use Rattle.machine_defects.specs.Lists.{DefectList, coded_list};

    ghost Value = { DefectList };

    ghost coded = { coded_list };

    ghost use Rattle.machine_defects.specs.Kept.{IsKept, list_in};

    ghost view = { λ d. list_in d.kept };

    ghost invariant = { λ d. IsKept d.kept };
}

impl Defects {
    /// Nothing is listed.
    pub fn none(alloc: Global, shape: Shape) -> Result<Defects, AllocError>
        ensures { IfOk result (λ d. d ≡ record { shape = shape; list = no_defects }) }
    {
        let kept = kept::nothing(alloc, shape)?;
        Ok(Defects { kept })
    }

    /// Lists a wire. The listed crosspoints and the listed table that it touches are listed no more.
    pub fn list_wire(&mut self, w: Wire)
        requires { w.0 < wires_of self.old.shape }
        ensures { IsWithWire self.old w.0 self.new }
    {
        kept::put_wire(&mut self.kept, w);
    }

    /// Lists a crosspoint, unless one of its two wires is listed.
    pub fn list_cross(&mut self, c: Cross)
        requires { c.0 < crosses_of self.old.shape }
        ensures { self.new ≡ record { shape = self.old.shape; list = with_cross self.old.shape self.old.list c.0 } }
    {
        kept::put_cross(&mut self.kept, c);
    }

    /// Lists a table, unless one of its seven pins is listed.
    pub fn list_table(&mut self, t: Table)
        requires { t.0 < tables_of self.old.shape }
        ensures { self.new ≡ record { shape = self.old.shape; list = with_table self.old.shape self.old.list t.0 } }
    {
        kept::put_table(&mut self.kept, t);
    }

    /// The shape of the machine, of which each listed wire, crosspoint and table is one.
    pub fn shape(&self) -> Shape
        ensures shape { result ≡ self.now.shape }
        ensures kept { IsDefectList self.now }
    {
        self.kept.shape
    }

    /// Whether a wire is listed.
    pub(crate) fn lists_wire(&self, w: Wire) -> bool
        requires { w.0 < wires_of self.now.shape }
        ensures { result ≡ set.contains self.now.list.wires w.0 }
    {
        self.kept.wires.has(w.0)
    }

    /// Whether a crosspoint is listed.
    pub(crate) fn lists_cross(&self, c: Cross) -> bool
        requires { c.0 < crosses_of self.now.shape }
        ensures { result ≡ set.contains self.now.list.crosses c.0 }
    {
        self.kept.crosses.has(c.0)
    }

    /// Whether a table is listed.
    pub(crate) fn lists_table(&self, t: Table) -> bool
        requires { t.0 < tables_of self.now.shape }
        ensures { result ≡ set.contains self.now.list.tables t.0 }
    {
        self.kept.tables.has(t.0)
    }

    /// Whether a wire is free: it isn't listed.
    pub fn free_wire(&self, w: Wire) -> bool
        requires { w.0 < wires_of self.now.shape }
        ensures { IsTrue result ↔ IsFreeWire self.now.list w.0 }
    {
        !self.kept.wires.has(w.0)
    }

    /// Whether a crosspoint is free: neither it nor one of its two wires is listed.
    pub fn free_cross(&self, c: Cross) -> bool
        requires { c.0 < crosses_of self.now.shape }
        ensures { IsTrue result ↔ IsFreeCross self.now.shape self.now.list c.0 }
    {
        !self.kept.barred.has(c.0)
    }

    /// Whether a table is free: neither it nor one of its seven pins is listed.
    pub fn free_table(&self, t: Table) -> bool
        requires { t.0 < tables_of self.now.shape }
        ensures { IsTrue result ↔ IsFreeTable self.now.shape self.now.list t.0 }
    {
        !self.kept.lost.has(t.0)
    }

    /// Whether a line is open: it is free, and so are its crosspoints to all free taps.
    pub fn open_line(&self, line: Wire) -> bool
        requires { line.0 < wires_of self.now.shape }
        ensures { IsTrue result ↔ IsOpenLine self.now.shape self.now.list line.0 }
    {
        !self.kept.wires.has(line.0) && self.kept.shut[line.0 as usize] == 0
    }

    /// How many lines of a node are open.
    pub fn open_lines(&self, n: Node) -> u32
        requires { n.0 < nodes_of self.now.shape }
        ensures { result ≡ open_lines_of self.now.shape self.now.list n.0 }
    {
        machine_shape::the_numbering_is_sound();
        self.kept.open_lines[n.0 as usize]
    }

    /// How many ports of a node are free. The root has none.
    pub fn free_ports(&self, n: Node) -> u32
        requires { n.0 < nodes_of self.now.shape }
        ensures { result ≡ free_ports_of self.now.shape self.now.list n.0 }
    {
        self.kept.free_ports[n.0 as usize]
    }

    /// How many tables are free.
    pub fn free_tables(&self) -> u32
        ensures { result ≡ free_tables_of self.now.shape self.now.list }
    {
        self.kept.free_tables
    }

    /// How many pins of the machine are free.
    pub fn free_pins(&self) -> u32
        ensures { result ≡ free_pins_of self.now.shape self.now.list }
    {
        self.kept.free_pins
    }
}
