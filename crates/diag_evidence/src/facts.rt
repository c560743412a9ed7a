//! Facts about one rig's faults.
ghost use Rattle.std.specs.Prelude.{◌≡◌, ◌≢◌, ◌<◌, ◌||◌, ◌&&◌, ℕ, All, IfOk, IsTrue, length, replicate, true, false, ◌*◌, ◌≤◌, map};
ghost use Rattle.base_bits.specs.Numbers.{has_number};
ghost use Rattle.machine_shape.specs.Shape.{crosses_of, pins_of, wires_of, tables_of};
ghost use Rattle.diag_evidence.specs.Hangs.{IsFoot, feet_crosses, joined_by, over_of, seen_on, turned};
ghost use Rattle.diag_evidence.specs.Looks.{seen_in};
ghost use Rattle.machine_config.specs.Groups.{among};
ghost use Rattle.diag_tests.specs.Routes.{IsRoute};
ghost use Rattle.diag_evidence.specs.Kept.{KeepsNothing, Gains, keeps_cross, keeps_wire, keeps_pair, keeps_cell, keeps_register, one_cross};
ghost use Rattle.diag_evidence.specs.Kept.{these_wires, row_over, one_cell, one_register, is_apart};
ghost use Rattle.diag_evidence.specs.Plans.{ArePins, AreViews};
ghost use Rattle.diag_evidence.specs.Readings.{wires_over};

use crate::hangs::{HangPins, Views, WireTest};
use crate::joins::{all_hang, mark_joined, mark_joined_pins};
use crate::pins::Pins;
use crate::swinging::{mark_swinging, mark_swinging_feet};
use crate::{Forest, Looks};
use base_bits::BitSet;
use diag_tests::Route;
use machine_config::Config;
use machine_shape::{Cross, Shape, Table, Wire};
use std::alloc::{AllocError, Global};
use std::marker::Model;

/// Facts about the faults of one rig's machine: kept crosspoints aren't stuck, kept wires are shorted to no stuck wire,
/// kept pairs of wires aren't shorted, kept cells aren't wrong, and kept registers aren't stuck. Only tests
/// add one.
#[derive(Drop)]
pub struct Facts {
    pub(crate) alloc: Global,
    pub(crate) shape: Shape,
    // A configuration that a test was done with, for the next one.
    pub(crate) done: Option<Config>,
    pub(crate) pins: Pins,
    crosses: BitSet,
    wires: BitSet,
    // Each two wires of this set are a kept pair.
    pub(crate) apart: BitSet,
    // The number of the wire on trial, and the row of those with which it is a kept pair.
    pub(crate) trial: Option<u32>,
    pub(crate) row: BitSet,
    cells: BitSet,
    registers: BitSet,
}

impl Model for Facts {
    ghost use Rattle.std.specs.Prelude.{◌≡◌, IfSome};
    ghost use Rattle.machine_shape.specs.Shape.{pins_of};
    ghost use Rattle.diag_evidence.specs.Kept.{Kept, coded_kept, AreMarksOf};
    ghost use Rattle.diag_evidence.specs.Inside.{kept_in};

    ghost Value = { Kept };

    ghost coded = { coded_kept };

    ghost view = { kept_in };

    ghost invariant = { λ p. AreMarksOf (kept_in p) × IfSome p.done (λ g. g.config.shape ≡ p.shape) × (p.pins ≡ pins_of p.shape) };
}

// Marks of crosspoints, of wires, of wires that are apart from one another, and of those that are apart from one.
#[derive(Drop)]
struct WireMarks {
    crosses: BitSet,
    wires: BitSet,
    apart: BitSet,
    row: BitSet,
}

// No marks of a machine's crosspoints and wires.
fn no_wire_marks(alloc: Global, shape: Shape) -> Result<WireMarks, AllocError>
    ensures crosses { IfOk result (λ m. m.crosses ≡ replicate (crosses_of shape) false) }
    ensures wires { IfOk result (λ m. m.wires ≡ replicate (wires_of shape) false) }
    ensures apart { IfOk result (λ m. m.apart ≡ replicate (wires_of shape) false) }
    ensures row { IfOk result (λ m. m.row ≡ replicate (wires_of shape) false) }
{
    let crosses = BitSet::new(alloc, shape.crosses())?;
    let wires = BitSet::new(alloc, shape.wires())?;
    let apart = BitSet::new(alloc, shape.wires())?;
    let row = BitSet::new(alloc, shape.wires())?;
    Ok(WireMarks {
        crosses,
        wires,
        apart,
        row,
    })
}

// Marks of cells and of registers.
#[derive(Drop)]
struct TableMarks {
    cells: BitSet,
    registers: BitSet,
}

// No marks of a machine's tables.
fn no_table_marks(alloc: Global, shape: Shape) -> Result<TableMarks, AllocError>
    ensures cells { IfOk result (λ m. m.cells ≡ replicate (64 * tables_of shape) false) }
    ensures registers { IfOk result (λ m. m.registers ≡ replicate (tables_of shape) false) }
    ensures few { tables_of shape ≤ 65536 }
{
    let cells = BitSet::new(alloc, 64 * shape.tables())?;
    let registers = BitSet::new(alloc, shape.tables())?;
    Ok(TableMarks { cells, registers })
}

impl Facts {
    /// Keeps nothing, and has no wire in its set.
    pub fn new(alloc: Global, shape: Shape) -> Result<Facts, AllocError>
        ensures shape { IfOk result (λ p. p.shape ≡ shape) }
        ensures nothing { IfOk result KeepsNothing }
    {
        let on_wires = no_wire_marks(alloc, shape)?;
        let on_tables = no_table_marks(alloc, shape)?;
        Ok(Facts {
            alloc,
            shape,
            done: None,
            pins: Pins::new(alloc, shape.pins()),
            crosses: on_wires.crosses,
            wires: on_wires.wires,
            apart: on_wires.apart,
            trial: None,
            row: on_wires.row,
            cells: on_tables.cells,
            registers: on_tables.registers,
        })
    }

    /// The shape of the machine.
    pub fn shape(&self) -> Shape
        ensures { result ≡ self.now.shape }
    {
        self.shape
    }

    /// Whether a crosspoint is kept.
    pub fn keeps_cross(&self, c: Cross) -> bool
        requires { c.0 < crosses_of self.now.shape }
        ensures { result ≡ keeps_cross self.now c.0 }
    {
        self.crosses.has(c.0)
    }

    /// Whether a crosspoint is kept, whatever its number is.
    pub fn has_kept(&self, c: Cross) -> bool
        ensures { IsTrue result → keeps_cross self.now c.0 ≡ true }
    {
        if c.0 >= self.crosses.len() {
            return false;
        }
        self.crosses.has(c.0)
    }

    /// Whether a wire is kept.
    pub fn keeps_wire(&self, w: Wire) -> bool
        requires { w.0 < wires_of self.now.shape }
        ensures { result ≡ keeps_wire self.now w.0 }
    {
        self.wires.has(w.0)
    }

    /// Whether a pair of wires is kept, in either order: both are of the set, or one is on trial and its row has the other.
    pub fn keeps_pair(&self, a: Wire, b: Wire) -> bool
        requires a { a.0 < wires_of self.now.shape }
        requires b { b.0 < wires_of self.now.shape }
        requires differ { a.0 ≢ b.0 }
        ensures { result ≡ keeps_pair self.now a.0 b.0 }
    {
        if has_both(&self.apart, a.0, b.0) {
            return true;
        }
        let Some(tried) = self.trial else {
            return false;
        };
        if tried == a.0 {
            return self.row.has(b.0);
        }
        if tried == b.0 {
            return self.row.has(a.0);
        }
        false
    }

    /// Whether a wire is of the set: each two wires of it are a kept pair.
    pub fn is_apart(&self, w: Wire) -> bool
        requires { w.0 < wires_of self.now.shape }
        ensures { result ≡ is_apart self.now w.0 }
    {
        self.apart.has(w.0)
    }

    /// Whether a cell of a table is kept.
    pub fn keeps_cell(&self, t: Table, address: u8) -> bool
        requires table { t.0 < tables_of self.now.shape }
        requires address { address < 64 }
        ensures { result ≡ keeps_cell self.now t.0 address }
    {
        self.cells.has(64 * t.0 + u32::from(address))
    }

    /// Whether the register of a table is kept.
    pub fn keeps_register(&self, t: Table) -> bool
        requires { t.0 < tables_of self.now.shape }
        ensures { result ≡ keeps_register self.now t.0 }
    {
        self.registers.has(t.0)
    }

    pub(crate) fn keep_cross(&mut self, c: Cross)
        requires { c.0 < crosses_of self.old.shape }
        ensures { Gains (one_cross c.0) self.old self.new }
    {
        self.crosses.insert(c.0);
    }

    pub(crate) fn keep_cell(&mut self, t: Table, address: u8)
        requires table { t.0 < tables_of self.old.shape }
        requires address { address < 64 }
        ensures { Gains (one_cell t.0 address) self.old self.new }
    {
        self.cells.insert(64 * t.0 + u32::from(address));
    }

    pub(crate) fn keep_register(&mut self, t: Table)
        requires { t.0 < tables_of self.old.shape }
        ensures { Gains (one_register t.0) self.old self.new }
    {
        self.registers.insert(t.0);
    }

    pub(crate) fn keep_wires(&mut self, route: &Route)
        requires { IsRoute self.old.shape route.now }
        ensures { Gains (these_wires route.now.wires) self.old self.new }
    {
        mark_wires(&mut self.wires, route);
    }

    // The wire on trial, where it is on the left route, gets each wire of the right ones into its row.
    pub(crate) fn keep_in_row(&mut self, left: &Route, rights: &[Route])
        requires left { IsRoute self.old.shape left.now }
        requires rights { All (IsRoute self.old.shape) rights.now }
        ensures { Gains (row_over self.old.trial left.now.wires (wires_over rights.now)) self.old self.new }
    {
        let Some(wire) = self.trial else {
            return;
        };
        if !left.touches(Wire(wire)) {
            return;
        }
        mark_routes(&mut self.row, rights);
    }

    // Keeps what a look at a forest shows: the wires that hang on pins that swing, and the pins of the machine that join the set.
    pub(crate) fn keep_seen(&mut self, forest: &Forest, reads: &Looks)
        requires forest { forest.now.shape ≡ self.old.shape }
        requires reads { reads.now.pins ≡ pins_of self.old.shape }
        ensures { Gains (seen_in forest.now reads.now.rows) self.old self.new }
    {
        mark_swinging(&mut self.wires, forest, reads);
        mark_joined_pins(&mut self.apart, forest, reads);
    }

    // Keeps the crosspoints of feet, and what a look shows of their wires.
    pub(crate) fn keep_feet(&mut self, forest: &Forest, feet: &[(Wire, Cross)], reads: &Looks)
        requires forest { forest.now.shape ≡ self.old.shape }
        requires feet { All (IsFoot forest.now) feet.now }
        requires reads { reads.now.pins ≡ pins_of self.old.shape }
        ensures { Gains (seen_on forest.now feet.now reads.now.rows) self.old self.new }
    {
        mark_crosses(&mut self.crosses, feet);
        mark_swinging_feet(&mut self.wires, forest, feet, reads);
    }

    // The wires of hangs join the set where three looks show them apart from all of it, and all of it hangs.
    pub(crate) fn keep_joined(
        &mut self,
        forest: &Forest,
        hangs: &[WireTest],
        swapped: &[WireTest],
        pins: &HangPins,
        views: &Views,
    )
        requires forest { forest.now.shape ≡ self.old.shape }
        requires over { All (λ h. IsFoot forest.now (over_of h)) hangs.now }
        requires other { All (λ h. IsFoot forest.now (over_of (turned h))) hangs.now }
        requires swapped { swapped.now ≡ map turned hangs.now }
        requires pins { ArePins forest.now hangs.now pins.now }
        requires views { AreViews (pins_of self.old.shape) views.now }
        ensures { Gains (joined_by self.old.apart forest.now hangs.now views.now.all.rows views.now.without_over.rows
            views.now.without_other.rows) self.old self.new }
    {
        if !all_hang(&self.apart, forest) {
            return;
        }
        mark_joined(&mut self.apart, forest, hangs, swapped, pins, views);
    }
}

// Whether a set has both numbers.
fn has_both(set: &BitSet, a: u32, b: u32) -> bool
    requires a { a < length set.now }
    requires b { b < length set.now }
    ensures { result ≡ (has_number set.now a && has_number set.now b) }
{
    set.has(a) && set.has(b)
}

// Marks the wires of a route.
fn mark_wires(wires: &mut BitSet, route: &Route)
    requires { (w : ℕ) → among route.now.wires w ≡ true → w < length wires.old }
    ensures marked { (w : ℕ) → has_number wires.new w ≡ (among route.now.wires w || has_number wires.old w) }
    ensures len { length wires.new ≡ length wires.old }
{
    'wires: for k in 0..=route.len() {
        wires.insert(route.wire_at(k).0);
    }
}

// Marks the crosspoints of feet.
fn mark_crosses(crosses: &mut BitSet, feet: &[(Wire, Cross)])
    requires { All (λ foot. foot.1.0 < length crosses.old) feet.now }
    ensures marked { (x : ℕ) → has_number crosses.new x ≡ (among (feet_crosses feet.now) x || has_number crosses.old x) }
    ensures len { length crosses.new ≡ length crosses.old }
{
    'feet: for k in 0..feet.len() {
        crosses.insert(feet[k].1.0);
    }
}

// Marks the wires of some routes.
fn mark_routes(wires: &mut BitSet, routes: &[Route])
    requires { All (λ s. (w : ℕ) → among s.wires w ≡ true → w < length wires.old) routes.now }
    ensures marked { (w : ℕ) → has_number wires.new w ≡ (among (wires_over routes.now) w || has_number wires.old w) }
    ensures len { length wires.new ≡ length wires.old }
{
    'routes: for k in 0..routes.len() {
        mark_wires(wires, &routes[k]);
    }
}
