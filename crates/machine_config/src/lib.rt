//! Configurations of a machine: which crosspoints are closed, which tables are on and what they do, and
//! how many ticks a cycle has.
//!
//! A configuration after any calls: closed crosspoints, switched-on tables, ticks; a closing can't fail while there is room. The
//! run of a machine with faults exists for every list of drives and is the only one; readings that differ when a crosspoint, a
//! cell or a register is toggled show that it isn't stuck, and tests whose wires are as they should be read as they should
//! (`laws::tests_pass`).
#![tactic(auto)]

ghost use Rattle.std.specs.Prelude.{◌≡◌, ℕ, ◌+◌, ◌-◌, ◌≤◌, ◌<◌, true, IfOk, OnOk, OnErr, IsOk, IsSome, IfSome, Some, None, count_by};
ghost use Rattle.std.specs.Prelude.{is_some, ◌==◌, if◌then◌else◌};
ghost use Rattle.std.specs.FinSet as set;
ghost use Rattle.machine_shape.specs.Bounds.{most_ticks};
ghost use Rattle.machine_shape.specs.Shape.{crosses_of, tables_of};
ghost use Rattle.machine_config.specs.Configuration.{IsConfiguration, cleared, is_closed, setting_of, with_closed, with_open, with_setting};
ghost use Rattle.machine_config.specs.Configuration.{with_ticks, with_bit, with_cell};

mod alike;
pub mod laws;
mod lists;

pub use alike::{are_same, count_alike};
use base_bits::BitSet;
use lists::{open_all, place_of, switch_all_off};
use machine_shape::{Cross, Shape, Table};
use std::alloc::{AllocError, Global};
use std::marker::Model;

/// What a table does that is on.
#[derive(Clone, Copy, Debug, PartialEq, Eq)]
pub struct Setting {
    /// What it gives at each of the 64 addresses: cell `a` is bit `a`.
    pub cells: u64,
    /// Whether it takes the addressed cell at the clock edge alone, and not at every tick.
    pub latched: bool,
    /// What it gives first, after a load.
    pub init: bool,
}

/// What is set on a machine of one shape. A new one takes a bit for each crosspoint and a few words for
/// each table; a later change costs what is closed and switched on, and not what the machine has.
#[derive(Drop)]
pub struct Config {
    shape: Shape,
    // The closed crosspoints as a set, beside the list.
    marks: BitSet,
    closed: Vec<Cross>,
    tables: Vec<Option<Setting>>,
    // The tables that are on, with room for all.
    on: Vec<Table>,
    ticks: u16,
}

impl Model for Config {
    ghost use Rattle.std.specs.Prelude.{◌-◌, vec_len};
    ghost use Rattle.std.specs.Vec.{vec_capacity};
    ghost use Rattle.machine_config.specs.Configuration.{Roomy, coded_roomy};

    ghost Value = { Roomy };

    ghost coded = { coded_roomy };

    ghost use Rattle.machine_config.specs.Kept.{IsKept, configuration_in};

    ghost view = { λ a. record { config = configuration_in a; spare = vec_capacity a.closed - vec_len a.closed } };

    ghost invariant = { IsKept };
}

// The number with one bit at a value.
fn put_bit(n: u64, at: u8, bit: bool) -> u64
    requires { at < 64 }
    ensures { result ≡ with_bit n at bit }
{
    if ((n >> at) & 1 == 1) == bit {
        n
    } else {
        n ^ (1 << at)
    }
}

impl Config {
    /// Nothing closed, nothing on, one tick, and room for this many closings.
    pub fn with_room(alloc: Global, shape: Shape, room: u32) -> Result<Config, AllocError>
        ensures cleared { IfOk result (λ g. g.config ≡ cleared shape) }
        ensures room { IfOk result (λ g. room ≤ g.spare) }
    {
        let tables = shape.tables() as usize;
        Ok(Config {
            shape,
            marks: BitSet::new(alloc, shape.crosses())?,
            closed: Vec::with_capacity(alloc, room as usize)?,
            tables: vec![in alloc; None; tables]?,
            on: Vec::with_capacity(alloc, tables)?,
            ticks: 1,
        })
    }

    /// The shape of the machine. What is set is always one of that machine: closed crosspoints are below
    /// its number of crosspoints, there is a place for each table, and there are 1 to `most_ticks` ticks.
    pub fn shape(&self) -> Shape
        ensures shape { result ≡ self.now.config.shape }
        ensures right { IsConfiguration self.now.config }
    {
        self.shape
    }

    /// How many ticks a cycle has, 1 to `most_ticks` of the shape.
    pub fn ticks(&self) -> u16
        ensures { result ≡ self.now.config.ticks }
    {
        self.ticks
    }

    /// Sets how many ticks a cycle has.
    pub fn set_ticks(&mut self, ticks: u16)
        requires some { 1 ≤ ticks }
        requires few { ticks ≤ most_ticks self.old.config.shape }
        ensures { self.new ≡ record self.old { config = with_ticks self.old.config ticks } }
    {
        self.ticks = ticks;
    }

    /// Whether a crosspoint is closed, in constant time.
    pub fn has_cross(&self, c: Cross) -> bool
        requires { c.0 < crosses_of self.now.config.shape }
        ensures { result ≡ is_closed self.now.config c.0 }
    {
        self.marks.has(c.0)
    }

    /// The closed crosspoints, each once, in no order.
    pub fn closed(&self) -> &[Cross]
        ensures { (x : ℕ) → count_by (λ c. c.0 == x) result.now ≡ (if is_closed self.now.config x then 1 else 0) }
    {
        &self.closed
    }

    /// Closes a crosspoint. It can't fail while there is room, and takes at most one place of it. Closing
    /// a closed one changes nothing.
    pub fn close_cross(&mut self, c: Cross) -> Result<(), AllocError>
        requires { c.0 < crosses_of self.old.config.shape }
        ensures closed { OnOk result (self.new.config ≡ with_closed self.old.config c.0) }
        ensures kept { OnErr result (self.new.config ≡ self.old.config) }
        ensures room { self.old.spare ≤ self.new.spare + 1 }
        ensures succeeds { 0 < self.old.spare → IsOk result }
        ensures already { is_closed self.old.config c.0 ≡ true → IsOk result × (self.new ≡ self.old) }
    {
        if !self.marks.has(c.0) {
            self.closed.push(c)?;
            self.marks.insert(c.0);
        }
        Ok(())
    }

    /// Opens a crosspoint. One that was closed gives its place back. Opening an open one changes nothing.
    pub fn open_cross(&mut self, c: Cross)
        requires { c.0 < crosses_of self.old.config.shape }
        ensures open { self.new.config ≡ with_open self.old.config c.0 }
        ensures room { self.old.spare ≤ self.new.spare }
        ensures back { is_closed self.old.config c.0 ≡ true → self.old.spare + 1 ≤ self.new.spare }
    {
        if self.marks.has(c.0) {
            if let Some(i) = place_of(&self.closed, &c) {
                self.closed.swap_remove(i);
                self.marks.remove(c.0);
            }
        }
    }

    /// What a table does, or None exactly where it is off.
    pub fn setting(&self, t: Table) -> Option<Setting>
        requires { t.0 < tables_of self.now.config.shape }
        ensures { result ≡ setting_of self.now.config t.0 }
    {
        self.tables[t.0 as usize]
    }

    /// The tables that are on, each once, in no order.
    pub fn tables_on(&self) -> &[Table]
        ensures { (t : ℕ) → count_by (λ x. x.0 == t) result.now ≡ (if is_some (setting_of self.now.config t) then 1 else 0) }
    {
        &self.on
    }

    /// Switches a table on, or gives one that is on another setting.
    pub fn switch_on(&mut self, t: Table, s: Setting)
        requires { t.0 < tables_of self.old.config.shape }
        ensures { self.new ≡ record self.old { config = with_setting self.old.config t.0 (Some s) } }
    {
        if self.tables[t.0 as usize].is_none() {
            self.on.push_reserved(t);
        }
        self.tables[t.0 as usize] = Some(s);
    }

    /// Switches a table off.
    pub fn switch_off(&mut self, t: Table)
        requires { t.0 < tables_of self.old.config.shape }
        ensures { self.new ≡ record self.old { config = with_setting self.old.config t.0 None } }
    {
        if self.tables[t.0 as usize].is_some() {
            if let Some(i) = place_of(&self.on, &t) {
                self.on.swap_remove(i);
                self.tables[t.0 as usize] = None;
            }
        }
    }

    /// Sets one cell of a table that is on.
    pub fn set_cell(&mut self, t: Table, address: u8, bit: bool)
        requires within { t.0 < tables_of self.old.config.shape }
        requires on { IsSome (setting_of self.old.config t.0) }
        requires below { address < 64 }
        ensures { IfSome (setting_of self.old.config t.0)
            (λ s. self.new ≡ record self.old { config = with_setting self.old.config t.0 (Some (with_cell s address bit)) }) }
    {
        if let Some(setting) = &mut self.tables[t.0 as usize] {
            setting.cells = put_bit(setting.cells, address, bit);
        }
    }

    /// Opens all, switches all off, and sets one tick. All closed crosspoints give their places back.
    pub fn clear(&mut self)
        ensures cleared { self.new.config ≡ cleared self.old.config.shape }
        ensures room { self.old.spare + set.len self.old.config.closed ≤ self.new.spare }
    {
        open_all(&mut self.closed, &mut self.marks);
        switch_all_off(&mut self.on, &mut self.tables);
        self.ticks = 1;
    }
}
