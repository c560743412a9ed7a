//! A machine that is prepared for its faults, and loaded.

ghost use Rattle.std.specs.Prelude.{◌≡◌, ℕ, ◌<◌, Some, None, OnOk, IfOk, [], length, map, All, unwrap_or};
ghost use Rattle.machine_shape.specs.Shape.{wires_of, tables_of, pins_of, table_wire};
ghost use Rattle.machine_config.specs.Vocabulary.{Configuration, setting_of, set_of, circuit_of, at_load};
ghost use Rattle.rig_simulated.specs.Classes.{HasRoots, AreRooted};
ghost use Rattle.rig_simulated.specs.Boards.{HasPins, ArePinsOf, IsPrepared, IsLoaded};
ghost use Rattle.rig_simulated.specs.Building.{cross_of};
ghost use Rattle.rig_simulated.specs.Gates.{Fits, IsGate, AreGates, AreOutputs};
ghost use Rattle.rig_simulated.specs.Tracked.{IsTracked};

use crate::base::classes_of;
use crate::chains::chain_pins;
use crate::classes::{ClassNode, Classes, root_of};
use crate::closing::close_all;
use crate::driving::{KeptPins, keep_pins, release_pins, show_pins};
use crate::events::{Events, list_tables, new_events};
use crate::gates::Gate;
use crate::past::{MANY_TICKS, Past, make_past, no_past};
use crate::ranks::{FEW_TICKS, Turn, order_gates};
use crate::stuck::stuck_marks;
use base_bits::BitSet;
use machine_config::{Config, Setting};
use machine_faults::FaultSet;
use machine_shape::{Cross, Pin, Shape, Table};
use std::alloc::{AllocError, Global};

/// What is kept of a machine: its wires in classes, which crosspoints are stuck, its tables that are on, its pins, and
/// marks.
#[derive(Drop)]
pub struct Board {
    pub classes: Classes,
    /// The crosspoints that are stuck.
    pub stuck: BitSet,
    pub gates: Vec<Gate>,
    /// The roots of the pins.
    pub pins: Vec<u32>,
    /// What the pins are driven.
    pub kept: KeptPins,
    /// The classes that pins pull to 0.
    pub low_pins: Vec<bool>,
    /// The classes that tables pull to 0.
    pub low_tables: Vec<bool>,
    /// The ranks of the classes, where the tables are ranked.
    pub ranks: Vec<u16>,
    /// The order in which the tables are evaluated, where they are ranked.
    pub turns: Vec<Turn>,
    /// Whether no way through combinational tables is longer than the ticks.
    pub ranked: bool,
    /// The readers of what tables give, where the tables aren't ranked.
    pub events: Events,
    /// What the tables gave some ticks before, where ticks are many.
    pub past: Past,
}

/// The root of a table's pin.
fn root_at(knots: &[ClassNode], shape: Shape, table: Table, pin: u32) -> u32
    requires len { length knots.now ≡ wires_of shape }
    requires rooted { AreRooted knots.now }
    requires table { table.0 < tables_of shape }
    requires pin { pin < 7 }
    ensures root { (most : ℕ) (root : ℕ → ℕ) → HasRoots knots.now most root → result ≡ root (table_wire shape table.0 pin) }
    ensures within { result < wires_of shape }
{
    root_of(knots, shape.pin_of(table, pin).0)
}

/// A table with this setting, as it is after a load.
fn gate_of(faults: &FaultSet, knots: &[ClassNode], table: Table, setting: Setting) -> Gate
    requires len { length knots.now ≡ wires_of faults.now.shape }
    requires rooted { AreRooted knots.now }
    requires table { table.0 < tables_of faults.now.shape }
    ensures fits { Fits (tables_of faults.now.shape) (wires_of faults.now.shape) result }
    ensures gate { (g : Configuration) (most : ℕ) (root : ℕ → ℕ) → g.shape ≡ faults.now.shape → setting_of g table.0 ≡ Some setting →
        HasRoots knots.now most root → IsGate faults.now.faults g root result }
    ensures table { result.table ≡ table }
    ensures first { result.output ≡ unwrap_or result.held result.setting.init }
{
    let shape = faults.shape();
    let held = if setting.latched {
        faults.register(table)
    } else {
        None
    };
    Gate {
        table,
        setting,
        held,
        ins: [
            root_at(knots, shape, table, 0),
            root_at(knots, shape, table, 1),
            root_at(knots, shape, table, 2),
            root_at(knots, shape, table, 3),
            root_at(knots, shape, table, 4),
            root_at(knots, shape, table, 5),
        ],
        out: root_at(knots, shape, table, 6),
        output: held.unwrap_or(setting.init),
    }
}

/// The tables that are on.
fn fill_gates(
    gates: &mut Vec<Gate>,
    faults: &FaultSet,
    knots: &[ClassNode],
    config: &Config,
) -> Result<(), AllocError>
    requires shape { config.now.config.shape ≡ faults.now.shape }
    requires len { length knots.now ≡ wires_of faults.now.shape }
    requires rooted { AreRooted knots.now }
    ensures fits { OnOk result (All (Fits (tables_of faults.now.shape) (wires_of faults.now.shape)) gates.new.items) }
    ensures gates { OnOk result ((most : ℕ) (root : ℕ → ℕ) → HasRoots knots.now most root →
        AreGates faults.now.faults config.now.config root gates.new.items) }
    ensures first { OnOk result (AreOutputs config.now.config gates.new.items (at_load (circuit_of faults.now.faults config.now.config))) }
{
    // Each table of the shape has its setting, and only these have one.
    let _shape = config.shape();
    gates.clear();
    let tables = config.tables_on();
    'tables: for i in 0..tables.len() {
        let table = tables[i];
        if let Some(setting) = config.setting(table) {
            gates.push(gate_of(faults, knots, table, setting))?;
        }
    }
    Ok(())
}

/// The roots of the pins.
fn fill_pins(pins: &mut Vec<u32>, knots: &[ClassNode], shape: Shape) -> Result<(), AllocError>
    requires len { length knots.now ≡ wires_of shape }
    requires rooted { AreRooted knots.now }
    ensures len { OnOk result (length pins.new.items ≡ pins_of shape) }
    ensures within { All (λ r. r < wires_of shape) pins.new.items }
    ensures roots { OnOk result (ArePinsOf shape knots.now pins.new.items) }
{
    pins.clear();
    'pins: for k in 0..shape.pins() {
        pins.push(root_of(knots, shape.pin(Pin(k)).0))?;
    }
    Ok(())
}

/// A machine with these faults, with nothing loaded.
pub fn prepare(alloc: Global, faults: &FaultSet) -> Result<Board, AllocError>
    ensures prepared { IfOk result (IsPrepared faults.now.shape faults.now.faults) }
    ensures none { IfOk result (λ b. b.classes.closed.items ≡ []) }
{
    let shape = faults.shape();
    let wires = shape.wires() as usize;
    let low_pins = vec![in alloc; false; wires]?;
    let low_tables = vec![in alloc; false; wires]?;
    let ranks = vec![in alloc; 0; wires]?;
    let events = new_events(alloc, wires)?;
    let stuck = stuck_marks(alloc, faults)?;
    let kept = keep_pins(alloc, wires, shape.pins())?;
    let classes = classes_of(alloc, faults)?;
    Ok(Board {
        classes,
        stuck,
        gates: Vec::new(alloc),
        pins: Vec::new(alloc),
        kept,
        low_pins,
        low_tables,
        ranks,
        turns: Vec::new(alloc),
        ranked: false,
        events,
        past: no_past(alloc),
    })
}

/// Finds the pins anew, of which none is driven.
fn load_pins(
    kept: &mut KeptPins,
    pins: &mut Vec<u32>,
    low: &mut [bool],
    knots: &[ClassNode],
    shape: Shape,
) -> Result<(), AllocError>
    requires has { HasPins shape pins.old.items low.old kept.old }
    requires len { length knots.now ≡ wires_of shape }
    requires rooted { AreRooted knots.now }
    ensures has { HasPins shape pins.new.items low.new kept.new }
    ensures tracked { OnOk result (IsTracked knots.now pins.new.items low.new kept.new) }
    ensures len { OnOk result (length pins.new.items ≡ pins_of shape) }
    ensures roots { OnOk result (ArePinsOf shape knots.now pins.new.items) }
{
    // A machine has few wires, and no more pins.
    let _wires = shape.wires();
    let _pins = shape.pins();
    release_pins(kept, pins, low);
    fill_pins(pins, knots, shape)?;
    chain_pins(&mut kept.chains, pins);
    show_pins(&mut kept.levels, pins, knots, low);
    Ok(())
}

/// Loads a configuration. `closed` lists what is closed. Its cost grows with what is closed otherwise than before, with what is on, with the pins, and,
/// where there are more than two ticks, with the longest way through combinational tables. If that is longer than the
/// ticks, what the tables read is sorted.
pub fn load(
    board: &mut Board,
    closed: &mut Vec<Cross>,
    faults: &FaultSet,
    config: &Config,
) -> Result<(), AllocError>
    requires closed { map cross_of board.old.classes.closed.items ≡ closed.old.items }
    requires prepared { IsPrepared faults.now.shape faults.now.faults board.old }
    requires shape { config.now.config.shape ≡ faults.now.shape }
    ensures closed { map cross_of board.new.classes.closed.items ≡ closed.new.items }
    ensures set { OnOk result (set_of closed.new.items ≡ config.now.config.closed) }
    ensures prepared { IsPrepared faults.now.shape faults.now.faults board.new }
    ensures loaded { OnOk result (IsLoaded faults.now.faults config.now.config board.new) }
    ensures first { OnOk result (AreOutputs config.now.config board.new.gates.items
        (at_load (circuit_of faults.now.faults config.now.config))) }
{
    let shape = config.shape();
    close_all(
        &mut board.classes,
        closed,
        &board.stuck,
        faults,
        config.closed(),
    )?;
    fill_gates(&mut board.gates, faults, &board.classes.knots, config)?;
    load_pins(
        &mut board.kept,
        &mut board.pins,
        &mut board.low_pins,
        &board.classes.knots,
        shape,
    )?;
    board.ranked = order_gates(
        &mut board.turns,
        &mut board.ranks,
        &board.gates,
        config.ticks(),
    )?;
    let is_worth = !board.ranked && config.ticks() >= FEW_TICKS;
    list_tables(&mut board.events, &board.gates, is_worth)?;
    let looks_back = is_worth && config.ticks() >= MANY_TICKS;
    make_past(&mut board.past, board.gates.len(), looks_back)?;
    Ok(())
}
