//! A cycle of a loaded machine.

ghost use Rattle.std.specs.Prelude.{◌≡◌, ◌<◌, true, false, length, All};
ghost use Rattle.machine_meaning.specs.Circuit.{Outputs};
ghost use Rattle.machine_shape.specs.Shape.{tables_of};
ghost use Rattle.machine_config.specs.Configuration.{Configuration};
ghost use Rattle.rig_simulated.specs.Gates.{Fits, IsClear, AreOutputs};
ghost use Rattle.rig_simulated.specs.Boards.{IsPrepared, AreFitting, IsLoaded};
ghost use Rattle.rig_simulated.specs.Tracks.{GivesCycle};
ghost use Rattle.rig_simulated.specs.Cycles.{IsTick, HaveTicked, IsEdge};
ghost use Rattle.rig_simulated.specs.Settling.{Settles};
ghost use Rattle.rig_simulated.specs.Pulls.{AreZero};
ghost use Rattle.rig_simulated.specs.Events.{AreEvents};
ghost use Rattle.rig_simulated.specs.Tracked.{IsTracked};

use crate::board::Board;
use crate::classes::ClassNode;
use crate::driving::{KeptPins, drive_pins};
use crate::events::{Events, Frame, give_up, settle_listed};
use crate::gates::{Gate, clock_all, tick_all};
use crate::marks::{clear_tables, mark_tables};
use crate::past::{Past, forget, look_back};
use crate::ranks::Turn;
use crate::readings::read_pins;
use crate::sweeping::sweep;
use machine_faults::FaultSet;
use rig::PinBits;

/// Makes one tick. Whether a table gives something else now.
fn tick(frame: &Frame<'_, '_, '_>, low_tables: &mut [bool], gates: &mut [Gate]) -> bool
    requires fits { All (Fits (tables_of frame.now.faults.now.shape) (length frame.now.knots.now)) gates.old }
    requires pins { length frame.now.low_pins.now ≡ length frame.now.knots.now }
    requires tables { length low_tables.old ≡ length frame.now.knots.now }
    requires clear { IsClear low_tables.old }
    ensures fits { All (Fits (tables_of frame.now.faults.now.shape) (length frame.now.knots.now)) gates.new }
    ensures tables { length low_tables.new ≡ length frame.now.knots.now }
    ensures clear { IsClear low_tables.new }
    ensures tick { IsTick frame.now.faults.now.faults frame.now.knots.now frame.now.low_pins.now gates.old gates.new }
    ensures same { result ≡ false → gates.new ≡ gates.old }
{
    mark_tables(gates, low_tables);
    let changed = tick_all(frame.faults, frame.knots, frame.low_pins, low_tables, gates);
    clear_tables(gates, low_tables);
    changed
}

/// Makes so many ticks. After one that changes nothing all further ones are the same, and are left out.
fn tick_on(frame: &Frame<'_, '_, '_>, low_tables: &mut [bool], gates: &mut [Gate], ticks: u16)
    requires fits { All (Fits (tables_of frame.now.faults.now.shape) (length frame.now.knots.now)) gates.old }
    requires pins { length frame.now.low_pins.now ≡ length frame.now.knots.now }
    requires tables { length low_tables.old ≡ length frame.now.knots.now }
    requires clear { IsClear low_tables.old }
    ensures fits { All (Fits (tables_of frame.now.faults.now.shape) (length frame.now.knots.now)) gates.new }
    ensures tables { length low_tables.new ≡ length frame.now.knots.now }
    ensures clear { IsClear low_tables.new }
    ensures ticked { HaveTicked frame.now.faults.now.faults frame.now.knots.now frame.now.low_pins.now gates.old ticks gates.new }
{
    'ticks: for _n in 0..ticks {
        if !tick(frame, low_tables, gates) {
            return;
        }
    }
}

/// Makes so many ticks, or fewer that lead to the same: after one that changes nothing, and after those that lead back to
/// what the tables gave before, which would do so over and over.
fn tick_times(
    frame: &Frame<'_, '_, '_>,
    low_tables: &mut [bool],
    gates: &mut [Gate],
    past: &mut Past,
    ticks: u16,
)
    requires fits { All (Fits (tables_of frame.now.faults.now.shape) (length frame.now.knots.now)) gates.old }
    requires pins { length frame.now.low_pins.now ≡ length frame.now.knots.now }
    requires tables { length low_tables.old ≡ length frame.now.knots.now }
    requires clear { IsClear low_tables.old }
    ensures fits { All (Fits (tables_of frame.now.faults.now.shape) (length frame.now.knots.now)) gates.new }
    ensures tables { length low_tables.new ≡ length frame.now.knots.now }
    ensures clear { IsClear low_tables.new }
    ensures ticked { HaveTicked frame.now.faults.now.faults frame.now.knots.now frame.now.low_pins.now gates.old ticks gates.new }
{
    forget(past);
    'ticks: for n in 0..ticks {
        if !tick(frame, low_tables, gates) {
            return;
        }
        if let Some(left) = look_back(past, gates, n + 1, ticks) {
            tick_on(frame, low_tables, gates, left);
            return;
        }
    }
}

/// How a machine comes to rest.
#[derive(Clone, Copy)]
pub struct Manner<'a> {
    /// The tables in the order in which they are evaluated, where that is known.
    pub turns: &'a [Turn],
    /// Whether what the combinational tables gave before doesn't matter after the ticks.
    pub ranked: bool,
    pub ticks: u16,
}

/// Makes so many ticks. Where the readers are listed, each tick costs what changed, unless nearly everything does. Where
/// what the combinational tables gave before doesn't matter after the ticks, all that is left to do is to come to rest,
/// for which the tables are evaluated in their order first.
fn settle(
    frame: &Frame<'_, '_, '_>,
    manner: &Manner<'_>,
    low_tables: &mut [bool],
    gates: &mut [Gate],
    events: &mut Events,
    past: &mut Past,
)
    requires fits { All (Fits (tables_of frame.now.faults.now.shape) (length frame.now.knots.now)) gates.old }
    requires pins { length frame.now.low_pins.now ≡ length frame.now.knots.now }
    requires tables { length low_tables.old ≡ length frame.now.knots.now }
    requires clear { IsClear low_tables.old }
    requires pulls { length events.old.pulls.items ≡ length frame.now.knots.now }
    requires zero { AreZero events.old.pulls.items }
    requires events { events.old.listed ≡ true → AreEvents gates.old events.old }
    ensures fits { All (Fits (tables_of frame.now.faults.now.shape) (length frame.now.knots.now)) gates.new }
    ensures tables { length low_tables.new ≡ length frame.now.knots.now }
    ensures clear { IsClear low_tables.new }
    ensures pulls { length events.new.pulls.items ≡ length frame.now.knots.now }
    ensures zero { AreZero events.new.pulls.items }
    ensures events { events.new.listed ≡ true → AreEvents gates.new events.new }
    ensures ticked { (manner.now.ranked ≡ true → Settles gates.old manner.now.ticks) →
        HaveTicked frame.now.faults.now.faults frame.now.knots.now frame.now.low_pins.now gates.old manner.now.ticks gates.new }
{
    if events.listed {
        let busy = settle_listed(events, frame, low_tables, gates, past, manner.ticks);
        give_up(events, busy);
        return;
    }
    let ranked = manner.ranked;
    if !ranked {
        tick_times(frame, low_tables, gates, past, manner.ticks);
        return;
    }
    sweep(
        frame.faults,
        frame.knots,
        frame.low_pins,
        low_tables,
        gates,
        manner.turns,
    );
    tick_times(frame, low_tables, gates, past, manner.ticks);
}

/// Reads the pins, and makes the clock edge.
fn clock(
    frame: &Frame<'_, '_, '_>,
    low_tables: &mut [bool],
    gates: &mut [Gate],
    pins: &[u32],
    kept: &KeptPins,
    read: &mut PinBits,
)
    requires fits { All (Fits (tables_of frame.now.faults.now.shape) (length frame.now.knots.now)) gates.old }
    requires pins { length frame.now.low_pins.now ≡ length frame.now.knots.now }
    requires tables { length low_tables.old ≡ length frame.now.knots.now }
    requires clear { IsClear low_tables.old }
    requires tracked { IsTracked frame.now.knots.now pins.now frame.now.low_pins.now kept.now }
    requires read { length read.old ≡ length pins.now }
    ensures fits { All (Fits (tables_of frame.now.faults.now.shape) (length frame.now.knots.now)) gates.new }
    ensures tables { length low_tables.new ≡ length frame.now.knots.now }
    ensures clear { IsClear low_tables.new }
    ensures edge { IsEdge frame.now.faults.now.faults frame.now.knots.now frame.now.low_pins.now low_tables.old pins.now read.new gates.old
        gates.new }
{
    mark_tables(gates, low_tables);
    read_pins(frame, low_tables, gates, pins, kept, read);
    clock_all(frame.faults, frame.knots, frame.low_pins, low_tables, gates);
    clear_tables(gates, low_tables);
}

/// Makes a cycle of so many ticks. Its cost grows with the tables that are on, the pins that are driven otherwise than in
/// the cycle before, and what changes in the ticks. Where there are fewer than three ticks, each tick costs what is on.
pub fn cycle(board: &mut Board, faults: &FaultSet, ticks: u16, drive: &PinBits, read: &mut PinBits)
    requires prepared { IsPrepared faults.now.shape faults.now.faults board.old }
    requires fitting { AreFitting faults.now.shape board.old }
    requires drive { length drive.now ≡ length board.old.pins.items }
    requires read { length read.old ≡ length board.old.pins.items }
    ensures classes { board.new.classes ≡ board.old.classes }
    ensures prepared { IsPrepared faults.now.shape faults.now.faults board.new }
    ensures loaded { (g : Configuration) (before : Outputs) → g.shape ≡ faults.now.shape → g.ticks ≡ ticks →
        IsLoaded faults.now.faults g board.old → AreOutputs g board.old.gates.items before → IsLoaded faults.now.faults g board.new }
    ensures cycled { (g : Configuration) (before : Outputs) → g.shape ≡ faults.now.shape → g.ticks ≡ ticks →
        IsLoaded faults.now.faults g board.old → AreOutputs g board.old.gates.items before →
        GivesCycle faults.now.faults g before drive.now read.new board.new.gates.items }
    ensures length { length read.new ≡ length read.old }
{
    // The shape keeps its limits, so its wires can be numbered.
    let _shape = faults.shape();
    drive_pins(
        &mut board.kept,
        &board.pins,
        &board.classes.knots,
        &mut board.low_pins,
        drive,
    );
    settle(
        &Frame {
            faults,
            knots: &board.classes.knots,
            low_pins: &board.low_pins,
        },
        &Manner {
            turns: &board.turns,
            ranked: board.ranked,
            ticks,
        },
        &mut board.low_tables,
        &mut board.gates,
        &mut board.events,
        &mut board.past,
    );
    clock(
        &Frame {
            faults,
            knots: &board.classes.knots,
            low_pins: &board.low_pins,
        },
        &mut board.low_tables,
        &mut board.gates,
        &board.pins,
        &board.kept,
        read,
    );
}
