//! The tables evaluated one after the other.

ghost use Rattle.std.specs.Prelude.{◌≡◌, ◌<◌, true, length, All};
ghost use Rattle.machine_shape.specs.Shape.{tables_of};
ghost use Rattle.rig_simulated.specs.Gates.{Fits, IsClear};
ghost use Rattle.rig_simulated.specs.Settling.{IsLatched, AreTwins, AreAtOutputs};

use crate::classes::ClassNode;
use crate::gates::{Gate, ticked};
use crate::marks::clear_tables;
use crate::ranks::Turn;
use machine_faults::FaultSet;

/// Evaluates a table, and marks the class that it pulls.
fn take_turn(
    faults: &FaultSet,
    knots: &[ClassNode],
    low_pins: &[bool],
    low_tables: &mut [bool],
    gates: &mut [Gate],
    place: usize,
)
    requires place { place < length gates.old }
    requires fits { All (Fits (tables_of faults.now.shape) (length knots.now)) gates.old }
    requires pins { length low_pins.now ≡ length knots.now }
    requires tables { length low_tables.old ≡ length knots.now }
    requires marks { AreAtOutputs low_tables.old gates.old }
    ensures tables { length low_tables.new ≡ length knots.now }
    ensures marks { AreAtOutputs low_tables.new gates.new }
    ensures twins { AreTwins IsLatched gates.old gates.new }
{
    let gate = ticked(faults, knots, low_pins, low_tables, gates[place]);
    gates[place] = gate;
    if !gate.output {
        low_tables[gate.out as usize] = true;
    }
}

/// Evaluates the tables in their order, each with what those before it give. So they give in the end what they come to
/// give over the ticks. Which turns there are decides only how near.
pub fn sweep(
    faults: &FaultSet,
    knots: &[ClassNode],
    low_pins: &[bool],
    low_tables: &mut [bool],
    gates: &mut [Gate],
    turns: &[Turn],
)
    requires fits { All (Fits (tables_of faults.now.shape) (length knots.now)) gates.old }
    requires pins { length low_pins.now ≡ length knots.now }
    requires tables { length low_tables.old ≡ length knots.now }
    requires clear { IsClear low_tables.old }
    ensures fits { All (Fits (tables_of faults.now.shape) (length knots.now)) gates.new }
    ensures tables { length low_tables.new ≡ length knots.now }
    ensures clear { IsClear low_tables.new }
    ensures twins { AreTwins IsLatched gates.old gates.new }
{
    'turns: for i in 0..turns.len() {
        let place = turns[i].place;
        if place < gates.len() {
            take_turn(faults, knots, low_pins, low_tables, gates, place);
        }
    }
    clear_tables(gates, low_tables);
}
