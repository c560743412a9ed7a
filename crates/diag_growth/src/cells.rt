//! The tests of a table's cells and of its register.
ghost use Rattle.std.specs.Prelude.{◌≡◌, ◌≤◌, ◌<◌, ◌+◌, All, Some, true, IfOk, OnOk, IsErrOf, length};
ghost use Rattle.base_io.specs.Counts.{Rose};
ghost use Rattle.machine_shape.specs.Shape.{crosses_of, pins_of};
ghost use Rattle.machine_config.specs.Tests.{IsDrivenAlone};
ghost use Rattle.rig.specs.Rig.{ForEach, shape_of};
ghost use Rattle.diag_tests.specs.Routes.{cross_numbers};
ghost use Rattle.diag_evidence.specs.Kept.{Advances};
ghost use Rattle.diag_growth.specs.Seats.{AddsOnlyTableFacts, IsSeat, TableIf};
ghost use Rattle.diag_growth.specs.Ties.{CellIf, CellsIf, IsSeatConfig, RegisterIf};

use crate::Seat;
use crate::ties::{set_output, set_ties};
use diag_evidence::Facts;
use diag_evidence::laws::table_tests_by_lists_pass;
use machine_config::{Config, Setting};
use machine_shape::Cross;
use rig::{PinBits, Rig, RigFail};
use std::alloc::Global;

// Closes the crosspoints of both routes and the ties, with the table on whose cells are 0.
fn config_of(facts: &mut Facts, seat: &Seat, ties: &[Cross]) -> Result<Config, RigFail>
    requires seat { IsSeat facts.old seat.now }
    requires ties { All (λ c. c.0 < crosses_of facts.old.shape) ties.now }
    ensures laid { IfOk result (λ g. IsSeatConfig facts.old.shape seat.now (cross_numbers ties.now) g.config) }
    ensures same { facts.new ≡ facts.old }
    ensures memory { result ≡ Err RigFail.Failed → ⊥ }
{
    match facts.cell_config(&seat.near, &seat.far, ties, seat.table, 0) {
        Ok(config) => Ok(config),
        Err(_) => Err(RigFail::Memory),
    }
}

// Drives the near pin to 0, and no other.
fn drive_near(facts: &mut Facts, seat: &Seat) -> Result<PinBits, RigFail>
    requires { IsSeat facts.old seat.now }
    ensures alone { IfOk result (λ drive. IsDrivenAlone drive seat.now.near.pin) }
    ensures length { IfOk result (λ drive. length drive ≡ pins_of facts.old.shape) }
    ensures same { facts.new ≡ facts.old }
    ensures memory { result ≡ Err RigFail.Failed → ⊥ }
{
    match facts.driven(seat.near.pin()) {
        Ok(drive) => Ok(drive),
        Err(_) => Err(RigFail::Memory),
    }
}

// Toggles a cell.
fn test_cell(
    rig: &mut Box<dyn Rig>,
    facts: &mut Facts,
    seat: &Seat,
    ties: &mut Vec<Cross>,
    address: u8,
) -> Result<(), RigFail>
    requires attached { shape_of (rig_state rig.old) ≡ Some facts.old.shape }
    requires seat { IsSeat facts.old seat.now }
    requires address { address < 64 }

    ensures cell_each { OnOk result (ForEach (rig_state rig.new) (λ told. CellIf told facts.old facts.new seat.now.table.0 address)) }
    ensures advances { Advances (rig_state rig.old) (rig_state rig.new) facts.old facts.new }
    ensures only { AddsOnlyTableFacts facts.old facts.new }
    ensures loads { (rig_state rig.new).loads ≤ (rig_state rig.old).loads + 2 }
    ensures cause { IsErrOf result RigFail.Failed → Rose (rig_state rig.old).failures (rig_state rig.new).failures }
{
    table_tests_by_lists_pass();
    let Ok(()) = set_ties(ties, seat, u32::from(address)) else {
        return Err(RigFail::Memory);
    };
    let mut config = config_of(facts, seat, ties)?;
    let drive = drive_near(facts, seat)?;
    let answer = facts.toggle_cell(
        rig,
        &mut config,
        seat.table,
        address,
        &drive,
        seat.far.pin(),
    );
    facts.give_back(config);
    facts.give_back_drive(drive);
    match answer {
        Ok(_) => Ok(()),
        Err(fail) => Err(fail),
    }
}

// Toggles each cell.
fn test_cells(
    rig: &mut Box<dyn Rig>,
    facts: &mut Facts,
    seat: &Seat,
    ties: &mut Vec<Cross>,
) -> Result<(), RigFail>
    requires attached { shape_of (rig_state rig.old) ≡ Some facts.old.shape }
    requires seat { IsSeat facts.old seat.now }

    ensures cells_each { OnOk result (ForEach (rig_state rig.new) (λ told. CellsIf told facts.old facts.new seat.now.table.0 64)) }
    ensures advances { Advances (rig_state rig.old) (rig_state rig.new) facts.old facts.new }
    ensures only { AddsOnlyTableFacts facts.old facts.new }
    ensures loads { (rig_state rig.new).loads ≤ (rig_state rig.old).loads + 128 }
    ensures cause { IsErrOf result RigFail.Failed → Rose (rig_state rig.old).failures (rig_state rig.new).failures }
{
    'cells: for address in 0..64 {
        test_cell(rig, facts, seat, ties, address)?;
    }
    Ok(())
}

// Toggles the register.
fn test_register(
    rig: &mut Box<dyn Rig>,
    facts: &mut Facts,
    seat: &Seat,
    ties: &mut Vec<Cross>,
) -> Result<(), RigFail>
    requires attached { shape_of (rig_state rig.old) ≡ Some facts.old.shape }
    requires seat { IsSeat facts.old seat.now }

    ensures register_each { OnOk result (ForEach (rig_state rig.new) (λ told. RegisterIf told facts.old facts.new seat.now.table.0)) }
    ensures advances { Advances (rig_state rig.old) (rig_state rig.new) facts.old facts.new }
    ensures only { AddsOnlyTableFacts facts.old facts.new }
    ensures loads { (rig_state rig.new).loads ≤ (rig_state rig.old).loads + 2 }
    ensures cause { IsErrOf result RigFail.Failed → Rose (rig_state rig.old).failures (rig_state rig.new).failures }
{
    table_tests_by_lists_pass();
    let Ok(()) = set_output(ties, seat) else {
        return Err(RigFail::Memory);
    };
    let mut config = config_of(facts, seat, ties)?;
    let drive = drive_near(facts, seat)?;
    let setting = Setting {
        cells: 0,
        latched: true,
        init: false,
    };
    config.switch_on(seat.table, setting);
    let answer = facts.toggle_register(rig, &mut config, seat.table, &drive, seat.far.pin());
    facts.give_back(config);
    facts.give_back_drive(drive);
    match answer {
        Ok(_) => Ok(()),
        Err(fail) => Err(fail),
    }
}

/// Tests the 64 cells and the register of a table. For each set of faults that explains the log then, and of which what was kept
/// is true, all of them are kept after an Ok, if no cell is wrong and the register isn't stuck. At every end no other facts are
/// new, and at most 130 loads were made.
///
/// # Errors
///
/// `Failed` where a call of the rig failed, `Memory` where memory was lacking.
pub fn test_table(
    alloc: Global,
    rig: &mut Box<dyn Rig>,
    facts: &mut Facts,
    seat: &Seat,
) -> Result<(), RigFail>
    requires attached { shape_of (rig_state rig.old) ≡ Some facts.old.shape }
    requires seat { IsSeat facts.old seat.now }

    ensures table_each { OnOk result (ForEach (rig_state rig.new) (λ told. TableIf told facts.old facts.new seat.now.table.0)) }
    ensures advances { Advances (rig_state rig.old) (rig_state rig.new) facts.old facts.new }
    ensures only { AddsOnlyTableFacts facts.old facts.new }
    ensures loads { (rig_state rig.new).loads ≤ (rig_state rig.old).loads + 130 }
    ensures cause { IsErrOf result RigFail.Failed → Rose (rig_state rig.old).failures (rig_state rig.new).failures }
{
    let mut ties = Vec::new(alloc);
    test_cells(rig, facts, seat, &mut ties)?;
    test_register(rig, facts, seat, &mut ties)
}
