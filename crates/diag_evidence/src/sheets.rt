//! What a test of many tables needs, and its two loads.
ghost use Rattle.std.specs.Prelude.{◌≤◌, ◌+◌, ◌≡◌, ◌==◌, ◌<◌, Some, None, OnOk, IfOk, IsErrOf, All, length, slice_get};
ghost use Rattle.std.specs.Int.{bit_at};
ghost use Rattle.machine_shape.specs.Shape.{pins_of, tables_of};
ghost use Rattle.diag_evidence.specs.Kept.{FewCycles};
ghost use Rattle.rig.specs.Rig.{ForEach, cycles_made, shape_of};
ghost use Rattle.diag_evidence.specs.Logged.{LogsRows};
ghost use Rattle.diag_evidence.specs.Looks.{ReadsEach};
ghost use Rattle.diag_evidence.specs.Readings.{HasCycled, LoadsUpTo};
ghost use Rattle.diag_evidence.specs.Sheets.{AreTableDrives, HasAddress, HasInputs, HaveWidth, IsReadTwice, IsReadyFor};
ghost use Rattle.diag_evidence.specs.Sheets.{IsSheet, LogsSheet, SwitchesOn};
ghost use Rattle.diag_evidence.specs.TableRows.{AreOpposite, AreTablesOn, IsTableConfig};

use crate::Forest;
use crate::readings::read_rows;
use diag_tests::close_all;
use machine_config::{Config, Setting};
use machine_shape::{Pin, Table};
use rig::{PinBits, Rig, RigFail};
use std::alloc::{AllocError, Global};

/// A cell is 1 where its address has an odd number of ones: so a wrong bit of an address shows.
const CELLS: u64 = 0x6996_9669_9669_6996;

// How many cells a table has.
const ADDRESSES: u32 = 64;

/// How many cycles a load has: one for each cell, and one in which the last is read.
pub(crate) const CYCLES: u32 = 65;

/// What the loads of a test need: all of it is made before the first one, so that no session ends for lack of memory.
#[derive(Drop)]
pub(crate) struct Sheet {
    // What the tables are set to in the first load.
    pub setting: Setting,
    pub config: Config,
    pub drives: Vec<PinBits>,
    pub reads: Vec<PinBits>,
    // What is read in the second load.
    pub opposite: Vec<PinBits>,
}

/// A table at a place.
pub(crate) fn table_at(tables: &[Table], place: usize) -> Table
    requires { place < length tables.now }
    ensures { slice_get tables.now place ≡ Some result }
{
    tables[place]
}

// Gives tables a setting.
fn switch_all(config: &mut Config, tables: &[Table], setting: Setting)
    requires { All (λ t. t.0 < tables_of config.old.config.shape) tables.now }
    ensures { SwitchesOn tables.now setting config.old.config config.new.config }
{
    let _shape = config.shape();
    'tables: for k in 0..tables.len() {
        config.switch_on(table_at(tables, k), setting);
    }
}

// The opposite setting.
fn opposite_of(setting: Setting) -> Setting
    ensures { AreOpposite setting result }
{
    Setting {
        cells: setting.cells ^ u64::MAX,
        latched: setting.latched,
        init: !setting.init,
    }
}

// A bit of an address.
fn bit_of(address: u32, j: u32) -> bool
    requires { j < 6 }
    ensures { result ≡ (bit_at address j == 1) }
{
    (address >> j) & 1 == 1
}

// Puts the bits of an address to the pins of a table's inputs, where nothing is driven.
fn set_address(drive: &mut PinBits, forest: &Forest, t: Table, address: u32)
    requires inputs { HasInputs forest.now t.0 }
    requires drive { length drive.old ≡ pins_of forest.now.shape }
    requires released { HasAddress forest.now t.0 address 0 drive.old }
    ensures address { HasAddress forest.now t.0 address 6 drive.new }
    ensures length { length drive.new ≡ length drive.old }
{
    let shape = forest.shape();
    'inputs: for j in 0..6 {
        if let Some(pin) = forest.pin_of(shape.pin_of(t, j)) {
            drive.set(Pin(pin), bit_of(address, j));
        }
    }
}

// A drive for an address.
fn address_drive(
    alloc: Global,
    forest: &Forest,
    t: Table,
    address: u32,
) -> Result<PinBits, AllocError>
    requires { HasInputs forest.now t.0 }
    ensures address { IfOk result (HasAddress forest.now t.0 address 6) }
    ensures length { IfOk result (λ drive. length drive ≡ pins_of forest.now.shape) }
{
    let mut drive = PinBits::new(alloc, forest.shape().pins())?;
    set_address(&mut drive, forest, t, address);
    Ok(drive)
}

// The drives that lead through all addresses of a table, and one that releases all pins.
fn table_drives(alloc: Global, forest: &Forest, t: Table) -> Result<Vec<PinBits>, AllocError>
    requires { HasInputs forest.now t.0 }
    ensures drives { IfOk result (λ drives. AreTableDrives forest.now t.0 drives.items) }
    ensures width { IfOk result (λ drives. HaveWidth (pins_of forest.now.shape) drives.items) }
{
    let mut drives = Vec::new(alloc);
    'addresses: for address in 0..ADDRESSES {
        let drive = address_drive(alloc, forest, t, address)?;
        drives.push(drive)?;
    }
    let last = PinBits::new(alloc, forest.shape().pins())?;
    drives.push(last)?;
    Ok(drives)
}

// Rows for the readings of all cycles of a load.
fn blank_rows(alloc: Global, pins: u32) -> Result<Vec<PinBits>, AllocError>
    ensures count { IfOk result (λ rows. length rows.items ≡ 65) }
    ensures width { IfOk result (λ rows. HaveWidth pins rows.items) }
{
    let mut rows = Vec::new(alloc);
    'rows: for _k in 0..CYCLES {
        let row = PinBits::new(alloc, pins)?;
        rows.push(row)?;
    }
    Ok(rows)
}

// The configuration of the first load.
fn table_config(
    alloc: Global,
    forest: &Forest,
    tables: &[Table],
    setting: Setting,
) -> Result<Config, AllocError>
    requires { AreTablesOn forest.now tables.now }
    ensures { IfOk result (λ g. IsTableConfig forest.now tables.now setting g.config) }
{
    let mut config = Config::with_room(alloc, forest.shape(), 0)?;
    close_all(&mut config, forest.crosses())?;
    switch_all(&mut config, tables, setting);
    Ok(config)
}

/// What a test of these tables needs.
pub(crate) fn sheet_of(
    alloc: Global,
    forest: &Forest,
    tables: &[Table],
) -> Result<Sheet, AllocError>
    requires { AreTablesOn forest.now tables.now }
    ensures { IfOk result (IsReadyFor forest.now tables.now) }
{
    let setting = Setting {
        cells: CELLS,
        latched: true,
        init: false,
    };
    let pins = forest.shape().pins();
    let config = table_config(alloc, forest, tables, setting)?;
    let drives = table_drives(alloc, forest, table_at(tables, 0))?;
    let reads = blank_rows(alloc, pins)?;
    let opposite = blank_rows(alloc, pins)?;
    Ok(Sheet {
        setting,
        config,
        drives,
        reads,
        opposite,
    })
}

// Makes a load and its cycles.
fn read_load(
    rig: &mut Box<dyn Rig>,
    config: &Config,
    drives: &[PinBits],
    reads: &mut [PinBits],
) -> Result<(), RigFail>
    requires attached { shape_of (rig_state rig.old) ≡ Some config.now.config.shape }
    requires many { length drives.now ≡ 65 }
    requires drives { HaveWidth (pins_of config.now.config.shape) drives.now }
    requires reads { HaveWidth (pins_of config.now.config.shape) reads.old }
    requires as_many { length reads.old ≡ 65 }
    ensures loads { LoadsUpTo 1 result (rig_state rig.old) (rig_state rig.new) }
    ensures few { FewCycles (rig_state rig.old) (rig_state rig.new) }
    ensures made { cycles_made (rig_state rig.new) ≤ cycles_made (rig_state rig.old) + 65 }
    ensures wanting { IsErrOf result RigFail.Memory → (rig_state rig.new).session ≡ None }
    ensures width { HaveWidth (pins_of config.now.config.shape) reads.new }
    ensures as_many { length reads.new ≡ 65 }
    ensures session { OnOk result (HasCycled config.now.config drives.now (rig_state rig.new)) }
    ensures run_each { OnOk result (ForEach (rig_state rig.new) (λ told. ReadsEach told config.now.config drives.now reads.new)) }
    ensures logged { OnOk result (LogsRows config.now.config drives.now reads.new (rig_state rig.old) (rig_state rig.new)) }
{
    read_rows(rig, config, drives, reads, CYCLES)
}

/// Makes both loads of a test. Between them the tables get the opposite setting.
pub(crate) fn read_tables(
    rig: &mut Box<dyn Rig>,
    sheet: &mut Sheet,
    tables: &[Table],
) -> Result<(), RigFail>
    requires attached { shape_of (rig_state rig.old) ≡ Some sheet.old.config.config.shape }
    requires sheet { IsSheet sheet.old.config.config.shape sheet.old }
    requires tables { All (λ t. t.0 < tables_of sheet.old.config.config.shape) tables.now }
    ensures loads { LoadsUpTo 2 result (rig_state rig.old) (rig_state rig.new) }
    ensures few { FewCycles (rig_state rig.old) (rig_state rig.new) }
    ensures made { cycles_made (rig_state rig.new) ≤ cycles_made (rig_state rig.old) + 130 }
    ensures wanting { IsErrOf result RigFail.Memory → (rig_state rig.new).session ≡ None }
    ensures whole { OnOk result (IsSheet sheet.old.config.config.shape sheet.new) }
    ensures logged { OnOk result (LogsSheet tables.now sheet.old sheet.new (rig_state rig.old) (rig_state rig.new)) }
    ensures read_each { OnOk result (ForEach (rig_state rig.new) (λ told. IsReadTwice told tables.now sheet.old sheet.new (rig_state
        rig.new))) }
{
    read_load(rig, &sheet.config, &sheet.drives, &mut sheet.reads)?;
    switch_all(&mut sheet.config, tables, opposite_of(sheet.setting));
    read_load(rig, &sheet.config, &sheet.drives, &mut sheet.opposite)
}
