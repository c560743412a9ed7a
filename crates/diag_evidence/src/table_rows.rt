//! Tables, tested many at a time.
ghost use Rattle.std.specs.Prelude.{◌≡◌, ◌≤◌, ◌<◌, ◌+◌, ◌&&◌, ◌||◌, ℕ, not, Some, OnOk, OnErr, IsErrOf, length};
ghost use Rattle.base_bits.specs.Numbers.{has_number};
ghost use Rattle.base_io.specs.Counts.{Rose};
ghost use Rattle.machine_shape.specs.Shape.{pins_of, table_wire, tables_of};
ghost use Rattle.rig.specs.Rig.{ForEach, cycles_made, shape_of};
ghost use Rattle.diag_evidence.specs.Forests.{HangsOn, KnowsForest};
ghost use Rattle.diag_evidence.specs.Kept.{Advances, Gains};
ghost use Rattle.diag_evidence.specs.Readings.{WantsBefore};
ghost use Rattle.diag_evidence.specs.Sheets.{IsSheet, right_cells};
ghost use Rattle.diag_evidence.specs.TableRows.{AreTablesOn, HasTabled, MarksWrong, ShowsTabled, WrongIf, is_one_of, is_right_before};
ghost use Rattle.diag_evidence.specs.TableRows.{is_right_in, output_pin, right_parts, shown_in};

use crate::sheets::{CYCLES, Sheet, read_tables, sheet_of, table_at};
use crate::{Facts, Forest};
use base_bits::BitSet;
use machine_config::Setting;
use machine_shape::{Pin, Table};
use rig::{Rig, RigFail};

// The pin on which a table's output hangs.
fn output_of(forest: &Forest, t: Table) -> u32
    requires { t.0 < tables_of forest.now.shape }
    ensures pin { result ≡ output_pin forest.now t.0 }
    ensures within { (p : ℕ) → HangsOn forest.now (table_wire forest.now.shape t.0 6) p → result < pins_of forest.now.shape }
{
    forest.pin_of(forest.shape().pin_of(t, 6)).unwrap_or(0)
}

// What a table with a setting shows in a cycle that is right.
fn shown_in(setting: Setting, cycle: u32) -> bool
    requires { cycle < 65 }
    ensures { result ≡ shown_in setting cycle }
{
    if cycle == 0 {
        setting.init
    } else {
        (setting.cells >> (cycle - 1)) & 1 == 1
    }
}

// Whether a pin reads rightly in a cycle of both loads.
fn is_right_in(sheet: &Sheet, pin: u32, cycle: u32) -> bool
    requires sheet { IsSheet sheet.now.config.config.shape sheet.now }
    requires pin { pin < pins_of sheet.now.config.config.shape }
    requires cycle { cycle < 65 }
    ensures { result ≡ is_right_in sheet.now.setting sheet.now.reads.items sheet.now.opposite.items pin cycle }
{
    let read = sheet.reads[cycle as usize].get(Pin(pin));
    let other = sheet.opposite[cycle as usize].get(Pin(pin));
    if shown_in(sheet.setting, cycle) {
        read && !other
    } else {
        !read && other
    }
}

// Whether a pin reads rightly in all cycles of both loads.
fn is_right(sheet: &Sheet, pin: u32) -> bool
    requires sheet { IsSheet sheet.now.config.config.shape sheet.now }
    requires pin { pin < pins_of sheet.now.config.config.shape }
    ensures { result ≡ is_right_before sheet.now.setting sheet.now.reads.items sheet.now.opposite.items pin 65 }
{
    'cycles: for cycle in 0..CYCLES {
        if !is_right_in(sheet, pin, cycle) {
            return false;
        }
    }
    true
}

// Marks the tables that aren't right in each cycle.
fn mark_wrong(sheet: &Sheet, forest: &Forest, tables: &[Table], wrong: &mut BitSet)
    requires sheet { IsSheet sheet.now.config.config.shape sheet.now }
    requires shape { sheet.now.config.config.shape ≡ forest.now.shape }
    requires tables { AreTablesOn forest.now tables.now }
    requires wrong { length wrong.old ≡ tables_of forest.now.shape }
    ensures marks { (t : ℕ) → has_number wrong.new t ≡ ((is_one_of tables.now t &&
        not (is_right_before sheet.now.setting sheet.now.reads.items sheet.now.opposite.items (output_pin forest.now t) 65))
        || has_number wrong.old t) }
    ensures len { length wrong.new ≡ length wrong.old }
{
    'tables: for k in 0..tables.len() {
        let t = table_at(tables, k);
        if !is_right(sheet, output_of(forest, t)) {
            wrong.insert(t.0);
        }
    }
}

impl Facts {
    // Keeps the cells of a table in whose cycles a pin reads rightly.
    fn keep_cells(&mut self, sheet: &Sheet, t: Table, pin: u32)
        requires table { t.0 < tables_of self.old.shape }
        requires sheet { IsSheet sheet.now.config.config.shape sheet.now }
        requires pin { pin < pins_of sheet.now.config.config.shape }
        ensures { Gains (right_cells t.0 sheet.now.setting sheet.now.reads.items sheet.now.opposite.items pin 64) self.old self.new }
    {
        'cells: for address in 0..64_u8 {
            if is_right_in(sheet, pin, u32::from(address) + 1) {
                self.keep_cell(t, address);
            }
        }
    }

    // Keeps what is right of each table.
    fn keep_right(&mut self, sheet: &Sheet, forest: &Forest, tables: &[Table])
        requires sheet { IsSheet sheet.now.config.config.shape sheet.now }
        requires shape { sheet.now.config.config.shape ≡ forest.now.shape }
        requires attached { forest.now.shape ≡ self.old.shape }
        requires tables { AreTablesOn forest.now tables.now }
        ensures { Gains (right_parts forest.now tables.now sheet.now.setting sheet.now.reads.items sheet.now.opposite.items) self.old
            self.new }
    {
        'tables: for k in 0..tables.len() {
            let t = table_at(tables, k);
            let pin = output_of(forest, t);
            if is_right_in(sheet, pin, 0) {
                self.keep_register(t);
                self.keep_cells(sheet, t, pin);
            }
        }
    }

    /// Reads tables that hang in a forest through all addresses, in two loads of 65 cycles with all of them latched. Input j of each
    /// hangs on one pin, and each output on a pin of its own. In the second load each table has the other initial bit and the opposite
    /// cells. Its output is right in the first cycle where it reads the initial bit in both loads, and in cycle a + 1 where it reads
    /// cell a in both. A register is kept exactly where the output is right in the first cycle, and cell a exactly where it is right in
    /// the first cycle and in cycle a + 1. A table that isn't right in some cycle is marked: a cell of it is wrong, or its register is
    /// stuck. `wrong` has a mark for each table.
    ///
    /// # Errors
    ///
    /// `Failed` where the rig failed, and lack of memory. Then nothing is kept or marked.
    pub fn tables_each(
        &mut self,
        rig: &mut Box<dyn Rig>,
        forest: &Forest,
        tables: &[Table],
        wrong: &mut BitSet,
    ) -> Result<(), RigFail>
        requires attached { shape_of (rig_state rig.old) ≡ Some self.old.shape }
        requires forest { KnowsForest self.old forest.now }
        requires tables { AreTablesOn forest.now tables.now }
        requires wrong { length wrong.old ≡ tables_of self.old.shape }

        ensures tabled_each { OnOk result (ForEach (rig_state rig.new) (λ told. HasTabled told forest.now tables.now (rig_state rig.new)
            self.old self.new wrong.old wrong.new)) }
        ensures logged { OnOk result (ShowsTabled forest.now tables.now (rig_state rig.old) (rig_state rig.new) self.old self.new
            wrong.old wrong.new) }
        ensures newly_each { OnOk result (ForEach (rig_state rig.new) (λ told. MarksWrong told self.old wrong.old wrong.new)) }
        ensures wrong_each { ForEach (rig_state rig.new) (λ told. WrongIf told self.old wrong.old → WrongIf told self.new wrong.new) }
        ensures marks { length wrong.new ≡ length wrong.old }
        ensures refused { OnErr result (self.new ≡ self.old) }
        ensures unmarked { OnErr result (wrong.new ≡ wrong.old) }
        ensures advances { Advances (rig_state rig.old) (rig_state rig.new) self.old self.new }
        ensures loads { (rig_state rig.new).loads ≤ (rig_state rig.old).loads + 2 }
        ensures cycles { cycles_made (rig_state rig.new) ≤ cycles_made (rig_state rig.old) + 130 }
        ensures cause { IsErrOf result RigFail.Failed → Rose (rig_state rig.old).failures (rig_state rig.new).failures }
        ensures wanting { IsErrOf result RigFail.Memory → WantsBefore (rig_state rig.old) (rig_state rig.new) }
    {
        let Ok(mut sheet) = sheet_of(self.alloc, forest, tables) else {
            return Err(RigFail::Memory);
        };
        read_tables(rig, &mut sheet, tables)?;
        mark_wrong(&sheet, forest, tables, wrong);
        self.keep_right(&sheet, forest, tables);
        Ok(())
    }
}
