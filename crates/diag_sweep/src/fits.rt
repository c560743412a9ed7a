//! Whether tables may be tested together on a forest.
ghost use Rattle.std.specs.Prelude.{◌≡◌, ◌<◌, ◌++◌, ◌∷◌, [], ℕ, true, Some, All, IfOk, IsTrue, length, slice_get};
ghost use Rattle.machine_shape.specs.Shape.{pins_of, tables_of};
ghost use Rattle.diag_evidence.specs.Vocabulary.{KeepsForest, AreTablesOn, output_pin};
ghost use Rattle.diag_sweep.specs.Marks.{HasTable};
ghost use Rattle.diag_sweep.specs.Sheets.{AreOn, InputsOn, OutputOn};
ghost use Rattle.diag_sweep.specs.Sights.{SeesMore};

use crate::seen::{is_new, see_all};
use crate::trees::lay_links;
use base_bits::BitSet;
use diag_evidence::{Facts, Forest};
use diag_search::Link;
use machine_shape::Table;
use std::alloc::{AllocError, Global};

/// The forest of a load of tables: what is held, and the pins of the tables over further links.
pub(crate) fn table_forest(
    alloc: Global,
    facts: &Facts,
    held: &Forest,
    links: &Vec<Link>,
) -> Result<Forest, AllocError>
    requires { KeepsForest facts.now held.now }
    ensures { IfOk result (KeepsForest facts.now) }
{
    let mut forest = held.copied(alloc)?;
    lay_links(&mut forest, facts, links, 0)?;
    Ok(forest)
}

// The pins on which the inputs of a table hang.
fn inputs_of(alloc: Global, forest: &Forest, t: Table) -> Result<Vec<u32>, AllocError>
    requires { t.0 < tables_of forest.now.shape }
{
    let shape = forest.shape();
    let mut pins = Vec::new(alloc);
    'inputs: for j in 0..6 {
        pins.push(forest.pin_of(shape.pin_of(t, j)).unwrap_or(0))?;
    }
    Ok(pins)
}

// Whether the inputs of a table hang on these pins.
fn has_inputs(forest: &Forest, ins: &[u32], t: Table) -> bool
    requires table { t.0 < tables_of forest.now.shape }
    requires six { length ins.now ≡ 6 }
    ensures { IsTrue result → InputsOn forest.now ins.now t }
{
    let shape = forest.shape();
    'inputs: for j in 0..6 {
        if forest.pin_of(shape.pin_of(t, j)) != Some(ins[j as usize]) {
            return false;
        }
    }
    true
}

// Whether a table may be tested beside those whose outputs were seen.
fn is_on(forest: &Forest, ins: &[u32], seen: &mut BitSet, t: Table) -> bool
    requires six { length ins.now ≡ 6 }
    requires seen { length seen.old ≡ pins_of forest.now.shape }
    ensures len { length seen.new ≡ length seen.old }
    ensures within { IsTrue result → t.0 < tables_of forest.now.shape }
    ensures inputs { IsTrue result → InputsOn forest.now ins.now t }
    ensures output { IsTrue result → OutputOn forest.now t }
    ensures sees { IsTrue result → SeesMore seen.old seen.new (output_pin forest.now t.0 ∷ []) }
{
    let shape = forest.shape();
    if t.0 >= shape.tables() {
        return false;
    }
    if !has_inputs(forest, ins, t) {
        return false;
    }
    let Some(output) = forest.pin_of(shape.pin_of(t, 6)) else {
        return false;
    };
    is_new(seen, output)
}

// A table at a place.
fn table_at(tables: &[Table], place: usize) -> Table
    requires { place < length tables.now }
    ensures { slice_get tables.now place ≡ Some result }
{
    tables[place]
}

// Whether tables may be tested together, over inputs on these pins.
fn are_on(forest: &Forest, ins: &[u32], seen: &mut BitSet, tables: &[Table]) -> bool
    requires six { length ins.now ≡ 6 }
    requires seen { length seen.old ≡ pins_of forest.now.shape }
    ensures { IsTrue result → AreOn forest.now ins.now tables.now }
{
    if !see_all(seen, ins) {
        return false;
    }
    'tables: for k in 0..tables.len() {
        if !is_on(forest, ins, seen, table_at(tables, k)) {
            return false;
        }
    }
    true
}

/// Whether tables may be tested together on a forest.
pub(crate) fn are_fit(
    alloc: Global,
    forest: &Forest,
    seen: &mut BitSet,
    tables: &[Table],
) -> Result<bool, AllocError>
    requires seen { length seen.old ≡ pins_of forest.now.shape }
    ensures { IfOk result (λ yes. IsTrue yes → AreTablesOn forest.now tables.now) }
{
    if tables.is_empty() {
        return Ok(false);
    }
    let first = table_at(tables, 0);
    if first.0 >= forest.shape().tables() {
        return Ok(false);
    }
    let ins = inputs_of(alloc, forest, first)?;
    if ins.len() != 6 {
        return Ok(false);
    }
    Ok(are_on(forest, &ins, seen, tables))
}

// Whether a table is one of these.
fn has_table(tables: &[Table], t: Table) -> bool
    ensures { IsTrue result → HasTable tables.now t.0 }
{
    'tables: for k in 0..tables.len() {
        if table_at(tables, k) == t {
            return true;
        }
    }
    false
}

/// Whether the tables of a load are of the given ones.
pub(crate) fn are_given(given: &[Table], tables: &[Table]) -> bool
    ensures { IsTrue result → All (λ t. HasTable given.now t.0) tables.now }
{
    'tables: for k in 0..tables.len() {
        if !has_table(given, table_at(tables, k)) {
            return false;
        }
    }
    true
}
