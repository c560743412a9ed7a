//! Whether an image's parts are kept.
ghost use Rattle.std.specs.Prelude.{◌≡◌, ◌<◌, ◌↔◌, ℕ, All, IsTrue, true, length};
ghost use Rattle.base_bits.specs.Numbers.{has_number};
ghost use Rattle.machine_shape.specs.Shape.{wires_of, crosses_of, tables_of};
ghost use Rattle.machine_image.specs.Images.{IsImage};
ghost use Rattle.diag_evidence.specs.Kept.{is_apart, keeps_cell, keeps_cross, keeps_wire};
ghost use Rattle.diag_known.specs.Known.{HasWire, IsKnown};
ghost use Rattle.diag_check.specs.Looks.{AreRoutesKnown, KeepsTableOf};
ghost use Rattle.diag_check.specs.Soundly.{KeepsRoutesInSet, KeepsTables};
ghost use Rattle.diag_check.specs.Used.{AreUsed};

use base_bits::BitSet;
use diag_evidence::Facts;
use diag_growth::Known;
use machine_image::Image;
use machine_shape::{Cross, Table, Wire};

// Whether a wire is kept and known.
fn has_wire(facts: &Facts, known: &Known, w: Wire) -> bool
    requires kept { w.0 < wires_of facts.now.shape }
    requires known { w.0 < wires_of known.now.shape }
    ensures { IsTrue result ↔ ((keeps_wire facts.now w.0 ≡ true) × HasWire known.now.steps w.0) }
{
    if !facts.keeps_wire(w) {
        return false;
    }
    known.has(w)
}

// Whether all of these wires are kept and known.
fn has_each(facts: &Facts, known: &Known, used: &BitSet) -> bool
    requires kept { length used.now ≡ wires_of facts.now.shape }
    requires known { length used.now ≡ wires_of known.now.shape }
    ensures { IsTrue result ↔ ((w : ℕ) → has_number used.now w ≡ true → (keeps_wire facts.now w ≡ true) × HasWire known.now.steps w) }
{
    'wires: for w in 0..used.len() {
        if !used.has(w) {
            continue;
        }
        if !has_wire(facts, known, Wire(w)) {
            return false;
        }
    }
    true
}

// The same. Known wires are of the set, which no look at the wires one by one shows.
fn has_wires(facts: &Facts, known: &Known, used: &BitSet) -> bool
    requires known { IsKnown facts.now known.now }
    requires used { length used.now ≡ wires_of facts.now.shape }
    ensures wires { IsTrue result → (w : ℕ) → has_number used.now w ≡ true → keeps_wire facts.now w ≡ true }
    ensures apart { IsTrue result → (w : ℕ) → has_number used.now w ≡ true → is_apart facts.now w ≡ true }
    ensures all { ((w : ℕ) → has_number used.now w ≡ true → (keeps_wire facts.now w ≡ true) × HasWire known.now.steps w) →
        IsTrue result }
{
    has_each(facts, known, used)
}

// Whether all of these crosspoints are kept.
fn keeps_crosses(facts: &Facts, crosses: &[Cross]) -> bool
    requires { All (λ x. x.0 < crosses_of facts.now.shape) crosses.now }
    ensures { IsTrue result ↔ All (λ x. keeps_cross facts.now x.0 ≡ true) crosses.now }
{
    'crosses: for j in 0..crosses.len() {
        if !facts.keeps_cross(crosses[j]) {
            return false;
        }
    }
    true
}

/// Whether an image's used wires are known and its closed crosspoints are kept.
pub(crate) fn keeps_routes(facts: &Facts, known: &Known, image: &Image, used: &BitSet) -> bool
    requires shape { image.now.config.shape ≡ facts.now.shape }
    requires known { IsKnown facts.now known.now }
    requires used { AreUsed image.now used.now }
    ensures keeps { IsTrue result → KeepsRoutesInSet facts.now image.now }
    ensures all { AreRoutesKnown facts.now known.now.steps image.now → IsTrue result }
    ensures right { IsImage image.now }
{
    let config = image.config();
    if !has_wires(facts, known, used) {
        return false;
    }
    keeps_crosses(facts, config.closed())
}

// Whether all cells of a table are kept.
fn keeps_cells(facts: &Facts, table: Table) -> bool
    requires { table.0 < tables_of facts.now.shape }
    ensures { IsTrue result ↔ ((a : ℕ) → a < 64 → keeps_cell facts.now table.0 a ≡ true) }
{
    'cells: for address in 0..64 {
        if !facts.keeps_cell(table, address) {
            return false;
        }
    }
    true
}

// Whether what the image needs of a table is kept. The register of a table that isn't latched has no effect.
fn keeps_table(facts: &Facts, image: &Image, table: Table) -> bool
    requires shape { image.now.config.shape ≡ facts.now.shape }
    requires table { table.0 < tables_of facts.now.shape }
    ensures { IsTrue result ↔ KeepsTableOf facts.now image.now table.0 }
{
    if !keeps_cells(facts, table) {
        return false;
    }
    let Some(setting) = image.config().setting(table) else {
        return true;
    };
    if !setting.latched {
        return true;
    }
    facts.keeps_register(table)
}

// Whether what the image needs of these tables is kept.
fn keeps_each(facts: &Facts, image: &Image, tables: &[Table]) -> bool
    requires shape { image.now.config.shape ≡ facts.now.shape }
    requires tables { All (λ t. t.0 < tables_of facts.now.shape) tables.now }
    ensures { IsTrue result ↔ All (λ t. KeepsTableOf facts.now image.now t.0) tables.now }
{
    'tables: for j in 0..tables.len() {
        if !keeps_table(facts, image, tables[j]) {
            return false;
        }
    }
    true
}

/// Whether what an image needs of its switched-on tables is kept.
pub(crate) fn keeps_tables(facts: &Facts, image: &Image) -> bool
    requires shape { image.now.config.shape ≡ facts.now.shape }
    ensures { IsTrue result ↔ KeepsTables facts.now image.now }
{
    let config = image.config();
    keeps_each(facts, image, config.tables_on())
}
