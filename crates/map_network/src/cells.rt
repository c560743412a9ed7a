//! The cells of tables.

ghost use Rattle.std.specs.Prelude.{◌≡◌, ◌<◌, ◌≤◌, ℕ, [], true, length, map, slice_index_or, IfOk};
ghost use Rattle.design_netlist.specs.Covers.{fits, matches, some_matches, truth};
ghost use Rattle.map_network.specs.Rows.{cell_at};
ghost use Rattle.map_network.specs.Plain.{cells_where, flip, every, any, together, met, pin_named, six_bits};
ghost use Rattle.map_network.specs.Cells.{Give, masks_at};

use crate::want::{Gate, Want};
use design_netlist::{Cover, Cube, Lit, lane_word};
use std::alloc::{AllocError, Global};

/// The cells that give what the pin reads.
pub fn pin_mask(pin: usize) -> u64
    requires { pin < 6 }
    ensures { Give result (λ a. slice_index_or (six_bits a) pin true) }
{
    lane_word(pin)
}

/// The cells that give whether the mask is as wanted.
fn lit_mask(lit: Lit, mask: u64) -> u64
    ensures { Give result (λ a. fits lit (cell_at mask a)) }
{
    match lit {
        Lit::Zero => !mask,
        Lit::One => mask,
        Lit::Any => u64::MAX,
    }
}

fn flipped(off: bool, cells: u64) -> u64
    ensures { Give result (λ a. flip off (cell_at cells a)) }
{
    if off { !cells } else { cells }
}

/// The cells that give whether all wants are met, each by the pin of its place.
fn all_met(wants: &[Want]) -> u64
    requires { length wants.now ≤ 6 }
    ensures { Give result (λ a. every (met wants.now (six_bits a))) }
{
    let mut cells = u64::MAX;
    'wants: for k in 0..wants.len() {
        cells &= lit_mask(wants[k].lit, pin_mask(k));
    }
    cells
}

/// The cells that give whether some want is met.
fn some_met(wants: &[Want]) -> u64
    requires { length wants.now ≤ 6 }
    ensures { Give result (λ a. any (met wants.now (six_bits a))) }
{
    let mut cells = 0;
    'wants: for k in 0..wants.len() {
        cells |= lit_mask(wants[k].lit, pin_mask(k));
    }
    cells
}

/// The cells of a table of a tree.
pub fn gate_cells(gate: Gate, off: bool, wants: &[Want]) -> u64
    requires { length wants.now ≤ 6 }
    ensures { result ≡ cells_where (λ pins. flip off (together gate (met wants.now pins))) }
{
    match gate {
        Gate::All => flipped(off, all_met(wants)),
        Gate::Some => flipped(off, some_met(wants)),
    }
}

/// The cells that give what the pin of the name reads.
fn name_mask(names: &[u32], name: u32) -> u64
    requires { length names.now ≤ 6 }
    ensures { Give result (λ a. pin_named names.now (six_bits a) name) }
{
    'names: for k in 0..names.len() {
        if names[k] == name {
            return pin_mask(k);
        }
    }
    u64::MAX
}

/// For each input of a cover, the cells that give what its pin reads.
pub fn masks_of(alloc: Global, names: &[u32], ins: &[u32]) -> Result<Vec<u64>, AllocError>
    requires { length names.now ≤ 6 }
    ensures len { IfOk result (λ masks. length masks.items ≡ length ins.now) }
    ensures masks { IfOk result (λ masks. (a : ℕ) → a < 64 → masks_at masks.items a ≡ map (pin_named names.now (six_bits a)) ins.now) }
{
    let mut masks = Vec::with_capacity(alloc, ins.len())?;
    'ins: for k in 0..ins.len() {
        masks.push(name_mask(names, ins[k]))?;
    }
    Ok(masks)
}

/// The cells that give whether the row matches.
fn row_mask(row: &[Lit], masks: &[u64]) -> u64
    requires { length row.now ≡ length masks.now }
    ensures { Give result (λ a. matches row.now (masks_at masks.now a)) }
{
    let mut cells = u64::MAX;
    'places: for k in 0..row.len() {
        cells &= lit_mask(row[k], masks[k]);
    }
    cells
}

/// The cells that give whether some row matches.
fn rows_mask(rows: &[Cube], masks: &[u64]) -> u64
    requires { (k : ℕ) → k < length rows.now → length (slice_index_or rows.now k []) ≡ length masks.now }
    ensures { Give result (λ a. some_matches rows.now (masks_at masks.now a)) }
{
    let mut cells = 0;
    'rows: for k in 0..rows.len() {
        cells |= row_mask(rows[k].as_slice(), masks);
    }
    cells
}

/// The cells of the table of a cover whose different inputs have these names. A row costs its characters.
pub fn cover_cells(cover: &Cover, names: &[u32], masks: &[u64]) -> u64
    requires len { length masks.now ≡ length cover.now.ins }
    requires rows { (k : ℕ) → k < length cover.now.rows → length (slice_index_or cover.now.rows k []) ≡ length cover.now.ins }
    requires masks { (a : ℕ) → a < 64 → masks_at masks.now a ≡ map (pin_named names.now (six_bits a)) cover.now.ins }
    ensures { result ≡ cells_where (λ pins. truth (pin_named names.now pins) cover.now) }
{
    flipped(cover.off, rows_mask(cover.rows.as_slice(), masks))
}
