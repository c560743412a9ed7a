//! Evaluation of covers.

ghost use Rattle.std.specs.Prelude.{◌≡◌, ◌<◌, ℕ, [], length, slice_index_or, map};
ghost use Rattle.design_netlist.specs.Covers.{fits, matches, truth, cover_of};
ghost use Rattle.design_netlist.specs.Valuations.{bit_at};

use crate::netlist_data::{Cube, Lit};

fn fits(lit: Lit, bit: bool) -> bool
    ensures { result ≡ fits lit bit }
{
    match lit {
        Lit::Zero => !bit,
        Lit::One => bit,
        Lit::Any => true,
    }
}

/// Whether each literal of the row fits its input.
fn row_matches(row: &[Lit], ins: &[u32], values: &[bool]) -> bool
    requires len { length row.now ≡ length ins.now }
    requires within { (k : ℕ) → k < length ins.now → slice_index_or ins.now k 0 < length values.now }
    ensures { result ≡ matches row.now (map (bit_at values.now) ins.now) }
{
    'places: for k in 0..row.len() {
        if !fits(row[k], values[ins[k] as usize]) {
            return false;
        }
    }
    true
}

/// The truth of a cover of these rows over these signals, whose bits are given. Takes no memory.
pub fn truth_of(rows: &[Cube], off: bool, ins: &[u32], values: &[bool]) -> bool
    requires within { (k : ℕ) → k < length ins.now → slice_index_or ins.now k 0 < length values.now }
    requires rows { (k : ℕ) → k < length rows.now → length (slice_index_or rows.now k []) ≡ length ins.now }
    ensures { result ≡ truth (bit_at values.now) (cover_of rows.now off ins.now) }
{
    'rows: for k in 0..rows.len() {
        if row_matches(rows[k].as_slice(), ins, values) {
            return !off;
        }
    }
    off
}
