//! The test that a design is well made.

ghost use Rattle.std.specs.Prelude.{◌≡◌, ◌<◌, ◌≤◌, ◌+◌, ◌↔◌, ℕ, [], length, IsTrue, MatchOption, slice_index_or, sum_by};
ghost use Rattle.design_netlist.specs.Covers.{cover_at, IsCoverOver};
ghost use Rattle.design_netlist.specs.Drafts.{cover_characters, row_characters, IsWellMade};
ghost use Rattle.design_netlist.specs.Words.{AreWithin, AreBelow, AreLatchesBelow};

use crate::netlist_data::{Cover, Cube, LatchDef, NetlistData, PortDef};

const MOST_NAMES: usize = 65_535;

const MOST_OUTPUTS: usize = 16_777_216;

const MOST_CHARACTERS: usize = 16_777_216;

fn are_below(signals: &[u32], count: usize) -> bool
    ensures { IsTrue result ↔ AreBelow count signals.now }
{
    'signals: for k in 0..signals.len() {
        if signals[k] as usize >= count {
            return false;
        }
    }
    true
}

fn have_length(rows: &[Cube], len: usize) -> bool
    ensures { IsTrue result ↔ ((k : ℕ) → k < length rows.now → length (slice_index_or rows.now k []) ≡ len) }
{
    'rows: for k in 0..rows.len() {
        if rows[k].as_slice().len() != len {
            return false;
        }
    }
    true
}

fn is_cover_over(cover: &Cover, count: usize) -> bool
    ensures { IsTrue result ↔ IsCoverOver cover.now count }
{
    if cover.out as usize >= count {
        return false;
    }
    if !are_below(cover.ins.as_slice(), count) {
        return false;
    }
    have_length(cover.rows.as_slice(), cover.ins.as_slice().len())
}

fn are_covers_over(covers: &[Cover], count: usize) -> bool
    ensures { IsTrue result ↔ ((i : ℕ) → i < length covers.now → IsCoverOver (cover_at covers.now i) count) }
{
    'covers: for k in 0..covers.len() {
        if !is_cover_over(&covers[k], count) {
            return false;
        }
    }
    true
}

fn are_ports_below(ports: &[PortDef], count: usize) -> bool
    ensures { IsTrue result ↔ AreWithin count ports.now }
{
    'ports: for k in 0..ports.len() {
        if ports[k].signal as usize >= count {
            return false;
        }
    }
    true
}

fn are_latches_below(latches: &[LatchDef], count: usize) -> bool
    ensures { IsTrue result ↔ AreLatchesBelow count latches.now }
{
    'latches: for k in 0..latches.len() {
        if latches[k].out as usize >= count || latches[k].from as usize >= count {
            return false;
        }
    }
    true
}

/// What is left of a number of characters after those of the rows.
fn left_after(rows: &[Cube], most: usize) -> Option<usize>
    ensures { MatchOption result (most < sum_by row_characters rows.now) (λ left. left + sum_by row_characters rows.now ≡ most) }
{
    let mut left = most;
    'rows: for k in 0..rows.len() {
        let len = rows[k].as_slice().len();
        if len >= left {
            return None;
        }
        left -= len + 1;
    }
    Some(left)
}

fn have_few_characters(covers: &[Cover]) -> bool
    ensures { IsTrue result ↔ (sum_by cover_characters covers.now ≤ 16777216) }
{
    let mut left = MOST_CHARACTERS;
    'covers: for k in 0..covers.len() {
        match left_after(covers[k].rows.as_slice(), left) {
            Some(rest) => left = rest,
            None => return false,
        }
    }
    true
}

impl NetlistData {
    /// Whether signals are below the number of names, rows are as long as their cover's inputs, and there are at
    /// most 65,535 names, 16,777,216 outputs and 16,777,216 characters of rows, one for each output among them.
    pub fn is_well_made(&self) -> bool
        ensures { IsTrue result ↔ IsWellMade self.now }
    {
        let count = self.names.len();
        if count > MOST_NAMES || self.outputs.as_slice().len() > MOST_OUTPUTS {
            return false;
        }
        if !are_covers_over(self.covers.as_slice(), count) {
            return false;
        }
        if !are_ports_below(self.inputs.as_slice(), count) {
            return false;
        }
        if !are_ports_below(self.outputs.as_slice(), count) {
            return false;
        }
        if !are_latches_below(self.latches.as_slice(), count) {
            return false;
        }
        have_few_characters(self.covers.as_slice())
    }
}
