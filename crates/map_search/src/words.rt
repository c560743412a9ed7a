//! Functions of at most six inputs as words of 64 cells: bit a is what the function gives at address a.

use base_table::TABLE_INPUTS;
use design_netlist::{Cover, Lit, lane_word};
use std::alloc::{AllocError, Global};

/// The cells at whose addresses a pin is 1: all for one that no table has.
pub fn pin(k: usize) -> u64 {
    if k < TABLE_INPUTS {
        lane_word(k)
    } else {
        u64::MAX
    }
}

// How far the addresses lie apart that differ in this pin.
fn width(k: usize) -> u32 {
    1u32.wrapping_shl((k & 7) as u32)
}

/// The function as it is where the pin is 0.
pub fn where_zero(cells: u64, k: usize) -> u64 {
    let low = cells & !pin(k);
    low | low.wrapping_shl(width(k))
}

/// The function as it is where the pin is 1.
pub fn where_one(cells: u64, k: usize) -> u64 {
    let high = cells & pin(k);
    high | high.wrapping_shr(width(k))
}

/// The function of the negated pin.
pub fn flip_pin(cells: u64, k: usize) -> u64 {
    let high = (cells & pin(k)).wrapping_shr(width(k));
    let low = (cells & !pin(k)).wrapping_shl(width(k));
    high | low
}

/// Whether the function doesn't depend on the pin.
pub fn is_idle(cells: u64, k: usize) -> bool {
    where_zero(cells, k) == where_one(cells, k)
}

/// The different inputs of a narrow cover, and its cells over them.
#[derive(Drop)]
pub struct Narrow {
    pub ins: Vec<u32>,
    pub cells: u64,
}

// The place of a number in a list, or the list's length.
fn place_of(list: &[u32], number: u32) -> usize {
    'places: for k in 0..list.len() {
        if list[k] == number {
            return k;
        }
    }
    list.len()
}

// Adds a number that isn't there; whether it is there then, since there was room for it.
fn add_new(few: &mut Vec<u32>, number: u32) -> Result<bool, AllocError> {
    if place_of(few, number) < few.len() {
        return Ok(true);
    }
    if few.len() >= TABLE_INPUTS {
        return Ok(false);
    }
    few.push(number)?;
    Ok(true)
}

// The different numbers of a list, if they are at most six.
fn few_of(alloc: Global, list: &[u32]) -> Result<Option<Vec<u32>>, AllocError> {
    let mut few = Vec::with_capacity(alloc, TABLE_INPUTS)?;
    'numbers: for number in list {
        if !add_new(&mut few, *number)? {
            return Ok(None);
        }
    }
    Ok(Some(few))
}

// The cells of what a row wants of an input that has these.
fn lit_cells(lit: &Lit, word: u64) -> u64 {
    match lit {
        Lit::Zero => !word,
        Lit::One => word,
        Lit::Any => u64::MAX,
    }
}

// The cells of a row over these different inputs.
fn row_cells(row: &[Lit], ins: &[u32], few: &[u32]) -> u64 {
    let mut cells = u64::MAX;
    'places: for (lit, signal) in row.iter().zip(ins) {
        cells &= lit_cells(lit, pin(place_of(few, *signal)));
    }
    cells
}

// The cells of a cover over its different inputs.
fn cover_cells(cover: &Cover, few: &[u32]) -> u64 {
    let mut cells = 0;
    'rows: for row in cover.rows.as_slice() {
        cells |= row_cells(row.as_slice(), cover.ins.as_slice(), few);
    }
    if cover.off { !cells } else { cells }
}

/// A cover as a narrow one, if it is.
pub fn narrow_of(alloc: Global, cover: &Cover) -> Result<Option<Narrow>, AllocError> {
    let Some(ins) = few_of(alloc, cover.ins.as_slice())? else {
        return Ok(None);
    };
    let cells = cover_cells(cover, &ins);
    Ok(Some(Narrow { ins, cells }))
}
