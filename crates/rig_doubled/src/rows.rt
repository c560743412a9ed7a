//! Rows of bits, one for each cycle.
ghost use Rattle.std.specs.Prelude.{◌≡◌, ◌↔◌, IfOk, IsTrue, length};
ghost use Rattle.rig_doubled.specs.Repeats.{HaveWidth};

use rig::PinBits;
use std::alloc::{AllocError, Global};

/// So many rows, each with a bit for each of so many pins.
///
/// # Errors
///
/// Out of memory.
pub fn blank_rows(alloc: Global, pins: u32, count: u32) -> Result<Vec<PinBits>, AllocError>
    ensures count { IfOk result (λ rows. length rows.items ≡ count) }
    ensures wide { IfOk result (λ rows. HaveWidth pins rows.items) }
{
    let mut rows = Vec::new(alloc);
    'rows: for _k in 0..count {
        let row = PinBits::new(alloc, pins)?;
        rows.push(row)?;
    }
    Ok(rows)
}

/// Whether two rows have the same bits.
pub fn is_same(row: &PinBits, other: &PinBits) -> bool
    ensures { IsTrue result ↔ (row.now ≡ other.now) }
{
    row.as_slice() == other.as_slice()
}

/// Whether rows are the same, one by one.
pub fn are_same(rows: &[PinBits], others: &[PinBits]) -> bool
    requires { length rows.now ≡ length others.now }
    ensures { IsTrue result ↔ (rows.now ≡ others.now) }
{
    'rows: for k in 0..rows.len() {
        if !is_same(&rows[k], &others[k]) {
            return false;
        }
    }
    true
}
