//! The covers in the order in which they are evaluated.

ghost use Rattle.std.specs.Prelude.{◌≡◌, ◌<◌, ℕ, length, IfOk};
ghost use Rattle.design_netlist.specs.Vocabulary.{cover_at, truth, IsCoverOver, bit_at, IsOrder, IsSettled};
ghost use Rattle.design_eval.specs.Turns.{IsTurn, AreTurns};

use crate::tables::{Table, address_of, table_of};
use design_netlist::{Cover, truth_of};
use std::alloc::{AllocError, Global};

/// A cover, with all that its evaluation reads side by side.
#[derive(Clone, Copy)]
pub struct Turn {
    /// The signal that it drives.
    pub out: u32,
    /// Its place among the design's covers.
    pub place: u32,
    /// Its table, if it has at most six inputs.
    pub table: Option<Table>,
}

// The turn of the cover at a place.
fn turn_of(covers: &[Cover], place: u32) -> Turn
    requires within { place < length covers.now }
    requires made { (n : ℕ) × IsCoverOver (cover_at covers.now place) n }
    ensures place { result.place ≡ place }
    ensures turn { IsTurn covers.now result }
{
    let cover = &covers[place as usize];
    Turn {
        out: cover.out,
        place,
        table: table_of(cover),
    }
}

/// The turns of all covers. In the order each reads only earlier ones.
pub fn turns_of(alloc: Global, covers: &[Cover], order: &[u32]) -> Result<Vec<Turn>, AllocError>
    requires order { IsOrder covers.now order.now }
    requires made { (i : ℕ) → i < length covers.now → (n : ℕ) × IsCoverOver (cover_at covers.now i) n }
    ensures { IfOk result (λ turns. AreTurns covers.now turns.items) }
{
    let mut turns = Vec::with_capacity(alloc, order.len())?;
    'order: for k in 0..order.len() {
        turns.push(turn_of(covers, order[k]))?;
    }
    Ok(turns)
}

/// The truth of a cover, by its table where it has one.
pub fn value_of(turn: &Turn, covers: &[Cover], values: &[bool]) -> bool
    requires within { turn.now.place < length covers.now }
    requires turn { IsTurn covers.now turn.now }
    requires made { IsCoverOver (cover_at covers.now turn.now.place) (length values.now) }
    ensures { result ≡ truth (bit_at values.now) (cover_at covers.now turn.now.place) }
{
    match &turn.table {
        Some(table) => table.cells[address_of(&table.wires, values)],
        None => wide_value(&covers[turn.place as usize], values),
    }
}

// The truth of a cover, by its rows.
fn wide_value(cover: &Cover, values: &[bool]) -> bool
    requires { IsCoverOver cover.now (length values.now) }
    ensures { result ≡ truth (bit_at values.now) cover.now }
{
    truth_of(
        cover.rows.as_slice(),
        cover.off,
        cover.ins.as_slice(),
        values,
    )
}

/// Gives each cover's output its truth. Takes no memory.
pub fn settle(turns: &[Turn], covers: &[Cover], values: &mut [bool])
    requires turns { AreTurns covers.now turns.now }
    requires made { (i : ℕ) → i < length covers.now → IsCoverOver (cover_at covers.now i) (length values.old) }
    ensures { IsSettled covers.now (bit_at values.old) (bit_at values.new) }
{
    'turns: for k in 0..turns.len() {
        let turn = &turns[k];
        values[turn.out as usize] = value_of(turn, covers, values);
    }
}
