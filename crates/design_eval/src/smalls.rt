//! Covers of few inputs as tables.

ghost use Rattle.std.specs.Prelude.{◌≡◌, ◌<◌, ℕ, [], false, length, take, slice_index_or, IfOk};
ghost use Rattle.design_netlist.specs.Vocabulary.{cover_at, truth, IsCoverOver, bit_at};
ghost use Rattle.design_eval.specs.Bits.{AreBelow};
ghost use Rattle.design_eval.specs.Tables.{address};
ghost use Rattle.design_eval.specs.Turns.{IsTurn, AreTurns};
ghost use Rattle.design_eval.specs.Smalls.{IsSmallOf, IsQuick, AreQuick};

use crate::tables::{cells_of, wires_of};
use crate::turns::{Turn, value_of};
use design_netlist::Cover;
use std::alloc::{AllocError, Global};

/// The most inputs of a cover that gets a small table.
const FEW_INPUTS: usize = 4;

/// A cover of at most four inputs. Most have no more, and this is quicker than a table of six inputs.
#[derive(Clone, Copy)]
pub struct Small {
    /// The inputs, and the cover's output in the places that are left.
    pub wires: [u32; 4],
    /// The cover's truths: bit j of a cell's place is the bit of input j.
    pub cells: [bool; 16],
}

/// What the evaluation of most covers reads, close together.
#[derive(Clone, Copy)]
pub struct Quick {
    /// The signal that the cover drives.
    pub out: u32,
    /// Its small table, if it has at most four inputs.
    pub small: Option<Small>,
}

// The first cells of a table.
fn first_cells(cells: &[bool; 64]) -> [bool; 16]
    ensures size { length result ≡ 16 }
    ensures each { (n : ℕ) → n < 16 → slice_index_or result n false ≡ slice_index_or cells.now n false }
{
    let mut first = [false; 16];
    'cells: for a in 0..16 {
        first[a] = cells[a];
    }
    first
}

// The first wires of a table.
fn first_wires(wires: &[u32; 6]) -> [u32; 4]
    ensures { result ≡ take 4 wires.now }
{
    [wires[0], wires[1], wires[2], wires[3]]
}

// The small table of a cover, if it has at most four inputs.
fn small_of(cover: &Cover) -> Option<Small>
    requires { (k : ℕ) → k < length cover.now.rows → length (slice_index_or cover.now.rows k []) ≡ length cover.now.ins }
    ensures { IsSmallOf result cover.now }
{
    let count = cover.ins.as_slice().len();
    if count > FEW_INPUTS {
        return None;
    }
    let wires = wires_of(cover);
    let cells = cells_of(cover, count);
    Some(Small {
        wires: first_wires(&wires),
        cells: first_cells(&cells),
    })
}

// The place of a cell by the bits of the inputs.
fn small_address(wires: &[u32; 4], values: &[bool]) -> usize
    requires { AreBelow (length values.now) wires.now }
    ensures { result ≡ address (bit_at values.now) wires.now }
{
    let mut place = 0;
    'wires: for k in 0..4 {
        place = 2 * place + usize::from(values[wires[3 - k] as usize]);
    }
    place
}

// What the evaluation of the cover at a place reads.
fn quick_of(covers: &[Cover], place: u32) -> Quick
    requires within { place < length covers.now }
    requires made { (n : ℕ) × IsCoverOver (cover_at covers.now place) n }
    ensures { IsQuick (cover_at covers.now place) result }
{
    let cover = &covers[place as usize];
    Quick {
        out: cover.out,
        small: small_of(cover),
    }
}

/// What the evaluations of covers read, in their turns.
pub fn quick_turns(
    alloc: Global,
    covers: &[Cover],
    turns: &[Turn],
) -> Result<Vec<Quick>, AllocError>
    requires turns { AreTurns covers.now turns.now }
    requires made { (i : ℕ) → i < length covers.now → (n : ℕ) × IsCoverOver (cover_at covers.now i) n }
    ensures { IfOk result (λ quicks. AreQuick covers.now turns.now quicks.items) }
{
    let mut quicks = Vec::with_capacity(alloc, turns.len())?;
    'turns: for k in 0..turns.len() {
        quicks.push(quick_of(covers, turns[k].place))?;
    }
    Ok(quicks)
}

/// The truth of the cover of a turn, by its small table where it has one.
pub fn quick_value(quick: &Quick, turn: &Turn, covers: &[Cover], values: &[bool]) -> bool
    requires within { turn.now.place < length covers.now }
    requires turn { IsTurn covers.now turn.now }
    requires quick { IsQuick (cover_at covers.now turn.now.place) quick.now }
    requires made { IsCoverOver (cover_at covers.now turn.now.place) (length values.now) }
    ensures { result ≡ truth (bit_at values.now) (cover_at covers.now turn.now.place) }
{
    match &quick.small {
        Some(small) => small.cells[small_address(&small.wires, values)],
        None => value_of(turn, covers, values),
    }
}
