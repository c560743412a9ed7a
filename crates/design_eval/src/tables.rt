//! Covers as tables.

ghost use Rattle.std.specs.Prelude.{◌≡◌, ◌+◌, ◌<◌, ◌≤◌, ℕ, [], length, slice_index_or};
ghost use Rattle.design_netlist.specs.Valuations.{bit_at};
ghost use Rattle.design_eval.specs.Bits.{AreBelow};
ghost use Rattle.design_eval.specs.Tables.{address, six_bits, AreCells, AreWires, IsTableOf};

use base_table::TABLE_INPUTS;
use design_netlist::{Cover, truth_of};

/// The places of the bits of an address.
const PLACES: [u32; 6] = [0, 1, 2, 3, 4, 5];

/// A cover of at most six inputs: a cell for each bits of its inputs.
#[derive(Clone, Copy)]
pub struct Table {
    /// The inputs, and the cover's output in the places that are left.
    pub wires: [u32; 6],
    /// The cover's truths: bit j of a cell's place is the bit of input j.
    pub cells: [bool; 64],
}

// The lowest six bits of a number.
fn six_bits(n: usize) -> [bool; 6]
    ensures { result ≡ six_bits n }
{
    let a = n / 2;
    let b = a / 2;
    let c = b / 2;
    let d = c / 2;
    let e = d / 2;
    [
        n % 2 == 1,
        a % 2 == 1,
        b % 2 == 1,
        c % 2 == 1,
        d % 2 == 1,
        e % 2 == 1,
    ]
}

/// The truths of a cover of at most six inputs, by the bits of these.
pub fn cells_of(cover: &Cover, count: usize) -> [bool; 64]
    requires count { count ≡ length cover.now.ins }
    requires few { count ≤ 6 }
    requires rows { (k : ℕ) → k < length cover.now.rows → length (slice_index_or cover.now.rows k []) ≡ length cover.now.ins }
    ensures { AreCells cover.now result }
{
    let mut cells = [false; 64];
    'cells: for a in 0..64 {
        cells[a] = truth_of(
            cover.rows.as_slice(),
            cover.off,
            &PLACES[..count],
            &six_bits(a),
        );
    }
    cells
}

/// The inputs of a cover, and its output in the places that are left.
pub fn wires_of(cover: &Cover) -> [u32; 6]
    requires few { length cover.now.ins ≤ 6 }
    ensures { AreWires cover.now result }
{
    let mut wires = [cover.out; 6];
    let ins = cover.ins.as_slice();
    'ins: for k in 0..ins.len() {
        wires[k] = ins[k];
    }
    wires
}

/// The table of a cover, if it has at most six inputs.
pub fn table_of(cover: &Cover) -> Option<Table>
    requires { (k : ℕ) → k < length cover.now.rows → length (slice_index_or cover.now.rows k []) ≡ length cover.now.ins }
    ensures { IsTableOf result cover.now }
{
    let count = cover.ins.as_slice().len();
    if count > TABLE_INPUTS {
        return None;
    }
    let wires = wires_of(cover);
    let cells = cells_of(cover, count);
    Some(Table { wires, cells })
}

/// The place of a cell by the bits of the inputs.
pub fn address_of(wires: &[u32; 6], values: &[bool]) -> usize
    requires { AreBelow (length values.now) wires.now }
    ensures { result ≡ address (bit_at values.now) wires.now }
{
    let mut place = 0;
    'wires: for k in 0..6 {
        place = 2 * place + usize::from(values[wires[5 - k] as usize]);
    }
    place
}
