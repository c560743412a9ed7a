//! The truths of a cover in all lanes at once, by its table.

ghost use Rattle.std.specs.Prelude.{◌≡◌, ◌+◌, ◌*◌, ◌<◌, ◌≤◌, ℕ, true, false, length, take, slice_index_or};
ghost use Rattle.design_netlist.specs.Vocabulary.{number_at, bit_at, is_bit, lane_bits};
ghost use Rattle.design_eval.specs.Bits.{AreBelow};
ghost use Rattle.design_eval.specs.Lanes.{chosen, addresses};
ghost use Rattle.design_eval.specs.Tables.{address};

use crate::tables::Table;

/// How many addresses so many inputs have.
const SIZES: [usize; 7] = [1, 2, 4, 8, 16, 32, 64];

// How many addresses so many inputs have.
fn size_of(count: usize) -> usize
    requires { count ≤ 6 }
    ensures { result ≡ addresses count }
{
    SIZES[count]
}

// In each lane the bit of one word or, where the choice is 1, of the other.
fn choose(choice: u64, zero: u64, one: u64) -> u64
    ensures { (j : ℕ) → j < 64 → is_bit result j ≡ chosen choice zero one j }
{
    (zero & !choice) | (one & choice)
}

// Keeps of each two parts beside each other the one that is chosen, lane by lane.
fn halve(parts: &mut [u64; 64], choice: u64, half: usize)
    requires { half ≤ 32 }
    ensures { (a j : ℕ) → a < half → j < 64
        → is_bit (number_at parts.new a) j ≡ chosen choice (number_at parts.old (2 * a)) (number_at parts.old (2 * a + 1)) j }
{
    'parts: for a in 0..half {
        parts[a] = choose(choice, parts[2 * a], parts[2 * a + 1]);
    }
}

// A word with the bit in all lanes.
fn whole_word(bit: bool) -> u64
    ensures { (j : ℕ) → j < 64 → is_bit result j ≡ bit }
{
    if bit { u64::MAX } else { 0 }
}

// Gives each part its cell, in all lanes.
fn put_cells(parts: &mut [u64; 64], cells: &[bool; 64], size: usize)
    requires { size ≤ 64 }
    ensures { (a j : ℕ) → a < size → j < 64 → is_bit (number_at parts.new a) j ≡ slice_index_or cells.now a false }
{
    'cells: for a in 0..size {
        parts[a] = whole_word(cells[a]);
    }
}

/// In each lane the cell at the address of the first `count` wires. `parts` is room to work in.
pub fn table_word(table: &Table, count: usize, words: &[u64], parts: &mut [u64; 64]) -> u64
    requires count { count ≤ 6 }
    requires wires { length table.now.wires ≡ 6 }
    requires within { AreBelow (length words.now) table.now.wires }
    ensures { (j : ℕ) → j < 64 → let given = bit_at (lane_bits words.now j) in
        is_bit result j ≡ slice_index_or table.now.cells (address given (take count table.now.wires)) false }
{
    let mut size = size_of(count);
    put_cells(parts, &table.cells, size);
    'inputs: for k in 0..count {
        size /= 2;
        halve(parts, words[table.wires[k] as usize], size);
    }
    parts[0]
}

/// How many wires stand before the first that is a cover's output.
pub fn inputs_of(wires: &[u32; 6], out: u32) -> usize
    ensures few { result ≤ 6 }
    ensures others { (k : ℕ) → k < result → number_at wires.now k ≡ out → ⊥ }
{
    'wires: for k in 0..6 {
        if wires[k] == out {
            return k;
        }
    }
    6
}

/// Whether all wires from one on are the cover's output.
pub fn are_out(wires: &[u32; 6], from: usize, out: u32) -> bool
    ensures { result ≡ true → (k : ℕ) → from ≤ k → k < 6 → number_at wires.now k ≡ out }
{
    'wires: for k in from..6 {
        if wires[k] != out {
            return false;
        }
    }
    true
}
