//! What tables give over the inputs of another, at all its addresses at once.

ghost use Rattle.std.specs.Prelude.{◌≡◌, ◌+◌, ◌*◌, ◌<◌, ◌≤◌, ℕ, true, length, take, map, slice_index, slice_index_or, if◌then◌else◌};
ghost use Rattle.std.specs.List.{range_with_len};
ghost use Rattle.map_network.specs.Rows.{cell_at, number_of};
ghost use Rattle.map_network.specs.Plain.{cells_where, pin_named, six_bits};
ghost use Rattle.map_network.specs.Cells.{Give, masks_at};
ghost use Rattle.map_network.specs.Merging.{number};
ghost use Rattle.map_network.specs.Joining.{address_by, bit_with, joined_truth};

use crate::cells::pin_mask;
use crate::joining::number;
use crate::network::NetTable;
use crate::source::Source;

/// How many addresses so many pins have.
const SIZES: [usize; 7] = [1, 2, 4, 8, 16, 32, 64];

/// One word's bits where the mask has them, and elsewhere the other's.
fn choose(mask: u64, one: u64, zero: u64) -> u64
    ensures { (a : ℕ) → a < 64 → cell_at result a ≡ (if cell_at mask a then cell_at one a else cell_at zero a) }
{
    (zero & !mask) | (one & mask)
}

/// Keeps of each two parts beside each other the one that is chosen.
fn halve(parts: &mut [u64; 64], mask: u64, half: usize)
    requires { half ≤ 32 }
    ensures { (j a : ℕ) → j < half → a < 64 → cell_at (slice_index parts.new j) a
        ≡ (if cell_at mask a then cell_at (slice_index parts.old (2 * j + 1)) a else cell_at (slice_index parts.old (2 * j)) a) }
{
    'parts: for j in 0..half {
        parts[j] = choose(mask, parts[2 * j + 1], parts[2 * j]);
    }
}

fn cell(cells: u64, address: usize) -> bool
    requires { address < 64 }
    ensures { result ≡ cell_at cells address }
{
    (cells >> address) & 1 == 1
}

fn whole_word(bit: bool) -> u64
    ensures { Give result (λ _. bit) }
{
    if bit { u64::MAX } else { 0 }
}

/// Gives each part one of the cells, from one of them on.
fn put_cells(parts: &mut [u64; 64], cells: u64, from: usize, size: usize)
    requires { from + size ≤ 64 }
    ensures { (j a : ℕ) → j < size → a < 64 → cell_at (slice_index parts.new j) a ≡ cell_at cells (from + j) }
{
    'cells: for j in 0..size {
        parts[j] = whole_word(cell(cells, from + j));
    }
}

/// The cells that are addressed where pins give these masks; pins without a mask give 1. `parts` is room to work in.
fn compose_cells(parts: &mut [u64; 64], cells: u64, masks: &[u64]) -> u64
    requires { length masks.now ≤ 6 }
    ensures { Give result (λ a. cell_at cells (number_of (map (λ k. slice_index_or (masks_at masks.now a) k true) (range_with_len 0 6)))) }
{
    let mut size = SIZES[masks.len()];
    put_cells(parts, cells, 64 - size, size);
    'pins: for k in 0..masks.len() {
        size /= 2;
        halve(parts, masks[k], size);
    }
    parts[0]
}

/// What a source gives at each address of a table with these inputs. One that is no input gives 1.
fn pin_word(ins: &[Source], source: Source) -> u64
    requires { length ins.now ≤ 6 }
    ensures { Give result (λ a. pin_named (map number ins.now) (six_bits a) (number source)) }
{
    'ins: for k in 0..ins.len() {
        if number(ins[k]) == number(source) {
            return pin_mask(k);
        }
    }
    u64::MAX
}

/// What a source gives at each address of a table with these inputs, where another table gives these.
fn source_word(ins: &[Source], table: u32, given: u64, source: Source) -> u64
    requires { length ins.now ≤ 6 }
    ensures { Give result (λ a. bit_with (map number ins.now) (six_bits a) table (cell_at given a) source) }
{
    if number(source) == number(Source::Table(table)) {
        given
    } else {
        pin_word(ins, source)
    }
}

/// Sets the masks of the pins that read these sources.
fn set_masks(masks: &mut [u64; 6], ins: &[Source], table: u32, given: u64, read: &[Source])
    requires ins { length ins.now ≤ 6 }
    requires read { length read.now ≤ 6 }
    ensures { (a : ℕ) → a < 64 →
        masks_at (take (length read.now) masks.new) a ≡ map (bit_with (map number ins.now) (six_bits a) table (cell_at given a)) read.now }
{
    'read: for k in 0..read.len() {
        masks[k] = source_word(ins, table, given, read[k]);
    }
}

/// What a table gives at each address of a table with these inputs, where another one gives these.
fn word_of(parts: &mut [u64; 64], ins: &[Source], table: u32, given: u64, net: &NetTable) -> u64
    requires { length ins.now ≤ 6 }
    ensures { Give result (λ a. cell_at net.now.cells
        (address_by (bit_with (map number ins.now) (six_bits a) table (cell_at given a)) net.now.ins)) }
{
    let read = net.ins.as_slice();
    let mut masks = [0; 6];
    set_masks(&mut masks, ins, table, given, read);
    compose_cells(parts, net.cells, &masks[..read.len()])
}

/// The cells of the reader over these inputs, where what the table gives is its input.
pub fn joined_cells(ins: &[Source], table: u32, inner: &NetTable, reader: &NetTable) -> u64
    requires { length ins.now ≤ 6 }
    ensures { result ≡ cells_where (joined_truth (map number ins.now) table inner.now reader.now) }
{
    let mut parts = [0; 64];
    let given = word_of(&mut parts, ins, table, u64::MAX, inner);
    word_of(&mut parts, ins, table, given, reader)
}
