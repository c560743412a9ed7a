//! Words of 64 marks.

ghost use Rattle.std.specs.Prelude.{◌≡◌, ◌≢◌, ◌<◌, ◌≤◌, ◌*◌, ◌||◌, ◌==◌, ℕ, true, false, length, MatchOption};
ghost use Rattle.std.specs.Int.{bit_at};
ghost use Rattle.map_network.specs.Vocabulary.{flip, cell_at};
ghost use Rattle.map_eval.specs.Marks.{is_marked, AreMarked};
ghost use Rattle.map_eval.specs.Turns.{AreLow};

/// How many marks a word has.
pub const WORD: usize = 64;

/// The cell of a mask, as 0 or 1.
pub fn cell(mask: u64, address: u8) -> u64
    requires { address < 64 }
    ensures { result ≡ bit_at mask address }
{
    (mask >> address) & 1
}

/// A bit of the word that is 1, if there is one.
pub fn lowest(word: u64) -> Option<usize>
    ensures { MatchOption result (word ≡ 0) (λ bit. (bit < 64) × (cell_at word bit ≡ true)) }
{
    if word == 0 {
        return None;
    }
    Some(word.trailing_zeros() as usize)
}

/// The word without a bit.
pub fn without(word: u64, bit: usize) -> u64
    requires { bit < 64 }
    ensures less { cell_at word bit ≡ true → result < word }
    ensures gone { cell_at result bit ≡ false }
    ensures others { (k : ℕ) → k < 64 → k ≢ bit → cell_at result k ≡ cell_at word k }
{
    word & !(1 << bit)
}

/// Marks the table where the bit is 1.
pub fn mark_if(marks: &mut [u64], table: usize, bit: u64)
    requires within { table < 64 * length marks.old }
    requires bit { bit < 2 }
    ensures len { length marks.new ≡ length marks.old }
    ensures this { is_marked marks.new table ≡ (is_marked marks.old table || (bit == 1)) }
    ensures others { (k : ℕ) → k ≢ table → is_marked marks.new k ≡ is_marked marks.old k }
{
    marks[table / WORD] |= bit << (table % WORD);
}

/// Turns the mark of the table where the bit is 1.
pub fn turn_mark(marks: &mut [u64], table: usize, bit: u64)
    requires within { table < 64 * length marks.old }
    requires bit { bit < 2 }
    ensures len { length marks.new ≡ length marks.old }
    ensures this { is_marked marks.new table ≡ flip (bit == 1) (is_marked marks.old table) }
    ensures others { (k : ℕ) → k ≢ table → is_marked marks.new k ≡ is_marked marks.old k }
{
    marks[table / WORD] ^= bit << (table % WORD);
}

/// Whether the cells at two addresses differ, as 0 or 1.
pub fn change(mask: u64, before: u8, after: u8) -> u64
    requires before { before < 64 }
    requires after { after < 64 }
    ensures few { result < 2 }
    ensures turned { flip (result == 1) (cell_at mask before) ≡ cell_at mask after }
{
    cell(mask, before) ^ cell(mask, after)
}

// Takes all marks away.
fn clear(marks: &mut [u64])
    ensures len { length marks.new ≡ length marks.old }
    ensures none { (t : ℕ) → is_marked marks.new t ≡ false }
{
    'words: for k in 0..marks.len() {
        marks[k] = 0;
    }
}

/// Marks exactly the tables that differ.
pub fn mark_differing(marks: &mut [u64], masks: &[u64], addresses: &[u8])
    requires marks { length masks.now ≤ 64 * length marks.old }
    requires addresses { length addresses.now ≡ length masks.now }
    requires low { AreLow addresses.now }
    ensures len { length marks.new ≡ length marks.old }
    ensures marked { AreMarked masks.now addresses.now marks.new }
{
    clear(marks);
    'tables: for table in 0..masks.len() {
        mark_if(marks, table, cell(masks[table], addresses[table]));
    }
}
