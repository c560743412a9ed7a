//! The names of a cover's inputs, and how many tables it has.

ghost use Rattle.std.specs.Prelude.{◌≡◌, ◌<◌, ◌≤◌, ◌+◌, ℕ, nat_lt, [], length, sum_by, slice_index_or, IfOk, MatchOption};
ghost use Rattle.design_netlist.specs.Drafts.{row_characters, cover_characters};
ghost use Rattle.map_network.specs.Plain.{distinct, cover_size};
ghost use Rattle.map_network.specs.Cells.{is_among};
ghost use Rattle.map_network.specs.Sizes.{is_wanted, wants_in, tree_size, rows_size};

use base_table::TABLE_INPUTS;
use design_netlist::{Cover, Cube, Lit};
use std::alloc::{AllocError, Global};

fn is_among(names: &[u32], name: u32) -> bool
    ensures { result ≡ is_among names.now name }
{
    'names: for k in 0..names.len() {
        if names[k] == name {
            return true;
        }
    }
    false
}

/// The different names in order of first appearance, if they are at most six.
pub fn distinct_names(alloc: Global, ins: &[u32]) -> Result<Option<Vec<u32>>, AllocError>
    ensures { IfOk result (λ found. MatchOption found (6 < length (distinct ins.now))
        (λ names. (names.items ≡ distinct ins.now) × (length names.items ≤ 6))) }
{
    let mut names = Vec::with_capacity(alloc, TABLE_INPUTS)?;
    'ins: for k in 0..ins.len() {
        if is_among(&names, ins[k]) {
            continue;
        }
        if names.len() == TABLE_INPUTS {
            return Ok(None);
        }
        names.push(ins[k])?;
    }
    Ok(Some(names))
}

fn is_wanted(lit: Lit) -> usize
    ensures { result ≡ is_wanted lit }
{
    match lit {
        Lit::Zero | Lit::One => 1,
        Lit::Any => 0,
    }
}

/// How many characters of the row aren't `-`.
fn wants_in(row: &[Lit]) -> usize
    ensures { result ≡ wants_in row.now }
{
    let mut count = 0;
    'places: for k in 0..row.len() {
        count += is_wanted(row[k]);
    }
    count
}

/// How many tables a tree over so many wants has.
fn tree_size(wants: usize) -> usize
    requires { wants ≤ 16777216 }
    ensures { result ≡ tree_size wants }
{
    let mut size = 1;
    let mut count = wants;
    'levels: while count > 6 {
        count = (count + 5) / 6;
        size += count;
    }
    size
}

/// How many tables the trees of the rows have.
fn rows_size(rows: &[Cube]) -> usize
    requires { sum_by row_characters rows.now ≤ 16777216 }
    ensures { result ≡ rows_size rows.now }
{
    let mut size = 0;
    'rows: for k in 0..rows.len() {
        size += tree_size(wants_in(rows[k].as_slice()));
    }
    size
}

/// How many tables a wide cover has.
fn wide_size(rows: &[Cube]) -> usize
    requires { sum_by row_characters rows.now ≤ 16777216 }
    ensures { result ≡ rows_size rows.now + tree_size (length rows.now) }
{
    rows_size(rows) + tree_size(rows.len())
}

/// Whether at most six inputs differ.
fn is_narrow(alloc: Global, ins: &[u32]) -> Result<bool, AllocError>
    ensures { IfOk result (λ narrow. narrow ≡ nat_lt (length (distinct ins.now)) 7) }
{
    if ins.len() <= TABLE_INPUTS {
        return Ok(true);
    }
    let names = distinct_names(alloc, ins)?;
    Ok(names.is_some())
}

/// How many tables the cover has.
pub fn size_of(alloc: Global, cover: &Cover) -> Result<usize, AllocError>
    requires rows { (k : ℕ) → k < length cover.now.rows → length (slice_index_or cover.now.rows k []) ≡ length cover.now.ins }
    requires characters { cover_characters cover.now ≤ 16777216 }
    ensures { IfOk result (λ size. size ≡ cover_size cover.now) }
{
    if is_narrow(alloc, cover.ins.as_slice())? {
        Ok(1)
    } else {
        Ok(wide_size(cover.rows.as_slice()))
    }
}
