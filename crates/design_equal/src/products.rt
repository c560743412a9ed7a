//! Products of literals and sums of them. A product is a list of literals, ascending, each node once.

ghost use Rattle.std.specs.Prelude.{◌≡◌, ◌<◌, ◌&&◌, ◌||◌, ℕ, Bool, [], length, map, not, true, false, slice_index_or};
ghost use Rattle.std.specs.Prelude.{IfOk, IsTrue, OnOk, if◌then◌else◌};
ghost use Rattle.std.specs.Option.{ForSome};
ghost use Rattle.design_netlist.specs.Covers.{fits, matches, some_matches};
ghost use Rattle.design_equal.specs.Graphs.{literal_in};
ghost use Rattle.design_equal.specs.Labels.{signal_bits};
ghost use Rattle.design_equal.specs.Products.{holds, some_holds, found_holds};

use crate::steps::label_at;
use base_lists::Items;
use design_netlist::{Cube, Lit};
use std::alloc::{AllocError, Global};

/// Literals, all of which are wanted.
pub type Product = Items<u32>;

/// The opposite of a literal.
pub fn flipped(literal: u32) -> u32
    ensures { (bits : ℕ → Bool) → literal_in bits result ≡ not (literal_in bits literal) }
{
    if literal % 2 == 0 {
        literal + 1
    } else {
        literal - 1
    }
}

/// The literal, or its opposite.
pub fn turned_if(literal: u32, off: bool) -> u32
    ensures { (bits : ℕ → Bool) → literal_in bits result ≡ (if off then not (literal_in bits literal) else literal_in bits literal) }
{
    if off { flipped(literal) } else { literal }
}

fn last_of(product: &[u32]) -> Option<u32>
    ensures { ForSome result (λ literal. (bits : ℕ → Bool) → holds bits product.now ≡ true → literal_in bits literal ≡ true) }
{
    let count = product.len();
    if count == 0 {
        None
    } else {
        Some(product[count - 1])
    }
}

/// Adds a literal that is not below the others. False where the product never holds with it.
fn add_literal(product: &mut Vec<u32>, literal: u32) -> Result<bool, AllocError>
    ensures { IfOk result (λ kept. (bits : ℕ → Bool) → bits 0 ≡ false →
        (kept && holds bits product.new.items) ≡ (holds bits product.old.items && literal_in bits literal)) }
{
    if literal == 1 {
        return Ok(true);
    }
    if literal == 0 {
        return Ok(false);
    }
    if let Some(last) = last_of(product.as_slice()) {
        if last == literal {
            return Ok(true);
        }
        if last / 2 == literal / 2 {
            return Ok(false);
        }
    }
    product.push(literal)?;
    Ok(true)
}

fn sorted(mut list: Vec<u32>) -> Vec<u32>
    ensures { (bits : ℕ → Bool) → holds bits result.items ≡ holds bits list.items }
{
    list.sort_unstable();
    list
}

/// The product of the literals, or None where it never holds.
pub fn product_of(alloc: Global, literals: Vec<u32>) -> Result<Option<Product>, AllocError>
    ensures { IfOk result (λ found. (bits : ℕ → Bool) → bits 0 ≡ false → found_holds bits found ≡ holds bits literals.items) }
{
    let list = sorted(literals);
    let mut product = Vec::new(alloc);
    'literals: for k in 0..list.len() {
        if !add_literal(&mut product, list[k])? {
            return Ok(None);
        }
    }
    Ok(Some(Items::new(product)))
}

/// Adds a product to a sum, if there is one.
pub fn add_product(sum: &mut Vec<Product>, found: Option<Product>) -> Result<(), AllocError>
    ensures { OnOk result ((bits : ℕ → Bool) → some_holds bits sum.new.items ≡ (some_holds bits sum.old.items || found_holds bits found)) }
{
    match found {
        None => Ok(()),
        Some(product) => {
            sum.push(product)?;
            Ok(())
        }
    }
}

/// Adds the literal that a row wants of an input.
fn add_wanted(list: &mut Vec<u32>, lit: Lit, label: u32) -> Result<(), AllocError>
    ensures { OnOk result ((bits : ℕ → Bool) → holds bits list.new.items
        ≡ (holds bits list.old.items && fits lit (literal_in bits label))) }
{
    match lit {
        Lit::Any => {}
        Lit::One => list.push(label)?,
        Lit::Zero => list.push(flipped(label))?,
    }
    Ok(())
}

/// The literals that a row wants.
fn row_literals(
    alloc: Global,
    row: &[Lit],
    ins: &[u32],
    labels: &[u32],
) -> Result<Vec<u32>, AllocError>
    requires { length row.now ≡ length ins.now }
    ensures { IfOk result (λ list. (bits : ℕ → Bool) → holds bits list.items
        ≡ matches row.now (map (signal_bits bits labels.now) ins.now)) }
{
    let mut list = Vec::new(alloc);
    'places: for k in 0..row.len() {
        let label = label_at(labels, ins[k]);
        add_wanted(&mut list, row[k], label)?;
    }
    Ok(list)
}

/// The sum of the rows.
pub fn rows_sum(
    alloc: Global,
    rows: &[Cube],
    ins: &[u32],
    labels: &[u32],
) -> Result<Vec<Product>, AllocError>
    requires { (k : ℕ) → k < length rows.now → length (slice_index_or rows.now k []) ≡ length ins.now }
    ensures { IfOk result (λ sum. (bits : ℕ → Bool) → bits 0 ≡ false
        → some_holds bits sum.items ≡ some_matches rows.now (map (signal_bits bits labels.now) ins.now)) }
{
    let mut sum = Vec::new(alloc);
    'rows: for k in 0..rows.len() {
        let list = row_literals(alloc, rows[k].as_slice(), ins, labels)?;
        let found = product_of(alloc, list)?;
        add_product(&mut sum, found)?;
    }
    Ok(sum)
}

fn is_same(first: &[u32], second: &[u32]) -> bool
    ensures { IsTrue result → first.now ≡ second.now }
{
    first == second
}

/// Whether each product of a sum stands at its hint in another.
pub fn are_among(first: &[Product], second: &[Product], hints: &[usize]) -> bool
    ensures { IsTrue result → (bits : ℕ → Bool) → some_holds bits first.now ≡ true → some_holds bits second.now ≡ true }
{
    if hints.len() < first.len() {
        return false;
    }
    'products: for k in 0..first.len() {
        let hint = hints[k];
        if hint >= second.len() {
            return false;
        }
        if !is_same(first[k].as_slice(), second[hint].as_slice()) {
            return false;
        }
    }
    true
}
