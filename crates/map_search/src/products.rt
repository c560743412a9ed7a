//! Irredundant sums of products of at most six inputs, as Minato and Morreale make them.

use crate::words::{is_idle, pin, where_one, where_zero};
use std::alloc::{AllocError, Global};

/// A product: bit 2k where it wants a 1 of input k, and bit 2k + 1 where it wants a 0.
#[derive(Clone, Copy, Debug)]
pub struct Product(pub u32);

/// A sum of products, and whether it is that of the function's zeros.
#[derive(Drop)]
pub struct Cheaper {
    pub products: Vec<Product>,
    pub off: bool,
}

// The highest pin below so many on which a function lies that one of these two bounds says.
fn last_read(on: u64, most: u64, count: usize) -> usize {
    let mut last = 0;
    'pins: for k in 0..count {
        if !is_idle(on, k) || !is_idle(most, k) {
            last = k;
        }
    }
    last
}

// Puts a literal into the products from a place on.
fn add_literal(products: &mut Vec<Product>, first: usize, literal: u32) {
    'products: for k in first..products.len() {
        let old = products[k].0;
        products[k] = Product(old | 1u32.wrapping_shl(literal));
    }
}

// Adds products whose sum lies between two functions of the first so many inputs, and gives the sum.
fn add_products(
    products: &mut Vec<Product>,
    on: u64,
    most: u64,
    count: usize,
) -> Result<u64, AllocError> {
    if on == 0 {
        return Ok(0);
    }
    if most == u64::MAX || count == 0 {
        products.push(Product(0))?;
        return Ok(u64::MAX);
    }
    let k = last_read(on, most, count);
    let (on_low, on_high) = (where_zero(on, k), where_one(on, k));
    let (most_low, most_high) = (where_zero(most, k), where_one(most, k));
    let literal = (k & 15) as u32;
    let first = products.len();
    let low = add_products(products, on_low & !most_high, most_low, count - 1)?;
    add_literal(products, first, literal.wrapping_shl(1) | 1);
    let first = products.len();
    let high = add_products(products, on_high & !most_low, most_high, count - 1)?;
    add_literal(products, first, literal.wrapping_shl(1));
    let left = on_low & !low | on_high & !high;
    let both = add_products(products, left, most_low & most_high, count - 1)?;
    Ok(both | low & !pin(k) | high & pin(k))
}

/// An irredundant sum of products of a function.
pub fn products_of(alloc: Global, cells: u64) -> Result<Vec<Product>, AllocError> {
    let mut products = Vec::new(alloc);
    let _ = add_products(&mut products, cells, cells, 6)?;
    Ok(products)
}

/// How many literals products have, and the products themselves count once.
pub fn cost_of(products: &[Product]) -> usize {
    let mut cost = 0usize;
    'products: for product in products {
        let literals = product.0.count_ones() as usize;
        cost = cost.saturating_add(literals).saturating_add(1);
    }
    cost
}

// Whether products have fewer literals than others, and are some.
fn is_cheaper(products: &[Product], others: &[Product]) -> bool {
    cost_of(products) < cost_of(others) && products.len() > 0
}

// These products as those of ones or of zeros.
fn cheaper_as(products: Vec<Product>, off: bool) -> Cheaper {
    Cheaper { products, off }
}

/// The sum of products of a function or of its opposite, whichever has fewer literals.
pub fn cheaper_of(alloc: Global, cells: u64) -> Result<Cheaper, AllocError> {
    let ones = products_of(alloc, cells)?;
    let zeros = products_of(alloc, !cells)?;
    if is_cheaper(&zeros, &ones) {
        Ok(cheaper_as(zeros, true))
    } else {
        Ok(cheaper_as(ones, false))
    }
}
