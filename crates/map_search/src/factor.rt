//! Sums of products as ANDs: the literal that most products have is taken out, again and again.

use crate::builder::Builder;
use crate::sums::{Sum, common, divide_sum, part};
use crate::trees::and_all;
use crate::way::Join;
use std::alloc::AllocError;

/// How often a literal is taken out of what another one was taken out of.
const MOST_DEPTH: u32 = 64;

// Counts the literals; the first of those that stand most often, and how often.
fn count_literals(builder: &mut Builder, literals: &[u32]) -> (u32, u32) {
    let mut best = (0, 0);
    'literals: for literal in literals {
        let count = builder.count(*literal, true);
        if count > best.1 || count == best.1 && *literal < best.0 {
            best = (*literal, count);
        }
    }
    best
}

// Counts nothing any more.
fn forget_literals(builder: &mut Builder, literals: &[u32]) {
    'literals: for literal in literals {
        let _ = builder.count(*literal, false);
    }
}

// The literal that most products have, if more than one product has it.
fn most_common(builder: &mut Builder, sum: &Sum) -> Result<Option<u32>, AllocError> {
    builder.make_counts()?;
    let size = sum.literals.len() as u64;
    if builder.effort < size {
        return Ok(None);
    }
    builder.effort = builder.effort.saturating_sub(size);
    let (literal, count) = count_literals(builder, &sum.literals);
    forget_literals(builder, &sum.literals);
    if count < 2 {
        return Ok(None);
    }
    Ok(Some(literal))
}

// The product of literals.
fn product_of(builder: &mut Builder, literals: &[u32], join: Join) -> Result<u32, AllocError> {
    let literals = Vec::from_slice(builder.alloc, literals)?;
    and_all(builder, literals, join)
}

// The negated products.
fn negated_products(builder: &mut Builder, sum: &Sum, join: Join) -> Result<Vec<u32>, AllocError> {
    let mut negated = Vec::new(builder.alloc);
    'products: for k in 0..sum.len() {
        let product = product_of(builder, sum.product(k), join)?;
        negated.push(product ^ 1)?;
    }
    Ok(negated)
}

/// The sum as it stands.
pub fn plain(builder: &mut Builder, sum: &Sum, join: Join) -> Result<u32, AllocError> {
    let negated = negated_products(builder, sum, join)?;
    let none = and_all(builder, negated, join)?;
    Ok(none ^ 1)
}

// The sum of a last sum and of terms, which are added from the last on.
fn sum_terms(builder: &mut Builder, terms: Vec<u32>, last: u32) -> Result<u32, AllocError> {
    let mut sum = last;
    let mut left = terms;
    'terms: for _ in 0..left.len() {
        if let Some(term) = left.pop() {
            sum = builder.or(term, sum)?;
        }
    }
    Ok(sum)
}

// A sum while literals are taken out of it: the products that are left, and the literals of what was taken out.
#[derive(Drop)]
struct Left {
    sum: Sum,
    terms: Vec<u32>,
    join: Join,
}

// What a sum is divided by, as one literal, and what is left of it then.
#[derive(Drop)]
struct Taken {
    product: u32,
    quotient: Sum,
}

// Takes the literals out of products that all of them have.
fn divided(builder: &mut Builder, with: &Sum, join: Join) -> Result<Taken, AllocError> {
    let divisor = common(builder.alloc, with)?;
    let quotient = divide_sum(builder.alloc, with, &divisor)?;
    let product = and_all(builder, divisor, join)?;
    Ok(Taken { product, quotient })
}

// Takes the products with a literal out of the sum, and divides these.
fn taken_out(builder: &mut Builder, left: &mut Left, literal: u32) -> Result<Taken, AllocError> {
    let with = part(builder.alloc, &left.sum, literal, true)?;
    left.sum = part(builder.alloc, &left.sum, literal, false)?;
    divided(builder, &with, left.join)
}

// Takes out the literal that most products have, if more than one product has it.
fn next_taken(builder: &mut Builder, left: &mut Left) -> Result<Option<Taken>, AllocError> {
    match most_common(builder, &left.sum)? {
        Some(literal) => Ok(Some(taken_out(builder, left, literal)?)),
        None => Ok(None),
    }
}

// Adds a term: what was taken out, and what became of the rest.
fn add_term(
    builder: &mut Builder,
    left: &mut Left,
    product: u32,
    others: u32,
) -> Result<(), AllocError> {
    let term = builder.and(product, others)?;
    left.terms.push(term)?;
    Ok(())
}

// The sum of the terms and of what is left.
fn close_sum(builder: &mut Builder, left: Left) -> Result<u32, AllocError> {
    let last = plain(builder, &left.sum, left.join)?;
    sum_terms(builder, left.terms, last)
}

// The same, with so many literals taken out of one another.
fn factored_to(builder: &mut Builder, sum: Sum, join: Join, depth: u32) -> Result<u32, AllocError> {
    if depth == 0 {
        return plain(builder, &sum, join);
    }
    let mut left = Left {
        sum,
        terms: Vec::new(builder.alloc),
        join,
    };
    'literals: for _ in 0..left.sum.literals.len() {
        if left.sum.has_empty() {
            return Ok(1);
        }
        let Some(taken) = next_taken(builder, &mut left)? else {
            break;
        };
        let product = taken.product;
        let others = factored_to(builder, taken.quotient, join, depth - 1)?;
        add_term(builder, &mut left, product, others)?;
    }
    close_sum(builder, left)
}

/// The literal of a sum of products.
pub fn factor_sum(builder: &mut Builder, sum: Sum, join: Join) -> Result<u32, AllocError> {
    factored_to(builder, sum, join, MOST_DEPTH)
}
