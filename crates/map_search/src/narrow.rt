//! Functions of at most six literals as ANDs.

use crate::builder::Builder;
use crate::factor::factor_sum;
use crate::products::{Product, cheaper_of, cost_of, products_of};
use crate::sums::Sum;
use crate::way::{Join, Way};
use crate::words::{where_one, where_zero};
use std::alloc::AllocError;

/// The most splits one after the other: one for each input.
const MOST_SPLITS: u32 = 7;

/// A two-input function.
#[derive(Clone, Copy, Debug)]
enum Gate {
    And,
    Or,
    Xor,
}

// A function as a gate of a literal and of a function of the others.
#[derive(Clone, Copy, Debug)]
struct Split {
    gate: Gate,
    literal: u32,
    others: u64,
}

// A gate of this literal and of the other function.
fn split_by(gate: Gate, literal: u32, others: u64) -> Option<Split> {
    Some(Split {
        gate,
        literal,
        others,
    })
}

// The function split at an input, if it can be.
fn split_at(cells: u64, k: usize, literal: u32) -> Option<Split> {
    let low = where_zero(cells, k);
    let high = where_one(cells, k);
    if low == high {
        None
    } else if low == 0 {
        split_by(Gate::And, literal, high)
    } else if high == 0 {
        split_by(Gate::And, literal ^ 1, low)
    } else if low == u64::MAX {
        split_by(Gate::Or, literal ^ 1, high)
    } else if high == u64::MAX {
        split_by(Gate::Or, literal, low)
    } else if low == !high {
        split_by(Gate::Xor, literal, low)
    } else {
        None
    }
}

// The function split at the first input where it can be.
fn split_of(cells: u64, literals: &[u32]) -> Option<Split> {
    'inputs: for k in 0..literals.len() {
        let found = split_at(cells, k, literals[k]);
        if found.is_some() {
            return found;
        }
    }
    None
}

// The gate of a split, over the literal of its other function.
fn join_split(builder: &mut Builder, split: Split, others: u32) -> Result<u32, AllocError> {
    match split.gate {
        Gate::And => builder.and(split.literal, others),
        Gate::Or => builder.or(split.literal, others),
        Gate::Xor => builder.choice(split.literal, others ^ 1, others),
    }
}

// Adds the literals of a product of inputs that have these literals, in order.
fn add_product(
    builder: &Builder,
    sum: &mut Sum,
    product: Product,
    literals: &[u32],
) -> Result<(), AllocError> {
    let mut found = Vec::with_capacity(builder.alloc, 6)?;
    'inputs: for k in 0..literals.len() {
        let wants = product.0.wrapping_shr(((k & 7) as u32).wrapping_shl(1));
        if wants & 3 != 0 {
            found.push(literals[k] ^ (wants.wrapping_shr(1) & 1))?;
        }
    }
    found.sort_unstable();
    found.dedup();
    sum.push(&found)
}

// The sum of products of inputs that have these literals.
fn sum_of_products(
    builder: &Builder,
    products: &[Product],
    literals: &[u32],
) -> Result<Sum, AllocError> {
    let mut sum = Sum::new(builder.alloc);
    'products: for product in products {
        add_product(builder, &mut sum, *product, literals)?;
    }
    Ok(sum)
}

// The function as a sum of products, or as the opposite of one.
fn sum_cells(
    builder: &mut Builder,
    cells: u64,
    literals: &[u32],
    join: Join,
) -> Result<u32, AllocError> {
    let cheaper = cheaper_of(builder.alloc, cells)?;
    let sum = sum_of_products(builder, &cheaper.products, literals)?;
    let literal = factor_sum(builder, sum, join)?;
    if cheaper.off {
        return Ok(literal ^ 1);
    }
    Ok(literal)
}

// How many literals the sums of the halves have where an input is 0 and 1.
fn halves_cost(builder: &Builder, cells: u64, k: usize) -> Result<usize, AllocError> {
    let low = products_of(builder.alloc, where_zero(cells, k))?;
    let high = products_of(builder.alloc, where_one(cells, k))?;
    Ok(cost_of(&low).saturating_add(cost_of(&high)))
}

// The input whose halves are smallest.
fn chooser_of(builder: &Builder, cells: u64, count: usize) -> Result<usize, AllocError> {
    let mut best = 0;
    let mut least = usize::MAX;
    'inputs: for k in 0..count {
        if where_zero(cells, k) == where_one(cells, k) {
            continue;
        }
        let cost = halves_cost(builder, cells, k)?;
        if cost < least {
            least = cost;
            best = k;
        }
    }
    Ok(best)
}

// The same, with so many splits left.
fn literal_to(
    builder: &mut Builder,
    cells: u64,
    literals: &[u32],
    way: Way,
    splits: u32,
) -> Result<u32, AllocError> {
    if cells == 0 || splits == 0 {
        return Ok(0);
    }
    if cells == u64::MAX {
        return Ok(1);
    }
    if let Some(split) = split_of(cells, literals) {
        let others = literal_to(builder, split.others, literals, way, splits - 1)?;
        return join_split(builder, split, others);
    }
    if way != Way::Multiplexers {
        return sum_cells(builder, cells, literals, way.join());
    }
    let k = chooser_of(builder, cells, literals.len())?;
    let low = literal_to(builder, where_zero(cells, k), literals, way, splits - 1)?;
    let high = literal_to(builder, where_one(cells, k), literals, way, splits - 1)?;
    let which = literals.get(k).copied().unwrap_or(0);
    builder.choice(which, high, low)
}

/// The literal of a function of these literals.
pub fn literal_of_cells(
    builder: &mut Builder,
    cells: u64,
    literals: &[u32],
    way: Way,
) -> Result<u32, AllocError> {
    literal_to(builder, cells, literals, way, MOST_SPLITS)
}
