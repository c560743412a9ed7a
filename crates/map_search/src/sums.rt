//! Sums of products of any width.

use crate::numbers::at;
use design_netlist::{Cover, Lit};
use std::alloc::{AllocError, Global};

/// Products, each as its literals in order, one list behind the other, and where each ends.
#[derive(Drop)]
pub struct Sum {
    pub literals: Vec<u32>,
    ends: Vec<usize>,
}

impl Sum {
    /// No products.
    pub fn new(alloc: Global) -> Sum {
        Sum {
            literals: Vec::new(alloc),
            ends: Vec::new(alloc),
        }
    }

    /// How many products there are.
    pub fn len(&self) -> usize {
        self.ends.len()
    }

    // Where a product ends, and the first begins.
    fn end(&self, count: usize) -> usize {
        if count == 0 {
            return 0;
        }
        self.ends.get(count - 1).copied().unwrap_or(0)
    }

    /// The literals of a product.
    pub fn product(&self, k: usize) -> &[u32] {
        let from = self.end(k);
        let to = self.end(k.saturating_add(1));
        if from <= to && to <= self.literals.len() {
            &self.literals[from..to]
        } else {
            &[]
        }
    }

    /// Adds a product of literals in order.
    pub fn push(&mut self, literals: &[u32]) -> Result<(), AllocError> {
        self.literals.extend_from_slice(literals)?;
        self.ends.push(self.literals.len())?;
        Ok(())
    }

    // Adds the product of a row, where signals have these labels, unless it is 0.
    fn add_row(
        &mut self,
        alloc: Global,
        row: &[Lit],
        ins: &[u32],
        labels: &[u32],
    ) -> Result<(), AllocError> {
        let literals = literals_of(alloc, row, ins, labels)?;
        if !is_contradictory(&literals) {
            self.push(&literals)?;
        }
        Ok(())
    }

    /// Whether a product has no literals, so that the sum is 1.
    pub fn has_empty(&self) -> bool {
        'products: for k in 0..self.len() {
            if self.product(k).len() == 0 {
                return true;
            }
        }
        false
    }
}

/// The literals of the first list that are in the second one, or those that aren't.
pub fn literals_among(
    alloc: Global,
    literals: &[u32],
    others: &[u32],
    wanted: bool,
) -> Result<Vec<u32>, AllocError> {
    let mut found = Vec::new(alloc);
    'literals: for literal in literals {
        if others.binary_search(literal).is_ok() == wanted {
            found.push(*literal)?;
        }
    }
    Ok(found)
}

/// The products with a literal, or those without it.
pub fn part(alloc: Global, sum: &Sum, literal: u32, wanted: bool) -> Result<Sum, AllocError> {
    let mut part = Sum::new(alloc);
    'products: for k in 0..sum.len() {
        let product = sum.product(k);
        if product.binary_search(&literal).is_ok() == wanted {
            part.push(product)?;
        }
    }
    Ok(part)
}

/// The literals that all products have.
pub fn common(alloc: Global, sum: &Sum) -> Result<Vec<u32>, AllocError> {
    let mut common = Vec::from_slice(alloc, sum.product(0))?;
    'products: for k in 1..sum.len() {
        common = literals_among(alloc, &common, sum.product(k), true)?;
    }
    Ok(common)
}

/// The products without these literals.
pub fn divide_sum(alloc: Global, sum: &Sum, literals: &[u32]) -> Result<Sum, AllocError> {
    let mut quotient = Sum::new(alloc);
    'products: for k in 0..sum.len() {
        let product = literals_among(alloc, sum.product(k), literals, false)?;
        quotient.push(&product)?;
    }
    Ok(quotient)
}

// What a row wants of an input, as a literal, if it wants anything.
fn literal_of(lit: &Lit, label: u32) -> Option<u32> {
    match lit {
        Lit::Zero => Some(label ^ 1),
        Lit::One => Some(label),
        Lit::Any => None,
    }
}

// The literals of a row, where signals have these labels.
fn literals_of(
    alloc: Global,
    row: &[Lit],
    ins: &[u32],
    labels: &[u32],
) -> Result<Vec<u32>, AllocError> {
    let mut literals = Vec::new(alloc);
    'places: for (lit, signal) in row.iter().zip(ins) {
        if let Some(literal) = literal_of(lit, at(labels, *signal as usize)) {
            literals.push(literal)?;
        }
    }
    literals.sort_unstable();
    literals.dedup();
    Ok(literals)
}

// Whether a product of literals in order is 0, since it has a literal and its opposite, or the constant 0.
fn is_contradictory(literals: &[u32]) -> bool {
    let mut last = 1;
    'literals: for literal in literals {
        if *literal == 0 || *literal == last ^ 1 && last & 1 == 0 {
            return true;
        }
        last = *literal;
    }
    false
}

/// The sum of a cover's rows, where signals have these labels.
pub fn sum_of(alloc: Global, cover: &Cover, labels: &[u32]) -> Result<Sum, AllocError> {
    let mut sum = Sum::new(alloc);
    'rows: for row in cover.rows.as_slice() {
        sum.add_row(alloc, row.as_slice(), cover.ins.as_slice(), labels)?;
    }
    Ok(sum)
}
