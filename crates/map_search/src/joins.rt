//! Sums with fewer products: those that differ in one literal alone become one, and those that hold another one go.

use crate::builder::Builder;
use crate::sums::{Sum, literals_among};
use std::alloc::{AllocError, Global};
use std::collections::HashMap;

/// How many literals are looked at for a sum, at most.
const MOST_LOOKS: usize = 4_000_000;

/// Products while they are joined: which are gone, and where the last of those with these literals stands.
#[derive(Drop)]
struct Joins {
    alloc: Global,
    products: Vec<Vec<u32>>,
    gone: Vec<bool>,
    known: HashMap<Vec<u32>, usize>,
}

// A product whose literal at a place is the opposite one, or isn't there.
fn without(
    alloc: Global,
    product: &[u32],
    place: usize,
    turned: bool,
) -> Result<Vec<u32>, AllocError> {
    let mut other = Vec::with_capacity(alloc, product.len())?;
    'literals: for k in 0..product.len() {
        if k != place {
            other.push(product[k])?;
        } else if turned {
            other.push(product[k] ^ 1)?;
        }
    }
    Ok(other)
}

impl Joins {
    // Adds a product, unless it is there.
    fn add(&mut self, product: Vec<u32>) -> Result<(), AllocError> {
        if self.place_of(&product).is_some() {
            return Ok(());
        }
        self.note(&product)?;
        self.put(product)
    }

    // Notes that the next product has these literals.
    fn note(&mut self, product: &[u32]) -> Result<(), AllocError> {
        let key = Vec::from_slice(self.alloc, product)?;
        let _ = self.known.insert(key, self.products.len())?;
        Ok(())
    }

    // Puts a product behind the others.
    fn put(&mut self, product: Vec<u32>) -> Result<(), AllocError> {
        self.products.push(product)?;
        self.gone.push(false)?;
        Ok(())
    }

    // Where a product stands, if it is there.
    fn place_of(&self, product: &[u32]) -> Option<usize> {
        let place = *self.known.get(product)?;
        if self.is_there(place) {
            Some(place)
        } else {
            None
        }
    }

    // Whether the product at a place is there.
    fn is_there(&self, place: usize) -> bool {
        place < self.gone.len() && !self.gone[place]
    }

    // The product at a place goes.
    fn drop_at(&mut self, place: usize) {
        if place < self.gone.len() {
            self.gone[place] = true;
        }
    }

    // The literals of a product again.
    fn copy_at(&self, place: usize) -> Result<Vec<u32>, AllocError> {
        match self.products.get(place) {
            Some(product) => Vec::from_slice(self.alloc, product),
            None => Ok(Vec::new(self.alloc)),
        }
    }

    // Joins a product with the first one that differs from it in one literal.
    fn join(&mut self, place: usize) -> Result<(), AllocError> {
        let product = self.copy_at(place)?;
        'literals: for k in 0..product.len() {
            if let Some(found) = self.opposite(&product, k)? {
                self.drop_at(place);
                self.drop_at(found);
                return self.add_without(&product, k);
            }
        }
        Ok(())
    }

    // Where the product stands that differs from one in the literal at a place, if it is there.
    fn opposite(&self, product: &[u32], k: usize) -> Result<Option<usize>, AllocError> {
        let other = without(self.alloc, product, k, true)?;
        Ok(self.place_of(&other))
    }

    // Adds a product without its literal at a place.
    fn add_without(&mut self, product: &[u32], k: usize) -> Result<(), AllocError> {
        let both = without(self.alloc, product, k, false)?;
        self.add(both)
    }

    // Joins products, those that come of it too.
    fn join_all(&mut self) -> Result<(), AllocError> {
        let most = self.products.len().saturating_mul(2);
        'products: for k in 0..most {
            if self.is_there(k) {
                self.join(k)?;
            }
        }
        Ok(())
    }

    // Adds the products of a sum.
    fn add_all(&mut self, sum: &Sum) -> Result<(), AllocError> {
        'products: for k in 0..sum.len() {
            let product = Vec::from_slice(self.alloc, sum.product(k))?;
            self.add(product)?;
        }
        Ok(())
    }

    // The products that are there.
    fn kept(&self) -> Result<Sum, AllocError> {
        let mut kept = Sum::new(self.alloc);
        'products: for k in 0..self.products.len() {
            if self.is_there(k) {
                kept.push(&self.products[k])?;
            }
        }
        Ok(kept)
    }
}

// A word that tells most products apart: what holds another one has its bits.
fn sign_of(product: &[u32]) -> u64 {
    let mut sign = 0;
    'literals: for literal in product {
        sign |= 1u64.wrapping_shl(literal.wrapping_mul(0x9e37_79b1) >> 26);
    }
    sign
}

// The signs of products.
fn signs_of(alloc: Global, sum: &Sum) -> Result<Vec<u64>, AllocError> {
    let mut signs = Vec::with_capacity(alloc, sum.len())?;
    'products: for k in 0..sum.len() {
        signs.push(sign_of(sum.product(k)))?;
    }
    Ok(signs)
}

// Whether a product holds another one, which is shorter.
fn is_held(alloc: Global, product: &[u32], other: &[u32]) -> Result<bool, AllocError> {
    if other.len() >= product.len() {
        return Ok(false);
    }
    let missing = literals_among(alloc, other, product, false)?;
    Ok(missing.len() == 0)
}

// Whether a product holds a shorter one.
fn holds_another(
    alloc: Global,
    sum: &Sum,
    signs: &[u64],
    place: usize,
) -> Result<bool, AllocError> {
    let product = sum.product(place);
    let sign = sign_of(product);
    'products: for k in 0..signs.len() {
        if signs[k] & !sign == 0 && is_held(alloc, product, sum.product(k))? {
            return Ok(true);
        }
    }
    Ok(false)
}

// The products that hold no other one.
fn least(alloc: Global, sum: &Sum) -> Result<Sum, AllocError> {
    let signs = signs_of(alloc, sum)?;
    let mut kept = Sum::new(alloc);
    'products: for k in 0..sum.len() {
        let held = holds_another(alloc, sum, &signs, k)?;
        if !held {
            kept.push(sum.product(k))?;
        }
    }
    Ok(kept)
}

// The products of a sum, joined.
fn joined(alloc: Global, sum: &Sum) -> Result<Sum, AllocError> {
    let mut joins = Joins {
        alloc,
        products: Vec::new(alloc),
        gone: Vec::new(alloc),
        known: HashMap::new(alloc),
    };
    joins.add_all(sum)?;
    joins.join_all()?;
    joins.kept()
}

/// A sum of the same function with fewer products, where there are few enough to compare them.
pub fn lessened(builder: &mut Builder, sum: Sum) -> Result<Sum, AllocError> {
    let count = sum.len();
    let width = sum.literals.len();
    if count < 2 || width.saturating_mul(count) > MOST_LOOKS {
        return Ok(sum);
    }
    let fewer = joined(builder.alloc, &sum)?;
    least(builder.alloc, &fewer)
}
