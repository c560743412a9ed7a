//! Latches that are alike.
//!
//! They are alike until something tells them apart: at first those that have the same bits in cycles by chance, and the constants
//! with them; then those part that read different literals, in a graph in which what is alike is one, until none part. What is
//! left reads the same literals, and begins alike.

use crate::numbers::{at, small};
use crate::simulate::Cycles;
use base_random::Draws;
use design_netlist::{LatchDef, NetlistData};
use std::alloc::{AllocError, Global};
use std::collections::HashMap;

/// In how many cycles, of 64 runs each, bits are compared at first.
const CYCLES: u32 = 48;

/// The classes of latches that are a constant.
const CONSTANTS: u32 = 2;

/// What stands for a latch.
#[derive(Clone, Copy, Debug)]
pub enum Stand {
    /// The latch itself.
    Own,
    /// An earlier latch.
    Earlier(u32),
    /// A constant.
    Constant(bool),
}

/// Each latch stands for itself.
pub fn own_stands(alloc: Global, count: usize) -> Result<Vec<Stand>, AllocError> {
    vec![in alloc; Stand::Own; count]
}

/// Each latch is a class of its own.
pub fn own_classes(alloc: Global, count: usize) -> Result<Vec<u32>, AllocError> {
    let mut classes = Vec::with_capacity(alloc, count)?;
    'latches: for k in 0..count {
        classes.push(small(k).saturating_add(CONSTANTS))?;
    }
    Ok(classes)
}

/// What stands for latches of classes: those of class 0 and 1 are this constant, of others the first one stands for all.
pub fn stands_of(alloc: Global, classes: &[u32]) -> Result<Vec<Stand>, AllocError> {
    let mut first = HashMap::new(alloc);
    let mut stands = Vec::with_capacity(alloc, classes.len())?;
    let mut place = 0u32;
    'latches: for class in classes {
        let earlier: Option<u32> = first.get(class).copied();
        if *class < CONSTANTS {
            stands.push(Stand::Constant(*class == 1))?;
        } else if let Some(earlier) = earlier {
            stands.push(Stand::Earlier(earlier))?;
        } else {
            let _ = first.insert(*class, place)?;
            stands.push(Stand::Own)?;
        }
        place = place.saturating_add(1);
    }
    Ok(stands)
}

// The number of a key, a new one if it has none.
fn number_of(numbers: &mut HashMap<u64, u32>, next: &mut u32, key: u64) -> Result<u32, AllocError> {
    if let Some(number) = numbers.get(&key) {
        return Ok(*number);
    }
    let number = *next;
    let _ = numbers.insert(key, number)?;
    *next = number.saturating_add(1);
    Ok(number)
}

// The class of a latch whose bits have a sign: a constant if they never differ from it.
fn first_class(sign: u64, zeros: u64, ones: u64) -> Option<u32> {
    if sign == zeros {
        Some(0)
    } else if sign == ones {
        Some(1)
    } else {
        None
    }
}

// The class of a latch that is this constant, or has this sign.
fn class_of(
    numbers: &mut HashMap<u64, u32>,
    next: &mut u32,
    constant: Option<u32>,
    sign: u64,
) -> Result<u32, AllocError> {
    match constant {
        Some(class) => Ok(class),
        None => number_of(numbers, next, sign),
    }
}

// The classes of latches by the signs of their bits.
fn classes_by(alloc: Global, signs: &[u64], zeros: u64, ones: u64) -> Result<Vec<u32>, AllocError> {
    let mut numbers = HashMap::new(alloc);
    let mut next = CONSTANTS;
    let mut classes = Vec::with_capacity(alloc, signs.len())?;
    'latches: for sign in signs {
        let constant = first_class(*sign, zeros, ones);
        let class = class_of(&mut numbers, &mut next, constant, *sign)?;
        classes.push(class)?;
    }
    Ok(classes)
}

// Mixes a word into a sign.
fn mixed(sign: u64, word: u64) -> u64 {
    let sum = sign.rotate_left(23) ^ word;
    sum.wrapping_mul(0x9e37_79b9_7f4a_7c15)
}

// Mixes a word into the sign at a place.
fn mix_at(signs: &mut Vec<u64>, place: usize, word: u64) {
    if place < signs.len() {
        signs[place] = mixed(signs[place], word);
    }
}

// Mixes the words of latches into their signs.
fn mix_words(signs: &mut Vec<u64>, cycles: &Cycles, latches: &[LatchDef], labels: &[u32]) {
    'latches: for k in 0..latches.len() {
        let label = at(labels, latches[k].out as usize);
        mix_at(signs, k, cycles.word(label));
    }
}

/// The classes of latches by their bits in some cycles, where each stands for itself in the cycles' graph.
pub fn first_classes(
    alloc: Global,
    draft: &NetlistData,
    labels: &[u32],
    cycles: &mut Cycles,
) -> Result<Vec<u32>, AllocError> {
    let latches = draft.latches.as_slice();
    let mut signs = vec![in alloc; 0; latches.len()]?;
    let mut zeros = 0;
    let mut ones = 0;
    let mut draws = Draws::new(1);
    cycles.begin(latches, labels);
    'cycles: for _ in 0..CYCLES {
        cycles.draw_inputs(&mut draws, draft.inputs.as_slice(), labels);
        mix_words(&mut signs, cycles, latches, labels);
        zeros = mixed(zeros, 0);
        ones = mixed(ones, u64::MAX);
        cycles.step(latches, labels)?;
    }
    classes_by(alloc, &signs, zeros, ones)
}

// The class of a latch after what it reads was looked at: a constant stays one if it reads it.
fn class_by(
    numbers: &mut HashMap<u64, u32>,
    free: &mut u32,
    class: u32,
    next: u32,
) -> Result<u32, AllocError> {
    if class < CONSTANTS && next == class {
        return Ok(class);
    }
    let key = (class as u64).wrapping_shl(32) | next as u64;
    number_of(numbers, free, key)
}

/// How many classes there are, and how many latches are constants.
fn sizes_of(classes: &[u32]) -> (u32, usize) {
    let mut most = 0;
    let mut constants = 0usize;
    'latches: for class in classes {
        most = most.max(*class);
        if *class < CONSTANTS {
            constants = constants.saturating_add(1);
        }
    }
    (most, constants)
}

/// Parts latches of a class that read different literals; whether some part.
pub fn part(
    alloc: Global,
    latches: &[LatchDef],
    labels: &[u32],
    classes: &mut Vec<u32>,
) -> Result<bool, AllocError> {
    let (before, constants) = sizes_of(classes);
    let mut numbers = HashMap::new(alloc);
    let mut free = CONSTANTS;
    'latches: for (latch, class) in latches.iter().zip(classes.iter_mut()) {
        let next = at(labels, latch.from as usize);
        *class = class_by(&mut numbers, &mut free, *class, next)?;
    }
    let (after, left) = sizes_of(classes);
    Ok(after > before || left < constants)
}
