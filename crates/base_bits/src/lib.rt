//! Sets of numbers, one bit for each number.
//!
//! After any calls a set holds what was put in and not taken out.
#![tactic(auto)]

mod bit_set;
mod bits;

pub use bit_set::{BitSet, sets_hold_what_was_put_in};
pub use bits::{WORD_BITS, word_with};
