//! Chance that is the same in each run: the one generator of numbers.
//!
//! Its states, and what each kind of draw answers from the state that it makes, exactly.
#![tactic(auto)]

mod draws;

pub use draws::Draws;
