//! The rows of a netlist. What reads vectors and writes rows is handed on from `design_vectors`.
//!
//! Each step gives the outputs in a right valuation and then takes the next state; `step_ahead` does the same whatever the text
//! that it is given says of the vectors to come. No call takes memory after its constructor.
#![tactic(auto)]

mod bits;
mod block;
mod eval;
mod lanes;
mod latches;
mod marks;
mod plan;
mod readers;
mod smalls;
mod table_word;
mod tables;
mod turns;
mod wiring;
mod word_truth;

pub use design_vectors::{RowText, VectorKind, VectorText, VectorsFail};
pub use eval::Eval;
