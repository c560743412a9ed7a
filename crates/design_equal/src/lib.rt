//! A check that two designs have the same rows.
//!
//! All signals of both designs are labelled by literals of one graph of ANDs. The labels are a right valuation of each design,
//! whatever the bits of the graph's inputs and latches, so where both designs are labelled (`is_labelled`) and their outputs have
//! the same labels (`agree`), their rows are the same (`laws`). False of a call says nothing: labels that are right may be too
//! hard to show.
#![tactic(auto)]

mod cells;
mod check;
mod cover;
mod expand;
mod graph;
pub mod laws;
mod nodes;
mod plan;
mod ports;
mod products;
mod steps;
mod wide;
mod words;

pub use cells::cells_at;
pub use check::{agree, first_unshown, is_labelled};
pub use graph::{And, Graph, GraphLatch};
