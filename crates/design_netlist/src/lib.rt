//! Designs as netlists, and the checks that make one sound.
//!
//! Accepted exactly where no signal is driven twice, none that is read is undriven and no cover is on a cycle; else the first
//! such by line and place (`found`, `refused`, `only`). A checked design has exactly one right valuation for each state and
//! vector, and exactly one list of rows (`laws`). It also groups covers that reach one another (`groups_of`), gives a cover's
//! truth (`truth_of`; `cover_word` for 64 valuations at once), and keeps names that share their beginnings (`Names`).
#![tactic(auto)]

mod checks;
mod cycles;
mod drives;
mod eval;
mod fault;
mod groups;
pub mod laws;
mod names;
mod netlist;
mod netlist_data;
mod reads;
mod search;
mod shared;
mod well_made;
mod word_truth;

pub use checks::check;
pub use drives::{drives_of, first_doubled, first_words};
pub use eval::truth_of;
pub use fault::{DesignFault, DesignKind};
pub use groups::groups_of;
pub use names::Names;
pub use netlist::Netlist;
pub use netlist_data::{Cover, Cube, LatchDef, Lit, Name, NetlistData, PortDef};
pub use reads::nearer_word;
pub use shared::{Beginning, Shared};
pub use word_truth::{cover_word, lane_word};
