//! Bulk tests before growth: many crosspoints, wires and tables are decided in one load.
//!
//! The search owes nothing, and stands in a crate of its own (`diag_search`). Each test is looked at before it is made, so each fact and
//! each mark rests on the test's own condition, and a purse pays for it: a load for each pin of the machine in the field, and two for
//! each crosspoint that was decided. What a sweep misses growth decides, and takes no load for what is decided.
//!
//! Promised of `sweep`, at every end, on every machine: what is known is so, and what is new is of the field (`progress`, `grows`); marks
//! are of the field and of the given tables, and stay true of each set of faults that explains what was read (`marks`, `progress`); and
//! loads are paid for (`pays`).
#![tactic(auto)]

mod asking;
mod branching;
mod budget;
mod choice;
mod defect_marks;
mod feet;
mod fits;
mod footing;
mod hanging;
mod hearing;
mod held;
mod informing;
mod knowledge;
mod laws;
mod leading;
mod learn;
mod losing;
mod paths;
mod seen;
mod sweep_state;
mod tabling;
mod telling;
mod trees;
mod turns;
mod whole;
mod without;

pub use choice::{Choices, choose, sweep_with};
pub use defect_marks::DefectMarks;
pub use knowledge::Knowledge;
pub use laws::{closed_without_bad, growth_after_a_sweep_is_paid, growth_without_bad_is_paid};
pub use whole::sweep;
pub use without::without_bad;
