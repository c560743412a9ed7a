//! Lists of the defects of a machine: which wires, crosspoints and tables are listed, what is free, and their text.
//!
//! A list of defects after any calls: a listed crosspoint has no listed wire, and a listed table no listed pin; which wires,
//! crosspoints, tables and lines are free or open, and how many of each, exactly. A defects text has one spelling: what is read
//! is the spelling of the list that is given (`found`), every list's spelling within the machine's limit on bytes is read (`only`), and each
//! refusal is the first fault, by line and then by the order of the kinds (`refused`).
#![tactic(auto)]

mod counts;
mod entry;
mod form;
mod kept;
mod kind;
mod laws;
mod list;
mod read;
mod sweep;
mod write;

pub use kind::{DefectsFault, DefectsKind};
pub use laws::the_tests_are_right;
pub use list::Defects;
pub use read::read_defects;
pub use write::defects_text;
