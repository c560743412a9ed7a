//! Reads designs in BLIF, the Berkeley logic interchange format.
//!
//! What is read is a design: the text's lines are right, and the netlist is the one that its models spell, with every signal
//! driven once and no cover on a cycle (`found`). Each refusal is at the first line that has a fault, with the kind that comes
//! first on it (`refused`). Every design within 16,777,216 bytes is read (`only`). A text is the text of no second design
//! (`laws::a_text_has_one_design`).
#![tactic(auto)]

mod head;
mod kind;
pub mod laws;
mod lines;
mod names;
mod read;
mod reader;
mod text;

pub use read::read_blif;
