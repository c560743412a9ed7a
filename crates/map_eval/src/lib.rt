//! The rows of a network of tables, cycle by cycle, for networks with latched tables.
//!
//! A signal is a table or an input. Each table keeps the address that its pins make, and what it gives; a change of a signal turns
//! one bit in the address of each table that reads it, and marks those whose cell there isn't what they give. A cycle looks at
//! marked tables alone. For that the tables are numbered anew, by levels, in a network with the same rows. After a cycle that
//! changed many tables some cycles evaluate all of them, in order, which is quicker then.
//!
//! Promised (`NetworkEval`): after any list of `step` calls the rows given are the network's for the vectors (`start`, `step`). No
//! call takes memory after `start`, which answers None only where a network has too many tables or isn't in order.
#![tactic(auto)]

mod busy;
mod eval;
mod latching;
mod ordering;
mod pins;
mod placing;
mod plan;
mod refreshing;
mod running;
mod settling;
mod showing;
mod starting;
mod state;
mod wires;
mod words;

pub use eval::{MOST_TABLES, NetworkEval};
