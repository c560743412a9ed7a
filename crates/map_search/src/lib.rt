//! The search of the mapper: graphs, cuts, covers, and the text of a design.
//!
//! A design becomes a graph of ANDs, in one of eight ways (`graph_of`); covers of at most six inputs are chosen among the cuts of
//! its nodes (`cover_design`), and written as a text (`design_text`), at whose head stands what it came to. Wide ANDs in place of
//! covers (`wide_ands`) let chains become trees. Nothing is proved of it but that it returns: what it finds is read again and compared
//! with the design by whoever takes it, for which `labels_by_name` gives the labels.
#![tactic(auto)]

mod areas;
mod balance;
mod builder;
mod cells;
mod cone;
mod controls;
mod covers;
mod cuts;
mod depth;
mod factor;
mod graph;
mod hints;
mod joins;
mod latches;
mod layout;
mod names;
mod narrow;
mod numbers;
mod passes;
mod products;
mod puts;
mod reach;
mod simulate;
mod sums;
mod tables;
mod text;
mod trees;
mod way;
mod words;

pub use balance::wide_ands;
pub use controls::control_of;
pub use covers::{Mapped, cover_design};
pub use graph::{Made, graph_of};
pub use names::FreeNames;
pub use text::{Head, design_text, labels_by_name};
pub use way::Way;
