//! Several models, read as one netlist.
//!
//! The lines that use a model are replaced by that model's lines until none is left; the netlist is read from what then stands there.
#![tactic(auto)]

mod bodies;
mod catalog;
mod clocks;
mod design;
mod drives;
mod formals;
mod frames;
mod given;
mod lists;
mod model;
mod name_set;
mod needs;
mod ordered;
mod placed;
mod printed;
mod read;
mod recursion;
mod refusal;
mod signals;
mod sink;
mod uses;
mod words;
mod work;

pub use design::flatten;
pub use model::{Model, PairDef, Piece, Signal};
