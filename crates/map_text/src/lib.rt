//! Another text of a design: the same rows, no more tables, and where it is asked for, room.
//!
//! The search for such texts is not proved. Each text that it comes to is read again, its names are compared, its signals are
//! labelled by the graph that the search worked on, and the two designs are compared by these labels; so whatever the search and
//! the writer do, what is answered has the rows of the given design.
//!
//! Promised (`remapped`, `remapped_within`): the text is that of the netlist beside it, which has the given netlist's rows, the
//! names of its inputs and outputs, and no more tables in its plain network (`remapped`); each of its covers has at most six
//! different inputs, or it is the given text (`narrow`). The plan in order of `remapped_within` fits the list (`room`), and want of
//! room is answered only where that of the given netlist doesn't fit (`refused`). A design's own text is its netlist remapped, and
//! what is remapped twice is remapped (`laws`).
#![tactic(auto)]

mod check;
pub mod laws;
mod names;
mod room;
mod rounds;
mod text;

pub use room::remapped_within;
pub use rounds::remapped;
pub use text::Remapped;
