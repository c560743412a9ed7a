//! The command that writes the rows of a design.
//!
//! A design with latches is run by its merged network (`map_eval`), where its plain one isn't too large, and any other by its
//! covers (`design_eval`). Both give the design's rows, and no contract says which it is.
//!
//! Promised (`eval`): it does its job to every end (`does`), and the job is lawful: right files lead to status 0, lack of memory
//! or a failure (`lawful`). At status 0 the line `outputs` and the netlist's rows for the file's vectors are written
//! (`Promises`).
#![tactic(auto)]

mod engine;
mod evaluation;

pub use evaluation::eval;
