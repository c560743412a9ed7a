//! The command that runs one design twice on a machine of the rig, whatever is wrong with it, and compares the two copies.
//!
//! Promised (`twice`): it does its job to every end (`does`), and the job is lawful (`lawful`). A `twice` that is done has done for
//! two copies of a design what a `pair` has for two designs: they share no wire, both are driven with each vector, and a row is
//! what both of them read. Where they read differently, the command ends with status 7, and nothing is written of that reading. Each
//! row that was written is right if one and the same copy was left alone, whatever happened to the other and to all the rest, at any
//! tick; and where one set of faults explains all that was read, status 7 never comes (`Promises`).
#![tactic(auto)]

mod command;
mod copied;

pub use command::twice;
