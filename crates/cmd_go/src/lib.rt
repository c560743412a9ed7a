//! The command that runs a design on a machine of the rig, whatever is wrong with it.
//!
//! Promised (`go`): it does its job to every end (`does`), and the job is lawful: right files lead to status 0, lack of memory or
//! a failure, and on a small machine no room on the list that stands written to status 3 (`lawful`). What it has done, at every
//! end and at status 0: `Promises`. What is said there of faults is said of each set that explains all that was read of the
//! machine. Where there are parts enough for the design under one such set, there is room.
#![tactic(auto)]

mod command;
mod design;

pub use command::go;
