//! The command that runs an image on a machine of the rig.
//!
//! Promised (`run`): it does its job to every end (`does`), and the job is lawful (`lawful`). At status 0 the image was loaded,
//! the vectors were driven, and what was read is written (`Promises`).
#![tactic(auto)]

mod command;

pub use command::run;
