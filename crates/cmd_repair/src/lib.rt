//! The command that repairs an image for a machine with defects.
//!
//! Promised (`repair`): it does its job to every end (`does`), and the job is lawful: it has room exactly where the repair plan
//! has, and is refused before that where the image closes more crosspoints than `most_repaired` of its machine (`lawful`). What is written at status
//! 0: `Promises`.
#![tactic(auto)]

mod command;
mod repairing;

pub use command::repair;
