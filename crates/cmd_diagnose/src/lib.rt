//! The command that lists the defects of a machine of the rig.
//!
//! Promised (`diagnose`): it does its job to every end (`does`), and the job is lawful (`lawful`). At status 0 the text of a list
//! is written that covers each set of faults that explains all that was read of the machine, and is tight to it; at every end few
//! loads were made, none but those of the list, and few cycles for each (`Promises`). The last of them loads nothing (`write_settled`).
#![tactic(auto)]

mod command;

pub use command::diagnose;
