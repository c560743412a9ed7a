//! Two rigs that compare readings: one that asks its machine several times, and two machines side by side.
//!
//! All that is promised of a machine is of one unchanging set of faults. These rigs find some breaks of that while the tool
//! runs, and prove nothing of the rest. Over machines that keep to it they raise no alarm (`caused`), and none where a set of faults
//! explains what was read (`no_alarm`). Their log has each session once, as the caller made it; what explains the log inside explains it
//! (`explained`).
#![tactic(auto)]

mod copied;
mod ended;
mod kept;
mod pairs;
mod repeat_rig;
mod rows;
mod twin_rig;

pub use repeat_rig::RepeatRig;
pub use twin_rig::TwinRig;
