//! Machines whose faults come and go, and what is left alone of them.
//!
//! A history gives the faults of a machine at each instant of each cycle. Over a history there is one run; over one and the same
//! set it is the run under this set; and the first cycles of a run over a history are one (`over`). A tenant of an image is a part
//! of it that shares no wire with the rest. Where a history leaves it alone it reads as it does by itself on a machine without
//! faults, whatever is done to all else, at any time (`alone`).
#![tactic(auto)]

pub mod alone;
pub mod over;
