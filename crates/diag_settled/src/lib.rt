//! Lists of the defects of a machine of the rig, behind which the last test has ended too.
//!
//! A rig that asks its machine again asks for a session again when the next one begins. So behind the last test nothing is loaded: then
//! each test has been asked again before anything is said of the machine.
//!
//! Promised: `list_settled` and `write_settled` are as `list_of` and `write_list` of `diag_list`, and with this load they took no more
//! than those may; `settle` makes one load at most, and no cycle.
#![tactic(auto)]

mod settled;

pub use settled::{list_settled, loads_of, settle, write_settled};
