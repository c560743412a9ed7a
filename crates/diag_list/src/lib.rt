//! Lists of the defects of a machine of the rig.
//!
//! Promised: `list_of` lists the defects of the attached machine, as `diagnose` does, with few loads and few cycles for each;
//! `write_list` writes the list besides. The list covers each set of faults that explains all that was read of the machine, and is
//! tight to each.
#![tactic(auto)]

mod listing;

pub use listing::{list_machine, list_of, write_list};
