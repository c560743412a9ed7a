//! All that the mapper does: from the words of the command line to the status.
//!
//! Promised (`teramac_map`): the status is one of six (`statuses`), and one record, `MapPromises`, says the rest: what was asked, what
//! was written, what stays and the cause of the status at every end; that right words and texts, with room for the design as given
//! where a machine is named, lead to status 0 or out of memory; and that at status 0 the text that was written is the design
//! remapped, and fits the list where a machine is named. Such a text is laid by `compile` (`laws`).
#![tactic(auto)]

pub mod laws;
mod mapping;
mod program;

pub use program::teramac_map;
