//! The parts of names that share beginnings.

use crate::netlist_data::Name;

/// A text with which names may begin.
#[derive(Debug, Drop)]
pub struct Beginning {
    /// The place of the beginning that stands in front of this one, if it is earlier in the list.
    pub before: u32,
    pub text: Name,
}

/// A name by its beginning and its end.
#[derive(Debug, Drop)]
pub struct Shared {
    /// The place of its beginning.
    pub beginning: Option<u32>,
    pub end: Name,
}
