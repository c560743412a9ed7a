//! What a tree of tables reads.

use crate::source::Source;
use design_netlist::Lit;

/// A source, and the value that is wanted of it.
#[derive(Clone, Copy, Debug, PartialEq, Eq)]
pub struct Want {
    /// What is read.
    pub source: Source,
    /// `Zero` or `One`.
    pub lit: Lit,
}

/// How a tree takes its wants together.
#[derive(Clone, Copy, Debug, PartialEq, Eq)]
pub enum Gate {
    /// All are met.
    All,
    /// Some is met.
    Some,
}
