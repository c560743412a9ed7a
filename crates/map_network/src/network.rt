//! A network of tables.

use crate::source::{Source, Sources};
use base_lists::Items;

/// A table: a function of at most six inputs, with a register where it is latched.
#[derive(Debug, Drop)]
pub struct NetTable {
    /// What its input pins read, from pin 0 on. A pin beyond the list counts as 1.
    pub ins: Sources,
    /// Bit a is what the table gives at address a; bit j of an address is what pin j reads.
    pub cells: u64,
    /// Whether it gives at each cycle what it took at the end of the one before.
    pub latched: bool,
    /// What it gives at the first cycle, if it is latched.
    pub init: bool,
}

/// A network of tables. Calls that take one want its sources to be in range, at most six inputs for a table, fewer
/// than 4,294,967,296 tables, and no cycle of combinational tables.
#[derive(Debug, Drop)]
pub struct Network {
    /// How many inputs the network has.
    pub inputs: u32,
    /// The tables, by their numbers.
    pub tables: Items<NetTable>,
    /// What the outputs of the network show, in order.
    pub outputs: Items<Source>,
}
