//! Where a network sits on a machine.

use base_lists::Items;
use machine_shape::Table;

/// The tables and the pins on which a network sits.
#[derive(Debug, Drop)]
pub struct Plan {
    /// The table of the machine for each table of the network.
    pub tables: Items<Table>,
    /// The pin of the machine, by its position, for each input.
    pub inputs: Items<u32>,
    /// The pin for each output.
    pub outputs: Items<u32>,
}
