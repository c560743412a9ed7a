//! The sizes of a table, for designs and for the machine alike.
#![tactic(auto)]

/// How many inputs a table has.
pub const TABLE_INPUTS: usize = 6;

/// How many pins a table has: its inputs, and its output behind them.
pub const TABLE_PINS: u32 = 7;

/// How many cells a table has, one at each address that its inputs can spell.
pub const TABLE_CELLS: u32 = 64;
