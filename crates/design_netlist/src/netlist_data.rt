//! A design before it is checked: its names, ports, covers and latches.

use crate::names::Names;
use base_lists::Items;

/// The name of a signal or of a model: its bytes.
pub type Name = Items<u8>;

/// What a row wants of an input.
#[derive(Clone, Copy, Debug, PartialEq, Eq)]
pub enum Lit {
    /// The input is 0.
    Zero,
    /// The input is 1.
    One,
    /// The input is 0 or 1.
    Any,
}

/// A row of a cover: one entry for each of the cover's inputs.
pub type Cube = Items<Lit>;

/// A combinational function: a `.names` line with its rows.
#[derive(Debug, Drop)]
pub struct Cover {
    /// The signal that it drives.
    pub out: u32,
    /// The signals that it reads, in order. A signal may stand there twice.
    pub ins: Items<u32>,
    /// Each row is as long as `ins`.
    pub rows: Items<Cube>,
    /// Whether the rows list where the function is 0.
    pub off: bool,
    /// The number of its line in the file, from 1.
    pub line: u64,
}

/// A latch: it gives at each cycle what it read at the one before.
#[derive(Clone, Copy, Debug, PartialEq, Eq)]
pub struct LatchDef {
    /// The signal that it reads.
    pub from: u32,
    /// The signal that it drives.
    pub out: u32,
    /// What it gives at the first cycle.
    pub init: bool,
    /// The number of its line in the file, from 1.
    pub line: u64,
}

/// A name that stands on a line: an input, an output, or any other word that drives or reads.
#[derive(Clone, Copy, Debug, PartialEq, Eq)]
pub struct PortDef {
    /// The signal that is named.
    pub signal: u32,
    /// The number of the line in the file, from 1.
    pub line: u64,
}

/// A design before it is checked. A signal is a number below the length of `names`.
#[derive(Debug, Drop)]
pub struct NetlistData {
    /// The names of the signals. Two signals may have the same name.
    pub names: Names,
    /// The inputs of the design, in order.
    pub inputs: Items<PortDef>,
    /// The outputs of the design, in order.
    pub outputs: Items<PortDef>,
    /// The combinational functions.
    pub covers: Items<Cover>,
    /// The latches.
    pub latches: Items<LatchDef>,
}
