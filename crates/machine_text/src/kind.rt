//! Why a text is no machine's.

use thiserror::Error;

/// What is wrong with a line, or with the whole text.
#[derive(Clone, Copy, Debug, PartialEq, Eq)]
pub enum MachineKind {
    /// A bad byte stands in the line.
    Byte,
    /// The first word is none of the nine, the number of words is wrong, or `teramac` isn't followed by `1` or `2`.
    Word,
    /// The first word is not the one that is due.
    Order,
    /// A count isn't a numeral from 1 to 65,535.
    Number,
    /// The text ends before the ninth line; this is at line 0.
    Missing,
    /// There are too many tables, wires, crosspoints or pins for the form, at the line `end`; or too many bytes, at line 0.
    Limit,
    /// The nine lines are complete.
    After,
}

/// Why a text gives no shape.
#[derive(Clone, Copy, Debug, PartialEq, Eq, Error)]
pub enum MachineFault {
    /// A line is faulty; line 0 stands for the whole text.
    #[error("line {line} of the machine: {kind:?}")]
    At { line: u64, kind: MachineKind },
    /// Memory is wanting.
    #[error("out of memory")]
    Memory,
}
