//! Why a text is no fault set's.

use thiserror::Error;

/// What is wrong with a line, or with the whole text. The first that there is is told, in this order.
#[derive(Clone, Copy, Debug, PartialEq, Eq)]
pub enum FaultsKind {
    /// A bad byte stands in the line.
    Byte,
    /// The first word begins no entry, or the number of words is wrong.
    Word,
    /// A word that is to be the name of a wire isn't.
    Wire,
    /// The two wires are no tap and line of one crosspoint, in this order.
    Cross,
    /// A cell's entry names no table, address or value.
    Cell,
    /// A register's entry names no table or value.
    Register,
    /// A wire is bridged with itself.
    Same,
    /// The fault is there already; a bridge, in either order.
    Doubled,
    /// The other value is there for this wire, crosspoint, cell or register.
    Against,
    /// As many entries stand before as the machine's set may have; or there are too many bytes, at line 0.
    Limit,
}

/// Why a text gives no fault set.
#[derive(Clone, Copy, Debug, PartialEq, Eq, Error)]
pub enum FaultsFault {
    /// A line is faulty; line 0 stands for the whole text.
    #[error("line {line} of the faults: {kind:?}")]
    At { line: u64, kind: FaultsKind },
    /// Memory is wanting.
    #[error("out of memory")]
    Memory,
}
