//! Why a text is no list of defects.

use thiserror::Error;

/// What is wrong with a line, or with the whole text.
#[derive(Clone, Copy, Debug, PartialEq, Eq)]
pub enum DefectsKind {
    /// The line has no right form, or isn't in its place.
    Word,
    /// The entry's kind or number is before the last entry's.
    Order,
    /// A word is no wire or table, or the two are no tap and line of one crosspoint.
    Name,
    /// The twelve numbers aren't the machine's.
    WrongMachine,
    /// The entry stands there already, or a wire of it is listed; of a table, one of its pins.
    Doubled,
    /// Bytes stand after the line `end`.
    After,
    /// There are too many bytes, at line 0.
    Limit,
}

/// Why a text gives no list of defects.
#[derive(Clone, Copy, Debug, PartialEq, Eq, Error)]
pub enum DefectsFault {
    /// A line is faulty; line 0 stands for the whole text.
    #[error("line {line} of the defects: {kind:?}")]
    At { line: u64, kind: DefectsKind },
    /// Memory is wanting.
    #[error("out of memory")]
    Memory,
}
