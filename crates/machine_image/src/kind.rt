//! Why bytes are no image's.

use thiserror::Error;

/// What is wrong with a field, or with the whole.
#[derive(Clone, Copy, Debug, PartialEq, Eq)]
pub enum ImageKind {
    /// The first eight bytes aren't `TERAIMG1`.
    Magic,
    /// A count isn't the machine's.
    Shape,
    /// A number is out of its range.
    Range,
    /// A pin stands before, or a table or crosspoint isn't above the last.
    Order,
    /// The field isn't there whole; this is at the number of bytes.
    Short,
    /// A byte follows the last field.
    After,
    /// There are more than 16,777,216 bytes; this is at 0.
    Limit,
}

/// Why no image is read.
#[derive(Clone, Copy, Debug, PartialEq, Eq, Error)]
pub enum ImageFault {
    /// A field is faulty; `line` is the place of its first byte.
    #[error("byte {line} of the image: {kind:?}")]
    At { line: u64, kind: ImageKind },
    /// Memory is wanting.
    #[error("out of memory")]
    Memory,
}
