//! How long a text may be.

/// The most bytes of a text or an image: 16 MiB.
pub const MOST_BYTES: usize = 16_777_216;
