//! What a text says.

use machine_shape::Counts;

/// The number of a text's form, which its first line gives, and the counts that the others give.
#[derive(Clone, Copy, Debug)]
pub struct Said {
    pub form: u16,
    pub counts: Counts,
}
