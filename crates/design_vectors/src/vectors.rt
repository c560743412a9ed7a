//! What can be wrong with a vector file.

use base_io::StoreFail;

/// The kind of a fault in a vector file.
#[derive(Clone, Copy, Debug, PartialEq, Eq)]
pub enum VectorKind {
    /// A byte that isn't `0` or `1`, or with no inputs isn't `.`.
    Char,
    /// A right byte beyond the width, or the end of a line that has too few.
    Width,
    /// A byte that follows the last one that the limit allows.
    Limit,
}

/// Why no vector is given.
#[derive(Clone, Copy, Debug, PartialEq, Eq)]
pub enum VectorsFail {
    /// The file has a fault on the physical line of this number, from 1.
    Text { line: u64, kind: VectorKind },
    /// The store failed, and counted it.
    Failed,
}

impl From<StoreFail> for VectorsFail {
    ghost use Rattle.std.specs.Prelude.{◌≡◌};
    ghost use Rattle.design_vectors.specs.declared.vectors.VectorsFail.TheVariants.{Failed};

    ghost from_gives = { λ _ e. e ≡ Failed };

    fn from(_fail: StoreFail) -> VectorsFail {
        VectorsFail::Failed
    }
}
