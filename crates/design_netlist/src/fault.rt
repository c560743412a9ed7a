//! What can be wrong with a design.

ghost use Rattle.std.specs.Prelude.{◌≡◌};
ghost use Rattle.design_netlist.specs.declared.fault.DesignFault.TheVariants.{Memory};

use crate::netlist_data::Name;
use std::alloc::{AllocError, AllocFailed};
use thiserror::Error;

/// The kind of a fault in a design.
#[derive(Debug, Drop)]
pub enum DesignKind {
    /// A byte that no text of a design may have.
    Byte,
    /// A line with the wrong number of words, or with a word of the wrong form; a row where none belongs; a line behind `.end`.
    Word,
    /// A line of a kind that is not known.
    Unknown,
    /// No model stands above the line.
    NoModel,
    /// A model of this name stands earlier.
    SameModel,
    /// A row of the wrong length or letters.
    Row,
    /// A row for 0 beside one for 1.
    RowMixed,
    /// The type of a latch.
    LatchType,
    /// The initial value of a latch.
    LatchInit,
    /// A second control of latches.
    Control,
    /// More of a thing than is allowed.
    Limit,
    /// A kind of line that is known and left out.
    LeftOut,
    /// No model has this name.
    NoSuchModel { name: Name },
    /// A port of a model that is wrong, or that is missing.
    Formal { name: Name },
    /// The model of this name uses itself.
    Recursive { name: Name },
    /// The signal is driven twice.
    Doubled { name: Name },
    /// The signal is read, and nothing drives it.
    Undriven { name: Name },
    /// The signal is the output of a cover that is on a cycle of covers.
    Cyclic { name: Name },
}

/// Why a design is refused.
#[derive(Debug, Drop, Error)]
pub enum DesignFault {
    /// The design is wrong at this line of its file. Line 0 stands for the file as a whole.
    #[error("line {line}: {kind:?}")]
    At { line: u64, kind: DesignKind },
    /// Memory was wanting.
    #[error("out of memory")]
    Memory,
}

impl From<AllocError> for DesignFault {
    ghost from_gives = { λ _ e. e ≡ Memory };

    fn from(_e: AllocError) -> DesignFault {
        DesignFault::Memory
    }
}

impl<T: Drop> From<AllocFailed<T>> for DesignFault {
    ghost from_gives = { λ _ e. e ≡ Memory };

    fn from(_e: AllocFailed<T>) -> DesignFault {
        DesignFault::Memory
    }
}
