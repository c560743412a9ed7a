//! Why a design is refused.

ghost use Rattle.std.specs.Prelude.{◌≡◌};
ghost use Rattle.design_blif.specs.declared.kind.Refusal.TheVariants.{Memory};
ghost use Rattle.design_blif.specs.Refusals.{fault_at};

use design_netlist::{DesignFault, DesignKind};
use std::alloc::{AllocError, AllocFailed};

/// Why a line is refused.
#[derive(Debug, Drop)]
pub enum Refusal {
    Memory,
    Kind(DesignKind),
}

impl From<AllocError> for Refusal {
    ghost from_gives = { λ _ e. e ≡ Memory };

    fn from(_e: AllocError) -> Refusal {
        Refusal::Memory
    }
}

impl<T: Drop> From<AllocFailed<T>> for Refusal {
    ghost from_gives = { λ _ e. e ≡ Memory };

    fn from(_e: AllocFailed<T>) -> Refusal {
        Refusal::Memory
    }
}

impl Refusal {
    /// The refusal of the line with this number.
    pub fn at(self, line: u64) -> DesignFault
        ensures { result ≡ fault_at self line }
    {
        match self {
            Refusal::Memory => DesignFault::Memory,
            Refusal::Kind(kind) => DesignFault::At { line, kind },
        }
    }
}
