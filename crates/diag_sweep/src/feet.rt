//! Feet and known wires, from the search and for it.

use diag_known::{Support, SupportedBy, VerifiedWire};

/// A foot of the search.
pub(crate) fn foot_of(foot: diag_search::Support) -> Support {
    Support {
        cross: foot.cross,
        wire: foot.wire,
    }
}

// A foot for the search.
fn told_foot(foot: Support) -> diag_search::Support {
    diag_search::Support {
        cross: foot.cross,
        wire: foot.wire,
    }
}

/// A known wire for the search.
pub(crate) fn step_of(step: &VerifiedWire) -> diag_search::VerifiedWire {
    let stand = match step.stand {
        SupportedBy::Pin(pin) => diag_search::SupportedBy::Pin(pin),
        SupportedBy::Feet(first, second) => diag_search::SupportedBy::Feet(
            told_foot(first),
            told_foot(second),
        ),
    };
    diag_search::VerifiedWire {
        wire: step.wire,
        stand,
    }
}
