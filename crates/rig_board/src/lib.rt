//! A board as a rig: what a rig keeps of a session, over a few calls to a board.
//!
//! A `Board` is found by name, set up and driven. `BoardRig` keeps for it what every rig has to keep: the machines asked, the
//! configuration and the pairs of drive and reading. Where the board tells the device that it is, the rig tells that device's
//! faults, and all readings of a session are the run of its configuration under them. It fails exactly where its board does.
#![tactic(auto)]

mod board;
mod board_rig;
mod exact;
mod keeping;
mod kept;

pub use board::Board;
pub use board_rig::BoardRig;
pub use exact::log_explained;
