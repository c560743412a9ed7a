//! A rig: a machine that is attached by name, loaded and driven.
//!
//! The trait says what every machine under test must do: what was asked and is attached, that a refusal leaves nothing attached
//! or no session, that a failure is answered only where a count rose, which stays below 2^64, that lack of memory for a cycle
//! comes only where no room is left, that after a load the told faults are faults of the configuration's shape, that where
//! the faults are told all readings of a session are the run of its configuration, and what stands in the log of its sessions.
//! `load`, `cycle` and `cycles` are the same calls of a boxed rig. They also say that faults which explain the log after the call
//! explained it before (`narrows`), and that faults which are told explain it after the call if they did before (`tells`).
//! `LogRig` passes each load on once, and counts none that is refused. `FlakyRig` fails at the chosen calls, where it doesn't reach
//! the rig inside, and at others only where that one does. Where it wants memory itself at `attach`, it doesn't reach that one
//! either (`wanting`).
#![tactic(auto)]

mod asked;
mod boxed;
mod flaky_rig;
mod log_rig;
mod pin_bits;
mod rig;

pub use asked::{AskedMachine, AskedMachines};
pub use boxed::{cycle, cycles, load};
pub use flaky_rig::FlakyRig;
pub use log_rig::LogRig;
pub use pin_bits::PinBits;
pub use rig::{AttachFail, Rig, RigFail};
