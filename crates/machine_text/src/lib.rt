//! The text of a machine: nine lines that give its counts.
//!
//! ```text
//! teramac 1
//! modules 1
//! chips 1
//! hextants 1
//! tables 2
//! ports 4 4 4
//! lines 4 4 4 4
//! pins 4
//! end
//! ```
//!
//! Ports are those of each module, chip and hextant, lines those of the root and of each module, chip and hextant.
//! Where the first line is `teramac 1` the shape is small; with `teramac 2` it may be any, and may be a small one too.
//! A text is read as logical lines, none joined to the next; blank lines and comments may stand between.
//!
//! A machine's text is read exactly; each refusal is the first line that is wrong below lines that are right, and the kind of
//! what is wrong with it; what is written is the text of that machine, in the first form where its shape is small and in the
//! second for every other.
#![tactic(auto)]

mod head;
mod kind;
pub mod laws;
mod read;
mod reader;
mod said;
mod text;

pub use kind::{MachineFault, MachineKind};
pub use read::read_machine;
pub use text::machine_text;
