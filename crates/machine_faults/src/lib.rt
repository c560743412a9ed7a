//! The faults of a machine, and their text.
//!
//! A set of faults with each refusal of `add` exactly where it says; a fault text is read exactly, each refusal the first; what
//! is written lists the groups in order, each ascending, and is the text of that very set, so reading it gives the set again.
#![tactic(auto)]

mod entries;
mod fault;
mod head;
mod kind;
mod line;
mod read;
mod set;
mod write;

pub use fault::{AddFault, Fault};
pub use kind::{FaultsFault, FaultsKind};
pub use read::read_faults;
pub use set::FaultSet;
pub use write::faults_text;
