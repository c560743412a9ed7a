//! The command that tells whether an image still runs on a machine of the rig.
//!
//! Promised (`check`): it does its job to every end (`does`), and the job is lawful (`lawful`). Its course says how its answer
//! came: by the test alone, or by a list that was made behind it, with few loads for both, of which none follows on the answer.
//! What the answer means, under each set of faults that explains all that was read of the machine: `Promises`.
#![tactic(auto)]

mod answer;
mod answering;
mod command;
mod testing;

pub use answer::Answer;
pub use command::check;
