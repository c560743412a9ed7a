//! Runs an image on a rig, a row for a vector.
//!
//! The rig's session is the image's configuration; each row drives the vector on the input pins and 1 on all others, makes one
//! cycle, and gives the reading at the output pins. Where the faults are told, they are faults of the image's shape. A row takes
//! no memory of its own.
//!
//! The rows of an image that is loaded on a machine of the rig.
//!
//! Promised (`run_image`): an image, wherever it comes from, is loaded, and a row is written for each vector of the file: what
//! its output pins read in the rig's session, whose drives are the vectors on the input pins and 1 on all others. All memory for
//! the rows is taken before the line `outputs`; the load asks for room for 4,096 cycles.
//!
//! The rows of what is laid on a machine: its defects are listed and the list is written, something is laid on what the list
//! leaves free, and a row is written for each vector. What is laid is the caller's: one design, several side by side, or copies of one.
//!
//! Promised (`list_and_run`): what `go` and `pair` do once their designs are read. It lists, writes the list, lays what it is
//! given, and runs the image, of any value that says by its trait (`Lays`) how it is laid, how wide its vectors are and what its
//! rows are, and that its images are right for these. The list covers each set of faults that explains all that was read
//! (`diag_list`), and at every end the rows are right if there is such a set. Copies that are driven alike (`Copies`) are compared,
//! and a row is written once: where they read differently nothing is written of that reading, and the command is refused.
#![tactic(auto)]

mod copies;
mod image;
mod laid;
mod run;

pub use copies::Copies;
pub use image::run_image;
pub use laid::{Lays, list_and_run};
pub use run::{Run, begin};
