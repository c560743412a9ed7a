//! What commands are made of: steps, why one stops, and how the program ends then.
//!
//! Promised: each reader gives the one value of its file's text, or the text's first fault, with the file read up to one byte
//! beyond its limit; `finish` writes the line of a refusal and answers its status. `attach`, and `run`, `diagnose`, `go`,
//! `check`, `pair` and `bench` of the crates of these commands, have a condition that holds of every call (`always`): the
//! toolchain refuses callers in another crate of a function that takes a boxed rig and has none.
#![tactic(auto)]

mod attaching;
mod defects;
mod design;
mod design_file;
mod ending;
mod image;
mod line;
mod machine;
mod opening;
mod output;
mod refusal;
mod row_block;
mod words;

pub use attaching::attach;
pub use defects::read_list;
pub use design::{DesignText, read_design, read_text};
pub use design_file::DesignFile;
pub use ending::{end_of, finish};
pub use image::read_image_file;
pub use machine::read_shape;
pub use opening::open_vectors;
pub use output::write;
pub use refusal::{Refusal, RefusedDesign, RefusedRoom, Stop};
pub use row_block::{RowBlock, next_vector};
pub use words::{some_begins_dashed, word};
