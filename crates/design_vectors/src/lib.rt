//! The texts of vectors, and the lines of rows.
//!
//! The vectors given are those of the file's physical lines, whatever pieces the store hands out; a fault is the first of the
//! file, after the vectors before it. Whatever `next` answers (a vector, the end, a fault of the text, a failure of the store),
//! it asks the store for bytes only while neither a vector's line has ended nor a fault stands in the bytes before (`undecided`).
//! No call takes memory after its constructor.
#![tactic(auto)]

mod feed;
mod line;
mod reading;
mod row_text;
mod vectors;

pub use reading::VectorText;
pub use row_text::{RowText, put_row};
pub use vectors::{VectorKind, VectorsFail};
