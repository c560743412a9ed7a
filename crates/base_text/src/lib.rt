//! The logical lines of a text, their words, and numerals.
//!
//! A physical line ends at a line feed or at the end of the text, and `#` begins a comment that reaches to its end.
//! A logical line is a physical line, or, where lines are joined, several: one whose last byte before blanks and
//! comment is a backslash goes on in the next. Words stand between blanks: space, tab and carriage return.
//!
//! The logical lines of a text, joined or not, exactly; a text that was written line by line is read back as these lines
//! (`written_lines_are_read`).
#![tactic(auto)]

mod bytes;
mod lines;
mod numerals;
mod size;

pub use bytes::place_of;
pub use lines::{Line, LineFault, Lines, written_lines_are_read};
pub use numerals::{MOST_DIGITS, put_number, read_number, write_digits};
pub use size::MOST_BYTES;
