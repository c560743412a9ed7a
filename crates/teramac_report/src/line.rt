//! Lines of words and numbers.

use base_text::put_number;
use std::alloc::AllocError;

// Adds a word and a number.
fn put_count(text: &mut Vec<u8>, word: &str, number: u64) -> Result<(), AllocError> {
    text.push(b' ')?;
    text.extend_from_slice(word.as_bytes())?;
    text.push(b' ')?;
    put_number(text, number)
}

/// Adds words, each with its number; the line goes on.
///
/// # Errors
///
/// Out of memory.
pub fn put_counts(text: &mut Vec<u8>, counts: &[(&str, u64)]) -> Result<(), AllocError> {
    for i in 0..counts.len() {
        let (word, number) = counts[i];
        put_count(text, word, number)?;
    }
    Ok(())
}

/// Adds a line of a name and of words, each with its number.
///
/// # Errors
///
/// Out of memory.
pub fn put_line(text: &mut Vec<u8>, name: &str, counts: &[(&str, u64)]) -> Result<(), AllocError> {
    text.extend_from_slice(name.as_bytes())?;
    put_counts(text, counts)?;
    text.push(b'\n')?;
    Ok(())
}
