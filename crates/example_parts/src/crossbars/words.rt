//! What comes of a line, in words.

use std::alloc::{AllocError, Global};

/// A word.
pub fn word(alloc: Global, word: &str) -> Result<Option<String>, AllocError> {
    Ok(Some(String::from_str(alloc, word)?))
}

/// Yes or no, where it is one.
pub fn yes_or_no(alloc: Global, yes: Option<bool>) -> Result<Option<String>, AllocError> {
    match yes {
        Some(true) => word(alloc, "yes"),
        Some(false) => word(alloc, "no"),
        None => Ok(None),
    }
}

/// Numbers, with blanks between them.
pub fn text_of(alloc: Global, numbers: &[u64]) -> Result<Option<String>, AllocError> {
    let mut text = String::new(alloc);
    for number in numbers {
        if !text.is_empty() {
            text.push_str(" ")?;
        }
        let numeral = format!(in alloc; "{number}")?;
        text.push_str(numeral.as_str())?;
    }
    Ok(Some(text))
}
