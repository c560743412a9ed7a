//! The words of the command line.
ghost use Rattle.std.specs.Prelude.{◌≡◌, map, string_bytes};
ghost use Rattle.cmd_top.specs.Words.{begins_with, number_of};

use base_text::read_number;
use cmd_steps::word;

/// Whether there are so many words, and this is the first.
pub fn begins(words: &[String], count: usize, first: &str) -> bool
    ensures { result ≡ begins_with (map string_bytes words.now) count first.now }
{
    words.len() == count && word(words, 0) == first
}

/// The number of at most 4,294,967,295 whose numeral a word is.
pub fn number_of(word: &str) -> Option<u32>
    ensures { result ≡ number_of word.now }
{
    match read_number(word.as_bytes(), u64::from(u32::MAX)) {
        Some(n) => Some(n as u32),
        None => None,
    }
}
