//! The words of a command line.
ghost use Rattle.std.specs.Prelude.{◌≡◌, map, string_bytes};
ghost use Rattle.std.specs.List.{list_any};
ghost use Rattle.cmd_steps.specs.Words.{word_at, is_dashed};

// Whether a word begins with `-`.
fn begins_dashed(word: &str) -> bool
    ensures { result ≡ is_dashed word.now }
{
    match word.as_bytes() {
        [] => false,
        [byte, ..] => *byte == b'-',
    }
}

/// Whether some word begins with `-`.
pub fn some_begins_dashed(words: &[String]) -> bool
    ensures { result ≡ list_any (λ word. is_dashed (string_bytes word)) words.now }
{
    words.iter().any(|word| begins_dashed(word.as_str()))
}

/// The word at a place. There is an empty one at each place beyond the last.
pub fn word(words: &[String], place: usize) -> &str
    ensures { result.now ≡ word_at (map string_bytes words.now) place }
{
    match words.get(place) {
        Some(word) => word.as_str(),
        None => "",
    }
}
