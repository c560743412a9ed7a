//! Blanks, bad bytes, and where a line ends.

ghost use Rattle.std.specs.Prelude.{◌≡◌, ◌++◌, ◌∷◌, ◌<◌, ◌≤◌, length, map, OnOk, option_copied, ◌==◌, ◌+◌, drop};
ghost use Rattle.std.specs.List.{list_any, position_or_len};
ghost use Rattle.base_text.specs.Bytes.{is_blank, is_bad, physical_lines, uncommented, joining_part, run_of, words_of, has_bad_byte};

use std::alloc::AllocError;

pub fn is_blank(byte: u8) -> bool
    ensures { result ≡ is_blank byte }
{
    byte == b' ' || byte == b'\t' || byte == b'\r'
}

pub fn is_bad(byte: u8) -> bool
    ensures { result ≡ is_bad byte }
{
    (byte < 32 && !is_blank(byte)) || byte == 127
}

/// The place of the first byte that is this one, or the length.
pub fn place_of(bytes: &[u8], byte: u8) -> usize
    ensures place { result ≡ position_or_len (λ b. b == byte) bytes.now }
    ensures within { result ≤ length bytes.now }
{
    let mut place = 0;
    while place < bytes.len() && bytes[place] != byte {
        place += 1;
    }
    place
}

/// The place of the first blank, or the length.
fn blank_place(bytes: &[u8]) -> usize
    ensures place { result ≡ position_or_len is_blank bytes.now }
    ensures within { result ≤ length bytes.now }
{
    let mut place = 0;
    while place < bytes.len() && !is_blank(bytes[place]) {
        place += 1;
    }
    place
}

/// The bytes behind a place.
fn bytes_after(bytes: &[u8], place: usize) -> &[u8]
    requires { place < length bytes.now }
    ensures { result.now ≡ drop (place + 1) bytes.now }
{
    let (_, rest) = bytes.split_at(place + 1);
    rest
}

/// The first physical line, and the bytes after it.
pub fn first_physical(bytes: &[u8]) -> (&[u8], &[u8])
    requires { 0 < length bytes.now }
    ensures parts { physical_lines bytes.now ≡ result.0.now ∷ physical_lines result.1.now }
    ensures shorter { length result.1.now < length bytes.now }
{
    let end = place_of(bytes, b'\n');
    if end < bytes.len() {
        (&bytes[..end], bytes_after(bytes, end))
    } else {
        (bytes, &[])
    }
}

/// A physical line up to its comment.
pub fn uncommented(line: &[u8]) -> &[u8]
    ensures { result.now ≡ uncommented line.now }
{
    let end = place_of(line, b'#');
    &line[..end]
}

/// What stands before a backslash that only blanks follow.
pub fn joining_part(text: &[u8]) -> Option<&[u8]>
    ensures { option_copied result ≡ joining_part text.now }
{
    let mut end = text.len();
    while end > 0 && is_blank(text[end - 1]) {
        end -= 1;
    }
    if end > 0 && text[end - 1] == b'\\' {
        Some(&text[..end - 1])
    } else {
        None
    }
}

/// Adds a word, where it isn't empty.
fn push_run<'a>(words: &mut Vec<&'a [u8]>, run: &'a [u8]) -> Result<(), AllocError>
    ensures { OnOk result (map (λ w. w.now) words.new.items ≡ map (λ w. w.now) words.old.items ++ run_of run.now) }
{
    if !run.is_empty() {
        words.push(run)?;
    }
    Ok(())
}

/// Adds the words of a text.
pub fn push_words<'a>(words: &mut Vec<&'a [u8]>, text: &'a [u8]) -> Result<(), AllocError>
    ensures { OnOk result (map (λ w. w.now) words.new.items ≡ map (λ w. w.now) words.old.items ++ words_of text.now) }
{
    let mut rest = text;
    loop {
        let end = blank_place(rest);
        push_run(words, &rest[..end])?;
        if end >= rest.len() {
            return Ok(());
        }
        rest = bytes_after(rest, end);
    }
}

fn is_bad_word(word: &[u8]) -> bool
    ensures { result ≡ list_any is_bad word.now }
{
    word.iter().any(|b| is_bad(*b))
}

fn any_bad(words: &[&[u8]]) -> bool
    ensures { result ≡ list_any (λ w. list_any is_bad w.now) words.now }
{
    words.iter().any(|w| is_bad_word(w))
}

pub fn has_bad_byte(words: &[&[u8]]) -> bool
    ensures { result ≡ has_bad_byte (map (λ w. w.now) words.now) }
{
    any_bad(words)
}
