//! The forms of lines.

ghost use Rattle.std.specs.Prelude.{◌≡◌, ◌≢◌, ◌≤◌, ◌∷◌, ◌++◌, ℕ, List, true, IfSome, IfNone, MatchOption};
ghost use Rattle.std.specs.Fmt.{decimal};
ghost use Rattle.std.specs.List.{list_all};
ghost use Rattle.base_text.specs.Written.{spaced};
ghost use Rattle.machine_defects.specs.Text.{shape_row};
ghost use Rattle.machine_defects.specs.Faults.{IsWord, IsEntryForm, AreCounts, is_inner};
ghost use Rattle.machine_defects.specs.Steps.{without, row_of, numerals};

use base_text::{place_of, read_number};

/// A line of a right form that lists something.
#[derive(Clone, Copy, Debug)]
pub enum Form<'a> {
    Wire { name: &'a [u8] },
    Cross { tap: &'a [u8], line: &'a [u8] },
    Table { name: &'a [u8] },
}

/// The largest count of a machine.
const MOST_COUNT: u64 = 65_535;

/// What stands before the first of these bytes, and what stands behind it.
pub fn cut(bytes: &[u8], byte: u8) -> Option<(&[u8], &[u8])>
    ensures some { IfSome result (λ p. (bytes.now ≡ p.0.now ++ byte ∷ p.1.now) × (without byte p.0.now ≡ true)) }
    ensures none { IfNone result ((before after : List ℕ) → bytes.now ≢ before ++ byte ∷ after) }
{
    let place = place_of(bytes, byte);
    if place < bytes.len() {
        Some((&bytes[..place], &bytes[place + 1..]))
    } else {
        None
    }
}

/// Whether no byte is a space or ends a line.
fn all_inner(word: &[u8]) -> bool
    ensures { result ≡ list_all is_inner word.now }
{
    word.iter().all(|b| *b != b' ' && *b != b'\n')
}

/// What stands behind a beginning.
pub fn behind<'a>(text: &'a [u8], front: &[u8]) -> Option<&'a [u8]>
    ensures { MatchOption result ((rest : List ℕ) → text.now ≢ front.now ++ rest) (λ rest. text.now ≡ front.now ++ rest.now) }
{
    let len = front.len();
    if text.len() < len {
        return None;
    }
    let (start, rest) = text.split_at(len);
    if start == front { Some(rest) } else { None }
}

/// A word, if the bytes are one.
fn word(bytes: &[u8]) -> Option<&[u8]>
    ensures { MatchOption result (¬ IsWord bytes.now) (λ word. (word.now ≡ bytes.now) × IsWord bytes.now) }
{
    if bytes.is_empty() {
        return None;
    }
    if all_inner(bytes) { Some(bytes) } else { None }
}

/// Two words with a space between.
fn two_words(bytes: &[u8]) -> Option<(&[u8], &[u8])>
    ensures some { IfSome result (λ p. (bytes.now ≡ p.0.now ++ 32 ∷ p.1.now) × IsWord p.0.now × IsWord p.1.now) }
    ensures none { IfNone result ((a b : List ℕ) → IsWord a → IsWord b → bytes.now ≢ a ++ 32 ∷ b) }
{
    match cut(bytes, b' ') {
        Some((first, second)) => match word(first) {
            Some(first) => match word(second) {
                Some(second) => Some((first, second)),
                None => None,
            },
            None => None,
        },
        None => None,
    }
}

/// The form of a line that lists something.
pub fn form_of(line: &[u8]) -> Option<Form<'_>>
    ensures { MatchOption result ((row : List (List ℕ)) → IsEntryForm row → spaced row ≢ line.now)
        (λ f. IsEntryForm (row_of f) × (spaced (row_of f) ≡ line.now)) }
{
    if let Some(name) = behind(line, b"wire ") {
        return match word(name) {
            Some(name) => Some(Form::Wire { name }),
            None => None,
        };
    }
    if let Some(names) = behind(line, b"cross ") {
        return match two_words(names) {
            Some((tap, line)) => Some(Form::Cross { tap, line }),
            None => None,
        };
    }
    if let Some(name) = behind(line, b"table ") {
        return match word(name) {
            Some(name) => Some(Form::Table { name }),
            None => None,
        };
    }
    None
}

/// A number behind a space, and what stands behind it.
fn first_numeral(text: &[u8]) -> Option<(u16, &[u8])>
    ensures some { IfSome result (λ p. (text.now ≡ 32 ∷ decimal p.0 ++ p.1.now) × (p.0 ≤ 65535)) }
    ensures none { IfNone result ((n : ℕ) (ns : List ℕ) → n ≤ 65535 → text.now ≢ 32 ∷ decimal n ++ numerals ns) }
    ensures one { IfSome result (λ p. (n : ℕ) (ns : List ℕ) → n ≤ 65535 → text.now ≡ 32 ∷ decimal n ++ numerals ns → (n ≡ p.0)
        × (p.1.now ≡ numerals ns)) }
{
    let Some(digits) = behind(text, b" ") else {
        return None;
    };
    let (numeral, rest) = digits.split_at(place_of(digits, b' '));
    match read_number(numeral, MOST_COUNT) {
        Some(number) => Some((number as u16, rest)),
        None => None,
    }
}

/// Twelve numbers, each behind a space.
fn numbers_of(text: &[u8]) -> Option<[u16; 12]>
    ensures { MatchOption result ((ns : List ℕ) → AreCounts ns → numerals ns ≢ text.now) (λ ns. AreCounts ns × (numerals ns ≡ text.now)) }
{
    let mut numbers = [0u16; 12];
    let mut left = text;
    'numbers: for i in 0..12usize {
        match first_numeral(left) {
            Some((number, rest)) => {
                numbers[i] = number;
                left = rest;
            }
            None => return None,
        }
    }
    if left.is_empty() { Some(numbers) } else { None }
}

/// The counts of a line of the shape.
pub fn counts_in(line: &[u8]) -> Option<[u16; 12]>
    ensures { MatchOption result ((ns : List ℕ) → AreCounts ns → spaced (shape_row ns) ≢ line.now)
        (λ ns. AreCounts ns × (spaced (shape_row ns) ≡ line.now)) }
{
    match behind(line, b"shape") {
        Some(numbers) => numbers_of(numbers),
        None => None,
    }
}
