//! Decimal numerals: digits without a leading zero.
//!
//! Numerals both ways.
ghost use Rattle.std.specs.Prelude.{◌≡◌, ◌++◌, [], OnOk, OnErr, drop, ◌<◌, ◌≤◌, ◌+◌, ◌*◌, ◌-◌, ℕ, true, IfSome, IfNone, MatchOption};
ghost use Rattle.std.specs.Prelude.{SomeIff, IsTrue, ◌↔◌};
ghost use Rattle.std.specs.Str.{all_ascii_digits};
ghost use Rattle.std.specs.Fmt.{decimal};
ghost use Rattle.base_text.specs.Number.{read_on, IsPlain};

use std::alloc::AllocError;

/// A `u64` has at most this many digits.
pub const MOST_DIGITS: usize = 20;

/// The number after one more digit, if it is at most `most`.
fn with_digit(number: u64, digit: u8, most: u64) -> Option<u64>
    requires { (48 ≤ digit) × (digit < 58) }
    ensures { SomeIff result (10 * number + (digit - 48) ≤ most) (10 * number + (digit - 48)) }
{
    let digit = u64::from(digit - b'0');
    if digit > most || number > (most - digit) / 10 {
        None
    } else {
        Some(10 * number + digit)
    }
}

/// The value of digits, if it is at most `most`.
fn value_of(word: &[u8], most: u64) -> Option<u64>
    ensures { MatchOption result (all_ascii_digits word.now ≡ true → most < read_on 0 word.now)
        (λ n. (all_ascii_digits word.now ≡ true) × (n ≡ read_on 0 word.now) × (n ≤ most)) }
{
    let mut number = 0u64;
    'digits: for b in word {
        let digit = *b;
        if digit < b'0' || digit > b'9' {
            return None;
        }
        let Some(next) = with_digit(number, digit, most) else {
            return None;
        };
        number = next;
    }
    Some(number)
}

/// Whether something stands there, with no zero in front of it.
fn is_plain(word: &[u8]) -> bool
    ensures { IsTrue result ↔ IsPlain word.now }
{
    match word {
        [] => false,
        [first, ..] => *first != b'0' || word.len() == 1,
    }
}

/// The number of at most `most` whose decimal numeral, without leading zeros, the word is. `None` exactly where it is the numeral of no
/// such number.
pub fn read_number(word: &[u8], most: u64) -> Option<u64>
    ensures some { IfSome result (λ n. (word.now ≡ decimal n) × (n ≤ most)) }
    ensures none { IfNone result ((n : ℕ) → n ≤ most → word.now ≡ decimal n → ⊥) }
{
    if !is_plain(word) {
        return None;
    }
    value_of(word, most)
}

/// Writes the numeral of a number at the end of the digits, and answers the place where it begins.
pub fn write_digits(digits: &mut [u8; MOST_DIGITS], n: u64) -> usize
    ensures within { result ≤ 20 }
    ensures numeral { drop result digits.new ≡ decimal n }
{
    let mut place = MOST_DIGITS;
    let mut left = n;
    'digits: loop {
        place -= 1;
        digits[place] = b'0' + (left % 10) as u8;
        if left < 10 {
            return place;
        }
        left /= 10;
    }
}

/// Appends the decimal numeral of `n`, without leading zeros. Where memory is lacking, the text is as it was.
pub fn put_number(text: &mut Vec<u8>, n: u64) -> Result<(), AllocError>
    ensures put { OnOk result (text.new.items ≡ text.old.items ++ decimal n) }
    ensures kept { OnErr result (text.new.items ≡ text.old.items) }
{
    let mut digits = [0u8; MOST_DIGITS];
    let place = write_digits(&mut digits, n);
    text.extend_from_slice(&digits[place..])
}
