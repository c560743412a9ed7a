//! Sets of numbers, and numerals.

use base_bits::BitSet;
use base_text::{put_number, read_number};
use std::alloc::Global;

// Whether the set has these three numbers, and no other.
fn has_three(set: &BitSet) -> bool {
    let mut right = true;
    'numbers: for i in 0..set.len() {
        right = right && set.has(i) == (i == 0 || i == 64 || i == 129);
    }
    right
}

pub fn holds_numbers(alloc: Global) -> Option<bool> {
    let mut set = BitSet::new(alloc, 130).ok()?;
    for i in [0, 63, 64, 129, 64] {
        if i < set.len() {
            set.insert(i);
        }
    }
    let four = set.count() == 4;
    if 63 < set.len() {
        set.remove(63);
    }
    Some(four && set.count() == 3 && has_three(&set))
}

pub fn reads_and_writes_numerals(alloc: Global) -> Option<bool> {
    let read = read_number(b"65535", 65_535) == Some(65_535);
    let above = read_number(b"65536", 65_535).is_none();
    let led = read_number(b"01", 9).is_none();
    let large = read_number(b"18446744073709551616", u64::MAX).is_none();
    let mut text = Vec::new(alloc);
    put_number(&mut text, 0).ok()?;
    text.push(b' ').ok()?;
    put_number(&mut text, u64::MAX).ok()?;
    let written = text.as_slice() == b"0 18446744073709551615".as_slice();
    Some(read && above && led && large && written)
}
