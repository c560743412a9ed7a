//! How requests and replies are spelled.
ghost use Rattle.std.specs.Prelude.{◌≡◌, ◌+◌, ◌*◌, ◌^◌, ◌<◌, ◌≤◌, ◌++◌, ◌∷◌, [], All, length, vec_len, decimal, codes, OnOk, IfOk};
ghost use Rattle.std.specs.Int.{div_ceil};
ghost use Rattle.std.specs.List.{join_by, sum_by};
ghost use Rattle.std.specs.Vec.{vec_capacity};
ghost use Rattle.hex.specs.Hex.{encode_lower};
ghost use Rattle.rig_port.specs.Lines.{line_of, bit_of, octet_at, pin_text, gap, word_room};
ghost use Rattle.rig_port.specs.Lines.{reading_body, reading_line, counts_body, counts_line, AreCounts};
ghost use Rattle.rig_port.specs.Checks.{after};
ghost use Rattle.rig_port.specs.Requests.{On, edit_text, drives_text, attach_body};

use crate::check::Check;
use base_text::put_number;
use machine_config::Setting;
use machine_shape::{Counts, Pin};
use rig::PinBits;
use std::alloc::AllocError;

/// Adds two hex digits, for which there is room.
fn put_byte(line: &mut Vec<u8>, byte: u8)
    requires { vec_len line.old + 2 ≤ vec_capacity line.old }

    ensures spelled { line.new.items ≡ line.old.items ++ encode_lower (byte ∷ []) }
    ensures len { vec_len line.new ≡ vec_len line.old + 2 }
    ensures room { vec_capacity line.old ≤ vec_capacity line.new }
{
    let mut digits = [0u8; 2];
    let _ = hex::encode_to_slice([byte], &mut digits);
    if line.extend_from_slice(&digits).is_err() {
        unreachable!()
    }
}

// A pin as a number; beyond the pins it is 0.
fn bit_at(pins: &PinBits, k: u64) -> u8
    ensures bit { result ≡ bit_of pins.now k }
    ensures small { result ≤ 1 }
{
    if k < u64::from(pins.len()) && pins.get(Pin(k as u32)) {
        1
    } else {
        0
    }
}

// Eight pins as a byte.
fn octet(pins: &PinBits, k: u64) -> u8
    requires { k < 2 ^ 32 }
    ensures { result ≡ octet_at pins.now k }
{
    bit_at(pins, k)
        + 2 * bit_at(pins, k + 1)
        + 4 * bit_at(pins, k + 2)
        + 8 * bit_at(pins, k + 3)
        + 16 * bit_at(pins, k + 4)
        + 32 * bit_at(pins, k + 5)
        + 64 * bit_at(pins, k + 6)
        + 128 * bit_at(pins, k + 7)
}

/// Adds the pins, two hex digits for each eight begun. There is room for them.
fn put_pins(line: &mut Vec<u8>, pins: &PinBits)
    requires { vec_len line.old + 2 * div_ceil (length pins.now) 8 ≤ vec_capacity line.old }

    ensures spelled { line.new.items ≡ line.old.items ++ pin_text pins.now }
    ensures len { vec_len line.new ≡ vec_len line.old + 2 * div_ceil (length pins.now) 8 }
    ensures room { vec_capacity line.old ≤ vec_capacity line.new }
{
    let count = pins.len().div_ceil(8);
    'octets: for k in 0..count {
        put_byte(line, octet(pins, u64::from(count - 1 - k) * 8));
    }
}

/// Adds a space in front of all but the first. There is room for it.
fn put_gap(line: &mut Vec<u8>, k: usize)
    requires { vec_len line.old < vec_capacity line.old }

    ensures spelled { line.new.items ≡ line.old.items ++ gap k }
    ensures len { vec_len line.new ≤ vec_len line.old + 1 }
    ensures room { vec_capacity line.old ≤ vec_capacity line.new }
{
    if k > 0 {
        line.push_reserved(b' ');
    }
}

/// Adds a word of a letter and a number.
///
/// # Errors
///
/// Out of memory.
pub fn put_word(line: &mut Vec<u8>, letter: u8, n: u32) -> Result<(), AllocError>
    ensures { OnOk result (line.new.items ≡ line.old.items ++ (letter ∷ [] ++ decimal n ++ 32 ∷ [])) }
{
    line.push(letter)?;
    put_number(line, u64::from(n))?;
    line.push(b' ')?;
    Ok(())
}

/// Adds a word that switches a table on.
///
/// # Errors
///
/// Out of memory.
pub fn put_setting(line: &mut Vec<u8>, t: u32, s: Setting) -> Result<(), AllocError>
    ensures cells { s.cells < 2 ^ 64 }
    ensures spelled { OnOk result (line.new.items ≡ line.old.items ++ (edit_text (On t s) ++ 32 ∷ [])) }
{
    let mut cells = [0u8; 16];
    let _ = hex::encode_to_slice(s.cells.to_be_bytes(), &mut cells);
    let flags = u8::from(s.latched) + 2 * u8::from(s.init);
    line.push(b't')?;
    put_number(line, u64::from(t))?;
    line.push(b',')?;
    line.extend_from_slice(&cells)?;
    line.push(b',')?;
    line.push(b'0' + flags)?;
    line.push(b' ')?;
    Ok(())
}

/// Adds a drive for each cycle. There is room for them.
pub fn put_drives(line: &mut Vec<u8>, drives: &[PinBits])
    requires { vec_len line.old + sum_by word_room drives.now ≤ vec_capacity line.old }

    ensures spelled { line.new.items ≡ line.old.items ++ drives_text drives.now }
    ensures len { vec_len line.new ≤ vec_len line.old + sum_by word_room drives.now }
    ensures room { vec_capacity line.old ≤ vec_capacity line.new }
{
    'drives: for k in 0..drives.len() {
        put_gap(line, k);
        line.push_reserved(b'd');
        put_pins(line, &drives[k]);
    }
}

/// Ends a line with the check as it stands behind its body, for which there is room; answers it.
pub fn put_check(line: &mut Vec<u8>, check: Check) -> Check
    requires { vec_len line.old + 6 ≤ vec_capacity line.old }

    ensures spelled { line.new.items ≡ line_of check line.old.items }
    ensures behind { result ≡ after check line.old.items }
    ensures room { vec_capacity line.old ≤ vec_capacity line.new }
{
    let now = check.with_body(line);
    line.push_reserved(b'*');
    put_byte(line, now.weighted);
    put_byte(line, now.plain);
    line.push_reserved(b'\n');
    now
}

/// Adds what asks a machine what it is, under a number.
///
/// # Errors
///
/// Out of memory.
pub fn put_attach(line: &mut Vec<u8>, number: u32) -> Result<(), AllocError>
    requires { line.old.items ≡ [] }
    ensures { OnOk result (line.new.items ≡ attach_body number) }
{
    line.extend_from_slice(b"a ")?;
    put_number(line, u64::from(number))?;
    Ok(())
}

// Adds numbers with spaces between them.
fn put_numbers(line: &mut Vec<u8>, numbers: &[u16]) -> Result<(), AllocError>
    ensures small { All (λ n. n < 2 ^ 16) numbers.now }
    ensures spelled { OnOk result (line.new.items ≡ line.old.items ++ join_by decimal (32 ∷ []) numbers.now) }
{
    'numbers: for k in 0..numbers.len() {
        line.reserve(1)?;
        put_gap(line, k);
        put_number(line, u64::from(numbers[k]))?;
    }
    Ok(())
}

// Adds what a machine says of itself, asked under a number.
fn put_counts_body(line: &mut Vec<u8>, number: u32, c: Counts) -> Result<(), AllocError>
    requires { line.old.items ≡ [] }
    ensures right { OnOk result (AreCounts c) }
    ensures spelled { OnOk result (line.new.items ≡ counts_body number c) }
{
    line.extend_from_slice(b"=2 ")?;
    put_number(line, u64::from(number))?;
    line.push(b' ')?;
    let numbers = [
        c.modules, c.chips, c.hextants, c.tables, c.ports[0], c.ports[1], c.ports[2], c.lines[0],
        c.lines[1], c.lines[2], c.lines[3], c.pins,
    ];
    put_numbers(line, &numbers)?;
    Ok(())
}

/// Adds the line by which a machine says what it is, asked under a number; answers the check behind it.
///
/// # Errors
///
/// Out of memory.
pub fn put_counts(
    line: &mut Vec<u8>,
    check: Check,
    number: u32,
    c: Counts,
) -> Result<Check, AllocError>
    requires { line.old.items ≡ [] }
    ensures right { OnOk result (AreCounts c) }
    ensures spelled { OnOk result (line.new.items ≡ counts_line check number c) }
    ensures behind { IfOk result (λ now. now ≡ after check (counts_body number c)) }
{
    put_counts_body(line, number, c)?;
    line.reserve(6)?;
    Ok(put_check(line, check))
}

/// Adds the line by which a machine says what its pins read; answers the check behind it. There is room for it.
pub fn put_readings(line: &mut Vec<u8>, check: Check, reads: &[PinBits]) -> Check
    requires empty { line.old.items ≡ [] }
    requires room { sum_by word_room reads.now + 7 ≤ vec_capacity line.old }

    ensures spelled { line.new.items ≡ reading_line check reads.now }
    ensures behind { result ≡ after check (reading_body reads.now) }
    ensures room { vec_capacity line.old ≤ vec_capacity line.new }
{
    line.push_reserved(b'=');
    'reads: for k in 0..reads.len() {
        put_gap(line, k);
        put_pins(line, &reads[k]);
    }
    put_check(line, check)
}
