//! A turn: a request goes out, and its reply is read.
ghost use Rattle.std.specs.Prelude.{◌≡◌, ℕ, ◌+◌, ◌*◌, ◌/◌, ◌%◌, ◌^◌, ◌<◌, ◌≤◌, ◌==◌, ◌++◌, ◌∷◌, [], List, true, false};
ghost use Rattle.std.specs.Prelude.{length, vec_len, drop, get_or, IsTrue, IsSome, IfSome, IfNone};
ghost use Rattle.std.specs.Int.{div_ceil};
ghost use Rattle.std.specs.List.{sum_by};
ghost use Rattle.std.specs.Vec.{vec_capacity};
ghost use Rattle.hex.specs.Hex.{encode_lower};
ghost use Rattle.machine_shape.specs.Shape.{pins_of};
ghost use Rattle.machine_meaning.specs.Circuit.{Pins};
ghost use Rattle.base_io.specs.Counts.{Rose};
ghost use Rattle.rig.specs.Rig.{KeepLengths};
ghost use Rattle.rig_port.specs.Lines.{pin_text, reading_body, reading_line, word_room, turn_room};
ghost use Rattle.rig_port.specs.Requests.{led_drives, drives_text};
ghost use Rattle.rig_port.specs.Ports.{IsLater};
ghost use Rattle.rig_port.specs.Boards.{IsRequest};
ghost use Rattle.rig_port.specs.Checks.{after};
ghost use Rattle.rig_port.specs.Sessions.{StaysLoaded};
ghost use Rattle.rig_port.specs.Transcripts.{Behind, GoOn};
ghost use Rattle.rig_port.specs.Stands.{Turns, HasStood, StandsTold};
ghost use Rattle.rig_port.specs.Turns.{CanTurn, AreRowsFor, HasMadeTurns};

use crate::check::Check;
use crate::link::Link;
use crate::port::Port;
use crate::spelling::{put_check, put_drives, put_readings};
use machine_shape::Pin;
use rig::PinBits;

/// A right reply has at most this many bytes before its check.
const MOST_BODY: usize = 4096;

// Adds the word of a load where one is due, and a space where drives follow it. There is room for it.
fn put_load(line: &mut Vec<u8>, due: bool, is_led: bool)
    requires { vec_len line.old + 2 ≤ vec_capacity line.old }

    ensures led { due ≡ true → is_led ≡ true → line.new.items ≡ line.old.items ++ 108 ∷ 32 ∷ [] }
    ensures alone { due ≡ true → is_led ≡ false → line.new.items ≡ line.old.items ++ 108 ∷ [] }
    ensures idle { due ≡ false → line.new.items ≡ line.old.items }
    ensures len { vec_len line.new ≤ vec_len line.old + 2 }
    ensures room { vec_capacity line.old ≤ vec_capacity line.new }
{
    if due {
        line.push_reserved(b'l');
        if is_led {
            line.push_reserved(b' ');
        }
    }
}

// Ends the body that is due: behind the edits of a load its `l` and the drives, or the drives alone. There is room for them.
fn put_body(line: &mut Vec<u8>, due: bool, drives: &[PinBits])
    requires { vec_len line.old + sum_by word_room drives.now + 2 ≤ vec_capacity line.old }

    ensures loads { due ≡ true → line.new.items ≡ line.old.items ++ 108 ∷ [] ++ led_drives drives.now }
    ensures drives { due ≡ false → line.new.items ≡ line.old.items ++ drives_text drives.now }
    ensures len { vec_len line.new ≤ vec_len line.old + sum_by word_room drives.now + 2 }
    ensures room { vec_capacity line.old ≤ vec_capacity line.new }
{
    put_load(line, due, !drives.is_empty());
    put_drives(line, drives);
}

// Ends the line that is due, and answers the check behind it. There is room for it.
fn put_request(line: &mut Vec<u8>, check: Check, due: bool, drives: &[PinBits]) -> Check
    requires { vec_len line.old + sum_by word_room drives.now + 8 ≤ vec_capacity line.old }

    ensures loads { due ≡ true → IsRequest check (line.old.items ++ 108 ∷ [] ++ led_drives drives.now) line.new.items result }
    ensures drives { due ≡ false → line.old.items ≡ [] → IsRequest check (drives_text drives.now) line.new.items result }
    ensures room { vec_capacity line.old ≤ vec_capacity line.new }
{
    put_body(line, due, drives);
    put_check(line, check)
}

// A byte of a line; beyond its end it is a zero.
fn digit_at(reply: &[u8], place: usize) -> u8
    ensures { result ≡ get_or reply.now place 48 }
{
    if place < reply.len() {
        return reply[place];
    }
    b'0'
}

// The byte of two digits. What isn't such a text gives any byte.
fn byte_at(reply: &[u8], place: usize) -> u8
    requires { place + 1 < 2 ^ 64 }
    ensures { (v : ℕ) → v < 256 → get_or reply.now place 48 ∷ get_or reply.now (place + 1) 48 ∷ [] ≡ encode_lower (v ∷ []) → result ≡ v }
{
    let digits = [digit_at(reply, place), digit_at(reply, place + 1)];
    let mut byte = [0u8; 1];
    let _ = hex::decode_to_slice(digits, &mut byte);
    byte[0]
}

// A bit of a byte, by its place from the lowest.
fn bit_in(octet: u8, place: u32) -> bool
    requires { place < 8 }
    ensures { result ≡ (octet / 2 ^ place % 2 == 1) }
{
    match place {
        0 => octet % 2 == 1,
        1 => octet / 2 % 2 == 1,
        2 => octet / 4 % 2 == 1,
        3 => octet / 8 % 2 == 1,
        4 => octet / 16 % 2 == 1,
        5 => octet / 32 % 2 == 1,
        6 => octet / 64 % 2 == 1,
        _ => octet / 128 % 2 == 1,
    }
}

// Reads pins from the text of them that begins at a place. What isn't such a text gives any bits.
pub fn read_pins(reply: &[u8], at: usize, read: &mut PinBits)
    requires { at ≤ 2 ^ 63 }

    ensures length { length read.new ≡ length read.old }
    ensures right { (pins : Pins) (rest : List ℕ) → length pins ≡ length read.old → drop at reply.now ≡ pin_text pins ++ rest →
        read.new ≡ pins }
{
    let count = read.len().div_ceil(8);
    'pins: for k in 0..read.len() {
        let octet = byte_at(reply, at + 2 * (count - 1 - k / 8) as usize);
        read.set(Pin(k), bit_in(octet, k % 8));
    }
}

// How many digits the text of these pins has.
fn digits_of(pins: &PinBits) -> usize
    ensures digits { result ≡ 2 * div_ceil (length pins.now) 8 }
    ensures small { result < 2 ^ 32 }
{
    pins.len().div_ceil(8) as usize * 2
}

// Reads the pins of each cycle. What isn't a line of so many readings gives any bits.
fn read_all(reply: &[u8], reads: &mut [PinBits])
    ensures lengths { KeepLengths reads.old reads.new }
    ensures right { (c : Check) (rows : List Pins) → KeepLengths reads.old rows → reply.now ≡ reading_line c rows → reads.new ≡ rows }
{
    let mut at = 0usize;
    'reads: for k in 0..reads.len() {
        // A line of so many readings isn't at its end here.
        let begin = at.min(reply.len()) + 1;
        let digits = digits_of(&reads[k]);
        read_pins(reply, begin, &mut reads[k]);
        at = begin + digits;
    }
}

// The check behind a line that is, byte by byte, that of these readings; `None` where it isn't. There is room for it.
fn read_check(
    reply: &[u8],
    expected: &mut Vec<u8>,
    check: Check,
    reads: &[PinBits],
) -> Option<Check>
    requires { sum_by word_room reads.now + 7 ≤ vec_capacity expected.old }

    ensures right { IfSome result (λ now. (reply.now ≡ reading_line check reads.now) × (now ≡ after check (reading_body reads.now))) }
    ensures expected { IfSome result (λ _. reply.now ≡ expected.new.items) }
    ensures wrong { IfNone result (reply.now ≡ reading_line check reads.now → ⊥) }
    ensures room { vec_capacity expected.old ≤ vec_capacity expected.new }
{
    expected.clear();
    let now = put_readings(expected, check, reads);
    if reply == expected.as_slice() {
        Some(now)
    } else {
        None
    }
}

/// Sends what is due with these drives, and reads what comes. False where the port fails or the line isn't right, and of a machine
/// that is told no line is wrong.
pub fn turn<P: Port>(
    port: &mut P,
    link: &mut Link,
    drives: &[PinBits],
    reads: &mut [PinBits],
) -> bool
    requires ready { CanTurn (P.port_state port.old) link.old drives.now }
    requires rows { AreRowsFor link.old.set.config drives.now reads.old }
    requires some { link.old.due ≡ false → 0 < length drives.now }
    requires few { sum_by word_room drives.now + 8 ≤ turn_room (pins_of link.old.set.config.shape) }

    ensures later { IsLater (P.port_state port.old) (P.port_state port.new) }
    ensures talks { GoOn link.old.set.config.shape link.old.talk link.new.talk (P.port_state port.old).talk
        (P.port_state port.new).talk }
    ensures stood { StandsTold (P.port_state port.old) link.old.talk → HasStood (P.port_state port.new) link.new.talk }
    ensures stands { IsTrue result → StandsTold (P.port_state port.old) link.old.talk → StandsTold (P.port_state port.new) link.new.talk }
    ensures lengths { KeepLengths reads.old reads.new }
    ensures stays { StaysLoaded link.old link.new }
    ensures sent { IsTrue result → link.new.due ≡ false }
    ensures turned { IsTrue result → HasMadeTurns drives.now reads.new (P.port_state port.old) (P.port_state port.new) link.old
        link.new }
    ensures said { IsTrue result → Behind (Turns drives.now reads.new link.old link.new) link.old.talk link.new.talk }
    ensures alarm { result ≡ false → IsSome (P.port_state port.old).device →
        Rose (P.port_state port.old).failures (P.port_state port.new).failures }
{
    let sent = put_request(&mut link.line, link.check, link.due, drives);
    let Ok(count) = port.ask(&link.line, &mut link.reply) else {
        return false;
    };
    read_all(&link.reply[..count], reads);
    let Some(now) = read_check(&link.reply[..count], &mut link.expected, sent, reads) else {
        return false;
    };
    link.check = now;
    link.talk = link.talk.and(&link.line, &link.expected);
    link.line.clear();
    link.anew = false;
    link.due = false;
    true
}

// For how many drives a request has room at most: as many as their reply has room for, and always one.
fn most_drives(pins: u32) -> usize
    ensures some { 1 ≤ result }
    ensures few { result * (2 * div_ceil pins 8 + 2) + 8 ≤ turn_room pins }
{
    let digits = pins.div_ceil(8) as usize * 2;
    (MOST_BODY / (digits + 1)).max(1)
}

/// Sends all drives, in as few requests as their replies allow. False where a turn fails.
pub fn turn_some<P: Port>(
    port: &mut P,
    link: &mut Link,
    drives: &[PinBits],
    reads: &mut [PinBits],
) -> bool
    requires ready { CanTurn (P.port_state port.old) link.old drives.now }
    requires rows { AreRowsFor link.old.set.config drives.now reads.old }

    ensures later { IsLater (P.port_state port.old) (P.port_state port.new) }
    ensures talks { GoOn link.old.set.config.shape link.old.talk link.new.talk (P.port_state port.old).talk
        (P.port_state port.new).talk }
    ensures stood { StandsTold (P.port_state port.old) link.old.talk → HasStood (P.port_state port.new) link.new.talk }
    ensures stands { IsTrue result → StandsTold (P.port_state port.old) link.old.talk → StandsTold (P.port_state port.new) link.new.talk }
    ensures lengths { KeepLengths reads.old reads.new }
    ensures stays { StaysLoaded link.old link.new }
    ensures sent { IsTrue result → 0 < length drives.now → link.new.due ≡ false }
    ensures idle { IsTrue result → link.old.due ≡ false → link.new.due ≡ false }
    ensures turned { IsTrue result → HasMadeTurns drives.now reads.new (P.port_state port.old) (P.port_state port.new) link.old
        link.new }
    ensures said { IsTrue result → Behind (Turns drives.now reads.new link.old link.new) link.old.talk link.new.talk }
    ensures alarm { result ≡ false → IsSome (P.port_state port.old).device →
        Rose (P.port_state port.old).failures (P.port_state port.new).failures }
{
    let shape = link.set.shape();
    let most = most_drives(shape.pins());
    let mut at = 0usize;
    'turns: while at < drives.len() {
        let end = at.saturating_add(most).min(drives.len());
        if !turn(port, link, &drives[at..end], &mut reads[at..end]) {
            return false;
        }
        at = end;
    }
    true
}

/// Sends all drives, in as few requests as their replies allow; a load that is due goes out without drives too. False where a turn
/// fails.
pub fn turn_all<P: Port>(
    port: &mut P,
    link: &mut Link,
    drives: &[PinBits],
    reads: &mut [PinBits],
) -> bool
    requires ready { CanTurn (P.port_state port.old) link.old drives.now }
    requires rows { AreRowsFor link.old.set.config drives.now reads.old }

    ensures later { IsLater (P.port_state port.old) (P.port_state port.new) }
    ensures talks { GoOn link.old.set.config.shape link.old.talk link.new.talk (P.port_state port.old).talk
        (P.port_state port.new).talk }
    ensures stood { StandsTold (P.port_state port.old) link.old.talk → HasStood (P.port_state port.new) link.new.talk }
    ensures stands { IsTrue result → StandsTold (P.port_state port.old) link.old.talk → StandsTold (P.port_state port.new) link.new.talk }
    ensures lengths { KeepLengths reads.old reads.new }
    ensures stays { StaysLoaded link.old link.new }
    ensures sent { IsTrue result → link.new.due ≡ false }
    ensures turned { IsTrue result → HasMadeTurns drives.now reads.new (P.port_state port.old) (P.port_state port.new) link.old
        link.new }
    ensures said { IsTrue result → Behind (Turns drives.now reads.new link.old link.new) link.old.talk link.new.talk }
    ensures alarm { result ≡ false → IsSome (P.port_state port.old).device →
        Rose (P.port_state port.old).failures (P.port_state port.new).failures }
{
    if link.due {
        if drives.is_empty() {
            return turn(port, link, drives, reads);
        }
    }
    turn_some(port, link, drives, reads)
}
