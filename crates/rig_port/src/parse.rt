//! Reads what a request asks.
ghost use Rattle.std.specs.Prelude.{◌≡◌, ◌^◌, ◌<◌, ◌≤◌, false, length, All, IfOk, IfSome};
ghost use Rattle.machine_shape.specs.Shape.{pins_of};
ghost use Rattle.rig_port.specs.Requests.{IsEditOf};
ghost use Rattle.rig_port.specs.RigPorts.{edit_of, IsWantedOf};

use crate::turn::read_pins;
use crate::wanted::{Change, Wanted};
use base_text::read_number;
use machine_config::Setting;
use machine_shape::{Cross, Shape, Table};
use rig::PinBits;
use std::alloc::{AllocError, Global};

/// The bytes from one place to another; none where these aren't places of it.
pub fn part(bytes: &[u8], from: usize, to: usize) -> &[u8] {
    if from <= to {
        if to <= bytes.len() {
            return &bytes[from..to];
        }
    }
    &bytes[..0]
}

// The number below a limit that a word spells.
fn number_of(word: &[u8], limit: u32) -> Option<u32>
    ensures { IfSome result (λ n. n < limit) }
{
    let n = read_number(word, 268435456)?;
    let n = n as u32;
    if n < limit { Some(n) } else { None }
}

// Sixteen hex digits as the cells of a table.
fn cells_of(word: &[u8]) -> Option<u64>
    ensures { IfSome result (λ n. n < 2 ^ 64) }
{
    let mut bytes = [0u8; 8];
    if hex::decode_to_slice(word, &mut bytes).is_err() {
        return None;
    }
    Some(u64::from_be_bytes(bytes))
}

// What a table does, of the text behind its number: cells, a comma, and the digit of its flags.
fn setting_of(word: &[u8]) -> Option<Setting>
    ensures { IfSome result (λ s. s.cells < 2 ^ 64) }
{
    if word.len() != 18 {
        return None;
    }
    let digit = word[17];
    if digit < b'0' {
        return None;
    }
    let cells = cells_of(&word[..16])?;
    let flags = digit - b'0';
    Some(Setting {
        cells,
        latched: flags % 2 == 1,
        init: flags / 2 % 2 == 1,
    })
}

// Where a byte stands first from a place on; where it doesn't, the end.
fn place_of(bytes: &[u8], begin: usize, byte: u8) -> usize
    ensures { result ≤ length bytes.now }
{
    'bytes: for k in begin..bytes.len() {
        if bytes[k] == byte {
            return k;
        }
    }
    bytes.len()
}

// The table that is switched on, and what it does.
fn on_of(word: &[u8], shape: &Shape) -> Option<Change>
    ensures { IfSome result (λ c. IsEditOf shape.now (edit_of c)) }
{
    let comma = place_of(word, 0, b',');
    let t = number_of(part(word, 0, comma), shape.tables())?;
    let setting = setting_of(part(word, comma.saturating_add(1), word.len()))?;
    Some(Change::On(Table(t), setting))
}

// The ticks of a cycle.
fn ticks_of(word: &[u8], shape: &Shape) -> Option<Change>
    ensures { IfSome result (λ c. IsEditOf shape.now (edit_of c)) }
{
    let n = number_of(word, u32::from(shape.most_ticks()) + 1)?;
    if n == 0 {
        return None;
    }
    Some(Change::Ticks(n as u16))
}

// The change that a word makes, where it is one.
fn change_of(word: &[u8], shape: &Shape) -> Option<Change>
    ensures { IfSome result (λ c. IsEditOf shape.now (edit_of c)) }
{
    let letter = *word.first()?;
    let rest = part(word, 1, word.len());
    match letter {
        b'c' => Some(Change::Close(Cross(number_of(rest, shape.crosses())?))),
        b'o' => Some(Change::Open(Cross(number_of(rest, shape.crosses())?))),
        b't' => on_of(rest, shape),
        b'x' => Some(Change::Off(Table(number_of(rest, shape.tables())?))),
        b'k' => ticks_of(rest, shape),
        _ => None,
    }
}

// Reads the words of changes from a place on, and answers where another word begins.
fn read_changes(
    body: &[u8],
    begin: usize,
    shape: &Shape,
    changes: &mut Vec<Change>,
) -> Result<usize, AllocError>
    requires { All (λ c. IsEditOf shape.now (edit_of c)) changes.old.items }
    ensures { All (λ c. IsEditOf shape.now (edit_of c)) changes.new.items }
{
    let mut at = begin;
    'words: for _k in 0..body.len() {
        let end = place_of(body, at, b' ');
        let Some(change) = change_of(part(body, at, end), shape) else {
            return Ok(at);
        };
        changes.push(change)?;
        at = end.saturating_add(1);
    }
    Ok(at)
}

// Reads the drives from a place on, at least one. What isn't a text of drives gives any, which spell another line.
fn read_drives(
    alloc: Global,
    body: &[u8],
    begin: usize,
    shape: &Shape,
) -> Result<Vec<PinBits>, AllocError>
    ensures some { IfOk result (λ drives. 0 < length drives.items) }
    ensures wide { IfOk result (λ drives. All (λ row. length row ≡ pins_of shape.now) drives.items) }
{
    let pins = shape.pins();
    let step = pins.div_ceil(8) as usize * 2 + 2;
    let mut drives = Vec::new(alloc);
    let mut drive = PinBits::new(alloc, pins)?;
    read_pins(body, begin.min(body.len()) + 1, &mut drive);
    drives.push(drive)?;
    let mut at = begin.saturating_add(step);
    'words: while at < body.len() {
        let mut drive = PinBits::new(alloc, pins)?;
        read_pins(body, at + 1, &mut drive);
        drives.push(drive)?;
        at = at.saturating_add(step);
    }
    Ok(drives)
}

// Reads the drives of a load that has its word at a place, if there are any, or those that stand there alone.
fn drives_of(
    alloc: Global,
    body: &[u8],
    at: usize,
    loads: bool,
    shape: &Shape,
) -> Result<Vec<PinBits>, AllocError>
    ensures some { IfOk result (λ drives. loads ≡ false → 0 < length drives.items) }
    ensures wide { IfOk result (λ drives. All (λ row. length row ≡ pins_of shape.now) drives.items) }
{
    if !loads {
        let drives = read_drives(alloc, body, at, shape)?;
        return Ok(drives);
    }
    let begin = at.saturating_add(2);
    if begin < body.len() {
        let drives = read_drives(alloc, body, begin, shape)?;
        return Ok(drives);
    }
    // Of some shape, which is looked at.
    let _pins = shape.pins();
    Ok(Vec::new(alloc))
}

/// What a request asks, as far as its form goes: whether it is spelled so is seen by spelling it again.
pub fn read_request(alloc: Global, request: &[u8], shape: &Shape) -> Result<Wanted, AllocError>
    ensures { IfOk result (λ w. IsWantedOf shape.now w) }
{
    let body = part(request, 0, request.len().saturating_sub(6));
    let mut changes = Vec::new(alloc);
    let anew = body.starts_with(b"z ");
    let begin = if anew { 2 } else { 0 };
    let at = read_changes(body, begin, shape, &mut changes)?;
    let loads = place_of(body, at, b'l') == at;
    let drives = drives_of(alloc, body, at, loads, shape)?;
    Ok(Wanted {
        loads,
        anew,
        changes,
        drives,
    })
}
/// The number that a request asks what machine it is under, as far as its form goes.
pub fn attach_number(request: &[u8]) -> Option<u32> {
    if !request.starts_with(b"a ") {
        return None;
    }
    let n = read_number(
        part(request, 2, request.len().saturating_sub(6)),
        4_294_967_295,
    )?;
    Some(n as u32)
}
