//! Spells again what a request asks, so that one is taken only where it is spelled so, byte by byte.
ghost use Rattle.std.specs.Prelude.{◌≡◌, ◌+◌, ◌^◌, ◌<◌, ◌≤◌, ◌++◌, ◌∷◌, [], vec_len, IfSome, OnOk};
ghost use Rattle.std.specs.List.{sum_by};
ghost use Rattle.std.specs.Vec.{vec_capacity};
ghost use Rattle.rig_port.specs.Checks.{fresh_check, after};
ghost use Rattle.rig_port.specs.Lines.{word_room};
ghost use Rattle.rig_port.specs.Requests.{edit_text, edits_text, drives_text, led_drives, attach_body, attach_line, load_body};
ghost use Rattle.rig_port.specs.RigPorts.{edit_of, edits_of, wanted_body, wanted_line};

use crate::check::Check;
use crate::parse::attach_number;
use crate::spelling::{put_attach, put_check, put_drives, put_setting, put_word};
use crate::wanted::{Asked, Change, Wanted};
use rig::PinBits;
use std::alloc::{AllocError, Global};

// Spells a change.
fn put_change(line: &mut Vec<u8>, change: Change) -> Result<(), AllocError>
    ensures { OnOk result (line.new.items ≡ line.old.items ++ (edit_text (edit_of change) ++ 32 ∷ [])) }
{
    match change {
        Change::Close(c) => put_word(line, b'c', c.0),
        Change::Open(c) => put_word(line, b'o', c.0),
        Change::On(t, s) => put_setting(line, t.0, s),
        Change::Off(t) => put_word(line, b'x', t.0),
        Change::Ticks(n) => put_word(line, b'k', u32::from(n)),
    }
}
// How many bytes the words of these rows take at most.
fn room_of(rows: &[PinBits]) -> Option<usize>
    ensures { IfSome result (λ n. n ≡ sum_by word_room rows.now) }
{
    let mut total = 0usize;
    'rows: for k in 0..rows.len() {
        let word = rows[k].len().div_ceil(8) as usize * 2 + 2;
        total = total.checked_add(word)?;
    }
    Some(total)
}

/// Makes room behind a line for the words of these rows, and for what is in front of them and behind.
pub fn make_room(line: &mut Vec<u8>, rows: &[PinBits]) -> Result<(), AllocError>
    ensures same { line.new.items ≡ line.old.items }
    ensures len { vec_len line.new ≡ vec_len line.old }
    ensures room { OnOk result (vec_len line.new + sum_by word_room rows.now + 7 ≤ vec_capacity line.new) }
{
    let Some(room) = room_of(rows) else {
        return Err(AllocError);
    };
    line.reserve(room.saturating_add(7))?;
    Ok(())
}

// Adds the words of changes.
fn put_changes(line: &mut Vec<u8>, changes: &[Change]) -> Result<(), AllocError>
    ensures { OnOk result (line.new.items ≡ line.old.items ++ edits_text (edits_of changes.now)) }
{
    'changes: for k in 0..changes.len() {
        put_change(line, changes[k])?;
    }
    Ok(())
}

// Adds drives behind a body, and makes room for a check.
fn put_end(line: &mut Vec<u8>, drives: &[PinBits]) -> Result<(), AllocError>
    ensures spelled { OnOk result (line.new.items ≡ line.old.items ++ drives_text drives.now) }
    ensures room { OnOk result (vec_len line.new + 6 ≤ vec_capacity line.new) }
{
    make_room(line, drives)?;
    put_drives(line, drives);
    Ok(())
}

// Adds the word of a load and its drives behind a body, and makes room for a check.
fn put_load_end(line: &mut Vec<u8>, drives: &[PinBits]) -> Result<(), AllocError>
    ensures spelled { OnOk result (line.new.items ≡ line.old.items ++ 108 ∷ [] ++ led_drives drives.now) }
    ensures room { OnOk result (vec_len line.new + 6 ≤ vec_capacity line.new) }
{
    line.push(b'l')?;
    if drives.is_empty() {
        line.reserve(6)?;
        return Ok(());
    }
    line.push(b' ')?;
    put_end(line, drives)?;
    Ok(())
}

// Spells the body of a load and its first cycles, and makes room for a check.
fn put_load_body(line: &mut Vec<u8>, wanted: &Wanted) -> Result<(), AllocError>
    requires { line.old.items ≡ [] }
    ensures spelled { OnOk result (line.new.items
        ≡ load_body wanted.now.anew (edits_of wanted.now.changes.items) wanted.now.drives.items) }
    ensures room { OnOk result (vec_len line.new + 6 ≤ vec_capacity line.new) }
{
    if wanted.anew {
        line.extend_from_slice(b"z ")?;
    }
    put_changes(line, &wanted.changes)?;
    put_load_end(line, &wanted.drives)?;
    Ok(())
}

// Spells the body that asks this, and makes room for a check.
fn put_wanted(line: &mut Vec<u8>, wanted: &Wanted) -> Result<(), AllocError>
    requires { line.old.items ≡ [] }
    ensures spelled { OnOk result (line.new.items ≡ wanted_body wanted.now) }
    ensures room { OnOk result (vec_len line.new + 6 ≤ vec_capacity line.new) }
{
    if wanted.loads {
        put_load_body(line, wanted)?;
        return Ok(());
    }
    put_end(line, &wanted.drives)?;
    Ok(())
}

/// The check behind a request that is, byte by byte, the line that asks this; `None` where it isn't, or memory is lacking.
pub fn spelled_check(alloc: Global, request: &[u8], check: Check, wanted: &Wanted) -> Option<Check>
    ensures { IfSome result (λ now. (request.now ≡ wanted_line check wanted.now) × (now ≡ after check (wanted_body wanted.now))) }
{
    let mut line = Vec::new(alloc);
    let Ok(()) = put_wanted(&mut line, wanted) else {
        return None;
    };
    let now = put_check(&mut line, check);
    let is = request == line.as_slice();
    if is { Some(now) } else { None }
}
/// The number under which a request asks, byte by byte, what machine it is, and the check behind it; `None` where it doesn't, or memory is
/// lacking.
pub fn read_attach(alloc: Global, request: &[u8]) -> Option<Asked>
    ensures { IfSome result (λ asked. (asked.number < 2 ^ 32) × (request.now ≡ attach_line asked.number)
        × (asked.check ≡ after fresh_check (attach_body asked.number))) }
{
    let number = attach_number(request)?;
    let mut line = Vec::new(alloc);
    let Ok(()) = put_attach(&mut line, number) else {
        return None;
    };
    let Ok(()) = line.reserve(6) else {
        return None;
    };
    let check = put_check(&mut line, Check::new());
    if request == line.as_slice() {
        Some(Asked { number, check })
    } else {
        None
    }
}
