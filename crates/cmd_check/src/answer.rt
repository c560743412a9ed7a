//! What a check answers, and the line that says so.
ghost use Rattle.std.specs.Prelude.{◌≡◌, ◌++◌, ◌∷◌, OnOk, IfOk};
ghost use Rattle.cmd_check.specs.Answers.{answer_line, IsOfMachine};

use machine_shape::{Cross, Shape, Table, Wire};
use std::alloc::{AllocError, Global};

/// What a check comes to.
#[derive(Clone, Copy, Debug, PartialEq, Eq)]
pub enum Answer {
    /// The image runs as on a machine without faults.
    Sound,
    /// It uses this wire, which isn't free.
    Wire(Wire),
    /// It closes this crosspoint, which isn't free.
    Cross(Cross),
    /// It switches this table on, which isn't free.
    Table(Table),
}

// Appends a word with a space before it.
fn put_next(text: &mut Vec<u8>, word: &[u8]) -> Result<(), AllocError>
    ensures { OnOk result (text.new.items ≡ text.old.items ++ 32 ∷ word.now) }
{
    text.push(b' ')?;
    text.extend_from_slice(word)
}

/// The line that says what a check came to.
pub fn line_of(alloc: Global, shape: &Shape, answer: Answer) -> Result<Vec<u8>, AllocError>
    requires { IsOfMachine shape.now answer }
    ensures { IfOk result (λ text. text.items ≡ answer_line shape.now answer) }
{
    let mut text = Vec::new(alloc);
    match answer {
        Answer::Sound => text.extend_from_slice(b"sound")?,
        Answer::Wire(wire) => {
            text.extend_from_slice(b"doubt wire")?;
            put_next(&mut text, shape.wire_name(wire).as_bytes())?;
        }
        Answer::Cross(cross) => {
            let (tap, line) = shape.ends(cross);
            text.extend_from_slice(b"doubt cross")?;
            put_next(&mut text, shape.wire_name(tap).as_bytes())?;
            put_next(&mut text, shape.wire_name(line).as_bytes())?;
        }
        Answer::Table(table) => {
            text.extend_from_slice(b"doubt table")?;
            put_next(&mut text, shape.table_name(table).as_bytes())?;
        }
    }
    text.push(b'\n')?;
    Ok(text)
}
