//! Writes a machine.

ghost use Rattle.std.specs.Prelude.{◌≡◌, ◌≤◌, ◌++◌, ◌∷◌, [], ◌<◌, length, map, OnOk, IfOk, All};
ghost use Rattle.std.specs.Fmt.{decimal};
ghost use Rattle.base_text.specs.Vocabulary.{written, written_line, most_bytes};
ghost use Rattle.machine_text.specs.Heads.{heads};
ghost use Rattle.machine_text.specs.Machine.{IsMachine, numbers_of, count_row, count_rows, form_of, text_of};

use crate::head::{HEADS, Head};
use crate::said::Said;
use base_text::put_number;
use machine_shape::Shape;
use std::alloc::{AllocError, Global};

/// Writes a line: a word, and numbers behind it.
fn put_row(text: &mut Vec<u8>, word: &[u8], numbers: &[u16]) -> Result<(), AllocError>
    ensures put { OnOk result (text.new.items ≡ text.old.items ++ written_line (word.now ∷ map decimal numbers.now)) }
    ensures small { All (λ n. n < 65536) numbers.now }
{
    text.extend_from_slice(word)?;
    'numbers: for n in numbers {
        text.push(b' ')?;
        put_number(text, u64::from(*n))?;
    }
    text.push(b'\n')?;
    Ok(())
}

/// Writes the line of this kind.
fn put_line(text: &mut Vec<u8>, said: &Said, head: Head) -> Result<(), AllocError>
    ensures put { OnOk result (text.new.items ≡ text.old.items ++ written_line (count_row said.now head)) }
    ensures small { All (λ n. n < 65536) (numbers_of said.now head) }
{
    let counts = said.counts;
    match head {
        Head::Teramac => put_row(text, b"teramac", &[said.form])?,
        Head::Modules => put_row(text, b"modules", &[counts.modules])?,
        Head::Chips => put_row(text, b"chips", &[counts.chips])?,
        Head::Hextants => put_row(text, b"hextants", &[counts.hextants])?,
        Head::Tables => put_row(text, b"tables", &[counts.tables])?,
        Head::Ports => put_row(text, b"ports", &counts.ports)?,
        Head::Lines => put_row(text, b"lines", &counts.lines)?,
        Head::Pins => put_row(text, b"pins", &[counts.pins])?,
        Head::End => put_row(text, b"end", &[])?,
    }
    Ok(())
}

/// Writes all lines.
fn put_lines(text: &mut Vec<u8>, said: &Said) -> Result<(), AllocError>
    ensures put { OnOk result (text.new.items ≡ text.old.items ++ written (count_rows said.now)) }
    ensures small { OnOk result (All (λ h. All (λ n. n < 65536) (numbers_of said.now h)) heads) }
{
    'heads: for head in &HEADS {
        put_line(text, said, *head)?;
    }
    Ok(())
}

/// The form of a shape's text.
fn form(shape: &Shape) -> u16
    ensures { result ≡ form_of shape.now.counts }
{
    if shape.is_small() { 1 } else { 2 }
}

/// The text of a machine of this shape: nine lines, with single spaces, in the first form where the shape is small. Reading it gives the shape again, unless memory is
/// wanting.
pub fn machine_text(alloc: Global, shape: &Shape) -> Result<Vec<u8>, AllocError>
    ensures text { IfOk result (λ text. text.items ≡ text_of shape.now.counts) }
    ensures machine { IfOk result (λ text. IsMachine text.items shape.now.counts) }
    ensures few { IfOk result (λ text. length text.items ≤ most_bytes) }
{
    let said = Said {
        form: form(shape),
        counts: shape.counts(),
    };
    let mut text = Vec::new(alloc);
    put_lines(&mut text, &said)?;
    Ok(text)
}
