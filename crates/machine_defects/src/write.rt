//! Writes a list of defects.

ghost use Rattle.std.specs.Prelude.{◌≡◌, ◌++◌, ◌∷◌, [], if◌then◌else◌, map, OnOk, IfOk};
ghost use Rattle.std.specs.FinSet as set;
ghost use Rattle.machine_shape.specs.Shape.{wires_of, crosses_of, tables_of};
ghost use Rattle.base_text.specs.Written.{written, written_line};
ghost use Rattle.machine_defects.specs.Lists.{those};
ghost use Rattle.machine_defects.specs.Text.{IsEntryOf, entry_words, first_row, shape_row, counts_of, as_wire, as_cross, as_table, text_of};
ghost use Rattle.machine_defects.specs.Faults.{IsText};
ghost use Rattle.machine_defects.specs.Steps.{numerals};

use crate::entry::Entry;
use crate::list::Defects;
use crate::read::counts_of;
use base_text::put_number;
use machine_shape::{Cross, Shape, Table, Wire};
use std::alloc::{AllocError, Global};

/// Appends numbers, each with a space before it.
fn put_numbers(text: &mut Vec<u8>, numbers: &[u16]) -> Result<(), AllocError>
    ensures { OnOk result (text.new.items ≡ text.old.items ++ numerals numbers.now) }
{
    'numbers: for n in numbers {
        text.push(b' ')?;
        put_number(text, u64::from(*n))?;
    }
    Ok(())
}

/// Appends the first two lines.
fn put_heads(text: &mut Vec<u8>, shape: &Shape) -> Result<(), AllocError>
    ensures { OnOk result (text.new.items ≡ text.old.items ++
        (written_line first_row ++ written_line (shape_row (counts_of shape.now.counts)))) }
{
    text.extend_from_slice(b"defects 1\nshape")?;
    put_numbers(text, &counts_of(&shape.counts()))?;
    text.push(b'\n')?;
    Ok(())
}

/// Appends a word with a space before it.
fn put_next(text: &mut Vec<u8>, word: &[u8]) -> Result<(), AllocError>
    ensures { OnOk result (text.new.items ≡ text.old.items ++ 32 ∷ word.now) }
{
    text.push(b' ')?;
    text.extend_from_slice(word)
}

/// Appends the line of an entry.
fn put_entry(text: &mut Vec<u8>, shape: &Shape, e: Entry) -> Result<(), AllocError>
    requires { IsEntryOf shape.now e }
    ensures { OnOk result (text.new.items ≡ text.old.items ++ written_line (entry_words shape.now e)) }
{
    match e {
        Entry::Wire { wire } => {
            text.extend_from_slice(b"wire")?;
            put_next(text, shape.wire_name(wire).as_bytes())?;
        }
        Entry::Cross { cross } => {
            text.extend_from_slice(b"cross")?;
            let (tap, line) = shape.ends(cross);
            put_next(text, shape.wire_name(tap).as_bytes())?;
            put_next(text, shape.wire_name(line).as_bytes())?;
        }
        Entry::Table { table } => {
            text.extend_from_slice(b"table")?;
            put_next(text, shape.table_name(table).as_bytes())?;
        }
    }
    text.push(b'\n')?;
    Ok(())
}

/// Appends the line of an entry, if it is listed.
fn put_listed(text: &mut Vec<u8>, shape: &Shape, listed: bool, e: Entry) -> Result<(), AllocError>
    requires { IsEntryOf shape.now e }
    ensures { OnOk result (text.new.items ≡ text.old.items ++ (if listed then written_line (entry_words shape.now e) else [])) }
{
    if listed {
        put_entry(text, shape, e)
    } else {
        Ok(())
    }
}

/// Appends the listed wires.
fn put_wires(text: &mut Vec<u8>, list: &Defects) -> Result<(), AllocError>
    ensures { OnOk result (text.new.items ≡ text.old.items ++ written
        (map (entry_words list.now.shape) (map as_wire (those (set.contains list.now.list.wires) (wires_of list.now.shape))))) }
{
    let shape = list.shape();
    'wires: for w in 0..shape.wires() {
        let wire = Wire(w);
        put_listed(text, &shape, list.lists_wire(wire), Entry::Wire { wire })?;
    }
    Ok(())
}

/// Appends the listed crosspoints.
fn put_crosses(text: &mut Vec<u8>, list: &Defects) -> Result<(), AllocError>
    ensures { OnOk result (text.new.items ≡ text.old.items ++ written
        (map (entry_words list.now.shape) (map as_cross (those (set.contains list.now.list.crosses) (crosses_of list.now.shape))))) }
{
    let shape = list.shape();
    'crosses: for x in 0..shape.crosses() {
        let cross = Cross(x);
        put_listed(
            text,
            &shape,
            list.lists_cross(cross),
            Entry::Cross { cross },
        )?;
    }
    Ok(())
}

/// Appends the listed tables.
fn put_tables(text: &mut Vec<u8>, list: &Defects) -> Result<(), AllocError>
    ensures { OnOk result (text.new.items ≡ text.old.items ++ written
        (map (entry_words list.now.shape) (map as_table (those (set.contains list.now.list.tables) (tables_of list.now.shape))))) }
{
    let shape = list.shape();
    'tables: for t in 0..shape.tables() {
        let table = Table(t);
        put_listed(
            text,
            &shape,
            list.lists_table(table),
            Entry::Table { table },
        )?;
    }
    Ok(())
}

/// The one spelling of a list: its machine's counts, then the listed wires, crosspoints and tables, each by number.
/// Where it has no more bytes than are read, reading it gives the list again, unless memory is lacking; a longer one is
/// written all the same, and can't be read.
pub fn defects_text(alloc: Global, list: &Defects) -> Result<Vec<u8>, AllocError>
    ensures text { IfOk result (λ text. text.items ≡ text_of list.now) }
    ensures right { IfOk result (λ text. IsText list.now.shape text.items list.now) }
{
    let shape = list.shape();
    let mut text = Vec::new(alloc);
    put_heads(&mut text, &shape)?;
    put_wires(&mut text, list)?;
    put_crosses(&mut text, list)?;
    put_tables(&mut text, list)?;
    text.extend_from_slice(b"end\n")?;
    Ok(text)
}
