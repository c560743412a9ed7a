//! Reads a list of defects.

ghost use Rattle.std.specs.Prelude.{◌≡◌, ◌≢◌, ◌↔◌, ◌<◌, ◌≤◌, ◌++◌, ◌∷◌, [], ℕ, List, None, codes, length, IsTrue, IfOk, IfErr, MatchOption};
ghost use Rattle.std.specs.Prelude.{MatchResult, OnOk};
ghost use Rattle.machine_shape.specs.Vocabulary.{most_text};
ghost use Rattle.base_text.specs.Vocabulary.{written_line};
ghost use Rattle.machine_defects.specs.Lists.{IsDefectList, DefectList, no_defects};
ghost use Rattle.machine_defects.specs.Text.{IsEntryOf, IsFreeEntry, entry_words, counts_of, entries_of, is_before, first_row, shape_row};
ghost use Rattle.machine_defects.specs.Faults.{AreCounts, IsLineFault, IsRefusedAs, IsText, GivesOrLacks};
ghost use Rattle.machine_defects.specs.Steps.{row_of, IsLast, IsReadTo, Steps, IsFirst, IsAdded, IsBeyond, is_behind};
ghost use Rattle.machine_defects.specs.declared.entry.Entry.{Entry};

use crate::entry::{Entry, is_before};
use crate::form::{Form, behind, counts_in, cut, form_of};
use crate::kind::{DefectsFault, DefectsKind};
use crate::list::Defects;
use machine_shape::{Counts, Shape};
use std::alloc::Global;

/// What a line of the list comes to.
#[derive(Clone, Copy, Debug)]
pub enum Step<'a> {
    /// It lists something, and these bytes stand behind it.
    Further { rest: &'a [u8] },
    /// It is the last one, and these bytes stand behind it.
    End { rest: &'a [u8] },
    /// It is refused.
    Refused { kind: DefectsKind },
}

/// The twelve counts in the order of the text.
pub fn counts_of(counts: &Counts) -> [u16; 12]
    ensures counts { result ≡ counts_of counts.now }
    ensures small { AreCounts (counts_of counts.now) }
{
    let [module_ports, chip_ports, hextant_ports] = counts.ports;
    let [root_lines, module_lines, chip_lines, hextant_lines] = counts.lines;
    [
        counts.modules,
        counts.chips,
        counts.hextants,
        counts.tables,
        module_ports,
        chip_ports,
        hextant_ports,
        root_lines,
        module_lines,
        chip_lines,
        hextant_lines,
        counts.pins,
    ]
}

/// What stands behind the first line.
fn behind_first(bytes: &[u8]) -> Option<&[u8]>
    ensures { MatchOption result ((rest : List ℕ) → bytes.now ≢ written_line first_row ++ rest)
        (λ rest. bytes.now ≡ written_line first_row ++ rest.now) }
{
    behind(bytes, b"defects 1\n")
}

/// What stands behind the line of the shape.
fn behind_shape<'a>(shape: &Shape, bytes: &'a [u8]) -> Result<&'a [u8], DefectsKind>
    ensures { MatchResult result (λ rest. bytes.now ≡ written_line (shape_row (counts_of shape.now.counts)) ++ rest.now)
        (IsLineFault (record { shape = shape.now; list = no_defects }) 1 bytes.now) }
{
    let Some((line, rest)) = cut(bytes, b'\n') else {
        return Err(DefectsKind::Word);
    };
    let Some(numbers) = counts_in(line) else {
        return Err(DefectsKind::Word);
    };
    if numbers == counts_of(&shape.counts()) {
        Ok(rest)
    } else {
        Err(DefectsKind::WrongMachine)
    }
}

/// The crosspoint of two names.
fn cross_of(shape: &Shape, tap: &[u8], line: &[u8]) -> Option<Entry>
    ensures { MatchOption result ((e : Entry) → IsEntryOf shape.now e → entry_words shape.now e ≢ codes "cross" ∷ tap.now ∷ line.now ∷ [])
        (λ e. IsEntryOf shape.now e × (entry_words shape.now e ≡ codes "cross" ∷ tap.now ∷ line.now ∷ [])) }
{
    machine_shape::names_are_one_to_one();
    machine_shape::the_numbering_is_sound();
    let Some(tap) = shape.wire_of(tap) else {
        return None;
    };
    let Some(line) = shape.wire_of(line) else {
        return None;
    };
    match shape.cross(tap, line) {
        Some(cross) => Some(Entry::Cross { cross }),
        None => None,
    }
}

/// What a line of this form lists.
fn entry_of(shape: &Shape, form: &Form<'_>) -> Option<Entry>
    ensures { MatchOption result ((e : Entry) → IsEntryOf shape.now e → entry_words shape.now e ≢ row_of form.now)
        (λ e. IsEntryOf shape.now e × (entry_words shape.now e ≡ row_of form.now)) }
{
    match form {
        Form::Wire { name } => match shape.wire_of(name) {
            Some(wire) => Some(Entry::Wire { wire }),
            None => None,
        },
        Form::Cross { tap, line } => cross_of(shape, tap, line),
        Form::Table { name } => match shape.table_of(name) {
            Some(table) => Some(Entry::Table { table }),
            None => None,
        },
    }
}

/// Whether what the entry lists is free.
fn is_free(list: &Defects, e: Entry) -> bool
    requires { IsEntryOf list.now.shape e }
    ensures { IsTrue result ↔ IsFreeEntry list.now e }
{
    match e {
        Entry::Wire { wire } => list.free_wire(wire),
        Entry::Cross { cross } => list.free_cross(cross),
        Entry::Table { table } => list.free_table(table),
    }
}

/// Whether an entry stands before the last one.
fn is_behind(e: Entry, last: &Option<Entry>) -> bool
    ensures { result ≡ is_behind e last.now }
{
    match last {
        Some(last) => is_before(e, *last),
        None => false,
    }
}

/// Lists what the entry lists.
fn put_entry(list: &mut Defects, e: Entry)
    requires of { IsEntryOf list.old.shape e }
    requires free { IsFreeEntry list.old e }
    requires beyond { IsBeyond list.old e }
    ensures { IsAdded list.old e list.new }
{
    match e {
        Entry::Wire { wire } => list.list_wire(wire),
        Entry::Cross { cross } => list.list_cross(cross),
        Entry::Table { table } => list.list_table(table),
    }
}

/// Lists what the entry lists, behind all that is listed.
fn list_entry(list: &mut Defects, e: Entry)
    requires of { IsEntryOf list.old.shape e }
    requires free { IsFreeEntry list.old e }
    requires beyond { IsBeyond list.old e }
    ensures shape { list.new.shape ≡ list.old.shape }
    ensures right { IsDefectList list.new }
    ensures added { entries_of list.new ≡ entries_of list.old ++ e ∷ [] }
{
    put_entry(list, e);
    // Its contract says what holds of every list.
    list.shape();
}

/// Reads a line of the list.
fn take_line<'a>(list: &mut Defects, last: &mut Option<Entry>, left: &'a [u8]) -> Step<'a>
    requires right { IsDefectList list.old }
    requires last { IsLast (entries_of list.old) last.old }
    ensures { Steps list.old last.old left.now result list.new last.new }
{
    let Some((line, rest)) = cut(left, b'\n') else {
        return Step::Refused {
            kind: DefectsKind::Word,
        };
    };
    if line == b"end".as_slice() {
        return Step::End { rest };
    }
    let Some(form) = form_of(line) else {
        return Step::Refused {
            kind: DefectsKind::Word,
        };
    };
    let Some(entry) = entry_of(&list.shape(), &form) else {
        return Step::Refused {
            kind: DefectsKind::Name,
        };
    };
    if is_behind(entry, last) {
        return Step::Refused {
            kind: DefectsKind::Order,
        };
    }
    if !is_free(list, entry) {
        return Step::Refused {
            kind: DefectsKind::Doubled,
        };
    }
    list_entry(list, entry);
    *last = Some(entry);
    Step::Further { rest }
}

/// Reads the lines below the first two.
fn read_entries(list: &mut Defects, bytes: &[u8], below: &[u8]) -> Result<(), DefectsFault>
    requires few { length bytes.now ≤ 1073741824 }
    requires begun { IsReadTo list.old.shape bytes.now below.now list.old None }
    ensures found { OnOk result (IsText list.old.shape bytes.now list.new) }
    ensures refused { IfErr result (IsFirst list.old.shape bytes.now) }
{
    let mut left = below;
    let mut last = None;
    let mut line = 3u64;
    'lines: loop {
        match take_line(list, &mut last, left) {
            Step::Further { rest } => {
                left = rest;
                line += 1;
            }
            Step::End { rest } => {
                if rest.is_empty() {
                    return Ok(());
                }
                return Err(DefectsFault::At {
                    line: line + 1,
                    kind: DefectsKind::After,
                });
            }
            Step::Refused { kind } => return Err(DefectsFault::At { line, kind }),
        }
    }
}

/// Reads a text within the largest limit on bytes.
fn read_within(alloc: Global, shape: &Shape, bytes: &[u8]) -> Result<Defects, DefectsFault>
    requires { length bytes.now ≤ 1073741824 }
    ensures found { IfOk result (IsText shape.now bytes.now) }
    ensures refused { IfErr result (IsFirst shape.now bytes.now) }
{
    let Some(left) = behind_first(bytes) else {
        return Err(DefectsFault::At {
            line: 1,
            kind: DefectsKind::Word,
        });
    };
    let below = match behind_shape(shape, left) {
        Ok(below) => below,
        Err(kind) => return Err(DefectsFault::At { line: 2, kind }),
    };
    let Ok(mut list) = Defects::none(alloc, *shape) else {
        return Err(DefectsFault::Memory);
    };
    match read_entries(&mut list, bytes, below) {
        Ok(()) => Ok(list),
        Err(fault) => Err(fault),
    }
}

/// The list of a text, of a machine of this shape. The bytes read are the one spelling of the list. A text is refused
/// at its first faulty line, and there for what comes first in this order: After, Word, WrongMachine, Name, Order,
/// Doubled. Where it has more than 16,777,216 bytes, and of a machine that isn't small more than 1,073,741,824, it is
/// refused at line 0, whatever they are.
pub fn read_defects(alloc: Global, shape: &Shape, bytes: &[u8]) -> Result<Defects, DefectsFault>
    ensures found { IfOk result (λ d. IsText shape.now bytes.now d × (length bytes.now ≤ most_text shape.now)) }
    ensures refused { IfErr result (IsRefusedAs shape.now bytes.now) }
    // The text of a list within the limit on bytes is read, unless memory is lacking.
    ensures only { (d : DefectList) → IsText shape.now bytes.now d → length bytes.now ≤ most_text shape.now → GivesOrLacks d result }
{
    machine_shape::names_are_one_to_one();
    machine_shape::the_crosspoints_are_sound();
    machine_shape::the_numbering_is_sound();
    let most = shape.most_text() as usize;
    if bytes.len() > most {
        return Err(DefectsFault::At {
            line: 0,
            kind: DefectsKind::Limit,
        });
    }
    // Their contract says that they are counts of a text.
    counts_of(&shape.counts());
    read_within(alloc, shape, bytes)
}
