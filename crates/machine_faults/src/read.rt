//! Reads a fault set.

ghost use Rattle.std.specs.Prelude.{◌≡◌, ◌<◌, ◌≤◌, false, length, IfOk, IfErr};
ghost use Rattle.machine_shape.specs.Vocabulary.{most_text};
ghost use Rattle.machine_meaning.specs.Faults.{Faults};
ghost use Rattle.base_text.specs.Vocabulary.{logical_lines, is_bad_line};
ghost use Rattle.machine_faults.specs.Text.{IsFaultText};
ghost use Rattle.machine_faults.specs.Refusals.{IsRefusedAs, GivesOrLacks, IsFirst, Takes, told_of, line_told};

use crate::fault::AddFault;
use crate::kind::{FaultsFault, FaultsKind};
use crate::line::entry_of;
use crate::set::FaultSet;
use base_text::{Line, LineFault, Lines};
use machine_shape::Shape;
use std::alloc::Global;

/// What the text is told where a set refuses the entry of a line.
fn told(line: u64, why: AddFault) -> FaultsFault
    ensures { result ≡ told_of line why }
{
    let kind = match why {
        AddFault::Same => FaultsKind::Same,
        AddFault::Doubled => FaultsKind::Doubled,
        AddFault::Against => FaultsKind::Against,
        AddFault::Limit => FaultsKind::Limit,
        AddFault::Memory => return FaultsFault::Memory,
    };
    FaultsFault::At { line, kind }
}

/// What the text is told where a line can't be read.
fn line_told(fault: LineFault) -> FaultsFault
    ensures { result ≡ line_told fault }
{
    match fault {
        LineFault::Memory => FaultsFault::Memory,
        LineFault::BadByte { line } => FaultsFault::At {
            line,
            kind: FaultsKind::Byte,
        },
    }
}

/// Adds the entry of a line.
fn take_line(set: &mut FaultSet, line: &Line) -> Result<(), FaultsFault>
    requires some { 0 < length line.now.words }
    requires sound { is_bad_line line.now ≡ false }
    ensures { Takes set.old line.now result set.new }
{
    match entry_of(&set.shape(), line.words()) {
        Ok(entry) => match set.add(entry) {
            Ok(()) => Ok(()),
            Err(why) => Err(told(line.number(), why)),
        },
        Err(kind) => Err(FaultsFault::At {
            line: line.number(),
            kind,
        }),
    }
}

/// Reads the lines of a text.
fn read_lines(alloc: Global, shape: &Shape, bytes: &[u8]) -> Result<FaultSet, FaultsFault>
    ensures found { IfOk result (λ s. (s.shape ≡ shape.now) × IsFaultText shape.now bytes.now s.faults) }
    ensures refused { IfErr result (IsFirst shape.now (logical_lines false bytes.now)) }
{
    let Ok(mut set) = FaultSet::none(alloc, *shape) else {
        return Err(FaultsFault::Memory);
    };
    let mut lines = Lines::new(alloc, bytes, false);
    'lines: loop {
        match lines.next_line() {
            Ok(None) => return Ok(set),
            Ok(Some(line)) => {
                if let Err(fault) = take_line(&mut set, &line) {
                    return Err(fault);
                }
            }
            Err(fault) => return Err(line_told(fault)),
        }
    }
}

/// The faults that a text gives, of a machine of this shape. It is refused at its first faulty line, and there for
/// what comes first in the order of [`FaultsKind`]; for its limit, at line 0, where it has more than 16,777,216
/// bytes, and of a machine that isn't small more than 1,073,741,824, whatever they are.
pub fn read_faults(alloc: Global, shape: &Shape, bytes: &[u8]) -> Result<FaultSet, FaultsFault>
    ensures found { IfOk result (λ s. (s.shape ≡ shape.now) × IsFaultText shape.now bytes.now s.faults × (length bytes.now ≤ most_text shape.now)) }
    ensures refused { IfErr result (IsRefusedAs shape.now bytes.now) }
    // A text of faults within the limit on bytes is read, unless memory is lacking.
    ensures only { (f : Faults) → IsFaultText shape.now bytes.now f → length bytes.now ≤ most_text shape.now →
        GivesOrLacks (record { shape = shape.now; faults = f }) result }
{
    machine_shape::names_are_one_to_one();
    machine_shape::the_crosspoints_are_sound();
    machine_shape::the_numbering_is_sound();
    let most = shape.most_text() as usize;
    if bytes.len() > most {
        return Err(FaultsFault::At {
            line: 0,
            kind: FaultsKind::Limit,
        });
    }
    read_lines(alloc, shape, bytes)
}
