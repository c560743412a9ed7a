//! Reads a machine.

ghost use Rattle.std.specs.Prelude.{◌≡◌, ◌≤◌, false, length, None, Some, Ok, Err, IfOk, IfErr};
ghost use Rattle.machine_shape.specs.declared.Counts.{Counts};
ghost use Rattle.base_text.specs.Vocabulary.{logical_lines, most_bytes};
ghost use Rattle.machine_text.specs.Faults.{IsRefusedAs, GivesOrLacks};
ghost use Rattle.machine_text.specs.Machine.{IsMachine};
ghost use Rattle.machine_text.specs.Readers.{state_of, IsReader, IsReadFault, IsReadShape};
ghost use Rattle.machine_text.specs.Reading.{reading, start};

use crate::kind::{MachineFault, MachineKind};
use crate::reader::{Reader, take_line};
use crate::said::Said;
use base_text::{LineFault, Lines, MOST_BYTES};
use machine_shape::{Counts, Shape};
use std::alloc::Global;

/// No line was read.
fn new_reader() -> Reader
    ensures state { state_of result ≡ start }
    ensures kept { IsReader result }
{
    let counts = Counts {
        modules: 0,
        chips: 0,
        hextants: 0,
        tables: 0,
        ports: [0; 3],
        lines: [0; 4],
        pins: 0,
    };
    Reader {
        read: 0,
        said: Said { form: 0, counts },
        shape: None,
    }
}

/// Reads the lines of a text: what they say, and the shape of it.
#[tactic(auto, unfolding(crate::specs::Reading::reading))]
fn read_lines(alloc: Global, bytes: &[u8]) -> Result<(Said, Shape), MachineFault>
    ensures found { IfOk result (λ r. IsReadShape (logical_lines false bytes.now) r.0 r.1) }
    ensures refused { IfErr result (IsReadFault (logical_lines false bytes.now)) }
{
    let mut lines = Lines::new(alloc, bytes, false);
    let mut reader = new_reader();
    'lines: loop {
        match lines.next_line() {
            Ok(None) => break,
            Ok(Some(line)) => {
                if let Err(kind) = take_line(&mut reader, &line) {
                    let line = line.number();
                    return Err(MachineFault::At { line, kind });
                }
            }
            Err(LineFault::Memory) => return Err(MachineFault::Memory),
            Err(LineFault::BadByte { line }) => {
                let kind = MachineKind::Byte;
                return Err(MachineFault::At { line, kind });
            }
        }
    }
    match reader.shape {
        Some(shape) => Ok((reader.said, shape)),
        None => Err(MachineFault::At {
            line: 0,
            kind: MachineKind::Missing,
        }),
    }
}

/// The shape whose machine the text is of, which is small where its first line says `teramac 1`. It is refused at its first faulty line, and there for what comes first
/// in the order byte, after, word, order, word, number, limit; as missing, at line 0, where it ends before its ninth
/// line; and for its limit, at line 0, where it has more than 16,777,216 bytes.
pub fn read_machine(alloc: Global, bytes: &[u8]) -> Result<Shape, MachineFault>
    ensures found { IfOk result (λ s. IsMachine bytes.now s.counts × (length bytes.now ≤ most_bytes)) }
    ensures refused { IfErr result (IsRefusedAs bytes.now) }
    // The text of a machine within the limit on bytes is read, unless memory is lacking.
    ensures only { (c : Counts) → IsMachine bytes.now c → length bytes.now ≤ most_bytes → GivesOrLacks c result }
{
    if bytes.len() > MOST_BYTES {
        return Err(MachineFault::At {
            line: 0,
            kind: MachineKind::Limit,
        });
    }
    match read_lines(alloc, bytes) {
        Ok((_, shape)) => Ok(shape),
        Err(fault) => Err(fault),
    }
}
