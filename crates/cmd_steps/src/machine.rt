//! Machines that are read.
ghost use Rattle.std.specs.Prelude.{◌∷◌, []};
ghost use Rattle.base_io.specs.Told.{holds};
ghost use Rattle.cmd_steps.specs.Vocabulary.{SinkState, RigState, Outside, outside, Took};
ghost use Rattle.cmd_steps.specs.Texts.{reads_machine};

use crate::refusal::{Refusal, Stop};
use base_io::{Store, read_within};
use base_text::MOST_BYTES;
use machine_shape::Shape;
use machine_text::{MachineFault, MachineKind, read_machine};
use std::alloc::Global;

// The machine of a text.
fn shape_of_text(alloc: Global, text: &[u8]) -> Result<Shape, Stop>
    // Whatever is outside.
    ensures { (o : Outside) → Took [] (reads_machine (holds text.now)) result o o }
{
    match read_machine(alloc, text) {
        Ok(shape) => Ok(shape),
        Err(MachineFault::At { line, kind }) => {
            Err(Stop::Refused(Refusal::Machine { line, kind }))
        }
        Err(MachineFault::Memory) => Err(Stop::Refused(Refusal::Memory)),
    }
}

/// Reads a machine: its file up to one byte more than it may have.
///
/// # Errors
///
/// The store's, where it can't start or read the file; kind `Limit` at line 0, where the file is too long; else the first
/// fault of its text; or out of memory.
pub fn read_shape<S: Store>(alloc: Global, store: &mut S, name: &str) -> Result<Shape, Stop>
    // Whatever the rig and the sink are.
    ensures took { (rig : RigState) (sink : SinkState) →
        Took (name.now ∷ []) (reads_machine ((S.store_state store.old).contents name.now)) result
        (outside (S.store_state store.old) rig sink) (outside (S.store_state store.new) rig sink) }
{
    match read_within(alloc, store, name, MOST_BYTES)? {
        Some(text) => shape_of_text(alloc, &text),
        None => Err(Stop::Refused(Refusal::Machine {
            line: 0,
            kind: MachineKind::Limit,
        })),
    }
}
