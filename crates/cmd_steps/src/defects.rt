//! Lists of defects that are read.
ghost use Rattle.std.specs.Prelude.{◌∷◌, []};
ghost use Rattle.base_io.specs.Told.{holds};
ghost use Rattle.cmd_steps.specs.Vocabulary.{SinkState, RigState, Outside, outside, list_file, Took, TookAmong};
ghost use Rattle.cmd_steps.specs.Texts.{reads_defects};

use crate::refusal::{Refusal, Stop};
use base_io::{Store, read_within};
use machine_defects::{Defects, DefectsFault, DefectsKind, read_defects};
use machine_shape::Shape;
use std::alloc::Global;

// The list of a text.
fn list_of_text(alloc: Global, shape: &Shape, text: &[u8]) -> Result<Defects, Stop>
    // Whatever is outside.
    ensures { (o : Outside) → Took [] (reads_defects (holds text.now) shape.now) result o o }
{
    match read_defects(alloc, shape, text) {
        Ok(list) => Ok(list),
        Err(DefectsFault::At { line, kind }) => {
            Err(Stop::Refused(Refusal::Defects { line, kind }))
        }
        Err(DefectsFault::Memory) => Err(Stop::Refused(Refusal::Memory)),
    }
}

/// Reads the list of defects of a machine: its file up to one byte more than it may have.
///
/// # Errors
///
/// The store's, where it can't start or read the file; kind `Limit` at line 0, where the file is too long; else the first
/// fault of its text as a list of this machine; or out of memory.
pub fn read_list<S: Store>(
    alloc: Global,
    shape: &Shape,
    name: &str,
    store: &mut S,
) -> Result<Defects, Stop>
    // Whatever the rig and the sink are.
    ensures took { (rig : RigState) (sink : SinkState) →
        TookAmong (name.now ∷ []) (list_file shape.now name.now ∷ []) (reads_defects ((S.store_state store.old).contents name.now) shape.now) result
        (outside (S.store_state store.old) rig sink) (outside (S.store_state store.new) rig sink) }
{
    match read_within(alloc, store, name, shape.most_text() as usize)? {
        Some(text) => list_of_text(alloc, shape, &text),
        None => Err(Stop::Refused(Refusal::Defects {
            line: 0,
            kind: DefectsKind::Limit,
        })),
    }
}
