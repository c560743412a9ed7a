//! Images that are read.
ghost use Rattle.std.specs.Prelude.{◌∷◌, []};
ghost use Rattle.base_io.specs.Told.{holds};
ghost use Rattle.cmd_steps.specs.Vocabulary.{SinkState, RigState, Outside, outside, Took};
ghost use Rattle.cmd_steps.specs.Texts.{reads_image};

use crate::refusal::{Refusal, Stop};
use base_io::{Store, read_within};
use base_text::MOST_BYTES;
use machine_image::{Image, ImageFault, ImageKind, read_image};
use machine_shape::Shape;
use std::alloc::Global;

// The image of these bytes.
fn image_of_text(alloc: Global, shape: &Shape, text: &[u8]) -> Result<Image, Stop>
    // Whatever is outside.
    ensures { (o : Outside) → Took [] (reads_image (holds text.now) shape.now) result o o }
{
    match read_image(alloc, shape, text) {
        Ok(image) => Ok(image),
        Err(ImageFault::At { line, kind }) => Err(Stop::Refused(Refusal::Image { line, kind })),
        Err(ImageFault::Memory) => Err(Stop::Refused(Refusal::Memory)),
    }
}

/// Reads an image of a machine: its file up to one byte more than it may have.
///
/// # Errors
///
/// The store's, where it can't start or read the file; kind `Limit` at byte 0, where the file is too long; else the first
/// fault of its bytes as an image of this machine; or out of memory.
pub fn read_image_file<S: Store>(
    alloc: Global,
    shape: &Shape,
    name: &str,
    store: &mut S,
) -> Result<Image, Stop>
    // Whatever the rig and the sink are.
    ensures took { (rig : RigState) (sink : SinkState) →
        Took (name.now ∷ []) (reads_image ((S.store_state store.old).contents name.now) shape.now) result
        (outside (S.store_state store.old) rig sink) (outside (S.store_state store.new) rig sink) }
{
    match read_within(alloc, store, name, MOST_BYTES)? {
        Some(text) => image_of_text(alloc, shape, &text),
        None => Err(Stop::Refused(Refusal::Image {
            line: 0,
            kind: ImageKind::Limit,
        })),
    }
}
