//! The command that runs an image on a machine of the rig.
ghost use Rattle.std.specs.Prelude.{◌≡◌};
ghost use Rattle.cmd_steps.specs.Vocabulary.{outside, Does, IsLawful};
ghost use Rattle.cmd_run.specs.Run.{run_job};

use base_io::{Sink, Store};
use cmd_steps::{Stop, attach, read_image_file, read_shape};
use rig::Rig;
use run_image::run_image;
use std::alloc::Global;

/// Reads a machine, attaches it under a name, reads an image and loads it, and writes the line `outputs` and, for
/// each vector, what the image's output pins read.
///
/// # Errors
///
/// The first step that refuses, in this order: the machine is read and attached, the image is read and loaded, the
/// file of vectors is started, the line is written, and then each vector is read and driven and its row written.
// The condition always holds: see `attach` of `cmd_steps`.
pub fn run<S: Store, K: Sink>(
    alloc: Global,
    machine: &str,
    name: &str,
    image: &str,
    vectors: &str,
    store: &mut S,
    rig: &mut Box<dyn Rig>,
    sink: &mut K,
) -> Result<(), Stop>
    requires always { name.now ≡ name.now }

    ensures lawful { IsLawful (run_job machine.now name.now image.now vectors.now) }
    ensures does { let old = outside (S.store_state store.old) (rig_state rig.old) (K.sink_state sink.old) in
        let new = outside (S.store_state store.new) (rig_state rig.new) (K.sink_state sink.new) in
        Does ⊥ (run_job machine.now name.now image.now vectors.now) result old new }
{
    let shape = read_shape(alloc, store, machine)?;
    attach(rig, &shape, name)?;
    let image = read_image_file(alloc, &shape, image, store)?;
    run_image(alloc, image, vectors, store, rig, sink)
}
