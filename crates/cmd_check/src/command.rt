//! The command that tells whether an image still runs on a machine of the rig.
ghost use Rattle.std.specs.Prelude.{◌≡◌, ℕ, List, [], Some};
ghost use Rattle.cmd_steps.specs.Vocabulary.{StoreState, RigState, shape_of, outside, StandsIn, Does, IsLawful, Follows};
ghost use Rattle.cmd_check.specs.Check.{check_job, image_looked_at, image_tested};

use crate::answer::line_of;
use crate::answering::answer_of;
use crate::testing::test_settled;
use base_io::{Sink, Store};
use cmd_steps::{Stop, attach, read_image_file, read_shape, write};
use diag_settled::list_settled;
use machine_defects::Defects;
use machine_image::Image;
use machine_shape::Shape;
use rig::Rig;
use std::alloc::Global;

// Looks what a list says of an image, and writes it.
fn look_and_write<K: Sink>(
    alloc: Global,
    image: &Image,
    list: &Defects,
    sink: &mut K,
) -> Result<(), Stop>
    requires { list.now.shape ≡ image.now.config.shape }

    // Wherever the store stands after these files were read, and whatever the rig is.
    ensures { (files : List (List ℕ)) (begun store : StoreState) (rig : RigState) → StandsIn files begun store →
        Follows ⊥ [] (rig.machine ≡ rig.machine)
        (image_looked_at files begun store rig image.now (record { list = list.now; loads = rig.loads })) result
        (outside store rig (K.sink_state sink.old)) (outside store rig (K.sink_state sink.new)) }
{
    let answer = answer_of(alloc, image, list)?;
    let text = line_of(alloc, &list.shape(), answer)?;
    write(sink, &text)
}

// Tests an image, and looks at a list of the machine's defects where the test didn't find it sound. Writes what that comes to.
fn judge<K: Sink>(
    alloc: Global,
    shape: &Shape,
    image: &Image,
    rig: &mut Box<dyn Rig>,
    sink: &mut K,
) -> Result<(), Stop>
    requires attached { shape_of (rig_state rig.old) ≡ Some shape.now }
    requires image { image.now.config.shape ≡ shape.now }

    // Wherever the store stands after these files were read.
    ensures { (files : List (List ℕ)) (begun store : StoreState) → StandsIn files begun store →
        Follows ⊥ [] ((rig_state rig.new).machine ≡ (rig_state rig.old).machine)
        (image_tested files begun store (rig_state rig.new) (rig_state rig.old).loads image.now) result
        (outside store (rig_state rig.old) (K.sink_state sink.old)) (outside store (rig_state rig.new) (K.sink_state sink.new)) }
{
    let sound = test_settled(alloc, shape, image, rig)?;
    if sound {
        return write(sink, b"sound\n");
    }
    let list = list_settled(alloc, shape, rig)?;
    look_and_write(alloc, image, &list, sink)
}

/// Reads a machine, attaches it under a name, reads an image, and writes whether it still runs on the machine: `sound`, or the first
/// part of it that is in doubt.
///
/// # Errors
///
/// The first step that refuses, in this order: the machine is read and attached, the image is read and tested, the machine's defects are
/// listed where the test didn't find it sound, and the line is written.
// The condition always holds: see `attach` of `cmd_steps`.
pub fn check<S: Store, K: Sink>(
    alloc: Global,
    machine: &str,
    name: &str,
    image: &str,
    store: &mut S,
    rig: &mut Box<dyn Rig>,
    sink: &mut K,
) -> Result<(), Stop>
    requires always { name.now ≡ name.now }

    ensures lawful { IsLawful (check_job machine.now name.now image.now) }
    ensures does { let old = outside (S.store_state store.old) (rig_state rig.old) (K.sink_state sink.old) in
        let new = outside (S.store_state store.new) (rig_state rig.new) (K.sink_state sink.new) in
        Does ⊥ (check_job machine.now name.now image.now) result old new }
{
    let shape = read_shape(alloc, store, machine)?;
    attach(rig, &shape, name)?;
    let image = read_image_file(alloc, &shape, image, store)?;
    judge(alloc, &shape, &image, rig, sink)
}
