//! The command that repairs an image for a machine with defects.
ghost use Rattle.std.specs.Prelude.{◌≡◌, List, [], ◌∷◌};
ghost use Rattle.cmd_steps.specs.Vocabulary.{StoreState, RigState, outside, ReadFile, StandsAmong, Does, IsLawful, Follows};
ghost use Rattle.cmd_repair.specs.Repair.{repair_job, file_taken, image_taken};

use crate::repairing::{repaired, take_few};
use base_io::{Sink, Store};
use cmd_steps::{Stop, read_image_file, read_list, read_shape, write};
use machine_defects::Defects;
use machine_image::{Image, write_image};
use machine_shape::Shape;
use place_repair::repair_plans_are_decided;
use std::alloc::Global;

// Repairs an image on what a list leaves free, and writes the bytes of the new one.
fn repair_and_write<K: Sink>(
    alloc: Global,
    image: &Image,
    list: &Defects,
    sink: &mut K,
) -> Result<(), Stop>
    requires { list.now.shape ≡ image.now.config.shape }

    // Wherever the store stands after these files were read, and whatever the rig is.
    ensures { (files : List ReadFile) (begun store : StoreState) (rig : RigState) → StandsAmong files begun store →
        Follows ⊥ [] (Unit {0}) (image_taken files begun store list.now image.now) result
        (outside store rig (K.sink_state sink.old)) (outside store rig (K.sink_state sink.new)) }
{
    take_few(image)?;
    let made = repaired(alloc, image, list)?;
    let bytes = write_image(alloc, &made)?;
    write(sink, &bytes)
}

// Reads an image, repairs it on what a list leaves free, and writes the bytes of the new one.
fn read_and_repair<S: Store, K: Sink>(
    alloc: Global,
    shape: &Shape,
    list: &Defects,
    image: &str,
    store: &mut S,
    sink: &mut K,
) -> Result<(), Stop>
    requires { list.now.shape ≡ shape.now }

    // Whatever the rig is, and whatever files were read before.
    ensures { (begun : StoreState) (files : List ReadFile) (rig : RigState) →
        let old = outside (S.store_state store.old) rig (K.sink_state sink.old) in
        let new = outside (S.store_state store.new) rig (K.sink_state sink.new) in
        old.store.contents ≡ begun.contents → StandsAmong files begun old.store →
        Follows ⊥ (image.now ∷ []) (Unit {0}) (file_taken image.now files begun new.store shape.now list.now) result old new }
{
    let image = read_image_file(alloc, shape, image, store)?;
    repair_and_write(alloc, &image, list, sink)
}

/// Reads a machine, a list of its defects and an image, and writes the bytes of a new image that touches only what the list
/// leaves free, and reads what the old one reads on a machine without faults.
///
/// # Errors
///
/// The first step that refuses, in this order: the machine is read, the list, the image; it has few enough closed
/// crosspoints, which are 1,000,000, and of a machine that isn't small 1,048,576; there is room for its repair; and the bytes are written.
pub fn repair<S: Store, K: Sink>(
    alloc: Global,
    machine: &str,
    defects: &str,
    image: &str,
    store: &mut S,
    sink: &mut K,
) -> Result<(), Stop>
    ensures lawful { IsLawful (repair_job machine.now defects.now image.now) }
    // The rig isn't touched.
    ensures does { (rig : RigState) → Does ⊥ (repair_job machine.now defects.now image.now) result
        (outside (S.store_state store.old) rig (K.sink_state sink.old)) (outside (S.store_state store.new) rig (K.sink_state sink.new)) }
{
    repair_plans_are_decided();
    let shape = read_shape(alloc, store, machine)?;
    let list = read_list(alloc, &shape, defects, store)?;
    read_and_repair(alloc, &shape, &list, image, store, sink)
}
