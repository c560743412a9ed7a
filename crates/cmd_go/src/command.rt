//! The command that runs a design on a machine of the rig.
ghost use Rattle.std.specs.Prelude.{◌≡◌, OnOk};
ghost use Rattle.cmd_steps.specs.Vocabulary.{outside, Does, IsLawful};
ghost use Rattle.run_image.specs.Headline.{BeginsWithList};
ghost use Rattle.cmd_go.specs.Go.{go_job};
ghost use Rattle.cmd_go.specs.Headline.{IsWellGone, HasRoomLeft};

use crate::design::OneDesign;
use base_io::{Sink, Store};
use cmd_steps::{DesignFile, Stop, attach, read_design, read_shape};
use map_network::laws::plain_networks_have_the_rows;
use place_plan::{in_order_plans_are_decided, standing_parts_are_room};
use rig::Rig;
use run_image::list_and_run;
use std::alloc::Global;

// The words that the command is given.
#[derive(Clone, Copy)]
struct Words<'a> {
    machine: &'a str,
    name: &'a str,
    design: &'a str,
    vectors: &'a str,
}

// Reads a machine and attaches it, reads a design, writes the list of the machine's defects, and runs the design on what
// the list leaves free.
fn work<S: Store, K: Sink>(
    alloc: Global,
    words: &Words<'_>,
    store: &mut S,
    rig: &mut Box<dyn Rig>,
    sink: &mut K,
) -> Result<(), Stop>
    ensures does { let old = outside (S.store_state store.old) (rig_state rig.old) (K.sink_state sink.old) in
        let new = outside (S.store_state store.new) (rig_state rig.new) (K.sink_state sink.new) in
        Does ⊥ (go_job words.now.machine.now words.now.name.now words.now.design.now words.now.vectors.now) result old new }
{
    let shape = read_shape(alloc, store, words.machine)?;
    attach(rig, &shape, words.name)?;
    let netlist = read_design(alloc, DesignFile::Design, store, words.design)?;
    let design = OneDesign(netlist);
    list_and_run(alloc, &shape, &design, words.vectors, store, rig, sink)
}

/// Reads a machine and attaches it under a name, reads a design, and writes the list of the machine's defects. Then the
/// design is laid on what the list leaves free and loaded, and the line `outputs` is written and, for each vector, what the
/// machine read at the output pins.
///
/// # Errors
///
/// The first step that refuses, in this order: the machine is read and attached, the design is read, the defects are listed
/// and the list is written; there is room for the design, on a small machine by the in-order plan of its plain network; its image
/// is loaded, the file of vectors is started, the line is written, and then each vector is read and driven and its row written.
// The condition always holds: see `attach` of `cmd_steps`.
pub fn go<S: Store, K: Sink>(
    alloc: Global,
    machine: &str,
    name: &str,
    design: &str,
    vectors: &str,
    store: &mut S,
    rig: &mut Box<dyn Rig>,
    sink: &mut K,
) -> Result<(), Stop>
    requires always { name.now ≡ name.now }

    ensures lawful { IsLawful (go_job machine.now name.now design.now vectors.now) }
    ensures does { let old = outside (S.store_state store.old) (rig_state rig.old) (K.sink_state sink.old) in
        let new = outside (S.store_state store.new) (rig_state rig.new) (K.sink_state sink.new) in
        Does ⊥ (go_job machine.now name.now design.now vectors.now) result old new }
    // The list that stands written covers the machine's faults and is tight to them, whatever the end.
    ensures listed { let old = outside (S.store_state store.old) (rig_state rig.old) (K.sink_state sink.old) in
        let new = outside (S.store_state store.new) (rig_state rig.new) (K.sink_state sink.new) in
        BeginsWithList machine.now name.now old new }
    ensures gone { let old = outside (S.store_state store.old) (rig_state rig.old) (K.sink_state sink.old) in
        let new = outside (S.store_state store.new) (rig_state rig.new) (K.sink_state sink.new) in
        OnOk result (IsWellGone machine.now name.now design.now vectors.now old new) }
    ensures room { let old = outside (S.store_state store.old) (rig_state rig.old) (K.sink_state sink.old) in
        let new = outside (S.store_state store.new) (rig_state rig.new) (K.sink_state sink.new) in
        OnOk result (HasRoomLeft machine.now design.now old new) }
{
    in_order_plans_are_decided();
    standing_parts_are_room();
    plain_networks_have_the_rows();
    machine_shape::names_are_one_to_one();
    machine_shape::the_crosspoints_are_sound();
    machine_shape::the_numbering_is_sound();
    let words = Words {
        machine,
        name,
        design,
        vectors,
    };
    work(alloc, &words, store, rig, sink)
}
