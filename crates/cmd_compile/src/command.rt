//! The command that makes an image of a design for a machine with defects.
ghost use Rattle.std.specs.Prelude.{◌≡◌, List, [], ◌∷◌};
ghost use Rattle.cmd_steps.specs.Vocabulary.{StoreState, RigState, outside, ReadFile, StandsAmong, Does, IsLawful, Follows};
ghost use Rattle.cmd_compile.specs.Compile.{compile_job, design_laid, design_read};

use base_io::{Sink, Store};
use cmd_steps::{DesignFile, Stop, read_design, read_list, read_shape, write};
use design_netlist::Netlist;
use machine_defects::Defects;
use machine_image::write_image;
use place_design::lay;
use place_plan::in_order_plans_are_decided;
use std::alloc::Global;

// Lays a design on what a list leaves free, and writes the bytes of its image.
fn lay_and_write<K: Sink>(
    alloc: Global,
    netlist: &Netlist,
    list: &Defects,
    sink: &mut K,
) -> Result<(), Stop>
    // Wherever the store stands after these files were read, and whatever the rig is.
    ensures { (files : List ReadFile) (begun store : StoreState) (rig : RigState) → StandsAmong files begun store →
        Follows ⊥ [] (Unit {0}) (design_laid files begun store list.now netlist.now) result
        (outside store rig (K.sink_state sink.old)) (outside store rig (K.sink_state sink.new)) }
{
    let image = lay(alloc, netlist, list)?;
    let bytes = write_image(alloc, &image)?;
    write(sink, &bytes)
}

// Reads a design, lays it on what a list leaves free, and writes the bytes of its image.
fn read_and_lay<S: Store, K: Sink>(
    alloc: Global,
    list: &Defects,
    design: &str,
    store: &mut S,
    sink: &mut K,
) -> Result<(), Stop>
    // Whatever the rig is, and whatever files were read before.
    ensures { (begun : StoreState) (files : List ReadFile) (rig : RigState) →
        let old = outside (S.store_state store.old) rig (K.sink_state sink.old) in
        let new = outside (S.store_state store.new) rig (K.sink_state sink.new) in
        old.store.contents ≡ begun.contents → StandsAmong files begun old.store →
        Follows ⊥ (design.now ∷ []) (Unit {0}) (design_read design.now files begun new.store list.now) result old new }
{
    let netlist = read_design(alloc, DesignFile::Design, store, design)?;
    lay_and_write(alloc, &netlist, list, sink)
}

/// Reads a machine, a list of its defects and a design, and writes the bytes of an image of the design that touches
/// only what the list leaves free.
///
/// # Errors
///
/// The first step that refuses, in this order: the machine is read, the list, the design; there is room for it, on a
/// small machine by the in-order plan of its plain network; and the bytes are written.
pub fn compile<S: Store, K: Sink>(
    alloc: Global,
    machine: &str,
    defects: &str,
    design: &str,
    store: &mut S,
    sink: &mut K,
) -> Result<(), Stop>
    ensures lawful { IsLawful (compile_job machine.now defects.now design.now) }
    // The rig isn't touched.
    ensures does { (rig : RigState) → Does ⊥ (compile_job machine.now defects.now design.now) result
        (outside (S.store_state store.old) rig (K.sink_state sink.old)) (outside (S.store_state store.new) rig (K.sink_state sink.new)) }
{
    in_order_plans_are_decided();
    let shape = read_shape(alloc, store, machine)?;
    let list = read_list(alloc, &shape, defects, store)?;
    read_and_lay(alloc, &list, design, store, sink)
}
