//! Designs that are remapped and written.
ghost use Rattle.std.specs.Prelude.{◌≡◌, List, [], ◌∷◌};
ghost use Rattle.cmd_steps.specs.Vocabulary.{StoreState, RigState, Outside, outside, ReadFile, StandsAmong, Does, IsLawful, Follows, Took, IsDesignText};
ghost use Rattle.cmd_map.specs.Maps.{maps, maps_within, design_mapped, design_fitted, text_fitted, map_job, fit_job};

use base_io::{Sink, Store};
use cmd_steps::{DesignFile, DesignText, Stop, read_list, read_shape, read_text, write};
use machine_defects::Defects;
use map_text::{Remapped, remapped, remapped_within};
use place_design::no_place;
use place_plan::in_order_plans_are_decided;
use std::alloc::Global;

// The text of a design that is written in its place.
fn mapped(alloc: Global, read: &DesignText) -> Result<Remapped, Stop>
    requires { IsDesignText read.now.text read.now.netlist }
    // Whatever is outside.
    ensures { (o : Outside) → Took [] (maps read.now) result o o }
{
    match remapped(alloc, read.text.as_slice(), &read.netlist) {
        Ok(text) => Ok(text),
        Err(fail) => Err(Stop::from(fail)),
    }
}

// The same, with room on a list.
fn fitted(alloc: Global, read: &DesignText, defects: &Defects) -> Result<Remapped, Stop>
    requires { IsDesignText read.now.text read.now.netlist }
    // Whatever is outside.
    ensures { (o : Outside) → Took [] (maps_within defects.now read.now) result o o }
{
    match remapped_within(alloc, read.text.as_slice(), &read.netlist, defects) {
        Ok(text) => Ok(text),
        Err(fail) => Err(no_place(alloc, defects.shape(), fail)),
    }
}

// Remaps a design, and writes the text.
fn map_and_write<K: Sink>(alloc: Global, read: &DesignText, sink: &mut K) -> Result<(), Stop>
    requires { IsDesignText read.now.text read.now.netlist }
    // Wherever the store stands after these files were read, and whatever the rig is.
    ensures { (files : List ReadFile) (begun store : StoreState) (rig : RigState) → StandsAmong files begun store →
        Follows ⊥ [] (Unit {0}) (design_mapped files begun store read.now) result
        (outside store rig (K.sink_state sink.old)) (outside store rig (K.sink_state sink.new)) }
{
    let text = mapped(alloc, read)?;
    write(sink, text.text.as_slice())
}

// Remaps a design with room on a list, and writes the text.
fn fit_and_write<K: Sink>(
    alloc: Global,
    read: &DesignText,
    defects: &Defects,
    sink: &mut K,
) -> Result<(), Stop>
    requires { IsDesignText read.now.text read.now.netlist }
    // Wherever the store stands after these files were read, and whatever the rig is.
    ensures { (files : List ReadFile) (begun store : StoreState) (rig : RigState) → StandsAmong files begun store →
        Follows ⊥ [] (Unit {0}) (design_fitted files begun store defects.now read.now) result
        (outside store rig (K.sink_state sink.old)) (outside store rig (K.sink_state sink.new)) }
{
    let text = fitted(alloc, read, defects)?;
    write(sink, text.text.as_slice())
}

// Reads a design, remaps it with room on a list, and writes the text.
fn read_and_fit<S: Store, K: Sink>(
    alloc: Global,
    defects: &Defects,
    design: &str,
    store: &mut S,
    sink: &mut K,
) -> Result<(), Stop>
    // Whatever the rig is, and whatever files were read before.
    ensures { (begun : StoreState) (files : List ReadFile) (rig : RigState) →
        let old = outside (S.store_state store.old) rig (K.sink_state sink.old) in
        let new = outside (S.store_state store.new) rig (K.sink_state sink.new) in
        old.store.contents ≡ begun.contents → StandsAmong files begun old.store →
        Follows ⊥ (design.now ∷ []) (Unit {0}) (text_fitted design.now files begun new.store defects.now) result old new }
{
    let read = read_text(alloc, DesignFile::Design, store, design)?;
    fit_and_write(alloc, &read, defects, sink)
}

/// Reads a design, and writes a text with the same rows and no more tables.
///
/// # Errors
///
/// The first step that refuses: the design is read, it is remapped, the text is written.
pub fn map_design<S: Store, K: Sink>(
    alloc: Global,
    design: &str,
    store: &mut S,
    sink: &mut K,
) -> Result<(), Stop>
    ensures lawful { IsLawful (map_job design.now) }
    // There is no rig: whatever one would be.
    ensures does { (rig : RigState) → Does ⊥ (map_job design.now) result
        (outside (S.store_state store.old) rig (K.sink_state sink.old)) (outside (S.store_state store.new) rig (K.sink_state sink.new)) }
{
    let read = read_text(alloc, DesignFile::Design, store, design)?;
    map_and_write(alloc, &read, sink)
}

/// Reads a machine, a list of its defects and a design, and writes a text with the same rows and no more tables for which there is
/// room on the list.
///
/// # Errors
///
/// The first step that refuses: the machine is read, the list, the design; this is remapped, and there is room for what it becomes;
/// the text is written. Room is wanting only where it is for the design as given.
pub fn fit_design<S: Store, K: Sink>(
    alloc: Global,
    machine: &str,
    defects: &str,
    design: &str,
    store: &mut S,
    sink: &mut K,
) -> Result<(), Stop>
    ensures lawful { IsLawful (fit_job machine.now defects.now design.now) }
    // There is no rig: whatever one would be.
    ensures does { (rig : RigState) → Does ⊥ (fit_job machine.now defects.now design.now) result
        (outside (S.store_state store.old) rig (K.sink_state sink.old)) (outside (S.store_state store.new) rig (K.sink_state sink.new)) }
{
    in_order_plans_are_decided();
    let shape = read_shape(alloc, store, machine)?;
    let list = read_list(alloc, &shape, defects, store)?;
    read_and_fit(alloc, &list, design, store, sink)
}
