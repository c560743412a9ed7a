//! Lists of defects that are made and written.
ghost use Rattle.std.specs.Prelude.{◌≡◌, [], ◌∷◌, Some};
ghost use Rattle.cmd_steps.specs.Vocabulary.{StoreState, SinkState, shape_of, outside, Took, AsksMachine, reads_machine};
ghost use Rattle.diag_evidence.specs.Kept.{TakesFewCycles};
ghost use Rattle.diag_list.specs.Possible.{TakesFewLoadsOn, MakesFewCycles};
ghost use Rattle.diag_list.specs.Lists.{lists_machine, lists_now, WritesList};

use base_io::{Sink, Store};
use cmd_steps::{Stop, attach, read_shape, write};
use diag_machine::diagnose;
use machine_defects::{Defects, defects_text};
use machine_shape::Shape;
use rig::Rig;
use std::alloc::Global;

/// Lists the defects of the machine that is attached. Whatever it answers, it took few loads, and few cycles for each.
///
/// # Errors
///
/// The rig's fault, or out of memory.
pub fn list_of(alloc: Global, shape: &Shape, rig: &mut Box<dyn Rig>) -> Result<Defects, Stop>
    requires { shape_of (rig_state rig.old) ≡ Some shape.now }

    ensures machine { (rig_state rig.new).machine ≡ (rig_state rig.old).machine }
    ensures loads { TakesFewLoadsOn (rig_state rig.new) shape.now (rig_state rig.old).loads (rig_state rig.new).loads }
    ensures cycles { TakesFewCycles (rig_state rig.old) (rig_state rig.new) }
    // Whatever the store and the sink are.
    ensures took { (store : StoreState) (sink : SinkState) → Took [] (lists_now shape.now (rig_state rig.old) (rig_state rig.new)) result
        (outside store (rig_state rig.old) sink) (outside store (rig_state rig.new) sink) }
{
    match diagnose(alloc, rig, shape) {
        Ok(list) => {
            // Its contract says that the value is a list of defects.
            list.shape();
            Ok(list)
        }
        Err(fail) => Err(Stop::from(fail)),
    }
}

/// Reads a machine, attaches it under a name, and lists its defects. Wherever it ends, it took few loads, and none before the list;
/// and few cycles for each.
///
/// # Errors
///
/// The first step that refuses: the machine is read and attached, and its defects are listed.
// The condition always holds: see `attach` of `cmd_steps`.
pub fn list_machine<S: Store>(
    alloc: Global,
    machine: &str,
    name: &str,
    store: &mut S,
    rig: &mut Box<dyn Rig>,
) -> Result<Defects, Stop>
    requires always { name.now ≡ name.now }

    ensures asked { AsksMachine (reads_machine ((S.store_state store.old).contents machine.now)).gives name.now
        (rig_state rig.old).machine.asked (rig_state rig.new).machine.asked }
    ensures cycles { MakesFewCycles (rig_state rig.old) (rig_state rig.new) }
    // Whatever the sink is.
    ensures took { let text = (S.store_state store.old).contents machine.now in
        (sink : SinkState) → Took (machine.now ∷ []) (lists_machine name.now text (rig_state rig.old) (rig_state rig.new)) result
        (outside (S.store_state store.old) (rig_state rig.old) sink) (outside (S.store_state store.new) (rig_state rig.new) sink) }
{
    let shape = read_shape(alloc, store, machine)?;
    attach(rig, &shape, name)?;
    list_of(alloc, &shape, rig)
}

/// Lists the defects of the machine that is attached, and writes the list. Wherever it ends, it took few cycles for each load.
///
/// # Errors
///
/// The rig's fault, lack of memory, or the sink's fault.
pub fn write_list<K: Sink>(
    alloc: Global,
    shape: &Shape,
    rig: &mut Box<dyn Rig>,
    sink: &mut K,
) -> Result<Defects, Stop>
    requires { shape_of (rig_state rig.old) ≡ Some shape.now }

    ensures machine { (rig_state rig.new).machine ≡ (rig_state rig.old).machine }
    ensures cycles { TakesFewCycles (rig_state rig.old) (rig_state rig.new) }
    // Whatever the store is.
    ensures written { (store : StoreState) → WritesList shape.now result
        (outside store (rig_state rig.old) (K.sink_state sink.old)) (outside store (rig_state rig.new) (K.sink_state sink.new)) }
{
    let list = list_of(alloc, shape, rig)?;
    let text = defects_text(alloc, &list)?;
    write(sink, &text)?;
    Ok(list)
}
