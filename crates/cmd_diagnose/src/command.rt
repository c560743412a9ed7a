//! The command that lists the defects of a machine of the rig.
ghost use Rattle.std.specs.Prelude.{◌≡◌};
ghost use Rattle.cmd_steps.specs.Vocabulary.{outside, Does, IsLawful};
ghost use Rattle.cmd_diagnose.specs.Diagnose.{diagnose_job};

use base_io::{Sink, Store};
use cmd_steps::{Stop, attach, read_shape};
use diag_settled::write_settled;
use rig::Rig;
use std::alloc::Global;

// Reads a machine and attaches it, and writes the list of its defects.
fn work<S: Store, K: Sink>(
    alloc: Global,
    machine: &str,
    name: &str,
    store: &mut S,
    rig: &mut Box<dyn Rig>,
    sink: &mut K,
) -> Result<(), Stop>
    ensures does { let old = outside (S.store_state store.old) (rig_state rig.old) (K.sink_state sink.old) in
        let new = outside (S.store_state store.new) (rig_state rig.new) (K.sink_state sink.new) in
        Does ⊥ (diagnose_job machine.now name.now) result old new }
{
    let shape = read_shape(alloc, store, machine)?;
    attach(rig, &shape, name)?;
    write_settled(alloc, &shape, rig, sink)?;
    Ok(())
}

/// Reads a machine and attaches it under a name, and writes the list of its defects.
///
/// # Errors
///
/// The first step that refuses, in this order: the machine is read and attached, its defects are listed, and the list is
/// written.
// The condition always holds: see `attach` of `cmd_steps`.
pub fn diagnose<S: Store, K: Sink>(
    alloc: Global,
    machine: &str,
    name: &str,
    store: &mut S,
    rig: &mut Box<dyn Rig>,
    sink: &mut K,
) -> Result<(), Stop>
    requires always { name.now ≡ name.now }

    ensures lawful { IsLawful (diagnose_job machine.now name.now) }
    ensures does { let old = outside (S.store_state store.old) (rig_state rig.old) (K.sink_state sink.old) in
        let new = outside (S.store_state store.new) (rig_state rig.new) (K.sink_state sink.new) in
        Does ⊥ (diagnose_job machine.now name.now) result old new }
{
    work(alloc, machine, name, store, rig, sink)
}
