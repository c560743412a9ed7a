//! Machines that are attached.
ghost use Rattle.std.specs.Prelude.{◌≡◌, ◌≤◌, [], OnOk, OnErr, IfErr};
ghost use Rattle.rig.specs.Rig.{Asked, Attaches, AttachFails, IsDetached, cycles_made};
ghost use Rattle.cmd_steps.specs.Vocabulary.{StoreState, SinkState, outside, Took};
ghost use Rattle.cmd_steps.specs.Texts.{attaches, MayAsk};

use crate::refusal::Stop;
use machine_shape::Shape;
use rig::{AttachFail, Rig};

// Attaches a machine, as the trait says, with clauses that bear names.
fn attach_boxed(rig: &mut Box<dyn Rig>, shape: &Shape, name: &str) -> Result<(), AttachFail>
    ensures texts { (rig_state rig.new).machine.texts ≡ (rig_state rig.old).machine.texts }
    ensures later { (rig_state rig.old).failures ≤ (rig_state rig.new).failures }
    ensures loads { (rig_state rig.new).loads ≡ (rig_state rig.old).loads }
    ensures attached { OnOk result (Attaches (record { shape = shape.now; name = name.now }) (rig_state rig.old) (rig_state rig.new)) }
    ensures detached { OnErr result (IsDetached (rig_state rig.new)) }
    ensures refused { let machine : Asked = record { shape = shape.now; name = name.now } in
        IfErr result (λ e. AttachFails e machine (rig_state rig.old) (rig_state rig.new)) }
{
    rig.attach(shape, name)
}

/// Attaches a machine under a name, and its log is empty. After a refusal nothing is attached, and the log is empty too.
///
/// # Errors
///
/// The rig's: its first fault of the text of faults, with line and kind, a failure that it counted, or out of memory.
// The condition always holds. A function of another crate that takes a rig and has none counts as one that may put a
// rig of its own in its place.
pub fn attach(rig: &mut Box<dyn Rig>, shape: &Shape, name: &str) -> Result<(), Stop>
    requires always { name.now ≡ name.now }

    ensures loads { (rig_state rig.new).loads ≡ (rig_state rig.old).loads }
    ensures unused { cycles_made (rig_state rig.new) ≡ 0 }
    ensures asked { let machine : Asked = record { shape = shape.now; name = name.now } in
        MayAsk machine (rig_state rig.old).machine.asked (rig_state rig.new).machine.asked }
    // Whatever the store and the sink are.
    ensures took { let machine : Asked = record { shape = shape.now; name = name.now } in
        (store : StoreState) (sink : SinkState) → Took [] (attaches machine (rig_state rig.old) (rig_state rig.new)) result
        (outside store (rig_state rig.old) sink) (outside store (rig_state rig.new) sink) }
{
    attach_boxed(rig, shape, name)?;
    Ok(())
}
