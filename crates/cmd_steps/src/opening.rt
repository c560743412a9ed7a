//! Files of vectors that are started.
ghost use Rattle.std.specs.Prelude.{◌≡◌, ◌∷◌, [], None, Some, OnOk};
ghost use Rattle.cmd_steps.specs.Vocabulary.{SinkState, RigState, outside, Took};
ghost use Rattle.cmd_steps.specs.Texts.{opens};

use crate::refusal::Stop;
use base_io::Store;

/// Starts a file of vectors, and reads none.
///
/// # Errors
///
/// The store's, where it can't start the file: then no file is current, and its count rose; or out of memory.
pub fn open_vectors<S: Store>(store: &mut S, name: &str) -> Result<(), Stop>
    // Whatever the rig and the sink are.
    ensures took { (rig : RigState) (sink : SinkState) →
        Took (name.now ∷ []) (opens ((S.store_state store.old).contents name.now)) result
        (outside (S.store_state store.old) rig sink) (outside (S.store_state store.new) rig sink) }
    ensures begun { OnOk result ((S.store_state store.new).current ≡ Some (record { name = name.now; at = 0 })) }
    ensures unread { OnOk result ((S.store_state store.new).read_at ≡ None) }
{
    store.start(name)?;
    Ok(())
}
