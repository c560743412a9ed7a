//! The steps that commands share.
ghost use Rattle.cmd_steps.specs.Took.{Puts};

use crate::refusal::Stop;
use base_io::Sink;

/// Writes these bytes.
///
/// # Errors
///
/// The sink's: a failure that it counted, where a front of the bytes may stand written, or its lack of memory, where none do.
pub fn write<K: Sink>(sink: &mut K, bytes: &[u8]) -> Result<(), Stop>
    ensures puts { Puts bytes.now result (K.sink_state sink.old) (K.sink_state sink.new) }
{
    sink.put(bytes)?;
    Ok(())
}
