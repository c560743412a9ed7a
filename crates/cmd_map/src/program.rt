//! The call of the mapper.
ghost use Rattle.std.specs.Prelude.{map, string_bytes};
ghost use Rattle.cmd_steps.specs.Vocabulary.{RigState, outside, Ended, HasNoJob, DoesAsked, job_of};
ghost use Rattle.cmd_map.specs.Words.{asked_by};
ghost use Rattle.cmd_map.specs.Promises.{IsStatus, MapPromises};

use crate::mapping::{fit_design, map_design};
use base_io::{Sink, Store};
use cmd_steps::{Refusal, Stop, end_of, some_begins_dashed, word};
use std::alloc::Global;

// Does what the words ask for.
fn work<S: Store, K: Sink>(
    alloc: Global,
    words: &[String],
    store: &mut S,
    sink: &mut K,
) -> Result<(), Stop>
    // Whatever a rig would be.
    ensures { (rig : RigState) →
        let old = outside (S.store_state store.old) rig (K.sink_state sink.old) in
        let new = outside (S.store_state store.new) rig (K.sink_state sink.new) in
        DoesAsked (asked_by (map string_bytes words.now)) result old new }
{
    if some_begins_dashed(words) {
        return Err(Stop::Refused(Refusal::Words));
    }
    let first = word(words, 0);
    let second = word(words, 1);
    let third = word(words, 2);
    if words.len() == 1 {
        return map_design(alloc, first, store, sink);
    }
    if words.len() == 3 {
        return fit_design(alloc, first, second, third, store, sink);
    }
    Err(Stop::Refused(Refusal::Words))
}

// The same, to the status.
fn end<S: Store, K: Sink>(alloc: Global, words: &[String], store: &mut S, sink: &mut K) -> u8
    // Whatever a rig would be.
    ensures { (rig : RigState) →
        let asked = asked_by (map string_bytes words.now) in
        let old = outside (S.store_state store.old) rig (K.sink_state sink.old) in
        let new = outside (S.store_state store.new) rig (K.sink_state sink.new) in
        Ended (HasNoJob asked) (job_of asked) old new result }
{
    let done = work(alloc, words, store, sink);
    end_of(&done, sink)
}

/// Reads the design that the words of the command line after the program's name name, and writes a text of it with the same rows and
/// no more tables; where a machine and a list of its defects stand before it, one for which there is room there. Answers the status:
///
/// - 0: all is done;
/// - 1: a text isn't in its grammar, or is beyond its limit;
/// - 2: the words aren't right;
/// - 3: there is no room for the design as given, and none for what was tried;
/// - 5: the store or the sink failed;
/// - 6: memory was lacking.
///
/// The first step that refuses ends the program, and the line that says why is all that is written, unless the sink failed.
pub fn teramac_map<S: Store, K: Sink>(
    alloc: Global,
    words: &[String],
    store: &mut S,
    sink: &mut K,
) -> u8
    ensures statuses { IsStatus result }
    // What was asked, what was written, what stays, the cause of the status, and what is done at status 0. There is no rig:
    // whatever one would be.
    ensures promises { (rig : RigState) →
        let old = outside (S.store_state store.old) rig (K.sink_state sink.old) in
        let new = outside (S.store_state store.new) rig (K.sink_state sink.new) in
        MapPromises (map string_bytes words.now) result old new }
{
    end(alloc, words, store, sink)
}
