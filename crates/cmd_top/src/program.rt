//! The top call.
ghost use Rattle.std.specs.Prelude.{◌≤◌, map, string_bytes};
ghost use Rattle.cmd_steps.specs.Vocabulary.{StoreState, outside, Ended, HasNoJob, DoesAsked, job_of};
ghost use Rattle.cmd_top.specs.Words.{of_number, number_of, commands, asked_in, asked_by};
ghost use Rattle.cmd_top.specs.Promises.{Promises};
ghost use Rattle.cmd_bench.specs.Bench.{bench_job};

use crate::words::{begins, number_of};
use base_io::{Sink, Store};
use cmd_bench::bench;
use cmd_check::check;
use cmd_compile::compile;
use cmd_diagnose::diagnose;
use cmd_eval::eval;
use cmd_go::go;
use cmd_pair::pair;
use cmd_repair::repair;
use cmd_run::run;
use cmd_steps::{Refusal, Stop, end_of, some_begins_dashed, word};
use cmd_twice::twice;
use rig::Rig;
use std::alloc::Global;

// Does the work of the number that a word is.
fn bench_word<K: Sink>(
    alloc: Global,
    word: &str,
    rig: &mut Box<dyn Rig>,
    sink: &mut K,
) -> Result<(), Stop>
    // Whatever the store is.
    ensures { (store : StoreState) →
        let old = outside store (rig_state rig.old) (K.sink_state sink.old) in
        let new = outside store (rig_state rig.new) (K.sink_state sink.new) in
        DoesAsked (of_number bench_job (number_of word.now)) result old new }
{
    match number_of(word) {
        Some(n) => bench(alloc, n, rig, sink),
        None => Err(Stop::Refused(Refusal::Words)),
    }
}

// Does what words ask for by the table of commands: a line of it is an `if` here.
fn work_in<S: Store, K: Sink>(
    alloc: Global,
    words: &[String],
    store: &mut S,
    rig: &mut Box<dyn Rig>,
    sink: &mut K,
) -> Result<(), Stop>
    ensures { let old = outside (S.store_state store.old) (rig_state rig.old) (K.sink_state sink.old) in
        let new = outside (S.store_state store.new) (rig_state rig.new) (K.sink_state sink.new) in
        DoesAsked (asked_in commands (map string_bytes words.now)) result old new }
{
    let first = word(words, 1);
    let second = word(words, 2);
    let third = word(words, 3);
    let fourth = word(words, 4);
    let fifth = word(words, 5);
    if begins(words, 3, "eval") {
        return eval(alloc, first, second, store, sink);
    }
    if begins(words, 4, "compile") {
        return compile(alloc, first, second, third, store, sink);
    }
    if begins(words, 5, "run") {
        return run(alloc, first, second, third, fourth, store, rig, sink);
    }
    if begins(words, 3, "diagnose") {
        return diagnose(alloc, first, second, store, rig, sink);
    }
    if begins(words, 5, "go") {
        return go(alloc, first, second, third, fourth, store, rig, sink);
    }
    if begins(words, 2, "bench") {
        return bench_word(alloc, first, rig, sink);
    }
    if begins(words, 4, "check") {
        return check(alloc, first, second, third, store, rig, sink);
    }
    if begins(words, 4, "repair") {
        return repair(alloc, first, second, third, store, sink);
    }
    if begins(words, 6, "pair") {
        return pair(alloc, first, second, third, fourth, fifth, store, rig, sink);
    }
    if begins(words, 5, "twice") {
        return twice(alloc, first, second, third, fourth, store, rig, sink);
    }
    Err(Stop::Refused(Refusal::Words))
}

// Does what the words ask for.
fn work<S: Store, K: Sink>(
    alloc: Global,
    words: &[String],
    store: &mut S,
    rig: &mut Box<dyn Rig>,
    sink: &mut K,
) -> Result<(), Stop>
    ensures { let old = outside (S.store_state store.old) (rig_state rig.old) (K.sink_state sink.old) in
        let new = outside (S.store_state store.new) (rig_state rig.new) (K.sink_state sink.new) in
        DoesAsked (asked_by (map string_bytes words.now)) result old new }
{
    if some_begins_dashed(words) {
        return Err(Stop::Refused(Refusal::Words));
    }
    work_in(alloc, words, store, rig, sink)
}

// The same, to the status.
fn end<S: Store, K: Sink>(
    alloc: Global,
    words: &[String],
    store: &mut S,
    rig: &mut Box<dyn Rig>,
    sink: &mut K,
) -> u8
    ensures { let asked = asked_by (map string_bytes words.now) in
        let old = outside (S.store_state store.old) (rig_state rig.old) (K.sink_state sink.old) in
        let new = outside (S.store_state store.new) (rig_state rig.new) (K.sink_state sink.new) in
        Ended (HasNoJob asked) (job_of asked) old new result }
{
    let done = work(alloc, words, store, rig, sink);
    end_of(&done, sink)
}

/// Does what the words of the command line after the program's name ask, and answers the status:
///
/// - 0: all is done;
/// - 1: a text isn't in its grammar, or is beyond its limit;
/// - 2: the words aren't right;
/// - 3: there is no room for the design, or for the repair of the image;
/// - 4: the rig failed;
/// - 5: the store or the sink failed;
/// - 6: memory was lacking;
/// - 7: of `twice`: the copies read differently.
///
/// The first step that refuses ends the command. What was written before it stays, and the line that
/// says why follows it, unless the sink failed.
pub fn teramac<S: Store, K: Sink>(
    alloc: Global,
    words: &[String],
    store: &mut S,
    rig: &mut Box<dyn Rig>,
    sink: &mut K,
) -> u8
    ensures statuses { result ≤ 7 }
    // What was asked, what was written, what stays, the cause of the status, and what each command promises.
    ensures promises { let old = outside (S.store_state store.old) (rig_state rig.old) (K.sink_state sink.old) in
        let new = outside (S.store_state store.new) (rig_state rig.new) (K.sink_state sink.new) in
        Promises (map string_bytes words.now) result old new }
{
    cmd_bench::the_bench_design_is_a_design();
    cmd_bench::generated_faults_leave_room();
    end(alloc, words, store, rig, sink)
}
