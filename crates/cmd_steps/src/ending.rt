//! How a command that stopped ends.
ghost use Rattle.std.specs.Prelude.{◌≡◌, ◌≤◌, length, OnOk, IfErr};
ghost use Rattle.base_io.specs.Sink.{Wrote, PutFails};
ghost use Rattle.cmd_steps.specs.Lines.{text_line};
ghost use Rattle.cmd_steps.specs.Stops.{status_of, refusal_text};
ghost use Rattle.cmd_steps.specs.Ends.{Finishes, Refuses};

use crate::line::{
    text_of, word_of_defects, word_of_faults, word_of_image, word_of_machine, word_of_vectors,
};
use crate::refusal::{Refusal, Stop};
use base_io::{Sink, SinkFail};

// The status of a refusal.
fn status(refusal: &Refusal) -> u8
    ensures { result ≡ status_of refusal.now }
{
    match refusal {
        Refusal::Words => 2,
        Refusal::Machine { .. }
        | Refusal::Faults { .. }
        | Refusal::Defects { .. }
        | Refusal::Image { .. }
        | Refusal::Design(_)
        | Refusal::Vectors { .. } => 1,
        Refusal::Room(_) => 3,
        Refusal::Rig => 4,
        Refusal::Store => 5,
        Refusal::Memory => 6,
        Refusal::Differ => 7,
    }
}

// Writes the line that refuses a text.
fn put_text<K: Sink>(sink: &mut K, file: &str, line: u64, kind: &str) -> Result<(), SinkFail>
    requires file { length file.now ≤ 8 }
    requires kind { length kind.now ≤ 8 }

    ensures lack { (K.sink_state sink.new).can_lack ≡ (K.sink_state sink.old).can_lack }
    ensures later { (K.sink_state sink.old).failures ≤ (K.sink_state sink.new).failures }
    ensures wrote { OnOk result (Wrote (K.sink_state sink.old).written (K.sink_state sink.new).written (text_line file.now line kind.now)) }
    ensures refused { IfErr result (λ e. PutFails e (text_line file.now line kind.now) (K.sink_state sink.old) (K.sink_state sink.new)) }
{
    let text = text_of(file, line, kind);
    sink.put(text.as_bytes())
}

// Writes the line of a refusal. Takes no memory but the sink's.
fn put_line<K: Sink>(sink: &mut K, refusal: &Refusal) -> Result<(), SinkFail>
    ensures kind { (K.sink_state sink.new).can_lack ≡ (K.sink_state sink.old).can_lack }
    ensures later { (K.sink_state sink.old).failures ≤ (K.sink_state sink.new).failures }
    ensures wrote { OnOk result (Wrote (K.sink_state sink.old).written (K.sink_state sink.new).written (refusal_text refusal.now)) }
    ensures refused { IfErr result (λ e. PutFails e (refusal_text refusal.now) (K.sink_state sink.old) (K.sink_state sink.new)) }
{
    match refusal {
        Refusal::Words => sink.put(b"refused words\n"),
        Refusal::Machine { line, kind } => put_text(sink, "machine", *line, word_of_machine(*kind)),
        Refusal::Faults { line, kind } => put_text(sink, "faults", *line, word_of_faults(*kind)),
        Refusal::Defects { line, kind } => put_text(sink, "defects", *line, word_of_defects(*kind)),
        Refusal::Image { line, kind } => put_text(sink, "image", *line, word_of_image(*kind)),
        Refusal::Design(fault) => sink.put(fault.text()),
        Refusal::Vectors { line, kind } => put_text(sink, "vectors", *line, word_of_vectors(*kind)),
        Refusal::Room(place) => sink.put(place.text()),
        Refusal::Rig => sink.put(b"refused rig\n"),
        Refusal::Store => sink.put(b"refused store\n"),
        Refusal::Memory => sink.put(b"refused memory\n"),
        Refusal::Differ => sink.put(b"refused differ\n"),
    }
}

// Ends with the line of a refusal, and answers the status.
fn refuse<K: Sink>(sink: &mut K, refusal: &Refusal) -> u8
    ensures kind { (K.sink_state sink.new).can_lack ≡ (K.sink_state sink.old).can_lack }
    ensures later { (K.sink_state sink.old).failures ≤ (K.sink_state sink.new).failures }
    ensures refuses { Refuses refusal.now (K.sink_state sink.old) (K.sink_state sink.new) result }
{
    match put_line(sink, refusal) {
        Ok(()) => status(refusal),
        Err(SinkFail::Failed) => 5,
        Err(SinkFail::Memory) => 6,
    }
}

/// Ends after a stop, and answers the status. After a failure of the sink nothing more is written.
pub fn finish<K: Sink>(sink: &mut K, stop: &Stop) -> u8
    ensures kind { (K.sink_state sink.new).can_lack ≡ (K.sink_state sink.old).can_lack }
    ensures later { (K.sink_state sink.old).failures ≤ (K.sink_state sink.new).failures }
    ensures finishes { Finishes stop.now (K.sink_state sink.old) (K.sink_state sink.new) result }
{
    match stop {
        Stop::Refused(refusal) => refuse(sink, refusal),
        Stop::Sink(SinkFail::Failed) => 5,
        Stop::Sink(SinkFail::Memory) => refuse(sink, &Refusal::Memory),
    }
}

/// The status of what was done: 0 where all is done, and else that of the refusal, whose line goes to the sink.
pub fn end_of<K: Sink>(done: &Result<(), Stop>, sink: &mut K) -> u8
    ensures kind { (K.sink_state sink.new).can_lack ≡ (K.sink_state sink.old).can_lack }
    ensures later { (K.sink_state sink.old).failures ≤ (K.sink_state sink.new).failures }
    ensures all { OnOk done.now ((result ≡ 0) × (K.sink_state sink.new ≡ K.sink_state sink.old)) }
    ensures stopped { IfErr done.now (λ stop. Finishes stop (K.sink_state sink.old) (K.sink_state sink.new) result) }
{
    match done {
        Ok(()) => 0,
        Err(stop) => finish(sink, stop),
    }
}
