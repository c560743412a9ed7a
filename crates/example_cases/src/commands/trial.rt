//! A command over files, a rig and a sink in memory.

use crate::commands::step::Call;
use crate::over::{First, Sim, over_flaky, over_port};
use base_io::{CutSink, File, MemorySink, MemoryStore, Sink};
use cmd_map::teramac_map;
use example_kit::{Fails, TINY, Turn};
use machine_shape::Shape;
use rig::FlakyRig;
use rig_simulated::SimRig;
use std::alloc::{AllocError, Global};

/// The status where there is no machine, which no command has.
const NO_MACHINE: u8 = 255;

/// The files that a command finds.
#[derive(Drop)]
pub struct Given<'a> {
    /// Those of the store that this case has.
    pub files: &'a [File],
    /// Those of the store that all cases have.
    pub texts: &'a [File],
    /// Those of the store of the rig.
    pub faults: &'a [File],
}

/// What came of a command.
#[derive(Drop)]
pub struct Outcome {
    pub status: u8,
    pub bytes: Vec<u8>,
    pub loads: u64,
}

// How a command is tried.
#[derive(Drop)]
pub struct Manner<'a> {
    pub words: &'a [String],
    pub call: Call,
    pub fails: &'a Fails,
    pub before: Option<u8>,
    pub piece: Option<usize>,
    pub takes: Option<usize>,
}

// Adds copies of files.
fn add_copies(alloc: Global, copies: &mut Vec<File>, files: &[File]) -> Result<(), AllocError> {
    for file in files {
        let name = String::from_str(alloc, file.name.as_str())?;
        let bytes = Vec::from_slice(alloc, &file.bytes)?;
        copies.push(File { name, bytes })?;
    }
    Ok(())
}

// Files, and the numbers of the calls of their store that fail.
#[derive(Drop)]
struct Stored {
    files: Vec<File>,
    fails: Vec<u64>,
}

// What the store of a command has.
fn stored_of(alloc: Global, given: &Given<'_>, fails: &Fails) -> Result<Stored, AllocError> {
    let mut files = Vec::new(alloc);
    add_copies(alloc, &mut files, given.files)?;
    add_copies(alloc, &mut files, given.texts)?;
    let fails = fails.of(alloc, Turn::Store)?;
    Ok(Stored { files, fails })
}

// What the store of a rig has.
fn faults_of(alloc: Global, given: &Given<'_>, fails: &Fails) -> Result<Stored, AllocError> {
    let mut files = Vec::new(alloc);
    add_copies(alloc, &mut files, given.faults)?;
    let fails = fails.of(alloc, Turn::Faults)?;
    Ok(Stored { files, fails })
}

// The store of a command.
fn store_of(alloc: Global, stored: Stored, piece: Option<usize>) -> MemoryStore {
    let Stored { files, fails } = stored;
    match piece {
        Some(most) if most > 0 => MemoryStore::in_pieces(alloc, files, fails, most),
        _ => MemoryStore::new(alloc, files, fails),
    }
}

// A simulated rig over fault texts.
fn sim_of(alloc: Global, faults: Stored) -> Sim {
    let Stored { files, fails } = faults;
    SimRig::new(alloc, MemoryStore::new(alloc, files, fails))
}

// The status of the mapper over a sink.
fn end_of_mapper<K: Sink>(
    alloc: Global,
    manner: &Manner<'_>,
    given: &Given<'_>,
    sink: &mut K,
) -> Result<(u8, u64), AllocError> {
    let stored = stored_of(alloc, given, manner.fails)?;
    let mut store = store_of(alloc, stored, manner.piece);
    Ok((teramac_map(alloc, manner.words, &mut store, sink), 0))
}

// The status of a command over a sink, and how many loads it asked for, where a machine of the counts of `tiny` answers requests.
fn end_over_port<K: Sink>(
    alloc: Global,
    manner: &Manner<'_>,
    given: &Given<'_>,
    sink: &mut K,
) -> Result<(u8, u64), AllocError> {
    let Ok(shape) = Shape::new(TINY) else {
        return Ok((NO_MACHINE, 0));
    };
    let faults = faults_of(alloc, given, manner.fails)?;
    let stored = stored_of(alloc, given, manner.fails)?;
    let mut store = store_of(alloc, stored, manner.piece);
    over_port(
        alloc,
        sim_of(alloc, faults),
        shape,
        manner.words,
        &mut store,
        sink,
    )
}

// What a command has where it is done a first time.
fn first_of(alloc: Global, manner: &Manner<'_>, given: &Given<'_>) -> Result<First, AllocError> {
    let stored = match manner.before {
        Some(_) => stored_of(alloc, given, manner.fails)?,
        None => Stored {
            files: Vec::new(alloc),
            fails: Vec::new(alloc),
        },
    };
    Ok(First {
        store: store_of(alloc, stored, manner.piece),
        sink: MemorySink::new(alloc, Vec::new(alloc)),
        status: manner.before,
    })
}

// The status of a command over a sink, and by how much the loads rose, over a simulated rig. Where it doesn't end as it should have
// before, that is the end.
fn end_over_sim<K: Sink>(
    alloc: Global,
    manner: &Manner<'_>,
    given: &Given<'_>,
    sink: &mut K,
) -> Result<(u8, u64), AllocError> {
    let faults = faults_of(alloc, given, manner.fails)?;
    let calls = manner.fails.of(alloc, Turn::Rig)?;
    let stored = stored_of(alloc, given, manner.fails)?;
    let mut first = first_of(alloc, manner, given)?;
    let mut store = store_of(alloc, stored, manner.piece);
    let rig = FlakyRig::new(alloc, sim_of(alloc, faults), calls);
    over_flaky(alloc, rig, manner.words, &mut first, &mut store, sink)
}

// The status of a command over a sink, and how many loads it asked for.
fn end_over<K: Sink>(
    alloc: Global,
    manner: &Manner<'_>,
    given: &Given<'_>,
    sink: &mut K,
) -> Result<(u8, u64), AllocError> {
    match manner.call {
        Call::Mapper => end_of_mapper(alloc, manner, given, sink),
        Call::Port => end_over_port(alloc, manner, given, sink),
        Call::Commands => end_over_sim(alloc, manner, given, sink),
    }
}

// What came of a command, of its end and what was written.
fn come(
    alloc: Global,
    ended: Result<(u8, u64), AllocError>,
    bytes: &[u8],
) -> Result<Outcome, AllocError> {
    let (status, loads) = ended?;
    let bytes = Vec::from_slice(alloc, bytes)?;
    Ok(Outcome {
        status,
        bytes,
        loads,
    })
}

// Does a command over a sink that takes so many bytes.
fn cut_outcome(
    alloc: Global,
    most: usize,
    manner: &Manner<'_>,
    given: &Given<'_>,
) -> Result<Outcome, AllocError> {
    let mut sink = CutSink::new(alloc, most)?;
    let ended = end_over(alloc, manner, given, &mut sink);
    come(alloc, ended, sink.bytes())
}

// Does a command over a sink of which chosen calls fail.
fn whole_outcome(
    alloc: Global,
    manner: &Manner<'_>,
    given: &Given<'_>,
) -> Result<Outcome, AllocError> {
    let fails = manner.fails.of(alloc, Turn::Sink)?;
    let mut sink = MemorySink::new(alloc, fails);
    let ended = end_over(alloc, manner, given, &mut sink);
    come(alloc, ended, sink.bytes())
}

/// Does a command, and tells what came of it.
pub fn outcome_of(
    alloc: Global,
    manner: &Manner<'_>,
    given: &Given<'_>,
) -> Result<Outcome, AllocError> {
    match manner.takes {
        Some(most) => cut_outcome(alloc, most, manner, given),
        None => whole_outcome(alloc, manner, given),
    }
}
