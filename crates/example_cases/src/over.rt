//! A command over a rig of each kind: its status, and where that is told, how many loads it asked for.
//!
//! A box of a rig can't be handed on, so each of these makes its box and the top call. That is dear to check, and so is every place where
//! a function ends that owns a rig. So nothing else stands here: what can end early is done before, and what is told is told behind.

use crate::rigs::late_board::LateBoard;
use crate::rigs::spoiled_port::SpoiledPort;
use crate::rigs::telling_rig::TellingRig;
use base_io::{MemorySink, MemoryStore, Sink, Store};
use cmd_top::teramac;
use example_rigs::TurnRig;
use machine_shape::Shape;
use rig::{FlakyRig, LogRig, Rig};
use rig_board::BoardRig;
use rig_doubled::{RepeatRig, TwinRig};
use rig_port::{FileBoard, PortBoard, RigPort};
use rig_simulated::SimRig;
use std::alloc::{AllocError, Global};

/// A simulated rig over files in memory.
pub type Sim = SimRig<MemoryStore>;

/// What a command has where it is done a first time over the same rig: the status that it has to end with then, where it is.
#[derive(Drop)]
pub struct First {
    pub store: MemoryStore,
    pub sink: MemorySink,
    pub status: Option<u8>,
}

/// Over a rig of which chosen calls fail. Where it doesn't end as it should a first time, that is the end.
pub fn over_flaky<S: Store, K: Sink>(
    alloc: Global,
    rig: FlakyRig<Sim>,
    words: &[String],
    first: &mut First,
    store: &mut S,
    sink: &mut K,
) -> Result<(u8, u64), AllocError> {
    let mut rig: Box<dyn Rig> = Box::new(alloc, LogRig::new(rig))?;
    if let Some(before) = first.status {
        let status = teramac(alloc, words, &mut first.store, &mut rig, &mut first.sink);
        if status != before {
            return Ok((status, rig.loads()));
        }
    }
    let status = teramac(alloc, words, store, &mut rig, sink);
    Ok((status, rig.loads()))
}

/// Over a rig that asks again, over one that turns a reading. Under a name that doesn't say how often, it asks once.
pub fn over_turned<S: Store, K: Sink>(
    alloc: Global,
    inner: TurnRig<Sim>,
    words: &[String],
    store: &mut S,
    sink: &mut K,
) -> Result<u8, AllocError> {
    let mut rig: Box<dyn Rig> = Box::new(alloc, RepeatRig::new(alloc, inner))?;
    Ok(teramac(alloc, words, store, &mut rig, sink))
}

/// Over a rig that asks again, over one that tells its loads.
pub fn over_told<S: Store, K: Sink>(
    alloc: Global,
    inner: TellingRig<Sim>,
    words: &[String],
    store: &mut S,
    sink: &mut K,
) -> Result<(u8, u64), AllocError> {
    let mut rig: Box<dyn Rig> = Box::new(alloc, RepeatRig::new(alloc, inner))?;
    let status = teramac(alloc, words, store, &mut rig, sink);
    Ok((status, rig.loads()))
}

/// Over two rigs side by side.
pub fn over_twin<S: Store, K: Sink>(
    alloc: Global,
    twin: TwinRig<Sim, Sim>,
    words: &[String],
    store: &mut S,
    sink: &mut K,
) -> Result<u8, AllocError> {
    let mut rig: Box<dyn Rig> = Box::new(alloc, twin)?;
    Ok(teramac(alloc, words, store, &mut rig, sink))
}

/// Over a machine whose faults come late.
pub fn over_late<S: Store, K: Sink>(
    alloc: Global,
    board: LateBoard<Sim>,
    words: &[String],
    store: &mut S,
    sink: &mut K,
) -> Result<u8, AllocError> {
    let mut rig: Box<dyn Rig> = Box::new(alloc, BoardRig::new(alloc, board))?;
    Ok(teramac(alloc, words, store, &mut rig, sink))
}

/// Over a machine behind files.
pub fn over_files<S: Store, K: Sink>(
    alloc: Global,
    board: FileBoard<HostRuntime>,
    words: &[String],
    store: &mut S,
    sink: &mut K,
) -> Result<u8, AllocError> {
    let mut rig: Box<dyn Rig> = Box::new(alloc, BoardRig::new(alloc, board))?;
    Ok(teramac(alloc, words, store, &mut rig, sink))
}

/// Over a simulated rig that answers requests: a machine of this shape behind a port.
pub fn over_port<S: Store, K: Sink>(
    alloc: Global,
    sim: Sim,
    shape: Shape,
    words: &[String],
    store: &mut S,
    sink: &mut K,
) -> Result<(u8, u64), AllocError> {
    let board = PortBoard::new(alloc, RigPort::new(alloc, sim, shape));
    let mut rig: Box<dyn Rig> = Box::new(alloc, BoardRig::new(alloc, board))?;
    let status = teramac(alloc, words, store, &mut rig, sink);
    Ok((status, rig.loads()))
}

/// Over the same behind a port that spoils replies.
pub fn over_spoiled<S: Store, K: Sink>(
    alloc: Global,
    port: SpoiledPort,
    words: &[String],
    store: &mut S,
    sink: &mut K,
) -> Result<u8, AllocError> {
    let board = PortBoard::new(alloc, port);
    let mut rig: Box<dyn Rig> = Box::new(alloc, BoardRig::new(alloc, board))?;
    Ok(teramac(alloc, words, store, &mut rig, sink))
}
