//! The port that a name says: files, or a recorded talk.
ghost use Rattle.std.specs.Prelude.{◌≡◌, ◌≤◌, true, false, length, IfSome, IfOk, OnOk, OnErr};
ghost use Rattle.std.specs.Option.{option_map_or};
ghost use Rattle.rig_port.specs.FilePorts.{file_port_state};

use crate::file_port::{FilePort, without_times};
use crate::port_log::PortLog;
use crate::replay_port::ReplayPort;
use crate::{Port, PortFail};
use std::alloc::{AllocError, Global};
use std::fs;
use std::io::Read;
use std::rt::Files;

/// A recorded talk has at most so many bytes.
const MOST_BYTES: usize = 1_073_741_824;

/// How many bytes one read asks the system for at most.
const BLOCK: usize = 4096;

/// The port that a name says: for `=LOG` the talk that is recorded in the file LOG, and else files. It tells no machine.
#[derive(Drop)]
pub struct NamedPort<R: Files + Drop> {
    alloc: Global,
    files: FilePort<R>,
    replay: Option<ReplayPort>,
    talk: PortLog,
    failures: u64,
}

// Reads what is left of a file, which is to have at most so many bytes.
fn read_all<F: Read>(from: &mut F, into: &mut Vec<u8>, block: &mut [u8]) -> Result<(), PortFail> {
    'blocks: for _k in 0..u64::MAX {
        let Ok(count) = from.read(block) else {
            return Err(PortFail::Failed);
        };
        if count == 0 {
            return Ok(());
        }
        if into.len().saturating_add(count) > MOST_BYTES {
            return Err(PortFail::Failed);
        }
        if into.extend_from_slice(&block[..count]).is_err() {
            return Err(PortFail::Memory);
        }
    }
    Err(PortFail::Failed)
}

// Bytes for one read.
fn block_of(alloc: Global) -> Result<Vec<u8>, AllocError> {
    Ok(vec![in alloc; 0u8; BLOCK]?)
}

// The recorded talk in a file, opened at its beginning.
fn replay_of<R: Files>(alloc: Global, rt: &R, name: &str) -> Result<ReplayPort, PortFail>
    ensures { IfOk result (λ r. (⟦<ReplayPort as Port>⟧.port_state r).is_open ≡ true) }
{
    let mut recorded = Vec::new(alloc);
    let Ok(mut block) = block_of(alloc) else {
        return Err(PortFail::Memory);
    };
    let Ok(mut file) = fs::open(rt, name) else {
        return Err(PortFail::Failed);
    };
    match read_all(&mut file, &mut recorded, &mut block) {
        Ok(()) => Ok(ReplayPort::opened(recorded)),
        Err(fail) => Err(fail),
    }
}

// Whether what is open is a recorded talk, where there is one, and else files.
fn is_either_open<R: Files + Drop>(replay: &Option<ReplayPort>, files: &FilePort<R>) -> bool
    ensures { result ≡ option_map_or (λ r. (⟦<ReplayPort as Port>⟧.port_state r).is_open) replay.now
        (⟦<FilePort<R> as Port>⟧.port_state files.now).is_open }
{
    match replay {
        Some(replay) => replay.is_open(),
        None => files.is_open(),
    }
}

// Asks the recorded talk, where there is one, and else the files. `None` where these fail.
fn ask_either<R: Files + Drop>(
    replay: &mut Option<ReplayPort>,
    files: &mut FilePort<R>,
    request: &[u8],
    reply: &mut [u8],
) -> Option<usize>
    requires { option_map_or (λ r. (⟦<ReplayPort as Port>⟧.port_state r).is_open) replay.old
        (⟦<FilePort<R> as Port>⟧.port_state files.old).is_open ≡ true }
    ensures length { length reply.new ≡ length reply.old }
    ensures within { IfSome result (λ n. n ≤ length reply.new) }
    ensures stays { IfSome result (λ _. option_map_or (λ r. (⟦<ReplayPort as Port>⟧.port_state r).is_open) replay.new
        (⟦<FilePort<R> as Port>⟧.port_state files.new).is_open ≡ true) }
{
    match replay {
        Some(replay) => replay.ask(request, reply).ok(),
        None => files.ask(request, reply).ok(),
    }
}

impl<R: Files + Drop> NamedPort<R> {
    /// A port that isn't open, over the files of this runtime.
    pub fn new(alloc: Global, rt: R) -> Self {
        NamedPort {
            alloc,
            files: FilePort::new(alloc, rt),
            replay: None,
            talk: PortLog::new(),
            failures: 0,
        }
    }

    // Opens the files of a name, or reads a recorded talk.
    fn open_named(&mut self, name: &str) -> Result<(), PortFail>
        ensures opened { OnOk result (option_map_or (λ r. (⟦<ReplayPort as Port>⟧.port_state r).is_open) self.new.replay
            (⟦<FilePort<R> as Port>⟧.port_state self.new.files).is_open ≡ true) }
        ensures closed { OnErr result (option_map_or (λ r. (⟦<ReplayPort as Port>⟧.port_state r).is_open) self.new.replay
            (⟦<FilePort<R> as Port>⟧.port_state self.new.files).is_open ≡ false) }
        ensures talk { self.new.talk ≡ self.old.talk }
        ensures failures { self.new.failures ≡ self.old.failures }
    {
        self.replay = None;
        let Some(log) = without_times(name).strip_prefix("=") else {
            return self.files.open(name);
        };
        self.files.close();
        match replay_of(self.alloc, self.files.runtime(), log) {
            Ok(replay) => {
                self.replay = Some(replay);
                Ok(())
            }
            Err(fail) => Err(fail),
        }
    }
}

impl<R: Files + Drop> Port for NamedPort<R> {
    ghost port_state = { λ p. file_port_state (option_map_or (λ r. (⟦<ReplayPort as Port>⟧.port_state r).is_open) p.replay
        (⟦<FilePort<R> as Port>⟧.port_state p.files).is_open) p.talk p.failures };

    /// Opens the files of a name, or reads a recorded talk from its beginning.
    ///
    /// # Errors
    ///
    /// `Failed` where a file can't be opened, or a recorded talk can't be read or has more than 1,073,741,824 bytes. Out of memory.
    fn open(&mut self, name: &str) -> Result<(), PortFail> {
        match self.open_named(name) {
            Ok(()) => Ok(()),
            Err(PortFail::Memory) => Err(PortFail::Memory),
            Err(PortFail::Failed) => {
                self.failures = self.failures.saturating_add(1);
                Err(PortFail::Failed)
            }
        }
    }

    fn is_open(&self) -> bool {
        is_either_open(&self.replay, &self.files)
    }

    fn ask(&mut self, request: &[u8], reply: &mut [u8]) -> Result<usize, PortFail> {
        let failures = self.failures;
        match ask_either(&mut self.replay, &mut self.files, request, reply) {
            Some(count) => {
                self.talk = self.talk.and(request, &reply[..count]);
                Ok(count)
            }
            None => {
                self.talk = self.talk.and_unanswered(request);
                self.failures = failures.saturating_add(1);
                Err(PortFail::Failed)
            }
        }
    }
}
