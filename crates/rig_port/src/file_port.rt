//! Files of the system as a port.
ghost use Rattle.std.specs.Prelude.{◌≡◌, ◌^◌, ◌<◌, ◌≤◌, [], true, false, None, Some, length, take, is_some, IfSome};
ghost use Rattle.std.specs.Prelude.{IfOk, IfErr, OnOk, OnErr, IsErrOf};
ghost use Rattle.base_io.specs.Counts.{Rose, next_count};
ghost use Rattle.rig_board.specs.Device.{WhereTold};
ghost use Rattle.rig_port.specs.Answers.{Answers};
ghost use Rattle.rig_port.specs.Ports.{machine_told, Opens, AskFails};
ghost use Rattle.rig_port.specs.FilePorts.{file_port_state, HaveTalked, HaveWritten};
ghost use Rattle.rig_port.specs.Transcripts.{and_sent};

use crate::port_log::PortLog;
use crate::talk::{Ends, NoReply, Rest, talk};
use crate::{Port, PortFail};
use std::alloc::{AllocError, Global};
use std::fs::OpenOptions;
use std::io;
use std::rt::Files;

/// How many bytes one read asks the system for at most.
const BLOCK: usize = 4096;

/// A port over ordinary files: one that is read and written, or one for requests and one for replies. It tells no machine. What it wrote
/// and read is said by what files say of themselves: the bytes that they hold, and those that they have left.
#[derive(Drop)]
pub struct FilePort<R: Files + Drop> {
    alloc: Global,
    rt: R,
    ends: Option<Ends<R::File>>,
    /// How many requests there were, up to the last `u64`.
    pub asks: u64,
    talk: PortLog,
    failures: u64,
}

/// The name without the digit and the `x` that say how often each load is made.
pub fn without_times(name: &str) -> &str {
    for times in ["2x", "3x", "4x", "5x", "6x", "7x", "8x", "9x"] {
        if let Some(rest) = name.strip_prefix(times) {
            return rest;
        }
    }
    name
}

// Opens one file both ways, or one for requests and then one for replies. No file is made or cut; each may wait for the other end.
fn open_ends<R: Files>(alloc: Global, rt: &R, name: &str) -> io::Result<Ends<R::File>>
    ensures rest { IfOk result (λ ends. ends.rest ≡ []) }
    ensures whole { IfOk result (λ ends. ends.is_cut ≡ false) }
{
    let rest = Rest {
        block: vec![in alloc; 0u8; BLOCK]?,
        at: 0,
        end: 0,
    };
    let Some((to, from)) = name.split_once(',') else {
        let to = OpenOptions::new().read(true).write(true).open(rt, name)?;
        return Ok(Ends {
            to,
            from: None,
            rest,
            is_cut: false,
        });
    };
    let to = OpenOptions::new().write(true).open(rt, to)?;
    let from = OpenOptions::new().read(true).open(rt, from)?;
    Ok(Ends {
        to,
        from: Some(from),
        rest,
        is_cut: false,
    })
}

impl<R: Files + Drop> FilePort<R> {
    /// A port that isn't open, over the files of this runtime.
    pub fn new(alloc: Global, rt: R) -> Self
        ensures asks { result.asks ≡ 0 }
        ensures talk { (⟦<FilePort<R> as Port>⟧.port_state result).talk ≡ [] }
    {
        FilePort {
            alloc,
            rt,
            ends: None,
            asks: 0,
            talk: PortLog::new(),
            failures: 0,
        }
    }

    /// The runtime of its files.
    pub fn runtime(&self) -> &R {
        &self.rt
    }

    /// Closes what is open.
    pub fn close(&mut self)
        ensures closed { self.new.ends ≡ None }
        ensures asks { self.new.asks ≡ self.old.asks }
        ensures talk { self.new.talk ≡ self.old.talk }
        ensures failures { self.new.failures ≡ self.old.failures }
    {
        self.ends = None;
    }
}

impl<R: Files + Drop> Port for FilePort<R> {
    ghost port_state = { λ p. file_port_state (is_some p.ends) p.talk p.failures };

    /// What was open is closed first, and what was read is dropped. The number of asks stays.
    ///
    /// # Errors
    ///
    /// `Failed` where a file can't be opened. Out of memory.
    fn open(&mut self, name: &str) -> Result<(), PortFail>
        ensures later { (⟦<FilePort<R> as Port>⟧.port_state self.old).failures ≤ (⟦<FilePort<R> as Port>⟧.port_state self.new).failures }
        ensures count { (⟦<FilePort<R> as Port>⟧.port_state self.new).failures < 2 ^ 64 }
        ensures talk { (⟦<FilePort<R> as Port>⟧.port_state self.new).talk ≡ (⟦<FilePort<R> as Port>⟧.port_state self.old).talk }
        ensures opens { OnOk result (Opens (⟦<FilePort<R> as Port>⟧.port_state self.new)) }
        ensures closed { OnErr result ((⟦<FilePort<R> as Port>⟧.port_state self.new).is_open ≡ false) }
        ensures refused { IsErrOf result PortFail.Failed → Rose (⟦<FilePort<R> as Port>⟧.port_state self.old).failures
            (⟦<FilePort<R> as Port>⟧.port_state self.new).failures }
        ensures asks { self.new.asks ≡ self.old.asks }
        ensures fresh { OnOk result (IfSome self.new.ends (λ ends. (ends.rest ≡ []) × (ends.is_cut ≡ false))) }
    {
        self.ends = None;
        match open_ends(self.alloc, &self.rt, without_times(name)) {
            Ok(ends) => {
                self.ends = Some(ends);
                Ok(())
            }
            Err(e) if e.kind() == io::ErrorKind::OutOfMemory => Err(PortFail::Memory),
            Err(_) => {
                self.failures = self.failures.saturating_add(1);
                Err(PortFail::Failed)
            }
        }
    }

    fn is_open(&self) -> bool {
        self.ends.is_some()
    }

    /// One ask more, whatever it answers. Behind an `Ok` the whole request was written, and what is answered is the next line that was
    /// read, to its LF. What is left of a line that was too long is dropped before; and where the request asks what a machine is, so are
    /// lines that begin with another number, or otherwise, up to 1,048,576 bytes: a request that failed may have left them on the way.
    ///
    /// # Errors
    ///
    /// `Failed` where a write or a read fails or the file ends before the line does, which closes the port; and where `reply` is full
    /// before, or the line begins with `!`, which leaves it open: then the whole request was written (`wrote`).
    fn ask(&mut self, request: &[u8], reply: &mut [u8]) -> Result<usize, PortFail>
        requires { (⟦<FilePort<R> as Port>⟧.port_state self.old).is_open ≡ true }

        ensures machine { machine_told (⟦<FilePort<R> as Port>⟧.port_state self.new)
            ≡ machine_told (⟦<FilePort<R> as Port>⟧.port_state self.old) }
        ensures later { (⟦<FilePort<R> as Port>⟧.port_state self.old).failures ≤ (⟦<FilePort<R> as Port>⟧.port_state self.new).failures }
        ensures count { (⟦<FilePort<R> as Port>⟧.port_state self.new).failures < 2 ^ 64 }
        ensures said { IfOk result (λ n. (⟦<FilePort<R> as Port>⟧.port_state self.new).talk
            ≡ and_sent (⟦<FilePort<R> as Port>⟧.port_state self.old).talk request.now (Some (take n reply.new))) }
        ensures unsaid { OnErr result ((⟦<FilePort<R> as Port>⟧.port_state self.new).talk
            ≡ and_sent (⟦<FilePort<R> as Port>⟧.port_state self.old).talk request.now None) }
        ensures length { length reply.new ≡ length reply.old }
        ensures within { IfOk result (λ n. n ≤ length reply.new) }
        ensures stays { OnOk result ((⟦<FilePort<R> as Port>⟧.port_state self.new).is_open ≡ true) }
        ensures told { IfOk result (λ n. WhereTold (λ d e. Answers d (⟦<FilePort<R> as Port>⟧.port_state self.old).check request.now
            (take n reply.new) e (⟦<FilePort<R> as Port>⟧.port_state self.new).check)
            (⟦<FilePort<R> as Port>⟧.port_state self.old).device (⟦<FilePort<R> as Port>⟧.port_state self.new).device) }
        ensures refused { IfErr result (λ e. AskFails e (⟦<FilePort<R> as Port>⟧.port_state self.old)
            (⟦<FilePort<R> as Port>⟧.port_state self.new)) }
        ensures asks { self.new.asks ≡ next_count self.old.asks }
        ensures wrote { OnErr result (HaveWritten R.File.contents self.old.ends self.new.ends request.now) }
        ensures talked { IfOk result (λ n. HaveTalked R.File.contents R.File.remaining self.old.ends self.new.ends request.now
            (take n reply.new)) }
    {
        self.asks = self.asks.saturating_add(1);
        let Some(mut ends) = self.ends.take() else {
            unreachable!()
        };
        match talk(&mut ends, request, reply) {
            Ok(count) => {
                self.ends = Some(ends);
                self.talk = self.talk.and(request, &reply[..count]);
                Ok(count)
            }
            Err(NoReply::Wrong) => {
                self.ends = Some(ends);
                self.talk = self.talk.and_unanswered(request);
                self.failures = self.failures.saturating_add(1);
                Err(PortFail::Failed)
            }
            Err(NoReply::Ended) => {
                self.talk = self.talk.and_unanswered(request);
                self.failures = self.failures.saturating_add(1);
                Err(PortFail::Failed)
            }
        }
    }
}
