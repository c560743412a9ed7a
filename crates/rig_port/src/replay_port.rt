//! A recorded talk as a port.
ghost use Rattle.std.specs.Prelude.{◌≡◌, ◌^◌, ◌<◌, ◌≤◌, ◌++◌, List, [], ℕ, true, false};
ghost use Rattle.std.specs.Prelude.{None, Some, length, take, drop, IfSome, IfNone, IfOk, IfErr, OnOk, OnErr, IsErrOf};
ghost use Rattle.base_io.specs.Counts.{Rose};
ghost use Rattle.rig_board.specs.Device.{WhereTold};
ghost use Rattle.rig_port.specs.Answers.{Answers};
ghost use Rattle.rig_port.specs.Ports.{machine_told, Opens, AskFails};
ghost use Rattle.rig_port.specs.FilePorts.{file_port_state, IsLine};
ghost use Rattle.rig_port.specs.Replays.{BeginsWith, HasReplayed, IsDue};
ghost use Rattle.rig_port.specs.Transcripts.{and_sent};

use crate::port_log::PortLog;
use crate::question::is_line;
use crate::{Port, PortFail};

/// A recorded talk as a port: lines, by turns a request and its reply. A request is answered by the recorded reply, and only where it is,
/// byte by byte, the one that comes next in the recording; any other leaves the place in it. It tells no machine.
#[derive(Drop)]
pub struct ReplayPort {
    recorded: Vec<u8>,
    at: usize,
    is_open: bool,
    talk: PortLog,
    failures: u64,
}

// How many bytes the line has that stands in front of all else, with its end.
fn line_length(bytes: &[u8]) -> Option<usize>
    ensures within { IfSome result (λ n. n ≤ length bytes.now) }
    ensures line { IfSome result (λ n. IsLine (take n bytes.now)) }
    ensures none { IfNone result ((line rest : List ℕ) → IsLine line → bytes.now ≡ line ++ rest → ⊥) }
{
    'bytes: for k in 0..bytes.len() {
        if bytes[k] == b'\n' {
            return Some(k + 1);
        }
    }
    None
}

// The bytes from a place on; none where there aren't so many.
fn behind(bytes: &[u8], at: usize) -> &[u8]
    ensures { result.now ≡ drop at bytes.now }
{
    if at <= bytes.len() {
        return &bytes[at..];
    }
    &bytes[bytes.len()..]
}

// Gives the line that stands in front of all else, where there is room for it.
fn give_line(bytes: &[u8], reply: &mut [u8]) -> Option<usize>
    ensures length { length reply.new ≡ length reply.old }
    ensures within { IfSome result (λ n. (n ≤ length reply.new) × (n ≤ length bytes.now)) }
    ensures line { IfSome result (λ n. (take n reply.new ≡ take n bytes.now) × IsLine (take n reply.new)) }
    ensures none { IfNone result ((line rest : List ℕ) → IsLine line → length line ≤ length reply.old → bytes.now ≡ line ++ rest → ⊥) }
{
    let Some(count) = line_length(bytes) else {
        return None;
    };
    if reply.len() < count {
        return None;
    }
    reply[..count].copy_from_slice(&bytes[..count]);
    Some(count)
}

// Whether this line stands in front of all else.
fn is_next(bytes: &[u8], request: &[u8]) -> bool
    ensures right { result ≡ true → IsLine request.now × (bytes.now ≡ request.now ++ drop (length request.now) bytes.now) }
    ensures wrong { result ≡ false → (rest : List ℕ) → IsLine request.now → bytes.now ≡ request.now ++ rest → ⊥ }
{
    match line_length(bytes) {
        Some(count) => is_line(&bytes[..count], request),
        None => false,
    }
}

/// The reply that stands behind a request in what was recorded, and where what comes next begins.
#[derive(Clone, Copy)]
pub struct Replied {
    pub count: usize,
    pub next: usize,
}

// Gives the reply to a request that is the next line from a place on, where there is room for it.
fn next_reply(recorded: &[u8], at: usize, request: &[u8], reply: &mut [u8]) -> Option<Replied>
    ensures length { length reply.new ≡ length reply.old }
    ensures within { IfSome result (λ r. r.count ≤ length reply.new) }
    ensures replied { IfSome result (λ r. HasReplayed (drop at recorded.now) (drop r.next recorded.now) request.now
        (take r.count reply.new)) }
    ensures none { IfNone result (IsDue (drop at recorded.now) request.now (length reply.old) → ⊥) }
{
    if !is_next(behind(recorded, at), request) {
        return None;
    }
    let next = at.saturating_add(request.len());
    let Some(count) = give_line(behind(recorded, next), reply) else {
        return None;
    };
    Some(Replied {
        count,
        next: next.saturating_add(count),
    })
}

impl ReplayPort {
    /// A port that isn't open, over this recording, which begins with a request.
    pub fn new(recorded: Vec<u8>) -> ReplayPort
        ensures recorded { result.recorded ≡ recorded }
        ensures at { result.at ≡ 0 }
        ensures talk { (⟦<ReplayPort as Port>⟧.port_state result).talk ≡ [] }
        ensures begun { BeginsWith result.recorded.items result.at result.talk }
    {
        ReplayPort {
            recorded,
            at: 0,
            is_open: false,
            talk: PortLog::new(),
            failures: 0,
        }
    }

    /// The same, open.
    pub fn opened(recorded: Vec<u8>) -> ReplayPort
        ensures recorded { result.recorded ≡ recorded }
        ensures at { result.at ≡ 0 }
        ensures talk { (⟦<ReplayPort as Port>⟧.port_state result).talk ≡ [] }
        ensures begun { BeginsWith result.recorded.items result.at result.talk }
        ensures open { (⟦<ReplayPort as Port>⟧.port_state result).is_open ≡ true }
    {
        ReplayPort {
            recorded,
            at: 0,
            is_open: true,
            talk: PortLog::new(),
            failures: 0,
        }
    }
}

impl Port for ReplayPort {
    ghost port_state = { λ p. file_port_state p.is_open p.talk p.failures };

    /// It is always opened, and the place in the recording stays.
    ///
    /// # Errors
    ///
    /// None.
    fn open(&mut self, name: &str) -> Result<(), PortFail>
        ensures later { (⟦<ReplayPort as Port>⟧.port_state self.old).failures ≤ (⟦<ReplayPort as Port>⟧.port_state self.new).failures }
        ensures count { (⟦<ReplayPort as Port>⟧.port_state self.new).failures < 2 ^ 64 }
        ensures talk { (⟦<ReplayPort as Port>⟧.port_state self.new).talk ≡ (⟦<ReplayPort as Port>⟧.port_state self.old).talk }
        ensures opens { OnOk result (Opens (⟦<ReplayPort as Port>⟧.port_state self.new)) }
        ensures closed { OnErr result ((⟦<ReplayPort as Port>⟧.port_state self.new).is_open ≡ false) }
        ensures refused { IsErrOf result PortFail.Failed → Rose (⟦<ReplayPort as Port>⟧.port_state self.old).failures
            (⟦<ReplayPort as Port>⟧.port_state self.new).failures }
        ensures opened { OnErr result ⊥ }
        ensures place { (self.new.at ≡ self.old.at) × (self.new.recorded ≡ self.old.recorded) }
    {
        self.is_open = true;
        Ok(())
    }

    fn is_open(&self) -> bool {
        self.is_open
    }

    /// Behind an `Ok` the request and the reply stood, in this order, in front of all that is left of the recording. So what was said is
    /// the beginning of the recording (`begun`).
    ///
    /// # Errors
    ///
    /// `Failed` exactly where the request isn't the next line of the recording, or the line behind it has no room in `reply`. All that
    /// was left is left, and the port stays open.
    fn ask(&mut self, request: &[u8], reply: &mut [u8]) -> Result<usize, PortFail>
        requires { (⟦<ReplayPort as Port>⟧.port_state self.old).is_open ≡ true }

        ensures machine { machine_told (⟦<ReplayPort as Port>⟧.port_state self.new)
            ≡ machine_told (⟦<ReplayPort as Port>⟧.port_state self.old) }
        ensures later { (⟦<ReplayPort as Port>⟧.port_state self.old).failures ≤ (⟦<ReplayPort as Port>⟧.port_state self.new).failures }
        ensures count { (⟦<ReplayPort as Port>⟧.port_state self.new).failures < 2 ^ 64 }
        ensures said { IfOk result (λ n. (⟦<ReplayPort as Port>⟧.port_state self.new).talk
            ≡ and_sent (⟦<ReplayPort as Port>⟧.port_state self.old).talk request.now (Some (take n reply.new))) }
        ensures unsaid { OnErr result ((⟦<ReplayPort as Port>⟧.port_state self.new).talk
            ≡ and_sent (⟦<ReplayPort as Port>⟧.port_state self.old).talk request.now None) }
        ensures length { length reply.new ≡ length reply.old }
        ensures within { IfOk result (λ n. n ≤ length reply.new) }
        ensures stays { OnOk result ((⟦<ReplayPort as Port>⟧.port_state self.new).is_open ≡ true) }
        ensures told { IfOk result (λ n. WhereTold (λ d e. Answers d (⟦<ReplayPort as Port>⟧.port_state self.old).check request.now
            (take n reply.new) e (⟦<ReplayPort as Port>⟧.port_state self.new).check)
            (⟦<ReplayPort as Port>⟧.port_state self.old).device (⟦<ReplayPort as Port>⟧.port_state self.new).device) }
        ensures refused { IfErr result (λ e. AskFails e (⟦<ReplayPort as Port>⟧.port_state self.old)
            (⟦<ReplayPort as Port>⟧.port_state self.new)) }
        ensures recorded { self.new.recorded ≡ self.old.recorded }
        ensures open { (⟦<ReplayPort as Port>⟧.port_state self.new).is_open ≡ true }
        ensures replayed { IfOk result (λ n. HasReplayed (drop self.old.at self.old.recorded.items)
            (drop self.new.at self.new.recorded.items) request.now (take n reply.new)) }
        ensures begun { BeginsWith self.old.recorded.items self.old.at self.old.talk →
            BeginsWith self.new.recorded.items self.new.at self.new.talk }
        ensures kept { OnErr result (self.new.at ≡ self.old.at) }
        ensures due { OnErr result (IsDue (drop self.old.at self.old.recorded.items) request.now (length reply.old) → ⊥) }
    {
        let failures = self.failures;
        match next_reply(&self.recorded, self.at, request, reply) {
            Some(replied) => {
                self.at = replied.next;
                self.talk = self.talk.and(request, &reply[..replied.count]);
                Ok(replied.count)
            }
            None => {
                self.talk = self.talk.and_unanswered(request);
                self.failures = failures.saturating_add(1);
                Err(PortFail::Failed)
            }
        }
    }
}
