//! A port in memory of which chosen replies are spoilt on their way.
ghost use Rattle.std.specs.Prelude.{◌≡◌, ◌≤◌, length, None, IfSome};
ghost use Rattle.rig_port.specs.Checks.{fresh_check};

use base_io::MemoryStore;
use rig_port::{Port, PortFail, PortLog, RigPort};
use rig_simulated::SimRig;
use std::alloc::Global;
use std::cell::Cell;
use std::rc::Rc;

/// How a reply is spoilt.
#[derive(Clone, Copy)]
pub enum Spoil {
    /// A byte is another.
    Byte,
    /// Two neighbours stand in each other's place.
    Exchanged,
    /// It is the reply to the request before.
    Before,
    /// It comes twice, so each further reply is the one before, to the next `a`.
    Twice,
    /// The request is lost, so none comes.
    Lost,
    /// The machine is reset: it refuses all to the next `a`.
    Reset,
}

impl Spoil {
    /// The one of this name.
    pub fn named(name: &str) -> Option<Spoil> {
        match name {
            "byte" => Some(Spoil::Byte),
            "exchanged" => Some(Spoil::Exchanged),
            "before" => Some(Spoil::Before),
            "twice" => Some(Spoil::Twice),
            "lost" => Some(Spoil::Lost),
            "reset" => Some(Spoil::Reset),
            _ => None,
        }
    }
}

/// Which replies are spoilt, and how: from this request on so many.
#[derive(Clone, Copy)]
pub struct Plan {
    pub spoil: Spoil,
    pub first: u64,
    pub count: u64,
}

/// A simulated rig behind a port, of which chosen replies are spoilt. It stays open, and tells no machine.
#[derive(Drop)]
pub struct SpoiledPort {
    alloc: Global,
    inner: RigPort<SimRig<MemoryStore>>,
    plan: Plan,
    asked: Rc<Cell<u64>>,
    before: Vec<u8>,
    is_late: bool,
    is_down: bool,
    is_open: bool,
    talk: PortLog,
    failures: u64,
}

// Makes a byte of a line another.
fn turn_byte(line: &mut [u8])
    ensures { length line.new ≡ length line.old }
{
    if line.len() > 1 {
        line[1] ^= 1;
    }
}

// Exchanges the first two neighbours that differ.
fn exchange(line: &mut [u8])
    ensures { length line.new ≡ length line.old }
{
    'bytes: for k in 1..line.len() {
        let one = line[k - 1];
        let next = line[k];
        if one != next {
            line[k - 1] = next;
            line[k] = one;
            return;
        }
    }
}

// Gives a line to the front of a buffer that has room for it.
fn put(line: &[u8], reply: &mut [u8]) -> Option<usize>
    ensures length { length reply.new ≡ length reply.old }
    ensures within { IfSome result (λ n. n ≤ length reply.new) }
{
    if reply.len() < line.len() {
        return None;
    }
    reply[..line.len()].copy_from_slice(line);
    Some(line.len())
}

impl SpoiledPort {
    /// A port that isn't open. It tells how many requests there were.
    pub fn new(
        alloc: Global,
        inner: RigPort<SimRig<MemoryStore>>,
        plan: Plan,
        asked: Rc<Cell<u64>>,
    ) -> SpoiledPort {
        SpoiledPort {
            alloc,
            inner,
            plan,
            asked,
            before: Vec::new(alloc),
            is_late: false,
            is_down: false,
            is_open: false,
            talk: PortLog::new(),
            failures: 0,
        }
    }

    // Counts a request. Gives how its reply is spoilt, where it is.
    fn count(&mut self) -> Option<Spoil>
        ensures open { self.new.is_open ≡ self.old.is_open }
        ensures talk { self.new.talk ≡ self.old.talk }
        ensures failures { self.new.failures ≡ self.old.failures }
    {
        let number = self.asked.get().saturating_add(1);
        self.asked.set(number);
        if number < self.plan.first {
            return None;
        }
        if number - self.plan.first < self.plan.count {
            return Some(self.plan.spoil);
        }
        None
    }

    // What the simulated rig answers, in the place of the reply before, which is kept; gives that in its place where replies are late.
    fn reply(&mut self, request: &[u8], reply: &mut [u8], is_before: bool) -> Option<usize>
        ensures open { self.new.is_open ≡ self.old.is_open }
        ensures talk { self.new.talk ≡ self.old.talk }
        ensures failures { self.new.failures ≡ self.old.failures }
        ensures length { length reply.new ≡ length reply.old }
        ensures within { IfSome result (λ n. n ≤ length reply.new) }
    {
        if !self.inner.is_open() {
            return None;
        }
        let Ok(count) = self.inner.ask(request, reply) else {
            return None;
        };
        let mut now = Vec::new(self.alloc);
        if now.extend_from_slice(&reply[..count]).is_err() {
            return None;
        }
        let given = if is_before {
            put(&self.before, reply)
        } else {
            Some(count)
        };
        self.before = now;
        given
    }

    // Spoils the reply to a request, where it is its turn.
    fn spoil(&mut self, spoil: Spoil, request: &[u8], reply: &mut [u8]) -> Option<usize>
        ensures open { self.new.is_open ≡ self.old.is_open }
        ensures talk { self.new.talk ≡ self.old.talk }
        ensures failures { self.new.failures ≡ self.old.failures }
        ensures length { length reply.new ≡ length reply.old }
        ensures within { IfSome result (λ n. n ≤ length reply.new) }
    {
        match spoil {
            Spoil::Lost => return None,
            Spoil::Reset => self.is_down = true,
            Spoil::Twice => self.is_late = true,
            _ => {}
        }
        let is_before = matches!(spoil, Spoil::Before);
        let count = self.reply(request, reply, is_before)?;
        match spoil {
            Spoil::Byte => turn_byte(&mut reply[..count]),
            Spoil::Exchanged => exchange(&mut reply[..count]),
            Spoil::Reset => return None,
            _ => {}
        }
        Some(count)
    }

    // Answers a request.
    fn answer(&mut self, request: &[u8], reply: &mut [u8]) -> Option<usize>
        ensures open { self.new.is_open ≡ self.old.is_open }
        ensures talk { self.new.talk ≡ self.old.talk }
        ensures failures { self.new.failures ≡ self.old.failures }
        ensures length { length reply.new ≡ length reply.old }
        ensures within { IfSome result (λ n. n ≤ length reply.new) }
    {
        if request.starts_with(b"a ") {
            self.is_late = false;
            self.is_down = false;
        }
        if let Some(spoil) = self.count() {
            return self.spoil(spoil, request, reply);
        }
        if self.is_down {
            return None;
        }
        let is_late = self.is_late;
        self.reply(request, reply, is_late)
    }
}

impl Port for SpoiledPort {
    ghost port_state = { λ p. record { is_open = p.is_open; device = None; check = fresh_check; talk = p.talk; failures = p.failures } };

    fn open(&mut self, name: &str) -> Result<(), PortFail> {
        let failures = self.failures;
        match self.inner.open(name) {
            Ok(()) => {
                self.is_open = true;
                Ok(())
            }
            Err(PortFail::Memory) => {
                self.is_open = false;
                Err(PortFail::Memory)
            }
            Err(PortFail::Failed) => {
                self.is_open = false;
                self.failures = failures.saturating_add(1);
                Err(PortFail::Failed)
            }
        }
    }

    fn is_open(&self) -> bool {
        self.is_open
    }

    fn ask(&mut self, request: &[u8], reply: &mut [u8]) -> Result<usize, PortFail> {
        let failures = self.failures;
        match self.answer(request, reply) {
            Some(count) => {
                self.talk = self.talk.and(request, &reply[..count]);
                Ok(count)
            }
            None => {
                self.talk = self.talk.and_unanswered(request);
                self.failures = failures.saturating_add(1);
                Err(PortFail::Failed)
            }
        }
    }
}
