//! A port in memory that answers the requests of a table, in their order, and no other.
ghost use Rattle.std.specs.Prelude.{◌≡◌, ◌≤◌, true, length, None, IfSome};
ghost use Rattle.rig_port.specs.Checks.{fresh_check};

use rig_port::{Port, PortFail, PortLog};
use std::alloc::{AllocError, Global};
use std::cell::Cell;
use std::rc::Rc;

/// A line that doesn't fit into so many bytes is no reply.
const MOST_REPLY: usize = 4101;

/// A request and the reply to it, each to its end.
#[derive(Drop)]
pub struct Exchange {
    pub request: Vec<u8>,
    pub reply: Vec<u8>,
}

/// The requests and replies of a text: a line for each, in which the reply stands behind spaces and begins with `=`.
pub fn exchanges_of(alloc: Global, text: &str) -> Result<Vec<Exchange>, AllocError> {
    let mut table = Vec::new(alloc);
    'lines: for line in text.lines() {
        if line.starts_with("#") {
            continue;
        }
        let Some((request, reply)) = line.split_once(" =") else {
            continue;
        };
        table.push(Exchange {
            request: line_of(alloc, "", request.trim_end())?,
            reply: line_of(alloc, "=", reply)?,
        })?;
    }
    Ok(table)
}

// A line of the protocol.
fn line_of(alloc: Global, first: &str, rest: &str) -> Result<Vec<u8>, AllocError> {
    let mut line = Vec::from_slice(alloc, first.as_bytes())?;
    line.extend_from_slice(rest.as_bytes())?;
    line.push(b'\n')?;
    Ok(line)
}

/// Answers the requests of a table in their order, and tells how many of them were asked. It fails at a request that isn't, byte by byte,
/// the one that is due.
#[derive(Drop)]
pub struct TablePort {
    table: Vec<Exchange>,
    asked: Rc<Cell<usize>>,
    is_open: bool,
    talk: PortLog,
    failures: u64,
}

impl TablePort {
    /// A port that isn't open.
    pub fn new(table: Vec<Exchange>, asked: Rc<Cell<usize>>) -> TablePort {
        TablePort {
            table,
            asked,
            is_open: false,
            talk: PortLog::new(),
            failures: 0,
        }
    }
}

// Gives the reply, where this request is the one that is due.
fn reply_to(due: Option<&Exchange>, request: &[u8], reply: &mut [u8]) -> Option<usize>
    ensures length { length reply.new ≡ length reply.old }
    ensures within { IfSome result (λ n. n ≤ length reply.new) }
{
    let due = due?;
    if request != due.request.as_slice() {
        return None;
    }
    let line = due.reply.as_slice();
    if reply.len() < line.len() {
        return None;
    }
    reply[..line.len()].copy_from_slice(line);
    Some(line.len())
}

impl Port for TablePort {
    ghost port_state = { λ p. record { is_open = p.is_open; device = None; check = fresh_check; talk = p.talk; failures = p.failures } };

    fn open(&mut self, name: &str) -> Result<(), PortFail> {
        let _failures = self.failures;
        self.is_open = true;
        Ok(())
    }

    fn is_open(&self) -> bool {
        self.is_open
    }

    fn ask(&mut self, request: &[u8], reply: &mut [u8]) -> Result<usize, PortFail> {
        let failures = self.failures;
        let asked = self.asked.get();
        match reply_to(self.table.get(asked), request, reply) {
            Some(count) => {
                self.asked.set(asked.saturating_add(1));
                self.talk = self.talk.and(request, &reply[..count]);
                Ok(count)
            }
            None => {
                self.is_open = false;
                self.talk = self.talk.and_unanswered(request);
                self.failures = failures.saturating_add(1);
                Err(PortFail::Failed)
            }
        }
    }
}

/// Asks a port all requests of a table. False where it fails, or a reply isn't, byte by byte, that of the table.
pub fn answers_all<P: Port>(
    alloc: Global,
    port: &mut P,
    table: &[Exchange],
) -> Result<bool, AllocError>
    requires { (P.port_state port.old).is_open ≡ true }
{
    let mut reply = vec![in alloc; 0u8; MOST_REPLY]?;
    'requests: for exchange in table {
        let Ok(count) = port.ask(&exchange.request, &mut reply) else {
            return Ok(false);
        };
        if &reply[..count] != exchange.reply.as_slice() {
            return Ok(false);
        }
    }
    Ok(true)
}
