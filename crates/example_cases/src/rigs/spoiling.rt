//! Commands over a machine behind a port of which chosen replies are spoilt.

use crate::over::over_spoiled;
use crate::rigs::faults::sim_of;
use crate::rigs::number_of;
use crate::rigs::spoiled_port::{Plan, Spoil, SpoiledPort};
use base_io::{FileStore, MemorySink};
use example_kit::TINY;
use machine_shape::Shape;
use rig_port::RigPort;
use std::alloc::{AllocError, Global};
use std::cell::Cell;
use std::io;
use std::rc::Rc;

// What came of a command, and how many requests were asked.
#[derive(Drop)]
struct Outcome {
    status: u8,
    bytes: Vec<u8>,
    asked: u64,
}

// What came of it, of the status and what was written.
fn come(
    alloc: Global,
    ended: Result<u8, AllocError>,
    bytes: &[u8],
    asked: u64,
) -> io::Result<Outcome> {
    let status = ended?;
    let bytes = Vec::from_slice(alloc, bytes)?;
    Ok(Outcome {
        status,
        bytes,
        asked,
    })
}

// Does what the words of a command line say over a machine of this shape behind such a port.
fn outcome_of(rt: &HostRuntime, shape: Shape, plan: Plan, words: &[String]) -> io::Result<Outcome> {
    let alloc: Global = rt.alloc();
    let asked = Rc::new(alloc, Cell::new(0u64))?;
    let counted = asked.clone()?;
    let files = rt.clone()?;
    let end = RigPort::new(alloc, sim_of(rt)?, shape);
    let port = SpoiledPort::new(alloc, end, plan, counted);
    let mut store = FileStore::new(alloc, files);
    let mut sink = MemorySink::new(alloc, Vec::new(alloc));
    let ended = over_spoiled(alloc, port, words, &mut store, &mut sink);
    come(alloc, ended, sink.bytes(), asked.get())
}

// How often a command came to what, with replies spoilt.
#[derive(Clone, Copy)]
struct Tally {
    tried: u64,
    same: u64,
    refused: u64,
}

impl Tally {
    // With one trial more, beside what comes where nothing is spoilt.
    fn with(self, found: &Outcome, right: &Outcome) -> Tally {
        let bytes = found.bytes.as_slice();
        let is_same = found.status == right.status && bytes == right.bytes.as_slice();
        let is_refused = found.status == 4 && bytes == b"refused rig\n".as_slice();
        Tally {
            tried: self.tried.saturating_add(1),
            same: self.same.saturating_add(u64::from(is_same)),
            refused: self.refused.saturating_add(u64::from(is_refused)),
        }
    }

    // In words.
    fn tell(self, rt: &HostRuntime) -> io::Result<()> {
        let Tally {
            tried,
            same,
            refused,
        } = self;
        if same == tried {
            println!(rt; "all come to the same")?;
        } else if refused == tried {
            println!(rt; "all are refused")?;
        } else {
            println!(rt; "of {tried} {same} come to the same, {refused} are refused")?;
        }
        Ok(())
    }
}

// Tries a command with the replies to so many requests spoilt, from each so many requests on, as many as it takes where none is.
fn tally_of(
    rt: &HostRuntime,
    shape: Shape,
    spoil: Spoil,
    every: u64,
    count: u64,
    words: &[String],
) -> io::Result<Tally> {
    let plan = Plan {
        spoil,
        first: 1,
        count: 0,
    };
    let right = outcome_of(rt, shape, plan, words)?;
    let mut tally = Tally {
        tried: 0,
        same: 0,
        refused: 0,
    };
    'requests: for k in 0..right.asked {
        if k % every.max(1) == 0 {
            let plan = Plan {
                spoil,
                first: k.saturating_add(1),
                count,
            };
            tally = tally.with(&outcome_of(rt, shape, plan, words)?, &right);
        }
    }
    Ok(tally)
}

/// The words are how replies are spoilt, two numbers, and a command. With the replies to so many requests in a row spoilt so as the second
/// says: from the first request on, then from as many later as the first says, and so on. Prints whether the command always comes to what
/// it comes to where nothing is spoilt, or is always refused.
pub fn try_spoilt(rt: &HostRuntime, words: &[String]) -> io::Result<bool> {
    let [kind, every, count, words @ ..] = words else {
        return Ok(false);
    };
    let (Ok(shape), Some(spoil)) = (Shape::new(TINY), Spoil::named(kind.as_str())) else {
        return Ok(false);
    };
    let every = number_of(every.as_str());
    let count = number_of(count.as_str());
    let tally = tally_of(rt, shape, spoil, every, count, words)?;
    tally.tell(rt)?;
    Ok(true)
}
