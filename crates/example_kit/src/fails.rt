//! Calls that fail in an example.

use std::alloc::{AllocError, Global};

/// What calls that fail are of.
#[derive(Clone, Copy, Drop, PartialEq)]
pub enum Turn {
    /// Those of the store.
    Store,
    /// Those of the rig.
    Rig,
    /// Those of the store of the rig.
    Faults,
    /// Those of the sink.
    Sink,
}

/// The calls that fail, each by what it is of and its number.
#[derive(Drop)]
pub struct Fails {
    calls: Vec<(Turn, u64)>,
}

/// What a word says that calls are of.
pub fn turn_of(word: &str) -> Option<Turn> {
    match word {
        "store" => Some(Turn::Store),
        "rig" => Some(Turn::Rig),
        "faults" => Some(Turn::Faults),
        "sink" => Some(Turn::Sink),
        _ => None,
    }
}

impl Fails {
    /// None fails.
    pub fn new(alloc: Global) -> Fails {
        Fails {
            calls: Vec::new(alloc),
        }
    }

    /// One of them fails.
    pub fn one(alloc: Global, turn: Turn, call: u64) -> Result<Fails, AllocError> {
        let mut fails = Fails::new(alloc);
        fails.calls.push((turn, call))?;
        Ok(fails)
    }

    /// These fail besides.
    pub fn add(&mut self, turn: Turn, calls: &[u64]) -> Result<(), AllocError> {
        for call in calls {
            self.calls.push((turn, *call))?;
        }
        Ok(())
    }

    /// The numbers of those that fail of one thing.
    pub fn of(&self, alloc: Global, turn: Turn) -> Result<Vec<u64>, AllocError> {
        let mut numbers = Vec::new(alloc);
        for (of, number) in self.calls.iter() {
            if *of == turn {
                numbers.push(*number)?;
            }
        }
        Ok(numbers)
    }
}
