//! What a case has at hand besides its machine.
use crate::crossbars::setup::Setup;
use crate::crossbars::walk::Loads;
use std::alloc::{AllocError, Global};

/// What was set, and how many loads the last question took.
#[derive(Drop)]
pub struct Bench {
    pub setup: Setup,
    pub loads: Loads,
}

impl Bench {
    /// Nothing is set, and nothing was asked.
    pub fn new(alloc: Global) -> Bench {
        Bench {
            setup: Setup::new(alloc),
            loads: Loads { trunk: 0, rest: 0 },
        }
    }

    /// Sets what words say; false where they say nothing.
    pub fn set(&mut self, alloc: Global, key: &str, words: &[String]) -> Result<bool, AllocError> {
        match key {
            "on" => Ok(self.setup.set_table(words, false)),
            "latched" => Ok(self.setup.set_table(words, true)),
            _ => self.setup.set(alloc, key, words),
        }
    }

    /// Whether the last question took no more loads than words say. None where they say no numbers.
    pub fn is_within(&self, words: &[String]) -> Option<bool> {
        match words {
            [most] => {
                let most = most.as_str().parse::<u64>().ok()?;
                Some(self.loads.rest <= most)
            }
            [trunk, rest] => {
                let trunk = trunk.as_str().parse::<u64>().ok()?;
                let rest = rest.as_str().parse::<u64>().ok()?;
                Some(self.loads.trunk <= trunk && self.loads.rest <= rest)
            }
            _ => None,
        }
    }
}
