//! Memory as a sink.
ghost use Rattle.std.specs.Prelude.{◌≡◌, ◌^◌, ◌<◌, ◌≤◌, ◌↔◌, [], OnOk, IfErr, IsErrOf, Contains};
ghost use Rattle.base_io.specs.Sink.{Wrote, PutFails};
ghost use Rattle.base_io.specs.Counts.{next_count};
ghost use Rattle.base_io.specs.MemorySink.{memory_sink_state};

use crate::{Sink, SinkFail};
use std::alloc::Global;
use std::marker::Model;

/// A sink that keeps what is written, and tells it.
///
/// The calls of `put` are numbered from 1. Those in `fails` answer `Failed` and write nothing, and no
/// other call answers `Failed`. It can answer `Memory`, and such a call takes no number.
#[derive(Drop)]
pub struct MemorySink {
    bytes: Vec<u8>,
    fails: Vec<u64>,
    calls: u64,
    failures: u64,
}

impl Model for MemorySink {
    ghost use Rattle.std.specs.Prelude.{◌^◌, ◌<◌};
    ghost use Rattle.base_io.specs.MemorySink.{MemoryBytes};

    ghost Value = { MemoryBytes };

    ghost view = { λ a. record { bytes = a.bytes.items; fails = a.fails.items; calls = a.calls; failures = a.failures } };

    ghost invariant = { λ a. a.failures < 2 ^ 64 };
}

impl MemorySink {
    /// A sink with nothing written.
    pub fn new(alloc: Global, fails: Vec<u64>) -> Self
        ensures { result ≡ record { bytes = []; fails = fails.items; calls = 0; failures = 0 } }
    {
        MemorySink {
            bytes: Vec::new(alloc),
            fails,
            calls: 0,
            failures: 0,
        }
    }

    /// All bytes that were written.
    pub fn bytes(&self) -> &[u8]
        ensures { result.now ≡ self.now.bytes }
    {
        &self.bytes
    }
}

impl Sink for MemorySink {
    ghost sink_state = { memory_sink_state };

    fn put(&mut self, bytes: &[u8]) -> Result<(), SinkFail>
        ensures kind { (memory_sink_state self.new).can_lack ≡ (memory_sink_state self.old).can_lack }
        ensures later { self.old.failures ≤ self.new.failures }
        ensures count { self.new.failures < 2 ^ 64 }
        ensures wrote { OnOk result (Wrote (memory_sink_state self.old).written (memory_sink_state self.new).written bytes.now) }
        ensures refused { IfErr result (λ e. PutFails e bytes.now (memory_sink_state self.old) (memory_sink_state self.new)) }

        // The chosen calls fail and write nothing, and no other fails.
        ensures same_fails { self.new.fails ≡ self.old.fails }
        ensures calls { ¬ IsErrOf result SinkFail.Memory → self.new.calls ≡ next_count self.old.calls }
        ensures memory { IsErrOf result SinkFail.Memory → self.new ≡ self.old }
        ensures fails { IsErrOf result SinkFail.Failed ↔ Contains self.old.fails (next_count self.old.calls) }
        ensures nothing { IsErrOf result SinkFail.Failed → self.new.bytes ≡ self.old.bytes }
    {
        let call = self.calls.saturating_add(1);
        if self.fails.contains(&call) {
            self.calls = call;
            self.failures = self.failures.saturating_add(1);
            return Err(SinkFail::Failed);
        }
        if self.bytes.extend_from_slice(bytes).is_err() {
            return Err(SinkFail::Memory);
        }
        self.calls = call;
        Ok(())
    }
}
