//! A buffer of one size as a sink.
ghost use Rattle.std.specs.Prelude.{◌≡◌, ◌+◌, ◌^◌, ◌<◌, ◌≤◌, ◌↔◌, [], ◌++◌, length, take, OnOk, IfOk, IfErr, IsErrOf};
ghost use Rattle.base_io.specs.Sink.{Wrote, PutFails};
ghost use Rattle.base_io.specs.CutSink.{cut_sink_state};

use crate::{Sink, SinkFail};
use std::alloc::{AllocError, Global};
use std::marker::Model;

/// A sink that takes so many bytes in all, and no more, and tells them.
///
/// All its room is taken when it is made, so it never answers `Memory`.
#[derive(Drop)]
pub struct CutSink {
    buffer: Vec<u8>,
    used: usize,
    failures: u64,
}

impl Model for CutSink {
    ghost use Rattle.std.specs.Prelude.{◌≤◌, take, length};
    ghost use Rattle.base_io.specs.CutSink.{CutBytes};

    ghost Value = { CutBytes };

    ghost view = { λ a. record { bytes = take a.used a.buffer.items; most = length a.buffer.items; failures = a.failures } };

    ghost invariant = { λ a. a.used ≤ length a.buffer.items };
}

impl CutSink {
    /// A sink with nothing written and room for `most` bytes, which is taken at once.
    pub fn new(alloc: Global, most: usize) -> Result<CutSink, AllocError>
        ensures { IfOk result (λ s. s ≡ record { bytes = []; most = most; failures = 0 }) }
    {
        let buffer = vec![in alloc; 0u8; most]?;
        Ok(CutSink {
            buffer,
            used: 0,
            failures: 0,
        })
    }

    /// All bytes that were written.
    pub fn bytes(&self) -> &[u8]
        ensures { result.now ≡ self.now.bytes }
    {
        &self.buffer[..self.used]
    }
}

impl Sink for CutSink {
    ghost sink_state = { cut_sink_state };

    fn put(&mut self, bytes: &[u8]) -> Result<(), SinkFail>
        ensures kind { (cut_sink_state self.new).can_lack ≡ (cut_sink_state self.old).can_lack }
        ensures later { self.old.failures ≤ self.new.failures }
        ensures count { self.new.failures < 2 ^ 64 }
        ensures wrote { OnOk result (Wrote (cut_sink_state self.old).written (cut_sink_state self.new).written bytes.now) }
        ensures refused { IfErr result (λ e. PutFails e bytes.now (cut_sink_state self.old) (cut_sink_state self.new)) }

        // What fits is written, and it fails exactly where not all does.
        ensures most { self.new.most ≡ self.old.most }
        ensures bytes { self.new.bytes ≡ take self.old.most (self.old.bytes ++ bytes.now) }
        ensures fails { IsErrOf result SinkFail.Failed ↔ (self.old.most < length self.old.bytes + length bytes.now) }
    {
        let count = bytes.len().min(self.buffer.len() - self.used);
        let end = self.used + count;
        self.buffer[self.used..end].copy_from_slice(&bytes[..count]);
        self.used = end;
        if count < bytes.len() {
            self.failures = self.failures.saturating_add(1);
            return Err(SinkFail::Failed);
        }
        Ok(())
    }
}
