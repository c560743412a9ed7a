//! Standard output as a sink.
ghost use Rattle.std.specs.Prelude.{◌≡◌};
ghost use Rattle.base_io.specs.StdSink.{std_sink_state};

use crate::{Sink, SinkFail};
use std::marker::Model;

/// Standard output, seen by contracts as its count of failures. It tells none of its bytes, and never
/// answers `Memory`.
#[derive(Drop)]
pub struct StdSink<R: Print + Drop> {
    rt: R,
    failures: u64,
}

impl<R: Print + Drop> Model for StdSink<R> {
    ghost use Rattle.std.specs.Prelude.{ℕ, ◌^◌, ◌<◌};

    ghost Value = { ℕ };

    ghost view = { λ a. a.failures };

    ghost invariant = { λ a. a.failures < 2 ^ 64 };
}

impl<R: Print + Drop> StdSink<R> {
    /// The standard output of this runtime.
    pub fn new(rt: R) -> Self
        ensures { result ≡ 0 }
    {
        StdSink { rt, failures: 0 }
    }
}

impl<R: Print + Drop> Sink for StdSink<R> {
    ghost sink_state = { std_sink_state };

    fn put(&mut self, bytes: &[u8]) -> Result<(), SinkFail> {
        match self.rt.write_all(bytes) {
            Ok(()) => Ok(()),
            Err(_) => {
                self.failures = self.failures.saturating_add(1);
                Err(SinkFail::Failed)
            }
        }
    }
}
