//! Bytes that are written.
ghost use Rattle.std.specs.Prelude.{◌≡◌, ◌^◌, ◌<◌, ◌≤◌, IfErr, OnOk};
ghost use Rattle.base_io.specs.Sink.{SinkState, Wrote, PutFails};

/// Why a sink refuses.
#[derive(Clone, Copy, Debug, PartialEq, Eq)]
pub enum SinkFail {
    /// The sink failed, and counted it. A prefix of the bytes may have been written.
    Failed,
    /// There was no memory: nothing was written.
    Memory,
}

/// Bytes that are written, one piece after another.
///
/// Contracts see the bytes written where a sink tells them, a count of failures, which is a `u64` and
/// never falls, and whether the sink can answer `Memory` at all, which no call changes.
pub trait Sink {
    ghost sink_state: { Self → SinkState };

    /// Writes all these bytes behind those that were written before.
    ///
    /// After `Failed` the count rose and a prefix of them was written. After `Memory` all is as it
    /// was; a sink that can't answer it doesn't.
    fn put(&mut self, bytes: &[u8]) -> Result<(), SinkFail>
        ensures kind { (sink_state self.new).can_lack ≡ (sink_state self.old).can_lack }
        ensures later { (sink_state self.old).failures ≤ (sink_state self.new).failures }
        ensures count { (sink_state self.new).failures < 2 ^ 64 }
        ensures wrote { OnOk result (Wrote (sink_state self.old).written (sink_state self.new).written bytes.now) }
        ensures refused { IfErr result (λ e. PutFails e bytes.now (sink_state self.old) (sink_state self.new)) };
}
