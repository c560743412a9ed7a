//! The outside of the program: a store of files that are read, and a sink of bytes that are written.
//!
//! [`FileStore`] and [`StdSink`] stand over the system. [`MemoryStore`], [`MemorySink`] and
//! [`CutSink`] are kept in memory and tell their bytes; tests choose which of their calls fail.
//!
//! The traits say what every file store and every output must do: which names were asked, which bytes come, what was written, and
//! that a failure is answered only where a count rose, which stays below 2^64 and never falls. A store tells of a name the bytes
//! of its file, that there is no such file, or nothing; a file that is told to be absent is never started. `read_within` reads at
//! most one byte beyond its limit, whatever it answers. `MemoryStore`, `MemorySink` and `CutSink` are proved to fail at exactly
//! the chosen calls; `FileStore` and `StdSink` are proved against the traits.
#![tactic(auto)]

mod cut_sink;
mod file_store;
mod memory_sink;
mod memory_store;
mod sink;
mod std_sink;
mod store;
mod whole;

pub use cut_sink::CutSink;
pub use file_store::FileStore;
pub use memory_sink::MemorySink;
pub use memory_store::{File, MemoryStore};
pub use sink::{Sink, SinkFail};
pub use std_sink::StdSink;
pub use store::{Store, StoreFail};
pub use whole::read_within;
