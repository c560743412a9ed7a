//! The store of files of the system, and standard output.

use base_io::{FileStore, Sink, StdSink, Store, StoreFail, read_within};
use std::alloc::Global;
use std::fs;

/// Lies in the folder that the program runs in, for as long as it runs.
const PATH: &str = "example_parts_file_store";

// Whether the store reads the file piece by piece, and a folder not at all.
fn reads(store: &mut FileStore<HostRuntime>) -> Option<bool> {
    let mut into = [255u8; 4];
    store.start(PATH).ok()?;
    let count = store.read(&mut into[..3]).ok()?;
    let three = count == 3 && into == [0, 1, 2, 255];
    let count = store.read(&mut into).ok()?;
    let four = count == 4 && into == [3, 4, 5, 6];
    // A folder opens, but can't be read.
    store.start(".").ok()?;
    let folder = store.read(&mut into) == Err(StoreFail::Failed);
    Some(three && four && folder && into == [3, 4, 5, 6])
}

// Bytes that are more than a store reads at once.
fn many_bytes(alloc: Global) -> Option<Vec<u8>> {
    let mut text = Vec::new(alloc);
    'bytes: for i in 0..40_000u32 {
        text.push((i % 251) as u8).ok()?;
    }
    Some(text)
}

// Whether the store reads these bytes of the file in pieces and whole, within a limit, and not once the file is gone.
fn is_right(rt: &HostRuntime, store: &mut FileStore<HostRuntime>, bytes: &[u8]) -> Option<bool> {
    let alloc: Global = rt.alloc();
    let pieces = reads(store)?;
    let short = read_within(alloc, store, PATH, 39_999).ok()?.is_none();
    let whole = read_within(alloc, store, PATH, 40_000).ok()??;
    fs::remove_file(rt, PATH).ok()?;
    let missing = store.start(PATH) == Err(StoreFail::Failed);
    Some(pieces && short && whole.as_slice() == bytes && missing)
}

pub fn file_store(rt: &HostRuntime) -> Option<bool> {
    let alloc: Global = rt.alloc();
    let bytes = many_bytes(alloc)?;
    fs::write(rt, PATH, bytes.as_slice()).ok()?;
    let mut store = FileStore::new(alloc, rt.clone().ok()?);
    is_right(rt, &mut store, &bytes)
}

pub fn std_sink(rt: &HostRuntime) -> Option<bool> {
    let mut sink = StdSink::new(rt.clone().ok()?);
    let line = sink.put(b"to standard output\n") == Ok(());
    Some(line && sink.put(b"") == Ok(()))
}
