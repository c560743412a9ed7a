//! A limit on the bytes of a vector file.
ghost use Rattle.std.specs.Prelude.{◌≡◌, ◌<◌, ◌-◌, ◌^◌, IsSome};

use base_io::{File, MemoryStore, Store};
use design_vectors::{RowText, VectorKind, VectorText, VectorsFail};
use std::alloc::{AllocError, Global};

/// The lines of vectors, each with LF, and what came behind the last.
type Read = (Vec<u8>, Result<bool, VectorsFail>);

// A store of one file `v`.
fn store_of(alloc: Global, bytes: &[u8]) -> Result<MemoryStore, AllocError> {
    let name = String::from_str(alloc, "v")?;
    let bytes = Vec::from_slice(alloc, bytes)?;
    let files = vec![in alloc; File { name, bytes }]?;
    Ok(MemoryStore::new(alloc, files, Vec::new(alloc)))
}

// The lines of the vectors of one bit, and what came behind the last.
fn read_rows(
    alloc: Global,
    store: &mut MemoryStore,
    text: &mut VectorText,
    line: &mut RowText,
) -> Option<Read>
    requires current { IsSome store.old.current }
    requires width { text.old.width ≡ 1 }
    requires line { line.old ≡ 1 }
{
    let mut row = vec![in alloc; false; 1].ok()?;
    let mut lines = Vec::new(alloc);
    'vectors: for _ in 0..9 {
        match text.next(store, &mut row) {
            Ok(true) => lines.extend_from_slice(line.line(&row)).ok()?,
            end => return Some((lines, end)),
        }
    }
    None
}

// The same of a text that wasn't read before.
fn read_text(alloc: Global, store: &mut MemoryStore, text: &mut VectorText) -> Option<Read>
    requires current { IsSome store.old.current }
    requires width { text.old.width ≡ 1 }
{
    let mut line = RowText::new(alloc, 1).ok()?;
    read_rows(alloc, store, text, &mut line)
}

// The same of a store's file, with a limit on its bytes.
fn read_store(alloc: Global, store: &mut MemoryStore, limit: u64) -> Option<Read>
    requires current { IsSome store.old.current }
    requires limit { limit < 2 ^ 64 - 1 }
{
    let mut text = VectorText::with_limit(alloc, 1, limit).ok()?;
    read_text(alloc, store, &mut text)
}

// The same of these bytes.
fn read_all(alloc: Global, bytes: &[u8], limit: u64) -> Option<Read>
    requires { limit < 2 ^ 64 - 1 }
{
    let mut store = store_of(alloc, bytes).ok()?;
    match store.start("v") {
        Ok(()) => read_store(alloc, &mut store, limit),
        Err(_) => None,
    }
}

pub fn vector_limit(alloc: Global) -> Option<bool> {
    let limit = Err(VectorsFail::Text {
        line: 3,
        kind: VectorKind::Limit,
    });
    let (lines, end) = read_all(alloc, b"0\n1\n0\n", 4)?;
    let within = lines.as_slice() == b"0\n1\n".as_slice() && end == limit;
    let (lines, end) = read_all(alloc, b"0\n1\n0\n", 6)?;
    Some(within && lines.as_slice() == b"0\n1\n0\n".as_slice() && end == Ok(false))
}
