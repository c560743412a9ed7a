//! Files of the system as a store.
ghost use Rattle.std.specs.Prelude.{◌≡◌, [], None};
ghost use Rattle.base_io.specs.FileStore.{file_store_state};

use crate::{Store, StoreFail};
use std::alloc::Global;
use std::fs;
use std::io::Read;
use std::marker::Model;
use std::rt::Files;

/// How many bytes one read asks the system for at most.
const BLOCK: usize = 16_384;

// The file that is read, and how many of its bytes were read.
#[derive(Drop)]
struct Opened<F: Drop> {
    name: String,
    at: u64,
    file: F,
}

/// Files of the system. It tells none of their bytes.
///
/// A file that can't be opened or read is a failure.
#[derive(Drop)]
pub struct FileStore<R: Files + Drop> {
    rt: R,
    alloc: Global,
    asked: Vec<String>,
    current: Option<Opened<R::File>>,
    /// Where `read` was asked last, for contracts alone.
    read_at: Option<u64>,
    failures: u64,
}

impl<R: Files + Drop> Model for FileStore<R> {
    ghost use Rattle.std.specs.Prelude.{◌^◌, ◌<◌, map, option_map, string_bytes};
    ghost use Rattle.base_io.specs.FileStore.{SystemFiles};

    ghost Value = { SystemFiles };

    ghost view = { λ a. record {
      asked = map string_bytes a.asked.items;
      current = option_map (λ o. record { name = string_bytes o.name; at = o.at }) a.current;
      read_at = a.read_at;
      failures = a.failures;
    } };

    ghost invariant = { λ a. a.failures < 2 ^ 64 };
}

impl<R: Files + Drop> FileStore<R> {
    /// The files of this runtime, of which none is current.
    pub fn new(alloc: Global, rt: R) -> Self
        ensures { result ≡ record { asked = []; current = None; read_at = None; failures = 0 } }
    {
        FileStore {
            rt,
            alloc,
            asked: Vec::new(alloc),
            current: None,
            read_at: None,
            failures: 0,
        }
    }
}

impl<R: Files + Drop> Store for FileStore<R> {
    ghost store_state = { file_store_state };

    fn start(&mut self, name: &str) -> Result<(), StoreFail> {
        let Ok(asked) = String::from_str(self.alloc, name) else {
            return Err(StoreFail::Memory);
        };
        let Ok(current) = String::from_str(self.alloc, name) else {
            return Err(StoreFail::Memory);
        };
        if self.asked.push(asked).is_err() {
            return Err(StoreFail::Memory);
        }
        self.read_at = None;
        match fs::open(&self.rt, name) {
            Ok(file) => {
                self.current = Some(Opened {
                    name: current,
                    at: 0,
                    file,
                });
                Ok(())
            }
            Err(_) => {
                self.failures = self.failures.saturating_add(1);
                self.current = None;
                Err(StoreFail::Failed)
            }
        }
    }

    // The system may write into its buffer even where it fails, so it gets one of our own.
    fn read(&mut self, into: &mut [u8]) -> Result<usize, StoreFail> {
        let Some(mut opened) = self.current.take() else {
            unreachable!()
        };
        self.read_at = Some(opened.at);
        let mut block = [0u8; BLOCK];
        let room = into.len().min(BLOCK);
        if let Ok(count) = opened.file.read(&mut block[..room]) {
            if let Some(at) = opened.at.checked_add(count as u64) {
                into[..count].copy_from_slice(&block[..count]);
                opened.at = at;
                self.current = Some(opened);
                return Ok(count);
            }
        }
        self.failures = self.failures.saturating_add(1);
        Err(StoreFail::Failed)
    }
}
