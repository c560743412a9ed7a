//! Files in memory as a store.
ghost use Rattle.std.specs.Prelude.{◌≡◌, ◌⊎◌, ◌↔◌, ◌+◌, ◌^◌, ◌<◌, ◌≤◌, [], ◌∷◌, ◌++◌, Some, None, length, drop, min, option_copied, find};
ghost use Rattle.std.specs.Prelude.{string_bytes, bytes_eq, is_some, IsSome, IsNone, IfSome, IfOk, IfErr, OnOk, IsErrOf, Contains};
ghost use Rattle.base_io.specs.Counts.{next_count};
ghost use Rattle.base_io.specs.Told.{IsPresent};
ghost use Rattle.base_io.specs.Store.{StartFails, ReadFails, AreNext, moved, place_of, rest_of};
ghost use Rattle.base_io.specs.MemoryStore.{bytes_named, memory_store_state, room_of};

use crate::{Store, StoreFail};
use std::alloc::Global;
use std::marker::Model;

/// A file of a store in memory.
#[derive(Drop)]
pub struct File {
    /// The name that `start` finds it by.
    pub name: String,
    /// What it holds.
    pub bytes: Vec<u8>,
}

// The file that is read, and how many of its bytes were read.
#[derive(Drop)]
struct Opened {
    name: String,
    at: usize,
}

/// Files in memory, whose contents are told.
///
/// The calls of `start` and `read` are numbered together from 1. Those in `fails` answer `Failed`,
/// and so does `start` of a name that no file has; no other call does. A `start` that answers
/// `Memory` takes no number. Of two files of one name the first is meant.
#[derive(Drop)]
pub struct MemoryStore {
    alloc: Global,
    files: Vec<File>,
    fails: Vec<u64>,
    most: Option<usize>,
    calls: u64,
    asked: Vec<String>,
    current: Option<Opened>,
    /// Where `read` was asked last, for contracts alone.
    read_at: Option<usize>,
    failures: u64,
}

impl Model for MemoryStore {
    ghost use Rattle.base_io.specs.MemoryStore.{MemoryFiles};

    ghost Value = { MemoryFiles };

    ghost use Rattle.base_io.specs.MemoryStoreInside.{memory_files, IsKept};

    ghost view = { memory_files };

    ghost invariant = { IsKept };
}

impl MemoryStore {
    /// A store of these files, whose reads give as many bytes as the slice takes and the file has.
    pub fn new(alloc: Global, files: Vec<File>, fails: Vec<u64>) -> Self
        ensures { result ≡ record {
          files = files.items;
          fails = fails.items;
          most = None;
          calls = 0;
          asked = [];
          current = None;
          read_at = None;
          failures = 0;
        } }
    {
        MemoryStore {
            alloc,
            files,
            fails,
            most: None,
            calls: 0,
            asked: Vec::new(alloc),
            current: None,
            read_at: None,
            failures: 0,
        }
    }

    /// The same, but a read gives at most `most` bytes, which isn't 0.
    pub fn in_pieces(alloc: Global, files: Vec<File>, fails: Vec<u64>, most: usize) -> Self
        requires { 0 < most }
        ensures { result ≡ record {
          files = files.items;
          fails = fails.items;
          most = Some most;
          calls = 0;
          asked = [];
          current = None;
          read_at = None;
          failures = 0;
        } }
    {
        MemoryStore {
            alloc,
            files,
            fails,
            most: Some(most),
            calls: 0,
            asked: Vec::new(alloc),
            current: None,
            read_at: None,
            failures: 0,
        }
    }
}

// The first file of this name.
fn find_file<'a>(files: &'a [File], name: &str) -> Option<&'a File>
    ensures { option_copied result ≡ find (λ f. bytes_eq (string_bytes f.name) name.now) files.now }
{
    files.iter().find(|f| f.name.as_str() == name)
}

// Whether there is a file of this name.
fn has_file(files: &[File], name: &str) -> bool
    ensures { result ≡ is_some (bytes_named files.now name.now) }
{
    find_file(files, name).is_some()
}

// How many bytes one read has room for.
fn room_for(most: Option<usize>, len: usize) -> usize
    ensures { result ≡ room_of most len }
{
    match most {
        Some(most) => most.min(len),
        None => len,
    }
}

// Copies the bytes from a place on, at most `room` of them.
fn copy_from(bytes: &[u8], at: usize, into: &mut [u8], room: usize) -> usize
    requires some { 0 < room }
    requires fits { room ≤ length into.old }
    ensures count { result ≡ min room (length (drop at bytes.now)) }
    ensures fits { at + result < 2 ^ 64 }
    ensures next { AreNext result into.new (drop at bytes.now) }
{
    if bytes.len() <= at {
        return 0;
    }
    let rest = &bytes[at..];
    let count = room.min(rest.len());
    into[..count].copy_from_slice(&rest[..count]);
    count
}

impl Store for MemoryStore {
    ghost store_state = { memory_store_state };

    fn start(&mut self, name: &str) -> Result<(), StoreFail>
        ensures contents { (memory_store_state self.new).contents ≡ (memory_store_state self.old).contents }
        ensures later { self.old.failures ≤ self.new.failures }
        ensures count { self.new.failures < 2 ^ 64 }
        ensures opened { OnOk result (self.new.current ≡ Some (record { name = name.now; at = 0 })) }
        ensures asked { OnOk result (self.new.asked ≡ self.old.asked ++ name.now ∷ []) }
        ensures unread { OnOk result (self.new.read_at ≡ None) }
        ensures present { OnOk result (IsPresent ((memory_store_state self.old).contents name.now)) }
        ensures refused { IfErr result (λ e. StartFails e name.now (memory_store_state self.old) (memory_store_state self.new)) }

        // The chosen calls fail, and so does the start of a name that isn't there; no other does.
        ensures files { self.new.files ≡ self.old.files }
        ensures same_fails { self.new.fails ≡ self.old.fails }
        ensures most { self.new.most ≡ self.old.most }
        ensures calls { ¬ IsErrOf result StoreFail.Memory → self.new.calls ≡ next_count self.old.calls }
        ensures memory { IsErrOf result StoreFail.Memory → self.new ≡ self.old }
        ensures fails { IsErrOf result StoreFail.Failed → Contains self.old.fails (next_count self.old.calls)
            ⊎ IsNone (bytes_named self.old.files name.now) }
        ensures succeeds { OnOk result (¬ Contains self.old.fails (next_count self.old.calls)
            × IsSome (bytes_named self.old.files name.now)) }
    {
        let Ok(asked) = String::from_str(self.alloc, name) else {
            return Err(StoreFail::Memory);
        };
        let Ok(current) = String::from_str(self.alloc, name) else {
            return Err(StoreFail::Memory);
        };
        if self.asked.push(asked).is_err() {
            return Err(StoreFail::Memory);
        }
        self.calls = self.calls.saturating_add(1);
        self.current = None;
        self.read_at = None;
        if self.fails.contains(&self.calls) {
            self.failures = self.failures.saturating_add(1);
            return Err(StoreFail::Failed);
        }
        if !has_file(&self.files, name) {
            self.failures = self.failures.saturating_add(1);
            return Err(StoreFail::Failed);
        }
        self.current = Some(Opened {
            name: current,
            at: 0,
        });
        Ok(())
    }

    fn read(&mut self, into: &mut [u8]) -> Result<usize, StoreFail>
        requires room { 0 < length into.old }
        requires open { IsSome self.old.current }

        ensures contents { (memory_store_state self.new).contents ≡ (memory_store_state self.old).contents }
        ensures later { self.old.failures ≤ self.new.failures }
        ensures count { self.new.failures < 2 ^ 64 }
        ensures asked { self.new.asked ≡ self.old.asked }
        ensures asked_at { self.new.read_at ≡ place_of (memory_store_state self.old) }
        ensures room { IfOk result (λ n. n ≤ length into.new) }
        ensures place { IfOk result (λ n. self.new.current ≡ moved self.old.current n) }
        ensures bytes { IfOk result (λ n. IfSome (rest_of (memory_store_state self.old)) (AreNext n into.new)) }
        ensures kept { IfErr result (λ _. into.new ≡ into.old) }
        ensures refused { IfErr result (λ e. ReadFails e (memory_store_state self.old) (memory_store_state self.new)) }

        // The chosen calls fail, and no other does; as many bytes come as there is room for.
        ensures files { self.new.files ≡ self.old.files }
        ensures same_fails { self.new.fails ≡ self.old.fails }
        ensures most { self.new.most ≡ self.old.most }
        ensures calls { self.new.calls ≡ next_count self.old.calls }
        ensures fails { IsErrOf result StoreFail.Failed ↔ Contains self.old.fails (next_count self.old.calls) }
        ensures gives { IfOk result (λ n. IfSome (rest_of (memory_store_state self.old))
            (λ rest. n ≡ min (room_of self.old.most (length into.new)) (length rest))) }
    {
        self.calls = self.calls.saturating_add(1);
        let Some(mut opened) = self.current.take() else {
            unreachable!()
        };
        self.read_at = Some(opened.at);
        if self.fails.contains(&self.calls) {
            self.failures = self.failures.saturating_add(1);
            return Err(StoreFail::Failed);
        }
        let Some(file) = find_file(&self.files, opened.name.as_str()) else {
            unreachable!()
        };
        let room = room_for(self.most, into.len());
        let count = copy_from(&file.bytes, opened.at, into, room);
        opened.at = opened.at.saturating_add(count);
        self.current = Some(opened);
        Ok(count)
    }
}
