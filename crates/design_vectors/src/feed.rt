//! The bytes that a store gave and that nobody has looked at yet.

ghost use Rattle.std.specs.Prelude.{◌≡◌, ◌≤◌, ◌<◌, [], length, drop, IfOk, IfErr, IfSome, IsSome};
ghost use Rattle.base_io.specs.Store.{ReadFails, moved, place_of, rest_of};
ghost use Rattle.design_vectors.specs.Readings.{bytes_ahead};

use base_io::{Store, StoreFail};
use std::alloc::{AllocError, Global};
use std::marker::Model;

/// How many bytes are asked of a store at once.
const BLOCK: usize = 65536;

/// Bytes of a file that were read and not looked at. Contracts see them as a list, of at most 65,536.
#[derive(Drop)]
pub struct Feed {
    buffer: Vec<u8>,
    from: usize,
    to: usize,
}

impl Model for Feed {
    ghost use Rattle.std.specs.Prelude.{◌≡◌, ◌≤◌, ℕ, List, take, drop, length};

    ghost Value = { List ℕ };

    ghost view = { λ f. drop f.from (take f.to f.buffer.items) };

    ghost invariant = { λ f. (f.from ≤ f.to) × (f.to ≤ length f.buffer.items) × (length f.buffer.items ≡ 65536) };
}

impl Feed {
    /// No bytes, with a buffer of 65,536.
    pub fn new(alloc: Global) -> Result<Self, AllocError>
        ensures { IfOk result (λ f. f ≡ []) }
    {
        let buffer = vec![in alloc; 0u8; BLOCK]?;
        Ok(Feed {
            buffer,
            from: 0,
            to: 0,
        })
    }

    /// The bytes, in order.
    pub fn unread(&self) -> &[u8]
        ensures bytes { result.now ≡ self.now }
        ensures room { length self.now ≤ 65536 }
    {
        &self.buffer[self.from..self.to]
    }

    /// Takes the first bytes off.
    pub fn skip(&mut self, count: usize)
        requires { count ≤ length self.old }
        ensures bytes { self.new ≡ drop count self.old }
        ensures room { length self.new ≤ 65536 }
    {
        self.from += count;
    }

    /// Reads the next bytes of the current file: none at its end alone.
    pub fn fill<S: Store>(&mut self, store: &mut S) -> Result<usize, StoreFail>
        requires unread { self.old ≡ [] }
        requires current { IsSome (S.store_state store.old).current }

        ensures contents { (S.store_state store.new).contents ≡ (S.store_state store.old).contents }
        ensures later { (S.store_state store.old).failures ≤ (S.store_state store.new).failures }
        ensures asked { (S.store_state store.new).asked ≡ (S.store_state store.old).asked }
        ensures asked_at { (S.store_state store.new).read_at ≡ place_of (S.store_state store.old) }
        ensures room { length self.new ≤ 65536 }
        ensures count { IfOk result (λ n. length self.new ≡ n) }
        ensures place { IfOk result (λ n. (S.store_state store.new).current ≡ moved (S.store_state store.old).current n) }
        ensures within { IfOk result (λ n. IfSome (rest_of (S.store_state store.old)) (λ rest. n ≤ length rest)) }
        ensures bytes { IfOk result (λ _. rest_of (S.store_state store.old) ≡ bytes_ahead self.new (S.store_state store.new)) }
        ensures at_end { IfOk result (λ n. n ≡ 0 → IfSome (rest_of (S.store_state store.old)) (λ rest. rest ≡ [])) }
        ensures refused { IfErr result (λ e. ReadFails e (S.store_state store.old) (S.store_state store.new)) }
    {
        self.from = 0;
        self.to = 0;
        let count = store.read(&mut self.buffer)?;
        self.to = count;
        Ok(count)
    }
}
