//! Signals, numbered by first appearance.

ghost use Rattle.std.specs.List.{list_any};
ghost use Rattle.std.specs.Str.{bytes_eq};
ghost use Rattle.std.specs.Prelude.{◌++◌, ◌≡◌, ◌<◌, ◌≤◌, ◌∷◌, false, [], length, map, IfOk, OnOk, None, IfErr, MatchResult, vec_len};
ghost use Rattle.design_blif.specs.Names.{with_name, names_after, name_number, numbers, limit_at, is_long};
ghost use Rattle.design_blif.specs.Refusals.{IsRefusedAs};

use crate::kind::Refusal;
use base_lists::Items;
use design_netlist::{DesignKind, Name};
use indexmap::IndexSet;
use std::alloc::{AllocError, Global};
use std::marker::Model;

/// The most signals that a design may have.
pub const MOST_SIGNALS: usize = 65_535;

/// The most bytes of a signal's name.
pub const MOST_BYTES: usize = 255;

/// The names so far, each at its number.
#[derive(Drop)]
pub struct Names<'a> {
    set: IndexSet<&'a [u8]>,
}

impl<'a> Model for Names<'a> {
    ghost use Rattle.std.specs.Prelude.{List, ℕ, map, length, ◌≤◌};

    ghost Value = { List (List ℕ) };

    ghost view = { λ n. map (λ k. k.now) n.set.keys };

    ghost invariant = { λ n. length n.set.keys ≤ 65535 };
}

impl<'a> Names<'a> {
    pub fn new(alloc: Global) -> Self
        ensures { result ≡ [] }
    {
        Names {
            set: IndexSet::new(alloc),
        }
    }

    /// The number of a name, which is new if it hasn't stood before.
    pub fn number(&mut self, word: &'a [u8]) -> Result<u32, Refusal>
        ensures number { IfOk result (λ k. k ≡ name_number self.old word.now) }
        ensures ok { OnOk result (self.new ≡ with_name self.old word.now) }
        ensures within { OnOk result (length self.new ≤ 65535) }
        ensures short { OnOk result (is_long word.now ≡ false) }
        ensures refused { IfErr result (IsRefusedAs (limit_at self.old (word.now ∷ []))) }
    {
        if word.len() > MOST_BYTES {
            return Err(Refusal::Kind(DesignKind::Limit));
        }
        if let Some(index) = self.set.get_index_of(word) {
            return Ok(index as u32);
        }
        if self.set.len() >= MOST_SIGNALS {
            return Err(Refusal::Kind(DesignKind::Limit));
        }
        let (index, _) = self.set.insert_full(word)?;
        Ok(index as u32)
    }

    /// How many there are.
    pub fn len(&self) -> usize
        ensures len { result ≡ length self.now }
        ensures within { length self.now ≤ 65535 }
    {
        self.set.len()
    }

    /// The number of each word.
    pub fn numbers(&mut self, alloc: Global, words: &[&'a [u8]]) -> Result<Vec<u32>, Refusal>
        ensures len { IfOk result (λ ns. vec_len ns ≡ length words.now) }
        ensures numbers { IfOk result (λ ns. ns.items ≡ numbers self.old (map (λ w. w.now) words.now)) }
        ensures ok { OnOk result (self.new ≡ names_after self.old (map (λ w. w.now) words.now)) }
        ensures refused { MatchResult result (λ _. limit_at self.old (map (λ w. w.now) words.now) ≡ None)
            (IsRefusedAs (limit_at self.old (map (λ w. w.now) words.now))) }
    {
        let _len = self.len();
        let mut numbers = Vec::new(alloc);
        'words: for word in words {
            let number = self.number(word)?;
            numbers.push(number)?;
        }
        Ok(numbers)
    }

    /// A copy of the names.
    pub fn to_names(&self, alloc: Global) -> Result<Vec<Name>, AllocError>
        ensures { IfOk result (λ v. v.items ≡ self.now) }
    {
        let words = self.set.as_slice();
        copies(alloc, words)
    }
}

/// The names of the models so far, in order.
#[derive(Drop)]
pub struct ModelNames<'a> {
    set: IndexSet<&'a [u8]>,
}

impl<'a> Model for ModelNames<'a> {
    ghost use Rattle.std.specs.Prelude.{List, ℕ, map};

    ghost Value = { List (List ℕ) };

    ghost view = { λ n. map (λ k. k.now) n.set.keys };
}

impl<'a> ModelNames<'a> {
    pub fn new(alloc: Global) -> Self
        ensures { result ≡ [] }
    {
        ModelNames {
            set: IndexSet::new(alloc),
        }
    }

    /// Whether a model has the name.
    pub fn contains(&self, word: &[u8]) -> bool
        ensures { result ≡ list_any (bytes_eq word.now) self.now }
    {
        match self.set.get_index_of(word) {
            Some(_) => true,
            None => false,
        }
    }

    /// Adds the name of a model.
    pub fn push(&mut self, word: &'a [u8]) -> Result<(), AllocError>
        requires { list_any (bytes_eq word.now) self.old ≡ false }
        ensures { OnOk result (self.new ≡ self.old ++ word.now ∷ []) }
    {
        let _ = self.set.insert_full(word)?;
        Ok(())
    }
}

/// Copies of words.
pub fn copies(alloc: Global, words: &[&[u8]]) -> Result<Vec<Name>, AllocError>
    ensures { IfOk result (λ v. v.items ≡ map (λ w. w.now) words.now) }
{
    let mut names = Vec::new(alloc);
    'words: for word in words {
        names.push(Items::new(Vec::from_slice(alloc, word)?))?;
    }
    Ok(names)
}
