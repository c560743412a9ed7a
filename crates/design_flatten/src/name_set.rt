//! Sets of names.

ghost use Rattle.std.specs.Prelude.{◌≡◌, [], length, OnOk};
ghost use Rattle.design_flatten.specs.Uses.{is_among};
ghost use Rattle.design_flatten.specs.NameSets.{with_name, number_in};

use indexmap::IndexSet;
use std::alloc::{AllocError, Global};
use std::marker::Model;

/// Names, each once, in the order in which they were added.
#[derive(Drop)]
pub struct NameSet<'a> {
    set: IndexSet<&'a [u8]>,
}

impl<'a> Model for NameSet<'a> {
    ghost use Rattle.std.specs.Prelude.{List, ℕ, map};

    ghost Value = { List (List ℕ) };

    ghost view = { λ n. map (λ k. k.now) n.set.keys };
}

impl<'a> NameSet<'a> {
    pub fn new(alloc: Global) -> Self
        ensures { result ≡ [] }
    {
        NameSet {
            set: IndexSet::new(alloc),
        }
    }

    /// Whether the name was added.
    pub fn contains(&self, name: &[u8]) -> bool
        ensures { result ≡ is_among self.now name.now }
    {
        self.set.contains(name)
    }

    /// How many there are.
    pub fn len(&self) -> usize
        ensures { result ≡ length self.now }
    {
        self.set.len()
    }

    /// The place of a name, or where it would go.
    pub fn number(&self, name: &[u8]) -> usize
        ensures { result ≡ number_in self.now name.now }
    {
        match self.set.get_index_of(name) {
            Some(number) => number,
            None => self.set.len(),
        }
    }

    /// Adds a name, if it is new.
    pub fn add(&mut self, name: &'a [u8]) -> Result<(), AllocError>
        ensures { OnOk result (self.new ≡ with_name self.old name.now) }
    {
        let _ = self.set.insert_full(name)?;
        Ok(())
    }
}
