//! A vector that contracts see as the list of its elements.
//!
//! Public types of the other crates that a definition speaks of keep their lists as [`Items`].
#![tactic(auto)]

ghost use Rattle.std.specs.Prelude.{◌≡◌, ◌++◌, ◌∷◌, [], OnOk, IfErr};

use std::alloc::{AllocFailed, Global};
use std::marker::Model;

/// A vector that contracts see as the list of its elements.
#[derive(Debug, Drop)]
pub struct Items<T> {
    list: Vec<T>,
}

impl<T> Model for Items<T> {
    ghost use Rattle.std.specs.Prelude.{List};

    ghost Value = { List T };

    ghost view = { λ a. a.list.items };
}

impl<T> Items<T> {
    /// The elements of a vector, in its order. Takes no memory.
    pub fn new(list: Vec<T>) -> Self
        ensures { result ≡ list.items }
    {
        Items { list }
    }

    /// No elements. Takes no memory until the first `push`.
    pub fn empty(alloc: Global) -> Self
        ensures { result ≡ [] }
    {
        Items {
            list: Vec::new(alloc),
        }
    }

    /// The elements, in order.
    pub fn as_slice(&self) -> &[T]
        ensures { result.now ≡ self.now }
    {
        &self.list
    }

    /// Adds an element at the end. Where memory is lacking, nothing changes and the element comes back.
    pub fn push(&mut self, x: T) -> Result<(), AllocFailed<T>>
        ensures pushed { OnOk result (self.new ≡ self.old ++ x ∷ []) }
        ensures kept { IfErr result (λ _. self.new ≡ self.old) }
    {
        self.list.push(x)
    }

    /// The vector itself. Takes no memory.
    pub fn into_vec(self) -> Vec<T>
        ensures { result.items ≡ self }
    {
        self.list
    }
}
