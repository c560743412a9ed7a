//! What a table's pin reads, and the lists of these.

ghost use Rattle.std.specs.Prelude.{◌≡◌, ◌<◌, ◌≤◌, ◌++◌, ◌∷◌, [], length};

use smallvec::SmallVec;
use std::alloc::Global;
use std::marker::Model;

/// What a pin of a table reads, or an output of a network.
#[derive(Clone, Copy, Debug, PartialEq, Eq)]
pub enum Source {
    /// The input of the network with this number.
    Input(u32),
    /// The output of the table with this number.
    Table(u32),
}

impl Default for Source {
    ghost use Rattle.map_network.specs.declared.source.Source.TheVariants.{Input};

    fn default() -> Self
        ensures { result ≡ Input 0 }
    {
        Source::Input(0)
    }
}

/// At most six sources, which contracts see as a list. They take no memory beside the value itself.
#[derive(Debug, Drop)]
pub struct Sources {
    list: SmallVec<Source, 6>,
}

impl Model for Sources {
    ghost use Rattle.std.specs.Prelude.{◌≡◌, ◌≤◌, List, length};
    ghost use Rattle.map_network.specs.declared.source.Source.{Source};

    ghost Value = { List Source };

    ghost view = { λ s. s.list.items };

    ghost invariant = { λ s. (s.list.capacity ≡ 6) × (length s.list.items ≤ 6) };
}

impl Sources {
    /// No sources. Takes no memory.
    pub fn new(alloc: Global) -> Self
        ensures { result ≡ [] }
    {
        Sources {
            list: SmallVec::new(alloc),
        }
    }

    /// The sources, in order.
    pub fn as_slice(&self) -> &[Source]
        ensures sources { result.now ≡ self.now }
        ensures few { length self.now ≤ 6 }
    {
        self.list.as_slice()
    }

    /// Adds a source at the end. Takes no memory.
    pub fn push(&mut self, source: Source)
        requires { length self.old < 6 }
        ensures { self.new ≡ self.old ++ source ∷ [] }
    {
        self.list.push_reserved(source);
    }
}
