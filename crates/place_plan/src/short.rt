//! Needs, and what is said of the first one that isn't met.
ghost use Rattle.std.specs.Prelude.{◌≡◌, []};
ghost use Rattle.place_plan.specs.declared.short.PlaceFail.TheVariants.{Memory};

use base_lists::Items;
use machine_shape::{Node, Wire};
use std::alloc::{AllocError, Global};

/// How many of a resource are wanted, and how many there are.
#[derive(Clone, Copy, Debug, PartialEq, Eq)]
pub struct Need {
    pub need: u64,
    pub have: u64,
}

/// The number of a net: k for input k, and the number of inputs plus j for table j.
#[derive(Clone, Copy, Debug, PartialEq, Eq, PartialOrd, Ord)]
pub struct Net(pub u32);

/// The port that a net has at a node that it crosses.
#[derive(Clone, Copy, Debug, PartialEq, Eq)]
pub struct Port {
    pub node: Node,
    pub net: Net,
    pub wire: Wire,
}

/// The line that a net has at a node that it visits.
#[derive(Clone, Copy, Debug, PartialEq, Eq)]
pub struct Visit {
    pub node: Node,
    pub net: Net,
    pub line: Wire,
}

/// What nets and tables want of a machine.
#[derive(Clone, Copy, Debug, PartialEq, Eq)]
pub enum Resource {
    Tables,
    Pins,
    Ports,
    Lines,
}

/// The first short resource.
#[derive(Debug, Drop)]
pub struct Short {
    pub resource: Resource,
    /// The node where it is short: the root for tables and pins.
    pub node: Node,
    /// How many are wanted; for lines, how many nets the set has.
    pub need: u64,
    /// How many there are; for lines, how many serve at least one net of the set. It is below `need`.
    pub have: u64,
    /// For lines, the numbers of a set of nets that shows that they are short, ascending; empty for the others.
    pub nets: Items<u32>,
}

/// Whether there is room.
#[derive(Debug, Drop)]
pub enum Room {
    /// There is: the port of each net at each node that it crosses, and its line at each node that it visits.
    Enough {
        ports: Vec<Port>,
        visits: Vec<Visit>,
    },
    /// There is none: this is the first short resource.
    Lacks(Short),
}

/// Why there is no place.
#[derive(Debug, Drop)]
pub enum PlaceFail {
    /// There is no room: this is the first short resource.
    Short(Short),
    /// Memory is wanting.
    Memory,
}

impl From<AllocError> for PlaceFail {
    ghost from_gives = { λ _ e. e ≡ Memory };

    fn from(_e: AllocError) -> PlaceFail {
        PlaceFail::Memory
    }
}

/// That a resource of the root is short.
pub fn short_of(alloc: Global, resource: Resource, need: Need) -> Short
    ensures { result ≡ record { resource = resource; node = record { 0 = 0 }; need = need.need; have = need.have; nets = [] } }
{
    Short {
        resource,
        node: Node(0),
        need: need.need,
        have: need.have,
        nets: Items::empty(alloc),
    }
}
