//! Ways through the tree, and places in it.
ghost use Rattle.std.specs.Prelude.{◌≤◌};

/// What is numbered.
#[derive(Clone, Copy)]
pub enum Kind {
    Wires,
    Nodes,
    Tables,
    Crosses,
}

/// The way from the root to a node or a table: at each step the child's position.
#[derive(Clone, Copy)]
pub struct Way {
    pub steps: [u32; 4],
    pub len: usize,
    pub ghost short: { len ≤ 4 },
}

/// Where a number is: the way to its node or table, and its position among the own numbers there.
#[derive(Clone, Copy)]
pub struct Site {
    pub way: Way,
    pub position: u32,
}

/// How many numbers of a kind a node has of its own, and how many each child has with all below it.
#[derive(Clone, Copy)]
pub struct Weight {
    pub own: u32,
    pub each: u32,
}

/// The weights of the nodes of each depth, for one kind of numbers.
#[derive(Clone, Copy)]
pub struct Weights {
    pub root: Weight,
    pub modules: Weight,
    pub chips: Weight,
    pub hextants: Weight,
}

/// A node's crossbar: its first wire, its ports and lines, how many children it has, how many ports each of
/// them has, and how many wires with all below it.
#[derive(Clone, Copy)]
pub struct Crossbar {
    pub first: u32,
    pub ports: u32,
    pub lines: u32,
    pub children: u32,
    pub each: u32,
    pub step: u32,
}

/// What is read of a name: the way of its words but the last, and where the last begins.
#[derive(Clone, Copy)]
pub struct Read {
    pub way: Way,
    pub last: usize,
}
