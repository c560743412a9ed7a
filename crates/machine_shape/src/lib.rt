//! The shape of a machine: its wires, nodes, tables and crosspoints, their numbers and their names.
//!
//! A machine is a tree: one root, modules below it, chips in each module, hextants in each chip, and tables in each hextant.
//! Each node has one crossbar, with one crosspoint for each pair of a tap and a line. All are numbered by one walk over the
//! tree, a node before its children.
//!
//! Each number of a wire has one meaning, and `Shape::meaning` tells it: a pin of the machine, a line or a port of a node, or a
//! pin of a table. Taps ascend; a crosspoint and its two ends determine each other: its tap and its line are a tap and a line
//! of its node, and each tap and line of a node have a crosspoint there; the crossbars are a tree; names and numbers are one to
//! one, and the name of a chip, of a hextant and of a table is that of the node above, a dot, and its letter and position
//! (`laws`). `Shape::new` refuses exactly the counts that make no small shape, `Shape::large` those that make none. Limits that
//! go by the shape are at least those of small shapes (`limits_are_high`). Each wire is a tap or a line of its node, and none is
//! both (`each_wire_has_a_home`). All crossbars together have each crosspoint once, and at most two taps or lines for each wire
//! (`crossbars_add_up`). From `first_cross` on a node's crosspoints stand in rows, one row for each tap and in it one
//! crosspoint for each line, and the numbers of its lines follow each other, as those of its ports do
//! (`crosspoints_stand_in_rows`).
#![tactic(auto)]

ghost use Rattle.std.specs.Prelude.{◌≡◌, ◌≤◌, false};
ghost use Rattle.machine_shape.specs.Counts.{levels_from, IsFull};
ghost use Rattle.machine_shape.specs.Limits.{is_small};
ghost use Rattle.machine_shape.specs.Walk.{size, wires_in, nodes_in, crosses_in, tables_in};

mod bars;
mod ends;
mod laws;
mod limits;
mod names;
mod numbers;
mod order;
mod part;
mod places;
mod reads;
mod tree;
mod way;
mod wires;

pub use laws::{
    a_small_machine_is_numbered_so, crossbars_add_up, crosspoints_stand_in_rows,
    each_wire_has_a_home, limits_are_high, names_are_one_to_one, names_follow_the_tree,
    the_crosspoints_are_sound, the_numbering_is_sound,
};
pub use order::ports_and_lines_ascend;
pub use part::PartName;

/// How many of each there are. Ports are per module, chip and hextant, lines per root, module, chip and hextant.
#[derive(Clone, Copy, Debug, PartialEq, Eq)]
pub struct Counts {
    pub modules: u16,
    pub chips: u16,
    pub hextants: u16,
    pub tables: u16,
    pub ports: [u16; 3],
    pub lines: [u16; 4],
    pub pins: u16,
}

/// What the nodes of one depth have each: ports, lines, and children, which are the tables at the last.
#[derive(Clone, Copy, Debug)]
pub struct Level {
    pub ports: u32,
    pub lines: u32,
    pub children: u32,
}

/// The shape of a machine: twelve counts, each at least 1, which keep within the limits on tables, wires and crosspoints, and
/// on pins where the shape isn't small.
#[derive(Clone, Copy, Debug)]
pub struct Shape {
    pub counts: Counts,
    pub ghost full: { IsFull counts },
    pub ghost few_tables: { size tables_in (levels_from counts) ≤ 65536 },
    pub ghost few_wires: { size wires_in (levels_from counts) ≤ 1310720 },
    pub ghost few_crosses: { size crosses_in (levels_from counts) ≤ 268435456 },
    pub ghost few_nodes: { size nodes_in (levels_from counts) ≤ 1310720 },
    pub ghost few_pins: { is_small counts ≡ false → counts.pins ≤ 8192 },
}

/// The number of a wire.
#[derive(Clone, Copy, Debug, PartialEq, Eq, PartialOrd, Ord)]
pub struct Wire(pub u32);

/// The number of a pin of the machine.
#[derive(Clone, Copy, Debug, PartialEq, Eq, PartialOrd, Ord)]
pub struct Pin(pub u32);

/// The number of a node: the root is 0.
#[derive(Clone, Copy, Debug, PartialEq, Eq, PartialOrd, Ord)]
pub struct Node(pub u32);

/// The number of a table.
#[derive(Clone, Copy, Debug, PartialEq, Eq, PartialOrd, Ord)]
pub struct Table(pub u32);

/// The number of a crosspoint.
#[derive(Clone, Copy, Debug, PartialEq, Eq, PartialOrd, Ord)]
pub struct Cross(pub u32);

/// What a wire is.
#[derive(Clone, Copy, Debug, PartialEq, Eq)]
pub enum Meaning {
    /// A pin of the machine.
    Pin { position: u32 },
    /// A line of a node.
    Line { node: Node, position: u32 },
    /// A port of a node below the root.
    Port { node: Node, position: u32 },
    /// A pin of a table: inputs are 0 to 5, and the output is 6.
    TablePin { table: Table, pin: u32 },
}

/// A line of a machine's text that gives counts.
#[derive(Clone, Copy, Debug, PartialEq, Eq)]
pub enum Field {
    Modules,
    Chips,
    Hextants,
    Tables,
    Ports,
    Lines,
    Pins,
}

/// What a machine may have only so many of.
#[derive(Clone, Copy, Debug, PartialEq, Eq)]
pub enum LimitedCount {
    Tables,
    Wires,
    Crosspoints,
    Pins,
}

/// Why counts make no shape.
#[derive(Clone, Copy, Debug, PartialEq, Eq)]
pub enum ShapeFault {
    /// A count is 0; this is the first such field.
    Zero { field: Field },
    /// No count is 0, and this is the first limit that is passed: of a small shape 4,096 tables, 16,384 wires, or 4,194,304
    /// crosspoints; of another 65,536 tables, 1,310,720 wires, 268,435,456 crosspoints, or 8,192 pins. The value is how many
    /// there would be.
    Limit { which: LimitedCount, value: u128 },
}
