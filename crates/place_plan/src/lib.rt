//! Plans: where the tables and pins of a network sit on a machine, and whether there is room for its nets.
//!
//! Each net wants a port at each node that it crosses and a line at each node that it visits. Ports are given in
//! order; lines by any choice in which each net has a line of its own whose crosspoints to its taps are free.
//!
//! The in-order plan, and whether tables, pins, ports and lines suffice for a plan. `in_order` answers `Short` exactly where that
//! plan doesn't fit, with the first short resource, its node, need and have; for lines with a set of nets that fewer lines serve
//! than it has nets. `in_order_laid` answers the layout with the plan: the port of each net at each node that it crosses, and its
//! line at each node that it visits; `seat_in_order` answers the plan alone, whether it fits or not. Lines are found by any choice
//! in which each net has a line of its own whose crosspoints to the net's taps are free, and `Short` comes only where there is no
//! such choice.
//!
//! When there is room for certain.
//!
//! Where as many tables and pins are free as a network has, and at each node as many lines are open and ports free as it has
//! nets, nothing is short for its in-order plan; a fair list leaves sound parts of served nodes so, and a tight list standing
//! parts, whether nodes are served or not.
#![tactic(auto)]

mod assign;
mod board;
mod fit;
mod keeping;
mod laws;
mod layout;
mod numbers;
mod order;
mod plan;
mod ports;
mod room;
mod search;
mod short;
mod sound_room;
mod strand;
mod taps;
mod terminals;
mod touch;
mod tree;

pub use fit::{fits, in_order, in_order_laid, lay_out, seat_in_order};
pub use laws::{in_order_plans_are_decided, room_is_decided};
pub use layout::{Layout, Placed};
pub use numbers::empty_lists;
pub use plan::Plan;
pub use ports::crossings as crossing_nets;
pub use room::{look_for_room, look_for_room_keeping};
pub use short::{Need, Net, PlaceFail, Port, Resource, Room, Short, Visit, short_of};
pub use sound_room::{enough_free_parts_are_room, sound_parts_are_room, standing_parts_are_room};
pub use strand::strand_at;
pub use terminals::nets_of_plan;
pub use touch::touched_by;
pub use tree::{NetSide, Tree, tree_of};
