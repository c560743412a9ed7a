//! Repairs an image: what still works of it stays, and the rest is laid anew on what a list of defects leaves free.
//!
//! A net of the image is a group of wires that its closed crosspoints join. One that touches nothing listed, and none of whose tables
//! has to go, keeps its wires. Every other is laid anew, as nets of a plan are: its ports are given in order, its lines by choice. Old
//! lines are tried first. So whole nets are kept, and of others their lines where they can be; the latter isn't proved.
//!
//! Promised (`repair`): of an image of at most `most_repaired` closed crosspoints and a list of defects on its machine, an image that
//! touches only what the list leaves free (`free`) and has the old one's rows (`rows`): under every fault set that the list
//! covers it reads at its output pins, for every list of vectors on its input pins, what the old one reads at its own without
//! faults. It follows the repair plan (`repair`, `IsRepair`): each table stands with its setting, and each pin, where the plan
//! says; ticks are the old ones; every closed crosspoint of a net that stays is closed, and besides only those that join a moving
//! net's one line at a node that it visits to its taps there; a moving net's terminals hang together, and at each node that it
//! crosses with the port that the plan gives it there and with no other port of that node. `Short` comes only where that plan
//! hasn't room, with its first short resource (`fail`), and a law says that then there is no such image
//! (`repair_plans_are_decided`). Nothing is asked of the image: a net may have several drivers or none.
#![tactic(auto)]

mod drawing;
mod groups;
mod keeping;
mod laws;
mod marks;
mod nets;
mod plan;
mod repairing;
mod rest;
mod seats;
mod terminals;
mod uses;

pub use laws::repair_plans_are_decided;
pub use repairing::repair;
pub use seats::{Moves, Seats};
