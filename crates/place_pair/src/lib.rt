//! Two designs on one machine: one image for both, and the image of each alone, of which none uses a wire of the other.
//!
//! The two networks are laid as one, the joint network, so that tables, pins, ports and lines are given out once. The image of
//! each is then what its own nets have of that layout.
//!
//! `joint` makes one network of two: the first's inputs and then the second's, and so their tables and their outputs. `lay_pair`
//! lays that network by its in-order plan and answers three images, of the whole and of each of the two. The whole's closed
//! crosspoints, its switched-on tables with their settings and its pins are those of the two, no wire is used by both, and all
//! three have one number of ticks (`tenants`). All touch only what the list leaves free (`free`, `first_free`, `second_free`).
//! Under every fault set that the list covers, each network's image is right by itself for each netlist whose rows are the
//! network's (`first_right`, `second_right`); what is read at its pins in the whole is what its image alone gives for its part of
//! the vectors (`apart`); and so each row of the whole is the first network's row and then the second's (`rows`). `Short` comes
//! exactly where the in-order plan of the joint network doesn't fit, with what `in_order` says of it (`room`, `fail`). `lay_pair_on`
//! does the same on another plan that fits.
//!
//! Over a history of faults each network runs as its image alone as long as it is left alone (`laws::either_runs_alone`).
#![tactic(auto)]

mod holders;
mod joining;
pub mod laws;
mod pairing;
mod site;
mod splitting;

pub use joining::joint;
pub use pairing::{Pair, lay_pair, lay_pair_on};
