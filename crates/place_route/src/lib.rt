//! Routes a plan: from a network and its place on a machine to an image.
//!
//! For every network, plan that fits and list of defects, an image that touches only what the list leaves free (`free`), and that
//! reads the *network's* rows under every fault set that the list covers: the run with each vector on the input pins and 1 on all
//! others reads them at the output pins (`rows`). So it reads the rows of each netlist whose rows are the network's (`right`).
//! The first holds also of a network that is no netlist's, such as two designs joined. Its ticks are the network's depth, at
//! least 1, its pins the plan's, in order (`route`). `route_laid` does the same of a plan whose layout is at hand, and seeks no
//! room.
//! It is routed: no table is on and no crosspoint closed that no net of the network needs (`routed`).
#![tactic(auto)]

mod close;
mod laws;
mod lines;
mod owners;
mod routing;
mod ticks;

pub use close::switch_all_on;
pub use laws::{
    an_image_is_right_for_the_netlists_of_its_network, laid_out_nets_read_rows,
    nets_on_the_tree_read_rows,
};
pub use owners::owners_of;
pub use routing::{join_nets, route, route_laid};
