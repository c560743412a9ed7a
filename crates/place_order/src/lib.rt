//! Orders of a design's covers for a machine.
//!
//! In the plan in order tables sit on the free tables of the machine as their covers stand in the text. `order_covers` exchanges
//! seats by chance, and empty covers leave seats free. First come one or two long searches from tables that are spread evenly: each net
//! more that crosses or visits a node costs a fixed part more, so what counts are the fullest nodes, against what there is. Then nets cost
//! what they add to the crosspoints of the smallest machine, those of a node the more the fuller it is beside others, and most where
//! the machine has no more ports or lines. The first order that fits ends the search. Nothing is proved of it but that it returns:
//! whether the plan fits is asked of the text.
#![tactic(auto)]

mod copying;
mod count;
mod grow;
mod levels;
mod luck;
mod need;
mod nets;
mod order;
mod prices;
mod rooms;
mod search;
mod tree;

pub use order::order_covers;
pub use rooms::Effort;
