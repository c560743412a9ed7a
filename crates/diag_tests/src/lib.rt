//! Routes through crossbars, and the small configurations of tests.
//!
//! A route is a walk over crosspoints from its pin to its end. A test's configuration closes the crosspoints of two routes and
//! the ties, and no other; nothing is on but the table under test. `close_loop` makes a configuration that of another loop, at
//! the cost of what is closed before and after.
#![tactic(auto)]

mod configs;
mod route;
mod trunk;

pub use configs::{cell_config, close_all, close_loop, loop_config};
pub use route::{Route, extend_route, route_at};
pub use trunk::Trunk;
