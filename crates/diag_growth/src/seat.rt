//! Where a table is tested.

use diag_tests::Route;
use machine_shape::{Cross, Table, Wire};

/// Two crosspoints that lead over a line from the end of a route to an input of a table.
#[derive(Clone, Copy, Debug)]
pub struct Arm {
    pub to_line: Cross,
    pub line: Wire,
    pub to_input: Cross,
}

/// Where a table is tested: two routes, an arm from the end of the near one to each input of the table, in order, and a
/// crosspoint from the end of the far one to its output.
#[derive(Drop)]
pub struct Seat {
    pub table: Table,
    pub near: Route,
    pub far: Route,
    pub arms: Vec<Arm>,
    pub output: Cross,
}
