//! The whole machine: from tests to a list of defects.
//!
//! A sweep decides many crosspoints, wires and tables in each load. Of wires that are shorted to one another only one can be known:
//! looks tell which lines and ports stand in the way of pins of tables, these give way, and the sweep is made again. Then known wires
//! grow from the pins of the machine as far as two routes reach, without what is marked; where growth loses further pins, it is chosen
//! and made once more. Then the tables that aren't marked are tested over known wires. What isn't known or kept in the end is listed.
//!
//! Promised, of each set of faults that explains all that was read of the machine by the end of the call: the list covers it, is
//! tight to it and so is fair, whatever it is (`right_each`). Faults that the rig tells explain what was read, if they did before
//! (`tells`). It covers: no free crosspoint is stuck, no free table has a wrong cell or a stuck register, no free wire is shorted to
//! a stuck one and no two free wires are shorted. Tight: nothing on it both works and can be reached over what is free. Fair: it
//! holds no sound part of a served node, except a line with fewer than two sound crosspoints. The machine is left as it was,
//! whatever the answer (`machine`); `Failed` comes only where the rig's count rose (`cause`). At every end it has made at most 16
//! loads for each crosspoint, 20 for each wire and 130 for each table (`loads`), and 2, 3 and 130 where all that was read is explained
//! without faults (`loads_each`). The number of loads never falls (`counted`).
#![tactic(auto)]

mod list;
mod lost;
mod whole;

pub use whole::{Parts, diagnose, diagnose_in_parts};
