//! Known wires grow: from the pins of a machine on, all that two routes can reach, each two of them kept apart.
//!
//! A wire is tried at each pair of its crosspoints to known ones: the first that is kept and a second one, over which its two
//! ways lead. Then it is swung, put on trial, and parted from all that is reached beside its ways; a pin of the machine has one way,
//! and is parted once. Parted from all known wires, which are the set of the facts, it is settled: it is of the set, and known. That is
//! all that the tests of one more wire need. What is kept isn't tested again.
//!
//! Promised (`grow`), in a field of wires and crosspoints, where all wires of the set are known: at every end what is known is so
//! (`known`), all of the set is (`all`), what was known still is, what is new is of the field (`grows`), what was kept stays kept and
//! true (`advances`), and it has made at most 8 loads for each crosspoint of the field that wasn't kept before and 3 for each of its
//! wires, less one for each pin of the machine in it, and without faults 2 and 3, less one for each such pin (`loads`, `few_each`).
//! After an Ok, what is known is closed (`closed_each`): a wire of the field that is clear, is shorted to no known wire, and is a pin
//! or has two crosspoints of the field that aren't stuck to two different known wires, is known; a crosspoint of the field between
//! known wires that isn't stuck is kept. `Failed` comes only where the rig's count rose (`cause`).
//!
//! What is said of faults is said of each set that explains the log after the call (a clause whose name ends in `_each`); no rig
//! has to tell any. Between the functions of this crate such a clause takes for granted that the marks are right for that set, as
//! they are where growth begins.
//!
//! Seats of tables in known wires, over which their cells and registers are tested.
//!
//! A table is seated where two ports of its hextant, that stand without the hextant's own wires, and its lines reach each of
//! its pins over kept crosspoints.
//!
//! Promised (`test_tables`): each of the given tables that is seated in known wires and kept crosspoints and is right has its
//! cells and its register kept (`tables_each`), with at most 130 loads for each that wasn't kept before, at every end (`loads`).
//!
//! Tests of a table's cells and of its register, over two routes that are apart.
//!
//! One route leads on to the inputs whose bit of the address is 0, the other to the output. The other inputs read 1, since
//! nothing pulls them. A table whose cells and register are as they should be passes, whatever other faults there are.
//!
//! It is given a seat: kept crosspoints that lead from the end of one route over lines to the six inputs of a table, and from the
//! end of another to its output, where all wires are kept, and those of the two sides and the inputs kept apart from one another
//! (`seat`). A table without a wrong cell and a stuck register has its 64 cells and its register kept after an Ok, whatever other
//! faults there are (`table_each`). At every end it has made at most 130 loads (`loads`), no crosspoint or wire is newly kept and none
//! joins the set (`only`), what was kept stays kept and true (`advances`), and `Failed` comes only where the rig's count rose (`cause`).
#![tactic(auto)]

mod cells;
mod choices;
mod complete;
mod feet;
mod learn;
mod look;
mod outside;
mod parts;
mod rest;
mod rounds;
mod search;
mod seat;
mod seats;
mod tables;
mod ties;

pub use cells::test_table;
pub use diag_known::{Field, Known, Support, SupportedBy, VerifiedWire, add_wires, standing};
pub use rounds::grow;
pub use seat::{Arm, Seat};
pub use tables::test_tables;
