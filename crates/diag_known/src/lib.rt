//! Wires that are known: each is a pin of the machine, or stands on two feet, kept crosspoints to two different known wires
//! that came before it; and each two of them are kept apart.
//!
//! So any two known wires have routes from two pins without a common wire: the one that came later steps down to a foot at
//! which the other doesn't stand, until two pins are reached. Which of some wires are known by kept crosspoints alone is
//! found around each wire in turn, without a load.
//!
//! Promised: what is known is so at every moment (`known`), and any two known wires have routes from two pins over known wires
//! and kept crosspoints, without a common wire, no wire twice on either (`Known::routes`). `standing` makes no load: of wires
//! that are kept and kept apart it answers those that stand by kept crosspoints alone. A `Field` is the wires that may become
//! known and the crosspoints that are looked at.
//!
//! What is reached from known wires: the tests of crosspoints between two of them, and from these to one wire more.
//!
//! A wire with crosspoints to two known ones has two ways, and every other known wire is reached beside one of them, on walks
//! from the pins. On these hangs what a trial closes besides a way. Marks say what was tried, so that nothing is tried twice.
//! What a trial says of faults it says of each set that explains the log after it (a clause whose name ends in `_each`).
#![tactic(auto)]

mod beside;
mod descents;
mod field;
mod hang;
mod known;
mod links;
mod looks;
mod marks;
mod offers;
mod routes;
mod stands;
mod toggles;
mod tour;
mod verified_wire;
mod ways;

pub use beside::{Reach, find_reached};
pub use descents::Down;
pub use field::{Field, add_wires};
pub use hang::toggle_first;
pub use known::Known;
pub use links::links_of;
pub use looks::standing;
pub use marks::Marks;
pub use offers::{Hanging, Offer, put_walks};
pub use toggles::{drive_pin, laid, toggle_known, toggle_over};
pub use tour::walks;
pub use verified_wire::{Support, SupportedBy, VerifiedWire};
