//! Designs on machines: an image of a design that uses nothing that a list of defects names, or what there is no room for.
//!
//! On a small machine the in-order plan of the plain network alone decides whether there is room. Where there is, networks with
//! fewer tables and plans with fewer crossings are tried too: tables put into their one reader, and into all their readers, where
//! that leaves fewer; of the plans that fit the one with fewer crossings is taken. On another machine these are tried whether the
//! in-order plan fits or not, and at last plans of the plain network. That the image is right doesn't rest on them, since any
//! image that is routed is right for the design. What is laid is the plain network on its plan in order, or a network of which
//! nothing is in vain: each table leads to an output, it is no deeper than the plain one, and nets cross no more nodes in sum than
//! by its own plan in order; or, on a machine that isn't small, the plain network on a plan of which the last is so
//! (`IsRoutedDesign`).
//!
//! Promised (`lay`): an image of a design on what a list leaves free, right for it under all faults that the list covers. Room is
//! refused only where the in-order plan of its plain network doesn't fit the list, and on a small machine exactly there. `no_place`
//! makes the refusal of what a network is short of. `improved_plan` gives the plan that is tried for a network whose plan in order
//! fits.
#![tactic(auto)]

mod laying;
mod room;
mod smaller;

pub use laying::lay;
pub use room::no_place;
pub use smaller::{Improved, improved_plan};
