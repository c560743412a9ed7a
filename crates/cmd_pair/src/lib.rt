//! The command that runs two designs side by side on a machine of the rig, whatever is wrong with it.
//!
//! Promised (`pair`): a `pair` that is done has done for two designs what a `go` has for one: the rows are the first design's
//! and, behind each, the second's, and the two share no wire; it has room exactly where the in-order plan of the joint network of
//! their plain networks fits the list that it wrote (`does`, `lawful`, `Promises`). What is loaded is laid for these on that plan,
//! or for networks with the designs' rows of which nothing is in vain (`IsRoutedForBoth`). What it says of faults is said of each set
//! that explains all that was read of the machine.
#![tactic(auto)]

mod both;
mod command;

pub use command::pair;
