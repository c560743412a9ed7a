//! A simulated machine: what a machine with known faults reads.
//!
//! The simulated machine as a rig. For every set of faults (stuck registers too), configuration and list of drives, all readings
//! of a session are the run of the configuration on the machine with these faults (`cycles`). `attach` asks its store for the
//! file of the name and for no other, and for nothing where the name is `@n`, which stands for the faults that `machine_bench` makes
//! from n (`told`, `asks`, `asks_at_most`); it refuses a fault text only where it isn't in its grammar or is too long (`caused`).
//! A file that its store tells to be absent is a failure (`missing`). The fault set of an attached machine is one of its shape.
//! `load` and `cycle` leave the store as it is and never fail; the rig's count rises only where the store's does. A cycle takes
//! no memory.
#![tactic(auto)]

mod base;
mod board;
mod chains;
mod classes;
mod closing;
mod cycle;
mod driving;
mod events;
mod gates;
mod marks;
mod named;
mod past;
mod pulls;
mod queue;
mod ranks;
mod readers;
mod readings;
mod sim;
mod sim_rig;
mod stuck;
mod sweeping;

pub use sim_rig::SimRig;
