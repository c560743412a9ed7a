//! A rig for examples that turns one bit of one of its readings.
#![tactic(auto)]

mod turn;
mod turning;

pub use turning::TurnRig;
