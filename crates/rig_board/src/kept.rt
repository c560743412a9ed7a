//! What is kept of a session.
use machine_config::Setting;
use machine_shape::{Cross, Shape};
use rig::PinBits;

/// A cycle, or room for one.
#[derive(Drop)]
pub struct Row {
    pub drive: PinBits,
    pub reading: PinBits,
}

/// The configuration, the cycles since, and room for further ones.
#[derive(Drop)]
pub struct Kept {
    pub shape: Shape,
    pub closed: Vec<Cross>,
    pub tables: Vec<Option<Setting>>,
    pub ticks: u16,
    pub rows: Vec<Row>,
    pub blank: Vec<Row>,
}
