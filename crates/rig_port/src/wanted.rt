//! What a request asks.
use crate::check::Check;
use machine_config::Setting;
use machine_shape::{Cross, Table};
use rig::PinBits;

/// A change of what is set.
#[derive(Clone, Copy)]
pub enum Change {
    Close(Cross),
    Open(Cross),
    On(Table, Setting),
    Off(Table),
    Ticks(u16),
}

/// A load and its first cycles, or further cycles.
#[derive(Drop)]
pub struct Wanted {
    // Whether something is loaded: what is set is cleared first, or isn't, and is changed.
    pub loads: bool,
    pub anew: bool,
    pub changes: Vec<Change>,
    pub drives: Vec<PinBits>,
}

/// A number under which a machine is asked what it is, and the check behind the request.
#[derive(Clone, Copy)]
pub struct Asked {
    pub number: u32,
    pub check: Check,
}
