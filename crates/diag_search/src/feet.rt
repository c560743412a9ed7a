//! Known wires, and how they stand.

use machine_shape::{Cross, Wire};

/// A crosspoint of a wire, and the wire at its other end.
#[derive(Clone, Copy)]
pub struct Support {
    pub cross: Cross,
    pub wire: Wire,
}

/// How a known wire stands: as a pin of the machine, or on two feet.
#[derive(Clone, Copy)]
pub enum SupportedBy {
    Pin(u32),
    Feet(Support, Support),
}

/// A known wire, and how it stands.
#[derive(Clone, Copy)]
pub struct VerifiedWire {
    pub wire: Wire,
    pub stand: SupportedBy,
}

/// A crosspoint of a forest, and the wires that it leads from and to. A pin of the machine is led to from itself.
#[derive(Clone, Copy)]
pub struct Link {
    pub cross: Cross,
    pub from: Wire,
    pub to: Wire,
}
