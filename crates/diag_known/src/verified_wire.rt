//! How a wire came to be known.

ghost use Rattle.std.specs.Prelude.{◌≡◌, false, IsTrue};
ghost use Rattle.diag_known.specs.Routes.{IsPin};

use machine_shape::{Cross, Wire};

/// A crosspoint, and the wire at its other end.
#[derive(Clone, Copy, Debug)]
pub struct Support {
    pub cross: Cross,
    pub wire: Wire,
}

/// What a known wire stands on.
#[derive(Clone, Copy, Debug)]
pub enum SupportedBy {
    /// It is this pin of the machine.
    Pin(u32),
    /// Two kept crosspoints to two different wires that came before it.
    Feet(Support, Support),
}

/// A known wire.
#[derive(Clone, Copy, Debug)]
pub struct VerifiedWire {
    pub wire: Wire,
    pub stand: SupportedBy,
}

impl VerifiedWire {
    /// Whether the wire is a pin of the machine.
    pub fn is_pin(&self) -> bool
        ensures pin { IsTrue result → IsPin self.now.stand }
        ensures feet { result ≡ false → ¬ IsPin self.now.stand }
    {
        match self.stand {
            SupportedBy::Pin(_) => true,
            SupportedBy::Feet(..) => false,
        }
    }
}
