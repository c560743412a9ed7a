//! How many ticks a network takes.
ghost use Rattle.std.specs.Prelude.{◌≤◌, IfOk, length, max};
ghost use Rattle.map_network.specs.Networks.{IsNetwork};
ghost use Rattle.place_route.specs.Ticks.{AreTicks};

use map_network::{Network, depth};
use std::alloc::{AllocError, Global};

/// The depth of a network, and at least 1.
pub fn ticks_of(alloc: Global, network: &Network) -> Result<u16, AllocError>
    requires network { IsNetwork network.now }
    requires few { length network.now.tables ≤ 65535 }
    ensures ticks { IfOk result (AreTicks network.now) }
    ensures some { IfOk result (λ ticks. 1 ≤ ticks) }
    ensures few { IfOk result (λ ticks. ticks ≤ max 1 (length network.now.tables)) }
{
    let depth = depth(alloc, network)?;
    if depth == 0 {
        return Ok(1);
    }
    Ok(depth as u16)
}
