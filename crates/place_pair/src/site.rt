//! Where one of two networks stands in their joint network.
ghost use Rattle.std.specs.Prelude.{◌≡◌, ◌↔◌, ◌<◌, ℕ, IsTrue, Some};
ghost use Rattle.place_pair.specs.Sites.{IsFrom, Owns};

use map_network::Network;
use place_plan::Net;

/// The first of a network's inputs, tables and outputs among those of the joint network.
#[derive(Clone, Copy, Debug)]
pub struct Site {
    pub input: usize,
    pub table: usize,
    pub output: usize,
    /// The net of its first table. A net's number is k for input k of the joint network, and the number of inputs plus j for
    /// table j.
    pub net: usize,
}

// Whether a number is one of so many from the first on.
fn is_from(number: usize, first: usize, count: usize) -> bool
    ensures { IsTrue result ↔ IsFrom first count number }
{
    number >= first && number - first < count
}

/// Whether a net of the joint network is one of the network's.
pub fn owns(site: &Site, network: &Network, net: Net) -> bool
    ensures { IsTrue result ↔ Owns site.now network.now net.0 }
{
    let net = net.0 as usize;
    is_from(net, site.input, network.inputs as usize)
        || is_from(net, site.net, network.tables.as_slice().len())
}

/// Whether the owner of a wire is a net of the network's.
pub fn has_owner(site: &Site, network: &Network, owner: Option<u32>) -> bool
    ensures { IsTrue result ↔ ((k : ℕ) × (owner ≡ Some k) × Owns site.now network.now k) }
{
    match owner {
        None => false,
        Some(net) => owns(site, network, Net(net)),
    }
}
