//! A network for each of two designs.
ghost use Rattle.std.specs.Prelude.{◌↔◌, IsTrue, IfOk, IfSome};
ghost use Rattle.place_both.specs.Both.{CanBeNumbered};
ghost use Rattle.place_both.specs.Smaller.{ArePlainFor};

use design_netlist::Netlist;
use map_network::{Network, plain};
use std::alloc::{AllocError, Global};

/// How many inputs, or tables, a network may have and no more.
const END: u64 = 4_294_967_296;

/// A network for each of two designs.
#[derive(Drop)]
pub struct TwoNetworks {
    pub first: Network,
    pub second: Network,
}

// Whether the inputs and the tables of two networks can be numbered together.
fn are_few(first: &Network, second: &Network) -> bool
    ensures { IsTrue result ↔ CanBeNumbered first.now second.now }
{
    let inputs = u64::from(first.inputs) + u64::from(second.inputs);
    let tables = first.tables.as_slice().len() as u64;
    let more = second.tables.as_slice().len() as u64;
    inputs < END && tables < END && more < END - tables
}

/// The plain networks of two designs, if both can be numbered together.
///
/// # Errors
///
/// Out of memory.
pub fn plain_networks(
    alloc: Global,
    first: &Netlist,
    second: &Netlist,
) -> Result<Option<TwoNetworks>, AllocError>
    ensures { IfOk result (λ o. IfSome o (ArePlainFor first.now second.now)) }
{
    let one = plain(alloc, first)?;
    let other = plain(alloc, second)?;
    if !are_few(&one, &other) {
        return Ok(None);
    }
    Ok(Some(TwoNetworks {
        first: one,
        second: other,
    }))
}
