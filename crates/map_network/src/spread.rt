//! A network with tables put into all their readers.

ghost use Rattle.std.specs.Prelude.{◌≡◌, ◌≤◌, ◌↔◌, List, Bool, length, IfOk};
ghost use Rattle.map_network.specs.Networks.{IsNetwork, IsNoDeeper};
ghost use Rattle.map_network.specs.Rows.{AreRows};
ghost use Rattle.map_network.specs.Merging.{IsWhole};
ghost use Rattle.map_network.specs.Joining.{DoesSame};
ghost use Rattle.map_network.specs.Leading.{AllLead};

use crate::compact::{compacted, is_closed};
use crate::copying::{copied_network, copied_sources};
use crate::merge::merged_of;
use crate::network::Network;
use crate::spreading::spread_tables;
use crate::useless::{is_some_marked, without_useless};
use base_lists::Items;
use std::alloc::{AllocError, Global};

/// How often tables are put into their readers at most.
const ROUNDS: usize = 3;

/// The network without the marked tables, where nothing that stays reads one of them, and else as it is.
fn without(alloc: Global, network: Network, marks: &[bool]) -> Result<Network, AllocError>
    requires { IsNetwork network }
    ensures { IfOk result (DoesSame network) }
{
    if marks.len() != network.tables.as_slice().len() {
        return Ok(network);
    }
    if !is_some_marked(marks) {
        return Ok(network);
    }
    if !is_closed(marks, &network) {
        return Ok(network);
    }
    let smaller = compacted(alloc, &network, marks)?;
    Ok(smaller)
}

/// The network with tables put into all their readers.
fn spread_once(alloc: Global, network: Network) -> Result<Network, AllocError>
    requires { IsNetwork network }
    ensures { IfOk result (DoesSame network) }
{
    let spread = spread_tables(alloc, &network)?;
    let outputs = copied_sources(alloc, network.outputs.as_slice())?;
    let changed = Network {
        inputs: network.inputs,
        tables: Items::new(spread.tables),
        outputs: Items::new(outputs),
    };
    without(alloc, changed, &spread.gone)
}

/// The network with tables put into all their readers, while that makes them fewer.
fn spread_rounds(alloc: Global, network: Network) -> Result<Network, AllocError>
    requires { IsNetwork network }
    ensures { IfOk result (DoesSame network) }
{
    let mut spread = network;
    'rounds: for _ in 0..ROUNDS {
        let before = spread.tables.as_slice().len();
        let used = without_useless(alloc, spread)?;
        spread = spread_once(alloc, used)?;
        if spread.tables.as_slice().len() >= before {
            return Ok(spread);
        }
    }
    Ok(spread)
}

/// A network with the same rows, in which tables are put into all their readers. Tables that no way leads to from an output
/// go; a combinational table that no output reads goes into all its readers, where it has at most six different sources
/// together with each of them, and those with few readers come first. This is done again while it makes the tables fewer, at
/// most three times. Then tables are put into their one reader, as [`merged_of`] does it. The time is near linear in the
/// number of tables.
///
/// # Errors
///
/// Out of memory.
pub fn spread_of(alloc: Global, network: &Network) -> Result<Network, AllocError>
    requires { IsNetwork network.now }
    ensures network { IfOk result (λ spread. IsNetwork spread) }
    ensures rows { IfOk result (λ spread. (vectors rows : List (List Bool)) →
        AreRows network.now vectors rows ↔ AreRows spread vectors rows) }
    ensures fewer { IfOk result (λ spread. length spread.tables ≤ length network.now.tables) }
    ensures inputs { IfOk result (λ spread. spread.inputs ≡ network.now.inputs) }
    ensures outputs { IfOk result (λ spread. length spread.outputs ≡ length network.now.outputs) }
    ensures whole { IfOk result (λ spread. IsWhole spread) }
    ensures leads { IfOk result (λ spread. AllLead spread) }
    ensures shallow { IfOk result (λ spread. IsNoDeeper network.now spread) }
{
    let whole = copied_network(alloc, network)?;
    let spread = spread_rounds(alloc, whole)?;
    let merged = merged_of(alloc, &spread)?;
    Ok(merged)
}
