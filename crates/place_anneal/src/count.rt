//! How often the nets of a plan cross nodes.
ghost use Rattle.std.specs.Prelude.{◌≡◌, IfOk, length};
ghost use Rattle.std.specs.List.{sum_by};
ghost use Rattle.map_network.specs.Networks.{IsNetwork};
ghost use Rattle.place_plan.specs.Plans.{IsPlan};
ghost use Rattle.place_anneal.specs.Crossings.{HasCrossings};

use base_lists::Items;
use machine_defects::Defects;
use map_network::Network;
use place_plan::{Plan, crossing_nets, nets_of_plan, touched_by, tree_of};
use std::alloc::{AllocError, Global};

// The lengths of these lists in sum, which 128 bits have room for.
fn length_in_sum(lists: &[Items<u32>]) -> u128
    ensures { result ≡ sum_by length lists.now }
{
    let mut sum = 0u128;
    for list in lists {
        sum += list.as_slice().len() as u128;
    }
    sum
}

/// How many nets of a plan cross a node, summed over all nodes.
///
/// # Errors
///
/// Out of memory.
pub fn crossings_of(
    alloc: Global,
    network: &Network,
    plan: &Plan,
    defects: &Defects,
) -> Result<u128, AllocError>
    requires network { IsNetwork network.now }
    requires plan { IsPlan defects.now.shape defects.now.list network.now plan.now }
    ensures { IfOk result (HasCrossings defects.now.shape network.now plan.now) }
{
    let nets = nets_of_plan(alloc, defects, network, plan)?;
    let tree = tree_of(alloc, defects.shape())?;
    let touched = touched_by(alloc, &tree, &nets)?;
    let lists = crossing_nets(alloc, &tree, &nets, &touched)?;
    Ok(length_in_sum(&lists))
}
