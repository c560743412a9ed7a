//! Networks with fewer tables than the plain one, on plans that fit.
ghost use Rattle.std.specs.Prelude.{IfOk, IfSome};
ghost use Rattle.map_network.specs.Vocabulary.{IsNetwork, IsPlainNetwork, HasRowsOf};
ghost use Rattle.machine_defects.specs.Lists.{DefectList};
ghost use Rattle.design_netlist.specs.declared.netlist_data.NetlistData.{NetlistData};
ghost use Rattle.place_design.specs.Smaller.{IsImproved, IsLeanFor, IsSmallerFor};

use design_netlist::Netlist;
use machine_defects::Defects;
use map_network::{Network, merged_of, spread_of};
use place_anneal::{better_plan, crossings_of, improve_laid};
use place_plan::{PlaceFail, Placed, in_order_laid, seat_in_order};
use std::alloc::{AllocError, Global};

/// A network, a plan for it that fits, and how many nets of the plan cross a node, summed over all nodes.
#[derive(Drop)]
pub struct Smaller {
    pub network: Network,
    pub placed: Placed,
    pub crossings: u128,
}

/// A plan of a network that fits, with its layout, and how many nets of it cross a node, summed over all nodes.
#[derive(Drop)]
pub struct Improved {
    pub placed: Placed,
    pub crossings: u128,
}

/// The improved plan of a network, if its plan in order fits. What that is short of is no refusal.
///
/// # Errors
///
/// Out of memory.
pub fn improved_plan(
    alloc: Global,
    network: &Network,
    defects: &Defects,
) -> Result<Option<Improved>, AllocError>
    requires { IsNetwork network.now }
    ensures { IfOk result (λ o. IfSome o (IsImproved defects.now network.now)) }
{
    let placed = match in_order_laid(alloc, network, defects) {
        Ok(placed) => placed,
        Err(PlaceFail::Short(_)) => return Ok(None),
        Err(PlaceFail::Memory) => return Err(AllocError),
    };
    let better = improve_laid(alloc, network, placed, defects)?;
    let crossings = crossings_of(alloc, network, &better.plan, defects)?;
    Ok(Some(Improved {
        placed: better,
        crossings,
    }))
}

/// A plan of a network that fits and has fewer crossings than its plan in order, whether that fits or not, if a search finds
/// one.
///
/// # Errors
///
/// Out of memory.
pub fn found_plan(
    alloc: Global,
    network: &Network,
    defects: &Defects,
) -> Result<Option<Improved>, AllocError>
    requires { IsNetwork network.now }
    ensures { IfOk result (λ o. IfSome o (IsImproved defects.now network.now)) }
{
    let Some(plan) = seat_in_order(alloc, network, defects)? else {
        return Ok(None);
    };
    let Some(placed) = better_plan(alloc, network, &plan, defects)? else {
        return Ok(None);
    };
    let crossings = crossings_of(alloc, network, &placed.plan, defects)?;
    Ok(Some(Improved { placed, crossings }))
}

// The plan that is tried for a network: the improved one, and on a machine that isn't small, where its plan in order doesn't fit,
// one that is found.
fn tried_plan(
    alloc: Global,
    network: &Network,
    defects: &Defects,
) -> Result<Option<Improved>, AllocError>
    requires { IsNetwork network.now }
    ensures { IfOk result (λ o. IfSome o (IsImproved defects.now network.now)) }
{
    let improved = improved_plan(alloc, network, defects)?;
    if improved.is_some() || defects.shape().is_small() {
        return Ok(improved);
    }
    found_plan(alloc, network, defects)
}

// The network on the plan that is tried for it, if there is one.
fn planned(
    alloc: Global,
    netlist: &Netlist,
    network: Network,
    defects: &Defects,
) -> Result<Option<Smaller>, AllocError>
    requires { IsLeanFor netlist.now network }
    ensures { IfOk result (λ o. IfSome o (IsSmallerFor defects.now netlist.now)) }
{
    match tried_plan(alloc, &network, defects)? {
        Some(improved) => Ok(Some(Smaller {
            network,
            placed: improved.placed,
            crossings: improved.crossings,
        })),
        None => Ok(None),
    }
}

// The network with tables put into all their readers on a plan that fits, where it has fewer tables than so many.
fn spread_for(
    alloc: Global,
    netlist: &Netlist,
    whole: &Network,
    defects: &Defects,
    tables: usize,
) -> Result<Option<Smaller>, AllocError>
    requires plain { IsPlainNetwork netlist.now whole.now }
    requires network { IsNetwork whole.now }
    requires rows { HasRowsOf whole.now netlist.now }
    ensures { IfOk result (λ o. IfSome o (IsSmallerFor defects.now netlist.now)) }
{
    let spread = spread_of(alloc, whole)?;
    if spread.tables.as_slice().len() >= tables {
        return Ok(None);
    }
    planned(alloc, netlist, spread, defects)
}

// The one with fewer crossings, or the second where both have as many.
fn with_fewer_crossings(merged: Option<Smaller>, spread: Option<Smaller>) -> Option<Smaller>
    ensures { (defects : DefectList) (draft : NetlistData) →
        IfSome merged (IsSmallerFor defects draft) → IfSome spread (IsSmallerFor defects draft) →
        IfSome result (IsSmallerFor defects draft) }
{
    match (merged, spread) {
        (Some(merged), Some(spread)) => {
            if merged.crossings < spread.crossings {
                Some(merged)
            } else {
                Some(spread)
            }
        }
        (Some(merged), None) => Some(merged),
        (None, spread) => spread,
    }
}

/// The design's network with tables put into their readers on a plan that fits, if one does: of that in which they are put into
/// their one reader, and that in which they are put into all, where it has fewer tables, the one whose plan has fewer crossings.
pub fn smaller_for(
    alloc: Global,
    netlist: &Netlist,
    whole: &Network,
    defects: &Defects,
) -> Result<Option<Smaller>, AllocError>
    requires plain { IsPlainNetwork netlist.now whole.now }
    requires network { IsNetwork whole.now }
    requires rows { HasRowsOf whole.now netlist.now }
    ensures { IfOk result (λ o. IfSome o (IsSmallerFor defects.now netlist.now)) }
{
    let merged = merged_of(alloc, whole)?;
    let tables = merged.tables.as_slice().len();
    let first = planned(alloc, netlist, merged, defects)?;
    let second = spread_for(alloc, netlist, whole, defects, tables)?;
    Ok(with_fewer_crossings(first, second))
}
