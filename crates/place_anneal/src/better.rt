//! Better plans.
ghost use Rattle.std.specs.Prelude.{◌≡◌, ℕ, ◌≤◌, ◌<◌, ◌⊎◌, IfOk, IfSome};
ghost use Rattle.map_network.specs.Networks.{IsNetwork};
ghost use Rattle.place_plan.specs.Vocabulary.{IsLayout, IsPlan};
ghost use Rattle.place_anneal.specs.Better.{IsBetterBy, IsBetterLaid};
ghost use Rattle.place_anneal.specs.Crossings.{HasCrossings, HasNoMore, IsBetter, KeepsPins};

use crate::count::crossings_of;
use crate::search::{Begin, search};
use crate::seats::{seats_of, tables_at};
use base_lists::Items;
use machine_defects::Defects;
use map_network::Network;
use place_plan::{Placed, Plan, lay_out};
use std::alloc::{AllocError, Global};

/// A plan laid out, and how many nets cross a node in it, summed over all nodes.
#[derive(Debug, Drop)]
pub struct Better {
    pub placed: Placed,
    pub crossings: u128,
}

// These numbers.
fn copy_numbers(alloc: Global, numbers: &[u32]) -> Result<Items<u32>, AllocError>
    ensures { IfOk result (λ copy. copy ≡ numbers.now) }
{
    let copy = numbers.to_vec(alloc)?;
    Ok(Items::new(copy))
}

// The plan that a search finds; it may be worse.
fn find_plan(
    alloc: Global,
    network: &Network,
    plan: &Plan,
    defects: &Defects,
    begin: Begin,
) -> Result<Plan, AllocError>
    requires { IsPlan defects.now.shape defects.now.list network.now plan.now }
    ensures plan { IfOk result (IsPlan defects.now.shape defects.now.list network.now) }
    ensures pins { IfOk result (KeepsPins plan.now) }
{
    let tables = plan.tables.as_slice();
    let seats = seats_of(alloc, tables, defects)?;
    let moved = search(alloc, &defects.shape(), network, seats, begin)?;
    let first = &moved[..tables.len()];
    let tables = tables_at(alloc, first)?;
    let inputs = copy_numbers(alloc, plan.inputs.as_slice())?;
    let outputs = copy_numbers(alloc, plan.outputs.as_slice())?;
    Ok(Plan {
        tables,
        inputs,
        outputs,
    })
}

// That plan laid out, where it fits and has fewer crossings than so many.
fn better_by(
    alloc: Global,
    network: &Network,
    plan: &Plan,
    defects: &Defects,
    most: u128,
    begin: Begin,
) -> Result<Option<Better>, AllocError>
    requires network { IsNetwork network.now }
    requires plan { IsPlan defects.now.shape defects.now.list network.now plan.now }
    ensures { IfOk result (λ o. IfSome o (λ better. (before : ℕ) →
        HasCrossings defects.now.shape network.now plan.now before → most ≤ before →
        IsBetterBy defects.now.shape defects.now.list network.now plan.now most better)) }
{
    let plan = find_plan(alloc, network, plan, defects, begin)?;
    let crossings = crossings_of(alloc, network, &plan, defects)?;
    if crossings >= most {
        return Ok(None);
    }
    match lay_out(alloc, network, &plan, defects)? {
        Some(layout) => {
            let placed = Placed { plan, layout };
            Ok(Some(Better { placed, crossings }))
        }
        None => Ok(None),
    }
}

// The crossings of what was found, or else so many.
fn fewest(better: &Option<Better>, before: u128) -> u128
    requires { IfSome better.now (λ b. b.crossings < before) }
    ensures { result ≤ before }
{
    match better {
        Some(better) => better.crossings,
        None => before,
    }
}

// The best of the plans that searches find, if it is better than this plan with its so many crossings. Of those that are as good
// it is the first.
fn best_plan(
    alloc: Global,
    network: &Network,
    plan: &Plan,
    defects: &Defects,
    before: u128,
) -> Result<Option<Placed>, AllocError>
    requires network { IsNetwork network.now }
    requires plan { IsPlan defects.now.shape defects.now.list network.now plan.now }
    requires before { HasCrossings defects.now.shape network.now plan.now before }
    ensures { IfOk result (λ o. IfSome o (IsBetterLaid defects.now.shape defects.now.list network.now plan.now)) }
{
    let near = better_by(alloc, network, plan, defects, before, Begin::Given)?;
    let most = fewest(&near, before);
    let filled = better_by(alloc, network, plan, defects, most, Begin::Filled)?;
    let least = fewest(&filled, most);
    let chained = better_by(alloc, network, plan, defects, least, Begin::Chained)?;
    if let Some(better) = chained {
        return Ok(Some(better.placed));
    }
    if let Some(better) = filled {
        return Ok(Some(better.placed));
    }
    match near {
        Some(better) => Ok(Some(better.placed)),
        None => Ok(None),
    }
}

/// A plan that fits and has fewer crossings than this one, with its layout, if a search finds one. The pins stay.
///
/// # Errors
///
/// Out of memory.
pub fn better_plan(
    alloc: Global,
    network: &Network,
    plan: &Plan,
    defects: &Defects,
) -> Result<Option<Placed>, AllocError>
    requires network { IsNetwork network.now }
    requires plan { IsPlan defects.now.shape defects.now.list network.now plan.now }
    ensures { IfOk result (λ o. IfSome o (IsBetterLaid defects.now.shape defects.now.list network.now plan.now)) }
{
    let before = crossings_of(alloc, network, plan, defects)?;
    best_plan(alloc, network, plan, defects, before)
}

/// A plan in which tables have exchanged their places, or have gone to free tables that none had, so that fewer nets cross
/// nodes, summed over all nodes. Where none that fits is found the answer is the plan itself. The pins stay.
///
/// # Errors
///
/// Out of memory; the plan is dropped.
pub fn improve(
    alloc: Global,
    network: &Network,
    plan: Plan,
    defects: &Defects,
) -> Result<Plan, AllocError>
    requires network { IsNetwork network.now }
    requires plan { IsPlan defects.now.shape defects.now.list network.now plan }
    ensures plan { IfOk result (IsPlan defects.now.shape defects.now.list network.now) }
    ensures pins { IfOk result (KeepsPins plan) }
    ensures crossings { IfOk result (HasNoMore defects.now.shape network.now plan) }
    ensures better { IfOk result (λ better. (better ≡ plan) ⊎ IsBetter defects.now.shape defects.now.list network.now plan better) }
{
    let before = crossings_of(alloc, network, &plan, defects)?;
    match best_plan(alloc, network, &plan, defects, before)? {
        Some(better) => Ok(better.plan),
        None => Ok(plan),
    }
}

/// The same of a plan that fits, with its layout: so the answer fits too.
///
/// # Errors
///
/// Out of memory; the plan is dropped.
pub fn improve_laid(
    alloc: Global,
    network: &Network,
    placed: Placed,
    defects: &Defects,
) -> Result<Placed, AllocError>
    requires network { IsNetwork network.now }
    requires plan { IsPlan defects.now.shape defects.now.list network.now placed.plan }
    requires layout { IsLayout defects.now.shape defects.now.list network.now placed.plan placed.layout }
    ensures plan { IfOk result (λ better. IsPlan defects.now.shape defects.now.list network.now better.plan) }
    ensures layout { IfOk result (λ better. IsLayout defects.now.shape defects.now.list network.now better.plan better.layout) }
    ensures better { IfOk result (λ better. (better ≡ placed) ⊎
        IsBetterLaid defects.now.shape defects.now.list network.now placed.plan better) }
{
    match better_plan(alloc, network, &placed.plan, defects)? {
        Some(better) => Ok(better),
        None => Ok(placed),
    }
}
