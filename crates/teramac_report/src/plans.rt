//! The plans of a design: in order for its plain network, for two copies of it, for the one with fewer tables, and with fewer crossings.
ghost use Rattle.std.specs.Prelude.{IfOk, IfSome};
ghost use Rattle.map_network.specs.Networks.{IsNetwork};
ghost use Rattle.place_plan.specs.Plans.{FitsInOrder, IsPlan};

use crate::line::put_counts;
use design_netlist::Netlist;
use machine_defects::Defects;
use map_network::{Network, depth, merge_tables, plain};
use place_anneal::{crossings_of, improve};
use place_pair::joint;
use place_plan::{PlaceFail, Plan, fits, in_order};
use std::alloc::{AllocError, Global};

// Adds a plan's name and what its network takes; the line goes on.
fn put_network(
    alloc: Global,
    text: &mut Vec<u8>,
    name: &str,
    network: &Network,
) -> Result<(), AllocError>
    requires { IsNetwork network.now }
{
    let tables = network.tables.as_slice().len() as u64;
    let ticks = u64::from(depth(alloc, network)?.max(1));
    let nets = tables.saturating_add(u64::from(network.inputs));
    text.extend_from_slice(name.as_bytes())?;
    put_counts(
        text,
        &[("tables", tables), ("nets", nets), ("ticks", ticks)],
    )
}

// Ends the line of a plan: with its crossings, as far as 64 bits go, or with that it is short of something.
fn put_crossings(text: &mut Vec<u8>, crossings: Option<u128>) -> Result<(), AllocError> {
    match crossings {
        Some(count) => {
            let shown = count.min(u128::from(u64::MAX)) as u64;
            put_counts(text, &[("crossings", shown)])?;
        }
        None => text.extend_from_slice(b" short")?,
    }
    text.push(b'\n')?;
    Ok(())
}

// The plan in order, where it fits.
fn fitting_plan(
    alloc: Global,
    network: &Network,
    list: &Defects,
) -> Result<Option<Plan>, AllocError>
    requires { IsNetwork network.now }
    ensures { IfOk result (λ o. IfSome o (FitsInOrder list.now.shape list.now.list network.now)) }
{
    match in_order(alloc, network, list) {
        Ok(plan) => Ok(Some(plan)),
        Err(PlaceFail::Short(_)) => Ok(None),
        Err(PlaceFail::Memory) => Err(AllocError),
    }
}

// The crossings of a plan that fits in order.
fn crossings(
    alloc: Global,
    network: &Network,
    plan: Option<&Plan>,
    list: &Defects,
) -> Result<Option<u128>, AllocError>
    requires network { IsNetwork network.now }
    requires plan { IfSome plan (λ p. FitsInOrder list.now.shape list.now.list network.now p.now) }
{
    match plan {
        Some(plan) => Ok(Some(crossings_of(alloc, network, plan, list)?)),
        None => Ok(None),
    }
}

// Adds the line of the plan in order.
fn put_plan(
    alloc: Global,
    text: &mut Vec<u8>,
    name: &str,
    network: &Network,
    plan: Option<&Plan>,
    list: &Defects,
) -> Result<(), AllocError>
    requires network { IsNetwork network.now }
    requires plan { IfSome plan (λ p. FitsInOrder list.now.shape list.now.list network.now p.now) }
{
    let crossings = crossings(alloc, network, plan, list)?;
    put_network(alloc, text, name, network)?;
    put_crossings(text, crossings)
}

// Adds the line of the plan in order, and hands out the plan where it fits.
fn put_and_hand_out(
    alloc: Global,
    text: &mut Vec<u8>,
    name: &str,
    network: &Network,
    list: &Defects,
) -> Result<Option<Plan>, AllocError>
    requires { IsNetwork network.now }
    ensures { IfOk result (λ o. IfSome o (FitsInOrder list.now.shape list.now.list network.now)) }
{
    let plan = fitting_plan(alloc, network, list)?;
    match put_plan(alloc, text, name, network, plan.as_ref(), list) {
        Ok(()) => Ok(plan),
        Err(fail) => Err(fail),
    }
}

// The crossings of a plan, where it fits.
fn fitting_crossings(
    alloc: Global,
    network: &Network,
    plan: &Plan,
    list: &Defects,
) -> Result<Option<u128>, AllocError>
    requires network { IsNetwork network.now }
    requires plan { IsPlan list.now.shape list.now.list network.now plan.now }
{
    if !fits(alloc, network, plan, list)? {
        return Ok(None);
    }
    Ok(Some(crossings_of(alloc, network, plan, list)?))
}

// The crossings of a plan with fewer of them, where it fits.
fn better_crossings(
    alloc: Global,
    network: &Network,
    plan: Plan,
    list: &Defects,
) -> Result<Option<u128>, AllocError>
    requires network { IsNetwork network.now }
    requires plan { FitsInOrder list.now.shape list.now.list network.now plan }
{
    let better = improve(alloc, network, plan, list)?;
    fitting_crossings(alloc, network, &better, list)
}

// Adds the line of the plan with fewer crossings.
fn put_improved(
    alloc: Global,
    text: &mut Vec<u8>,
    network: &Network,
    plan: Plan,
    list: &Defects,
) -> Result<(), AllocError>
    requires network { IsNetwork network.now }
    requires plan { FitsInOrder list.now.shape list.now.list network.now plan }
{
    let crossings = better_crossings(alloc, network, plan, list)?;
    put_network(alloc, text, "plan improved", network)?;
    put_crossings(text, crossings)
}

// Adds the line of the plan in order of a network.
fn put_in_order(
    alloc: Global,
    text: &mut Vec<u8>,
    name: &str,
    network: &Network,
    list: &Defects,
) -> Result<(), AllocError>
    requires { IsNetwork network.now }
{
    let plan = fitting_plan(alloc, network, list)?;
    put_plan(alloc, text, name, network, plan.as_ref(), list)
}

// Two copies can be counted in one network.
const MOST_DOUBLED: u32 = 2_147_483_647;

// Adds the line of the plan in order of two copies of a network, by which `twice` decides about room.
fn put_twice(
    alloc: Global,
    text: &mut Vec<u8>,
    network: &Network,
    list: &Defects,
) -> Result<(), AllocError>
    requires { IsNetwork network.now }
{
    let tables = network.tables.as_slice().len();
    if network.inputs > MOST_DOUBLED || tables > MOST_DOUBLED as usize {
        return Ok(());
    }
    let both = joint(alloc, network, network)?;
    put_in_order(alloc, text, "plan twice", &both, list)
}

// Adds the lines of the plain network and of two copies of it.
fn put_plain(
    alloc: Global,
    text: &mut Vec<u8>,
    network: &Network,
    list: &Defects,
) -> Result<(), AllocError>
    requires { IsNetwork network.now }
{
    put_in_order(alloc, text, "plan plain", network, list)?;
    put_twice(alloc, text, network, list)
}

// Adds the lines of the network with fewer tables.
fn put_merged(
    alloc: Global,
    text: &mut Vec<u8>,
    network: &Network,
    list: &Defects,
) -> Result<(), AllocError>
    requires { IsNetwork network.now }
{
    match put_and_hand_out(alloc, text, "plan merged", network, list)? {
        Some(plan) => put_improved(alloc, text, network, plan, list),
        None => Ok(()),
    }
}

// Makes the plain network, and adds its lines.
fn put_plain_of(
    alloc: Global,
    text: &mut Vec<u8>,
    netlist: &Netlist,
    list: &Defects,
) -> Result<(), AllocError> {
    let network = plain(alloc, netlist)?;
    put_plain(alloc, text, &network, list)
}

// Makes the network with fewer tables, and adds its lines.
fn put_merged_of(
    alloc: Global,
    text: &mut Vec<u8>,
    netlist: &Netlist,
    list: &Defects,
) -> Result<(), AllocError> {
    let network = merge_tables(alloc, netlist)?;
    put_merged(alloc, text, &network, list)
}

/// Adds a line for each of the four plans: the tables, nets and ticks of the network, and the crossings of the plan or that
/// it is short of something.
///
/// # Errors
///
/// Out of memory.
pub fn put_plans(
    alloc: Global,
    text: &mut Vec<u8>,
    netlist: &Netlist,
    list: &Defects,
) -> Result<(), AllocError> {
    put_plain_of(alloc, text, netlist, list)?;
    put_merged_of(alloc, text, netlist, list)
}
