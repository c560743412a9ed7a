//! Whether a plan fits, and the in-order plan where it does.
ghost use Rattle.std.specs.Prelude.{◌↔◌, ◌≤◌, IfOk, IfErr, IfSome, IfNone, IsTrue, length};
ghost use Rattle.machine_shape.specs.Bounds.{most_ticks};
ghost use Rattle.place_plan.specs.Plans.{Fits, FitsInOrder, IsInOrder, IsPlaceFail, IsPlan};
ghost use Rattle.place_plan.specs.Laying.{FitsWith, IsLaid, IsLayout};
ghost use Rattle.map_network.specs.Networks.{IsNetwork};

use crate::layout::{Laid, Layout, Placed};
use crate::order::{free_pins, free_tables, pins_wanted, sit, tables_wanted};
use crate::plan::Plan;
use crate::room::look_for_room;
use crate::short::{Need, PlaceFail, Resource, Room, short_of};
use crate::terminals::nets_of_plan;
use machine_defects::Defects;
use map_network::Network;
use std::alloc::{AllocError, Global};

// The layout of a plan, or the first short resource.
fn laid(
    alloc: Global,
    network: &Network,
    plan: &Plan,
    defects: &Defects,
    tables: Need,
    pins: Need,
) -> Result<Laid, AllocError>
    requires network { IsNetwork network.now }
    requires few { tables.need ≤ tables.have → length network.now.tables ≤ most_ticks defects.now.shape }
    requires plan { IsPlan defects.now.shape defects.now.list network.now plan.now }
    ensures { IfOk result (IsLaid defects.now.shape defects.now.list network.now plan.now tables pins) }
{
    machine_shape::the_numbering_is_sound();
    machine_shape::the_crosspoints_are_sound();
    machine_shape::ports_and_lines_ascend();
    let nets = nets_of_plan(alloc, defects, network, plan)?;
    match look_for_room(alloc, defects, &nets, tables, pins)? {
        Room::Enough { ports, visits } => Ok(Laid::Out(Layout {
            nets,
            ports,
            visits,
        })),
        Room::Lacks(short) => Ok(Laid::Lacks(short)),
    }
}

/// The layout of a plan, which says for each net the port and the line that it has at each node that it crosses and
/// visits. None exactly where the plan doesn't fit.
///
/// # Errors
///
/// Out of memory.
pub fn lay_out(
    alloc: Global,
    network: &Network,
    plan: &Plan,
    defects: &Defects,
) -> Result<Option<Layout>, AllocError>
    requires network { IsNetwork network.now }
    requires plan { IsPlan defects.now.shape defects.now.list network.now plan.now }
    ensures some { IfOk result (λ o. IfSome o (FitsWith defects.now.shape defects.now.list network.now plan.now)) }
    ensures none { IfOk result (λ o. IfNone o (¬ Fits defects.now.shape defects.now.list network.now plan.now)) }
{
    let most = defects.shape().most_ticks();
    let tables = free_tables(alloc, defects)?;
    let pins = free_pins(alloc, defects)?;
    let tables = tables_wanted(network, tables.as_slice(), most);
    let pins = pins_wanted(network, pins.as_slice());
    match laid(alloc, network, plan, defects, tables, pins)? {
        Laid::Out(layout) => Ok(Some(layout)),
        Laid::Lacks(_) => Ok(None),
    }
}

/// Whether a plan fits: tables, pins, ports and lines suffice for it. False exactly where they don't.
///
/// # Errors
///
/// Out of memory.
pub fn fits(
    alloc: Global,
    network: &Network,
    plan: &Plan,
    defects: &Defects,
) -> Result<bool, AllocError>
    requires network { IsNetwork network.now }
    requires plan { IsPlan defects.now.shape defects.now.list network.now plan.now }
    ensures { IfOk result (λ b. IsTrue b ↔ Fits defects.now.shape defects.now.list network.now plan.now) }
{
    match lay_out(alloc, network, plan, defects)? {
        Some(_) => Ok(true),
        None => Ok(false),
    }
}

/// The in-order plan, whether it fits or not; none where there are too few tables or pins for it.
///
/// # Errors
///
/// Out of memory.
pub fn seat_in_order(
    alloc: Global,
    network: &Network,
    defects: &Defects,
) -> Result<Option<Plan>, AllocError>
    ensures plan { IfOk result (λ o. IfSome o (IsPlan defects.now.shape defects.now.list network.now)) }
    ensures in_order { IfOk result (λ o. IfSome o (IsInOrder defects.now.shape defects.now.list network.now)) }
{
    let most = defects.shape().most_ticks();
    let free_tables = free_tables(alloc, defects)?;
    let free_pins = free_pins(alloc, defects)?;
    let tables = tables_wanted(network, free_tables.as_slice(), most);
    let pins = pins_wanted(network, free_pins.as_slice());
    if tables.have < tables.need {
        return Ok(None);
    }
    if pins.have < pins.need {
        return Ok(None);
    }
    let plan = sit(alloc, network, free_tables.as_slice(), free_pins.as_slice())?;
    Ok(Some(plan))
}

/// The in-order plan with its layout: the k-th table of the network on the k-th free table, the inputs and then the outputs
/// on the free pins in order.
///
/// # Errors
///
/// `Short` exactly where that plan doesn't fit, with the first short resource: tables, pins, and then node by node ports,
/// lines. `Memory` for lack of memory.
pub fn in_order_laid(
    alloc: Global,
    network: &Network,
    defects: &Defects,
) -> Result<Placed, PlaceFail>
    requires { IsNetwork network.now }
    ensures plan { IfOk result (λ placed. FitsInOrder defects.now.shape defects.now.list network.now placed.plan) }
    ensures layout { IfOk result (λ placed. IsLayout defects.now.shape defects.now.list network.now placed.plan placed.layout) }
    ensures fail { IfErr result (IsPlaceFail defects.now.shape defects.now.list network.now) }
{
    let most = defects.shape().most_ticks();
    let free_tables = free_tables(alloc, defects)?;
    let free_pins = free_pins(alloc, defects)?;
    let tables = tables_wanted(network, free_tables.as_slice(), most);
    let pins = pins_wanted(network, free_pins.as_slice());
    if tables.have < tables.need {
        return Err(PlaceFail::Short(short_of(alloc, Resource::Tables, tables)));
    }
    if pins.have < pins.need {
        return Err(PlaceFail::Short(short_of(alloc, Resource::Pins, pins)));
    }
    let plan = sit(alloc, network, free_tables.as_slice(), free_pins.as_slice())?;
    match laid(alloc, network, &plan, defects, tables, pins)? {
        Laid::Out(layout) => Ok(Placed { plan, layout }),
        Laid::Lacks(short) => Err(PlaceFail::Short(short)),
    }
}

/// The in-order plan, as [`in_order_laid`] finds it.
///
/// # Errors
///
/// As there.
pub fn in_order(alloc: Global, network: &Network, defects: &Defects) -> Result<Plan, PlaceFail>
    requires { IsNetwork network.now }
    ensures plan { IfOk result (FitsInOrder defects.now.shape defects.now.list network.now) }
    ensures fail { IfErr result (IsPlaceFail defects.now.shape defects.now.list network.now) }
{
    match in_order_laid(alloc, network, defects) {
        Ok(placed) => Ok(placed.plan),
        Err(fail) => Err(fail),
    }
}
