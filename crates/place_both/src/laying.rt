//! Two designs side by side on a machine.
ghost use Rattle.std.specs.Prelude.{◌⊎◌, [], IfOk, IfErr, IfSome};
ghost use Rattle.place_plan.specs.Vocabulary.{Fits, FitsInOrder, IsPlan};
ghost use Rattle.place_pair.specs.JointNetworks.{joint_network};
ghost use Rattle.cmd_steps.specs.Vocabulary.{Outside, Took, StepStops};
ghost use Rattle.place_both.specs.Both.{AreLean, ArePlainInOrder, IsImageForBoth, lays_both};
ghost use Rattle.place_both.specs.Smaller.{AreFor, ArePlainFor, AreSmallerFor};

use crate::networks::{TwoNetworks, plain_networks};
use crate::smaller::{Smaller, smaller_for};
use cmd_steps::{Refusal, Stop};
use design_netlist::Netlist;
use machine_defects::Defects;
use machine_image::Image;
use place_design::no_place;
use place_pair::{joint, lay_pair_on};
use place_plan::{Plan, in_order};
use std::alloc::{AllocError, Global};

// The plan in order of the joint network of two designs' plain networks, where it fits.
fn plan_for(
    alloc: Global,
    first: &Netlist,
    second: &Netlist,
    networks: &TwoNetworks,
    list: &Defects,
) -> Result<Plan, Stop>
    requires { ArePlainFor first.now second.now networks.now }
    ensures found { IfOk result (FitsInOrder list.now.shape list.now.list (joint_network networks.now.first networks.now.second)) }
    ensures refused { IfErr result (StepStops (lays_both list.now first.now second.now)) }
{
    let network = joint(alloc, &networks.first, &networks.second)?;
    match in_order(alloc, &network, list) {
        Ok(plan) => Ok(plan),
        Err(fail) => Err(no_place(alloc, list.shape(), fail)),
    }
}

// The image of both designs by networks with their rows and no more tables than their plain ones, on a plan that fits.
fn drawn(
    alloc: Global,
    first: &Netlist,
    second: &Netlist,
    networks: &TwoNetworks,
    plan: &Plan,
    list: &Defects,
) -> Result<Image, AllocError>
    requires networks { AreFor first.now second.now networks.now }
    requires choice { ArePlainInOrder list.now first.now second.now networks.now.first networks.now.second plan.now ⊎
        AreLean list.now first.now second.now networks.now.first networks.now.second plan.now }
    requires plan { IsPlan list.now.shape list.now.list (joint_network networks.now.first networks.now.second) plan.now }
    requires fits { Fits list.now.shape list.now.list (joint_network networks.now.first networks.now.second) plan.now }
    ensures { IfOk result (IsImageForBoth list.now first.now second.now) }
{
    let pair = lay_pair_on(alloc, &networks.first, &networks.second, plan, list)?;
    // Their contracts say that the values are images.
    pair.whole.config();
    pair.first.config();
    pair.second.config();
    Ok(pair.whole)
}

// The image of both designs by networks with fewer tables, on their plan.
fn drawn_by(
    alloc: Global,
    first: &Netlist,
    second: &Netlist,
    smaller: &Smaller,
    list: &Defects,
) -> Result<Option<Image>, AllocError>
    requires { AreSmallerFor list.now first.now second.now smaller.now }
    ensures { IfOk result (λ o. IfSome o (IsImageForBoth list.now first.now second.now)) }
{
    let image = drawn(
        alloc,
        first,
        second,
        &smaller.networks,
        &smaller.placed.plan,
        list,
    )?;
    Ok(Some(image))
}

// The image of both designs by networks with fewer tables, if a plan of theirs fits.
fn drawn_smaller(
    alloc: Global,
    first: &Netlist,
    second: &Netlist,
    plain: &TwoNetworks,
    list: &Defects,
) -> Result<Option<Image>, AllocError>
    requires { ArePlainFor first.now second.now plain.now }
    ensures { IfOk result (λ o. IfSome o (IsImageForBoth list.now first.now second.now)) }
{
    match smaller_for(alloc, first, second, plain, list)? {
        Some(smaller) => drawn_by(alloc, first, second, &smaller, list),
        None => Ok(None),
    }
}

// The image of both designs, whose plain networks have this plan in order.
fn image_by(
    alloc: Global,
    first: &Netlist,
    second: &Netlist,
    networks: &TwoNetworks,
    plan: &Plan,
    list: &Defects,
) -> Result<Image, AllocError>
    requires networks { ArePlainFor first.now second.now networks.now }
    requires plan { FitsInOrder list.now.shape list.now.list (joint_network networks.now.first networks.now.second) plan.now }
    ensures { IfOk result (IsImageForBoth list.now first.now second.now) }
{
    match drawn_smaller(alloc, first, second, networks, list)? {
        Some(smaller) => Ok(smaller),
        None => drawn(alloc, first, second, networks, plan, list),
    }
}

// The image of both designs, of which these are the plain networks, or why there is none.
fn image_of(
    alloc: Global,
    first: &Netlist,
    second: &Netlist,
    networks: &TwoNetworks,
    list: &Defects,
) -> Result<Image, Stop>
    requires { ArePlainFor first.now second.now networks.now }
    ensures found { IfOk result (lays_both list.now first.now second.now).gives }
    ensures refused { IfErr result (StepStops (lays_both list.now first.now second.now)) }
{
    let plan = match plan_for(alloc, first, second, networks, list) {
        Ok(plan) => plan,
        Err(stop) => return Err(stop),
    };
    let image = image_by(alloc, first, second, networks, &plan, list)?;
    Ok(image)
}

// The image of both, or why there is none.
fn image_for(
    alloc: Global,
    first: &Netlist,
    second: &Netlist,
    list: &Defects,
) -> Result<Image, Stop>
    ensures found { IfOk result (lays_both list.now first.now second.now).gives }
    ensures refused { IfErr result (StepStops (lays_both list.now first.now second.now)) }
{
    match plain_networks(alloc, first, second)? {
        Some(networks) => image_of(alloc, first, second, &networks, list),
        None => Err(Stop::Refused(Refusal::Memory)),
    }
}

/// An image of both designs on what the list leaves free, where the in-order plan of the joint network of their plain networks
/// fits. It is that of networks with fewer tables, on a plan with fewer crossings, where such a plan fits. The two may be one
/// design, which is laid twice then.
///
/// # Errors
///
/// What the plan in order is short of, or out of memory. More tables than can be numbered count as that.
pub fn lay_both(
    alloc: Global,
    first: &Netlist,
    second: &Netlist,
    list: &Defects,
) -> Result<Image, Stop>
    // Whatever is around it.
    ensures took { (o : Outside) → Took [] (lays_both list.now first.now second.now) result o o }
{
    image_for(alloc, first, second, list)
}
