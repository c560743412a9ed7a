//! Designs that are laid on a machine.
ghost use Rattle.std.specs.Prelude.{◌≡◌, ◌≤◌, [], false, IfOk, IfErr, IfSome, length};
ghost use Rattle.machine_shape.specs.Limits.{is_small};
ghost use Rattle.map_network.specs.Vocabulary.{IsNetwork, IsPlainNetwork, plain_network, HasRowsOf};
ghost use Rattle.place_plan.specs.Vocabulary.{IsLayout, Fits, FitsInOrder, IsPlaceFail, IsPlan};
ghost use Rattle.cmd_steps.specs.Vocabulary.{Outside, StepStops, Took};
ghost use Rattle.place_design.specs.Laying.{lays, IsChosen, IsImageFor};
ghost use Rattle.place_design.specs.Smaller.{IsImproved, IsSmallerFor};

use crate::room::no_place;
use crate::smaller::{Improved, Smaller, found_plan, smaller_for};
use cmd_steps::{Refusal, Stop};
use design_netlist::Netlist;
use machine_defects::Defects;
use machine_image::Image;
use map_network::{Network, plain};
use place_plan::{PlaceFail, Placed, in_order_laid};
use place_route::route_laid;
use std::alloc::{AllocError, Global};

// The image of a network that has a design's rows and no more tables than its plain network, on a plan that fits, with its layout.
fn drawn(
    alloc: Global,
    netlist: &Netlist,
    network: &Network,
    placed: &Placed,
    defects: &Defects,
) -> Result<Image, AllocError>
    requires network { IsNetwork network.now }
    requires rows { HasRowsOf network.now netlist.now }
    requires inputs { network.now.inputs ≡ length netlist.now.inputs }
    requires outputs { length network.now.outputs ≡ length netlist.now.outputs }
    requires tables { length network.now.tables ≤ length (plain_network netlist.now).tables }
    requires choice { IsChosen defects.now netlist.now network.now placed.now.plan }
    requires plan { IsPlan defects.now.shape defects.now.list network.now placed.now.plan }
    requires fits { Fits defects.now.shape defects.now.list network.now placed.now.plan }
    requires layout { IsLayout defects.now.shape defects.now.list network.now placed.now.plan placed.now.layout }
    ensures { IfOk result (IsImageFor defects.now netlist.now) }
{
    let image = route_laid(alloc, network, &placed.plan, &placed.layout, defects)?;
    // Its contract says that the value is an image.
    image.config();
    Ok(image)
}

// An image of a design by a network with fewer tables, on its plan.
fn drawn_by(
    alloc: Global,
    netlist: &Netlist,
    smaller: &Smaller,
    defects: &Defects,
) -> Result<Option<Image>, AllocError>
    requires { IsSmallerFor defects.now netlist.now smaller.now }
    ensures { IfOk result (λ o. IfSome o (IsImageFor defects.now netlist.now)) }
{
    let image = drawn(alloc, netlist, &smaller.network, &smaller.placed, defects)?;
    Ok(Some(image))
}

// An image of a design by a network with fewer tables, if one of them has a plan that fits.
fn drawn_smaller(
    alloc: Global,
    netlist: &Netlist,
    whole: &Network,
    defects: &Defects,
) -> Result<Option<Image>, AllocError>
    requires plain { IsPlainNetwork netlist.now whole.now }
    requires network { IsNetwork whole.now }
    requires rows { HasRowsOf whole.now netlist.now }
    ensures { IfOk result (λ o. IfSome o (IsImageFor defects.now netlist.now)) }
{
    match smaller_for(alloc, netlist, whole, defects)? {
        Some(smaller) => drawn_by(alloc, netlist, &smaller, defects),
        None => Ok(None),
    }
}

// An image of a design whose network has a plan in order that fits.
fn drawn_in_order(
    alloc: Global,
    netlist: &Netlist,
    whole: &Network,
    placed: &Placed,
    defects: &Defects,
) -> Result<Image, AllocError>
    requires plain { IsPlainNetwork netlist.now whole.now }
    requires network { IsNetwork whole.now }
    requires rows { HasRowsOf whole.now netlist.now }
    requires fits { FitsInOrder defects.now.shape defects.now.list whole.now placed.now.plan }
    requires layout { IsLayout defects.now.shape defects.now.list whole.now placed.now.plan placed.now.layout }
    ensures { IfOk result (IsImageFor defects.now netlist.now) }
{
    match drawn_smaller(alloc, netlist, whole, defects)? {
        Some(image) => Ok(image),
        None => drawn(alloc, netlist, whole, placed, defects),
    }
}

// An image of a design on a plan that was found, on a machine that isn't small.
fn drawn_found(
    alloc: Global,
    netlist: &Netlist,
    whole: &Network,
    found: &Improved,
    defects: &Defects,
) -> Result<Option<Image>, AllocError>
    requires plain { IsPlainNetwork netlist.now whole.now }
    requires network { IsNetwork whole.now }
    requires rows { HasRowsOf whole.now netlist.now }
    requires large { is_small defects.now.shape.counts ≡ false }
    requires found { IsImproved defects.now whole.now found.now }
    ensures { IfOk result (λ o. IfSome o (IsImageFor defects.now netlist.now)) }
{
    let image = drawn(alloc, netlist, whole, &found.placed, defects)?;
    Ok(Some(image))
}

// An image of a design on a plan that was found, if one is, on a machine that isn't small.
fn drawn_on_found(
    alloc: Global,
    netlist: &Netlist,
    whole: &Network,
    defects: &Defects,
) -> Result<Option<Image>, AllocError>
    requires plain { IsPlainNetwork netlist.now whole.now }
    requires network { IsNetwork whole.now }
    requires rows { HasRowsOf whole.now netlist.now }
    requires large { is_small defects.now.shape.counts ≡ false }
    ensures { IfOk result (λ o. IfSome o (IsImageFor defects.now netlist.now)) }
{
    match found_plan(alloc, whole, defects)? {
        Some(found) => drawn_found(alloc, netlist, whole, &found, defects),
        None => Ok(None),
    }
}

// An image of a design whose network's plan in order doesn't fit, if the machine isn't small and another plan fits.
fn drawn_out_of_order(
    alloc: Global,
    netlist: &Netlist,
    whole: &Network,
    defects: &Defects,
) -> Result<Option<Image>, AllocError>
    requires plain { IsPlainNetwork netlist.now whole.now }
    requires network { IsNetwork whole.now }
    requires rows { HasRowsOf whole.now netlist.now }
    ensures image { IfOk result (λ o. IfSome o (IsImageFor defects.now netlist.now)) }
    ensures large { IfOk result (λ o. IfSome o (λ _. is_small defects.now.shape.counts ≡ false)) }
{
    if defects.shape().is_small() {
        return Ok(None);
    }
    let smaller = drawn_smaller(alloc, netlist, whole, defects)?;
    if smaller.is_some() {
        return Ok(smaller);
    }
    drawn_on_found(alloc, netlist, whole, defects)
}

// The image of a design whose network has a plan in order that fits.
fn image_in_order(
    alloc: Global,
    netlist: &Netlist,
    whole: &Network,
    placed: &Placed,
    defects: &Defects,
) -> Result<Image, Stop>
    requires plain { IsPlainNetwork netlist.now whole.now }
    requires network { IsNetwork whole.now }
    requires rows { HasRowsOf whole.now netlist.now }
    requires fits { FitsInOrder defects.now.shape defects.now.list whole.now placed.now.plan }
    requires layout { IsLayout defects.now.shape defects.now.list whole.now placed.now.plan placed.now.layout }
    ensures found { IfOk result (lays defects.now netlist.now).gives }
    ensures refused { IfErr result (StepStops (lays defects.now netlist.now)) }
{
    let image = drawn_in_order(alloc, netlist, whole, placed, defects)?;
    Ok(image)
}

// The image of a design whose network's plan in order doesn't fit, or why there is none.
fn image_out_of_order(
    alloc: Global,
    netlist: &Netlist,
    whole: &Network,
    defects: &Defects,
    fail: PlaceFail,
) -> Result<Image, Stop>
    requires plain { IsPlainNetwork netlist.now whole.now }
    requires network { IsNetwork whole.now }
    requires rows { HasRowsOf whole.now netlist.now }
    requires fail { IsPlaceFail defects.now.shape defects.now.list whole.now fail }
    ensures found { IfOk result (lays defects.now netlist.now).gives }
    ensures refused { IfErr result (StepStops (lays defects.now netlist.now)) }
{
    match drawn_out_of_order(alloc, netlist, whole, defects)? {
        Some(image) => Ok(image),
        None => Err(no_place(alloc, defects.shape(), fail)),
    }
}

// The image of a design with this plain network, or why there is none.
fn image_by(
    alloc: Global,
    netlist: &Netlist,
    whole: &Network,
    defects: &Defects,
) -> Result<Image, Stop>
    requires plain { IsPlainNetwork netlist.now whole.now }
    requires network { IsNetwork whole.now }
    requires rows { HasRowsOf whole.now netlist.now }
    ensures found { IfOk result (lays defects.now netlist.now).gives }
    ensures refused { IfErr result (StepStops (lays defects.now netlist.now)) }
{
    match in_order_laid(alloc, whole, defects) {
        Ok(placed) => image_in_order(alloc, netlist, whole, &placed, defects),
        Err(PlaceFail::Memory) => Err(Stop::Refused(Refusal::Memory)),
        Err(fail) => image_out_of_order(alloc, netlist, whole, defects, fail),
    }
}

// The image, or why there is none.
fn image_for(alloc: Global, netlist: &Netlist, defects: &Defects) -> Result<Image, Stop>
    ensures found { IfOk result (lays defects.now netlist.now).gives }
    ensures refused { IfErr result (StepStops (lays defects.now netlist.now)) }
{
    let network = plain(alloc, netlist)?;
    image_by(alloc, netlist, &network, defects)
}

/// An image of a design on what the list leaves free, where there is room for its plain network in order. It is that of a
/// network with fewer tables, on a plan with fewer crossings, where such a plan fits. On a machine that isn't small there is also one
/// where a plan is found that fits, of such a network or of the plain one. No table of it is on and no crosspoint closed that
/// the network doesn't need. Unless it is the plain network, each table leads to an output, and no path of tables
/// is longer than in the plain network; unless the plan is that in order, nets cross at most as many nodes in sum as by that.
///
/// # Errors
///
/// The refusal for want of room only where the in-order plan of the plain network doesn't fit, and on a small machine exactly
/// there, with the first short resource, unless memory is lacking; out of memory.
pub fn lay(alloc: Global, netlist: &Netlist, defects: &Defects) -> Result<Image, Stop>
    // Whatever is around it.
    ensures took { (o : Outside) → Took [] (lays defects.now netlist.now) result o o }
{
    image_for(alloc, netlist, defects)
}
