//! What a trial of a wire that isn't known closes besides a way, and the pins that it drives.
ghost use Rattle.std.specs.Prelude.{◌≡◌, ◌<◌, ℕ, Some, IfOk, IfSome, IfNone, OnOk, IsTrue, IsErrOf, false, length, slice_get};
ghost use Rattle.machine_shape.specs.Shape.{pins_of};
ghost use Rattle.diag_tests.specs.Routes.{IsRoute, Walk, cross_numbers};
ghost use Rattle.diag_known.specs.Known.{IsKnown};
ghost use Rattle.diag_known.specs.Offers.{Adds, InSome, IsOn, IsHung, IsHanging, HangsOnSome, HangsOnNone, HangsNot, ArePulled};
ghost use Rattle.diag_known.specs.Reaches.{IsReached};
ghost use Rattle.diag_known.specs.declared.verified_wire.Support.{Support};

use crate::beside::{Reach, find_reached, reach_at};
use crate::tour::walks;
use crate::{Known, Support};
use diag_evidence::Facts;
use diag_tests::Route;
use machine_shape::{Cross, Pin, Wire};
use rig::{PinBits, RigFail};
use std::alloc::{AllocError, Global};

/// A crosspoint from a known wire to one that isn't known, and others to it from other known wires.
#[derive(Drop)]
pub struct Offer {
    pub wire: Wire,
    pub foot: Support,
    pub others: Vec<Support>,
}

/// On what a wire hangs beside a way: walks from pins, and the crosspoints that are closed for it.
#[derive(Drop)]
pub struct Hanging {
    pub walks: Vec<Route>,
    pub ties: Vec<Cross>,
}

// Puts the crosspoints of a route.
fn put_steps(ties: &mut Vec<Cross>, route: &Route) -> Result<(), AllocError>
    ensures { OnOk result (Adds (IsOn route.now) (cross_numbers ties.old.items) (cross_numbers ties.new.items)) }
{
    'steps: for k in 0..route.len() {
        ties.push(route.cross_at(k))?;
    }
    Ok(())
}

/// Puts the crosspoints of some routes.
pub fn put_walks(ties: &mut Vec<Cross>, routes: &[Route]) -> Result<(), AllocError>
    ensures { OnOk result (Adds (InSome routes.now IsOn) (cross_numbers ties.old.items) (cross_numbers ties.new.items)) }
{
    'routes: for k in 0..routes.len() {
        put_steps(ties, &routes[k])?;
    }
    Ok(())
}

// Whether a wire is reached.
pub(crate) fn is_reached(reaches: &Vec<Reach>, w: Wire) -> bool
    ensures reached { IsTrue result → IsReached reaches.now.items w.0 }
    ensures other { result ≡ false → ¬ IsReached reaches.now.items w.0 }
{
    match reach_at(reaches, w) {
        Reach::From(_) => true,
        _ => false,
    }
}

// Puts the crosspoint of a link, if its known end is reached.
fn put_link(ties: &mut Vec<Cross>, reaches: &Vec<Reach>, link: Support) -> Result<(), AllocError>
    ensures { OnOk result (Adds (IsHung reaches.now.items link) (cross_numbers ties.old.items) (cross_numbers ties.new.items)) }
{
    if !is_reached(reaches, link.wire) {
        return Ok(());
    }
    ties.push(link.cross)?;
    Ok(())
}

// Puts the crosspoints of those links whose known ends are reached.
fn put_links(
    ties: &mut Vec<Cross>,
    reaches: &Vec<Reach>,
    links: &[Support],
) -> Result<(), AllocError>
    ensures { OnOk result (Adds (InSome links.now (IsHung reaches.now.items)) (cross_numbers ties.old.items)
        (cross_numbers ties.new.items)) }
{
    'links: for k in 0..links.len() {
        put_link(ties, reaches, links[k])?;
    }
    Ok(())
}

// The known ends of links.
fn known_ends(alloc: Global, links: &[Support]) -> Result<Vec<Wire>, AllocError>
    ensures { IfOk result (λ ends. (j : ℕ) (a : Support) → slice_get links.now j ≡ Some a → slice_get ends.items j ≡ Some a.wire) }
{
    let mut ends = Vec::new(alloc);
    'links: for k in 0..links.len() {
        ends.push(links[k].wire)?;
    }
    Ok(ends)
}

// Whether the known end of one of the links is reached.
fn is_hung(reaches: &Vec<Reach>, links: &[Support]) -> bool
    ensures some { IsTrue result → HangsOnSome reaches.now.items links.now }
    ensures none { result ≡ false → HangsOnNone reaches.now.items links.now }
{
    'links: for k in 0..links.len() {
        if is_reached(reaches, links[k].wire) {
            return true;
        }
    }
    false
}

/// On what the wire of an offer hangs beside a way: none where nothing is reached there.
pub(crate) fn hung_beside(
    known: &Known,
    facts: &Facts,
    offer: &Offer,
    way: &Route,
) -> Result<Option<Hanging>, AllocError>
    requires known { IsKnown facts.now known.now }
    requires way { IsRoute facts.now.shape way.now }
    ensures hung { IfOk result (λ found. IfSome found
        (λ h. IsHanging facts.now known.now.steps offer.now way.now h.walks.items (cross_numbers h.ties.items))) }
    ensures none { IfOk result (λ found. IfNone found (HangsNot known.now.steps offer.now way.now)) }
{
    let mut reaches = Vec::new(known.alloc());
    find_reached(known, facts, way, &mut reaches)?;
    if !is_hung(&reaches, &offer.others) {
        return Ok(None);
    }
    let ends = known_ends(known.alloc(), &offer.others)?;
    let walks = walks(known, facts, &reaches, &ends)?;
    let mut ties = Vec::new(known.alloc());
    ties.push(offer.foot.cross)?;
    put_walks(&mut ties, &walks)?;
    put_links(&mut ties, &reaches, &offer.others)?;
    Ok(Some(Hanging { walks, ties }))
}

/// The pins of these routes, and no others, are driven 0.
pub(crate) fn pulled(facts: &mut Facts, routes: &[Route]) -> Result<PinBits, RigFail>
    requires { (j : ℕ) (r : Walk) → slice_get routes.now j ≡ Some r → r.pin < pins_of facts.old.shape }
    ensures pulled { IfOk result (ArePulled routes.now) }
    ensures length { IfOk result (λ drive. length drive ≡ pins_of facts.old.shape) }
    ensures memory { IsErrOf result RigFail.Failed → ⊥ }
    ensures same { facts.new ≡ facts.old }
{
    let Ok(mut drive) = facts.released() else {
        return Err(RigFail::Memory);
    };
    'routes: for k in 0..routes.len() {
        drive.set(Pin(routes[k].pin()), false);
    }
    Ok(drive)
}
