//! Texts that there is room for on a machine.
ghost use Rattle.std.specs.Prelude.{◌≡◌, ◌≤◌, Some, IfOk, IfErr, IfSome, IsTrue, OnOk, length};
ghost use Rattle.base_text.specs.Size.{most_bytes};
ghost use Rattle.design_blif.specs.Designs.{IsDesign};
ghost use Rattle.map_network.specs.Plain.{plain_network};
ghost use Rattle.place_plan.specs.Plans.{IsPlaceFail};
ghost use Rattle.map_text.specs.Remapped.{HasNarrowCovers, HasPlan, IsAnotherText, IsFitting, IsNarrowOr, IsRemapped};
ghost use Rattle.map_text.specs.Remapped.{MayStandFor, tables_in};

use crate::check::check_drawn;
use crate::rounds::remapped;
use crate::text::{Remapped, given_text, head_of};
use base_lists::Items;
use design_netlist::Netlist;
use machine_defects::Defects;
use map_network::{plain, plain_size};
use map_search::{Head, Made, Mapped, Way, graph_of};
use place_order::{Effort, order_covers};
use place_plan::{PlaceFail, in_order};
use std::alloc::{AllocError, Global};

// Whether the in-order plan of the plain network fits a list, and what is short where it doesn't.
fn look_for_room(alloc: Global, netlist: &Netlist, defects: &Defects) -> Result<(), PlaceFail>
    ensures found { OnOk result (HasPlan defects.now netlist.now) }
    ensures refused { IfErr result (IsPlaceFail defects.now.shape defects.now.list (plain_network netlist.now)) }
{
    let network = plain(alloc, netlist)?;
    match in_order(alloc, &network, defects) {
        Ok(_) => Ok(()),
        Err(fail) => Err(fail),
    }
}

// Whether it fits.
fn has_room(alloc: Global, netlist: &Netlist, defects: &Defects) -> Result<bool, AllocError>
    ensures { IfOk result (λ yes. IsTrue yes → HasPlan defects.now netlist.now) }
{
    match look_for_room(alloc, netlist, defects) {
        Ok(()) => Ok(true),
        Err(PlaceFail::Short(_)) => Ok(false),
        Err(PlaceFail::Memory) => Err(AllocError),
    }
}

/// How an order is sought: with at most so many empty covers, and how long.
#[derive(Clone, Copy)]
struct Seek {
    spare: u32,
    effort: Effort,
}

/// Without empty covers, not long.
const BRIEF: Seek = Seek {
    spare: 0,
    effort: Effort::Brief,
};

// The text of a design in an order for a machine, if it may stand for the design.
fn in_new_order(
    alloc: Global,
    design: &Netlist,
    defects: &Defects,
    seek: Seek,
    head: &Head,
) -> Result<Option<Remapped>, AllocError>
    ensures another { IfOk result (λ o. IfSome o (λ r. IsAnotherText design.now r.text r.netlist)) }
    ensures narrow { IfOk result (λ o. IfSome o (λ r. HasNarrowCovers r.netlist)) }
{
    match graph_of(alloc, design, Way::Pairs)? {
        Some(made) => in_order_by(alloc, design, &made, defects, seek, head),
        None => Ok(None),
    }
}

// A design in an order for a machine, with the labels of its graph.
fn drawn_in_order(
    alloc: Global,
    design: &Netlist,
    made: &Made,
    defects: &Defects,
    seek: Seek,
) -> Result<Mapped, AllocError> {
    let labels = made.labels.as_slice().to_vec(alloc)?;
    let draft = order_covers(alloc, design.parts(), defects, seek.spare, seek.effort)?;
    Ok(Mapped {
        draft,
        labels: Items::new(labels),
    })
}

// Its text by its graph, if it may stand for the design.
fn in_order_by(
    alloc: Global,
    design: &Netlist,
    made: &Made,
    defects: &Defects,
    seek: Seek,
    head: &Head,
) -> Result<Option<Remapped>, AllocError>
    ensures another { IfOk result (λ o. IfSome o (λ r. IsAnotherText design.now r.text r.netlist)) }
    ensures narrow { IfOk result (λ o. IfSome o (λ r. HasNarrowCovers r.netlist)) }
{
    let drawn = drawn_in_order(alloc, design, made, defects, seek)?;
    check_drawn(alloc, design, made, &drawn, head)
}

// Whether a design has no more tables than the given one, and there is room for it.
fn is_roomy(
    alloc: Global,
    netlist: &Netlist,
    other: &Netlist,
    defects: &Defects,
) -> Result<bool, AllocError>
    ensures fewer { IfOk result (λ yes. IsTrue yes → tables_in other.now ≤ tables_in netlist.now) }
    ensures room { IfOk result (λ yes. IsTrue yes → HasPlan defects.now other.now) }
{
    let tables = plain_size(alloc, other)?;
    let most = plain_size(alloc, netlist)?;
    if tables > most {
        return Ok(false);
    }
    let room = has_room(alloc, other, defects)?;
    Ok(room)
}

// The text that was found, if it has no more tables than the given design, and there is room for it.
fn with_room(
    alloc: Global,
    netlist: &Netlist,
    found: Option<Remapped>,
    defects: &Defects,
) -> Result<Option<Remapped>, AllocError>
    ensures same { IfOk result (λ o. IfSome o (λ r. found ≡ Some r)) }
    ensures fewer { IfOk result (λ o. IfSome o (λ r. tables_in r.netlist ≤ tables_in netlist.now)) }
    ensures room { IfOk result (λ o. IfSome o (λ r. HasPlan defects.now r.netlist)) }
{
    match found {
        Some(text) => {
            if is_roomy(alloc, netlist, &text.netlist, defects)? {
                return Ok(Some(text));
            }
            Ok(None)
        }
        None => Ok(None),
    }
}

// An order of a design for which there is room, if one is found; with no more tables than the given design.
fn find_fitting(
    alloc: Global,
    netlist: &Netlist,
    design: &Netlist,
    defects: &Defects,
    seek: Seek,
    head: &Head,
) -> Result<Option<Remapped>, AllocError>
    ensures { IfOk result (λ o. IfSome o (IsFitting netlist.now design.now defects.now)) }
{
    let found = in_new_order(alloc, design, defects, seek, head)?;
    with_room(alloc, netlist, found, defects)
}

// How an order of a design is sought long: with as many empty covers as it has fewer tables than the given one.
fn long_seek(alloc: Global, netlist: &Netlist, design: &Netlist) -> Result<Seek, AllocError> {
    let most = plain_size(alloc, netlist)?;
    let tables = plain_size(alloc, design)?;
    let fewer = most.saturating_sub(tables);
    let spare = fewer.min(u64::from(u32::MAX)) as u32;
    let effort = Effort::Full;
    Ok(Seek { spare, effort })
}

// An order of the remapped design for which there is room, if one is found: without and with empty covers.
fn remapped_order(
    alloc: Global,
    netlist: &Netlist,
    design: &Netlist,
    defects: &Defects,
    head: &Head,
) -> Result<Option<Remapped>, AllocError>
    ensures { IfOk result (λ o. IfSome o (IsFitting netlist.now design.now defects.now)) }
{
    match find_fitting(alloc, netlist, design, defects, BRIEF, head)? {
        Some(text) => Ok(Some(text)),
        None => {
            let long = long_seek(alloc, netlist, design)?;
            find_fitting(alloc, netlist, design, defects, long, head)
        }
    }
}

// An order for which there is room, if one is found: of the remapped text, without and with empty covers, and of the given one.
fn some_order(
    alloc: Global,
    netlist: &Netlist,
    mapped: &Remapped,
    defects: &Defects,
    head: &Head,
) -> Result<Option<Remapped>, AllocError>
    requires { IsRemapped netlist.now mapped.now.text mapped.now.netlist }
    ensures remapped { IfOk result (λ o. IfSome o (λ r. IsRemapped netlist.now r.text r.netlist)) }
    ensures narrow { IfOk result (λ o. IfSome o (λ r. HasNarrowCovers r.netlist)) }
    ensures room { IfOk result (λ o. IfSome o (λ r. HasPlan defects.now r.netlist)) }
{
    match remapped_order(alloc, netlist, &mapped.netlist, defects, head)? {
        Some(text) => Ok(Some(text)),
        None => find_fitting(alloc, netlist, netlist, defects, BRIEF, head),
    }
}

// A text of a design for which there is room, where there is none for the remapped one: an order of that or of the given one, or
// the given one itself.
fn some_within(
    alloc: Global,
    text: &[u8],
    netlist: &Netlist,
    mapped: &Remapped,
    defects: &Defects,
) -> Result<Remapped, PlaceFail>
    requires design { IsDesign text.now netlist.now }
    requires short { length text.now ≤ most_bytes }
    requires mapped { IsRemapped netlist.now mapped.now.text mapped.now.netlist }
    ensures remapped { IfOk result (λ r. IsRemapped netlist.now r.text r.netlist) }
    ensures narrow { IfOk result (IsNarrowOr text.now) }
    ensures room { IfOk result (λ r. HasPlan defects.now r.netlist) }
    ensures refused { IfErr result (IsPlaceFail defects.now.shape defects.now.list (plain_network netlist.now)) }
{
    let head = head_of(alloc, text, netlist)?;
    match some_order(alloc, netlist, mapped, defects, &head)? {
        Some(found) => Ok(found),
        None => {
            let own = given_text(alloc, text, netlist)?;
            match look_for_room(alloc, netlist, defects) {
                Ok(()) => Ok(own),
                Err(fail) => Err(fail),
            }
        }
    }
}

/// Another text of a design, with the same rows and no more tables, for which there is room on a machine: the in-order plan of its
/// plain network fits the list. The text of [`remapped`] is tried, orders of it and of the given one, and the given one itself.
///
/// # Errors
///
/// `Short` where that plan of the given design doesn't fit, and no text that was tried fits, with what is short for the given
/// design. `Memory` for lack of memory.
pub fn remapped_within(
    alloc: Global,
    text: &[u8],
    netlist: &Netlist,
    defects: &Defects,
) -> Result<Remapped, PlaceFail>
    requires design { IsDesign text.now netlist.now }
    requires short { length text.now ≤ most_bytes }
    ensures remapped { IfOk result (λ r. IsRemapped netlist.now r.text r.netlist) }
    ensures narrow { IfOk result (IsNarrowOr text.now) }
    ensures room { IfOk result (λ r. HasPlan defects.now r.netlist) }
    ensures refused { IfErr result (IsPlaceFail defects.now.shape defects.now.list (plain_network netlist.now)) }
{
    let mapped = remapped(alloc, text, netlist)?;
    if has_room(alloc, &mapped.netlist, defects)? {
        return Ok(mapped);
    }
    some_within(alloc, text, netlist, &mapped, defects)
}
