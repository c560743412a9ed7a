//! Repairs an image.
ghost use Rattle.std.specs.Prelude.{◌≡◌, ◌≤◌, ◌<◌, ◌^◌, All, IfOk, IfErr, length};
ghost use Rattle.std.specs.FinSet as set;
ghost use Rattle.machine_shape.specs.Vocabulary.{most_repaired};
ghost use Rattle.machine_image.specs.Parts.{IsFreeImage};
ghost use Rattle.place_route.specs.Routed.{AreWiresOf};
ghost use Rattle.place_repair.specs.Making.{AreApart, ArePinsApart, AreSizedFor, IsPlanOf, IsRedrawn, IsRoomBeside};
ghost use Rattle.place_plan.specs.Choices.{AreWires};
ghost use Rattle.place_plan.specs.Layouts.{IsRoom};
ghost use Rattle.place_plan.specs.declared.short.PlaceFail.TheVariants as refused;
ghost use Rattle.place_plan.specs.Room.{HasTerminal, IsMet};
ghost use Rattle.place_repair.specs.Plans.{AreSeats, need_of};
ghost use Rattle.place_repair.specs.Repairs.{HasSameRows, IsRepair, IsRepairFail};

use crate::drawing::draw;
use crate::nets::{NetList, nets_by_wire};
use crate::plan::{Plan, plan_of};
use crate::rest::rest_of;
use crate::seats::{Seats, moved, need_of, seats_of};
use crate::terminals::terminals_of;
use base_lists::Items;
use machine_defects::Defects;
use machine_image::Image;
use place_plan::{Layout, Need, PlaceFail, Resource, Room, look_for_room_keeping, short_of};
use std::alloc::{AllocError, Global};

// The image that follows a plan and whose moving nets have this layout.
fn redraw(alloc: Global, image: &Image, plan: &Plan, layout: &Layout) -> Result<Image, AllocError>
    requires few { set.len image.now.config.closed ≤ most_repaired image.now.config.shape }
    requires plan { AreSizedFor image.now.config plan.now }
    requires tables { AreApart image.now.config plan.now }
    requires pins { ArePinsApart image.now plan.now }
    requires nets { length layout.now.nets.items < 4294967296 }
    requires wires { AreWiresOf image.now.config.shape layout.now.nets.items layout.now.ports.items layout.now.visits.items }
    ensures { IfOk result (IsRedrawn image.now plan.now layout.now.nets.items layout.now.ports.items layout.now.visits.items) }
{
    let old = image.config();
    let config = draw(alloc, old, plan, layout)?;
    let inputs = moved(alloc, &plan.pins, image.inputs())?;
    let outputs = moved(alloc, &plan.pins, image.outputs())?;
    Ok(Image::new(config, inputs, outputs))
}

// The same, with lack of memory as a refusal.
fn redrawn(alloc: Global, image: &Image, plan: &Plan, layout: &Layout) -> Result<Image, PlaceFail>
    requires few { set.len image.now.config.closed ≤ most_repaired image.now.config.shape }
    requires plan { AreSizedFor image.now.config plan.now }
    requires tables { AreApart image.now.config plan.now }
    requires pins { ArePinsApart image.now plan.now }
    requires nets { length layout.now.nets.items < 4294967296 }
    requires wires { AreWiresOf image.now.config.shape layout.now.nets.items layout.now.ports.items layout.now.visits.items }
    ensures drawn { IfOk result (IsRedrawn image.now plan.now layout.now.nets.items layout.now.ports.items layout.now.visits.items) }
    ensures memory { IfErr result (λ e. e ≡ refused.Memory) }
{
    match redraw(alloc, image, plan, layout) {
        Ok(repaired) => Ok(repaired),
        Err(_) => Err(PlaceFail::Memory),
    }
}

// Room for the nets with these terminals, where the lines that nets of the image have are tried first.
fn room_for(
    alloc: Global,
    rest: &Defects,
    nets: &NetList,
    terminals: &[Items<u32>],
    tables: Need,
    pins: Need,
) -> Result<Room, AllocError>
    requires few { length terminals.now < 2 ^ 32 }
    requires within { All (AreWires rest.now.shape) terminals.now }
    ensures { IfOk result (IsRoom rest.now.shape rest.now.list (length terminals.now) (HasTerminal terminals.now) tables pins) }
{
    let had = nets_by_wire(alloc, nets)?;
    look_for_room_keeping(alloc, rest, terminals, tables, pins, had)
}

// Room for these terminals on what the list and the nets that stay leave free.
fn room_beside(
    alloc: Global,
    image: &Image,
    defects: &Defects,
    seats: &Seats,
    plan: &Plan,
    terminals: &[Items<u32>],
) -> Result<Room, AllocError>
    requires plan { AreSizedFor image.now.config plan.now }
    requires shape { defects.now.shape ≡ image.now.config.shape }
    requires few { length terminals.now < 2 ^ 32 }
    requires within { All (AreWires image.now.config.shape) terminals.now }
    ensures { IfOk result (IsRoomBeside defects.now.list image.now.config plan.now terminals.now
        (need_of seats.now.tables) (need_of seats.now.pins)) }
{
    let rest = rest_of(alloc, image, plan, defects)?;
    let tables = need_of(&seats.tables);
    let pins = need_of(&seats.pins);
    room_for(alloc, &rest, &plan.nets, terminals, tables, pins)
}

// The repair of an image by its plan.
fn laid_by(
    alloc: Global,
    image: &Image,
    defects: &Defects,
    seats: &Seats,
    plan: &Plan,
) -> Result<Image, PlaceFail>
    requires few { set.len image.now.config.closed ≤ most_repaired image.now.config.shape }
    requires shape { defects.now.shape ≡ image.now.config.shape }
    requires seats { AreSeats defects.now.list image.now seats.now }
    requires tables { IsMet (need_of seats.now.tables) }
    requires pins { IsMet (need_of seats.now.pins) }
    requires plan { IsPlanOf defects.now.list image.now seats.now plan.now }
    ensures repair { IfOk result (IsRepair defects.now.list image.now) }
    ensures free { IfOk result (IsFreeImage defects.now.list) }
    ensures rows { IfOk result (HasSameRows defects.now.list image.now) }
    ensures fail { IfErr result (IsRepairFail defects.now.list image.now) }
{
    machine_shape::the_numbering_is_sound();
    machine_shape::the_crosspoints_are_sound();
    machine_shape::ports_and_lines_ascend();
    machine_defects::the_tests_are_right();
    // Say that what is set is of the machine, and that it has few wires.
    let _config = image.config();
    let _wires = defects.shape().wires();
    let terminals = terminals_of(alloc, image, plan)?;
    let room = room_beside(alloc, image, defects, seats, plan, &terminals)?;
    match room {
        Room::Lacks(short) => Err(PlaceFail::Short(short)),
        Room::Enough { ports, visits } => {
            let layout = Layout {
                nets: terminals,
                ports,
                visits,
            };
            redrawn(alloc, image, plan, &layout)
        }
    }
}

// The repair of an image where there are tables and pins for all that go. It ends early only before it owns a plan.
fn laid(alloc: Global, image: &Image, defects: &Defects, seats: &Seats) -> Result<Image, PlaceFail>
    requires few { set.len image.now.config.closed ≤ most_repaired image.now.config.shape }
    requires shape { defects.now.shape ≡ image.now.config.shape }
    requires seats { AreSeats defects.now.list image.now seats.now }
    requires tables { IsMet (need_of seats.now.tables) }
    requires pins { IsMet (need_of seats.now.pins) }
    ensures repair { IfOk result (IsRepair defects.now.list image.now) }
    ensures free { IfOk result (IsFreeImage defects.now.list) }
    ensures rows { IfOk result (HasSameRows defects.now.list image.now) }
    ensures fail { IfErr result (IsRepairFail defects.now.list image.now) }
{
    let plan = plan_of(alloc, image, defects, seats)?;
    laid_by(alloc, image, defects, seats, &plan)
}

/// Repairs an image for a list of defects: what touches nothing listed stays, and the rest is laid anew on what is free.
///
/// A switched-on table that isn't free goes: the k-th of them to the k-th free table that is off and has no used pin. So do pins, inputs
/// before outputs, to free pins that aren't used. A net, that is a group of wires that closed crosspoints join, is kept where its wires and
/// closed crosspoints are free and none of its tables and pins goes; all other nets are laid anew, on ports and lines that are free and
/// that no kept net has. The j-th of them that crosses a node has the j-th of these ports there. Those whose
/// old line at a node still serves them there keep it, where the others can be served by what is left; else some leave theirs. Nothing else
/// is closed: what a net leaves that is laid anew is open, but where another one needs it.
///
/// The new image has the rows of the old one under each fault set that the list covers, and touches only what is free.
///
/// # Errors
///
/// `Short` exactly where the plan hasn't room, with the first short resource: tables, pins, and then node by node ports, lines. The numbers
/// of nets are by their lowest wires. `Memory` for lack of memory.
pub fn repair(alloc: Global, image: &Image, defects: &Defects) -> Result<Image, PlaceFail>
    requires few { set.len image.now.config.closed ≤ most_repaired image.now.config.shape }
    requires shape { defects.now.shape ≡ image.now.config.shape }
    ensures repair { IfOk result (IsRepair defects.now.list image.now) }
    ensures free { IfOk result (IsFreeImage defects.now.list) }
    ensures rows { IfOk result (HasSameRows defects.now.list image.now) }
    ensures fail { IfErr result (IsRepairFail defects.now.list image.now) }
{
    let seats = seats_of(alloc, image, defects)?;
    let tables = need_of(&seats.tables);
    let pins = need_of(&seats.pins);
    if tables.have < tables.need {
        return Err(PlaceFail::Short(short_of(alloc, Resource::Tables, tables)));
    }
    if pins.have < pins.need {
        return Err(PlaceFail::Short(short_of(alloc, Resource::Pins, pins)));
    }
    laid(alloc, image, defects, &seats)
}
