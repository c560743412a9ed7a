//! The plan of a repair: nets, which of them move, and where tables and pins stand.
ghost use Rattle.std.specs.Prelude.{◌≡◌, ◌<◌, IfOk};
ghost use Rattle.place_plan.specs.Room.{IsMet};
ghost use Rattle.place_repair.specs.Making.{IsPlanOf};
ghost use Rattle.place_repair.specs.Plans.{AreSeats, need_of};

use crate::keeping::moving;
use crate::nets::{NetList, nets_of};
use crate::seats::{Seats, places_of};
use machine_defects::Defects;
use machine_image::Image;
use std::alloc::{AllocError, Global};

/// What a repair goes by.
#[derive(Drop)]
pub struct Plan {
    pub nets: NetList,
    /// For each net whether it moves.
    pub moves: Vec<bool>,
    /// Where each switched-on table stands.
    pub tables: Vec<u32>,
    /// Where each pin of the image stands.
    pub pins: Vec<u32>,
}

/// The plan of a repair, where there are tables and pins for all that go.
pub fn plan_of(
    alloc: Global,
    image: &Image,
    defects: &Defects,
    seats: &Seats,
) -> Result<Plan, AllocError>
    requires shape { defects.now.shape ≡ image.now.config.shape }
    requires seats { AreSeats defects.now.list image.now seats.now }
    requires tables { IsMet (need_of seats.now.tables) }
    requires pins { IsMet (need_of seats.now.pins) }
    ensures { IfOk result (IsPlanOf defects.now.list image.now seats.now) }
{
    let shape = defects.shape();
    let nets = nets_of(alloc, image.config())?;
    let moves = moving(alloc, image, &nets, defects)?;
    let tables = places_of(alloc, shape.tables(), &seats.tables)?;
    let pins = places_of(alloc, shape.pins(), &seats.pins)?;
    Ok(Plan {
        nets,
        moves,
        tables,
        pins,
    })
}
