//! Room for a network, or what there is too little of.
ghost use Rattle.std.specs.Prelude.{◌≡◌, ◌<◌};
ghost use Rattle.machine_defects.specs.Lists.{DefectList};
ghost use Rattle.machine_shape.specs.Shape.{nodes_of};
ghost use Rattle.map_network.specs.declared.network.Network.{Network};
ghost use Rattle.place_plan.specs.Vocabulary.{IsPlaceFail};
ghost use Rattle.place_design.specs.Wants.{IsRefusedFor, PlanStops};

use cmd_steps::{Refusal, RefusedRoom, Stop};
use machine_shape::Shape;
use place_plan::{PlaceFail, Short};
use std::alloc::Global;

// The refusal for want of room.
fn no_room(alloc: Global, shape: Shape, short: Short) -> Stop
    requires { short.node.0 < nodes_of shape }
    ensures { IsRefusedFor shape short result }
{
    match RefusedRoom::new(alloc, shape, short) {
        Ok(place) => Stop::Refused(Refusal::Room(place)),
        Err(_) => Stop::Refused(Refusal::Memory),
    }
}

/// Why there is no place for a network, as a refusal.
pub fn no_place(alloc: Global, shape: Shape, fail: PlaceFail) -> Stop
    requires { (d : DefectList) × (n : Network) × (shape ≡ d.shape) × IsPlaceFail d.shape d.list n fail }
    // Of each list and each network of which that is so.
    ensures { (d : DefectList) (n : Network) → shape ≡ d.shape → IsPlaceFail d.shape d.list n fail → PlanStops d n result }
{
    match fail {
        PlaceFail::Short(short) => no_room(alloc, shape, short),
        PlaceFail::Memory => Stop::Refused(Refusal::Memory),
    }
}
