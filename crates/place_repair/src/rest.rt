//! What a list of defects and the nets that stay leave free.
ghost use Rattle.std.specs.Prelude.{◌≡◌, ◌<◌, ◌↔◌, false, IfOk, IsTrue};
ghost use Rattle.machine_shape.specs.Shape.{wires_of, crosses_of};
ghost use Rattle.machine_defects.specs.Lists.{IsWithWire, no_defects, with_cross};
ghost use Rattle.place_repair.specs.Making.{AreSizedFor, HasStayingWire, IsCrossRest, IsRestOf, IsTaken, IsWireRest};

use crate::nets::net_of;
use crate::plan::Plan;
use machine_config::Config;
use machine_defects::Defects;
use machine_image::Image;
use machine_shape::{Cross, Wire};
use std::alloc::{AllocError, Global};

/// Whether a net that stays has the wire.
pub fn stays(config: &Config, plan: &Plan, wire: Wire) -> bool
    requires plan { AreSizedFor config.now.config plan.now }
    requires within { wire.0 < wires_of config.now.config.shape }
    ensures { IsTrue result ↔ HasStayingWire config.now.config plan.now wire.0 }
{
    machine_shape::the_numbering_is_sound();
    // Says that what is closed is of the machine.
    let _shape = config.shape();
    match net_of(config, &plan.nets, wire) {
        None => false,
        Some(net) => {
            let moves = plan.moves[net as usize];
            !moves
        }
    }
}

// Whether a wire is listed already, or a net that stays has it.
fn is_taken(config: &Config, plan: &Plan, defects: &Defects, wire: Wire) -> bool
    requires plan { AreSizedFor config.now.config plan.now }
    requires shape { defects.now.shape ≡ config.now.config.shape }
    requires within { wire.0 < wires_of config.now.config.shape }
    ensures { IsTrue result ↔ IsTaken defects.now.list config.now.config plan.now wire.0 }
{
    let free = defects.free_wire(wire);
    if !free {
        return true;
    }
    stays(config, plan, wire)
}

// Lists a wire, if it is wanted.
fn list_wire_if(rest: &mut Defects, wire: Wire, wanted: bool)
    requires { wire.0 < wires_of rest.old.shape }
    ensures listed { IsTrue wanted → IsWithWire rest.old wire.0 rest.new }
    ensures kept { wanted ≡ false → rest.new ≡ rest.old }
{
    if !wanted {
        return;
    }
    rest.list_wire(wire);
}

// Lists a crosspoint that isn't free, unless one of its wires is listed.
fn list_cross_unless(rest: &mut Defects, cross: Cross, free: bool)
    requires { cross.0 < crosses_of rest.old.shape }
    ensures listed { free ≡ false → rest.new ≡ record { shape = rest.old.shape; list = with_cross rest.old.shape rest.old.list cross.0 } }
    ensures kept { IsTrue free → rest.new ≡ rest.old }
{
    if free {
        return;
    }
    rest.list_cross(cross);
}

// Lists the wires that are listed already or that stay.
fn list_wires(rest: &mut Defects, config: &Config, plan: &Plan, defects: &Defects)
    requires plan { AreSizedFor config.now.config plan.now }
    requires shape { defects.now.shape ≡ config.now.config.shape }
    requires none { rest.old ≡ record { shape = config.now.config.shape; list = no_defects } }
    ensures { IsWireRest defects.now.list config.now.config plan.now (wires_of config.now.config.shape) rest.new }
{
    for w in 0..config.shape().wires() {
        let taken = is_taken(config, plan, defects, Wire(w));
        list_wire_if(rest, Wire(w), taken);
    }
}

// Lists the crosspoints that aren't free, unless one of their wires is listed.
fn list_crosses(rest: &mut Defects, defects: &Defects)
    requires { rest.old.shape ≡ defects.now.shape }
    ensures { IsCrossRest defects.now rest.old (crosses_of defects.now.shape) rest.new }
{
    for x in 0..defects.shape().crosses() {
        let free = defects.free_cross(Cross(x));
        list_cross_unless(rest, Cross(x), free);
    }
}

/// The list with the wires of the nets that stay besides, and without tables.
pub fn rest_of(
    alloc: Global,
    image: &Image,
    plan: &Plan,
    defects: &Defects,
) -> Result<Defects, AllocError>
    requires plan { AreSizedFor image.now.config plan.now }
    requires shape { defects.now.shape ≡ image.now.config.shape }
    ensures { IfOk result (IsRestOf defects.now.list image.now.config plan.now) }
{
    machine_shape::the_numbering_is_sound();
    let mut rest = Defects::none(alloc, defects.shape())?;
    list_wires(&mut rest, image.config(), plan, defects);
    list_crosses(&mut rest, defects);
    Ok(rest)
}
