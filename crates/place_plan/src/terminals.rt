//! The terminals of a network's nets.
ghost use Rattle.std.specs.Prelude.{◌≡◌, ◌+◌, ◌^◌, ◌<◌, ◌≤◌, ◌++◌, ◌∷◌, [], All, IfOk, OnOk, length, map, slice_set};
ghost use Rattle.machine_shape.specs.Shape.{pins_of, tables_of};
ghost use Rattle.place_plan.specs.Plans.{IsPlan, net_by, number_of};
ghost use Rattle.place_plan.specs.Terminals.{AreGrouped, ArePlanNets, IsSized, NetsBelow, all_terminals, drive_terminals, gives_of, reads_of};
ghost use Rattle.place_plan.specs.Terminals.{reads_to, shows_of};
ghost use Rattle.place_plan.specs.Touches.{list_at};
ghost use Rattle.map_network.specs.Networks.{IsNetwork};

use crate::numbers::empty_lists;
use crate::plan::Plan;
use crate::short::Net;
use base_lists::Items;
use machine_defects::Defects;
use machine_shape::{Pin, Shape, Table, Wire};
use map_network::{Network, Source};
use std::alloc::{AllocError, Global};

/// A wire that a net has to reach.
#[derive(Clone, Copy, Debug)]
pub struct Terminal {
    pub net: Net,
    pub wire: Wire,
}

// A source's net.
fn net_of(inputs: u32, source: Source) -> Net
    requires { net_by inputs source < 2 ^ 32 }
    ensures { result.0 ≡ net_by inputs source }
{
    match source {
        Source::Input(k) => Net(k),
        Source::Table(j) => Net(inputs + j),
    }
}

// What drives the nets of the inputs.
fn push_drives(terminals: &mut Vec<Terminal>, shape: &Shape, pins: &[u32]) -> Result<(), AllocError>
    requires few { length pins.now < 2 ^ 32 }
    requires within { All (λ k. k < pins_of shape.now) pins.now }
    ensures { OnOk result (terminals.new.items ≡ terminals.old.items ++ drive_terminals shape.now pins.now (length pins.now)) }
{
    for k in 0..pins.len() {
        terminals.push(Terminal {
            net: Net(k as u32),
            wire: shape.pin(Pin(pins[k])),
        })?;
    }
    Ok(())
}

// What drives the nets of the tables.
fn push_gives(
    terminals: &mut Vec<Terminal>,
    shape: &Shape,
    inputs: u32,
    places: &[Table],
) -> Result<(), AllocError>
    requires nets { inputs + length places.now < 2 ^ 32 }
    requires within { All (λ t. t < tables_of shape.now) (map number_of places.now) }
    ensures { OnOk result (terminals.new.items ≡ terminals.old.items ++ gives_of shape.now inputs (map number_of places.now)
        (length places.now)) }
{
    for j in 0..places.len() {
        terminals.push(Terminal {
            net: Net(inputs + j as u32),
            wire: shape.pin_of(places[j], 6),
        })?;
    }
    Ok(())
}

// What a table reads.
fn push_reads(
    terminals: &mut Vec<Terminal>,
    shape: &Shape,
    inputs: u32,
    place: Table,
    sources: &[Source],
) -> Result<(), AllocError>
    requires within { place.0 < tables_of shape.now }
    requires few { length sources.now ≤ 6 }
    requires nets { NetsBelow inputs (2 ^ 32) sources.now }
    ensures { OnOk result (terminals.new.items ≡ terminals.old.items ++ reads_of shape.now inputs place.0 sources.now
        (length sources.now)) }
{
    for k in 0..sources.len() {
        terminals.push(Terminal {
            net: net_of(inputs, sources[k]),
            wire: shape.pin_of(place, k as u32),
        })?;
    }
    Ok(())
}

// What all tables read.
fn push_all_reads(
    terminals: &mut Vec<Terminal>,
    shape: &Shape,
    network: &Network,
    places: &[Table],
) -> Result<(), AllocError>
    requires lengths { length network.now.tables ≡ length places.now }
    requires within { All (λ t. t < tables_of shape.now) (map number_of places.now) }
    requires nets { All (λ t. NetsBelow network.now.inputs (2 ^ 32) t.ins) network.now.tables }
    ensures { OnOk result (terminals.new.items ≡ terminals.old.items ++ reads_to shape.now network.now (map number_of places.now)
        (length places.now)) }
{
    for j in 0..places.len() {
        let table = &network.tables.as_slice()[j];
        push_reads(
            terminals,
            shape,
            network.inputs,
            places[j],
            table.ins.as_slice(),
        )?;
    }
    Ok(())
}

// What the outputs read.
fn push_shows(
    terminals: &mut Vec<Terminal>,
    shape: &Shape,
    inputs: u32,
    pins: &[u32],
    sources: &[Source],
) -> Result<(), AllocError>
    requires lengths { length pins.now ≡ length sources.now }
    requires within { All (λ k. k < pins_of shape.now) pins.now }
    requires nets { NetsBelow inputs (2 ^ 32) sources.now }
    ensures { OnOk result (terminals.new.items ≡ terminals.old.items ++ shows_of shape.now inputs pins.now sources.now (length pins.now)) }
{
    for o in 0..pins.len() {
        terminals.push(Terminal {
            net: net_of(inputs, sources[o]),
            wire: shape.pin(Pin(pins[o])),
        })?;
    }
    Ok(())
}

// Adds a terminal to its net.
fn add(nets: &mut [Items<u32>], terminal: Terminal) -> Result<(), AllocError>
    requires { terminal.net.0 < length nets.old }
    ensures { OnOk result (nets.new ≡ slice_set nets.old terminal.net.0 (list_at nets.old terminal.net.0 ++ terminal.wire.0 ∷ [])) }
{
    nets[terminal.net.0 as usize].push(terminal.wire.0)?;
    Ok(())
}

// Terminals by their nets.
fn grouped(alloc: Global, count: u32, terminals: &[Terminal]) -> Result<Vec<Items<u32>>, AllocError>
    requires { All (λ t. t.net.0 < count) terminals.now }
    ensures { IfOk result (λ nets. AreGrouped count terminals.now nets.items) }
{
    let mut nets = empty_lists(alloc, count as usize)?;
    for terminal in terminals {
        add(&mut nets, *terminal)?;
    }
    Ok(nets)
}

// The terminals of all nets.
fn terminals_of(
    alloc: Global,
    shape: &Shape,
    network: &Network,
    plan: &Plan,
) -> Result<Vec<Terminal>, AllocError>
    requires { IsSized shape.now network.now plan.now }
    ensures { IfOk result (λ ts. ts.items ≡ all_terminals shape.now network.now plan.now) }
{
    let mut terminals = Vec::new(alloc);
    push_drives(&mut terminals, shape, plan.inputs.as_slice())?;
    push_gives(
        &mut terminals,
        shape,
        network.inputs,
        plan.tables.as_slice(),
    )?;
    push_all_reads(&mut terminals, shape, network, plan.tables.as_slice())?;
    push_shows(
        &mut terminals,
        shape,
        network.inputs,
        plan.outputs.as_slice(),
        network.outputs.as_slice(),
    )?;
    Ok(terminals)
}

// A machine has few tables and pins.
fn places_are_few(shape: &Shape)
    ensures tables { tables_of shape.now ≤ 65536 }
    ensures pins { pins_of shape.now ≤ 16384 }
{
    let _tables = shape.tables();
    let _pins = shape.pins();
    let _wires = shape.wires();
}

/// The terminals of each net of a plan.
pub fn nets_of_plan(
    alloc: Global,
    defects: &Defects,
    network: &Network,
    plan: &Plan,
) -> Result<Vec<Items<u32>>, AllocError>
    requires network { IsNetwork network.now }
    requires plan { IsPlan defects.now.shape defects.now.list network.now plan.now }
    ensures { IfOk result (λ nets. ArePlanNets defects.now.shape network.now plan.now nets.items) }
{
    machine_shape::the_numbering_is_sound();
    let shape = defects.shape();
    places_are_few(&shape);
    let terminals = terminals_of(alloc, &shape, network, plan)?;
    let count = network.inputs + network.tables.as_slice().len() as u32;
    let nets = grouped(alloc, count, &terminals)?;
    Ok(nets)
}
