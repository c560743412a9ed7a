//! The terminals of the nets that move, where they stand now.
ghost use Rattle.std.specs.Prelude.{◌≡◌, ◌<◌, ◌++◌, ◌∷◌, OnOk, IfOk, All, length, [], slice_index_or, slice_set};
ghost use Rattle.machine_shape.specs.Shape.{wires_of, pins_of, tables_of};
ghost use Rattle.place_repair.specs.Making.{AreSizedFor, AreTerminalsOf, IsAdded, IsMovedTo, IsPinTerminal, IsTablePinTerminal, IsTableTerminal};

use crate::nets::net_of;
use crate::plan::Plan;
use base_lists::Items;
use machine_config::Config;
use machine_image::Image;
use machine_shape::{Pin, Shape, Table, Wire};
use place_plan::empty_lists;
use std::alloc::{AllocError, Global};

// Adds a wire to a net.
fn add(lists: &mut [Items<u32>], net: u32, wire: u32) -> Result<(), AllocError>
    requires { net < length lists.old }
    ensures { OnOk result (lists.new ≡ slice_set lists.old net (slice_index_or lists.old net [] ++ wire ∷ [])) }
{
    lists[net as usize].push(wire)?;
    Ok(())
}

// Adds a wire to the net that has another, if that net moves.
fn add_moved(
    lists: &mut [Items<u32>],
    config: &Config,
    plan: &Plan,
    from: Wire,
    to: Wire,
) -> Result<(), AllocError>
    requires plan { AreSizedFor config.now.config plan.now }
    requires sized { length lists.old ≡ length plan.now.nets.lowest }
    requires within { from.0 < wires_of config.now.config.shape }
    ensures { OnOk result (IsAdded (IsMovedTo config.now.config plan.now from.0 to.0) lists.old lists.new) }
{
    machine_shape::the_numbering_is_sound();
    // Says that what is closed is of the machine.
    let _shape = config.shape();
    match net_of(config, &plan.nets, from) {
        None => Ok(()),
        Some(net) => {
            let moves = plan.moves[net as usize];
            if !moves {
                return Ok(());
            }
            add(lists, net, to.0)
        }
    }
}

// Adds pins, each where it stands.
fn add_pins(
    lists: &mut [Items<u32>],
    config: &Config,
    plan: &Plan,
    pins: &[u32],
) -> Result<(), AllocError>
    requires plan { AreSizedFor config.now.config plan.now }
    requires sized { length lists.old ≡ length plan.now.nets.lowest }
    requires within { All (λ p. p < pins_of config.now.config.shape) pins.now }
    ensures { OnOk result (IsAdded (IsPinTerminal config.now.config plan.now pins.now) lists.old lists.new) }
{
    let shape = config.shape();
    for i in 0..pins.len() {
        let to = plan.pins[pins[i] as usize];
        add_moved(
            lists,
            config,
            plan,
            shape.pin(Pin(pins[i])),
            shape.pin(Pin(to)),
        )?;
    }
    Ok(())
}

// Adds the pins of a table that stands at a place.
fn add_table(
    lists: &mut [Items<u32>],
    config: &Config,
    plan: &Plan,
    table: Table,
    place: Table,
) -> Result<(), AllocError>
    requires plan { AreSizedFor config.now.config plan.now }
    requires sized { length lists.old ≡ length plan.now.nets.lowest }
    requires table { table.0 < tables_of config.now.config.shape }
    requires place { place.0 < tables_of config.now.config.shape }
    ensures { OnOk result (IsAdded (IsTablePinTerminal config.now.config plan.now table.0 place.0 7) lists.old lists.new) }
{
    let shape = config.shape();
    for j in 0..7 {
        add_moved(
            lists,
            config,
            plan,
            shape.pin_of(table, j),
            shape.pin_of(place, j),
        )?;
    }
    Ok(())
}

// Adds the pins of the switched-on tables.
fn add_tables(lists: &mut [Items<u32>], config: &Config, plan: &Plan) -> Result<(), AllocError>
    requires plan { AreSizedFor config.now.config plan.now }
    requires sized { length lists.old ≡ length plan.now.nets.lowest }
    ensures { OnOk result (IsAdded (IsTableTerminal config.now.config plan.now) lists.old lists.new) }
{
    let _shape = config.shape();
    let tables = config.tables_on();
    for k in 0..tables.len() {
        let place = plan.tables[tables[k].0 as usize];
        add_table(lists, config, plan, tables[k], Table(place))?;
    }
    Ok(())
}

/// For each net that moves its terminals, and nothing for the others.
pub fn terminals_of(
    alloc: Global,
    image: &Image,
    plan: &Plan,
) -> Result<Vec<Items<u32>>, AllocError>
    requires { AreSizedFor image.now.config plan.now }
    ensures { IfOk result (λ lists. AreTerminalsOf image.now plan.now lists.items) }
{
    let config = image.config();
    let mut lists = empty_lists(alloc, plan.nets.lowest.as_slice().len())?;
    add_pins(&mut lists, config, plan, image.inputs())?;
    add_pins(&mut lists, config, plan, image.outputs())?;
    add_tables(&mut lists, config, plan)?;
    Ok(lists)
}
