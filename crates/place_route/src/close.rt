//! Closes the crosspoints of each net's lines and its taps, and switches tables on.
ghost use Rattle.std.specs.Prelude.{◌≡◌, ◌≢◌, ◌<◌, ◌*◌, OnOk, All, AllPairs, length};
ghost use Rattle.machine_shape.specs.Shape.{wires_of, tables_of};
ghost use Rattle.place_route.specs.Closing.{AreLinesOf, Closes, IsJoint, IsJointAt, IsOwnedJoint, IsWireJoint, MayJoin, SwitchesOn};

use crate::lines::line_of;
use machine_config::{Config, Setting};
use machine_shape::{Node, Shape, Table, Wire};
use map_network::NetTable;
use place_plan::Net;
use std::alloc::AllocError;
use std::collections::BTreeMap;

// Closes the crosspoint of a wire and its net's line at a node, if there is one.
fn join(
    config: &mut Config,
    shape: Shape,
    lines: &BTreeMap<(u32, u32), u32>,
    node: Node,
    net: Net,
    wire: Wire,
) -> Result<(), AllocError>
    requires { MayJoin shape lines.now config.old.config wire.0 }
    ensures { OnOk result (Closes (IsJoint shape lines.now node.0 net.0 wire.0) 1 config.old.config config.new.config) }
{
    machine_shape::the_crosspoints_are_sound();
    match line_of(lines, node, net) {
        None => Ok(()),
        Some(line) => match shape.cross(wire, Wire(line)) {
            None => Ok(()),
            Some(cross) => config.close_cross(cross),
        },
    }
}

// Closes the crosspoints of a wire and its net's lines at the wire's node and the node above.
fn join_wire(
    config: &mut Config,
    shape: Shape,
    lines: &BTreeMap<(u32, u32), u32>,
    net: Net,
    wire: Wire,
) -> Result<(), AllocError>
    requires { MayJoin shape lines.now config.old.config wire.0 }
    ensures { OnOk result (Closes (IsWireJoint shape lines.now net.0 wire.0) 2 config.old.config config.new.config) }
{
    let node = shape.node_of(wire);
    join(config, shape, lines, node, net, wire)?;
    match shape.parent(node) {
        None => Ok(()),
        Some(above) => join(config, shape, lines, above, net, wire),
    }
}

// Does so if a net has the wire.
fn join_owned(
    config: &mut Config,
    shape: Shape,
    lines: &BTreeMap<(u32, u32), u32>,
    owners: &[Option<u32>],
    wire: Wire,
) -> Result<(), AllocError>
    requires joins { MayJoin shape lines.now config.old.config wire.0 }
    requires owners { length owners.now ≡ wires_of shape }
    ensures { OnOk result (Closes (IsJointAt shape lines.now owners.now wire.0) 2 config.old.config config.new.config) }
{
    match owners[wire.0 as usize] {
        None => Ok(()),
        Some(net) => join_wire(config, shape, lines, Net(net), wire),
    }
}

/// Closes the crosspoints of the wires that nets have with the nets' lines.
pub fn join_all(
    config: &mut Config,
    shape: Shape,
    lines: &BTreeMap<(u32, u32), u32>,
    owners: &[Option<u32>],
) -> Result<(), AllocError>
    requires shape { config.old.config.shape ≡ shape }
    requires lines { AreLinesOf shape lines.now }
    requires owners { length owners.now ≡ wires_of shape }
    ensures { OnOk result (Closes (IsOwnedJoint shape lines.now owners.now (wires_of shape))
        (2 * wires_of shape) config.old.config config.new.config) }
{
    for wire in 0..shape.wires() {
        join_owned(config, shape, lines, owners, Wire(wire))?;
    }
    Ok(())
}

/// Switches on the tables of the machine on which tables of a network sit.
pub fn switch_all_on(config: &mut Config, seats: &[Table], tables: &[NetTable])
    requires lengths { length seats.now ≡ length tables.now }
    requires within { All (λ t. t.0 < tables_of config.old.config.shape) seats.now }
    requires apart { AllPairs (λ t u. t.0 ≢ u.0) seats.now }
    ensures { SwitchesOn seats.now tables.now (length seats.now) config.old.config config.new.config }
{
    // Says that there is a place for each table of the machine.
    let _shape = config.shape();
    for j in 0..seats.len() {
        let table = &tables[j];
        let setting = Setting {
            cells: table.cells,
            latched: table.latched,
            init: table.init,
        };
        config.switch_on(seats[j], setting);
    }
}
