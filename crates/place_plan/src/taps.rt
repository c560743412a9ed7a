//! The nets that ask for a line at a node, and their taps there.
ghost use Rattle.std.specs.Prelude.{◌≡◌, ◌<◌, OnOk, IfOk, All, AllPairs, length};
ghost use Rattle.machine_shape.specs.Shape.{wires_of, nodes_of};
ghost use Rattle.place_plan.specs.Choices.{AreWires};
ghost use Rattle.place_plan.specs.Lists.{AreThose};
ghost use Rattle.place_plan.specs.Taps.{AreAscending, AreAsks, AreTaps, IsFound, IsFreeLine, IsHeld, IsTapFor, with_option};
ghost use Rattle.place_plan.specs.Touches.{TouchesOf, list_at};

use crate::numbers::{push_if, push_last};
use crate::ports::port_of;
use crate::search::Ask;
use crate::short::Net;
use crate::strand::{strand_at, visits};
use crate::tree::{NetSide, Tree};
use base_lists::Items;
use machine_defects::Defects;
use machine_shape::{Node, Wire};
use std::alloc::{AllocError, Global};

/// Which nets cross each node, and which ports are free there.
#[derive(Clone, Copy)]
pub struct Crossed<'a> {
    pub tree: &'a Tree,
    /// By nodes: the nets that cross it, ascending.
    pub crossing: &'a [Items<u32>],
    /// By nodes: its free ports.
    pub ports: &'a [Items<u32>],
}

// The port that a net has at a node, if there are so many.
fn held(crossing: &[Items<u32>], ports: &[Items<u32>], node: Node, net: Net) -> Option<u32>
    requires crossing { node.0 < length crossing.now }
    requires ports { node.0 < length ports.now }
    requires ascending { AllPairs (λ a b. a < b) (list_at crossing.now node.0) }
    ensures { IsFound (IsHeld crossing.now ports.now node.0 net.0) result }
{
    port_of(
        crossing[node.0 as usize].as_slice(),
        ports[node.0 as usize].as_slice(),
        net,
    )
}

// The tap by which a net comes to a node for one of its terminals, if the net has the port.
fn tap_at(crossed: &Crossed<'_>, node: Node, net: Net, wire: Wire) -> Option<u32>
    requires node { node.0 < nodes_of crossed.now.tree.now.shape }
    requires wire { wire.0 < wires_of crossed.now.tree.now.shape }
    requires crossing { length crossed.now.crossing.now ≡ nodes_of crossed.now.tree.now.shape }
    requires ports { length crossed.now.ports.now ≡ nodes_of crossed.now.tree.now.shape }
    requires ascending { AreAscending (nodes_of crossed.now.tree.now.shape) crossed.now.crossing.now }
    ensures { IsFound (IsTapFor crossed.now.tree.now.shape crossed.now.crossing.now crossed.now.ports.now
        node.0 net.0 wire.0) result }
{
    machine_shape::the_numbering_is_sound();
    match strand_at(crossed.tree, node.0, wire.0) {
        NetSide::Own(tap) => Some(tap),
        NetSide::Child(child) => held(crossed.crossing, crossed.ports, Node(child), net),
        NetSide::Outside => held(crossed.crossing, crossed.ports, node, net),
    }
}

// Puts a tap at the end, if there is one and it isn't there.
fn push_tap(taps: &mut Items<u32>, tap: Option<u32>) -> Result<(), AllocError>
    ensures { OnOk result (taps.new ≡ with_option taps.old tap) }
{
    match tap {
        Some(tap) => push_last(taps, tap),
        None => Ok(()),
    }
}

// The taps by which a net with these terminals comes to a node. Neighbours differ.
fn taps_of(
    alloc: Global,
    crossed: &Crossed<'_>,
    node: Node,
    net: Net,
    wires: &[u32],
) -> Result<Items<u32>, AllocError>
    requires node { node.0 < nodes_of crossed.now.tree.now.shape }
    requires wires { AreWires crossed.now.tree.now.shape wires.now }
    requires crossing { length crossed.now.crossing.now ≡ nodes_of crossed.now.tree.now.shape }
    requires ports { length crossed.now.ports.now ≡ nodes_of crossed.now.tree.now.shape }
    requires ascending { AreAscending (nodes_of crossed.now.tree.now.shape) crossed.now.crossing.now }
    ensures { IfOk result (AreTaps crossed.now.tree.now.shape crossed.now.crossing.now crossed.now.ports.now
        node.0 net.0 wires.now) }
{
    let mut taps = Items::empty(alloc);
    for wire in wires {
        push_tap(&mut taps, tap_at(crossed, node, net, Wire(*wire)))?;
    }
    Ok(taps)
}

/// The nets that visit a node, of those that have a terminal inside, with their taps there.
pub fn asks_at(
    alloc: Global,
    crossed: &Crossed<'_>,
    nets: &[Items<u32>],
    touched: &[u32],
    node: u32,
) -> Result<Vec<Ask>, AllocError>
    requires node { node < nodes_of crossed.now.tree.now.shape }
    requires within { All (AreWires crossed.now.tree.now.shape) nets.now }
    requires touched { AreThose (TouchesOf crossed.now.tree.now.shape nets.now (length nets.now) node) touched.now }
    requires crossing { length crossed.now.crossing.now ≡ nodes_of crossed.now.tree.now.shape }
    requires ports { length crossed.now.ports.now ≡ nodes_of crossed.now.tree.now.shape }
    requires ascending { AreAscending (nodes_of crossed.now.tree.now.shape) crossed.now.crossing.now }
    ensures { IfOk result (λ asks. AreAsks crossed.now.tree.now.shape nets.now crossed.now.crossing.now crossed.now.ports.now node asks.items) }
{
    let mut asks = Vec::new(alloc);
    for k in touched {
        let wires = nets[*k as usize].as_slice();
        if visits(crossed.tree, wires, node) {
            let taps = taps_of(alloc, crossed, Node(node), Net(*k), wires)?;
            asks.push(Ask { net: Net(*k), taps })?;
        }
    }
    Ok(asks)
}

/// The free lines of a node, ascending.
pub fn free_lines(alloc: Global, defects: &Defects, node: u32) -> Result<Items<u32>, AllocError>
    requires { node < nodes_of defects.now.shape }
    ensures lines { IfOk result (AreThose (IsFreeLine defects.now.shape defects.now.list node)) }
    ensures within { IfOk result (AreWires defects.now.shape) }
{
    machine_shape::ports_and_lines_ascend();
    let shape = defects.shape();
    let mut lines = Items::empty(alloc);
    for k in 0..shape.lines(Node(node)) {
        let line = shape.line(Node(node), k);
        push_if(&mut lines, line.0, defects.free_wire(line))?;
    }
    Ok(lines)
}
