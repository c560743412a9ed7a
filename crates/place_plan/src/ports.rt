//! The nets that cross each node, its free ports, and which net has which port.
ghost use Rattle.std.specs.Prelude.{◌<◌, ◌≤◌, ℕ, IfOk, IfSome, IfNone, All, length};
ghost use Rattle.machine_shape.specs.Shape.{nodes_of};
ghost use Rattle.place_plan.specs.Choices.{AreWires};
ghost use Rattle.place_plan.specs.Lists.{AreThose, AreLists, IsNth};
ghost use Rattle.place_plan.specs.Room.{CrossesAt, HasTerminal, IsFreePort};
ghost use Rattle.place_plan.specs.Touches.{AreTouched, TouchesOf};

use crate::numbers::push_if;
use crate::short::Net;
use crate::strand::leaves;
use crate::tree::Tree;
use base_lists::Items;
use machine_defects::Defects;
use machine_shape::Node;
use std::alloc::{AllocError, Global};

// The nets that cross a node, of those that have a terminal inside.
fn crossing_at(
    alloc: Global,
    tree: &Tree,
    nets: &[Items<u32>],
    touched: &[u32],
    node: u32,
) -> Result<Items<u32>, AllocError>
    requires within { All (AreWires tree.now.shape) nets.now }
    requires touched { AreThose (TouchesOf tree.now.shape nets.now (length nets.now) node) touched.now }
    ensures { IfOk result (AreThose (CrossesAt tree.now.shape (length nets.now) (HasTerminal nets.now) node)) }
{
    let mut crossing = Items::empty(alloc);
    for k in touched {
        let crosses = leaves(tree, nets[*k as usize].as_slice(), node);
        push_if(&mut crossing, *k, crosses)?;
    }
    Ok(crossing)
}

/// For each node the nets that cross it, ascending.
pub fn crossings(
    alloc: Global,
    tree: &Tree,
    nets: &[Items<u32>],
    touched: &[Items<u32>],
) -> Result<Vec<Items<u32>>, AllocError>
    requires within { All (AreWires tree.now.shape) nets.now }
    requires touched { AreTouched tree.now.shape nets.now (length nets.now) touched.now }
    ensures { IfOk result (λ lists. AreLists (nodes_of tree.now.shape)
        (CrossesAt tree.now.shape (length nets.now) (HasTerminal nets.now)) lists.items) }
{
    let mut lists = Vec::new(alloc);
    for n in 0..tree.shape.nodes() {
        lists.push(crossing_at(alloc, tree, nets, touched[n as usize].as_slice(), n)?)?;
    }
    Ok(lists)
}

// The free ports of a node, ascending.
fn ports_at(alloc: Global, defects: &Defects, node: u32) -> Result<Items<u32>, AllocError>
    requires { node < nodes_of defects.now.shape }
    ensures { IfOk result (AreThose (IsFreePort defects.now.shape defects.now.list node)) }
{
    machine_shape::ports_and_lines_ascend();
    let shape = defects.shape();
    let mut ports = Items::empty(alloc);
    for k in 0..shape.ports(Node(node)) {
        let port = shape.port(Node(node), k);
        push_if(&mut ports, port.0, defects.free_wire(port))?;
    }
    Ok(ports)
}

/// For each node its free ports, ascending.
pub fn free_ports(alloc: Global, defects: &Defects) -> Result<Vec<Items<u32>>, AllocError>
    ensures { IfOk result (λ lists. AreLists (nodes_of defects.now.shape) (IsFreePort defects.now.shape defects.now.list) lists.items) }
{
    let mut lists = Vec::new(alloc);
    for n in 0..defects.shape().nodes() {
        lists.push(ports_at(alloc, defects, n)?)?;
    }
    Ok(lists)
}

/// The port that a net has by the nets that cross a node and its free ports, if there are so many.
pub fn port_of(crossing: &[u32], ports: &[u32], net: Net) -> Option<u32>
    ensures found { IfSome result (λ w. (j : ℕ) × IsNth crossing.now j net.0 × IsNth ports.now j w) }
    ensures none { IfNone result ((j : ℕ) → IsNth crossing.now j net.0 → length ports.now ≤ j) }
{
    for k in 0..crossing.len() {
        if k == ports.len() {
            return None;
        }
        if crossing[k] == net.0 {
            return Some(ports[k]);
        }
    }
    None
}
