//! The tree of nodes as the code climbs it.
ghost use Rattle.std.specs.Prelude.{◌≡◌, ◌<◌, Some, IfOk};
ghost use Rattle.machine_shape.specs.Shape.{wires_of, nodes_of, parent_of};
ghost use Rattle.place_plan.specs.Trees.{AreHomes, AreParents};

use machine_shape::{Node, Shape, Wire};
use std::alloc::{AllocError, Global};

/// Where a wire is, seen from a node: among the node's own wires, in a child, or outside of the node.
#[derive(Clone, Copy, Debug, PartialEq, Eq)]
pub enum NetSide {
    Own(u32),
    Child(u32),
    Outside,
}

/// The node of each wire, and the node above each node but the root.
#[derive(Drop)]
pub struct Tree {
    pub shape: Shape,
    pub homes: Vec<u32>,
    pub parents: Vec<u32>,
    pub ghost homed: { AreHomes shape (wires_of shape) homes.items },
    pub ghost parented: { AreParents shape (nodes_of shape) parents.items },
}

// The node of each wire.
fn homes_of(alloc: Global, shape: Shape) -> Result<Vec<u32>, AllocError>
    ensures { IfOk result (λ homes. AreHomes shape (wires_of shape) homes.items) }
{
    let mut homes = Vec::new(alloc);
    for w in 0..shape.wires() {
        homes.push(shape.node_of(Wire(w)).0)?;
    }
    Ok(homes)
}

// The number of the node above a node; 0 for the root.
fn number_above(shape: Shape, node: u32) -> u32
    requires { node < nodes_of shape }
    ensures { 0 < node → parent_of shape node ≡ Some result }
{
    match shape.parent(Node(node)) {
        Some(above) => above.0,
        None => 0,
    }
}

// The node above each node.
fn parents_of(alloc: Global, shape: Shape) -> Result<Vec<u32>, AllocError>
    ensures { IfOk result (λ parents. AreParents shape (nodes_of shape) parents.items) }
{
    let mut parents = Vec::new(alloc);
    for n in 0..shape.nodes() {
        parents.push(number_above(shape, n))?;
    }
    Ok(parents)
}

/// The tree of a machine.
pub fn tree_of(alloc: Global, shape: Shape) -> Result<Tree, AllocError>
    ensures { IfOk result (λ tree. tree.shape ≡ shape) }
{
    let homes = homes_of(alloc, shape)?;
    let parents = parents_of(alloc, shape)?;
    Ok(Tree {
        shape,
        homes,
        parents,
    })
}
