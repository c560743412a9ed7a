//! The nodes that an image involves.
ghost use Rattle.std.specs.Prelude.{◌≡◌, ◌<◌, ◌+◌, List, Bool, IfOk, length};
ghost use Rattle.machine_shape.specs.Shape.{wires_of, nodes_of};
ghost use Rattle.machine_image.specs.Images.{IsImage};
ghost use Rattle.diag_check.specs.Marks.{IsNodeAmong, Adds, Rises};
ghost use Rattle.diag_check.specs.Used.{AreInvolved, AreUsed};

use crate::used::used_wires;
use base_bits::BitSet;
use machine_image::Image;
use machine_shape::{Node, Shape, Wire, the_crosspoints_are_sound, the_numbering_is_sound};
use std::alloc::{AllocError, Global};

/// The used wires and the involved nodes of an image.
#[derive(Drop)]
pub(crate) struct Parts {
    pub used: BitSet,
    pub nodes: BitSet,
}

// Marks the nodes of these wires.
fn mark_nodes(nodes: &mut BitSet, shape: &Shape, used: &BitSet)
    requires nodes { length nodes.old ≡ nodes_of shape.now }
    requires used { length used.now ≡ wires_of shape.now }
    ensures { Adds (IsNodeAmong shape.now used.now (wires_of shape.now)) nodes.old nodes.new }
{
    'wires: for w in 0..shape.wires() {
        if !used.has(w) {
            continue;
        }
        nodes.insert(shape.node_of(Wire(w)).0);
    }
}

// Marks the node above this one, if this one is marked.
fn mark_parent(nodes: &mut BitSet, shape: &Shape, node: Node)
    requires nodes { length nodes.old ≡ nodes_of shape.now }
    requires node { node.0 < nodes_of shape.now }
    ensures rises { (seeds : List Bool) → Rises shape.now seeds nodes.old (node.0 + 1) → Rises shape.now seeds nodes.new node.0 }
    ensures len { length nodes.new ≡ length nodes.old }
{
    the_numbering_is_sound();
    if !nodes.has(node.0) {
        return;
    }
    let Some(parent) = shape.parent(node) else {
        return;
    };
    nodes.insert(parent.0);
}

// Marks the nodes above marked ones. A node comes before its children, so one pass from the last on finds all.
fn mark_above(nodes: &mut BitSet, shape: &Shape)
    requires { length nodes.old ≡ nodes_of shape.now }
    ensures { Rises shape.now nodes.old nodes.new 0 }
{
    let count = shape.nodes();
    'nodes: for k in 0..count {
        mark_parent(nodes, shape, Node(count - 1 - k));
    }
}

// The nodes of an image's used wires, and all above them.
fn involved_nodes(alloc: Global, image: &Image, used: &BitSet) -> Result<BitSet, AllocError>
    requires { AreUsed image.now used.now }
    ensures { IfOk result (AreInvolved image.now) }
{
    the_numbering_is_sound();
    the_crosspoints_are_sound();
    let shape = image.config().shape();
    let mut nodes = BitSet::new(alloc, shape.nodes())?;
    mark_nodes(&mut nodes, &shape, used);
    mark_above(&mut nodes, &shape);
    Ok(nodes)
}

/// The used wires and the involved nodes of an image.
pub(crate) fn parts_of(alloc: Global, image: &Image) -> Result<Parts, AllocError>
    ensures used { IfOk result (λ parts. AreUsed image.now parts.used) }
    ensures nodes { IfOk result (λ parts. AreInvolved image.now parts.nodes) }
    ensures right { IsImage image.now }
{
    let used = used_wires(alloc, image)?;
    let nodes = involved_nodes(alloc, image, &used)?;
    Ok(Parts { used, nodes })
}
