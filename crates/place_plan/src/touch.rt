//! Which nets have a terminal inside each node.
ghost use Rattle.std.specs.Prelude.{◌≡◌, ◌<◌, ◌^◌, [], ◌∷◌, OnOk, IfOk, All, length, slice_set};
ghost use Rattle.machine_shape.specs.Shape.{wires_of, nodes_of};
ghost use Rattle.place_plan.specs.Choices.{AreWires};
ghost use Rattle.place_plan.specs.Touches.{AreTouched, IsSpread, list_at, with_last};

use crate::numbers::{empty_lists, push_last};
use crate::short::Net;
use crate::tree::Tree;
use base_lists::Items;
use machine_shape::{Node, Wire};
use std::alloc::{AllocError, Global};

// Puts a net at the end of a node's list, unless it is there.
fn touch(touched: &mut [Items<u32>], node: Node, net: Net) -> Result<(), AllocError>
    requires { node.0 < length touched.old }
    ensures { OnOk result (touched.new ≡ slice_set touched.old node.0 (with_last (list_at touched.old node.0) net.0)) }
{
    push_last(&mut touched[node.0 as usize], net.0)
}

// Puts a net at the end of the lists of the nodes that have this wire inside.
fn touch_up(tree: &Tree, touched: &mut [Items<u32>], wire: Wire, net: Net) -> Result<(), AllocError>
    requires sized { length touched.old ≡ nodes_of tree.now.shape }
    requires within { wire.0 < wires_of tree.now.shape }
    ensures { OnOk result (IsSpread tree.now.shape (wire.0 ∷ []) net.0 touched.old touched.new) }
{
    machine_shape::the_numbering_is_sound();
    let mut at = tree.homes[wire.0 as usize];
    touch(touched, Node(at), net)?;
    while at != 0 {
        at = tree.parents[at as usize];
        touch(touched, Node(at), net)?;
    }
    Ok(())
}

// Puts a net at the end of the lists of the nodes that have one of these wires inside.
fn touch_net(
    tree: &Tree,
    touched: &mut [Items<u32>],
    wires: &[u32],
    net: Net,
) -> Result<(), AllocError>
    requires sized { length touched.old ≡ nodes_of tree.now.shape }
    requires within { All (λ w. w < wires_of tree.now.shape) wires.now }
    ensures { OnOk result (IsSpread tree.now.shape wires.now net.0 touched.old touched.new) }
{
    machine_shape::the_numbering_is_sound();
    for wire in wires {
        touch_up(tree, touched, Wire(*wire), net)?;
    }
    Ok(())
}

/// For each node the nets that have a terminal inside, ascending.
pub fn touched_by(
    alloc: Global,
    tree: &Tree,
    nets: &[Items<u32>],
) -> Result<Vec<Items<u32>>, AllocError>
    requires few { length nets.now < 2 ^ 32 }
    requires within { All (AreWires tree.now.shape) nets.now }
    ensures { IfOk result (λ touched. AreTouched tree.now.shape nets.now (length nets.now) touched.items) }
{
    machine_shape::the_numbering_is_sound();
    let mut touched = empty_lists(alloc, tree.shape.nodes() as usize)?;
    for k in 0..nets.len() {
        touch_net(tree, &mut touched, nets[k].as_slice(), Net(k as u32))?;
    }
    Ok(touched)
}
