//! Where wires are, seen from a node.
ghost use Rattle.std.specs.Prelude.{◌≢◌, ◌<◌, ℕ, IsTrue, IsFalse, All};
ghost use Rattle.machine_shape.specs.Shape.{wires_of};
ghost use Rattle.place_plan.specs.Strands.{IsAt, IsInside, Visits};
ghost use Rattle.place_plan.specs.declared.tree.NetSide.{NetSide};
ghost use Rattle.place_plan.specs.Room.{IsAmong};

use crate::tree::{NetSide, Tree};

/// Where a wire is, seen from a node.
pub fn strand_at(tree: &Tree, node: u32, wire: u32) -> NetSide
    requires { wire < wires_of tree.now.shape }
    ensures { IsAt tree.now.shape node wire result }
{
    machine_shape::the_numbering_is_sound();
    let mut at = tree.homes[wire as usize];
    if at == node {
        return NetSide::Own(wire);
    }
    while at != 0 {
        let above = tree.parents[at as usize];
        if above == node {
            return NetSide::Child(at);
        }
        at = above;
    }
    NetSide::Outside
}

/// Whether one of these wires is outside of a node.
pub fn leaves(tree: &Tree, wires: &[u32], node: u32) -> bool
    requires { All (λ w. w < wires_of tree.now.shape) wires.now }
    ensures yes { IsTrue result → (w : ℕ) × IsAmong wires.now w × ¬ IsInside tree.now.shape node w }
    ensures no { IsFalse result → All (IsInside tree.now.shape node) wires.now }
{
    for wire in wires {
        if strand_at(tree, node, *wire) == NetSide::Outside {
            return true;
        }
    }
    false
}

// Whether one of these wires is elsewhere, seen from a node.
fn has_other(tree: &Tree, wires: &[u32], node: u32, strand: NetSide) -> bool
    requires { All (λ w. w < wires_of tree.now.shape) wires.now }
    ensures yes { IsTrue result → (w : ℕ) × (s : NetSide) × IsAmong wires.now w × IsAt tree.now.shape node w s × (s ≢ strand) }
    ensures no { IsFalse result → All (λ w. IsAt tree.now.shape node w strand) wires.now }
{
    for wire in wires {
        if strand_at(tree, node, *wire) != strand {
            return true;
        }
    }
    false
}

/// Whether the net with these terminals visits a node.
pub fn visits(tree: &Tree, wires: &[u32], node: u32) -> bool
    requires { All (λ w. w < wires_of tree.now.shape) wires.now }
    ensures yes { IsTrue result → Visits tree.now.shape (IsAmong wires.now) node }
    ensures no { IsFalse result → ¬ Visits tree.now.shape (IsAmong wires.now) node }
{
    machine_shape::the_numbering_is_sound();
    if wires.len() == 0 {
        return false;
    }
    has_other(tree, wires, node, strand_at(tree, node, wires[0]))
}
