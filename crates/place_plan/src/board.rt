//! What room for nets is looked for by: the nets at each node, and its free ports.
ghost use Rattle.std.specs.Prelude.{◌<◌, ◌^◌, IfOk, All, length};
ghost use Rattle.place_plan.specs.Choices.{AreWires};
ghost use Rattle.place_plan.specs.Layouts.{IsBoardOf};

use crate::ports::{crossings, free_ports};
use crate::touch::touched_by;
use crate::tree::{Tree, tree_of};
use base_lists::Items;
use machine_defects::Defects;
use std::alloc::{AllocError, Global};

/// The tree of nodes, and for each node the nets with a terminal inside, the nets that cross it, and its free ports. For each
/// wire the number of the net that had it, where that is told.
#[derive(Drop)]
pub struct Board {
    pub tree: Tree,
    pub touched: Vec<Items<u32>>,
    pub crossing: Vec<Items<u32>>,
    pub ports: Vec<Items<u32>>,
    pub had: Vec<u32>,
}

/// The board of these nets.
pub fn board_of(
    alloc: Global,
    defects: &Defects,
    nets: &[Items<u32>],
    had: Vec<u32>,
) -> Result<Board, AllocError>
    requires few { length nets.now < 2 ^ 32 }
    requires within { All (AreWires defects.now.shape) nets.now }
    ensures { IfOk result (IsBoardOf defects.now nets.now) }
{
    let tree = tree_of(alloc, defects.shape())?;
    let touched = touched_by(alloc, &tree, nets)?;
    let crossing = crossings(alloc, &tree, nets, &touched)?;
    let ports = free_ports(alloc, defects)?;
    Ok(Board {
        tree,
        touched,
        crossing,
        ports,
        had,
    })
}
