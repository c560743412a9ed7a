//! Which net has which wire.
ghost use Rattle.std.specs.Prelude.{◌<◌, ◌^◌, IfOk, length};
ghost use Rattle.place_route.specs.Vocabulary.{AreOwners, AreWiresOf};

use machine_defects::Defects;
use place_plan::Layout;
use place_route::owners_of;
use std::alloc::{AllocError, Global};

/// For each wire the net that has it in a layout, if there is one.
///
/// # Errors
///
/// Out of memory.
pub fn owners_by(
    alloc: Global,
    layout: &Layout,
    defects: &Defects,
) -> Result<Vec<Option<u32>>, AllocError>
    requires few { length layout.now.nets.items < 2 ^ 32 }
    requires wires { AreWiresOf defects.now.shape layout.now.nets.items layout.now.ports.items layout.now.visits.items }
    ensures { IfOk result (λ o. AreOwners defects.now.shape layout.now.nets.items layout.now.ports.items o.items) }
{
    owners_of(alloc, defects.shape(), &layout.nets, &layout.ports)
}
