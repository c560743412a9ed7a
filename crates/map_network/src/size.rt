//! How many tables a plain network has.

ghost use Rattle.std.specs.Prelude.{◌≡◌, ◌<◌, ℕ, length, sum_by, IfOk};
ghost use Rattle.map_network.specs.Plain.{cover_size, plain_network};
ghost use Rattle.map_network.specs.Bounds.{AreCovers};

use crate::names::size_of;
use design_netlist::{Cover, Netlist};
use std::alloc::{AllocError, Global};

/// How many tables the covers have together.
fn covers_size(alloc: Global, covers: &[Cover]) -> Result<usize, AllocError>
    requires { (signals : ℕ) × AreCovers covers.now signals }
    ensures { IfOk result (λ size. size ≡ sum_by cover_size covers.now) }
{
    let mut size = 0;
    'covers: for k in 0..covers.len() {
        size += size_of(alloc, &covers[k])?;
    }
    Ok(size)
}

/// How many tables the plain network of a design has, which isn't made. The time is near linear in the number of the
/// rows' characters.
///
/// # Errors
///
/// Out of memory.
pub fn plain_size(alloc: Global, netlist: &Netlist) -> Result<u64, AllocError>
    ensures { IfOk result (λ size. size ≡ length (plain_network netlist.now).tables) }
{
    let draft = netlist.parts();
    let covers = covers_size(alloc, draft.covers.as_slice())?;
    let latches = draft.latches.as_slice().len();
    Ok((covers + latches) as u64)
}
