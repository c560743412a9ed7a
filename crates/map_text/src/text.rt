//! Texts with their netlists.
ghost use Rattle.std.specs.Prelude.{◌≡◌, ◌≤◌, ◌⊎◌, Some, IfOk, IfSome, IsTrue, length};
ghost use Rattle.base_text.specs.Size.{most_bytes};
ghost use Rattle.design_blif.specs.Designs.{IsDesign};
ghost use Rattle.map_text.specs.Remapped.{tables_in};

use base_lists::Items;
use design_blif::read_blif;
use design_netlist::{DesignFault, Netlist};
use map_network::{depth, plain, plain_size};
use map_search::{Head, control_of};
use std::alloc::{AllocError, Global};

/// A text of a design, and the netlist that it is read as.
#[derive(Debug, Drop)]
pub struct Remapped {
    /// The bytes of the text.
    pub text: Items<u8>,
    pub netlist: Netlist,
}

/// The netlist of a text, if it is that of a design.
pub fn read_again(alloc: Global, text: &[u8]) -> Result<Option<Netlist>, AllocError>
    ensures { IfOk result (λ o. IfSome o (λ n. IsDesign text.now n × (length text.now ≤ most_bytes))) }
{
    match read_blif(alloc, text) {
        Ok(netlist) => Ok(Some(netlist)),
        Err(DesignFault::At { .. }) => Ok(None),
        Err(DesignFault::Memory) => Err(AllocError),
    }
}

/// The given text with its netlist, which it is read as again.
pub fn given_text(alloc: Global, text: &[u8], netlist: &Netlist) -> Result<Remapped, AllocError>
    requires design { IsDesign text.now netlist.now }
    requires short { length text.now ≤ most_bytes }
    ensures text { IfOk result (λ r. r.text ≡ text.now) }
    ensures netlist { IfOk result (λ r. r.netlist ≡ netlist.now) }
{
    let bytes = Vec::from_slice(alloc, text)?;
    match read_blif(alloc, text) {
        Ok(netlist) => Ok(Remapped {
            text: Items::new(bytes),
            netlist,
        }),
        // The text of a design is refused for lack of memory alone.
        Err(_) => Err(AllocError),
    }
}

/// What another text says of a design at its head.
pub fn head_of(alloc: Global, text: &[u8], netlist: &Netlist) -> Result<Head, AllocError> {
    Ok(Head {
        tables: plain_size(alloc, netlist)?,
        depth: depth_of(alloc, netlist)?,
        control: control_of(alloc, text, netlist)?,
    })
}

// How many tables lie one behind the other in a design's plain network.
fn depth_of(alloc: Global, netlist: &Netlist) -> Result<u32, AllocError> {
    let network = plain(alloc, netlist)?;
    depth(alloc, &network)
}

// Whether a design with as many tables as another one is deeper.
fn is_deeper(alloc: Global, netlist: &Netlist, other: &Netlist) -> Result<bool, AllocError> {
    Ok(depth_of(alloc, netlist)? > depth_of(alloc, other)?)
}

// Whether a design has fewer tables than another one, or as many and is no deeper.
fn is_lesser(alloc: Global, netlist: &Netlist, other: &Netlist) -> Result<bool, AllocError>
    ensures { IfOk result (λ yes. IsTrue yes → tables_in netlist.now ≤ tables_in other.now) }
{
    let tables = plain_size(alloc, netlist)?;
    let most = plain_size(alloc, other)?;
    if tables > most {
        return Ok(false);
    }
    if tables < most {
        return Ok(true);
    }
    let deeper = is_deeper(alloc, netlist, other)?;
    Ok(!deeper)
}

/// The text that was found, where it has fewer tables than the one before, or as many and is no deeper, and else that.
pub fn lesser(
    alloc: Global,
    before: Remapped,
    found: Option<Remapped>,
) -> Result<Remapped, AllocError>
    ensures { IfOk result (λ r. (r ≡ before) ⊎ ((found ≡ Some r) × (tables_in r.netlist ≤ tables_in before.netlist))) }
{
    match found {
        Some(new) => {
            if is_lesser(alloc, &new.netlist, &before.netlist)? {
                return Ok(new);
            }
            Ok(before)
        }
        None => Ok(before),
    }
}
