//! The check of a design.

ghost use Rattle.std.specs.Prelude.{◌≡◌, ◌<◌, length, IfOk, IfErr};
ghost use Rattle.design_netlist.specs.declared.fault.DesignFault.TheVariants.{Memory};
ghost use Rattle.design_netlist.specs.Drafts.{name_at, IsWellMade};
ghost use Rattle.design_netlist.specs.Checks.{IsChecked, IsRefusalOf};
ghost use Rattle.design_netlist.specs.Words.{IsDrivenOnce, IsFoundIn};

use crate::cycles::{Sorted, sort_covers};
use crate::drives::{drivers_of, drives_of, first_doubled, first_words};
use crate::fault::{DesignFault, DesignKind};
use crate::netlist::Netlist;
use crate::netlist_data::{Name, NetlistData, PortDef};
use crate::reads::first_undriven;
use std::alloc::{AllocError, Global};

/// What the check finds first.
#[derive(Debug, Drop)]
pub enum Found {
    /// This word drives a signal that an earlier one drives.
    Doubled(PortDef),
    /// This word reads a signal that nothing drives.
    Undriven(PortDef),
    /// This output of a cover is on a cycle.
    Cyclic(PortDef),
    /// Nothing is wrong: the covers, each after those that it reads.
    Order(Vec<u32>),
}

/// Sorts the covers, or finds the first that is on a cycle.
fn sort(alloc: Global, draft: &NetlistData) -> Result<Found, AllocError>
    requires { IsDrivenOnce draft.now }
    ensures { IfOk result (λ found. IsFoundIn draft.now found) }
{
    let covers = draft.covers.as_slice();
    let drivers = drivers_of(alloc, covers, draft.names.len())?;
    match sort_covers(alloc, covers, &drivers)? {
        Sorted::Order(order) => Ok(Found::Order(order)),
        Sorted::Cyclic(place) => Ok(Found::Cyclic(PortDef {
            signal: covers[place].out,
            line: covers[place].line,
        })),
    }
}

/// Looks for what is wrong: first for signals that are driven twice, then for those that are not driven.
fn look(alloc: Global, draft: &NetlistData) -> Result<Found, AllocError>
    requires { IsWellMade draft.now }
    ensures { IfOk result (λ found. IsFoundIn draft.now found) }
{
    let words = drives_of(alloc, draft)?;
    let firsts = first_words(alloc, &words, draft.names.len())?;
    if let Some(place) = first_doubled(&words, &firsts) {
        return Ok(Found::Doubled(words[place]));
    }
    if let Some(word) = first_undriven(&firsts, draft) {
        return Ok(Found::Undriven(word));
    }
    sort(alloc, draft)
}

/// The signal's name.
fn name_of(alloc: Global, draft: &NetlistData, signal: u32) -> Result<Name, AllocError>
    requires { signal < length draft.now.names }
    ensures { IfOk result (λ name. name ≡ name_at draft.now signal) }
{
    let name = draft.names.get(alloc, signal as usize)?;
    Ok(name)
}

/// Checks a design: no signal may be driven twice, each signal that is read must be driven, and no cover may be
/// on a cycle of covers, each of which reads the one before. The time is near linear.
///
/// Signals are below the number of names, and rows are as long as their cover's inputs. There are at most 65,535
/// names and 16,777,216 outputs, and the rows have at most 16,777,216 characters, one for each output among them.
///
/// # Errors
///
/// `Doubled`, `Undriven` and `Cyclic`, in this order, each at the first word by line and on one line by place:
/// inputs, outputs, covers, latches, and the inputs of a cover in their order. The name is the signal's.
/// `Memory` where memory is lacking. A refusal drops the draft.
pub fn check(alloc: Global, draft: NetlistData) -> Result<Netlist, DesignFault>
    requires { IsWellMade draft }
    ensures found { IfOk result (λ netlist. (netlist ≡ draft) × IsChecked draft) }
    ensures refused { IfErr result (λ fault. IsRefusalOf draft fault) }
    ensures only { IsChecked draft → IfErr result (λ fault. fault ≡ Memory) }
{
    match look(alloc, &draft)? {
        Found::Doubled(word) => {
            let name = name_of(alloc, &draft, word.signal)?;
            Err(DesignFault::At {
                line: word.line,
                kind: DesignKind::Doubled { name },
            })
        }
        Found::Undriven(word) => {
            let name = name_of(alloc, &draft, word.signal)?;
            Err(DesignFault::At {
                line: word.line,
                kind: DesignKind::Undriven { name },
            })
        }
        Found::Cyclic(word) => {
            let name = name_of(alloc, &draft, word.signal)?;
            Err(DesignFault::At {
                line: word.line,
                kind: DesignKind::Cyclic { name },
            })
        }
        Found::Order(order) => Ok(Netlist::new(draft, order)),
    }
}
