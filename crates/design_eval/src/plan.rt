//! What is known of a design before it is run.

ghost use Rattle.std.specs.Prelude.{IfOk};
ghost use Rattle.design_eval.specs.Plans.{IsPlan};

use crate::readers::{Readers, readers_of};
use crate::smalls::{Quick, quick_turns};
use crate::turns::{Turn, turns_of};
use crate::wiring::{Wiring, wiring_of};
use design_netlist::Netlist;
use std::alloc::{AllocError, Global};

/// What is known of a design before it is run.
#[derive(Drop)]
pub struct Plan {
    /// The signals that are written and read at each vector.
    pub wiring: Wiring,
    /// The covers, each after those that it reads.
    pub turns: Vec<Turn>,
    /// The covers that read each signal.
    pub readers: Readers,
    /// What the evaluations of covers read, in their turns.
    pub quicks: Vec<Quick>,
}

/// What is known of a design.
pub fn plan_of(alloc: Global, netlist: &Netlist) -> Result<Plan, AllocError>
    ensures { IfOk result (IsPlan netlist.now) }
{
    let draft = netlist.parts();
    let covers = draft.covers.as_slice();
    let wiring = wiring_of(alloc, draft)?;
    let turns = turns_of(alloc, covers, netlist.order())?;
    let readers = readers_of(alloc, covers, &turns, &wiring.reads, draft.names.len())?;
    let quicks = quick_turns(alloc, covers, &turns)?;
    Ok(Plan {
        wiring,
        turns,
        readers,
        quicks,
    })
}
