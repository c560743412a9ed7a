//! What gives each signal.

ghost use Rattle.std.specs.Prelude.{◌≡◌, ◌<◌, ◌≤◌, ◌+◌, ℕ, length, sum_by, IfOk, OnOk};
ghost use Rattle.design_netlist.specs.Checks.{IsChecked};
ghost use Rattle.map_network.specs.Plain.{cover_size, source_of};
ghost use Rattle.map_network.specs.Drives.{input_drives, cover_drives, latch_drives, written, source_in};
ghost use Rattle.map_network.specs.Bounds.{AreCovers, AreLatches, ArePorts};

use crate::names::size_of;
use crate::source::Source;
use design_netlist::{Cover, LatchDef, NetlistData, PortDef};
use std::alloc::{AllocError, Global};

fn put_inputs(sources: &mut Vec<Source>, inputs: &[PortDef])
    requires within { ArePorts inputs.now (length sources.old.items) }
    requires few { length inputs.now ≤ 65535 }
    ensures { sources.new.items ≡ written sources.old.items (input_drives 0 inputs.now) }
{
    'inputs: for k in 0..inputs.len() {
        sources[inputs[k].signal as usize] = Source::Input(k as u32);
    }
}

/// Gives the last table of each cover to the signal that it drives, and tells how many tables there are.
fn put_covers(
    alloc: Global,
    sources: &mut Vec<Source>,
    covers: &[Cover],
) -> Result<usize, AllocError>
    requires { AreCovers covers.now (length sources.old.items) }
    ensures sources { OnOk result (sources.new.items ≡ written sources.old.items (cover_drives 0 covers.now)) }
    ensures count { IfOk result (λ count. count ≡ sum_by cover_size covers.now) }
{
    let mut first = 0;
    'covers: for k in 0..covers.len() {
        first += size_of(alloc, &covers[k])?;
        sources[covers[k].out as usize] = Source::Table((first - 1) as u32);
    }
    Ok(first)
}

fn put_latches(sources: &mut Vec<Source>, latches: &[LatchDef], first: usize)
    requires within { AreLatches latches.now (length sources.old.items) }
    requires few { first + length latches.now < 4294967296 }
    ensures { sources.new.items ≡ written sources.old.items (latch_drives first latches.now) }
{
    'latches: for k in 0..latches.len() {
        sources[latches[k].out as usize] = Source::Table((first + k) as u32);
    }
}

/// Where the signals of a design come from, and how many tables its plain network has.
#[derive(Debug, Drop)]
pub struct Origins {
    /// What gives each signal, by the signals.
    pub sources: Vec<Source>,
    pub tables: usize,
}

/// What gives each signal of a design.
pub fn origins_of(alloc: Global, draft: &NetlistData) -> Result<Origins, AllocError>
    requires { IsChecked draft.now }
    ensures len { IfOk result (λ origins. length origins.sources.items ≡ length draft.now.names) }
    ensures sources { IfOk result (λ origins. (s : ℕ) → source_in origins.sources.items s ≡ source_of draft.now s) }
{
    let mut sources = vec![in alloc; Source::Input(0); draft.names.len()]?;
    put_inputs(&mut sources, draft.inputs.as_slice());
    let count = put_covers(alloc, &mut sources, draft.covers.as_slice())?;
    put_latches(&mut sources, draft.latches.as_slice(), count);
    Ok(Origins {
        sources,
        tables: count + draft.latches.as_slice().len(),
    })
}
