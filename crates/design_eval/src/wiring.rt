//! The signals of a design that are written and read at each vector.

ghost use Rattle.std.specs.Prelude.{◌≡◌, map, IfOk};
ghost use Rattle.design_eval.specs.Bits.{IsWiring};

use design_netlist::{LatchDef, NetlistData, PortDef};
use std::alloc::{AllocError, Global};

/// Signals in the order of the design's lists.
#[derive(Drop)]
pub struct Wiring {
    /// The inputs.
    pub inputs: Vec<u32>,
    /// The outputs.
    pub outputs: Vec<u32>,
    /// What the latches drive.
    pub drives: Vec<u32>,
    /// What the latches read.
    pub reads: Vec<u32>,
}

/// The signals of these ports.
fn signals_of(alloc: Global, ports: &[PortDef]) -> Result<Vec<u32>, AllocError>
    ensures { IfOk result (λ v. v.items ≡ map (λ p. p.signal) ports.now) }
{
    ports.iter().map(|p| p.signal).collect(alloc)
}

/// What these latches drive.
fn drives_of(alloc: Global, latches: &[LatchDef]) -> Result<Vec<u32>, AllocError>
    ensures { IfOk result (λ v. v.items ≡ map (λ l. l.out) latches.now) }
{
    latches.iter().map(|l| l.out).collect(alloc)
}

/// What these latches read.
fn reads_of(alloc: Global, latches: &[LatchDef]) -> Result<Vec<u32>, AllocError>
    ensures { IfOk result (λ v. v.items ≡ map (λ l. l.from) latches.now) }
{
    latches.iter().map(|l| l.from).collect(alloc)
}

/// The signals of a design.
pub fn wiring_of(alloc: Global, draft: &NetlistData) -> Result<Wiring, AllocError>
    ensures { IfOk result (IsWiring draft.now) }
{
    let inputs = signals_of(alloc, draft.inputs.as_slice())?;
    let outputs = signals_of(alloc, draft.outputs.as_slice())?;
    let drives = drives_of(alloc, draft.latches.as_slice())?;
    let reads = reads_of(alloc, draft.latches.as_slice())?;
    Ok(Wiring {
        inputs,
        outputs,
        drives,
        reads,
    })
}
