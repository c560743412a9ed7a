//! Designs that are read.
ghost use Rattle.std.specs.Prelude.{◌∷◌, []};
ghost use Rattle.base_io.specs.Told.{holds};
ghost use Rattle.cmd_steps.specs.Vocabulary.{SinkState, RigState, Outside, outside, Took};
ghost use Rattle.cmd_steps.specs.Texts.{IsRefusedAt, reads_design, reads_text};

use crate::design_file::DesignFile;
use crate::refusal::{Refusal, RefusedDesign, Stop};
use base_io::{Store, read_within};
use base_lists::Items;
use base_text::MOST_BYTES;
use design_blif::read_blif;
use design_netlist::{DesignFault, DesignKind, Netlist};
use std::alloc::Global;

/// A design, and the bytes that it was read from.
#[derive(Debug, Drop)]
pub struct DesignText {
    /// The bytes of its file.
    pub text: Items<u8>,
    pub netlist: Netlist,
}

// The refusal of a design.
fn refused(alloc: Global, file: DesignFile, line: u64, kind: DesignKind) -> Stop
    ensures { IsRefusedAt file line kind result }
{
    match RefusedDesign::new(alloc, file, line, kind) {
        Ok(fault) => Stop::Refused(Refusal::Design(fault)),
        Err(_) => Stop::Refused(Refusal::Memory),
    }
}

// The netlist of a text.
fn netlist_of(alloc: Global, file: DesignFile, text: &[u8]) -> Result<Netlist, Stop>
    // Whatever is outside.
    ensures { (o : Outside) → Took [] (reads_design file (holds text.now)) result o o }
{
    match read_blif(alloc, text) {
        Ok(netlist) => Ok(netlist),
        Err(DesignFault::At { line, kind }) => Err(refused(alloc, file, line, kind)),
        Err(DesignFault::Memory) => Err(Stop::Refused(Refusal::Memory)),
    }
}

/// Reads a design: its file up to one byte more than it may have.
///
/// # Errors
///
/// The store's, where it can't start or read the file; kind `Limit` at line 0, where the file is too long; else the first
/// fault of its text; or out of memory. A fault names which of the command's designs this is.
pub fn read_design<S: Store>(
    alloc: Global,
    file: DesignFile,
    store: &mut S,
    name: &str,
) -> Result<Netlist, Stop>
    // Whatever the rig and the sink are.
    ensures took { (rig : RigState) (sink : SinkState) →
        Took (name.now ∷ []) (reads_design file ((S.store_state store.old).contents name.now)) result
        (outside (S.store_state store.old) rig sink) (outside (S.store_state store.new) rig sink) }
{
    match read_within(alloc, store, name, MOST_BYTES)? {
        Some(text) => netlist_of(alloc, file, &text),
        None => Err(refused(alloc, file, 0, DesignKind::Limit)),
    }
}

// The netlist of a text, with the text.
fn with_netlist(alloc: Global, file: DesignFile, text: Vec<u8>) -> Result<DesignText, Stop>
    // Whatever is outside.
    ensures { (o : Outside) → Took [] (reads_text file (holds text.items)) result o o }
{
    match netlist_of(alloc, file, &text) {
        Ok(netlist) => Ok(DesignText {
            text: Items::new(text),
            netlist,
        }),
        Err(stop) => Err(stop),
    }
}

/// Reads a design as [`read_design`] does, and keeps its bytes.
///
/// # Errors
///
/// Those of [`read_design`].
pub fn read_text<S: Store>(
    alloc: Global,
    file: DesignFile,
    store: &mut S,
    name: &str,
) -> Result<DesignText, Stop>
    // Whatever the rig and the sink are.
    ensures took { (rig : RigState) (sink : SinkState) →
        Took (name.now ∷ []) (reads_text file ((S.store_state store.old).contents name.now)) result
        (outside (S.store_state store.old) rig sink) (outside (S.store_state store.new) rig sink) }
{
    match read_within(alloc, store, name, MOST_BYTES)? {
        Some(text) => with_netlist(alloc, file, text),
        None => Err(refused(alloc, file, 0, DesignKind::Limit)),
    }
}
