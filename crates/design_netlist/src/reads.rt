//! Signals that are read and not driven.

ghost use Rattle.std.specs.Prelude.{◌≡◌, ◌<◌, ℕ, length, map, fold, None};
ghost use Rattle.std.specs.List.{flat_map};
ghost use Rattle.design_netlist.specs.Covers.{cover_at, IsCoverOver};
ghost use Rattle.design_netlist.specs.Drafts.{cover_reads, latch_read, reads_of};
ghost use Rattle.design_netlist.specs.Words.{nearer, sooner, AreWithin};

use crate::netlist_data::{Cover, LatchDef, NetlistData, PortDef};

/// The word that was found, or another one on an earlier line.
pub fn nearer_word(found: Option<PortDef>, word: PortDef) -> Option<PortDef>
    ensures { result ≡ nearer found word }
{
    match found {
        None => Some(word),
        Some(other) => {
            if word.line < other.line {
                Some(word)
            } else {
                Some(other)
            }
        }
    }
}

/// The word that was found, or one that nothing drives and that is on an earlier line.
fn sooner(firsts: &[Option<usize>], found: Option<PortDef>, word: PortDef) -> Option<PortDef>
    requires { word.signal < length firsts.now }
    ensures { result ≡ sooner firsts.now found word }
{
    if firsts[word.signal as usize].is_some() {
        return found;
    }
    nearer_word(found, word)
}

fn among_ports(
    firsts: &[Option<usize>],
    ports: &[PortDef],
    found: Option<PortDef>,
) -> Option<PortDef>
    requires { AreWithin (length firsts.now) ports.now }
    ensures { result ≡ fold (sooner firsts.now) found ports.now }
{
    let mut best = found;
    'ports: for k in 0..ports.len() {
        best = sooner(firsts, best, ports[k]);
    }
    best
}

fn among_inputs(firsts: &[Option<usize>], cover: &Cover, found: Option<PortDef>) -> Option<PortDef>
    requires { IsCoverOver cover.now (length firsts.now) }
    ensures { result ≡ fold (sooner firsts.now) found (cover_reads cover.now) }
{
    let ins = cover.ins.as_slice();
    let line = cover.line;
    let mut best = found;
    'ins: for k in 0..ins.len() {
        let word = PortDef {
            signal: ins[k],
            line,
        };
        best = sooner(firsts, best, word);
    }
    best
}

fn among_covers(
    firsts: &[Option<usize>],
    covers: &[Cover],
    found: Option<PortDef>,
) -> Option<PortDef>
    requires { (i : ℕ) → i < length covers.now → IsCoverOver (cover_at covers.now i) (length firsts.now) }
    ensures { result ≡ fold (sooner firsts.now) found (flat_map cover_reads covers.now) }
{
    let mut best = found;
    'covers: for k in 0..covers.len() {
        best = among_inputs(firsts, &covers[k], best);
    }
    best
}

fn among_latches(
    firsts: &[Option<usize>],
    latches: &[LatchDef],
    found: Option<PortDef>,
) -> Option<PortDef>
    requires { AreWithin (length firsts.now) (map latch_read latches.now) }
    ensures { result ≡ fold (sooner firsts.now) found (map latch_read latches.now) }
{
    let mut best = found;
    'latches: for k in 0..latches.len() {
        let latch = latches[k];
        let word = PortDef {
            signal: latch.from,
            line: latch.line,
        };
        best = sooner(firsts, best, word);
    }
    best
}

/// The first word that reads a signal which nothing drives.
pub fn first_undriven(firsts: &[Option<usize>], draft: &NetlistData) -> Option<PortDef>
    requires reads { AreWithin (length firsts.now) (reads_of draft.now) }
    requires covers { (i : ℕ) → i < length draft.now.covers → IsCoverOver (cover_at draft.now.covers i) (length firsts.now) }
    ensures { result ≡ fold (sooner firsts.now) None (reads_of draft.now) }
{
    let found = among_ports(firsts, draft.outputs.as_slice(), None);
    let found = among_covers(firsts, draft.covers.as_slice(), found);
    among_latches(firsts, draft.latches.as_slice(), found)
}
