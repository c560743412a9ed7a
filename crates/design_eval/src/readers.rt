//! The covers that read a signal.

ghost use Rattle.std.specs.Prelude.{◌≡◌, ◌+◌, ◌*◌, ◌<◌, ◌≤◌, ◌++◌, ℕ, length, map, slice_index_or, IfOk, OnOk};
ghost use Rattle.std.specs.List.{Contains};
ghost use Rattle.design_netlist.specs.Covers.{cover_at, IsCoverOver};
ghost use Rattle.design_eval.specs.Bits.{AreBelow};
ghost use Rattle.design_eval.specs.Turns.{AreTurns, places};
ghost use Rattle.design_eval.specs.Readers.{reader_key, HaveKeys, AreListed, AreKeys, AreInOrder, AreStarts, Splits, IsFrom, AreReaders};

use crate::turns::Turn;
use design_netlist::Cover;
use std::alloc::{AllocError, Global};

/// A design has fewer signals than this, and so fewer covers.
pub const MOST: u32 = 65_536;

/// For each signal the turns of the covers that read it, and behind them those of latches.
#[derive(Drop)]
pub struct Readers {
    /// A signal, times 65,536, and a turn that reads it; in order.
    pub keys: Vec<u32>,
    /// Where each signal's keys begin, and where the last one's end.
    pub starts: Vec<usize>,
}

// Adds a key for each of the signals that a cover reads.
fn push_keys(keys: &mut Vec<u32>, ins: &[u32], turn: u32) -> Result<(), AllocError>
    requires signals { AreBelow 65536 ins.now }
    requires turn { turn < 65536 }
    ensures { OnOk result (keys.new.items ≡ keys.old.items ++ map (reader_key turn) ins.now) }
{
    'ins: for i in 0..ins.len() {
        keys.push(ins[i] * MOST + turn)?;
    }
    Ok(())
}

// Adds a key for each of the signals that latches read, whose turns are those from one on.
fn push_latches(keys: &mut Vec<u32>, reads: &[u32], first: usize) -> Result<(), AllocError>
    requires signals { AreBelow 65535 reads.now }
    requires few { first + length reads.now ≤ 65535 }
    ensures more { OnOk result ((key : ℕ) → Contains keys.old.items key → Contains keys.new.items key) }
    ensures keys { OnOk result (HaveKeys first reads.now keys.new.items) }
{
    'reads: for k in 0..reads.len() {
        keys.push(reads[k] * MOST + (first + k) as u32)?;
    }
    Ok(())
}

// The keys of all covers.
fn cover_keys(alloc: Global, covers: &[Cover], turns: &[Turn]) -> Result<Vec<u32>, AllocError>
    requires turns { AreTurns covers.now turns.now }
    requires made { (i : ℕ) → i < length covers.now → IsCoverOver (cover_at covers.now i) 65535 }
    requires few { length turns.now ≤ 65535 }
    ensures { IfOk result (λ keys. AreKeys covers.now (places turns.now) (length turns.now) keys.items) }
{
    let mut keys = Vec::new(alloc);
    'turns: for k in 0..turns.len() {
        let cover = &covers[turns[k].place as usize];
        push_keys(&mut keys, cover.ins.as_slice(), k as u32)?;
    }
    Ok(keys)
}

// The keys of all covers, and of latches behind them.
fn keys_of(
    alloc: Global,
    covers: &[Cover],
    turns: &[Turn],
    reads: &[u32],
) -> Result<Vec<u32>, AllocError>
    requires turns { AreTurns covers.now turns.now }
    requires made { (i : ℕ) → i < length covers.now → IsCoverOver (cover_at covers.now i) 65535 }
    requires reads { AreBelow 65535 reads.now }
    requires few { length turns.now + length reads.now ≤ 65535 }
    ensures keys { IfOk result (λ keys. AreKeys covers.now (places turns.now) (length turns.now) keys.items) }
    ensures latches { IfOk result (λ keys. HaveKeys (length turns.now) reads.now keys.items) }
    ensures sorted { IfOk result (λ keys. AreInOrder keys.items) }
{
    let mut keys = cover_keys(alloc, covers, turns)?;
    push_latches(&mut keys, reads, turns.len())?;
    keys.sort()?;
    Ok(keys)
}

// Where the keys of a signal begin, which is no sooner than where those before it do.
fn start_of(keys: &[u32], from: usize, signal: u32) -> usize
    requires signal { signal ≤ 65535 }
    requires from { IsFrom keys.now signal from }
    ensures { Splits keys.now signal result }
{
    'keys: for i in from..keys.len() {
        if keys[i] >= signal * MOST {
            return i;
        }
    }
    keys.len()
}

// Where the keys of each signal begin, and where the last one's end.
fn starts_of(alloc: Global, keys: &[u32], signals: usize) -> Result<Vec<usize>, AllocError>
    requires { signals ≤ 65535 }
    ensures { IfOk result (λ starts. AreStarts keys.now (signals + 1) starts.items) }
{
    let mut starts = Vec::with_capacity(alloc, signals + 1)?;
    let mut from = 0;
    'signals: for signal in 0..signals + 1 {
        from = start_of(keys, from, signal as u32);
        starts.push(from)?;
    }
    Ok(starts)
}

/// The readers of a design's signals: its covers, and behind them the latches that read these signals.
pub fn readers_of(
    alloc: Global,
    covers: &[Cover],
    turns: &[Turn],
    reads: &[u32],
    signals: usize,
) -> Result<Readers, AllocError>
    requires turns { AreTurns covers.now turns.now }
    requires made { (i : ℕ) → i < length covers.now → IsCoverOver (cover_at covers.now i) signals }
    requires reads { AreBelow signals reads.now }
    requires few { length turns.now + length reads.now ≤ 65535 }
    requires signals { signals ≤ 65535 }
    ensures covers { IfOk result (λ readers. AreReaders covers.now (places turns.now) signals readers) }
    ensures latches { IfOk result (λ readers. AreListed readers (length turns.now) reads.now) }
{
    let keys = keys_of(alloc, covers, turns, reads)?;
    let starts = starts_of(alloc, &keys, signals)?;
    Ok(Readers { keys, starts })
}
