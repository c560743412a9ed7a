//! Signals that are driven, and those that are driven twice.

ghost use Rattle.std.specs.Prelude.{◌≡◌, ◌<◌, ◌≤◌, ◌++◌, ◌&&◌, ◌↔◌, ℕ, length, map, IfOk, OnOk, IsTrue, None, Some, slice_index_or};
ghost use Rattle.std.specs.Prelude.{if◌then◌else◌};
ghost use Rattle.std.specs.Option.{ForSome};
ghost use Rattle.design_netlist.specs.Orders.{IsFirst, is_sooner};
ghost use Rattle.design_netlist.specs.Covers.{cover_at};
ghost use Rattle.design_netlist.specs.Drivers.{AreDriversBelow};
ghost use Rattle.design_netlist.specs.Drafts.{signal_at, line_at, cover_drive, latch_drive, drive_words};
ghost use Rattle.design_netlist.specs.Checks.{IsDoubledIn};
ghost use Rattle.design_netlist.specs.Words.{AreFirstWords};

use crate::netlist_data::{Cover, LatchDef, NetlistData, PortDef};
use std::alloc::{AllocError, Global};

/// Adds the outputs of the covers.
fn push_covers(words: &mut Vec<PortDef>, covers: &[Cover]) -> Result<(), AllocError>
    ensures { OnOk result (words.new.items ≡ words.old.items ++ map cover_drive covers.now) }
{
    'covers: for k in 0..covers.len() {
        let cover = &covers[k];
        words.push(PortDef {
            signal: cover.out,
            line: cover.line,
        })?;
    }
    Ok(())
}

/// Adds the outputs of the latches.
fn push_latches(words: &mut Vec<PortDef>, latches: &[LatchDef]) -> Result<(), AllocError>
    ensures { OnOk result (words.new.items ≡ words.old.items ++ map latch_drive latches.now) }
{
    'latches: for k in 0..latches.len() {
        let latch = latches[k];
        words.push(PortDef {
            signal: latch.out,
            line: latch.line,
        })?;
    }
    Ok(())
}

/// The words that drive: inputs, then the outputs of covers, then those of latches.
pub fn drives_of(alloc: Global, draft: &NetlistData) -> Result<Vec<PortDef>, AllocError>
    ensures { IfOk result (λ words. words.items ≡ drive_words draft.now) }
{
    let mut words = Vec::from_slice(alloc, draft.inputs.as_slice())?;
    push_covers(&mut words, draft.covers.as_slice())?;
    push_latches(&mut words, draft.latches.as_slice())?;
    Ok(words)
}

/// The place of the first word of each signal, by line and then by place.
pub fn first_words(
    alloc: Global,
    words: &[PortDef],
    count: usize,
) -> Result<Vec<Option<usize>>, AllocError>
    requires { (k : ℕ) → k < length words.now → signal_at words.now k < count }
    ensures len { IfOk result (λ firsts. length firsts.items ≡ count) }
    ensures firsts { IfOk result (λ firsts. AreFirstWords words.now (length words.now) count firsts.items) }
{
    let mut firsts = vec![in alloc; None; count]?;
    'words: for i in 0..words.len() {
        let word = words[i];
        let signal = word.signal as usize;
        let sooner = match firsts[signal] {
            None => true,
            Some(j) => word.line < words[j].line,
        };
        if sooner {
            firsts[signal] = Some(i);
        }
    }
    Ok(firsts)
}

/// Whether the word at the place is the first of its signal.
fn is_first(firsts: &[Option<usize>], signal: usize, place: usize) -> bool
    requires { signal < length firsts.now }
    ensures { IsTrue result ↔ (slice_index_or firsts.now signal None ≡ Some place) }
{
    match firsts[signal] {
        None => false,
        Some(first) => first == place,
    }
}

/// Whether the word at the place is on an earlier line than the one that was found.
fn is_sooner(words: &[PortDef], place: usize, found: Option<usize>) -> bool
    requires room { place < length words.now }
    requires known { ForSome found (λ j. j < length words.now) }
    ensures { result ≡ is_sooner (line_at words.now) place found }
{
    match found {
        None => true,
        Some(j) => words[place].line < words[j].line,
    }
}

fn chosen(doubled: bool, sooner: bool, place: usize, found: Option<usize>) -> Option<usize>
    ensures { result ≡ (if doubled && sooner then Some place else found) }
{
    if doubled && sooner {
        Some(place)
    } else {
        found
    }
}

/// The place of the first word of a signal that an earlier word has.
pub fn first_doubled(words: &[PortDef], firsts: &[Option<usize>]) -> Option<usize>
    requires within { (k : ℕ) → k < length words.now → signal_at words.now k < length firsts.now }
    requires firsts { AreFirstWords words.now (length words.now) (length firsts.now) firsts.now }
    ensures { IsFirst (line_at words.now) (length words.now) (IsDoubledIn words.now) result }
{
    let mut found: Option<usize> = None;
    'words: for i in 0..words.len() {
        let word = words[i];
        let doubled = !is_first(firsts, word.signal as usize, i);
        let sooner = is_sooner(words, i, found);
        found = chosen(doubled, sooner, i, found);
    }
    found
}

/// The cover that drives each signal.
pub fn drivers_of(
    alloc: Global,
    covers: &[Cover],
    count: usize,
) -> Result<Vec<Option<u32>>, AllocError>
    requires few { length covers.now ≤ 4294967295 }
    requires within { (i : ℕ) → i < length covers.now → (cover_at covers.now i).out < count }
    requires once { (i j : ℕ) → i < j → j < length covers.now → (cover_at covers.now i).out ≡ (cover_at covers.now j).out → ⊥ }
    ensures len { IfOk result (λ drivers. length drivers.items ≡ count) }
    ensures drivers { IfOk result (λ drivers. AreDriversBelow covers.now (length covers.now) count drivers.items) }
{
    let mut drivers = vec![in alloc; None; count]?;
    'covers: for i in 0..covers.len() {
        let out = covers[i].out as usize;
        drivers[out] = Some(i as u32);
    }
    Ok(drivers)
}
