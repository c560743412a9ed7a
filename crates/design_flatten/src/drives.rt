//! The first word that drives a signal which an earlier word drives, found while words come.
//!
//! Words go by line number, and for one number by the order in which they come. What is kept grows with the signals, not with the words.

ghost use Rattle.std.specs.Prelude.{◌≡◌, ◌<◌, ◌==◌, ℕ, List, ◌++◌, ◌∷◌, [], Some, None, OnOk, IfErr, vec_len, if◌then◌else◌};
ghost use Rattle.design_netlist.specs.declared.netlist_data.PortDef.{PortDef as WordValue};
ghost use Rattle.design_flatten.specs.declared.refusal.Refusal.TheVariants.{Memory};
ghost use Rattle.design_flatten.specs.Drives.{AreDrives, first_at, is_nearer, nearest, first_with, doubled_with};

use crate::refusal::Refusal;
use design_netlist::PortDef;
use std::alloc::{AllocError, Global};

/// A word that drives, and how many came before it.
#[derive(Clone, Copy, Debug)]
pub struct Driver {
    pub word: PortDef,
    pub place: usize,
}

/// The words so far: the first of each signal, the first that drives a signal which an earlier word drives, and how
/// many they are.
#[derive(Drop)]
pub struct Drives {
    pub firsts: Vec<Option<Driver>>,
    pub doubled: Option<Driver>,
    pub count: usize,
}

/// The first word of a signal.
pub fn first_at(firsts: &[Option<Driver>], signal: u32) -> Option<Driver>
    ensures { result ≡ first_at firsts.now signal }
{
    match firsts.get(signal as usize) {
        Some(first) => *first,
        None => None,
    }
}

/// Makes the table long enough for a signal.
fn make_room(firsts: &mut Vec<Option<Driver>>, signal: u32) -> Result<(), AllocError>
    ensures room { OnOk result (signal < vec_len firsts.new) }
    ensures same { OnOk result ((s : ℕ) → first_at firsts.new.items s ≡ first_at firsts.old.items s) }
{
    'room: for _place in firsts.len()..signal as usize + 1 {
        firsts.push(None)?;
    }
    Ok(())
}

/// Sets the first word of a signal.
fn set_first(firsts: &mut Vec<Option<Driver>>, signal: u32, first: Driver) -> Result<(), AllocError>
    ensures { OnOk result ((s : ℕ) → first_at firsts.new.items s ≡ (if s == signal then Some first else first_at firsts.old.items s)) }
{
    make_room(firsts, signal)?;
    firsts[signal as usize] = Some(first);
    Ok(())
}

fn is_nearer(one: &Driver, other: &Driver) -> bool
    ensures { result ≡ is_nearer one.now other.now }
{
    one.word.line < other.word.line || (one.word.line == other.word.line && one.place < other.place)
}

/// The one that comes first.
fn nearest(one: Option<Driver>, other: Option<Driver>) -> Option<Driver>
    ensures { result ≡ nearest one other }
{
    let Some(a) = one else {
        return other;
    };
    let Some(b) = other else {
        return one;
    };
    if is_nearer(&b, &a) { Some(b) } else { Some(a) }
}

/// Of a word and the first in front with its signal, the one that comes first.
fn first_with(first: Option<Driver>, driver: Driver) -> Driver
    ensures { result ≡ first_with first driver }
{
    match first {
        None => driver,
        Some(first) => {
            if driver.word.line < first.word.line {
                driver
            } else {
                first
            }
        }
    }
}

/// Of a word and the first in front with its signal, the one that comes second.
fn doubled_with(first: Option<Driver>, driver: Driver) -> Option<Driver>
    ensures { result ≡ doubled_with first driver }
{
    match first {
        None => None,
        Some(first) => {
            if driver.word.line < first.word.line {
                Some(first)
            } else {
                Some(driver)
            }
        }
    }
}

impl Drives {
    pub fn new(alloc: Global) -> Self
        ensures { AreDrives [] result }
    {
        Drives {
            firsts: Vec::new(alloc),
            doubled: None,
            count: 0,
        }
    }

    /// A word more.
    pub fn put(&mut self, word: PortDef) -> Result<(), Refusal>
        ensures stays { OnOk result (self.new.doubled ≡ None → self.old.doubled ≡ None) }
        ensures refused { IfErr result (λ e. e ≡ Memory) }
        ensures more { OnOk result ((words : List WordValue) → AreDrives words self.old → AreDrives (words ++ word ∷ []) self.new) }
    {
        // More words than can be counted: no memory is left for them.
        let Some(count) = self.count.checked_add(1) else {
            return Err(Refusal::Memory);
        };
        let driver = Driver {
            word,
            place: self.count,
        };
        let first = first_at(&self.firsts, word.signal);
        let kept = first_with(first, driver);
        set_first(&mut self.firsts, word.signal, kept)?;
        let doubled = doubled_with(first, driver);
        self.doubled = nearest(self.doubled, doubled);
        self.count = count;
        Ok(())
    }
}
