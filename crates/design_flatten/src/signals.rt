//! Signals, numbered by first appearance.

ghost use Rattle.std.specs.Prelude.{◌≡◌, ◌≤◌, ◌<◌, [], true, length, Some, IfErr, IfSome, IsSome, IsTrue, OnOk, slice_get};
ghost use Rattle.std.specs.List.{list_any};
ghost use Rattle.design_flatten.specs.Refusals.{IsPast};
ghost use Rattle.design_flatten.specs.Signals.{same_signal, with_signal, with_signals, signal_number};

use crate::model::Signal;
use crate::refusal::Refusal;
use indexmap::IndexSet;
use std::alloc::{AllocError, Global};
use std::marker::Model;

/// The most signals that a design may have.
pub const MOST_SIGNALS: usize = 65_535;

/// The signals so far, each at its number.
#[derive(Drop)]
pub struct Signals {
    set: IndexSet<Signal>,
    /// At which numbers signals of the first model may stand.
    noted: Vec<usize>,
}

/// Notes at which number a signal of the first model stands.
fn note(noted: &mut Vec<usize>, signal: Signal, number: usize) -> Result<(), AllocError> {
    let own = signal.own as usize;
    if signal.used != 0 || own >= MOST_SIGNALS {
        return Ok(());
    }
    'room: for _own in noted.len()..own + 1 {
        noted.push(0)?;
    }
    if own < noted.len() {
        noted[own] = number;
    }
    Ok(())
}

/// The number that was noted for a signal.
fn noted_number(noted: &[usize], signal: Signal) -> usize {
    match noted.get(signal.own as usize) {
        Some(number) => *number,
        None => 0,
    }
}

/// Whether the signal stands at this place.
fn stands_at(signals: &[Signal], place: usize, signal: Signal) -> bool
    ensures { IsTrue result → slice_get signals.now place ≡ Some signal }
{
    match signals.get(place) {
        Some(known) => *known == signal,
        None => false,
    }
}

impl Model for Signals {
    ghost use Rattle.std.specs.Prelude.{List, length, ◌≤◌};
    ghost use Rattle.design_flatten.specs.declared.model.Signal.{Signal as SignalValue};

    ghost Value = { List SignalValue };

    ghost view = { λ s. s.set.keys };

    ghost invariant = { λ s. length s.set.keys ≤ 65535 };
}

impl Signals {
    pub fn new(alloc: Global) -> Self
        ensures { result ≡ [] }
    {
        Signals {
            set: IndexSet::new(alloc),
            noted: Vec::new(alloc),
        }
    }

    /// The number of a signal, where it was noted.
    fn noted_at(&self, signal: Signal) -> Option<usize>
        ensures number { IfSome result (λ k. k ≡ signal_number self.now signal) }
        ensures known { IsSome result → list_any (same_signal signal) self.now ≡ true }
        ensures within { length self.now ≤ 65535 }
        ensures room { IfSome result (λ k. k < length self.now) }
    {
        let number = noted_number(&self.noted, signal);
        if stands_at(self.set.as_slice(), number, signal) {
            Some(number)
        } else {
            None
        }
    }

    /// Whether a signal is known by what was noted.
    fn is_noted(&self, signal: Signal) -> bool
        ensures { IsTrue result → list_any (same_signal signal) self.now ≡ true }
    {
        self.noted_at(signal).is_some()
    }

    /// Adds a signal, if it is new.
    pub fn add(&mut self, signal: Signal) -> Result<(), Refusal>
        ensures ok { OnOk result (self.new ≡ with_signal self.old signal) }
        ensures refused { IfErr result (IsPast (with_signal self.old signal)) }
    {
        if self.is_noted(signal) || self.set.contains(&signal) {
            return Ok(());
        }
        if self.set.len() >= MOST_SIGNALS {
            return Err(Refusal::Limit);
        }
        let (number, _) = self.set.insert_full(signal)?;
        note(&mut self.noted, signal, number)?;
        Ok(())
    }

    /// Adds signals in order.
    pub fn add_all(&mut self, signals: &[Signal]) -> Result<(), Refusal>
        ensures ok { OnOk result (self.new ≡ with_signals self.old signals.now) }
        ensures refused { IfErr result (IsPast (with_signals self.old signals.now)) }
    {
        'signals: for signal in signals {
            self.add(*signal)?;
        }
        Ok(())
    }

    /// The number of a signal.
    pub fn number(&self, signal: Signal) -> u32
        ensures { result ≡ signal_number self.now signal }
    {
        if let Some(number) = self.noted_at(signal) {
            return number as u32;
        }
        match self.set.get_index_of(&signal) {
            Some(number) => number as u32,
            None => self.set.len() as u32,
        }
    }

    /// The signals, in order.
    pub fn as_slice(&self) -> &[Signal]
        ensures all { result.now ≡ self.now }
        ensures within { length self.now ≤ 65535 }
    {
        self.set.as_slice()
    }
}
