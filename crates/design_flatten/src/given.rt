//! What the signals and controls of a model become.

ghost use Rattle.std.specs.Prelude.{◌≡◌, ℕ, List, [], Option, Some, None, OnOk, if◌then◌else◌, slice_index_or};
ghost use Rattle.std.specs.Str.{bytes_eq};
ghost use Rattle.design_flatten.specs.Given.{looked_up, place_of};
ghost use Rattle.design_flatten.specs.Lines.{NamedControl};
ghost use Rattle.design_flatten.specs.Placed.{control_of};
ghost use Rattle.design_flatten.specs.Substitution.{becomes, control_becomes};

use crate::model::Signal;
use crate::placed::Control;
use design_netlist::Name;
use std::alloc::{AllocError, Global};
use std::collections::HashMap;

/// A model that stands for a line: the number of that line, and what it gives for formals.
#[derive(Drop)]
pub struct Given<'a> {
    pub used: u32,
    map: HashMap<&'a [u8], Signal>,
}

/// The name of a signal.
pub fn name_at(names: &[Name], place: usize) -> &[u8]
    ensures { result.now ≡ slice_index_or names.now place [] }
{
    match names.get(place) {
        Some(name) => name.as_slice(),
        None => &[],
    }
}

impl<'a> Given<'a> {
    /// Nothing is given.
    pub fn new(alloc: Global, used: u32) -> Self
        ensures used { result.used ≡ used }
        ensures none { (w : List ℕ) → looked_up result w ≡ None }
    {
        Given {
            used,
            map: HashMap::new(alloc),
        }
    }

    /// What a name becomes, if it is given.
    pub fn get(&self, name: &[u8]) -> Option<Signal>
        ensures { result ≡ looked_up self.now name.now }
    {
        // Nothing is given to the first model, which mostly has all lines.
        if self.map.is_empty() {
            return None;
        }
        self.map.get(name).copied()
    }

    /// Gives a formal.
    pub fn give(&mut self, formal: &'a [u8], actual: Signal) -> Result<(), AllocError>
        ensures used { self.new.used ≡ self.old.used }
        ensures given { OnOk result ((w : List ℕ) →
            looked_up self.new w ≡ (if bytes_eq formal.now w then Some actual else looked_up self.old w)) }
    {
        self.map.insert(formal, actual)?;
        Ok(())
    }

    /// What a signal becomes.
    pub fn signal(&self, names: &[Name], signal: u32) -> Signal
        ensures { result ≡ becomes (place_of self.now []) names.now signal }
    {
        match self.get(name_at(names, signal as usize)) {
            Some(actual) => actual,
            None => Signal {
                used: self.used,
                own: signal,
            },
        }
    }

    /// What a control becomes.
    pub fn control<'b>(&self, name: &'b [u8]) -> Control<'b>
        ensures { control_of result ≡ control_becomes (place_of self.now []) (NamedControl name.now) }
    {
        match self.get(name) {
            Some(actual) => Control::Given(actual),
            None => Control::Named(name),
        }
    }
}
