//! The first latch with another control, found while latches come.

ghost use Rattle.std.specs.Prelude.{◌≡◌, ◌++◌, ◌∷◌, [], ℕ, List, Some, None, IfOk, OnOk, IfErr, option_map, if◌then◌else◌};
ghost use Rattle.std.specs.Option.{option_or, option_to_list};
ghost use Rattle.std.specs.Str.{bytes_eq};
ghost use Rattle.design_flatten.specs.declared.refusal.Refusal.TheVariants.{Memory};
ghost use Rattle.design_flatten.specs.Netlists.{Clocked, control_is, control_on};
ghost use Rattle.design_flatten.specs.Placed.{control_of, placed_line};
ghost use Rattle.design_flatten.specs.Clocks.{same_control, clocked_in, place_in, at_name, AreFirstClocks, AreClocks, nearer_line, other_with};
ghost use Rattle.design_flatten.specs.Clocks.{earlier_clock};

use crate::model::Signal;
use crate::placed::{Control, Placed, PlacedPart};
use crate::refusal::Refusal;
use design_netlist::Name;
use std::alloc::{AllocError, Global};
use std::collections::HashMap;

/// The control of a latch, with the number of its line.
#[derive(Clone, Copy, Debug)]
pub struct Clock<'a> {
    pub number: u64,
    pub control: Control<'a>,
}

/// The controls so far: that of the first latch that has one, and the line of the first latch that has another.
#[derive(Drop)]
pub struct Clocks<'a> {
    pub places: Places<'a>,
    pub first: Option<Clock<'a>>,
    pub other: Option<u64>,
}

/// Where names stand first.
#[derive(Drop)]
pub struct Places<'a> {
    pub map: HashMap<&'a [u8], usize>,
}

fn add_name<'a>(places: &mut Places<'a>, name: &'a [u8], place: usize) -> Result<(), AllocError>
    ensures { OnOk result ((w : List ℕ) → at_name places.new w ≡ option_or (at_name places.old w)
        (if bytes_eq w name.now then Some place else None)) }
{
    if places.map.contains_key(name) {
        return Ok(());
    }
    let _ = places.map.insert(name, place)?;
    Ok(())
}

fn places_of<'a>(alloc: Global, names: &'a [Name]) -> Result<Places<'a>, AllocError>
    ensures { IfOk result (λ p. (w : List ℕ) → at_name p w ≡ place_in names.now w) }
{
    let mut places = Places {
        map: HashMap::new(alloc),
    };
    'names: for place in 0..names.len() {
        add_name(&mut places, names[place].as_slice(), place)?;
    }
    Ok(places)
}

/// A control: a name is one with the signal of that name.
fn resolve_control<'a>(places: &Places<'_>, control: Control<'a>) -> Result<Control<'a>, Refusal>
    ensures refused { IfErr result (λ e. e ≡ Memory) }
    ensures ok { (names : List (List ℕ)) → ((w : List ℕ) → at_name places.now w ≡ place_in names w) →
        IfOk result (λ r. control_of r ≡ control_is names (control_of control.entry)) }
{
    let Control::Named(word) = control else {
        return Ok(control);
    };
    let Some(place) = places.map.get(word).copied() else {
        return Ok(control);
    };
    if place > 4_294_967_295 {
        return Err(Refusal::Memory);
    }
    Ok(Control::Given(Signal {
        used: 0,
        own: place as u32,
    }))
}

/// The control of a line, if it has one.
fn clock_of<'a>(places: &Places<'_>, line: &Placed<'a>) -> Result<Option<Clock<'a>>, Refusal>
    ensures refused { IfErr result (λ e. e ≡ Memory) }
    ensures ok { (names : List (List ℕ)) → ((w : List ℕ) → at_name places.now w ≡ place_in names w) →
        IfOk result (λ c. option_to_list (option_map clocked_in c) ≡ control_on names (placed_line line.now)) }
{
    match &line.part {
        PlacedPart::Latch {
            from: _,
            out: _,
            init: _,
            control: Some(control),
        } => {
            let control = resolve_control(places, *control)?;
            Ok(Some(Clock {
                number: line.number,
                control,
            }))
        }
        _ => Ok(None),
    }
}

fn is_same(one: Control<'_>, other: Control<'_>) -> bool
    ensures { result ≡ same_control (control_of one.entry) (control_of other.entry) }
{
    match (one, other) {
        (Control::Given(a), Control::Given(b)) => a == b,
        (Control::Named(a), Control::Named(b)) => a == b,
        _ => false,
    }
}

/// The lower of two line numbers, of which the first may be wanting.
fn nearer_line(other: Option<u64>, line: u64) -> u64
    ensures { result ≡ nearer_line other line }
{
    match other {
        None => line,
        Some(other) => { if line < other { line } else { other } }
    }
}

/// The line of the first control that is another than the first, with a control more.
fn other_with(first: &Clock<'_>, other: Option<u64>, clock: &Clock<'_>) -> Option<u64>
    ensures { result ≡ other_with (clocked_in first.now) other (clocked_in clock.now) }
{
    if is_same(first.control, clock.control) {
        return other;
    }
    if clock.number < first.number {
        return Some(first.number);
    }
    Some(nearer_line(other, clock.number))
}

/// Of two controls the one on the lower line, or else the first.
fn earlier_clock<'a>(first: Clock<'a>, clock: Clock<'a>) -> Clock<'a>
    ensures { result ≡ earlier_clock first.entry clock.entry }
{
    if clock.number < first.number {
        clock
    } else {
        first
    }
}

/// With a control more.
fn add_clock<'a>(first: &mut Option<Clock<'a>>, other: &mut Option<u64>, clock: Clock<'a>)
    ensures { (controls : List Clocked) → AreFirstClocks controls first.old other.old →
        AreFirstClocks (controls ++ clocked_in clock.entry ∷ []) first.new other.new }
{
    match *first {
        None => *first = Some(clock),
        Some(known) => {
            *other = other_with(&known, *other, &clock);
            *first = Some(earlier_clock(known, clock));
        }
    }
}

impl<'a> Clocks<'a> {
    /// No controls yet. Names are those of the first model.
    pub fn new(alloc: Global, names: &'a [Name]) -> Result<Self, AllocError>
        ensures { IfOk result (AreClocks names.now []) }
    {
        Ok(Clocks {
            places: places_of(alloc, names)?,
            first: None,
            other: None,
        })
    }

    /// The control of a line more, if it has one.
    pub fn put(&mut self, line: &Placed<'a>) -> Result<(), Refusal>
        ensures refused { IfErr result (λ e. e ≡ Memory) }
        ensures ok { OnOk result ((names : List (List ℕ)) (controls : List Clocked) → AreClocks names controls self.old →
            AreClocks names (controls ++ control_on names (placed_line line.now)) self.new) }
    {
        let Some(clock) = clock_of(&self.places, line)? else {
            return Ok(());
        };
        add_clock(&mut self.first, &mut self.other, clock);
        Ok(())
    }
}
