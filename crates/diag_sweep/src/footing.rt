//! Whether wires may be hung on a forest together, to be tested.
ghost use Rattle.std.specs.Prelude.{◌≡◌, ◌<◌, true, Some, All, IfOk, IfSome, IsTrue, length, map, slice_get};
ghost use Rattle.base_bits.specs.Numbers.{has_number};
ghost use Rattle.machine_shape.specs.Shape.{Ends, ends_of, crosses_of, wires_of};
ghost use Rattle.diag_tests.specs.Routes.{other_end};
ghost use Rattle.diag_evidence.specs.Hangs.{AreHangs, IsFoot, all_feet, overs, pin_at};

use crate::seen::see_all;
use base_bits::BitSet;
use diag_evidence::{Forest, WireTest};
use diag_known::Field;
use diag_search::ChosenTest;
use machine_shape::{Cross, Shape, Wire};
use std::alloc::{AllocError, Global};

/// The hangs that the search has chosen.
pub(crate) fn hangs_of(
    alloc: Global,
    chosen: &Vec<ChosenTest>,
) -> Result<Vec<WireTest>, AllocError> {
    let mut hangs = Vec::new(alloc);
    'hangs: for hung in chosen {
        hangs.push(WireTest {
            wire: hung.wire,
            over: hung.first.cross,
            other: hung.second.cross,
        })?;
    }
    Ok(hangs)
}

// A hang at a place.
fn hang_at(hangs: &[WireTest], place: usize) -> WireTest
    requires { place < length hangs.now }
    ensures { slice_get hangs.now place ≡ Some result }
{
    hangs[place]
}

// The numbers of their wires.
fn wires_of_hangs(alloc: Global, hangs: &[WireTest]) -> Result<Vec<u32>, AllocError>
    ensures { IfOk result (λ wires. wires.items ≡ map (λ h. h.wire.0) hangs.now) }
{
    let mut wires = Vec::new(alloc);
    'hangs: for k in 0..hangs.len() {
        wires.push(hang_at(hangs, k).wire.0)?;
    }
    Ok(wires)
}

// Their wires with their first crosspoints.
fn first_feet(alloc: Global, hangs: &[WireTest]) -> Result<Vec<(Wire, Cross)>, AllocError>
    ensures { IfOk result (λ feet. feet.items ≡ overs hangs.now) }
{
    let mut feet = Vec::new(alloc);
    'hangs: for k in 0..hangs.len() {
        let hang = hang_at(hangs, k);
        feet.push((hang.wire, hang.over))?;
    }
    Ok(feet)
}

// And then with their second ones.
fn feet_of(alloc: Global, hangs: &[WireTest]) -> Result<Vec<(Wire, Cross)>, AllocError>
    ensures { IfOk result (λ feet. feet.items ≡ all_feet hangs.now) }
{
    let mut feet = first_feet(alloc, hangs)?;
    'hangs: for k in 0..hangs.len() {
        let hang = hang_at(hangs, k);
        feet.push((hang.wire, hang.other))?;
    }
    Ok(feet)
}

// The end of a crosspoint that isn't this wire, if the other one is.
fn end_from(shape: &Shape, foot: (Wire, Cross)) -> Option<Wire>
    requires { foot.1.0 < crosses_of shape.now }
    ensures ends { IfSome result (λ end. Ends (ends_of shape.now foot.1.0) foot.0.0 end.0) }
    ensures other { IfSome result (λ end. end.0 ≡ other_end shape.now foot.1.0 foot.0.0) }
    ensures within { IfSome result (λ end. end.0 < wires_of shape.now) }
{
    let (tap, line) = shape.ends(foot.1);
    if tap.0 == foot.0.0 {
        return Some(line);
    }
    if line.0 == foot.0.0 {
        return Some(tap);
    }
    None
}

// The pin on which a wire would hang over a crosspoint, if it hangs nowhere yet and may be hung so.
fn pin_over(forest: &Forest, foot: (Wire, Cross)) -> Option<u32>
    ensures foot { IfSome result (λ pin. IsFoot forest.now foot) }
    ensures pin { IfSome result (λ pin. pin ≡ pin_at forest.now foot) }
{
    let shape = forest.shape();
    if foot.0.0 >= shape.wires() {
        return None;
    }
    if foot.1.0 >= shape.crosses() {
        return None;
    }
    if forest.pin_of(foot.0).is_some() {
        return None;
    }
    let Some(end) = end_from(&shape, foot) else {
        return None;
    };
    forest.pin_of(end)
}

/// A foot at a place.
pub(crate) fn foot_at(feet: &Vec<(Wire, Cross)>, place: usize) -> (Wire, Cross)
    requires { place < length feet.now.items }
    ensures { slice_get feet.now.items place ≡ Some result }
{
    feet[place]
}

/// The pins on which wires would hang over some crosspoints. None where one may not be hung.
pub(crate) fn pins_over(
    alloc: Global,
    forest: &Forest,
    feet: &Vec<(Wire, Cross)>,
) -> Result<Option<Vec<u32>>, AllocError>
    ensures each { IfOk result (λ found. IfSome found (λ pins. All (IsFoot forest.now) feet.now.items)) }
    ensures pins { IfOk result (λ found. IfSome found (λ pins. pins.items ≡ map (pin_at forest.now) feet.now.items)) }
{
    let mut pins = Vec::new(alloc);
    'feet: for k in 0..feet.len() {
        let Some(pin) = pin_over(forest, foot_at(feet, k)) else {
            return Ok(None);
        };
        pins.push(pin)?;
    }
    Ok(Some(pins))
}

/// Whether wires may be hung on a forest together, to be tested.
pub(crate) fn are_fit(
    alloc: Global,
    forest: &Forest,
    hangs: &[WireTest],
) -> Result<bool, AllocError>
    ensures { IfOk result (λ yes. IsTrue yes → AreHangs forest.now hangs.now) }
{
    let shape = forest.shape();
    let mut seen = BitSet::new(alloc, shape.wires())?;
    let wires = wires_of_hangs(alloc, hangs)?;
    if !see_all(&mut seen, &wires) {
        return Ok(false);
    }
    let feet = feet_of(alloc, hangs)?;
    let Some(pins) = pins_over(alloc, forest, &feet)? else {
        return Ok(false);
    };
    let mut marks = BitSet::new(alloc, shape.pins())?;
    Ok(see_all(&mut marks, &pins))
}

/// Whether the wires of hangs are of a field.
pub(crate) fn are_of_field(field: &Field, hangs: &[WireTest]) -> bool
    ensures { IsTrue result → All (λ h. has_number field.now.wires h.wire.0 ≡ true) hangs.now }
{
    'hangs: for k in 0..hangs.len() {
        let hang = hang_at(hangs, k);
        if hang.wire.0 >= field.wires.len() {
            return false;
        }
        if !field.wires.has(hang.wire.0) {
            return false;
        }
    }
    true
}
