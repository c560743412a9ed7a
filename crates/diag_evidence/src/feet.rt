//! Feet: wires that hang nowhere, each with a crosspoint to a wire that hangs, and what a look shows of them.
ghost use Rattle.std.specs.Prelude.{◌≡◌, ◌<◌, ◌≤◌, ◌||◌, ℕ, All, IfOk, Some, length, map, get_or, slice_get};
ghost use Rattle.base_bits.specs.Numbers.{has_number};
ghost use Rattle.machine_shape.specs.Shape.{crosses_of, pins_of, wires_of};
ghost use Rattle.diag_tests.specs.Routes.{other_end};
ghost use Rattle.diag_evidence.specs.Hangs.{IsFoot, HasMarked, pin_at, others_part, falls_with_others, reads_oddly};

use crate::{Forest, Looks};
use base_bits::BitSet;
use machine_shape::{Cross, Pin, Shape, Wire};
use std::alloc::{AllocError, Global};

// The end of the crosspoint of a foot that isn't its wire.
fn far_end(shape: Shape, foot: (Wire, Cross)) -> Wire
    requires { foot.1.0 < crosses_of shape }
    ensures end { result.0 ≡ other_end shape foot.1.0 foot.0.0 }
    ensures within { result.0 < wires_of shape }
{
    let (tap, line) = shape.ends(foot.1);
    if tap.0 == foot.0.0 {
        return line;
    }
    tap
}

// The pin of the tree to which a foot leads.
pub(crate) fn pin_at(forest: &Forest, foot: (Wire, Cross)) -> u32
    requires { IsFoot forest.now foot }
    ensures pin { result ≡ pin_at forest.now foot }
    ensures within { result < pins_of forest.now.shape }
{
    let end = far_end(forest.shape(), foot);
    forest.pin_of(end).unwrap_or(0)
}

// The pins of the trees to which feet lead.
pub(crate) fn pins_at(
    alloc: Global,
    forest: &Forest,
    feet: &[(Wire, Cross)],
) -> Result<Vec<u32>, AllocError>
    requires { All (IsFoot forest.now) feet.now }
    ensures { IfOk result (λ pins. pins.items ≡ map (pin_at forest.now) feet.now) }
{
    let mut pins = Vec::new(alloc);
    'feet: for k in 0..feet.len() {
        pins.push(pin_at(forest, feet[k]))?;
    }
    Ok(pins)
}

// The pin of the tree to which the foot at a place leads, where those of all feet are listed.
fn listed_pin(
    pins: &[u32],
    forest: &Forest,
    feet: &[(Wire, Cross)],
    k: usize,
    foot: (Wire, Cross),
) -> u32
    requires feet { All (IsFoot forest.now) feet.now }
    requires pins { pins.now ≡ map (pin_at forest.now) feet.now }
    requires place { slice_get feet.now k ≡ Some foot }
    ensures pin { result ≡ pin_at forest.now foot }
    ensures within { result < pins_of forest.now.shape }
{
    // What hangs in a forest hangs on pins of its machine.
    let _crosses = forest.crosses();
    pins[k]
}

// Whether the pin of each other foot parts from that of this one.
fn others_part(
    forest: &Forest,
    feet: &[(Wire, Cross)],
    pins: &[u32],
    reads: &Looks,
    foot: (Wire, Cross),
) -> bool
    requires feet { All (IsFoot forest.now) feet.now }
    requires pins { pins.now ≡ map (pin_at forest.now) feet.now }
    requires foot { IsFoot forest.now foot }
    requires reads { reads.now.pins ≡ pins_of forest.now.shape }
    ensures { result ≡ others_part forest.now feet.now reads.now.rows foot }
{
    let pin = pin_at(forest, foot);
    'feet: for k in 0..feet.len() {
        let other = feet[k];
        if other.0.0 == foot.0.0 {
            continue;
        }
        if !reads.parts(listed_pin(pins, forest, feet, k, other), pin) {
            return false;
        }
    }
    true
}

// Whether a pin reads otherwise than 1 where another pin that hangs is driven.
fn falls_with_others(forest: &Forest, reads: &Looks, pin: u32) -> bool
    requires pin { pin < reads.now.pins }
    requires reads { reads.now.pins ≡ pins_of forest.now.shape }
    ensures { result ≡ falls_with_others forest.now reads.now.rows pin }
{
    let shape = forest.shape();
    'pins: for k in 0..shape.pins() {
        if k == pin {
            continue;
        }
        if forest.pin_of(shape.pin(Pin(k))).is_none() {
            continue;
        }
        if !reads.read_under(k, pin) {
            return true;
        }
    }
    false
}

// Whether a pin reads otherwise than 0 where it is driven, or otherwise than 1 where nothing is or another pin that hangs.
fn reads_oddly(forest: &Forest, reads: &Looks, pin: u32) -> bool
    requires pin { pin < reads.now.pins }
    requires reads { reads.now.pins ≡ pins_of forest.now.shape }
    ensures { result ≡ reads_oddly forest.now reads.now.rows pin }
{
    if reads.read_under(pin, pin) {
        return true;
    }
    if !reads.read_free(pin) {
        return true;
    }
    falls_with_others(forest, reads, pin)
}

// Marks the wires of feet of which a look shows that they aren't fit, and of these the ones that aren't clear. The pins of the trees to
// which the feet lead are listed.
pub(crate) fn mark_unfit(
    forest: &Forest,
    feet: &[(Wire, Cross)],
    pins: &[u32],
    reads: &Looks,
    unfit: &mut BitSet,
    unclear: &mut BitSet,
)
    requires feet { All (IsFoot forest.now) feet.now }
    requires pins { pins.now ≡ map (pin_at forest.now) feet.now }
    requires reads { reads.now.pins ≡ pins_of forest.now.shape }
    requires unfit { length unfit.old ≡ wires_of forest.now.shape }
    requires unclear { length unclear.old ≡ wires_of forest.now.shape }
    ensures marked { HasMarked forest.now feet.now reads.now.rows unfit.old unfit.new unclear.old unclear.new }
    ensures len { length unfit.new ≡ length unfit.old }
    ensures len_too { length unclear.new ≡ length unclear.old }
{
    'feet: for k in 0..feet.len() {
        let foot = feet[k];
        let pin = pin_at(forest, foot);
        if !others_part(forest, feet, pins, reads, foot) {
            continue;
        }
        if !reads_oddly(forest, reads, pin) {
            continue;
        }
        unfit.insert(foot.0.0);
        if reads.read_under(pin, pin) == reads.read_free(pin) {
            unclear.insert(foot.0.0);
        }
    }
}
