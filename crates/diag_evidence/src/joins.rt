//! Wires that join the set, each two wires of which are a kept pair.
ghost use Rattle.std.specs.Prelude.{◌≡◌, ◌<◌, ◌&&◌, ◌||◌, ◌==◌, ℕ, All, length, map};
ghost use Rattle.std.specs.List.{list_any, range_with_len};
ghost use Rattle.base_bits.specs.Numbers.{has_number};
ghost use Rattle.machine_shape.specs.Shape.{pin_wire, pins_of, wires_of};
ghost use Rattle.diag_evidence.specs.Looks.{joins_alone, parts_from_others};
ghost use Rattle.diag_evidence.specs.Hangs.{IsFoot, all_hang, joins, over_of, parts_from_hung, turned};
ghost use Rattle.diag_evidence.specs.Plans.{ArePins, AreViews};

use crate::feet::pin_at;
use crate::hangs::{HangPins, Views, WireTest, is_shown, turn};
use crate::{Facts, Forest, Looks};
use base_bits::BitSet;
use machine_shape::{Pin, Wire};

// Whether all wires that hang, but for one, do so on pins that part from this one.
fn parts_from_others(forest: &Forest, reads: &Looks, pin: u32, wire: Wire) -> bool
    requires reads { reads.now.pins ≡ pins_of forest.now.shape }
    requires pin { pin < reads.now.pins }
    ensures { result ≡ parts_from_others forest.now reads.now.rows pin wire.0 }
{
    'wires: for u in 0..forest.shape().wires() {
        if u == wire.0 {
            continue;
        }
        let Some(other) = forest.pin_of(Wire(u)) else {
            continue;
        };
        if !reads.parts(other, pin) {
            return false;
        }
    }
    true
}

// Whether a pin of the machine joins the set.
fn joins_alone(forest: &Forest, reads: &Looks, pin: u32) -> bool
    requires reads { reads.now.pins ≡ pins_of forest.now.shape }
    requires pin { pin < reads.now.pins }
    ensures { result ≡ joins_alone forest.now reads.now.rows pin }
{
    let wire = forest.shape().pin(Pin(pin));
    if forest.pin_of(wire).is_none() {
        return false;
    }
    if !reads.swings(pin) {
        return false;
    }
    parts_from_others(forest, reads, pin, wire)
}

// Marks the pins of the machine that join the set.
pub(crate) fn mark_joined_pins(apart: &mut BitSet, forest: &Forest, reads: &Looks)
    requires apart { length apart.old ≡ wires_of forest.now.shape }
    requires reads { reads.now.pins ≡ pins_of forest.now.shape }
    ensures marked { (w : ℕ) → has_number apart.new w ≡ (list_any (λ k. (pin_wire forest.now.shape k == w)
        && joins_alone forest.now reads.now.rows k) (range_with_len 0 (pins_of forest.now.shape)) || has_number apart.old w) }
    ensures len { length apart.new ≡ length apart.old }
{
    'pins: for k in 0..forest.shape().pins() {
        if !joins_alone(forest, reads, k) {
            continue;
        }
        apart.insert(forest.shape().pin(Pin(k)).0);
    }
}

// Whether all wires of a set hang.
pub(crate) fn all_hang(set: &BitSet, forest: &Forest) -> bool
    requires { length set.now ≡ wires_of forest.now.shape }
    ensures { result ≡ all_hang set.now forest.now }
{
    set.is_within(forest.hung())
}

impl Facts {
    /// Whether all wires of the set hang in a forest.
    pub fn all_hang(&self, forest: &Forest) -> bool
        requires { forest.now.shape ≡ self.now.shape }
        ensures { result ≡ all_hang self.now.apart forest.now }
    {
        all_hang(&self.apart, forest)
    }
}

// Whether a pin parts from each other pin of the machine that hangs.
fn parts_from_hung(forest: &Forest, reads: &Looks, pin: u32) -> bool
    requires reads { reads.now.pins ≡ pins_of forest.now.shape }
    requires pin { pin < reads.now.pins }
    ensures { result ≡ parts_from_hung forest.now reads.now.rows pin }
{
    let shape = forest.shape();
    'pins: for k in 0..shape.pins() {
        if k == pin {
            continue;
        }
        if forest.pin_of(shape.pin(Pin(k))).is_none() {
            continue;
        }
        if !reads.parts(k, pin) {
            return false;
        }
    }
    true
}

// Whether the wire of a hang joins the set, where all wires of that hang.
fn joins(
    forest: &Forest,
    hangs: &[WireTest],
    swapped: &[WireTest],
    pins: &HangPins,
    views: &Views,
    hang: WireTest,
) -> bool
    requires over { All (λ h. IsFoot forest.now (over_of h)) hangs.now }
    requires other { All (λ h. IsFoot forest.now (over_of (turned h))) hangs.now }
    requires swapped { swapped.now ≡ map turned hangs.now }
    requires pins { ArePins forest.now hangs.now pins.now }
    requires views { AreViews (pins_of forest.now.shape) views.now }
    requires foot { IsFoot forest.now (over_of hang) }
    requires foot_too { IsFoot forest.now (over_of (turned hang)) }
    ensures { result ≡ joins forest.now hangs.now views.now.all.rows views.now.without_over.rows views.now.without_other.rows hang }
{
    if !is_shown(
        forest,
        hangs,
        &pins.over,
        &views.all,
        &views.without_over,
        hang,
    ) {
        return false;
    }
    if !is_shown(
        forest,
        swapped,
        &pins.other,
        &views.all,
        &views.without_other,
        turn(hang),
    ) {
        return false;
    }
    let p = pin_at(forest, (hang.wire, hang.over));
    let q = pin_at(forest, (hang.wire, hang.other));
    if !views.without_over.swings(q) {
        return false;
    }
    if !parts_from_hung(forest, &views.without_over, q) {
        return false;
    }
    parts_from_hung(forest, &views.without_other, p)
}

// Marks the wires of hangs that join the set, where all wires of that hang.
pub(crate) fn mark_joined(
    apart: &mut BitSet,
    forest: &Forest,
    hangs: &[WireTest],
    swapped: &[WireTest],
    pins: &HangPins,
    views: &Views,
)
    requires apart { length apart.old ≡ wires_of forest.now.shape }
    requires over { All (λ h. IsFoot forest.now (over_of h)) hangs.now }
    requires other { All (λ h. IsFoot forest.now (over_of (turned h))) hangs.now }
    requires swapped { swapped.now ≡ map turned hangs.now }
    requires pins { ArePins forest.now hangs.now pins.now }
    requires views { AreViews (pins_of forest.now.shape) views.now }
    ensures marked { (w : ℕ) → has_number apart.new w ≡ (list_any (λ h. (h.wire.0 == w) && joins forest.now hangs.now
        views.now.all.rows views.now.without_over.rows views.now.without_other.rows h) hangs.now || has_number apart.old w) }
    ensures len { length apart.new ≡ length apart.old }
{
    'hangs: for k in 0..hangs.len() {
        let hang = hangs[k];
        if !joins(forest, hangs, swapped, pins, views, hang) {
            continue;
        }
        apart.insert(hang.wire.0);
    }
}
