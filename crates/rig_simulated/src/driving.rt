//! What the pins are driven, from cycle to cycle.

ghost use Rattle.std.specs.Prelude.{◌≡◌, ℕ, ◌<◌, ◌≤◌, true, false, length, replicate, slice_index_or, slice_set, All, IfOk};
ghost use Rattle.rig_simulated.specs.Gates.{IsClear};
ghost use Rattle.rig_simulated.specs.Cycles.{AreDriven};
ghost use Rattle.rig_simulated.specs.Chains.{AreWithin};
ghost use Rattle.rig_simulated.specs.Tracked.{level_by, AreAlikeBelow, AreShown, IsTracked};

use crate::chains::{Chains, is_pulled, new_chains, put_level};
use crate::classes::ClassNode;
use crate::marks::clear_pins;
use machine_shape::Pin;
use rig::PinBits;
use std::alloc::{AllocError, Global};

/// So many pins are compared before any is looked at by itself.
const BLOCK: u32 = 64;

/// What is kept of the pins from cycle to cycle.
#[derive(Drop)]
pub struct KeptPins {
    pub chains: Chains,
    /// What they are driven.
    pub drive: PinBits,
    /// What they are while no table pulls them.
    pub levels: PinBits,
}

/// With all pins released.
pub fn keep_pins(alloc: Global, wires: usize, pins: u32) -> Result<KeptPins, AllocError>
    ensures last { IfOk result (λ k. length k.chains.last.items ≡ wires) }
    ensures few { IfOk result (λ k. AreWithin k.chains.last.items pins) }
    ensures before { IfOk result (λ k. length k.chains.before.items ≡ pins) }
    ensures drive { IfOk result (λ k. k.drive ≡ replicate pins true) }
    ensures levels { IfOk result (λ k. length k.levels ≡ pins) }
{
    let drive = PinBits::new(alloc, pins)?;
    let levels = PinBits::new(alloc, pins)?;
    let chains = new_chains(alloc, wires, pins as usize)?;
    Ok(KeptPins {
        chains,
        drive,
        levels,
    })
}

/// Releases all pins, and takes their marks away.
pub fn release_pins(kept: &mut KeptPins, pins: &[u32], low: &mut [bool])
    requires within { All (λ r. r < length low.old) pins.now }
    requires driven { AreDriven pins.now kept.old.drive low.old }
    ensures len { length low.new ≡ length low.old }
    ensures clear { IsClear low.new }
    ensures drive { kept.new.drive ≡ replicate (length kept.old.drive) true }
    ensures chains { kept.new.chains ≡ kept.old.chains }
    ensures levels { kept.new.levels ≡ kept.old.levels }
{
    clear_pins(pins, low);
    kept.drive.release_all();
}

/// What a class is while no table pulls it.
fn level_by(knots: &[ClassNode], low: &[bool], class: u32) -> bool
    requires knots { class < length knots.now }
    requires low { class < length low.now }
    ensures { result ≡ level_by knots.now low.now class }
{
    match knots[class as usize].held {
        Some(value) => value,
        None => !low[class as usize],
    }
}

/// Finds what the pins are while no table pulls them.
pub fn show_pins(levels: &mut PinBits, pins: &[u32], knots: &[ClassNode], low: &[bool])
    requires within { All (λ r. r < length knots.now) pins.now }
    requires low { length low.now ≡ length knots.now }
    requires levels { length levels.old ≡ length pins.now }
    ensures { AreShown knots.now pins.now low.now levels.new }
{
    'pins: for k in 0..levels.len() {
        levels.set(Pin(k), level_by(knots, low, pins[k as usize]));
    }
}

/// Drives a pin anew. Where its class has another level so, its pins show that.
fn drive_pin(
    kept: &mut KeptPins,
    pins: &[u32],
    knots: &[ClassNode],
    low: &mut [bool],
    pin: u32,
    bit: bool,
)
    requires tracked { IsTracked knots.now pins.now low.old kept.old }
    requires pin { pin < length pins.now }
    ensures tracked { IsTracked knots.now pins.now low.new kept.new }
    ensures drive { kept.new.drive ≡ slice_set kept.old.drive pin bit }
{
    kept.drive.set(Pin(pin), bit);
    let class = pins[pin as usize];
    let pulled = is_pulled(pins, &kept.chains, &kept.drive, class);
    if pulled == low[class as usize] {
        return;
    }
    low[class as usize] = pulled;
    let level = level_by(knots, low, class);
    put_level(pins, &kept.chains, class, level, &mut kept.levels);
}

/// Whether some bits from one on and below another differ.
fn differ(a: &[bool], b: &[bool], from: usize, to: usize) -> bool
    requires a { to ≤ length a.now }
    requires b { to ≤ length b.now }
    ensures { result ≡ false → (k : ℕ) → from ≤ k → k < to → slice_index_or a.now k true ≡ slice_index_or b.now k true }
{
    let mut found = false;
    'places: for k in from..to {
        if a[k] != b[k] {
            found = true;
        }
    }
    found
}

/// Drives a block of pins behind those that are driven already. Where it ends.
fn drive_block(
    kept: &mut KeptPins,
    pins: &[u32],
    knots: &[ClassNode],
    low: &mut [bool],
    drive: &PinBits,
    from: u32,
) -> u32
    requires tracked { IsTracked knots.now pins.now low.old kept.old }
    requires drive { length drive.now ≡ length pins.now }
    requires from { from < length pins.now }
    requires same { AreAlikeBelow from kept.old.drive drive.now }
    ensures tracked { IsTracked knots.now pins.now low.new kept.new }
    ensures further { from < result }
    ensures within { result ≤ length pins.now }
    ensures same { AreAlikeBelow result kept.new.drive drive.now }
{
    let to = drive.len().min(from.saturating_add(BLOCK));
    let changes = differ(
        kept.drive.as_slice(),
        drive.as_slice(),
        from as usize,
        to as usize,
    );
    if !changes {
        return to;
    }
    'pins: for k in from..to {
        let bit = drive.get(Pin(k));
        if bit != kept.drive.get(Pin(k)) {
            drive_pin(kept, pins, knots, low, k, bit);
        }
    }
    to
}

/// Drives all pins. Its cost grows with the pins that are driven otherwise than before and those of their classes, but
/// for comparing.
pub fn drive_pins(
    kept: &mut KeptPins,
    pins: &[u32],
    knots: &[ClassNode],
    low: &mut [bool],
    drive: &PinBits,
)
    requires tracked { IsTracked knots.now pins.now low.old kept.old }
    requires drive { length drive.now ≡ length pins.now }
    ensures tracked { IsTracked knots.now pins.now low.new kept.new }
    ensures drive { kept.new.drive ≡ drive.now }
{
    let mut from = 0;
    'further: while from < drive.len() {
        from = drive_block(kept, pins, knots, low, drive, from);
    }
}
