//! The pins of each class.

ghost use Rattle.std.specs.Prelude.{◌≡◌, ◌≢◌, ℕ, ◌+◌, ◌^◌, ◌<◌, true, false, length, slice_index, slice_index_or, All, IfOk};
ghost use Rattle.rig_simulated.specs.Gates.{IsDrivenBy};
ghost use Rattle.rig_simulated.specs.Chains.{AreChained, AreWithin};

use machine_shape::Pin;
use rig::PinBits;
use std::alloc::{AllocError, Global};

/// The pins by their classes: from the last pin of a class on each leads to the one before it.
#[derive(Drop)]
pub struct Chains {
    /// For each class that has pins one more than its last pin.
    pub last: Vec<u32>,
    /// For each pin one more than the one of its class before it, and 0 for the first.
    pub before: Vec<u32>,
}

/// Room for the pins of so many classes.
pub fn new_chains(alloc: Global, wires: usize, pins: usize) -> Result<Chains, AllocError>
    ensures last { IfOk result (λ c. length c.last.items ≡ wires) }
    ensures few { IfOk result (λ c. AreWithin c.last.items pins) }
    ensures before { IfOk result (λ c. length c.before.items ≡ pins) }
{
    Ok(Chains {
        last: vec![in alloc; 0; wires]?,
        before: vec![in alloc; 0; pins]?,
    })
}

/// Forgets the last pins of the classes of these.
fn forget_last(last: &mut Vec<u32>, pins: &[u32])
    requires { All (λ r. r < length last.old.items) pins.now }
    ensures len { length last.new.items ≡ length last.old.items }
    ensures few { (n : ℕ) → AreWithin last.old.items n → AreWithin last.new.items n }
    ensures none { (k : ℕ) → k < length pins.now → slice_index last.new.items (slice_index pins.now k) ≡ 0 }
{
    'pins: for k in 0..pins.len() {
        last[pins[k] as usize] = 0;
    }
}

/// Puts each pin behind those of its class before it.
fn link_pins(chains: &mut Chains, pins: &[u32])
    requires few_pins { length pins.now < 2 ^ 31 }
    requires before { length chains.old.before.items ≡ length pins.now }
    requires within { All (λ r. r < length chains.old.last.items) pins.now }
    requires few { AreWithin chains.old.last.items (length pins.now) }
    requires none { (k : ℕ) → k < length pins.now → slice_index chains.old.last.items (slice_index pins.now k) ≡ 0 }
    ensures before { length chains.new.before.items ≡ length pins.now }
    ensures last { length chains.new.last.items ≡ length chains.old.last.items }
    ensures few { AreWithin chains.new.last.items (length pins.now) }
    ensures chained { AreChained pins.now chains.new.last.items chains.new.before.items }
{
    'pins: for k in 0..pins.len() {
        let class = pins[k] as usize;
        chains.before[k] = chains.last[class];
        chains.last[class] = k as u32 + 1;
    }
}

/// Finds the pins of each class anew.
pub fn chain_pins(chains: &mut Chains, pins: &[u32])
    requires few_pins { length pins.now < 2 ^ 31 }
    requires before { length chains.old.before.items ≡ length pins.now }
    requires within { All (λ r. r < length chains.old.last.items) pins.now }
    requires few { AreWithin chains.old.last.items (length pins.now) }
    ensures before { length chains.new.before.items ≡ length pins.now }
    ensures last { length chains.new.last.items ≡ length chains.old.last.items }
    ensures few { AreWithin chains.new.last.items (length pins.now) }
    ensures chained { AreChained pins.now chains.new.last.items chains.new.before.items }
{
    forget_last(&mut chains.last, pins);
    link_pins(chains, pins);
}

/// Whether a pin of a class is driven 0.
pub fn is_pulled(pins: &[u32], chains: &Chains, drive: &PinBits, class: u32) -> bool
    requires before { length chains.now.before.items ≡ length pins.now }
    requires few { AreWithin chains.now.last.items (length pins.now) }
    requires chained { AreChained pins.now chains.now.last.items chains.now.before.items }
    requires drive { length drive.now ≡ length pins.now }
    requires class { class < length chains.now.last.items }
    ensures yes { result ≡ true → IsDrivenBy pins.now drive.now (length pins.now) class }
    ensures no { result ≡ false → (k : ℕ) → k < length pins.now → slice_index pins.now k ≡ class →
        slice_index_or drive.now k true ≡ true }
{
    let mut at = chains.last[class as usize];
    'up: while at > 0 {
        let place = at - 1;
        if pins[place as usize] != class {
            return false;
        }
        if !drive.get(Pin(place)) {
            return true;
        }
        at = chains.before[place as usize];
    }
    false
}

/// Puts a level at each pin of a class.
pub fn put_level(pins: &[u32], chains: &Chains, class: u32, level: bool, read: &mut PinBits)
    requires before { length chains.now.before.items ≡ length pins.now }
    requires few { AreWithin chains.now.last.items (length pins.now) }
    requires chained { AreChained pins.now chains.now.last.items chains.now.before.items }
    requires class { class < length chains.now.last.items }
    requires read { length read.old ≡ length pins.now }
    ensures len { length read.new ≡ length read.old }
    ensures these { (k : ℕ) → k < length pins.now → slice_index pins.now k ≡ class → slice_index_or read.new k true ≡ level }
    ensures others { (k : ℕ) → slice_index pins.now k ≢ class → slice_index_or read.new k true ≡ slice_index_or read.old k true }
{
    let mut at = chains.last[class as usize];
    'up: while at > 0 {
        let place = at - 1;
        if pins[place as usize] != class {
            return;
        }
        read.set(Pin(place), level);
        at = chains.before[place as usize];
    }
}
