//! The nets of an image, by numbers.
ghost use Rattle.std.specs.Prelude.{◌≡◌, ◌<◌, ◌↔◌, IfOk, IfSome, IfNone, IsTrue, All, AllPairs, length};
ghost use Rattle.machine_shape.specs.Shape.{wires_of};
ghost use Rattle.place_plan.specs.Lists.{AreThose};
ghost use Rattle.place_repair.specs.Groups.{AreLowest};
ghost use Rattle.place_repair.specs.Marks.{AreMarks};
ghost use Rattle.place_repair.specs.Nets.{HasWire, IsEnd, IsLowest};
ghost use Rattle.place_repair.specs.Making.{AreNetsOf, AreNumbers};

use crate::groups::lowest_of;
use crate::marks::push_if;
use crate::uses::ends_of;
use base_lists::Items;
use machine_config::Config;
use machine_shape::Wire;
use std::alloc::{AllocError, Global};

/// The nets of a configuration: its groups of wires that closed crosspoints join, numbered by their lowest wires.
#[derive(Drop)]
pub struct NetList {
    /// The lowest wire of each net.
    pub lowest: Items<u32>,
    /// For each wire the lowest of its group.
    pub lows: Vec<u32>,
    /// For each wire whether a closed crosspoint touches it.
    pub touched: Vec<bool>,
    /// For the lowest wire of each net the net's number.
    pub numbers: Vec<u32>,
}

// Whether a wire is the lowest of a net.
fn is_lowest(config: &Config, lows: &[u32], touched: &[bool], wire: u32) -> bool
    requires lows { AreLowest config.now.config lows.now }
    requires touched { AreMarks (wires_of config.now.config.shape) (IsEnd config.now.config) touched.now }
    requires within { wire < wires_of config.now.config.shape }
    ensures { IsTrue result ↔ IsLowest config.now.config wire }
{
    machine_shape::the_numbering_is_sound();
    // Says that what is closed is of the machine.
    let _shape = config.shape();
    let is_end = touched[wire as usize];
    if !is_end {
        return false;
    }
    let low = lows[wire as usize];
    if low == wire {
        return true;
    }
    false
}

// The lowest wire of each net, ascending.
fn lowest_wires(
    alloc: Global,
    config: &Config,
    lows: &[u32],
    touched: &[bool],
) -> Result<Items<u32>, AllocError>
    requires lows { AreLowest config.now.config lows.now }
    requires touched { AreMarks (wires_of config.now.config.shape) (IsEnd config.now.config) touched.now }
    ensures { IfOk result (AreThose (IsLowest config.now.config)) }
{
    machine_shape::the_numbering_is_sound();
    let mut lowest = Items::empty(alloc);
    for w in 0..config.shape().wires() {
        let is = is_lowest(config, lows, touched, w);
        push_if(&mut lowest, w, is)?;
    }
    Ok(lowest)
}

// For each of these wires its number.
fn number(numbers: &mut [u32], wires: &[u32])
    requires few { length wires.now < 4294967296 }
    requires within { All (λ w. w < length numbers.old) wires.now }
    requires ascending { AllPairs (λ v w. v < w) wires.now }
    ensures sized { length numbers.new ≡ length numbers.old }
    ensures numbers { AreNumbers wires.now numbers.new }
{
    for k in 0..wires.len() {
        numbers[wires[k] as usize] = k as u32;
    }
}

/// The nets of a configuration.
pub fn nets_of(alloc: Global, config: &Config) -> Result<NetList, AllocError>
    ensures { IfOk result (AreNetsOf config.now.config) }
{
    machine_shape::the_numbering_is_sound();
    // Says that what is closed is of the machine, which has few wires.
    let _wires = config.shape().wires();
    let lows = lowest_of(alloc, config)?;
    let touched = ends_of(alloc, config)?;
    let lowest = lowest_wires(alloc, config, &lows, &touched)?;
    let mut numbers = vec![in alloc; 0; lows.len()]?;
    number(&mut numbers, lowest.as_slice());
    Ok(NetList {
        lowest,
        lows,
        touched,
        numbers,
    })
}

/// The net of a wire, if a closed crosspoint touches it.
pub fn net_of(config: &Config, nets: &NetList, wire: Wire) -> Option<u32>
    requires nets { AreNetsOf config.now.config nets.now }
    requires within { wire.0 < wires_of config.now.config.shape }
    ensures some { IfSome result (λ k. HasWire config.now.config nets.now.lowest k wire.0) }
    ensures none { IfNone result (¬ IsEnd config.now.config wire.0) }
{
    machine_shape::the_numbering_is_sound();
    // Says that what is closed is of the machine.
    let _shape = config.shape();
    let is_end = nets.touched[wire.0 as usize];
    if !is_end {
        return None;
    }
    let low = nets.lows[wire.0 as usize];
    let number = nets.numbers[low as usize];
    Some(number)
}

// The net of a wire by its number, or a number that no net has.
fn number_of(nets: &NetList, wire: usize) -> u32 {
    let touched = match nets.touched.get(wire) {
        Some(touched) => *touched,
        None => false,
    };
    if !touched {
        return u32::MAX;
    }
    let Some(low) = nets.lows.get(wire) else {
        return u32::MAX;
    };
    match nets.numbers.get(*low as usize) {
        Some(number) => *number,
        None => u32::MAX,
    }
}

/// For each wire the net that has it, or a number that no net has.
pub fn nets_by_wire(alloc: Global, nets: &NetList) -> Result<Vec<u32>, AllocError> {
    let mut numbers = Vec::with_capacity(alloc, nets.lows.len())?;
    'wires: for wire in 0..nets.lows.len() {
        numbers.push(number_of(nets, wire))?;
    }
    Ok(numbers)
}
