//! A configuration after its calls, and bits of pins.

use example_kit::TINY;
use machine_config::{Config, Setting};
use machine_shape::{Cross, Pin, Shape, Table};
use rig::PinBits;
use std::alloc::Global;

// A latch that gives what pin 0 reads.
const LATCH: Setting = Setting {
    cells: 0xAAAA_AAAA_AAAA_AAAA,
    latched: true,
    init: false,
};

// Whether a crosspoint that is closed twice stands there once, until it is opened.
fn closes(config: &mut Config) -> Option<bool> {
    if config.shape().crosses() <= 167 {
        return None;
    }
    config.close_cross(Cross(167)).ok()?;
    config.close_cross(Cross(0)).ok()?;
    config.close_cross(Cross(167)).ok()?;
    let both = config.has_cross(Cross(0)) && config.has_cross(Cross(167));
    let two = config.closed().len() == 2;
    config.open_cross(Cross(0));
    Some(both && two && !config.has_cross(Cross(0)))
}

// Whether a table is on as it was set, until it is switched off.
fn switches(config: &mut Config) -> Option<bool> {
    if config.shape().tables() <= 1 {
        return None;
    }
    config.switch_on(Table(1), LATCH);
    config.set_cell(Table(1), 0, true);
    let due = Setting {
        cells: 0xAAAA_AAAA_AAAA_AAAB,
        ..LATCH
    };
    let on = config.setting(Table(1)) == Some(due) && config.setting(Table(0)).is_none();
    let one = config.tables_on().len() == 1;
    config.switch_off(Table(1));
    Some(on && one && config.setting(Table(1)).is_none())
}

// Whether it is as it should be after each of its calls.
fn is_right(config: &mut Config) -> Option<bool> {
    let closed = closes(config)?;
    let switched = switches(config)?;
    config.set_ticks(4096);
    let ticks = config.ticks() == 4096;
    config.clear();
    Some(closed && switched && ticks && config.closed().is_empty() && config.ticks() == 1)
}

pub fn after_each_call(alloc: Global) -> Option<bool> {
    let shape = Shape::new(TINY).ok()?;
    let mut config = Config::with_room(alloc, shape, 1).ok()?;
    is_right(&mut config)
}

pub fn pin_bits(alloc: Global) -> Option<bool> {
    let mut bits = PinBits::new(alloc, 3).ok()?;
    bits.set(Pin(1), false);
    let set = !bits.get(Pin(1));
    let mut others = PinBits::new(alloc, 3).ok()?;
    others.copy_from(&bits);
    let copied = others.as_slice() == [true, false, true].as_slice();
    others.release_all();
    Some(set && copied && others.as_slice() == [true; 3].as_slice() && others.len() == 3)
}
