//! A machine behind a port that has a load made again. Where a configuration finds no memory on its way, the other end has the one before,
//! and what the board keeps is that with some of the new one; so the next load has to say all anew.
ghost use Rattle.std.specs.Prelude.{◌≡◌, Some, IfOk, OnOk, length};
ghost use Rattle.rig.specs.Rig.{config_of, shape_of};

use machine_config::Config;
use machine_shape::{Cross, Pin, Shape};
use rig::{PinBits, Rig, RigFail};
use std::alloc::{AllocError, Global};

// What joins the third pin and the fourth, and crosspoints of the hextant, far from the pins: so many that the board has to take memory
// for them.
const SECOND: [u32; 9] = [9, 13, 100, 104, 108, 112, 116, 120, 124];

/// What the pins read behind the first load and behind the second, a digit a pin, and how many loads were made again.
#[derive(Drop)]
pub struct Outcome {
    pub first: String,
    pub second: String,
    pub again: u32,
}

// Closes crosspoints, those that the machine has.
fn close_all(config: &mut Config, crosses: &[u32]) -> Result<(), AllocError>
    ensures { config.new.config.shape ≡ config.old.config.shape }
{
    'crosses: for at in crosses {
        if *at < config.shape().crosses() {
            let closed = config.close_cross(Cross(*at));
            if closed.is_err() {
                return closed;
            }
        }
    }
    Ok(())
}

// Opens a crosspoint, where the machine has it.
fn open(config: &mut Config, at: u32)
    ensures { config.new.config.shape ≡ config.old.config.shape }
{
    if at < config.shape().crosses() {
        config.open_cross(Cross(at));
    }
}

// Loads a configuration, a second time where memory was lacking. Says whether it was.
fn loaded<R: Rig>(rig: &mut R, config: &Config) -> Result<bool, RigFail>
    requires { shape_of (R.rig_state rig.old) ≡ Some config.now.config.shape }
    ensures machine { (R.rig_state rig.new).machine ≡ (R.rig_state rig.old).machine }
    ensures config { OnOk result (config_of (R.rig_state rig.new) ≡ Some config.now.config) }
{
    match rig.load(config, 1) {
        Ok(()) => Ok(false),
        Err(RigFail::Memory) => match rig.load(config, 1) {
            Ok(()) => Ok(true),
            Err(fail) => Err(fail),
        },
        Err(fail) => Err(fail),
    }
}

// Pins of which the first and the third are driven 0.
fn drive_of(alloc: Global, pins: u32) -> Result<PinBits, RigFail>
    ensures { IfOk result (λ row. length row ≡ pins) }
{
    let mut drive = PinBits::new(alloc, pins)?;
    if 2 < pins {
        drive.set(Pin(0), false);
        drive.set(Pin(2), false);
    }
    Ok(drive)
}

// A digit for each pin.
fn spelled(alloc: Global, read: &PinBits) -> Result<String, RigFail> {
    let mut text = String::new(alloc);
    for bit in read.as_slice() {
        text.push(if *bit { '1' } else { '0' })?;
    }
    Ok(text)
}

// Makes a cycle in which the first pin and the third are driven 0, and spells what all read.
fn read_pins<R: Rig>(alloc: Global, rig: &mut R, config: &Config) -> Result<String, RigFail>
    requires { config_of (R.rig_state rig.old) ≡ Some config.now.config }
    ensures machine { (R.rig_state rig.new).machine ≡ (R.rig_state rig.old).machine }
{
    let pins = config.shape().pins();
    let drive = drive_of(alloc, pins)?;
    let mut read = PinBits::new(alloc, pins)?;
    match rig.cycle(&drive, &mut read) {
        Ok(()) => spelled(alloc, &read),
        Err(fail) => Err(fail),
    }
}

// Loads a configuration, and spells what is read behind it. Says whether memory was lacking at first.
fn read_behind<R: Rig>(
    alloc: Global,
    rig: &mut R,
    config: &Config,
) -> Result<(String, bool), RigFail>
    requires { shape_of (R.rig_state rig.old) ≡ Some config.now.config.shape }
    ensures machine { (R.rig_state rig.new).machine ≡ (R.rig_state rig.old).machine }
{
    let again = loaded(rig, config)?;
    // A load goes out with the cycles behind it.
    let text = read_pins(alloc, rig, config)?;
    Ok((text, again))
}

// Joins the first two pins, makes a cycle, and then joins the third and the fourth in their place, and makes another.
fn read_twice<R: Rig>(alloc: Global, rig: &mut R, config: &mut Config) -> Result<Outcome, RigFail>
    requires { shape_of (R.rig_state rig.old) ≡ Some config.old.config.shape }
{
    close_all(config, &[0, 4])?;
    let (first, first_again) = read_behind(alloc, rig, config)?;
    open(config, 0);
    open(config, 4);
    close_all(config, &SECOND)?;
    let (second, second_again) = read_behind(alloc, rig, config)?;
    Ok(Outcome {
        first,
        second,
        again: first_again as u32 + second_again as u32,
    })
}

/// Attaches a machine of this name, joins its first two pins, makes a cycle, and then joins the third and the fourth in their place, and
/// makes another. Each load is made again where memory was lacking.
///
/// # Errors
///
/// `Failed` where no machine is attached, and what a second load, or a cycle, fails with.
pub fn load_twice<R: Rig>(
    alloc: Global,
    rig: &mut R,
    shape: &Shape,
    name: &str,
) -> Result<Outcome, RigFail> {
    if rig.attach(shape, name).is_err() {
        return Err(RigFail::Failed);
    }
    let mut config = Config::with_room(alloc, *shape, 0)?;
    read_twice(alloc, rig, &mut config)
}
