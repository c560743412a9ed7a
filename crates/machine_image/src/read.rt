//! Reads an image.

ghost use Rattle.std.specs.Prelude.{◌≡◌, ◌≤◌, ◌<◌, ◌+◌, ℕ, suc, [], length, false, None, IfOk, IfErr, OnOk, All};
ghost use Rattle.std.specs.List.{flat_map};
ghost use Rattle.std.specs.FinSet as set;
ghost use Rattle.machine_shape.specs.Vocabulary.{tables_of, most_ticks};
ghost use Rattle.machine_config.specs.Configuration.{is_closed, setting_of};
ghost use Rattle.machine_image.specs.Faults.{counts_of, InTicks, InCounts, InPins, InTables, InCrosses, InImage};
ghost use Rattle.machine_image.specs.Fields.{FaultIn, Passed};
ghost use Rattle.machine_image.specs.Images.{two, Reads, IsRefusedAs};
ghost use Rattle.machine_image.specs.Reading.{IsHead, ArePins, TablesRead, CrossesRead, AreSettings, IsTable, Bounds};

use crate::check::{
    count, cross, fault_at, flags, how_many_closed, how_many_tables, magic, pin, table, ticks,
};
use crate::field::{take2, take8};
use crate::image::Image;
use crate::kind::{ImageFault, ImageKind};
use base_text::MOST_BYTES;
use machine_config::{Config, Setting};
use machine_shape::{Cross, Shape, Table};
use std::alloc::Global;

/// What stands before the pins.
#[derive(Clone, Copy, Debug)]
pub struct Head {
    pub ticks: u16,
    pub inputs: u16,
    pub outputs: u16,
    /// The place of the first pin.
    pub at: usize,
}

/// The counts of a machine, in the order in which they are written.
pub fn counts_of(shape: &Shape) -> [u16; 12]
    ensures { result ≡ counts_of shape.now }
{
    let c = shape.counts();
    [
        c.modules, c.chips, c.hextants, c.tables, c.ports[0], c.ports[1], c.ports[2], c.lines[0],
        c.lines[1], c.lines[2], c.lines[3], c.pins,
    ]
}

/// All of these are small.
fn are_small(counts: &[u16])
    ensures { All (λ n. n < 65536) counts.now }
{
    let _counts = counts;
}

/// What a machine's limits say of its numbers.
pub fn limits_of(shape: &Shape)
    ensures { Bounds shape.now }
{
    let counts = counts_of(shape);
    are_small(&counts);
    let _pins = shape.pins();
    let _tables = shape.tables();
    let _crosses = shape.crosses();
    machine_shape::limits_are_high();
}

/// Reads the counts, and answers the place behind them.
fn read_counts(bytes: &[u8], start: usize, shape: &Shape) -> Result<usize, ImageFault>
    requires { start ≤ length bytes.now }
    ensures found { IfOk result (λ end. Passed bytes.now start end (flat_map two (counts_of shape.now))
        (λ l k. InCounts shape.now bytes.now l k start (counts_of shape.now)) (λ l k. InTicks shape.now bytes.now l k end)) }
    ensures refused { IfErr result (FaultIn (λ l k. InCounts shape.now bytes.now l k start (counts_of shape.now))) }
{
    let counts = counts_of(shape);
    let due: &[u16] = &counts;
    let mut at = start;
    'counts: for i in 0..due.len() {
        if let Err(fault) = count(bytes, at, due[i]) {
            return Err(fault);
        }
        at += 2;
    }
    Ok(at)
}

/// Reads all that stands before the pins.
fn read_head(bytes: &[u8], shape: &Shape) -> Result<Head, ImageFault>
    ensures found { IfOk result (IsHead shape.now bytes.now) }
    ensures refused { IfErr result (FaultIn (λ l k. InImage shape.now bytes.now l k)) }
{
    if let Err(fault) = magic(bytes, 0) {
        return Err(fault);
    }
    let at = match read_counts(bytes, 8, shape) {
        Ok(at) => at,
        Err(fault) => return Err(fault),
    };
    let ticks = match ticks(bytes, at, shape.most_ticks()) {
        Ok(ticks) => ticks,
        Err(fault) => return Err(fault),
    };
    let inputs = match take2(bytes, at + 2) {
        Ok(inputs) => inputs,
        Err(fault) => return Err(fault),
    };
    let outputs = match take2(bytes, at + 4) {
        Ok(outputs) => outputs,
        Err(fault) => return Err(fault),
    };
    Ok(Head {
        ticks,
        inputs,
        outputs,
        at: at + 6,
    })
}

/// Reads so many pins, and leaves the place behind them.
fn read_pins(
    alloc: Global,
    bytes: &[u8],
    at: &mut usize,
    count: usize,
    shape: &Shape,
) -> Result<Vec<u32>, ImageFault>
    requires { at.old ≤ length bytes.now }
    ensures found { IfOk result (λ pins. ArePins shape.now bytes.now at.old at.new count 0 pins.items) }
    ensures refused { IfErr result (FaultIn (λ l k. InPins shape.now bytes.now l k at.old count [])) }
{
    let Ok(mut marks) = vec![in alloc; false; shape.pins() as usize] else {
        return Err(ImageFault::Memory);
    };
    let mut pins: Vec<u32> = Vec::new(alloc);
    'pins: for _ in 0..count {
        let k = match pin(bytes, *at, &pins, &marks) {
            Ok(k) => k,
            Err(fault) => return Err(fault),
        };
        if let Err(_) = pins.push(k as u32) {
            return Err(ImageFault::Memory);
        }
        marks[k as usize] = true;
        *at += 2;
    }
    Ok(pins)
}

/// Reads a table that is on: its number, which is at least this one, its flags and its cells.
fn read_table(
    bytes: &[u8],
    at: usize,
    shape: &Shape,
    least: u32,
) -> Result<(Table, Setting), ImageFault>
    requires { at ≤ length bytes.now }
    ensures within { IfOk result (λ p. p.0.0 < tables_of shape.now) }
    ensures few { IfOk result (λ p. p.0.0 < 65536) }
    ensures found { IfOk result (λ p. IsTable shape.now bytes.now at least p.0.0 p.1) }
    ensures refused { IfErr result (λ f. (left : ℕ) → FaultIn (λ l k. InTables shape.now bytes.now l k at (suc left) least) f) }
{
    let t = match table(bytes, at, shape.tables(), least) {
        Ok(t) => t,
        Err(fault) => return Err(fault),
    };
    let flags = match flags(bytes, at + 2) {
        Ok(flags) => flags,
        Err(fault) => return Err(fault),
    };
    let cells = match take8(bytes, at + 3) {
        Ok(cells) => cells,
        Err(fault) => return Err(fault),
    };
    let setting = Setting {
        cells,
        latched: flags % 2 == 1,
        init: flags >= 2,
    };
    Ok((Table(t as u32), setting))
}

/// Reads so many tables that are on, ascending, and switches them on.
fn read_tables(
    bytes: &[u8],
    at: &mut usize,
    count: usize,
    config: &mut Config,
) -> Result<(), ImageFault>
    requires within { at.old ≤ length bytes.now }
    requires off { (t : ℕ) → setting_of config.old.config t ≡ None }
    ensures found { OnOk result (TablesRead config.old.config.shape bytes.now at.old at.new count config.new.config) }
    ensures kept { OnOk result (config.new.config ≡ record config.old.config { tables = config.new.config.tables }) }
    ensures refused { IfErr result (FaultIn (λ l k. InTables config.old.config.shape bytes.now l k at.old count 0)) }
{
    let shape = config.shape();
    let mut least = 0;
    'tables: for _ in 0..count {
        let (t, setting) = match read_table(bytes, *at, &shape, least) {
            Ok(read) => read,
            Err(fault) => return Err(fault),
        };
        config.switch_on(t, setting);
        least = t.0 + 1;
        *at += 11;
    }
    Ok(())
}

/// Reads so many crosspoints, ascending, and closes them.
fn read_crosses(
    bytes: &[u8],
    at: &mut usize,
    count: usize,
    config: &mut Config,
) -> Result<(), ImageFault>
    requires within { at.old ≤ length bytes.now }
    requires open_all { (x : ℕ) → is_closed config.old.config x ≡ false }
    requires none { set.len config.old.config.closed ≡ 0 }
    ensures found { OnOk result (CrossesRead config.old.config.shape bytes.now at.old at.new count config.new.config) }
    ensures kept { OnOk result (config.new.config ≡ record config.old.config { closed = config.new.config.closed }) }
    ensures refused { IfErr result (FaultIn (λ l k. InCrosses config.old.config.shape bytes.now l k at.old count 0)) }
{
    let shape = config.shape();
    let mut least = 0;
    'crosses: for _ in 0..count {
        let x = match cross(bytes, *at, shape.crosses(), least) {
            Ok(x) => x,
            Err(fault) => return Err(fault),
        };
        if let Err(_) = config.close_cross(Cross(x)) {
            return Err(ImageFault::Memory);
        }
        least = x + 1;
        *at += 4;
    }
    Ok(())
}

/// Reads all that stands behind the pins, with this number of ticks.
fn read_settings(
    alloc: Global,
    bytes: &[u8],
    start: usize,
    shape: &Shape,
    ticks: u16,
) -> Result<Config, ImageFault>
    requires within { start ≤ length bytes.now }
    requires some { 1 ≤ ticks }
    requires few { ticks ≤ most_ticks shape.now }
    ensures found { IfOk result (λ g. AreSettings shape.now bytes.now start ticks g.config) }
    ensures refused { IfErr result (FaultIn (λ l k. InPins shape.now bytes.now l k start 0 [])) }
{
    let tables = match how_many_tables(bytes, start, shape.tables()) {
        Ok(tables) => tables,
        Err(fault) => return Err(fault),
    };
    let Ok(mut config) = Config::with_room(alloc, *shape, 0) else {
        return Err(ImageFault::Memory);
    };
    config.set_ticks(ticks);
    let mut at = start + 2;
    if let Err(fault) = read_tables(bytes, &mut at, tables as usize, &mut config) {
        return Err(fault);
    }
    let closed = match how_many_closed(bytes, at, shape.most_closed(), shape.crosses()) {
        Ok(closed) => closed,
        Err(fault) => return Err(fault),
    };
    at += 4;
    if let Err(fault) = read_crosses(bytes, &mut at, closed as usize, &mut config) {
        return Err(fault);
    }
    if at < bytes.len() {
        return Err(fault_at(at, ImageKind::After));
    }
    Ok(config)
}

/// Reads the image of a machine of this shape: its one spelling. It is refused at the first faulty field, or
/// for its limit, at 0, where it has more than 16,777,216 bytes.
pub fn read_image(alloc: Global, shape: &Shape, bytes: &[u8]) -> Result<Image, ImageFault>
    ensures found { IfOk result (Reads shape.now bytes.now) }
    ensures refused { IfErr result (IsRefusedAs shape.now bytes.now) }
{
    if bytes.len() > MOST_BYTES {
        return Err(fault_at(0, ImageKind::Limit));
    }
    limits_of(shape);
    let head = match read_head(bytes, shape) {
        Ok(head) => head,
        Err(fault) => return Err(fault),
    };
    let mut at = head.at;
    let count = head.inputs as usize + head.outputs as usize;
    let mut inputs = match read_pins(alloc, bytes, &mut at, count, shape) {
        Ok(pins) => pins,
        Err(fault) => return Err(fault),
    };
    let Ok(outputs) = inputs.split_off(head.inputs as usize) else {
        return Err(ImageFault::Memory);
    };
    match read_settings(alloc, bytes, at, shape, head.ticks) {
        Ok(config) => Ok(Image::new(config, inputs, outputs)),
        Err(fault) => Err(fault),
    }
}
