//! Writes an image.

ghost use Rattle.std.specs.Prelude.{◌≡◌, ◌<◌, ◌≤◌, ◌++◌, [], ◌∷◌, if◌then◌else◌, length, OnOk, IfOk, All};
ghost use Rattle.std.specs.List.{flat_map};
ghost use Rattle.byteorder.specs.Endian.{big_bytes};
ghost use Rattle.machine_shape.specs.Shape.{tables_of, crosses_of};
ghost use Rattle.machine_config.specs.Configuration.{is_closed, setting_of};
ghost use Rattle.machine_image.specs.Images.{image_bytes, two, four, table_bytes, tables_on, closed_in, on_at, flags_of};
ghost use Rattle.machine_image.specs.Reading.{head_bytes, settings_bytes};

use crate::check::MAGIC;
use crate::image::Image;
use crate::read::{counts_of, limits_of};
use byteorder::{BigEndian, ByteOrder};
use machine_config::{Config, Setting};
use machine_shape::{Cross, Shape, Table};
use std::alloc::{AllocError, Global};

/// A number in one byte.
fn put1(out: &mut Vec<u8>, n: u8) -> Result<(), AllocError>
    ensures { OnOk result (out.new.items ≡ out.old.items ++ big_bytes 1 n) }
{
    out.push(n)?;
    Ok(())
}

/// A number in two bytes.
fn put2(out: &mut Vec<u8>, n: u16) -> Result<(), AllocError>
    ensures { OnOk result (out.new.items ≡ out.old.items ++ two n) }
{
    let mut bytes = [0u8; 2];
    BigEndian::write_u16(&mut bytes, n);
    out.extend_from_slice(&bytes)
}

/// A number in four bytes.
fn put4(out: &mut Vec<u8>, n: u32) -> Result<(), AllocError>
    ensures { OnOk result (out.new.items ≡ out.old.items ++ four n) }
{
    let mut bytes = [0u8; 4];
    BigEndian::write_u32(&mut bytes, n);
    out.extend_from_slice(&bytes)
}

/// A number in eight bytes.
fn put8(out: &mut Vec<u8>, n: u64) -> Result<(), AllocError>
    ensures { OnOk result (out.new.items ≡ out.old.items ++ big_bytes 8 n) }
{
    let mut bytes = [0u8; 8];
    BigEndian::write_u64(&mut bytes, n);
    out.extend_from_slice(&bytes)
}

/// Counts.
fn put_counts(out: &mut Vec<u8>, counts: &[u16]) -> Result<(), AllocError>
    ensures { OnOk result (out.new.items ≡ out.old.items ++ flat_map two counts.now) }
{
    'counts: for i in 0..counts.len() {
        put2(out, counts[i])?;
    }
    Ok(())
}

/// Pins.
fn put_pins(out: &mut Vec<u8>, pins: &[u32]) -> Result<(), AllocError>
    requires { All (λ n. n < 65536) pins.now }
    ensures { OnOk result (out.new.items ≡ out.old.items ++ flat_map two pins.now) }
{
    'pins: for i in 0..pins.len() {
        put2(out, pins[i] as u16)?;
    }
    Ok(())
}

/// The flags of a table.
fn flags_of(setting: Setting) -> u8
    ensures { result ≡ flags_of setting }
{
    match (setting.latched, setting.init) {
        (false, false) => 0,
        (true, false) => 1,
        (false, true) => 2,
        (true, true) => 3,
    }
}

/// A table that is on.
fn put_setting(out: &mut Vec<u8>, t: u16, setting: Setting) -> Result<(), AllocError>
    ensures { OnOk result (out.new.items ≡ out.old.items ++ table_bytes (t, setting)) }
{
    put2(out, t)?;
    put1(out, flags_of(setting))?;
    put8(out, setting.cells)?;
    Ok(())
}

/// A table, if it is on.
fn put_table(out: &mut Vec<u8>, config: &Config, t: u32) -> Result<(), AllocError>
    requires within { t < tables_of config.now.config.shape }
    requires few { t < 65536 }
    ensures { OnOk result (out.new.items ≡ out.old.items ++ flat_map table_bytes (on_at t (setting_of config.now.config t))) }
{
    if let Some(setting) = config.setting(Table(t)) {
        put_setting(out, t as u16, setting)?;
    }
    Ok(())
}

/// Whether a table is on, as a number.
fn count_table(config: &Config, t: u32) -> u32
    requires { t < tables_of config.now.config.shape }
    ensures count { result ≡ length (on_at t (setting_of config.now.config t)) }
    ensures few { result ≤ 1 }
{
    match config.setting(Table(t)) {
        Some(_) => 1,
        None => 0,
    }
}

/// How many tables are on.
fn count_tables(config: &Config) -> u32
    ensures { result ≡ length (tables_on config.now.config) }
{
    let mut count = 0;
    'tables: for t in 0..config.shape().tables() {
        count += count_table(config, t);
    }
    count
}

/// The tables that are on, ascending.
fn put_tables(out: &mut Vec<u8>, config: &Config) -> Result<(), AllocError>
    ensures { OnOk result (out.new.items ≡ out.old.items ++ flat_map table_bytes (tables_on config.now.config)) }
{
    'tables: for t in 0..config.shape().tables() {
        put_table(out, config, t)?;
    }
    Ok(())
}

/// A crosspoint, if it is closed.
fn put_cross(out: &mut Vec<u8>, config: &Config, x: u32) -> Result<(), AllocError>
    requires { x < crosses_of config.now.config.shape }
    ensures { OnOk result (out.new.items ≡ out.old.items ++ flat_map four (if is_closed config.now.config x then x ∷ [] else [])) }
{
    if config.has_cross(Cross(x)) {
        put4(out, x)?;
    }
    Ok(())
}

/// Whether a crosspoint is closed, as a number.
fn count_cross(config: &Config, x: u32) -> u32
    requires { x < crosses_of config.now.config.shape }
    ensures count { result ≡ length (if is_closed config.now.config x then x ∷ [] else []) }
    ensures few { result ≤ 1 }
{
    if config.has_cross(Cross(x)) { 1 } else { 0 }
}

/// How many crosspoints are closed.
fn count_closed(config: &Config) -> u32
    ensures { result ≡ length (closed_in config.now.config) }
{
    let mut count = 0;
    'crosses: for x in 0..config.shape().crosses() {
        count += count_cross(config, x);
    }
    count
}

/// The closed crosspoints, ascending.
fn put_closed(out: &mut Vec<u8>, config: &Config) -> Result<(), AllocError>
    ensures { OnOk result (out.new.items ≡ out.old.items ++ flat_map four (closed_in config.now.config)) }
{
    'crosses: for x in 0..config.shape().crosses() {
        put_cross(out, config, x)?;
    }
    Ok(())
}

/// What stands before the pins.
fn put_head(
    out: &mut Vec<u8>,
    shape: &Shape,
    ticks: u16,
    inputs: u16,
    outputs: u16,
) -> Result<(), AllocError>
    ensures { OnOk result (out.new.items ≡ out.old.items ++ head_bytes shape.now ticks inputs outputs) }
{
    put8(out, MAGIC)?;
    let counts = counts_of(shape);
    put_counts(out, &counts)?;
    put2(out, ticks)?;
    put2(out, inputs)?;
    put2(out, outputs)?;
    Ok(())
}

/// What stands behind the pins.
fn put_settings(out: &mut Vec<u8>, config: &Config) -> Result<(), AllocError>
    requires { length (tables_on config.now.config) < 65536 }
    ensures { OnOk result (out.new.items ≡ out.old.items ++ settings_bytes config.now.config) }
{
    let tables = count_tables(config);
    put2(out, tables as u16)?;
    put_tables(out, config)?;
    let closed = count_closed(config);
    put4(out, closed)?;
    put_closed(out, config)?;
    Ok(())
}

/// The one spelling of an image. Reading it gives the image again.
pub fn write_image(alloc: Global, image: &Image) -> Result<Vec<u8>, AllocError>
    ensures { IfOk result (λ bytes. bytes.items ≡ image_bytes image.now) }
{
    let config = image.config();
    let shape = config.shape();
    let inputs = image.inputs();
    let outputs = image.outputs();
    let ticks = config.ticks();
    limits_of(&shape);
    let mut out = Vec::new(alloc);
    put_head(
        &mut out,
        &shape,
        ticks,
        inputs.len() as u16,
        outputs.len() as u16,
    )?;
    put_pins(&mut out, inputs)?;
    put_pins(&mut out, outputs)?;
    put_settings(&mut out, config)?;
    Ok(out)
}
