//! What an image touches of a list of defects.

ghost use Rattle.std.specs.Prelude.{◌≡◌, ◌<◌, ◌↔◌, ℕ, true, is_some, IsTrue, All};
ghost use Rattle.machine_shape.specs.Shape.{pins_of, crosses_of, tables_of, pin_wire};
ghost use Rattle.machine_meaning.specs.Defects.{IsFreeWire, IsFreeCross, IsFreeTable};
ghost use Rattle.machine_config.specs.Configuration.{is_closed, setting_of};
ghost use Rattle.machine_image.specs.Parts.{IsFreeImage};

use crate::image::Image;
use machine_defects::Defects;
use machine_shape::{Cross, Pin, Table};

/// Whether all of these pins are free.
fn free_pins(pins: &[u32], defects: &Defects) -> bool
    requires { All (λ k. k < pins_of defects.now.shape) pins.now }
    ensures { IsTrue result ↔ All (λ k. IsFreeWire defects.now.list (pin_wire defects.now.shape k)) pins.now }
{
    let shape = defects.shape();
    'pins: for i in 0..pins.len() {
        if !defects.free_wire(shape.pin(Pin(pins[i]))) {
            return false;
        }
    }
    true
}

/// Whether all of these crosspoints are free.
fn free_crosses(crosses: &[Cross], defects: &Defects) -> bool
    requires { All (λ x. x.0 < crosses_of defects.now.shape) crosses.now }
    ensures { IsTrue result ↔ All (λ x. IsFreeCross defects.now.shape defects.now.list x.0) crosses.now }
{
    'crosses: for i in 0..crosses.len() {
        if !defects.free_cross(crosses[i]) {
            return false;
        }
    }
    true
}

/// Whether all of these tables are free.
fn free_tables(tables: &[Table], defects: &Defects) -> bool
    requires { All (λ t. t.0 < tables_of defects.now.shape) tables.now }
    ensures { IsTrue result ↔ All (λ t. IsFreeTable defects.now.shape defects.now.list t.0) tables.now }
{
    'tables: for i in 0..tables.len() {
        if !defects.free_table(tables[i]) {
            return false;
        }
    }
    true
}

/// Whether all closed crosspoints of an image are free.
fn crosses_are_free(image: &Image, defects: &Defects) -> bool
    requires { defects.now.shape ≡ image.now.config.shape }
    ensures { IsTrue result ↔ ((x : ℕ) → is_closed image.now.config x ≡ true → IsFreeCross image.now.config.shape defects.now.list x) }
{
    let config = image.config();
    free_crosses(config.closed(), defects)
}

/// Whether all switched-on tables of an image are free.
fn tables_are_free(image: &Image, defects: &Defects) -> bool
    requires { defects.now.shape ≡ image.now.config.shape }
    ensures { IsTrue result ↔ ((t : ℕ) → is_some (setting_of image.now.config t) ≡ true →
        IsFreeTable image.now.config.shape defects.now.list t) }
{
    let config = image.config();
    free_tables(config.tables_on(), defects)
}

/// Whether the closed crosspoints, the switched-on tables and the pins of an image are all free.
pub fn touches_none(image: &Image, defects: &Defects) -> bool
    requires { defects.now.shape ≡ image.now.config.shape }
    ensures { IsTrue result ↔ IsFreeImage defects.now.list image.now }
{
    if !crosses_are_free(image, defects) {
        return false;
    }
    if !tables_are_free(image, defects) {
        return false;
    }
    if !free_pins(image.inputs(), defects) {
        return false;
    }
    free_pins(image.outputs(), defects)
}
