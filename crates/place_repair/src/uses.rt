//! Which wires an image uses.
ghost use Rattle.std.specs.Prelude.{◌≡◌, ◌<◌, IfOk, All, length};
ghost use Rattle.machine_shape.specs.Shape.{wires_of, pins_of, tables_of, crosses_of};
ghost use Rattle.machine_image.specs.Parts.{Uses};
ghost use Rattle.place_repair.specs.Marks.{AreMarks, IsMarked};
ghost use Rattle.place_repair.specs.Nets.{IsEnd};
ghost use Rattle.place_repair.specs.Making.{IsEndOf, IsOnPin, IsPinOf, IsSeatPin, IsTablePin};

use crate::marks::{mark, marks_of};
use machine_config::Config;
use machine_image::Image;
use machine_shape::{Cross, Pin, Shape, Table};
use std::alloc::{AllocError, Global};

// Marks the wires of a crosspoint.
fn mark_cross(marks: &mut [bool], shape: Shape, cross: Cross)
    requires sized { length marks.old ≡ wires_of shape }
    requires within { cross.0 < crosses_of shape }
    ensures { IsMarked (IsEndOf shape cross.0) marks.old marks.new }
{
    let (tap, line) = shape.ends(cross);
    mark(marks, tap.0);
    mark(marks, line.0);
}

// Marks the wires of all closed crosspoints.
fn mark_ends(marks: &mut [bool], config: &Config)
    requires { length marks.old ≡ wires_of config.now.config.shape }
    ensures { IsMarked (IsEnd config.now.config) marks.old marks.new }
{
    let shape = config.shape();
    let closed = config.closed();
    for k in 0..closed.len() {
        mark_cross(marks, shape, closed[k]);
    }
}

// Marks the wires of pins.
fn mark_pins(marks: &mut [bool], shape: Shape, pins: &[u32])
    requires sized { length marks.old ≡ wires_of shape }
    requires within { All (λ k. k < pins_of shape) pins.now }
    ensures { IsMarked (IsPinOf shape pins.now) marks.old marks.new }
{
    for i in 0..pins.len() {
        mark(marks, shape.pin(Pin(pins[i])).0);
    }
}

// Marks the pins of a table.
fn mark_table(marks: &mut [bool], shape: Shape, table: Table)
    requires sized { length marks.old ≡ wires_of shape }
    requires within { table.0 < tables_of shape }
    ensures { IsMarked (IsTablePin shape table.0 7) marks.old marks.new }
{
    for j in 0..7 {
        mark(marks, shape.pin_of(table, j).0);
    }
}

// Marks the pins of all switched-on tables.
fn mark_tables(marks: &mut [bool], config: &Config)
    requires { length marks.old ≡ wires_of config.now.config.shape }
    ensures { IsMarked (IsOnPin config.now.config) marks.old marks.new }
{
    let shape = config.shape();
    let tables = config.tables_on();
    for k in 0..tables.len() {
        mark_table(marks, shape, tables[k]);
    }
}

/// Which wires are ends of closed crosspoints.
pub fn ends_of(alloc: Global, config: &Config) -> Result<Vec<bool>, AllocError>
    ensures { IfOk result (λ marks. AreMarks (wires_of config.now.config.shape) (IsEnd config.now.config) marks.items) }
{
    let mut marks = marks_of(alloc, config.shape().wires() as usize, false)?;
    mark_ends(&mut marks, config);
    Ok(marks)
}

// Marks the pins of an image and those of its switched-on tables.
fn mark_seats(marks: &mut [bool], image: &Image)
    requires { length marks.old ≡ wires_of image.now.config.shape }
    ensures { IsMarked (IsSeatPin image.now) marks.old marks.new }
{
    let config = image.config();
    let shape = config.shape();
    mark_pins(marks, shape, image.inputs());
    mark_pins(marks, shape, image.outputs());
    mark_tables(marks, config);
}

/// Which wires an image uses: its pins, the ends of its closed crosspoints, and the pins of its switched-on tables.
pub fn used_by(alloc: Global, image: &Image) -> Result<Vec<bool>, AllocError>
    ensures { IfOk result (λ marks. AreMarks (wires_of image.now.config.shape) (Uses image.now) marks.items) }
{
    let mut marks = ends_of(alloc, image.config())?;
    mark_seats(&mut marks, image);
    Ok(marks)
}
