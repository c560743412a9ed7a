//! The wires that an image uses.
ghost use Rattle.std.specs.Prelude.{◌≡◌, ◌<◌, All, IfOk, length};
ghost use Rattle.machine_shape.specs.Shape.{wires_of, pins_of, crosses_of, tables_of};
ghost use Rattle.machine_image.specs.Images.{IsImage};
ghost use Rattle.diag_check.specs.Marks.{Adds, IsEndAmong, IsPinAmong, IsPinOfTable, IsTablePinAmong};
ghost use Rattle.diag_check.specs.Used.{AreUsed};

use base_bits::BitSet;
use machine_image::Image;
use machine_shape::{Cross, Pin, Shape, Table, the_numbering_is_sound};
use std::alloc::{AllocError, Global};

// Marks these pins of the machine.
fn mark_pins(used: &mut BitSet, shape: &Shape, pins: &[u32])
    requires marks { length used.old ≡ wires_of shape.now }
    requires pins { All (λ k. k < pins_of shape.now) pins.now }
    ensures { Adds (IsPinAmong shape.now pins.now (length pins.now)) used.old used.new }
{
    'pins: for i in 0..pins.len() {
        used.insert(shape.pin(Pin(pins[i])).0);
    }
}

// Marks the ends of these crosspoints.
fn mark_ends(used: &mut BitSet, shape: &Shape, crosses: &[Cross])
    requires marks { length used.old ≡ wires_of shape.now }
    requires crosses { All (λ x. x.0 < crosses_of shape.now) crosses.now }
    ensures { Adds (IsEndAmong shape.now crosses.now (length crosses.now)) used.old used.new }
{
    'crosses: for i in 0..crosses.len() {
        let (tap, line) = shape.ends(crosses[i]);
        used.insert(tap.0);
        used.insert(line.0);
    }
}

// Marks the pins of a table.
fn mark_table(used: &mut BitSet, shape: &Shape, table: Table)
    requires marks { length used.old ≡ wires_of shape.now }
    requires table { table.0 < tables_of shape.now }
    ensures { Adds (IsPinOfTable shape.now table.0 7) used.old used.new }
{
    'pins: for j in 0..7 {
        used.insert(shape.pin_of(table, j).0);
    }
}

// Marks the pins of these tables.
#[tactic(auto, using(crate::proofs::Adding::tables_none))]
fn mark_tables(used: &mut BitSet, shape: &Shape, tables: &[Table])
    requires marks { length used.old ≡ wires_of shape.now }
    requires tables { All (λ t. t.0 < tables_of shape.now) tables.now }
    ensures { Adds (IsTablePinAmong shape.now tables.now (length tables.now)) used.old used.new }
{
    'tables: for i in 0..tables.len() {
        mark_table(used, shape, tables[i]);
    }
}

/// The wires that an image uses: its pins, the ends of its closed crosspoints, and the pins of its switched-on tables.
pub fn used_wires(alloc: Global, image: &Image) -> Result<BitSet, AllocError>
    ensures used { IfOk result (AreUsed image.now) }
    ensures right { IsImage image.now }
{
    the_numbering_is_sound();
    let config = image.config();
    let shape = config.shape();
    let mut used = BitSet::new(alloc, shape.wires())?;
    mark_pins(&mut used, &shape, image.inputs());
    mark_pins(&mut used, &shape, image.outputs());
    mark_ends(&mut used, &shape, config.closed());
    mark_tables(&mut used, &shape, config.tables_on());
    Ok(used)
}
