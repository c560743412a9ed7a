//! Which nets are kept.
ghost use Rattle.std.specs.Prelude.{◌≡◌, ◌<◌, IfOk, length};
ghost use Rattle.machine_shape.specs.Shape.{wires_of, crosses_of, tables_of};
ghost use Rattle.place_repair.specs.Marks.{IsMarked};
ghost use Rattle.place_repair.specs.Nets.{HasWire};
ghost use Rattle.place_repair.specs.Plans.{AreMoves};
ghost use Rattle.place_repair.specs.Making.{AreNetsOf, IsBroken, IsBrokenBy, IsBrokenHere, IsUnfreeCross, IsUnfreeTable, IsUnfreeCrossOf};

use crate::marks::{mark, marks_of};
use crate::nets::{NetList, net_of};
use machine_config::Config;
use machine_defects::Defects;
use machine_image::Image;
use machine_shape::{Cross, Table, Wire};
use std::alloc::{AllocError, Global};

// Marks the net of a wire.
fn mark_net(marks: &mut [bool], config: &Config, nets: &NetList, wire: Wire)
    requires nets { AreNetsOf config.now.config nets.now }
    requires sized { length marks.old ≡ length nets.now.lowest }
    requires within { wire.0 < wires_of config.now.config.shape }
    ensures { IsMarked (λ k. HasWire config.now.config nets.now.lowest k wire.0) marks.old marks.new }
{
    machine_shape::the_numbering_is_sound();
    // Says that what is closed is of the machine.
    let _shape = config.shape();
    match net_of(config, nets, wire) {
        None => {}
        Some(net) => mark(marks, net),
    }
}

// Marks the net of a crosspoint that isn't free.
fn mark_cross(marks: &mut [bool], config: &Config, nets: &NetList, defects: &Defects, cross: Cross)
    requires nets { AreNetsOf config.now.config nets.now }
    requires sized { length marks.old ≡ length nets.now.lowest }
    requires shape { defects.now.shape ≡ config.now.config.shape }
    requires within { cross.0 < crosses_of config.now.config.shape }
    ensures { IsMarked (IsUnfreeCrossOf defects.now.list config.now.config nets.now.lowest cross.0) marks.old marks.new }
{
    if defects.free_cross(cross) {
        return;
    }
    let (tap, _) = config.shape().ends(cross);
    mark_net(marks, config, nets, tap);
}

// Marks the nets of closed crosspoints that aren't free.
fn mark_crosses(marks: &mut [bool], config: &Config, nets: &NetList, defects: &Defects)
    requires nets { AreNetsOf config.now.config nets.now }
    requires sized { length marks.old ≡ length nets.now.lowest }
    requires shape { defects.now.shape ≡ config.now.config.shape }
    ensures { IsMarked (IsUnfreeCross defects.now.list config.now.config nets.now.lowest) marks.old marks.new }
{
    let _shape = config.shape();
    let closed = config.closed();
    for k in 0..closed.len() {
        mark_cross(marks, config, nets, defects, closed[k]);
    }
}

// Marks the nets of a table.
fn mark_pins(marks: &mut [bool], config: &Config, nets: &NetList, table: Table)
    requires nets { AreNetsOf config.now.config nets.now }
    requires sized { length marks.old ≡ length nets.now.lowest }
    requires within { table.0 < tables_of config.now.config.shape }
    ensures { IsMarked (IsBrokenBy config.now.config nets.now.lowest table.0 7) marks.old marks.new }
{
    let shape = config.shape();
    for j in 0..7 {
        mark_net(marks, config, nets, shape.pin_of(table, j));
    }
}

// Marks the nets of a table that isn't free.
fn mark_table(marks: &mut [bool], config: &Config, nets: &NetList, defects: &Defects, table: Table)
    requires nets { AreNetsOf config.now.config nets.now }
    requires sized { length marks.old ≡ length nets.now.lowest }
    requires shape { defects.now.shape ≡ config.now.config.shape }
    requires within { table.0 < tables_of config.now.config.shape }
    ensures { IsMarked (IsBrokenHere defects.now.list config.now.config nets.now.lowest table.0) marks.old marks.new }
{
    if defects.free_table(table) {
        return;
    }
    mark_pins(marks, config, nets, table);
}

// Marks the nets of switched-on tables that aren't free.
fn mark_tables(marks: &mut [bool], config: &Config, nets: &NetList, defects: &Defects)
    requires nets { AreNetsOf config.now.config nets.now }
    requires sized { length marks.old ≡ length nets.now.lowest }
    requires shape { defects.now.shape ≡ config.now.config.shape }
    ensures { IsMarked (IsUnfreeTable defects.now.list config.now.config nets.now.lowest) marks.old marks.new }
{
    let _shape = config.shape();
    let tables = config.tables_on();
    for k in 0..tables.len() {
        mark_table(marks, config, nets, defects, tables[k]);
    }
}

// Marks the nets that have a closed crosspoint or a table that isn't free.
fn mark_broken(marks: &mut [bool], config: &Config, nets: &NetList, defects: &Defects)
    requires nets { AreNetsOf config.now.config nets.now }
    requires sized { length marks.old ≡ length nets.now.lowest }
    requires shape { defects.now.shape ≡ config.now.config.shape }
    ensures { IsMarked (IsBroken defects.now.list config.now.config nets.now.lowest) marks.old marks.new }
{
    mark_crosses(marks, config, nets, defects);
    mark_tables(marks, config, nets, defects);
}

/// For each net whether it moves.
pub fn moving(
    alloc: Global,
    image: &Image,
    nets: &NetList,
    defects: &Defects,
) -> Result<Vec<bool>, AllocError>
    requires nets { AreNetsOf image.now.config nets.now }
    requires shape { defects.now.shape ≡ image.now.config.shape }
    ensures { IfOk result (λ moves. AreMoves defects.now.list image.now nets.now.lowest moves.items) }
{
    machine_shape::the_numbering_is_sound();
    machine_defects::the_tests_are_right();
    let mut marks = marks_of(alloc, nets.lowest.as_slice().len(), false)?;
    mark_broken(&mut marks, image.config(), nets, defects);
    Ok(marks)
}
