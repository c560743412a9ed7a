//! Which tables and pins of an image go, and whither.
ghost use Rattle.std.specs.Prelude.{◌≡◌, ◌≢◌, ◌<◌, ◌≤◌, ◌↔◌, ◌++◌, IfOk, OnOk, All, AllPairs, IsTrue, length, map};
ghost use Rattle.std.specs.List.{filter, range_with_len};
ghost use Rattle.machine_shape.specs.Shape.{wires_of, tables_of, pins_of};
ghost use Rattle.machine_image.specs.Parts.{Uses};
ghost use Rattle.place_plan.specs.Lists.{AreThose, nth_of};
ghost use Rattle.place_repair.specs.Making.{ArePlaces, IsPut, IsUnusedTo};
ghost use Rattle.place_repair.specs.Marks.{AreMarks};
ghost use Rattle.place_repair.specs.Plans.{AreSeats, IsGoneTable, IsSparePin, IsSpareTable, is_gone_pin, need_of};

use crate::groups::own_places;
use crate::marks::push_if;
use crate::uses::used_by;
use base_lists::Items;
use machine_defects::Defects;
use machine_image::Image;
use machine_shape::{Pin, Shape, Table};
use place_plan::Need;
use std::alloc::{AllocError, Global};

/// What goes, in order, and where it can go, ascending: the k-th that goes goes to the k-th of these.
#[derive(Debug, Drop)]
pub struct Moves {
    pub gone: Items<u32>,
    pub spare: Items<u32>,
}

/// The tables and the pins of an image that go.
#[derive(Debug, Drop)]
pub struct Seats {
    pub tables: Moves,
    pub pins: Moves,
}

// Whether a table is on and isn't free.
fn is_gone(image: &Image, defects: &Defects, table: Table) -> bool
    requires shape { defects.now.shape ≡ image.now.config.shape }
    requires within { table.0 < tables_of image.now.config.shape }
    ensures { IsTrue result ↔ IsGoneTable defects.now.list image.now table.0 }
{
    if defects.free_table(table) {
        return false;
    }
    image.config().setting(table).is_some()
}

// The switched-on tables that aren't free, ascending.
fn gone_tables(alloc: Global, image: &Image, defects: &Defects) -> Result<Items<u32>, AllocError>
    requires { defects.now.shape ≡ image.now.config.shape }
    ensures { IfOk result (AreThose (IsGoneTable defects.now.list image.now)) }
{
    // Says that what is set is of the machine.
    let _config = image.config();
    let mut gone = Items::empty(alloc);
    for t in 0..defects.shape().tables() {
        let goes = is_gone(image, defects, Table(t));
        push_if(&mut gone, t, goes)?;
    }
    Ok(gone)
}

// Whether no pin of a table is used.
fn is_unused(used: &[bool], shape: Shape, table: Table) -> bool
    requires sized { length used.now ≡ wires_of shape }
    requires within { table.0 < tables_of shape }
    ensures { IsTrue result ↔ IsUnusedTo used.now shape table.0 7 }
{
    for j in 0..7 {
        let is_used = used[shape.pin_of(table, j).0 as usize];
        if is_used {
            return false;
        }
    }
    true
}

// Whether a table is free, off and without a used pin.
fn is_spare(image: &Image, defects: &Defects, used: &[bool], table: Table) -> bool
    requires shape { defects.now.shape ≡ image.now.config.shape }
    requires used { AreMarks (wires_of image.now.config.shape) (Uses image.now) used.now }
    requires within { table.0 < tables_of image.now.config.shape }
    ensures { IsTrue result ↔ IsSpareTable defects.now.list image.now table.0 }
{
    if !defects.free_table(table) {
        return false;
    }
    if image.config().setting(table).is_some() {
        return false;
    }
    is_unused(used, defects.shape(), table)
}

// The tables to which tables can go, ascending.
fn spare_tables(
    alloc: Global,
    image: &Image,
    defects: &Defects,
    used: &[bool],
) -> Result<Items<u32>, AllocError>
    requires shape { defects.now.shape ≡ image.now.config.shape }
    requires used { AreMarks (wires_of image.now.config.shape) (Uses image.now) used.now }
    ensures { IfOk result (AreThose (IsSpareTable defects.now.list image.now)) }
{
    let mut spare = Items::empty(alloc);
    for t in 0..defects.shape().tables() {
        let is = is_spare(image, defects, used, Table(t));
        push_if(&mut spare, t, is)?;
    }
    Ok(spare)
}

// Whether a pin isn't free.
fn is_gone_pin(defects: &Defects, shape: Shape, pin: u32) -> bool
    requires shape { shape ≡ defects.now.shape }
    requires within { pin < pins_of shape }
    ensures { result ≡ is_gone_pin defects.now.shape defects.now.list pin }
{
    !defects.free_wire(shape.pin(Pin(pin)))
}

// Adds the pins that aren't free.
fn push_gone(gone: &mut Items<u32>, defects: &Defects, pins: &[u32]) -> Result<(), AllocError>
    requires { All (λ p. p < pins_of defects.now.shape) pins.now }
    ensures { OnOk result (gone.new ≡ gone.old ++ filter (is_gone_pin defects.now.shape defects.now.list) pins.now) }
{
    let shape = defects.shape();
    for i in 0..pins.len() {
        let goes = is_gone_pin(defects, shape, pins[i]);
        push_if(gone, pins[i], goes)?;
    }
    Ok(())
}

// The pins of an image that aren't free, inputs before outputs.
fn gone_pins(alloc: Global, image: &Image, defects: &Defects) -> Result<Items<u32>, AllocError>
    requires { defects.now.shape ≡ image.now.config.shape }
    ensures { IfOk result (λ gone. gone ≡ filter (is_gone_pin defects.now.shape defects.now.list) (image.now.inputs ++ image.now.outputs)) }
{
    let mut gone = Items::empty(alloc);
    push_gone(&mut gone, defects, image.inputs())?;
    push_gone(&mut gone, defects, image.outputs())?;
    Ok(gone)
}

// Whether a pin is free and isn't used.
fn is_spare_pin(image: &Image, defects: &Defects, used: &[bool], pin: u32) -> bool
    requires shape { defects.now.shape ≡ image.now.config.shape }
    requires used { AreMarks (wires_of image.now.config.shape) (Uses image.now) used.now }
    requires within { pin < pins_of image.now.config.shape }
    ensures { IsTrue result ↔ IsSparePin defects.now.list image.now pin }
{
    let wire = defects.shape().pin(Pin(pin));
    if !defects.free_wire(wire) {
        return false;
    }
    let is_used = used[wire.0 as usize];
    !is_used
}

// The pins to which pins can go, ascending.
fn spare_pins(
    alloc: Global,
    image: &Image,
    defects: &Defects,
    used: &[bool],
) -> Result<Items<u32>, AllocError>
    requires shape { defects.now.shape ≡ image.now.config.shape }
    requires used { AreMarks (wires_of image.now.config.shape) (Uses image.now) used.now }
    ensures { IfOk result (AreThose (IsSparePin defects.now.list image.now)) }
{
    let mut spare = Items::empty(alloc);
    for p in 0..defects.shape().pins() {
        let is = is_spare_pin(image, defects, used, p);
        push_if(&mut spare, p, is)?;
    }
    Ok(spare)
}

/// The tables and pins of an image that go, and those to which they can go.
pub fn seats_of(alloc: Global, image: &Image, defects: &Defects) -> Result<Seats, AllocError>
    requires { defects.now.shape ≡ image.now.config.shape }
    ensures { IfOk result (AreSeats defects.now.list image.now) }
{
    let used = used_by(alloc, image)?;
    Ok(Seats {
        tables: Moves {
            gone: gone_tables(alloc, image, defects)?,
            spare: spare_tables(alloc, image, defects, &used)?,
        },
        pins: Moves {
            gone: gone_pins(alloc, image, defects)?,
            spare: spare_pins(alloc, image, defects, &used)?,
        },
    })
}

/// How many go, and how many places there are.
pub fn need_of(moves: &Moves) -> Need
    ensures { result ≡ need_of moves.now }
{
    Need {
        need: moves.gone.as_slice().len() as u64,
        have: moves.spare.as_slice().len() as u64,
    }
}

// Gives what goes its places.
fn put_all(places: &mut [u32], gone: &[u32], spare: &[u32])
    requires few { length gone.now ≤ length spare.now }
    requires within { All (λ t. t < length places.old) gone.now }
    requires apart { AllPairs (λ t u. t ≢ u) gone.now }
    ensures { IsPut gone.now spare.now (length gone.now) places.old places.new }
{
    for k in 0..gone.len() {
        places[gone[k] as usize] = spare[k];
    }
}

/// For each of so many the place where it stays or to which it goes.
pub fn places_of(alloc: Global, count: u32, moves: &Moves) -> Result<Vec<u32>, AllocError>
    requires few { length moves.now.gone ≤ length moves.now.spare }
    requires within { All (λ t. t < count) moves.now.gone }
    requires apart { AllPairs (λ t u. t ≢ u) moves.now.gone }
    ensures { IfOk result (λ places. ArePlaces count moves.now places.items) }
{
    let mut places = own_places(alloc, count)?;
    put_all(&mut places, moves.gone.as_slice(), moves.spare.as_slice());
    Ok(places)
}

/// The places of these pins.
pub fn moved(alloc: Global, places: &[u32], pins: &[u32]) -> Result<Vec<u32>, AllocError>
    requires { All (λ p. p < length places.now) pins.now }
    ensures { IfOk result (λ moved. moved.items ≡ map (nth_of places.now) pins.now) }
{
    let mut moved = Vec::new(alloc);
    for i in 0..pins.len() {
        moved.push(places[pins[i] as usize])?;
    }
    Ok(moved)
}
