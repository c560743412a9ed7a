//! The bytes of an image.
ghost use Rattle.std.specs.Prelude.{◌≡◌};

use example_kit::TINY;
use machine_defects::Defects;
use machine_image::{Image, ImageFault, ImageKind, read_image, touches_none, write_image};
use machine_shape::{Counts, Cross, Shape, Table, Wire};
use std::alloc::{AllocError, Global};

// Two inputs and an output, one table that is on, 24 closed crosspoints.
const SAMPLE: &[u8] = b"TERAIMG1\
    \x00\x01\x00\x01\x00\x01\x00\x02\x00\x04\x00\x04\x00\x04\x00\x04\x00\x04\x00\x04\x00\x04\x00\x04\
    \x00\x01\x00\x02\x00\x01\x00\x00\x00\x01\x00\x02\
    \x00\x01\x00\x00\x00\x88\x88\x88\x88\x88\x88\x88\x88\
    \x00\x00\x00\x18\
    \x00\x00\x00\x00\x00\x00\x00\x05\x00\x00\x00\x0a\x00\x00\x00\x10\x00\x00\x00\x15\x00\x00\x00\x1a\
    \x00\x00\x00\x20\x00\x00\x00\x25\x00\x00\x00\x2a\x00\x00\x00\x30\x00\x00\x00\x35\x00\x00\x00\x3a\
    \x00\x00\x00\x40\x00\x00\x00\x45\x00\x00\x00\x4a\x00\x00\x00\x50\x00\x00\x00\x55\x00\x00\x00\x5a\
    \x00\x00\x00\x60\x00\x00\x00\x65\x00\x00\x00\x6a\x00\x00\x00\x70\x00\x00\x00\x75\x00\x00\x00\x8a";

// What writing an image says: none where these bytes come of it, or else `Memory`.
fn written(alloc: Global, image: &Image, bytes: &[u8]) -> Result<Option<ImageFault>, AllocError> {
    let written = write_image(alloc, image)?;
    if written.as_slice() == bytes {
        return Ok(None);
    }
    Ok(Some(ImageFault::Memory))
}

// What reading says: the fault, or none where the image is written back as these bytes. Otherwise it is `Memory`.
fn read_and_written(
    alloc: Global,
    shape: &Shape,
    bytes: &[u8],
) -> Result<Option<ImageFault>, AllocError> {
    match read_image(alloc, shape, bytes) {
        Ok(image) => written(alloc, &image, bytes),
        Err(fault) => Ok(Some(fault)),
    }
}

// The sample cut to so many bytes, or with one behind it.
fn of_length(alloc: Global, count: usize) -> Result<Vec<u8>, AllocError> {
    let mut bytes = Vec::new(alloc);
    for byte in SAMPLE.iter().take(count) {
        bytes.push(*byte)?;
    }
    if SAMPLE.len() < count {
        bytes.push(0)?;
    }
    Ok(bytes)
}

// Whether the sample cut to so many bytes is refused at its end, but for the whole of it.
fn is_cut(alloc: Global, shape: &Shape, count: usize) -> Option<bool> {
    let line = count as u64;
    let kind = ImageKind::Short;
    let due = match count {
        157 => None,
        _ => Some(ImageFault::At { line, kind }),
    };
    let bytes = of_length(alloc, count).ok()?;
    Some(read_and_written(alloc, shape, &bytes).ok()? == due)
}

// The sample with the first two crosspoints, 0 and 5, exchanged.
fn exchanged(alloc: Global) -> Result<Vec<u8>, AllocError> {
    let mut bytes = Vec::from_slice(alloc, SAMPLE)?;
    if let Some(first) = bytes.get_mut(64) {
        *first = 5;
    }
    if let Some(second) = bytes.get_mut(68) {
        *second = 0;
    }
    Ok(bytes)
}

// Whether such bytes are refused so.
fn is_refused(
    alloc: Global,
    shape: &Shape,
    bytes: &[u8],
    line: u64,
    kind: ImageKind,
) -> Option<bool> {
    let found = read_and_written(alloc, shape, bytes).ok()?;
    Some(found == Some(ImageFault::At { line, kind }))
}

pub fn image_bytes(alloc: Global) -> Option<bool> {
    let shape = Shape::new(TINY).ok()?;
    let mut right = true;
    'counts: for count in 0..158usize {
        right = right && is_cut(alloc, &shape, count)?;
    }
    let longer = of_length(alloc, 158).ok()?;
    let after = is_refused(alloc, &shape, &longer, 157, ImageKind::After)?;
    let turned = exchanged(alloc).ok()?;
    let order = is_refused(alloc, &shape, &turned, 65, ImageKind::Order)?;
    Some(right && after && order)
}

// An image of 4,097 ticks with nothing closed or on, for a machine of 16,413 wires.
const MANY_TICKS_OF_LARGE: &[u8] = b"TERAIMG1\
    \x00\x01\x00\x01\x00\x01\x00\x01\x00\x01\x00\x01\x00\x01\x00\x01\x00\x01\x00\x01\x23\x28\x1c\xe8\
    \x10\x01\x00\x00\x00\x00\x00\x00\x00\x00\x00\x00";

pub fn large_ticks(alloc: Global) -> Option<bool> {
    let counts = Counts {
        modules: 1,
        chips: 1,
        hextants: 1,
        tables: 1,
        ports: [1, 1, 1],
        lines: [1, 1, 1, 9_000],
        pins: 7_400,
    };
    let large = Shape::large(counts).ok()?;
    let found = read_and_written(alloc, &large, MANY_TICKS_OF_LARGE).ok()?;
    Some(found.is_none())
}

// The sample with the lowest bit of a byte changed.
fn flipped(alloc: Global, at: usize) -> Result<Vec<u8>, AllocError> {
    let mut bytes = Vec::from_slice(alloc, SAMPLE)?;
    if let Some(byte) = bytes.get_mut(at) {
        *byte ^= 1;
    }
    Ok(bytes)
}

pub fn flipped_image_bits(alloc: Global) -> Option<bool> {
    let shape = Shape::new(TINY).ok()?;
    let mut right = true;
    'places: for at in 0..157usize {
        let bytes = flipped(alloc, at).ok()?;
        let found = read_and_written(alloc, &shape, &bytes).ok()?;
        right = right && found != Some(ImageFault::Memory);
    }
    Some(right)
}

// The list with a pin of the sample, a crosspoint that it closes, its table, or a table that it leaves off.
fn list_one(defects: &mut Defects, which: u8)
    ensures { defects.new.shape ≡ defects.old.shape }
{
    let shape = defects.shape();
    match which {
        1 if 2 < shape.wires() => defects.list_wire(Wire(2)),
        2 if 5 < shape.crosses() => defects.list_cross(Cross(5)),
        3 if 0 < shape.tables() => defects.list_table(Table(0)),
        4 if 1 < shape.tables() => defects.list_table(Table(1)),
        _ => {}
    }
}

// Whether the image touches nothing of such a list.
fn is_free_of(alloc: Global, image: &Image, which: u8) -> Option<bool> {
    let mut defects = Defects::none(alloc, image.config().shape()).ok()?;
    list_one(&mut defects, which);
    Some(touches_none(image, &defects))
}

// The sample image takes pins 0, 1 and 2, table 0 and crosspoints 0, 5 and more.
pub fn touched_lists(alloc: Global) -> Option<bool> {
    let shape = Shape::new(TINY).ok()?;
    let image = read_image(alloc, &shape, SAMPLE).ok()?;
    let mut right = true;
    'lists: for (which, free) in [(0u8, true), (1, false), (2, false), (3, false), (4, true)] {
        right = right && is_free_of(alloc, &image, which) == Some(free);
    }
    Some(right)
}
