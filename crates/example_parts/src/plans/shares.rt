//! What is to be seen of two designs on one machine.
ghost use Rattle.std.specs.Prelude.{◌<◌, ◌+◌, IsTrue, length};
ghost use Rattle.map_network.specs.Networks.{IsNetwork};

use crate::plans::figures::{defects_of, network_of};
use crate::plans::texts::Texts;
use machine_defects::Defects;
use machine_image::Image;
use map_network::Network;
use place_pair::lay_pair;
use std::alloc::{AllocError, Global};

/// How many crosspoints the image of both closes, and the image of each.
#[derive(Clone, Copy)]
pub struct Shares {
    pub whole: usize,
    pub first: usize,
    pub second: usize,
}

impl Shares {
    /// The numbers, with blanks between them.
    pub fn text(&self, alloc: Global) -> Result<String, AllocError> {
        let whole = self.whole;
        let first = self.first;
        let second = self.second;
        format!(in alloc; "{whole} {first} {second}")
    }
}

// Whether two networks together have few inputs and tables.
fn are_few(first: &Network, second: &Network) -> bool
    requires first { IsNetwork first.now }
    requires second { IsNetwork second.now }
    ensures inputs { IsTrue result → first.now.inputs + second.now.inputs < 4294967296 }
    ensures tables { IsTrue result → length first.now.tables + length second.now.tables < 4294967296 }
{
    let inputs = first.inputs as u64 + second.inputs as u64;
    let ours = first.tables.as_slice().len() as u32;
    let theirs = second.tables.as_slice().len() as u32;
    inputs < 4294967296 && ours as u64 + (theirs as u64) < 4294967296
}

fn closed_in(image: &Image) -> usize {
    image.config().closed().len()
}

// What is to be seen of two networks.
fn shares_on(alloc: Global, first: &Network, second: &Network, defects: &Defects) -> Option<Shares>
    requires first { IsNetwork first.now }
    requires second { IsNetwork second.now }
{
    if !are_few(first, second) {
        return None;
    }
    let pair = lay_pair(alloc, first, second, defects).ok()?;
    Some(Shares {
        whole: closed_in(&pair.whole),
        first: closed_in(&pair.first),
        second: closed_in(&pair.second),
    })
}

// What is to be seen of a network and of the second design.
fn shares_with(alloc: Global, first: &Network, second: &[u8], defects: &Defects) -> Option<Shares>
    requires { IsNetwork first.now }
{
    let second = network_of(alloc, second)?;
    shares_on(alloc, first, &second, defects)
}

// What is to be seen of the two designs on a machine with this list.
fn shares_by(alloc: Global, texts: &Texts, defects: &Defects) -> Option<Shares> {
    let first = network_of(alloc, &texts.designs.first)?;
    shares_with(alloc, &first, &texts.designs.second, defects)
}

/// What is to be seen of the two designs. None where a text can't be read, the plan in order of both doesn't fit, or memory is
/// wanting.
pub fn shares_of(alloc: Global, texts: &Texts) -> Option<Shares> {
    let defects = defects_of(alloc, texts)?;
    shares_by(alloc, texts, &defects)
}
