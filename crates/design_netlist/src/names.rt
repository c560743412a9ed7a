//! Names that may share their beginnings.

ghost use Rattle.std.specs.Prelude.{◌≡◌, ◌<◌, ◌++◌, ◌∷◌, [], length, map, IfOk, OnOk, MatchOption, slice_index_or};
ghost use Rattle.design_netlist.specs.Names.{beginning_at, text_in, texts_of, joined, whole, front};

use crate::netlist_data::Name;
use crate::shared::{Beginning, Shared};
use base_lists::Items;
use std::alloc::{AllocError, AllocFailed, Global};
use std::marker::Model;

/// A list of names, which contracts see as such. Names may share their beginnings, so it can take less memory than
/// its bytes.
#[derive(Debug, Drop)]
pub struct Names {
    beginnings: Vec<Beginning>,
    shared: Vec<Shared>,
}

impl Model for Names {
    ghost use Rattle.std.specs.Prelude.{List, ℕ, map};
    ghost use Rattle.design_netlist.specs.Names.{texts_of, whole};

    ghost Value = { List (List ℕ) };

    ghost view = { λ n. map (whole (texts_of n.beginnings.items)) n.shared.items };
}

/// The beginning that stands in front of one.
fn before(beginnings: &[Beginning], place: u32) -> Option<u32>
    requires { place < length beginnings.now }
    ensures { let text = (beginning_at beginnings.now place).text in
        let whole = text_in beginnings.now place in
        MatchOption result (whole ≡ text) (λ b. (b < place) × (whole ≡ text_in beginnings.now b ++ text)) }
{
    let before = beginnings[place as usize].before;
    if before < place { Some(before) } else { None }
}

/// The places of a beginning and of those in front of it, the last first.
fn way_back(
    alloc: Global,
    beginnings: &[Beginning],
    last: Option<u32>,
) -> Result<Vec<u32>, AllocError>
    ensures { IfOk result (λ places. joined beginnings.now places.items ≡ front (texts_of beginnings.now) last) }
{
    let mut places = Vec::new(alloc);
    let mut next = last;
    'back: while let Some(place) = next {
        if place as usize >= beginnings.len() {
            return Ok(places);
        }
        places.push(place)?;
        next = before(beginnings, place);
    }
    Ok(places)
}

/// Adds the texts of beginnings, the last place first.
fn put_texts(text: &mut Vec<u8>, beginnings: &[Beginning], back: Vec<u32>) -> Result<(), AllocError>
    ensures { OnOk result (text.new.items ≡ text.old.items ++ joined beginnings.now back.items) }
{
    let mut places = back;
    'places: while let Some(place) = places.pop() {
        text.extend_from_slice(text_at(beginnings, place))?;
    }
    Ok(())
}

/// The text of a beginning.
fn text_at(beginnings: &[Beginning], place: u32) -> &[u8]
    ensures { result.now ≡ (beginning_at beginnings.now place).text }
{
    match beginnings.get(place as usize) {
        Some(beginning) => beginning.text.as_slice(),
        None => &[],
    }
}

impl Names {
    /// No names. Takes no memory until the first `push`.
    pub fn new(alloc: Global) -> Self
        ensures { result ≡ [] }
    {
        Names {
            beginnings: Vec::new(alloc),
            shared: Vec::new(alloc),
        }
    }

    /// Names that share beginnings. Takes no memory.
    pub fn sharing(beginnings: Vec<Beginning>, shared: Vec<Shared>) -> Self
        ensures { result ≡ map (whole (texts_of beginnings.items)) shared.items }
    {
        Names { beginnings, shared }
    }

    /// Adds a name at the end.
    pub fn push(&mut self, name: Name) -> Result<(), AllocError>
        ensures { OnOk result (self.new ≡ self.old ++ name ∷ []) }
    {
        self.shared.push(Shared {
            beginning: None,
            end: name,
        })?;
        Ok(())
    }

    /// How many names there are. Takes no memory.
    pub fn len(&self) -> usize
        ensures { result ≡ length self.now }
    {
        self.shared.len()
    }

    /// The name at a place, in full.
    pub fn get(&self, alloc: Global, place: usize) -> Result<Name, AllocError>
        requires { place < length self.now }
        ensures { IfOk result (λ name. name ≡ slice_index_or self.now place []) }
    {
        let shared = &self.shared[place];
        let back = way_back(alloc, &self.beginnings, shared.beginning)?;
        let mut text = Vec::new(alloc);
        put_texts(&mut text, &self.beginnings, back)?;
        text.extend_from_slice(shared.end.as_slice())?;
        Ok(Items::new(text))
    }
}
