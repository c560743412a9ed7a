//! Lines of the substituted design, and how a model's line becomes one.

ghost use Rattle.std.specs.Prelude.{◌≡◌, ℕ, List, [], map, true, None, IfOk, MatchOption, option_map};
ghost use Rattle.design_flatten.specs.Given.{place_of};
ghost use Rattle.design_flatten.specs.Lines.{is_use, NamedControl, CoverPart, LatchPart};
ghost use Rattle.design_flatten.specs.Ordered.{line_in, part_in};
ghost use Rattle.design_flatten.specs.Placed.{control_of, part_of, placed_line, IsPlacedPart};
ghost use Rattle.design_flatten.specs.Substitution.{becomes, control_becomes, through, part_through};

use crate::given::Given;
use crate::model::{Piece, Signal};
use crate::ordered::{Ordered, Said};
use base_lists::Items;
use design_netlist::{Cover, LatchDef, Name};
use std::alloc::{AllocError, Global};

/// The control of a latch: a signal that was given for it, or the name that it keeps.
#[derive(Clone, Copy, Debug)]
pub enum Control<'a> {
    Given(Signal),
    Named(&'a [u8]),
}

/// What a line of the substituted design says; the cover that is kept has the rows.
#[derive(Debug, Drop)]
pub enum PlacedPart<'a> {
    Input(Signal),
    Output(Signal),
    Cover {
        out: Signal,
        ins: Items<Signal>,
        cover: &'a Cover,
    },
    Latch {
        from: Signal,
        out: Signal,
        init: bool,
        control: Option<Control<'a>>,
    },
}

/// A line of the substituted design that uses no model.
#[derive(Debug, Drop)]
pub struct Placed<'a> {
    pub number: u64,
    pub part: PlacedPart<'a>,
}

fn signals_of(
    alloc: Global,
    given: &Given<'_>,
    names: &[Name],
    signals: &[u32],
) -> Result<Vec<Signal>, AllocError>
    ensures { IfOk result (λ v. v.items ≡ map (becomes (place_of given.now []) names.now) signals.now) }
{
    let mut found = Vec::new(alloc);
    'signals: for signal in signals {
        found.push(given.signal(names, *signal))?;
    }
    Ok(found)
}

fn cover_part<'a>(
    alloc: Global,
    given: &Given<'_>,
    names: &[Name],
    cover: &'a Cover,
) -> Result<PlacedPart<'a>, AllocError>
    ensures { IfOk result (λ p. part_of p ≡ part_through (place_of given.now []) (becomes (place_of given.now []) names.now)
        (CoverPart cover.now.out cover.now.ins cover.now.rows cover.now.off)) }
{
    let ins = signals_of(alloc, given, names, cover.ins.as_slice())?;
    Ok(PlacedPart::Cover {
        out: given.signal(names, cover.out),
        ins: Items::new(ins),
        cover,
    })
}

fn control_part<'a>(given: &Given<'_>, control: &'a Option<Name>) -> Option<Control<'a>>
    ensures { option_map control_of result ≡ option_map (control_becomes (place_of given.now [])) (option_map NamedControl control.now) }
{
    match control {
        Some(name) => Some(given.control(name.as_slice())),
        None => None,
    }
}

fn latch_part<'a>(
    given: &Given<'_>,
    names: &[Name],
    latch: &LatchDef,
    control: &'a Option<Name>,
) -> PlacedPart<'a>
    ensures { part_of result ≡ part_through (place_of given.now []) (becomes (place_of given.now []) names.now)
        (LatchPart latch.now.from latch.now.out latch.now.init (option_map NamedControl control.now)) }
{
    PlacedPart::Latch {
        from: given.signal(names, latch.from),
        out: given.signal(names, latch.out),
        init: latch.init,
        control: control_part(given, control),
    }
}

/// What a line of a model says where the model stands, unless it uses a model.
fn place_said<'a>(
    alloc: Global,
    given: &Given<'_>,
    names: &[Name],
    said: Said<'a>,
) -> Result<Option<PlacedPart<'a>>, AllocError>
    ensures { IfOk result (IsPlacedPart given.now names.now (part_in said.entry)) }
{
    match said {
        Said::Input(signal) => Ok(Some(PlacedPart::Input(given.signal(names, signal)))),
        Said::Output(signal) => Ok(Some(PlacedPart::Output(given.signal(names, signal)))),
        Said::Piece(Piece::Names(cover)) => Ok(Some(cover_part(alloc, given, names, cover)?)),
        Said::Piece(Piece::Latch { latch, control }) => {
            Ok(Some(latch_part(given, names, latch, control)))
        }
        Said::Piece(Piece::Inst { .. }) => Ok(None),
    }
}

/// A line of a model where the model stands, unless it uses a model.
pub fn place<'a>(
    alloc: Global,
    given: &Given<'_>,
    names: &[Name],
    line: &Ordered<'a>,
) -> Result<Option<Placed<'a>>, AllocError>
    ensures { IfOk result (λ found. MatchOption found (is_use (line_in line.now).part ≡ true)
        (λ p. (way : List ℕ) → placed_line p ≡ through (place_of given.now way) names.now (line_in line.now))) }
{
    match place_said(alloc, given, names, line.said)? {
        Some(part) => Ok(Some(Placed {
            number: line.number,
            part,
        })),
        None => Ok(None),
    }
}
