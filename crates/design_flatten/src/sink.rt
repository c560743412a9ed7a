//! The substituted design as far as it has come, within the limits.

ghost use Rattle.std.specs.Prelude.{◌≡◌, ◌+◌, ◌<◌, ◌≤◌, ◌++◌, ◌∷◌, [], None, IfOk, IfErr, OnOk, MatchOption, sum_by};
ghost use Rattle.design_flatten.specs.Placed.{part_of, placed_line};
ghost use Rattle.design_flatten.specs.Refusals.{IsPast};
ghost use Rattle.design_flatten.specs.Signals.{with_signals, words_in, row_size, size_in};
ghost use Rattle.design_flatten.specs.Sinks.{IsSink, IsPut, IsOverWith};

use crate::clocks::Clocks;
use crate::drives::{Driver, Drives};
use crate::placed::{Placed, PlacedPart};
use crate::refusal::Refusal;
use crate::signals::Signals;
use crate::words::put_drive;
use design_netlist::{Cube, Name};
use std::alloc::{AllocError, Global};

/// The most characters of rows.
pub const MOST_CHARACTERS: usize = 16_777_216;

/// What is known of the lines so far: their signals, the room for characters of rows, which words drive, and which
/// controls the latches have.
///
/// The lines themselves are held while no signal is driven twice; then at most as many drive as there are signals. Of
/// a design in which one is driven twice nothing else is wanted, and it may have many more lines than memory holds.
#[derive(Drop)]
pub struct Sink<'a> {
    pub placed: Vec<Placed<'a>>,
    pub signals: Signals,
    pub room: usize,
    pub drives: Drives,
    pub clocks: Clocks<'a>,
}

/// The characters of rows, if there is room for so many.
fn rows_within(rows: &[Cube], room: usize) -> Option<usize>
    ensures { MatchOption result (room < sum_by row_size rows.now) (λ n. (n ≡ sum_by row_size rows.now) × (n ≤ room)) }
{
    let mut left = room;
    'rows: for row in rows {
        let size = row.as_slice().len() + 1;
        if size > left {
            return None;
        }
        left -= size;
    }
    Some(room - left)
}

fn size_within(part: &PlacedPart<'_>, room: usize) -> Option<usize>
    ensures { MatchOption result (room < size_in (part_of part.now)) (λ n. (n ≡ size_in (part_of part.now)) × (n ≤ room)) }
{
    match part {
        PlacedPart::Cover {
            out: _,
            ins: _,
            cover,
        } => rows_within(cover.rows.as_slice(), room),
        _ => Some(0),
    }
}

fn add_words(signals: &mut Signals, part: &PlacedPart<'_>) -> Result<(), Refusal>
    ensures ok { OnOk result (signals.new ≡ with_signals signals.old (words_in (part_of part.now))) }
    ensures refused { IfErr result (IsPast (with_signals signals.old (words_in (part_of part.now)))) }
{
    match part {
        PlacedPart::Input(signal) => signals.add(*signal),
        PlacedPart::Output(signal) => signals.add(*signal),
        PlacedPart::Cover { out, ins, cover: _ } => {
            signals.add_all(ins.as_slice())?;
            signals.add(*out)
        }
        PlacedPart::Latch {
            from,
            out,
            init: _,
            control: _,
        } => {
            signals.add(*from)?;
            signals.add(*out)
        }
    }
}

/// Holds a line more, or none where a signal is driven twice.
fn hold<'a>(
    alloc: Global,
    placed: &mut Vec<Placed<'a>>,
    doubled: Option<Driver>,
    line: Placed<'a>,
) -> Result<(), AllocError>
    ensures { doubled ≡ None → OnOk result (placed.new.items ≡ placed.old.items ++ line.entry ∷ []) }
{
    if doubled.is_some() {
        *placed = Vec::new(alloc);
        return Ok(());
    }
    placed.push(line)?;
    Ok(())
}

impl<'a> Sink<'a> {
    /// No lines yet. Names are those of the first model.
    pub fn new(alloc: Global, names: &'a [Name]) -> Result<Self, AllocError>
        ensures { IfOk result (IsSink names.now []) }
    {
        Ok(Sink {
            placed: Vec::new(alloc),
            signals: Signals::new(alloc),
            room: MOST_CHARACTERS,
            drives: Drives::new(alloc),
            clocks: Clocks::new(alloc, names)?,
        })
    }

    /// Adds a line.
    pub fn put(&mut self, alloc: Global, line: Placed<'a>) -> Result<(), Refusal>
        ensures ok { OnOk result (IsPut self.old (placed_line line.entry) self.new) }
        ensures refused { IfErr result (IsOverWith self.old (placed_line line.entry)) }
    {
        let Some(size) = size_within(&line.part, self.room) else {
            return Err(Refusal::Limit);
        };
        add_words(&mut self.signals, &line.part)?;
        self.room -= size;
        put_drive(&mut self.drives, &self.signals, &line)?;
        self.clocks.put(&line)?;
        hold(alloc, &mut self.placed, self.drives.doubled, line)?;
        Ok(())
    }
}
