//! The names that stand on the lines of a model. Of what is given to the model no other name is needed.

ghost use Rattle.std.specs.Prelude.{◌≡◌, ◌∷◌, [], true, false, map, IfOk, OnOk, slice_index_or, slice_set};
ghost use Rattle.std.specs.Option.{option_to_list};
ghost use Rattle.design_flatten.specs.NameSets.{with_names};
ghost use Rattle.design_flatten.specs.Needs.{names_on, names_within};
ghost use Rattle.design_flatten.specs.Marks.{HasTaken};

use crate::given::name_at;
use crate::model::{Model, PairDef, Piece};
use crate::name_set::NameSet;
use design_netlist::{LatchDef, Name};
use std::alloc::{AllocError, Global};

/// Names of a model's lines, and which of its signals have theirs among them: a signal stands on many lines.
#[derive(Drop)]
pub struct Marked<'a> {
    pub names: &'a [Name],
    pub set: NameSet<'a>,
    pub marks: Vec<bool>,
}

fn mark_at(marks: &[bool], place: usize) -> bool
    ensures { result ≡ slice_index_or marks.now place false }
{
    match marks.get(place) {
        Some(mark) => *mark,
        None => false,
    }
}

fn set_mark(marks: &mut Vec<bool>, place: usize)
    ensures { marks.new.items ≡ slice_set marks.old.items place true }
{
    if place < marks.len() {
        marks[place] = true;
    }
}

/// Adds a name that may be no signal's.
fn add_name<'a>(marked: &mut Marked<'a>, name: &'a [u8]) -> Result<(), AllocError>
    ensures { OnOk result (HasTaken marked.old (name.now ∷ []) marked.new) }
{
    marked.set.add(name)
}

/// Adds the name of a signal.
fn add_signal(marked: &mut Marked<'_>, signal: u32) -> Result<(), AllocError>
    ensures { OnOk result (HasTaken marked.old (slice_index_or marked.old.names.now signal [] ∷ []) marked.new) }
{
    let place = signal as usize;
    if mark_at(&marked.marks, place) {
        return Ok(());
    }
    marked.set.add(name_at(marked.names, place))?;
    set_mark(&mut marked.marks, place);
    Ok(())
}

fn add_signals(marked: &mut Marked<'_>, signals: &[u32]) -> Result<(), AllocError>
    ensures { OnOk result (HasTaken marked.old (map (λ s. slice_index_or marked.old.names.now s []) signals.now) marked.new) }
{
    'signals: for signal in signals {
        add_signal(marked, *signal)?;
    }
    Ok(())
}

fn add_actuals(marked: &mut Marked<'_>, pairs: &[PairDef]) -> Result<(), AllocError>
    ensures { OnOk result (HasTaken marked.old (map (λ p. slice_index_or marked.old.names.now p.actual []) pairs.now) marked.new) }
{
    'pairs: for pair in pairs {
        add_signal(marked, pair.actual)?;
    }
    Ok(())
}

/// Adds the name of a control, if there is one.
fn add_control<'a>(marked: &mut Marked<'a>, control: &'a Option<Name>) -> Result<(), AllocError>
    ensures { OnOk result (HasTaken marked.old (option_to_list control.now) marked.new) }
{
    match control {
        Some(name) => add_name(marked, name.as_slice()),
        None => Ok(()),
    }
}

fn add_latch<'a>(
    marked: &mut Marked<'a>,
    latch: &LatchDef,
    control: &'a Option<Name>,
) -> Result<(), AllocError>
    ensures { OnOk result (HasTaken marked.old (slice_index_or marked.old.names.now latch.now.from []
        ∷ slice_index_or marked.old.names.now latch.now.out [] ∷ option_to_list control.now) marked.new) }
{
    add_signal(marked, latch.from)?;
    add_signal(marked, latch.out)?;
    add_control(marked, control)
}

fn add_piece<'a>(marked: &mut Marked<'a>, piece: &'a Piece) -> Result<(), AllocError>
    ensures { OnOk result (HasTaken marked.old (names_on marked.old.names.now piece.now) marked.new) }
{
    match piece {
        Piece::Names(cover) => {
            add_signal(marked, cover.out)?;
            add_signals(marked, cover.ins.as_slice())
        }
        Piece::Latch { latch, control } => add_latch(marked, latch, control),
        Piece::Inst {
            model: _,
            pairs,
            line: _,
        } => add_actuals(marked, pairs.as_slice()),
    }
}

/// The names on the lines of a model.
pub fn names_within(alloc: Global, model: &Model) -> Result<NameSet<'_>, AllocError>
    ensures { IfOk result (λ set. set ≡ with_names [] (names_within model.now)) }
{
    let names = model.names.as_slice();
    let mut marked = Marked {
        names,
        set: NameSet::new(alloc),
        marks: vec![in alloc; false; names.len()]?,
    };
    let pieces = model.pieces.as_slice();
    'pieces: for piece in pieces {
        add_piece(&mut marked, piece)?;
    }
    Ok(marked.set)
}
