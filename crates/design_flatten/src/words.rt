//! The words of the substituted design that drive signals, and those that read signals which nothing drives.

ghost use Rattle.std.specs.Prelude.{◌≡◌, ◌++◌, List, map, fold, None, OnOk, IfErr};
ghost use Rattle.std.specs.List.{flat_map};
ghost use Rattle.std.specs.Option.{option_to_list};
ghost use Rattle.design_netlist.specs.declared.netlist_data.PortDef.{PortDef as WordValue};
ghost use Rattle.design_netlist.specs.Vocabulary.{word, sooner};
ghost use Rattle.design_flatten.specs.declared.refusal.Refusal.TheVariants.{Memory};
ghost use Rattle.design_flatten.specs.Drives.{AreDrives, places_of};
ghost use Rattle.design_flatten.specs.Placed.{placed_line};
ghost use Rattle.design_flatten.specs.Signals.{signal_number};
ghost use Rattle.design_flatten.specs.Words.{drive_on, read_on};

use crate::drives::{Driver, Drives, first_at};
use crate::model::Signal;
use crate::placed::{Placed, PlacedPart};
use crate::refusal::Refusal;
use crate::signals::Signals;
use design_netlist::PortDef;

/// The word of a line that drives.
fn drive_of(signals: &Signals, placed: &Placed<'_>) -> Option<PortDef>
    ensures { option_to_list result ≡ drive_on signals.now (placed_line placed.now) }
{
    match &placed.part {
        PlacedPart::Input(signal) => Some(PortDef {
            signal: signals.number(*signal),
            line: placed.number,
        }),
        PlacedPart::Output(_) => None,
        PlacedPart::Cover {
            out,
            ins: _,
            cover: _,
        } => Some(PortDef {
            signal: signals.number(*out),
            line: placed.number,
        }),
        PlacedPart::Latch {
            from: _,
            out,
            init: _,
            control: _,
        } => Some(PortDef {
            signal: signals.number(*out),
            line: placed.number,
        }),
    }
}

/// The word of a line more, if the line drives.
pub fn put_drive(drives: &mut Drives, signals: &Signals, placed: &Placed<'_>) -> Result<(), Refusal>
    ensures stays { OnOk result (drives.new.doubled ≡ None → drives.old.doubled ≡ None) }
    ensures refused { IfErr result (λ e. e ≡ Memory) }
    ensures more { OnOk result ((words : List WordValue) → AreDrives words drives.old →
        AreDrives (words ++ drive_on signals.now (placed_line placed.now)) drives.new) }
{
    match drive_of(signals, placed) {
        Some(word) => drives.put(word),
        None => Ok(()),
    }
}

/// The word that was found, or one that nothing drives and that is on an earlier line.
fn sooner(firsts: &[Option<Driver>], found: Option<PortDef>, word: PortDef) -> Option<PortDef>
    ensures { result ≡ sooner (places_of firsts.now) found word }
{
    if first_at(firsts, word.signal).is_some() {
        return found;
    }
    match found {
        None => Some(word),
        Some(other) => {
            if word.line < other.line {
                Some(word)
            } else {
                Some(other)
            }
        }
    }
}

fn among_inputs(
    firsts: &[Option<Driver>],
    signals: &Signals,
    ins: &[Signal],
    line: u64,
    found: Option<PortDef>,
) -> Option<PortDef>
    ensures { result ≡ fold (sooner (places_of firsts.now)) found (map (λ s. word line (signal_number signals.now s)) ins.now) }
{
    let mut best = found;
    'ins: for k in 0..ins.len() {
        let word = PortDef {
            signal: signals.number(ins[k]),
            line,
        };
        best = sooner(firsts, best, word);
    }
    best
}

fn among_words(
    firsts: &[Option<Driver>],
    signals: &Signals,
    placed: &Placed<'_>,
    found: Option<PortDef>,
) -> Option<PortDef>
    ensures { result ≡ fold (sooner (places_of firsts.now)) found (read_on signals.now (placed_line placed.now)) }
{
    match &placed.part {
        PlacedPart::Input(_) => found,
        PlacedPart::Output(signal) => {
            let signal = signals.number(*signal);
            let line = placed.number;
            sooner(firsts, found, PortDef { signal, line })
        }
        PlacedPart::Cover {
            out: _,
            ins,
            cover: _,
        } => among_inputs(firsts, signals, ins.as_slice(), placed.number, found),
        PlacedPart::Latch {
            from,
            out: _,
            init: _,
            control: _,
        } => {
            let signal = signals.number(*from);
            let line = placed.number;
            sooner(firsts, found, PortDef { signal, line })
        }
    }
}

/// The first word that reads a signal which nothing drives, by line number, and for one number by the order of the lines.
pub fn first_undriven(
    firsts: &[Option<Driver>],
    signals: &Signals,
    placed: &[Placed<'_>],
) -> Option<PortDef>
    ensures { result ≡ fold (sooner (places_of firsts.now)) None (flat_map (read_on signals.now) (map placed_line placed.now)) }
{
    let mut best = None;
    'placed: for k in 0..placed.len() {
        best = among_words(firsts, signals, &placed[k], best);
    }
    best
}
