//! Reads a design line by line.

ghost use Rattle.std.specs.Option.{option_to_list};
ghost use Rattle.design_flatten.specs.declared.model.Piece.TheVariants.{Names as NamesPiece};
ghost use Rattle.std.specs.Prelude.{option_map, ◌≡◌, ◌++◌, ◌<◌, true, length, map, None, Some, OnOk};
ghost use Rattle.design_blif.specs.Faults.{placed_fault, line_fault, IsNew};
ghost use Rattle.design_blif.specs.Steps.{Steps, after_head};
ghost use Rattle.design_blif.specs.States.{state_of};

use crate::head::Head;
use crate::kind::Refusal;
use crate::lines;
use crate::names::Names;
use design_flatten::Piece;
use design_netlist::{Cover, DesignKind, PortDef};
use std::alloc::{AllocError, Global};

/// The most inputs of a cover.
const MOST_INPUTS: usize = 256;

/// What the lines so far say.
#[derive(Drop)]
pub struct Reader<'a> {
    pub begun: bool,
    pub ended: bool,
    pub names: Names<'a>,
    pub inputs: Vec<PortDef>,
    pub outputs: Vec<PortDef>,
    pub clocks: Vec<&'a [u8]>,
    pub pieces: Vec<Piece>,
    /// The cover whose rows go on.
    pub current: Option<Cover>,
    /// The control of the latches.
    pub control: Option<&'a [u8]>,
}

/// Puts the cover whose rows went on with the others.
pub fn close(pieces: &mut Vec<Piece>, current: &mut Option<Cover>) -> Result<(), AllocError>
    ensures { OnOk result ((pieces.new.items ≡ pieces.old.items ++ option_to_list (option_map NamesPiece current.old))
        × (current.new ≡ None)) }
{
    if let Some(cover) = current.take() {
        pieces.push(Piece::Names(cover))?;
    }
    Ok(())
}

/// Reads a line of a kind that ends the rows above it.
pub fn take_new<'a>(
    alloc: Global,
    reader: &mut Reader<'a>,
    head: Head,
    number: u64,
    words: &[&'a [u8]],
) -> Result<(), Refusal>
    requires some { 0 < length words.now }
    requires new { IsNew head }
    ensures steps { Steps result (line_fault (state_of reader.old).seen head (map (λ w. w.now) words.now))
        (λ _. state_of reader.new ≡ after_head (state_of reader.old) head number (map (λ w. w.now) words.now)) }
{
    close(&mut reader.pieces, &mut reader.current)?;
    reader.begun = true;
    match head {
        Head::Model => Ok(()),
        Head::Inputs => lines::push_ports(
            alloc,
            &mut reader.names,
            &mut reader.inputs,
            &words[1..],
            number,
        ),
        Head::Outputs => lines::push_ports(
            alloc,
            &mut reader.names,
            &mut reader.outputs,
            &words[1..],
            number,
        ),
        Head::Names => {
            if words.len() < 2 {
                return Err(Refusal::Kind(DesignKind::Word));
            }
            if words.len() > MOST_INPUTS + 2 {
                return Err(Refusal::Kind(DesignKind::Limit));
            }
            reader.current = Some(lines::new_cover(alloc, &mut reader.names, &words[1..], number)?);
            Ok(())
        }
        Head::Latch => {
            let latch = lines::new_latch(
                alloc,
                &mut reader.names,
                &mut reader.control,
                words,
                number,
            )?;
            reader.pieces.push(latch)?;
            Ok(())
        }
        Head::End => {
            if words.len() != 1 {
                return Err(Refusal::Kind(DesignKind::Word));
            }
            reader.ended = true;
            Ok(())
        }
        Head::Clock => {
            reader.clocks.extend_from_slice(&words[1..])?;
            Ok(())
        }
        Head::Subckt => {
            let inst = lines::new_inst(alloc, &mut reader.names, words, number)?;
            reader.pieces.push(inst)?;
            Ok(())
        }
        Head::Passed | Head::Unknown | Head::LeftOut | Head::Row => unreachable!(),
    }
}

/// Reads what a line says, where it may stand.
fn take_said<'a>(
    alloc: Global,
    reader: &mut Reader<'a>,
    head: Head,
    number: u64,
    words: &[&'a [u8]],
) -> Result<(), Refusal>
    requires { 0 < length words.now }
    ensures steps { Steps result (line_fault (state_of reader.old).seen head (map (λ w. w.now) words.now))
        (λ _. state_of reader.new ≡ after_head (state_of reader.old) head number (map (λ w. w.now) words.now)) }
{
    match head {
        Head::Row => match &mut reader.current {
            Some(cover) => lines::push_row(alloc, cover, words),
            None => Err(Refusal::Kind(DesignKind::Word)),
        },
        Head::Passed => Ok(()),
        Head::LeftOut => Err(Refusal::Kind(DesignKind::LeftOut)),
        Head::Unknown => Err(Refusal::Kind(DesignKind::Unknown)),
        _ => { take_new(alloc, reader, head, number, words) }
    }
}

/// Reads the words of a line with this head.
pub fn take_words<'a>(
    alloc: Global,
    reader: &mut Reader<'a>,
    head: Head,
    number: u64,
    words: &[&'a [u8]],
) -> Result<(), Refusal>
    requires { 0 < length words.now }
    ensures steps { Steps result (placed_fault (state_of reader.old).seen head (map (λ w. w.now) words.now))
        (λ _. state_of reader.new ≡ after_head (state_of reader.old) head number (map (λ w. w.now) words.now)) }
{
    if head == Head::Passed {
        return Ok(());
    }
    if reader.ended {
        return Err(Refusal::Kind(DesignKind::Word));
    }
    if !reader.begun {
        return Err(Refusal::Kind(DesignKind::NoModel));
    }
    take_said(alloc, reader, head, number, words)
}
