//! The lines of a model, by line number.

ghost use Rattle.std.specs.Prelude.{◌≡◌, ◌++◌, map, IfOk, OnOk};
ghost use Rattle.design_flatten.specs.Lines.{input_line, output_line, piece_line, ordered_lines, number_of_line};
ghost use Rattle.design_flatten.specs.InOrder.{in_order};
ghost use Rattle.design_flatten.specs.Ordered.{line_in};

use crate::model::{Model, Piece};
use design_netlist::PortDef;
use std::alloc::{AllocError, Global};

/// What a line of a model says: a word of `.inputs`, one of `.outputs`, or a piece.
#[derive(Clone, Copy, Debug)]
pub enum Said<'a> {
    Input(u32),
    Output(u32),
    Piece(&'a Piece),
}

/// A line of a model, or one word of it, with its number.
#[derive(Clone, Copy, Debug)]
pub struct Ordered<'a> {
    pub number: u64,
    pub said: Said<'a>,
}

fn push_inputs(lines: &mut Vec<Ordered<'_>>, ports: &[PortDef]) -> Result<(), AllocError>
    ensures { OnOk result (map line_in lines.new.items ≡ map line_in lines.old.items ++ map input_line ports.now) }
{
    'ports: for port in ports {
        lines.push(Ordered {
            number: port.line,
            said: Said::Input(port.signal),
        })?;
    }
    Ok(())
}

fn push_outputs(lines: &mut Vec<Ordered<'_>>, ports: &[PortDef]) -> Result<(), AllocError>
    ensures { OnOk result (map line_in lines.new.items ≡ map line_in lines.old.items ++ map output_line ports.now) }
{
    'ports: for port in ports {
        lines.push(Ordered {
            number: port.line,
            said: Said::Output(port.signal),
        })?;
    }
    Ok(())
}

/// The number of a piece's line.
fn number_of(piece: &Piece) -> u64
    ensures { result ≡ (piece_line piece.now).number }
{
    match piece {
        Piece::Names(cover) => cover.line,
        Piece::Latch { latch, control: _ } => latch.line,
        Piece::Inst {
            model: _,
            pairs: _,
            line,
        } => *line,
    }
}

fn push_pieces<'a>(lines: &mut Vec<Ordered<'a>>, pieces: &'a [Piece]) -> Result<(), AllocError>
    ensures { OnOk result (map line_in lines.new.items ≡ map line_in lines.old.items ++ map piece_line pieces.now) }
{
    'pieces: for piece in pieces {
        lines.push(Ordered {
            number: number_of(piece),
            said: Said::Piece(piece),
        })?;
    }
    Ok(())
}

// Sorts lines by number, and for one number as they stand.
fn sort(lines: &mut Vec<Ordered<'_>>) -> Result<(), AllocError>
    ensures { OnOk result (map line_in lines.new.items ≡ in_order number_of_line (map line_in lines.old.items)) }
{
    lines.sort_by_key(|line| line.number)?;
    Ok(())
}

/// The pieces of a model by line number, and for one number as they stand.
pub fn pieces_in_order(alloc: Global, model: &Model) -> Result<Vec<Ordered<'_>>, AllocError>
    ensures { IfOk result (λ v. map line_in v.items ≡ in_order number_of_line (map piece_line model.now.pieces)) }
{
    let mut lines = Vec::new(alloc);
    push_pieces(&mut lines, model.pieces.as_slice())?;
    sort(&mut lines)?;
    Ok(lines)
}

/// The lines of a model by line number; of one number inputs come first, then outputs and pieces.
pub fn in_order(alloc: Global, model: &Model) -> Result<Vec<Ordered<'_>>, AllocError>
    ensures { IfOk result (λ v. map line_in v.items ≡ ordered_lines model.now) }
{
    let mut lines = Vec::new(alloc);
    push_inputs(&mut lines, model.inputs.as_slice())?;
    push_outputs(&mut lines, model.outputs.as_slice())?;
    push_pieces(&mut lines, model.pieces.as_slice())?;
    sort(&mut lines)?;
    Ok(lines)
}
