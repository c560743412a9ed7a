//! Reads the text of a design.

ghost use Rattle.design_flatten.specs.declared.model.Model.{Model};
ghost use Rattle.design_flatten.specs.Vocabulary.{HaveRightRows, first_model};
ghost use Rattle.std.specs.Prelude.{◌≡◌, true, List, None, Some, Ok, Err, IfOk, IfErr, MatchResult, length, ◌≤◌};
ghost use Rattle.base_text.specs.Lines.{logical_lines};
ghost use Rattle.design_blif.specs.Texts.{text_of};
ghost use Rattle.design_blif.specs.Runs.{run, text_start, whole, Gives};
ghost use Rattle.design_blif.specs.Faults.{reading};
ghost use Rattle.design_blif.specs.Grammar.{AreModels};
ghost use Rattle.design_blif.specs.Designs.{IsDesign, IsRefusalOfBytes};
ghost use Rattle.design_netlist.specs.declared.netlist_data.NetlistData.{NetlistData};
ghost use Rattle.design_netlist.specs.declared.fault.DesignFault.TheVariants.{Memory};

use crate::names::ModelNames;
use crate::text::{TextReader, keep, new_reader, take_line};
use base_text::{LineFault, Lines, MOST_BYTES};
use design_flatten::{Model, flatten};
use design_netlist::{DesignFault, DesignKind, Netlist};
use std::alloc::Global;

fn new_text<'a>(alloc: Global) -> TextReader<'a>
    ensures { text_of result ≡ text_start }
{
    TextReader {
        done: Vec::new(alloc),
        models: ModelNames::new(alloc),
        name: b"",
        this: new_reader(alloc),
    }
}

/// Reads the lines of a text.
#[tactic(auto, unfolding(crate::specs::Runs::run))]
fn read_lines<'a>(alloc: Global, bytes: &'a [u8]) -> Result<TextReader<'a>, DesignFault>
    ensures { Gives text_of result (run text_start (logical_lines true bytes.now)) }
{
    let mut lines = Lines::new(alloc, bytes, true);
    let mut text = new_text(alloc);
    'lines: loop {
        match lines.next_line() {
            Ok(None) => return Ok(text),
            Ok(Some(line)) => {
                if let Err(refusal) = take_line(alloc, &mut text, &line) {
                    return Err(refusal.at(line.number()));
                }
            }
            Err(LineFault::Memory) => return Err(DesignFault::Memory),
            Err(LineFault::BadByte { line }) => {
                return Err(DesignFault::At {
                    line,
                    kind: DesignKind::Byte,
                });
            }
        }
    }
}

fn read_whole(alloc: Global, bytes: &[u8]) -> Result<Vec<Model>, DesignFault>
    ensures { Gives (λ v. v.items) result (whole (logical_lines true bytes.now)) }
{
    let TextReader {
        mut done,
        models: _,
        name,
        this,
    } = read_lines(alloc, bytes)?;
    if !this.begun {
        return Err(DesignFault::At {
            line: 0,
            kind: DesignKind::NoModel,
        });
    }
    keep(alloc, &mut done, name, this)?;
    Ok(done)
}

/// Reads the models of a text, unless a line is faulty or memory runs out.
fn read_models(alloc: Global, bytes: &[u8]) -> Result<Vec<Model>, DesignFault>
    // What is read is the text of the models.
    ensures found { IfOk result (λ v. AreModels bytes.now (v.items)) }
    // The text of models is read, unless memory runs out.
    ensures only { (models : List Model) → AreModels bytes.now models → Gives (λ v. v.items) result (Ok models) }
    // Which fault it is: that of the first faulty line, and on it the first.
    ensures exact { Gives (λ v. v.items) result (reading (logical_lines true bytes.now)) }
    // Rows are as long as their cover's inputs.
    ensures rows { IfOk result (λ v. HaveRightRows v.items) }
    // Each output stands in the text.
    ensures outputs { IfOk result (λ v. length (first_model v.items).outputs ≤ length bytes.now) }
{
    read_whole(alloc, bytes)
}

/// Reads a design from its text in BLIF: the models, and the netlist of the first with those that it uses.
///
/// # Errors
///
/// `Limit` at line 0 for more than 16,777,216 bytes, before anything else is looked at. Then the first line that has
/// a fault, and on it the first in the order of the kinds of line; `NoModel` at line 0 for a text without lines.
/// Then what is wrong with the models as a whole. `Memory` where memory is lacking.
pub fn read_blif(alloc: Global, bytes: &[u8]) -> Result<Netlist, DesignFault>
    ensures found { IfOk result (λ n. IsDesign bytes.now n × (length bytes.now ≤ 16777216)) }
    ensures refused { IfErr result (IsRefusalOfBytes bytes.now) }
    // Designs that are within the limit are read.
    ensures only { (d : NetlistData) → IsDesign bytes.now d → length bytes.now ≤ 16777216 → MatchResult result (λ n. n ≡ d) (λ e. e ≡ Memory) }
{
    if bytes.len() > MOST_BYTES {
        return Err(DesignFault::At {
            line: 0,
            kind: DesignKind::Limit,
        });
    }
    let models = read_models(alloc, bytes)?;
    flatten(alloc, models)
}
