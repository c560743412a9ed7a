//! Reads the models of a text.

ghost use Rattle.std.specs.Prelude.{◌≡◌, ◌<◌, false, length, map, None, IfOk, OnOk, ◌++◌, ◌∷◌, [], if◌then◌else◌};
ghost use Rattle.base_text.specs.Lines.{is_bad_line};
ghost use Rattle.design_blif.specs.Faults.{fault_of, model_fault};
ghost use Rattle.design_blif.specs.Steps.{Steps};
ghost use Rattle.design_blif.specs.States.{state_of};
ghost use Rattle.design_blif.specs.Parts.{nth_word};
ghost use Rattle.design_blif.specs.Runs.{start, model_from, above_of, text_after, text_after_head};
ghost use Rattle.design_blif.specs.Texts.{text_of};

use crate::head::{self, Head};
use crate::kind::Refusal;
use crate::names::{self, ModelNames, Names};
use crate::reader::{self, Reader};
use base_lists::Items;
use base_text::Line;
use design_flatten::Model;
use design_netlist::DesignKind;
use std::alloc::{AllocError, Global};
use std::mem;

/// What the lines of a text say so far.
#[derive(Drop)]
pub struct TextReader<'a> {
    pub done: Vec<Model>,
    pub models: ModelNames<'a>,
    pub name: &'a [u8],
    pub this: Reader<'a>,
}

pub fn new_reader<'a>(alloc: Global) -> Reader<'a>
    ensures { state_of result ≡ start }
{
    Reader {
        begun: false,
        ended: false,
        names: Names::new(alloc),
        inputs: Vec::new(alloc),
        outputs: Vec::new(alloc),
        clocks: Vec::new(alloc),
        pieces: Vec::new(alloc),
        current: None,
        control: None,
    }
}

/// The model that was read.
fn model_of(alloc: Global, name: &[u8], reader: Reader) -> Result<Model, AllocError>
    ensures { IfOk result (λ m. m ≡ model_from name.now (state_of reader.entry)) }
{
    let Reader {
        begun: _,
        ended: _,
        names,
        inputs,
        outputs,
        clocks,
        mut pieces,
        mut current,
        control: _,
    } = reader;
    reader::close(&mut pieces, &mut current)?;
    Ok(Model {
        name: Items::new(Vec::from_slice(alloc, name)?),
        names: Items::new(names.to_names(alloc)?),
        inputs: Items::new(inputs),
        outputs: Items::new(outputs),
        clocks: Items::new(names::copies(alloc, &clocks)?),
        pieces: Items::new(pieces),
    })
}

/// Puts the model that was read with the others, if there is one.
pub fn keep(
    alloc: Global,
    done: &mut Vec<Model>,
    name: &[u8],
    reader: Reader,
) -> Result<(), AllocError>
    ensures { OnOk result (done.new.items ≡ done.old.items
        ++ (if reader.entry.begun then model_from name.now (state_of reader.entry) ∷ [] else [])) }
{
    if reader.begun {
        done.push(model_of(alloc, name, reader)?)?;
    }
    Ok(())
}

/// The name on a `.model` line, or nothing.
fn model_name<'a>(words: &[&'a [u8]]) -> &'a [u8]
    ensures { result.now ≡ nth_word 1 (map (λ w. w.now) words.now) }
{
    if words.len() < 2 { b"" } else { words[1] }
}

/// Reads a `.model` line.
fn take_model<'a>(
    alloc: Global,
    text: &mut TextReader<'a>,
    number: u64,
    words: &[&'a [u8]],
) -> Result<(), Refusal>
    requires { 0 < length words.now }
    ensures steps { Steps result (model_fault (above_of (text_of text.old)) (map (λ w. w.now) words.now))
        (λ _. text_of text.new ≡ text_after_head (text_of text.old) Head.Model number (map (λ w. w.now) words.now)) }
{
    let begun = text.this.begun;
    if words.len() > 2 || (begun && words.len() < 2) {
        return Err(Refusal::Kind(DesignKind::Word));
    }
    let name = model_name(words);
    if text.models.contains(name) {
        return Err(Refusal::Kind(DesignKind::SameModel));
    }
    let mut this = new_reader(alloc);
    reader::take_new(alloc, &mut this, Head::Model, number, words)?;
    let finished = mem::replace(&mut text.this, this);
    keep(alloc, &mut text.done, text.name, finished)?;
    text.models.push(name)?;
    text.name = name;
    Ok(())
}

/// Reads one line.
pub fn take_line<'a>(
    alloc: Global,
    text: &mut TextReader<'a>,
    line: &Line<'a>,
) -> Result<(), Refusal>
    requires some { 0 < length line.now.words }
    requires sound { is_bad_line line.now ≡ false }
    ensures steps { Steps result (fault_of (above_of (text_of text.old)) line.now)
        (λ _. text_of text.new ≡ text_after (text_of text.old) line.now) }
{
    let words = line.words();
    let head = head::head_of(words[0]);
    if head == Head::Model {
        return take_model(alloc, text, line.number(), words);
    }
    reader::take_words(alloc, &mut text.this, head, line.number(), words)
}
