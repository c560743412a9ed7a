//! What each kind of line says.

ghost use Rattle.std.specs.Prelude.{option_copied, IfOk, MatchOption, vec_len, ◌≡◌, ◌++◌, ◌∷◌, [], ◌+◌, ◌-◌, ◌<◌, true, false, ◌&&◌, ◌||◌};
ghost use Rattle.std.specs.Prelude.{◌==◌, length, map, drop, None, Some};
ghost use Rattle.std.specs.List.{list_all};
ghost use Rattle.std.specs.Option.{option_or};
ghost use Rattle.design_blif.specs.Names.{names_after, numbers, limit_at};
ghost use Rattle.design_blif.specs.Parts.{pairs_of, is_pair, formal_of, actual_of, port_defs, new_sum, with_row, is_lit, lit_of, is_output};
ghost use Rattle.design_blif.specs.Parts.{pattern, output, is_off, nth_word, control_of, init_of, is_init};
ghost use Rattle.design_flatten.specs.declared.model.Piece.TheVariants.{Latch};
ghost use Rattle.design_blif.specs.Faults.{pairs_fault, subckt_fault, latch_parts_fault, latch_fault, is_other, row_fault, row_shape_fault};
ghost use Rattle.design_blif.specs.Steps.{Steps, new_latch, new_inst};

use crate::kind::Refusal;
use crate::names::Names;
use base_lists::Items;
use design_flatten::{PairDef, Piece};
use design_netlist::{Cover, Cube, DesignKind, LatchDef, Lit, Name, PortDef};
use std::alloc::{AllocError, Global};

/// The most rows of a cover.
pub const MOST_ROWS: usize = 4_096;

/// The names of an `.inputs` or `.outputs` line.
pub fn push_ports<'a>(
    alloc: Global,
    names: &mut Names<'a>,
    ports: &mut Vec<PortDef>,
    words: &[&'a [u8]],
    line: u64,
) -> Result<(), Refusal>
    ensures steps { Steps result (limit_at names.old (map (λ w. w.now) words.now))
        (λ _. (names.new ≡ names_after names.old (map (λ w. w.now) words.now))
        × (ports.new.items ≡ ports.old.items ++ port_defs names.old (map (λ w. w.now) words.now) line)) }
{
    let numbers = names.numbers(alloc, words)?;
    'numbers: for signal in &numbers {
        ports.push(PortDef {
            signal: *signal,
            line,
        })?;
    }
    Ok(())
}

/// A cover without rows, of a `.names` line.
pub fn new_cover<'a>(
    alloc: Global,
    names: &mut Names<'a>,
    words: &[&'a [u8]],
    line: u64,
) -> Result<Cover, Refusal>
    requires { 0 < length words.now }
    ensures steps { Steps result (limit_at names.old (map (λ w. w.now) words.now))
        (λ c. (names.new ≡ names_after names.old (map (λ w. w.now) words.now))
        × (c ≡ new_sum names.old (map (λ w. w.now) words.now) line)) }
{
    let mut ins = names.numbers(alloc, words)?;
    let out = ins.remove(ins.len() - 1);
    Ok(Cover {
        out,
        ins: Items::new(ins),
        rows: Items::empty(alloc),
        off: false,
        line,
    })
}

/// What a character of a row wants.
fn lit_of(byte: u8) -> Lit
    ensures { result ≡ lit_of byte }
{
    match byte {
        b'0' => Lit::Zero,
        b'1' => Lit::One,
        _ => Lit::Any,
    }
}

fn are_lits(text: &[u8]) -> bool
    ensures { result ≡ list_all is_lit text.now }
{
    text.iter().all(|b| *b == b'0' || *b == b'1' || *b == b'-')
}

fn is_output(word: &[u8]) -> bool
    ensures { result ≡ is_output word.now }
{
    word.len() == 1 && (word[0] == b'0' || word[0] == b'1')
}

fn lits(alloc: Global, text: &[u8]) -> Result<Vec<Lit>, AllocError>
    ensures { IfOk result (λ v. v.items ≡ map lit_of text.now) }
{
    text.iter().map(|b| lit_of(*b)).collect(alloc)
}

fn lits_of(alloc: Global, text: &[u8]) -> Result<Cube, Refusal>
    ensures steps { Steps result None (λ c. c ≡ map lit_of text.now) }
{
    let lits = lits(alloc, text)?;
    Ok(Items::new(lits))
}

/// The row that these words are, under a cover with this many inputs, and whether it lists the off-set.
#[tactic(auto, unfolding(crate::specs::Faults::row_shape_fault))]
fn row_of(alloc: Global, inputs: usize, words: &[&[u8]]) -> Result<(Cube, bool), Refusal>
    ensures steps { Steps result (row_shape_fault inputs (map (λ w. w.now) words.now))
        (λ r. (r.0 ≡ map lit_of (pattern inputs (map (λ w. w.now) words.now))) × (r.1 ≡ is_off inputs (map (λ w. w.now) words.now))) }
{
    let (text, output) = match words {
        [output] if inputs == 0 => (b"".as_slice(), *output),
        [text, output] if inputs != 0 => (*text, *output),
        _ => return Err(Refusal::Kind(DesignKind::Word)),
    };
    if text.len() != inputs || !are_lits(text) || !is_output(output) {
        return Err(Refusal::Kind(DesignKind::Row));
    }
    let row = lits_of(alloc, text)?;
    Ok((row, output[0] == b'0'))
}

/// Adds a row to a cover.
pub fn push_row(alloc: Global, cover: &mut Cover, words: &[&[u8]]) -> Result<(), Refusal>
    ensures steps { Steps result (row_fault cover.old (map (λ w. w.now) words.now))
        (λ _. cover.new ≡ with_row cover.old (map (λ w. w.now) words.now)) }
{
    let (row, off) = row_of(alloc, cover.ins.as_slice().len(), words)?;
    if !cover.rows.as_slice().is_empty() && cover.off != off {
        return Err(Refusal::Kind(DesignKind::RowMixed));
    }
    if cover.rows.as_slice().len() >= MOST_ROWS {
        return Err(Refusal::Kind(DesignKind::Limit));
    }
    cover.rows.push(row)?;
    cover.off = off;
    Ok(())
}

fn is_init(word: &[u8]) -> bool
    ensures { result ≡ is_init word.now }
{
    word.len() == 1 && word[0] >= b'0' && word[0] < b'4'
}

/// What a `.latch` line says beside its input and output.
#[derive(Clone, Copy)]
struct Latchs<'a> {
    control: Option<&'a [u8]>,
    init: bool,
}

#[tactic(auto, unfolding(crate::specs::Faults::latch_parts_fault))]
fn latch_parts<'a>(words: &[&'a [u8]]) -> Result<Latchs<'a>, Refusal>
    ensures steps { Steps result (latch_parts_fault (map (λ w. w.now) words.now))
        (λ p. (option_copied p.control ≡ control_of (map (λ w. w.now) words.now)) × (p.init ≡ init_of (map (λ w. w.now) words.now))
        × (2 < length words.now)) }
{
    let (form, control, init) = match words {
        [_, _, _] => (None, None, None),
        [_, _, _, init] => (None, None, Some(*init)),
        [_, _, _, form, control] => (Some(*form), Some(*control), None),
        [_, _, _, form, control, init] => (Some(*form), Some(*control), Some(*init)),
        _ => return Err(Refusal::Kind(DesignKind::Word)),
    };
    if let Some(form) = form
        && form != b"re".as_slice()
    {
        return Err(Refusal::Kind(DesignKind::LatchType));
    }
    if let Some(init) = init
        && !is_init(init)
    {
        return Err(Refusal::Kind(DesignKind::LatchInit));
    }
    let init = match init {
        Some(init) => init[0] == b'1',
        None => false,
    };
    let control = match control {
        Some(control) if control != b"NIL".as_slice() => Some(control),
        _ => None,
    };
    Ok(Latchs { control, init })
}

fn is_other(control: Option<&[u8]>, earlier: Option<&[u8]>) -> bool
    ensures { result ≡ is_other (option_copied control.entry) (option_copied earlier.entry) }
{
    match (control, earlier) {
        (Some(control), Some(earlier)) => control != earlier,
        _ => false,
    }
}

/// A copy of a name that may be there.
fn copy_name(alloc: Global, name: Option<&[u8]>) -> Result<Option<Name>, AllocError>
    ensures { IfOk result (λ n. n ≡ option_copied name.entry) }
{
    match name {
        Some(name) => Ok(Some(Items::new(Vec::from_slice(alloc, name)?))),
        None => Ok(None),
    }
}

/// The latch of a `.latch` line, and its control.
pub fn new_latch<'a>(
    alloc: Global,
    names: &mut Names<'a>,
    control: &mut Option<&'a [u8]>,
    words: &[&'a [u8]],
    line: u64,
) -> Result<Piece, Refusal>
    ensures steps { Steps result (latch_fault (option_copied control.old) names.old (map (λ w. w.now) words.now))
        (λ d. (names.new ≡ names_after names.old (nth_word 1 (map (λ w. w.now) words.now) ∷ nth_word 2 (map (λ w. w.now) words.now) ∷ []))
        × (d ≡ Latch (new_latch names.old (map (λ w. w.now) words.now) line) (control_of (map (λ w. w.now) words.now)))
        × (option_copied control.new ≡ option_or (option_copied control.old) (control_of (map (λ w. w.now) words.now)))) }
{
    let parts = latch_parts(words)?;
    if is_other(parts.control, *control) {
        return Err(Refusal::Kind(DesignKind::Control));
    }
    let own = copy_name(alloc, parts.control)?;
    let numbers = names.numbers(alloc, &words[1..3])?;
    if control.is_none() {
        *control = parts.control;
    }
    Ok(Piece::Latch {
        latch: LatchDef {
            from: numbers[0],
            out: numbers[1],
            init: parts.init,
            line,
        },
        control: own,
    })
}

/// A formal and its actual, if the word has both.
fn split_pair(word: &[u8]) -> Option<(&[u8], &[u8])>
    ensures { MatchOption result (is_pair word.now ≡ false)
        (λ p. (is_pair word.now ≡ true) × (p.0.now ≡ formal_of word.now) × (p.1.now ≡ actual_of word.now)) }
{
    let end = base_text::place_of(word, b'=');
    if end == 0 || end >= word.len() {
        return None;
    }
    let (_, actual) = word.split_at(end + 1);
    if actual.is_empty() {
        return None;
    }
    Some((&word[..end], actual))
}

/// The formals and the actuals of a `.subckt` line.
struct Pairs<'a> {
    formals: Vec<&'a [u8]>,
    actuals: Vec<&'a [u8]>,
}

fn split_pairs<'a>(alloc: Global, words: &[&'a [u8]]) -> Result<Pairs<'a>, Refusal>
    ensures len { IfOk result (λ p. vec_len p.formals ≡ vec_len p.actuals) }
    ensures steps { Steps result (pairs_fault (map (λ w. w.now) words.now))
        (λ p. (map (λ w. w.now) p.formals.items ≡ map formal_of (map (λ w. w.now) words.now))
        × (map (λ w. w.now) p.actuals.items ≡ map actual_of (map (λ w. w.now) words.now))) }
{
    let mut formals = Vec::new(alloc);
    let mut actuals = Vec::new(alloc);
    'words: for word in words {
        let Some((formal, actual)) = split_pair(word) else {
            return Err(Refusal::Kind(DesignKind::Word));
        };
        formals.push(formal)?;
        actuals.push(actual)?;
    }
    Ok(Pairs { formals, actuals })
}

fn pair_defs(alloc: Global, formals: &[&[u8]], actuals: &[u32]) -> Result<Vec<PairDef>, AllocError>
    requires { length formals.now ≡ length actuals.now }
    ensures { IfOk result (λ v. v.items ≡ pairs_of (map (λ w. w.now) formals.now) actuals.now) }
{
    let mut pairs = Vec::new(alloc);
    'formals: for (k, formal) in formals.iter().enumerate() {
        pairs.push(PairDef {
            formal: Items::new(Vec::from_slice(alloc, formal)?),
            actual: actuals[k],
        })?;
    }
    Ok(pairs)
}

/// The use of a model, of a `.subckt` line.
pub fn new_inst<'a>(
    alloc: Global,
    names: &mut Names<'a>,
    words: &[&'a [u8]],
    line: u64,
) -> Result<Piece, Refusal>
    ensures steps { Steps result (subckt_fault names.old (map (λ w. w.now) words.now))
        (λ d. (names.new ≡ names_after names.old (map actual_of (drop 2 (map (λ w. w.now) words.now))))
        × (d ≡ new_inst names.old (map (λ w. w.now) words.now) line)) }
{
    if words.len() < 2 {
        return Err(Refusal::Kind(DesignKind::Word));
    }
    let Pairs { formals, actuals } = split_pairs(alloc, &words[2..])?;
    let numbers = names.numbers(alloc, &actuals)?;
    Ok(Piece::Inst {
        model: Items::new(Vec::from_slice(alloc, words[1])?),
        pairs: Items::new(pair_defs(alloc, &formals, &numbers)?),
        line,
    })
}
