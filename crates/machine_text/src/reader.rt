//! Reads a machine line by line.

ghost use Rattle.std.specs.Prelude.{◌≡◌, ◌≢◌, ◌∷◌, [], ◌+◌, ◌<◌, false, length, map, Some, None, ⊤, OnOk, IfOk, MatchOption, slice_index_or};
ghost use Rattle.machine_text.specs.Machine.{KeepsLimits};
ghost use Rattle.base_text.specs.Lines.{is_bad_line};
ghost use Rattle.machine_text.specs.declared.head.Head.TheVariants as head;
ghost use Rattle.machine_text.specs.Heads.{place_of, follow_of};
ghost use Rattle.machine_text.specs.Steps.{Steps};
ghost use Rattle.machine_text.specs.Reading.{value_of, counts_fault, form_fault, words_fault, said_fault, fault_of, with_numbers, after};
ghost use Rattle.machine_text.specs.Readers.{state_of, IsReader};

use crate::head::{self, Head};
use crate::kind::MachineKind;
use crate::said::Said;
use base_text::{Line, read_number};
use machine_shape::Shape;

/// The most that a count can be.
const MOST_COUNT: u64 = 65_535;

/// How many lines there are.
const LINES: usize = 9;

/// What the lines so far say.
#[derive(Debug, Drop)]
pub struct Reader {
    /// How many lines were read.
    pub read: usize,
    /// The form and the counts that they give; the others are 0.
    pub said: Said,
    /// The shape, once all lines were read.
    pub shape: Option<Shape>,
}

/// A count: a numeral from 1 to 65,535.
fn count(word: &[u8]) -> Result<u16, MachineKind>
    ensures { Steps result (counts_fault (word.now ∷ [])) (λ n. n ≡ value_of word.now) }
{
    let Some(n) = read_number(word, MOST_COUNT) else {
        return Err(MachineKind::Number);
    };
    if n == 0 {
        return Err(MachineKind::Number);
    }
    Ok(n as u16)
}

/// The number of a form: 1 or 2.
fn form(word: &[u8]) -> Result<u16, MachineKind>
    ensures { Steps result (form_fault word.now) (λ n. n ≡ value_of word.now) }
{
    match count(word) {
        Ok(n) => { if n < 3 { Ok(n) } else { Err(MachineKind::Word) } }
        Err(_) => Err(MachineKind::Word),
    }
}

/// The form that the only word gives.
fn one_form(words: &[&[u8]]) -> Result<u16, MachineKind>
    requires { length words.now ≡ 1 }
    ensures { Steps result (form_fault (slice_index_or (map (λ w. w.now) words.now) 0 []))
        (λ n. n ∷ [] ≡ map value_of (map (λ w. w.now) words.now)) }
{
    form(words[0])
}

/// As many counts as there are words.
fn read_counts(words: &[&[u8]], counts: &mut [u16]) -> Result<(), MachineKind>
    requires { length words.now ≡ length counts.old }
    ensures { Steps result (counts_fault (map (λ w. w.now) words.now)) (λ _. counts.new ≡ map value_of (map (λ w. w.now) words.now)) }
{
    for (i, word) in words.iter().enumerate() {
        match count(word) {
            Ok(n) => counts[i] = n,
            Err(kind) => return Err(kind),
        }
    }
    Ok(())
}

/// The count that the only word is.
fn one_count(words: &[&[u8]]) -> Result<u16, MachineKind>
    requires { length words.now ≡ 1 }
    ensures { Steps result (counts_fault (map (λ w. w.now) words.now)) (λ n. n ∷ [] ≡ map value_of (map (λ w. w.now) words.now)) }
{
    count(words[0])
}

/// The shape of the counts after the first form, which is small.
fn small_shape(said: Said) -> Result<Shape, MachineKind>
    requires { said.form ≡ 1 }
    ensures shape { IfOk result (λ s. (s.counts ≡ said.counts) × KeepsLimits said) }
    ensures steps { Steps result (words_fault said head.End []) (λ _. ⊤) }
{
    match Shape::new(said.counts) {
        Ok(shape) => Ok(shape),
        Err(_) => Err(MachineKind::Limit),
    }
}

/// The shape of the counts after the second form, which may be any.
fn any_shape(said: Said) -> Result<Shape, MachineKind>
    requires { said.form ≢ 1 }
    ensures shape { IfOk result (λ s. (s.counts ≡ said.counts) × KeepsLimits said) }
    ensures steps { Steps result (words_fault said head.End []) (λ _. ⊤) }
{
    match Shape::large(said.counts) {
        Ok(shape) => Ok(shape),
        Err(_) => Err(MachineKind::Limit),
    }
}

/// The shape of the counts, by the form.
fn shape_of(said: Said) -> Result<Shape, MachineKind>
    ensures shape { IfOk result (λ s. (s.counts ≡ said.counts) × KeepsLimits said) }
    ensures steps { Steps result (words_fault said head.End []) (λ _. ⊤) }
{
    if said.form == 1 {
        small_shape(said)
    } else {
        any_shape(said)
    }
}

/// Takes up what a line gives: the form, counts, or the shape at the last line.
fn take_words(said: &mut Said, head: Head, words: &[&[u8]]) -> Result<Option<Shape>, MachineKind>
    requires { length words.now ≡ follow_of head }
    ensures steps { Steps result (words_fault said.old head (map (λ w. w.now) words.now))
        (λ _. said.new ≡ with_numbers said.old head (map value_of (map (λ w. w.now) words.now))) }
    ensures shape { IfOk result (λ o. MatchOption o (place_of head < 8)
        (λ s. (place_of head ≡ 8) × (s.counts ≡ said.new.counts) × KeepsLimits said.new)) }
{
    match head {
        Head::Teramac => said.form = one_form(words)?,
        Head::Modules => said.counts.modules = one_count(words)?,
        Head::Chips => said.counts.chips = one_count(words)?,
        Head::Hextants => said.counts.hextants = one_count(words)?,
        Head::Tables => said.counts.tables = one_count(words)?,
        Head::Ports => read_counts(words, &mut said.counts.ports)?,
        Head::Lines => read_counts(words, &mut said.counts.lines)?,
        Head::Pins => said.counts.pins = one_count(words)?,
        Head::End => return Ok(Some(shape_of(*said)?)),
    }
    Ok(None)
}

/// Reads the words of a line.
fn take_said(reader: &mut Reader, words: &[&[u8]]) -> Result<(), MachineKind>
    requires some { 0 < length words.now }
    requires kept { IsReader reader.old }
    ensures steps { Steps result (said_fault (state_of reader.old) (map (λ w. w.now) words.now))
        (λ _. state_of reader.new ≡ after (state_of reader.old) (map (λ w. w.now) words.now)) }
    ensures kept { OnOk result (IsReader reader.new) }
{
    if reader.read >= LINES {
        return Err(MachineKind::After);
    }
    let Some(head) = head::head_of(words[0]) else {
        return Err(MachineKind::Word);
    };
    if head.place() != reader.read {
        return Err(MachineKind::Order);
    }
    if words.len() != 1 + head.follow() {
        return Err(MachineKind::Word);
    }
    reader.shape = take_words(&mut reader.said, head, &words[1..])?;
    reader.read += 1;
    Ok(())
}

/// Reads one line.
pub fn take_line(reader: &mut Reader, line: &Line) -> Result<(), MachineKind>
    requires some { 0 < length line.now.words }
    requires sound { is_bad_line line.now ≡ false }
    requires kept { IsReader reader.old }
    ensures steps { Steps result (fault_of (state_of reader.old) line.now)
        (λ _. state_of reader.new ≡ after (state_of reader.old) line.now.words) }
    ensures kept { OnOk result (IsReader reader.new) }
{
    take_said(reader, line.words())
}
