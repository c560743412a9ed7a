//! Reads the words of a line.

ghost use Rattle.std.specs.Prelude.{◌≡◌, ◌≢◌, ◌<◌, ◌∷◌, [], ℕ, Bool, length, map, if◌then◌else◌, MatchOption, MatchResult};
ghost use Rattle.machine_shape.specs.Vocabulary.{wires_of, crosses_of, wire_name};
ghost use Rattle.machine_faults.specs.Adding.{CanHave};
ghost use Rattle.machine_faults.specs.Heads.{word_of, follow_of};
ghost use Rattle.machine_faults.specs.Text.{bit_word, fault_words, end_names};
ghost use Rattle.machine_faults.specs.Refusals.{AreWireNames, IsNoFault, IsRestFault, IsNoEntry};
ghost use Rattle.machine_faults.specs.declared.head.Head.TheVariants as heads;

use crate::fault::Fault;
use crate::head::{self, Head};
use crate::kind::FaultsKind;
use base_table::TABLE_CELLS;
use base_text::read_number;
use machine_shape::{Cross, Shape, Wire};

/// The wire that the only word names.
fn one_wire(shape: &Shape, words: &[&[u8]]) -> Option<Wire>
    requires { length words.now ≡ 1 }
    ensures { MatchOption result (¬ AreWireNames shape.now (map (λ w. w.now) words.now))
        (λ w. (w.0 < wires_of shape.now) × (wire_name shape.now w.0 ∷ [] ≡ map (λ w. w.now) words.now)) }
{
    let wire = shape.wire_of(words[0])?;
    Some(wire)
}

/// The two wires that the words name.
fn two_wires(shape: &Shape, words: &[&[u8]]) -> Option<(Wire, Wire)>
    requires { length words.now ≡ 2 }
    ensures { MatchOption result (¬ AreWireNames shape.now (map (λ w. w.now) words.now))
        (λ p. (p.0.0 < wires_of shape.now) × (p.1.0 < wires_of shape.now)
        × (wire_name shape.now p.0.0 ∷ wire_name shape.now p.1.0 ∷ [] ≡ map (λ w. w.now) words.now)) }
{
    let a = shape.wire_of(words[0])?;
    let b = shape.wire_of(words[1])?;
    Some((a, b))
}

/// The crosspoint of a tap and a line.
fn cross_of(shape: &Shape, tap: Wire, line: Wire) -> Option<Cross>
    requires tap { tap.0 < wires_of shape.now }
    requires line { line.0 < wires_of shape.now }
    ensures { MatchOption result ((x : ℕ) → x < crosses_of shape.now →
        end_names shape.now x ≢ wire_name shape.now tap.0 ∷ wire_name shape.now line.0 ∷ [])
        (λ x. (x.0 < crosses_of shape.now) × (end_names shape.now x.0 ≡ wire_name shape.now tap.0 ∷ wire_name shape.now line.0 ∷ [])) }
{
    machine_shape::names_are_one_to_one();
    machine_shape::the_numbering_is_sound();
    shape.cross(tap, line)
}

/// The stuck crosspoint whose tap and line the words name.
fn crossing(shape: &Shape, words: &[&[u8]], closed: bool) -> Result<Fault, FaultsKind>
    requires { length words.now ≡ 2 }
    ensures { MatchResult result (λ x. CanHave shape.now x
        × (fault_words shape.now x ≡ word_of (if closed then heads.Closed else heads.Open) ∷ map (λ w. w.now) words.now))
        (IsRestFault shape.now (if closed then heads.Closed else heads.Open) (map (λ w. w.now) words.now)) }
{
    let Some((tap, line)) = two_wires(shape, words) else {
        return Err(FaultsKind::Wire);
    };
    match cross_of(shape, tap, line) {
        Some(cross) => Ok(Fault::CrossStuck { cross, closed }),
        None => Err(FaultsKind::Cross),
    }
}

/// A value: 0 or 1.
fn bit(word: &[u8]) -> Option<bool>
    ensures { MatchOption result ((b : Bool) → bit_word b ≢ word.now) (λ b. bit_word b ≡ word.now) }
{
    if word == b"0".as_slice() {
        Some(false)
    } else if word == b"1".as_slice() {
        Some(true)
    } else {
        None
    }
}

/// The cell that a table's name, an address and a value give.
fn cell(shape: &Shape, words: &[&[u8]]) -> Option<Fault>
    requires { length words.now ≡ 3 }
    ensures { MatchOption result (IsNoFault shape.now heads.Cell (map (λ w. w.now) words.now))
        (λ x. CanHave shape.now x × (fault_words shape.now x ≡ word_of heads.Cell ∷ map (λ w. w.now) words.now)) }
{
    let table = shape.table_of(words[0])?;
    let address = read_number(words[1], TABLE_CELLS as u64 - 1)?;
    let value = bit(words[2])?;
    Some(Fault::Cell {
        table,
        address: address as u8,
        value,
    })
}

/// The register that a table's name and a value give.
fn register(shape: &Shape, words: &[&[u8]]) -> Option<Fault>
    requires { length words.now ≡ 2 }
    ensures { MatchOption result (IsNoFault shape.now heads.Register (map (λ w. w.now) words.now))
        (λ x. CanHave shape.now x × (fault_words shape.now x ≡ word_of heads.Register ∷ map (λ w. w.now) words.now)) }
{
    let table = shape.table_of(words[0])?;
    let value = bit(words[1])?;
    Some(Fault::Register { table, value })
}

/// The fault that the words behind a first word give.
fn fault_of(shape: &Shape, head: Head, words: &[&[u8]]) -> Result<Fault, FaultsKind>
    requires { length words.now ≡ follow_of head }
    ensures { MatchResult result (λ x. CanHave shape.now x × (fault_words shape.now x ≡ word_of head ∷ map (λ w. w.now) words.now))
        (IsRestFault shape.now head (map (λ w. w.now) words.now)) }
{
    match head {
        Head::Stuck0 => match one_wire(shape, words) {
            Some(wire) => Ok(Fault::Stuck { wire, value: false }),
            None => Err(FaultsKind::Wire),
        },
        Head::Stuck1 => match one_wire(shape, words) {
            Some(wire) => Ok(Fault::Stuck { wire, value: true }),
            None => Err(FaultsKind::Wire),
        },
        Head::Open => crossing(shape, words, false),
        Head::Closed => crossing(shape, words, true),
        Head::Cell => cell(shape, words).ok_or(FaultsKind::Cell),
        Head::Register => register(shape, words).ok_or(FaultsKind::Register),
        Head::Bridge => match two_wires(shape, words) {
            Some((a, b)) => Ok(Fault::Bridge { a, b }),
            None => Err(FaultsKind::Wire),
        },
    }
}

/// The first word, and those behind it.
fn parted<'a, 'b>(words: &'b [&'a [u8]]) -> (&'a [u8], &'b [&'a [u8]])
    requires { 0 < length words.now }
    ensures { result.0.now ∷ map (λ w. w.now) result.1.now ≡ map (λ w. w.now) words.now }
{
    (words[0], &words[1..])
}

/// The fault that the words of a line give.
pub fn entry_of(shape: &Shape, words: &[&[u8]]) -> Result<Fault, FaultsKind>
    requires { 0 < length words.now }
    ensures { MatchResult result (λ x. CanHave shape.now x × (fault_words shape.now x ≡ map (λ w. w.now) words.now))
        (IsNoEntry shape.now (map (λ w. w.now) words.now)) }
{
    let (first, rest) = parted(words);
    let Some(head) = head::head_of(first) else {
        return Err(FaultsKind::Word);
    };
    if rest.len() != head.follow() {
        return Err(FaultsKind::Word);
    }
    fault_of(shape, head, rest)
}
