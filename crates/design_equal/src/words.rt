//! The words of steps: each bit of them belongs to one choice of bits for the pins.

ghost use Rattle.std.specs.Prelude.{◌≡◌, ◌<◌, ◌≤◌, ◌&&◌, ℕ, Bool, List, length, not, if◌then◌else◌};
ghost use Rattle.design_netlist.specs.Vocabulary.{is_bit, number_at, AreBelow};
ghost use Rattle.design_equal.specs.declared.graph.Graph.{Graph};
ghost use Rattle.design_equal.specs.declared.plan.Step.{Step};
ghost use Rattle.design_equal.specs.Graphs.{literal_in};
ghost use Rattle.design_equal.specs.Plans.{AreAt, AreInputs, AreSteps, HaveInputs, HaveWords, IsFrom, pin_bit};

use crate::plan::{Source, Step};
use design_netlist::lane_word;

/// The bit of a number.
fn bit_in(word: u64, place: u32) -> bool
    requires { place < 64 }
    ensures { result ≡ is_bit word place }
{
    (word >> place) & 1 == 1
}

/// The word with the bit in all lanes.
fn constant_word(bit: bool) -> u64
    ensures { (lane : ℕ) → lane < 64 → is_bit result lane ≡ bit }
{
    if bit { u64::MAX } else { 0 }
}

/// The word of a pin in a pass.
fn pin_word(pin: u32, pass: u64) -> u64
    ensures { pin < 14 → (lane : ℕ) → lane < 64 → is_bit result lane ≡ pin_bit pass lane pin }
{
    if pin < 6 {
        return lane_word(pin as usize);
    }
    let place = pin - 6;
    if place >= 64 {
        return 0;
    }
    let bit = bit_in(pass, place);
    constant_word(bit)
}

/// The word, or its opposite.
fn sign_word(word: u64, negated: bool) -> u64
    ensures { (lane : ℕ) → lane < 64 → is_bit result lane ≡ (if negated then not (is_bit word lane) else is_bit word lane) }
{
    if negated { !word } else { word }
}

fn word_at(words: &[u64], place: usize) -> u64
    ensures { result ≡ number_at words.now place }
{
    if place < words.len() { words[place] } else { 0 }
}

/// The word of a step's literal.
pub fn literal_word(words: &[u64], local: u32) -> u64
    ensures { (lane : ℕ) → lane < 64 → is_bit result lane ≡ literal_in (λ place. is_bit (number_at words.now place) lane) local }
{
    let word = word_at(words, (local / 2) as usize);
    sign_word(word, local % 2 == 1)
}

/// The word of an AND.
fn gate_word(words: &[u64], left: u32, right: u32) -> u64
    ensures { (lane : ℕ) → lane < 64 → is_bit result lane ≡ (literal_in (λ place. is_bit (number_at words.now place) lane) left
        && literal_in (λ place. is_bit (number_at words.now place) lane) right) }
{
    let left_word = literal_word(words, left);
    let right_word = literal_word(words, right);
    left_word & right_word
}

/// The word of a step's node, from those of the steps below.
fn step_word(step: Step, pass: u64, words: &[u64]) -> u64
    ensures { (g : Graph) (pins : List ℕ) (steps : List Step) (below : ℕ) → length pins ≤ 14
        → IsFrom g pins steps below step.node step.from → HaveWords g pins steps pass words.now below
        → (bits : ℕ → Bool) (lane : ℕ) → AreAt g pins pass lane bits → is_bit result lane ≡ bits step.node }
{
    match step.from {
        Source::Zero => 0,
        Source::Pin(pin) => pin_word(pin, pass),
        Source::Gate(left, right) => gate_word(words, left, right),
    }
}

/// Gives each step the word of its node in a pass. Takes no memory.
pub fn fill_words(steps: &[Step], pass: u64, words: &mut Vec<u64>)
    requires { length words.old.items ≡ length steps.now }
    ensures size { length words.new.items ≡ length steps.now }
    ensures words { (g : Graph) (pins : List ℕ) → length pins ≤ 14 → AreSteps g pins steps.now
        → HaveWords g pins steps.now pass words.new.items (length steps.now) }
{
    'steps: for k in 0..steps.len() {
        let word = step_word(steps[k], pass, words.as_slice());
        words[k] = word;
    }
}

fn number_at(numbers: &[u32], place: usize) -> u32
    ensures { result ≡ number_at numbers.now place }
{
    if place < numbers.len() {
        numbers[place]
    } else {
        0
    }
}

/// Gives each signal that is read the word of its label, which is that of a step's literal. Takes no memory.
pub fn put_inputs(ins: &[u32], places: &[u32], words: &[u64], signals: &mut Vec<u64>)
    requires { AreBelow (length signals.old.items) ins.now }
    ensures size { length signals.new.items ≡ length signals.old.items }
    ensures inputs { (g : Graph) (pins : List ℕ) (steps : List Step) (pass : ℕ) (labels : List ℕ)
        → AreInputs steps places.now ins.now labels → HaveWords g pins steps pass words.now (length steps)
        → HaveInputs g pins pass ins.now labels signals.new.items (length ins.now) }
{
    'ins: for k in 0..ins.len() {
        let local = number_at(places, k);
        let word = literal_word(words, local);
        signals[ins[k] as usize] = word;
    }
}
