//! Covers and the labels of their signals.

ghost use Rattle.std.specs.Prelude.{◌≡◌, ◌≤◌, ◌-◌, ◌^◌, ℕ, List, length, IfOk, IsTrue};
ghost use Rattle.design_netlist.specs.Covers.{IsCoverOver};
ghost use Rattle.design_equal.specs.declared.graph.Graph.{Graph};
ghost use Rattle.design_equal.specs.Plans.{IsMet, IsMetIn, IsPlan};

use crate::graph::Graph;
use crate::plan::{Limits, Plan, Scratch, plan_of};
use crate::steps::{MOST_PINS, is_plan, label_at};
use crate::words::{fill_words, literal_word, put_inputs};
use design_netlist::{Cover, cover_word};
use std::alloc::{AllocError, Global};

/// How many literals the passes for a wide cover look at, at most.
const MOST_LITERALS: u64 = 8_000_000;

/// How many ANDs the walk to the output of a cover looks at.
const WALK: u32 = 60_000;

/// How many passes there are for so many pins.
const PASSES: [u64; 15] = [1, 1, 1, 1, 1, 1, 1, 2, 4, 8, 16, 32, 64, 128, 256];

fn pass_count(pins: usize) -> u64
    requires { pins ≤ 14 }
    ensures { result ≡ 2 ^ (pins - 6) }
{
    PASSES[pins]
}

/// Whether the output's label has the cover's truth in all lanes of a pass.
fn is_met_in(
    cover: &Cover,
    plan: &Plan,
    pass: u64,
    words: &mut Vec<u64>,
    signals: &mut Vec<u64>,
) -> bool
    requires words { length words.old.items ≡ length plan.now.steps.items }
    requires made { IsCoverOver cover.now (length signals.old.items) }
    ensures words { length words.new.items ≡ length plan.now.steps.items }
    ensures signals { length signals.new.items ≡ length signals.old.items }
    ensures met { IsTrue result → (g : Graph) (labels : List ℕ) → IsPlan g labels cover.now plan.now
        → IsMetIn g plan.now.pins.items labels cover.now pass }
{
    fill_words(plan.steps.as_slice(), pass, words);
    put_inputs(
        cover.ins.as_slice(),
        plan.ins.as_slice(),
        words.as_slice(),
        signals,
    );
    let due = cover_word(cover, signals.as_slice());
    let word = literal_word(words.as_slice(), plan.root);
    due == word
}

/// Whether it has so in all passes.
fn is_met_by(cover: &Cover, plan: &Plan, words: &mut Vec<u64>, signals: &mut Vec<u64>) -> bool
    requires words { length words.old.items ≡ length plan.now.steps.items }
    requires made { IsCoverOver cover.now (length signals.old.items) }
    requires few { length plan.now.pins.items ≤ 14 }
    ensures signals { length signals.new.items ≡ length signals.old.items }
    ensures met { IsTrue result → (g : Graph) (labels : List ℕ) → IsPlan g labels cover.now plan.now → IsMet g labels cover.now }
{
    let count = pass_count(plan.pins.as_slice().len());
    'passes: for pass in 0..count {
        if !is_met_in(cover, plan, pass, words, signals) {
            return false;
        }
    }
    true
}

/// The labels of the signals.
fn labels_of(alloc: Global, signals: &[u32], labels: &[u32]) -> Result<Vec<u32>, AllocError> {
    let mut list = Vec::new(alloc);
    'signals: for k in 0..signals.len() {
        list.push(label_at(labels, signals[k]))?;
    }
    Ok(list)
}

/// Whether the passes for so many pins look at few enough literals.
fn is_within_work(cover: &Cover, pins: usize) -> bool {
    let rows = cover.rows.as_slice().len() as u64;
    let ins = cover.ins.as_slice().len() as u64;
    let passes = if pins <= MOST_PINS {
        PASSES[pins]
    } else {
        u64::MAX
    };
    passes == 1 || rows.saturating_mul(ins).saturating_mul(passes) <= MOST_LITERALS
}

/// Whether the label of the cover's output has its truth for the bits of its inputs' labels, whatever the graph's inputs and
/// latches: compared in words. The signals' words are overwritten.
pub fn is_met(
    alloc: Global,
    graph: &Graph,
    labels: &[u32],
    cover: &Cover,
    scratch: &mut Scratch,
    signals: &mut Vec<u64>,
) -> Result<bool, AllocError>
    requires made { IsCoverOver cover.now (length signals.old.items) }
    ensures signals { length signals.new.items ≡ length signals.old.items }
    ensures met { IfOk result (λ met. IsTrue met → IsMet graph.now labels.now cover.now) }
{
    let ins = labels_of(alloc, cover.ins.as_slice(), labels)?;
    let root = label_at(labels, cover.out);
    let limits = Limits {
        pins: MOST_PINS,
        ands: WALK,
    };
    let Some(plan) = plan_of(alloc, graph, scratch, ins.as_slice(), root, limits)? else {
        return Ok(false);
    };
    if !is_within_work(cover, plan.pins.len()) {
        return Ok(false);
    }
    if !is_plan(graph, labels, cover, &plan) {
        return Ok(false);
    }
    let mut words = vec![in alloc; 0; plan.steps.len()]?;
    Ok(is_met_by(cover, &plan, &mut words, signals))
}
