//! Whether steps lead from the inputs of a cover to its output, as the search says.

ghost use Rattle.std.specs.Prelude.{◌≡◌, ◌<◌, ◌≤◌, ℕ, length, IsTrue};
ghost use Rattle.design_netlist.specs.Valuations.{number_at};
ghost use Rattle.design_equal.specs.Labels.{label_at};
ghost use Rattle.design_equal.specs.Plans.{StandsFor, IsGate, IsFrom, AreSteps, AreInputs, IsPlan};

use crate::graph::Graph;
use crate::nodes::first_and;
use crate::plan::{Plan, Source, Step};
use design_netlist::Cover;

/// How many pins a plan has at most: six that a lane spells, and eight that a pass does.
pub const MOST_PINS: usize = 14;

/// The label of a signal.
pub fn label_at(labels: &[u32], signal: u32) -> u32
    ensures { result ≡ label_at labels.now signal }
{
    let k = signal as usize;
    if k < labels.len() { labels[k] } else { 0 }
}

/// Whether the literal of a step below stands for one of the graph.
fn stands_for(steps: &[Step], below: usize, local: u32, literal: u32) -> bool
    requires { below ≤ length steps.now }
    ensures { IsTrue result → StandsFor steps.now below local literal }
{
    let place = (local / 2) as usize;
    if place >= below {
        return false;
    }
    if steps[place].node != literal / 2 {
        return false;
    }
    local % 2 == literal % 2
}

/// Whether the node is an AND, and both literals stand for what it reads.
fn is_gate(graph: &Graph, steps: &[Step], below: usize, node: u32, left: u32, right: u32) -> bool
    requires { below ≤ length steps.now }
    ensures { IsTrue result → (k : ℕ) × IsGate graph.now steps.now below node left right k }
{
    let first = first_and(graph);
    let ands = graph.ands.as_slice();
    let node = node as usize;
    if node < first {
        return false;
    }
    let k = node - first;
    if k >= ands.len() {
        return false;
    }
    let gate = ands[k];
    if !stands_for(steps, below, left, gate.left) {
        return false;
    }
    stands_for(steps, below, right, gate.right)
}

/// Whether the pin is the node's.
fn is_pin(pins: &[u32], pin: u32, node: u32) -> bool
    ensures within { IsTrue result → pin < length pins.now }
    ensures node { IsTrue result → number_at pins.now pin ≡ node }
{
    let k = pin as usize;
    if k >= pins.len() {
        return false;
    }
    pins[k] == node
}

/// Whether a step's word comes from where it says.
fn is_step(graph: &Graph, pins: &[u32], steps: &[Step], below: usize, step: Step) -> bool
    requires { below ≤ length steps.now }
    ensures { IsTrue result → IsFrom graph.now pins.now steps.now below step.node step.from }
{
    match step.from {
        Source::Zero => step.node == 0,
        Source::Pin(pin) => is_pin(pins, pin, step.node),
        Source::Gate(left, right) => is_gate(graph, steps, below, step.node, left, right),
    }
}

fn are_steps(graph: &Graph, pins: &[u32], steps: &[Step]) -> bool
    ensures { IsTrue result → AreSteps graph.now pins.now steps.now }
{
    'steps: for k in 0..steps.len() {
        if !is_step(graph, pins, steps, k, steps[k]) {
            return false;
        }
    }
    true
}

/// Whether each input's literal of a step stands for its label.
fn are_inputs(steps: &[Step], places: &[u32], ins: &[u32], labels: &[u32]) -> bool
    ensures { IsTrue result → AreInputs steps.now places.now ins.now labels.now }
{
    if places.len() < ins.len() {
        return false;
    }
    'ins: for k in 0..ins.len() {
        let literal = label_at(labels, ins[k]);
        if !stands_for(steps, steps.len(), places[k], literal) {
            return false;
        }
    }
    true
}

/// Whether the plan is one from the inputs of the cover to its output.
pub fn is_plan(graph: &Graph, labels: &[u32], cover: &Cover, plan: &Plan) -> bool
    ensures { IsTrue result → IsPlan graph.now labels.now cover.now plan.now }
{
    let steps = plan.steps.as_slice();
    if plan.pins.len() > MOST_PINS {
        return false;
    }
    if !are_steps(graph, plan.pins.as_slice(), steps) {
        return false;
    }
    if !are_inputs(steps, plan.ins.as_slice(), cover.ins.as_slice(), labels) {
        return false;
    }
    let literal = label_at(labels, cover.out);
    stands_for(steps, steps.len(), plan.root, literal)
}
