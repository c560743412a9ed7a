//! The cells with which a cover is compared.

use crate::graph::Graph;
use crate::nodes::node_count;
use crate::plan::{Limits, Plan, Scratch, Source, Step, plan_of};
use crate::words::{fill_words, literal_word};
use design_netlist::lane_word;
use std::alloc::{AllocError, Global};

/// How many ANDs the walk to the output looks at.
const WALK: u32 = 60_000;

/// How far apart lanes are that differ in a pin alone.
const FAR: [u32; 6] = [1, 2, 4, 8, 16, 32];

/// The first input of the node.
fn first_of(ins: &[u32], node: u32) -> Option<u32> {
    'ins: for k in 0..ins.len() {
        if ins[k] / 2 == node {
            return u32::try_from(k).ok();
        }
    }
    None
}

/// Numbers pins by the first inputs of their nodes.
fn number_pins(plan: &mut Plan, ins: &[u32]) {
    'steps: for k in 0..plan.steps.len() {
        let step = plan.steps[k];
        if let Source::Pin(_pin) = step.from {
            let pin = first_of(ins, step.node).unwrap_or(0);
            plan.steps[k] = Step {
                node: step.node,
                from: Source::Pin(pin),
            };
        }
    }
}

/// The word where the bits of a pin are exchanged.
fn turn_word(word: u64, pin: usize) -> u64 {
    if pin >= 6 {
        return word;
    }
    let mask = lane_word(pin);
    let down = word & mask;
    let up = word & !mask;
    down.checked_shr(FAR[pin]).unwrap_or(0) | up.checked_shl(FAR[pin]).unwrap_or(0)
}

/// The word by the inputs' own bits in place of those of their nodes.
fn by_inputs(word: u64, ins: &[u32]) -> u64 {
    let mut cells = word;
    'ins: for k in 0..ins.len() {
        if ins[k] % 2 == 1 {
            cells = turn_word(cells, k);
        }
    }
    cells
}

/// The cells of a table whose inputs and output have these labels: cell `a` is the bit of the output where the k-th input has bit
/// k of `a`. Where inputs follow from others, cells that are never read have some bit. None where there are more than six inputs,
/// or no short way leads from them to the output.
///
/// # Errors
///
/// Where memory is lacking.
pub fn cells_at(
    alloc: Global,
    graph: &Graph,
    ins: &[u32],
    root: u32,
) -> Result<Option<u64>, AllocError> {
    if ins.len() > 6 {
        return Ok(None);
    }
    let mut scratch = Scratch::new(alloc, node_count(graph))?;
    let limits = Limits {
        pins: 6,
        ands: WALK,
    };
    let Some(mut plan) = plan_of(alloc, graph, &mut scratch, ins, root, limits)? else {
        return Ok(None);
    };
    number_pins(&mut plan, ins);
    let mut words = vec![in alloc; 0; plan.steps.len()]?;
    fill_words(plan.steps.as_slice(), 0, &mut words);
    let word = literal_word(words.as_slice(), plan.root);
    Ok(Some(by_inputs(word, ins)))
}
