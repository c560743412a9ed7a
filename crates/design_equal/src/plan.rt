//! The search for the steps from the inputs of a cover to its output. Nothing is promised of what it finds: `steps` looks at it.
//!
//! A node of an input that follows from lower ones of them, by a short walk, has the word that follows; each other one gets a pin
//! of its own. Walks go down without recursion.

use crate::graph::Graph;
use crate::nodes::gate_at;
use std::alloc::{AllocError, Global};

/// How many ANDs a walk to a node of an input looks at.
const SHORT: u32 = 32;

/// Where a node's word comes from.
#[derive(Clone, Copy, Debug, PartialEq, Eq)]
pub enum Source {
    /// It is the constant 0.
    Zero,
    /// It is that of the pin.
    Pin(u32),
    /// It is an AND of two literals of steps: twice a step's place, or one more.
    Gate(u32, u32),
}

/// A node of the graph, and where its word comes from.
#[derive(Clone, Copy, Debug, PartialEq, Eq)]
pub struct Step {
    pub node: u32,
    pub from: Source,
}

/// How the word of a cover's output follows from those of its inputs.
#[derive(Debug, Drop)]
pub struct Plan {
    /// The nodes whose words are chosen freely.
    pub pins: Vec<u32>,
    /// The nodes that have words, each after those that it reads.
    pub steps: Vec<Step>,
    /// For each input of the cover the literal of a step.
    pub ins: Vec<u32>,
    /// The literal of a step that is the output.
    pub root: u32,
}

/// Where the nodes stand among the steps of a plan, and those that are still to be looked at.
#[derive(Debug, Drop)]
pub struct Scratch {
    places: Vec<u32>,
    turns: Vec<u32>,
    turn: u32,
    waiting: Vec<u32>,
}

/// A way down from a node: how low it may lead, and how many ANDs may be looked at.
#[derive(Clone, Copy, Debug)]
struct Walk {
    root: u32,
    floor: u32,
    most: u32,
}

impl Scratch {
    /// No node has a place.
    pub fn new(alloc: Global, nodes: usize) -> Result<Self, AllocError> {
        Ok(Scratch {
            places: vec![in alloc; 0; nodes]?,
            turns: vec![in alloc; 0; nodes]?,
            turn: 0,
            waiting: Vec::new(alloc),
        })
    }

    /// Forgets all places.
    pub fn begin(&mut self) {
        self.turn = self.turn.saturating_add(1);
    }

    fn place_of(&self, node: u32) -> Option<u32> {
        let k = node as usize;
        if k < self.turns.len() && k < self.places.len() && self.turns[k] == self.turn {
            return Some(self.places[k]);
        }
        None
    }

    /// Whether a node has a place.
    pub fn has(&self, node: u32) -> bool {
        self.place_of(node).is_some()
    }

    /// The literal of a step that stands for one of the graph.
    fn local_of(&self, literal: u32) -> Option<u32> {
        match self.place_of(literal / 2) {
            None => None,
            Some(place) => Some(place.saturating_mul(2).saturating_add(literal % 2)),
        }
    }

    /// Gives a node a place.
    pub fn put(&mut self, node: u32, place: usize) {
        let k = node as usize;
        if k < self.turns.len() && k < self.places.len() {
            self.places[k] = u32::try_from(place).unwrap_or(u32::MAX);
            self.turns[k] = self.turn;
        }
    }

    fn wait(&mut self, node: u32) -> Result<(), AllocError> {
        self.waiting.push(node)?;
        Ok(())
    }
}

/// Adds a step for the node.
fn push_step(
    plan: &mut Plan,
    scratch: &mut Scratch,
    node: u32,
    from: Source,
) -> Result<(), AllocError> {
    scratch.put(node, plan.steps.len());
    plan.steps.push(Step { node, from })?;
    Ok(())
}

/// Adds a step for an AND whose literals have steps, or lets those wait that have none. False where the node is no AND.
fn visit(
    graph: &Graph,
    scratch: &mut Scratch,
    plan: &mut Plan,
    node: u32,
) -> Result<bool, AllocError> {
    let Some(gate) = gate_at(graph, node) else {
        return Ok(false);
    };
    let left = scratch.local_of(gate.left);
    let right = scratch.local_of(gate.right);
    if let Some(left) = left {
        if let Some(right) = right {
            push_step(plan, scratch, node, Source::Gate(left, right))?;
            return Ok(true);
        }
    }
    if left.is_none() {
        scratch.wait(gate.left / 2)?;
    }
    if right.is_none() {
        scratch.wait(gate.right / 2)?;
    }
    Ok(true)
}

/// Adds the steps that lead to a node from those that are there. False where there is no way.
fn derive(
    graph: &Graph,
    scratch: &mut Scratch,
    plan: &mut Plan,
    walk: Walk,
) -> Result<bool, AllocError> {
    scratch.waiting.clear();
    scratch.wait(walk.root)?;
    let mut left = walk.most;
    'walk: for _turn in 0..walk.most.saturating_mul(3).saturating_add(2) {
        let Some(node) = scratch.waiting.pop() else {
            return Ok(true);
        };
        if scratch.place_of(node).is_some() {
            continue;
        }
        if node < walk.floor || left == 0 {
            return Ok(false);
        }
        left -= 1;
        scratch.wait(node)?;
        if !visit(graph, scratch, plan, node)? {
            return Ok(false);
        }
    }
    Ok(false)
}

/// The nodes of the literals.
fn all_nodes(alloc: Global, literals: &[u32]) -> Result<Vec<u32>, AllocError> {
    let mut nodes = Vec::new(alloc);
    'literals: for k in 0..literals.len() {
        nodes.push(literals[k] / 2)?;
    }
    Ok(nodes)
}

/// The nodes of the literals, ascending, each once.
fn nodes_of(alloc: Global, literals: &[u32]) -> Result<Vec<u32>, AllocError> {
    let mut all = all_nodes(alloc, literals)?;
    all.sort_unstable();
    let mut nodes = Vec::new(alloc);
    let mut last = None;
    'nodes: for k in 0..all.len() {
        if last != Some(all[k]) {
            nodes.push(all[k])?;
        }
        last = Some(all[k]);
    }
    Ok(nodes)
}

/// Gives each node of an input a step: those that follow from lower ones by a short walk, and others by pins. False where more
/// than so many pins are wanted.
fn put_inputs(
    graph: &Graph,
    scratch: &mut Scratch,
    plan: &mut Plan,
    nodes: &[u32],
    most: usize,
) -> Result<bool, AllocError> {
    let mut floor = 0;
    'nodes: for k in 0..nodes.len() {
        let root = nodes[k];
        if k == 0 {
            floor = root.max(1);
        }
        let walk = Walk {
            root,
            floor,
            most: SHORT,
        };
        if scratch.place_of(root).is_some() || derive(graph, scratch, plan, walk)? {
            continue;
        }
        let pin = plan.pins.len();
        if pin >= most {
            return Ok(false);
        }
        plan.pins.push(root)?;
        push_step(
            plan,
            scratch,
            root,
            Source::Pin(u32::try_from(pin).unwrap_or(0)),
        )?;
    }
    Ok(true)
}

/// The literals of steps that stand for the inputs.
fn push_locals(scratch: &Scratch, plan: &mut Plan, ins: &[u32]) -> Result<bool, AllocError> {
    'ins: for k in 0..ins.len() {
        let Some(local) = scratch.local_of(ins[k]) else {
            return Ok(false);
        };
        plan.ins.push(local)?;
    }
    Ok(true)
}

/// What a plan is asked for: how many pins it may have, and how many ANDs the walk to the output may look at.
#[derive(Clone, Copy, Debug)]
pub struct Limits {
    pub pins: usize,
    pub ands: u32,
}

/// The steps from the literals of the inputs to that of the output, or None where no way is found.
pub fn plan_of(
    alloc: Global,
    graph: &Graph,
    scratch: &mut Scratch,
    ins: &[u32],
    root: u32,
    limits: Limits,
) -> Result<Option<Plan>, AllocError> {
    let nodes = nodes_of(alloc, ins)?;
    let mut plan = Plan {
        pins: Vec::new(alloc),
        steps: Vec::new(alloc),
        ins: Vec::new(alloc),
        root: 0,
    };
    scratch.begin();
    push_step(&mut plan, scratch, 0, Source::Zero)?;
    if !put_inputs(graph, scratch, &mut plan, &nodes, limits.pins)? {
        return Ok(None);
    }
    let walk = Walk {
        root: root / 2,
        floor: 0,
        most: limits.ands,
    };
    if !derive(graph, scratch, &mut plan, walk)? || !push_locals(scratch, &mut plan, ins)? {
        return Ok(None);
    }
    let Some(local) = scratch.local_of(root) else {
        return Ok(None);
    };
    plan.root = local;
    Ok(Some(plan))
}
