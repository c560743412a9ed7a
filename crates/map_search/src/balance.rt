//! A design as wide ANDs: what one AND alone reads, not negated, is one with it. Their decomposition anew makes trees of chains.

use crate::covers::Mapped;
use crate::graph::Made;
use crate::names::{FreeNames, name_of};
use crate::numbers::{at, is_marked, literal_of, node_of, set, small};
use crate::reach::{Nodes, Reach, needs_latch, reach_of};
use base_lists::Items;
use design_equal::{And, Graph};
use design_netlist::{Cover, Cube, LatchDef, Lit, Names, Netlist, NetlistData, PortDef};
use std::alloc::{AllocError, Global};

/// How many literals a wide AND reads, at most: as many as a tree of tables three deep does.
const MOST_WIDE: u32 = 216;

/// No signal.
const NOWHERE: u32 = u32::MAX;

/// A design of wide ANDs while it is made.
#[derive(Drop)]
struct Wide<'a> {
    alloc: Global,
    old: &'a NetlistData,
    graph: &'a Graph,
    labels: &'a [u32],
    free: FreeNames,
    names: Names,
    new_labels: Vec<u32>,
    /// The signal of each node, and of each old signal whose name stays.
    of_node: Vec<u32>,
    of_signal: Vec<u32>,
    covers: Items<Cover>,
}

/// Inputs, and latches with the labels of what they read.
#[derive(Drop)]
struct Front {
    inputs: Items<PortDef>,
    read: Vec<LatchDef>,
}

/// Outputs, and latches.
#[derive(Drop)]
struct Back {
    outputs: Items<PortDef>,
    latches: Items<LatchDef>,
}

// Counts a literal that is read; whether its node may be one with its reader is seen by that.
fn count(refs: &mut Vec<u32>, literal: u32) {
    let node = node_of(literal);
    if node < refs.len() {
        // A negated one counts twice, so that it is never the one that is read once.
        refs[node] = refs[node].saturating_add(1).saturating_add(literal & 1);
    }
}

// Counts what live ANDs read.
fn count_ands(refs: &mut Vec<u32>, nodes: Nodes<'_>, reach: &Reach) {
    'nodes: for node in 0..nodes.count() {
        if let Some(and) = nodes.and(node) {
            if is_marked(&reach.live, node) {
                count(refs, and.left);
                count(refs, and.right);
            }
        }
    }
}

// How often nodes are read.
fn refs_of(alloc: Global, nodes: Nodes<'_>, reach: &Reach) -> Result<Vec<u32>, AllocError> {
    let mut refs = vec![in alloc; 0; nodes.count()]?;
    count_ands(&mut refs, nodes, reach);
    'roots: for root in &reach.roots {
        count(&mut refs, literal_of(*root as usize) ^ 1);
    }
    Ok(refs)
}

// How many literals a wide AND reads by one of its literals, where a node's own one reads so many.
fn width_of(refs: &[u32], widths: &[u32], literal: u32) -> u32 {
    if literal & 1 == 0 && at(refs, node_of(literal)) == 1 {
        at(widths, node_of(literal)).max(1)
    } else {
        1
    }
}

// Parts what would read too many literals: what it reads becomes a wide AND of its own.
fn part_widest(alloc: Global, nodes: Nodes<'_>, refs: &mut Vec<u32>) -> Result<(), AllocError> {
    let mut widths = vec![in alloc; 1; nodes.count()]?;
    'nodes: for node in nodes.first..nodes.count() {
        if let Some(and) = nodes.and(node) {
            let left = width_of(refs, &widths, and.left);
            let right = width_of(refs, &widths, and.right);
            let width = left.saturating_add(right);
            set(&mut widths, node, width);
            if width > MOST_WIDE {
                count(refs, and.left);
                count(refs, and.right);
                set(&mut widths, node, 2);
            }
        }
    }
    Ok(())
}

// The AND that a literal's node is, if that is within a wide one.
fn inner_and(nodes: Nodes<'_>, literal: u32, inner: bool) -> Option<And> {
    if inner {
        nodes.and(node_of(literal))
    } else {
        None
    }
}

// Adds both literals that an AND reads.
fn push_both(waiting: &mut Vec<u32>, and: And) -> Result<(), AllocError> {
    waiting.push(and.left)?;
    waiting.push(and.right)?;
    Ok(())
}

// The literals that the wide AND of a node reads.
fn leaves_of(
    alloc: Global,
    nodes: Nodes<'_>,
    refs: &[u32],
    node: usize,
) -> Result<Vec<u32>, AllocError> {
    let mut leaves = Vec::new(alloc);
    let mut waiting = Vec::new(alloc);
    waiting.push(literal_of(node))?;
    'literals: for k in 0..u64::MAX {
        let Some(literal) = waiting.pop() else {
            break;
        };
        let read_once = literal & 1 == 0 && at(refs, node_of(literal)) == 1;
        match inner_and(nodes, literal, k == 0 || read_once) {
            Some(and) => push_both(&mut waiting, and)?,
            None => leaves.push(literal)?,
        }
    }
    leaves.sort_unstable();
    leaves.dedup();
    Ok(leaves)
}

// What a literal wants of its signal.
fn wanted_by(literal: u32) -> Lit {
    if literal & 1 == 1 {
        Lit::Zero
    } else {
        Lit::One
    }
}

impl<'a> Wide<'a> {
    // Adds a signal of a label, with the name of an old one or a new one.
    fn add_signal(&mut self, label: u32, kept: Option<u32>) -> Result<u32, AllocError> {
        let signal = small(self.names.len());
        let name = match kept {
            Some(old) => name_of(self.alloc, &self.old.names, old)?,
            None => self.free.next(self.alloc)?,
        };
        self.names.push(name)?;
        self.new_labels.push(label)?;
        if let Some(old) = kept {
            set(&mut self.of_signal, old as usize, signal);
        }
        Ok(signal)
    }

    // The signals of literals.
    fn ins_of(&self, literals: &[u32]) -> Result<Items<u32>, AllocError> {
        let mut ins = Items::empty(self.alloc);
        'literals: for literal in literals {
            ins.push(at(&self.of_node, node_of(*literal)))?;
        }
        Ok(ins)
    }

    // What the AND of literals wants of their signals.
    fn row_of(&self, literals: &[u32]) -> Result<Cube, AllocError> {
        let mut row = Items::empty(self.alloc);
        'literals: for literal in literals {
            row.push(wanted_by(*literal))?;
        }
        Ok(row)
    }

    // The one row of the AND of literals.
    fn rows_of(&self, literals: &[u32]) -> Result<Items<Cube>, AllocError> {
        let row = self.row_of(literals)?;
        let mut rows: Items<Cube> = Items::empty(self.alloc);
        rows.push(row)?;
        Ok(rows)
    }

    // Adds a cover of these rows.
    fn put_cover(
        &mut self,
        out: u32,
        ins: Items<u32>,
        rows: Items<Cube>,
    ) -> Result<(), AllocError> {
        self.covers.push(Cover {
            out,
            ins,
            rows,
            off: false,
            line: 0,
        })?;
        Ok(())
    }

    // Adds a cover that is the AND of literals.
    fn add_cover(&mut self, out: u32, literals: &[u32]) -> Result<(), AllocError> {
        let ins = self.ins_of(literals)?;
        let rows = self.rows_of(literals)?;
        self.put_cover(out, ins, rows)
    }

    // Adds a cover that shows a literal, or a constant.
    fn add_copy(&mut self, out: u32, literal: u32) -> Result<(), AllocError> {
        match literal {
            1 => self.add_cover(out, &[]),
            0 => self.put_cover(out, Items::empty(self.alloc), Items::empty(self.alloc)),
            _ => self.add_cover(out, &[literal]),
        }
    }

    // Adds the signal of a node, with the name of an old one.
    fn add_node(&mut self, node: usize, label: u32, old: u32) -> Result<u32, AllocError> {
        let signal = self.add_signal(label, Some(old))?;
        set(&mut self.of_node, node, signal);
        Ok(signal)
    }

    // Adds the inputs.
    fn add_inputs(&mut self) -> Result<Items<PortDef>, AllocError> {
        let mut ports = Items::empty(self.alloc);
        'inputs: for port in self.old.inputs.as_slice() {
            let label = at(self.labels, port.signal as usize);
            let signal = self.add_node(node_of(label), label, port.signal)?;
            ports.push(PortDef { signal, line: 0 })?;
        }
        Ok(ports)
    }

    // Whether a label is that of a latch that outputs need and that has no signal.
    fn is_new_latch(&self, reach: &Reach, label: u32) -> bool {
        let node = node_of(label);
        let inputs = self.graph.inputs as usize;
        if label & 1 == 1 || node <= inputs || Nodes::of(self.graph).is_and(node) {
            return false;
        }
        let place = node.wrapping_sub(inputs).wrapping_sub(1);
        needs_latch(self.graph, reach, place) && at(&self.of_node, node) == NOWHERE
    }

    // Adds the signal of a latch; the latch, with the label of what it reads in place of a signal.
    fn add_latch(&mut self, latch: LatchDef, label: u32) -> Result<LatchDef, AllocError> {
        let out = self.add_node(node_of(label), label, latch.out)?;
        Ok(LatchDef {
            from: at(self.labels, latch.from as usize),
            out,
            init: latch.init,
            line: 0,
        })
    }

    // Adds the signals of latches; the latches, with the labels of what they read in place of signals.
    fn add_latches(&mut self, reach: &Reach) -> Result<Vec<LatchDef>, AllocError> {
        let mut latches = Vec::new(self.alloc);
        'latches: for latch in self.old.latches.as_slice() {
            let label = at(self.labels, latch.out as usize);
            if self.is_new_latch(reach, label) {
                let new = self.add_latch(*latch, label)?;
                latches.push(new)?;
            }
        }
        Ok(latches)
    }

    // Adds the wide AND of a node.
    fn add_and(&mut self, nodes: Nodes<'_>, refs: &[u32], node: usize) -> Result<(), AllocError> {
        let leaves = leaves_of(self.alloc, nodes, refs, node)?;
        let out = self.add_signal(literal_of(node), None)?;
        set(&mut self.of_node, node, out);
        self.add_cover(out, &leaves)
    }

    // Adds the wide ANDs.
    fn add_ands(&mut self, reach: &Reach) -> Result<(), AllocError> {
        let nodes = Nodes::of(self.graph);
        let mut refs = refs_of(self.alloc, nodes, reach)?;
        part_widest(self.alloc, nodes, &mut refs)?;
        'nodes: for node in nodes.first..nodes.count() {
            if is_marked(&reach.live, node) && at(&refs, node) != 1 {
                self.add_and(nodes, &refs, node)?;
            }
        }
        Ok(())
    }

    // Adds a signal that shows a label.
    fn show(&mut self, label: u32, kept: Option<u32>) -> Result<u32, AllocError> {
        let new = self.add_signal(label, kept)?;
        self.add_copy(new, label)?;
        Ok(new)
    }

    // The signal of an output.
    fn output(&mut self, old: u32) -> Result<u32, AllocError> {
        let known = at(&self.of_signal, old as usize);
        if known != NOWHERE {
            return Ok(known);
        }
        self.show(at(self.labels, old as usize), Some(old))
    }

    // Adds the outputs.
    fn add_outputs(&mut self) -> Result<Items<PortDef>, AllocError> {
        let mut ports = Items::empty(self.alloc);
        'outputs: for port in self.old.outputs.as_slice() {
            let signal = self.output(port.signal)?;
            ports.push(PortDef { signal, line: 0 })?;
        }
        Ok(ports)
    }

    // The signal that a latch reads.
    fn next_signal(&mut self, label: u32) -> Result<u32, AllocError> {
        if label > 1 && label & 1 == 0 {
            Ok(at(&self.of_node, node_of(label)))
        } else {
            self.show(label, None)
        }
    }

    // The latches with the signals that they read.
    fn close_latches(&mut self, latches: &[LatchDef]) -> Result<Items<LatchDef>, AllocError> {
        let mut found = Items::empty(self.alloc);
        'latches: for latch in latches {
            let from = self.next_signal(latch.from)?;
            found.push(LatchDef { from, ..*latch })?;
        }
        Ok(found)
    }

    // Adds the inputs, and the latches that outputs need.
    fn add_front(&mut self, reach: &Reach) -> Result<Front, AllocError> {
        let inputs = self.add_inputs()?;
        let read = self.add_latches(reach)?;
        Ok(Front { inputs, read })
    }

    // Adds the outputs, and what latches read.
    fn add_back(&mut self, read: &[LatchDef]) -> Result<Back, AllocError> {
        let outputs = self.add_outputs()?;
        let latches = self.close_latches(read)?;
        Ok(Back { outputs, latches })
    }

    // The design.
    fn joined(self, inputs: Items<PortDef>, back: Back) -> Mapped {
        let draft = NetlistData {
            names: self.names,
            inputs,
            outputs: back.outputs,
            covers: self.covers,
            latches: back.latches,
        };
        Mapped {
            draft,
            labels: Items::new(self.new_labels),
        }
    }
}

// Takes the names of ports.
fn take_ports(
    alloc: Global,
    free: &mut FreeNames,
    names: &Names,
    ports: &[PortDef],
) -> Result<(), AllocError> {
    'ports: for port in ports {
        free.take_signal(alloc, names, port.signal)?;
    }
    Ok(())
}

// Takes the names of latches.
fn take_latches(
    alloc: Global,
    free: &mut FreeNames,
    names: &Names,
    latches: &[LatchDef],
) -> Result<(), AllocError> {
    'latches: for latch in latches {
        free.take_signal(alloc, names, latch.out)?;
    }
    Ok(())
}

// The names that are free beside those of ports and latches.
fn free_names(alloc: Global, draft: &NetlistData) -> Result<FreeNames, AllocError> {
    let mut free = FreeNames::new(alloc, b'm');
    take_ports(alloc, &mut free, &draft.names, draft.inputs.as_slice())?;
    take_ports(alloc, &mut free, &draft.names, draft.outputs.as_slice())?;
    take_latches(alloc, &mut free, &draft.names, draft.latches.as_slice())?;
    free.close();
    Ok(free)
}

// Nothing is made.
fn wide_of<'a>(
    alloc: Global,
    old: &'a NetlistData,
    made: &'a Made,
) -> Result<Wide<'a>, AllocError> {
    let of_node = vec![in alloc; NOWHERE; Nodes::of(&made.graph).count()]?;
    let of_signal = vec![in alloc; NOWHERE; old.names.len()]?;
    let free = free_names(alloc, old)?;
    Ok(Wide {
        alloc,
        old,
        graph: &made.graph,
        labels: made.labels.as_slice(),
        free,
        names: Names::new(alloc),
        new_labels: Vec::new(alloc),
        of_node,
        of_signal,
        covers: Items::empty(alloc),
    })
}

/// The design as wide ANDs, which are to be decomposed anew.
///
/// # Errors
///
/// Out of memory.
pub fn wide_ands(alloc: Global, netlist: &Netlist, made: &Made) -> Result<Mapped, AllocError> {
    let old = netlist.parts();
    let reach = reach_of(alloc, old, &made.graph, made.labels.as_slice())?;
    let mut wide = wide_of(alloc, old, made)?;
    let front = wide.add_front(&reach)?;
    wide.add_ands(&reach)?;
    let back = wide.add_back(&front.read)?;
    Ok(wide.joined(front.inputs, back))
}
