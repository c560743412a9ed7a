//! From chosen cuts to tables.

use crate::cuts::{Cut, NO_CUT, cut_of};
use crate::layout::{Layout, NOWHERE, Register, with_leaf};
use crate::numbers::{at, literal_of, node_of, set};
use crate::passes::Chosen;
use crate::reach::{Nodes, Reach, needs_latch};
use design_equal::Graph;
use design_netlist::{LatchDef, NetlistData, PortDef};
use std::alloc::{AllocError, Global};

/// A new design while it is made.
#[derive(Drop)]
struct Assembly {
    layout: Layout,
    /// The wire of each literal that one has.
    wire_at: Vec<u32>,
    /// The wire of each literal that is to have one.
    wanted: Vec<u32>,
    /// The wire of each signal of the old design whose name one keeps.
    wire_of: Vec<u32>,
    /// Wires that show what another wire shows.
    copies: Vec<u32>,
}

// The wire at a place of a list.
fn wire(wires: &[u32], place: usize) -> u32 {
    if place < wires.len() {
        wires[place]
    } else {
        NOWHERE
    }
}

// Nothing is made.
fn assembly_of(alloc: Global, signals: usize, nodes: usize) -> Result<Assembly, AllocError> {
    let literals = nodes.saturating_mul(2);
    let wire_at = vec![in alloc; NOWHERE; literals]?;
    let wanted = vec![in alloc; NOWHERE; literals]?;
    let wire_of = vec![in alloc; NOWHERE; signals]?;
    Ok(Assembly {
        layout: Layout::new(alloc),
        wire_at,
        wanted,
        wire_of,
        copies: Vec::new(alloc),
    })
}

// A wire of a signal of the old design.
fn keep_signal(assembly: &mut Assembly, signal: u32, label: u32) -> Result<u32, AllocError> {
    let wire = assembly.layout.add_wire(label, Some(signal))?;
    set(&mut assembly.wire_of, signal as usize, wire);
    Ok(wire)
}

// The inputs.
fn add_inputs(
    assembly: &mut Assembly,
    inputs: &[PortDef],
    labels: &[u32],
) -> Result<(), AllocError> {
    'inputs: for port in inputs {
        let wire = keep_at(assembly, port.signal, at(labels, port.signal as usize))?;
        assembly.layout.inputs.push(wire)?;
    }
    Ok(())
}

// Whether a literal is that of a latch of the graph which outputs need, and which no wire shows yet.
fn is_new_latch(assembly: &Assembly, graph: &Graph, reach: &Reach, label: u32) -> bool {
    let node = node_of(label);
    let inputs = graph.inputs as usize;
    if label & 1 == 1 || node <= inputs || Nodes::of(graph).is_and(node) {
        return false;
    }
    let place = node.wrapping_sub(inputs).wrapping_sub(1);
    needs_latch(graph, reach, place) && wire(&assembly.wire_at, label as usize) == NOWHERE
}

// A wire of a signal of the old design, for a literal.
fn keep_at(assembly: &mut Assembly, signal: u32, label: u32) -> Result<u32, AllocError> {
    let wire = keep_signal(assembly, signal, label)?;
    set(&mut assembly.wire_at, label as usize, wire);
    Ok(wire)
}

// A latch of a literal that reads a literal.
fn add_latch(
    assembly: &mut Assembly,
    latch: LatchDef,
    label: u32,
    from: u32,
) -> Result<(), AllocError> {
    let out = keep_at(assembly, latch.out, label)?;
    let init = latch.init;
    let registers = &mut assembly.layout.registers;
    registers.push(Register { from, out, init })?;
    Ok(())
}

// The latches: the first of those that are alike.
fn add_latches(
    assembly: &mut Assembly,
    latches: &[LatchDef],
    graph: &Graph,
    reach: &Reach,
    labels: &[u32],
) -> Result<(), AllocError> {
    'latches: for latch in latches {
        let label = at(labels, latch.out as usize);
        if is_new_latch(assembly, graph, reach, label) {
            add_latch(assembly, *latch, label, at(labels, latch.from as usize))?;
        }
    }
    Ok(())
}

// A new wire of an output is that of its literal's table if it has none, and else a copy.
fn show_output(assembly: &mut Assembly, and: bool, label: u32, new: u32) -> Result<(), AllocError> {
    if and && wire(&assembly.wanted, label as usize) == NOWHERE {
        set(&mut assembly.wanted, label as usize, new);
    } else {
        assembly.copies.push(new)?;
    }
    Ok(())
}

// The wire of an output: it is that of the signal, if there is one. Else it wants a table, its own one or a copy.
fn output_wire(
    assembly: &mut Assembly,
    nodes: Nodes<'_>,
    signal: u32,
    label: u32,
) -> Result<u32, AllocError> {
    let known = wire(&assembly.wire_of, signal as usize);
    if known != NOWHERE {
        return Ok(known);
    }
    let new = keep_signal(assembly, signal, label)?;
    show_output(assembly, nodes.is_and(node_of(label)), label, new)?;
    Ok(new)
}

// The outputs.
fn add_outputs(
    assembly: &mut Assembly,
    nodes: Nodes<'_>,
    outputs: &[PortDef],
    labels: &[u32],
) -> Result<(), AllocError> {
    'outputs: for port in outputs {
        let label = at(labels, port.signal as usize);
        let wire = output_wire(assembly, nodes, port.signal, label)?;
        assembly.layout.outputs.push(wire)?;
    }
    Ok(())
}

// The literal that the latch at a place reads.
fn next_label(registers: &[Register], place: usize) -> u32 {
    match registers.get(place) {
        Some(register) => register.from,
        None => 0,
    }
}

// A literal wants a wire, unless it has one.
fn want(assembly: &mut Assembly, label: u32) -> Result<(), AllocError> {
    if wire(&assembly.wanted, label as usize) == NOWHERE {
        let new = assembly.layout.add_wire(label, None)?;
        set(&mut assembly.wanted, label as usize, new);
    }
    Ok(())
}

// What latches read wants tables.
fn want_nexts(assembly: &mut Assembly, nodes: Nodes<'_>) -> Result<(), AllocError> {
    'latches: for k in 0..assembly.layout.registers.len() {
        let label = next_label(&assembly.layout.registers, k);
        if nodes.is_and(node_of(label)) {
            want(assembly, label)?;
        }
    }
    Ok(())
}

// The literal of a node for which it has a table: the negated one where only that is wanted.
fn shown_literal(assembly: &Assembly, node: usize) -> u32 {
    let literal = literal_of(node);
    let plain = wire(&assembly.wanted, literal as usize) != NOWHERE;
    let negated = wire(&assembly.wanted, (literal ^ 1) as usize) != NOWHERE;
    if negated && !plain {
        literal ^ 1
    } else {
        literal
    }
}

// The wire of a node, in either form.
fn wire_of_node(assembly: &Assembly, node: u32) -> u32 {
    let literal = literal_of(node as usize);
    let plain = wire(&assembly.wire_at, literal as usize);
    if plain != NOWHERE {
        plain
    } else {
        wire(&assembly.wire_at, (literal ^ 1) as usize)
    }
}

// The wires of the leaves of a cut.
fn wires_of_cut(assembly: &Assembly, cut: &Cut) -> Cut {
    let mut wires = NO_CUT;
    'leaves: for k in 0..cut.count {
        wires = with_leaf(&wires, wire_of_node(assembly, cut.leaf(k)));
    }
    wires
}

// The wire that a literal wants, or a new one.
fn own_wire(assembly: &mut Assembly, literal: u32) -> Result<u32, AllocError> {
    let wanted = wire(&assembly.wanted, literal as usize);
    if wanted != NOWHERE {
        return Ok(wanted);
    }
    assembly.layout.add_wire(literal, None)
}

// The table of a node.
fn add_node(assembly: &mut Assembly, node: usize, cut: &Cut) -> Result<(), AllocError> {
    let literal = shown_literal(assembly, node);
    let out = own_wire(assembly, literal)?;
    set(&mut assembly.wire_at, literal as usize, out);
    let ins = wires_of_cut(assembly, cut);
    assembly.layout.add_table(out, ins)
}

// The tables of the nodes that were chosen.
fn add_nodes(assembly: &mut Assembly, nodes: Nodes<'_>, chosen: &Chosen) -> Result<(), AllocError> {
    'nodes: for node in nodes.first..chosen.cuts.len() {
        if node < chosen.tables.len() && chosen.tables[node] {
            add_node(assembly, node, &chosen.cuts[node])?;
        }
    }
    Ok(())
}

// The wire that shows a literal or its opposite; where none shows the literal itself, this wire is to.
fn shown_by(assembly: &mut Assembly, label: u32, out: u32) -> u32 {
    let same = wire(&assembly.wire_at, label as usize);
    if same != NOWHERE {
        return same;
    }
    let other = wire_of_node(assembly, label >> 1);
    set(&mut assembly.wire_at, label as usize, out);
    other
}

// A table that shows what another wire of its node does, or a constant.
fn add_copy(assembly: &mut Assembly, out: u32) -> Result<(), AllocError> {
    let label = assembly.layout.label(out);
    if label < 2 {
        return assembly.layout.add_table(out, NO_CUT);
    }
    let same = shown_by(assembly, label, out);
    assembly.layout.add_table(out, cut_of(same))
}

// The second table of a node that is wanted in both forms.
fn add_seconds(assembly: &mut Assembly) -> Result<(), AllocError> {
    'literals: for literal in 0..assembly.wanted.len() {
        let out = wire(&assembly.wanted, literal);
        if out != NOWHERE && wire(&assembly.wire_at, literal) == NOWHERE {
            add_copy(assembly, out)?;
        }
    }
    Ok(())
}

// The tables of outputs that show what others do.
fn add_copies(assembly: &mut Assembly) -> Result<(), AllocError> {
    'copies: for k in 0..assembly.copies.len() {
        if let Some(out) = assembly.copies.get(k).copied() {
            add_copy(assembly, out)?;
        }
    }
    Ok(())
}

// The wire that a latch reads, with a table of its own if no wire shows that.
fn next_wire(assembly: &mut Assembly, label: u32) -> Result<u32, AllocError> {
    let known = wire(&assembly.wire_at, label as usize);
    if known != NOWHERE {
        return Ok(known);
    }
    let new = assembly.layout.add_wire(label, None)?;
    add_copy(assembly, new)?;
    set(&mut assembly.wire_at, label as usize, new);
    Ok(new)
}

// The latch at a place reads this.
fn read_from(registers: &mut Vec<Register>, place: usize, from: u32) {
    if place < registers.len() {
        registers[place].from = from;
    }
}

// What latches read: their wires in place of labels.
fn close_latches(assembly: &mut Assembly) -> Result<(), AllocError> {
    'latches: for k in 0..assembly.layout.registers.len() {
        let label = next_label(&assembly.layout.registers, k);
        let from = next_wire(assembly, label)?;
        read_from(&mut assembly.layout.registers, k, from);
    }
    Ok(())
}

// What has wires before there are tables: inputs, latches, outputs, and what latches read.
fn add_signals(
    assembly: &mut Assembly,
    draft: &NetlistData,
    graph: &Graph,
    labels: &[u32],
    reach: &Reach,
) -> Result<(), AllocError> {
    add_inputs(assembly, draft.inputs.as_slice(), labels)?;
    add_latches(assembly, draft.latches.as_slice(), graph, reach, labels)?;
    add_outputs(assembly, Nodes::of(graph), draft.outputs.as_slice(), labels)?;
    want_nexts(assembly, Nodes::of(graph))
}

// What shows other wires, and the latches with the wires that they read.
fn add_rest(assembly: &mut Assembly) -> Result<(), AllocError> {
    add_seconds(assembly)?;
    add_copies(assembly)?;
    close_latches(assembly)
}

/// The tables of the chosen cuts, the outputs, and the latches that outputs need.
pub fn layout_of(
    alloc: Global,
    draft: &NetlistData,
    graph: &Graph,
    labels: &[u32],
    reach: &Reach,
    chosen: &Chosen,
) -> Result<Layout, AllocError> {
    let nodes = Nodes::of(graph);
    let mut assembly = assembly_of(alloc, draft.names.len(), nodes.count())?;
    add_signals(&mut assembly, draft, graph, labels, reach)?;
    add_nodes(&mut assembly, nodes, chosen)?;
    add_rest(&mut assembly)?;
    Ok(assembly.layout)
}
