//! Designs that are labelled by a graph, and designs that are not.

use crate::values::drafts::empty_draft;
use base_lists::Items;
use design_blif::read_blif;
use design_equal::{And, Graph, GraphLatch, agree, cells_at, is_labelled};
use design_netlist::{Netlist, NetlistData, check};
use std::alloc::Global;

/// A graph: how many inputs it has, its latches and its ANDs.
#[derive(Clone, Copy)]
struct Shape<'a> {
    inputs: u32,
    latches: &'a [GraphLatch],
    ands: &'a [And],
}

/// The text of a design, and the labels of its signals by first appearance.
type Side<'a> = (&'a [u8], &'a [u32]);

/// The exclusive or of two inputs is literal 11.
const XOR: [And; 3] = [
    And { left: 2, right: 5 },
    And { left: 3, right: 4 },
    And { left: 7, right: 9 },
];

/// The AND of two inputs is literal 6.
const BOTH: [And; 1] = [And { left: 2, right: 4 }];

/// Of one input: literal 4 is a latch that reads it, and literal 6 their AND.
const LATCH: [GraphLatch; 1] = [GraphLatch {
    next: 2,
    init: false,
}];

fn xor_shape<'a>(ands: &'a [And]) -> Shape<'a> {
    Shape {
        inputs: 2,
        latches: &[],
        ands,
    }
}

fn graph_of(alloc: Global, shape: Shape) -> Option<Graph> {
    let latches = Vec::from_slice(alloc, shape.latches).ok()?;
    let ands = Vec::from_slice(alloc, shape.ands).ok()?;
    Some(Graph {
        inputs: shape.inputs,
        latches: Items::new(latches),
        ands: Items::new(ands),
    })
}

// Whether a design is labelled by a graph.
fn is_right(alloc: Global, graph: &Graph, side: Side) -> Option<bool> {
    let netlist = read_blif(alloc, side.0).ok()?;
    is_labelled(alloc, graph, &netlist, side.1).ok()
}

// Whether of these designs just those are labelled of which it is said.
fn are_labelled(alloc: Global, graph: &Graph, sides: &[(Side, bool)]) -> bool {
    'sides: for (side, due) in sides {
        if is_right(alloc, graph, *side) != Some(*due) {
            return false;
        }
    }
    true
}

fn are_right(alloc: Global, shape: Shape, sides: &[(Side, bool)]) -> Option<bool> {
    let graph = graph_of(alloc, shape)?;
    Some(are_labelled(alloc, &graph, sides))
}

// Whether a design and the text of another one agree by a graph.
fn agrees_with(
    alloc: Global,
    graph: &Graph,
    one: &Netlist,
    labels: &[u32],
    second: Side,
) -> Option<bool> {
    let other = read_blif(alloc, second.0).ok()?;
    agree(alloc, graph, one, labels, &other, second.1).ok()
}

// Whether two designs agree by a graph.
fn agree_by(alloc: Global, graph: &Graph, first: Side, second: Side) -> Option<bool> {
    let one = read_blif(alloc, first.0).ok()?;
    agrees_with(alloc, graph, &one, first.1, second)
}

// Whether of these designs just those agree with the first of which it is said.
fn agree_each(alloc: Global, graph: &Graph, first: Side, sides: &[(Side, bool)]) -> bool {
    'sides: for (side, due) in sides {
        if agree_by(alloc, graph, first, *side) != Some(*due) {
            return false;
        }
    }
    true
}

fn do_agree(alloc: Global, shape: Shape, first: Side, sides: &[(Side, bool)]) -> Option<bool> {
    let graph = graph_of(alloc, shape)?;
    Some(agree_each(alloc, &graph, first, sides))
}

// One function by two lists of rows, by the rows where it is 0, and with a row changed.
pub fn other_rows(alloc: Global) -> Option<bool> {
    let ands = XOR;
    let on: Side = (
        b".model x\n.inputs a b\n.outputs y\n.names a b y\n10 1\n01 1\n.end\n",
        &[2, 4, 11],
    );
    let parts: Side = (
        b".model x\n.inputs a b\n.outputs y\n.names a b y\n01 1\n10 1\n10 1\n.end\n",
        &[2, 4, 11],
    );
    let off: Side = (
        b".model x\n.inputs a b\n.outputs y\n.names a b y\n00 0\n11 0\n.end\n",
        &[2, 4, 11],
    );
    let changed: Side = (
        b".model x\n.inputs a b\n.outputs y\n.names a b y\n10 1\n11 1\n.end\n",
        &[2, 4, 11],
    );
    let others = [(parts, true), (off, true), (changed, false)];
    do_agree(alloc, xor_shape(&ands), on, &others)
}

// A signal that is read twice, and inputs that follow from others.
pub fn dependent_inputs(alloc: Global) -> Option<bool> {
    let ands = BOTH;
    let twice: Side = (
        b".model t\n.inputs a b\n.outputs y\n.names a b a y\n1-1 1\n.end\n",
        &[2, 4, 2],
    );
    let opposite: Side = (
        b".model t\n.inputs a b\n.outputs y\n.names a n\n0 1\n.names a n y\n10 1\n01 1\n.end\n",
        &[2, 4, 1, 3],
    );
    let both: Side = (
        b".model t\n.inputs a b\n.outputs y\n.names a b m\n11 1\n.names a b m y\n110 1\n--1 1\n.end\n",
        &[2, 4, 6, 6],
    );
    let sides = [(twice, true), (opposite, true), (both, true)];
    are_right(alloc, xor_shape(&ands), &sides)
}

// Seven inputs: the first and the last, and one that is read with either value.
pub fn seven_inputs(alloc: Global) -> Option<bool> {
    let ands = [And { left: 2, right: 14 }];
    let shape = Shape {
        inputs: 7,
        latches: &[],
        ands: &ands,
    };
    let right: Side = (
        b".model s\n.inputs a b c d e f g\n.outputs y\n.names a b c d e f g y\n1-1---1 1\n1-0---1 1\n.end\n",
        &[2, 4, 6, 8, 10, 12, 14, 16],
    );
    let wrong: Side = (
        b".model s\n.inputs a b c d e f g\n.outputs y\n.names a b c d e f g y\n1-1---1 1\n1-01--1 1\n.end\n",
        &[2, 4, 6, 8, 10, 12, 14, 16],
    );
    are_right(alloc, shape, &[(right, true), (wrong, false)])
}

// The labels of 40 inputs, and that of the output behind them.
fn forty_labels(alloc: Global, output: u32) -> Option<Vec<u32>> {
    let mut labels = Vec::new(alloc);
    'inputs: for k in 1..41u32 {
        labels.push(2 * k).ok()?;
    }
    labels.push(output).ok()?;
    Some(labels)
}

// A cover of 40 inputs with three rows; and with one of them changed.
pub fn forty_inputs(alloc: Global) -> Option<bool> {
    let ands = [
        And { left: 2, right: 4 },
        And { left: 82, right: 6 },
        And { left: 8, right: 10 },
        And {
            left: 86,
            right: 12,
        },
        And {
            left: 79,
            right: 81,
        },
        And {
            left: 85,
            right: 89,
        },
        And {
            left: 92,
            right: 91,
        },
    ];
    let shape = Shape {
        inputs: 40,
        latches: &[],
        ands: &ands,
    };
    let labels = forty_labels(alloc, 95)?;
    let right = text_of_forty(alloc, "111-------------------------------------")?;
    let wrong = text_of_forty(alloc, "110-------------------------------------")?;
    let right: Side = (right.as_slice(), labels.as_slice());
    let wrong: Side = (wrong.as_slice(), labels.as_slice());
    are_right(alloc, shape, &[(right, true), (wrong, false)])
}

// A design whose one cover has 40 inputs and three rows, of which this is the first.
fn text_of_forty(alloc: Global, row: &str) -> Option<Vec<u8>> {
    let inputs =
        " a0 a1 a2 a3 a4 a5 a6 a7 a8 a9 b0 b1 b2 b3 b4 b5 b6 b7 b8 b9 c0 c1 c2 c3 c4 c5 c6 c7 c8 c9 d0 d1 d2 d3 d4 d5 d6 d7 d8 d9";
    let text = format!(in alloc;
        ".model f\n.inputs{}\n.outputs y\n.names{} y\n{} 1\n{} 1\n{} 1\n.end\n",
        inputs,
        inputs,
        row,
        "---111----------------------------------",
        "--------------------------------------00"
    )
    .ok()?;
    Vec::from_slice(alloc, text.as_bytes()).ok()
}

// Two latches with one label, and one that stays the constant that it begins with.
pub fn latch_labels(alloc: Global) -> Option<bool> {
    let latches = LATCH;
    let shape = Shape {
        inputs: 1,
        latches: &latches,
        ands: &[],
    };
    let two: Side = (
        b".model l\n.inputs a\n.outputs q r\n.latch a q 0\n.latch a r 0\n.end\n",
        &[2, 4, 4],
    );
    let stays: Side = (
        b".model l\n.inputs a\n.outputs q\n.latch q q 1\n.end\n",
        &[2, 1],
    );
    are_right(alloc, shape, &[(two, true), (stays, true)])
}

// Another initial bit, and labels of a latch's output that are no latch's.
pub fn wrong_latch_labels(alloc: Global) -> Option<bool> {
    let latches = LATCH;
    let ands = [And { left: 2, right: 4 }];
    let shape = Shape {
        inputs: 1,
        latches: &latches,
        ands: &ands,
    };
    let text: &[u8] = b".model l\n.inputs a\n.outputs q\n.latch a q 0\n.end\n";
    let begins: Side = (
        b".model l\n.inputs a\n.outputs q\n.latch a q 1\n.end\n",
        &[2, 4],
    );
    let sides: [(Side, bool); 5] = [
        ((text, &[2, 4]), true),
        (begins, false),
        ((text, &[2, 6]), false),
        ((text, &[2, 2]), false),
        ((text, &[2, 5]), false),
    ];
    are_right(alloc, shape, &sides)
}

// Outputs that are exchanged, and one more.
pub fn other_outputs(alloc: Global) -> Option<bool> {
    let first: Side = (b".model o\n.inputs a b\n.outputs a b\n.end\n", &[2, 4]);
    let exchanged: Side = (b".model o\n.inputs a b\n.outputs b a\n.end\n", &[2, 4]);
    let more: Side = (b".model o\n.inputs a b\n.outputs a b b\n.end\n", &[2, 4]);
    let others = [(first, true), (exchanged, false), (more, false)];
    do_agree(alloc, xor_shape(&[]), first, &others)
}

// A list with a label too few, and an AND that reads a higher node.
pub fn unfit_lists(alloc: Global) -> Option<bool> {
    let ands = XOR;
    let text: &[u8] = b".model x\n.inputs a b\n.outputs y\n.names a b y\n10 1\n01 1\n.end\n";
    let turned = [
        And { left: 9, right: 11 },
        And { left: 2, right: 5 },
        And { left: 3, right: 4 },
    ];
    let sides: [(Side, bool); 2] = [((text, &[2, 4, 11]), true), ((text, &[2, 4]), false)];
    let fits = are_right(alloc, xor_shape(&ands), &sides)?;
    let reads_higher: [(Side, bool); 1] = [((text, &[2, 4, 7]), false)];
    Some(fits && are_right(alloc, xor_shape(&turned), &reads_higher)?)
}

// A design of a signal that nothing drives and nothing reads.
fn idle_signal(alloc: Global) -> Option<NetlistData> {
    let mut draft = empty_draft(alloc);
    match draft.names.push(Items::empty(alloc)) {
        Ok(()) => Some(draft),
        Err(_) => None,
    }
}

// What that design is checked to.
fn idle_netlist(alloc: Global) -> Option<Netlist> {
    let draft = idle_signal(alloc)?;
    if draft.is_well_made() {
        check(alloc, draft).ok()
    } else {
        None
    }
}

// Whether a graph labels that design with 0 and not with 1.
fn is_idle(alloc: Global, graph: &Graph) -> Option<bool> {
    let netlist = idle_netlist(alloc)?;
    let zero = is_labelled(alloc, graph, &netlist, &[0]).ok();
    let one = is_labelled(alloc, graph, &netlist, &[1]).ok();
    Some(zero == Some(true) && one == Some(false))
}

// A signal that nothing drives and nothing reads.
pub fn undriven_signal(alloc: Global) -> Option<bool> {
    let shape = Shape {
        inputs: 0,
        latches: &[],
        ands: &[],
    };
    let graph = graph_of(alloc, shape)?;
    is_idle(alloc, &graph)
}

// Whether these are the cells of the AND at these labels.
fn are_cells(alloc: Global, graph: &Graph, labels: &[u32], due: Option<u64>) -> bool {
    match cells_at(alloc, graph, labels, 6) {
        Ok(cells) => cells == due,
        Err(_) => false,
    }
}

// The cells of an AND: of two inputs, of the second one's opposite and the first, and of two with a common node.
pub fn cells_of_labels(alloc: Global) -> Option<bool> {
    let ands = BOTH;
    let graph = graph_of(alloc, xor_shape(&ands))?;
    let plain = are_cells(alloc, &graph, &[2, 4], Some(0x8888_8888_8888_8888));
    let turned = are_cells(alloc, &graph, &[5, 2], Some(0x4444_4444_4444_4444));
    Some(plain && turned && are_cells(alloc, &graph, &[2], None))
}
