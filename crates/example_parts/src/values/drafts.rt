//! Drafts that are made by hand, and the text of a netlist.

use base_lists::Items;
use design_blif::read_blif;
use design_netlist::{
    Cover, DesignFault, DesignKind, Lit, Names, Netlist, NetlistData, PortDef, check,
};
use map_search::{Head, design_text};
use std::alloc::Global;

/// What is wrong with a signal.
#[derive(Clone, Copy, Debug, PartialEq, Eq)]
enum Wrong {
    Doubled,
    Undriven,
    Cyclic,
}

/// An AND: the signals that it reads, and the one that it drives.
type Gate<'a> = (&'a [u32], u32);

/// A design of gates: the names of its signals, its inputs, its outputs and its gates.
#[derive(Clone, Copy)]
struct Gates<'a> {
    names: &'a [&'a str],
    inputs: &'a [u32],
    outputs: &'a [u32],
    gates: &'a [Gate<'a>],
}

// What is wrong with a signal, and its name.
fn named(kind: &DesignKind) -> Option<(Wrong, &[u8])> {
    match kind {
        DesignKind::Doubled { name } => Some((Wrong::Doubled, name.as_slice())),
        DesignKind::Undriven { name } => Some((Wrong::Undriven, name.as_slice())),
        DesignKind::Cyclic { name } => Some((Wrong::Cyclic, name.as_slice())),
        _ => None,
    }
}

/// Whether a design is refused at this line, for this, with this name.
fn is_refused(found: &Result<Netlist, DesignFault>, line: u64, wrong: Wrong, name: &str) -> bool {
    match found {
        Err(DesignFault::At { line: at, kind }) => {
            *at == line && named(kind) == Some((wrong, name.as_bytes()))
        }
        _ => false,
    }
}

// Adds a name.
fn add_name(alloc: Global, names: &mut Names, text: &str) -> Option<()> {
    let name = Vec::from_slice(alloc, text.as_bytes()).ok()?;
    names.push(Items::new(name)).ok()
}

/// A gate as a cover on this line.
fn cover_of(alloc: Global, gate: Gate, line: u64) -> Option<Cover> {
    let ins = Vec::from_slice(alloc, gate.0).ok()?;
    let row = vec![in alloc; Lit::One; gate.0.len()].ok()?;
    let rows = vec![in alloc; Items::new(row)].ok()?;
    Some(Cover {
        out: gate.1,
        ins: Items::new(ins),
        rows: Items::new(rows),
        off: false,
        line,
    })
}

// Whether these are the signals of ports.
fn are_ports(ports: &[PortDef], due: &[u32]) -> bool {
    let mut right = ports.len() == due.len();
    'ports: for (port, signal) in ports.iter().zip(due) {
        right = right && port.signal == *signal;
    }
    right
}

// Whether these are the names, in order.
fn are_names(alloc: Global, names: &Names, due: &[&str]) -> Option<bool> {
    let mut right = names.len() == due.len();
    'names: for (place, name) in due.iter().enumerate() {
        if place >= names.len() {
            return Some(false);
        }
        right = right && names.get(alloc, place).ok()?.as_slice() == name.as_bytes();
    }
    Some(right)
}

// Whether a row wants all its inputs to be 1.
fn has_ones(row: &[Lit]) -> bool {
    let mut right = true;
    'inputs: for lit in row {
        right = right && *lit == Lit::One;
    }
    right
}

// Whether a cover is this gate.
fn is_gate(cover: &Cover, gate: Gate) -> bool {
    match cover.rows.as_slice() {
        [row] => {
            cover.out == gate.1
                && !cover.off
                && cover.ins.as_slice() == gate.0
                && row.as_slice().len() == gate.0.len()
                && has_ones(row.as_slice())
        }
        _ => false,
    }
}

// Whether the covers are these gates, in order.
fn are_gates(covers: &[Cover], gates: &[Gate]) -> bool {
    let mut right = covers.len() == gates.len();
    'covers: for (cover, gate) in covers.iter().zip(gates) {
        right = right && is_gate(cover, *gate);
    }
    right
}

/// Whether a design has these five lists, whatever the lines are.
fn has_lists(alloc: Global, netlist: &Netlist, due: Gates) -> Option<bool> {
    let parts = netlist.parts();
    let named = are_names(alloc, &parts.names, due.names)?;
    Some(
        named
            && are_ports(parts.inputs.as_slice(), due.inputs)
            && are_ports(parts.outputs.as_slice(), due.outputs)
            && are_gates(parts.covers.as_slice(), due.gates)
            && parts.latches.as_slice().is_empty(),
    )
}

/// A draft of nothing.
pub fn empty_draft(alloc: Global) -> NetlistData {
    NetlistData {
        names: Names::new(alloc),
        inputs: Items::empty(alloc),
        outputs: Items::empty(alloc),
        covers: Items::empty(alloc),
        latches: Items::empty(alloc),
    }
}

// Adds gates that each stand on a line.
fn add_gates(alloc: Global, covers: &mut Items<Cover>, gates: &[(Gate, u64)]) -> Option<()> {
    'gates: for (gate, line) in gates {
        let cover = cover_of(alloc, *gate, *line)?;
        covers.push(cover).ok()?;
    }
    Some(())
}

// Adds two signals, shows the first, and adds gates that each stand on a line.
fn add_parts(alloc: Global, draft: &mut NetlistData, gates: &[(Gate, u64)]) -> Option<()> {
    add_name(alloc, &mut draft.names, "a")?;
    add_name(alloc, &mut draft.names, "b")?;
    let shown = PortDef { signal: 0, line: 2 };
    draft.outputs.push(shown).ok()?;
    add_gates(alloc, &mut draft.covers, gates)
}

// Two signals of which `a` is shown, and gates that each stand on a line.
fn draft_of(alloc: Global, gates: &[(Gate, u64)]) -> Option<NetlistData> {
    let mut draft = empty_draft(alloc);
    match add_parts(alloc, &mut draft, gates) {
        Some(()) => Some(draft),
        None => None,
    }
}

// What comes of them.
fn checked(alloc: Global, gates: &[(Gate, u64)]) -> Option<Result<Netlist, DesignFault>> {
    let draft = draft_of(alloc, gates)?;
    if draft.is_well_made() {
        Some(check(alloc, draft))
    } else {
        None
    }
}

// Whether gates that each stand on a line are refused at this line, for this, with this name.
fn are_refused(
    alloc: Global,
    gates: &[(Gate, u64)],
    line: u64,
    wrong: Wrong,
    name: &str,
) -> Option<bool> {
    let found = checked(alloc, gates)?;
    Some(is_refused(&found, line, wrong, name))
}

// `a` reads `b`, and `b` reads `a`, is driven by nothing, or isn't what is driven next; and `a` reads itself.
pub fn faulty_drafts(alloc: Global) -> Option<bool> {
    let first: Gate = (&[1], 0);
    let back: Gate = (&[0], 1);
    let own: Gate = (&[0], 0);
    let cyclic = are_refused(alloc, &[(first, 3), (back, 5)], 3, Wrong::Cyclic, "a")?;
    let undriven = are_refused(alloc, &[(first, 3)], 3, Wrong::Undriven, "b")?;
    let doubled = are_refused(alloc, &[(first, 3), (first, 5)], 5, Wrong::Doubled, "a")?;
    let reads_itself = are_refused(alloc, &[(own, 3)], 3, Wrong::Cyclic, "a")?;
    Some(cyclic && undriven && doubled && reads_itself)
}

// The text that is written of the netlist of a text.
fn written_anew(alloc: Global, given: &[u8]) -> Option<Vec<u8>> {
    let netlist = read_blif(alloc, given).ok()?;
    let head = Head {
        tables: 1,
        depth: 1,
        control: None,
    };
    design_text(alloc, netlist.parts(), &head).ok()
}

// Whether the netlist of a text has these five lists.
fn reads_lists(alloc: Global, text: &[u8], due: Gates) -> Option<bool> {
    let netlist = read_blif(alloc, text).ok()?;
    has_lists(alloc, &netlist, due)
}

// The text of a netlist is read again as the same lists, which stand on other lines.
pub fn text_of_netlist(alloc: Global) -> Option<bool> {
    let and = Gates {
        names: &["a", "b", "y"],
        inputs: &[0, 1],
        outputs: &[2],
        gates: &[(&[0, 1], 2)],
    };
    let given = b"\n.model and\n.inputs a b\n\n.outputs y\n.names a b y\n11 1\n.end\n";
    let text = written_anew(alloc, given)?;
    Some(reads_lists(alloc, given, and)? && reads_lists(alloc, &text, and)?)
}
