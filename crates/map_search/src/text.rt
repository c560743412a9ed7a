//! The text of a design.

use crate::depth::depth_of;
use crate::names::name_of;
use base_lists::Items;
use base_text::put_number;
use design_netlist::{Cover, Cube, LatchDef, Lit, Names, Netlist, NetlistData, PortDef};
use std::alloc::{AllocError, Global};
use std::collections::HashMap;

/// How many names of inputs or outputs stand on a line.
const NAMES_OF_LINE: usize = 16;

/// What a text says of the design that it stands for: how many tables and which depth its plain network has, and the name of the
/// control that all its latches have, if it can stand in another text.
#[derive(Debug, Drop)]
pub struct Head {
    pub tables: u64,
    pub depth: u32,
    pub control: Option<Items<u8>>,
}

// A text while it is written, what its head says, and the names of signals.
#[derive(Drop)]
struct Writer<'a> {
    alloc: Global,
    head: &'a Head,
    names: &'a Names,
    text: Vec<u8>,
}

impl<'a> Writer<'a> {
    // Adds bytes.
    fn put(&mut self, bytes: &[u8]) -> Result<(), AllocError> {
        self.text.extend_from_slice(bytes)
    }

    // Adds a blank and the name of a signal.
    fn put_name(&mut self, signal: u32) -> Result<(), AllocError> {
        let name = name_of(self.alloc, self.names, signal)?;
        self.put(b" ")?;
        self.put(name.as_slice())
    }

    // Adds a line of the names of ports.
    fn put_ports_line(&mut self, head: &[u8], ports: &[PortDef]) -> Result<(), AllocError> {
        self.put(head)?;
        'ports: for port in ports {
            self.put_name(port.signal)?;
        }
        self.put(b"\n")
    }

    // Adds the names of ports, on as many lines as they need.
    fn put_ports(&mut self, head: &[u8], ports: &[PortDef]) -> Result<(), AllocError> {
        'lines: for line in ports.chunks(NAMES_OF_LINE) {
            self.put_ports_line(head, line)?;
        }
        Ok(())
    }

    // Adds what a row wants of the inputs.
    fn put_lits(&mut self, row: &[Lit]) -> Result<(), AllocError> {
        'places: for lit in row {
            self.text.push(match lit {
                Lit::Zero => b'0',
                Lit::One => b'1',
                Lit::Any => b'-',
            })?;
        }
        Ok(())
    }

    // Adds a row of a cover.
    fn put_row(&mut self, row: &Cube, off: bool) -> Result<(), AllocError> {
        self.put_lits(row.as_slice())?;
        if row.as_slice().len() > 0 {
            self.put(b" ")?;
        }
        self.put(if off { b"0\n" } else { b"1\n" })
    }

    // Adds the rows of a cover.
    fn put_rows(&mut self, cover: &Cover) -> Result<(), AllocError> {
        'rows: for row in cover.rows.as_slice() {
            self.put_row(row, cover.off)?;
        }
        Ok(())
    }

    // Adds the names of signals.
    fn put_names(&mut self, signals: &[u32]) -> Result<(), AllocError> {
        'signals: for signal in signals {
            self.put_name(*signal)?;
        }
        Ok(())
    }

    // Adds the first line of a cover.
    fn put_signals(&mut self, ins: &[u32], out: u32) -> Result<(), AllocError> {
        self.put(b".names")?;
        self.put_names(ins)?;
        self.put_name(out)?;
        self.put(b"\n")
    }

    // Adds a cover.
    fn put_cover(&mut self, cover: &Cover) -> Result<(), AllocError> {
        self.put_signals(cover.ins.as_slice(), cover.out)?;
        self.put_rows(cover)
    }

    // Adds the covers.
    fn put_covers(&mut self, covers: &[Cover]) -> Result<(), AllocError> {
        'covers: for cover in covers {
            self.put_cover(cover)?;
        }
        Ok(())
    }

    // Adds two numbers, what was and what is.
    fn put_change(&mut self, what: &[u8], before: u64, after: u64) -> Result<(), AllocError> {
        self.put(what)?;
        put_number(&mut self.text, before)?;
        self.put(b" to ")?;
        put_number(&mut self.text, after)
    }

    // Adds tables and depth of the design as given and as written.
    fn put_changes(&mut self, tables: u64, depth: u32) -> Result<(), AllocError> {
        let head = self.head;
        self.put_change(b"# tables ", head.tables, tables)?;
        self.put_change(b", depth ", u64::from(head.depth), u64::from(depth))?;
        self.put(b"\n")
    }

    // Adds the comment: tables and depth of the design as given and as written, where each cover is one table.
    fn put_head(&mut self, draft: &NetlistData) -> Result<(), AllocError> {
        let covers = draft.covers.as_slice().len();
        let tables = covers.saturating_add(draft.latches.as_slice().len());
        let depth = depth_of(self.alloc, draft)?;
        self.put_changes(tables as u64, depth)
    }

    // Adds the control of the latches, if there is one.
    fn put_control(&mut self) -> Result<(), AllocError> {
        if let Some(control) = &self.head.control {
            self.put(b" re ")?;
            self.put(control.as_slice())?;
        }
        Ok(())
    }

    // Adds what a latch reads and what it drives.
    fn put_ends(&mut self, from: u32, out: u32) -> Result<(), AllocError> {
        self.put(b".latch")?;
        self.put_name(from)?;
        self.put_name(out)
    }

    // Adds the control of a latch, and its initial bit.
    fn put_start(&mut self, init: bool) -> Result<(), AllocError> {
        self.put_control()?;
        self.put(if init { b" 1\n" } else { b" 0\n" })
    }

    // Adds the latches.
    fn put_latches(&mut self, latches: &[LatchDef]) -> Result<(), AllocError> {
        'latches: for latch in latches {
            self.put_ends(latch.from, latch.out)?;
            self.put_start(latch.init)?;
        }
        Ok(())
    }

    // Adds the comment, and what leads to the outside.
    fn put_front(&mut self, draft: &NetlistData) -> Result<(), AllocError> {
        self.put_head(draft)?;
        self.put(b".model mapped\n")?;
        self.put_ports(b".inputs", draft.inputs.as_slice())?;
        self.put_ports(b".outputs", draft.outputs.as_slice())
    }

    // Adds covers and latches.
    fn put_logic(&mut self, draft: &NetlistData) -> Result<(), AllocError> {
        self.put_covers(draft.covers.as_slice())?;
        self.put_latches(draft.latches.as_slice())?;
        self.put(b".end\n")
    }
}

/// The draft as a text of one model, `mapped`: a comment of what the head says and of the draft's own tables and depth, inputs and
/// outputs with at most 16 names on a line, the covers with their rows, the latches with the head's control and their initial bits,
/// `.end`. Names stand as they are, also where they can't be read again there.
///
/// # Errors
///
/// Out of memory.
pub fn design_text(alloc: Global, draft: &NetlistData, head: &Head) -> Result<Vec<u8>, AllocError> {
    let mut writer = Writer {
        alloc,
        head,
        names: &draft.names,
        text: Vec::new(alloc),
    };
    writer.put_front(draft)?;
    writer.put_logic(draft)?;
    Ok(writer.text)
}

// The label of each name; of a name that stands twice, that of the last signal.
fn labels_of_names(
    alloc: Global,
    names: &Names,
    labels: &[u32],
) -> Result<HashMap<Vec<u8>, u32>, AllocError> {
    let mut found = HashMap::new(alloc);
    'signals: for (signal, label) in labels.iter().enumerate() {
        if signal < names.len() {
            let name: Items<u8> = names.get(alloc, signal)?;
            let _ = found.insert(name.into_vec(), *label)?;
        }
    }
    Ok(found)
}

// The label of a signal by its name.
fn label_of(
    alloc: Global,
    by_name: &HashMap<Vec<u8>, u32>,
    names: &Names,
    signal: usize,
) -> Result<u32, AllocError> {
    if signal >= names.len() {
        return Ok(0);
    }
    let name = names.get(alloc, signal)?;
    Ok(by_name.get(name.as_slice()).copied().unwrap_or(0))
}

// The labels of signals by their names.
fn labels_of_signals(
    alloc: Global,
    by_name: &HashMap<Vec<u8>, u32>,
    names: &Names,
) -> Result<Vec<u32>, AllocError> {
    let mut found = Vec::with_capacity(alloc, names.len())?;
    'signals: for signal in 0..names.len() {
        found.push(label_of(alloc, by_name, names, signal)?)?;
    }
    Ok(found)
}

/// For each signal of a netlist that was read from the draft's text the label of the draft's signal of its name, and 0 where
/// there is none. The labels are those of the draft's signals.
///
/// # Errors
///
/// Out of memory.
pub fn labels_by_name(
    alloc: Global,
    draft: &NetlistData,
    labels: &[u32],
    read: &Netlist,
) -> Result<Vec<u32>, AllocError> {
    let by_name = labels_of_names(alloc, &draft.names, labels)?;
    labels_of_signals(alloc, &by_name, &read.parts().names)
}
