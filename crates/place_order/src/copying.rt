//! Copies of the parts of a design.

use base_lists::Items;
use design_netlist::{Cover, Cube, Names, PortDef};
use std::alloc::{AllocError, Global};

/// The same names.
pub fn copy_names(alloc: Global, names: &Names) -> Result<Names, AllocError> {
    let mut copy = Names::new(alloc);
    'names: for k in 0..names.len() {
        let name = names.get(alloc, k)?;
        copy.push(name)?;
    }
    Ok(copy)
}

/// The same words.
pub fn copy_ports(alloc: Global, ports: &[PortDef]) -> Result<Items<PortDef>, AllocError> {
    Ok(Items::new(Vec::from_slice(alloc, ports)?))
}

// The same rows.
fn copy_rows(alloc: Global, rows: &[Cube]) -> Result<Items<Cube>, AllocError> {
    let mut copy = Items::empty(alloc);
    'rows: for row in rows {
        let row = Vec::from_slice(alloc, row.as_slice())?;
        copy.push(Items::new(row))?;
    }
    Ok(copy)
}

/// The same cover.
pub fn copy_cover(alloc: Global, cover: &Cover) -> Result<Cover, AllocError> {
    let rows = copy_rows(alloc, cover.rows.as_slice())?;
    let ins = Vec::from_slice(alloc, cover.ins.as_slice())?;
    Ok(Cover {
        out: cover.out,
        ins: Items::new(ins),
        rows,
        off: cover.off,
        line: cover.line,
    })
}

/// A cover that drives a signal with 0.
pub fn empty_cover(alloc: Global, out: u32) -> Cover {
    Cover {
        out,
        ins: Items::empty(alloc),
        rows: Items::empty(alloc),
        off: false,
        line: 0,
    }
}
