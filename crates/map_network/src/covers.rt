//! The tables of covers.

ghost use Rattle.std.specs.Prelude.{◌≡◌, ◌<◌, ◌≤◌, ◌+◌, ◌-◌, ◌++◌, ◌∷◌, [], false, length, map, OnOk, slice_index_or};
ghost use Rattle.design_netlist.specs.Covers.{IsCoverOver};
ghost use Rattle.map_network.specs.Plain.{distinct, row_wants, rows_wants, tree, trees, tree_ends, want_table, wide_tables, narrow_table};
ghost use Rattle.map_network.specs.Plain.{cover_tables, covers_tables, cover_size};
ghost use Rattle.map_network.specs.declared.want.Gate.TheVariants.{All};
ghost use Rattle.map_network.specs.Sizes.{want_of, rows_size, tree_size};
ghost use Rattle.map_network.specs.Drives.{source_in};
ghost use Rattle.map_network.specs.Bounds.{AreCovers, AreBelow};

use crate::cells::{cover_cells, masks_of};
use crate::names::distinct_names;
use crate::network::NetTable;
use crate::source::{Source, Sources};
use crate::trees::{push_tree, want_table};
use crate::want::{Gate, Want};
use design_netlist::{Cover, Lit};
use std::alloc::{AllocError, Global};

/// Adds the want of an entry of a row, if it isn't `-`.
fn push_want(wants: &mut Vec<Want>, source: Source, lit: Lit) -> Result<(), AllocError>
    ensures { OnOk result (wants.new.items ≡ wants.old.items ++ want_of source lit) }
{
    match lit {
        Lit::Zero | Lit::One => {
            wants.push(Want { source, lit })?;
        }
        Lit::Any => {}
    }
    Ok(())
}

/// Makes the wants those of a row.
fn gather(
    wants: &mut Vec<Want>,
    sources: &[Source],
    row: &[Lit],
    ins: &[u32],
) -> Result<(), AllocError>
    requires len { length row.now ≡ length ins.now }
    requires within { AreBelow (length sources.now) ins.now }
    ensures { OnOk result (wants.new.items ≡ row_wants (source_in sources.now) row.now ins.now) }
{
    wants.clear();
    'places: for k in 0..row.len() {
        push_want(wants, sources[ins[k] as usize], row[k])?;
    }
    Ok(())
}

/// Adds a tree of AND for the row, and its last table to the ends.
fn push_row(
    alloc: Global,
    tables: &mut Vec<NetTable>,
    wants: &mut Vec<Want>,
    ends: &mut Vec<Want>,
) -> Result<(), AllocError>
    requires { length tables.old.items + tree_size (length wants.old.items) < 4294967296 }
    ensures tables { OnOk result (tables.new.items ≡ tables.old.items ++ tree All false (length tables.old.items) wants.old.items) }
    ensures ends { OnOk result (ends.new.items ≡ ends.old.items ++ want_table (length tables.new.items - 1) ∷ []) }
{
    push_tree(alloc, tables, wants, Gate::All, false)?;
    ends.push(want_table(tables.len() - 1))?;
    Ok(())
}

/// Adds a tree of AND for each row, and makes the ends their last tables.
fn push_rows(
    alloc: Global,
    tables: &mut Vec<NetTable>,
    wants: &mut Vec<Want>,
    ends: &mut Vec<Want>,
    sources: &[Source],
    cover: &Cover,
) -> Result<(), AllocError>
    requires made { IsCoverOver cover.now (length sources.now) }
    requires room { length tables.old.items + rows_size cover.now.rows < 4294967296 }
    ensures tables { OnOk result (tables.new.items ≡ tables.old.items ++ trees (length tables.old.items)
        (rows_wants (source_in sources.now) cover.now)) }
    ensures ends { OnOk result (ends.new.items ≡ tree_ends (length tables.old.items) (rows_wants (source_in sources.now) cover.now)) }
{
    let rows = cover.rows.as_slice();
    let ins = cover.ins.as_slice();
    ends.clear();
    'rows: for k in 0..rows.len() {
        gather(wants, sources, rows[k].as_slice(), ins)?;
        push_row(alloc, tables, wants, ends)?;
    }
    Ok(())
}

/// Adds the trees of a cover of more than six different inputs.
fn push_wide(
    alloc: Global,
    tables: &mut Vec<NetTable>,
    wants: &mut Vec<Want>,
    ends: &mut Vec<Want>,
    sources: &[Source],
    cover: &Cover,
) -> Result<(), AllocError>
    requires made { IsCoverOver cover.now (length sources.now) }
    requires room { length tables.old.items + (rows_size cover.now.rows + tree_size (length cover.now.rows)) < 4294967296 }
    ensures { OnOk result (tables.new.items ≡ tables.old.items ++ wide_tables (source_in sources.now) (length tables.old.items) cover.now) }
{
    push_rows(alloc, tables, wants, ends, sources, cover)?;
    push_tree(alloc, tables, ends, Gate::Some, cover.off)?;
    Ok(())
}

/// What gives the signals of these names.
fn sources_of(alloc: Global, names: &[u32], sources: &[Source]) -> Sources
    requires few { length names.now ≤ 6 }
    requires within { AreBelow (length sources.now) names.now }
    ensures { result ≡ map (source_in sources.now) names.now }
{
    let mut ins = Sources::new(alloc);
    'names: for k in 0..names.len() {
        ins.push(sources[names[k] as usize]);
    }
    ins
}

/// Adds the table of a cover whose different inputs have these names.
fn push_narrow(
    alloc: Global,
    tables: &mut Vec<NetTable>,
    names: &[u32],
    sources: &[Source],
    cover: &Cover,
) -> Result<(), AllocError>
    requires made { IsCoverOver cover.now (length sources.now) }
    requires names { names.now ≡ distinct cover.now.ins }
    requires few { length names.now ≤ 6 }
    ensures { OnOk result (tables.new.items ≡ tables.old.items ++ narrow_table (source_in sources.now) cover.now ∷ []) }
{
    let masks = masks_of(alloc, names, cover.ins.as_slice())?;
    tables.push(NetTable {
        ins: sources_of(alloc, names, sources),
        cells: cover_cells(cover, names, &masks),
        latched: false,
        init: false,
    })?;
    Ok(())
}

/// Adds the tables of a cover.
fn push_cover(
    alloc: Global,
    tables: &mut Vec<NetTable>,
    wants: &mut Vec<Want>,
    ends: &mut Vec<Want>,
    sources: &[Source],
    cover: &Cover,
) -> Result<(), AllocError>
    requires made { IsCoverOver cover.now (length sources.now) }
    requires room { length tables.old.items + cover_size cover.now < 4294967296 }
    ensures { OnOk result (tables.new.items ≡ tables.old.items ++ cover_tables (source_in sources.now)
        (length tables.old.items) cover.now) }
{
    if let Some(names) = distinct_names(alloc, cover.ins.as_slice())? {
        push_narrow(alloc, tables, &names, sources, cover)?;
        return Ok(());
    }
    push_wide(alloc, tables, wants, ends, sources, cover)?;
    Ok(())
}

/// Adds the tables of the covers, one cover after the other.
pub fn push_covers(
    alloc: Global,
    tables: &mut Vec<NetTable>,
    sources: &[Source],
    covers: &[Cover],
) -> Result<(), AllocError>
    requires covers { AreCovers covers.now (length sources.now) }
    requires begun { tables.old.items ≡ [] }
    ensures { OnOk result (tables.new.items ≡ covers_tables (source_in sources.now) 0 covers.now) }
{
    let mut wants = Vec::new(alloc);
    let mut ends = Vec::new(alloc);
    'covers: for k in 0..covers.len() {
        push_cover(alloc, tables, &mut wants, &mut ends, sources, &covers[k])?;
    }
    Ok(())
}
