//! Writes a fault set.

ghost use Rattle.std.specs.Prelude.{◌≡◌, ◌≤◌, length, ◌++◌, ◌∷◌, map, filter, not, if◌then◌else◌, All, OnOk, IfOk};
ghost use Rattle.std.specs.Map.{keys_of};
ghost use Rattle.std.specs.Ordering.{nat_cmp};
ghost use Rattle.std.specs.List.Sorted.{IsStrictlySortedBy};
ghost use Rattle.machine_shape.specs.Vocabulary.{most_text};
ghost use Rattle.machine_meaning.specs.Faults.{pair_cmp};
ghost use Rattle.base_text.specs.Vocabulary.{written, written_line};
ghost use Rattle.machine_faults.specs.Adding.{CanHave};
ghost use Rattle.machine_faults.specs.Stored.{kinds_in};
ghost use Rattle.machine_faults.specs.Text.{fault_words, bit_word, IsFaultText};
ghost use Rattle.machine_faults.specs.Written.{stuck_wire_at, stuck_cross_at, wrong_cell_at, stuck_register_at, bridge_of, grouped};
ghost use Rattle.machine_faults.specs.Written.{AreAscending, IsWritten};

use crate::entries::Entries;
use crate::fault::Fault;
use crate::set::FaultSet;
use base_text::put_number;
use machine_shape::{Cross, Shape, Table, Wire};
use std::alloc::{AllocError, Global};
use std::collections::{BTreeMap, BTreeSet};

/// Appends the word of a value.
fn put_bit(text: &mut Vec<u8>, value: bool) -> Result<(), AllocError>
    ensures { OnOk result (text.new.items ≡ text.old.items ++ bit_word value) }
{
    text.push(if value { b'1' } else { b'0' })?;
    Ok(())
}

/// Appends a word behind another, with a space between.
fn put_next(text: &mut Vec<u8>, word: &[u8]) -> Result<(), AllocError>
    ensures { OnOk result (text.new.items ≡ text.old.items ++ 32 ∷ word.now) }
{
    text.push(b' ')?;
    text.extend_from_slice(word)
}

/// Appends the line of a fault.
fn put_fault(text: &mut Vec<u8>, shape: &Shape, fault: Fault) -> Result<(), AllocError>
    requires { CanHave shape.now fault }
    ensures { OnOk result (text.new.items ≡ text.old.items ++ written_line (fault_words shape.now fault)) }
{
    match fault {
        Fault::Stuck { wire, value } => {
            text.extend_from_slice(b"stuck")?;
            put_bit(text, value)?;
            put_next(text, shape.wire_name(wire).as_bytes())?;
        }
        Fault::CrossStuck { cross, closed } => {
            text.extend_from_slice(if closed {
                b"closed".as_slice()
            } else {
                b"open".as_slice()
            })?;
            let (tap, line) = shape.ends(cross);
            put_next(text, shape.wire_name(tap).as_bytes())?;
            put_next(text, shape.wire_name(line).as_bytes())?;
        }
        Fault::Cell {
            table,
            address,
            value,
        } => {
            text.extend_from_slice(b"cell")?;
            put_next(text, shape.table_name(table).as_bytes())?;
            text.push(b' ')?;
            put_number(text, u64::from(address))?;
            text.push(b' ')?;
            put_bit(text, value)?;
        }
        Fault::Register { table, value } => {
            text.extend_from_slice(b"register")?;
            put_next(text, shape.table_name(table).as_bytes())?;
            text.push(b' ')?;
            put_bit(text, value)?;
        }
        Fault::Bridge { a, b } => {
            text.extend_from_slice(b"bridge")?;
            put_next(text, shape.wire_name(a).as_bytes())?;
            put_next(text, shape.wire_name(b).as_bytes())?;
        }
    }
    text.push(b'\n')?;
    Ok(())
}

/// The numbers and their values, ascending.
fn values_in(alloc: Global, values: &BTreeMap<u32, bool>) -> Result<Vec<(u32, bool)>, AllocError>
    ensures same { IfOk result (λ v. v.items ≡ values.now.entries) }
    ensures ascend { IsStrictlySortedBy nat_cmp (keys_of values.now.entries) }
{
    values.iter().map(|(k, v)| (*k, *v)).collect(alloc)
}

/// The wires that are stuck at a value.
fn stuck_at(alloc: Global, wires: &[(u32, bool)], value: bool) -> Result<Vec<Fault>, AllocError>
    ensures { IfOk result (λ v. v.items ≡ map stuck_wire_at (filter (λ e. if value then e.1 else not e.1) wires.now)) }
{
    wires
        .iter()
        .filter(|e| if value { e.1 } else { !e.1 })
        .map(|e| Fault::Stuck {
            wire: Wire(e.0),
            value: e.1,
        })
        .collect(alloc)
}

/// The crosspoints that are stuck closed, or open.
fn crosses_at(
    alloc: Global,
    crosses: &[(u32, bool)],
    closed: bool,
) -> Result<Vec<Fault>, AllocError>
    ensures { IfOk result (λ v. v.items ≡ map stuck_cross_at (filter (λ e. if closed then e.1 else not e.1) crosses.now)) }
{
    crosses
        .iter()
        .filter(|e| if closed { e.1 } else { !e.1 })
        .map(|e| Fault::CrossStuck {
            cross: Cross(e.0),
            closed: e.1,
        })
        .collect(alloc)
}

/// The wrong cells, ascending.
fn cells_of(alloc: Global, cells: &BTreeMap<(u32, u8), bool>) -> Result<Vec<Fault>, AllocError>
    ensures all { IfOk result (λ v. v.items ≡ map wrong_cell_at cells.now.entries) }
    ensures ascend { IsStrictlySortedBy pair_cmp (keys_of cells.now.entries) }
{
    cells
        .iter()
        .map(|(k, v)| Fault::Cell {
            table: Table(k.0),
            address: k.1,
            value: *v,
        })
        .collect(alloc)
}

/// The stuck registers, ascending.
fn registers_of(alloc: Global, registers: &BTreeMap<u32, bool>) -> Result<Vec<Fault>, AllocError>
    ensures all { IfOk result (λ v. v.items ≡ map stuck_register_at registers.now.entries) }
    ensures ascend { IsStrictlySortedBy nat_cmp (keys_of registers.now.entries) }
{
    registers
        .iter()
        .map(|(k, v)| Fault::Register {
            table: Table(*k),
            value: *v,
        })
        .collect(alloc)
}

/// The bridges, ascending.
fn bridges_of(alloc: Global, pairs: &BTreeSet<(u32, u32)>) -> Result<Vec<Fault>, AllocError>
    ensures all { IfOk result (λ v. v.items ≡ map bridge_of pairs.now.keys) }
    ensures ascend { IsStrictlySortedBy pair_cmp pairs.now.keys }
{
    let mut bridges = Vec::new(alloc);
    'pairs: for p in pairs {
        bridges.push(Fault::Bridge {
            a: Wire(p.0),
            b: Wire(p.1),
        })?;
    }
    Ok(bridges)
}

/// All faults, in the order of their text.
pub fn in_order(alloc: Global, entries: &Entries) -> Result<Vec<Fault>, AllocError>
    ensures all { IfOk result (λ v. v.items ≡ grouped (kinds_in entries.now)) }
    ensures ascend { OnOk result (AreAscending (kinds_in entries.now)) }
{
    let wires = values_in(alloc, &entries.wires)?;
    let crosses = values_in(alloc, &entries.crosses)?;
    let mut faults = stuck_at(alloc, &wires, false)?;
    faults.extend_from_slice(&stuck_at(alloc, &wires, true)?)?;
    faults.extend_from_slice(&crosses_at(alloc, &crosses, false)?)?;
    faults.extend_from_slice(&crosses_at(alloc, &crosses, true)?)?;
    faults.extend_from_slice(&cells_of(alloc, &entries.cells)?)?;
    faults.extend_from_slice(&registers_of(alloc, &entries.registers)?)?;
    faults.extend_from_slice(&bridges_of(alloc, &entries.pairs)?)?;
    Ok(faults)
}

/// Appends the lines of faults.
fn put_faults(text: &mut Vec<u8>, shape: &Shape, faults: &[Fault]) -> Result<(), AllocError>
    requires { All (CanHave shape.now) faults.now }
    ensures { OnOk result (text.new.items ≡ text.old.items ++ written (map (fault_words shape.now) faults.now)) }
{
    for fault in faults {
        put_fault(text, shape, *fault)?;
    }
    Ok(())
}

/// The text of a fault set, an entry a line: what is stuck at 0, at 1, open and closed, then cells, registers and
/// bridges, each group ascending by number. Cells stand by their table, then their address; bridges, the lower wire
/// first, by that wire, then the other. It has no more bytes than are read of such a text, and reading it gives the set
/// again, unless memory is lacking.
pub fn faults_text(alloc: Global, set: &FaultSet) -> Result<Vec<u8>, AllocError>
    ensures text { IfOk result (λ text. IsWritten set.now.shape set.now.faults text.items) }
    ensures faults { IfOk result (λ text. IsFaultText set.now.shape text.items set.now.faults) }
    ensures few { IfOk result (λ text. length text.items ≤ most_text set.now.shape) }
{
    machine_shape::names_are_one_to_one();
    machine_shape::the_crosspoints_are_sound();
    machine_shape::the_numbering_is_sound();
    let shape = set.shape();
    let faults = set.in_order(alloc)?;
    let mut text = Vec::new(alloc);
    put_faults(&mut text, &shape, &faults)?;
    Ok(text)
}
