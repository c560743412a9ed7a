//! Addresses, masks and marks that are made anew.

ghost use Rattle.std.specs.Prelude.{◌≡◌, ◌≢◌, ◌<◌, ◌≤◌, ℕ, length, true};
ghost use Rattle.map_network.specs.Vocabulary.{flip, cell_at};
ghost use Rattle.map_eval.specs.Pins.{AreInRange};
ghost use Rattle.map_eval.specs.Starting.{HaveAddressesTo, HaveMasksTo, IsAddress};
ghost use Rattle.map_eval.specs.States.{IsPlan, IsSized, IsKept};
ghost use Rattle.map_eval.specs.Wires.{IsShaped};

use crate::plan::Plan;
use crate::showing::bit_of;
use crate::state::{State, turned};
use crate::words::mark_differing;
use map_network::{NetTable, Network, Source};

/// The address where all pins read 1.
const ALL_ONES: u8 = 63;

// The mask of a table with these cells that gives this bit.
fn mask_of(cells: u64, value: bool) -> u64
    ensures { (a : ℕ) → a < 64 → cell_at result a ≡ flip value (cell_at cells a) }
{
    if value { !cells } else { cells }
}

// An address in which a pin that read 1 reads this.
fn with_pin(address: u8, pin: usize, bit: bool) -> u8
    requires address { address < 64 }
    requires pin { pin < 6 }
    requires one { cell_at address pin ≡ true }
    ensures low { result < 64 }
    ensures this { cell_at result pin ≡ bit }
    ensures others { (p : ℕ) → p ≢ pin → cell_at result p ≡ cell_at address p }
{
    if bit {
        return address;
    }
    turned(address, 1 << pin)
}

// The address that these sources make. A pin without one reads 1.
fn address_of(ins: &[Source], inputs: &[bool], values: &[bool]) -> u8
    requires { length ins.now ≤ 6 }
    ensures { IsAddress ins.now inputs.now values.now (length ins.now) result }
{
    let mut address = ALL_ONES;
    'pins: for pin in 0..ins.len() {
        address = with_pin(address, pin, bit_of(inputs, values, ins[pin]));
    }
    address
}

// The masks of tables that give these bits.
fn refresh_masks(masks: &mut [u64], tables: &[NetTable], values: &[bool])
    requires masks { length masks.old ≡ length tables.now }
    requires values { length values.now ≡ length tables.now }
    ensures { HaveMasksTo tables.now values.now (length tables.now) masks.new }
{
    'tables: for j in 0..tables.len() {
        masks[j] = mask_of(tables[j].cells, values[j]);
    }
}

// The addresses of tables where signals give these bits.
fn refresh_addresses(network: &Network, addresses: &mut [u8], inputs: &[bool], values: &[bool])
    requires range { AreInRange network.now }
    requires len { length addresses.old ≡ length network.now.tables }
    ensures { HaveAddressesTo network.now inputs.now values.now (length network.now.tables) addresses.new }
{
    let tables = network.tables.as_slice();
    'tables: for j in 0..tables.len() {
        addresses[j] = address_of(tables[j].ins.as_slice(), inputs, values);
    }
}

// Makes addresses and masks those of what signals give.
fn refresh_tables(plan: &Plan, state: &mut State)
    requires plan { IsPlan plan.now }
    requires shaped { IsShaped plan.now state.old }
    ensures sized { IsSized plan.now.network (length plan.now.gates.items) state.new }
    ensures values { state.new.values.items ≡ state.old.values.items }
{
    refresh_masks(
        &mut state.masks,
        plan.network.tables.as_slice(),
        &state.values,
    );
    refresh_addresses(
        &plan.network,
        &mut state.addresses,
        &state.inputs,
        &state.values,
    );
}

// Marks exactly the tables that differ.
fn refresh_marks(plan: &Plan, state: &mut State)
    requires plan { IsPlan plan.now }
    requires sized { IsSized plan.now.network (length plan.now.gates.items) state.old }
    ensures kept { IsKept plan.now state.new }
    ensures values { state.new.values.items ≡ state.old.values.items }
{
    mark_differing(&mut state.marks, &state.masks, &state.addresses);
}

/// Makes addresses, masks and marks those of what signals give.
pub fn refresh(plan: &Plan, state: &mut State)
    requires plan { IsPlan plan.now }
    requires shaped { IsShaped plan.now state.old }
    ensures kept { IsKept plan.now state.new }
    ensures values { state.new.values.items ≡ state.old.values.items }
{
    refresh_tables(plan, state);
    refresh_marks(plan, state);
}
