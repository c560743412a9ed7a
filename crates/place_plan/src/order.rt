//! The in-order plan.
ghost use Rattle.std.specs.Prelude.{◌≡◌, ◌<◌, ◌≤◌, ◌+◌, map, min, IfOk, length};
ghost use Rattle.place_plan.specs.Lists.{AreThose};
ghost use Rattle.place_plan.specs.Plans.{IsFreePinOf, IsFreeTableOf, IsInOrderOf, number_of};

use crate::numbers::push_if;
use crate::plan::Plan;
use crate::short::Need;
use base_lists::Items;
use machine_defects::Defects;
use machine_shape::{Pin, Table};
use map_network::Network;
use std::alloc::{AllocError, Global};

/// The free tables, ascending.
pub fn free_tables(alloc: Global, defects: &Defects) -> Result<Items<u32>, AllocError>
    ensures { IfOk result (AreThose (IsFreeTableOf defects.now.shape defects.now.list)) }
{
    let shape = defects.shape();
    let mut tables = Items::empty(alloc);
    for t in 0..shape.tables() {
        push_if(&mut tables, t, defects.free_table(Table(t)))?;
    }
    Ok(tables)
}

/// The free pins, ascending.
pub fn free_pins(alloc: Global, defects: &Defects) -> Result<Items<u32>, AllocError>
    ensures { IfOk result (AreThose (IsFreePinOf defects.now.shape defects.now.list)) }
{
    let shape = defects.shape();
    let mut pins = Items::empty(alloc);
    for k in 0..shape.pins() {
        push_if(&mut pins, k, defects.free_wire(shape.pin(Pin(k))))?;
    }
    Ok(pins)
}

/// How many tables a network wants, where so many are free and at most so many may be on.
pub fn tables_wanted(network: &Network, free: &[u32], most: u16) -> Need
    ensures need { result.need ≡ length network.now.tables }
    ensures have { result.have ≡ min (length free.now) most }
{
    Need {
        need: network.tables.as_slice().len() as u64,
        have: free.len().min(most as usize) as u64,
    }
}

/// How many pins a network wants, where so many are free.
pub fn pins_wanted(network: &Network, free: &[u32]) -> Need
    ensures need { result.need ≡ network.now.inputs + length network.now.outputs }
    ensures have { result.have ≡ length free.now }
{
    Need {
        need: network.inputs as u64 + network.outputs.as_slice().len() as u64,
        have: free.len() as u64,
    }
}

// These numbers as tables.
fn as_tables(alloc: Global, numbers: &[u32]) -> Result<Items<Table>, AllocError>
    ensures { IfOk result (λ tables. map number_of tables ≡ numbers.now) }
{
    let mut tables = Items::empty(alloc);
    for number in numbers {
        tables.push(Table(*number))?;
    }
    Ok(tables)
}

// These numbers.
fn copy_numbers(alloc: Global, numbers: &[u32]) -> Result<Items<u32>, AllocError>
    ensures { IfOk result (λ copy. copy ≡ numbers.now) }
{
    let mut copy = Items::empty(alloc);
    for number in numbers {
        copy.push(*number)?;
    }
    Ok(copy)
}

/// The in-order plan on these free tables and pins.
pub fn sit(
    alloc: Global,
    network: &Network,
    tables: &[u32],
    pins: &[u32],
) -> Result<Plan, AllocError>
    requires tables { length network.now.tables ≤ length tables.now }
    requires pins { network.now.inputs + length network.now.outputs ≤ length pins.now }
    ensures { IfOk result (IsInOrderOf network.now tables.now pins.now) }
{
    let inputs = network.inputs as usize;
    let end = inputs + network.outputs.as_slice().len();
    Ok(Plan {
        tables: as_tables(alloc, &tables[..network.tables.as_slice().len()])?,
        inputs: copy_numbers(alloc, &pins[..inputs])?,
        outputs: copy_numbers(alloc, &pins[inputs..end])?,
    })
}
