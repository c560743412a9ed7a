//! A network whose tables are numbered anew.

ghost use Rattle.std.specs.Prelude.{◌≡◌, ◌<◌, true, false, length, IfOk, IfSome};
ghost use Rattle.map_network.specs.Networks.{IsNetwork, IsSourceOf};
ghost use Rattle.map_eval.specs.Pins.{AreInRange};
ghost use Rattle.map_eval.specs.States.{IsLower, IsOrdered};
ghost use Rattle.map_eval.specs.Placing.{AreInverse, AreInsInRange, AreInsLower, ArePlaced, IsPlaced, IsStandIn};

use base_lists::Items;
use map_network::{NetTable, Network, Source, renamed_outputs, renamed_table};
use std::alloc::{AllocError, Global};

// The place of each table in the order, or the number of tables if it doesn't stand there.
fn places_in(alloc: Global, order: &[u32], count: usize) -> Result<Vec<u32>, AllocError>
    requires { count < 4294967296 }
{
    let mut places = vec![in alloc; count as u32; count]?;
    let mut place = 0;
    'order: for table in order {
        if (*table as usize) < places.len() {
            places[*table as usize] = place;
        }
        place = place.saturating_add(1);
    }
    Ok(places)
}

// Whether each table stands at its place in the order.
fn are_inverse(places: &[u32], order: &[u32]) -> bool
    requires { length order.now ≡ length places.now }
    ensures { result ≡ true → AreInverse places.now order.now }
{
    'tables: for table in 0..places.len() {
        let place = places[table] as usize;
        if place >= order.len() {
            return false;
        }
        if order[place] as usize != table {
            return false;
        }
    }
    true
}

// The tables in this order, with their new numbers.
fn tables_in(
    alloc: Global,
    network: &Network,
    places: &[u32],
    order: &[u32],
) -> Result<Option<Vec<NetTable>>, AllocError>
    requires network { IsNetwork network.now }
    requires places { length places.now ≡ length network.now.tables }
    ensures { IfOk result (λ o. IfSome o (λ tables. ArePlaced network.now places.now order.now (length order.now) tables.items)) }
{
    let tables = network.tables.as_slice();
    let mut placed = Vec::with_capacity(alloc, order.len())?;
    'order: for k in 0..order.len() {
        let table = order[k] as usize;
        if table >= tables.len() {
            return Ok(None);
        }
        placed.push(renamed_table(alloc, places, &tables[table]))?;
    }
    Ok(Some(placed))
}

// The network with its tables in this order, if each stands there once.
fn placed_in(alloc: Global, network: &Network, order: &[u32]) -> Result<Option<Network>, AllocError>
    requires { IsNetwork network.now }
    ensures { IfOk result (λ o. IfSome o (IsPlaced network.now)) }
{
    let count = network.tables.as_slice().len();
    let places = places_in(alloc, order, count)?;
    if order.len() != count {
        return Ok(None);
    }
    if places.len() != count {
        return Ok(None);
    }
    if !are_inverse(&places, order) {
        return Ok(None);
    }
    let Some(tables) = tables_in(alloc, network, &places, order)? else {
        return Ok(None);
    };
    let outputs = renamed_outputs(alloc, &places, network.outputs.as_slice())?;
    Ok(Some(Network {
        inputs: network.inputs,
        tables: Items::new(tables),
        outputs: Items::new(outputs),
    }))
}

fn is_in_range(network: &Network, source: Source) -> bool
    ensures { result ≡ true → IsSourceOf network.now source }
{
    match source {
        Source::Input(input) => input < network.inputs,
        Source::Table(table) => (table as usize) < network.tables.as_slice().len(),
    }
}

fn are_ins_in_range(network: &Network, table: usize) -> bool
    requires { table < length network.now.tables }
    ensures { result ≡ true → AreInsInRange network.now table }
{
    let ins = network.tables.as_slice()[table].ins.as_slice();
    'ins: for k in 0..ins.len() {
        if !is_in_range(network, ins[k]) {
            return false;
        }
    }
    true
}

// Whether tables read inputs and tables of the network alone.
fn are_in_range(network: &Network) -> bool
    ensures { result ≡ true → AreInRange network.now }
{
    'tables: for table in 0..network.tables.as_slice().len() {
        if !are_ins_in_range(network, table) {
            return false;
        }
    }
    true
}

// Whether a source is an input, a latched table, or one before this.
fn is_lower(network: &Network, table: usize, source: Source) -> bool
    requires { IsSourceOf network.now source }
    ensures yes { result ≡ true → IsLower network.now table source }
    ensures no { result ≡ false → IsLower network.now table source → ⊥ }
{
    match source {
        Source::Input(_) => true,
        Source::Table(other) => {
            (other as usize) < table || network.tables.as_slice()[other as usize].latched
        }
    }
}

fn are_ins_lower(network: &Network, table: usize) -> bool
    requires range { AreInRange network.now }
    requires within { table < length network.now.tables }
    ensures yes { result ≡ true → AreInsLower network.now table }
    ensures no { result ≡ false → AreInsLower network.now table → ⊥ }
{
    let ins = network.tables.as_slice()[table].ins.as_slice();
    'ins: for k in 0..ins.len() {
        if !is_lower(network, table, ins[k]) {
            return false;
        }
    }
    true
}

/// Whether each combinational table reads inputs, latched tables and tables before it alone.
pub fn is_ordered(network: &Network) -> bool
    requires { AreInRange network.now }
    ensures yes { result ≡ true → IsOrdered network.now }
    ensures no { result ≡ false → IsOrdered network.now → ⊥ }
{
    let tables = network.tables.as_slice();
    'tables: for table in 0..tables.len() {
        if !tables[table].latched {
            if !are_ins_lower(network, table) {
                return false;
            }
        }
    }
    true
}

/// The network with its tables in this order, if each stands there once, and combinational ones after what they read.
pub fn ordered_by(
    alloc: Global,
    network: &Network,
    order: &[u32],
) -> Result<Option<Network>, AllocError>
    requires { IsNetwork network.now }
    ensures { IfOk result (λ o. IfSome o (IsStandIn network.now)) }
{
    let Some(placed) = placed_in(alloc, network, order)? else {
        return Ok(None);
    };
    if !are_in_range(&placed) {
        return Ok(None);
    }
    if !is_ordered(&placed) {
        return Ok(None);
    }
    Ok(Some(placed))
}
