//! A network with tables put into their readers.

ghost use Rattle.std.specs.Prelude.{◌≡◌, ◌<◌, ◌≤◌, ◌↔◌, List, Bool, true, length, IfOk, IfSome};
ghost use Rattle.map_network.specs.Networks.{IsNetwork, IsNoDeeper};
ghost use Rattle.map_network.specs.Rows.{AreRows, HasRowsOf};
ghost use Rattle.map_network.specs.Plain.{plain_network};
ghost use Rattle.map_network.specs.Merging.{CanJoin, IsWhole};
ghost use Rattle.map_network.specs.Compacting.{is_dropped, IsClosed};
ghost use Rattle.map_network.specs.Leading.{AllLead};
ghost use Rattle.map_network.specs.Merges.{none_gone, IsMergedFrom};
ghost use Rattle.map_network.specs.Passes.{IsFound, IsMergedOf, IsSmaller};

use crate::build::plain;
use crate::compact::{compacted, is_closed};
use crate::copying::{copied_network, copied_sources, copied_tables};
use crate::network::Network;
use crate::readers::{find_joinable, readers_of};
use crate::useless::without_useless;
use crate::work::{Work, join, run};
use base_lists::Items;
use design_netlist::Netlist;
use std::alloc::{AllocError, Global};

/// A network in which tables were put into their readers, and the marks of those that were.
#[derive(Debug, Drop)]
pub struct Found {
    pub network: Network,
    pub gone: Vec<bool>,
}

/// Whether these marks are those of tables that nothing else reads, the given one among them.
fn are_right(network: &Network, marks: &[bool], table: u32) -> bool
    requires network { IsNetwork network.now }
    requires within { table < length network.now.tables }
    ensures { result ≡ true → IsClosed marks.now network.now.tables network.now.outputs × (is_dropped marks.now table ≡ true) }
{
    if marks.len() != network.tables.as_slice().len() {
        return false;
    }
    if !marks[table as usize] {
        return false;
    }
    is_closed(marks, network)
}

/// The numbers below this, in order.
fn numbers_below(alloc: Global, count: u32) -> Result<Vec<u32>, AllocError> {
    let mut numbers = Vec::with_capacity(alloc, count as usize)?;
    'numbers: for number in 0..count {
        numbers.push(number)?;
    }
    Ok(numbers)
}

/// The work on a network, of which nothing is put into a reader yet.
fn work_on(alloc: Global, network: &Network) -> Result<Work, AllocError>
    requires { IsNetwork network.now }
    ensures tables { IfOk result (λ work. work.tables.items ≡ network.now.tables) }
    ensures merged { IfOk result (λ work. work.merged.items ≡ none_gone network.now) }
{
    let tables = copied_tables(alloc, network.tables.as_slice())?;
    let count = tables.len();
    let readers = readers_of(alloc, network.tables.as_slice(), network.outputs.as_slice())?;
    let merged = vec![in alloc; false; count]?;
    let queue = numbers_below(alloc, count as u32)?;
    Ok(Work {
        tables,
        readers,
        merged,
        queue,
    })
}

/// The network that work has come to.
fn found_by(alloc: Global, network: &Network, work: Work) -> Result<Found, AllocError>
    ensures network { IfOk result (λ found. found.network ≡
        record { inputs = network.now.inputs; tables = work.tables.items; outputs = network.now.outputs }) }
    ensures gone { IfOk result (λ found. found.gone.items ≡ work.merged.items) }
{
    let outputs = copied_sources(alloc, network.outputs.as_slice())?;
    let Work { tables, merged, .. } = work;
    Ok(Found {
        network: Network {
            inputs: network.inputs,
            tables: Items::new(tables),
            outputs: Items::new(outputs),
        },
        gone: merged,
    })
}

/// The network with the table put into its reader, and with whatever else the search finds. None where something still
/// reads a table that the search has put into a reader.
fn search_from(
    alloc: Global,
    network: &Network,
    table: u32,
    reader: u32,
) -> Result<Option<Found>, AllocError>
    requires network { IsNetwork network.now }
    requires within { table < length network.now.tables }
    ensures { IfOk result (λ o. IfSome o (IsFound network.now table)) }
{
    let mut work = work_on(alloc, network)?;
    join(alloc, &mut work, table, reader)?;
    run(alloc, &mut work)?;
    let found = found_by(alloc, network, work)?;
    if are_right(&found.network, &found.gone, table) {
        return Ok(Some(found));
    }
    Ok(None)
}

/// The network with the table put into its reader, and nothing else.
fn joined_alone(
    alloc: Global,
    network: &Network,
    table: u32,
    reader: u32,
) -> Result<Found, AllocError>
    requires network { IsNetwork network.now }
    requires can { CanJoin network.now table reader }
    ensures { IfOk result (IsFound network.now table) }
{
    let mut work = work_on(alloc, network)?;
    join(alloc, &mut work, table, reader)?;
    let found = found_by(alloc, network, work)?;
    Ok(found)
}

/// The network with the table put into its reader, and with what the search finds if it is right. The tables are many:
/// the old ones go before the list without those that are gone is made.
fn found_in(alloc: Global, network: Network, table: u32, reader: u32) -> Result<Found, AllocError>
    requires network { IsNetwork network }
    requires can { CanJoin network table reader }
    ensures { IfOk result (IsFound network table) }
{
    if let Some(found) = search_from(alloc, &network, table, reader)? {
        return Ok(found);
    }
    joined_alone(alloc, &network, table, reader)
}

/// The network with the table put into its reader, and with whatever else the search finds.
fn reduce_from(
    alloc: Global,
    network: Network,
    table: u32,
    reader: u32,
) -> Result<Network, AllocError>
    requires network { IsNetwork network }
    requires can { CanJoin network table reader }
    ensures { IfOk result (λ smaller. IsSmaller network smaller) }
{
    let found = found_in(alloc, network, table, reader)?;
    let smaller = compacted(alloc, &found.network, &found.gone)?;
    Ok(smaller)
}

/// The network without the tables that lead to no output, in which tables are put into their readers until none can be.
fn merged_whole(alloc: Global, whole: Network) -> Result<Network, AllocError>
    requires { IsNetwork whole }
    ensures merged { IfOk result (λ network. IsMergedOf whole network) }
    ensures whole { IfOk result (λ network. IsWhole network) }
{
    let mut network = without_useless(alloc, whole)?;
    let mut found = find_joinable(alloc, &network)?;
    'passes: while let Some((table, reader)) = found {
        network = reduce_from(alloc, network, table, reader)?;
        found = find_joinable(alloc, &network)?;
    }
    Ok(network)
}

/// A network without the tables that lead to no output, in which tables are put into their readers until none can be: a
/// combinational table that exactly one table reads and no output, where both have at most six different sources together. It has
/// the same rows, and is no deeper. The time is near linear in the number of tables.
///
/// # Errors
///
/// Out of memory.
pub fn merged_of(alloc: Global, network: &Network) -> Result<Network, AllocError>
    requires { IsNetwork network.now }
    ensures network { IfOk result (λ merged. IsNetwork merged) }
    ensures rows { IfOk result (λ merged. (vectors rows : List (List Bool)) →
        AreRows network.now vectors rows ↔ AreRows merged vectors rows) }
    ensures fewer { IfOk result (λ merged. length merged.tables ≤ length network.now.tables) }
    ensures inputs { IfOk result (λ merged. merged.inputs ≡ network.now.inputs) }
    ensures outputs { IfOk result (λ merged. length merged.outputs ≡ length network.now.outputs) }
    ensures merged { IfOk result (λ merged. IsMergedFrom network.now merged) }
    ensures whole { IfOk result (λ merged. IsWhole merged) }
    ensures leads { IfOk result (λ merged. AllLead merged) }
    ensures shallow { IfOk result (λ merged. IsNoDeeper network.now merged) }
{
    let whole = copied_network(alloc, network)?;
    let merged = merged_whole(alloc, whole)?;
    Ok(merged)
}

/// The plain network of a design without the tables that lead to no output, in which tables are put into their readers until
/// none can be, as [`merged_of`] does it.
/// Its rows are the design's.
///
/// # Errors
///
/// Out of memory.
pub fn merge_tables(alloc: Global, netlist: &Netlist) -> Result<Network, AllocError>
    ensures network { IfOk result (λ network. IsNetwork network) }
    ensures rows { IfOk result (λ network. HasRowsOf network netlist.now) }
    ensures fewer { IfOk result (λ network. length network.tables ≤ length (plain_network netlist.now).tables) }
    ensures inputs { IfOk result (λ network. network.inputs ≡ length netlist.now.inputs) }
    ensures outputs { IfOk result (λ network. length network.outputs ≡ length netlist.now.outputs) }
    ensures merged { IfOk result (λ network. IsMergedFrom (plain_network netlist.now) network) }
    ensures whole { IfOk result (λ network. IsWhole network) }
    ensures leads { IfOk result (λ network. AllLead network) }
    ensures shallow { IfOk result (λ network. IsNoDeeper (plain_network netlist.now) network) }
{
    let whole = plain(alloc, netlist)?;
    let network = merged_whole(alloc, whole)?;
    Ok(network)
}
