//! Which nets join which tables of a network.

use base_lists::Items;
use map_network::{NetTable, Network, Source};
use std::alloc::{AllocError, Global};

/// The tables that drive or read a net, each once, and whether a pin of the machine is on it.
#[derive(Drop)]
pub struct TablesOfNet {
    pub tables: Items<usize>,
    pub pinned: bool,
}

/// The nets, and for each table the nets that it is on.
#[derive(Drop)]
pub struct Links {
    pub nets: Vec<TablesOfNet>,
    pub nets_of: Vec<Items<usize>>,
}

// So many nets on which no table is yet.
fn push_nets(
    alloc: Global,
    nets: &mut Vec<TablesOfNet>,
    count: usize,
    pinned: bool,
) -> Result<(), AllocError> {
    for index in 0..count {
        let _ = index;
        nets.push(TablesOfNet {
            tables: Items::empty(alloc),
            pinned,
        })?;
    }
    Ok(())
}

// So many tables on no net.
fn push_tables(
    alloc: Global,
    nets_of: &mut Vec<Items<usize>>,
    count: usize,
) -> Result<(), AllocError> {
    for index in 0..count {
        let _ = index;
        nets_of.push(Items::empty(alloc))?;
    }
    Ok(())
}

// The number of a source's net.
fn net_of(network: &Network, source: Source) -> usize {
    match source {
        Source::Input(k) => k as usize,
        Source::Table(j) => network.inputs as usize + j as usize,
    }
}

// Whether a list ends with this number.
fn ends_with(numbers: &[usize], number: usize) -> bool {
    numbers.len() > 0 && numbers[numbers.len() - 1] == number
}

// Puts a table on a net, unless it was the last to be put there.
fn join(links: &mut Links, net: usize, table: usize) -> Result<(), AllocError> {
    if net < links.nets.len() && table < links.nets_of.len() {
        if !ends_with(links.nets[net].tables.as_slice(), table) {
            links.nets[net].tables.push(table)?;
            links.nets_of[table].push(net)?;
        }
    }
    Ok(())
}

// Puts a table on the nets that it drives and reads.
fn join_all(
    links: &mut Links,
    network: &Network,
    number: usize,
    table: &NetTable,
) -> Result<(), AllocError> {
    join(
        links,
        (network.inputs as usize).saturating_add(number),
        number,
    )?;
    for source in table.ins.as_slice() {
        join(links, net_of(network, *source), number)?;
    }
    Ok(())
}

// The nets of the outputs have pins.
fn pin_outputs(links: &mut Links, network: &Network) {
    for source in network.outputs.as_slice() {
        let net = net_of(network, *source);
        if net < links.nets.len() {
            links.nets[net].pinned = true;
        }
    }
}

/// The nets of a network and its tables.
pub fn links_of(alloc: Global, network: &Network) -> Result<Links, AllocError> {
    let tables = network.tables.as_slice();
    let mut nets = Vec::new(alloc);
    let mut nets_of = Vec::new(alloc);
    push_nets(alloc, &mut nets, network.inputs as usize, true)?;
    push_nets(alloc, &mut nets, tables.len(), false)?;
    push_tables(alloc, &mut nets_of, tables.len())?;
    let mut links = Links { nets, nets_of };
    for j in 0..tables.len() {
        join_all(&mut links, network, j, &tables[j])?;
    }
    pin_outputs(&mut links, network);
    Ok(links)
}
