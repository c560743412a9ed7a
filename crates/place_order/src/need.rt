//! What the plan of an order needs of a machine.

use crate::count::{Strands, count_level, root_strands};
use crate::nets::{Nets, TablesOfNet};
use crate::tree::{Tier, Tree, small};
use std::alloc::{AllocError, Global};

/// The greatest needs of a level: ports and lines of a node, with those that are wanting.
#[derive(Clone, Copy)]
pub struct Need {
    pub ports: [usize; 3],
    pub lines: [usize; 4],
}

/// How good an order is: what its plan needs beyond what the machine has, and how many crosspoints the smallest machine of its tree
/// has in which it fits.
#[derive(Clone, Copy)]
pub struct Worth {
    pub beyond: u64,
    pub crosspoints: u64,
}

/// What is known of the nodes of a level: how many nets cross and visit each.
#[derive(Drop)]
pub struct Counts {
    pub crossings: Vec<u32>,
    pub visits: Vec<u32>,
}

// The greatest of these numbers, at least 1.
fn greatest(numbers: &[u32]) -> usize {
    let mut most = 1;
    'numbers: for number in numbers {
        most = most.max(*number);
    }
    most as usize
}

// Only what is wanting at the nodes of a level is counted.
fn counts_of(alloc: Global, tier: &Tier) -> Result<Counts, AllocError> {
    let crossings = Vec::from_slice(alloc, &tier.no_ports)?;
    let visits = Vec::from_slice(alloc, &tier.no_lines)?;
    Ok(Counts { crossings, visits })
}

// What is known of the nodes of all levels below the root.
#[derive(Drop)]
struct AllCounts {
    hextants: Counts,
    chips: Counts,
    modules: Counts,
}

// Only what is wanting at the nodes of all levels is counted.
fn all_counts(alloc: Global, tree: &Tree) -> Result<AllCounts, AllocError> {
    let [hextants, chips, modules] = &tree.tiers;
    let hextants = counts_of(alloc, hextants)?;
    let chips = counts_of(alloc, chips)?;
    let modules = counts_of(alloc, modules)?;
    Ok(AllCounts {
        hextants,
        chips,
        modules,
    })
}

// How many children nodes of chips and of modules have.
#[derive(Clone, Copy)]
struct Children {
    chips: usize,
    modules: usize,
}

// Those of a tree.
fn children_in(tree: &Tree) -> Children {
    let [_, chips, modules] = &tree.tiers;
    Children {
        chips: chips.children,
        modules: modules.children,
    }
}

// Counts the crossings and visits of a net at all levels.
fn count_levels(
    counts: &mut AllCounts,
    strands: &mut Strands,
    children: Children,
    pinned: bool,
) -> Result<(), AllocError> {
    count_level(&mut counts.hextants, strands, children.chips, pinned)?;
    count_level(&mut counts.chips, strands, children.modules, pinned)?;
    count_level(&mut counts.modules, strands, usize::MAX, pinned)
}

// Counts the crossings and visits of a net at all levels; whether it visits the root.
fn count_net(
    counts: &mut AllCounts,
    strands: &mut Strands,
    children: Children,
    pins: u32,
) -> Result<bool, AllocError> {
    count_levels(counts, strands, children, pins > 0)?;
    Ok(root_strands(strands).saturating_add(pins as usize) >= 2)
}

// Counts the crossings and visits of all nets; how many of these visit the root.
fn count_nets(
    alloc: Global,
    counts: &mut AllCounts,
    nets: &[TablesOfNet],
    tree: &Tree,
    seats: &[u32],
) -> Result<u32, AllocError> {
    let children = children_in(tree);
    let span = tree.span();
    let mut visits = small(tree.no_lines);
    let mut strands = Strands::new(alloc);
    'nets: for net in nets {
        strands.begin(net, span, seats)?;
        if count_net(counts, &mut strands, children, net.pins)? {
            visits = visits.saturating_add(1);
        }
    }
    Ok(visits)
}

// The needs of nodes of which so much is counted, and of which nets visit the root.
fn need_in(counts: &AllCounts, visits: u32) -> Need {
    let low = greatest(&counts.hextants.crossings);
    let middle = greatest(&counts.chips.crossings);
    let high = greatest(&counts.modules.crossings);
    Need {
        ports: [low, middle, high],
        lines: lines_in(counts, (visits as usize).max(1)),
    }
}

// The lines that nodes need, those of the root last.
fn lines_in(counts: &AllCounts, root: usize) -> [usize; 4] {
    let low = greatest(&counts.hextants.visits);
    let middle = greatest(&counts.chips.visits);
    let high = greatest(&counts.modules.visits);
    [low, middle, high, root]
}

/// What the plan needs in which tables have these seats.
pub fn need_of(alloc: Global, nets: &Nets, tree: &Tree, seats: &[u32]) -> Result<Need, AllocError> {
    let mut counts = all_counts(alloc, tree)?;
    let visits = count_nets(alloc, &mut counts, &nets.nets, tree, seats)?;
    Ok(need_in(&counts, visits))
}

// How far a need is beyond what there is.
fn excess_of(need: usize, have: usize) -> u64 {
    need.saturating_sub(have) as u64
}

// The needs beyond what a level has.
fn beyond_tier(need: &Need, tier: &Tier, level: usize) -> u64 {
    let ports = need.ports.get(level).copied().unwrap_or(0);
    let lines = need.lines.get(level).copied().unwrap_or(0);
    excess_of(ports, tier.ports).saturating_add(excess_of(lines, tier.lines))
}

// The crosspoints of all crossbars of a level: so many nodes with so many taps and lines each.
fn crossbars(nodes: usize, taps: usize, lines: usize) -> u64 {
    let lines = (lines as u64).saturating_mul(nodes as u64);
    (taps as u64).saturating_mul(lines)
}

// The taps of a node: so many of each child, and some of its own.
fn taps(children: usize, each: usize, own: usize) -> usize {
    children.saturating_mul(each).saturating_add(own)
}

// The crosspoints of hextants and chips.
fn low_crosspoints(need: &Need, hextants: &Tier, chips: &Tier) -> u64 {
    let [low, middle, _] = need.ports;
    let first = crossbars(hextants.nodes, taps(hextants.span, 7, low), need.lines[0]);
    let second = crossbars(
        chips.nodes,
        taps(chips.children, low, middle),
        need.lines[1],
    );
    first.saturating_add(second)
}

// The crosspoints of modules and of the root.
fn high_crosspoints(need: &Need, modules: &Tier, pins: usize) -> u64 {
    let [_, middle, high] = need.ports;
    let third = crossbars(
        modules.nodes,
        taps(modules.children, middle, high),
        need.lines[2],
    );
    let root = crossbars(1, taps(modules.nodes, high, pins), need.lines[3]);
    third.saturating_add(root)
}

/// How many crosspoints the machine has that has just what is needed.
pub fn crosspoints(need: &Need, tree: &Tree, pins: usize) -> u64 {
    let [hextants, chips, modules] = &tree.tiers;
    low_crosspoints(need, hextants, chips).saturating_add(high_crosspoints(need, modules, pins))
}

/// How good a plan of these needs is.
pub fn worth_of(need: &Need, tree: &Tree, pins: usize) -> Worth {
    let [hextants, chips, modules] = &tree.tiers;
    let root = excess_of(need.lines[3], tree.lines);
    let low = beyond_tier(need, hextants, 0).saturating_add(beyond_tier(need, chips, 1));
    let high = beyond_tier(need, modules, 2).saturating_add(root);
    Worth {
        beyond: low.saturating_add(high),
        crosspoints: crosspoints(need, tree, pins),
    }
}

/// Whether the first is better.
pub fn is_better(a: Worth, b: Worth) -> bool {
    a.beyond < b.beyond || a.beyond == b.beyond && a.crosspoints < b.crosspoints
}
