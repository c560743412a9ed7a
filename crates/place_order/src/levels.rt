//! How many nets cross and visit each node of a level, and what that costs.

use crate::tree::{Tier, divide_by, small};
use std::alloc::{AllocError, Global};
use std::num::saturating_f64_to_i64;

/// What counts of nets at the nodes of a level cost.
#[derive(Clone, Copy)]
pub enum Price {
    /// By the share of a machine's crosspoints that one more of the greatest count adds, in millionths; that count; and how many there
    /// may be without want.
    Share {
        share: f64,
        greatest: f64,
        limit: f64,
    },
    /// By how near a count is to what there may be at most: each more costs a fixed part more.
    Steep {
        limit: u32,
    },
}

impl Price {
    /// The share, where costs go by it.
    pub fn share(self) -> f64 {
        match self {
            Price::Share { share, .. } => share,
            Price::Steep { .. } => 0.0,
        }
    }
}

/// What one more costs beyond what there may be, in millionths.
pub const BEYOND: f64 = 20_000.0;

/// What a net costs also where others have more, against what it costs where none has.
const EACH: f64 = 0.05;

/// A count that is so many times the greatest costs what a greater one does.
const MOST_PART: f64 = 16.0;

/// How steep costs are: a count at what there may be costs so many times e more than none, about.
const STEEP: f64 = 20.0;

/// What a count at what there may be costs by steep costs, and what costs grow up to.
const AT_LIMIT: f64 = 1_000_000.0;

const MOST_STEEP: f64 = 1.0e15;

/// Counts of nets at the nodes of a level, what each count costs, how many there may be, and how many there are beyond that in sum.
#[derive(Drop)]
pub struct Gauge {
    counts: Vec<u32>,
    costs: Vec<i64>,
    limit: u32,
    over: u32,
}

/// The nodes of a level: how many tables of each net each has, how many nodes have some, and how many nets cross and visit each node.
#[derive(Drop)]
pub struct Level {
    pub span: usize,
    pub nodes: usize,
    counts: Vec<u16>,
    occupied: Vec<u32>,
    crossings: Gauge,
    visits: Gauge,
}

/// Whether a net crosses nodes of a level, before and after a change.
#[derive(Clone, Copy)]
pub struct Crosses {
    pub before: bool,
    pub after: bool,
}

impl Crosses {
    /// Whether nothing changes.
    pub fn stays(self) -> bool {
        self.before == self.after
    }
}

/// What a change costs, and whether the net crosses nodes of the level.
#[derive(Clone, Copy)]
pub struct Changed {
    pub cost: i64,
    pub crosses: Crosses,
}

/// A way from a node of a level to another one, or to the same.
#[derive(Clone, Copy)]
pub struct Way {
    pub from: usize,
    pub to: usize,
}

impl Way {
    /// Whether it leads nowhere else.
    pub fn stays(self) -> bool {
        self.from == self.to
    }
}

/// A net, and whether a pin of the machine is on it.
#[derive(Clone, Copy)]
pub struct Signal {
    pub net: usize,
    pub pinned: bool,
}

// A count against the greatest one, to the sixth power: what has fewer nets than others hardly counts.
fn weight_of(part: f64) -> f64 {
    let square = part * part;
    square * square * square
}

// What so many nets at a node cost by shares.
fn cost_of(count: f64, share: f64, greatest: f64, limit: f64) -> i64 {
    let part = count / greatest;
    let most = if part > MOST_PART { MOST_PART } else { part };
    let weight = weight_of(most) / 6.0 + part * EACH;
    let above = count - limit;
    let beyond = if above > 0.0 {
        BEYOND * above * (above + 1.0)
    } else {
        0.0
    };
    saturating_f64_to_i64(share * greatest * weight + beyond)
}

// What no net costs, where each more costs so many times more up to a limit.
fn least_steep(growth: f64, limit: u32) -> f64 {
    let mut cost = AT_LIMIT;
    'counts: for _ in 0..limit {
        cost = cost / growth;
    }
    cost
}

// How many times more each more costs, up to a limit.
fn growth_to(limit: u32) -> f64 {
    let part = STEEP / limit.max(1) as f64;
    1.0 + part * (1.0 + part / 2.0 * (1.0 + part / 3.0))
}

// The steep costs of counts up to this one.
fn steep_costs(alloc: Global, most: usize, limit: u32) -> Result<Vec<i64>, AllocError> {
    let growth = growth_to(limit);
    let mut cost = least_steep(growth, limit);
    let mut costs = Vec::with_capacity(alloc, most)?;
    'counts: for _ in 0..most {
        costs.push(saturating_f64_to_i64(cost))?;
        if cost < MOST_STEEP {
            cost = cost * growth;
        }
    }
    Ok(costs)
}

// The costs by shares of counts up to this one.
fn share_costs(
    alloc: Global,
    most: usize,
    share: f64,
    greatest: f64,
    limit: f64,
) -> Result<Vec<i64>, AllocError> {
    let mut costs = Vec::with_capacity(alloc, most)?;
    'counts: for count in 0..most {
        let cost = cost_of(small(count) as f64, share, greatest, limit);
        costs.push(cost)?;
    }
    Ok(costs)
}

// The costs of counts up to this one.
fn costs_of(alloc: Global, most: usize, price: Price) -> Result<Vec<i64>, AllocError> {
    match price {
        Price::Share {
            share,
            greatest,
            limit,
        } => share_costs(alloc, most, share, greatest, limit),
        Price::Steep { limit } => steep_costs(alloc, most, limit),
    }
}

// How many are beyond a limit in sum.
fn beyond_limit(counts: &[u32], limit: u32) -> u32 {
    let mut over = 0u32;
    'nodes: for count in counts {
        over = over.saturating_add(count.saturating_sub(limit));
    }
    over
}

// The greatest of these counts.
fn greatest_of(counts: &[u32]) -> u32 {
    let mut most = 0u32;
    'nodes: for count in counts {
        most = most.max(*count);
    }
    most
}

/// So many nets at nodes, those that are wanting, where there may be so many at each.
pub fn gauge_of(
    alloc: Global,
    wanting: &[u32],
    limit: usize,
    nets: usize,
    price: Price,
) -> Result<Gauge, AllocError> {
    let most = nets.saturating_add(greatest_of(wanting) as usize);
    let costs = costs_of(alloc, most.saturating_add(2), price)?;
    let counts = Vec::from_slice(alloc, wanting)?;
    Ok(Gauge {
        counts,
        costs,
        limit: small(limit),
        over: beyond_limit(wanting, small(limit)),
    })
}

// Puts a number at a place, if there is one.
fn put(numbers: &mut Vec<u32>, place: usize, number: u32) {
    if place < numbers.len() {
        numbers[place] = number;
    }
}

// One more at a place; whether it is the first one there.
fn add_one(counts: &mut Vec<u16>, place: usize) -> bool {
    if place >= counts.len() {
        return false;
    }
    let old = counts[place];
    counts[place] = old.saturating_add(1);
    old == 0
}

// One less at a place; whether it was the last one there.
fn take_one(counts: &mut Vec<u16>, place: usize) -> bool {
    if place >= counts.len() {
        return false;
    }
    let old = counts[place];
    counts[place] = old.saturating_sub(1);
    old == 1
}

// A net counts at the nodes of a way before and after a change, or doesn't, where its last table left the first node or its first one
// came to the second; what that costs.
fn turn_both(gauge: &mut Gauge, way: Way, counts: Crosses, left: bool, came: bool) -> i64 {
    let first = gauge.turn(way.from, counts.before, counts.after && !left);
    let second = gauge.turn(way.to, counts.before && !came, counts.after);
    first.wrapping_add(second)
}

impl Gauge {
    // What so many cost.
    fn cost(&self, count: u32) -> i64 {
        let place = count as usize;
        if place < self.costs.len() {
            self.costs[place]
        } else {
            0
        }
    }

    /// What the counts at all nodes cost.
    pub fn cost_of_all(&self) -> i64 {
        let mut cost = 0i64;
        'nodes: for count in &self.counts {
            cost = cost.wrapping_add(self.cost(*count));
        }
        cost
    }

    /// How many there are beyond what there may be.
    pub fn over(&self) -> u32 {
        self.over
    }

    // One more net at a node that has so many; what that costs.
    fn raise(&mut self, node: usize) -> i64 {
        if node >= self.counts.len() {
            return 0;
        }
        let old = self.counts[node];
        let new = old.saturating_add(1);
        self.counts[node] = new;
        if new > self.limit {
            self.over = self.over.saturating_add(1);
        }
        self.cost(new).wrapping_sub(self.cost(old))
    }

    // One net less at a node.
    fn lower(&mut self, node: usize) -> i64 {
        if node >= self.counts.len() {
            return 0;
        }
        let old = self.counts[node];
        let new = old.saturating_sub(1);
        self.counts[node] = new;
        if old > self.limit {
            self.over = self.over.saturating_sub(1);
        }
        self.cost(new).wrapping_sub(self.cost(old))
    }

    /// A net counts at a node before and after a change, or doesn't; what that costs.
    pub fn turn(&mut self, node: usize, before: bool, after: bool) -> i64 {
        if before == after {
            0
        } else if after {
            self.raise(node)
        } else {
            self.lower(node)
        }
    }
}

/// A level without tables, with these prices of crossings and visits.
pub fn level_of(
    alloc: Global,
    tier: &Tier,
    nets: usize,
    crossings: Price,
    visits: Price,
) -> Result<Level, AllocError> {
    let counts = vec![in alloc; 0; nets.saturating_mul(tier.nodes)]?;
    let occupied = vec![in alloc; 0; nets]?;
    let crossings = gauge_of(alloc, &tier.no_ports, tier.ports, nets, crossings)?;
    let visits = gauge_of(alloc, &tier.no_lines, tier.lines, nets, visits)?;
    Ok(Level {
        span: tier.span,
        nodes: tier.nodes,
        counts,
        occupied,
        crossings,
        visits,
    })
}

impl Level {
    /// The node of a table of the machine.
    pub fn node(&self, table: usize) -> usize {
        divide_by(table, self.span)
    }

    /// The way from a table of the machine to another one.
    pub fn way(&self, from: usize, to: usize) -> Way {
        Way {
            from: self.node(from),
            to: self.node(to),
        }
    }

    /// What the counts at all nodes cost.
    pub fn cost(&self) -> i64 {
        self.crossings
            .cost_of_all()
            .wrapping_add(self.visits.cost_of_all())
    }

    /// How many ports and lines are wanting.
    pub fn over(&self) -> u32 {
        self.crossings.over().saturating_add(self.visits.over())
    }

    // How many nodes have tables of a net.
    fn occupied_nodes(&self, net: usize) -> u32 {
        if net < self.occupied.len() {
            self.occupied[net]
        } else {
            0
        }
    }

    // Where the tables of a net at a node are counted.
    fn spot(&self, net: usize, node: usize) -> usize {
        net.saturating_mul(self.nodes).saturating_add(node)
    }

    // Whether a net crosses nodes.
    fn crosses(&self, signal: Signal) -> bool {
        signal.pinned || self.occupied_nodes(signal.net) > 1
    }

    /// One more table of a net at a node; whether it is the first one there.
    pub fn come(&mut self, net: usize, node: usize) -> bool {
        if net >= self.occupied.len() {
            return false;
        }
        let spot = self.spot(net, node);
        let first = add_one(&mut self.counts, spot);
        if first {
            let count = self.occupied_nodes(net).saturating_add(1);
            put(&mut self.occupied, net, count);
        }
        first
    }

    // One table of a net less at a node; whether it was the last one there.
    fn leave(&mut self, net: usize, node: usize) -> bool {
        if net >= self.occupied.len() {
            return false;
        }
        let spot = self.spot(net, node);
        let last = take_one(&mut self.counts, spot);
        if last {
            let count = self.occupied_nodes(net).saturating_sub(1);
            put(&mut self.occupied, net, count);
        }
        last
    }

    // Whether a node has tables of a net.
    fn has(&self, net: usize, node: usize) -> bool {
        match self.counts.get(self.spot(net, node)) {
            Some(count) => *count > 0,
            None => false,
        }
    }

    /// Counts the crossings and visits of a net all of whose tables have come, which crosses nodes of the level below or doesn't;
    /// whether it crosses nodes of this one.
    pub fn charge(&mut self, signal: Signal, below: bool) -> bool {
        let crosses = self.crosses(signal);
        if self.occupied_nodes(signal.net) == 0 {
            return crosses;
        }
        'nodes: for node in 0..self.nodes {
            if self.has(signal.net, node) {
                self.charge_node(node, crosses, below);
            }
        }
        crosses
    }

    // Counts a net at a node, whether it crosses it and visits it.
    fn charge_node(&mut self, node: usize, crosses: bool, visits: bool) {
        let _ = self.crossings.turn(node, false, crosses);
        let _ = self.visits.turn(node, false, visits);
    }

    /// A table of a net goes this way; whether the net crosses nodes of the level below. Only the two nodes can change: where the net
    /// begins or ceases to cross nodes, it has tables at these two alone.
    pub fn shift(&mut self, signal: Signal, way: Way, below: Crosses) -> Changed {
        let before = self.crosses(signal);
        if way.stays() {
            return Changed {
                cost: self.visits.turn(way.to, below.before, below.after),
                crosses: Crosses {
                    before,
                    after: before,
                },
            };
        }
        let left = self.leave(signal.net, way.from);
        let came = self.come(signal.net, way.to);
        let after = self.crosses(signal);
        let crosses = Crosses { before, after };
        let ports = turn_both(&mut self.crossings, way, crosses, left, came);
        let lines = turn_both(&mut self.visits, way, below, left, came);
        Changed {
            cost: ports.wrapping_add(lines),
            crosses,
        }
    }
}
