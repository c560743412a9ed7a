//! What the nets at the nodes of a machine cost in an order that needs so much of it.

use crate::levels::Price;
use crate::need::{Need, crosspoints};
use crate::tree::{Tier, Tree, small};

/// In how many parts the crosspoints of a machine are counted.
const PARTS: f64 = 1_000_000.0;

/// The prices of crossings and visits at all levels, hextants first; of visits at the root; and what heat is measured in: what one
/// more net in the fullest hextant costs, or all that the seats cost.
#[derive(Clone, Copy)]
pub struct Prices {
    pub crossings: [Price; 3],
    pub visits: [Price; 3],
    pub root: Price,
    pub unit: Option<f64>,
}

// So many crosspoints of all as parts.
fn share_of(crosspoints: usize, all: u64) -> f64 {
    small(crosspoints) as f64 * PARTS / small(all.max(1) as usize) as f64
}

// The prices of crossings and visits at a level whose nodes have so many taps below: one more port is a tap in the crossbars of its
// level and the one above, one more line meets all taps.
fn tier_prices(need: &Need, tier: &Tier, level: usize, taps: usize, all: u64) -> (Price, Price) {
    let ports = need.ports.get(level).copied().unwrap_or(1);
    let lines = need.lines.get(level).copied().unwrap_or(1);
    let above = need.lines.get(level.saturating_add(1)).copied();
    let met = lines.saturating_add(above.unwrap_or(1));
    let crossings = Price::Share {
        share: share_of(tier.nodes.saturating_mul(met), all),
        greatest: small(ports) as f64,
        limit: small(tier.ports) as f64,
    };
    let visits = Price::Share {
        share: share_of(tier.nodes.saturating_mul(ports.saturating_add(taps)), all),
        greatest: small(lines) as f64,
        limit: small(tier.lines) as f64,
    };
    (crossings, visits)
}

/// What crossings and visits cost where an order needs so much, on a machine with so many pins in use.
pub fn prices_of(need: &Need, tree: &Tree, pins: usize) -> Prices {
    let [hextants, chips, modules] = &tree.tiers;
    let [low, middle, high] = need.ports;
    let all = crosspoints(need, tree, pins);
    let low_taps = hextants.span.saturating_mul(7);
    let middle_taps = chips.children.saturating_mul(low);
    let high_taps = modules.children.saturating_mul(middle);
    let root_taps = modules.nodes.saturating_mul(high).saturating_add(pins);
    let (low_port, low_line) = tier_prices(need, hextants, 0, low_taps, all);
    let (middle_port, middle_line) = tier_prices(need, chips, 1, middle_taps, all);
    let (high_port, high_line) = tier_prices(need, modules, 2, high_taps, all);
    Prices {
        crossings: [low_port, middle_port, high_port],
        visits: [low_line, middle_line, high_line],
        root: Price::Share {
            share: share_of(root_taps, all),
            greatest: small(need.lines[3]) as f64,
            limit: small(tree.lines) as f64,
        },
        unit: Some(low_port.share() + low_line.share()),
    }
}

// A steep price of what there is so much of.
fn steep_price(limit: usize) -> Price {
    Price::Steep {
        limit: small(limit),
    }
}

/// What crossings and visits cost where it matters alone that nothing is beyond what the machine has.
pub fn steep_prices(tree: &Tree) -> Prices {
    let [hextants, chips, modules] = &tree.tiers;
    Prices {
        crossings: [
            steep_price(hextants.ports),
            steep_price(chips.ports),
            steep_price(modules.ports),
        ],
        visits: [
            steep_price(hextants.lines),
            steep_price(chips.lines),
            steep_price(modules.lines),
        ],
        root: steep_price(tree.lines),
        unit: None,
    }
}
