//! The search for seats by exchanges.

use crate::levels::{Crosses, Gauge, Level, Price, Signal, Way, gauge_of, level_of};
use crate::luck::bold;
use crate::nets::{NOTHING, Nets, is_pinned, nets_at, tables_at};
use crate::prices::Prices;
use crate::tree::{Tree, divide_by, small};
use base_random::Draws;
use std::alloc::{AllocError, Global};
use std::num::nearest_u64_to_f64;

/// In how many rounds the heat falls.
pub const ROUNDS: usize = 32;

/// A net crosses the tables in a hextant.
const ALWAYS: Crosses = Crosses {
    before: true,
    after: true,
};

/// How hot a search begins, and by how much the heat falls in each round.
#[derive(Clone, Copy)]
pub struct Heat {
    pub first: f64,
    pub fall: f64,
}

/// From the order as it is.
pub const HOT: Heat = Heat {
    first: 1.0,
    fall: 0.915_84,
};

/// From seats that were filled anew.
pub const WARM: Heat = Heat {
    first: 0.8,
    fall: 0.922_24,
};

/// Where limits are pressed down.
pub const PRESSED: Heat = Heat {
    first: 0.6,
    fall: 0.925_29,
};

/// What is tried: tables on seats, which are places in the list of free tables. Covers have the first so many seats, latches those
/// from there up to an end.
#[derive(Drop)]
pub struct Trial<'a> {
    pub nets: &'a Nets,
    pub tree: &'a Tree,
    pub seats: Vec<u32>,
    pub room: usize,
    pub end: usize,
    holders: Vec<u32>,
    /// The seat at each table of the machine.
    seat_at: Vec<u32>,
    levels: Levels,
    /// How many nets visit the root.
    root: Gauge,
    /// What heat is measured in, if that isn't the cost of all.
    unit: Option<f64>,
    pub cost: i64,
}

/// The levels of a tree below its root.
#[derive(Drop)]
struct Levels {
    hextants: Level,
    chips: Level,
    modules: Level,
}

/// How many nets visit the root wherever tables sit, with the lines that are wanting there: those of a pin and a table, or of two pins.
pub fn root_visits(nets: &Nets, tree: &Tree) -> u32 {
    let mut count = small(tree.no_lines);
    'nets: for net in &nets.nets {
        if net.pins > 1 || net.pins == 1 && net.tables.len() > 0 {
            count = count.saturating_add(1);
        }
    }
    count
}

// The nets that visit the root wherever tables sit.
fn root_of(alloc: Global, nets: &Nets, tree: &Tree, price: Price) -> Result<Gauge, AllocError> {
    let visits = root_visits(nets, tree);
    gauge_of(alloc, &[visits], tree.lines, nets.nets.len(), price)
}

// The seat at each table of the machine that is free.
fn seats_by_table(alloc: Global, tree: &Tree) -> Result<Vec<u32>, AllocError> {
    let mut found = vec![in alloc; NOTHING; tree.tables]?;
    'seats: for k in 0..tree.seats.len() {
        let table = tree.seats[k] as usize;
        if table < found.len() {
            found[table] = small(k);
        }
    }
    Ok(found)
}

// The levels without tables, with these limits.
fn levels_of(
    alloc: Global,
    nets: &Nets,
    tree: &Tree,
    prices: &Prices,
) -> Result<Levels, AllocError> {
    let count = nets.nets.len();
    let [hextants, chips, modules] = &tree.tiers;
    let [low, middle, high] = prices.crossings;
    let [low_visits, middle_visits, high_visits] = prices.visits;
    let hextants = level_of(alloc, hextants, count, low, low_visits)?;
    let chips = level_of(alloc, chips, count, middle, middle_visits)?;
    let modules = level_of(alloc, modules, count, high, high_visits)?;
    Ok(Levels {
        hextants,
        chips,
        modules,
    })
}

impl Levels {
    // What the nets at all nodes cost.
    fn cost(&self) -> i64 {
        let low = self.hextants.cost().wrapping_add(self.chips.cost());
        low.wrapping_add(self.modules.cost())
    }

    // How many ports and lines are wanting.
    fn over(&self) -> u32 {
        let low = self.hextants.over().saturating_add(self.chips.over());
        low.saturating_add(self.modules.over())
    }

    // One more table of a net at a table of the machine.
    fn come(&mut self, net: usize, place: usize) {
        let hextant = self.hextants.node(place);
        let chip = self.chips.node(place);
        let module = self.modules.node(place);
        let _ = self.hextants.come(net, hextant);
        let _ = self.chips.come(net, chip);
        let _ = self.modules.come(net, module);
    }

    // Counts a net all of whose tables have come; whether it crosses modules.
    fn charge(&mut self, signal: Signal) -> bool {
        let low = self.hextants.charge(signal, true);
        let middle = self.chips.charge(signal, low);
        self.modules.charge(signal, middle)
    }

    // The ways from a table of the machine to another one.
    fn ways(&self, from: usize, to: usize) -> Ways {
        Ways {
            hextants: self.hextants.way(from, to),
            chips: self.chips.way(from, to),
            modules: self.modules.way(from, to),
        }
    }
}

// Ways at all levels.
#[derive(Clone, Copy)]
struct Ways {
    hextants: Way,
    chips: Way,
    modules: Way,
}

// What is counted at the nodes of all levels.
#[derive(Drop)]
struct Nodes {
    levels: Levels,
    root: Gauge,
}

// Nodes without tables.
fn nodes_of(alloc: Global, nets: &Nets, tree: &Tree, prices: &Prices) -> Result<Nodes, AllocError> {
    let levels = levels_of(alloc, nets, tree, prices)?;
    let root = root_of(alloc, nets, tree, prices.root)?;
    Ok(Nodes { levels, root })
}

/// A trial that begins with these seats.
pub fn trial_of<'a>(
    alloc: Global,
    nets: &'a Nets,
    tree: &'a Tree,
    seats: Vec<u32>,
    room: usize,
    prices: &Prices,
) -> Result<Trial<'a>, AllocError> {
    let latches = nets.of.len().saturating_sub(nets.split);
    let seat_at = seats_by_table(alloc, tree)?;
    let holders = vec![in alloc; NOTHING; tree.seats.len()]?;
    let nodes = nodes_of(alloc, nets, tree, prices)?;
    let mut trial = Trial {
        nets,
        tree,
        seats,
        room,
        end: room.saturating_add(latches),
        holders,
        seat_at,
        levels: nodes.levels,
        root: nodes.root,
        unit: prices.unit,
        cost: 0,
    };
    trial.count();
    Ok(trial)
}

impl<'a> Trial<'a> {
    // The table of the machine at a seat.
    fn place(&self, seat: usize) -> usize {
        if seat < self.tree.seats.len() {
            self.tree.seats[seat] as usize
        } else {
            usize::MAX
        }
    }

    /// The seat of a table.
    pub fn seat(&self, table: usize) -> usize {
        if table < self.seats.len() {
            self.seats[table] as usize
        } else {
            usize::MAX
        }
    }

    // A net, and whether a pin is on it.
    fn signal(&self, net: usize) -> Signal {
        Signal {
            net,
            pinned: is_pinned(self.nets, net),
        }
    }

    // A table of a net goes these ways. What stays in a node above hextants costs nothing there, unless the net began or ceased to cross
    // nodes below.
    fn shift(&mut self, net: usize, ways: &Ways) {
        let signal = self.signal(net);
        let low = self.levels.hextants.shift(signal, ways.hextants, ALWAYS);
        self.cost = self.cost.wrapping_add(low.cost);
        if ways.chips.stays() && low.crosses.stays() {
            return;
        }
        let middle = self.levels.chips.shift(signal, ways.chips, low.crosses);
        self.cost = self.cost.wrapping_add(middle.cost);
        if ways.modules.stays() && middle.crosses.stays() {
            return;
        }
        let high = self
            .levels
            .modules
            .shift(signal, ways.modules, middle.crosses);
        let root = self.root.turn(0, high.crosses.before, high.crosses.after);
        self.cost = self.cost.wrapping_add(high.cost).wrapping_add(root);
    }

    // Notes a table at its seat.
    fn settle(&mut self, table: usize) {
        let seat = self.seat(table);
        let place = self.place(seat);
        self.hold(seat, small(table));
        'nets: for net in nets_at(self.nets, table) {
            self.levels.come(*net as usize, place);
        }
    }

    // Counts all nets. Those with a pin and a table or with two pins visit the root anyway, and are counted there.
    fn charge(&mut self) {
        'nets: for net in 0..self.nets.nets.len() {
            let signal = self.signal(net);
            let crosses = self.levels.charge(signal);
            let _ = self.root.turn(0, signal.pinned, crosses);
        }
    }

    /// Counts all anew, with these prices.
    pub fn build(&mut self, alloc: Global, prices: &Prices) -> Result<(), AllocError> {
        self.holders = vec![in alloc; NOTHING; self.tree.seats.len()]?;
        self.levels = levels_of(alloc, self.nets, self.tree, prices)?;
        self.root = root_of(alloc, self.nets, self.tree, prices.root)?;
        self.unit = prices.unit;
        self.count();
        Ok(())
    }

    // Counts all tables and nets, of which none is counted.
    fn count(&mut self) {
        'tables: for table in 0..self.seats.len() {
            self.settle(table);
        }
        self.charge();
        self.cost = self.levels.cost().wrapping_add(self.root.cost_of_all());
    }

    /// How many ports and lines are wanting at all nodes.
    pub fn over(&self) -> u32 {
        self.levels.over().saturating_add(self.root.over())
    }

    /// Whether the machine has all that is needed.
    pub fn fits(&self) -> bool {
        self.over() == 0
    }

    // A table goes to a seat.
    fn go(&mut self, table: usize, seat: usize) {
        let from = self.place(self.seat(table));
        let ways = self.levels.ways(from, self.place(seat));
        'nets: for net in nets_at(self.nets, table) {
            self.shift(*net as usize, &ways);
        }
        if table < self.seats.len() {
            self.seats[table] = small(seat);
        }
    }

    // Who holds a seat.
    fn holder(&self, seat: usize) -> u32 {
        if seat < self.holders.len() {
            self.holders[seat]
        } else {
            NOTHING
        }
    }

    // Notes who holds a seat.
    fn hold(&mut self, seat: usize, table: u32) {
        if seat < self.holders.len() {
            self.holders[seat] = table;
        }
    }

    // A table goes to a seat, and who held that to its old one.
    fn exchange(&mut self, table: usize, seat: usize) {
        let other = self.holder(seat);
        let from = self.seat(table);
        self.go(table, seat);
        self.hold(seat, small(table));
        self.hold(from, other);
        if other != NOTHING {
            self.go(other as usize, from);
        }
    }

    // Whether a table may have a seat.
    fn may_have(&self, table: usize, seat: usize) -> bool {
        if table < self.nets.split {
            seat < self.room
        } else {
            seat >= self.room && seat < self.end
        }
    }

    // One of these numbers.
    fn one_of(luck: &mut Draws, numbers: &[u32]) -> usize {
        let place = luck.portion(numbers.len());
        if place < numbers.len() {
            numbers[place] as usize
        } else {
            usize::MAX
        }
    }

    // How many tables the node has that is aimed at: a hextant, chip or module, one in eight times the machine.
    fn span(&self, luck: &mut Draws) -> usize {
        if luck.portion(8) == 0 {
            return self.tree.tables;
        }
        match luck.portion(3) {
            0 => self.levels.hextants.span,
            1 => self.levels.chips.span,
            _ => self.levels.modules.span,
        }
    }

    // Whether two tables of the machine are of one hextant.
    fn is_near(&self, place: usize, other: usize) -> bool {
        let hextants = &self.levels.hextants;
        hextants.node(place) == hextants.node(other)
    }

    // A table of the machine in a node that has a table of a net of this table.
    fn target(&self, luck: &mut Draws, table: usize) -> Option<usize> {
        let net = Self::one_of(luck, nets_at(self.nets, table));
        let near = Self::one_of(luck, tables_at(self.nets, net));
        let place = self.place(self.seat(near));
        let span = self.span(luck);
        if place == usize::MAX || span == 0 {
            return None;
        }
        let first = place.saturating_sub(place % span);
        Some(first.saturating_add(luck.portion(span)))
    }

    // Whether who holds a seat may have another one instead.
    fn may_yield(&self, seat: usize, from: usize) -> bool {
        let other = self.holder(seat);
        other == NOTHING || self.may_have(other as usize, from)
    }

    // A seat in a node that has a table of a net of this table.
    fn aim(&self, luck: &mut Draws, table: usize) -> Option<usize> {
        let target = self.target(luck, table)?;
        let seat = *self.seat_at.get(target)? as usize;
        let from = self.seat(table);
        if !self.may_have(table, seat) || self.is_near(self.place(from), target) {
            return None;
        }
        if self.may_yield(seat, from) {
            Some(seat)
        } else {
            None
        }
    }

    // Tries one exchange at this heat.
    fn step(&mut self, luck: &mut Draws, heat: f64) {
        let table = luck.portion(self.seats.len());
        let Some(seat) = self.aim(luck, table) else {
            return;
        };
        let before = self.cost;
        let from = self.seat(table);
        self.exchange(table, seat);
        let more = self.cost.wrapping_sub(before);
        if more > 0 && !is_borne(more, heat, luck) {
            self.exchange(table, from);
        }
    }

    // What heat is measured in.
    fn scale(&self) -> f64 {
        match self.unit {
            Some(unit) => unit,
            None => nearest_u64_to_f64(u64::try_from(self.cost).unwrap_or(0)),
        }
    }

    /// Tries so many at this heat, until all fits.
    pub fn round(&mut self, luck: &mut Draws, steps: usize, heat: f64) {
        'steps: for _ in 0..steps {
            if self.fits() {
                break;
            }
            let most = heat * self.scale();
            self.step(luck, most);
        }
    }

    /// Tries so many exchanges while the heat falls.
    pub fn anneal(&mut self, luck: &mut Draws, heat: Heat, steps: usize) {
        let mut now = heat.first;
        'rounds: for _ in 0..ROUNDS {
            self.round(luck, divide_by(steps, ROUNDS), now);
            now = now * heat.fall;
        }
    }
}

// Whether so much more is borne at this heat.
fn is_borne(more: i64, heat: f64, luck: &mut Draws) -> bool {
    let most = bold(luck) * heat;
    std::num::saturating_f64_to_i64(most) >= more
}
