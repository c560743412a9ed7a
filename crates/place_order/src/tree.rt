//! The tree of a machine, as orders see it.

ghost use Rattle.std.specs.Prelude.{◌<◌};
ghost use Rattle.machine_shape.specs.Shape.{nodes_of, tables_of};

use machine_defects::Defects;
use machine_shape::{Node, Shape, Table};
use std::alloc::{AllocError, Global};

/// What the nodes of a level have: how many tables and children each, how many nodes, ports and lines, and how many ports and
/// lines of each node are wanting.
#[derive(Drop)]
pub struct Tier {
    pub span: usize,
    pub children: usize,
    pub nodes: usize,
    pub ports: usize,
    pub lines: usize,
    pub no_ports: Vec<u32>,
    pub no_lines: Vec<u32>,
}

/// Hextants, chips, modules; the root's lines; and the free tables in order.
#[derive(Drop)]
pub struct Tree {
    pub tiers: [Tier; 3],
    pub lines: usize,
    pub no_lines: usize,
    pub seats: Vec<u32>,
    pub tables: usize,
}

impl Tree {
    /// How many tables a hextant has.
    pub fn span(&self) -> usize {
        let [hextants, _, _] = &self.tiers;
        hextants.span
    }

    /// How many hextants there are.
    pub fn hextants(&self) -> usize {
        let [hextants, _, _] = &self.tiers;
        hextants.nodes
    }
}

// The node above a node; the root itself.
fn above(shape: &Shape, node: Node) -> Node
    requires { node.0 < nodes_of shape.now }
    ensures { result.0 < nodes_of shape.now }
{
    match shape.parent(node) {
        Some(above) => above,
        None => node,
    }
}

// The node of a level above a table: 0 for the hextant, 1 for the chip, else the module.
fn node_above(shape: &Shape, table: Table, level: usize) -> Node
    requires { table.0 < tables_of shape.now }
    ensures { result.0 < nodes_of shape.now }
{
    let hextant = shape.hextant_of(table);
    if level == 0 {
        return hextant;
    }
    let chip = above(shape, hextant);
    if level == 1 {
        return chip;
    }
    above(shape, chip)
}

// How many ports and lines of a node are wanting.
fn missing_in(
    defects: &Defects,
    table: u32,
    level: usize,
    ports: usize,
    lines: usize,
) -> (u32, u32) {
    let shape = defects.shape();
    if table >= shape.tables() {
        return (0, 0);
    }
    let node = node_above(&shape, Table(table), level);
    let free = defects.free_ports(node) as usize;
    let open = defects.open_lines(node) as usize;
    (
        small(ports.saturating_sub(free)),
        small(lines.saturating_sub(open)),
    )
}

/// A number that is known to be small, in 32 bits.
pub fn small(number: usize) -> u32 {
    if number > 4_294_967_295 {
        u32::MAX
    } else {
        number as u32
    }
}

// A level of so many nodes, each with so many tables.
fn tier_of(
    alloc: Global,
    defects: &Defects,
    level: usize,
    span: usize,
    nodes: usize,
) -> Result<Tier, AllocError> {
    let counts = defects.shape().counts();
    let (ports, lines, children) = match level {
        0 => (counts.ports[2], counts.lines[3], counts.tables),
        1 => (counts.ports[1], counts.lines[2], counts.hextants),
        _ => (counts.ports[0], counts.lines[1], counts.chips),
    };
    let (ports, lines, children) = (ports as usize, lines as usize, children as usize);
    let mut no_ports = Vec::new(alloc);
    let mut no_lines = Vec::new(alloc);
    'nodes: for k in 0..nodes {
        let first = small(k.saturating_mul(span));
        let (port, line) = missing_in(defects, first, level, ports, lines);
        no_ports.push(port)?;
        no_lines.push(line)?;
    }
    Ok(Tier {
        span,
        children,
        nodes,
        ports,
        lines,
        no_ports,
        no_lines,
    })
}

// The free tables in order.
fn free_tables(alloc: Global, defects: &Defects) -> Result<Vec<u32>, AllocError> {
    let mut free = Vec::new(alloc);
    'tables: for t in 0..defects.shape().tables() {
        if defects.free_table(Table(t)) {
            free.push(t)?;
        }
    }
    Ok(free)
}

// How many lines of the root are wanting.
fn root_wanting(defects: &Defects, lines: usize) -> usize {
    let shape = defects.shape();
    if shape.nodes() == 0 {
        return 0;
    }
    lines.saturating_sub(defects.open_lines(Node(0)) as usize)
}

/// The tree of a machine, with what a list of defects leaves of it.
pub fn tree_of(alloc: Global, defects: &Defects) -> Result<Tree, AllocError> {
    let counts = defects.shape().counts();
    let modules = counts.modules as usize;
    let chips = modules.saturating_mul(counts.chips as usize);
    let hextants = chips.saturating_mul(counts.hextants as usize);
    let hextant = counts.tables as usize;
    let chip = hextant.saturating_mul(counts.hextants as usize);
    let module = chip.saturating_mul(counts.chips as usize);
    let lines = counts.lines[0] as usize;
    let low = tier_of(alloc, defects, 0, hextant, hextants)?;
    let middle = tier_of(alloc, defects, 1, chip, chips)?;
    let high = tier_of(alloc, defects, 2, module, modules)?;
    tree_with(alloc, defects, [low, middle, high], lines)
}

// The tree with these levels, and so many lines of the root.
fn tree_with(
    alloc: Global,
    defects: &Defects,
    tiers: [Tier; 3],
    lines: usize,
) -> Result<Tree, AllocError> {
    let seats = free_tables(alloc, defects)?;
    Ok(Tree {
        tiers,
        lines,
        no_lines: root_wanting(defects, lines),
        seats,
        tables: defects.shape().tables() as usize,
    })
}

/// A number divided by another, 0 where that is 0.
pub fn divide_by(number: usize, span: usize) -> usize {
    if span == 0 { 0 } else { number / span }
}
