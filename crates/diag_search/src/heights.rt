//! The links between wires, by how many crosspoints a wire is away from the pins of the machine.
ghost use Rattle.std.specs.Prelude.{◌<◌};
ghost use Rattle.machine_shape.specs.Shape.{nodes_of};

use crate::feet::Support;
use machine_shape::{Cross, Node, Shape, Wire};
use std::alloc::{AllocError, Global};

/// How many heights there are: pins of the machine are at 0, lines of the root at 1, and so on to the pins of tables at 8.
pub(crate) const HEIGHTS: usize = 9;

/// The crossbar of a node: where its lines and, behind these, its taps stand among all ends, and its crosspoints.
#[derive(Clone, Copy)]
struct Crossbar {
    start: u32,
    lines: u32,
    taps: u32,
    // How many of its taps are lower than its lines.
    low: u32,
    cross: u32,
    height: u32,
    // The node above; of the root its own number.
    above: u32,
}

/// The links of a wire to one side, to wires one lower or one higher: their other ends follow each other, and so do their crosspoints,
/// a stride apart.
#[derive(Clone, Copy)]
struct Side {
    start: u32,
    count: u32,
    cross: u32,
    stride: u32,
    node: u32,
}

/// What is at one side of a wire without links there.
const NOTHING: Side = Side {
    start: 0,
    count: 0,
    cross: 0,
    stride: 0,
    node: 0,
};

/// The links of a wire.
#[derive(Clone, Copy)]
struct Links {
    height: u32,
    low: Side,
    high: Side,
}

/// The wires of one height.
#[derive(Drop)]
pub(crate) struct Level {
    pub wires: Vec<Wire>,
}

/// All links of a machine.
#[derive(Drop)]
pub(crate) struct Heights {
    bars: Vec<Crossbar>,
    ends: Vec<Wire>,
    links: Vec<Links>,
    levels: Vec<Level>,
}

// The node above one; of the root its own number.
fn above_of(shape: &Shape, n: Node) -> u32 {
    if n.0 >= shape.nodes() {
        return n.0;
    }
    match shape.parent(n) {
        Some(above) => above.0,
        None => n.0,
    }
}

impl Side {
    // The link at a place of it.
    fn at(&self, ends: &Vec<Wire>, j: u32) -> Option<Support> {
        if j >= self.count {
            return None;
        }
        let wire = ends.get(self.start.wrapping_add(j) as usize).copied()?;
        let cross = Cross(self.cross.wrapping_add(j.wrapping_mul(self.stride)));
        Some(Support { cross, wire })
    }
}

impl Crossbar {
    // The links of one of its lines to taps, from the lower or to the higher ones.
    fn line_side(&self, node: u32, line: u32, low: bool) -> Side {
        let first = if low { 0 } else { self.low };
        let end = if low { self.low } else { self.taps };
        Side {
            start: self.start.wrapping_add(self.lines).wrapping_add(first),
            count: end.saturating_sub(first),
            cross: self
                .cross
                .wrapping_add(first.wrapping_mul(self.lines))
                .wrapping_add(line),
            stride: self.lines,
            node,
        }
    }

    // The links of one of its taps to lines.
    fn tap_side(&self, node: u32, tap: u32) -> Side {
        Side {
            start: self.start,
            count: self.lines,
            cross: self.cross.wrapping_add(tap.wrapping_mul(self.lines)),
            stride: 1,
            node,
        }
    }
}

impl Heights {
    /// No links.
    pub(crate) fn bare(alloc: Global) -> Heights {
        Heights {
            bars: Vec::new(alloc),
            ends: Vec::new(alloc),
            links: Vec::new(alloc),
            levels: Vec::new(alloc),
        }
    }

    /// All links of a machine.
    pub(crate) fn new(alloc: Global, shape: &Shape) -> Result<Heights, AllocError> {
        let mut heights = Heights::bare(alloc);
        heights.begin(shape)?;
        'nodes: for n in 0..shape.nodes() {
            heights.add_node(shape, Node(n))?;
        }
        heights.add_levels(alloc, shape.wires())?;
        Ok(heights)
    }

    // No links yet.
    fn begin(&mut self, shape: &Shape) -> Result<(), AllocError> {
        let none = Links {
            height: 0,
            low: NOTHING,
            high: NOTHING,
        };
        self.links.resize(shape.wires() as usize, none)
    }

    // How high the lower taps of a node are: twice as high as the node is deep.
    fn depth_of(&self, shape: &Shape, n: Node) -> u32 {
        if n.0 >= shape.nodes() {
            return 0;
        }
        let Some(above) = shape.parent(n) else {
            return 0;
        };
        match self.bars.get(above.0 as usize) {
            Some(bar) => bar.height.saturating_add(2),
            None => 0,
        }
    }

    // Puts the links of one side of a wire.
    fn put(&mut self, w: Wire, height: u32, side: Side, low: bool) {
        let at = w.0 as usize;
        if at >= self.links.len() {
            return;
        }
        self.links[at].height = height;
        if low {
            self.links[at].low = side;
        } else {
            self.links[at].high = side;
        }
    }

    // Adds the lines of a node.
    fn add_lines(&mut self, shape: &Shape, n: Node, bar: Crossbar) -> Result<(), AllocError>
        requires { n.0 < nodes_of shape.now }
    {
        'lines: for k in 0..shape.lines(n) {
            let line = shape.line(n, k);
            let height = bar.height.saturating_add(1);
            self.ends.push(line)?;
            self.put(line, height, bar.line_side(n.0, k, true), true);
            self.put(line, height, bar.line_side(n.0, k, false), false);
        }
        Ok(())
    }

    // Adds the taps of a node.
    fn add_taps(&mut self, shape: &Shape, n: Node, bar: Crossbar) -> Result<(), AllocError>
        requires { n.0 < nodes_of shape.now }
    {
        'taps: for k in 0..shape.taps(n) {
            let tap = shape.tap(n, k);
            self.ends.push(tap)?;
            if k < bar.low {
                self.put(tap, bar.height, bar.tap_side(n.0, k), false);
            } else {
                let height = bar.height.saturating_add(2);
                self.put(tap, height, bar.tap_side(n.0, k), true);
            }
        }
        Ok(())
    }

    // Adds the crossbar of a node.
    fn add_node(&mut self, shape: &Shape, n: Node) -> Result<(), AllocError>
        requires { n.0 < nodes_of shape.now }
    {
        let low = if n.0 == 0 {
            shape.pins()
        } else {
            shape.ports(n)
        };
        let bar = Crossbar {
            start: u32::try_from(self.ends.len()).unwrap_or(0),
            lines: shape.lines(n),
            taps: shape.taps(n),
            low,
            cross: shape.first_cross(n),
            height: self.depth_of(shape, n),
            above: above_of(shape, n),
        };
        self.add_lines(shape, n, bar)?;
        self.add_taps(shape, n, bar)?;
        self.bars.push(bar)?;
        Ok(())
    }

    // Takes room for the wires of each height.
    fn open_levels(&mut self, alloc: Global) -> Result<(), AllocError> {
        'heights: for _height in 0..HEIGHTS {
            self.levels.push(Level {
                wires: Vec::new(alloc),
            })?;
        }
        Ok(())
    }

    // The wires of each height.
    fn add_levels(&mut self, alloc: Global, wires: u32) -> Result<(), AllocError> {
        self.open_levels(alloc)?;
        'wires: for w in 0..wires {
            let height = self.height(Wire(w));
            if height < self.levels.len() {
                self.levels[height].wires.push(Wire(w))?;
            }
        }
        Ok(())
    }

    /// The height of a wire.
    pub(crate) fn height(&self, w: Wire) -> usize {
        match self.links.get(w.0 as usize) {
            Some(links) => links.height as usize,
            None => 0,
        }
    }

    /// How many wires of a height there are.
    pub(crate) fn level_len(&self, height: u32) -> usize {
        match self.levels.get(height as usize) {
            Some(level) => level.wires.len(),
            None => 0,
        }
    }

    /// The wire of a height at a place.
    pub(crate) fn level_wire(&self, height: u32, at: usize) -> Option<Wire> {
        let level = self.levels.get(height as usize)?;
        level.wires.get(at).copied()
    }

    /// Whether a wire is a line.
    pub(crate) fn is_line(&self, w: Wire) -> bool {
        self.height(w) % 2 == 1
    }

    /// How many links a wire has to lower wires. They are its first ones.
    pub(crate) fn ups(&self, w: Wire) -> u32 {
        match self.links.get(w.0 as usize) {
            Some(links) => links.low.count,
            None => 0,
        }
    }

    /// How many links a wire has.
    pub(crate) fn links(&self, w: Wire) -> u32 {
        match self.links.get(w.0 as usize) {
            Some(links) => links.low.count.saturating_add(links.high.count),
            None => 0,
        }
    }

    /// A link of a wire.
    pub(crate) fn link(&self, w: Wire, j: u32) -> Option<Support> {
        let links = self.links.get(w.0 as usize)?;
        match links.low.at(&self.ends, j) {
            Some(link) => Some(link),
            None => links.high.at(&self.ends, j.saturating_sub(links.low.count)),
        }
    }

    /// The first crosspoint of a tap in a crossbar. From there on they are in the order of the lines.
    pub(crate) fn row(&self, tap: Wire, node: u32) -> Option<u32> {
        let links = self.links.get(tap.0 as usize)?;
        if links.low.count > 0 && links.low.node == node {
            return Some(links.low.cross);
        }
        if links.high.count > 0 && links.high.node == node {
            return Some(links.high.cross);
        }
        None
    }

    /// The place of a line among those of its crossbar.
    pub(crate) fn line_place(&self, line: Wire, node: u32) -> u32 {
        match (
            self.links.get(line.0 as usize),
            self.bars.get(node as usize),
        ) {
            (Some(links), Some(bar)) => links.low.cross.saturating_sub(bar.cross),
            _ => 0,
        }
    }

    /// The crosspoint of a tap and a line in a crossbar.
    pub(crate) fn cross_of(&self, node: u32, tap: Wire, line: Wire) -> Option<Cross> {
        let row = self.row(tap, node)?;
        Some(Cross(row.saturating_add(self.line_place(line, node))))
    }

    /// Whether a wire is a port of a node, or at the root a pin of the machine.
    pub(crate) fn is_port(&self, w: Wire, node: u32) -> bool {
        match self.links.get(w.0 as usize) {
            Some(links) => {
                links.height % 2 == 0 && links.high.count > 0 && links.high.node == node
            }
            None => false,
        }
    }

    /// The node of which a wire is a line.
    pub(crate) fn home(&self, line: Wire) -> u32 {
        match self.links.get(line.0 as usize) {
            Some(links) => links.low.node,
            None => 0,
        }
    }

    // The crossbar of a node.
    fn bar(&self, node: u32) -> Crossbar {
        let none = Crossbar {
            start: 0,
            lines: 0,
            taps: 0,
            low: 0,
            cross: 0,
            height: 0,
            above: 0,
        };
        self.bars.get(node as usize).copied().unwrap_or(none)
    }

    /// How many crossbars there are.
    pub(crate) fn nodes(&self) -> u32 {
        u32::try_from(self.bars.len()).unwrap_or(0)
    }

    /// How deep a node is. The root is at 0.
    pub(crate) fn depth(&self, node: u32) -> u32 {
        self.bar(node).height / 2
    }

    /// The node above one. None of the root.
    pub(crate) fn above(&self, node: u32) -> Option<u32> {
        let above = self.bar(node).above;
        if above == node { None } else { Some(above) }
    }

    /// How many lines a crossbar has.
    pub(crate) fn bar_lines(&self, node: u32) -> u32 {
        self.bar(node).lines
    }

    /// How many taps a crossbar has.
    pub(crate) fn bar_taps(&self, node: u32) -> u32 {
        self.bar(node).taps
    }

    /// How many of the taps of a crossbar are ports of its node. They are the first.
    pub(crate) fn bar_ports(&self, node: u32) -> u32 {
        self.bar(node).low
    }

    /// The first crosspoint of a crossbar.
    pub(crate) fn bar_cross(&self, node: u32) -> u32 {
        self.bar(node).cross
    }

    /// The line of a crossbar at a place.
    pub(crate) fn line_at(&self, node: u32, place: u32) -> Option<Wire> {
        let bar = self.bar(node);
        if place >= bar.lines {
            return None;
        }
        self.ends
            .get(bar.start.saturating_add(place) as usize)
            .copied()
    }

    /// The tap of a crossbar at a place.
    pub(crate) fn tap_at(&self, node: u32, place: u32) -> Option<Wire> {
        let bar = self.bar(node);
        if place >= bar.taps {
            return None;
        }
        let at = bar.start.saturating_add(bar.lines).saturating_add(place);
        self.ends.get(at as usize).copied()
    }
}
