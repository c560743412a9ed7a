//! Which tables are tested in the next load, and over which wires: many of one chip at once.
//!
//! What hangs ends at the lines of chips then. The inputs of all tables are driven over the six trees on which most lines of their chip
//! hang, and each output is read over a tree of its own. Tables of one hextant share its six lines for inputs.

use crate::feet::Link;
use crate::search::Search;
use base_table::TABLE_PINS;
use machine_shape::{Cross, Shape, Table, Wire};
use std::alloc::{AllocError, Global};

/// How many inputs a table has, and which of its pins is the output.
const INPUTS: usize = 6;

const OUTPUT: u32 = TABLE_PINS - 1;

/// Below which height wires hang in a load of tables: lines of chips are the last.
const BELOW: usize = 6;

/// How often a line is drawn for a pin of a table.
const LINE_DRAWS: u32 = 10;

/// To how many lines of the chip a step from a port is tried.
const MOST_ENDS: usize = 4;

/// How often a table may fail to be laid.
const MOST_FAILS: u32 = 24;

/// The lines of a hextant over which its tables are driven in a load. None where they couldn't be laid.
#[derive(Clone, Copy)]
struct HextantLines {
    node: u32,
    lines: Option<[Wire; INPUTS]>,
}

/// The lines of a chip that hang on a tree.
#[derive(Drop)]
struct TreeLines {
    tree: u32,
    lines: Vec<Wire>,
}

/// A step from a line of a hextant over one of its ports to a line of the chip.
#[derive(Clone, Copy)]
struct PortStep {
    port: Wire,
    cross: Cross,
    end: Wire,
    end_cross: Cross,
}

/// Which tables are tested in the next load.
#[derive(Drop)]
pub struct TableBook {
    /// The chip of the tables that are tested now.
    pub chip: u32,
    // How often each table couldn't be laid.
    fails: Vec<u32>,
    /// The tables of the next load.
    pub chosen: Vec<Table>,
    /// The links by which their pins hang, behind the forest.
    pub links: Vec<Link>,
    // The trees of the chip's lines, which of them the inputs are on, a line on each other one, and the lines of hextants that are laid.
    trees: Vec<TreeLines>,
    inputs: Vec<usize>,
    outputs: Vec<Wire>,
    hextants: Vec<HextantLines>,
}

// Some of the last of these wires.
fn last_of(wires: &Vec<Wire>) -> [Option<Wire>; MOST_ENDS] {
    let mut last = [None; MOST_ENDS];
    'places: for k in 0..MOST_ENDS {
        if k < wires.len() {
            last[k] = wires
                .get(wires.len().saturating_sub(k).saturating_sub(1))
                .copied();
        }
    }
    last
}

impl TableBook {
    /// With room for nothing.
    pub(crate) fn bare(alloc: Global) -> TableBook {
        TableBook {
            chip: 0,
            fails: Vec::new(alloc),
            chosen: Vec::new(alloc),
            links: Vec::new(alloc),
            trees: Vec::new(alloc),
            inputs: Vec::new(alloc),
            outputs: Vec::new(alloc),
            hextants: Vec::new(alloc),
        }
    }

    /// No table is to be tested.
    pub(crate) fn new(alloc: Global, shape: &Shape) -> Result<TableBook, AllocError> {
        let mut book = TableBook::bare(alloc);
        book.fails.resize(shape.tables() as usize, 0)?;
        Ok(book)
    }

    // Nothing is laid.
    fn clear(&mut self) {
        self.chosen.clear();
        self.links.clear();
        self.trees.clear();
        self.inputs.clear();
        self.outputs.clear();
        self.hextants.clear();
    }

    // A table couldn't be laid once more.
    fn count_fail(&mut self, t: Table) {
        let at = t.0 as usize;
        if at < self.fails.len() {
            self.fails[at] = self.fails[at].saturating_add(1);
        }
    }

    // Whether a table couldn't be laid too often.
    fn has_failed(&self, t: Table) -> bool {
        self.fails.get(t.0 as usize).copied().unwrap_or(MOST_FAILS) >= MOST_FAILS
    }

    // The place of a tree among those of the chip's lines.
    fn place_of(&self, tree: u32) -> Option<usize> {
        'trees: for at in 0..self.trees.len() {
            if at < self.trees.len() && self.trees[at].tree == tree {
                return Some(at);
            }
        }
        None
    }

    // A line of the chip hangs on a tree.
    fn add_line(&mut self, alloc: Global, tree: u32, line: Wire) -> Result<(), AllocError> {
        let at = match self.place_of(tree) {
            Some(at) => at,
            None => {
                self.trees.push(TreeLines {
                    tree,
                    lines: Vec::new(alloc),
                })?;
                self.trees.len().saturating_sub(1)
            }
        };
        if at < self.trees.len() {
            self.trees[at].lines.push(line)?;
        }
        Ok(())
    }

    // The trees with most lines first: their places, in the last bits of keys.
    fn tree_keys(&self, alloc: Global) -> Result<Vec<u64>, AllocError> {
        let mut keys = Vec::new(alloc);
        'trees: for at in 0..self.trees.len() {
            if let Some(tree) = self.trees.get(at) {
                let count = u32::try_from(tree.lines.len()).unwrap_or(u32::MAX);
                let less = u64::from(u32::MAX.saturating_sub(count));
                keys.push((less << 32) | u64::from(u32::try_from(at).unwrap_or(0)))?;
            }
        }
        keys.sort_unstable();
        Ok(keys)
    }

    // Of a tree, the place of which stands in a key, the lines are for an input; or a line is for an output, once there are six inputs.
    fn share_tree(&mut self, key: u64) -> Result<(), AllocError> {
        let at = u32::try_from(key % 4_294_967_296).unwrap_or(0) as usize;
        if self.inputs.len() < INPUTS {
            self.inputs.push(at)?;
            return Ok(());
        }
        let Some(tree) = self.trees.get(at) else {
            return Ok(());
        };
        if let Some(line) = tree.lines.get(0).copied() {
            self.outputs.push(line)?;
        }
        Ok(())
    }

    // Shares the trees out.
    fn share_trees(&mut self, alloc: Global) -> Result<(), AllocError> {
        let keys = self.tree_keys(alloc)?;
        'keys: for key in &keys {
            self.share_tree(*key)?;
        }
        Ok(())
    }

    // Some lines of the chip on which an input may hang, or an output.
    fn ends_for(&self, k: u32) -> [Option<Wire>; MOST_ENDS] {
        if k >= OUTPUT {
            return last_of(&self.outputs);
        }
        match self.inputs.get(k as usize) {
            Some(at) => match self.trees.get(*at) {
                Some(tree) => last_of(&tree.lines),
                None => [None; MOST_ENDS],
            },
            None => [None; MOST_ENDS],
        }
    }

    // A line is for no further output.
    fn drop_output(&mut self, line: Wire) {
        'outputs: for at in 0..self.outputs.len() {
            if at < self.outputs.len() && self.outputs[at].0 == line.0 {
                self.outputs.swap_remove(at);
                return;
            }
        }
    }

    // The first line for outputs is the last, and the other way round.
    fn swap_outputs(&mut self) {
        let last = self.outputs.len().saturating_sub(1);
        if last < self.outputs.len() {
            let line = self.outputs[0];
            self.outputs[0] = self.outputs[last];
            self.outputs[last] = line;
        }
    }

    // The lines of a hextant for inputs, if it was tried to lay them in this load.
    fn lines_of(&self, node: u32) -> Option<HextantLines> {
        'hextants: for hextant in &self.hextants {
            if hextant.node == node {
                return Some(*hextant);
            }
        }
        None
    }
}

impl Search {
    // A pin of a table.
    fn pin_of(&self, t: Table, k: u32) -> Option<Wire> {
        let shape = self.shape;
        if t.0 < shape.tables() && k < TABLE_PINS {
            return Some(shape.pin_of(t, k));
        }
        None
    }

    // The node of the hextant of a table.
    fn hextant_of(&self, t: Table) -> Option<u32> {
        let shape = self.shape;
        if t.0 < shape.tables() {
            return Some(shape.hextant_of(t).0);
        }
        None
    }

    // Whether all pins of a table are known.
    fn has_pins(&self, t: Table) -> bool {
        'pins: for k in 0..TABLE_PINS {
            match self.pin_of(t, k) {
                Some(pin) => {
                    if !self.board.has(pin) {
                        return false;
                    }
                }
                None => {
                    return false;
                }
            }
        }
        true
    }

    // Those of some tables all of whose pins are known, but for those that couldn't be laid too often.
    fn ready_tables(&self, tables: &[Table]) -> Result<Vec<Table>, AllocError> {
        let mut ready = Vec::new(self.alloc);
        'tables: for t in tables {
            if !self.testing.has_failed(*t) && self.has_pins(*t) {
                ready.push(*t)?;
            }
        }
        Ok(ready)
    }

    // Gathers the lines of the chip by the trees on which they hang.
    fn gather_trees(&mut self) -> Result<(), AllocError> {
        let chip = self.testing.chip;
        'lines: for place in 0..self.heights.bar_lines(chip) {
            let Some(line) = self.heights.line_at(chip, place) else {
                continue;
            };
            if self.forest.holds(line) {
                let tree = self.forest.tree(line);
                self.testing.add_line(self.alloc, tree, line)?;
            }
        }
        Ok(())
    }

    // The first of some lines of the chip to which a kept crosspoint leads from a port.
    fn end_of(&self, port: Wire, ends: [Option<Wire>; MOST_ENDS]) -> Option<(Wire, Cross)> {
        'ends: for k in 0..MOST_ENDS {
            let Some(end) = ends[k] else {
                continue;
            };
            if let Some(cross) = self.heights.cross_of(self.testing.chip, port, end) {
                if self.board.is_kept(cross) {
                    return Some((end, cross));
                }
            }
        }
        None
    }

    // A step from a line of a hextant over a port at a place to one of some lines of the chip.
    fn step_over(
        &self,
        node: u32,
        line: Wire,
        place: u32,
        ends: [Option<Wire>; MOST_ENDS],
    ) -> Option<PortStep> {
        let port = self.heights.tap_at(node, place)?;
        let cross = self.heights.cross_of(node, port, line)?;
        if !self.board.is_kept(cross) || !self.board.is_idle(port) {
            return None;
        }
        let (end, end_cross) = self.end_of(port, ends)?;
        Some(PortStep {
            port,
            cross,
            end,
            end_cross,
        })
    }

    // The same over any port, counted around from a drawn one on.
    fn step_from(
        &mut self,
        node: u32,
        line: Wire,
        ends: [Option<Wire>; MOST_ENDS],
    ) -> Option<PortStep> {
        let count = self.heights.bar_ports(node);
        let begin = self.draws.draw_under(count);
        'ports: for k in 0..count {
            let place = begin.saturating_add(k);
            let place = if place >= count { place - count } else { place };
            if let Some(step) = self.step_over(node, line, place, ends) {
                return Some(step);
            }
        }
        None
    }

    // Lays a line of a hextant over a step. Both are used.
    fn lay_line(&mut self, line: Wire, step: PortStep) -> Result<(), AllocError> {
        self.board.take(line);
        self.board.take(step.port);
        self.testing.links.push(Link {
            cross: step.end_cross,
            from: step.end,
            to: step.port,
        })?;
        self.testing.links.push(Link {
            cross: step.cross,
            from: step.port,
            to: line,
        })?;
        Ok(())
    }

    // A line of a hextant that a pin meets, which is drawn, and a step from it to the chip.
    fn drawn_line(&mut self, node: u32, pin: Wire, k: u32) -> Option<(Wire, PortStep)> {
        let ends = self.testing.ends_for(k);
        'draws: for _draw in 0..LINE_DRAWS {
            let place = self.draws.draw_under(self.heights.bar_lines(node));
            let line = self.heights.line_at(node, place)?;
            let cross = self.heights.cross_of(node, pin, line)?;
            if !self.board.is_idle(line) || !self.board.is_kept(cross) {
                continue;
            }
            if let Some(step) = self.step_from(node, line, ends) {
                return Some((line, step));
            }
        }
        None
    }

    // Lays a line for a pin of a table. The line, and the chip's line on which it hangs.
    fn lay_pin(&mut self, node: u32, t: Table, k: u32) -> Result<Option<(Wire, Wire)>, AllocError> {
        let Some(pin) = self.pin_of(t, k) else {
            return Ok(None);
        };
        match self.drawn_line(node, pin, k) {
            Some((line, step)) => {
                self.lay_line(line, step)?;
                Ok(Some((line, step.end)))
            }
            None => Ok(None),
        }
    }

    // Lays the lines for the inputs of a table.
    fn lay_inputs(&mut self, node: u32, t: Table) -> Result<Option<[Wire; INPUTS]>, AllocError> {
        let mut lines = [Wire(0); INPUTS];
        'inputs: for k in 0..OUTPUT {
            let Some((line, _end)) = self.lay_pin(node, t, k)? else {
                self.testing.count_fail(t);
                return Ok(None);
            };
            if (k as usize) < INPUTS {
                lines[k as usize] = line;
            }
        }
        Ok(Some(lines))
    }

    // The lines for inputs of a hextant: those that were laid before in this load, or ones that this table meets.
    fn input_lines(&mut self, node: u32, t: Table) -> Result<Option<[Wire; INPUTS]>, AllocError> {
        if let Some(hextant) = self.testing.lines_of(node) {
            return Ok(hextant.lines);
        }
        let lines = self.lay_inputs(node, t)?;
        self.testing.hextants.push(HextantLines { node, lines })?;
        Ok(lines)
    }

    // The kept crosspoint of a table's pin and a line, as a link.
    fn tap_of(&self, node: u32, t: Table, k: u32, line: Wire) -> Option<Link> {
        let pin = self.pin_of(t, k)?;
        let cross = self.heights.cross_of(node, pin, line)?;
        if !self.board.is_kept(cross) {
            return None;
        }
        Some(Link {
            cross,
            from: line,
            to: pin,
        })
    }

    // The links of a table's inputs. None where it doesn't meet all of these lines.
    fn input_taps(
        &self,
        node: u32,
        t: Table,
        lines: [Wire; INPUTS],
    ) -> Result<Option<Vec<Link>>, AllocError> {
        let mut taps = Vec::new(self.alloc);
        'inputs: for k in 0..INPUTS {
            let input = u32::try_from(k).unwrap_or(OUTPUT);
            match self.tap_of(node, t, input, lines[k]) {
                Some(tap) => taps.push(tap)?,
                None => {
                    return Ok(None);
                }
            }
        }
        Ok(Some(taps))
    }

    // Lays the output of a table. None where it can't.
    fn lay_output(&mut self, node: u32, t: Table) -> Result<Option<Link>, AllocError> {
        let Some((line, end)) = self.lay_pin(node, t, OUTPUT)? else {
            self.testing.count_fail(t);
            self.testing.swap_outputs();
            return Ok(None);
        };
        self.testing.drop_output(end);
        Ok(self.tap_of(node, t, OUTPUT, line))
    }

    // Tests a table in the next load, if it can be laid.
    fn try_table(&mut self, node: u32, t: Table) -> Result<(), AllocError> {
        let Some(lines) = self.input_lines(node, t)? else {
            return Ok(());
        };
        let Some(taps) = self.input_taps(node, t, lines)? else {
            return Ok(());
        };
        let Some(output) = self.lay_output(node, t)? else {
            return Ok(());
        };
        self.testing.links.extend_from_slice(taps.as_slice())?;
        self.testing.links.push(output)?;
        self.testing.chosen.push(t)?;
        // One that isn't tested, though it is chosen, is chosen a few times at most.
        self.testing.count_fail(t);
        Ok(())
    }

    // Tests those of some tables in the next load that can be laid.
    fn try_tables(&mut self, ready: &Vec<Table>) -> Result<(), AllocError> {
        'tables: for t in ready {
            if self.testing.outputs.is_empty() {
                break;
            }
            if let Some(node) = self.hextant_of(*t) {
                self.try_table(node, *t)?;
            }
        }
        Ok(())
    }

    // All of these couldn't be laid once more, if none is tested.
    fn count_fails(&mut self, ready: &Vec<Table>) {
        if !self.testing.chosen.is_empty() {
            return;
        }
        'tables: for t in ready {
            self.testing.count_fail(*t);
        }
    }

    /// Begins with loads of tables. Only what is above the hextants hangs then.
    pub fn begin_tables(&mut self) -> Result<(), AllocError> {
        self.forest.hold(&self.heights, BELOW)
    }

    /// Goes on to the tables of a chip. False where the node isn't one.
    pub fn go_to_chip(&mut self, node: u32) -> bool {
        self.testing.chip = node;
        self.heights.depth(node) == 2
    }

    /// Chooses the tables of the next load, of those of the chip that are left to test. False where none is left that may still be laid.
    pub fn choose_tables(&mut self, tables: &[Table]) -> Result<bool, AllocError> {
        self.testing.clear();
        self.board.begin();
        let mut ready = self.ready_tables(tables)?;
        if ready.is_empty() {
            return Ok(false);
        }
        self.draws.shuffle(&mut ready);
        self.gather_trees()?;
        self.testing.share_trees(self.alloc)?;
        if self.testing.inputs.len() < INPUTS {
            return Ok(false);
        }
        self.draws.shuffle(&mut self.testing.outputs);
        self.try_tables(&ready)?;
        self.count_fails(&ready);
        Ok(true)
    }
}
