//! The names of nodes, tables and wires.
ghost use Rattle.std.specs.Prelude.{◌≡◌, ◌<◌, ◌≤◌, ◌+◌, ◌*◌, ◌++◌, All, length};
ghost use Rattle.machine_shape.specs.Names.{way_name, steps_name, port_letter, part_name, node_name, table_name, wire_name};
ghost use Rattle.machine_shape.specs.Shape.{wires_of, tables_of, nodes_of};

use crate::places::{levels_of, node_way, steps_of, table_way, wire_place};
use crate::tree::below;
use crate::{Level, Node, PartName, Shape, Table, Wire};

/// Appends the steps of a way, each with its letter.
fn push_steps(name: &mut PartName, letters: &[u8], way: &[u32])
    requires short { All (λ i. i < 10000000) way.now }
    requires room { length name.old + 9 * length way.now ≤ 42 }
    ensures text { name.new ≡ name.old ++ steps_name letters.now way.now }
    ensures room { length name.new ≤ length name.old + 9 * length way.now }
{
    match way {
        [] => {}
        [step, further @ ..] => match letters {
            [] => {}
            [letter, others @ ..] => {
                name.push(b'.');
                name.push_numbered(*letter, *step);
                push_steps(name, others, further);
            }
        },
    }
}

/// The name of the node or table at the end of a way.
fn name_of_way(way: &[u32]) -> PartName
    requires short { All (λ i. i < 10000000) way.now }
    requires deep { length way.now ≤ 4 }
    ensures name { result ≡ way_name way.now }
    ensures room { length result ≤ 36 }
{
    let mut name = PartName::empty();
    match way {
        [] => name.push(b'r'),
        [first, further @ ..] => {
            name.push_numbered(b'm', *first);
            push_steps(&mut name, b"cht", further);
        }
    }
    name
}

/// Appends the part of a wire's name that follows its node's or table's.
fn push_part(name: &mut PartName, letter: u8, levels: &[Level], position: u32)
    requires short { position < 10000000 }
    requires room { length name.old ≤ 40 }
    ensures { name.new ≡ name.old ++ part_name letter levels.now position }
{
    match levels {
        [] => {
            if position == 6 {
                name.push(b'q')
            } else {
                name.push_numbered(b'i', position)
            }
        }
        [level, ..] => {
            if position < level.ports {
                name.push_numbered(letter, position)
            } else {
                name.push_numbered(b'l', position - level.ports)
            }
        }
    }
}

/// The letter of the ports of the node at the end of a way.
fn letter_of(way: &[u32]) -> u8
    ensures { result ≡ port_letter way.now }
{
    match way {
        [] => b'p',
        [_, ..] => b'o',
    }
}

impl Shape {
    /// The name of a node: `r` for the root, or as `m0.c1.h2`.
    pub fn node_name(&self, n: Node) -> PartName
        requires { n.0 < nodes_of self.now }
        ensures { result ≡ node_name self.now n.0 }
    {
        let way = node_way(*self, n.0);
        name_of_way(steps_of(&way))
    }

    /// The name of a table: its hextant's, and as `.t3`.
    pub fn table_name(&self, t: Table) -> PartName
        requires { t.0 < tables_of self.now }
        ensures { result ≡ table_name self.now t.0 }
    {
        let way = table_way(*self, t.0);
        name_of_way(steps_of(&way))
    }

    /// The name of a wire: its node's or its table's, and as `.p0` for a pin of the machine, `.l0` for a
    /// line, `.o0` for a port, `.i0` to `.i5` for the inputs of a table, and `.q` for its output.
    pub fn wire_name(&self, w: Wire) -> PartName
        requires { w.0 < wires_of self.now }
        ensures { result ≡ wire_name self.now w.0 }
    {
        let place = wire_place(*self, w.0);
        let way = steps_of(&place.way);
        let levels = levels_of(*self);
        let levels = below(&levels, way.len());
        let mut name = name_of_way(way);
        name.push(b'.');
        push_part(&mut name, letter_of(way), levels, place.position);
        name
    }
}
