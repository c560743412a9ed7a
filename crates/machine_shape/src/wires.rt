//! What a wire is.
ghost use Rattle.std.specs.Prelude.{◌<◌, ◌+◌};
ghost use Rattle.machine_shape.specs.Said.{meaning_of};
ghost use Rattle.machine_shape.specs.Shape.{Means, levels_of, wires_of};
ghost use Rattle.machine_shape.specs.Walk.{IsSpot, rest, start, wires_in};

use crate::places::{first_table, levels_of, node_number, steps_of, wire_place};
use crate::tree::below;
use crate::{Meaning, Node, Shape, Table, Wire};

/// What the wire at a position of the node or table at the end of a way is.
fn meaning_at(shape: Shape, way: &[u32], position: u32) -> Meaning
    requires spot { IsSpot (levels_of shape) way.now }
    requires within { position < wires_in (rest (levels_of shape) way.now) }
    ensures { Means shape (start wires_in (levels_of shape) way.now + position) (meaning_of result) }
{
    let levels = levels_of(shape);
    match below(&levels, way.len()) {
        [] => Meaning::TablePin {
            table: Table(first_table(shape, way)),
            pin: position,
        },
        [level, ..] => {
            let node = Node(node_number(shape, way));
            if level.ports <= position {
                Meaning::Line {
                    node,
                    position: position - level.ports,
                }
            } else if way.len() == 0 {
                Meaning::Pin { position }
            } else {
                Meaning::Port { node, position }
            }
        }
    }
}

impl Shape {
    /// What a wire is: a pin of the machine, a line or a port of a node, or a pin of a table.
    pub fn meaning(&self, w: Wire) -> Meaning
        requires { w.0 < wires_of self.now }
        ensures { Means self.now w.0 (meaning_of result) }
    {
        let place = wire_place(*self, w.0);
        meaning_at(*self, steps_of(&place.way), place.position)
    }
}
