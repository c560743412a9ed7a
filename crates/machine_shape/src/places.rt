//! The places of wires, nodes, tables and crosspoints of a machine, and the first numbers at a way's end.
ghost use Rattle.std.specs.Prelude.{◌≡◌, ◌<◌, ◌^◌, take};
ghost use Rattle.machine_shape.specs.Counts.{AreFull};
ghost use Rattle.machine_shape.specs.Kinds.{numbers_in, path_of};
ghost use Rattle.machine_shape.specs.Shape.{levels_of, wires_of, nodes_of, tables_of, crosses_of, way_to, way_to_table, place_of};
ghost use Rattle.machine_shape.specs.Shape.{place_of_cross, node_at};
ghost use Rattle.machine_shape.specs.Walk.{IsSpot, place_in, size, start, wires_in, crosses_in, tables_in, above};
ghost use Rattle.machine_shape.specs.declared.way.Kind.{Kind};

use crate::tree::{site_of, size_of, start_of, weights_of};
use crate::way::{Kind, Site, Way};
use crate::{Level, Shape};

/// The levels of the machine, from the root down.
#[tactic(auto, unfolding(crate::specs::Shape::levels_of, crate::specs::Counts::levels_from))]
pub fn levels_of(shape: Shape) -> [Level; 4]
    ensures levels { result ≡ levels_of shape }
    ensures full { AreFull (levels_of shape) }
    ensures small { (kind : Kind) → size (numbers_in kind) (levels_of shape) < 2 ^ 32 }
{
    let counts = shape.counts;
    [
        Level {
            ports: counts.pins as u32,
            lines: counts.lines[0] as u32,
            children: counts.modules as u32,
        },
        Level {
            ports: counts.ports[0] as u32,
            lines: counts.lines[1] as u32,
            children: counts.chips as u32,
        },
        Level {
            ports: counts.ports[1] as u32,
            lines: counts.lines[2] as u32,
            children: counts.hextants as u32,
        },
        Level {
            ports: counts.ports[2] as u32,
            lines: counts.lines[3] as u32,
            children: counts.tables as u32,
        },
    ]
}

/// How many numbers of a kind there are.
pub fn total(shape: Shape, kind: Kind) -> u32
    ensures { result ≡ size (numbers_in kind) (levels_of shape) }
{
    let levels = levels_of(shape);
    let weights = weights_of(kind, levels);
    size_of(kind, &levels, weights.root.each)
}

/// Where a number of a kind is. Inlined, so that the kind is known and nothing is asked of it when it runs.
#[inline(always)]
fn place_by(shape: Shape, kind: Kind, number: u32) -> Site
    requires { number < size (numbers_in kind) (levels_of shape) }
    ensures path { path_of result.way ≡ (place_in (numbers_in kind) (levels_of shape) number).path }
    ensures position { result.position ≡ (place_in (numbers_in kind) (levels_of shape) number).position }
{
    site_of(weights_of(kind, levels_of(shape)), number)
}

/// The place of a wire.
#[tactic(auto, unfolding(crate::specs::Shape::wires_of, crate::specs::Shape::place_of))]
#[inline(always)]
pub fn wire_place(shape: Shape, wire: u32) -> Site
    requires { wire < wires_of shape }
    ensures path { path_of result.way ≡ (place_of shape wire).path }
    ensures position { result.position ≡ (place_of shape wire).position }
{
    place_by(shape, Kind::Wires, wire)
}

/// The place of a crosspoint.
#[tactic(auto, unfolding(crate::specs::Shape::crosses_of, crate::specs::Shape::place_of_cross))]
pub fn cross_place(shape: Shape, cross: u32) -> Site
    requires { cross < crosses_of shape }
    ensures path { path_of result.way ≡ (place_of_cross shape cross).path }
    ensures position { result.position ≡ (place_of_cross shape cross).position }
{
    place_by(shape, Kind::Crosses, cross)
}

/// The way to a node.
#[tactic(auto, unfolding(crate::specs::Shape::nodes_of, crate::specs::Shape::way_to))]
pub fn node_way(shape: Shape, node: u32) -> Way
    requires { node < nodes_of shape }
    ensures { path_of result ≡ way_to shape node }
{
    place_by(shape, Kind::Nodes, node).way
}

/// The way to a table.
#[tactic(auto, unfolding(crate::specs::Shape::tables_of, crate::specs::Shape::way_to_table))]
pub fn table_way(shape: Shape, table: u32) -> Way
    requires { table < tables_of shape }
    ensures { path_of result ≡ way_to_table shape table }
{
    place_by(shape, Kind::Tables, table).way
}

/// The first number of a kind at the end of a way.
fn first_by(shape: Shape, kind: Kind, way: &[u32]) -> u32
    requires { IsSpot (levels_of shape) way.now }
    ensures { result ≡ start (numbers_in kind) (levels_of shape) way.now }
{
    start_of(weights_of(kind, levels_of(shape)), way)
}

/// The number of the node at the end of a way.
#[tactic(auto, unfolding(crate::specs::Shape::node_at))]
pub fn node_number(shape: Shape, way: &[u32]) -> u32
    requires { IsSpot (levels_of shape) way.now }
    ensures { result ≡ node_at shape way.now }
{
    first_by(shape, Kind::Nodes, way)
}

/// The first wire of the node or table at the end of a way.
pub fn first_wire(shape: Shape, way: &[u32]) -> u32
    requires { IsSpot (levels_of shape) way.now }
    ensures { result ≡ start wires_in (levels_of shape) way.now }
{
    first_by(shape, Kind::Wires, way)
}

/// The first crosspoint of the node at the end of a way.
pub fn first_cross(shape: Shape, way: &[u32]) -> u32
    requires { IsSpot (levels_of shape) way.now }
    ensures { result ≡ start crosses_in (levels_of shape) way.now }
{
    first_by(shape, Kind::Crosses, way)
}

/// The first table of the node at the end of a way.
pub fn first_table(shape: Shape, way: &[u32]) -> u32
    requires { IsSpot (levels_of shape) way.now }
    ensures { result ≡ start tables_in (levels_of shape) way.now }
{
    first_by(shape, Kind::Tables, way)
}

/// The steps of a way.
pub fn steps_of(way: &Way) -> &[u32]
    ensures { result.now ≡ path_of way.now }
{
    &way.steps[..way.len]
}

/// The steps to a node, where the way may go on to one of its tables.
pub fn trunk_of(way: &Way) -> &[u32]
    ensures { result.now ≡ take 3 (path_of way.now) }
{
    &way.steps[..way.len.min(3)]
}

/// The steps of a way but the last.
pub fn above_of(way: &Way) -> &[u32]
    ensures { result.now ≡ above (path_of way.now) }
{
    &way.steps[..way.len.saturating_sub(1)]
}
