//! The crossbars of nodes, and the taps at their positions.
ghost use Rattle.std.specs.Prelude.{◌≡◌, ◌≢◌, ◌<◌, ◌≤◌, ◌+◌, ◌*◌, ℕ, IfSome, IfNone};
ghost use Rattle.machine_shape.specs.Bars.{FitsBelow, IsBarAt, IsBarFrom, tap_by};
ghost use Rattle.machine_shape.specs.Shape.{levels_of, wires_of};
ghost use Rattle.machine_shape.specs.Walk.{IsSpot, next, size, wires_in};

use crate::places::levels_of;
use crate::tree::{below, divided, each_at, ports_below, start_of, weights_of};
use crate::way::{Crossbar, Kind};
use crate::{Level, Shape};

/// The crossbar of a node by the levels from it on, its first wire, and how many wires each child has.
fn bar_from(levels: &[Level], first: u32, step: u32) -> Crossbar
    requires { step ≡ size wires_in (next levels.now) }
    ensures { IsBarFrom levels.now first result }
{
    match levels {
        [] => Crossbar {
            first,
            ports: 7,
            lines: 0,
            children: 0,
            each: 7,
            step,
        },
        [level, rest @ ..] => Crossbar {
            first,
            ports: level.ports,
            lines: level.lines,
            children: level.children,
            each: ports_below(rest),
            step,
        },
    }
}

/// The crossbar of the node at the end of a way.
pub fn bar_of(shape: Shape, way: &[u32]) -> Crossbar
    requires { IsSpot (levels_of shape) way.now }
    ensures bar { IsBarAt (levels_of shape) way.now result }
    ensures fits { FitsBelow result (wires_of shape) }
{
    let levels = levels_of(shape);
    let weights = weights_of(Kind::Wires, levels);
    let first = start_of(weights, way);
    bar_from(
        below(&levels, way.len()),
        first,
        each_at(weights, way.len()),
    )
}

/// The wire of the tap at a position.
pub fn tap_at(bar: Crossbar, position: u32) -> u32
    requires within { position < bar.ports + bar.children * bar.each }
    requires fits { FitsBelow bar 1310720 }
    ensures { result ≡ tap_by bar position }
{
    if position < bar.ports {
        bar.first + position
    } else {
        let (child, port) = divided(position - bar.ports, bar.each);
        bar.first + bar.ports + bar.lines + child * bar.step + port
    }
}

/// The position of the tap that is a child's port, as many wires beyond the node's own.
fn child_port(bar: Crossbar, further: u32) -> Option<u32>
    requires fits { FitsBelow bar 1310720 }
    requires step { 0 < bar.step }
    ensures found { IfSome result (λ a. (bar.ports ≤ a) × (a < bar.ports + bar.children * bar.each)
        × (tap_by bar a ≡ bar.first + bar.ports + bar.lines + further)) }
    ensures none { IfNone result ((a : ℕ) → bar.ports ≤ a → a < bar.ports + bar.children * bar.each →
        tap_by bar a ≢ bar.first + bar.ports + bar.lines + further) }
{
    let (child, position) = divided(further, bar.step);
    if child < bar.children && position < bar.each {
        Some(bar.ports + (child * bar.each + position))
    } else {
        None
    }
}

/// The position of the tap that is a wire, if it is a tap.
pub fn position_of(bar: Crossbar, wire: u32) -> Option<u32>
    requires fits { FitsBelow bar 1310720 }
    requires step { 0 < bar.step }
    ensures found { IfSome result (λ a. (a < bar.ports + bar.children * bar.each) × (tap_by bar a ≡ wire)) }
    ensures none { IfNone result ((a : ℕ) → a < bar.ports + bar.children * bar.each → tap_by bar a ≢ wire) }
{
    if wire < bar.first {
        None
    } else if wire - bar.first < bar.ports {
        Some(wire - bar.first)
    } else if wire - bar.first < bar.ports + bar.lines {
        None
    } else {
        child_port(bar, wire - bar.first - bar.ports - bar.lines)
    }
}
