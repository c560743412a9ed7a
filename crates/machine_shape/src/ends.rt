//! Crosspoints and their two ends.
ghost use Rattle.std.specs.Prelude.{◌≡◌, ◌≢◌, ◌<◌, ◌≤◌, ℕ, IfSome, IfNone};
ghost use Rattle.machine_shape.specs.Bars.{FitsBelow, IsBarAt, IsNodeBar};
ghost use Rattle.machine_shape.specs.Shape.{levels_of, wires_of, crosses_of, ends_of, node_of_cross, place_of, place_of_cross};
ghost use Rattle.machine_shape.specs.Walk.{crosses_in, start};

use crate::bars::{bar_of, position_of, tap_at};
use crate::places::{cross_place, first_cross, steps_of, wire_place};
use crate::way::Crossbar;
use crate::{Cross, Shape, Wire};

/// The crossbar of a crosspoint, and the crosspoint's position among those of the crossbar.
fn crossing_of(shape: Shape, cross: u32) -> (Crossbar, u32)
    requires { cross < crosses_of shape }
    ensures bar { IsNodeBar shape (node_of_cross shape cross) result.0 }
    ensures position { result.1 ≡ (place_of_cross shape cross).position }
{
    let place = cross_place(shape, cross);
    (bar_of(shape, steps_of(&place.way)), place.position)
}

/// The crossbar of the node that a wire is a pin, port or line of, its first crosspoint, and the wire's
/// position there. A table is taken for a node without lines.
fn line_site(shape: Shape, wire: u32) -> (Crossbar, u32, u32)
    requires { wire < wires_of shape }
    ensures bar { IsBarAt (levels_of shape) (place_of shape wire).path result.0 }
    ensures fits { FitsBelow result.0 (wires_of shape) }
    ensures few { wires_of shape ≤ 1310720 }
    ensures step { 0 < result.0.step }
    ensures first { result.1 ≡ start crosses_in (levels_of shape) (place_of shape wire).path }
    ensures position { result.2 ≡ (place_of shape wire).position }
{
    let place = wire_place(shape, wire);
    let way = steps_of(&place.way);
    (bar_of(shape, way), first_cross(shape, way), place.position)
}

impl Shape {
    /// The tap and the line of a crosspoint.
    pub fn ends(&self, c: Cross) -> (Wire, Wire)
        requires { c.0 < crosses_of self.now }
        ensures ends { (result.0.0, result.1.0) ≡ ends_of self.now c.0 }
        ensures tap { result.0.0 < wires_of self.now }
        ensures line { result.1.0 < wires_of self.now }
    {
        let (bar, position) = crossing_of(*self, c.0);
        let tap = tap_at(bar, position / bar.lines);
        let line = bar.first + bar.ports + position % bar.lines;
        (Wire(tap), Wire(line))
    }

    /// The crosspoint of a tap and a line. None exactly where the two are no tap and line of one crossbar.
    pub fn cross(&self, tap: Wire, line: Wire) -> Option<Cross>
        requires tap { tap.0 < wires_of self.now }
        requires line { line.0 < wires_of self.now }
        ensures found { IfSome result (λ c. (c.0 < crosses_of self.now) × (ends_of self.now c.0 ≡ (tap.0, line.0))) }
        ensures none { IfNone result ((c : ℕ) → c < crosses_of self.now → ends_of self.now c ≢ (tap.0, line.0)) }
    {
        let (bar, first, place) = line_site(*self, line.0);
        if place < bar.ports {
            return None;
        }
        match position_of(bar, tap.0) {
            None => None,
            Some(position) => Some(Cross(first + (position * bar.lines + (place - bar.ports)))),
        }
    }
}
