//! Lists of wires.
ghost use Rattle.std.specs.Prelude.{◌≡◌, ◌≢◌, ◌<◌, ◌≤◌, ℕ, All, true, IfOk, IfSome, IfNone, length};
ghost use Rattle.machine_shape.specs.Shape.{wires_of, nodes_of, taps_of, lines_of, own_ports_of, pins_of, tap_at, line_at, port_at, pin_wire};
ghost use Rattle.machine_config.specs.Groups.{among};
ghost use Rattle.diag_published.specs.Bars.{IsAtOneOf, IsKnownOf, IsListOf, AreTwoOf};
ghost use Rattle.diag_published.specs.Held.{wire_numbers};

use diag_growth::Known;
use machine_shape::{Node, Pin, Shape, Wire};
use std::alloc::{AllocError, Global};

/// The taps of a node's crossbar, ascending.
pub(crate) fn taps_in(alloc: Global, shape: &Shape, node: Node) -> Result<Vec<Wire>, AllocError>
    requires { node.0 < nodes_of shape.now }
    ensures taps { IfOk result (λ ws. IsListOf (IsAtOneOf (tap_at shape.now node.0) (taps_of shape.now node.0)) (wire_numbers ws.items)) }
    ensures count { IfOk result (λ ws. length ws.items ≡ taps_of shape.now node.0) }
    ensures within { IfOk result (λ ws. All (λ w. w.0 < wires_of shape.now) ws.items) }
{
    let mut taps = Vec::new(alloc);
    'taps: for k in 0..shape.taps(node) {
        taps.push(shape.tap(node, k))?;
    }
    Ok(taps)
}

/// The lines of a node's crossbar, ascending.
pub(crate) fn lines_in(alloc: Global, shape: &Shape, node: Node) -> Result<Vec<Wire>, AllocError>
    requires { node.0 < nodes_of shape.now }
    ensures lines { IfOk result (λ ws. IsListOf (IsAtOneOf (line_at shape.now node.0) (lines_of shape.now node.0))
        (wire_numbers ws.items)) }
    ensures count { IfOk result (λ ws. length ws.items ≡ lines_of shape.now node.0) }
    ensures within { IfOk result (λ ws. All (λ w. w.0 < wires_of shape.now) ws.items) }
{
    let mut lines = Vec::new(alloc);
    'lines: for k in 0..shape.lines(node) {
        lines.push(shape.line(node, k))?;
    }
    Ok(lines)
}

/// The ports of a node, ascending.
pub(crate) fn ports_in(alloc: Global, shape: &Shape, node: Node) -> Result<Vec<Wire>, AllocError>
    requires { node.0 < nodes_of shape.now }
    ensures ports { IfOk result (λ ws. IsListOf (IsAtOneOf (port_at shape.now node.0) (own_ports_of shape.now node.0))
        (wire_numbers ws.items)) }
    ensures within { IfOk result (λ ws. All (λ w. w.0 < wires_of shape.now) ws.items) }
{
    let mut ports = Vec::new(alloc);
    'ports: for k in 0..shape.ports(node) {
        ports.push(shape.port(node, k))?;
    }
    Ok(ports)
}

/// The first pins of the machine, so many of them.
pub(crate) fn pins_in(alloc: Global, shape: &Shape, count: u32) -> Result<Vec<Wire>, AllocError>
    requires { count ≤ pins_of shape.now }
    ensures pins { IfOk result (λ ws. IsListOf (IsAtOneOf (pin_wire shape.now) count) (wire_numbers ws.items)) }
    ensures count { IfOk result (λ ws. length ws.items ≡ count) }
    ensures within { IfOk result (λ ws. All (λ w. w.0 < wires_of shape.now) ws.items) }
{
    let mut pins = Vec::new(alloc);
    'pins: for k in 0..count {
        pins.push(shape.pin(Pin(k)))?;
    }
    Ok(pins)
}

/// Those of some wires that are known, in their order.
pub(crate) fn known_of(
    alloc: Global,
    known: &Known,
    wires: &[Wire],
) -> Result<Vec<Wire>, AllocError>
    requires { All (λ w. w.0 < wires_of known.now.shape) wires.now }
    ensures known { IfOk result (λ ws. IsListOf (IsKnownOf known.now (wire_numbers wires.now)) (wire_numbers ws.items)) }
    ensures within { IfOk result (λ ws. All (λ w. w.0 < wires_of known.now.shape) ws.items) }
{
    let mut those = Vec::new(alloc);
    'wires: for wire in wires {
        if !known.has(*wire) {
            continue;
        }
        those.push(*wire)?;
    }
    Ok(those)
}

// One of some wires that isn't this one.
fn another(wires: &[Wire], first: Wire) -> Option<Wire>
    ensures some { IfSome result (λ w. (among (wire_numbers wires.now) w.0 ≡ true) × (w.0 ≢ first.0)) }
    ensures none { IfNone result ((w : ℕ) → among (wire_numbers wires.now) w ≡ true → w ≡ first.0) }
{
    'wires: for wire in wires {
        if wire.0 != first.0 {
            return Some(*wire);
        }
    }
    None
}

/// Two different ones of some wires. None where there are none.
pub(crate) fn two_of(wires: &[Wire]) -> Option<(Wire, Wire)>
    ensures two { IfSome result (λ p. AreTwoOf (wire_numbers wires.now) p.0.0 p.1.0) }
    ensures none { IfNone result ((w u : ℕ) → among (wire_numbers wires.now) w ≡ true → among (wire_numbers wires.now) u ≡ true → w ≡ u) }
{
    if wires.len() == 0 {
        return None;
    }
    let first = wires[0];
    let second = another(wires, first)?;
    Some((first, second))
}
