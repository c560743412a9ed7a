//! Which tables are seated among free wires.

use crate::feet::on_two;
use crate::flags::Flags;
use crate::sight::{Sight, TableSeen};
use machine_shape::{Meaning, Node};
use std::alloc::{AllocError, Global};

// The free wires that are neither lines of the hextant nor pins of its tables, and are pins of the machine or of these.
fn standing_on(
    alloc: Global,
    sight: &Sight,
    hextant: Node,
    two: &Flags,
) -> Result<Flags, AllocError> {
    let mut stands = Vec::new(alloc);
    'wires: for (wire, two) in sight.wires.iter().zip(two.iter()) {
        let is_outside = match wire.meaning {
            Meaning::Line { .. } | Meaning::TablePin { .. } => wire.node != hextant,
            _ => true,
        };
        stands.push(wire.free && is_outside && (wire.is_pin() || *two))?;
    }
    Ok(Flags::new(stands))
}

// One pass more: what stands where these do.
fn stand_next(
    alloc: Global,
    sight: &Sight,
    crosses: &[(u32, u32)],
    hextant: Node,
    stands: &Flags,
) -> Result<Flags, AllocError> {
    let two = on_two(alloc, crosses, stands)?;
    standing_on(alloc, sight, hextant, &two)
}

// The wires that stand without the hextant by these crosspoints: the least set that has the pins of the machine, and what has
// crosspoints to two different ones of the set.
fn standing(
    alloc: Global,
    sight: &Sight,
    crosses: &[(u32, u32)],
    hextant: Node,
) -> Result<Flags, AllocError> {
    let mut stands = Flags::new(vec![in alloc; false; sight.wires.len()]?);
    'passes: for _pass in 0..sight.wires.len() {
        let more = stand_next(alloc, sight, crosses, hextant, &stands)?;
        if more.stays(&stands) && stands.stays(&more) {
            break;
        }
        stands = more;
    }
    Ok(stands)
}

// The ports of the hextant that stand without it.
fn ports_of(
    alloc: Global,
    sight: &Sight,
    crosses: &[(u32, u32)],
    hextant: Node,
) -> Result<Vec<u32>, AllocError> {
    let stands = standing(alloc, sight, crosses, hextant)?;
    let mut ports = Vec::new(alloc);
    'wires: for (wire, stands) in sight.wires.iter().zip(stands.iter()) {
        if *stands && wire.node == hextant && matches!(wire.meaning, Meaning::Port { .. }) {
            ports.push(wire.number)?;
        }
    }
    Ok(ports)
}

// Whether a line that isn't this one meets both taps.
fn joins(bar: &[(u32, u32)], near: u32, input: u32, line: u32) -> bool {
    'crosses: for c in bar {
        if c.0 == near && c.1 != line && bar.contains(&(input, c.1)) {
            return true;
        }
    }
    false
}

// Whether for each input another line meets both it and this port.
fn joins_all(bar: &[(u32, u32)], near: u32, inputs: &[u32], line: u32) -> bool {
    'inputs: for input in inputs {
        if !joins(bar, near, *input, line) {
            return false;
        }
    }
    true
}

// Whether one of the ports will do as the near one, where the far one and the line at the output are these.
fn has_near(bar: &[(u32, u32)], ports: &[u32], inputs: &[u32], far: u32, line: u32) -> bool {
    'ports: for near in ports {
        if *near != far && joins_all(bar, *near, inputs, line) {
            return true;
        }
    }
    false
}

// The hextant's crossbar and its ports that stand without it are these. One port, the far one, meets a line that meets the
// output; and for each input another line meets both it and another port, the near one.
fn seats(bar: &[(u32, u32)], ports: &[u32], inputs: &[u32], output: u32) -> bool {
    'crosses: for c in bar {
        let is_far = ports.contains(&c.0) && bar.contains(&(output, c.1));
        if is_far && has_near(bar, ports, inputs, c.0, c.1) {
            return true;
        }
    }
    false
}

// Whether these pins are free.
fn are_free(sight: &Sight, pins: &[u32]) -> bool {
    'pins: for pin in pins {
        if !sight.has_free(*pin) {
            return false;
        }
    }
    true
}

// The free crosspoints.
fn free_crosses(alloc: Global, sight: &Sight) -> Result<Vec<(u32, u32)>, AllocError> {
    let mut crosses = Vec::new(alloc);
    'crosses: for c in sight.crosses.iter() {
        if c.free {
            crosses.push(c.ends)?;
        }
    }
    Ok(crosses)
}

/// Whether a table is seated among the free wires, by free crosspoints.
pub fn is_seated(alloc: Global, sight: &Sight, table: &TableSeen) -> Result<bool, AllocError> {
    let [inputs @ .., output] = table.pins.as_slice() else {
        return Ok(false);
    };
    let Some(wire) = sight.wires.get(*output as usize) else {
        return Ok(false);
    };
    let crosses = free_crosses(alloc, sight)?;
    let ports = ports_of(alloc, sight, &crosses, wire.node)?;
    Ok(are_free(sight, &table.pins) && seats(&crosses, &ports, inputs, *output))
}
