//! The line of each net at each node that it visits.
ghost use Rattle.std.specs.Prelude.{◌≡◌, OnOk, IfOk};
ghost use Rattle.place_route.specs.Owners.{AreLines, IsPut, line_in};

use machine_shape::Node;
use place_plan::{Net, Visit};
use std::alloc::{AllocError, Global};
use std::collections::BTreeMap;

// Puts the line of one visit.
fn put_line(lines: &mut BTreeMap<(u32, u32), u32>, visit: Visit) -> Result<(), AllocError>
    ensures { OnOk result (IsPut visit lines.old lines.new) }
{
    lines.insert((visit.node.0, visit.net.0), visit.line.0)?;
    Ok(())
}

/// The numbers of the lines, by those of node and net.
pub fn lines_of(alloc: Global, visits: &[Visit]) -> Result<BTreeMap<(u32, u32), u32>, AllocError>
    ensures { IfOk result (AreLines visits.now) }
{
    let mut lines = BTreeMap::new(alloc);
    for visit in visits {
        put_line(&mut lines, *visit)?;
    }
    Ok(lines)
}

/// The number of the line of a net at a node.
pub fn line_of(lines: &BTreeMap<(u32, u32), u32>, node: Node, net: Net) -> Option<u32>
    ensures { result ≡ line_in lines.now node.0 net.0 }
{
    lines.get(&(node.0, net.0)).copied()
}
