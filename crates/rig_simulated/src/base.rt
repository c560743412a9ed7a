//! The classes of what the faults alone join.

ghost use Rattle.std.specs.Prelude.{◌≡◌, ◌<◌, [], length, IfOk};
ghost use Rattle.machine_meaning.specs.Faults.{stuck_wire};
ghost use Rattle.machine_shape.specs.Shape.{wires_of};
ghost use Rattle.rig_simulated.specs.Classes.{AreTied};
ghost use Rattle.rig_simulated.specs.Building.{bridged_net, stuck_net, AreBase, AreClosedBy};

use crate::classes::{ClassNode, Classes, join};
use machine_faults::FaultSet;
use machine_shape::{Cross, Wire};
use std::alloc::{AllocError, Global};

// Each wire alone.
fn lone_nodes(alloc: Global, faults: &FaultSet) -> Result<Vec<ClassNode>, AllocError>
    ensures len { IfOk result (λ knots. length knots.items ≡ wires_of faults.now.shape) }
    ensures tied { IfOk result (λ knots. AreTied (bridged_net faults.now.shape []) (stuck_wire faults.now.faults) knots.items 0) }
{
    let wires = faults.shape().wires();
    let mut knots = Vec::with_capacity(alloc, wires as usize)?;
    'wires: for w in 0..wires {
        let held = faults.stuck(Wire(w));
        knots.push(ClassNode {
            parent: w,
            rank: 0,
            held,
        })?;
    }
    Ok(knots)
}

// Joins what is bridged.
fn bridge_all(knots: &mut [ClassNode], faults: &FaultSet)
    requires len { length knots.old ≡ wires_of faults.now.shape }
    requires tied { AreTied (bridged_net faults.now.shape []) (stuck_wire faults.now.faults) knots.old 0 }
    ensures len { length knots.new ≡ length knots.old }
    ensures tied { AreTied (stuck_net faults.now.shape faults.now.faults 0) (stuck_wire faults.now.faults) knots.new 16777216 }
{
    // The faults are those of their shape, so each bridge joins two wires of it.
    let _shape = faults.shape();
    let bridges = faults.bridges();
    'bridges: for i in 0..bridges.len() {
        let (a, b) = bridges[i];
        join(knots, a.0, b.0);
    }
}

// Joins the ends of the crosspoints that are stuck closed.
fn close_stuck(knots: &mut [ClassNode], faults: &FaultSet)
    requires len { length knots.old ≡ wires_of faults.now.shape }
    requires tied { AreTied (stuck_net faults.now.shape faults.now.faults 0) (stuck_wire faults.now.faults) knots.old 16777216 }
    ensures { AreBase faults.now.shape faults.now.faults knots.new }
{
    let shape = faults.shape();
    'crosses: for x in 0..shape.crosses() {
        if faults.cross_stuck(Cross(x)).unwrap_or(false) {
            let (tap, line) = shape.ends(Cross(x));
            join(knots, tap.0, line.0);
        }
    }
}

/// The classes of what the faults alone join, while nothing is closed.
pub fn classes_of(alloc: Global, faults: &FaultSet) -> Result<Classes, AllocError>
    ensures closed { IfOk result (λ c. AreClosedBy faults.now.shape faults.now.faults c.closed.items c.knots.items) }
    ensures len { IfOk result (λ c. length c.knots.items ≡ wires_of faults.now.shape) }
    ensures none { IfOk result (λ c. c.closed.items ≡ []) }
{
    let mut knots = lone_nodes(alloc, faults)?;
    bridge_all(&mut knots, faults);
    close_stuck(&mut knots, faults);
    Ok(Classes {
        knots,
        closed: Vec::new(alloc),
    })
}
