//! The classes once crosspoints are closed.

ghost use Rattle.std.specs.Prelude.{◌≡◌, ◌+◌, ◌-◌, ◌<◌, ◌≤◌, [], ◌∷◌, ◌++◌, length, map, take, All, OnOk, OnErr};
ghost use Rattle.machine_shape.specs.Shape.{wires_of, crosses_of};
ghost use Rattle.rig_simulated.specs.Classes.{AreRooted};
ghost use Rattle.rig_simulated.specs.Building.{cross_of, AreClosedBy, AreOpenable, StaysClosed, HasClosed};
ghost use Rattle.rig_simulated.specs.Stuck.{AreStuck};

use crate::classes::{Classes, Closed, hang, part, root_of, tie_of};
use base_bits::BitSet;
use machine_config::count_alike;
use machine_faults::FaultSet;
use machine_shape::Cross;
use std::alloc::AllocError;

/// Opens what was closed last.
fn open_last(classes: &mut Classes)
    requires { AreOpenable classes.old.closed.items classes.old.knots.items }
    ensures openable { AreOpenable classes.new.closed.items classes.new.knots.items }
    ensures stays { StaysClosed classes.old classes.new }
    ensures closed { classes.new.closed.items ≡ take (length classes.old.closed.items - 1) classes.old.closed.items }
{
    if let Some(last) = classes.closed.pop() {
        part(&mut classes.knots, last.tie);
    }
}

/// Opens what was closed behind so many, the last first.
fn open_behind(classes: &mut Classes, count: usize)
    requires count { count ≤ length classes.old.closed.items }
    requires openable { AreOpenable classes.old.closed.items classes.old.knots.items }
    ensures stays { StaysClosed classes.old classes.new }
    ensures closed { classes.new.closed.items ≡ take count classes.old.closed.items }
{
    'behind: while classes.closed.len() > count {
        open_last(classes);
    }
}

/// Joins the classes of the two ends of a crosspoint.
fn close(classes: &mut Classes, cross: Cross, a: u32, b: u32) -> Result<(), AllocError>
    requires a { a < length classes.old.knots.items }
    requires b { b < length classes.old.knots.items }
    requires rooted { AreRooted classes.old.knots.items }
    ensures joined { OnOk result (HasClosed cross a b classes.old classes.new) }
    ensures closed { OnErr result (classes.new.closed.items ≡ classes.old.closed.items) }
    ensures knots { OnErr result (classes.new.knots.items ≡ classes.old.knots.items) }
{
    let root = root_of(&classes.knots, a);
    let other = root_of(&classes.knots, b);
    if root == other {
        classes.closed.push(Closed { cross, tie: None })?;
        return Ok(());
    }
    let tie = tie_of(&classes.knots, root, other);
    classes.closed.push(Closed {
        cross,
        tie: Some(tie),
    })?;
    hang(&mut classes.knots, tie.low, tie.high);
    Ok(())
}

/// Closes one crosspoint more. One that is stuck changes nothing beyond what the faults do already.
fn close_next(
    classes: &mut Classes,
    stuck: &BitSet,
    faults: &FaultSet,
    cross: Cross,
) -> Result<(), AllocError>
    requires closed { AreClosedBy faults.now.shape faults.now.faults classes.old.closed.items classes.old.knots.items }
    requires stuck { AreStuck faults.now.shape faults.now.faults stuck.now }
    requires cross { cross.0 < crosses_of faults.now.shape }
    ensures closed { AreClosedBy faults.now.shape faults.now.faults classes.new.closed.items classes.new.knots.items }
    ensures more { OnOk result (map cross_of classes.new.closed.items ≡ map cross_of classes.old.closed.items ++ cross ∷ []) }
    ensures kept { OnErr result (classes.new.closed.items ≡ classes.old.closed.items) }
{
    if stuck.has(cross.0) {
        classes.closed.push(Closed { cross, tie: None })?;
        return Ok(());
    }
    let (tap, line) = faults.shape().ends(cross);
    close(classes, cross, tap.0, line.0)?;
    Ok(())
}

/// The same, with the list of what is closed.
fn close_more(
    classes: &mut Classes,
    closed: &mut Vec<Cross>,
    stuck: &BitSet,
    faults: &FaultSet,
    cross: Cross,
) -> Result<(), AllocError>
    requires closed { AreClosedBy faults.now.shape faults.now.faults classes.old.closed.items classes.old.knots.items }
    requires same { map cross_of classes.old.closed.items ≡ closed.old.items }
    requires stuck { AreStuck faults.now.shape faults.now.faults stuck.now }
    requires cross { cross.0 < crosses_of faults.now.shape }
    ensures closed { AreClosedBy faults.now.shape faults.now.faults classes.new.closed.items classes.new.knots.items }
    ensures same { map cross_of classes.new.closed.items ≡ closed.new.items }
    ensures more { OnOk result (closed.new.items ≡ closed.old.items ++ cross ∷ []) }
{
    closed.push(cross)?;
    if close_next(classes, stuck, faults, cross).is_err() {
        closed.pop();
        return Err(AllocError);
    }
    Ok(())
}

/// Joins what these crosspoints join where they are closed and no others are, and lists them. What was closed and listed before is
/// opened behind the crosspoints that come first in both lists.
pub fn close_all(
    classes: &mut Classes,
    closed: &mut Vec<Cross>,
    stuck: &BitSet,
    faults: &FaultSet,
    crosses: &[Cross],
) -> Result<(), AllocError>
    requires closed { AreClosedBy faults.now.shape faults.now.faults classes.old.closed.items classes.old.knots.items }
    requires same { map cross_of classes.old.closed.items ≡ closed.old.items }
    requires stuck { AreStuck faults.now.shape faults.now.faults stuck.now }
    requires within { All (λ c. c.0 < crosses_of faults.now.shape) crosses.now }
    ensures closed { AreClosedBy faults.now.shape faults.now.faults classes.new.closed.items classes.new.knots.items }
    ensures same { map cross_of classes.new.closed.items ≡ closed.new.items }
    ensures crosses { OnOk result (closed.new.items ≡ crosses.now) }
    ensures len { length classes.new.knots.items ≡ wires_of faults.now.shape }
    ensures rooted { AreRooted classes.new.knots.items }
{
    let count = count_alike(closed, crosses);
    open_behind(classes, count);
    closed.truncate(count);
    'crosses: for i in count..crosses.len() {
        close_more(classes, closed, stuck, faults, crosses[i])?;
    }
    Ok(())
}
