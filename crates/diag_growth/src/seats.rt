//! Where a table is tested over known wires.
ghost use Rattle.std.specs.Prelude.{◌≡◌, ◌<◌, ℕ, IfOk, IfSome, IfNone};
ghost use Rattle.machine_shape.specs.Shape.{hextant_of, table_wire, tables_of, wires_of, IsLine, IsPort};
ghost use Rattle.diag_known.specs.Known.{IsKnown, HasWire};
ghost use Rattle.diag_growth.specs.Choices.{AreInputArms, AreOuts, IsOut, IsOutLine, IsTold};
ghost use Rattle.diag_growth.specs.Seating.{IsPlace, IsPlaceAt, IsPlaceFor, IsPlaceNear, IsWithout};
ghost use Rattle.diag_growth.specs.Seats.{IsSeat};

use crate::choices::{Arms, Fars, arms_beside, far_beside, fars_over, input_arms};
use crate::search::meeting;
use crate::{Arm, Seat};
use diag_evidence::Facts;
use diag_known::Known;
use machine_shape::{Cross, Table, Wire, ports_and_lines_ascend, the_numbering_is_sound};
use std::alloc::AllocError;

/// Where a table is tested: two ports of its hextant, a line from the far one to the output, and arms from the near one to
/// the inputs.
#[derive(Drop)]
pub(crate) struct Place {
    pub near: Wire,
    pub far: Wire,
    pub to_line: Cross,
    pub line: Wire,
    pub output: Cross,
    pub arms: Vec<Arm>,
}

/// A line that meets the output of a table, with the ports that meet it.
#[derive(Clone, Copy, Debug)]
pub(crate) struct Out {
    pub line: Wire,
    pub output: Cross,
    pub fars: Fars,
}

/// A port, with the arms from it to each input of a table.
#[derive(Drop)]
pub(crate) struct Hub {
    pub port: Wire,
    pub arms: Vec<Arms>,
}

// The line, if it is known and meets the output of the table and a port.
fn out_over(known: &Known, without: &Known, facts: &Facts, t: Table, line: Wire) -> Option<Out>
    requires known { IsKnown facts.now known.now }
    requires without { IsKnown facts.now without.now }
    requires table { t.0 < tables_of facts.now.shape }
    requires line { IsLine facts.now.shape (hextant_of facts.now.shape t.0) line.0 }
    requires within { line.0 < wires_of facts.now.shape }
    ensures out { IfSome result (IsOut facts.now known.now.steps without.now.steps t.0) }
    ensures line { IfSome result (λ o. o.line.0 ≡ line.0) }
    ensures none { IfNone result ((near : ℕ) → ¬ IsPlaceAt facts.now known.now.steps without.now.steps t.0 near line.0) }
{
    let shape = facts.shape();
    let hextant = shape.hextant_of(t);
    if !known.has(line) {
        return None;
    }
    let Some(output) = meeting(facts, shape.pin_of(t, 6), line) else {
        return None;
    };
    let Some(fars) = fars_over(without, facts, hextant, line) else {
        return None;
    };
    Some(Out { line, output, fars })
}

// The lines that meet the output of a table and a port.
fn outs_of(known: &Known, without: &Known, facts: &Facts, t: Table) -> Result<Vec<Out>, AllocError>
    requires known { IsKnown facts.now known.now }
    requires without { IsKnown facts.now without.now }
    requires table { t.0 < tables_of facts.now.shape }
    ensures outs { IfOk result (λ outs. AreOuts facts.now known.now.steps without.now.steps t.0 outs.items) }
    ensures whole { IfOk result (λ outs. (line : ℕ) → IsLine facts.now.shape (hextant_of facts.now.shape t.0) line
        → IsTold facts.now known.now.steps without.now.steps t.0 outs.items line) }
{
    ports_and_lines_ascend();
    let shape = facts.shape();
    let hextant = shape.hextant_of(t);
    let mut outs = Vec::new(known.alloc());
    'lines: for k in 0..shape.lines(hextant) {
        let Some(out) = out_over(known, without, facts, t, shape.line(hextant, k)) else {
            continue;
        };
        outs.push(out)?;
    }
    Ok(outs)
}

// A place over a near port and a line.
fn place_over(
    known: &Known,
    without: &Known,
    facts: &Facts,
    t: Table,
    hub: &Hub,
    out: Out,
) -> Result<Option<Place>, AllocError>
    requires out { IsOut facts.now known.now.steps without.now.steps t.0 out }
    requires arms { AreInputArms facts.now known.now.steps t.0 hub.now.port.0 6 hub.now.arms.items }
    ensures place { IfOk result (λ found. IfSome found
        (IsPlace facts.now known.now.steps without.now.steps t.0 hub.now.port.0 out.line.0)) }
    ensures none { IfOk result (λ found. IfNone found
        (¬ IsPlaceAt facts.now known.now.steps without.now.steps t.0 hub.now.port.0 out.line.0)) }
{
    let Some((far, to_line)) = far_beside(out.fars, hub.port) else {
        return Ok(None);
    };
    let Some(arms) = arms_beside(known, facts, t, hub.port, &hub.arms, out.line)? else {
        return Ok(None);
    };
    Ok(Some(Place {
        near: hub.port,
        far,
        to_line,
        line: out.line,
        output: out.output,
        arms,
    }))
}

// A place from a near port over one of these lines.
fn place_from(
    known: &Known,
    without: &Known,
    facts: &Facts,
    t: Table,
    outs: &Vec<Out>,
    hub: &Hub,
) -> Result<Option<Place>, AllocError>
    requires outs { AreOuts facts.now known.now.steps without.now.steps t.0 outs.now.items }
    requires arms { AreInputArms facts.now known.now.steps t.0 hub.now.port.0 6 hub.now.arms.items }
    ensures place { IfOk result (λ found. IfSome found (IsPlaceNear facts.now known.now.steps without.now.steps t.0 hub.now.port.0)) }
    ensures none { IfOk result (λ found. IfNone found ((line : ℕ) → IsOutLine outs.now.items line
        → ¬ IsPlaceAt facts.now known.now.steps without.now.steps t.0 hub.now.port.0 line)) }
{
    'lines: for k in 0..outs.len() {
        if let Some(place) = place_over(known, without, facts, t, hub, outs[k])? {
            return Ok(Some(place));
        }
    }
    Ok(None)
}

// A place over a near port and one of these lines.
fn place_near(
    known: &Known,
    without: &Known,
    facts: &Facts,
    t: Table,
    outs: &Vec<Out>,
    near: Wire,
) -> Result<Option<Place>, AllocError>
    requires known { IsKnown facts.now known.now }
    requires table { t.0 < tables_of facts.now.shape }
    requires outs { AreOuts facts.now known.now.steps without.now.steps t.0 outs.now.items }
    requires port { IsPort facts.now.shape (hextant_of facts.now.shape t.0) near.0 }
    requires near { near.0 < wires_of facts.now.shape }
    ensures place { IfOk result (λ found. IfSome found (IsPlaceNear facts.now known.now.steps without.now.steps t.0 near.0)) }
    ensures none { IfOk result (λ found. IfNone found ((line : ℕ) → IsOutLine outs.now.items line
        → ¬ IsPlaceAt facts.now known.now.steps without.now.steps t.0 near.0 line)) }
{
    let Some(arms) = input_arms(known, facts, t, near)? else {
        return Ok(None);
    };
    let hub = Hub { port: near, arms };
    place_from(known, without, facts, t, outs, &hub)
}

/// A place where a table can be tested, if there is one: over two ports that stand without the hextant, a line from the
/// one to the output, and other lines from the other one to the inputs.
pub(crate) fn find_place(
    known: &Known,
    without: &Known,
    facts: &Facts,
    t: Table,
) -> Result<Option<Place>, AllocError>
    requires known { IsKnown facts.now known.now }
    requires without { IsKnown facts.now without.now }
    requires table { t.0 < tables_of facts.now.shape }
    ensures place { IfOk result (λ found. IfSome found (IsPlaceFor facts.now known.now.steps without.now.steps t.0)) }
    ensures none { IfOk result (λ found. IfNone found ((near line : ℕ) → IsPort facts.now.shape (hextant_of facts.now.shape t.0) near
        → HasWire without.now.steps near → IsLine facts.now.shape (hextant_of facts.now.shape t.0) line
        → ¬ IsPlaceAt facts.now known.now.steps without.now.steps t.0 near line)) }
{
    ports_and_lines_ascend();
    let shape = facts.shape();
    let hextant = shape.hextant_of(t);
    let outs = outs_of(known, without, facts, t)?;
    'ports: for k in 0..shape.ports(hextant) {
        let near = shape.port(hextant, k);
        if !without.has(near) {
            continue;
        }
        if let Some(place) = place_near(known, without, facts, t, &outs, near)? {
            return Ok(Some(place));
        }
    }
    Ok(None)
}

/// The seat over a place: routes to the two ports that touch no wire of the hextant but these.
pub(crate) fn seat_of(
    known: &Known,
    without: &Known,
    facts: &Facts,
    t: Table,
    place: Place,
) -> Result<Seat, AllocError>
    requires known { IsKnown facts.now known.now }
    requires without { IsKnown facts.now without.now }
    requires outside { IsWithout facts.now.shape known.now.steps without.now.steps (hextant_of facts.now.shape t.0) }
    requires table { t.0 < tables_of facts.now.shape }
    requires pins { (j : ℕ) → j < 7 → HasWire known.now.steps (table_wire facts.now.shape t.0 j) }
    requires place { IsPlaceFor facts.now known.now.steps without.now.steps t.0 place }
    ensures { IfOk result (λ seat. IsSeat facts.now seat × (seat.table.0 ≡ t.0)) }
{
    the_numbering_is_sound();
    let (near, mut far) = without.routes(facts, place.near, place.far)?;
    far.push_to(&facts.shape(), place.to_line, place.line)?;
    Ok(Seat {
        table: t,
        near,
        far,
        arms: place.arms,
        output: place.output,
    })
}
