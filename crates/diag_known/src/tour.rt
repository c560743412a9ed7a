//! Walks over what is reached beside a route.
ghost use Rattle.std.specs.Prelude.{◌≡◌, ◌⊎◌, ◌<◌, ◌+◌, ◌++◌, [], ◌∷◌, ℕ, true, false, IfOk, OnOk, IfSome, IfNone, IsTrue, Some, length};
ghost use Rattle.std.specs.Prelude.{slice_get};
ghost use Rattle.machine_shape.specs.Shape.{Ends, ends_of, crosses_of};
ghost use Rattle.machine_config.specs.Groups.{among};
ghost use Rattle.diag_tests.specs.Routes.{IsRoute, Extends};
ghost use Rattle.diag_known.specs.Known.{IsKnown};
ghost use Rattle.diag_known.specs.Descents.{Stays};
ghost use Rattle.diag_known.specs.Reaches.{AreBefore, AreTreeWalks, AreTrees, AreWalks, GoesBelow, GoesOn, GoesTo, Hangs, HangsAlong, HangsAt};
ghost use Rattle.diag_known.specs.Reaches.{HangsOn, IsFrom, IsFromAt, IsOnWalk, IsTreeWalk, Leads, StayOn, upper_of};
ghost use Rattle.diag_known.specs.declared.verified_wire.SupportedBy.TheVariants as stand;

use crate::beside::{Reach, reach_at};
use crate::{Down, Known, Support, SupportedBy};
use diag_evidence::Facts;
use diag_tests::{Route, route_at};
use machine_shape::{Shape, Wire};
use std::alloc::AllocError;

// Whether a wire is reached from a pin.
fn is_from(reaches: &Vec<Reach>, pin: u32, w: Wire) -> bool
    ensures from { IsTrue result → IsFrom reaches.now.items pin w.0 }
    ensures other { result ≡ false → ¬ IsFrom reaches.now.items pin w.0 }
{
    match reach_at(reaches, w) {
        Reach::From(from) => from == pin,
        _ => false,
    }
}

// The first of two feet, if it is reached from the pin.
fn foot_from(reaches: &Vec<Reach>, pin: u32, first: Support, second: Support) -> Support
    requires { HangsOn reaches.now.items pin (stand.Feet first second) }
    ensures which { (result ≡ first) ⊎ (result ≡ second) }
    ensures from { IsFrom reaches.now.items pin result.wire.0 }
{
    if is_from(reaches, pin, first.wire) {
        first
    } else {
        second
    }
}

// The foot on which the wire at the one place hangs: none where it is the pin, or came before that at the other, and that
// is no pin.
fn foot_below(
    known: &Known,
    facts: &Facts,
    reaches: &Vec<Reach>,
    pin: u32,
    i: usize,
    j: usize,
) -> Option<Support>
    requires known { IsKnown facts.now known.now }
    requires trees { AreTrees known.now.steps reaches.now.items }
    requires left { IsFromAt known.now.steps reaches.now.items pin i }
    requires right { IsFromAt known.now.steps reaches.now.items pin j }
    ensures hangs { IfSome result (HangsAt facts.now known.now.steps reaches.now.items pin i) }
    ensures stays { IfNone result (Stays known.now.steps i j) }
{
    let step = known.step_at(i);
    let other = known.step_at(j);
    let SupportedBy::Feet(first, second) = step.stand else {
        return None;
    };
    if i < j && !other.is_pin() {
        return None;
    }
    Some(foot_from(reaches, pin, first, second))
}

// The next step down from two places to where they meet: none where they do.
fn next_below(
    known: &Known,
    facts: &Facts,
    reaches: &Vec<Reach>,
    pin: u32,
    i: usize,
    j: usize,
) -> Option<Down>
    requires known { IsKnown facts.now known.now }
    requires trees { AreTrees known.now.steps reaches.now.items }
    requires left { IsFromAt known.now.steps reaches.now.items pin i }
    requires right { IsFromAt known.now.steps reaches.now.items pin j }
    ensures hangs { IfSome result (HangsAlong facts.now known.now.steps reaches.now.items pin i j) }
    ensures meet { IfNone result (i ≡ j) }
{
    if i == j {
        return None;
    }
    if let Some(foot) = foot_below(known, facts, reaches, pin, i, j) {
        let over = known.wire_at(i);
        return Some(Down {
            left: true,
            foot,
            over,
        });
    }
    let over = known.wire_at(j);
    match foot_below(known, facts, reaches, pin, j, i) {
        Some(foot) => Some(Down {
            left: false,
            foot,
            over,
        }),
        None => None,
    }
}

// Takes a step down: the walk itself, or for later on the way up.
fn take(
    shape: &Shape,
    walk: &mut Route,
    ups: &mut Vec<Support>,
    down: Down,
) -> Result<(), AllocError>
    requires route { IsRoute shape.now walk.old }
    requires cross { down.foot.cross.0 < crosses_of shape.now }
    requires at { down.left ≡ true → Ends (ends_of shape.now down.foot.cross.0) walk.old.end down.foot.wire.0 }
    ensures left { OnOk result (down.left ≡ true → Extends shape.now down.foot.cross.0 walk.old walk.new × IsRoute shape.now walk.new
        × (ups.new.items ≡ ups.old.items)) }
    ensures right { OnOk result (down.left ≡ false → (walk.new ≡ walk.old) × (ups.new.items ≡ ups.old.items ++ down.foot ∷ [])) }
{
    if down.left {
        walk.push_to(shape, down.foot.cross, down.foot.wire)?;
        return Ok(());
    }
    ups.push(down.foot)?;
    Ok(())
}

// Where a step leads.
fn places_below(known: &Known, facts: &Facts, i: usize, j: usize, down: Down) -> (usize, usize)
    requires known { IsKnown facts.now known.now }
    requires before { AreBefore known.now.steps i j down }
    requires within { (i < length known.now.steps) × (j < length known.now.steps) }
    ensures leads { Leads known.now.steps down i j result.0 result.1 }
    ensures less { result.0 + result.1 < i + j }
{
    let below = known.place(down.foot.wire);
    if down.left { (below, j) } else { (i, below) }
}

// Goes down to a wire on which this one hangs, over feet that are listed for the way up.
fn go_down(
    walk: &mut Route,
    known: &Known,
    facts: &Facts,
    reaches: &Vec<Reach>,
    ups: &mut Vec<Support>,
    w: Wire,
) -> Result<(), AllocError>
    requires known { IsKnown facts.now known.now }
    requires trees { AreTrees known.now.steps reaches.now.items }
    requires walk { IsTreeWalk facts.now reaches.now.items walk.old }
    requires from { IsFrom reaches.now.items walk.old.pin w.0 }
    ensures { OnOk result (GoesBelow facts.now reaches.now.items walk.old walk.new w.0 ups.new.items) }
{
    ups.clear();
    let shape = facts.shape();
    let from = known.place(walk.end());
    let to = known.place(w);
    let (mut i, mut j) = (from, to);
    'down: while let Some(down) = next_below(known, facts, reaches, walk.pin(), i, j) {
        take(&shape, walk, ups, down)?;
        (i, j) = places_below(known, facts, i, j, down);
    }
    Ok(())
}

// The wire that hangs on the last foot behind these, over which this wire hangs.
fn upper(ups: &Vec<Support>, w: Wire) -> Wire
    ensures { result.0 ≡ upper_of w.0 ups.now.items }
{
    if ups.is_empty() {
        return w;
    }
    let last = ups[ups.len() - 1];
    last.wire
}

// Goes up over listed feet, the last one first.
fn go_up(
    walk: &mut Route,
    facts: &Facts,
    reaches: &Vec<Reach>,
    ups: &mut Vec<Support>,
    w: Wire,
) -> Result<(), AllocError>
    requires walk { IsTreeWalk facts.now reaches.now.items walk.old }
    requires hangs { Hangs facts.now reaches.now.items walk.old.pin w.0 ups.old.items walk.old.end }
    ensures { OnOk result (GoesTo facts.now reaches.now.items walk.old walk.new w.0) }
{
    let shape = facts.shape();
    'up: while let Some(foot) = ups.pop() {
        walk.push_to(&shape, foot.cross, upper(ups, w))?;
    }
    Ok(())
}

// Goes to a wire, if it is reached from the pin of the walk.
fn visit(
    walk: &mut Route,
    known: &Known,
    facts: &Facts,
    reaches: &Vec<Reach>,
    ups: &mut Vec<Support>,
    w: Wire,
) -> Result<(), AllocError>
    requires known { IsKnown facts.now known.now }
    requires trees { AreTrees known.now.steps reaches.now.items }
    requires walk { IsTreeWalk facts.now reaches.now.items walk.old }
    ensures on { OnOk result (GoesOn facts.now reaches.now.items walk.old walk.new) }
    ensures over { OnOk result (IsFrom reaches.now.items walk.old.pin w.0 → among walk.new.wires w.0 ≡ true) }
{
    if !is_from(reaches, walk.pin(), w) {
        return Ok(());
    }
    go_down(walk, known, facts, reaches, ups, w)?;
    go_up(walk, facts, reaches, ups, w)?;
    Ok(())
}

// A walk from a pin to a wire that is reached from there.
fn walk_to(
    known: &Known,
    facts: &Facts,
    reaches: &Vec<Reach>,
    pin: u32,
    w: Wire,
) -> Result<Route, AllocError>
    requires known { IsKnown facts.now known.now }
    requires trees { AreTrees known.now.steps reaches.now.items }
    requires from { IsFrom reaches.now.items pin w.0 }
    ensures walk { IfOk result (IsTreeWalk facts.now reaches.now.items) }
    ensures over { IfOk result (λ r. among r.wires w.0 ≡ true) }
{
    let mut walk = route_at(known.alloc(), &facts.shape(), pin)?;
    let mut ups = Vec::new(known.alloc());
    visit(&mut walk, known, facts, reaches, &mut ups, w)?;
    Ok(walk)
}

// Goes to a wire on the walk at a place, if that is from the pin from which the wire is reached. False where it isn't.
fn visit_at(
    known: &Known,
    facts: &Facts,
    reaches: &Vec<Reach>,
    routes: &mut Vec<Route>,
    place: usize,
    w: Wire,
) -> Result<bool, AllocError>
    requires known { IsKnown facts.now known.now }
    requires trees { AreTrees known.now.steps reaches.now.items }
    requires walks { AreTreeWalks facts.now reaches.now.items routes.old.items }
    ensures walks { OnOk result (AreTreeWalks facts.now reaches.now.items routes.new.items) }
    ensures stay { OnOk result (StayOn routes.old.items routes.new.items) }
    ensures on { IfOk result (λ yes. IsTrue yes → IsOnWalk routes.new.items w.0) }
{
    if place >= routes.len() {
        return Ok(false);
    }
    if !is_from(reaches, routes[place].pin(), w) {
        return Ok(false);
    }
    let mut ups = Vec::new(known.alloc());
    visit(&mut routes[place], known, facts, reaches, &mut ups, w)?;
    Ok(true)
}

// The place that is noted for the walk from a pin, or the first one.
fn place_of(places: &Vec<usize>, pin: u32) -> usize {
    places.get(pin as usize).copied().unwrap_or(0)
}

// Notes the place of the walk from a pin.
fn note_place(places: &mut Vec<usize>, pin: u32, place: usize) {
    let at = pin as usize;
    if at < places.len() {
        places[at] = place;
    }
}

// Goes to a wire, if it is reached: on the walk from its pin, or on a new one. Where walks are noted to stand they needn't.
fn add_walk(
    known: &Known,
    facts: &Facts,
    reaches: &Vec<Reach>,
    routes: &mut Vec<Route>,
    places: &mut Vec<usize>,
    w: Wire,
) -> Result<(), AllocError>
    requires known { IsKnown facts.now known.now }
    requires trees { AreTrees known.now.steps reaches.now.items }
    requires walks { AreTreeWalks facts.now reaches.now.items routes.old.items }
    ensures walks { OnOk result (AreTreeWalks facts.now reaches.now.items routes.new.items) }
    ensures stay { OnOk result (StayOn routes.old.items routes.new.items) }
    ensures on { OnOk result ((pin : ℕ) → IsFrom reaches.now.items pin w.0 → IsOnWalk routes.new.items w.0) }
{
    let Reach::From(pin) = reach_at(reaches, w) else {
        return Ok(());
    };
    let place = place_of(places, pin);
    if visit_at(known, facts, reaches, routes, place, w)? {
        return Ok(());
    }
    note_place(places, pin, routes.len());
    let walk = walk_to(known, facts, reaches, pin, w)?;
    routes.push(walk)?;
    Ok(())
}

/// Walks from pins over what is reached, among it each of some wires that is: one walk for each pin from which one of
/// them is reached. Wants memory for the walks.
pub fn walks(
    known: &Known,
    facts: &Facts,
    reaches: &Vec<Reach>,
    wanted: &[Wire],
) -> Result<Vec<Route>, AllocError>
    requires known { IsKnown facts.now known.now }
    requires trees { AreTrees known.now.steps reaches.now.items }
    ensures { IfOk result (λ routes. AreWalks facts.now reaches.now.items wanted.now routes.items) }
{
    let mut routes = Vec::new(known.alloc());
    let mut places = Vec::new(known.alloc());
    places.resize(facts.shape().pins() as usize, 0)?;
    'wanted: for w in wanted {
        add_walk(known, facts, reaches, &mut routes, &mut places, *w)?;
    }
    Ok(routes)
}
