//! What is reached beside a route.
ghost use Rattle.std.specs.Prelude.{◌≡◌, ◌≢◌, ◌⊎◌, ◌<◌, ℕ, true, false, OnOk, length, replicate, slice_set};
ghost use Rattle.machine_config.specs.Groups.{among};
ghost use Rattle.diag_tests.specs.Routes.{IsRoute};
ghost use Rattle.diag_known.specs.Known.{IsKnown};
ghost use Rattle.diag_known.specs.Routes.{IsPin, HasFootOn};
ghost use Rattle.diag_known.specs.Reaches.{reach_at, AreTrees, HangsOn, IsReached};
ghost use Rattle.diag_known.specs.Ways.{ReachesAll};
ghost use Rattle.diag_known.specs.declared.beside.Reach.TheVariants as reach;

use crate::{Known, SupportedBy};
use diag_evidence::Facts;
use diag_tests::Route;
use machine_shape::Wire;
use std::alloc::AllocError;

/// How a known wire stands to a route.
#[derive(Clone, Copy, Debug)]
pub enum Reach {
    /// It isn't reached beside it.
    Unreached,
    /// It is on it.
    OnRoute,
    /// It is reached beside it from this pin.
    From(u32),
}

// Nothing is reached, and nothing is on the route.
fn clear(reaches: &mut Vec<Reach>, len: u32) -> Result<(), AllocError>
    ensures { OnOk result (reaches.new.items ≡ replicate len reach.Unreached) }
{
    reaches.clear();
    reaches.resize(len as usize, Reach::Unreached)?;
    Ok(())
}

// Marks the wires of a route.
fn put_route(reaches: &mut Vec<Reach>, route: &Route)
    requires { (w : ℕ) → among route.now.wires w ≡ true → w < length reaches.old.items }
    ensures len { length reaches.new.items ≡ length reaches.old.items }
    ensures on { (w : ℕ) → among route.now.wires w ≡ true → reach_at reaches.new.items w ≡ reach.OnRoute }
    ensures off { (w : ℕ) → among route.now.wires w ≡ false → reach_at reaches.new.items w ≡ reach_at reaches.old.items w }
{
    'wires: for k in 0..=route.len() {
        reaches[route.wire_at(k).0 as usize] = Reach::OnRoute;
    }
}

/// How a wire stands to the route.
pub(crate) fn reach_at(reaches: &Vec<Reach>, w: Wire) -> Reach
    ensures { result ≡ reach_at reaches.now.items w.0 }
{
    match reaches.get(w.0 as usize) {
        Some(how) => *how,
        None => Reach::Unreached,
    }
}

// How a wire off the route stands to it, by what it stands on.
fn reach_on(reaches: &Vec<Reach>, stand: SupportedBy) -> Reach
    ensures hangs { (pin : ℕ) → result ≡ reach.From pin → HangsOn reaches.now.items pin stand }
    ensures whole { IsPin stand ⊎ HasFootOn (IsReached reaches.now.items) stand → (pin : ℕ) × (result ≡ reach.From pin) }
    ensures off { result ≢ reach.OnRoute }
{
    let (first, second) = match stand {
        SupportedBy::Pin(pin) => return Reach::From(pin),
        SupportedBy::Feet(first, second) => (first, second),
    };
    if let Reach::From(pin) = reach_at(reaches, first.wire) {
        return Reach::From(pin);
    }
    if let Reach::From(pin) = reach_at(reaches, second.wire) {
        return Reach::From(pin);
    }
    Reach::Unreached
}

// Marks a wire, unless it is on the route.
fn put_off(reaches: &mut Vec<Reach>, w: Wire, how: Reach)
    requires { w.0 < length reaches.old.items }
    ensures on { reach_at reaches.old.items w.0 ≡ reach.OnRoute → reaches.new.items ≡ reaches.old.items }
    ensures off { reach_at reaches.old.items w.0 ≢ reach.OnRoute → reaches.new.items ≡ slice_set reaches.old.items w.0 how }
{
    if let Reach::OnRoute = reach_at(reaches, w) {
        return;
    }
    reaches[w.0 as usize] = how;
}

/// Finds what is reached beside a route: each known wire off it that is a pin, or has a foot that is reached. The list has
/// room for each wire afterwards, and wants memory only where it hadn't.
pub fn find_reached(
    known: &Known,
    facts: &Facts,
    route: &Route,
    reaches: &mut Vec<Reach>,
) -> Result<(), AllocError>
    requires known { IsKnown facts.now known.now }
    requires route { IsRoute facts.now.shape route.now }
    ensures on { OnOk result ((w : ℕ) → among route.now.wires w ≡ true → reach_at reaches.new.items w ≡ reach.OnRoute) }
    ensures trees { OnOk result (AreTrees known.now.steps reaches.new.items) }
    ensures all { OnOk result (ReachesAll known.now.steps route.now (IsReached reaches.new.items)) }
{
    clear(reaches, known.shape().wires())?;
    put_route(reaches, route);
    'places: for i in 0..known.len() {
        let how = reach_on(reaches, known.step_at(i).stand);
        put_off(reaches, known.wire_at(i), how);
    }
    Ok(())
}
