//! Forests of a load.
ghost use Rattle.std.specs.Prelude.{◌≡◌, ◌<◌, ℕ, true, IfOk, IfSome, IsTrue};
ghost use Rattle.machine_shape.specs.Shape.{pins_of};
ghost use Rattle.diag_evidence.specs.Forests.{KeepsForest, KnowsForest, is_hung};
ghost use Rattle.diag_known.specs.Known.{IsKnown, HasWire};

use diag_evidence::{Facts, Forest};
use diag_known::{Field, Known, SupportedBy, VerifiedWire};
use diag_search::{Link, in_set};
use machine_shape::{Cross, Pin, Shape, Wire};
use std::alloc::{AllocError, Global};

/// Lays a crosspoint, where it may be laid.
pub(crate) fn lay(
    forest: &mut Forest,
    facts: &Facts,
    cross: Cross,
    from: Wire,
    to: Wire,
) -> Result<(), AllocError>
    requires { KeepsForest facts.now forest.old }
    ensures { KeepsForest facts.now forest.new }
{
    let shape = facts.shape();
    if cross.0 >= shape.crosses() {
        return Ok(());
    }
    if from.0 >= shape.wires() {
        return Ok(());
    }
    if to.0 >= shape.wires() {
        return Ok(());
    }
    forest.lay(facts, cross, from, to)?;
    Ok(())
}

// Which pin of the machine a wire is, if it is one.
fn machine_pin(shape: &Shape, w: Wire) -> Option<u32>
    ensures { IfSome result (λ pin. pin < pins_of shape.now) }
{
    let pins = shape.pins();
    let first = shape.pin(Pin(0)).0;
    if w.0 < first {
        return None;
    }
    if w.0 - first >= pins {
        return None;
    }
    Some(w.0 - first)
}

/// Plants a pin of the machine.
pub(crate) fn plant(forest: &mut Forest, facts: &Facts, w: Wire)
    requires { KeepsForest facts.now forest.old }
    ensures { KeepsForest facts.now forest.new }
{
    let shape = facts.shape();
    let Some(pin) = machine_pin(&shape, w) else {
        return;
    };
    forest.plant(pin);
}

// Lays a link, where it may be laid. A pin of the machine that is led to from itself is planted.
fn lay_link(forest: &mut Forest, facts: &Facts, link: &Link) -> Result<(), AllocError>
    requires { KeepsForest facts.now forest.old }
    ensures { KeepsForest facts.now forest.new }
{
    if link.from.0 == link.to.0 {
        plant(forest, facts, link.to);
        return Ok(());
    }
    lay(forest, facts, link.cross, link.from, link.to)
}

/// Lays links from a place on, where they may be laid. A pin of the machine that is led to from itself is planted.
pub(crate) fn lay_links(
    forest: &mut Forest,
    facts: &Facts,
    links: &Vec<Link>,
    from: usize,
) -> Result<(), AllocError>
    requires { KeepsForest facts.now forest.old }
    ensures { KeepsForest facts.now forest.new }
{
    'links: for k in from..links.len() {
        lay_link(forest, facts, &links[k])?;
    }
    Ok(())
}

// Hangs a known wire on the first of its feet, or plants it if it is a pin of the machine.
fn lay_known(forest: &mut Forest, facts: &Facts, step: &VerifiedWire) -> Result<(), AllocError>
    requires { KeepsForest facts.now forest.old }
    ensures { KeepsForest facts.now forest.new }
{
    match step.stand {
        SupportedBy::Pin(_) => {
            plant(forest, facts, step.wire);
            Ok(())
        }
        SupportedBy::Feet(foot, _) => lay(forest, facts, foot.cross, foot.wire, step.wire),
    }
}

// Hangs all known wires, in the order in which they came.
fn lay_all(forest: &mut Forest, facts: &Facts, known: &Known) -> Result<(), AllocError>
    requires { KeepsForest facts.now forest.old }
    ensures { KeepsForest facts.now forest.new }
{
    'places: for place in 0..known.len() {
        let step = known.step_at(place);
        lay_known(forest, facts, &step)?;
    }
    Ok(())
}

// Plants the pins of the machine that are of a field.
fn plant_pins(forest: &mut Forest, facts: &Facts, field: &Field)
    requires { KeepsForest facts.now forest.old }
    ensures { KeepsForest facts.now forest.new }
{
    let shape = facts.shape();
    'pins: for pin in 0..shape.pins() {
        let wire = shape.pin(Pin(pin));
        if in_set(&field.wires, wire.0) {
            plant(forest, facts, wire);
        }
    }
}

/// The forest of all known wires, and of the pins of the machine that are of the field.
pub(crate) fn pin_forest(
    alloc: Global,
    facts: &Facts,
    known: &Known,
    field: &Field,
) -> Result<Forest, AllocError>
    ensures { IfOk result (KeepsForest facts.now) }
{
    let mut forest = Forest::new(alloc, &facts.shape())?;
    plant_pins(&mut forest, facts, field);
    lay_all(&mut forest, facts, known)?;
    Ok(forest)
}

/// Whether all wires that hang are known.
pub(crate) fn is_known(facts: &Facts, known: &Known, forest: &Forest) -> bool
    requires known { IsKnown facts.now known.now }
    requires forest { KeepsForest facts.now forest.now }
    ensures knows { IsTrue result → KnowsForest facts.now forest.now }
    ensures all { IsTrue result → (w : ℕ) → is_hung forest.now w ≡ true → HasWire known.now.steps w }
{
    forest.hung().is_within(known.wires())
}
