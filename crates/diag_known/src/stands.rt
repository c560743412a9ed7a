//! Wires that stand by kept crosspoints alone, one by one. No load is made for it.
ghost use Rattle.std.specs.Prelude.{◌≡◌, ◌<◌, ℕ, true, false, IfOk, OnOk, replicate, None};
ghost use Rattle.base_bits.specs.Numbers.{has_number};
ghost use Rattle.machine_shape.specs.Shape.{pins_of, pin_wire, wires_of};
ghost use Rattle.diag_evidence.specs.Kept.{keeps_cross};
ghost use Rattle.diag_known.specs.Known.{HasWire};
ghost use Rattle.diag_known.specs.Grounds.{Founds, IsBetween, IsGround, IsSettled};

use crate::known::Known;
use crate::verified_wire::{Support, SupportedBy, VerifiedWire};
use base_bits::BitSet;
use diag_evidence::Facts;
use machine_shape::{Pin, Wire};
use std::alloc::{AllocError, Global};

// No foot, for each wire.
pub(crate) fn no_feet(alloc: Global, wires: u32) -> Result<Vec<Option<Support>>, AllocError>
    ensures { IfOk result (λ feet. feet.items ≡ replicate wires None) }
{
    let mut feet = Vec::new(alloc);
    feet.resize(wires as usize, None)?;
    Ok(feet)
}

// A pin of the machine that is left stands.
fn take_pin(
    known: &mut Known,
    left: &mut BitSet,
    feet: &Vec<Option<Support>>,
    facts: &Facts,
    pin: u32,
) -> Result<(), AllocError>
    requires ground { IsGround facts.now known.old left.old feet.now.items }
    requires pin { pin < pins_of facts.now.shape }
    ensures ground { OnOk result (IsGround facts.now known.new left.new feet.now.items) }
    ensures founds { OnOk result (Founds known.old known.new left.old left.new feet.now.items feet.now.items) }
    ensures taken { OnOk result (has_number left.new (pin_wire facts.now.shape pin) ≡ false) }
{
    let wire = facts.shape().pin(Pin(pin));
    if !left.has(wire.0) {
        return Ok(());
    }
    known.learn(VerifiedWire {
        wire,
        stand: SupportedBy::Pin(pin),
    })?;
    left.remove(wire.0);
    Ok(())
}

// Those pins of the machine that are left stand.
pub(crate) fn take_pins(
    known: &mut Known,
    left: &mut BitSet,
    feet: &Vec<Option<Support>>,
    facts: &Facts,
) -> Result<(), AllocError>
    requires ground { IsGround facts.now known.old left.old feet.now.items }
    ensures ground { OnOk result (IsGround facts.now known.new left.new feet.now.items) }
    ensures founds { OnOk result (Founds known.old known.new left.old left.new feet.now.items feet.now.items) }
    ensures taken { OnOk result ((i : ℕ) → i < pins_of facts.now.shape → has_number left.new (pin_wire facts.now.shape i) ≡ false) }
{
    'pins: for pin in 0..facts.shape().pins() {
        take_pin(known, left, feet, facts, pin)?;
    }
    Ok(())
}

// A wire that is left at the end of a link stands, if the link's crosspoint is kept and it has a foot to another wire.
// Else the link is its foot.
pub(crate) fn take_link(
    known: &mut Known,
    left: &mut BitSet,
    feet: &mut Vec<Option<Support>>,
    facts: &Facts,
    from: Wire,
    link: Support,
) -> Result<(), AllocError>
    requires ground { IsGround facts.now known.old left.old feet.old.items }
    requires from { HasWire known.old.steps from.0 }
    requires link { IsBetween facts.now.shape link.cross.0 link.wire.0 from.0 }
    requires wire { link.wire.0 < wires_of facts.now.shape }
    ensures ground { OnOk result (IsGround facts.now known.new left.new feet.new.items) }
    ensures founds { OnOk result (Founds known.old known.new left.old left.new feet.old.items feet.new.items) }
    ensures settled { OnOk result (keeps_cross facts.now link.cross.0 ≡ true → IsSettled left.new feet.new.items link.wire.0 from.0) }
{
    let wire = link.wire;
    if !left.has(wire.0) {
        return Ok(());
    }
    if !facts.keeps_cross(link.cross) {
        return Ok(());
    }
    let foot = Support {
        cross: link.cross,
        wire: from,
    };
    let Some(first) = feet[wire.0 as usize] else {
        feet[wire.0 as usize] = Some(foot);
        return Ok(());
    };
    if first.wire == from {
        return Ok(());
    }
    known.learn(VerifiedWire {
        wire,
        stand: SupportedBy::Feet(first, foot),
    })?;
    left.remove(wire.0);
    Ok(())
}
