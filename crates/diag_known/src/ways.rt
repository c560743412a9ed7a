//! Two ways to a wire, which have it alone in common.
ghost use Rattle.std.specs.Prelude.{◌≡◌, ◌<◌, IfOk};
ghost use Rattle.machine_shape.specs.Shape.{pins_of, pin_wire};
ghost use Rattle.diag_evidence.specs.Kept.{Kept};
ghost use Rattle.diag_known.specs.Known.{IsKnown, HasWire};
ghost use Rattle.diag_known.specs.Ways.{AreWays, AreFeetOf};

use crate::known::Known;
use crate::verified_wire::{Support, SupportedBy};
use diag_evidence::Facts;
use diag_tests::{Route, route_at};
use machine_shape::Wire;
use std::alloc::AllocError;

impl Known {
    /// Two ways to a wire over two feet. Wants memory for them.
    pub fn ways_over(
        &self,
        facts: &Facts,
        w: Wire,
        first: Support,
        second: Support,
    ) -> Result<(Route, Route), AllocError>
        requires known { IsKnown facts.now self.now }
        requires feet { AreFeetOf facts.now self.now.steps w.0 first second }
        ensures { IfOk result (λ ways. AreWays facts.now self.now.steps w.0 ways.0 ways.1) }
    {
        let shape = self.shape();
        let (mut left, mut right) = self.routes(facts, first.wire, second.wire)?;
        left.push_to(&shape, first.cross, w)?;
        right.push_to(&shape, second.cross, w)?;
        Ok((left, right))
    }

    /// The one way to a pin of the machine, which is the pin alone. Wants memory for it.
    pub fn way_at(&self, pin: u32) -> Result<Route, AllocError>
        requires { pin < pins_of self.now.shape }
        ensures { IfOk result (λ way. (k : Kept) → k.shape ≡ self.now.shape → AreWays k self.now.steps (pin_wire k.shape pin) way way) }
    {
        let shape = self.shape();
        route_at(self.alloc(), &shape, pin)
    }

    // The same twice.
    fn ways_at(&self, pin: u32) -> Result<(Route, Route), AllocError>
        requires { pin < pins_of self.now.shape }
        ensures { IfOk result (λ ways. (k : Kept) → k.shape ≡ self.now.shape →
            AreWays k self.now.steps (pin_wire k.shape pin) ways.0 ways.1) }
    {
        let shape = self.shape();
        let left = route_at(self.alloc(), &shape, pin)?;
        let right = route_at(self.alloc(), &shape, pin)?;
        Ok((left, right))
    }

    /// Two ways to a known wire. Wants memory for them.
    pub fn ways_to(&self, facts: &Facts, w: Wire) -> Result<(Route, Route), AllocError>
        requires known { IsKnown facts.now self.now }
        requires wire { HasWire self.now.steps w.0 }
        ensures { IfOk result (λ ways. AreWays facts.now self.now.steps w.0 ways.0 ways.1) }
    {
        match self.step_at(self.place(w)).stand {
            SupportedBy::Pin(pin) => self.ways_at(pin),
            SupportedBy::Feet(first, second) => self.ways_over(facts, w, first, second),
        }
    }
}
