//! Two routes without a common wire, to any two known wires.
ghost use Rattle.std.specs.Prelude.{◌≢◌, IfOk};
ghost use Rattle.diag_known.specs.Known.{IsKnown, HasWire};
ghost use Rattle.diag_known.specs.Routes.{AreRoutesTo};

use crate::descents::descend;
use crate::known::Known;
use diag_evidence::Facts;
use diag_tests::{Route, route_at};
use machine_shape::Wire;
use std::alloc::AllocError;

impl Known {
    /// Routes from two pins, without a common wire, to two different known wires. They take no search: step by step the wire
    /// that came later goes down to a foot at which the other doesn't stand. Wants memory for the routes alone.
    pub fn routes(&self, facts: &Facts, a: Wire, b: Wire) -> Result<(Route, Route), AllocError>
        requires known { IsKnown facts.now self.now }
        requires a { HasWire self.now.steps a.0 }
        requires b { HasWire self.now.steps b.0 }
        requires differ { a.0 ≢ b.0 }
        ensures { IfOk result (λ r. AreRoutesTo facts.now self.now.steps a.0 b.0 r.0 r.1) }
    {
        let shape = self.shape();
        let from = self.place(a);
        let other = self.place(b);
        let mut descent = descend(self, facts, from, other)?;
        let mut left = route_at(self.alloc(), &shape, descent.left)?;
        let mut right = route_at(self.alloc(), &shape, descent.right)?;
        'up: while let Some(down) = descent.downs.pop() {
            if down.left {
                left.push_to(&shape, down.foot.cross, down.over)?;
            } else {
                right.push_to(&shape, down.foot.cross, down.over)?;
            }
        }
        Ok((left, right))
    }
}
