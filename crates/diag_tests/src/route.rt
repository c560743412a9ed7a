//! Routes: walks over crosspoints from a pin of the machine.
ghost use Rattle.std.specs.Prelude.{◌≡◌, ◌<◌, ◌+◌, ◌++◌, [], ◌∷◌, ℕ, true, false, IsTrue, IfOk, OnOk, OnErr, length, slice_get, Some};
ghost use Rattle.machine_shape.specs.Shape.{Ends, ends_of, pins_of, crosses_of, wires_of};
ghost use Rattle.machine_config.specs.Groups.{among};
ghost use Rattle.diag_tests.specs.Routes.{IsRoute, at_pin, HasEnd, Extends, other_end};

use machine_shape::{Cross, Pin, Shape, Wire, the_numbering_is_sound};
use std::alloc::{AllocError, Global};
use std::marker::Model;

// A crosspoint, and the wire that it leads to.
#[derive(Clone, Copy, Debug)]
struct Step {
    cross: Cross,
    wire: Wire,
}

/// A walk over crosspoints from a pin of the machine. It may touch a wire twice. Contracts see its pin, its
/// crosspoints, the wires that it leads over and its end.
#[derive(Drop)]
pub struct Route {
    pin: u32,
    first: Wire,
    steps: Vec<Step>,
    end: Wire,
}

impl Model for Route {
    ghost use Rattle.std.specs.Prelude.{◌∷◌, map};
    ghost use Rattle.diag_tests.specs.Routes.{Walk, coded_walk};

    ghost Value = { Walk };

    ghost coded = { coded_walk };

    ghost view = { λ r. record {
      pin = r.pin;
      crosses = map (λ s. s.cross.0) r.steps.items;
      wires = r.first.0 ∷ map (λ s. s.wire.0) r.steps.items;
      end = r.end.0;
    } };
}

/// The route that is a pin alone.
///
/// # Errors
///
/// Out of memory.
pub fn route_at(alloc: Global, shape: &Shape, pin: u32) -> Result<Route, AllocError>
    requires { pin < pins_of shape.now }
    ensures route { IfOk result (λ r. r ≡ at_pin shape.now pin) }
    ensures right { IfOk result (IsRoute shape.now) }
{
    Ok(Route::start(alloc, pin, shape.pin(Pin(pin))))
}

/// The route that goes on from another over a crosspoint, one wire of which is that one's end.
///
/// # Errors
///
/// Out of memory.
pub fn extend_route(alloc: Global, shape: &Shape, r: &Route, c: Cross) -> Result<Route, AllocError>
    requires route { IsRoute shape.now r.now }
    requires cross { c.0 < crosses_of shape.now }
    requires at { HasEnd shape.now c.0 r.now.end }
    ensures longer { IfOk result (Extends shape.now c.0 r.now) }
    ensures right { IfOk result (IsRoute shape.now) }
{
    let mut longer = r.copied(alloc)?;
    longer.push(shape, c)?;
    Ok(longer)
}

// The end of a crosspoint that isn't this one.
fn other_wire(shape: &Shape, c: Cross, w: Wire) -> Wire
    requires { c.0 < crosses_of shape.now }
    ensures other { result.0 ≡ other_end shape.now c.0 w.0 }
    ensures within { result.0 < wires_of shape.now }
{
    let (tap, line) = shape.ends(c);
    if tap == w { line } else { tap }
}

impl Route {
    /// The pin at which it starts.
    pub fn pin(&self) -> u32
        ensures { result ≡ self.now.pin }
    {
        self.pin
    }

    /// How many crosspoints it has.
    pub fn len(&self) -> usize
        ensures crosses { result ≡ length self.now.crosses }
        ensures wires { result + 1 ≡ length self.now.wires }
    {
        self.steps.len()
    }

    /// A crosspoint, in order.
    pub fn cross_at(&self, k: usize) -> Cross
        requires { k < length self.now.crosses }
        ensures { slice_get self.now.crosses k ≡ Some result.0 }
    {
        self.steps[k].cross
    }

    /// A wire, in order: there is one more than crosspoints.
    pub fn wire_at(&self, k: usize) -> Wire
        requires { k < length self.now.wires }
        ensures { slice_get self.now.wires k ≡ Some result.0 }
    {
        if k == 0 {
            self.first
        } else {
            self.steps[k - 1].wire
        }
    }

    /// Whether a wire stands in it.
    pub fn touches(&self, w: Wire) -> bool
        ensures { result ≡ among self.now.wires w.0 }
    {
        'wires: for k in 0..=self.len() {
            if self.wire_at(k) == w {
                return true;
            }
        }
        false
    }

    /// Whether a wire stands in both routes.
    pub fn meets(&self, other: &Route) -> bool
        ensures apart { result ≡ false → (w : ℕ) → among self.now.wires w ≡ true → among other.now.wires w ≡ false }
        ensures meets { IsTrue result → (w : ℕ) × (among self.now.wires w ≡ true) × (among other.now.wires w ≡ true) }
    {
        'wires: for k in 0..=self.len() {
            if other.touches(self.wire_at(k)) {
                return true;
            }
        }
        false
    }

    /// The last wire.
    pub fn end(&self) -> Wire
        ensures { result.0 ≡ self.now.end }
    {
        self.end
    }

    /// Goes on over a crosspoint, one wire of which is its end.
    ///
    /// # Errors
    ///
    /// Out of memory.
    pub fn push(&mut self, shape: &Shape, c: Cross) -> Result<(), AllocError>
        requires route { IsRoute shape.now self.old }
        requires cross { c.0 < crosses_of shape.now }
        requires at { HasEnd shape.now c.0 self.old.end }
        ensures longer { OnOk result (Extends shape.now c.0 self.old self.new) }
        ensures right { OnOk result (IsRoute shape.now self.new) }
        ensures same { OnErr result (self.new ≡ self.old) }
    {
        let wire = other_wire(shape, c, self.end());
        self.add(c, wire)?;
        Ok(())
    }

    /// Goes on over a crosspoint to a wire that is known to be its other end, which spares asking for its ends.
    ///
    /// # Errors
    ///
    /// Out of memory.
    pub fn push_to(&mut self, shape: &Shape, c: Cross, wire: Wire) -> Result<(), AllocError>
        requires route { IsRoute shape.now self.old }
        requires cross { c.0 < crosses_of shape.now }
        requires at { Ends (ends_of shape.now c.0) self.old.end wire.0 }
        ensures longer { OnOk result (Extends shape.now c.0 self.old self.new) }
        ensures right { OnOk result (IsRoute shape.now self.new) }
        ensures same { OnErr result (self.new ≡ self.old) }
    {
        the_numbering_is_sound();
        self.add(c, wire)?;
        Ok(())
    }

    fn start(alloc: Global, pin: u32, first: Wire) -> Route
        ensures { result ≡ record { pin = pin; crosses = []; wires = first.0 ∷ []; end = first.0 } }
    {
        Route {
            pin,
            first,
            steps: Vec::new(alloc),
            end: first,
        }
    }

    fn add(&mut self, cross: Cross, wire: Wire) -> Result<(), AllocError>
        ensures longer { OnOk result (self.new ≡ record {
          pin = self.old.pin;
          crosses = self.old.crosses ++ cross.0 ∷ [];
          wires = self.old.wires ++ wire.0 ∷ [];
          end = wire.0;
        }) }
        ensures same { OnErr result (self.new ≡ self.old) }
    {
        self.steps.push(Step { cross, wire })?;
        self.end = wire;
        Ok(())
    }

    fn copied(&self, alloc: Global) -> Result<Route, AllocError>
        ensures { IfOk result (λ r. r ≡ self.now) }
    {
        let steps = Vec::from_slice(alloc, &self.steps)?;
        Ok(Route {
            pin: self.pin,
            first: self.first,
            steps,
            end: self.end,
        })
    }
}
