//! Wires that hang on pins of the machine.
ghost use Rattle.std.specs.Prelude.{◌≡◌, ◌≢◌, ◌<◌, ◌≤◌, ℕ, true, false, IsTrue, IfOk, OnErr, length};
ghost use Rattle.base_bits.specs.Numbers.{has_number};
ghost use Rattle.machine_shape.specs.Shape.{Ends, ends_of, pin_wire, crosses_of, wires_of, pins_of};
ghost use Rattle.diag_evidence.specs.Forests.{IsForest, KeepsForest, CanLay, bare, with_planted, with_laid, pin_of, is_hung};

use crate::Facts;
use base_bits::BitSet;
use machine_shape::{Cross, Pin, Shape, Wire, the_numbering_is_sound};
use std::alloc::{AllocError, Global};
use std::marker::Model;

// Whether two wires are the ends of a crosspoint.
fn are_ends(shape: Shape, cross: Cross, a: Wire, b: Wire) -> bool
    requires { cross.0 < crosses_of shape }
    ensures yes { IsTrue result → Ends (ends_of shape cross.0) a.0 b.0 }
    ensures no { result ≡ false → Ends (ends_of shape cross.0) a.0 b.0 → ⊥ }
{
    let (tap, line) = shape.ends(cross);
    if tap.0 == a.0 {
        return line.0 == b.0;
    }
    if tap.0 == b.0 {
        return line.0 == a.0;
    }
    false
}

// The highest number of a wire that is a pin of the machine.
fn last_pin(shape: Shape) -> u32
    ensures { (k : ℕ) → k < pins_of shape → pin_wire shape k ≤ result }
{
    let mut last = 0;
    'pins: for k in 0..shape.pins() {
        let wire = shape.pin(Pin(k));
        if last < wire.0 {
            last = wire.0;
        }
    }
    last
}

// Whether a wire is a pin of the machine, none of which has a higher number than `last`.
fn is_pin(shape: Shape, last: u32, w: Wire) -> bool
    requires wire { w.0 < wires_of shape }
    requires last { (k : ℕ) → k < pins_of shape → pin_wire shape k ≤ last }
    ensures yes { IsTrue result → (k : ℕ) × (k < pins_of shape) × (pin_wire shape k ≡ w.0) }
    ensures no { result ≡ false → (k : ℕ) → k < pins_of shape → pin_wire shape k ≢ w.0 }
{
    if last < w.0 {
        return false;
    }
    'pins: for k in 0..shape.pins() {
        if shape.pin(Pin(k)).0 == w.0 {
            return true;
        }
    }
    false
}

/// Wires that hang on pins of the machine, over crosspoints that a proof keeps.
///
/// Contracts see for each wire the pin on which it hangs, and the crosspoints. Whatever was laid, both ends of each crosspoint
/// hang on one pin, each wire that hangs is led to its pin over crosspoints of the forest, and a pin of the machine that hangs does
/// so on itself.
#[derive(Drop)]
pub struct Forest {
    shape: Shape,
    // No pin of the machine has a higher number.
    last_pin: u32,
    // For each wire the pin on which it hangs.
    pins: Vec<Option<u32>>,
    crosses: Vec<Cross>,
    // The wires that hang, so that a set is compared with them word by word.
    hung: BitSet,
}

impl Model for Forest {
    ghost use Rattle.std.specs.Prelude.{ℕ, ◌<◌, ◌≤◌};
    ghost use Rattle.machine_shape.specs.Shape.{pins_of, pin_wire};
    ghost use Rattle.diag_evidence.specs.Forests.{Trees, IsForest, MarksHung, coded_trees};

    ghost Value = { Trees };

    ghost coded = { coded_trees };

    ghost view = { λ t. record { shape = t.shape; pins = t.pins.items; crosses = t.crosses.items } };

    ghost invariant = { λ t. IsForest (record { shape = t.shape; pins = t.pins.items; crosses = t.crosses.items })
        × ((k : ℕ) → k < pins_of t.shape → pin_wire t.shape k ≤ t.last_pin)
        × MarksHung (record { shape = t.shape; pins = t.pins.items; crosses = t.crosses.items }) t.hung };
}

impl Forest {
    /// Nothing hangs.
    pub fn new(alloc: Global, shape: &Shape) -> Result<Forest, AllocError>
        ensures { IfOk result (λ trees. trees ≡ bare shape.now) }
    {
        let pins = vec![in alloc; None; shape.wires() as usize]?;
        let hung = BitSet::new(alloc, shape.wires())?;
        Ok(Forest {
            shape: *shape,
            last_pin: last_pin(*shape),
            pins,
            crosses: Vec::new(alloc),
            hung,
        })
    }

    /// The shape of the machine.
    pub fn shape(&self) -> Shape
        ensures shape { result ≡ self.now.shape }
        ensures forest { IsForest self.now }
    {
        self.shape
    }

    /// Hangs a pin of the machine on itself. Where it hangs already, it does so on itself, and nothing changes.
    pub fn plant(&mut self, pin: u32)
        requires { pin < pins_of self.old.shape }
        ensures planted { self.new ≡ with_planted self.old pin }
        ensures same { is_hung self.old (pin_wire self.old.shape pin) ≡ true → self.new ≡ self.old }
    {
        the_numbering_is_sound();
        let wire = self.shape.pin(Pin(pin));
        self.pins[wire.0 as usize] = Some(pin);
        self.hung.insert(wire.0);
    }

    // Whether `lay` would lay this.
    fn can_lay(&self, facts: &Facts, cross: Cross, from: Wire, to: Wire) -> bool
        requires shape { self.now.shape ≡ facts.now.shape }
        requires cross { cross.0 < crosses_of self.now.shape }
        requires from { from.0 < wires_of self.now.shape }
        requires to { to.0 < wires_of self.now.shape }
        ensures yes { IsTrue result → CanLay facts.now self.now cross.0 from.0 to.0 }
        ensures no { result ≡ false → CanLay facts.now self.now cross.0 from.0 to.0 → ⊥ }
    {
        if !facts.keeps_cross(cross) {
            return false;
        }
        if !are_ends(self.shape, cross, from, to) {
            return false;
        }
        if self.pins[from.0 as usize].is_none() {
            return false;
        }
        if self.pins[to.0 as usize].is_some() {
            return false;
        }
        !is_pin(self.shape, self.last_pin, to)
    }

    /// Hangs the wire `to` on the pin of the wire `from`, over a crosspoint between them. False, and nothing changes, exactly
    /// where the proof doesn't keep the crosspoint, its ends aren't these two wires, `from` hangs nowhere, or `to` hangs already
    /// or is a pin of the machine. After a refusal nothing has changed.
    pub fn lay(
        &mut self,
        facts: &Facts,
        cross: Cross,
        from: Wire,
        to: Wire,
    ) -> Result<bool, AllocError>
        requires shape { self.old.shape ≡ facts.now.shape }
        requires cross { cross.0 < crosses_of self.old.shape }
        requires from { from.0 < wires_of self.old.shape }
        requires to { to.0 < wires_of self.old.shape }
        ensures laid { IfOk result (λ yes. IsTrue yes → CanLay facts.now self.old cross.0 from.0 to.0
            × (self.new ≡ with_laid self.old cross from.0 to.0)) }
        ensures no { IfOk result (λ yes. yes ≡ false → (CanLay facts.now self.old cross.0 from.0 to.0 → ⊥) × (self.new ≡ self.old)) }
        ensures refused { OnErr result (self.new ≡ self.old) }
        ensures keeps { KeepsForest facts.now self.old → KeepsForest facts.now self.new }
        ensures shape { self.new.shape ≡ self.old.shape }
    {
        if !self.can_lay(facts, cross, from, to) {
            return Ok(false);
        }
        self.crosses.push(cross)?;
        self.pins[to.0 as usize] = self.pins[from.0 as usize];
        self.hung.insert(to.0);
        Ok(true)
    }

    /// The pin on which a wire hangs, if it hangs.
    pub fn pin_of(&self, w: Wire) -> Option<u32>
        requires { w.0 < wires_of self.now.shape }
        ensures { result ≡ pin_of self.now w.0 }
    {
        self.pins[w.0 as usize]
    }

    /// The same forest once more. Wants memory.
    pub fn copied(&self, alloc: Global) -> Result<Forest, AllocError>
        ensures { IfOk result (λ trees. trees ≡ self.now) }
    {
        let crosses = Vec::from_slice(alloc, self.crosses.as_slice())?;
        let pins = Vec::from_slice(alloc, self.pins.as_slice())?;
        let hung = self.hung.copied(alloc)?;
        Ok(Forest {
            shape: self.shape,
            last_pin: self.last_pin,
            pins,
            crosses,
            hung,
        })
    }

    /// Which wires hang: a mark for each wire.
    pub fn hung(&self) -> &BitSet
        ensures len { length result.now ≡ wires_of self.now.shape }
        ensures hung { (w : ℕ) → has_number result.now w ≡ is_hung self.now w }
    {
        &self.hung
    }

    /// The crosspoints of the forest.
    pub fn crosses(&self) -> &[Cross]
        ensures crosses { result.now ≡ self.now.crosses }
        ensures forest { IsForest self.now }
    {
        &self.crosses
    }
}
