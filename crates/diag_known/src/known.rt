//! Known wires, in the order in which they came.
ghost use Rattle.std.specs.Prelude.{◌≡◌, ◌<◌, ◌≤◌, ◌++◌, ◌∷◌, ℕ, true, false, [], IfOk, IfSome, IfNone, IsTrue, OnOk, OnErr, length};
ghost use Rattle.std.specs.Prelude.{replicate, slice_get, Some, None};
ghost use Rattle.base_bits.specs.Numbers.{has_number};
ghost use Rattle.machine_shape.specs.Shape.{wires_of};
ghost use Rattle.diag_known.specs.Known.{IsAt, HasWire};

use crate::verified_wire::VerifiedWire;
use base_bits::BitSet;
use machine_shape::{Shape, Wire};
use std::alloc::{AllocError, Global};
use std::marker::Model;

/// Wires of a machine that are known, in the order in which they came.
#[derive(Drop)]
pub struct Known {
    alloc: Global,
    shape: Shape,
    steps: Vec<VerifiedWire>,
    ranks: Vec<Option<usize>>,
    // The same wires as a set.
    wires: BitSet,
}

impl Model for Known {
    ghost use Rattle.diag_known.specs.Known.{KnownWires};

    ghost Value = { KnownWires };

    ghost use Rattle.diag_known.specs.Ranks.{AreRanks};

    ghost view = { λ a. record { shape = a.shape; steps = a.steps.items } };

    ghost invariant = { AreRanks };
}

// As many nothings.
fn no_ranks(alloc: Global, len: u32) -> Result<Vec<Option<usize>>, AllocError>
    ensures { IfOk result (λ ranks. ranks.items ≡ replicate len None) }
{
    let mut ranks = Vec::new(alloc);
    ranks.resize(len as usize, None)?;
    Ok(ranks)
}

impl Known {
    /// Knows none.
    pub fn new(alloc: Global, shape: &Shape) -> Result<Known, AllocError>
        ensures shape { IfOk result (λ known. known.shape ≡ shape.now) }
        ensures none { IfOk result (λ known. known.steps ≡ []) }
    {
        Ok(Known {
            alloc,
            shape: *shape,
            steps: Vec::new(alloc),
            ranks: no_ranks(alloc, shape.wires())?,
            wires: BitSet::new(alloc, shape.wires())?,
        })
    }

    /// The shape of the machine.
    pub fn shape(&self) -> Shape
        ensures { result ≡ self.now.shape }
    {
        self.shape
    }

    /// The memory that it was made with.
    pub fn alloc(&self) -> Global {
        self.alloc
    }

    /// How many wires are known.
    pub fn len(&self) -> usize
        ensures len { result ≡ length self.now.steps }
        ensures few { result ≤ wires_of self.now.shape }
    {
        self.steps.len()
    }

    /// The known wire at a place, with what it stands on.
    pub fn step_at(&self, place: usize) -> VerifiedWire
        requires { place < length self.now.steps }
        ensures { slice_get self.now.steps place ≡ Some result }
    {
        self.steps[place]
    }

    /// The wire at a place.
    pub fn wire_at(&self, place: usize) -> Wire
        requires { place < length self.now.steps }
        ensures at { IsAt self.now.steps place result.0 }
        ensures within { result.0 < wires_of self.now.shape }
    {
        self.steps[place].wire
    }

    /// The place of a wire, if it is known.
    pub fn place_of(&self, w: Wire) -> Option<usize>
        requires { w.0 < wires_of self.now.shape }
        ensures known { IfSome result (λ place. IsAt self.now.steps place w.0) }
        ensures unknown { IfNone result (¬ HasWire self.now.steps w.0) }
    {
        self.ranks[w.0 as usize]
    }

    /// The place of a wire that is known.
    pub fn place(&self, w: Wire) -> usize
        requires { HasWire self.now.steps w.0 }
        ensures { IsAt self.now.steps result w.0 }
    {
        self.ranks[w.0 as usize].unwrap_or(0)
    }

    /// Whether a wire is known.
    pub fn has(&self, w: Wire) -> bool
        requires { w.0 < wires_of self.now.shape }
        ensures known { IsTrue result → HasWire self.now.steps w.0 }
        ensures unknown { result ≡ false → ¬ HasWire self.now.steps w.0 }
    {
        self.place_of(w).is_some()
    }

    /// The known wires, as a set.
    pub fn wires(&self) -> &BitSet
        ensures len { length result.now ≡ wires_of self.now.shape }
        ensures known { (w : ℕ) → has_number result.now w ≡ true → HasWire self.now.steps w }
        ensures whole { (w : ℕ) → HasWire self.now.steps w → has_number result.now w ≡ true }
    {
        &self.wires
    }

    /// A further wire is known. Wants memory; where that is wanting, nothing is learnt.
    pub fn learn(&mut self, step: VerifiedWire) -> Result<(), AllocError>
        requires wire { step.wire.0 < wires_of self.old.shape }
        requires new { ¬ HasWire self.old.steps step.wire.0 }
        ensures shape { self.new.shape ≡ self.old.shape }
        ensures learnt { OnOk result (self.new.steps ≡ self.old.steps ++ step ∷ []) }
        ensures same { OnErr result (self.new ≡ self.old) }
    {
        let place = self.steps.len();
        self.steps.push(step)?;
        self.ranks[step.wire.0 as usize] = Some(place);
        self.wires.insert(step.wire.0);
        Ok(())
    }
}
