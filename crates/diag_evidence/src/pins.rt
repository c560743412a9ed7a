//! Bits for the pins of one machine, kept from test to test, so that a test takes no memory for them.
ghost use Rattle.std.specs.Prelude.{◌≡◌, IfOk, length};

use rig::PinBits;
use std::alloc::{AllocError, Global};
use std::marker::Model;

/// Bits for the pins of one machine that no test uses now.
#[derive(Drop)]
pub(crate) struct Pins {
    alloc: Global,
    len: u32,
    spare: Vec<PinBits>,
}

impl Model for Pins {
    ghost use Rattle.std.specs.Prelude.{◌≡◌, ℕ, All, length};

    ghost Value = { ℕ };

    ghost view = { λ p. p.len };

    ghost invariant = { λ p. All (λ bits. length bits ≡ p.len) p.spare.items };
}

impl Pins {
    // For so many pins.
    pub(crate) fn new(alloc: Global, len: u32) -> Pins
        ensures { result ≡ len }
    {
        Pins {
            alloc,
            len,
            spare: Vec::new(alloc),
        }
    }

    // Bits of any values.
    pub(crate) fn take(&mut self) -> Result<PinBits, AllocError>
        ensures length { IfOk result (λ bits. length bits ≡ self.old) }
        ensures same { self.new ≡ self.old }
    {
        match self.spare.pop() {
            Some(bits) => Ok(bits),
            None => PinBits::new(self.alloc, self.len),
        }
    }

    // Takes bits back. Where there is no memory to keep them, they are dropped.
    pub(crate) fn put(&mut self, bits: PinBits)
        requires { length bits ≡ self.old }
        ensures { self.new ≡ self.old }
    {
        let _ = self.spare.push(bits);
    }
}
