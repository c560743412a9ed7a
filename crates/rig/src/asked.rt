//! The machines that a rig was asked for.
ghost use Rattle.std.specs.Prelude.{◌≡◌, ◌-◌, ◌<◌, length, take, [], ◌∷◌, ◌++◌, OnOk, OnErr};

use machine_shape::Shape;
use std::alloc::{AllocError, Global};
use std::marker::Model;

/// A machine as it was asked for.
#[derive(Drop)]
pub struct AskedMachine {
    pub shape: Shape,
    pub name: String,
}

/// The machines that a rig was asked for, in order.
#[derive(Drop)]
pub struct AskedMachines {
    alloc: Global,
    items: Vec<AskedMachine>,
}

impl Model for AskedMachines {
    ghost use Rattle.std.specs.Prelude.{List, map, string_bytes};
    ghost use Rattle.rig.specs.Rig.{Asked};

    ghost Value = { List Asked };

    ghost view = { λ a. map (λ m. record { shape = m.shape; name = string_bytes m.name }) a.items.items };
}

impl AskedMachines {
    /// No machines.
    pub fn new(alloc: Global) -> Self
        ensures { result ≡ [] }
    {
        AskedMachines {
            alloc,
            items: Vec::new(alloc),
        }
    }

    /// Adds a machine behind the others. An error is a lack of memory.
    pub fn add(&mut self, shape: &Shape, name: &str) -> Result<(), AllocError>
        ensures ok { OnOk result (self.new ≡ self.old ++ record { shape = shape.now; name = name.now } ∷ []) }
        ensures err { OnErr result (self.new ≡ self.old) }
    {
        let name = String::from_str(self.alloc, name)?;
        self.items.push(AskedMachine {
            shape: *shape,
            name,
        })?;
        Ok(())
    }

    /// Takes out the last one.
    pub fn remove_last(&mut self)
        requires { 0 < length self.old }
        ensures { self.new ≡ take (length self.old - 1) self.old }
    {
        let _ = self.items.pop();
    }
}
