//! Two designs as what is laid on a machine.
ghost use Rattle.std.specs.Prelude.{refl};
ghost use Rattle.cmd_pair.specs.Both.{both_laid};

use cmd_steps::Stop;
use design_netlist::Netlist;
use machine_defects::Defects;
use machine_image::Image;
use place_both::lay_both;
use run_image::{Copies, Lays};
use std::alloc::Global;

/// The two designs of a command.
#[derive(Drop)]
pub struct TwoDesigns {
    pub first: Netlist,
    pub second: Netlist,
}

impl Lays for TwoDesigns {
    ghost laid = { λ designs. both_laid designs.first designs.second };

    fn lay(&self, alloc: Global, list: &Defects) -> Result<Image, Stop> {
        lay_both(alloc, &self.first, &self.second, list)
    }

    fn copies(&self) -> Copies {
        Copies::One
    }

    ghost right = { λ designs d i is. record {
      image = is.0.image;
      shape = is.0.shape;
      shares = record { inputs = refl; outputs = refl };
      inputs = is.0.inputs;
      free = is.0.free;
      right = is.0.right;
    } };
}
