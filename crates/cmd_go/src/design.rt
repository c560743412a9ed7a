//! One design as what is laid on a machine.
ghost use Rattle.std.specs.Prelude.{refl};
ghost use Rattle.cmd_go.specs.Go.{design_laid};

use cmd_steps::Stop;
use design_netlist::Netlist;
use machine_defects::Defects;
use machine_image::Image;
use place_design::lay;
use run_image::{Copies, Lays};
use std::alloc::Global;

/// The one design of a command.
#[derive(Drop)]
pub struct OneDesign(pub Netlist);

impl Lays for OneDesign {
    ghost laid = { λ design. design_laid design.0 };

    fn lay(&self, alloc: Global, list: &Defects) -> Result<Image, Stop> {
        lay(alloc, &self.0, list)
    }

    fn copies(&self) -> Copies {
        Copies::One
    }

    ghost right = { λ design d i is. record {
      image = is.0.image;
      shape = is.0.shape;
      shares = record { inputs = refl; outputs = refl };
      inputs = is.0.inputs;
      free = is.0.free;
      right = is.0.right;
    } };
}
