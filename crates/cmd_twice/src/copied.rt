//! One design, twice, as what is laid on a machine.
ghost use Rattle.std.specs.Prelude.{[]};
ghost use Rattle.cmd_steps.specs.Vocabulary.{Outside, Took};
ghost use Rattle.cmd_twice.specs.Twice.{lays_twice, twice_laid};

use cmd_steps::Stop;
use design_netlist::Netlist;
use design_netlist::laws::designs_have_one_list_of_rows;
use machine_defects::Defects;
use machine_image::Image;
use place_both::lay_both;
use run_image::{Copies, Lays};
use std::alloc::Global;

/// The one design of a command, of which two copies are laid.
#[derive(Drop)]
pub struct TwoCopies(pub Netlist);

// An image of two copies of the design on what the list leaves free.
fn lay_twice(alloc: Global, design: &Netlist, list: &Defects) -> Result<Image, Stop>
    // Whatever is around it.
    ensures took { (o : Outside) → Took [] (lays_twice list.now design.now) result o o }
{
    designs_have_one_list_of_rows();
    // Its contract says that the design was checked.
    design.parts();
    lay_both(alloc, design, design, list)
}

impl Lays for TwoCopies {
    ghost laid = { λ design. twice_laid design.0 };

    fn lay(&self, alloc: Global, list: &Defects) -> Result<Image, Stop> {
        lay_twice(alloc, &self.0, list)
    }

    fn copies(&self) -> Copies {
        Copies::Two
    }

    ghost right = { λ design d i is. record {
      image = is.both.image;
      shape = is.both.shape;
      shares = is.shares;
      inputs = is.width;
      free = is.both.free;
      right = is.both.right;
    } };
}
