//! Several models, read as one netlist.

ghost use Rattle.std.specs.Prelude.{◌≡◌, ◌≤◌, length, IfOk, IfErr, MatchResult};
ghost use Rattle.design_netlist.specs.declared.netlist_data.NetlistData.{NetlistData};
ghost use Rattle.design_netlist.specs.declared.fault.DesignFault.TheVariants.{Memory};
ghost use Rattle.design_netlist.specs.Checks.{IsChecked};
ghost use Rattle.design_flatten.specs.Faults.{IsRefusalOfModels};
ghost use Rattle.design_flatten.specs.Lines.{HaveRightRows};
ghost use Rattle.design_flatten.specs.Netlists.{IsNetlistOf};
ghost use Rattle.design_flatten.specs.Substitution.{first_model};

use crate::model::Model;
use crate::read::read;
use crate::uses::check_uses;
use design_netlist::{DesignFault, Netlist, check};
use std::alloc::Global;

/// The netlist that is read from the substituted design of the models.
///
/// Rows are as long as their cover's inputs, and the first model has at most 16,777,216 outputs. Signals go by their
/// names where a model stands for a line, so names of one model should differ; so should the names of models, of
/// which the first of a name counts. A list of no models is read as one model without lines.
///
/// # Errors
///
/// `NoSuchModel`, `Formal` and `Recursive` at the first line that uses a model so; `Limit` at line 0 where the
/// substituted design is beyond its limits; `Control` at the first latch with another control than an earlier one;
/// `Doubled`, `Undriven` and `Cyclic` at the first line that has such a fault: of all these the first in this order.
/// First and earlier go by line number, and for one number by the order of the substituted design. `Memory` where
/// memory is lacking.
pub fn flatten(alloc: Global, models: Vec<Model>) -> Result<Netlist, DesignFault>
    requires rows { HaveRightRows models.items }
    requires outputs { length (first_model models.items).outputs ≤ 16777216 }
    ensures found { IfOk result (λ n. IsNetlistOf models.items n × IsChecked n) }
    ensures refused { IfErr result (IsRefusalOfModels models.items) }
    ensures only { (d : NetlistData) → IsNetlistOf models.items d → IsChecked d → MatchResult result (λ n. n ≡ d) (λ e. e ≡ Memory) }
{
    check_uses(alloc, &models)?;
    let draft = read(alloc, &models)?;
    check(alloc, draft)
}
