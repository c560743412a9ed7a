//! What is kept of a network at its first cycle.

ghost use Rattle.std.specs.Prelude.{◌≡◌, IfOk};
ghost use Rattle.map_eval.specs.Starting.{first_values};
ghost use Rattle.map_eval.specs.States.{IsPlan, IsKept};

use crate::plan::Plan;
use crate::refreshing::refresh;
use crate::state::State;
use map_network::NetTable;
use std::alloc::{AllocError, Global};

// The bits that tables have at first.
fn first_values(alloc: Global, tables: &[NetTable]) -> Result<Vec<bool>, AllocError>
    ensures { IfOk result (λ values. values.items ≡ first_values tables.now) }
{
    let mut values = Vec::with_capacity(alloc, tables.len())?;
    'tables: for j in 0..tables.len() {
        values.push(tables[j].init)?;
    }
    Ok(values)
}

/// Tables have their initial bits, and inputs are 0.
pub fn first_state(alloc: Global, plan: &Plan) -> Result<State, AllocError>
    requires { IsPlan plan.now }
    ensures values { IfOk result (λ state. state.values.items ≡ first_values plan.now.network.tables) }
    ensures kept { IfOk result (λ state. IsKept plan.now state) }
{
    let tables = plan.network.tables.as_slice();
    let inputs = vec![in alloc; false; plan.network.inputs as usize]?;
    let values = first_values(alloc, tables)?;
    let masks = vec![in alloc; 0; tables.len()]?;
    let addresses = vec![in alloc; 0; tables.len()]?;
    let marks = vec![in alloc; 0; plan.gates.len()]?;
    let mut state = State {
        inputs,
        values,
        masks,
        addresses,
        marks,
    };
    refresh(plan, &mut state);
    Ok(state)
}
