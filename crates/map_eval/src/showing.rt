//! What sources and outputs give.

ghost use Rattle.std.specs.Prelude.{◌≡◌, length};
ghost use Rattle.map_network.specs.Rows.{bit_of, outputs_in};
ghost use Rattle.map_eval.specs.States.{value_in};

use crate::plan::Plan;
use crate::state::State;
use map_network::Source;

/// What a source gives. One beyond the inputs counts as 1, and one beyond the tables as 0.
pub fn bit_of(inputs: &[bool], values: &[bool], source: Source) -> bool
    ensures { result ≡ bit_of inputs.now (value_in values.now) source }
{
    match source {
        Source::Input(input) => {
            if input as usize >= inputs.len() {
                return true;
            }
            inputs[input as usize]
        }
        Source::Table(table) => {
            if table as usize >= values.len() {
                return false;
            }
            values[table as usize]
        }
    }
}

/// Makes the row what the outputs show.
pub fn show(plan: &Plan, state: &State, row: &mut [bool])
    requires { length row.old ≡ length plan.now.network.outputs }
    ensures { row.new ≡ outputs_in plan.now.network state.now.inputs.items (value_in state.now.values.items) }
{
    let outputs = plan.network.outputs.as_slice();
    'outputs: for k in 0..outputs.len() {
        row[k] = bit_of(&state.inputs, &state.values, outputs[k]);
    }
}
