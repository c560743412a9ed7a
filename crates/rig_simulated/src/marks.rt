//! Marks at the classes that are pulled to 0.

ghost use Rattle.std.specs.Prelude.{◌≡◌, ℕ, ◌<◌, true, length, All};
ghost use Rattle.rig_simulated.specs.Gates.{is_low, IsClear, IsPulledBy, IsOutputOf, IsPinOf, AreMarkedToo};

use crate::gates::Gate;

/// Marks the classes that tables pull.
pub fn mark_tables(gates: &[Gate], low: &mut [bool])
    requires { All (λ gate. gate.out < length low.old) gates.now }
    ensures { AreMarkedToo low.old low.new (IsPulledBy gates.now (length gates.now)) }
{
    'gates: for i in 0..gates.len() {
        let gate = gates[i];
        if !gate.output {
            low[gate.out as usize] = true;
        }
    }
}

/// Takes the marks of tables away.
pub fn clear_tables(gates: &[Gate], low: &mut [bool])
    requires fits { All (λ gate. gate.out < length low.old) gates.now }
    requires only { (r : ℕ) → is_low low.old r ≡ true → IsOutputOf gates.now 0 r }
    ensures len { length low.new ≡ length low.old }
    ensures clear { IsClear low.new }
{
    'gates: for i in 0..gates.len() {
        let gate = gates[i];
        low[gate.out as usize] = false;
    }
}

/// Takes the marks of pins away.
pub fn clear_pins(pins: &[u32], low: &mut [bool])
    requires fits { All (λ r. r < length low.old) pins.now }
    requires only { (r : ℕ) → is_low low.old r ≡ true → IsPinOf pins.now 0 r }
    ensures len { length low.new ≡ length low.old }
    ensures clear { IsClear low.new }
{
    'pins: for k in 0..pins.len() {
        low[pins[k] as usize] = false;
    }
}
