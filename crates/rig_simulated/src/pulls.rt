//! How many tables pull each class.

ghost use Rattle.std.specs.Prelude.{◌≡◌, ◌≢◌, ℕ, ◌+◌, ◌^◌, ◌<◌, true, false, length, slice_index, slice_index_or, All};
ghost use Rattle.rig_simulated.specs.declared.gates.Gate.{Gate};
ghost use Rattle.rig_simulated.specs.Gates.{is_low, IsClear, IsOutputOf};
ghost use Rattle.rig_simulated.specs.Pulls.{AreCounted, AreZero, HasGiven};

use crate::gates::Gate;

/// Counts for each class the tables that pull it, and marks those that one pulls.
pub fn count_pulls(gates: &[Gate], pulls: &mut Vec<usize>, low: &mut [bool])
    requires len { length low.old ≡ length pulls.old.items }
    requires outs { All (λ gate. gate.out < length low.old) gates.now }
    requires zero { AreZero pulls.old.items }
    requires clear { IsClear low.old }
    ensures len { length low.new ≡ length low.old }
    ensures pulls { length pulls.new.items ≡ length pulls.old.items }
    ensures counted { AreCounted gates.now pulls.new.items low.new }
{
    'gates: for i in 0..gates.len() {
        let gate = gates[i];
        if gate.output {
            continue;
        }
        pulls[gate.out as usize] += 1;
        low[gate.out as usize] = true;
    }
}

/// Takes the counts away.
pub fn clear_pulls(gates: &[Gate], pulls: &mut Vec<usize>)
    requires outs { All (λ gate. gate.out < length pulls.old.items) gates.now }
    requires only { (r : ℕ) → 0 < slice_index pulls.old.items r → IsOutputOf gates.now 0 r }
    ensures len { length pulls.new.items ≡ length pulls.old.items }
    ensures zero { AreZero pulls.new.items }
{
    'gates: for i in 0..gates.len() {
        let gate = gates[i];
        pulls[gate.out as usize] = 0;
    }
}

/// A count of tables that pull, once one of them gives this instead of the other level.
fn recount(count: usize, output: bool) -> usize
    requires lets_go { output ≡ true → 0 < count }
    requires pulls { output ≡ false → count + 1 < 2 ^ 64 }
    ensures lets_go { output ≡ true → result + 1 ≡ count }
    ensures pulls { output ≡ false → result ≡ count + 1 }
{
    if output {
        return count - 1;
    }
    count + 1
}

/// Lets a table give this.
pub fn give(
    gates: &mut [Gate],
    pulls: &mut Vec<usize>,
    low: &mut [bool],
    place: usize,
    output: bool,
)
    requires place { place < length gates.old }
    requires outs { All (λ gate. gate.out < length low.old) gates.old }
    requires counted { AreCounted gates.old pulls.old.items low.old }
    ensures gates { HasGiven place output gates.old gates.new }
    ensures len { length low.new ≡ length low.old }
    ensures pulls { length pulls.new.items ≡ length pulls.old.items }
    ensures counted { AreCounted gates.new pulls.new.items low.new }
    ensures others { (r : ℕ) (d : Gate) → r ≢ (slice_index_or gates.old place d).out → is_low low.new r ≡ is_low low.old r }
{
    let gate = gates[place];
    if gate.output == output {
        return;
    }
    let class = gate.out as usize;
    let count = recount(pulls[class], output);
    gates[place] = Gate { output, ..gate };
    pulls[class] = count;
    low[class] = count > 0;
}
