//! Groups of covers that reach one another.

ghost use Rattle.std.specs.Prelude.{◌≡◌, ◌<◌, ◌≤◌, ℕ, length, IfOk};
ghost use Rattle.design_netlist.specs.Covers.{cover_at};
ghost use Rattle.design_netlist.specs.Groups.{AreGroups, numbers_of};
ghost use Rattle.design_netlist.specs.Words.{AreBelow};

use crate::drives::drivers_of;
use crate::netlist_data::Cover;
use crate::search::{State, number_covers, number_of};
use std::alloc::{AllocError, Global};

/// The numbers of the covers.
fn numbers_of(alloc: Global, states: &Vec<State>) -> Result<Vec<usize>, AllocError>
    ensures { IfOk result (λ numbers. numbers.items ≡ numbers_of states.now.items) }
{
    let mut numbers = Vec::new(alloc);
    'states: for k in 0..states.len() {
        numbers.push(number_of(states, k))?;
    }
    Ok(numbers)
}

/// The number of each cover's group: two covers are of one group exactly where each reaches the other.
///
/// Signals are below the count, and no two covers drive the same one. The time is linear.
pub fn groups_of(alloc: Global, covers: &[Cover], count: usize) -> Result<Vec<usize>, AllocError>
    requires few { length covers.now ≤ 4294967295 }
    requires outs { (i : ℕ) → i < length covers.now → (cover_at covers.now i).out < count }
    requires ins { (i : ℕ) → i < length covers.now → AreBelow count (cover_at covers.now i).ins }
    requires once { (i j : ℕ) → i < j → j < length covers.now → (cover_at covers.now i).out ≡ (cover_at covers.now j).out → ⊥ }
    ensures { IfOk result (λ groups. AreGroups covers.now groups.items) }
{
    let drivers = drivers_of(alloc, covers, count)?;
    let search = number_covers(alloc, covers, &drivers)?;
    let groups = numbers_of(alloc, &search.states)?;
    Ok(groups)
}
