//! Lists of numbers.
ghost use Rattle.std.specs.Prelude.{◌≡◌, ◌++◌, ◌∷◌, [], OnOk, IfOk, replicate, if◌then◌else◌};
ghost use Rattle.place_plan.specs.Touches.{is_last, with_last};

use base_lists::Items;
use std::alloc::{AllocError, Global};

/// Puts a number at the end, if it is wanted.
pub fn push_if(numbers: &mut Items<u32>, number: u32, wanted: bool) -> Result<(), AllocError>
    ensures { OnOk result (numbers.new ≡ (if wanted then numbers.old ++ number ∷ [] else numbers.old)) }
{
    if wanted {
        numbers.push(number)?;
    }
    Ok(())
}

// Whether a list ends with this number.
fn is_last(numbers: &[u32], number: u32) -> bool
    ensures { result ≡ is_last numbers.now number }
{
    numbers.len() > 0 && numbers[numbers.len() - 1] == number
}

/// Puts a number at the end, unless it is there.
pub fn push_last(numbers: &mut Items<u32>, number: u32) -> Result<(), AllocError>
    ensures { OnOk result (numbers.new ≡ with_last numbers.old number) }
{
    if !is_last(numbers.as_slice(), number) {
        numbers.push(number)?;
    }
    Ok(())
}

/// So many empty lists.
pub fn empty_lists(alloc: Global, count: usize) -> Result<Vec<Items<u32>>, AllocError>
    ensures { IfOk result (λ lists. lists.items ≡ replicate count []) }
{
    let mut lists = Vec::new(alloc);
    for index in 0..count {
        let _ = index;
        lists.push(Items::empty(alloc))?;
    }
    Ok(lists)
}
