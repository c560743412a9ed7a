//! Marks on numbers.
ghost use Rattle.std.specs.Prelude.{◌≡◌, ◌<◌, ◌++◌, ◌∷◌, [], OnOk, IfOk, length, if◌then◌else◌, replicate};
ghost use Rattle.place_repair.specs.Marks.{IsMarked, IsThis};

use base_lists::Items;
use std::alloc::{AllocError, Global};

/// Marks a number.
pub fn mark(marks: &mut [bool], number: u32)
    requires { number < length marks.old }
    ensures { IsMarked (IsThis number) marks.old marks.new }
{
    marks[number as usize] = true;
}

/// Marks for so many numbers, all the same.
pub fn marks_of(alloc: Global, count: usize, mark: bool) -> Result<Vec<bool>, AllocError>
    ensures { IfOk result (λ marks. marks.items ≡ replicate count mark) }
{
    let marks = vec![in alloc; mark; count]?;
    Ok(marks)
}

/// Puts a number at the end, if it is wanted.
pub fn push_if(numbers: &mut Items<u32>, number: u32, wanted: bool) -> Result<(), AllocError>
    ensures { OnOk result (numbers.new ≡ (if wanted then numbers.old ++ number ∷ [] else numbers.old)) }
{
    if wanted {
        numbers.push(number)?;
    }
    Ok(())
}
