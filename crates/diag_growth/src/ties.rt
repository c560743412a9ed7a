//! What is closed besides the routes while a cell is tested.
ghost use Rattle.std.specs.Prelude.{◌≡◌, ◌%◌, ◌==◌, true, false, OnOk, length};
ghost use Rattle.machine_config.specs.Groups.{among};
ghost use Rattle.diag_tests.specs.Routes.{cross_numbers};
ghost use Rattle.diag_growth.specs.Ties.{bit_of, AddsArm, AreSeatTies};

use crate::{Arm, Seat};
use machine_shape::Cross;
use std::alloc::AllocError;

// Adds the crosspoints of an arm, if the bit of its input is 0.
fn push_low(ties: &mut Vec<Cross>, arm: &Arm, rest: u32) -> Result<(), AllocError>
    ensures low { OnOk result ((rest % 2 == 1) ≡ false → AddsArm (cross_numbers ties.old.items) (cross_numbers ties.new.items) arm.now) }
    ensures high { OnOk result ((rest % 2 == 1) ≡ true → ties.new.items ≡ ties.old.items) }
{
    if rest % 2 == 1 {
        return Ok(());
    }
    ties.push(arm.to_line)?;
    ties.push(arm.to_input)?;
    Ok(())
}

/// The crosspoint to the output alone.
pub(crate) fn set_output(ties: &mut Vec<Cross>, seat: &Seat) -> Result<(), AllocError>
    ensures { OnOk result (AreSeatTies seat.now (λ _. true) 6 (among (cross_numbers ties.new.items))) }
{
    ties.clear();
    ties.push(seat.output)?;
    Ok(())
}

/// The crosspoint to the output, and the arms to the inputs whose bit of the address is 0.
pub(crate) fn set_ties(ties: &mut Vec<Cross>, seat: &Seat, address: u32) -> Result<(), AllocError>
    requires { length seat.now.arms.items ≡ 6 }
    ensures { OnOk result (AreSeatTies seat.now (bit_of address) 6 (among (cross_numbers ties.new.items))) }
{
    ties.clear();
    ties.push(seat.output)?;
    let mut rest = address;
    'inputs: for input in 0..6 {
        push_low(ties, &seat.arms[input], rest)?;
        rest /= 2;
    }
    Ok(())
}
