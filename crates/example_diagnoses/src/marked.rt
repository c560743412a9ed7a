//! A machine whose faults are said, and what a sweep of all of it marks.

use crate::calls::Way;
use crate::picture::Marks;
use crate::sight::all_hold;
use crate::trial::try_machine;
use base_random::Draws;
use example_kit::TINY;
use machine_faults::read_faults;
use machine_shape::Shape;
use std::alloc::Global;
use std::io;

// Both faults are at the first pin or the first line of the root.
const FAULTS: &str = "open r.p0 r.l1\nstuck0 r.l0\n";

// The number of `r.l0`: the four pins are before it.
const STUCK_LINE: u32 = 4;

// The number of `r.p0 r.l1`: the crosspoint of the first pin with the first line alone is before it.
const OPEN_CROSS: u32 = 1;

/// The line is stuck, and a crosspoint of another line is open: a sweep of all marks these and no others.
///
/// # Errors
///
/// Which isn't so.
pub fn sweep_is_right(marks: &Marks) -> Result<(), &'static str> {
    all_hold(&[
        (
            marks.stuck.is_only(OPEN_CROSS),
            "the open crosspoint isn't the one that is marked",
        ),
        (
            marks.unfit.is_only(STUCK_LINE),
            "the stuck line isn't the one that is marked",
        ),
        (marks.wrong.is_blank(), "a table is marked"),
    ])
}

fn sweep_marks_tiny(alloc: Global) -> Result<(), &'static str> {
    let Ok(shape) = Shape::new(TINY) else {
        return Err("no shape");
    };
    match read_faults(alloc, &shape, FAULTS.as_bytes()) {
        Ok(faults) => try_machine(alloc, &mut Draws::new(0), &faults, Way::Sweep),
        Err(_) => Err("no faults"),
    }
}

/// Tries the machine, and tells whether it is right.
pub fn try_said(rt: &HostRuntime) -> io::Result<bool> {
    let name = "sweep-marks-tiny";
    match sweep_marks_tiny(rt.alloc()) {
        Ok(()) => {
            println!(rt; "{name}: right")?;
            Ok(true)
        }
        Err(wrong) => {
            println!(rt; "{name}: {wrong}")?;
            Ok(false)
        }
    }
}
