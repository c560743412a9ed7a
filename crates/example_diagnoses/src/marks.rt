//! Whether marks are true, and of what was to be looked at.

use crate::flags::Parts;
use crate::picture::{Knowing, Marks};
use crate::sight::{Sight, all_hold};
use crate::wrongs::Wrongs;

// A wire that is marked unfit isn't clear, or is shorted to a known one.
fn unfit_are_true(sight: &Sight, marks: &Marks, known: &Knowing) -> bool {
    'wires: for w in sight.wires.iter() {
        if marks.unfit.has(w.number) && w.clear && !sight.is_shorted_to(w, &known.wires) {
            return false;
        }
    }
    true
}

/// Each mark is true of these known wires.
///
/// # Errors
///
/// Which isn't.
pub fn are_true(
    sight: &Sight,
    wrongs: &Wrongs,
    marks: &Marks,
    known: &Knowing,
) -> Result<(), &'static str> {
    all_hold(&[
        (
            marks.stuck.is_within(&wrongs.crosses, &wrongs.crosses),
            "a crosspoint is marked stuck that isn't",
        ),
        (
            unfit_are_true(sight, marks, known),
            "a wire is marked unfit that is clear and shorted to no known one",
        ),
        (
            marks.unclear.is_within(&wrongs.wires, &wrongs.wires),
            "a wire is marked unclear that is clear",
        ),
        (
            marks.wrong.is_within(&wrongs.tables, &wrongs.tables),
            "a table is marked wrong that is right",
        ),
    ])
}

/// What was marked still is, but for unfit wires.
pub fn still_are_but_unfit(before: &Marks, after: &Marks) -> bool {
    before.stuck.stays(&after.stuck)
        && before.unclear.stays(&after.unclear)
        && before.wrong.stays(&after.wrong)
}

/// What was marked still is.
pub fn still_are(before: &Marks, after: &Marks) -> bool {
    still_are_but_unfit(before, after) && before.unfit.stays(&after.unfit)
}

/// New marks are of the area and of its tables.
pub fn are_within(before: &Marks, after: &Marks, area: &Parts) -> bool {
    before.stuck.grows_in(&after.stuck, &area.crosses)
        && before.unfit.grows_in(&after.unfit, &area.wires)
        && before.unclear.grows_in(&after.unclear, &area.wires)
        && before.wrong.grows_in(&after.wrong, &area.tables)
}
