//! Whether an image still runs on a machine as on one without faults.
//!
//! Each part of the image is tested over routes of the test's own. A sweep goes over a broad field of the image's parts and some
//! ports and lines of each node that has one of them, or is above such a node, as far as the image's wires pay for it; then known
//! wires grow in a field with two of these, and where that isn't enough in one with all of them. Then one look decides: each used wire
//! has to be known, each closed crosspoint kept, and each cell and latched register of the image's tables. What is kept then
//! leaves no room for a fault that the image could meet.
//!
//! Promised (`quick_check`): true means, of each set of faults that explains all that was read of the machine by the end of the
//! call, that it leaves the image alone, and so that for every list of vectors on its input pins, with 1 on all other pins, the image
//! reads under it what it reads without faults (`sound_each`). Where under one such set the machine is wide enough for the image, its
//! parts are sound, and so are its surroundings, the answer is true, whatever is broken elsewhere (`whole_each`); wide enough means two
//! pins, and in each involved node two lines and, below the root, two ports. So it is where the image stands by its surroundings: a bad
//! pin, line or port beside it does no harm while two good ways are left (`ways` of `YesIf`). Faults that the rig tells explain what
//! was read, if they did before (`tells`). At every end it has made at most 256 loads for each part of the image and each involved
//! node, and 8 for each crosspoint and 3 for each wire of the surroundings (`loads`, `counted`), of which the 256 alone where the
//! first holds (`few_each`), and the machine is as it was (`machine`); `Failed` comes only where the rig's count rose (`cause`). An
//! image on free parts alone is left alone by all faults that the list covers (`free_images_run_soundly`), and one whose parts are
//! kept by all of which what is kept is true (`kept_images_run_soundly`): it runs soundly under them.
#![tactic(auto)]

mod check;
mod fields;
mod laws;
mod look;
mod marks;
mod near;
mod picks;
mod used;

pub use check::quick_check;
pub use laws::{free_images_run_soundly, kept_images_run_soundly, no_faults_leave_images_unharmed};
pub use used::used_wires;
