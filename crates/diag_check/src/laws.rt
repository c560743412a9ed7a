//! What later crates rest on, of images that run soundly.
ghost use Rattle.std.specs.Prelude.{◌≡◌, Bool, List};
ghost use Rattle.machine_meaning.specs.Vocabulary.{Covers, Defects, Faults, IsFaultless};
ghost use Rattle.machine_image.specs.Vocabulary.{ImageValue, IsImage, IsFreeImage, IsWideEnough};
ghost use Rattle.diag_evidence.specs.Kept.{HoldsFor, Kept};
ghost use Rattle.diag_check.specs.Soundly.{IsUnharmed, KeepsParts, IsSoundUnder};
ghost use Rattle.diag_check.specs.Used.{AreUsed};

use machine_config::laws::stuck_registers_hold;
use machine_history::alone::fewer_faults_leave_alone;
use machine_image::free_images_run_alike;
use machine_meaning::{every_list_covers_no_faults, without_faults_all_is_sound};

/// An image that touches only what is free is left alone by all faults that the list covers, and runs soundly under them.
pub fn free_images_run_soundly()
    ensures { (d : Defects) (f : Faults) (i : ImageValue) → IsImage i → IsFreeImage d i → Covers i.config.shape d f → IsSoundUnder f i }
{
    every_list_covers_no_faults();
    free_images_run_alike();
    fewer_faults_leave_alone();
}

/// An image whose parts are kept is left alone by all faults of which what is kept is true, and runs soundly under them. The parts
/// are all that it meets: a list of everything else covers the faults, but for the registers of tables that aren't latched, which
/// have no effect.
pub fn kept_images_run_soundly()
    ensures { (k : Kept) (f : Faults) (i : ImageValue) (used : List Bool) → IsImage i → k.shape ≡ i.config.shape → AreUsed i used →
        HoldsFor k f → KeepsParts k i → IsSoundUnder f i }
{
    stuck_registers_hold();
    free_images_run_soundly();
}

/// Without faults an image is unharmed on each machine that is wide enough for it.
pub fn no_faults_leave_images_unharmed()
    ensures { (f : Faults) (i : ImageValue) → IsFaultless f → IsWideEnough i.config.shape i → IsUnharmed f i }
{
    without_faults_all_is_sound();
}
