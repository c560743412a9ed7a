//! Laws of tenants, and of what leaves them alone.
ghost use Rattle.std.specs.Prelude.{◌≡◌, ℕ, Bool, List, All, map, take};
ghost use Rattle.machine_meaning.specs.Vocabulary.{Faults, IsFaultless, Defects, Covers, Pins};
ghost use Rattle.machine_config.specs.Vocabulary.{IsRun};
ghost use Rattle.machine_image.specs.Vocabulary.{ImageValue, IsImage, IsFreeImage, Uses, drive_of, image_row};
ghost use Rattle.machine_history.specs.Vocabulary.{History, IsRunOver, IsTenantOf, LeavesAlone, LeavesAloneFor, AreAmong, IsDriveFor};
ghost use Rattle.machine_history.specs.Vocabulary.{drive_alone};

/// Each image is a tenant of itself. A tenant uses no wire that the whole doesn't.
pub fn tenants_are_parts()
    ensures itself { (i : ImageValue) → IsTenantOf i i }
    ensures uses { (whole tenant : ImageValue) (w : ℕ) → IsTenantOf whole tenant → Uses tenant w → Uses whole w }
{}

/// Where a list covers the faults and an image touches only what is free, they leave it, in itself, alone. No faults leave each
/// tenant alone, and what leaves one alone still does when some of the faults are taken away.
pub fn fewer_faults_leave_alone()
    ensures covered { (d : Defects) (i : ImageValue) (f : Faults) → IsImage i → IsFreeImage d i → Covers i.config.shape d f →
        LeavesAlone f i i }
    ensures faultless { (whole tenant : ImageValue) (f : Faults) → IsFaultless f → LeavesAlone f whole tenant }
    ensures fewer { (whole tenant : ImageValue) (f more : Faults) → AreAmong f more → LeavesAlone more whole tenant →
        LeavesAlone f whole tenant }
{
    machine_shape::the_numbering_is_sound();
}

/// A tenant that a history leaves alone for n cycles reads in them, at its output pins, as it does by itself on a machine without
/// faults, where its input pins have the same bits and all others 1. The other pins of the whole have any bits, and to all that
/// the tenant doesn't use anything is done, at any instant.
pub fn left_alone_runs_alone()
    ensures { (whole tenant : ImageValue) (h : History) (none : Faults) (n : ℕ) (drives reads alone : List Pins) → IsImage whole →
        IsTenantOf whole tenant → LeavesAloneFor n h whole tenant → IsFaultless none → All (IsDriveFor whole tenant) drives →
        IsRunOver h whole.config drives reads → IsRun none tenant.config (map (drive_alone tenant) drives) alone →
        map (image_row tenant) (take n reads) ≡ map (image_row tenant) (take n alone) }
{}

/// An image that a history leaves, in itself, alone for all cycles reads under vectors as on a machine without faults. So does an
/// image that touches only what a list leaves free, where the list covers the faults of each instant: whatever is done to what is
/// listed.
pub fn left_alone_images_run_alone()
    ensures alone { (i : ImageValue) (h : History) (none : Faults) (n : ℕ) (vectors : List (List Bool)) (reads alone : List Pins) →
        IsImage i → LeavesAloneFor n h i i → IsFaultless none →
        IsRunOver h i.config (map (drive_of i) vectors) reads → IsRun none i.config (map (drive_of i) vectors) alone →
        map (image_row i) (take n reads) ≡ map (image_row i) (take n alone) }
    ensures covered { (d : Defects) (i : ImageValue) (h : History) (none : Faults) (vectors : List (List Bool))
        (reads alone : List Pins) → IsImage i → IsFreeImage d i →
        ((cycle instant : ℕ) → Covers i.config.shape d (h cycle instant)) → IsFaultless none →
        IsRunOver h i.config (map (drive_of i) vectors) reads → IsRun none i.config (map (drive_of i) vectors) alone →
        map (image_row i) reads ≡ map (image_row i) alone }
{
    machine_shape::the_numbering_is_sound();
}
