//! What later crates rest on, of images and their runs.
ghost use Rattle.std.specs.Prelude.{◌≡◌, Bool, List, map};
ghost use Rattle.machine_meaning.specs.Vocabulary.{Pins, Defects, Covers, Faults};
ghost use Rattle.machine_config.specs.Faulty.{IsRun};
ghost use Rattle.machine_image.specs.Images.{ImageValue, IsImage, drive_of, image_row};
ghost use Rattle.machine_image.specs.Parts.{IsFreeImage};

/// An image that touches only what is free reads the same rows under any two fault sets that the list covers. Every list
/// covers the empty fault set, so an image that is right without faults is right under every fault set that the list
/// covers.
pub fn free_images_run_alike()
    ensures { (d : Defects) (i : ImageValue) (f h : Faults) → IsImage i → IsFreeImage d i → Covers i.config.shape d f →
        Covers i.config.shape d h →
        (vectors : List (List Bool)) (reads others : List Pins) → IsRun f i.config (map (drive_of i) vectors) reads →
        IsRun h i.config (map (drive_of i) vectors) others →
        map (image_row i) reads ≡ map (image_row i) others }
{
    machine_shape::the_numbering_is_sound();
}
