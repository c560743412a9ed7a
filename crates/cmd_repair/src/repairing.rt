//! Images that are repaired, or why not.
ghost use Rattle.std.specs.Prelude.{◌≡◌, ◌≤◌, []};
ghost use Rattle.std.specs.FinSet as set;
ghost use Rattle.machine_shape.specs.Vocabulary.{most_repaired};
ghost use Rattle.cmd_steps.specs.Vocabulary.{Outside, Took};
ghost use Rattle.cmd_repair.specs.Repairing.{repairs, takes_few};

use cmd_steps::{Refusal, RefusedRoom, Stop};
use machine_config::laws::runs_are_one;
use machine_defects::Defects;
use machine_image::{Image, ImageKind};
use place_plan::PlaceFail;
use place_repair::repair;
use std::alloc::Global;

/// Refuses an image with too many closed crosspoints. One that is read may have some more, so that there is room for those that
/// are closed anew.
pub fn take_few(image: &Image) -> Result<(), Stop>
    // Whatever is around it.
    ensures took { (o : Outside) → Took [] (takes_few image.now) result o o }
{
    let config = image.config();
    let count = config.closed().len();
    let most = config.shape().most_repaired() as usize;
    if count > most {
        return Err(Stop::Refused(Refusal::Image {
            line: 0,
            kind: ImageKind::Limit,
        }));
    }
    Ok(())
}

/// The repair of an image on what a list leaves free, where there is room by the repair plan.
///
/// # Errors
///
/// The refusal for want of room exactly where the plan doesn't fit, with the first short resource, unless memory is lacking;
/// lack of memory.
pub fn repaired(alloc: Global, image: &Image, list: &Defects) -> Result<Image, Stop>
    requires few { set.len image.now.config.closed ≤ most_repaired image.now.config.shape }
    requires shape { list.now.shape ≡ image.now.config.shape }

    // Whatever is around it.
    ensures took { (o : Outside) → Took [] (repairs list.now image.now) result o o }
{
    runs_are_one();
    // Its contract says that the value is an image.
    image.config();
    match repair(alloc, image, list) {
        Ok(repaired) => {
            repaired.config();
            Ok(repaired)
        }
        Err(PlaceFail::Short(short)) => {
            let place = RefusedRoom::new(alloc, list.shape(), short)?;
            Err(Stop::Refused(Refusal::Room(place)))
        }
        Err(PlaceFail::Memory) => Err(Stop::Refused(Refusal::Memory)),
    }
}
