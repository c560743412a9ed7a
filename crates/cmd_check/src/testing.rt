//! Tests of an image, of which the last has ended too.
ghost use Rattle.std.specs.Prelude.{◌≡◌, ◌*◌, ◌-◌, ◌<◌, [], Some, IsTrue};
ghost use Rattle.base_bits.specs.Numbers.{size_of};
ghost use Rattle.cmd_steps.specs.Vocabulary.{StoreState, SinkState, shape_of, outside, Took};
ghost use Rattle.cmd_check.specs.Testing.{tests_now};

use base_bits::BitSet;
use cmd_steps::Stop;
use diag_check::{quick_check, used_wires};
use diag_settled::{loads_of, settle};
use machine_image::Image;
use machine_shape::Shape;
use rig::Rig;
use std::alloc::Global;

// Tests an image on the machine that is attached.
fn test(alloc: Global, shape: &Shape, image: &Image, rig: &mut Box<dyn Rig>) -> Result<bool, Stop>
    requires attached { shape_of (rig_state rig.old) ≡ Some shape.now }
    requires image { image.now.config.shape ≡ shape.now }

    ensures machine { (rig_state rig.new).machine ≡ (rig_state rig.old).machine }
    // Whatever the store and the sink are.
    ensures took { (store : StoreState) (sink : SinkState) → Took [] (tests_now image.now (rig_state rig.old) (rig_state rig.new)) result
        (outside store (rig_state rig.old) sink) (outside store (rig_state rig.new) sink) }
{
    match quick_check(alloc, rig, shape, image) {
        Ok(sound) => Ok(sound),
        Err(fail) => Err(Stop::from(fail)),
    }
}

// Whether a test of an image that uses these wires took fewer loads than it may take for its wires alone.
fn has_test_left(used: &BitSet, before: u64, now: u64) -> bool
    ensures { IsTrue result → now - before < 256 * size_of used.now }
{
    now.saturating_sub(before) < 256 * u64::from(used.count())
}

// The same, and loads nothing behind the last of what it did, where it found the image sound. The load is left out where the test took as
// many as it may.
pub(crate) fn test_settled(
    alloc: Global,
    shape: &Shape,
    image: &Image,
    rig: &mut Box<dyn Rig>,
) -> Result<bool, Stop>
    requires attached { shape_of (rig_state rig.old) ≡ Some shape.now }
    requires image { image.now.config.shape ≡ shape.now }

    ensures machine { (rig_state rig.new).machine ≡ (rig_state rig.old).machine }
    // Whatever the store and the sink are.
    ensures took { (store : StoreState) (sink : SinkState) → Took [] (tests_now image.now (rig_state rig.old) (rig_state rig.new)) result
        (outside store (rig_state rig.old) sink) (outside store (rig_state rig.new) sink) }
{
    let before = loads_of(rig);
    let sound = test(alloc, shape, image, rig)?;
    if !sound {
        return Ok(sound);
    }
    let now = loads_of(rig);
    let used = used_wires(alloc, image)?;
    if !has_test_left(&used, before, now) {
        return Ok(sound);
    }
    match settle(alloc, shape, rig) {
        Ok(()) => Ok(sound),
        Err(fail) => Err(Stop::from(fail)),
    }
}
