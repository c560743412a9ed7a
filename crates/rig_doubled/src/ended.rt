//! Sessions that have ended, for proofs alone.
ghost use Rattle.std.specs.Prelude.{◌≡◌, ◌++◌, None, if◌then◌else◌};
ghost use Rattle.rig.specs.Rig.{standing};
ghost use Rattle.rig_doubled.specs.Repeats.{ended_in};

use base_log::Log;
use rig::Rig;

/// Puts the rig's session behind those that have ended, where it stands.
pub fn end<R: Rig>(past: &mut Log<R>, rig: &R, stands: bool)
    ensures { ended_in (λ r. R.rig_state r) past.new.items ≡ ended_in (λ r. R.rig_state r) past.old.items
        ++ standing (if stands then (R.rig_state rig.now).session else None) }
{
    if stands {
        *past = past.and(rig);
    }
}
