//! What the pins read.

ghost use Rattle.std.specs.Prelude.{◌≡◌, ℕ, ◌<◌, true, length, map, All};
ghost use Rattle.rig_simulated.specs.Gates.{is_low, level_at, IsOutputOf};
ghost use Rattle.rig_simulated.specs.Tracked.{IsTracked};

use crate::chains::put_level;
use crate::driving::KeptPins;
use crate::events::Frame;
use crate::gates::{Gate, level_at};
use rig::PinBits;

/// Reads what the pins are: what they are while no table pulls them, but for those in the class of what a table gives.
pub fn read_pins(
    frame: &Frame<'_, '_, '_>,
    low_tables: &[bool],
    gates: &[Gate],
    pins: &[u32],
    kept: &KeptPins,
    read: &mut PinBits,
)
    requires tracked { IsTracked frame.now.knots.now pins.now frame.now.low_pins.now kept.now }
    requires tables { length low_tables.now ≡ length frame.now.knots.now }
    requires outs { All (λ gate. gate.out < length frame.now.knots.now) gates.now }
    requires only { (r : ℕ) → is_low low_tables.now r ≡ true → IsOutputOf gates.now 0 r }
    requires read { length read.old ≡ length pins.now }
    ensures { read.new ≡ map (level_at frame.now.knots.now frame.now.low_pins.now low_tables.now) pins.now }
{
    read.copy_from(&kept.levels);
    'gates: for i in 0..gates.len() {
        let gate = gates[i];
        let level = level_at(frame.knots, frame.low_pins, low_tables, gate.out);
        put_level(pins, &kept.chains, gate.out, level, read);
    }
}
