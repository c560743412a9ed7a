//! Words of which each bit belongs to a vector of its own: all bits at one place of the signals' words are a lane.

ghost use Rattle.std.specs.Prelude.{◌≡◌, ◌<◌, true, length, map};
ghost use Rattle.design_netlist.specs.Vocabulary.{bit_at, is_bit, lane_bits};
ghost use Rattle.design_eval.specs.Bits.{AreBelow};

/// How many lanes a word has.
pub const LANES: u32 = 64;

// The bit of a word in a lane.
fn bit_in(word: u64, lane: u32) -> bool
    requires { lane < 64 }
    ensures { result ≡ is_bit word lane }
{
    (word >> lane) & 1 == 1
}

/// Whether the signals have these bits in a lane.
pub fn stand_in(words: &[u64], signals: &[u32], lane: u32, bits: &[bool]) -> bool
    requires lane { lane < 64 }
    requires bits { length bits.now ≡ length signals.now }
    requires within { AreBelow (length words.now) signals.now }
    ensures { result ≡ true → map (bit_at (lane_bits words.now lane)) signals.now ≡ bits.now }
{
    'signals: for k in 0..signals.len() {
        if bit_in(words[signals[k] as usize], lane) != bits[k] {
            return false;
        }
    }
    true
}

/// Reads the bits of the signals in a lane.
pub fn read_lane(words: &[u64], signals: &[u32], lane: u32, out: &mut [bool])
    requires lane { lane < 64 }
    requires out { length out.old ≡ length signals.now }
    requires within { AreBelow (length words.now) signals.now }
    ensures { out.new ≡ map (bit_at (lane_bits words.now lane)) signals.now }
{
    'signals: for k in 0..signals.len() {
        out[k] = bit_in(words[signals[k] as usize], lane);
    }
}
