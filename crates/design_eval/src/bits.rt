//! Bits of signals, written and read.

ghost use Rattle.std.specs.Prelude.{◌≡◌, length, map};
ghost use Rattle.design_netlist.specs.Valuations.{bit_at};
ghost use Rattle.design_eval.specs.Bits.{bits_put, AreBelow};

/// Gives the signals these bits.
pub fn put_bits(values: &mut [bool], signals: &[u32], bits: &[bool])
    requires bits { length bits.now ≡ length signals.now }
    requires within { AreBelow (length values.old) signals.now }
    ensures { values.new ≡ bits_put values.old signals.now bits.now }
{
    'signals: for k in 0..signals.len() {
        values[signals[k] as usize] = bits[k];
    }
}

/// Reads the bits of the signals.
pub fn read_bits(values: &[bool], signals: &[u32], out: &mut [bool])
    requires out { length out.old ≡ length signals.now }
    requires within { AreBelow (length values.now) signals.now }
    ensures { out.new ≡ map (bit_at values.now) signals.now }
{
    'signals: for k in 0..signals.len() {
        out[k] = values[signals[k] as usize];
    }
}
