//! How much a change may cost, by chance.

use base_random::Draws;

const LN_2: f64 = 0.693_147_180_559_945_3;

// The natural logarithm of a number from 1 to 2.
fn ln_of(x: f64) -> f64 {
    let z = (x - 1.0) / (x + 1.0);
    let s = z * z;
    2.0 * z * (1.0 + s * (1.0 / 3.0 + s * (0.2 + s / 7.0)))
}

/// How many times the heat a change may cost: more than x with the probability of e to the power of -x.
pub fn bold(draws: &mut Draws) -> f64 {
    let number = (draws.step() >> 32) & 0xffff_ffff | 1;
    let zeros = number.leading_zeros();
    let first = number.wrapping_shl(zeros) >> 33;
    let mantissa = (first & 0x7fff_ffff) as u32 as f64 / 1_073_741_824.0;
    (zeros.saturating_sub(31)) as f64 * LN_2 - ln_of(mantissa)
}
