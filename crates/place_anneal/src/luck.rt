//! By how much an exchange may do harm.

use base_random::Draws;

/// How many more crossings are borne: none for half of the draws, and each further `heat` sixteenths for half of the rest.
pub fn borne(draws: &mut Draws, heat: u32) -> u32 {
    (draws.step() >> 33).trailing_zeros().saturating_mul(heat) / 16
}
