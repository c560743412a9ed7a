//! Yes and no for each wire, crosspoint or table.

use base_bits::BitSet;

/// Whether a number is in a set.
pub fn in_set(set: &BitSet, n: u32) -> bool {
    if n < set.len() {
        return set.has(n);
    }
    false
}

/// The entry of a wire or a table in a list of yes and no.
pub fn flag_at(flags: &Vec<bool>, at: u32) -> bool {
    flags.get(at as usize).copied().unwrap_or(false)
}

/// Changes the entry of a wire or a table.
pub fn set_flag(flags: &mut Vec<bool>, at: u32, flag: bool) {
    if (at as usize) < flags.len() {
        flags[at as usize] = flag;
    }
}
