//! Which wires have crosspoints to two different ones of some wires.

use crate::flags::Flags;
use std::alloc::{AllocError, Global};

// What a wire's crosspoints lead to: as yet none of the wires, one, or two different ones.
#[derive(Clone, Copy, PartialEq)]
enum Feet {
    None,
    One(u32),
    Two,
}

// A crosspoint leads from a wire to another: that counts where the other is one of these wires.
fn say(feet: &mut [Feet], wires: &Flags, wire: u32, other: u32) {
    let wire = wire as usize;
    if wire >= feet.len() || !wires.has(other) {
        return;
    }
    let before = feet[wire];
    feet[wire] = match before {
        Feet::None => Feet::One(other),
        Feet::One(first) if first == other => Feet::One(first),
        _ => Feet::Two,
    };
}

// Which lead to two.
fn two_of(alloc: Global, feet: &[Feet]) -> Result<Flags, AllocError> {
    let mut two = Vec::new(alloc);
    'feet: for foot in feet {
        two.push(*foot == Feet::Two)?;
    }
    Ok(Flags::new(two))
}

/// For each wire of as many as these, whether two of the crosspoints, each given by its tap and its line, lead from it to two
/// different ones of these.
pub fn on_two(alloc: Global, crosses: &[(u32, u32)], wires: &Flags) -> Result<Flags, AllocError> {
    let mut feet = vec![in alloc; Feet::None; wires.len()]?;
    'crosses: for (tap, line) in crosses.iter() {
        say(&mut feet, wires, *tap, *line);
        say(&mut feet, wires, *line, *tap);
    }
    two_of(alloc, &feet)
}
