//! Small numbers.

/// A number that is known to be small, in 32 bits.
pub fn small(number: usize) -> u32 {
    if number > 4_294_967_295 {
        u32::MAX
    } else {
        number as u32
    }
}

/// The number at a place, or 0 where there is none.
pub fn at(numbers: &[u32], place: usize) -> u32 {
    if place < numbers.len() {
        numbers[place]
    } else {
        0
    }
}

/// Puts a number at a place, if there is one.
pub fn set(numbers: &mut Vec<u32>, place: usize, number: u32) {
    if place < numbers.len() {
        numbers[place] = number;
    }
}

/// Whether there is a mark at a place.
pub fn is_marked(marks: &[bool], place: usize) -> bool {
    place < marks.len() && marks[place]
}

/// Puts a mark at a place; whether it is new.
pub fn mark(marks: &mut Vec<bool>, place: usize) -> bool {
    if place < marks.len() && !marks[place] {
        marks[place] = true;
        return true;
    }
    false
}

/// The node of a literal.
pub fn node_of(literal: u32) -> usize {
    (literal >> 1) as usize
}

/// The literal of a node, not negated.
pub fn literal_of(node: usize) -> u32 {
    small(node).wrapping_shl(1)
}
