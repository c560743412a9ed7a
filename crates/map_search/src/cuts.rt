//! Cuts of the nodes of a graph.

/// The most leaves of a cut.
pub const MOST_LEAVES: usize = 6;

/// What stands behind the leaves of a cut.
pub const NO_LEAF: u32 = u32::MAX;

/// A cut: leaves in order, how many there are, a sign that tells most cuts apart, what the cut costs, and how many ANDs lie above
/// its leaves at most.
#[derive(Clone, Copy, Debug)]
pub struct Cut {
    pub leaves: [u32; MOST_LEAVES],
    pub count: usize,
    pub sign: u64,
    pub cost: f32,
    pub ands: u32,
}

/// The cut without leaves.
pub const NO_CUT: Cut = Cut {
    leaves: [NO_LEAF; MOST_LEAVES],
    count: 0,
    sign: 0,
    cost: 0.0,
    ands: 0,
};

// The sign of a leaf.
fn sign_of(leaf: u32) -> u64 {
    1u64.wrapping_shl(leaf.wrapping_mul(0x9e37_79b1) >> 26)
}

impl Cut {
    /// The leaf at a place.
    pub fn leaf(&self, place: usize) -> u32 {
        if place < MOST_LEAVES {
            self.leaves[place]
        } else {
            NO_LEAF
        }
    }

    /// Adds a leaf behind the others; whether there was room.
    pub fn add(&mut self, leaf: u32) -> bool {
        if self.count >= MOST_LEAVES {
            return false;
        }
        self.leaves[self.count] = leaf;
        self.count += 1;
        self.sign |= sign_of(leaf);
        true
    }

    /// Whether all leaves are among those of another cut.
    pub fn is_within(&self, other: &Cut) -> bool {
        if self.count > other.count || self.sign & !other.sign != 0 {
            return false;
        }
        let mut met = 0;
        'leaves: for leaf in &other.leaves {
            if met < self.count && self.leaf(met) == *leaf {
                met += 1;
            }
        }
        met == self.count
    }
}

/// The cut of a node alone.
pub fn cut_of(leaf: u32) -> Cut {
    let mut cut = NO_CUT;
    let _ = cut.add(leaf);
    cut
}

/// The cut of these leaves, if they are in order and at most six.
pub fn cut_of_leaves(leaves: &[u32]) -> Option<Cut> {
    let mut cut = NO_CUT;
    'leaves: for leaf in leaves {
        if !cut.add(*leaf) {
            return None;
        }
    }
    Some(cut)
}

/// The leaves of both cuts, if they are at most six.
pub fn union(a: &Cut, b: &Cut) -> Option<Cut> {
    if (a.sign | b.sign).count_ones() > 6 {
        return None;
    }
    let mut cut = NO_CUT;
    cut.ands = a.ands.saturating_add(b.ands).saturating_add(1);
    let mut i = 0usize;
    let mut j = 0usize;
    'leaves: for _ in 0..MOST_LEAVES {
        let x = a.leaf(i);
        let y = b.leaf(j);
        let leaf = x.min(y);
        if leaf == NO_LEAF {
            return Some(cut);
        }
        let _ = cut.add(leaf);
        i = i.saturating_add((x == leaf) as usize);
        j = j.saturating_add((y == leaf) as usize);
    }
    if i < a.count || j < b.count {
        return None;
    }
    Some(cut)
}
