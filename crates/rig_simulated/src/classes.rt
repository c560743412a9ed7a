//! Wires in classes: those that are joined have one root.

ghost use Rattle.std.specs.Prelude.{◌≡◌, ◌≢◌, ◌⊎◌, ℕ, ◌+◌, ◌-◌, ◌^◌, ◌<◌, ◌≤◌, Bool, false, Option, IfSome, length};
ghost use Rattle.machine_meaning.specs.Joined.{Net};
ghost use Rattle.rig_simulated.specs.Classes.{knot_at, HasRoots, AreRooted, AreTied, HasLink, IsHung, IsTieOf, IsUntied, IsWithinKnots, IsOpenedBy, stronger};

use machine_shape::Cross;

/// What is kept of a wire.
#[derive(Clone, Copy, Debug)]
pub struct ClassNode {
    /// A wire of its class that is nearer to the root; the root is its own parent.
    pub parent: u32,
    /// A parent's rank is higher.
    pub rank: u64,
    /// At a root, the value at which its class is held.
    pub held: Option<bool>,
}

/// A root that is put below another, and what was kept of the higher one before.
#[derive(Clone, Copy, Debug)]
pub struct Tie {
    pub low: u32,
    pub high: u32,
    pub rank: u64,
    pub held: Option<bool>,
}

/// A crosspoint that was closed, and the roots that it tied, if it did.
#[derive(Clone, Copy, Debug)]
pub struct Closed {
    pub cross: Cross,
    pub tie: Option<Tie>,
}

/// The classes of a machine's wires.
#[derive(Drop)]
pub struct Classes {
    /// What is joined by the faults and by what is closed.
    pub knots: Vec<ClassNode>,
    /// What was closed, in this order, so that the last can be opened again.
    pub closed: Vec<Closed>,
}

/// The root of a wire's class.
pub fn root_of(knots: &[ClassNode], wire: u32) -> u32
    requires within { wire < length knots.now }
    requires rooted { AreRooted knots.now }
    ensures root { (most : ℕ) (root : ℕ → ℕ) → HasRoots knots.now most root → result ≡ root wire }
    ensures top { (knot_at knots.now result).parent ≡ result }
    ensures within { result < length knots.now }
{
    let mut at = wire;
    let mut knot = knots[at as usize];
    'up: while knot.parent != at {
        at = knot.parent;
        knot = knots[at as usize];
    }
    at
}

/// The value that holds two classes that are joined.
fn stronger(a: Option<bool>, b: Option<bool>) -> Option<bool>
    ensures { result ≡ stronger a b }
{
    match (a, b) {
        (Some(false), _) | (_, Some(false)) => Some(false),
        (None, b) => b,
        (a, _) => a,
    }
}

/// Puts a root below another of no lower rank.
pub fn hang(knots: &mut [ClassNode], low: u32, high: u32)
    requires low { low < length knots.old }
    requires high { high < length knots.old }
    requires apart { low ≢ high }
    requires ranks { (knot_at knots.old low).rank ≤ (knot_at knots.old high).rank }
    requires room { (knot_at knots.old high).rank + 1 < 2 ^ 64 }
    ensures { IsHung knots.old knots.new low high }
{
    let below = knots[low as usize];
    let above = knots[high as usize];
    let rank = if below.rank == above.rank {
        above.rank + 1
    } else {
        above.rank
    };
    knots[low as usize] = ClassNode {
        parent: high,
        rank: below.rank,
        held: below.held,
    };
    knots[high as usize] = ClassNode {
        parent: high,
        rank,
        held: stronger(below.held, above.held),
    };
}

/// A root that is to be put below another.
fn tie_below(knots: &[ClassNode], low: u32, high: u32) -> Tie
    requires { high < length knots.now }
    ensures low { result.low ≡ low }
    ensures high { result.high ≡ high }
    ensures rank { result.rank ≡ (knot_at knots.now high).rank }
    ensures held { result.held ≡ (knot_at knots.now high).held }
{
    let above = knots[high as usize];
    Tie {
        low,
        high,
        rank: above.rank,
        held: above.held,
    }
}

/// Which of two roots is to be put below the other.
pub fn tie_of(knots: &[ClassNode], a: u32, b: u32) -> Tie
    requires a { a < length knots.now }
    requires b { b < length knots.now }
    requires apart { a ≢ b }
    ensures within { IsWithinKnots result (length knots.now) }
    ensures tie { IsTieOf knots.now a b result }
{
    if knots[a as usize].rank <= knots[b as usize].rank {
        return tie_below(knots, a, b);
    }
    tie_below(knots, b, a)
}

/// Parts again what was tied last.
fn untie(knots: &mut [ClassNode], tie: Tie)
    requires { IsWithinKnots tie (length knots.old) }
    ensures { IsUntied tie knots.old knots.new }
{
    let below = knots[tie.low as usize];
    knots[tie.low as usize] = ClassNode {
        parent: tie.low,
        rank: below.rank,
        held: below.held,
    };
    knots[tie.high as usize] = ClassNode {
        parent: tie.high,
        rank: tie.rank,
        held: tie.held,
    };
}

/// Parts again what a crosspoint tied that was closed last.
pub fn part(knots: &mut [ClassNode], tie: Option<Tie>)
    requires { IfSome tie (λ t. IsWithinKnots t (length knots.old)) }
    ensures { IsOpenedBy tie knots.old knots.new }
{
    if let Some(tie) = tie {
        untie(knots, tie);
    }
}

/// Joins the classes of two wires.
pub fn join(knots: &mut [ClassNode], a: u32, b: u32)
    requires a { a < length knots.old }
    requires b { b < length knots.old }
    requires rooted { AreRooted knots.old }
    ensures len { length knots.new ≡ length knots.old }
    ensures joined { (old new : Net) (stuck : ℕ → Option Bool) (most : ℕ) → AreTied old stuck knots.old most → HasLink old new a b →
        AreTied new stuck knots.new (most + 1) }
{
    let root = root_of(knots, a);
    let other = root_of(knots, b);
    if root != other {
        let tie = tie_of(knots, root, other);
        hang(knots, tie.low, tie.high);
    }
}
