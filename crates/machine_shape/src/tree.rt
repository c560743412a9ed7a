//! The walk over the tree: from a number to its place, and from a place to numbers of any kind.
//!
//! A node is given by the levels from it on, of which the first is its own. No levels are left at a table. The
//! walk goes by the weights of the depths, one function for each depth, so that nothing is computed twice.
ghost use Rattle.std.specs.Prelude.{◌≡◌, ◌<◌, ◌≤◌, ◌+◌, ◌-◌, ◌/◌, ◌%◌, ◌^◌, [], ◌∷◌, drop, length};
ghost use Rattle.machine_shape.specs.Kinds.{numbers_in, path_of};
ghost use Rattle.machine_shape.specs.Walk.{next, ports_in, size, taps_in};
ghost use Rattle.machine_shape.specs.Weights.{Fits, each_by, IsStep, IsSiteOf, place_by, start_by, weights_at, weights_in};

use crate::Level;
use crate::way::{Kind, Site, Way, Weight, Weights};

/// How many ports each child has, where these are the levels below; a table has 7 pins.
pub fn ports_below(levels: &[Level]) -> u32
    ensures { result ≡ ports_in levels.now }
{
    match levels {
        [] => 7,
        [level, ..] => level.ports,
    }
}

/// How many taps the crossbar of a node has.
pub fn taps_from(levels: &[Level]) -> u32
    requires { taps_in levels.now < 2 ^ 32 }
    ensures { result ≡ taps_in levels.now }
{
    match levels {
        [] => 0,
        [level, rest @ ..] => level.ports + level.children * ports_below(rest),
    }
}

/// How many numbers of its own a node or a table has.
fn own_of(kind: Kind, levels: &[Level]) -> u32
    requires { Fits kind levels.now }
    ensures { result ≡ numbers_in kind levels.now }
{
    match levels {
        [] => match kind {
            Kind::Wires => 7,
            Kind::Tables => 1,
            Kind::Nodes | Kind::Crosses => 0,
        },
        [level, ..] => match kind {
            Kind::Wires => level.ports + level.lines,
            Kind::Nodes => 1,
            Kind::Tables => 0,
            Kind::Crosses => taps_from(levels) * level.lines,
        },
    }
}

/// How many numbers a node has with all below it, where each child has so many.
pub fn size_of(kind: Kind, levels: &[Level], each: u32) -> u32
    requires fits { Fits kind levels.now }
    requires each { each ≡ size (numbers_in kind) (next levels.now) }
    ensures { result ≡ size (numbers_in kind) levels.now }
{
    match levels {
        [] => own_of(kind, levels),
        [level, ..] => own_of(kind, levels) + level.children * each,
    }
}

/// The levels from this depth on.
pub fn below(levels: &[Level], depth: usize) -> &[Level]
    requires { depth ≤ length levels.now }
    ensures { result.now ≡ drop depth levels.now }
{
    &levels[depth..]
}

/// The weights of the four depths.
pub fn weights_of(kind: Kind, levels: [Level; 4]) -> Weights
    requires { Fits kind levels }
    ensures { weights_at result ≡ weights_in (numbers_in kind) levels }
{
    let table = own_of(kind, below(&levels, 4));
    let hextants = size_of(kind, below(&levels, 3), table);
    let chips = size_of(kind, below(&levels, 2), hextants);
    let modules = size_of(kind, below(&levels, 1), chips);
    Weights {
        root: Weight {
            own: own_of(kind, below(&levels, 0)),
            each: modules,
        },
        modules: Weight {
            own: own_of(kind, below(&levels, 1)),
            each: chips,
        },
        chips: Weight {
            own: own_of(kind, below(&levels, 2)),
            each: hextants,
        },
        hextants: Weight {
            own: own_of(kind, below(&levels, 3)),
            each: table,
        },
    }
}

/// The place of a number that a node or table has of its own.
fn own_site(position: u32) -> Site
    ensures site { IsSiteOf result (record { path = []; position = position }) }
    ensures len { result.way.len ≡ 0 }
{
    Site {
        way: Way {
            steps: [0; 4],
            len: 0,
        },
        position,
    }
}

/// The way that takes this step first.
pub fn way_under(child: u32, way: Way) -> Way
    requires { way.len < 4 }
    ensures path { path_of result ≡ child ∷ path_of way }
    ensures len { result.len ≡ way.len + 1 }
{
    let steps = way.steps;
    Way {
        steps: [child, steps[0], steps[1], steps[2]],
        len: way.len + 1,
    }
}

/// The place that this step leads to first.
fn step_to(child: u32, site: Site) -> Site
    requires { site.way.len < 4 }
    ensures path { path_of result.way ≡ child ∷ path_of site.way }
    ensures position { result.position ≡ site.position }
    ensures len { result.way.len ≡ site.way.len + 1 }
{
    Site {
        way: way_under(child, site.way),
        position: site.position,
    }
}

/// How often a number has another in it, and what is left. A few subtractions are quicker than a division, and
/// most nodes have few children.
pub fn divided(number: u32, by: u32) -> (u32, u32)
    requires { 0 < by }
    ensures times { result.0 ≡ number / by }
    ensures left { result.1 ≡ number % by }
{
    if number < by {
        return (0, number);
    }
    let once = number - by;
    if once < by {
        return (1, once);
    }
    let twice = once - by;
    if twice < by {
        return (2, twice);
    }
    let thrice = twice - by;
    if thrice < by {
        return (3, thrice);
    }
    (number / by, number % by)
}

/// The child that has a number which isn't the node's own, and what number it is there.
fn down(weight: Weight, number: u32) -> (u32, u32)
    requires own { weight.own ≤ number }
    requires some { 0 < weight.each }
    ensures child { result.0 ≡ (number - weight.own) / weight.each }
    ensures number { result.1 ≡ (number - weight.own) % weight.each }
{
    divided(number - weight.own, weight.each)
}

/// Where a number is, counted from a hextant.
fn site_in_hextant(hextants: Weight, number: u32) -> Site
    requires { IsStep (hextants ∷ []) number }
    ensures site { IsSiteOf result (place_by (hextants ∷ []) number) }
    ensures len { result.way.len ≤ 1 }
{
    if number < hextants.own {
        own_site(number)
    } else {
        let (child, rest) = down(hextants, number);
        step_to(child, own_site(rest))
    }
}

/// Where a number is, counted from a chip.
fn site_in_chip(chips: Weight, hextants: Weight, number: u32) -> Site
    requires { IsStep (chips ∷ hextants ∷ []) number }
    ensures site { IsSiteOf result (place_by (chips ∷ hextants ∷ []) number) }
    ensures len { result.way.len ≤ 2 }
{
    if number < chips.own {
        own_site(number)
    } else {
        let (child, rest) = down(chips, number);
        step_to(child, site_in_hextant(hextants, rest))
    }
}

/// Where a number is, counted from a module.
fn site_in_module(modules: Weight, chips: Weight, hextants: Weight, number: u32) -> Site
    requires { IsStep (modules ∷ chips ∷ hextants ∷ []) number }
    ensures site { IsSiteOf result (place_by (modules ∷ chips ∷ hextants ∷ []) number) }
    ensures len { result.way.len ≤ 3 }
{
    if number < modules.own {
        own_site(number)
    } else {
        let (child, rest) = down(modules, number);
        step_to(child, site_in_chip(chips, hextants, rest))
    }
}

/// Where a number is.
#[inline(always)]
pub fn site_of(weights: Weights, number: u32) -> Site
    requires { IsStep (weights_at weights) number }
    ensures { IsSiteOf result (place_by (weights_at weights) number) }
{
    if number < weights.root.own {
        own_site(number)
    } else {
        let (child, rest) = down(weights.root, number);
        step_to(
            child,
            site_in_module(weights.modules, weights.chips, weights.hextants, rest),
        )
    }
}

/// The first number at the end of a way from a hextant on.
fn start_in_hextant(hextants: Weight, way: &[u32]) -> u32
    requires { start_by (hextants ∷ []) way.now < 2 ^ 32 }
    ensures { result ≡ start_by (hextants ∷ []) way.now }
{
    match way {
        [] => 0,
        [step, ..] => hextants.own + *step * hextants.each,
    }
}

/// The first number at the end of a way from a chip on.
fn start_in_chip(chips: Weight, hextants: Weight, way: &[u32]) -> u32
    requires { start_by (chips ∷ hextants ∷ []) way.now < 2 ^ 32 }
    ensures { result ≡ start_by (chips ∷ hextants ∷ []) way.now }
{
    match way {
        [] => 0,
        [step, further @ ..] => {
            let first = chips.own + *step * chips.each;
            first + start_in_hextant(hextants, further)
        }
    }
}

/// The first number at the end of a way from a module on.
fn start_in_module(modules: Weight, chips: Weight, hextants: Weight, way: &[u32]) -> u32
    requires { start_by (modules ∷ chips ∷ hextants ∷ []) way.now < 2 ^ 32 }
    ensures { result ≡ start_by (modules ∷ chips ∷ hextants ∷ []) way.now }
{
    match way {
        [] => 0,
        [step, further @ ..] => {
            let first = modules.own + *step * modules.each;
            first + start_in_chip(chips, hextants, further)
        }
    }
}

/// The first number at the end of a way.
pub fn start_of(weights: Weights, way: &[u32]) -> u32
    requires { start_by (weights_at weights) way.now < 2 ^ 32 }
    ensures { result ≡ start_by (weights_at weights) way.now }
{
    match way {
        [] => 0,
        [step, further @ ..] => {
            let first = weights.root.own + *step * weights.root.each;
            first + start_in_module(weights.modules, weights.chips, weights.hextants, further)
        }
    }
}

/// How many wires each child has with all below it, of the node at this depth.
pub fn each_at(weights: Weights, depth: usize) -> u32
    ensures { result ≡ each_by (weights_at weights) depth }
{
    match depth {
        0 => weights.root.each,
        1 => weights.modules.each,
        2 => weights.chips.each,
        3 => weights.hextants.each,
        _ => 7,
    }
}
