//! The choice of cuts: passes over the nodes by the flow of area, and then by exact area.

use crate::areas::{Areas, areas_of};
use crate::cuts::{Cut, NO_CUT, cut_of, union};
use crate::hints::Hint;
use crate::numbers::is_marked;
use crate::reach::{Nodes, Reach};
use base_random::Draws;
use design_equal::And;
use std::alloc::{AllocError, Global};

/// What passes go by, one after the other.
const PASSES: [Aim; 6] = [
    Aim::Flow,
    Aim::Flow,
    Aim::Flow,
    Aim::Exact,
    Aim::Exact,
    Aim::Exact,
];

/// What a pass goes by.
#[derive(Clone, Copy, PartialEq, Eq)]
enum Aim {
    Depth,
    Flow,
    Exact,
}

/// From so many cuts on, those that hold another one aren't sought out.
const MOST_COMPARED: usize = 120;

/// The cuts that were kept of a node: those at these places.
#[derive(Clone, Copy)]
struct Kept {
    from: usize,
    to: usize,
}

/// What passes keep.
#[derive(Drop)]
struct Passes {
    /// Cuts of nodes so far, and where those of each node stand.
    cuts: Vec<Cut>,
    kept: Vec<Kept>,
    /// The cuts of the node that is at hand.
    found: Vec<Cut>,
    chosen: Vec<Cut>,
    /// The first hint that isn't behind.
    hint: usize,
    /// How many cuts of a node are kept, and the first node that is an AND.
    most: usize,
    first: usize,
    /// How many ANDs may lie above the leaves of a cut.
    ands: u32,
    draws: Draws,
    noisy: bool,
}

// The cuts that were kept of a node.
fn cuts_at(passes: &Passes, node: usize) -> Kept {
    passes
        .kept
        .get(node)
        .copied()
        .unwrap_or(Kept { from: 0, to: 0 })
}

// Joins a cut with those of a node.
fn join_with(passes: &mut Passes, cut: &Cut, others: Kept) -> Result<(), AllocError> {
    'cuts: for k in others.from..others.to {
        if k < passes.cuts.len() {
            if let Some(both) = union(cut, &passes.cuts[k]) {
                if both.ands <= passes.ands {
                    passes.found.push(both)?;
                }
            }
        }
    }
    Ok(())
}

// Joins the cuts of what an AND reads.
fn join_cuts(passes: &mut Passes, and: And) -> Result<(), AllocError> {
    let left = cuts_at(passes, (and.left >> 1) as usize);
    let right = cuts_at(passes, (and.right >> 1) as usize);
    'cuts: for k in left.from..left.to {
        if k < passes.cuts.len() {
            let cut = passes.cuts[k];
            join_with(passes, &cut, right)?;
        }
    }
    Ok(())
}

// Whether all leaves are live.
fn is_live(live: &[bool], cut: &Cut) -> bool {
    'leaves: for k in 0..cut.count {
        let leaf = cut.leaf(k) as usize;
        if leaf >= live.len() || !live[leaf] {
            return false;
        }
    }
    true
}

// Adds the cuts that covers hint at.
fn add_hints(
    passes: &mut Passes,
    hints: &[Hint],
    live: &[bool],
    node: usize,
) -> Result<(), AllocError> {
    'hints: for k in passes.hint..hints.len() {
        if hints[k].node as usize > node {
            break;
        }
        passes.hint = k.saturating_add(1);
        if hints[k].node as usize == node && is_live(live, &hints[k].cut) {
            passes.found.push(hints[k].cut)?;
        }
    }
    Ok(())
}

// Whether a cut holds one of those that were chosen.
fn holds_another(chosen: &[Cut], cut: &Cut) -> bool {
    'cuts: for other in chosen {
        if other.is_within(cut) {
            return true;
        }
    }
    false
}

// Chooses a cut, unless it holds one that was chosen and such are sought out.
fn choose_cut(chosen: &mut Vec<Cut>, cut: &Cut, few: bool) -> Result<(), AllocError> {
    if !(few && holds_another(chosen, cut)) {
        chosen.push(*cut)?;
    }
    Ok(())
}

// Chooses the cuts of so many leaves that hold no other one.
fn choose_least(passes: &mut Passes, count: usize) -> Result<(), AllocError> {
    let few = passes.found.len() < MOST_COMPARED;
    'cuts: for k in 0..passes.found.len() {
        let cut = passes.found[k];
        if cut.count == count {
            choose_cut(&mut passes.chosen, &cut, few)?;
        }
    }
    Ok(())
}

// Chooses the cuts that hold no other one, those with fewest leaves first.
fn choose(passes: &mut Passes) -> Result<(), AllocError> {
    passes.chosen.clear();
    'counts: for count in 0..7 {
        choose_least(passes, count)?;
    }
    Ok(())
}

// What a cut costs.
fn cost_of(
    areas: &mut Areas<'_>,
    node: usize,
    cut: &Cut,
    aim: Aim,
    noise: u64,
) -> Result<f32, AllocError> {
    match aim {
        Aim::Depth => Ok(areas.flow(cut) + areas.height(cut)),
        Aim::Flow => Ok(late_cost(areas, node, cut, areas.flow(cut), noise, false)),
        Aim::Exact => {
            let exact = areas.exact(cut)?;
            Ok(late_cost(areas, node, cut, exact, noise, true))
        }
    }
}

// A cost with chance in it, and how late the cut comes.
fn late_cost(areas: &Areas<'_>, node: usize, cut: &Cut, cost: f32, noise: u64, exact: bool) -> f32 {
    with_noise(cost, noise, exact) + areas.late(node, cut)
}

// Some chance for a cost, or none.
fn noise_of(passes: &mut Passes) -> u64 {
    if passes.noisy {
        passes.draws.step() >> 56
    } else {
        0
    }
}

// Notes what the cut at a place costs.
fn put_cost(cuts: &mut Vec<Cut>, place: usize, cost: f32) {
    if place < cuts.len() {
        cuts[place].cost = cost;
    }
}

// The costs of the chosen cuts of a node.
fn price(
    passes: &mut Passes,
    areas: &mut Areas<'_>,
    node: usize,
    aim: Aim,
) -> Result<(), AllocError> {
    'cuts: for k in 0..passes.chosen.len() {
        let cut = passes.chosen.get(k).copied().unwrap_or(NO_CUT);
        let noise = noise_of(passes);
        let cost = cost_of(areas, node, &cut, aim, noise)?;
        put_cost(&mut passes.chosen, k, cost);
    }
    Ok(())
}

// A cost with chance in it: less than what a table costs in exact ones, some hundredths in others.
fn with_noise(cost: f32, noise: u64, exact: bool) -> f32 {
    if exact {
        cost + 0.0009 * (noise & 7) as f32
    } else {
        cost * (1.0 + 0.0004 * (noise & 63) as f32)
    }
}

// The place of the least cost from a place on, of equals the first.
fn least_from(cuts: &[Cut], from: usize) -> usize {
    let mut best = from;
    let mut least = f32::INFINITY;
    'cuts: for k in from..cuts.len() {
        if cuts[k].cost < least {
            least = cuts[k].cost;
            best = k;
        }
    }
    best
}

// Keeps the cheapest of the chosen cuts from a place on, at that place.
fn keep_next(passes: &mut Passes, k: usize) -> Result<(), AllocError> {
    let place = least_from(&passes.chosen, k);
    if place < passes.chosen.len() && k < passes.chosen.len() {
        passes.chosen.swap(k, place);
        passes.cuts.push(passes.chosen[k])?;
    }
    Ok(())
}

// Keeps the cheapest of the chosen cuts, the cheapest first, and gives that.
fn keep(passes: &mut Passes) -> Result<Cut, AllocError> {
    let most = passes.most.min(passes.chosen.len());
    'cuts: for k in 0..most {
        keep_next(passes, k)?;
    }
    keep_sources(passes, most)?;
    Ok(passes.chosen.first().copied().unwrap_or(NO_CUT))
}

// Whether all leaves are inputs and latches.
fn is_of_sources(cut: &Cut, first: usize) -> bool {
    'leaves: for k in 0..cut.count {
        if cut.leaf(k) as usize >= first {
            return false;
        }
    }
    true
}

// Keeps besides the cut of inputs and latches alone, if it stands behind the cheapest ones.
fn keep_sources(passes: &mut Passes, most: usize) -> Result<(), AllocError> {
    'cuts: for k in 0..passes.chosen.len() {
        if is_of_sources(&passes.chosen[k], passes.first) {
            if k >= most {
                passes.cuts.push(passes.chosen[k])?;
            }
            return Ok(());
        }
    }
    Ok(())
}

// The cut of a node alone, without leaves for the constant.
fn own_cut(node: usize) -> Cut {
    if node > 0 {
        cut_of((node & 0x7fff_ffff) as u32)
    } else {
        NO_CUT
    }
}

// Notes the cuts of a node, those from a place on and itself.
fn close(passes: &mut Passes, node: usize, from: usize) -> Result<(), AllocError> {
    passes.cuts.push(own_cut(node))?;
    let to = passes.cuts.len();
    if node < passes.kept.len() {
        passes.kept[node] = Kept { from, to };
    }
    Ok(())
}

// Finds cuts of an AND.
fn find(
    passes: &mut Passes,
    areas: &Areas<'_>,
    hints: &[Hint],
    node: usize,
    and: And,
) -> Result<(), AllocError> {
    passes.found.clear();
    join_cuts(passes, and)?;
    add_hints(passes, hints, areas.live, node)?;
    areas.add_old(node, &mut passes.found)?;
    choose(passes)
}

// Gives a node the cheapest of its cuts.
fn take_best(
    passes: &mut Passes,
    areas: &mut Areas<'_>,
    node: usize,
    aim: Aim,
) -> Result<(), AllocError> {
    price(passes, areas, node, aim)?;
    let best = keep(passes)?;
    areas.take(node, &best);
    Ok(())
}

// Chooses the cut of an AND.
fn visit(
    passes: &mut Passes,
    areas: &mut Areas<'_>,
    hints: &[Hint],
    node: usize,
    and: And,
    aim: Aim,
) -> Result<(), AllocError> {
    let exact = aim == Aim::Exact;
    if exact {
        areas.leave(node)?;
    }
    find(passes, areas, hints, node, and)?;
    take_best(passes, areas, node, aim)?;
    if exact {
        areas.enter(node)?;
    }
    Ok(())
}

// A node in a pass.
fn pass_node(
    passes: &mut Passes,
    areas: &mut Areas<'_>,
    hints: &[Hint],
    nodes: Nodes<'_>,
    node: usize,
    aim: Aim,
) -> Result<(), AllocError> {
    let from = passes.cuts.len();
    if let Some(and) = nodes.and(node) {
        visit(passes, areas, hints, node, and, aim)?;
    }
    close(passes, node, from)
}

// One pass.
fn pass(
    passes: &mut Passes,
    areas: &mut Areas<'_>,
    hints: &[Hint],
    nodes: Nodes<'_>,
    aim: Aim,
) -> Result<(), AllocError> {
    passes.cuts.clear();
    passes.hint = 0;
    'nodes: for node in 0..nodes.count() {
        if is_marked(areas.live, node) {
            pass_node(passes, areas, hints, nodes, node, aim)?;
        }
    }
    Ok(())
}

/// The cuts that were chosen, by nodes, and which nodes have tables.
#[derive(Drop)]
pub struct Chosen {
    pub cuts: Vec<Cut>,
    pub tables: Vec<bool>,
}

// How deep tables may lie where they need not lie deeper than this.
fn allowed_for(depth: u32) -> u32 {
    let more = if depth < 3 { 2 } else { depth / 6 };
    depth.saturating_add(more)
}

// How little a choice of so many tables is worth: too deep ones least.
fn worth_of(count: usize, depth: u32, allowed: u32) -> u64 {
    let late = depth.saturating_sub(allowed) as u64;
    late.wrapping_shl(32) | count as u64
}

// How deep tables may lie: a little deeper than where each lies as high as it can.
fn find_allowed(
    alloc: Global,
    passes: &mut Passes,
    reach: &Reach,
    hints: &[Hint],
    nodes: Nodes<'_>,
) -> Result<u32, AllocError> {
    let mut areas = areas_of(alloc, nodes, reach)?;
    pass(passes, &mut areas, hints, nodes, Aim::Depth)?;
    Ok(allowed_for(areas.depth()))
}

// A pass, and what its choice is worth.
fn tried(
    passes: &mut Passes,
    areas: &mut Areas<'_>,
    hints: &[Hint],
    nodes: Nodes<'_>,
    aim: Aim,
    allowed: u32,
) -> Result<u64, AllocError> {
    pass(passes, areas, hints, nodes, aim)?;
    let count = areas.cover()?;
    Ok(worth_of(count, areas.depth(), allowed))
}

// What the next pass goes by.
fn go_on(areas: &mut Areas<'_>, aim: Aim, allowed: u32) {
    if aim == Aim::Exact {
        areas.allow(allowed);
    }
    areas.expect();
}

// All passes; the best choice of them.
fn run(
    alloc: Global,
    passes: &mut Passes,
    areas: &mut Areas<'_>,
    hints: &[Hint],
    nodes: Nodes<'_>,
    allowed: u32,
) -> Result<Chosen, AllocError> {
    let mut least = u64::MAX;
    let mut chosen = areas.choice_of(alloc)?;
    'passes: for aim in PASSES {
        let worth = tried(passes, areas, hints, nodes, aim, allowed)?;
        if worth < least {
            least = worth;
            chosen = areas.choice_of(alloc)?;
        }
        go_on(areas, aim, allowed);
    }
    Ok(chosen)
}

/// Which cuts are looked at: so many of each node, with at most so many ANDs above their leaves; other chance gives others.
#[derive(Clone, Copy, Debug)]
pub struct Choice {
    pub cuts: usize,
    pub ands: u32,
    pub chance: u64,
}

// Nothing is chosen.
fn passes_of(alloc: Global, nodes: Nodes<'_>, choice: Choice) -> Result<Passes, AllocError> {
    let kept = vec![in alloc; Kept { from: 0, to: 0 }; nodes.count()]?;
    let mut draws = Draws::new(choice.chance);
    draws.step();
    Ok(Passes {
        cuts: Vec::new(alloc),
        kept,
        found: Vec::new(alloc),
        chosen: Vec::new(alloc),
        hint: 0,
        most: choice.cuts,
        first: nodes.first,
        ands: choice.ands,
        draws,
        noisy: choice.chance > 0,
    })
}

/// Chooses a cut for each node that needs a table.
pub fn choose_cuts(
    alloc: Global,
    nodes: Nodes<'_>,
    reach: &Reach,
    hints: &[Hint],
    choice: Choice,
) -> Result<Chosen, AllocError> {
    let mut passes = passes_of(alloc, nodes, choice)?;
    let allowed = find_allowed(alloc, &mut passes, reach, hints, nodes)?;
    let mut areas = areas_of(alloc, nodes, reach)?;
    run(alloc, &mut passes, &mut areas, hints, nodes, allowed)
}
